//! What is known to be wanted and hasn't been followed yet.

ghost use Rattle.std.specs.Prelude.{◌≡◌, ℕ, ◌<◌, ◌≤◌, [], length, get_or, replicate, IfOk, IfSome, MatchOption, OnOk};
ghost use Rattle.dcc_summaries.specs.Table.{lists_of};
ghost use Rattle.dcc_summaries.specs.Pending.{NoneWait, IsTaken, with_pending};

use crate::table::Want;
use std::alloc::{AllocError, Global};

/// What is known to be wanted and hasn't been followed yet, by the places of its blocks.
///
/// All that waits at a place is followed before the next place has its turn, up through the places and down again, over
/// and over. So what is looked at in a turn stands close together, and flows on to the next place at once.
#[derive(Drop)]
pub struct Pending {
    /// For each place of a block what waits there, in whichever graph, the newest last.
    pub lists: Vec<Vec<Want>>,
    // The place that has its turn.
    at: usize,
    // Whether the turns go down.
    down: bool,
}

impl Pending {
    /// Nothing waits at any of so many places.
    pub fn new(alloc: Global, places: usize) -> Result<Pending, AllocError>
        ensures { IfOk result (λ pending. lists_of pending.lists.items ≡ replicate places []) }
    {
        let mut lists = Vec::new(alloc);
        for _ in 0..places {
            lists.push(Vec::new(alloc))?;
        }
        Ok(Pending {
            lists,
            at: 0,
            down: false,
        })
    }

    /// A want waits at the place of its block, or past the last place, if there is no such place.
    #[tactic(auto, using(crate::proofs::PendingLaws::added_in, crate::proofs::PendingLaws::added_past))]
    pub fn add(&mut self, alloc: Global, want: Want) -> Result<(), AllocError>
        ensures { OnOk result (lists_of self.new.lists.items
            ≡ with_pending (lists_of self.old.lists.items) want.at.block want) }
    {
        let place = want.at.block;
        if place < self.lists.len() {
            self.lists[place].push(want)?;
            return Ok(());
        }
        let mut list = Vec::new(alloc);
        list.push(want)?;
        self.lists.push(list)?;
        Ok(())
    }

    // What waits at a place.
    fn list_at(&self, place: usize) -> &[Want]
        ensures { result.now ≡ get_or (lists_of self.now.lists.items) place [] }
    {
        match self.lists.get(place) {
            Some(list) => list.as_slice(),
            None => &[],
        }
    }

    // The first place from that one on at which something waits.
    #[tactic(auto, using(crate::proofs::PendingLaws::past_none))]
    fn above(&self, start: usize) -> Option<usize>
        ensures within { IfSome result (λ place. place < length self.now.lists.items) }
        ensures waits { MatchOption result
            ((k : ℕ) → start ≤ k → length (get_or (lists_of self.now.lists.items) k []) ≡ 0)
            (λ place. 0 < length (get_or (lists_of self.now.lists.items) place [])) }
    {
        for place in start..self.lists.len() {
            if !self.list_at(place).is_empty() {
                return Some(place);
            }
        }
        None
    }

    // The last place before that one at which something waits.
    #[tactic(auto, using(crate::proofs::PendingLaws::past_none))]
    fn below(&self, end: usize) -> Option<usize>
        ensures within { IfSome result (λ place. place < length self.now.lists.items) }
        ensures waits { MatchOption result
            ((k : ℕ) → k < end → length (get_or (lists_of self.now.lists.items) k []) ≡ 0)
            (λ place. 0 < length (get_or (lists_of self.now.lists.items) place [])) }
    {
        let mut place = end.min(self.lists.len());
        while place > 0 {
            place -= 1;
            if !self.list_at(place).is_empty() {
                return Some(place);
            }
        }
        None
    }

    // The next place at which something waits, upwards and then downwards.
    #[tactic(auto, using(crate::proofs::PendingLaws::both_sides))]
    fn turn_up(&mut self) -> Option<usize>
        ensures lists { self.new.lists ≡ self.old.lists }
        ensures within { IfSome result (λ place. place < length self.old.lists.items) }
        ensures waits { MatchOption result (NoneWait (lists_of self.old.lists.items))
            (λ place. 0 < length (get_or (lists_of self.old.lists.items) place [])) }
    {
        if let Some(place) = self.above(self.at) {
            return Some(place);
        }
        self.down = true;
        self.below(self.at)
    }

    // The next place at which something waits, downwards and then upwards.
    #[tactic(auto, using(crate::proofs::PendingLaws::both_sides))]
    fn turn_down(&mut self) -> Option<usize>
        ensures lists { self.new.lists ≡ self.old.lists }
        ensures within { IfSome result (λ place. place < length self.old.lists.items) }
        ensures waits { MatchOption result (NoneWait (lists_of self.old.lists.items))
            (λ place. 0 < length (get_or (lists_of self.old.lists.items) place [])) }
    {
        if let Some(place) = self.below(self.at.saturating_add(1)) {
            return Some(place);
        }
        self.down = false;
        self.above(self.at)
    }

    // The next place at which something waits.
    fn next_place(&mut self) -> Option<usize>
        ensures lists { self.new.lists ≡ self.old.lists }
        ensures within { IfSome result (λ place. place < length self.old.lists.items) }
        ensures waits { MatchOption result (NoneWait (lists_of self.old.lists.items))
            (λ place. 0 < length (get_or (lists_of self.old.lists.items) place [])) }
    {
        if self.down {
            self.turn_down()
        } else {
            self.turn_up()
        }
    }

    /// Takes a want that waits, if there is one.
    #[tactic(auto, using(crate::proofs::PendingLaws::taken_is, crate::proofs::PendingLaws::some_waits))]
    pub fn take(&mut self) -> Option<Want>
        ensures { MatchOption result (NoneWait (lists_of self.old.lists.items))
            (IsTaken (lists_of self.old.lists.items) (lists_of self.new.lists.items)) }
    {
        let place = self.next_place()?;
        self.at = place;
        let Some(want) = self.lists[place].pop() else {
            return None;
        };
        Some(want)
    }
}
