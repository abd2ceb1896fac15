//! The search for the nodes of a procedure.

ghost use Rattle.std.specs.Prelude.{◌≡◌, ◌≢◌, ◌≤◌, ◌<◌, ◌++◌, ◌∷◌, [], length, slice_set, Some, None, IfOk, IfErr};
ghost use Rattle.std.specs.Prelude.{OnOk};
ghost use Rattle.dcc_machine.specs.MzImage.{IsLoaded};
ghost use Rattle.dcc_prog.specs.Layout.{HasLayout};
ghost use Rattle.dcc_prog.specs.Trail.{IsEntry};
ghost use Rattle.dcc_prog.specs.Refused.{IsRefusedByTrails};
ghost use Rattle.dcc_procs.specs.Search.{seen_at, work_of, with_known, IsFresh, IsArrived, IsFull, IsSound, IsOrder};
ghost use Rattle.dcc_procs.specs.Search.{IsFollowed, AreAllSeen, IsListing};

use crate::accepted::accepted;
use crate::known::{Known, NOTHING};
use crate::onward::successors;
use dcc_machine::Image;
use dcc_prog::{Layout, LimitName, Refusal};
use std::alloc::{AllocError, Global};

// The number of offsets in a segment.
const OFFSETS: usize = 65536;

// The greatest number of instructions in a procedure.
const MOST: usize = 4096;

/// What was seen so far of a procedure, and which offsets are to be followed.
#[derive(Drop)]
pub struct Search {
    /// What is known at each offset to which a trail was followed, of 65,536.
    pub seen: Vec<Option<Known>>,
    /// The offsets to which trails were followed, in the order in which they were first reached.
    pub order: Vec<u16>,
    /// The offsets that are to be followed, the newest last.
    pub pending: Vec<u16>,
}

impl Search {
    /// A search that has seen nothing.
    pub fn new(alloc: Global) -> Result<Search, AllocError>
        ensures { IfOk result (λ search. IsFresh (work_of search)) }
    {
        Ok(Search {
            seen: vec![in alloc; None; OFFSETS]?,
            order: Vec::new(alloc),
            pending: Vec::new(alloc),
        })
    }

    // Notes that a trail comes to an offset for the first time.
    fn reach(&mut self, to: u16, known: Known) -> Result<(), Refusal>
        requires length { length self.old.seen.items ≡ 65536 }
        requires first { seen_at self.old.seen.items to ≡ None }
        ensures reached { OnOk result (work_of self.new
            ≡ with_known (work_of self.old) (self.old.order.items ++ to ∷ []) to known) }
        ensures room { OnOk result (length self.old.order.items ≢ 4096) }
        ensures full { IfErr result (IsFull (work_of self.old) to) }
    {
        if self.order.len() == MOST {
            return Err(Refusal::Limit {
                what: LimitName::Instructions,
                count: 4097,
            });
        }
        self.order.push(to)?;
        self.pending.push(to)?;
        self.seen[usize::from(to)] = Some(known);
        Ok(())
    }

    // Notes that a trail comes to an offset, and what it tells.
    fn arrive(&mut self, to: u16, known: Known) -> Result<(), Refusal>
        requires length { length self.old.seen.items ≡ 65536 }
        requires few { length self.old.order.items ≤ 4096 }
        ensures arrived { OnOk result (IsArrived (work_of self.old) (work_of self.new) to known) }
        ensures small { to < 65536 }
        ensures full { IfErr result (IsFull (work_of self.old) to) }
    {
        let Some(old) = self.seen[usize::from(to)] else {
            return self.reach(to, known);
        };
        if let Some(less) = old.lessened(known) {
            self.pending.push(to)?;
            self.seen[usize::from(to)] = Some(less);
        }
        Ok(())
    }

    // Goes on from the instruction at an offset to its successors.
    fn follow(&mut self, image: &Image, layout: &Layout, entry: u16, at: u16) -> Result<(), Refusal>
        requires loaded { IsLoaded image.now }
        requires layout { HasLayout image.now layout.now }
        requires entry { IsEntry image.now layout.now entry }
        requires sound { IsSound image.now layout.now entry (work_of self.old) }
        requires seen { seen_at self.old.seen.items at ≢ None }
        ensures followed { OnOk result (IsFollowed image.now layout.now entry at (work_of self.old) (work_of self.new)) }
        ensures refused { IfErr result (IsRefusedByTrails image.now layout.now) }
    {
        let Some(known) = self.seen[usize::from(at)] else {
            unreachable!();
        };
        let instr = accepted(image, layout, entry, at, known)?;
        let alloc = *self.pending.allocator();
        let succ = successors(alloc, image, at, instr, known)?;
        for place in 0..succ.len() {
            let to = succ[place];
            self.arrive(to, known.after(at, instr, to))?;
        }
        Ok(())
    }

    /// Follows the trails of the procedure with that entry, where nothing was seen before. Where an instruction that
    /// is reached is a construct, or more than 4,096 are reached, the program is refused.
    pub fn run(&mut self, image: &Image, layout: &Layout, entry: u16) -> Result<(), Refusal>
        requires loaded { IsLoaded image.now }
        requires layout { HasLayout image.now layout.now }
        requires entry { IsEntry image.now layout.now entry }
        requires fresh { IsFresh (work_of self.old) }
        ensures seen { OnOk result (AreAllSeen image.now layout.now entry self.new.seen.items) }
        ensures order { OnOk result (IsOrder image.now layout.now entry self.new.seen.items self.new.order.items) }
        ensures done { OnOk result (self.new.pending.items ≡ []) }
        ensures refused { IfErr result (IsRefusedByTrails image.now layout.now) }
    {
        self.arrive(entry, NOTHING)?;
        while let Some(at) = self.pending.pop() {
            self.follow(image, layout, entry, at)?;
        }
        Ok(())
    }

    // Forgets what was seen at an offset.
    fn forget(&mut self, at: u16)
        requires { length self.old.seen.items ≡ 65536 }
        ensures seen { self.new.seen.items ≡ slice_set self.old.seen.items at None }
        ensures order { self.new.order ≡ self.old.order }
        ensures pending { self.new.pending ≡ self.old.pending }
        ensures small { at < 65536 }
    {
        self.seen[usize::from(at)] = None;
    }

    /// Forgets what was seen.
    pub fn clear(&mut self)
        requires length { length self.old.seen.items ≡ 65536 }
        requires listed { IsListing self.old.seen.items self.old.order.items }
        requires done { self.old.pending.items ≡ [] }
        ensures { IsFresh (work_of self.new) }
    {
        while let Some(at) = self.order.pop() {
            self.forget(at);
        }
    }
}
