//! Which places are used after each block.

ghost use Rattle.std.specs.Prelude.{◌≡◌, ◌≤◌, ◌<◌, ◌+◌, ◌*◌, true, false, [], length, get_or, replicate, All, IfOk};
ghost use Rattle.std.specs.Prelude.{IfSome};
ghost use Rattle.std.specs.Prelude.{MatchOption, OnOk};
ghost use Rattle.dcc_flow.specs.Edges.{rows, AreWithin, entries};
ghost use Rattle.dcc_flow.specs.Bits.{words_for, flowed};
ghost use Rattle.dcc_flow.specs.Uses.{AreLists, AreUses};
ghost use Rattle.dcc_flow.specs.Work.{work_of, AllFlowed, IsTaken, first_work, with_answer, spread, spread_from};

use crate::bits::Bits;
use crate::edges::sources;
use crate::search::order_of;
use crate::steps::Steps;
use std::alloc::{AllocError, Global};
use std::sync::ledger::Ledger;

/// What flows from a block to the blocks before it.
#[derive(Drop)]
pub struct Flow<'a> {
    /// The places that it uses.
    pub used: &'a Bits,
    /// The places that come out of it.
    pub out: &'a Bits,
    /// The places that it writes.
    pub written: &'a Bits,
}

/// The answers so far, and which of them have to flow on.
#[derive(Drop)]
pub struct Work {
    /// Which places are known to be used after each block.
    pub answer: Vec<Bits>,
    /// Whether the answer of a block has to flow on.
    pub queued: Vec<bool>,
    /// In which order blocks have their turns, over and over.
    turns: Vec<usize>,
    /// Up to which place of that order blocks have had them.
    at: usize,
}

// In which order blocks have their turns, where these blocks follow each block: those that are reached from block 0 in
// post order, and then in reverse post order. What flows from a block to those before it meets few blocks twice in the
// one, and what flows along edges that retreat in the other.
fn turns_of(alloc: Global, next: &Vec<Vec<u32>>) -> Result<Vec<usize>, AllocError>
    requires { AreWithin (rows next.now.items) }
{
    let mut turns = Vec::new(alloc);
    if next.is_empty() {
        return Ok(turns);
    }
    let order = order_of(alloc, next)?;
    for block in order.iter().rev() {
        turns.push(*block as usize)?;
    }
    for block in &order {
        turns.push(*block as usize)?;
    }
    Ok(turns)
}

// So many empty answers.
fn no_answers(alloc: Global, count: usize, len: usize) -> Result<Vec<Bits>, AllocError>
    ensures { IfOk result (λ answer. answer.items ≡ replicate count (replicate len false)) }
{
    let mut answer = Vec::new(alloc);
    for _ in 0..count {
        answer.push(Bits::new(alloc, len)?)?;
    }
    Ok(answer)
}

impl Work {
    /// All answers are empty, and each has to flow on, where these blocks follow each block.
    pub fn new(alloc: Global, next: &Vec<Vec<u32>>, len: usize) -> Result<Work, AllocError>
        requires { AreWithin (rows next.now.items) }
        ensures { IfOk result (λ work. work_of work ≡ first_work (length next.now.items) len) }
    {
        let turns = turns_of(alloc, next)?;
        Ok(Work {
            answer: no_answers(alloc, next.len(), len)?,
            queued: vec![in alloc; true; next.len()]?,
            turns,
            at: 0,
        })
    }

    // Whether the answer of a block has to flow on.
    fn waits(&self, block: usize) -> bool
        ensures { result ≡ get_or self.now.queued.items block false }
    {
        self.queued.get(block).copied().unwrap_or(false)
    }

    // The next block in the order of turns whose answer has to flow on, if one is left there.
    fn next_turn(&mut self) -> Option<usize>
        ensures same { work_of self.new ≡ work_of self.old }
        ensures waits { IfSome result (λ block. get_or self.old.queued.items block false ≡ true) }
    {
        while self.at < self.turns.len() {
            let block = self.turns[self.at];
            self.at += 1;
            if self.waits(block) {
                return Some(block);
            }
        }
        None
    }

    // The first block whose answer has to flow on, if there is one.
    fn first_waiting(&self) -> Option<usize>
        ensures { MatchOption result (AllFlowed (work_of self.now))
            (λ block. get_or self.now.queued.items block false ≡ true) }
    {
        for block in 0..self.queued.len() {
            if self.queued[block] {
                return Some(block);
            }
        }
        None
    }

    // A block whose answer has to flow on, if there is one: the next one in the order of turns, which begins again at
    // its end, and one that isn't in it where no other is left.
    fn next_waiting(&mut self) -> Option<usize>
        ensures same { work_of self.new ≡ work_of self.old }
        ensures waits { MatchOption result (AllFlowed (work_of self.old))
            (λ block. get_or self.old.queued.items block false ≡ true) }
    {
        if let Some(block) = self.next_turn() {
            return Some(block);
        }
        self.at = 0;
        if let Some(block) = self.next_turn() {
            return Some(block);
        }
        self.first_waiting()
    }

    /// Takes a block whose answer has to flow on, if there is one.
    pub fn take(&mut self) -> Option<usize>
        ensures { MatchOption result (AllFlowed (work_of self.old) × (work_of self.new ≡ work_of self.old))
            (IsTaken (work_of self.old) (work_of self.new)) }
    {
        let block = self.next_waiting()?;
        self.queued[block] = false;
        Some(block)
    }

    // What a block uses, and what comes out of it, flows to a block before it.
    fn flow_to<L: Ledger>(&mut self, source: usize, flow: &Flow<'_>, steps: &mut Steps<L>)
        requires source { source < length self.old.answer.items }
        requires queued { length self.old.queued.items ≡ length self.old.answer.items }
        requires list { length (get_or self.old.answer.items source []) ≡ length flow.now.used.now }
        requires out { length flow.now.out.now ≡ length flow.now.used.now }
        requires written { length flow.now.written.now ≡ length flow.now.used.now }
        ensures work { work_of self.new ≡ with_answer (work_of self.old) source (flowed
            (get_or self.old.answer.items source []) flow.now.used.now flow.now.out.now flow.now.written.now) }
        ensures cost { steps.new ≡ steps.old + words_for (length flow.now.used.now) }
    {
        let answer = &mut self.answer[source];
        if answer.flow(flow.used, flow.out, flow.written, steps) {
            self.queued[source] = true;
        }
    }

    /// What a block uses, and what comes out of it, flows to each of these blocks before it.
    pub fn spread<L: Ledger>(&mut self, sources: &[usize], flow: &Flow<'_>, steps: &mut Steps<L>)
        requires sources { All (λ source. source < length self.old.answer.items) sources.now }
        requires queued { length self.old.queued.items ≡ length self.old.answer.items }
        requires lists { All (λ bits. length bits ≡ length flow.now.used.now) self.old.answer.items }
        requires out { length flow.now.out.now ≡ length flow.now.used.now }
        requires written { length flow.now.written.now ≡ length flow.now.used.now }
        ensures work { work_of self.new
            ≡ spread flow.now.used.now flow.now.out.now flow.now.written.now (work_of self.old) sources.now }
        ensures cost { steps.new ≤ steps.old + length sources.now * words_for (length flow.now.used.now) }
    {
        for source in sources {
            self.flow_to(*source, flow, steps);
        }
    }

    // The answer of a block flows to each of these blocks before it.
    fn flow_from<L: Ledger>(
        &mut self,
        block: usize,
        sources: &[usize],
        used: &Bits,
        written: &Bits,
        steps: &mut Steps<L>,
    ) -> Result<(), AllocError>
        requires block { block < length self.old.answer.items }
        requires sources { All (λ source. source < length self.old.answer.items) sources.now }
        requires queued { length self.old.queued.items ≡ length self.old.answer.items }
        requires lists { All (λ bits. length bits ≡ length used.now) self.old.answer.items }
        requires written { length written.now ≡ length used.now }
        ensures work { OnOk result (work_of self.new
            ≡ spread_from (work_of self.old) block used.now written.now sources.now) }
        ensures cost { steps.new ≤ steps.old + length sources.now * words_for (length used.now) }
    {
        let out = &self.answer[block].copy()?;
        self.spread(sources, &Flow { used, out, written }, steps);
        Ok(())
    }
}

/// For each block the places that are used after it before they are written, where these blocks follow each block and
/// it uses and writes these places.
pub fn solve<L: Ledger>(
    alloc: Global,
    next: &Vec<Vec<u32>>,
    used: &Vec<Bits>,
    written: &Vec<Bits>,
    len: usize,
    steps: &mut Steps<L>,
) -> Result<Vec<Bits>, AllocError>
    requires next { AreWithin (rows next.now.items) }
    requires used { AreLists (length next.now.items) len used.now.items }
    requires written { AreLists (length next.now.items) len written.now.items }
    ensures exact { IfOk result
        (λ answer. AreUses (rows next.now.items) used.now.items written.now.items len answer.items) }
    ensures cost { steps.new ≤ steps.old + entries (rows next.now.items) * (len + 1) * words_for len }
{
    let sources = sources(alloc, next)?;
    let mut work = Work::new(alloc, next, len)?;
    while let Some(block) = work.take() {
        work.flow_from(
            block,
            sources[block].as_slice(),
            &used[block],
            &written[block],
            steps,
        )?;
    }
    Ok(work.answer)
}
