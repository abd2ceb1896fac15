//! Which copies may be settled: of a copy `W := T` one statement before it in its chain writes T, W isn't met between the
//! two, and each other read of T stands between them, or behind the copy in the chain before W is written again.
//!
//! A walk along each chain stamps each temporary with the number of the statement that wrote or met it last. What is
//! chosen is tested afterwards, so that nothing rests on it.

ghost use Rattle.dcc_ir.specs.Views.{graph_of};
ghost use Rattle.dcc_ir.specs.WellFormed.{IsGraph};

use crate::chains::chains;
use crate::holders::{Entry, Pair};
use crate::names::Names;
use crate::testing::Choice;
use dcc_flow::{BlockAccess, accesses};
use dcc_ir::{Block, Expr, Graph, Loc, Stmt};
use std::alloc::{AllocError, Global};

/// How many edges of its chain a copied value may pass at most.
const EDGES_MOST: usize = 64;

/// What is known of a temporary.
#[derive(Clone, Copy)]
struct Known {
    /// How often the graph reads it, and writes it.
    reads: usize,
    writes: usize,
    /// The number of the last statement that wrote it, and that met it.
    written: usize,
    met: usize,
    /// The block of the chain that wrote it last, how often it was read since, and the block that read it last.
    block: usize,
    since: usize,
    last: usize,
    /// The number of the copy of it that may be settled, and to which temporary.
    copied: usize,
    to: u32,
    /// Whether another one is copied to it.
    is_target: bool,
}

// Nothing is known.
fn unknown() -> Known {
    Known {
        reads: 0,
        writes: 0,
        written: 0,
        met: 0,
        block: 0,
        since: 0,
        last: 0,
        copied: 0,
        to: 0,
        is_target: false,
    }
}

/// A copy that may be settled: of which temporary, and in which block of the chain.
#[derive(Clone, Copy)]
struct Candidate {
    from: u32,
    copy: usize,
}

impl Candidate {
    // What the name of its source holds where that block of the chain begins: behind the copy also its own value.
    fn entry(&self, to: u32, number: usize) -> Entry {
        let second = if self.copy < number { to } else { self.from };
        Entry {
            place: to,
            pair: Pair {
                first: self.from,
                second,
            },
        }
    }
}

/// What a walk along chains knows of the temporaries.
#[derive(Drop)]
struct Walk {
    known: Vec<Known>,
    /// The number of the statement, and of the last one before the chain.
    now: usize,
    begun: usize,
    candidates: Vec<Candidate>,
}

// The temporary that a location is, if it is one.
fn temporary_of(location: Loc) -> Option<u32> {
    match location {
        Loc::Temp(temporary) => Some(temporary),
        Loc::Half(..) | Loc::Flag(_) | Loc::Cell(..) => None,
    }
}

// The copy of a temporary to another one that a statement is, if it is one: to which, and of which.
fn copy_of(stmt: &Stmt) -> Option<(u32, u32)> {
    match stmt {
        Stmt::Set {
            place: Loc::Temp(to),
            value: Expr::Get(Loc::Temp(from)),
        } if *to != *from => Some((*to, *from)),
        _ => None,
    }
}

impl Walk {
    // What is known of a temporary.
    fn of(&self, temporary: u32) -> Known {
        self.known
            .get(temporary as usize)
            .copied()
            .unwrap_or(unknown())
    }

    // Counts reads and writes.
    fn count(&mut self, reads: &[Loc], writes: &[Loc]) {
        for location in reads {
            if let Some(temporary) = temporary_of(*location) {
                if let Some(known) = self.known.get_mut(temporary as usize) {
                    known.reads = known.reads.saturating_add(1);
                }
            }
        }
        for location in writes {
            if let Some(temporary) = temporary_of(*location) {
                if let Some(known) = self.known.get_mut(temporary as usize) {
                    known.writes = known.writes.saturating_add(1);
                }
            }
        }
    }

    // Counts the reads and writes of a graph.
    fn count_all(&mut self, accesses: &[BlockAccess]) {
        for block in accesses {
            for stmt in &block.stmts {
                self.count(stmt.reads.as_slice(), stmt.writes.as_slice());
            }
            self.count(block.last.as_slice(), &[]);
        }
    }

    // The temporary is met.
    fn meet(&mut self, temporary: u32) {
        let now = self.now;
        if let Some(known) = self.known.get_mut(temporary as usize) {
            known.met = now;
        }
    }

    // A temporary is read in that block of the chain. Where it was copied, it is read as the one that it was copied to,
    // as long as that holds its value.
    fn read(&mut self, temporary: u32, block: usize) {
        self.meet(temporary);
        let known = self.of(temporary);
        if known.copied > self.begun {
            self.meet(known.to);
            if self.of(known.to).written != known.copied {
                return;
            }
        }
        if let Some(known) = self.known.get_mut(temporary as usize) {
            known.since = known.since.saturating_add(1);
            known.last = block;
        }
    }

    // Locations are read in that block of the chain.
    fn read_all(&mut self, locations: &[Loc], block: usize) {
        for location in locations {
            if let Some(temporary) = temporary_of(*location) {
                self.read(temporary, block);
            }
        }
    }

    // Locations are written in that block of the chain.
    fn write_all(&mut self, locations: &[Loc], block: usize) {
        let now = self.now;
        for location in locations {
            if let Some(temporary) = temporary_of(*location) {
                if let Some(known) = self.known.get_mut(temporary as usize) {
                    known.written = now;
                    known.met = now;
                    known.block = block;
                    known.since = 0;
                }
            }
        }
    }

    // Whether the copy of a temporary to another one, which is met here, may be settled as far as is known.
    fn may_settle(&self, to: u32, from: u32) -> bool {
        let source = self.of(from);
        let target = self.of(to);
        source.writes == 1
            && source.written > self.begun
            && source.copied == 0
            && !source.is_target
            && target.met <= source.written
            && target.written < source.written
    }

    // Notes a copy that may be settled.
    fn note(&mut self, to: u32, from: u32, block: usize) -> Result<(), AllocError> {
        let now = self.now;
        if let Some(known) = self.known.get_mut(from as usize) {
            known.copied = now;
            known.to = to;
        }
        if let Some(known) = self.known.get_mut(to as usize) {
            known.is_target = true;
        }
        self.candidates.push(Candidate { from, copy: block })?;
        Ok(())
    }

    // Passes the statements of that block of the chain, and its end.
    fn pass(
        &mut self,
        block: &Block,
        access: &BlockAccess,
        number: usize,
    ) -> Result<(), AllocError> {
        let mut at: usize = 0;
        for stmt in &access.stmts {
            self.now = self.now.saturating_add(1);
            self.read_all(stmt.reads.as_slice(), number);
            if let Some(stmt) = block.stmts.get(at) {
                if let Some((to, from)) = copy_of(stmt) {
                    if self.may_settle(to, from) {
                        self.note(to, from, number)?;
                    }
                }
            }
            self.write_all(stmt.writes.as_slice(), number);
            at = at.saturating_add(1);
        }
        self.now = self.now.saturating_add(1);
        self.read_all(access.last.as_slice(), number);
        Ok(())
    }

    // Settles those of the chain's copies that may be settled.
    fn settle(&self, chain: &[usize], choice: &mut Choice) -> Result<(), AllocError> {
        for candidate in &self.candidates {
            let known = self.of(candidate.from);
            let edges = known.last.saturating_sub(known.block);
            if known.since == known.reads && edges <= EDGES_MOST {
                choice.name(candidate.from, known.to);
                for number in known.block.saturating_add(1)..known.last.saturating_add(1) {
                    if let Some(place) = chain.get(number) {
                        choice.hold(*place, candidate.entry(known.to, number))?;
                    }
                }
            }
        }
        Ok(())
    }
}

/// Names by which copies may be settled.
pub fn choose(alloc: Global, g: &Graph) -> Result<Choice, AllocError>
    requires { IsGraph (graph_of g.now) }
{
    let accesses = accesses(alloc, g)?;
    let mut walk = Walk {
        known: vec![in alloc; unknown(); g.bits.len()]?,
        now: 0,
        begun: 0,
        candidates: Vec::new(alloc),
    };
    walk.count_all(accesses.as_slice());
    let mut choice = Choice::new(alloc, g)?;
    for chain in chains(alloc, g)? {
        walk.begun = walk.now;
        let mut number: usize = 0;
        for place in &chain {
            if let (Some(block), Some(access)) = (g.blocks.get(*place), accesses.get(*place)) {
                walk.pass(block, access, number)?;
            }
            number = number.saturating_add(1);
        }
        walk.settle(chain.as_slice(), &mut choice)?;
        walk.candidates.clear();
    }
    Ok(choice)
}
