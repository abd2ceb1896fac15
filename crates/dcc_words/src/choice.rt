//! Which pairs of temporaries become words.
//!
//! A pair that is read, taken or set as one word is tried, and then the pairs that are copied half by half from or to one
//! that was taken. Nothing rests on the choice: that the pairs may become words is tested of the graph.

ghost use Rattle.dcc_ir.specs.Views.{graph_of};
ghost use Rattle.dcc_ir.specs.WellFormed.{IsGraph};

use crate::rewriting::reads;
use crate::roles::Pair;
use crate::seeds::seeds_of;
use dcc_ir::{Expr, Graph, Loc, Put, Stmt};
use dcc_live::live_at_start;
use std::alloc::{AllocError, Global};

/// Where a statement stands.
#[derive(Clone, Copy, PartialEq, Eq)]
struct Site {
    /// The place of its block.
    block: usize,
    /// Its place in the block.
    at: usize,
}

impl Site {
    // Whether the two stand beside each other.
    fn is_beside(self, other: Site) -> bool {
        self.block == other.block && self.at.abs_diff(other.at) == 1
    }

    // Whether it stands before another one.
    fn is_before(self, other: Site) -> bool {
        self.block < other.block || (self.block == other.block && self.at < other.at)
    }
}

/// What is known of a temporary.
#[derive(Drop)]
struct Half {
    /// Whether it is no half: it has other than 8 bits, something but a Set writes it, or an argument or what is there
    /// at the start that isn't of a pair.
    barred: bool,
    /// The pair that takes an argument with it.
    taken: Option<Pair>,
    /// Where it is set, in order.
    sets: Vec<Site>,
    /// Where it is copied, in order.
    copies: Vec<Site>,
    /// How often a pair with it was tried.
    tries: u32,
}

/// So often a temporary is tried with another one.
const TRIES: u32 = 8;

/// The choice of pairs in a graph.
#[derive(Drop)]
struct Choice<'a> {
    graph: &'a Graph,
    /// What is known of each temporary.
    halves: Vec<Half>,
    /// The pairs so far; none has a half in common with another.
    pairs: Vec<Pair>,
}

impl<'a> Choice<'a> {
    fn new(alloc: Global, graph: &'a Graph) -> Result<Choice<'a>, AllocError> {
        let mut halves = Vec::new(alloc);
        for bits in &graph.bits {
            halves.push(Half {
                barred: *bits != 8,
                taken: None,
                sets: Vec::new(alloc),
                copies: Vec::new(alloc),
                tries: 0,
            })?;
        }
        Ok(Choice {
            graph,
            halves,
            pairs: Vec::new(alloc),
        })
    }

    fn half(&self, location: Loc) -> Option<&Half> {
        match location {
            Loc::Temp(n) => self.halves.get(n as usize),
            _ => None,
        }
    }

    fn half_mut(&mut self, location: Loc) -> Option<&mut Half> {
        match location {
            Loc::Temp(n) => self.halves.get_mut(n as usize),
            _ => None,
        }
    }

    // The location is no half.
    fn bar(&mut self, location: Loc) {
        if let Some(half) = self.half_mut(location) {
            half.barred = true;
        }
    }

    // The location takes an argument, with the other one of the pair.
    fn take(&mut self, location: Loc, pair: Pair) {
        if let Some(half) = self.half_mut(location) {
            half.barred = half.barred || half.taken.is_some();
            half.taken = Some(pair);
        }
    }

    // Notes where an argument goes.
    fn note_put(&mut self, put: Put) {
        match put {
            Put::Memory => {}
            Put::One(location) => self.bar(location),
            Put::Two(Loc::Temp(low), Loc::Temp(high)) => {
                let pair = Pair { low, high };
                self.take(Loc::Temp(low), pair);
                self.take(Loc::Temp(high), pair);
            }
            Put::Two(low, high) => {
                self.bar(low);
                self.bar(high);
            }
        }
    }

    // Notes what is there where the graph begins.
    fn note_live(&mut self, live: &[Loc]) {
        for location in live {
            if let Some(half) = self.half_mut(*location) {
                half.barred = half.barred || half.taken.is_none();
            }
        }
    }

    // Notes what a statement writes.
    fn note_stmt(&mut self, stmt: &Stmt, site: Site) -> Result<(), AllocError> {
        match stmt {
            Stmt::Set { place, value } => {
                if let Some(half) = self.half_mut(*place) {
                    half.sets.push(site)?;
                }
                if let Expr::Get(from) = value {
                    if let Some(half) = self.half_mut(*from) {
                        half.copies.push(site)?;
                    }
                }
            }
            Stmt::Load { place, .. } | Stmt::Div { place, .. } => self.bar(*place),
            Stmt::Store { .. } => {}
            Stmt::Call { results, .. } => {
                for location in results {
                    self.bar(*location);
                }
            }
            Stmt::Dos { place, .. } => {
                if let Some(location) = place {
                    self.bar(*location);
                }
            }
        }
        Ok(())
    }

    // Notes what the graph takes and writes.
    fn note_graph(&mut self, live: &[Loc]) -> Result<(), AllocError> {
        let graph = self.graph;
        for param in &graph.params {
            self.note_put(param.put);
        }
        self.note_live(live);
        for block in 0..graph.blocks.len() {
            let stmts = &graph.blocks[block].stmts;
            for at in 0..stmts.len() {
                self.note_stmt(&stmts[at], Site { block, at })?;
            }
        }
        Ok(())
    }

    // The location that the Set at a site sets, and its value.
    fn set_at(&self, site: Site) -> Option<(Loc, &'a Expr)> {
        match self.graph.blocks.get(site.block)?.stmts.get(site.at)? {
            Stmt::Set { place, value } => Some((*place, value)),
            _ => None,
        }
    }

    // Whether one Set of a word can stand for the Sets at two sites: they stand beside each other, and the second doesn't
    // read what the first one sets.
    fn joins(&self, one: Site, other: Site) -> bool {
        let (first, second) = if one.is_before(other) {
            (one, other)
        } else {
            (other, one)
        };
        match (self.set_at(first), self.set_at(second)) {
            (Some((location, _)), Some((_, value))) => {
                one.is_beside(other) && !reads(value, location)
            }
            _ => false,
        }
    }

    // Whether both halves are set beside each other, wherever they are.
    fn join_all(&self, low: &Half, high: &Half) -> bool {
        if low.sets.len() != high.sets.len() {
            return false;
        }
        for k in 0..low.sets.len() {
            if !self.joins(low.sets[k], high.sets[k]) {
                return false;
            }
        }
        true
    }

    // Whether the pair becomes a word.
    fn fits(&self, pair: Pair) -> bool {
        let (Some(low), Some(high)) = (
            self.half(Loc::Temp(pair.low)),
            self.half(Loc::Temp(pair.high)),
        ) else {
            return false;
        };
        let is_taken = match (low.taken, high.taken) {
            (None, None) => true,
            (Some(one), Some(other)) => one == pair && other == pair,
            _ => false,
        };
        pair.low != pair.high
            && !low.barred
            && !high.barred
            && low.tries < TRIES
            && high.tries < TRIES
            && is_taken
            && self.join_all(low, high)
    }

    // Notes that a pair with the temporary was tried; one that is a half of a word is none of another.
    fn note_try(&mut self, temporary: u32, fits: bool) {
        if let Some(half) = self.half_mut(Loc::Temp(temporary)) {
            half.tries = half.tries.saturating_add(1);
            half.barred = half.barred || fits;
        }
    }

    // Takes the pair, where it fits.
    fn try_pair(&mut self, pair: Pair) -> Result<(), AllocError> {
        let fits = self.fits(pair);
        self.note_try(pair.low, fits);
        self.note_try(pair.high, fits);
        if fits {
            self.pairs.push(pair)?;
        }
        Ok(())
    }

    // Tries the pair of two locations.
    fn try_locations(&mut self, low: Loc, high: Loc) -> Result<(), AllocError> {
        match (low, high) {
            (Loc::Temp(low), Loc::Temp(high)) => self.try_pair(Pair { low, high }),
            _ => Ok(()),
        }
    }

    // The sites of the first list beside ones of the second, and those.
    fn beside(
        alloc: Global,
        ones: &[Site],
        others: &[Site],
    ) -> Result<Vec<(Site, Site)>, AllocError> {
        let mut sites = Vec::new(alloc);
        let mut k = 0;
        for one in ones {
            while k < others.len() && others[k].is_before(*one) && !others[k].is_beside(*one) {
                k += 1;
            }
            if k < others.len() && others[k].is_beside(*one) {
                sites.push((*one, others[k]))?;
            }
        }
        Ok(sites)
    }

    // Tries the pairs that are copied half by half to a pair.
    fn try_copies(&mut self, alloc: Global, pair: Pair) -> Result<(), AllocError> {
        let sites = match (
            self.half(Loc::Temp(pair.low)),
            self.half(Loc::Temp(pair.high)),
        ) {
            (Some(low), Some(high)) => Self::beside(
                alloc,
                low.copies.as_slice(),
                high.copies.as_slice(),
            )?,
            _ => return Ok(()),
        };
        for (one, other) in sites {
            if let (Some((low, _)), Some((high, _))) = (self.set_at(one), self.set_at(other)) {
                self.try_locations(low, high)?;
            }
        }
        Ok(())
    }

    // Tries the pairs of which a pair is a copy half by half.
    fn try_copied(&mut self, alloc: Global, pair: Pair) -> Result<(), AllocError> {
        let sites = match (
            self.half(Loc::Temp(pair.low)),
            self.half(Loc::Temp(pair.high)),
        ) {
            (Some(low), Some(high)) => Self::beside(
                alloc,
                low.sets.as_slice(),
                high.sets.as_slice(),
            )?,
            _ => return Ok(()),
        };
        for (one, other) in sites {
            if let (Some((_, low)), Some((_, high))) = (self.set_at(one), self.set_at(other)) {
                if let (Expr::Get(low), Expr::Get(high)) = (low, high) {
                    self.try_locations(*low, *high)?;
                }
            }
        }
        Ok(())
    }

    // Tries the pairs that are copied from or to pairs that become words; there are no more of these than temporaries.
    fn spread(&mut self, alloc: Global) -> Result<(), AllocError> {
        for next in 0..self.halves.len() {
            let Some(pair) = self.pairs.get(next).copied() else {
                break;
            };
            self.try_copies(alloc, pair)?;
            self.try_copied(alloc, pair)?;
        }
        Ok(())
    }
}

/// The pairs of temporaries of a graph that are used as words.
pub fn pairs_of(alloc: Global, g: &Graph) -> Result<Vec<Pair>, AllocError>
    requires { IsGraph (graph_of g.now) }
{
    let live = live_at_start(alloc, g)?;
    let mut choice = Choice::new(alloc, g)?;
    choice.note_graph(live.as_slice())?;
    for pair in seeds_of(alloc, g)? {
        choice.try_pair(pair)?;
    }
    choice.spread(alloc)?;
    Ok(choice.pairs)
}
