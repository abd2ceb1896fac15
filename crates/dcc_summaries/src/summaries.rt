//! What passes between the procedures of a program.

ghost use Rattle.std.specs.Prelude.{◌≡◌, ◌<◌, ◌&&◌, not, filter, length, IfOk, IfErr, OnOk, MatchOption};
ghost use Rattle.std.specs.List.{list_all};
ghost use Rattle.dcc_ir.specs.Live.{block_in};
ghost use Rattle.dcc_ir.specs.Location.{same_location};
ghost use Rattle.dcc_ir.specs.Passing.{passed};
ghost use Rattle.dcc_ir.specs.Views.{graph_of, program_of, summary_of, summaries_of};
ghost use Rattle.dcc_ir.specs.WellFormed.{IsProgram};
ghost use Rattle.dcc_sums.specs.Summaries.{AreSummaries, ReusesNone, GivesOneValue};
ghost use Rattle.dcc_summaries.specs.Points.{IsPoint, site_in, graph_in};
ghost use Rattle.dcc_summaries.specs.Found.{AreFound};
ghost use Rattle.dcc_summaries.specs.Summaries as spec;
ghost use Rattle.dcc_summaries.specs.Summaries.{IsFault, IsReusedAt, IsSummaryOf, changed_by, is_param, sum_of};
ghost use Rattle.dcc_summaries.specs.Summaries.{reuses, reuses_one};

use crate::backwards::{Found, find_all};
use crate::follow::is_changed;
use crate::points::{Point, Site, site_at};
use crate::table::Want;
use dcc_ir::plain::scene::same_location;
use dcc_ir::{Graph, IrProgram, Loc, PASSED_LOCATIONS, Param, Put, Stmt, Sum, Sums};
use dcc_modref::{is_among, passes};
use dcc_num::{Half, Reg};
use std::alloc::{AllocError, AllocFailed, Global};

/// Why a program has no summaries that a text can have.
#[derive(Clone, Copy, PartialEq, Eq, Debug)]
pub enum SumsFault {
    /// In a block at the address an argument is wanted after a call that may change it.
    ArgumentReused { at: u16 },
    /// The procedure at the address gives several values back.
    SeveralResults { at: u16 },
    /// Memory ran out.
    Memory,
}

impl From<AllocError> for SumsFault {
    ghost use Rattle.dcc_summaries.specs.declared.summaries.SumsFault.TheVariants.{Memory};

    ghost from_gives = { λ _ fault. fault ≡ Memory };

    fn from(_: AllocError) -> Self {
        SumsFault::Memory
    }
}

impl<T: Drop> From<AllocFailed<T>> for SumsFault {
    ghost use Rattle.dcc_summaries.specs.declared.summaries.SumsFault.TheVariants.{Memory};

    ghost from_gives = { λ _ fault. fault ≡ Memory };

    fn from(_: AllocFailed<T>) -> Self {
        SumsFault::Memory
    }
}

// The address of the block in which a point stands.
fn address_of(p: &IrProgram, at: Point) -> u16
    requires { IsPoint (program_of p.now) at }
    ensures { result ≡ (block_in (graph_in (program_of p.now) at.graph) at.block).at }
{
    let block = &p.graphs[at.graph].blocks[at.block];
    block.at
}

// Whether the location is a half of the register.
fn is_half_of(register: Reg, location: Loc) -> bool
    ensures { result ≡ spec.is_half_of register location }
{
    same_location(location, Loc::Half(register, Half::Low))
        || same_location(location, Loc::Half(register, Half::High))
}

// Whether the location is a half of AX or of DX.
fn is_in_pair(location: Loc) -> bool
    ensures { result ≡ spec.is_in_pair location }
{
    is_half_of(Reg::Ax, location) || is_half_of(Reg::Dx, location)
}

// Whether all of the locations are halves of the register.
fn all_halves(register: Reg, locations: &[Loc]) -> bool
    ensures { result ≡ list_all (spec.is_half_of register) locations.now }
{
    locations
        .iter()
        .all(|location| is_half_of(register, *location))
}

// Whether all of the locations are halves of AX and DX.
fn all_in_pair(locations: &[Loc]) -> bool
    ensures { result ≡ list_all spec.is_in_pair locations.now }
{
    locations.iter().all(|location| is_in_pair(*location))
}

// Whether all of the locations are the given one.
fn all_same(first: Loc, locations: &[Loc]) -> bool
    ensures { result ≡ list_all (same_location first) locations.now }
{
    locations
        .iter()
        .all(|location| same_location(first, *location))
}

// Whether the locations hold at most one value.
fn is_one_value(locations: &[Loc]) -> bool
    ensures { result ≡ spec.is_one_value locations.now }
{
    let Some((first, rest)) = locations.split_first() else {
        return true;
    };
    match first {
        Loc::Half(register, _) => all_halves(*register, rest) || all_in_pair(locations),
        Loc::Flag(_) => all_same(*first, rest),
        Loc::Cell(..) | Loc::Temp(_) => false,
    }
}

// Whether a param is of the location, and isn't on the stack.
fn is_of(param: &Param, location: Loc) -> bool
    ensures { result ≡ (not param.now.stack && spec.sets_one location param.now.put) }
{
    !param.stack
        && match param.put {
            Put::One(other) => same_location(location, other),
            Put::Memory | Put::Two(..) => false,
        }
}

// Whether one of the params is of the location, and isn't on the stack.
fn takes(params: &[Param], location: Loc) -> bool
    ensures { result ≡ spec.takes params.now location }
{
    params.iter().any(|param| is_of(param, location))
}

impl Found {
    // Whether the location is wanted after some call of the procedure of that entry.
    fn wanted_after(&self, entry: u16, location: Loc) -> bool
        ensures { result ≡ spec.wanted_after self.now entry location }
    {
        self.calls.iter().any(|port| {
            port.entry == entry && is_among(self.wants.after(port.at), location)
        })
    }

    // Whether the procedure of that entry changes the location.
    fn changes(&self, entry: u16, location: Loc) -> bool
        requires { length self.now.changed.items ≡ 16 }
        ensures { result ≡ changed_by self.now entry location }
    {
        is_changed(self.changed.as_slice(), entry, location)
    }

    // What the graph at that place takes.
    fn params(&self, alloc: Global, place: usize, graph: &Graph) -> Result<Vec<Loc>, AllocError>
        ensures { IfOk result (λ list. list.items ≡ filter (is_param self.now place (graph_of graph.now)) passed) }
    {
        let at = Point {
            graph: place,
            block: 0,
            done: 0,
        };
        PASSED_LOCATIONS
            .iter()
            .copied()
            .filter(|location| {
                let want = Want {
                    at,
                    location: *location,
                };
                takes(graph.params.as_slice(), *location) && self.wants.has(want)
            })
            .collect(alloc)
    }

    // What the procedure of that entry gives back.
    fn results(&self, alloc: Global, entry: u16) -> Result<Vec<Loc>, AllocError>
        requires { length self.now.changed.items ≡ 16 }
        ensures { IfOk result (λ list. list.items ≡ filter (spec.is_result self.now entry) passed) }
    {
        PASSED_LOCATIONS
            .iter()
            .copied()
            .filter(|location| self.changes(entry, *location)
                && self.wanted_after(entry, *location))
            .collect(alloc)
    }

    // What the procedure of that entry doesn't change.
    fn preserved(&self, alloc: Global, entry: u16) -> Result<Vec<Loc>, AllocError>
        requires { length self.now.changed.items ≡ 16 }
        ensures { IfOk result (λ list. list.items ≡ filter (λ l. not (changed_by self.now entry l)) passed) }
    {
        PASSED_LOCATIONS
            .iter()
            .copied()
            .filter(|location| !self.changes(entry, *location))
            .collect(alloc)
    }

    // What passes between the graph at that place and its callers.
    fn sum(&self, alloc: Global, place: usize, graph: &Graph) -> Result<Sum, AllocError>
        requires { length self.now.changed.items ≡ 16 }
        ensures { IfOk result (λ sum. summary_of sum ≡ sum_of self.now place (graph_of graph.now)) }
    {
        Ok(Sum {
            params: self.params(alloc, place, graph)?,
            results: self.results(alloc, graph.entry)?,
            preserved: self.preserved(alloc, graph.entry)?,
        })
    }

    // Whether one of the locations, to which a call at a point gives a byte of an argument back, is wanted after the
    // call.
    fn reuses_one(&self, at: Point, results: &[Loc]) -> bool
        ensures { result ≡ reuses_one self.now at results.now }
    {
        let after = self.wants.after(at);
        results.iter().any(|location| !passes(*location) && is_among(after, *location))
    }

    // Whether a byte of an argument is wanted after a call at a point.
    fn reuses(&self, p: &IrProgram, at: Point) -> bool
        requires { IsPoint (program_of p.now) at }
        ensures { result ≡ reuses self.now at (site_in (program_of p.now) at) }
    {
        match site_at(p, at) {
            Site::Executes(stmt) => match stmt {
                Stmt::Call { results, .. } => self.reuses_one(at, results.as_slice()),
                _ => false,
            },
            Site::Ends(_) => false,
        }
    }

    // The address of a block in which an argument is wanted after a call that may change it, if there is one.
    fn reused(&self, p: &IrProgram) -> Option<u16>
        requires program { IsProgram (program_of p.now) }
        requires found { AreFound (program_of p.now) self.now }
        ensures { MatchOption result (ReusesNone (program_of p.now)) (IsReusedAt (program_of p.now)) }
    {
        for port in &self.calls {
            if self.reuses(p, port.at) {
                return Some(address_of(p, port.at));
            }
        }
        None
    }

    // What passes between the graph at that place and its callers, if it doesn't give several values back.
    fn sum_at(&self, alloc: Global, p: &IrProgram, place: usize) -> Result<Sum, SumsFault>
        requires program { IsProgram (program_of p.now) }
        requires found { AreFound (program_of p.now) self.now }
        requires place { place < length p.now.graphs.items }
        ensures sum { IfOk result (λ sum. IsSummaryOf (program_of p.now) place (summary_of sum)) }
        ensures fault { IfErr result (IsFault (program_of p.now)) }
    {
        let graph = &p.graphs[place];
        let sum = self.sum(alloc, place, graph)?;
        if is_one_value(sum.results.as_slice()) {
            Ok(sum)
        } else {
            Err(SumsFault::SeveralResults { at: graph.entry })
        }
    }

    // What passes between each procedure and its callers, if none gives several values back.
    fn sums(&self, alloc: Global, p: &IrProgram) -> Result<Sums, SumsFault>
        requires program { IsProgram (program_of p.now) }
        requires found { AreFound (program_of p.now) self.now }
        ensures sums { IfOk result (λ sums. AreSummaries (program_of p.now) (summaries_of sums)) }
        ensures one { IfOk result (λ sums. GivesOneValue (summaries_of sums)) }
        ensures fault { IfErr result (IsFault (program_of p.now)) }
    {
        let mut of = Vec::new(alloc);
        for place in 0..p.graphs.len() {
            let sum = self.sum_at(alloc, p, place)?;
            of.push(sum)?;
        }
        Ok(Sums { of })
    }
}

/// What passes between each procedure of a program and its callers, by the places of graphs.
///
/// # Errors
///
/// Where an argument is wanted after a call that may change it, where a procedure gives several values back, and where
/// memory runs out.
pub fn sums(alloc: Global, p: &IrProgram) -> Result<Sums, SumsFault>
    requires { IsProgram (program_of p.now) }
    ensures sums { IfOk result (λ sums. AreSummaries (program_of p.now) (summaries_of sums)) }
    ensures none { OnOk result (ReusesNone (program_of p.now)) }
    ensures one { IfOk result (λ sums. GivesOneValue (summaries_of sums)) }
    ensures fault { IfErr result (IsFault (program_of p.now)) }
{
    let found = find_all(alloc, p)?;
    if let Some(at) = found.reused(p) {
        return Err(SumsFault::ArgumentReused { at });
    }
    found.sums(alloc, p)
}
