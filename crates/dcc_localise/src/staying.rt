//! Which arguments and values given back stay.

ghost use Rattle.std.specs.Prelude.{◌≡◌, nat_eq, IfOk, OnOk, Some, option_map};
ghost use Rattle.std.specs.Option.{option_copied};
ghost use Rattle.indexmap.specs.IndexMap.{Updates};
ghost use Rattle.dcc_ir.specs.Views.{graph_of, summary_of, program_of, summaries_of};
ghost use Rattle.dcc_ir.specs.Live as live;
ghost use Rattle.dcc_sums.specs.Localised as localised;
ghost use Rattle.dcc_sums.specs.Localised.{trim_by};
ghost use Rattle.dcc_localise.specs.Staying as spec;
ghost use Rattle.dcc_localise.specs.Staying.{taken_of, given_of, stays_of, trim_in, told};

use dcc_ir::plain::scene::same_location;
use dcc_ir::{Graph, IrProgram, Loc, PASSED_LOCATIONS, Param, Put, Sum, Sums};
use indexmap::IndexMap;
use std::alloc::{AllocError, Global};

/// Which params of a graph stay and which values that it gives back, by their places.
#[derive(Drop)]
pub struct Stays {
    pub params: Vec<bool>,
    pub results: Vec<bool>,
}

/// What stays of each graph, by the graph's entry.
#[derive(Drop)]
pub struct Staying {
    pub by_entry: IndexMap<u16, Stays>,
}

// Whether a location is in the list.
fn is_among(locations: &[Loc], location: Loc) -> bool
    ensures { result ≡ live.is_among locations.now location }
{
    locations
        .iter()
        .any(|other| same_location(location, *other))
}

// Whether a param stays where the graph takes the given locations.
fn is_taken(params: &[Loc], param: Param) -> bool
    ensures { result ≡ localised.is_taken params.now (Some param) }
{
    param.stack
        || match param.put {
            Put::One(location) => is_among(params, location),
            Put::Memory | Put::Two(..) => false,
        }
}

// Which params stay where the graph takes the given locations.
fn taken(alloc: Global, locations: &[Loc], params: &[Param]) -> Result<Vec<bool>, AllocError>
    ensures { IfOk result (λ stays. stays.items ≡ taken_of locations.now params.now) }
{
    let mut stays = Vec::new(alloc);
    for param in params {
        stays.push(is_taken(locations, *param))?;
    }
    Ok(stays)
}

// Which values stay where the graph gives the given locations back.
fn given(alloc: Global, locations: &[Loc]) -> Result<Vec<bool>, AllocError>
    ensures { IfOk result (λ stays. stays.items ≡ given_of locations.now) }
{
    let mut stays = Vec::new(alloc);
    for location in PASSED_LOCATIONS.as_slice() {
        stays.push(is_among(locations, *location))?;
    }
    Ok(stays)
}

// What stays of a graph that has this summary.
fn stays_by(alloc: Global, graph: &Graph, sum: &Sum) -> Result<Stays, AllocError>
    ensures { IfOk result (λ stays. spec.places_of stays ≡ stays_of (graph_of graph.now) (summary_of sum.now)) }
{
    Ok(Stays {
        params: taken(alloc, sum.params.as_slice(), graph.params.as_slice())?,
        results: given(alloc, sum.results.as_slice())?,
    })
}

// What stays of a graph; without a summary it takes the words on the stack alone, and gives nothing back.
fn what_stays(alloc: Global, graph: &Graph, sum: Option<&Sum>) -> Result<Stays, AllocError>
    ensures { IfOk result (λ stays. spec.places_of stays
        ≡ stays_of (graph_of graph.now) (spec.summary_or_none (option_map summary_of (option_copied sum.entry)))) }
{
    match sum {
        Some(sum) => stays_by(alloc, graph, sum),
        None => Ok(Stays {
            params: taken(alloc, &[], graph.params.as_slice())?,
            results: given(alloc, &[])?,
        }),
    }
}

// Puts what stays of the graph with that entry into the map, in place of what was told of it.
fn put(by_entry: &mut IndexMap<u16, Stays>, entry: u16, stays: Stays) -> Result<(), AllocError>
    ensures { OnOk result (Updates nat_eq by_entry.old by_entry.new entry (Some stays)) }
{
    by_entry.insert(entry, stays)?;
    Ok(())
}

impl Staying {
    /// What stays of the graphs of a program that have these summaries.
    pub fn new(alloc: Global, p: &IrProgram, sums: &Sums) -> Result<Staying, AllocError>
        ensures { IfOk result (λ staying.
            trim_in staying.by_entry.entries ≡ trim_by (program_of p.now).graphs (summaries_of sums.now)) }
    {
        let mut by_entry = IndexMap::new(alloc);
        for place in (0..p.graphs.len()).rev() {
            let graph = &p.graphs[place];
            let stays = what_stays(alloc, graph, sums.of.get(place))?;
            put(&mut by_entry, graph.entry, stays)?;
        }
        Ok(Staying { by_entry })
    }

    /// Which params of the graph with that entry stay, by their places.
    pub fn takes(&self, entry: u16) -> &[bool]
        ensures { result.now ≡ spec.params_in (told self.now.by_entry.entries entry) }
    {
        match self.by_entry.get(&entry) {
            Some(stays) => stays.params.as_slice(),
            None => &[],
        }
    }

    /// Which values that the graph with that entry gives back stay, by their places.
    pub fn gives(&self, entry: u16) -> &[bool]
        ensures { result.now ≡ spec.results_in (told self.now.by_entry.entries entry) }
    {
        match self.by_entry.get(&entry) {
            Some(stays) => stays.results.as_slice(),
            None => &[],
        }
    }
}
