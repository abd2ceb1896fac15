//! Temporaries that take no argument, that one statement writes, and of which one Get stands in the graph.

ghost use Rattle.std.specs.Prelude.{◌≡◌, ◌++◌, ◌&&◌, not, flat_map, map, IfOk, OnOk, MatchBool};
ghost use Rattle.dcc_ir.specs.Tree.{Graph as Tree};
ghost use Rattle.dcc_ir.specs.Views.{graph_of};
ghost use Rattle.dcc_flow.specs.Access.{block_access_in};
ghost use Rattle.dcc_flow.specs.Marks.{members};
ghost use Rattle.dcc_passes.specs.Renaming.{param_places};
ghost use Rattle.dcc_fold.specs.Alone as spec;
ghost use Rattle.dcc_fold.specs.Alone.{IsCounted, AreCounted};
ghost use Rattle.dcc_fold.specs.Joinable.{IsAlone};

use dcc_flow::{BlockAccess, Marks, accesses};
use dcc_ir::{Graph, Loc, Put};
use std::alloc::{AllocError, Global};

/// Which locations stand in a list, and which stand there more than once.
#[derive(Drop)]
pub struct Counts {
    seen: Marks,
    again: Marks,
}

/// How often a graph writes and reads its locations, and which of them take arguments.
#[derive(Drop)]
pub struct Alone {
    params: Marks,
    writes: Counts,
    reads: Counts,
}

// Which locations stand in the list, and which stand there more than once.
fn counted(alloc: Global, list: &[Loc]) -> Result<Counts, AllocError>
    ensures { IfOk result (λ counts. IsCounted counts.seen counts.again list.now) }
{
    let mut seen = Marks::new(alloc);
    let mut again = Marks::new(alloc);
    for location in list {
        if seen.contains(*location) {
            again.add(*location)?;
        }
        seen.add(*location)?;
    }
    Ok(Counts { seen, again })
}

// The locations that the statements of blocks write, each as often as they do.
fn all_writes(alloc: Global, blocks: &Vec<BlockAccess>) -> Result<Vec<Loc>, AllocError>
    ensures { IfOk result (λ list. list.items ≡ flat_map spec.block_writes (map block_access_in blocks.now.items)) }
{
    let mut list = Vec::new(alloc);
    for block in blocks {
        add_writes(&mut list, block)?;
    }
    Ok(list)
}

// Puts the locations that the statements of a block write at the end of a list.
fn add_writes(list: &mut Vec<Loc>, block: &BlockAccess) -> Result<(), AllocError>
    ensures { OnOk result (list.new.items ≡ list.old.items ++ spec.block_writes (block_access_in block.now)) }
{
    for access in &block.stmts {
        list.extend_from_slice(access.writes.as_slice())?;
    }
    Ok(())
}

// The locations that blocks read, each as often as they do.
fn all_reads(alloc: Global, blocks: &Vec<BlockAccess>) -> Result<Vec<Loc>, AllocError>
    ensures { IfOk result (λ list. list.items ≡ flat_map spec.block_reads (map block_access_in blocks.now.items)) }
{
    let mut list = Vec::new(alloc);
    for block in blocks {
        add_reads(&mut list, block)?;
    }
    Ok(list)
}

// Puts the locations that a block reads at the end of a list.
fn add_reads(list: &mut Vec<Loc>, block: &BlockAccess) -> Result<(), AllocError>
    ensures { OnOk result (list.new.items ≡ list.old.items ++ spec.block_reads (block_access_in block.now)) }
{
    for access in &block.stmts {
        list.extend_from_slice(access.reads.as_slice())?;
    }
    list.extend_from_slice(block.last.as_slice())
}

// The locations that take arguments.
fn places(alloc: Global, g: &Graph) -> Result<Vec<Loc>, AllocError>
    ensures { IfOk result (λ list. list.items ≡ param_places (graph_of g.now).params) }
{
    let mut list = Vec::new(alloc);
    for param in &g.params {
        match param.put {
            Put::Memory => {}
            Put::One(location) => list.push(location)?,
            Put::Two(low, high) => {
                list.push(low)?;
                list.push(high)?;
            }
        }
    }
    Ok(list)
}

impl Counts {
    // Whether the location stands just once in the list.
    fn is_one(&self, location: Loc) -> bool
        ensures { result ≡ (members self.now.seen location && not (members self.now.again location)) }
    {
        self.seen.contains(location) && !self.again.contains(location)
    }
}

impl Alone {
    /// Of a graph.
    pub fn of(alloc: Global, g: &Graph) -> Result<Alone, AllocError>
        ensures { IfOk result (AreCounted (graph_of g.now)) }
    {
        let accesses = accesses(alloc, g)?;
        let places = places(alloc, g)?;
        let mut params = Marks::new(alloc);
        params.add_all(places.as_slice())?;
        let written = all_writes(alloc, &accesses)?;
        let read = all_reads(alloc, &accesses)?;
        Ok(Alone {
            params,
            writes: counted(alloc, written.as_slice())?,
            reads: counted(alloc, read.as_slice())?,
        })
    }

    /// Whether the temporary takes no argument, one statement writes it, and one Get of it stands in the graph.
    pub fn has(&self, temporary: u32) -> bool
        ensures { (graph : Tree) → AreCounted graph self.now → MatchBool result (IsAlone graph temporary)
            (¬ IsAlone graph temporary) }
    {
        let location = Loc::Temp(temporary);
        if self.params.contains(location) {
            return false;
        }
        if !self.writes.is_one(location) {
            return false;
        }
        self.reads.is_one(location)
    }
}
