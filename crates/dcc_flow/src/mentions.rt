//! Which locations a graph reads or writes.

ghost use Rattle.std.specs.Prelude.{◌≡◌, ◌++◌, filter, flat_map, map, IfOk, OnOk};
ghost use Rattle.dcc_ir.specs.Live.{is_among};
ghost use Rattle.dcc_ir.specs.Views.{graph_of};
ghost use Rattle.dcc_flow.specs.Access.{block_access_in};
ghost use Rattle.dcc_flow.specs.Marks.{members};
ghost use Rattle.dcc_flow.specs.Mentions.{graph_mentions, block_access_mentions};

use crate::access::{BlockAccess, accesses};
use crate::marks::Marks;
use dcc_ir::{Graph, Loc};
use std::alloc::{AllocError, Global};

// Puts what a block reads and writes at the end of a list.
fn add_block(list: &mut Vec<Loc>, block: &BlockAccess) -> Result<(), AllocError>
    ensures { OnOk result (list.new.items ≡ list.old.items ++ block_access_mentions (block_access_in block.now)) }
{
    for access in &block.stmts {
        list.extend_from_slice(access.reads.as_slice())?;
        list.extend_from_slice(access.writes.as_slice())?;
    }
    list.extend_from_slice(block.last.as_slice())
}

// What blocks read and write, as often as they do.
fn all_mentions(alloc: Global, blocks: &Vec<BlockAccess>) -> Result<Vec<Loc>, AllocError>
    ensures { IfOk result (λ list. list.items ≡ flat_map block_access_mentions (map block_access_in blocks.now.items)) }
{
    let mut list = Vec::new(alloc);
    for block in blocks {
        add_block(&mut list, block)?;
    }
    Ok(list)
}

// The locations of the list that are in the set, in the list's order.
fn those_in(alloc: Global, marks: &Marks, among: &[Loc]) -> Result<Vec<Loc>, AllocError>
    ensures { IfOk result (λ list. list.items ≡ filter (members marks.now) among.now) }
{
    let mut list = Vec::new(alloc);
    for location in among {
        if marks.contains(*location) {
            list.push(*location)?;
        }
    }
    Ok(list)
}

/// The locations that a graph mentions, those that it reads or writes, as often as it does.
pub fn all_mentioned(alloc: Global, g: &Graph) -> Result<Vec<Loc>, AllocError>
    ensures { IfOk result (λ list. list.items ≡ graph_mentions (graph_of g.now)) }
{
    let accesses = accesses(alloc, g)?;
    all_mentions(alloc, &accesses)
}

/// The locations of the list that a graph mentions, as it reads or writes them, in the list's order.
pub fn mentioned(alloc: Global, g: &Graph, among: &[Loc]) -> Result<Vec<Loc>, AllocError>
    ensures { IfOk result (λ list. list.items ≡ filter (is_among (graph_mentions (graph_of g.now))) among.now) }
{
    let accesses = accesses(alloc, g)?;
    let mentions = all_mentions(alloc, &accesses)?;
    let mut marks = Marks::new(alloc);
    marks.add_all(mentions.as_slice())?;
    those_in(alloc, &marks, among)
}
