//! Which definitions of a flag reach which blocks.

ghost use Rattle.std.specs.Prelude.{◌≡◌, ◌<◌, ◌≤◌, length, map, All, IfOk};
ghost use Rattle.dcc_ir.specs.Views.{stmt_of, graph_of};
ghost use Rattle.dcc_ir.specs.WellFormed.{IsGraph};
ghost use Rattle.dcc_flow.specs.Edges.{rows, successors_of};
ghost use Rattle.dcc_flow.specs.Order.{IsReversePostOrder};
ghost use Rattle.dcc_flags.specs.Sources as spec;
ghost use Rattle.dcc_flags.specs.Sources.{AreTold};

use crate::sources::Source;
use dcc_ir::{Graph, Stmt};
use dcc_num::FlagName;
use std::alloc::{AllocError, Global};

// What reaches past the statements of a block.
pub(crate) fn moved_past(f: FlagName, source: Source, block: usize, stmts: &[Stmt]) -> Source
    ensures { result ≡ spec.moved_past f source block 0 (map stmt_of stmts.now) }
{
    let mut source = source;
    for place in 0..stmts.len() {
        source = source.moved(f, block, place, &stmts[place]);
    }
    source
}

// Lets what reaches flow to the listed blocks.
fn spread(source: Source, table: &mut Vec<Source>, blocks: &[u32])
    requires { All (λ block. block < length table.old.items) blocks.now }
    ensures { table.new.items ≡ spec.spread source table.old.items blocks.now }
{
    for block in blocks {
        table[*block as usize] = table[*block as usize].joined(source);
    }
}

// Lets what reaches the end of each listed block flow on.
fn sweep(f: FlagName, g: &Graph, next: &Vec<Vec<u32>>, table: &mut Vec<Source>, blocks: &[u32])
    requires graph { IsGraph (graph_of g.now) }
    requires next { rows next.now.items ≡ successors_of (graph_of g.now) }
    requires count { length table.old.items ≡ length g.now.blocks.items }
    requires blocks { All (λ block. block < length g.now.blocks.items) blocks.now }
    ensures { table.new.items ≡ spec.swept f (graph_of g.now) table.old.items blocks.now }
{
    for block in blocks {
        let block = *block as usize;
        let source = moved_past(f, table[block], block, g.blocks[block].stmts.as_slice());
        spread(source, table, next[block].as_slice());
    }
}

// How much the table knows, as a number that rises.
fn rank(table: &[Source]) -> usize
    requires { length table.now ≤ 65536 }
    ensures { result ≡ spec.rank_of table.now }
{
    let mut rank = 0;
    for source in table {
        rank += source.rank();
    }
    rank
}

// The table in which the start alone reaches the first block, and nothing the others.
fn first_sources(alloc: Global, count: usize) -> Result<Vec<Source>, AllocError>
    requires { 0 < count }
    ensures { IfOk result (λ table. table.items ≡ spec.first_sources count) }
{
    let mut table = vec![in alloc; Source::Nothing; count]?;
    table[0] = Source::Start;
    Ok(table)
}

/// A graph, the blocks after each of its blocks, and the reverse post order of its blocks.
#[derive(Drop)]
pub struct Walk<'a> {
    pub graph: &'a Graph,
    pub next: &'a Vec<Vec<u32>>,
    pub order: &'a [u32],
}

/// Which definition of the flag reaches the begin of each block. Whatever reaches flows from block to block until
/// nothing more is known.
pub fn sources(alloc: Global, f: FlagName, walk: &Walk<'_>) -> Result<Vec<Source>, AllocError>
    requires graph { IsGraph (graph_of walk.now.graph.now) }
    requires next { rows walk.now.next.now.items ≡ successors_of (graph_of walk.now.graph.now) }
    requires order { IsReversePostOrder (graph_of walk.now.graph.now) walk.now.order.now }
    ensures { IfOk result (λ table. AreTold (graph_of walk.now.graph.now) f table.items) }
{
    let mut table = first_sources(alloc, walk.graph.blocks.len())?;
    let mut before = 0;
    let mut known = rank(table.as_slice());
    while before < known {
        before = known;
        sweep(f, walk.graph, walk.next, &mut table, walk.order);
        known = rank(table.as_slice());
    }
    Ok(table)
}
