//! The edges of a graph, forwards and backwards.

ghost use Rattle.std.specs.Prelude.{◌≡◌, ◌≤◌, ◌<◌, ◌^◌, [], length, replicate, All, IfOk, OnOk};
ghost use Rattle.dcc_ir.specs.Views.{exit_of, graph_of};
ghost use Rattle.dcc_ir.specs.Flow.{targets};
ghost use Rattle.dcc_ir.specs.WellFormed.{IsGraph};
ghost use Rattle.dcc_flow.specs.Edges.{rows, successors_of, AreWithin, entries, ArePredecessors};
ghost use Rattle.dcc_flow.specs.Sources.{added, entered};

use dcc_ir::{End, Graph};
use std::alloc::{AllocError, Global};

// The blocks that may follow a block, in the order of its end.
fn targets(alloc: Global, end: &End) -> Result<Vec<u32>, AllocError>
    ensures { IfOk result (λ places. places.items ≡ targets (exit_of end.now)) }
{
    match end {
        End::Goto(block) => Ok(vec![in alloc; *block]?),
        End::If { one, other, .. } => Ok(vec![in alloc; *one, *other]?),
        End::Switch { blocks, .. } => blocks.clone(),
        End::Ret(_) | End::Stop => Ok(Vec::new(alloc)),
    }
}

/// For each block the blocks that may follow it, in the order of its end.
pub fn successors(alloc: Global, g: &Graph) -> Result<Vec<Vec<u32>>, AllocError>
    ensures { IfOk result (λ next. rows next.items ≡ successors_of (graph_of g.now)) }
{
    let mut next = Vec::new(alloc);
    for block in &g.blocks {
        next.push(targets(alloc, &block.end)?)?;
    }
    Ok(next)
}

// Puts a block at the end of a list, unless it stands there.
fn add(list: &mut Vec<usize>, block: usize) -> Result<(), AllocError>
    ensures { OnOk result (list.new.items ≡ added list.old.items block) }
{
    match list.last() {
        Some(last) if *last == block => {}
        _ => list.push(block)?,
    }
    Ok(())
}

// Notes the edges from a block to these.
fn enter(sources: &mut Vec<Vec<usize>>, from: usize, tos: &[u32]) -> Result<(), AllocError>
    requires { All (λ to. to < length sources.old.items) tos.now }
    ensures { OnOk result (rows sources.new.items ≡ entered (rows sources.old.items) from tos.now) }
{
    for to in tos {
        add(&mut sources[*to as usize], from)?;
    }
    Ok(())
}

// So many empty lists.
fn no_sources(alloc: Global, count: usize) -> Result<Vec<Vec<usize>>, AllocError>
    ensures { IfOk result (λ lists. rows lists.items ≡ replicate count []) }
{
    let mut lists = Vec::new(alloc);
    for _ in 0..count {
        lists.push(Vec::new(alloc))?;
    }
    Ok(lists)
}

/// For each block the blocks with an edge to it, each once, in ascending order.
pub(crate) fn sources(alloc: Global, next: &Vec<Vec<u32>>) -> Result<Vec<Vec<usize>>, AllocError>
    requires { AreWithin (rows next.now.items) }
    ensures sources { IfOk result (λ sources. ArePredecessors (rows next.now.items) (rows sources.items)) }
    ensures few { IfOk result (λ sources. entries (rows sources.items) ≤ entries (rows next.now.items)) }
{
    let mut sources = no_sources(alloc, next.len())?;
    for from in 0..next.len() {
        enter(&mut sources, from, next[from].as_slice())?;
    }
    Ok(sources)
}

/// For each block the blocks with an edge to it, each once, in ascending order.
pub fn preds(alloc: Global, g: &Graph) -> Result<Vec<Vec<usize>>, AllocError>
    requires { IsGraph (graph_of g.now) }
    ensures { IfOk result (λ preds. ArePredecessors (successors_of (graph_of g.now)) (rows preds.items)) }
{
    let next = successors(alloc, g)?;
    sources(alloc, &next)
}
