//! The nodes that are reached, and their edges turned round.

ghost use Rattle.std.specs.Prelude.{◌≡◌, ◌<◌, [], length, replicate, All, IfOk, OnOk};
ghost use Rattle.dcc_flow.specs.Edges.{rows, AreWithin};
ghost use Rattle.dcc_interval.specs.Noted.{noted_of};
ghost use Rattle.dcc_interval.specs.Reaching.{AreReached, AreSources, entered};

use crate::noted::Noted;
use std::alloc::{AllocError, Global};

/// The nodes that are reached from the entry.
pub fn reached(alloc: Global, next: &Vec<Vec<u32>>, entry: u32) -> Result<Noted, AllocError>
    requires within { AreWithin (rows next.now.items) }
    requires entry { entry < length next.now.items }
    ensures { IfOk result (λ found. AreReached (rows next.now.items) entry (noted_of found)) }
{
    let mut found = Noted::new(alloc, next.len())?;
    found.note(entry)?;
    let mut turn = 0;
    while turn < found.list.len() {
        let node = found.list[turn];
        found.note_all(next[node as usize].as_slice())?;
        turn += 1;
    }
    Ok(found)
}

// Notes the edges from a node to these.
fn enter(sources: &mut Vec<Vec<u32>>, from: u32, tos: &[u32]) -> Result<(), AllocError>
    requires { All (λ to. to < length sources.old.items) tos.now }
    ensures { OnOk result (rows sources.new.items ≡ entered (rows sources.old.items) from tos.now) }
{
    for to in tos {
        sources[*to as usize].push(from)?;
    }
    Ok(())
}

// So many empty lists.
fn no_sources(alloc: Global, count: usize) -> Result<Vec<Vec<u32>>, AllocError>
    ensures { IfOk result (λ lists. rows lists.items ≡ replicate count []) }
{
    let mut lists = Vec::new(alloc);
    for _ in 0..count {
        lists.push(Vec::new(alloc))?;
    }
    Ok(lists)
}

/// For each node the reached nodes with an edge to it.
pub fn sources(
    alloc: Global,
    next: &Vec<Vec<u32>>,
    reached: &[u32],
) -> Result<Vec<Vec<u32>>, AllocError>
    requires within { AreWithin (rows next.now.items) }
    requires reached { All (λ node. node < length next.now.items) reached.now }
    ensures { IfOk result (λ sources. AreSources (rows next.now.items) reached.now (rows sources.items)) }
{
    let mut sources = no_sources(alloc, next.len())?;
    for node in reached {
        enter(&mut sources, *node, next[*node as usize].as_slice())?;
    }
    Ok(sources)
}
