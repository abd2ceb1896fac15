//! The derived sequence of a graph.

ghost use Rattle.std.specs.Prelude.{◌≡◌, ◌<◌, length, IfOk};
ghost use Rattle.dcc_flow.specs.Edges.{rows, AreWithin, leads};
ghost use Rattle.dcc_interval.specs.Intervals.{AreIntervals, intervals_in};
ghost use Rattle.dcc_interval.specs.Derived.{is_still, IsDerived, levels_in};
ghost use Rattle.dcc_interval.specs.Collapsing.{AreCollapsed};

use crate::collapse::{collapsed, is_still};
use crate::growth::intervals;
use crate::interval::{Interval, Sequence};
use std::alloc::{AllocError, Global};

/// A level of a derived sequence.
#[derive(Drop)]
pub struct Level {
    /// The intervals of the level's graph.
    pub intervals: Vec<Interval>,
    /// Whether collapsing changes neither nodes nor edges.
    pub still: bool,
    /// The graph of the next level.
    pub graph: Vec<Vec<u32>>,
}

// The level of the graph in which these nodes follow each node, entered at this one.
fn level_of(alloc: Global, next: &Vec<Vec<u32>>, entry: u32) -> Result<Level, AllocError>
    requires within { AreWithin (rows next.now.items) }
    requires entry { entry < length next.now.items }
    ensures exact { IfOk result (λ l.
        AreIntervals (leads (rows next.now.items)) entry (intervals_in l.intervals.items)) }
    ensures still { IfOk result (λ l.
        l.still ≡ is_still (leads (rows next.now.items)) (intervals_in l.intervals.items)) }
    ensures graph { IfOk result (λ l.
        AreCollapsed (rows next.now.items) (intervals_in l.intervals.items) (rows l.graph.items)) }
{
    let intervals = intervals(alloc, next, entry)?;
    let still = is_still(next, &intervals);
    let graph = collapsed(alloc, next, &intervals)?;
    Ok(Level {
        intervals,
        still,
        graph,
    })
}

/// The derived sequence of the graph in which these nodes follow each node, entered at this one.
pub fn derived(alloc: Global, next: &Vec<Vec<u32>>, entry: u32) -> Result<Sequence, AllocError>
    requires within { AreWithin (rows next.now.items) }
    requires entry { entry < length next.now.items }
    ensures { IfOk result (λ d. IsDerived (leads (rows next.now.items)) entry (levels_in d.levels.items)) }
{
    let first = level_of(alloc, next, entry)?;
    let mut still = first.still;
    let mut graph = first.graph;
    let mut levels = vec![in alloc; first.intervals]?;
    while !still {
        let level = level_of(alloc, &graph, 0)?;
        still = level.still;
        graph = level.graph;
        levels.push(level.intervals)?;
    }
    Ok(Sequence { levels })
}
