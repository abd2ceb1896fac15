//! The loop headers of a graph.

ghost use Rattle.std.specs.Prelude.{◌≡◌, ◌<◌, ℕ, ◌++◌, length, map, get_or, All, IfOk, OnOk};
ghost use Rattle.std.specs.List.{list_any};
ghost use Rattle.dcc_flow.specs.Edges.{rows, AreWithin, leads};
ghost use Rattle.dcc_interval.specs.Intervals.{intervals_in};
ghost use Rattle.dcc_interval.specs.Derived.{IsDerived, back_headers, loop_headers, levels_in};

use crate::collapse::collapsed;
use crate::headers::headers;
use crate::interval::{Interval, Sequence};
use std::alloc::{AllocError, Global};

// Whether an edge leads back to the header of an interval from inside it.
fn has_edge_back(next: &Vec<Vec<u32>>, interval: &Interval) -> bool
    requires { All (λ n. n < length next.now.items) interval.now.members.items }
    ensures { result
        ≡ list_any (λ m. leads (rows next.now.items) m interval.now.header) interval.now.members.items }
{
    for member in &interval.members {
        if next[*member as usize].contains(&interval.header) {
            return true;
        }
    }
    false
}

// The headers to which an edge leads back from inside their interval.
fn back_headers(
    alloc: Global,
    next: &Vec<Vec<u32>>,
    level: &Vec<Interval>,
) -> Result<Vec<u32>, AllocError>
    requires { All (λ i. All (λ n. n < length next.now.items) i.members.items) level.now.items }
    ensures { IfOk result (λ list. list.items
        ≡ back_headers (leads (rows next.now.items)) (intervals_in level.now.items)) }
{
    let mut list = Vec::new(alloc);
    for interval in level {
        if has_edge_back(next, interval) {
            list.push(interval.header)?;
        }
    }
    Ok(list)
}

// Adds to a list what the table has for each of these numbers.
fn look_up(list: &mut Vec<u32>, table: &Vec<u32>, numbers: &[u32]) -> Result<(), AllocError>
    requires { All (λ n. n < length table.now.items) numbers.now }
    ensures { OnOk result (list.new.items
        ≡ list.old.items ++ map (λ n. get_or table.now.items n 0) numbers.now) }
{
    for number in numbers {
        list.push(table[*number as usize])?;
    }
    Ok(())
}

/// The loop headers of a graph with this derived sequence: the nodes that at some level are a header with an edge back
/// from inside its interval, or that a place stands for that is one. A node may stand in the list more than once.
pub fn loop_headers(
    alloc: Global,
    next: &Vec<Vec<u32>>,
    sequence: &Sequence,
) -> Result<Vec<u32>, AllocError>
    requires within { AreWithin (rows next.now.items) }
    requires derived { (entry : ℕ) × (entry < length next.now.items)
        × IsDerived (leads (rows next.now.items)) entry (levels_in sequence.now.levels.items) }
    ensures { IfOk result (λ list. list.items
        ≡ loop_headers (leads (rows next.now.items)) (levels_in sequence.now.levels.items)) }
{
    let levels = &sequence.levels;
    let first = &levels[0];
    let mut list = back_headers(alloc, next, first)?;
    let mut stands = headers(alloc, first)?;
    let mut graph = collapsed(alloc, next, first)?;
    for place in 1..levels.len() {
        let level = &levels[place];
        let back = back_headers(alloc, &graph, level)?;
        look_up(&mut list, &stands, back.as_slice())?;
        let heads = headers(alloc, level)?;
        let mut now = Vec::new(alloc);
        look_up(&mut now, &stands, heads.as_slice())?;
        stands = now;
        graph = collapsed(alloc, &graph, level)?;
    }
    Ok(list)
}
