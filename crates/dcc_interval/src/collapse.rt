//! Graphs whose nodes are the intervals of another.

ghost use Rattle.std.specs.Prelude.{◌≡◌, ◌≤◌, ◌<◌, ◌^◌, ℕ, ◌==◌, ◌&&◌, not, if◌then◌else◌, length, get_or, All, IfOk};
ghost use Rattle.std.specs.Prelude.{OnOk};
ghost use Rattle.dcc_flow.specs.Edges.{rows, AreWithin, leads};
ghost use Rattle.dcc_interval.specs.Intervals.{AreIntervals, intervals_in};
ghost use Rattle.dcc_interval.specs.Derived.{is_single, is_still};
ghost use Rattle.dcc_interval.specs.Noted.{noted_of, with_noted, with_all_noted, followers};
ghost use Rattle.dcc_interval.specs.Collapsing.{all_placed, places_of, others, nothing_noted, row_of, AreCollapsed};

use crate::headers::count_intervals;
use crate::interval::Interval;
use crate::noted::Noted;
use std::alloc::{AllocError, Global};

// Gives these nodes a place.
fn place_all(places: &mut Vec<u32>, nodes: &[u32], place: u32)
    requires { All (λ node. node < length places.old.items) nodes.now }
    ensures { places.new.items ≡ all_placed places.old.items nodes.now place }
{
    for node in nodes {
        places[*node as usize] = place;
    }
}

// For each of so many nodes the place of the interval that it is in, and 0 where it is in none.
fn places(alloc: Global, count: usize, intervals: &Vec<Interval>) -> Result<Vec<u32>, AllocError>
    requires within { All (λ i. All (λ n. n < count) i.members.items) intervals.now.items }
    requires few { length intervals.now.items ≤ 2 ^ 32 }
    ensures { IfOk result (λ places. places.items ≡ places_of count (intervals_in intervals.now.items)) }
{
    let mut places = vec![in alloc; 0; count]?;
    for place in 0..intervals.len() {
        place_all(
            &mut places,
            intervals[place].members.as_slice(),
            place as u32,
        );
    }
    Ok(places)
}

// Notes a place, unless it is the one.
fn note_other(noted: &mut Noted, place: u32, own: u32) -> Result<(), AllocError>
    requires { place < length noted.old.marks.items }
    ensures { OnOk result (noted_of noted.new
        ≡ (if place == own then noted_of noted.old else with_noted (noted_of noted.old) place)) }
{
    if place != own {
        noted.note(place)?;
    }
    Ok(())
}

// Notes the places of these nodes other than the one.
fn note_places(
    noted: &mut Noted,
    nodes: &[u32],
    places: &Vec<u32>,
    place: u32,
) -> Result<(), AllocError>
    requires nodes { All (λ node. node < length places.now.items) nodes.now }
    requires places { All (λ node. get_or places.now.items node 0 < length noted.old.marks.items) nodes.now }
    ensures { OnOk result (noted_of noted.new
        ≡ with_all_noted (noted_of noted.old) (others places.now.items place nodes.now)) }
{
    for node in nodes {
        note_other(noted, places[*node as usize], place)?;
    }
    Ok(())
}

// Each once, the places of the intervals that follow the one of these nodes, which stands at this place.
fn row(
    alloc: Global,
    next: &Vec<Vec<u32>>,
    members: &[u32],
    places: &Vec<u32>,
    place: u32,
    noted: &mut Noted,
) -> Result<Vec<u32>, AllocError>
    requires within { AreWithin (rows next.now.items) }
    requires members { All (λ node. node < length next.now.items) members.now }
    requires count { length places.now.items ≡ length next.now.items }
    requires places { All (λ node. get_or places.now.items node 0 < length noted.old.marks.items)
        (followers (rows next.now.items) members.now) }
    requires empty { noted_of noted.old ≡ nothing_noted (length noted.old.marks.items) }
    ensures row { IfOk result (λ row. row.items
        ≡ row_of (rows next.now.items) places.now.items (length noted.old.marks.items) place members.now) }
    ensures empty { OnOk result (noted_of noted.new ≡ noted_of noted.old) }
{
    for member in members {
        note_places(noted, next[*member as usize].as_slice(), places, place)?;
    }
    Ok(noted.take(alloc))
}

/// The graph whose nodes are these intervals, by their places: for each the places of the others that follow it, each
/// once.
pub(crate) fn collapsed(
    alloc: Global,
    next: &Vec<Vec<u32>>,
    intervals: &Vec<Interval>,
) -> Result<Vec<Vec<u32>>, AllocError>
    requires within { AreWithin (rows next.now.items) }
    requires intervals { (entry : ℕ) × (entry < length next.now.items)
        × AreIntervals (leads (rows next.now.items)) entry (intervals_in intervals.now.items) }
    ensures { IfOk result (λ graph.
        AreCollapsed (rows next.now.items) (intervals_in intervals.now.items) (rows graph.items)) }
{
    let count = count_intervals(alloc, intervals)?;
    let places = places(alloc, next.len(), intervals)?;
    let mut noted = Noted::new(alloc, count)?;
    let mut graph = Vec::new(alloc);
    for place in 0..count {
        let members = intervals[place].members.as_slice();
        graph.push(row(alloc, next, members, &places, place as u32, &mut noted)?)?;
    }
    Ok(graph)
}

// Whether an interval is one node, without an edge to itself.
fn is_still_node(next: &Vec<Vec<u32>>, interval: &Interval) -> bool
    requires { interval.now.header < length next.now.items }
    ensures { result ≡ (is_single interval.now.members.items
        && not (leads (rows next.now.items) interval.now.header interval.now.header)) }
{
    let header = interval.header;
    interval.members.len() == 1 && !next[header as usize].contains(&header)
}

/// Whether collapsing changes neither nodes nor edges.
pub(crate) fn is_still(next: &Vec<Vec<u32>>, intervals: &Vec<Interval>) -> bool
    requires { All (λ i. i.header < length next.now.items) intervals.now.items }
    ensures { result ≡ is_still (leads (rows next.now.items)) (intervals_in intervals.now.items) }
{
    for interval in intervals {
        if !is_still_node(next, interval) {
            return false;
        }
    }
    true
}
