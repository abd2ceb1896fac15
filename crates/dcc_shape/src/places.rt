//! The places of instructions in the order of their addresses. The place of an address at which none is, is the one
//! after all others.

ghost use Rattle.std.specs.Prelude.{◌≡◌, ◌+◌, ◌≤◌, ◌∷◌, ◌++◌, [], false, map, filter, length, get_or, All, IfOk};
ghost use Rattle.dcc_flow.specs.Edges.{rows, AreWithin};
ghost use Rattle.dcc_shape.specs.Procedures.{place_among};
ghost use Rattle.indexmap.specs.IndexMap.{keys};

use crate::points::Point;
use dcc_prog::Node;
use indexmap::IndexMap;
use std::alloc::{AllocError, Global};

/// How many instructions there are, whose addresses these are.
pub(crate) fn count(nodes: &IndexMap<u16, Node>, ats: &[u16]) -> u32
    requires { ats.now ≡ keys nodes.now }
    ensures { result ≡ length nodes.now.entries }
{
    nodes.len() as u32
}

/// The place of the instruction at an address.
pub(crate) fn place(nodes: &IndexMap<u16, Node>, count: u32, at: u16) -> u32
    requires { count ≡ length nodes.now.entries }
    ensures is { result ≡ place_among (keys nodes.now) at }
    ensures within { result ≤ count }
{
    match nodes.get_index_of(&at) {
        Some(place) => place as u32,
        None => count,
    }
}

// The places of the instructions at these addresses.
fn row(
    alloc: Global,
    nodes: &IndexMap<u16, Node>,
    count: u32,
    ats: &[u16],
) -> Result<Vec<u32>, AllocError>
    requires { count ≡ length nodes.now.entries }
    ensures are { IfOk result (λ row. row.items ≡ map (place_among (keys nodes.now)) ats.now) }
    ensures within { IfOk result (λ row. All (λ place. place ≤ count) row.items) }
{
    let mut row = Vec::new(alloc);
    for at in ats {
        row.push(place(nodes, count, *at))?;
    }
    Ok(row)
}

// For each instruction the places of those that may come next.
fn rows_of(
    alloc: Global,
    nodes: &IndexMap<u16, Node>,
    count: u32,
    points: &[Point],
) -> Result<Vec<Vec<u32>>, AllocError>
    requires { count ≡ length nodes.now.entries }
    ensures are { IfOk result (λ next. rows next.items
        ≡ map (λ p. map (place_among (keys nodes.now)) p.next.items) points.now) }
    ensures within { IfOk result (λ next. All (λ row. All (λ place. place ≤ count) row) (rows next.items)) }
{
    let mut next = Vec::new(alloc);
    for point in points {
        next.push(row(alloc, nodes, count, point.next.as_slice())?)?;
    }
    Ok(next)
}

/// For each instruction the places of those that may come next, and none for the place after all others.
pub(crate) fn next_places(
    alloc: Global,
    nodes: &IndexMap<u16, Node>,
    count: u32,
    points: &[Point],
) -> Result<Vec<Vec<u32>>, AllocError>
    requires count { count ≡ length nodes.now.entries }
    requires points { count ≡ length points.now }
    ensures are { IfOk result (λ next. rows next.items
        ≡ map (λ p. map (place_among (keys nodes.now)) p.next.items) points.now ++ [] ∷ []) }
    ensures count { IfOk result (λ next. length next.items ≡ count + 1) }
    ensures within { IfOk result (λ next. AreWithin (rows next.items)) }
{
    let mut next = rows_of(alloc, nodes, count, points)?;
    next.push(Vec::new(alloc))?;
    Ok(next)
}

// Whether the place is marked.
fn is_marked(marks: &[bool], place: u32) -> bool
    ensures { result ≡ get_or marks.now place false }
{
    match marks.get(place as usize) {
        Some(mark) => *mark,
        None => false,
    }
}

/// Those of the addresses at which the instructions with marked places are.
pub(crate) fn those_at(
    alloc: Global,
    nodes: &IndexMap<u16, Node>,
    count: u32,
    ats: &[u16],
    marks: &[bool],
) -> Result<Vec<u16>, AllocError>
    requires { count ≡ length nodes.now.entries }
    ensures { IfOk result (λ found. found.items
        ≡ filter (λ at. get_or marks.now (place_among (keys nodes.now) at) false) ats.now) }
{
    let mut found = Vec::new(alloc);
    for at in ats {
        if is_marked(marks, place(nodes, count, *at)) {
            found.push(*at)?;
        }
    }
    Ok(found)
}
