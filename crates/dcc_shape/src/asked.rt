//! What a procedure asks of its function's text.

ghost use Rattle.std.specs.Prelude.{◌≡◌, map, count_by, IfOk};
ghost use Rattle.dcc_shape.specs.Procedures.{flow_of};
ghost use Rattle.dcc_shape.specs.Asked.{IsAsked};

use crate::edges::edges;
use crate::places::{count, next_places, place, those_at};
use crate::points::{Point, points};
use dcc_interval::reduced;
use dcc_prog::Proc;
use std::alloc::{AllocError, Global};

/// What a procedure asks of its function's text.
#[derive(Drop)]
pub(crate) struct Asked {
    /// The addresses of the instructions, in their order.
    pub ats: Vec<u16>,
    /// The address of the instruction that runs first.
    pub entry: u16,
    /// How many instructions branch.
    pub branches: usize,
    /// The addresses that the edges from instruction to instruction lead to, one for each edge.
    pub edges: Vec<u16>,
    /// The addresses of the loop headers, in their order.
    pub heads: Vec<u16>,
    /// Whether the derived sequence ends in one node.
    pub ends_in_one: bool,
}

// The addresses of the instructions.
fn addresses(alloc: Global, points: &[Point]) -> Result<Vec<u16>, AllocError>
    ensures { IfOk result (λ ats. ats.items ≡ map (λ p. p.at) points.now) }
{
    let mut ats = Vec::new(alloc);
    for point in points {
        ats.push(point.at)?;
    }
    Ok(ats)
}

// How many of the instructions branch.
fn branches(points: &[Point]) -> usize
    ensures { result ≡ count_by (λ p. p.branches) points.now }
{
    points.iter().filter(|p| p.branches).count()
}

/// What a procedure asks of its function's text.
pub(crate) fn asked_by(alloc: Global, proc: &Proc) -> Result<Asked, AllocError>
    ensures { IfOk result (λ asked. IsAsked (flow_of proc.now) asked) }
{
    let points = points(alloc, &proc.nodes)?;
    let ats = addresses(alloc, points.as_slice())?;
    let count = count(&proc.nodes, ats.as_slice());
    let next = next_places(alloc, &proc.nodes, count, points.as_slice())?;
    let entry = place(&proc.nodes, count, proc.entry);
    let reduction = reduced(alloc, &next, entry)?;
    let marks = reduction.headers.as_slice();
    let heads = those_at(alloc, &proc.nodes, count, ats.as_slice(), marks)?;
    Ok(Asked {
        ats,
        entry: proc.entry,
        branches: branches(points.as_slice()),
        edges: edges(alloc, points.as_slice())?,
        heads,
        ends_in_one: reduction.ends_in_one,
    })
}
