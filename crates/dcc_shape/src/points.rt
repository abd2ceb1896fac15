//! The instructions of a procedure.

ghost use Rattle.std.specs.Prelude.{◌≡◌, map, IfOk};
ghost use Rattle.dcc_shape.specs.Procedures.{is_branching};
ghost use Rattle.dcc_shape.specs.Asked.{point_in, point_of};

use dcc_machine::Op;
use dcc_prog::Node;
use indexmap::IndexMap;
use std::alloc::{AllocError, Global};

/// An instruction, as the shape of a text is told by it.
#[derive(Drop)]
pub(crate) struct Point {
    /// The address.
    pub at: u16,
    /// The addresses of those that may come next.
    pub next: Vec<u16>,
    /// Whether it is a jump that goes on behind it too, or a jump through a table.
    pub branches: bool,
}

// Whether an instruction is a jump that goes on behind it too, or a jump through a table.
fn is_branching(op: Op) -> bool
    ensures { result ≡ is_branching op }
{
    matches!(
        op,
        Op::Branch(..) | Op::Loop(_) | Op::LoopE(_) | Op::LoopNe(_) | Op::Jcxz(_) | Op::Table(..)
    )
}

/// The instructions of a procedure, in the order of their addresses.
pub(crate) fn points(alloc: Global, nodes: &IndexMap<u16, Node>) -> Result<Vec<Point>, AllocError>
    ensures { IfOk result (λ points. map point_in points.items ≡ map point_of nodes.now.entries) }
{
    let mut points = Vec::new(alloc);
    for (at, node) in nodes.iter() {
        points.push(Point {
            at: *at,
            next: Vec::from_slice(alloc, node.succ.as_slice())?,
            branches: is_branching(node.instr.op),
        })?;
    }
    Ok(points)
}
