//! The instructions of a procedure with their heights.

ghost use Rattle.std.specs.Prelude.{◌≡◌, IfOk};
ghost use Rattle.dcc_frames.specs.Steps.{steps_of};

use dcc_machine::Op;
use dcc_prog::Proc;
use indexmap::IndexMap;
use std::alloc::{AllocError, Global};

/// An instruction that is reached.
#[derive(Clone, Copy, PartialEq, Eq, Debug)]
pub struct Step {
    /// The instruction's offset in the code segment.
    pub at: u16,
    /// The operation of the instruction.
    pub op: Op,
    /// By how many bytes SP lies below its value at the procedure's entry.
    pub height: u16,
}

/// The instructions of a procedure, each with the height that stands for it, in their order.
pub fn steps(
    alloc: Global,
    proc: &Proc,
    heights: &IndexMap<u16, u16>,
) -> Result<Vec<Step>, AllocError>
    ensures { IfOk result (λ steps. steps.items ≡ steps_of proc.now.nodes.entries heights.now.entries) }
{
    let mut steps = Vec::new(alloc);
    for place in 0..proc.nodes.len().min(heights.len()) {
        let (Some((at, node)), Some((_, height))) = (
            proc.nodes.get_index(place),
            heights.get_index(place),
        ) else {
            unreachable!();
        };
        steps.push(Step {
            at: *at,
            op: node.instr.op,
            height: *height,
        })?;
    }
    Ok(steps)
}
