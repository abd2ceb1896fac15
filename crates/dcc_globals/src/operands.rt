//! The memory operands of a program's instructions.

ghost use Rattle.std.specs.Prelude.{◌≡◌, ◌++◌, IfOk, OnOk};
ghost use Rattle.std.specs.Option.{option_to_list};
ghost use Rattle.dcc_prog.specs.Frame as frame;
ghost use Rattle.dcc_globals.specs.Pieces.{operands_in, operands_of};

use dcc_frames::memory_operand;
use dcc_machine::{Ea, Op};
use dcc_num::Width;
use dcc_prog::{Node, Proc};
use indexmap::IndexMap;
use std::alloc::{AllocError, Global};

// Appends the memory operand of an operation, if it has one.
fn push_operand(operands: &mut Vec<(Width, Ea)>, op: Op) -> Result<(), AllocError>
    ensures { OnOk result (operands.new.items ≡ operands.old.items ++ option_to_list (frame.memory_operand op)) }
{
    if let Some(operand) = memory_operand(op) {
        operands.push(operand)?;
    }
    Ok(())
}

// Appends the memory operands of a procedure's instructions.
fn push_operands(
    operands: &mut Vec<(Width, Ea)>,
    nodes: &IndexMap<u16, Node>,
) -> Result<(), AllocError>
    ensures { OnOk result (operands.new.items ≡ operands.old.items ++ operands_in nodes.now.entries) }
{
    for (_at, node) in nodes.iter() {
        push_operand(operands, node.instr.op)?;
    }
    Ok(())
}

/// The memory operands of the instructions of all procedures.
pub(crate) fn operands(alloc: Global, procs: &[Proc]) -> Result<Vec<(Width, Ea)>, AllocError>
    ensures { IfOk result (λ operands. operands.items ≡ operands_of procs.now) }
{
    let mut operands = Vec::new(alloc);
    for proc in procs {
        push_operands(&mut operands, &proc.nodes)?;
    }
    Ok(operands)
}
