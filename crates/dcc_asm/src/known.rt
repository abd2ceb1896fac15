//! Which operations some processor has.

ghost use Rattle.std.specs.Prelude.{◌≡◌, IfOk, IsTrue, ◌↔◌};
ghost use Rattle.dcc_asm.specs.Fault.{IsKnown};
ghost use Rattle.dcc_asm.specs.Steps.{target_of};

use dcc_encode::standard;
use dcc_machine::{Cpu, Op};
use std::alloc::{AllocError, Global};

// The target of a jump or a call, which its bytes count from the next instruction.
fn target_of(op: Op) -> Option<u16>
    ensures { result ≡ target_of op }
{
    match op {
        Op::Jump(target) | Op::Branch(_, target) | Op::Call(target) => Some(target),
        Op::Loop(target) | Op::LoopE(target) | Op::LoopNe(target) => Some(target),
        Op::Jcxz(target) => Some(target),
        _ => None,
    }
}

/// Whether some processor has an encoding of the operation at some offset. A jump has one at some offset, whatever its
/// target; each other operation has the encodings of all offsets at the first one, and the later processor has those of
/// the earlier one.
pub fn is_known(alloc: Global, op: Op) -> Result<bool, AllocError>
    ensures { IfOk result (λ answer. IsTrue answer ↔ IsKnown op) }
{
    match target_of(op) {
        Some(_target) => Ok(true),
        None => match standard(alloc, op, 0, Cpu::I186)? {
            Some(_bytes) => Ok(true),
            None => Ok(false),
        },
    }
}
