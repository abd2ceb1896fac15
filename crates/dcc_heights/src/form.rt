//! At which heights instructions may stand.

ghost use Rattle.std.specs.Prelude.{◌≡◌, ℕ, pos};
ghost use Rattle.dcc_prog.specs.Height.{is_sp_sub, is_frame_work, needs_frame};
ghost use Rattle.dcc_heights.specs.Form.{is_pop_bp, is_ret, is_misplaced, is_too_far, is_bad};

use crate::moves::lowers;
use dcc_machine::{Alu, Op, Operand, Unary};
use dcc_num::Reg;

// The greatest height of a stack, in bytes.
const GREATEST: i32 = 32766;

// Whether the operation is a SUB of a constant from SP.
fn is_sp_sub(op: Op) -> bool
    ensures { result ≡ is_sp_sub op }
{
    matches!(
        op,
        Op::Alu(Alu::Sub, Operand::Word(Reg::Sp), Operand::Const(..))
    )
}

// Whether the operation is a PUSH, a CALL, LEAVE, `mov sp,bp` or LEA of SP.
fn is_frame_work(op: Op) -> bool
    ensures { result ≡ is_frame_work op }
{
    matches!(
        op,
        Op::Push(_)
            | Op::Call(_)
            | Op::Leave
            | Op::Mov(Operand::Word(Reg::Sp), Operand::Word(Reg::Bp))
            | Op::Lea(Reg::Sp, _)
    )
}

// Whether the operation needs a frame that is set up.
fn needs_frame(op: Op) -> bool
    ensures { result ≡ needs_frame op }
{
    is_frame_work(op) || is_sp_sub(op) || lowers(op) || op.copies_bp() || op.uses_bp_address()
}

// Whether the operation is `pop bp`.
fn is_pop_bp(op: Op) -> bool
    ensures { result ≡ is_pop_bp op }
{
    matches!(op, Op::Pop(Operand::Word(Reg::Bp)))
}

/// Whether an operation, not the first of its procedure, stands in a framed procedure at a height at which it is no
/// frame form: one that needs the frame at height 0, or `pop bp` at another height than 2.
pub fn is_misplaced(op: Op, height: u16) -> bool
    ensures { result ≡ is_misplaced op height }
{
    (height == 0 && needs_frame(op)) || (is_pop_bp(op) && height != 2)
}

// Whether SP rises above its value at the entry, or in a framed procedure into the saved BP by another form than `pop
// bp` and LEAVE.
fn is_too_far(framed: bool, op: Op, height: u16, after: i32) -> bool
    ensures { result ≡ is_too_far framed op height after }
{
    after < 0
        || (framed
            && !is_pop_bp(op)
            && !matches!(op, Op::Leave)
            && height > 0
            && after < i32::from(height)
            && after < 2)
}

/// Whether the heights before and after an operation are none that a stack may have: SP rises too far, the stack is
/// not empty at a RET, or the height is too great.
pub(crate) fn is_bad(framed: bool, op: Op, height: u16, after: i32) -> bool
    ensures { result ≡ is_bad framed op height after }
{
    is_too_far(framed, op, height, after)
        || (matches!(op, Op::Ret(_)) && height != 0)
        || after > GREATEST
}
