//! The height of the stack after an operation.

ghost use Rattle.std.specs.Prelude.{◌≡◌, ℕ, pos, neg_ℤ, ◌≤ℤ◌, ◌<ℤ◌, IfSome};
ghost use Rattle.dcc_num.specs.declared.Width.TheVariants.{Word as word_width};
ghost use Rattle.dcc_num.specs.Numbers.{signed_of};
ghost use Rattle.dcc_prog.specs.Height.{lowering_of, height_set_by, is_above_zero};
ghost use Rattle.dcc_heights.specs.Moves.{removed_in, height_after};

use dcc_machine::{Alu, Op, Operand, Unary};
use dcc_num::Reg;
use indexmap::IndexMap;

// A word, taken as signed.
#[tactic(auto, unfolding(dcc_num::specs::Numbers::signed_of))]
fn signed(word: u16) -> i32
    ensures value { result ≡ signed_of word_width word }
    ensures low { neg_ℤ (pos 32768) ≤ℤ result }
    ensures high { result <ℤ pos 32768 }
{
    if word >= 0x8000 {
        i32::from(word) - 0x10000
    } else {
        i32::from(word)
    }
}

// By how many bytes a move of SP lowers it; a number below 0 raises it.
fn lowering_of(op: Op) -> Option<i32>
    ensures value { result ≡ lowering_of op }
    ensures low { IfSome result (λ bytes. neg_ℤ (pos 32768) ≤ℤ bytes) }
    ensures high { IfSome result (λ bytes. bytes ≤ℤ pos 32768) }
{
    match op {
        Op::Alu(Alu::Add, Operand::Word(Reg::Sp), Operand::Const(_, bytes)) => Some(-signed(bytes)),
        Op::Alu(Alu::Sub, Operand::Word(Reg::Sp), Operand::Const(_, bytes)) => Some(signed(bytes)),
        Op::Unary(Unary::Inc, Operand::Word(Reg::Sp)) => Some(-1),
        Op::Unary(Unary::Dec, Operand::Word(Reg::Sp)) => Some(1),
        _ => None,
    }
}

// The height that `mov sp,bp`, LEA of SP from BP, ENTER or LEAVE gives, whatever it was.
fn height_set_by(op: Op) -> Option<i32>
    ensures { result ≡ height_set_by op }
{
    match op {
        Op::Mov(Operand::Word(Reg::Sp), Operand::Word(Reg::Bp)) => Some(2),
        Op::Lea(Reg::Sp, ea) => Some(2 - signed(ea.disp)),
        Op::Enter(bytes) => Some(2 + i32::from(bytes)),
        Op::Leave => Some(0),
        _ => None,
    }
}

// How many bytes a CALL of the procedure with this entry removes.
fn removed_in(removed: &IndexMap<u16, u16>, target: u16) -> u16
    ensures { result ≡ removed_in removed.now.entries target }
{
    match removed.get(&target) {
        Some(bytes) => *bytes,
        None => 0,
    }
}

/// The height after an operation that is no RET. `removed` tells how many bytes a CALL removes, by the entry of the
/// procedure that it calls. A number below 0 says that SP lies above its value at the procedure's entry.
pub(crate) fn height_after(removed: &IndexMap<u16, u16>, op: Op, height: u16) -> i32
    ensures { result ≡ height_after (removed_in removed.now.entries) op (pos height) }
{
    let height = i32::from(height);
    let set = height_set_by(op);
    match op {
        Op::Push(_) => height + 2,
        Op::Pop(_) => height - 2,
        Op::Call(target) => height - i32::from(removed_in(removed, target)),
        _ => match lowering_of(op) {
            Some(bytes) => height + bytes,
            None => set.unwrap_or(height),
        },
    }
}

/// Whether a move of SP lowers it.
pub(crate) fn lowers(op: Op) -> bool
    ensures { result ≡ is_above_zero (lowering_of op) }
{
    lowering_of(op).is_some_and(|bytes| bytes > 0)
}
