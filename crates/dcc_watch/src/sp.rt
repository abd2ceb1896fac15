//! Where SP goes.

ghost use Rattle.std.specs.Prelude.{◌≡◌, ◌+◌, ◌<◌, ◌^◌, ◌≤ℤ◌, ◌<ℤ◌, pos, neg_ℤ};
ghost use Rattle.dcc_num.specs.declared.Width.TheVariants.{Word as word_width};
ghost use Rattle.dcc_num.specs.Numbers.{signed_of, wrapped_of};
ghost use Rattle.dcc_prog.specs.Clean.{low_of, lowered_by, sp_after, top_in};
ghost use Rattle.dcc_prog.specs.Height.{lowering_of};
ghost use Rattle.dcc_step.specs.Core.{state_of};

use dcc_machine::{Alu, Op, Operand, Unary};
use dcc_num::Reg;
use dcc_prog::Layout;
use dcc_step::Machine;

// The number that a word stands for in two's complement.
#[tactic(auto, unfolding(dcc_num::specs::Numbers::signed_of))]
fn signed(word: u16) -> i64
    ensures value { result ≡ signed_of word_width word }
    ensures low { neg_ℤ (pos 32768) ≤ℤ result }
    ensures high { result <ℤ pos 32768 }
{
    if word >= 0x8000 {
        i64::from(word) - 0x1_0000
    } else {
        i64::from(word)
    }
}

// A number modulo 65,536.
fn wrapped(number: i64) -> u16
    ensures { result ≡ wrapped_of word_width number }
{
    number.rem_euclid(0x1_0000) as u16
}

// By how many bytes a move of SP lowers it, and 0 for other operations.
fn lowering(op: Op) -> i64
    ensures lowering { result ≡ lowered_by (lowering_of op) }
    ensures low { neg_ℤ (pos 32768) ≤ℤ result }
    ensures high { result ≤ℤ pos 32768 }
{
    match op {
        Op::Alu(Alu::Add, Operand::Word(Reg::Sp), Operand::Const(_, constant)) => -signed(constant),
        Op::Alu(Alu::Sub, Operand::Word(Reg::Sp), Operand::Const(_, constant)) => signed(constant),
        Op::Unary(Unary::Inc, Operand::Word(Reg::Sp)) => -1,
        Op::Unary(Unary::Dec, Operand::Word(Reg::Sp)) => 1,
        _ => 0,
    }
}

/// SP after an operation, as a number that may be below 0.
pub(crate) fn sp_after(machine: &Machine, op: Op) -> i64
    ensures after { result ≡ sp_after op (state_of machine.now) }
    ensures low { neg_ℤ (pos 1048576) ≤ℤ result }
    ensures high { result ≤ℤ pos 1048576 }
{
    let sp = i64::from(machine.reg(Reg::Sp));
    let bp = i64::from(machine.reg(Reg::Bp));
    match op {
        Op::Push(_) | Op::Call(_) => sp - 2,
        Op::Pop(_) => sp + 2,
        Op::Ret(count) => sp + 2 + i64::from(count),
        Op::Enter(count) => sp - (2 + i64::from(count)),
        Op::Leave => bp + 2,
        Op::Mov(Operand::Word(Reg::Sp), Operand::Word(Reg::Bp)) => bp,
        Op::Lea(Reg::Sp, ea) => bp + signed(ea.disp),
        _ => sp - lowering(op),
    }
}

/// The offset where SP would go, if that is too low.
pub(crate) fn low(layout: &Layout, sp: i64) -> Option<u16>
    requires low { neg_ℤ (pos 1048576) ≤ℤ sp }
    requires high { sp ≤ℤ pos 1048576 }
    ensures { result ≡ low_of layout.now sp }
{
    let offset = sp + i64::from(layout.delta);
    if sp < 0 || offset < i64::from(layout.lo) {
        Some(wrapped(offset))
    } else {
        None
    }
}

/// The offset of SP in the data segment.
pub(crate) fn top(machine: &Machine, layout: &Layout) -> u32
    ensures top { result ≡ top_in layout.now (state_of machine.now) }
    ensures within { result < 2 ^ 17 }
{
    u32::from(machine.reg(Reg::Sp)) + u32::from(layout.delta)
}
