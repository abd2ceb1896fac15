//! What operations are, for the search.

ghost use Rattle.std.specs.Prelude.{◌≡◌};
ghost use Rattle.dcc_machine.specs.WellFormed.{IsOperation};
ghost use Rattle.dcc_machine.specs.Writes.{is_same_half, is_half_of, is_in_pair, unary_writes_half, plain_writes_half};
ghost use Rattle.dcc_machine.specs.Writes.{writes_half};
ghost use Rattle.dcc_prog.specs.Trail.{constant_to_ah};
ghost use Rattle.dcc_prog.specs.Construct.{is_system};

use crate::table::is_same_register;
use dcc_machine::{Alu, Op, Operand, Plain, Unary};
use dcc_num::{Half, Reg, Width};

/// Whether the operation moves a segment register, or is CLI, STI or CLD.
pub(crate) fn is_system(op: Op) -> bool
    ensures { result ≡ is_system op }
{
    match op {
        Op::Mov(to, from) => to.is_segment() || from.is_segment(),
        Op::Plain(operation) => operation.is_control(),
        _ => false,
    }
}

fn is_same_half(half: Half, other: Half) -> bool
    ensures { result ≡ is_same_half half other }
{
    match half {
        Half::Low => matches!(other, Half::Low),
        Half::High => matches!(other, Half::High),
    }
}

// Whether the half is the operand or one of its two bytes.
fn is_half_of(r: Reg, half: Half, operand: Operand) -> bool
    ensures { result ≡ is_half_of r half operand }
{
    match operand {
        Operand::Word(q) => is_same_register(r, q),
        Operand::Byte(q, other) => is_same_register(r, q) && is_same_half(half, other),
        _ => false,
    }
}

// Whether a product or a quotient takes the register: AX, and DX too where the operand is a word.
fn is_in_pair(width: Width, r: Reg) -> bool
    ensures { result ≡ is_in_pair width r }
{
    match width {
        Width::Byte => is_same_register(r, Reg::Ax),
        Width::Word => is_same_register(r, Reg::Ax) || is_same_register(r, Reg::Dx),
    }
}

fn unary_writes_half(operation: Unary, a: Operand, r: Reg, half: Half) -> bool
    ensures { result ≡ unary_writes_half operation a r half }
{
    match operation {
        Unary::Mul | Unary::Imul | Unary::Div | Unary::Idiv => is_in_pair(a.width(), r),
        _ => is_half_of(r, half, a),
    }
}

// Whether the operation without operands writes the half: CBW writes AH, CWD DX, XLAT AL.
fn plain_writes_half(operation: Plain, r: Reg, half: Half) -> bool
    ensures { result ≡ plain_writes_half operation r half }
{
    match operation {
        Plain::Cbw => is_same_register(r, Reg::Ax) && is_same_half(half, Half::High),
        Plain::Cwd => is_same_register(r, Reg::Dx),
        Plain::Xlat => is_same_register(r, Reg::Ax) && is_same_half(half, Half::Low),
        _ => false,
    }
}

/// Whether the operation may write that half of the register; a CALL may write all, and INT 21h
/// writes AL.
pub(crate) fn writes_half(op: Op, r: Reg, half: Half) -> bool
    ensures { result ≡ writes_half op r half }
{
    match op {
        Op::Alu(Alu::Cmp | Alu::Test, ..) => false,
        Op::Alu(_, a, _) | Op::Shift(_, a, _) | Op::Mov(a, _) => is_half_of(r, half, a),
        Op::Unary(operation, a) => unary_writes_half(operation, a, r, half),
        Op::Xchg(a, b) => is_half_of(r, half, a) || is_half_of(r, half, b),
        Op::Lea(to, _) | Op::Imul3(to, ..) => is_same_register(r, to),
        Op::Push(_) | Op::Ret(_) => is_same_register(r, Reg::Sp),
        Op::Pop(a) => is_same_register(r, Reg::Sp) || is_half_of(r, half, a),
        Op::Enter(_) | Op::Leave => is_same_register(r, Reg::Sp) || is_same_register(r, Reg::Bp),
        Op::Plain(operation) => plain_writes_half(operation, r, half),
        Op::Loop(_) | Op::LoopE(_) | Op::LoopNe(_) => is_same_register(r, Reg::Cx),
        Op::Call(_) => true,
        Op::Int21 => is_same_register(r, Reg::Ax) && is_same_half(half, Half::Low),
        _ => false,
    }
}

/// Whether the operation may write AH.
pub(crate) fn writes_ah(op: Op) -> bool
    ensures { result ≡ writes_half op Reg.Ax Half.High }
{
    writes_half(op, Reg::Ax, Half::High)
}

/// The constant that the operation puts into AH, if it moves one to AH or AX.
pub(crate) fn constant_to_ah(op: Op) -> Option<u8>
    requires { IsOperation op }
    ensures { result ≡ constant_to_ah op }
{
    match op {
        Op::Mov(Operand::Byte(Reg::Ax, Half::High), Operand::Const(_, constant)) => {
            Some(constant as u8)
        }
        Op::Mov(Operand::Word(Reg::Ax), Operand::Const(_, constant)) => {
            Some((constant / 256) as u8)
        }
        _ => None,
    }
}
