//! Forms of common instructions.

ghost use Rattle.std.specs.Prelude.{◌≡◌, ◌≢◌};
ghost use Rattle.dcc_step.specs.declared.form.Form.TheVariants.{Other};
ghost use Rattle.dcc_step.specs.Form.{op_of};

use dcc_machine::{Alu, Cond, Ea, Op, Operand, Unary};
use dcc_num::{Reg, Width};

/// The form of an operation that a step makes on a short path, with its operands.
#[derive(Clone, Copy)]
pub(crate) enum Form {
    /// An operation on two word registers.
    Registers(Alu, Reg, Reg),
    /// An operation on a word register and a constant.
    Constant(Alu, Reg, u16),
    /// An operation on a word register and a word in memory.
    Memory(Alu, Reg, Ea),
    /// INC of a word register.
    Inc(Reg),
    /// DEC of a word register.
    Dec(Reg),
    /// MOV of a word register to another one.
    Move(Reg, Reg),
    /// MOV of a constant to a word register.
    Set(Reg, u16),
    /// MOV of a word in memory to a word register.
    Load(Reg, Ea),
    /// MOV of a word register to memory.
    Store(Ea, Reg),
    /// A jump in any case.
    Jump(u16),
    /// A jump where the condition holds.
    Branch(Cond, u16),
    /// Any other operation.
    Other,
}

impl Form {
    /// The form of an operation.
    pub(crate) fn of(op: Op) -> Form
        ensures { result ≢ Other → op ≡ op_of result }
    {
        match op {
            Op::Alu(kind, Operand::Word(a), Operand::Word(b)) => Form::Registers(kind, a, b),
            Op::Alu(kind, Operand::Word(a), Operand::Const(Width::Word, constant)) => {
                Form::Constant(kind, a, constant)
            }
            Op::Alu(kind, Operand::Word(a), Operand::Mem(Width::Word, ea)) => {
                Form::Memory(kind, a, ea)
            }
            Op::Unary(Unary::Inc, Operand::Word(r)) => Form::Inc(r),
            Op::Unary(Unary::Dec, Operand::Word(r)) => Form::Dec(r),
            Op::Mov(Operand::Word(a), Operand::Word(b)) => Form::Move(a, b),
            Op::Mov(Operand::Word(r), Operand::Const(Width::Word, constant)) => {
                Form::Set(r, constant)
            }
            Op::Mov(Operand::Word(r), Operand::Mem(Width::Word, ea)) => Form::Load(r, ea),
            Op::Mov(Operand::Mem(Width::Word, ea), Operand::Word(r)) => Form::Store(ea, r),
            Op::Jump(target) => Form::Jump(target),
            Op::Branch(condition, target) => Form::Branch(condition, target),
            _ => Form::Other,
        }
    }
}
