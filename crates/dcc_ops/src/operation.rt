//! The statements of an instruction.

ghost use Rattle.std.specs.Prelude.{◌≡◌, ◌++◌, OnOk};
ghost use Rattle.dcc_ops.specs.Statements as spec;
ghost use Rattle.dcc_ops.specs.Placing.{place_of};
ghost use Rattle.dcc_ops.specs.Writing.{written};

use crate::operand_place::OperandPlace;
use crate::writer::Writer;
use dcc_machine::{Cpu, Op};
use std::alloc::AllocError;

impl Writer {
    /// The statements of an operation on a processor, with the places of its first and its second operand, and for INT
    /// 21h the number of its call. Operations that use the stack, call, return or jump through a table are refused
    /// before; a jump has no statement.
    pub fn operation(
        &mut self,
        cpu: Cpu,
        op: Op,
        number: Option<u8>,
        p: OperandPlace,
        q: OperandPlace,
    ) -> Result<(), AllocError>
        ensures { OnOk result (written self.new
            ≡ written self.old ++ spec.op_stmts cpu op number (place_of p) (place_of q)) }
    {
        match op {
            Op::Alu(operation, a, b) if operation.is_zeroing(a, b) => self.zero(a.width(), p),
            Op::Alu(operation, a, _) => self.alu(operation, a.width(), p, q),
            Op::Unary(operation, a) => self.unary(operation, a.width(), p),
            Op::Shift(operation, a, count) => self.shift(cpu, operation, a.width(), p, count),
            Op::Mov(to, _) => self.mov(to.width(), p, q),
            Op::Xchg(a, _) => self.xchg(a.width(), p, q),
            Op::Imul3(r, _, number) => self.triple_product(r, p, number),
            Op::Plain(operation) => self.plain(operation),
            Op::Loop(_) | Op::LoopE(_) | Op::LoopNe(_) => self.count_down(),
            Op::Int21 => self.dos(number),
            Op::Lea(..) | Op::Push(_) | Op::Pop(_) | Op::Enter(_) | Op::Leave => Ok(()),
            Op::Call(_) | Op::Ret(_) => Ok(()),
            Op::Jump(_) | Op::Branch(..) | Op::Jcxz(_) | Op::Table(..) => Ok(()),
        }
    }
}
