//! The forms in which instructions use SP and BP.

ghost use Rattle.std.specs.Prelude.{◌≡◌};
ghost use Rattle.dcc_machine.specs.SpAndBp.{is_push_bp, is_mov_bp_sp, is_enter, is_sp_or_bp, address_uses_bp, is_by_bp};
ghost use Rattle.dcc_machine.specs.SpAndBp.{names_sp_or_bp, uses_bp_address, is_sp_move, is_at_or_below_bp};
ghost use Rattle.dcc_machine.specs.SpAndBp.{leaves_frame, copies_bp};

use crate::instr::{Alu, Ea, Op, Operand, Unary};
use dcc_num::Reg;

impl Ea {
    /// Whether the address uses BP.
    pub fn uses_bp(self) -> bool
        ensures { result ≡ address_uses_bp self }
    {
        matches!(self.base, Some(Reg::Bp)) || matches!(self.index, Some(Reg::Bp))
    }

    /// Whether the address is BP plus a signed word that is at most 0.
    pub fn is_at_or_below_bp(self) -> bool
        ensures { result ≡ is_at_or_below_bp self }
    {
        matches!(self.base, Some(Reg::Bp))
            && !self.index.is_some()
            && (self.disp == 0 || self.disp >= 32768)
    }
}

impl Operand {
    /// Whether the operand is SP or BP. A half of one of them, which no byte register is, would count too.
    pub fn is_sp_or_bp(self) -> bool
        ensures { result ≡ is_sp_or_bp self }
    {
        matches!(
            self,
            Operand::Word(Reg::Sp | Reg::Bp) | Operand::Byte(Reg::Sp | Reg::Bp, _)
        )
    }

    /// Whether the operand is in memory, and its address uses BP.
    pub fn is_by_bp(self) -> bool
        ensures { result ≡ is_by_bp self }
    {
        match self {
            Operand::Mem(_, ea) => ea.uses_bp(),
            _ => false,
        }
    }
}

impl Op {
    /// Whether the operation is `push bp`.
    pub fn is_push_bp(self) -> bool
        ensures { result ≡ is_push_bp self }
    {
        matches!(self, Op::Push(Operand::Word(Reg::Bp)))
    }

    /// Whether the operation is `mov bp,sp`.
    pub fn is_mov_bp_sp(self) -> bool
        ensures { result ≡ is_mov_bp_sp self }
    {
        matches!(
            self,
            Op::Mov(Operand::Word(Reg::Bp), Operand::Word(Reg::Sp))
        )
    }

    /// Whether the operation is ENTER.
    pub fn is_enter(self) -> bool
        ensures { result ≡ is_enter self }
    {
        matches!(self, Op::Enter(_))
    }

    /// Whether an operand of the operation is SP or BP, as of ENTER and LEAVE in any case.
    pub fn names_sp_or_bp(self) -> bool
        ensures { result ≡ names_sp_or_bp self }
    {
        match self {
            Op::Alu(_, a, b) | Op::Mov(a, b) | Op::Xchg(a, b) => a.is_sp_or_bp() || b.is_sp_or_bp(),
            Op::Unary(_, a) | Op::Shift(_, a, _) | Op::Push(a) | Op::Pop(a) => a.is_sp_or_bp(),
            Op::Lea(r, _) => Operand::Word(r).is_sp_or_bp(),
            Op::Imul3(r, a, _) => Operand::Word(r).is_sp_or_bp() || a.is_sp_or_bp(),
            Op::Enter(_) | Op::Leave => true,
            _ => false,
        }
    }

    /// Whether the address of a memory operand, or of LEA, uses BP.
    pub fn uses_bp_address(self) -> bool
        ensures { result ≡ uses_bp_address self }
    {
        match self {
            Op::Alu(_, a, b) | Op::Mov(a, b) | Op::Xchg(a, b) => a.is_by_bp() || b.is_by_bp(),
            Op::Unary(_, a) | Op::Shift(_, a, _) | Op::Imul3(_, a, _) | Op::Push(a) | Op::Pop(a) =>
                a.is_by_bp(),
            Op::Lea(_, ea) => ea.uses_bp(),
            _ => false,
        }
    }

    /// Whether the operation is a move of SP: ADD or SUB of a constant, INC or DEC.
    pub fn is_sp_move(self) -> bool
        ensures { result ≡ is_sp_move self }
    {
        matches!(
            self,
            Op::Alu(
                Alu::Add | Alu::Sub,
                Operand::Word(Reg::Sp),
                Operand::Const(..)
            ) | Op::Unary(Unary::Inc | Unary::Dec, Operand::Word(Reg::Sp))
        )
    }

    /// Whether the operation is `mov sp,bp`, LEA of SP from BP, `pop bp` or LEAVE, with which a framed procedure gives
    /// bytes of its frame up.
    pub fn leaves_frame(self) -> bool
        ensures { result ≡ leaves_frame self }
    {
        match self {
            Op::Mov(Operand::Word(Reg::Sp), Operand::Word(Reg::Bp)) => true,
            Op::Lea(Reg::Sp, ea) => ea.is_at_or_below_bp(),
            Op::Pop(Operand::Word(Reg::Bp)) => true,
            Op::Leave => true,
            _ => false,
        }
    }

    /// Whether the operation is `mov r,bp` to a general register, which takes the frame's address.
    pub fn copies_bp(self) -> bool
        ensures { result ≡ copies_bp self }
    {
        match self {
            Op::Mov(Operand::Word(r), Operand::Word(Reg::Bp)) => !matches!(r, Reg::Sp | Reg::Bp),
            _ => false,
        }
    }
}
