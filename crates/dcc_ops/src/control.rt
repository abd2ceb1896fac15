//! Conditions, loops and DOS calls.

ghost use Rattle.std.specs.Prelude.{◌≡◌, ◌++◌, OnOk, IfOk, option_map};
ghost use Rattle.dcc_ir.specs.Views.{expr_of};
ghost use Rattle.dcc_ir.specs.Tree as tree;
ghost use Rattle.dcc_ops.specs.Expressions as expressions;
ghost use Rattle.dcc_ops.specs.Statements as spec;
ghost use Rattle.dcc_ops.specs.Writing.{written};

use crate::expression::{Maker, flag, half, result_place};
use crate::writer::Writer;
use dcc_ir::{BinOp, Expr, Loc, Stmt, UnOp};
use dcc_machine::{Cond, Op};
use dcc_num::{FlagName, Half, Reg, Width, dos};
use std::alloc::{AllocError, Global};

impl Maker {
    // Less, as signed numbers.
    fn less(self) -> Result<Expr, AllocError>
        ensures { IfOk result (λ e. expr_of e ≡ expressions.less) }
    {
        self.binary(BinOp::Xor, 1, flag(FlagName::Sf), flag(FlagName::Of))
    }

    // Less or equal, as signed numbers.
    fn less_or_equal(self) -> Result<Expr, AllocError>
        ensures { IfOk result (λ e. expr_of e ≡ expressions.condition Cond.Le) }
    {
        self.binary(BinOp::Or, 1, flag(FlagName::Zf), self.less()?)
    }

    // Below or equal.
    fn below_or_equal(self) -> Result<Expr, AllocError>
        ensures { IfOk result (λ e. expr_of e ≡ expressions.condition Cond.Be) }
    {
        self.binary(BinOp::Or, 1, flag(FlagName::Cf), flag(FlagName::Zf))
    }

    // A condition as one bit.
    fn condition(self, condition: Cond) -> Result<Expr, AllocError>
        ensures { IfOk result (λ e. expr_of e ≡ expressions.condition condition) }
    {
        match condition {
            Cond::O => Ok(flag(FlagName::Of)),
            Cond::No => self.negated(flag(FlagName::Of)),
            Cond::B => Ok(flag(FlagName::Cf)),
            Cond::Ae => self.negated(flag(FlagName::Cf)),
            Cond::Z => Ok(flag(FlagName::Zf)),
            Cond::Nz => self.negated(flag(FlagName::Zf)),
            Cond::Be => self.below_or_equal(),
            Cond::A => self.negated(self.below_or_equal()?),
            Cond::S => Ok(flag(FlagName::Sf)),
            Cond::Ns => self.negated(flag(FlagName::Sf)),
            Cond::L => self.less(),
            Cond::Ge => self.negated(self.less()?),
            Cond::Le => self.less_or_equal(),
            Cond::G => self.negated(self.less_or_equal()?),
        }
    }

    // CX is not 0 after it was lowered.
    fn goes_round(self) -> Result<Expr, AllocError>
        ensures { IfOk result (λ e. expr_of e ≡ expressions.goes_round) }
    {
        let lowered = Expr::Get(result_place(Width::Word));
        self.negated(self.unary(UnOp::IsZero, 16, lowered)?)
    }

    // CX is not 0 after it was lowered, and the given bit is set.
    fn goes_round_and(self, e: Expr) -> Result<Expr, AllocError>
        ensures { IfOk result (λ both. expr_of both ≡ tree.Binary BinOp.And 1 (expr_of e) expressions.goes_round) }
    {
        self.binary(BinOp::And, 1, e, self.goes_round()?)
    }
}

/// The test of an operation that has two successors.
pub fn op_test(alloc: Global, op: Op) -> Result<Option<Expr>, AllocError>
    ensures { IfOk result (λ test. option_map expr_of test ≡ spec.op_test op) }
{
    let maker = Maker {
        alloc,
        w: Width::Word,
    };
    let test = match op {
        Op::Branch(condition, _) => maker.condition(condition),
        Op::Loop(_) => maker.goes_round(),
        Op::LoopE(_) => maker.goes_round_and(flag(FlagName::Zf)),
        Op::LoopNe(_) => maker.goes_round_and(maker.negated(flag(FlagName::Zf))?),
        Op::Jcxz(_) => maker.is_zero(maker.word_of(Reg::Cx)?),
        _ => return Ok(None),
    };
    Ok(Some(test?))
}

impl Writer {
    /// CX is lowered by 1.
    pub fn count_down(&mut self) -> Result<(), AllocError>
        ensures { OnOk result (written self.new ≡ written self.old ++ spec.counting) }
    {
        let maker = self.maker(Width::Word);
        let lowered = maker.at_width(BinOp::Sub, maker.word_of(Reg::Cx)?, maker.number(1))?;
        self.take_result(Width::Word, lowered)?;
        self.take_word(Reg::Cx, 0, result_place(Width::Word))
    }

    /// INT 21h with that number in AH. Calls of other numbers are refused before.
    pub fn dos(&mut self, number: Option<u8>) -> Result<(), AllocError>
        ensures { OnOk result (written self.new ≡ written self.old ++ spec.dos_stmts number) }
    {
        let al = Loc::Half(Reg::Ax, Half::Low);
        let Some(number) = number else {
            return Ok(());
        };
        let (place, argument) = match number {
            dos::PUTC => (None, Some(half(Reg::Dx, Half::Low))),
            dos::EXIT => (None, Some(Expr::Get(al))),
            dos::PUTS => (None, Some(self.maker(Width::Word).word_of(Reg::Dx)?)),
            dos::GETCHE | dos::GETCH => (Some(al), None),
            _ => return Ok(()),
        };
        self.stmts.push(Stmt::Dos {
            number,
            place,
            argument,
        })?;
        Ok(())
    }
}
