//! Operations on two operands, and those on one that work as them.

ghost use Rattle.std.specs.Prelude.{◌≡◌, ◌++◌, OnOk};
ghost use Rattle.dcc_ir.specs.Views.{expr_of};
ghost use Rattle.dcc_ops.specs.Expressions as expressions;
ghost use Rattle.dcc_ops.specs.Statements as spec;
ghost use Rattle.dcc_ops.specs.Placing.{place_of};
ghost use Rattle.dcc_ops.specs.Writing.{written};

use crate::expression::{bit, left_place, result_place};
use crate::operand_place::OperandPlace;
use crate::writer::Writer;
use dcc_ir::{BinOp, Expr, UnOp};
use dcc_machine::{Alu, Unary};
use dcc_num::Width;
use std::alloc::AllocError;

impl Writer {
    // OF takes the expression; SF and ZF tell the sign of the result and whether it is 0.
    fn take_result_flags(&mut self, w: Width, overflow: Expr) -> Result<(), AllocError>
        ensures { OnOk result (written self.new ≡ written self.old ++ spec.flags_taking (expr_of overflow)
            (expressions.sign w (expressions.result w)) (expressions.is_zero w (expressions.result w))) }
    {
        let maker = self.maker(w);
        let negative = maker.sign(maker.result())?;
        self.take_flags(overflow, negative, maker.is_zero(maker.result())?)
    }

    // The flags of a sum, but for CF.
    fn sum_flags(&mut self, w: Width) -> Result<(), AllocError>
        ensures { OnOk result (written self.new ≡ written self.old ++ spec.sum_flags w) }
    {
        self.take_result_flags(w, self.maker(w).sum_overflow()?)
    }

    // The flags of a difference, but for CF.
    fn difference_flags(&mut self, w: Width) -> Result<(), AllocError>
        ensures { OnOk result (written self.new ≡ written self.old ++ spec.difference_flags w) }
    {
        let maker = self.maker(w);
        let negative = maker.sign(maker.result())?;
        let zero = maker.combined(BinOp::Eq)?;
        self.take_flags(maker.difference_overflow()?, negative, zero)
    }

    // A sum.
    fn add(&mut self, w: Width) -> Result<(), AllocError>
        ensures { OnOk result (written self.new ≡ written self.old ++ spec.alu_working Alu.Add w) }
    {
        let maker = self.maker(w);
        self.take_result(w, maker.sum()?)?;
        self.sum_flags(w)?;
        self.take_carry(maker.carry_out()?)
    }

    // A sum with the carry.
    fn adc(&mut self, w: Width) -> Result<(), AllocError>
        ensures { OnOk result (written self.new ≡ written self.old ++ spec.alu_working Alu.Adc w) }
    {
        let maker = self.maker(w);
        self.bring_carry()?;
        self.take_result(w, maker.sum_and_carry()?)?;
        self.sum_flags(w)?;
        self.take_carry(maker.carry_out_of_both()?)
    }

    // A difference.
    fn sub(&mut self, w: Width) -> Result<(), AllocError>
        ensures { OnOk result (written self.new ≡ written self.old ++ spec.subtracting w) }
    {
        let maker = self.maker(w);
        self.take_result(w, maker.difference()?)?;
        self.difference_flags(w)?;
        self.take_carry(maker.borrow_out()?)
    }

    // A difference with the borrow.
    fn sbb(&mut self, w: Width) -> Result<(), AllocError>
        ensures { OnOk result (written self.new ≡ written self.old ++ spec.alu_working Alu.Sbb w) }
    {
        let maker = self.maker(w);
        self.bring_carry()?;
        self.take_result(w, maker.difference_and_borrow()?)?;
        self.take_result_flags(w, maker.difference_overflow_of_both()?)?;
        self.take_carry(maker.borrow_out_of_both()?)
    }

    // An operation on single bits.
    fn combine(&mut self, w: Width, operator: BinOp) -> Result<(), AllocError>
        ensures { OnOk result (written self.new ≡ written self.old ++ spec.combining w operator) }
    {
        let maker = self.maker(w);
        self.take_result(w, maker.combined(operator)?)?;
        self.take_result_flags(w, bit(false))?;
        self.take_carry(bit(false))
    }

    // What an operation does to the result and the flags.
    fn alu_working(&mut self, operation: Alu, w: Width) -> Result<(), AllocError>
        ensures { OnOk result (written self.new ≡ written self.old ++ spec.alu_working operation w) }
    {
        match operation {
            Alu::Add => self.add(w),
            Alu::Adc => self.adc(w),
            Alu::Sub | Alu::Cmp => self.sub(w),
            Alu::Sbb => self.sbb(w),
            Alu::And | Alu::Test => self.combine(w, BinOp::And),
            Alu::Or => self.combine(w, BinOp::Or),
            Alu::Xor => self.combine(w, BinOp::Xor),
        }
    }

    // The operand takes the result, except of CMP and TEST.
    fn alu_storing(&mut self, operation: Alu, w: Width, p: OperandPlace) -> Result<(), AllocError>
        ensures { OnOk result (written self.new ≡ written self.old ++ spec.alu_storing operation w (place_of p)) }
    {
        match operation {
            Alu::Cmp | Alu::Test => Ok(()),
            _ => self.store(p, result_place(w)),
        }
    }

    /// An operation on two operands of that width.
    pub fn alu(
        &mut self,
        operation: Alu,
        w: Width,
        p: OperandPlace,
        q: OperandPlace,
    ) -> Result<(), AllocError>
        ensures { OnOk result (written self.new
            ≡ written self.old ++ spec.alu_stmts operation w (place_of p) (place_of q)) }
    {
        self.take_operands(w, p, q)?;
        self.alu_working(operation, w)?;
        self.alu_storing(operation, w, p)
    }

    /// XOR or SUB of a place of that width with itself: the flags of 0, and 0 moves there.
    pub fn zero(&mut self, w: Width, p: OperandPlace) -> Result<(), AllocError>
        ensures { OnOk result (written self.new ≡ written self.old ++ spec.zeroing w (place_of p)) }
    {
        self.take_flags(bit(false), bit(false), bit(true))?;
        self.take_carry(bit(false))?;
        self.mov(w, p, OperandPlace::Constant(w, 0))
    }

    // INC.
    fn inc(&mut self, w: Width, p: OperandPlace) -> Result<(), AllocError>
        ensures { OnOk result (written self.new ≡ written self.old ++ spec.unary_stmts Unary.Inc w (place_of p)) }
    {
        self.take_operands(w, p, OperandPlace::Constant(w, 1))?;
        self.take_result(w, self.maker(w).sum()?)?;
        self.sum_flags(w)?;
        self.store(p, result_place(w))
    }

    // DEC.
    fn dec(&mut self, w: Width, p: OperandPlace) -> Result<(), AllocError>
        ensures { OnOk result (written self.new ≡ written self.old ++ spec.unary_stmts Unary.Dec w (place_of p)) }
    {
        self.take_operands(w, p, OperandPlace::Constant(w, 1))?;
        self.take_result(w, self.maker(w).difference()?)?;
        self.difference_flags(w)?;
        self.store(p, result_place(w))
    }

    // NEG.
    fn neg(&mut self, w: Width, p: OperandPlace) -> Result<(), AllocError>
        ensures { OnOk result (written self.new ≡ written self.old ++ spec.unary_stmts Unary.Neg w (place_of p)) }
    {
        self.take_operands(w, OperandPlace::Constant(w, 0), p)?;
        self.sub(w)?;
        self.store(p, result_place(w))
    }

    // NOT.
    fn not(&mut self, w: Width, p: OperandPlace) -> Result<(), AllocError>
        ensures { OnOk result (written self.new ≡ written self.old ++ spec.unary_stmts Unary.Not w (place_of p)) }
    {
        self.take(left_place(w), p)?;
        let maker = self.maker(w);
        let complement = maker.unary(UnOp::Not, w.bits(), maker.left())?;
        self.take_result(w, complement)?;
        self.store(p, result_place(w))
    }

    /// An operation on one operand of that width. What a division divides has an upper half that is 0, or that repeats
    /// the sign of the lower one.
    pub fn unary(&mut self, operation: Unary, w: Width, p: OperandPlace) -> Result<(), AllocError>
        ensures { OnOk result (written self.new ≡ written self.old ++ spec.unary_stmts operation w (place_of p)) }
    {
        match operation {
            Unary::Inc => self.inc(w, p),
            Unary::Dec => self.dec(w, p),
            Unary::Neg => self.neg(w, p),
            Unary::Not => self.not(w, p),
            Unary::Mul => self.multiply(w, false, p),
            Unary::Imul => self.multiply(w, true, p),
            Unary::Div => self.divide(w, BinOp::DivU, BinOp::RemU, p),
            Unary::Idiv => self.divide(w, BinOp::DivS, BinOp::RemS, p),
        }
    }
}
