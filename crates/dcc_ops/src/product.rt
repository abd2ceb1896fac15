//! Products.

ghost use Rattle.std.specs.Prelude.{◌≡◌, ◌++◌, true, OnOk, IfOk};
ghost use Rattle.dcc_ir.specs.Views.{expr_of};
ghost use Rattle.dcc_ops.specs.Expressions as expressions;
ghost use Rattle.dcc_ops.specs.Registers as registers;
ghost use Rattle.dcc_ops.specs.Statements as spec;
ghost use Rattle.dcc_ops.specs.Placing.{place_of};
ghost use Rattle.dcc_ops.specs.Writing.{written};

use crate::expression::{Maker, bit, product_place};
use crate::operand_place::{OperandPlace, register_place};
use crate::writer::Writer;
use dcc_ir::{BinOp, Expr};
use dcc_machine::Operand;
use dcc_num::{Half, Reg, Width};
use std::alloc::AllocError;

/// The accumulator of a width: AL or AX.
pub fn accumulator(w: Width) -> OperandPlace
    ensures { place_of result ≡ registers.register_place (spec.accumulator w) }
{
    register_place(match w {
        Width::Byte => Operand::Byte(Reg::Ax, Half::Low),
        Width::Word => Operand::Word(Reg::Ax),
    })
}

impl Maker {
    // The product of the operands, of twice the width.
    fn multiplied(self, signed: bool) -> Result<Expr, AllocError>
        ensures { IfOk result (λ e. expr_of e ≡ expressions.multiplied self.w signed) }
    {
        let double = 2 * self.w.bits();
        let left = self.widen(signed, double, self.left())?;
        let right = self.widen(signed, double, self.right())?;
        self.binary(BinOp::Mul, double, left, right)
    }

    // The product is not that of the numbers in its lower half, by their signs.
    fn needs_signed_upper_half(self) -> Result<Expr, AllocError>
        ensures { IfOk result (λ e. expr_of e ≡ expressions.needs_upper_half self.w true) }
    {
        let double = 2 * self.w.bits();
        let low = self.part(self.w.bits(), 0, self.product())?;
        let extended = self.widen(true, double, low)?;
        let same = self.binary(BinOp::Eq, double, extended, self.product())?;
        self.negated(same)
    }

    // The product needs its upper half.
    fn needs_upper_half(self, signed: bool) -> Result<Expr, AllocError>
        ensures { IfOk result (λ e. expr_of e ≡ expressions.needs_upper_half self.w signed) }
    {
        if signed {
            return self.needs_signed_upper_half();
        }
        let high = self.part(self.w.bits(), self.w.bits(), self.product())?;
        self.at_width(BinOp::LtU, self.number(0), high)
    }
}

impl Writer {
    // AX, or DX and AX, take the product.
    fn store_product(&mut self, w: Width) -> Result<(), AllocError>
        ensures { OnOk result (written self.new ≡ written self.old ++ spec.product_storing w) }
    {
        let product = product_place(w);
        match w {
            Width::Byte => self.take_word(Reg::Ax, 0, product),
            Width::Word => {
                self.take_word(Reg::Ax, 0, product)?;
                self.take_word(Reg::Dx, 16, product)
            }
        }
    }

    // OF tells whether the product needs its upper half; SF and ZF are 0.
    fn take_product_flags(&mut self, w: Width, signed: bool) -> Result<(), AllocError>
        ensures { OnOk result (written self.new ≡ written self.old
            ++ spec.flags_taking (expressions.needs_upper_half w signed) (expressions.bit 0) (expressions.bit 0)) }
    {
        let overflow = self.maker(w).needs_upper_half(signed)?;
        self.take_flags(overflow, bit(false), bit(false))
    }

    // The product of the factors, and its flags.
    fn product_working(&mut self, w: Width, signed: bool) -> Result<(), AllocError>
        ensures { OnOk result (written self.new ≡ written self.old ++ spec.product_working w signed) }
    {
        let maker = self.maker(w);
        self.set(product_place(w), maker.multiplied(signed)?)?;
        self.take_product_flags(w, signed)?;
        self.take_carry(maker.needs_upper_half(signed)?)
    }

    /// MUL, or IMUL where the numbers are signed.
    pub fn multiply(&mut self, w: Width, signed: bool, p: OperandPlace) -> Result<(), AllocError>
        ensures { OnOk result (written self.new ≡ written self.old ++ spec.multiplying w signed (place_of p)) }
    {
        self.take_operands(w, accumulator(w), p)?;
        self.product_working(w, signed)?;
        self.store_product(w)
    }

    /// IMUL of three operands: the register takes the lower word of the product.
    pub fn triple_product(&mut self, r: Reg, p: OperandPlace, number: u16) -> Result<(), AllocError>
        ensures { OnOk result (written self.new ≡ written self.old ++ spec.triple_product r (place_of p) number) }
    {
        let w = Width::Word;
        self.take_operands(w, p, OperandPlace::Constant(w, number))?;
        self.product_working(w, true)?;
        self.take_word(r, 0, product_place(w))
    }
}
