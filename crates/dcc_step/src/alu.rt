//! Arithmetic, operations on bits, and shifts.

ghost use Rattle.std.specs.Prelude.{◌≡◌, ◌<◌, ◌-◌, IfSome, Option, Some, None};
ghost use Rattle.dcc_num.specs.Numbers.{limit_of};
ghost use Rattle.dcc_num.specs.declared.Width.TheVariants.{Word as word_width};
ghost use Rattle.dcc_machine.specs.declared.instr.Operand.TheVariants.{Word as word_operand};
ghost use Rattle.dcc_machine.specs.Machine.{word_in, operand_value, operand_width};
ghost use Rattle.dcc_machine.specs.Writes.{writes_operand};
ghost use Rattle.dcc_step.specs.Form.{combined_of};
ghost use Rattle.dcc_machine.specs.Operations.{with_result, accumulator_in, upper_in, with_pair, with_product};
ghost use Rattle.dcc_machine.specs.Operations.{with_division, alu_step, unary_step, imul3_step, count_in, shift_result};
ghost use Rattle.dcc_machine.specs.Operations.{shift_step};
ghost use Rattle.dcc_machine.specs.WellFormed.{IsOperand, AreOperands, IsWordOperand};
ghost use Rattle.dcc_step.specs.Core.{state_of, changed_by};

use crate::ending::Ending;
use crate::machine::Machine;
use dcc_machine::{Alu, Count, Operand, Shift, Unary};
use dcc_num::{
    Flags, Half, NO_FLAGS, Reg, Width, add, and, dec, div, idiv, imul, inc, mul, neg, or, rcl1,
    rcr1, rol, ror, sar, shl, shr, sub, xor,
};

// NOT: the bits that are not in the operand.
fn complement(w: Width, a: u16) -> u16
    requires { a < limit_of w }
    ensures value { result ≡ limit_of w - 1 - a }
    ensures width { result < limit_of w }
{
    match w {
        Width::Byte => 0xFF - a,
        Width::Word => 0xFFFF - a,
    }
}

// A shift or rotate by a count; RCL and RCR are by 1 alone.
fn shift_by(kind: Shift, w: Width, a: u16, count: u8, was: Flags) -> (u16, Flags)
    requires { a < limit_of w }
    ensures shift { result ≡ shift_result kind w a count was }
    ensures width { result.0 < limit_of w }
{
    match kind {
        Shift::Rol => rol(w, a, count, was),
        Shift::Ror => ror(w, a, count, was),
        Shift::Rcl => rcl1(w, a, was),
        Shift::Rcr => rcr1(w, a, was),
        Shift::Shl => shl(w, a, count, was),
        Shift::Shr => shr(w, a, count, was),
        Shift::Sar => sar(w, a, count, was),
    }
}

// Whether the first operand takes the result.
fn writes_operand(kind: Alu) -> bool
    ensures { result ≡ writes_operand kind }
{
    !matches!(kind, Alu::Cmp | Alu::Test)
}

// The result of an operation on two operands, and its flags.
#[inline(always)]
fn combined(kind: Alu, w: Width, x: u16, y: u16, carry: bool) -> (u16, Flags)
    requires first { x < limit_of w }
    requires second { y < limit_of w }
    ensures combined { result ≡ combined_of kind w x y carry }
    ensures width { result.0 < limit_of w }
{
    match kind {
        Alu::Add => add(w, x, y, false),
        Alu::Adc => add(w, x, y, carry),
        Alu::Sub | Alu::Cmp => sub(w, x, y, false),
        Alu::Sbb => sub(w, x, y, carry),
        Alu::And | Alu::Test => and(w, x, y),
        Alu::Or => or(w, x, y),
        Alu::Xor => xor(w, x, y),
    }
}

impl Machine {
    // Gives an operand an outcome, and sets the flags with it.
    fn put_result(&mut self, operand: Operand, outcome: (u16, Flags))
        requires operand { IsOperand operand }
        requires width { outcome.0 < limit_of (operand_width operand) }
        ensures { self.new ≡ changed_by (with_result operand outcome) self.old }
    {
        self.flags = outcome.1;
        self.put(operand, outcome.0);
    }

    /// An operation on two operands.
    pub(crate) fn alu(&mut self, kind: Alu, a: Operand, b: Operand)
        requires { AreOperands a b }
        ensures { self.new ≡ changed_by (λ s.
            alu_step kind (operand_width a) a (operand_value s a) (operand_value s b) s) self.old }
    {
        let x = self.value(a);
        let y = self.value(b);
        let outcome = combined(kind, a.width(), x, y, self.flags.cf);
        if writes_operand(kind) {
            self.put_result(a, outcome);
        } else {
            self.flags = outcome.1;
        }
    }

    /// An operation on a word register and a word.
    pub(crate) fn alu_word(&mut self, kind: Alu, r: Reg, y: u16)
        ensures { self.new ≡ changed_by (λ s. alu_step kind word_width (word_operand r) (word_in s r) y s) self.old }
    {
        let outcome = combined(kind, Width::Word, self.reg(r), y, self.flags.cf);
        if writes_operand(kind) {
            self.put_word(r, outcome);
        } else {
            self.flags = outcome.1;
        }
    }

    /// Gives a word register an outcome, and sets the flags with it.
    pub(crate) fn put_word(&mut self, r: Reg, outcome: (u16, Flags))
        ensures { self.new ≡ changed_by (with_result (word_operand r) outcome) self.old }
    {
        self.flags = outcome.1;
        self.set_reg(r, outcome.0);
    }

    // What the accumulator of a width holds: AL or AX.
    fn accumulator(&self, w: Width) -> u16
        ensures value { result ≡ accumulator_in w (state_of self.now) }
        ensures width { result < limit_of w }
    {
        match w {
            Width::Byte => u16::from(Half::Low.of(self.reg(Reg::Ax))),
            Width::Word => self.reg(Reg::Ax),
        }
    }

    // What the upper half of what a division divides holds: AH or DX.
    fn upper(&self, w: Width) -> u16
        ensures value { result ≡ upper_in w (state_of self.now) }
        ensures width { result < limit_of w }
    {
        match w {
            Width::Byte => u16::from(Half::High.of(self.reg(Reg::Ax))),
            Width::Word => self.reg(Reg::Dx),
        }
    }

    // Gives two values to AL and AH, or to AX and DX.
    fn set_pair(&mut self, w: Width, low: u16, high: u16)
        requires low { low < limit_of w }
        requires high { high < limit_of w }
        ensures { self.new ≡ changed_by (with_pair w low high) self.old }
    {
        match w {
            Width::Byte => self.set_reg(Reg::Ax, high * 256 + low),
            Width::Word => {
                self.set_reg(Reg::Ax, low);
                self.set_reg(Reg::Dx, high);
            }
        }
    }

    // Keeps a product.
    fn set_product(&mut self, w: Width, product: (u16, u16, Flags))
        requires low { product.0 < limit_of w }
        requires high { product.1 < limit_of w }
        ensures { self.new ≡ changed_by (with_product w product) self.old }
    {
        self.flags = product.2;
        self.set_pair(w, product.0, product.1);
    }

    // Keeps a quotient and a remainder, or ends the run by a divide fault.
    fn set_division(&mut self, w: Width, division: Option<(u16, u16)>, at: u16)
        requires { IfSome division (λ x. (x.0 < limit_of w) × (x.1 < limit_of w)) }
        ensures { self.new ≡ changed_by (with_division w at division) self.old }
    {
        match division {
            None => self.finish(Ending::Divide, at),
            Some((quotient, remainder)) => {
                self.flags = NO_FLAGS;
                self.set_pair(w, quotient, remainder);
            }
        }
    }

    /// An operation on one operand of the instruction at an offset.
    pub(crate) fn unary(&mut self, kind: Unary, x: Operand, at: u16)
        requires { IsOperand x }
        ensures { self.new ≡ changed_by (λ s.
            unary_step kind (operand_width x) x (operand_value s x) at s) self.old }
    {
        let w = x.width();
        let a = self.value(x);
        match kind {
            Unary::Inc => self.put_result(x, inc(w, a, self.flags)),
            Unary::Dec => self.put_result(x, dec(w, a, self.flags)),
            Unary::Neg => self.put_result(x, neg(w, a)),
            Unary::Not => self.put(x, complement(w, a)),
            Unary::Mul => self.set_product(w, mul(w, self.accumulator(w), a)),
            Unary::Imul => self.set_product(w, imul(w, self.accumulator(w), a)),
            Unary::Div => {
                let division = div(w, self.upper(w), self.accumulator(w), a);
                self.set_division(w, division, at);
            }
            Unary::Idiv => {
                let division = idiv(w, self.upper(w), self.accumulator(w), a);
                self.set_division(w, division, at);
            }
        }
    }

    /// IMUL with three operands: the register takes the lower word of the product.
    pub(crate) fn imul3(&mut self, r: Reg, x: Operand, constant: u16)
        requires { IsWordOperand x }
        ensures { self.new ≡ changed_by (imul3_step r x constant) self.old }
    {
        let product = imul(Width::Word, self.value(x), constant);
        self.flags = product.2;
        self.set_reg(r, product.0);
    }

    // How far a shift or rotate goes.
    fn count(&self, count: Count) -> u8
        ensures { result ≡ count_in self.now.cpu count (state_of self.now) }
    {
        match count {
            Count::One => 1,
            Count::Cl => self.cpu.taken_count(Half::Low.of(self.reg(Reg::Cx))),
            Count::Const(number) => number % 32,
        }
    }

    /// A shift or rotate.
    pub(crate) fn shift(&mut self, kind: Shift, x: Operand, count: Count)
        requires { IsOperand x }
        ensures { self.new ≡ changed_by (shift_step self.old.cpu kind x count) self.old }
    {
        let w = x.width();
        let a = self.value(x);
        let outcome = shift_by(kind, w, a, self.count(count), self.flags);
        self.put_result(x, outcome);
    }
}
