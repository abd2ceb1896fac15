//! Shifts and rotates. The right operand is the count.

ghost use Rattle.std.specs.Prelude.{◌≡◌, ◌++◌, [], ◌∷◌, OnOk, IfOk};
ghost use Rattle.dcc_machine.specs.Writes as writes;
ghost use Rattle.dcc_ir.specs.Views.{expr_of};
ghost use Rattle.dcc_ir.specs.Tree as tree;
ghost use Rattle.dcc_ops.specs.Expressions as expressions;
ghost use Rattle.dcc_ops.specs.Statements as spec;
ghost use Rattle.dcc_ops.specs.Placing.{place_of};
ghost use Rattle.dcc_ops.specs.Writing.{written};

use crate::expression::{Maker, bit, flag, half, left_place, result_place, right_place};
use crate::operand_place::OperandPlace;
use crate::writer::Writer;
use dcc_ir::{BinOp, Expr, Loc};
use dcc_machine::{Count, Cpu, Shift};
use dcc_num::{FlagName, Half, Reg, Width};
use std::alloc::AllocError;

// Whether nothing is shifted: the count is a constant that is 0 modulo 32.
fn never_shifts(count: Count) -> bool
    ensures { result ≡ writes.never_shifts count }
{
    match count {
        Count::Const(number) => number % 32 == 0,
        Count::One | Count::Cl => false,
    }
}

impl Maker {
    // CL as a number of the width.
    fn cl(self) -> Result<Expr, AllocError>
        ensures { IfOk result (λ e. expr_of e ≡ expressions.cl_at self.w) }
    {
        let cl = half(Reg::Cx, Half::Low);
        match self.w {
            Width::Byte => Ok(cl),
            Width::Word => self.widen(false, 16, cl),
        }
    }

    // CL as the processor takes it: the 80186 by its five lowest bits.
    fn taken_cl(self, cpu: Cpu) -> Result<Expr, AllocError>
        ensures { IfOk result (λ e. expr_of e ≡ expressions.taken_cl cpu self.w) }
    {
        match cpu {
            Cpu::I8086 => self.cl(),
            Cpu::I186 => self.at_width(BinOp::And, self.cl()?, self.number(31)),
        }
    }

    // The count.
    fn count(self, cpu: Cpu, count: Count) -> Result<Expr, AllocError>
        ensures { IfOk result (λ e. expr_of e ≡ expressions.count_expr cpu self.w count) }
    {
        match count {
            Count::One => Ok(self.number(1)),
            Count::Cl => self.taken_cl(cpu),
            Count::Const(number) => Ok(self.number(u32::from(number % 32))),
        }
    }

    // A flag, which stays where the count is in CL and 0.
    fn unless_zero(self, count: Count, f: FlagName, e: Expr) -> Result<Expr, AllocError>
        ensures { IfOk result (λ set. expr_of set ≡ expressions.unless_zero self.w count f (expr_of e)) }
    {
        match count {
            Count::Cl => {
                let stays = self.is_zero(self.right())?;
                self.choose(stays, flag(f), e)
            }
            Count::One | Count::Const(_) => Ok(e),
        }
    }

    // A bit that counts for a count of 1 alone; for other counts it is 0. By a constant nothing is read to tell which.
    fn if_one(self, count: Count, e: Expr) -> Result<Expr, AllocError>
        ensures { IfOk result (λ bit. expr_of bit ≡ expressions.if_one self.w count (expr_of e)) }
    {
        match count {
            Count::One => Ok(e),
            Count::Const(number) if number % 32 == 1 => Ok(e),
            Count::Const(_) => Ok(bit(false)),
            Count::Cl => {
                let one = self.at_width(BinOp::Eq, self.right(), self.number(1))?;
                self.binary(BinOp::And, 1, one, e)
            }
        }
    }

    // The operand but for the last place of the shift.
    fn nearly_shifted(self, operator: BinOp) -> Result<Expr, AllocError>
        ensures { IfOk result (λ e. expr_of e ≡ expressions.nearly_shifted operator self.w) }
    {
        let places = self.at_width(BinOp::Sub, self.right(), self.number(1))?;
        self.at_width(operator, self.left(), places)
    }

    // How many places a rotate moves the bits.
    fn rotation(self) -> Result<Expr, AllocError>
        ensures { IfOk result (λ e. expr_of e ≡ expressions.rotation self.w) }
    {
        let last = self.number(u32::from(self.w.bits()) - 1);
        self.at_width(BinOp::And, self.right(), last)
    }

    // What is missing to a whole rotation.
    fn rest_of_rotation(self) -> Result<Expr, AllocError>
        ensures { IfOk result (λ e. expr_of e ≡ expressions.rest_of_rotation self.w) }
    {
        let whole = self.number(u32::from(self.w.bits()));
        self.at_width(BinOp::Sub, whole, self.rotation()?)
    }

    // The operand shifted by as many places as a rotate moves the bits.
    fn moved(self, operator: BinOp) -> Result<Expr, AllocError>
        ensures { IfOk result (λ e. expr_of e
            ≡ expressions.at_width operator self.w (expressions.left self.w) (expressions.rotation self.w)) }
    {
        self.at_width(operator, self.left(), self.rotation()?)
    }

    // The operand shifted by what is missing to a whole rotation: the bits that come round.
    fn come_round(self, operator: BinOp) -> Result<Expr, AllocError>
        ensures { IfOk result (λ e. expr_of e
            ≡ expressions.at_width operator self.w (expressions.left self.w) (expressions.rest_of_rotation self.w)) }
    {
        self.at_width(operator, self.left(), self.rest_of_rotation()?)
    }

    // The operand rotated to the left.
    fn rol_value(self) -> Result<Expr, AllocError>
        ensures { IfOk result (λ e. expr_of e ≡ expressions.rol_value self.w) }
    {
        let high = self.moved(BinOp::Shl)?;
        self.at_width(BinOp::Or, high, self.come_round(BinOp::Shr)?)
    }

    // The operand rotated to the right.
    fn ror_value(self) -> Result<Expr, AllocError>
        ensures { IfOk result (λ e. expr_of e ≡ expressions.ror_value self.w) }
    {
        let low = self.moved(BinOp::Shr)?;
        self.at_width(BinOp::Or, low, self.come_round(BinOp::Shl)?)
    }

    // The operand rotated to the left by one place, through CF.
    fn rcl_value(self) -> Result<Expr, AllocError>
        ensures { IfOk result (λ e. expr_of e ≡ expressions.rcl_value self.w) }
    {
        let high = self.at_width(BinOp::Shl, self.left(), self.number(1))?;
        self.at_width(BinOp::Or, high, self.carry()?)
    }

    // The operand rotated to the right by one place, through CF.
    fn rcr_value(self) -> Result<Expr, AllocError>
        ensures { IfOk result (λ e. expr_of e ≡ expressions.rcr_value self.w) }
    {
        let last = self.number(u32::from(self.w.bits()) - 1);
        let low = self.at_width(BinOp::Shr, self.left(), self.number(1))?;
        let high = self.at_width(BinOp::Shl, self.carry()?, last)?;
        self.at_width(BinOp::Or, low, high)
    }

    // One bit differs from the sign of the result.
    fn differs_from_sign(self, e: Expr) -> Result<Expr, AllocError>
        ensures { IfOk result (λ bit. expr_of bit
            ≡ tree.Binary BinOp.Xor 1 (expr_of e) (expressions.sign self.w (expressions.result self.w))) }
    {
        self.binary(BinOp::Xor, 1, e, self.sign(self.result())?)
    }

    // The two highest bits of the result differ.
    fn top_bits_differ(self) -> Result<Expr, AllocError>
        ensures { IfOk result (λ bit. expr_of bit
            ≡ tree.Binary BinOp.Xor 1
            (expressions.sign self.w (expressions.result self.w))
            (expressions.below_sign self.w (expressions.result self.w))) }
    {
        let sign = self.sign(self.result())?;
        self.binary(BinOp::Xor, 1, sign, self.below_sign(self.result())?)
    }

    // The bit that SHL moves out last.
    fn out_at_top(self) -> Result<Expr, AllocError>
        ensures { IfOk result (λ bit. expr_of bit
            ≡ expressions.sign self.w (expressions.nearly_shifted BinOp.Shl self.w)) }
    {
        self.sign(self.nearly_shifted(BinOp::Shl)?)
    }
}

// What a shift or a rotate leaves in OF and in CF.
#[derive(Drop)]
struct MovedOut {
    overflow: Expr,
    carry: Expr,
}

impl Writer {
    // A flag takes the expression, but stays where the count is in CL and 0.
    fn take_shift_flag(
        &mut self,
        w: Width,
        count: Count,
        f: FlagName,
        e: Expr,
    ) -> Result<(), AllocError>
        ensures { OnOk result (written self.new
            ≡ written self.old ++ tree.Set (Loc.Flag f) (expressions.unless_zero w count f (expr_of e)) ∷ []) }
    {
        let set = self.maker(w).unless_zero(count, f, e)?;
        self.set(Loc::Flag(f), set)
    }

    // The flags of a shift.
    fn shift_flags(&mut self, w: Width, count: Count, out: MovedOut) -> Result<(), AllocError>
        ensures { OnOk result (written self.new
            ≡ written self.old ++ spec.shift_flags w count (expr_of out.overflow) (expr_of out.carry)) }
    {
        let maker = self.maker(w);
        self.take_shift_flag(w, count, FlagName::Of, out.overflow)?;
        self.take_shift_flag(w, count, FlagName::Sf, maker.sign(maker.result())?)?;
        self.take_shift_flag(w, count, FlagName::Zf, maker.is_zero(maker.result())?)?;
        self.take_shift_flag(w, count, FlagName::Cf, out.carry)
    }

    // The flags of a rotate.
    fn rotate_flags(&mut self, w: Width, count: Count, out: MovedOut) -> Result<(), AllocError>
        ensures { OnOk result (written self.new
            ≡ written self.old ++ spec.rotate_flags w count (expr_of out.overflow) (expr_of out.carry)) }
    {
        self.take_shift_flag(w, count, FlagName::Of, out.overflow)?;
        self.take_shift_flag(w, count, FlagName::Cf, out.carry)
    }

    // SHL.
    fn shl(&mut self, w: Width, count: Count) -> Result<(), AllocError>
        ensures { OnOk result (written self.new ≡ written self.old ++ spec.shift_working Shift.Shl w count) }
    {
        let maker = self.maker(w);
        self.take_result(w, maker.combined(BinOp::Shl)?)?;
        let differ = maker.differs_from_sign(maker.out_at_top()?)?;
        let overflow = maker.if_one(count, differ)?;
        let carry = maker.out_at_top()?;
        self.shift_flags(w, count, MovedOut { overflow, carry })
    }

    // SHR.
    fn shr(&mut self, w: Width, count: Count) -> Result<(), AllocError>
        ensures { OnOk result (written self.new ≡ written self.old ++ spec.shift_working Shift.Shr w count) }
    {
        let maker = self.maker(w);
        self.take_result(w, maker.combined(BinOp::Shr)?)?;
        let overflow = maker.if_one(count, maker.sign(maker.left())?)?;
        let carry = maker.lowest(maker.nearly_shifted(BinOp::Shr)?)?;
        self.shift_flags(w, count, MovedOut { overflow, carry })
    }

    // SAR.
    fn sar(&mut self, w: Width, count: Count) -> Result<(), AllocError>
        ensures { OnOk result (written self.new ≡ written self.old ++ spec.shift_working Shift.Sar w count) }
    {
        let maker = self.maker(w);
        self.take_result(w, maker.combined(BinOp::Sar)?)?;
        let carry = maker.lowest(maker.nearly_shifted(BinOp::Sar)?)?;
        let overflow = bit(false);
        self.shift_flags(w, count, MovedOut { overflow, carry })
    }

    // ROL.
    fn rol(&mut self, w: Width, count: Count) -> Result<(), AllocError>
        ensures { OnOk result (written self.new ≡ written self.old ++ spec.shift_working Shift.Rol w count) }
    {
        let maker = self.maker(w);
        self.take_result(w, maker.rol_value()?)?;
        let differ = maker.differs_from_sign(maker.lowest(maker.result())?)?;
        let overflow = maker.if_one(count, differ)?;
        let carry = maker.lowest(maker.result())?;
        self.rotate_flags(w, count, MovedOut { overflow, carry })
    }

    // ROR.
    fn ror(&mut self, w: Width, count: Count) -> Result<(), AllocError>
        ensures { OnOk result (written self.new ≡ written self.old ++ spec.shift_working Shift.Ror w count) }
    {
        let maker = self.maker(w);
        self.take_result(w, maker.ror_value()?)?;
        let overflow = maker.if_one(count, maker.top_bits_differ()?)?;
        let carry = maker.sign(maker.result())?;
        self.rotate_flags(w, count, MovedOut { overflow, carry })
    }

    // RCL, by one place alone.
    fn rcl(&mut self, w: Width) -> Result<(), AllocError>
        ensures { OnOk result (written self.new ≡ written self.old ++ spec.shift_working Shift.Rcl w Count.One) }
    {
        let maker = self.maker(w);
        self.bring_carry()?;
        self.take_result(w, maker.rcl_value()?)?;
        let overflow = maker.differs_from_sign(maker.sign(maker.left())?)?;
        let carry = maker.sign(maker.left())?;
        self.rotate_flags(w, Count::One, MovedOut { overflow, carry })
    }

    // RCR, by one place alone.
    fn rcr(&mut self, w: Width) -> Result<(), AllocError>
        ensures { OnOk result (written self.new ≡ written self.old ++ spec.shift_working Shift.Rcr w Count.One) }
    {
        let maker = self.maker(w);
        self.bring_carry()?;
        self.take_result(w, maker.rcr_value()?)?;
        let overflow = maker.top_bits_differ()?;
        let carry = maker.lowest(maker.left())?;
        self.rotate_flags(w, Count::One, MovedOut { overflow, carry })
    }

    // What a shift or rotate does to the result and the flags.
    fn shift_working(&mut self, operation: Shift, w: Width, count: Count) -> Result<(), AllocError>
        ensures { OnOk result (written self.new ≡ written self.old ++ spec.shift_working operation w count) }
    {
        match operation {
            Shift::Shl => self.shl(w, count),
            Shift::Shr => self.shr(w, count),
            Shift::Sar => self.sar(w, count),
            Shift::Rol => self.rol(w, count),
            Shift::Ror => self.ror(w, count),
            Shift::Rcl => self.rcl(w),
            Shift::Rcr => self.rcr(w),
        }
    }

    // The operand and the count go to their temporaries.
    fn take_count(
        &mut self,
        cpu: Cpu,
        w: Width,
        p: OperandPlace,
        count: Count,
    ) -> Result<(), AllocError>
        ensures { OnOk result (written self.new
            ≡ written self.old ++ spec.count_taking cpu w (place_of p) count) }
    {
        self.take(left_place(w), p)?;
        let count = self.maker(w).count(cpu, count)?;
        self.set(right_place(w), count)
    }

    // An operand takes its own value.
    fn stay(&mut self, w: Width, p: OperandPlace) -> Result<(), AllocError>
        ensures { OnOk result (written self.new ≡ written self.old ++ spec.staying w (place_of p)) }
    {
        self.take(result_place(w), p)?;
        self.store(p, result_place(w))
    }

    /// A shift or rotate of an operand of that width, on a processor.
    pub fn shift(
        &mut self,
        cpu: Cpu,
        operation: Shift,
        w: Width,
        p: OperandPlace,
        count: Count,
    ) -> Result<(), AllocError>
        ensures { OnOk result (written self.new
            ≡ written self.old ++ spec.shift_stmts cpu operation w (place_of p) count) }
    {
        if never_shifts(count) {
            return self.stay(w, p);
        }
        self.take_count(cpu, w, p, count)?;
        self.shift_working(operation, w, count)?;
        self.store(p, result_place(w))
    }
}
