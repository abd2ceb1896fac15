//! Moves, which go half by half, and operations without operands.

ghost use Rattle.std.specs.Prelude.{◌≡◌, ◌++◌, ◌∷◌, OnOk};
ghost use Rattle.dcc_ops.specs.Temporaries as temporaries;
ghost use Rattle.dcc_ops.specs.Expressions as expressions;
ghost use Rattle.dcc_ops.specs.OperandPlace as places;
ghost use Rattle.dcc_ops.specs.Statements as spec;
ghost use Rattle.dcc_ops.specs.Placing.{place_of};
ghost use Rattle.dcc_ops.specs.Writing.{written};

use crate::expression::{bit, byte, constant, flag, half, left_place, product_place, right_place};
use crate::operand_place::OperandPlace;
use crate::writer::Writer;
use dcc_ir::{BinOp, Expr, Loc};
use dcc_machine::Plain;
use dcc_num::{FlagName, Half, Reg, Width};
use std::alloc::AllocError;

impl Writer {
    // The first place takes what the second holds, through a temporary of that width.
    fn move_through(
        &mut self,
        w: Width,
        to: OperandPlace,
        from: OperandPlace,
    ) -> Result<(), AllocError>
        ensures { OnOk result (written self.new ≡ written self.old
            ++ places.taking (temporaries.left_place w) (place_of from)
            ∷ places.storing (place_of to) (expressions.left w)) }
    {
        self.take(left_place(w), from)?;
        self.store(to, left_place(w))
    }

    /// MOV of operands of that width.
    pub fn mov(&mut self, w: Width, to: OperandPlace, from: OperandPlace) -> Result<(), AllocError>
        ensures { OnOk result (written self.new ≡ written self.old ++ spec.mov_stmts w (place_of to) (place_of from)) }
    {
        match (to, from) {
            (OperandPlace::Byte(to), OperandPlace::Byte(from)) => self.set(to, Expr::Get(from)),
            (OperandPlace::Byte(to), OperandPlace::Constant(width, number)) => {
                self.set(to, constant(width.bits(), u32::from(number)))
            }
            (OperandPlace::Word(low, high), OperandPlace::Word(l, h)) => {
                self.set(low, Expr::Get(l))?;
                self.set(high, Expr::Get(h))
            }
            (OperandPlace::Word(low, high), OperandPlace::Constant(_, number)) => {
                self.set(low, byte(Half::Low.of(number)))?;
                self.set(high, byte(Half::High.of(number)))
            }
            _ => self.move_through(w, to, from),
        }
    }

    // Two bytes are exchanged.
    fn exchange(&mut self, a: Loc, b: Loc) -> Result<(), AllocError>
        ensures { OnOk result (written self.new ≡ written self.old ++ spec.exchanging a b) }
    {
        let kept = left_place(Width::Byte);
        self.set(kept, Expr::Get(a))?;
        self.set(a, Expr::Get(b))?;
        self.set(b, Expr::Get(kept))
    }

    // Two places are exchanged through temporaries of that width; the first is stored first.
    fn exchange_through(
        &mut self,
        w: Width,
        p: OperandPlace,
        q: OperandPlace,
    ) -> Result<(), AllocError>
        ensures { OnOk result (written self.new ≡ written self.old ++ (spec.operands_taking w (place_of p) (place_of q)
            ++ (places.storing (place_of p) (expressions.right w)
            ++ places.storing (place_of q) (expressions.left w)))) }
    {
        self.take_operands(w, p, q)?;
        self.store(p, right_place(w))?;
        self.store(q, left_place(w))
    }

    /// XCHG of operands of that width.
    pub fn xchg(&mut self, w: Width, p: OperandPlace, q: OperandPlace) -> Result<(), AllocError>
        ensures { OnOk result (written self.new ≡ written self.old ++ spec.xchg_stmts w (place_of p) (place_of q)) }
    {
        match (p, q) {
            (OperandPlace::Byte(a), OperandPlace::Byte(b)) => self.exchange(a, b),
            (OperandPlace::Word(low, high), OperandPlace::Word(l, h)) => {
                self.exchange(low, l)?;
                self.exchange(high, h)
            }
            _ => self.exchange_through(w, p, q),
        }
    }

    // CBW.
    fn extend_byte(&mut self) -> Result<(), AllocError>
        ensures { OnOk result (written self.new ≡ written self.old ++ spec.plain_stmts Plain.Cbw) }
    {
        let maker = self.maker(Width::Byte);
        let word = maker.widen(true, 16, half(Reg::Ax, Half::Low))?;
        self.set(Loc::Half(Reg::Ax, Half::High), maker.part(8, 8, word)?)
    }

    // CWD.
    fn extend_word(&mut self) -> Result<(), AllocError>
        ensures { OnOk result (written self.new ≡ written self.old ++ spec.plain_stmts Plain.Cwd) }
    {
        let maker = self.maker(Width::Word);
        let product = product_place(Width::Word);
        let extended = maker.widen(true, 32, maker.word_of(Reg::Ax)?)?;
        self.set(product, extended)?;
        self.take_word(Reg::Dx, 16, product)
    }

    // XLAT.
    fn look_up(&mut self) -> Result<(), AllocError>
        ensures { OnOk result (written self.new ≡ written self.old ++ spec.plain_stmts Plain.Xlat) }
    {
        let maker = self.maker(Width::Word);
        let al = Loc::Half(Reg::Ax, Half::Low);
        let kept = left_place(Width::Byte);
        let index = maker.widen(false, 16, Expr::Get(al))?;
        let address = maker.binary(BinOp::Add, 16, maker.word_of(Reg::Bx)?, index)?;
        self.fetch(kept, 8, address)?;
        self.set(al, Expr::Get(kept))
    }

    /// An operation without operands; CLI, STI and CLD do nothing.
    pub fn plain(&mut self, operation: Plain) -> Result<(), AllocError>
        ensures { OnOk result (written self.new ≡ written self.old ++ spec.plain_stmts operation) }
    {
        match operation {
            Plain::Cbw => self.extend_byte(),
            Plain::Cwd => self.extend_word(),
            Plain::Clc => self.take_carry(bit(false)),
            Plain::Stc => self.take_carry(bit(true)),
            Plain::Cmc => {
                let carry = self.maker(Width::Byte).negated(flag(FlagName::Cf))?;
                self.take_carry(carry)
            }
            Plain::Xlat => self.look_up(),
            Plain::Nop | Plain::Cli | Plain::Sti | Plain::Cld => Ok(()),
        }
    }
}
