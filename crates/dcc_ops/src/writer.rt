//! The writer of a block's statements.

ghost use Rattle.std.specs.Prelude.{◌≡◌, ◌+◌, ◌++◌, [], ◌∷◌, ◌<◌, OnOk, IfOk, option_map};
ghost use Rattle.dcc_ir.specs.Views.{expr_of};
ghost use Rattle.dcc_ir.specs.Tree as tree;
ghost use Rattle.dcc_ops.specs.OperandPlace as places;
ghost use Rattle.dcc_ops.specs.Computed as computed;
ghost use Rattle.dcc_ops.specs.Placing.{place_of};
ghost use Rattle.dcc_ops.specs.Statements as spec;
ghost use Rattle.dcc_ops.specs.Writing.{written};

use crate::expression::{
    Maker, carry_place, constant, flag, left_place, result_place, right_place,
};
use crate::operand_place::{Computed, OperandPlace};
use dcc_ir::{BinOp, Expr, Loc, Stmt};
use dcc_num::{FlagName, Half, Reg, Width};
use std::alloc::{AllocError, Global};

// The address at a distance from the base of the frame, where there is one.
fn address_at(frame: Option<u16>) -> Option<Expr>
    ensures { option_map expr_of result ≡ option_map tree.Address frame }
{
    Some(Expr::Address(frame?))
}

/// Writes the statements of a block, one after the other.
#[derive(Drop)]
pub struct Writer {
    pub stmts: Vec<Stmt>,
    pub alloc: Global,
}

impl Writer {
    /// A writer that has written nothing.
    pub fn new(alloc: Global) -> Writer
        ensures { written result ≡ [] }
    {
        Writer {
            stmts: Vec::new(alloc),
            alloc,
        }
    }

    /// Makes expressions for operands of a width.
    pub fn maker(&self, w: Width) -> Maker
        ensures { result.w ≡ w }
    {
        Maker {
            alloc: self.alloc,
            w,
        }
    }

    /// A location takes the value of an expression.
    pub fn set(&mut self, at: Loc, e: Expr) -> Result<(), AllocError>
        ensures { OnOk result (written self.new ≡ written self.old ++ tree.Set at (expr_of e) ∷ []) }
    {
        self.stmts.push(Stmt::Set {
            place: at,
            value: e,
        })?;
        Ok(())
    }

    // A sum so far, where there is one, and a part more.
    fn plus(&self, sum: Option<Expr>, e: Expr) -> Result<Expr, AllocError>
        ensures { IfOk result (λ both. expr_of both ≡ computed.plus (option_map expr_of sum) (expr_of e)) }
    {
        match sum {
            Some(sum) => self.maker(Width::Word).binary(BinOp::Add, 16, sum, e),
            None => Ok(e),
        }
    }

    // A sum so far with a register, where there is one.
    fn adding(&self, r: Option<Reg>, sum: Option<Expr>) -> Result<Option<Expr>, AllocError>
        ensures { IfOk result (λ both. option_map expr_of both ≡ computed.adding r (option_map expr_of sum)) }
    {
        match r {
            Some(r) => {
                let word = self.maker(Width::Word).word_of(r)?;
                Ok(Some(self.plus(sum, word)?))
            }
            None => Ok(sum),
        }
    }

    // A sum so far with a number: 0 is added to nothing.
    fn ending(&self, sum: Option<Expr>, number: u16) -> Result<Expr, AllocError>
        ensures { IfOk result (λ e. expr_of e ≡ computed.ending number (option_map expr_of sum)) }
    {
        let last = constant(16, u32::from(number));
        match sum {
            None => Ok(last),
            Some(sum) => {
                if number == 0 {
                    return Ok(sum);
                }
                self.maker(Width::Word).binary(BinOp::Add, 16, sum, last)
            }
        }
    }

    /// The expression of a word that is computed.
    pub fn computed(&self, c: Computed) -> Result<Expr, AllocError>
        ensures { IfOk result (λ e. expr_of e ≡ computed.computed_expr c) }
    {
        let base = self.adding(c.base, address_at(c.frame))?;
        let sum = self.adding(c.index, base)?;
        self.ending(sum, c.number)
    }

    /// The expression of what a place holds.
    pub fn value(&self, place: OperandPlace) -> Result<Expr, AllocError>
        ensures { IfOk result (λ e. expr_of e ≡ places.place_value (place_of place)) }
    {
        match place {
            OperandPlace::Constant(width, number) => Ok(constant(width.bits(), u32::from(number))),
            OperandPlace::Byte(location) => Ok(Expr::Get(location)),
            OperandPlace::Word(low, high) => self
                .maker(Width::Word)
                .join(Expr::Get(high), Expr::Get(low)),
            OperandPlace::Memory(width, at) => Expr::load(
                self.alloc,
                width.bits(),
                self.computed(at)?,
            ),
            OperandPlace::Address(distance) => Ok(Expr::Address(distance)),
            OperandPlace::Computed(word) => self.computed(word),
        }
    }

    /// A location takes `width` bits of the memory, from an address on.
    pub fn fetch(&mut self, to: Loc, width: u8, address: Expr) -> Result<(), AllocError>
        ensures { OnOk result (written self.new ≡ written self.old ++ tree.Fetch to width (expr_of address) ∷ []) }
    {
        self.stmts.push(Stmt::Load {
            place: to,
            width,
            address,
        })?;
        Ok(())
    }

    /// A location takes what a place holds.
    pub fn take(&mut self, to: Loc, place: OperandPlace) -> Result<(), AllocError>
        ensures { OnOk result (written self.new ≡ written self.old ++ places.taking to (place_of place) ∷ []) }
    {
        match place {
            OperandPlace::Memory(width, at) => {
                let address = self.computed(at)?;
                self.fetch(to, width.bits(), address)
            }
            _ => {
                let value = self.value(place)?;
                self.set(to, value)
            }
        }
    }

    /// The operands go to their temporaries.
    pub fn take_operands(
        &mut self,
        w: Width,
        p: OperandPlace,
        q: OperandPlace,
    ) -> Result<(), AllocError>
        ensures { OnOk result (written self.new
            ≡ written self.old ++ spec.operands_taking w (place_of p) (place_of q)) }
    {
        self.take(left_place(w), p)?;
        self.take(right_place(w), q)
    }

    /// The temporary of the carry takes CF as it comes in.
    pub fn bring_carry(&mut self) -> Result<(), AllocError>
        ensures { OnOk result (written self.new ≡ written self.old ++ spec.carry_in ∷ []) }
    {
        self.set(carry_place(), flag(FlagName::Cf))
    }

    /// The temporary of the result takes an expression.
    pub fn take_result(&mut self, w: Width, e: Expr) -> Result<(), AllocError>
        ensures { OnOk result (written self.new ≡ written self.old ++ spec.result_taking w (expr_of e)) }
    {
        self.set(result_place(w), e)
    }

    /// OF, SF and ZF take three expressions.
    pub fn take_flags(
        &mut self,
        overflow: Expr,
        negative: Expr,
        zero: Expr,
    ) -> Result<(), AllocError>
        ensures { OnOk result (written self.new
            ≡ written self.old ++ spec.flags_taking (expr_of overflow) (expr_of negative) (expr_of zero)) }
    {
        self.set(Loc::Flag(FlagName::Of), overflow)?;
        self.set(Loc::Flag(FlagName::Sf), negative)?;
        self.set(Loc::Flag(FlagName::Zf), zero)
    }

    /// CF takes an expression.
    pub fn take_carry(&mut self, e: Expr) -> Result<(), AllocError>
        ensures { OnOk result (written self.new ≡ written self.old ++ spec.carry_taking (expr_of e)) }
    {
        self.set(Loc::Flag(FlagName::Cf), e)
    }

    /// A word register takes two bytes, from bit `first` on, of a location that holds as much.
    pub fn take_word(&mut self, r: Reg, first: u8, from: Loc) -> Result<(), AllocError>
        requires { first + 8 < 256 }
        ensures { OnOk result (written self.new ≡ written self.old ++ spec.word_taking r first (tree.Get from)) }
    {
        let maker = self.maker(Width::Byte);
        let low = maker.part(8, first, Expr::Get(from))?;
        let high = maker.part(8, 8 + first, Expr::Get(from))?;
        self.set(Loc::Half(r, Half::Low), low)?;
        self.set(Loc::Half(r, Half::High), high)
    }

    /// A place takes a temporary of its width.
    pub fn store(&mut self, place: OperandPlace, from: Loc) -> Result<(), AllocError>
        ensures { OnOk result (written self.new ≡ written self.old ++ places.storing (place_of place) (tree.Get from)) }
    {
        match place {
            OperandPlace::Byte(location) => self.set(location, Expr::Get(from)),
            OperandPlace::Word(low, high) => {
                let maker = self.maker(Width::Byte);
                let first = maker.part(8, 0, Expr::Get(from))?;
                let second = maker.part(8, 8, Expr::Get(from))?;
                self.set(low, first)?;
                self.set(high, second)
            }
            OperandPlace::Memory(width, at) => {
                let address = self.computed(at)?;
                self.stmts.push(Stmt::Store {
                    width: width.bits(),
                    address,
                    value: Expr::Get(from),
                })?;
                Ok(())
            }
            OperandPlace::Constant(..) | OperandPlace::Address(_) | OperandPlace::Computed(_) => Ok(
                (),
            ),
        }
    }
}
