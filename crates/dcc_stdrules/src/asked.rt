//! What rules ask of the operands of an operator, and what they put in its place.

ghost use Rattle.std.specs.Prelude.{◌≡◌, ◌==◌, IfOk};
ghost use Rattle.dcc_ir.specs.Forms.{is_number};
ghost use Rattle.dcc_ir.specs.Views.{expr_of};
ghost use Rattle.dcc_stdrules.specs.Rewriting.{number_of, asked_of, given_of};

use crate::copy::copied;
use crate::same::same_expr;
use dcc_ir::Expr;
use std::alloc::{AllocError, Global};

/// A number that rules name at each width.
#[derive(Clone, Copy)]
pub enum Number {
    Zero,
    One,
    /// The greatest number of a width.
    Ones,
}

impl Number {
    // Whether the number at that width is this.
    fn is(self, width: u8, number: u32) -> bool
        ensures { result ≡ (number == number_of self width) }
    {
        match self {
            Number::Zero => number == 0,
            Number::One => number == 1,
            Number::Ones => width <= 32 && u64::from(number) + 1 == 1 << width,
        }
    }

    // Whether the expression is the constant of that width with this number.
    fn is_in(self, width: u8, e: &Expr) -> bool
        ensures { result ≡ is_number width (number_of self width) (expr_of e.now) }
    {
        match e {
            Expr::Const(w, number) => *w == width && self.is(width, *number),
            _ => false,
        }
    }
}

/// What a rule asks of the operands of an operator.
#[derive(Clone, Copy)]
pub enum Asked {
    /// The left operand is a number.
    LeftIs(Number),
    /// The right operand is a number.
    RightIs(Number),
    /// The operands are the same.
    Same,
}

impl Asked {
    /// Whether operands of that width are as asked.
    pub fn holds(self, width: u8, left: &Expr, right: &Expr) -> bool
        ensures { result ≡ asked_of self width (expr_of left.now) (expr_of right.now) }
    {
        match self {
            Asked::LeftIs(number) => number.is_in(width, left),
            Asked::RightIs(number) => number.is_in(width, right),
            Asked::Same => same_expr(left, right),
        }
    }
}

/// What a rule puts in the place of an operator.
#[derive(Clone, Copy)]
pub enum Given {
    /// The left operand.
    Left,
    /// The right operand.
    Right,
    /// The number 0.
    Nothing,
}

impl Given {
    /// What takes the place of an operator with that width and these operands.
    pub fn of(self, alloc: Global, width: u8, left: &Expr, right: &Expr) -> Result<Expr, AllocError>
        ensures { IfOk result (λ r. expr_of r ≡ given_of self width (expr_of left.now) (expr_of right.now)) }
    {
        match self {
            Given::Left => copied(alloc, left),
            Given::Right => copied(alloc, right),
            Given::Nothing => Ok(Expr::Const(width, 0)),
        }
    }
}
