//! Expressions as shapes, and rows of what a list of rules leaves of them.

use dcc_ir::{BinOp, Expr, Loc, UnOp};
use dcc_rules::{RuleList, simplify};
use dcc_stdrules::same::same_expr;
use std::alloc::{AllocError, Global};
use std::process::Abort;
use std::test::Fail;

/// An expression.
pub enum Shape {
    Constant(u8, u32),
    Temporary(u32),
    One(UnOp, u8, &'static Shape),
    Two(BinOp, u8, &'static Shape, &'static Shape),
    Wide(bool, u8, &'static Shape),
    Bits(u8, u8, &'static Shape),
    Halves(&'static Shape, &'static Shape),
    Choice(&'static Shape, &'static Shape, &'static Shape),
}

/// An expression, and what is left of it.
pub struct Row {
    pub given: Shape,
    pub simple: Shape,
}

// The widths of the temporaries.
const WIDTHS: [u8; 6] = [8, 8, 16, 16, 32, 1];

// The expression of a shape.
fn expr(alloc: Global, shape: &Shape) -> Result<Expr, AllocError> {
    match shape {
        Shape::Constant(width, number) => Ok(Expr::Const(*width, *number)),
        Shape::Temporary(number) => Ok(Expr::Get(Loc::Temp(*number))),
        Shape::One(operator, width, a) => Expr::unary(alloc, *operator, *width, expr(alloc, a)?),
        Shape::Two(operator, width, a, b) => {
            let a = expr(alloc, a)?;
            Expr::binary(alloc, *operator, *width, a, expr(alloc, b)?)
        }
        Shape::Wide(by_sign, width, a) => Expr::widen(alloc, *by_sign, *width, expr(alloc, a)?),
        Shape::Bits(width, first, a) => Expr::part(alloc, *width, *first, expr(alloc, a)?),
        Shape::Halves(high, low) => {
            let high = expr(alloc, high)?;
            Expr::join(alloc, high, expr(alloc, low)?)
        }
        Shape::Choice(test, a, b) => {
            let test = expr(alloc, test)?;
            let a = expr(alloc, a)?;
            Expr::choose(alloc, test, a, expr(alloc, b)?)
        }
    }
}

// Whether the rules leave of the first expression the second.
fn leaves(alloc: Global, rules: &RuleList, row: &Row) -> Result<bool, AllocError> {
    let given = expr(alloc, &row.given)?;
    let left = simplify(alloc, &WIDTHS, given, rules)?;
    let simple = expr(alloc, &row.simple)?;
    Ok(same_expr(&left, &simple))
}

/// Simplifies each row by the rules.
pub fn check(rt: &impl Abort, alloc: Global, rules: &RuleList, rows: &[Row]) -> Result<(), Fail> {
    for row in rows {
        assert!(rt; leaves(alloc, rules, row)?);
    }
    Ok(())
}
