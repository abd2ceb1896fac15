//! Expressions: copies, and bounds of their depth.

ghost use Rattle.std.specs.Prelude.{◌≡◌, IfOk};
ghost use Rattle.dcc_ir.specs.Views.{expr_of};
ghost use Rattle.dcc_available.specs.Shape as spec;

use dcc_ir::{Expr, Loc};
use std::alloc::{AllocError, Global};

/// A copy of an expression.
pub fn copied(alloc: Global, e: &Expr) -> Result<Expr, AllocError>
    ensures { IfOk result (λ r. expr_of r ≡ expr_of e.now) }
{
    match e {
        Expr::Const(width, number) => Ok(Expr::Const(*width, *number)),
        Expr::Get(location) => Ok(Expr::Get(*location)),
        Expr::Load(width, address) => Expr::load(alloc, *width, copied(alloc, address)?),
        Expr::Un(operator, width, operand) => {
            Expr::unary(alloc, *operator, *width, copied(alloc, operand)?)
        }
        Expr::Bin(operator, width, left, right) => {
            let left = copied(alloc, left)?;
            Expr::binary(alloc, *operator, *width, left, copied(alloc, right)?)
        }
        Expr::Widen(by_sign, width, operand) => {
            Expr::widen(alloc, *by_sign, *width, copied(alloc, operand)?)
        }
        Expr::Part(width, first, operand) => {
            Expr::part(alloc, *width, *first, copied(alloc, operand)?)
        }
        Expr::Join(high, low) => {
            let high = copied(alloc, high)?;
            Expr::join(alloc, high, copied(alloc, low)?)
        }
        Expr::Choose(test, one, other) => {
            let test = copied(alloc, test)?;
            let one = copied(alloc, one)?;
            Expr::choose(alloc, test, one, copied(alloc, other)?)
        }
        Expr::Address(distance) => Ok(Expr::Address(*distance)),
    }
}

/// Whether an expression is at most so deep.
pub fn is_within(e: &Expr, depth: usize) -> bool
    ensures { result ≡ spec.is_within (expr_of e.now) depth }
{
    if depth == 0 {
        return false;
    }
    let less = depth - 1;
    match e {
        Expr::Const(..) | Expr::Get(_) | Expr::Address(_) => true,
        Expr::Load(_, a) | Expr::Un(_, _, a) | Expr::Widen(_, _, a) | Expr::Part(_, _, a) => {
            is_within(a, less)
        }
        Expr::Bin(_, _, a, b) | Expr::Join(a, b) => is_within(a, less) && is_within(b, less),
        Expr::Choose(test, a, b) => is_within(test, less)
            && is_within(a, less)
            && is_within(b, less),
    }
}

/// Whether an expression is a constant or the read of a temporary.
pub fn is_simple(e: &Expr) -> bool {
    match e {
        Expr::Const(..) | Expr::Get(Loc::Temp(_)) => true,
        _ => false,
    }
}
