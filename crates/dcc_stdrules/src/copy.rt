//! Copies of expressions.

ghost use Rattle.std.specs.Prelude.{◌≡◌, IfOk};
ghost use Rattle.dcc_ir.specs.Views.{expr_of};

use dcc_ir::Expr;
use std::alloc::{AllocError, Global};

/// A copy of an expression.
pub fn copied(alloc: Global, e: &Expr) -> Result<Expr, AllocError>
    ensures { IfOk result (λ r. expr_of r ≡ expr_of e.now) }
{
    match e {
        Expr::Const(width, number) => Ok(Expr::Const(*width, *number)),
        Expr::Get(location) => Ok(Expr::Get(*location)),
        Expr::Load(width, address) => Expr::load(alloc, *width, copied(alloc, address)?),
        Expr::Un(operator, width, operand) => {
            Expr::unary(alloc, *operator, *width, copied(alloc, operand)?)
        }
        Expr::Bin(operator, width, left, right) => {
            let left = copied(alloc, left)?;
            Expr::binary(alloc, *operator, *width, left, copied(alloc, right)?)
        }
        Expr::Widen(by_sign, width, operand) => {
            Expr::widen(alloc, *by_sign, *width, copied(alloc, operand)?)
        }
        Expr::Part(width, first, operand) => {
            Expr::part(alloc, *width, *first, copied(alloc, operand)?)
        }
        Expr::Join(high, low) => {
            let high = copied(alloc, high)?;
            Expr::join(alloc, high, copied(alloc, low)?)
        }
        Expr::Choose(test, one, other) => {
            let test = copied(alloc, test)?;
            let one = copied(alloc, one)?;
            Expr::choose(alloc, test, one, copied(alloc, other)?)
        }
        Expr::Address(distance) => Ok(Expr::Address(*distance)),
    }
}
