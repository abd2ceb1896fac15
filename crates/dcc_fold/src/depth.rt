//! Bounds of the depth of expressions.

ghost use Rattle.std.specs.Prelude.{◌≡◌};
ghost use Rattle.dcc_ir.specs.declared.syntax.Loc.TheVariants.{Temp as TempOf};
ghost use Rattle.dcc_ir.specs.Joinable.{with_value_for};
ghost use Rattle.dcc_ir.specs.Tree.{Get as GetOf};
ghost use Rattle.dcc_ir.specs.Views.{expr_of};
ghost use Rattle.dcc_available.specs.Shape as spec;

use dcc_ir::{Expr, Loc};

// Whether an expression is at most so deep.
fn is_within(e: &Expr, depth: usize) -> bool
    ensures { result ≡ spec.is_within (expr_of e.now) depth }
{
    if depth == 0 {
        return false;
    }
    let less = depth - 1;
    match e {
        Expr::Const(..) | Expr::Get(_) | Expr::Address(_) => true,
        Expr::Load(_, a) | Expr::Un(_, _, a) | Expr::Widen(_, _, a) | Expr::Part(_, _, a) => {
            is_within(a, less)
        }
        Expr::Bin(_, _, a, b) | Expr::Join(a, b) => is_within(a, less) && is_within(b, less),
        Expr::Choose(test, a, b) => is_within(test, less)
            && is_within(a, less)
            && is_within(b, less),
    }
}

// Whether what stands in the place of a read is at most so deep.
fn is_read_within(location: Loc, temporary: u32, value: &Expr, depth: usize) -> bool
    ensures { result ≡ spec.is_within (with_value_for (TempOf temporary) (expr_of value.now) (GetOf location)) depth }
{
    if location == Loc::Temp(temporary) {
        is_within(value, depth)
    } else {
        depth != 0
    }
}

/// Whether an expression with the value in the place of each read of the temporary is at most so deep.
pub fn is_within_with(e: &Expr, temporary: u32, value: &Expr, depth: usize) -> bool
    ensures { result ≡ spec.is_within (with_value_for (TempOf temporary) (expr_of value.now) (expr_of e.now)) depth }
{
    if depth == 0 {
        return false;
    }
    let less = depth - 1;
    match e {
        Expr::Const(..) | Expr::Address(_) => true,
        Expr::Get(location) => is_read_within(*location, temporary, value, depth),
        Expr::Load(_, a) | Expr::Un(_, _, a) | Expr::Widen(_, _, a) | Expr::Part(_, _, a) => {
            is_within_with(a, temporary, value, less)
        }
        Expr::Bin(_, _, a, b) | Expr::Join(a, b) => {
            is_within_with(a, temporary, value, less) && is_within_with(b, temporary, value, less)
        }
        Expr::Choose(test, a, b) => is_within_with(test, temporary, value, less)
            && is_within_with(a, temporary, value, less)
            && is_within_with(b, temporary, value, less),
    }
}
