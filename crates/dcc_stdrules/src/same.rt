//! Which expressions are the same, and how wide they are.

ghost use Rattle.std.specs.Prelude.{◌≡◌, ◌==◌, ◌+◌, min};
ghost use Rattle.dcc_ir.specs.Forms.{same_unary, same_binary, same_expr, is_number};
ghost use Rattle.dcc_ir.specs.Value.{width_of};
ghost use Rattle.dcc_ir.specs.Views.{expr_of};

use dcc_ir::plain::scene::same_location;
use dcc_ir::{BinOp, Expr, UnOp};

/// Whether the two are one operator.
pub fn same_unary(a: UnOp, b: UnOp) -> bool
    ensures { result ≡ same_unary a b }
{
    a as u8 == b as u8
}

/// Whether the two are one operator.
pub fn same_binary(a: BinOp, b: BinOp) -> bool
    ensures { result ≡ same_binary a b }
{
    a as u8 == b as u8
}

/// Whether the expression is the constant of that width and number.
pub fn is_number(e: &Expr, width: u8, number: u32) -> bool
    ensures { result ≡ is_number width number (expr_of e.now) }
{
    match e {
        Expr::Const(w, n) => *w == width && *n == number,
        _ => false,
    }
}

/// Whether the two expressions are one tree.
pub fn same_expr(a: &Expr, b: &Expr) -> bool
    ensures { result ≡ same_expr (expr_of a.now) (expr_of b.now) }
{
    match (a, b) {
        (Expr::Const(v, n), Expr::Const(w, m)) => *v == *w && *n == *m,
        (Expr::Get(k), Expr::Get(l)) => same_location(*k, *l),
        (Expr::Load(v, x), Expr::Load(w, y)) => *v == *w && same_expr(x, y),
        (Expr::Un(f, v, x), Expr::Un(g, w, y)) => {
            same_unary(*f, *g) && *v == *w && same_expr(x, y)
        }
        (Expr::Bin(f, v, x, z), Expr::Bin(g, w, y, u)) => {
            same_binary(*f, *g) && *v == *w && same_expr(x, y) && same_expr(z, u)
        }
        (Expr::Widen(s, v, x), Expr::Widen(t, w, y)) => *s == *t && *v == *w && same_expr(x, y),
        (Expr::Part(v, n, x), Expr::Part(w, m, y)) => *v == *w && *n == *m && same_expr(x, y),
        (Expr::Join(x, z), Expr::Join(y, u)) => same_expr(x, y) && same_expr(z, u),
        (Expr::Choose(s, x, z), Expr::Choose(t, y, u)) => {
            same_expr(s, t) && same_expr(x, y) && same_expr(z, u)
        }
        (Expr::Address(d), Expr::Address(f)) => *d == *f,
        _ => false,
    }
}

/// More bits than an expression of a graph has.
const MANY: u32 = 0xFFFF;

/// How many bits an expression has, where the temporaries have these; no more than `MANY`.
pub fn width_in(bits: &[u8], e: &Expr) -> u32
    ensures { result ≡ min (width_of bits.now (expr_of e.now)) 65535 }
{
    match e {
        Expr::Const(width, ..)
        | Expr::Load(width, ..)
        | Expr::Widen(_, width, ..)
        | Expr::Part(width, ..) => u32::from(*width),
        Expr::Get(location) => u32::from(location.width(bits)),
        Expr::Un(operator, width, ..) => if operator.is_test() {
            1
        } else {
            u32::from(*width)
        },
        Expr::Bin(operator, width, ..) => {
            if operator.is_comparison() {
                1
            } else {
                u32::from(*width)
            }
        }
        Expr::Join(high, low) => (width_in(bits, high) + width_in(bits, low)).min(MANY),
        Expr::Choose(_, one, ..) => width_in(bits, one),
        Expr::Address(_) => 16,
    }
}

/// Whether an expression has so many bits, where the temporaries have these.
pub fn has_width(bits: &[u8], e: &Expr, width: u8) -> bool
    ensures { result ≡ (width_of bits.now (expr_of e.now) == width) }
{
    width_in(bits, e) == u32::from(width)
}

/// Whether an expression has twice so many bits, where the temporaries have these.
pub fn has_double_width(bits: &[u8], e: &Expr, width: u8) -> bool
    ensures { result ≡ (width_of bits.now (expr_of e.now) == width + width) }
{
    width_in(bits, e) == 2 * u32::from(width)
}
