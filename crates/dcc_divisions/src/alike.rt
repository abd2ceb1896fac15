//! Divisions that fault alike.

ghost use Rattle.std.specs.Prelude.{◌≡◌, true, ◌∷◌, List};
ghost use Rattle.dcc_ir.specs.Live as live;
ghost use Rattle.dcc_ir.specs.Tree.{Stmt as StmtOf};
ghost use Rattle.dcc_ir.specs.Use.{reads_of};
ghost use Rattle.dcc_ir.specs.Views.{expr_of, stmt_of};
ghost use Rattle.dcc_substitution.specs.Available as available;
ghost use Rattle.dcc_divisions.specs.Divisions as spec;
ghost use Rattle.dcc_divisions.specs.Divisions.{Leaves, IsDivided, DividesFirst};
ghost use Rattle.dcc_divisions.specs.Walk as walk;
ghost use Rattle.dcc_divisions.specs.Walk.{backward, divide_alike};

use dcc_ir::plain::scene::same_location;
use dcc_ir::{BinOp, Expr, Loc, Stmt};
use dcc_stdrules::same::same_expr;

// Whether an operator divides signed numbers.
fn divides_signed(operator: BinOp) -> bool
    ensures { result ≡ spec.divides_signed operator }
{
    match operator {
        BinOp::DivS | BinOp::RemS => true,
        _ => false,
    }
}

// Whether an operator divides unsigned numbers.
fn divides_unsigned(operator: BinOp) -> bool
    ensures { result ≡ spec.divides_unsigned operator }
{
    match operator {
        BinOp::DivU | BinOp::RemU => true,
        _ => false,
    }
}

// Whether both operators divide signed numbers, or both divide unsigned ones.
fn divide_alike(operator: BinOp, other: BinOp) -> bool
    ensures { result ≡ divide_alike operator other }
{
    divides_signed(operator) && divides_signed(other)
        || divides_unsigned(operator) && divides_unsigned(other)
}

// Whether one division faults where the other does.
fn fault_alike(e: &Expr, other: &Expr) -> bool
    ensures { result ≡ walk.fault_alike (expr_of e.now) (expr_of other.now) }
{
    match (e, other) {
        (Expr::Bin(f, v, a, b), Expr::Bin(g, w, c, d)) => {
            divide_alike(*f, *g) && *v == *w && same_expr(a, c) && same_expr(b, d)
        }
        _ => false,
    }
}

// Whether an expression reads the memory.
fn loads(e: &Expr) -> bool
    ensures { result ≡ available.loads (expr_of e.now) }
{
    match e {
        Expr::Const(..) | Expr::Get(_) | Expr::Address(_) => false,
        Expr::Load(..) => true,
        Expr::Un(_, _, a) | Expr::Widen(_, _, a) | Expr::Part(_, _, a) => loads(a),
        Expr::Bin(_, _, a, b) | Expr::Join(a, b) => loads(a) || loads(b),
        Expr::Choose(test, a, b) => loads(test) || loads(a) || loads(b),
    }
}

// Whether a location is in the list.
fn is_among(locations: &[Loc], location: Loc) -> bool
    ensures { result ≡ live.is_among locations.now location }
{
    locations
        .iter()
        .any(|other| same_location(location, *other))
}

// Whether a statement writes nothing that the expression reads, where these are the locations that it reads.
fn leaves(stmt: &Stmt, e: &Expr, reads: &[Loc]) -> bool
    requires { reads.now ≡ reads_of (expr_of e.now) }
    ensures { result ≡ true → Leaves (stmt_of stmt.now) (expr_of e.now) }
{
    match stmt {
        Stmt::Set { place, .. } | Stmt::Load { place, .. } | Stmt::Div { place, .. } => {
            !is_among(reads, *place)
        }
        Stmt::Store { .. } => !loads(e),
        Stmt::Dos { place, .. } => match place {
            Some(place) => !is_among(reads, *place),
            None => true,
        },
        Stmt::Call { .. } => false,
    }
}

// Whether a statement is a division that faults where this one does, and doesn't write what it reads.
fn divides(stmt: &Stmt, e: &Expr, reads: &[Loc]) -> bool
    requires { reads.now ≡ reads_of (expr_of e.now) }
    ensures { result ≡ true → (passed : List StmtOf) → IsDivided (expr_of e.now) (stmt_of stmt.now ∷ passed) }
{
    match stmt {
        Stmt::Div { place, division } => fault_alike(e, division) && !is_among(reads, *place),
        _ => false,
    }
}

/// Whether a division that faults where this one does stands before it, among the last of the statements that are
/// passed, so many of them, and what it reads wasn't written since. These are the locations that it reads.
pub fn is_divided(passed: &[Stmt], reach: usize, e: &Expr, reads: &[Loc]) -> bool
    requires { reads.now ≡ reads_of (expr_of e.now) }
    ensures { result ≡ true → IsDivided (expr_of e.now) (backward passed.now) }
{
    if reach == 0 {
        return false;
    }
    let Some((last, earlier)) = passed.split_last() else {
        return false;
    };
    divides(last, e, reads) || leaves(last, e, reads) && is_divided(earlier, reach - 1, e, reads)
}

// Whether a statement is a division that faults where this one does.
fn is_alike(stmt: &Stmt, e: &Expr) -> bool
    ensures { result ≡ true → (rest : List StmtOf) → DividesFirst (expr_of e.now) (stmt_of stmt.now ∷ rest) }
{
    match stmt {
        Stmt::Div { place: _, division } => fault_alike(e, division),
        _ => false,
    }
}

/// Whether the last one of the statements, where there is one, is a division that faults where this one does.
pub fn divides_last(stmts: &[Stmt], e: &Expr) -> bool
    ensures { result ≡ true → DividesFirst (expr_of e.now) (backward stmts.now) }
{
    let Some((last, _)) = stmts.split_last() else {
        return false;
    };
    is_alike(last, e)
}
