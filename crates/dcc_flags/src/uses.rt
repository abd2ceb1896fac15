//! What statements read and write of a flag.

ghost use Rattle.std.specs.Prelude.{◌≡◌, map};
ghost use Rattle.dcc_ir.specs.declared.syntax.Loc.TheVariants.{Flag};
ghost use Rattle.dcc_ir.specs.Location.{same_location};
ghost use Rattle.dcc_ir.specs.Views.{expr_of, stmt_of, exit_of};
ghost use Rattle.dcc_ir.specs.Live.{is_among, reads};
ghost use Rattle.dcc_ir.specs.Use.{reads_of, exprs_of, exit_exprs};
ghost use Rattle.dcc_ir.specs.FlagReads.{gets};
ghost use Rattle.dcc_flags.specs.Reaching as spec;

use dcc_ir::{End, Expr, Loc, Stmt};
use dcc_num::FlagName;

// Whether a location is the flag.
pub(crate) fn is_flag(f: FlagName, location: Loc) -> bool
    ensures { result ≡ same_location (Flag f) location }
{
    match location {
        Loc::Flag(other) => f as usize == other as usize,
        Loc::Half(..) | Loc::Cell(..) | Loc::Temp(_) => false,
    }
}

// Whether the flag is one of the locations.
pub fn is_among(f: FlagName, locations: &[Loc]) -> bool
    ensures { result ≡ is_among locations.now (Flag f) }
{
    locations.iter().any(|location| is_flag(f, *location))
}

// Whether a statement is a definition of the flag.
pub(crate) fn defines(f: FlagName, stmt: &Stmt) -> bool
    ensures { result ≡ spec.defines f (stmt_of stmt.now) }
{
    match stmt {
        Stmt::Set { place, .. } | Stmt::Load { place, .. } | Stmt::Div { place, .. } => is_flag(
            f, *place,
        ),
        Stmt::Call { results, .. } => is_among(f, results.as_slice()),
        Stmt::Dos { place, .. } => match place {
            Some(place) => is_flag(f, *place),
            None => false,
        },
        Stmt::Store { .. } => false,
    }
}

// Whether the flag is a result of a statement.
pub fn has_result(f: FlagName, stmt: &Stmt) -> bool
    ensures { result ≡ spec.has_result f (stmt_of stmt.now) }
{
    match stmt {
        Stmt::Call { results, .. } => is_among(f, results.as_slice()),
        _ => false,
    }
}

// Whether an expression is a read of the flag, and nothing else.
fn gets(f: FlagName, e: &Expr) -> bool
    ensures { result ≡ gets f (expr_of e.now) }
{
    match e {
        Expr::Get(location) => is_flag(f, *location),
        _ => false,
    }
}

// Whether an expression is a choice with the flag as an arm.
fn has_arm(f: FlagName, e: &Expr) -> bool
    ensures { result ≡ spec.has_arm f (expr_of e.now) }
{
    match e {
        Expr::Choose(_, one, other) => gets(f, one) || gets(f, other),
        _ => false,
    }
}

// Whether a definition may leave the flag as it is.
pub fn chooses(f: FlagName, stmt: &Stmt) -> bool
    ensures { result ≡ spec.chooses f (stmt_of stmt.now) }
{
    match stmt {
        Stmt::Set { value, .. } => has_arm(f, value),
        _ => false,
    }
}

// Whether an expression reads the flag.
pub fn reads(f: FlagName, e: &Expr) -> bool
    ensures { result ≡ is_among (reads_of (expr_of e.now)) (Flag f) }
{
    match e {
        Expr::Const(..) | Expr::Address(_) => false,
        Expr::Get(location) => is_flag(f, *location),
        Expr::Load(_, a) | Expr::Un(_, _, a) | Expr::Widen(_, _, a) | Expr::Part(_, _, a) => reads(
            f, a,
        ),
        Expr::Bin(_, _, a, b) | Expr::Join(a, b) => reads(f, a) || reads(f, b),
        Expr::Choose(test, one, other) => reads(f, test) || reads(f, one) || reads(f, other),
    }
}

// Whether one of the expressions reads the flag.
fn some_reads(f: FlagName, es: &[Expr]) -> bool
    ensures { result ≡ reads (map expr_of es.now) (Flag f) }
{
    es.iter().any(|e| reads(f, e))
}

// Whether a statement reads the flag.
pub fn stmt_reads(f: FlagName, stmt: &Stmt) -> bool
    ensures { result ≡ reads (exprs_of (stmt_of stmt.now)) (Flag f) }
{
    match stmt {
        Stmt::Set { value: e, .. }
        | Stmt::Load { address: e, .. }
        | Stmt::Div { division: e, .. } => reads(f, e),
        Stmt::Store { address, value, .. } => reads(f, address) || reads(f, value),
        Stmt::Call { arguments, .. } => some_reads(f, arguments.as_slice()),
        Stmt::Dos { argument, .. } => match argument {
            Some(e) => reads(f, e),
            None => false,
        },
    }
}

// Whether the end of a block reads the flag.
pub fn end_reads(f: FlagName, end: &End) -> bool
    ensures { result ≡ reads (exit_exprs (exit_of end.now)) (Flag f) }
{
    match end {
        End::If { test: e, .. } | End::Switch { value: e, .. } => reads(f, e),
        End::Ret(values) => some_reads(f, values.as_slice()),
        End::Goto(_) | End::Stop => false,
    }
}
