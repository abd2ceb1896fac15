//! What a statement is, alone.

ghost use Rattle.std.specs.Prelude.{◌≡◌, option_map};
ghost use Rattle.dcc_c.specs.Views.{stmt_of};
ghost use Rattle.dcc_shape.specs.Shape.{is_label, is_jump, is_empty};
ghost use Rattle.dcc_shape.specs.Spots.{is_loop, has_blocks, label_in, goal_in};
ghost use Rattle.dcc_shape.specs.Seen.{lent};

use dcc_c::CStmt;

/// Whether a statement is a loop.
pub(crate) fn is_loop(stmt: &CStmt) -> bool
    ensures { result ≡ is_loop (stmt_of stmt.now) }
{
    matches!(
        stmt,
        CStmt::While(..) | CStmt::DoWhile(..) | CStmt::Forever(_)
    )
}

/// Whether a statement is an `if`, a `switch` or a loop.
pub(crate) fn has_blocks(stmt: &CStmt) -> bool
    ensures { result ≡ has_blocks (stmt_of stmt.now) }
{
    match stmt {
        CStmt::If(..) | CStmt::Switch(..) => true,
        _ => is_loop(stmt),
    }
}

/// Whether a statement is a label.
pub(crate) fn is_label(stmt: &CStmt) -> bool
    ensures { result ≡ is_label (stmt_of stmt.now) }
{
    matches!(stmt, CStmt::Label(_))
}

/// Whether a statement is a `goto`, a `break` or a `continue`.
pub(crate) fn is_jump(stmt: &CStmt) -> bool
    ensures { result ≡ is_jump (stmt_of stmt.now) }
{
    matches!(stmt, CStmt::Goto(_) | CStmt::Break | CStmt::Continue)
}

/// Whether a statement is empty.
pub(crate) fn is_empty(stmt: &CStmt) -> bool
    ensures { result ≡ is_empty (stmt_of stmt.now) }
{
    matches!(stmt, CStmt::Empty)
}

/// The label that a statement is.
pub(crate) fn label_in<'a>(stmt: &'a CStmt) -> Option<&'a str>
    ensures { lent result ≡ label_in (stmt_of stmt.now) }
{
    match stmt {
        CStmt::Label(word) => Some(word.as_str()),
        _ => None,
    }
}

/// The label that a `goto` goes to.
pub(crate) fn goal_in<'a>(stmt: &'a CStmt) -> Option<&'a str>
    ensures { lent result ≡ goal_in (stmt_of stmt.now) }
{
    match stmt {
        CStmt::Goto(word) => Some(word.as_str()),
        _ => None,
    }
}
