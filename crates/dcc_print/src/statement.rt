//! Statements in their written form.

ghost use Rattle.std.specs.Prelude.{◌≡◌, ℕ, true, ◌++◌, OnOk, IfOk, map, option_map, codes, string_bytes};
ghost use Rattle.dcc_c.specs.Tree.{Call};
ghost use Rattle.dcc_c.specs.Written.{indentation, next_depth, written_depth, written_expr, written_return};
ghost use Rattle.dcc_c.specs.Written.{written_test, written_cases, written_stmt};
ghost use Rattle.dcc_c.specs.Views.{expr_of, stmt_of, lines_of};
ghost use Rattle.dcc_print.specs.Blocks.{is_label};

use crate::expression::{push_arguments, push_expr};
use dcc_c::{CExpr, CStmt, Line};
use std::alloc::AllocError;

// Appends the spaces before a line inside so many pairs of braces.
fn push_indentation(text: &mut String, braces: usize) -> Result<(), AllocError>
    ensures { OnOk result (string_bytes text.new ≡ string_bytes text.old ++ indentation braces) }
{
    for _ in 0..4 * braces.min(16) {
        text.push(' ')?;
    }
    Ok(())
}

/// Appends an indented line.
pub(crate) fn push_line(text: &mut String, braces: usize, line: &str) -> Result<(), AllocError>
    ensures { OnOk result (string_bytes text.new ≡ string_bytes text.old ++ (indentation braces ++ line.now)) }
{
    push_indentation(text, braces)?;
    text.push_str(line)
}

/// The depth of the call that comes next, where one does: statements begin with it, or with its labels.
pub(crate) fn next_depth(depth: u32, lines: &[Line]) -> u32
    ensures { result ≡ next_depth depth (lines_of lines.now) }
{
    for line in lines {
        match &line.stmt {
            CStmt::Label(_) => {}
            CStmt::Call(_, _, _, own) => return *own,
            _ => return depth,
        }
    }
    depth
}

/// Appends the pragma that changes the depth in force to that of the call that comes next, where this is another one.
/// The answer is the depth now in force. Between a label and its call no pragma stands: the label has it before it.
pub(crate) fn push_depth(
    text: &mut String,
    depth: u32,
    is_after_label: bool,
    lines: &[Line],
) -> Result<u32, AllocError>
    requires { is_after_label ≡ true → next_depth depth (lines_of lines.now) ≡ depth }
    ensures text { OnOk result (string_bytes text.new
        ≡ string_bytes text.old ++ written_depth depth (next_depth depth (lines_of lines.now))) }
    ensures depth { IfOk result (λ own. own ≡ next_depth depth (lines_of lines.now)) }
{
    if is_after_label {
        return Ok(depth);
    }
    let own = next_depth(depth, lines);
    if own != depth {
        write!(text, "#pragma dcc depth {own}\n")?;
    }
    Ok(own)
}

/// Whether the statement is a label.
pub(crate) fn is_label(stmt: &CStmt) -> bool
    ensures { result ≡ is_label (stmt_of stmt.now) }
{
    matches!(stmt, CStmt::Label(_))
}

/// Appends a call, where its own depth is in force.
pub(crate) fn push_call(
    text: &mut String,
    braces: usize,
    place: &Option<CExpr>,
    function: &str,
    arguments: &[CExpr],
) -> Result<(), AllocError>
    ensures { (own : ℕ) → OnOk result (string_bytes text.new ≡ string_bytes text.old
        ++ written_stmt braces own (Call (option_map expr_of place.now) function.now (map expr_of arguments.now) own)) }
{
    push_indentation(text, braces)?;
    if let Some(place) = place {
        push_expr(text, place)?;
        text.push_str(" = ")?;
    }
    text.push_str(function)?;
    text.push_str("(")?;
    push_arguments(text, arguments)?;
    text.push_str(");\n")
}

/// Appends an assignment.
pub(crate) fn push_assign(
    text: &mut String,
    braces: usize,
    place: &CExpr,
    e: &CExpr,
) -> Result<(), AllocError>
    ensures { OnOk result (string_bytes text.new ≡ string_bytes text.old ++ (indentation braces
        ++ (written_expr (expr_of place.now) ++ (codes " = " ++ (written_expr (expr_of e.now) ++ codes ";\n"))))) }
{
    push_indentation(text, braces)?;
    push_expr(text, place)?;
    text.push_str(" = ")?;
    push_expr(text, e)?;
    text.push_str(";\n")
}

/// Appends a jump to a label.
pub(crate) fn push_goto(text: &mut String, braces: usize, name: &str) -> Result<(), AllocError>
    ensures { OnOk result (string_bytes text.new
        ≡ string_bytes text.old ++ (indentation braces ++ (codes "goto " ++ (name.now ++ codes ";\n")))) }
{
    push_line(text, braces, "goto ")?;
    text.push_str(name)?;
    text.push_str(";\n")
}

/// Appends a label.
pub(crate) fn push_label(text: &mut String, name: &str) -> Result<(), AllocError>
    ensures { OnOk result (string_bytes text.new ≡ string_bytes text.old ++ (name.now ++ codes ":\n")) }
{
    text.push_str(name)?;
    text.push_str(":\n")
}

/// Appends a return.
pub(crate) fn push_return(
    text: &mut String,
    braces: usize,
    e: &Option<CExpr>,
) -> Result<(), AllocError>
    ensures { OnOk result (string_bytes text.new
        ≡ string_bytes text.old ++ (indentation braces ++ written_return (option_map expr_of e.now))) }
{
    push_line(text, braces, "return")?;
    if let Some(e) = e {
        text.push_str(" ")?;
        push_expr(text, e)?;
    }
    text.push_str(";\n")
}

/// Appends the head of a statement with a block.
pub(crate) fn push_test(
    text: &mut String,
    braces: usize,
    name: &str,
    e: &CExpr,
) -> Result<(), AllocError>
    ensures { OnOk result (string_bytes text.new
        ≡ string_bytes text.old ++ (indentation braces ++ written_test name.now (expr_of e.now))) }
{
    push_line(text, braces, name)?;
    text.push_str(" (")?;
    push_expr(text, e)?;
    text.push_str(") {\n")
}

/// Appends the cases of an arm.
pub(crate) fn push_cases(text: &mut String, braces: usize, cases: &[u16]) -> Result<(), AllocError>
    ensures { OnOk result (string_bytes text.new ≡ string_bytes text.old ++ written_cases braces cases.now) }
{
    for n in cases {
        push_indentation(text, braces)?;
        write!(text, "case {n}:\n")?;
    }
    Ok(())
}
