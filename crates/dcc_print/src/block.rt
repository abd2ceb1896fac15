//! Blocks in their written form: statements, and the statements inside them.

ghost use Rattle.std.specs.Prelude.{◌≡◌, ◌+◌, ◌++◌, ◌∷◌, OnOk, IfOk, min, codes, string_bytes};
ghost use Rattle.dcc_c.specs.Tree.{DoWhile};
ghost use Rattle.dcc_c.specs.Parts.{stmts_in, inner_stmts, arm_stmts};
ghost use Rattle.dcc_c.specs.Written.{indentation, depth_after, written_stmt, written_else, written_lines};
ghost use Rattle.dcc_c.specs.Written.{written_arms, written_default};
ghost use Rattle.dcc_c.specs.Views.{expr_of, stmt_of, lines_of, arms_of, arms_if};

use crate::expression::push_expr;
use crate::statement::{
    is_label, push_assign, push_call, push_cases, push_depth, push_goto, push_label, push_line,
    push_return, push_test,
};
use dcc_c::{Arm, CExpr, CStmt, Line};
use std::alloc::AllocError;

// The pairs of braces around what is inside a statement, as far as the indentation counts them.
fn inside(braces: usize) -> usize
    ensures { min result 16 ≡ min (1 + braces) 16 }
{
    braces.min(16) + 1
}

/// Appends a statement inside `braces` pairs of braces, where calls have the given depth. The answer is the depth in
/// force after the statement.
#[cycle(block)]
pub(crate) fn push_stmt(
    text: &mut String,
    braces: usize,
    depth: u32,
    stmt: &CStmt,
) -> Result<u32, AllocError>
    ensures text { OnOk result
        (string_bytes text.new ≡ string_bytes text.old ++ written_stmt braces depth (stmt_of stmt.now)) }
    ensures depth { IfOk result
        (λ in_force. in_force ≡ depth_after depth (stmt_of stmt.now ∷ inner_stmts (stmt_of stmt.now))) }
{
    match stmt {
        CStmt::Assign(place, e) => push_assign(text, braces, place, e)?,
        CStmt::Call(place, function, arguments, own) => {
            push_call(text, braces, place, function.as_str(), arguments)?;
            return Ok(*own);
        }
        CStmt::If(e, body, otherwise) => {
            push_test(text, braces, "if", e)?;
            let middle = push_lines(text, inside(braces), depth, body)?;
            return push_else(text, braces, middle, otherwise);
        }
        CStmt::While(e, body) => {
            push_test(text, braces, "while", e)?;
            return push_block(text, braces, depth, body, "}\n");
        }
        CStmt::DoWhile(body, e) => return push_do_while(text, braces, depth, body, e),
        CStmt::Forever(body) => {
            push_line(text, braces, "for (;;) {\n")?;
            return push_block(text, braces, depth, body, "}\n");
        }
        CStmt::Switch(e, arms, last) => {
            push_test(text, braces, "switch", e)?;
            let middle = push_arms(text, inside(braces), depth, arms)?;
            return push_default(text, braces, middle, last);
        }
        CStmt::Break => push_line(text, braces, "break;\n")?,
        CStmt::Continue => push_line(text, braces, "continue;\n")?,
        CStmt::Goto(name) => push_goto(text, braces, name.as_str())?,
        CStmt::Label(name) => push_label(text, name.as_str())?,
        CStmt::Empty => push_line(text, braces, ";\n")?,
        CStmt::Return(e) => push_return(text, braces, e)?,
    }
    Ok(depth)
}

// Appends the statements inside a statement, and then as much of the line that follows as is given. The answer is the
// depth in force after the statements.
#[cycle(block)]
fn push_block(
    text: &mut String,
    braces: usize,
    depth: u32,
    body: &[Line],
    end: &str,
) -> Result<u32, AllocError>
    ensures text { OnOk result (string_bytes text.new ≡ string_bytes text.old
        ++ (written_lines (1 + braces) depth (lines_of body.now) ++ (indentation braces ++ end.now))) }
    ensures depth { IfOk result (λ in_force. in_force ≡ depth_after depth (stmts_in (lines_of body.now))) }
{
    let in_force = push_lines(text, inside(braces), depth, body)?;
    push_line(text, braces, end)?;
    Ok(in_force)
}

// Appends the else part of an `if`, where it is not empty, and the line that ends the `if`. The answer is the depth in
// force after the `if`.
#[cycle(block)]
fn push_else(
    text: &mut String,
    braces: usize,
    depth: u32,
    otherwise: &[Line],
) -> Result<u32, AllocError>
    ensures text { OnOk result (string_bytes text.new ≡ string_bytes text.old
        ++ (written_else braces (lines_of otherwise.now) (written_lines (1 + braces) depth (lines_of otherwise.now))
        ++ (indentation braces ++ codes "}\n"))) }
    ensures depth { IfOk result (λ in_force. in_force ≡ depth_after depth (stmts_in (lines_of otherwise.now))) }
{
    if otherwise.is_empty() {
        push_line(text, braces, "}\n")?;
        return Ok(depth);
    }
    push_line(text, braces, "} else {\n")?;
    push_block(text, braces, depth, otherwise, "}\n")
}

// Appends a `do` loop. The answer is the depth in force after the loop.
#[cycle(block)]
fn push_do_while(
    text: &mut String,
    braces: usize,
    depth: u32,
    body: &[Line],
    e: &CExpr,
) -> Result<u32, AllocError>
    ensures text { OnOk result (string_bytes text.new ≡ string_bytes text.old
        ++ written_stmt braces depth (DoWhile (lines_of body.now) (expr_of e.now))) }
    ensures depth { IfOk result (λ in_force. in_force ≡ depth_after depth (stmts_in (lines_of body.now))) }
{
    push_line(text, braces, "do {\n")?;
    let in_force = push_block(text, braces, depth, body, "} while (")?;
    push_expr(text, e)?;
    text.push_str(");\n")?;
    Ok(in_force)
}

/// Appends the arms of a `switch`, each with the `break` that ends it. The answer is the depth in force after the
/// arms.
#[cycle(block)]
pub(crate) fn push_arms(
    text: &mut String,
    braces: usize,
    depth: u32,
    arms: &[Arm],
) -> Result<u32, AllocError>
    ensures text { OnOk result
        (string_bytes text.new ≡ string_bytes text.old ++ written_arms braces depth (arms_of arms.now)) }
    ensures depth { IfOk result (λ in_force. in_force ≡ depth_after depth (arm_stmts (arms_of arms.now))) }
{
    let mut in_force = depth;
    for arm in arms {
        push_cases(text, braces, &arm.cases)?;
        in_force = push_lines(text, braces, in_force, &arm.body)?;
        push_line(text, braces, "break;\n")?;
    }
    Ok(in_force)
}

// Appends the default arm of a `switch`, where there is one, and the line that ends the `switch`. The answer is the
// depth in force after the `switch`.
#[cycle(block)]
fn push_default(
    text: &mut String,
    braces: usize,
    depth: u32,
    last: &Option<Arm>,
) -> Result<u32, AllocError>
    ensures text { OnOk result (string_bytes text.new ≡ string_bytes text.old
        ++ (written_default (1 + braces) depth (arms_if last.now) ++ (indentation braces ++ codes "}\n"))) }
    ensures depth { IfOk result (λ in_force. in_force ≡ depth_after depth (arm_stmts (arms_if last.now))) }
{
    match last {
        None => {
            push_line(text, braces, "}\n")?;
            Ok(depth)
        }
        Some(arm) => {
            let inner = inside(braces);
            push_line(text, inner, "default:\n")?;
            let in_force = push_lines(text, inner, depth, &arm.body)?;
            push_line(text, inner, "break;\n")?;
            push_line(text, braces, "}\n")?;
            Ok(in_force)
        }
    }
}

/// Appends statements, with the given depth in force before them. The answer is the depth in force after them.
#[cycle(block)]
pub(crate) fn push_lines(
    text: &mut String,
    braces: usize,
    depth: u32,
    lines: &[Line],
) -> Result<u32, AllocError>
    ensures text { OnOk result
        (string_bytes text.new ≡ string_bytes text.old ++ written_lines braces depth (lines_of lines.now)) }
    ensures depth { IfOk result (λ in_force. in_force ≡ depth_after depth (stmts_in (lines_of lines.now))) }
{
    let mut in_force = depth;
    let mut is_after_label = false;
    for (i, line) in lines.iter().enumerate() {
        let own = push_depth(text, in_force, is_after_label, &lines[i..])?;
        in_force = push_stmt(text, braces, own, &line.stmt)?;
        is_after_label = is_label(&line.stmt);
    }
    Ok(in_force)
}
