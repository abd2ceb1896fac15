//! From what has been read of expressions and statements to their trees, without places.

ghost use Rattle.std.specs.Prelude.{◌≡◌, ℕ, [], false, IfOk, map, string_bytes};
ghost use Rattle.std.specs.Option.{option_map};
ghost use Rattle.dcc_c.specs.Views as tree;
ghost use Rattle.dcc_c.specs.Stripped as stripped;
ghost use Rattle.dcc_c.specs.Offences.{BodyContext, default_offences, lines_offences, inner_offences, arms_inner};
ghost use Rattle.dcc_reader.specs.PartialViews as partial;

use dcc_c::{Arm, Base, CExpr, CStmt, Line};
use dcc_reader::spare::without_spare;
use dcc_reader::{CaseAt, PartialArm, PartialExpr, PartialStmt, Row, WordAt};
use std::alloc::{AllocError, Global};

// A list of more rows than this gives back its room in steps of as many.
const SHRINK_STEP: usize = 1024;

// An expression.
fn strip_expr(alloc: Global, e: PartialExpr) -> Result<CExpr, AllocError>
    ensures { IfOk result (λ r. tree.expr_of r ≡ stripped.plain_expr (partial.expr_of e.entry)) }
{
    match e {
        PartialExpr::Missing => Ok(CExpr::Num(0, Base::Int)),
        PartialExpr::Number(_, n, base) => Ok(CExpr::Num(n, base)),
        PartialExpr::Name(_, _, word) => Ok(CExpr::Name(String::from_str(alloc, word)?)),
        PartialExpr::Unary(_, operator, a) => {
            let a = Box::new(alloc, strip_expr(alloc, Box::into_inner(a))?)?;
            Ok(CExpr::Un(operator, a))
        }
        PartialExpr::Binary(operator, a, b) => {
            let a = Box::new(alloc, strip_expr(alloc, Box::into_inner(a))?)?;
            let b = Box::new(alloc, strip_expr(alloc, Box::into_inner(b))?)?;
            Ok(CExpr::Bin(operator, a, b))
        }
        PartialExpr::Conditional(choice) => {
            let choice = Box::into_inner(choice);
            let a = Box::new(alloc, strip_expr(alloc, choice.test)?)?;
            let b = Box::new(alloc, strip_expr(alloc, choice.first)?)?;
            let c = Box::new(alloc, strip_expr(alloc, choice.second)?)?;
            Ok(CExpr::Cond(a, b, c))
        }
        PartialExpr::Cast(_, ty, a) => {
            let a = Box::new(alloc, strip_expr(alloc, Box::into_inner(a))?)?;
            Ok(CExpr::Cast(ty, a))
        }
    }
}

// An expression, where there is one.
fn strip_if(alloc: Global, e: Option<PartialExpr>) -> Result<Option<CExpr>, AllocError>
    ensures { IfOk result
        (λ r. option_map tree.expr_of r ≡ option_map stripped.plain_expr (option_map partial.expr_of e.entry)) }
{
    match e {
        Some(e) => Ok(Some(strip_expr(alloc, e)?)),
        None => Ok(None),
    }
}

// The value of an assignment.
fn strip_value(alloc: Global, e: Option<PartialExpr>) -> Result<CExpr, AllocError>
    ensures { IfOk result (λ r. tree.expr_of r ≡ stripped.plain_value (option_map partial.expr_of e.entry)) }
{
    match e {
        Some(e) => strip_expr(alloc, e),
        None => Ok(CExpr::Num(0, Base::Int)),
    }
}

// The arguments of a call.
fn strip_arguments(alloc: Global, arguments: Vec<PartialExpr>) -> Result<Vec<CExpr>, AllocError>
    ensures { IfOk result
        (λ r. map tree.expr_of r.items ≡ map stripped.plain_expr (map partial.expr_of arguments.entry.items)) }
{
    let mut found = Vec::with_capacity(alloc, arguments.len())?;
    for e in arguments {
        found.push(strip_expr(alloc, e)?)?;
    }
    Ok(found)
}

/// A name.
pub(crate) fn strip_name(alloc: Global, name: Option<WordAt>) -> Result<String, AllocError>
    ensures { IfOk result (λ r. string_bytes r ≡ stripped.plain_name (option_map partial.word_of name.entry)) }
{
    match name {
        Some(name) => String::from_str(alloc, name.word),
        None => Ok(String::new(alloc)),
    }
}

// The numbers of cases.
fn strip_numbers(alloc: Global, numbers: &[CaseAt]) -> Result<Vec<u16>, AllocError>
    ensures { IfOk result (λ r. r.items ≡ stripped.plain_numbers (map partial.case_of numbers.now)) }
{
    let mut found = Vec::with_capacity(alloc, numbers.len())?;
    for n in numbers {
        found.push(n.value)?;
    }
    Ok(found)
}

// The arms of a `switch`, with cases or with `default`.
#[derive(Drop)]
struct Arms {
    /// The arms with cases.
    with_cases: Vec<Arm>,
    /// The arm with `default`, of which there is at most one.
    default: Option<Arm>,
}

// A statement.
#[cycle(strip)]
fn strip_stmt(alloc: Global, stmt: PartialStmt) -> Result<CStmt, AllocError>
    ensures { (scene : BodyContext) (blocks : ℕ) → inner_offences scene blocks (partial.stmt_of stmt.entry) ≡ [] →
        IfOk result (λ r. tree.stmt_of r ≡ stripped.plain_stmt (partial.stmt_of stmt.entry)) }
{
    match stmt {
        PartialStmt::Assign(place, e, _) => {
            let place = strip_expr(alloc, place)?;
            Ok(CStmt::Assign(place, strip_value(alloc, e)?))
        }
        PartialStmt::Call(place, call) => {
            let place = strip_if(alloc, place)?;
            let arguments = strip_arguments(alloc, call.arguments)?;
            let name = String::from_str(alloc, call.function.word)?;
            Ok(CStmt::Call(place, name, arguments, call.depth))
        }
        PartialStmt::If(e, _, body, otherwise) => {
            let e = strip_expr(alloc, e)?;
            let body = strip_lines(alloc, body)?;
            let otherwise = strip_lines(alloc, otherwise)?;
            Ok(CStmt::If(e, body, otherwise))
        }
        PartialStmt::While(e, _, body) => {
            let e = strip_expr(alloc, e)?;
            Ok(CStmt::While(e, strip_lines(alloc, body)?))
        }
        PartialStmt::DoWhile(body, e, _) => {
            let e = strip_expr(alloc, e)?;
            Ok(CStmt::DoWhile(strip_lines(alloc, body)?, e))
        }
        PartialStmt::Forever(body) => Ok(CStmt::Forever(strip_lines(alloc, body)?)),
        PartialStmt::Switch(e, _, arms) => {
            let e = strip_expr(alloc, e)?;
            let arms = strip_arms(alloc, arms)?;
            Ok(CStmt::Switch(e, arms.with_cases, arms.default))
        }
        PartialStmt::Break => Ok(CStmt::Break),
        PartialStmt::Continue => Ok(CStmt::Continue),
        PartialStmt::Goto(name) => Ok(CStmt::Goto(strip_name(alloc, name)?)),
        PartialStmt::Label(name) => Ok(CStmt::Label(String::from_str(alloc, name.word)?)),
        PartialStmt::Empty => Ok(CStmt::Empty),
        PartialStmt::Return(e, _) => Ok(CStmt::Return(strip_if(alloc, e)?)),
    }
}

// Gives back the room of the rows that have been taken from the end, in steps.
fn shrink_in_steps(rows: &mut Vec<Row>)
    ensures { rows.new.items ≡ rows.old.items }
{
    if rows.len() % SHRINK_STEP == 0 {
        rows.shrink_to_fit();
    }
}

// A statement with its line.
#[cycle(strip)]
fn strip_row(alloc: Global, row: Row) -> Result<Line, AllocError>
    ensures stmt { (scene : BodyContext) (blocks : ℕ) → inner_offences scene blocks (partial.stmt_of row.entry.stmt)
        ≡ [] →
        IfOk result (λ r. tree.stmt_of r.stmt ≡ stripped.plain_stmt (partial.stmt_of row.entry.stmt)) }
    ensures line { IfOk result (λ r. r.line ≡ row.entry.line) }
{
    let stmt = strip_stmt(alloc, row.stmt)?;
    Ok(Line {
        stmt,
        line: row.line,
    })
}

/// Statements. A short list is stripped from its first row on, as it lies in memory; a long one from its last row on,
/// so that it and the list of its lines never stand whole side by side.
#[cycle(strip)]
pub(crate) fn strip_lines(alloc: Global, rows: Vec<Row>) -> Result<Vec<Line>, AllocError>
    ensures { (scene : BodyContext) (blocks : ℕ) → lines_offences scene blocks (partial.lines_of rows.entry.items) ≡ []
        →
        IfOk result (λ r. tree.lines_of r.items ≡ stripped.plain_lines (partial.lines_of rows.entry.items)) }
{
    let mut lines = Vec::with_capacity(alloc, rows.len())?;
    if rows.len() <= SHRINK_STEP {
        for row in rows {
            lines.push(strip_row(alloc, row)?)?;
        }
        return Ok(lines);
    }
    let mut rows = rows;
    while let Some(last) = rows.pop() {
        lines.push(strip_row(alloc, last)?)?;
        shrink_in_steps(&mut rows);
    }
    lines.reverse();
    Ok(lines)
}

// The arms of a `switch`.
#[cycle(strip)]
fn strip_arms(alloc: Global, arms: Vec<PartialArm>) -> Result<Arms, AllocError>
    ensures { (scene : BodyContext) (blocks : ℕ) → arms_inner scene blocks (partial.arms_of arms.entry.items) ≡ [] →
        default_offences false (partial.arms_of arms.entry.items) ≡ [] →
        IfOk result (λ r. (tree.arms_of r.with_cases.items ≡ stripped.case_arms (partial.arms_of arms.entry.items))
        × (tree.arms_if r.default ≡ stripped.default_arms (partial.arms_of arms.entry.items))) }
{
    let mut with_cases = Vec::with_capacity(alloc, arms.len())?;
    let mut default = None;
    for arm in arms {
        let PartialArm {
            numbers,
            default: place,
            body,
        } = arm;
        let body = strip_lines(alloc, body)?;
        if place.is_none() {
            let cases = strip_numbers(alloc, &numbers)?;
            with_cases.push(Arm { cases, body })?;
        } else {
            let cases = Vec::new(alloc);
            default = Some(Arm { cases, body });
        }
    }
    Ok(Arms {
        with_cases: without_spare(with_cases),
        default,
    })
}
