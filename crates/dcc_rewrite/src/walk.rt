//! Statements with their expressions written otherwise.

ghost use Rattle.std.specs.Prelude.{◌≡◌, IfOk, Some, None, option_map, map};
ghost use Rattle.dcc_c.specs.Tree.{Arms, Function};
ghost use Rattle.dcc_c.specs.Views.{expr_of, stmt_of, lines_of, arms_of, arms_if, arm_before, function_of};
ghost use Rattle.dcc_respell.specs.Writing.{Writing, stmt_by, lines_by, arms_by, function_by};

use crate::copies::copied_variables;
use crate::writer::Writer;
use dcc_c::{Arm, CExpr, CStmt, Func, Line};
use std::alloc::{AllocError, Global};

// An assignment, written otherwise.
fn assignment<W: Writer>(
    alloc: Global,
    writer: &W,
    place: &CExpr,
    e: &CExpr,
) -> Result<CStmt, AllocError>
    ensures { (w : Writing) → W.writes_by writer.now w → IfOk result
        (λ after. stmt_of after ≡ stmt_by w (stmt_of (CStmt.Assign place.now e.now))) }
{
    let value = writer.value(alloc, place, e)?;
    Ok(CStmt::Assign(writer.place(alloc, place)?, value))
}

// The place of a call's result, where it has one.
fn place_if<W: Writer>(
    alloc: Global,
    writer: &W,
    place: &Option<CExpr>,
) -> Result<Option<CExpr>, AllocError>
    ensures { (w : Writing) → W.writes_by writer.now w → IfOk result
        (λ after. option_map expr_of after ≡ option_map w.place (option_map expr_of place.now)) }
{
    match place {
        Some(place) => Ok(Some(writer.place(alloc, place)?)),
        None => Ok(None),
    }
}

// What is returned, where something is.
fn returned_if<W: Writer>(
    alloc: Global,
    writer: &W,
    e: &Option<CExpr>,
) -> Result<Option<CExpr>, AllocError>
    ensures { (w : Writing) → W.writes_by writer.now w → IfOk result
        (λ after. option_map expr_of after ≡ option_map w.returned (option_map expr_of e.now)) }
{
    match e {
        Some(e) => Ok(Some(writer.returned(alloc, e)?)),
        None => Ok(None),
    }
}

// A call, written otherwise.
fn call<W: Writer>(
    alloc: Global,
    writer: &W,
    place: &Option<CExpr>,
    function: &String,
    es: &Vec<CExpr>,
    depth: u32,
) -> Result<CStmt, AllocError>
    ensures { (w : Writing) → W.writes_by writer.now w → IfOk result
        (λ after. stmt_of after ≡ stmt_by w (stmt_of (CStmt.Call place.now function.now es.now depth))) }
{
    let place = place_if(alloc, writer, place)?;
    let es = writer.arguments(alloc, function.as_str(), es.as_slice())?;
    Ok(CStmt::Call(place, function.clone()?, es, depth))
}

// A statement, written otherwise.
#[cycle(write)]
fn statement<W: Writer>(alloc: Global, writer: &W, stmt: &CStmt) -> Result<CStmt, AllocError>
    ensures { (w : Writing) → W.writes_by writer.now w → IfOk result
        (λ after. stmt_of after ≡ stmt_by w (stmt_of stmt.now)) }
{
    match stmt {
        CStmt::Assign(place, e) => assignment(alloc, writer, place, e),
        CStmt::Call(place, function, es, depth) => {
            call(alloc, writer, place, function, es, *depth)
        }
        CStmt::If(test, body, otherwise) => {
            let test = writer.test(alloc, test)?;
            let body = lines(alloc, writer, body)?;
            Ok(CStmt::If(test, body, lines(alloc, writer, otherwise)?))
        }
        CStmt::While(test, body) => {
            let test = writer.test(alloc, test)?;
            Ok(CStmt::While(test, lines(alloc, writer, body)?))
        }
        CStmt::DoWhile(body, test) => {
            let body = lines(alloc, writer, body)?;
            Ok(CStmt::DoWhile(body, writer.test(alloc, test)?))
        }
        CStmt::Forever(body) => Ok(CStmt::Forever(lines(alloc, writer, body)?)),
        CStmt::Switch(value, arms, last) => {
            let value = writer.choice(alloc, value)?;
            let arms = all_arms(alloc, writer, arms)?;
            Ok(CStmt::Switch(value, arms, default_arm(alloc, writer, last)?))
        }
        CStmt::Break => Ok(CStmt::Break),
        CStmt::Continue => Ok(CStmt::Continue),
        CStmt::Goto(word) => Ok(CStmt::Goto(word.clone()?)),
        CStmt::Label(word) => Ok(CStmt::Label(word.clone()?)),
        CStmt::Empty => Ok(CStmt::Empty),
        CStmt::Return(e) => Ok(CStmt::Return(returned_if(alloc, writer, e)?)),
    }
}

// The default arm of a `switch`, written otherwise, where there is one.
#[cycle(write)]
fn default_arm<W: Writer>(
    alloc: Global,
    writer: &W,
    last: &Option<Arm>,
) -> Result<Option<Arm>, AllocError>
    ensures { (w : Writing) → W.writes_by writer.now w → IfOk result
        (λ after. arms_if after ≡ arms_by w (arms_if last.now)) }
{
    match last {
        Some(arm) => Ok(Some(one_arm(alloc, writer, arm)?)),
        None => Ok(None),
    }
}

// An arm, written otherwise.
#[cycle(write)]
fn one_arm<W: Writer>(alloc: Global, writer: &W, arm: &Arm) -> Result<Arm, AllocError>
    ensures { (w : Writing) (rest : Arms) → W.writes_by writer.now w → IfOk result
        (λ after. arm_before after (arms_by w rest) ≡ arms_by w (arm_before arm.now rest)) }
{
    Ok(Arm {
        cases: arm.cases.clone()?,
        body: lines(alloc, writer, arm.body.as_slice())?,
    })
}

// Arms, written otherwise.
#[cycle(write)]
fn all_arms<W: Writer>(alloc: Global, writer: &W, arms: &[Arm]) -> Result<Vec<Arm>, AllocError>
    ensures { (w : Writing) → W.writes_by writer.now w → IfOk result
        (λ after. arms_of after.items ≡ arms_by w (arms_of arms.now)) }
{
    let mut after = Vec::with_capacity(alloc, arms.len())?;
    for arm in arms {
        after.push(one_arm(alloc, writer, arm)?)?;
    }
    Ok(after)
}

// Lines, written otherwise.
#[cycle(write)]
fn lines<W: Writer>(alloc: Global, writer: &W, lines: &[Line]) -> Result<Vec<Line>, AllocError>
    ensures { (w : Writing) → W.writes_by writer.now w → IfOk result
        (λ after. lines_of after.items ≡ lines_by w (lines_of lines.now)) }
{
    let mut after = Vec::with_capacity(alloc, lines.len())?;
    for line in lines {
        after.push(Line {
            stmt: statement(alloc, writer, &line.stmt)?,
            line: line.line,
        })?;
    }
    Ok(after)
}

/// The function with its expressions written otherwise. Want of memory is the only error.
pub fn function_after<W: Writer>(alloc: Global, writer: &W, f: &Func) -> Result<Func, AllocError>
    ensures { (w : Writing) → W.writes_by writer.now w → IfOk result
        (λ after. function_of after ≡ function_by (λ (g : Function). w) (function_of f.now)) }
{
    let body = lines(alloc, writer, &f.body)?;
    Ok(Func {
        name: f.name.clone()?,
        result: f.result,
        params: copied_variables(alloc, &f.params)?,
        locals: copied_variables(alloc, &f.locals)?,
        body,
        last: f.last,
    })
}
