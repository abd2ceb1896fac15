//! Bodies without needless casts.

ghost use Rattle.std.specs.Prelude.{◌≡◌, IfOk, Some, None};
ghost use Rattle.dcc_c.specs.Tree.{Arms, Function, Tree};
ghost use Rattle.dcc_c.specs.Views.{stmt_of, lines_of, arms_of, arms_if, arm_before};
ghost use Rattle.dcc_respell.specs.Writing.{stmt_by, lines_by, arms_by};
ghost use Rattle.dcc_casts.specs.Casts as spec;
ghost use Rattle.dcc_casts.specs.Views.{IsSceneOf};

use crate::expression::kept;
use crate::statement::{Scene, arguments, assigned, chosen, place_if, returned_if};
use dcc_c::{Arm, CExpr, CStmt, Line};
use std::alloc::{AllocError, Global};

// An assignment without needless casts.
fn assignment(alloc: Global, scene: &Scene, place: &CExpr, e: &CExpr) -> Result<CStmt, AllocError>
    ensures { (tree : Tree) (f : Function) → IsSceneOf scene.now tree f → IfOk result (λ after. stmt_of after
        ≡ stmt_by (spec.writing tree f) (stmt_of (CStmt.Assign place.now e.now))) }
{
    let value = assigned(alloc, &scene.names, place, e)?;
    Ok(CStmt::Assign(kept(alloc, &scene.names, place)?, value))
}

// A call without needless casts.
fn call(
    alloc: Global,
    scene: &Scene,
    place: &Option<CExpr>,
    function: &String,
    es: &Vec<CExpr>,
    depth: u32,
) -> Result<CStmt, AllocError>
    ensures { (tree : Tree) (f : Function) → IsSceneOf scene.now tree f → IfOk result (λ after. stmt_of after
        ≡ stmt_by (spec.writing tree f) (stmt_of (CStmt.Call place.now function.now es.now depth))) }
{
    let place = place_if(alloc, &scene.names, place)?;
    let es = arguments(alloc, scene, function.as_str(), es.as_slice())?;
    Ok(CStmt::Call(place, function.clone()?, es, depth))
}

/// A statement without needless casts. Want of memory is the only error.
#[cycle(write)]
fn statement(alloc: Global, scene: &Scene, stmt: &CStmt) -> Result<CStmt, AllocError>
    ensures { (tree : Tree) (f : Function) → IsSceneOf scene.now tree f → IfOk result
        (λ after. stmt_of after ≡ stmt_by (spec.writing tree f) (stmt_of stmt.now)) }
{
    match stmt {
        CStmt::Assign(place, e) => assignment(alloc, scene, place, e),
        CStmt::Call(place, function, es, depth) => {
            call(alloc, scene, place, function, es, *depth)
        }
        CStmt::If(test, body, otherwise) => {
            let test = kept(alloc, &scene.names, test)?;
            let body = lines(alloc, scene, body)?;
            Ok(CStmt::If(test, body, lines(alloc, scene, otherwise)?))
        }
        CStmt::While(test, body) => {
            let test = kept(alloc, &scene.names, test)?;
            Ok(CStmt::While(test, lines(alloc, scene, body)?))
        }
        CStmt::DoWhile(body, test) => {
            let body = lines(alloc, scene, body)?;
            Ok(CStmt::DoWhile(body, kept(alloc, &scene.names, test)?))
        }
        CStmt::Forever(body) => Ok(CStmt::Forever(lines(alloc, scene, body)?)),
        CStmt::Switch(value, arms, last) => {
            let value = chosen(alloc, &scene.names, value)?;
            let arms = all_arms(alloc, scene, arms)?;
            Ok(CStmt::Switch(value, arms, default_arm(alloc, scene, last)?))
        }
        CStmt::Break => Ok(CStmt::Break),
        CStmt::Continue => Ok(CStmt::Continue),
        CStmt::Goto(word) => Ok(CStmt::Goto(word.clone()?)),
        CStmt::Label(word) => Ok(CStmt::Label(word.clone()?)),
        CStmt::Empty => Ok(CStmt::Empty),
        CStmt::Return(e) => Ok(CStmt::Return(returned_if(alloc, scene, e)?)),
    }
}

// The default arm of a `switch` without needless casts, where there is one.
#[cycle(write)]
fn default_arm(alloc: Global, scene: &Scene, last: &Option<Arm>) -> Result<Option<Arm>, AllocError>
    ensures { (tree : Tree) (f : Function) → IsSceneOf scene.now tree f → IfOk result
        (λ after. arms_if after ≡ arms_by (spec.writing tree f) (arms_if last.now)) }
{
    match last {
        Some(arm) => Ok(Some(one_arm(alloc, scene, arm)?)),
        None => Ok(None),
    }
}

// An arm without needless casts.
#[cycle(write)]
fn one_arm(alloc: Global, scene: &Scene, arm: &Arm) -> Result<Arm, AllocError>
    ensures { (tree : Tree) (f : Function) (rest : Arms) → IsSceneOf scene.now tree f → IfOk result
        (λ after. arm_before after (arms_by (spec.writing tree f) rest)
        ≡ arms_by (spec.writing tree f) (arm_before arm.now rest)) }
{
    Ok(Arm {
        cases: arm.cases.clone()?,
        body: lines(alloc, scene, arm.body.as_slice())?,
    })
}

// Arms without needless casts.
#[cycle(write)]
fn all_arms(alloc: Global, scene: &Scene, arms: &[Arm]) -> Result<Vec<Arm>, AllocError>
    ensures { (tree : Tree) (f : Function) → IsSceneOf scene.now tree f → IfOk result
        (λ after. arms_of after.items ≡ arms_by (spec.writing tree f) (arms_of arms.now)) }
{
    let mut after = Vec::with_capacity(alloc, arms.len())?;
    for arm in arms {
        after.push(one_arm(alloc, scene, arm)?)?;
    }
    Ok(after)
}

/// Lines without needless casts. Want of memory is the only error.
#[cycle(write)]
pub fn lines(alloc: Global, scene: &Scene, lines: &[Line]) -> Result<Vec<Line>, AllocError>
    ensures { (tree : Tree) (f : Function) → IsSceneOf scene.now tree f → IfOk result
        (λ after. lines_of after.items ≡ lines_by (spec.writing tree f) (lines_of lines.now)) }
{
    let mut after = Vec::with_capacity(alloc, lines.len())?;
    for line in lines {
        after.push(Line {
            stmt: statement(alloc, scene, &line.stmt)?,
            line: line.line,
        })?;
    }
    Ok(after)
}
