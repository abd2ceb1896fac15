//! What offends in the statements of a function, at every depth.

ghost use Rattle.std.specs.Prelude.{◌≡◌, ℕ, ◌-◌, [], false, OnOk};
ghost use Rattle.dcc_c.specs.Offences as offences;
ghost use Rattle.dcc_c.specs.Offences.{case_offences, case_numbers, default_offences, lines_offences, inner_offences};
ghost use Rattle.dcc_c.specs.Offences.{arms_inner};
ghost use Rattle.dcc_reader.specs.PartialViews.{stmt_of, lines_of, arms_of};
ghost use Rattle.dcc_reader.specs.Told.{Tells};
ghost use Rattle.dcc_check.specs.Contexts.{IsContext};

use crate::check_statement::check_own;
use crate::context::BodyContext;
use dcc_reader::{First, ParseKind, PartialArm, PartialStmt, Row};
use std::alloc::{AllocError, Global};
use std::collections::BTreeSet;

// How many blocks may stand one inside the other, with the body of the function.
const MOST_BLOCKS: usize = 201;

// Tells which numbers of cases stand twice.
fn check_cases(alloc: Global, arms: &[PartialArm], first: &mut First) -> Result<(), AllocError>
    ensures { OnOk result (Tells first.old first.new (case_offences [] (case_numbers (arms_of arms.now)))) }
{
    let mut known = BTreeSet::new(alloc);
    for arm in arms {
        for number in &arm.numbers {
            let is_new = known.insert(number.value)?;
            first.tell_if(!is_new, ParseKind::Name, number.at);
        }
    }
    Ok(())
}

// Tells a second `default`.
fn check_defaults(arms: &[PartialArm], first: &mut First)
    ensures { Tells first.old first.new (default_offences false (arms_of arms.now)) }
{
    let mut is_known = false;
    for arm in arms {
        if let Some(at) = arm.default {
            first.tell_if(is_known, ParseKind::Name, at);
            is_known = true;
        }
    }
}

/// Tells what offends in the statements of a function, but for labels that stand twice.
///
/// # Errors
/// Where memory runs out.
pub(crate) fn check_body(
    alloc: Global,
    scene: &BodyContext<'_, '_>,
    body: &[Row],
    first: &mut First,
) -> Result<(), AllocError>
    ensures { (s : offences.BodyContext) → IsContext scene.now s →
        OnOk result (Tells first.old first.new (lines_offences s 0 (lines_of body.now))) }
{
    check_lines(alloc, scene, MOST_BLOCKS, body, first)
}

// Tells what offends in statements, where so many blocks more may stand, that of these statements among them.
#[cycle(block)]
fn check_lines(
    alloc: Global,
    scene: &BodyContext<'_, '_>,
    room: usize,
    rows: &[Row],
    first: &mut First,
) -> Result<(), AllocError>
    ensures { (s : offences.BodyContext) (blocks : ℕ) → IsContext scene.now s → room ≡ 201 - blocks →
        OnOk result (Tells first.old first.new (lines_offences s blocks (lines_of rows.now))) }
{
    for row in rows {
        first.tell_if(room == 0, ParseKind::Depth, row.at);
        check_own(scene, row.at, &row.stmt, first);
        check_inner(alloc, scene, room.saturating_sub(1), &row.stmt, first)?;
    }
    Ok(())
}

// Tells what offends in the statements inside a statement, where so many blocks more may stand.
#[cycle(block)]
fn check_inner(
    alloc: Global,
    scene: &BodyContext<'_, '_>,
    room: usize,
    stmt: &PartialStmt,
    first: &mut First,
) -> Result<(), AllocError>
    ensures { (s : offences.BodyContext) (blocks : ℕ) → IsContext scene.now s → room ≡ 201 - blocks →
        OnOk result (Tells first.old first.new (inner_offences s blocks (stmt_of stmt.now))) }
{
    match stmt {
        PartialStmt::If(_, _, body, otherwise) => {
            check_lines(alloc, scene, room, body, first)?;
            check_lines(alloc, scene, room, otherwise, first)
        }
        PartialStmt::While(_, _, body) => check_lines(alloc, scene, room, body, first),
        PartialStmt::DoWhile(body, _, _) => check_lines(alloc, scene, room, body, first),
        PartialStmt::Forever(body) => check_lines(alloc, scene, room, body, first),
        PartialStmt::Switch(_, _, arms) => {
            check_cases(alloc, arms, first)?;
            check_defaults(arms, first);
            check_arms(alloc, scene, room, arms, first)
        }
        PartialStmt::Assign(_, _, _)
        | PartialStmt::Call(_, _)
        | PartialStmt::Break
        | PartialStmt::Continue
        | PartialStmt::Goto(_)
        | PartialStmt::Label(_)
        | PartialStmt::Empty
        | PartialStmt::Return(_, _) => Ok(()),
    }
}

// Tells what offends in the statements of arms, where so many blocks more may stand.
#[cycle(block)]
fn check_arms(
    alloc: Global,
    scene: &BodyContext<'_, '_>,
    room: usize,
    arms: &[PartialArm],
    first: &mut First,
) -> Result<(), AllocError>
    ensures { (s : offences.BodyContext) (blocks : ℕ) → IsContext scene.now s → room ≡ 201 - blocks →
        OnOk result (Tells first.old first.new (arms_inner s blocks (arms_of arms.now))) }
{
    for arm in arms {
        check_lines(alloc, scene, room, &arm.body, first)?;
    }
    Ok(())
}
