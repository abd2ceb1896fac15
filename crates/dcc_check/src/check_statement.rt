//! What offends in a statement, without the statements inside it.

ghost use Rattle.std.specs.Prelude.{◌≡◌, option_map};
ghost use Rattle.dcc_c.specs.Offences as offences;
ghost use Rattle.dcc_c.specs.Offences.{assigned_offences, test_offences, switch_offences, return_offences};
ghost use Rattle.dcc_c.specs.Offences.{goto_offences, own_offences};
ghost use Rattle.dcc_reader.specs.PartialViews.{expr_of, word_of, stmt_of};
ghost use Rattle.dcc_reader.specs.Told.{Tells};
ghost use Rattle.dcc_check.specs.Contexts.{IsContext};

use crate::check_call::check_call;
use crate::check_expression::{check_expr, check_place, is_missing, is_name};
use crate::context::BodyContext;
use crate::operand::{check_becomes, check_selector, want_number};
use dcc_reader::{First, ParseKind, PartialExpr, PartialStmt, WordAt};

// Tells what offends in an assignment: a name alone that is not read to its end may be called.
fn check_assign(
    scene: &BodyContext<'_, '_>,
    place: &PartialExpr,
    e: &Option<PartialExpr>,
    done: bool,
    first: &mut First,
)
    ensures { (s : offences.BodyContext) → IsContext scene.now s →
        Tells first.old first.new (assigned_offences s (expr_of place.now) (option_map expr_of e.now) done) }
{
    match e {
        Some(e) => {
            let to = check_place(scene, place, first);
            if done || !is_name(e) {
                let from = check_expr(scene, e, first);
                check_becomes(from, done, to.ty, first);
            }
        }
        None => {
            if !is_name(place) {
                check_place(scene, place, first);
            }
        }
    }
}

// Tells what offends in a test, read to its parenthesis or not.
fn check_test(scene: &BodyContext<'_, '_>, e: &PartialExpr, done: bool, first: &mut First)
    ensures { (s : offences.BodyContext) → IsContext scene.now s →
        Tells first.old first.new (test_offences s (expr_of e.now) done) }
{
    let a = check_expr(scene, e, first);
    if done {
        want_number(a, first);
    }
}

// Tells what offends in the value of a `switch`: it is an int or an unsigned int after promotion.
fn check_switch(scene: &BodyContext<'_, '_>, e: &PartialExpr, done: bool, first: &mut First)
    ensures { (s : offences.BodyContext) → IsContext scene.now s →
        Tells first.old first.new (switch_offences s (expr_of e.now) done) }
{
    let a = check_expr(scene, e, first);
    check_selector(a, done, first);
}

// Tells what offends in a `return`: a value stands where the function has a result, and there alone.
fn check_return(
    scene: &BodyContext<'_, '_>,
    at: u32,
    e: &Option<PartialExpr>,
    done: bool,
    first: &mut First,
)
    ensures { (s : offences.BodyContext) → IsContext scene.now s →
        Tells first.old first.new (return_offences s at (option_map expr_of e.now) done) }
{
    match e {
        Some(e) => {
            let value = check_expr(scene, e, first);
            if scene.has_result {
                check_becomes(value, done, scene.result, first);
            } else {
                first.tell_if(!is_missing(e), ParseKind::Type_, at);
            }
        }
        None => first.tell_if(done && scene.has_result, ParseKind::Type_, at),
    }
}

// Tells whether a `goto` names no label of the function.
fn check_goto(scene: &BodyContext<'_, '_>, name: &Option<WordAt>, first: &mut First)
    ensures { (s : offences.BodyContext) → IsContext scene.now s →
        Tells first.old first.new (goto_offences s (option_map word_of name.now)) }
{
    if let Some(name) = name {
        first.tell_if(!scene.has_label(name.word), ParseKind::Name, name.at);
    }
}

/// Tells what offends in a statement that begins at a place, without the statements inside it.
pub(crate) fn check_own(scene: &BodyContext<'_, '_>, at: u32, stmt: &PartialStmt, first: &mut First)
    ensures { (s : offences.BodyContext) → IsContext scene.now s →
        Tells first.old first.new (own_offences s at (stmt_of stmt.now)) }
{
    match stmt {
        PartialStmt::Assign(place, e, done) => check_assign(scene, place, e, *done, first),
        PartialStmt::Call(place, call) => check_call(scene, at, place, call, first),
        PartialStmt::If(e, done, _, _) => check_test(scene, e, *done, first),
        PartialStmt::While(e, done, _) => check_test(scene, e, *done, first),
        PartialStmt::DoWhile(_, e, done) => check_test(scene, e, *done, first),
        PartialStmt::Switch(e, done, _) => check_switch(scene, e, *done, first),
        PartialStmt::Goto(name) => check_goto(scene, name, first),
        PartialStmt::Return(e, done) => check_return(scene, at, e, *done, first),
        PartialStmt::Forever(_)
        | PartialStmt::Break
        | PartialStmt::Continue
        | PartialStmt::Label(_)
        | PartialStmt::Empty => {}
    }
}
