//! Reading calls and assignments.

ghost use Rattle.std.specs.Prelude.{◌≡◌, ◌∷◌, [], IfOk, true, is_some, map};
ghost use Rattle.std.specs.Option.{option_map};
ghost use Rattle.dcc_c.specs.Reading as reading;
ghost use Rattle.dcc_c.specs.ReadingStatements as statements;
ghost use Rattle.dcc_read.specs.Stars.{after_star};
ghost use Rattle.dcc_reader.specs.PartialViews.{expr_of, stmt_of, word_of};
ghost use Rattle.dcc_reader.specs.ReaderViews.{reader_of};

use crate::expression::{Inside, name_here, read_enclosed, read_unary, read_value};
use crate::{Got, GotStmt};
use dcc_c::CUn;
use dcc_lex::Mark;
use dcc_reader::spare::without_spare;
use dcc_reader::{PartialCall, PartialExpr, PartialStmt, Reader, WordAt};
use std::alloc::Global;

// Reads the arguments of a call after its opening parenthesis. The closing one is left.
fn read_arguments<'a>(r: &mut Reader<'a>, alloc: Global, calls: usize) -> Got<Vec<PartialExpr<'a>>>
    ensures { IfOk result (λ arguments.
        reading.got (map expr_of arguments.items) (reader_of r.new)
        ≡ statements.read_arguments calls (reader_of r.old)) }
{
    if r.sees_mark(Mark::CloseParenthesis) {
        return Ok(Vec::new(alloc));
    }
    let mut arguments = Vec::with_capacity(alloc, 1)?;
    arguments.push(read_enclosed(r, alloc, calls)?)?;
    let mut left = calls;
    while left > 0 {
        if !r.sees_mark(Mark::Comma) {
            return Ok(arguments);
        }
        left -= 1;
        r.skip();
        arguments.push(read_enclosed(r, alloc, left)?)?;
    }
    Ok(arguments)
}

// Reads a call after its name, with a place for its result or none.
fn read_call_after<'a>(
    r: &mut Reader<'a>,
    alloc: Global,
    calls: usize,
    place: Option<PartialExpr<'a>>,
    function: WordAt<'a>,
) -> GotStmt<'a>
    requires seen { is_some (reading.next_token (reader_of r.old)) ≡ true }
    ensures { IfOk result (λ stmt. reading.got (stmt_of stmt) (reader_of r.new)
        ≡ statements.call_of calls (option_map expr_of place.entry) (word_of function.entry) (reader_of r.old)) }
{
    let depth = r.depth;
    r.skip();
    let arguments = without_spare(read_arguments(r, alloc, calls)?);
    r.take_mark(Mark::CloseParenthesis);
    let closed = !r.is_stopped();
    r.take_mark(Mark::Semicolon);
    let call = PartialCall {
        function,
        arguments,
        closed,
        depth,
    };
    Ok(PartialStmt::Call(place, call))
}

// Reads a call with a place for its result or none.
fn read_call<'a>(
    r: &mut Reader<'a>,
    alloc: Global,
    calls: usize,
    place: Option<PartialExpr<'a>>,
) -> GotStmt<'a>
    requires begins { statements.begins_call (reader_of r.old) ≡ true }
    ensures { IfOk result (λ stmt. reading.got (stmt_of stmt) (reader_of r.new)
        ≡ statements.read_call calls (option_map expr_of place.entry) (reader_of r.old)) }
{
    match r.take_name() {
        Some(function) => read_call_after(r, alloc, calls, place, function),
        None => Ok(PartialStmt::Empty),
    }
}

// Reads a place that a value is assigned to: a name, or a star with an operand.
fn read_place<'a>(r: &mut Reader<'a>, alloc: Global, calls: usize) -> Got<PartialExpr<'a>>
    ensures { IfOk result (λ e. reading.got (expr_of e) (reader_of r.new)
        ≡ statements.read_place calls (reader_of r.old)) }
{
    match r.name() {
        Some(word) => Ok(name_here(r, word)),
        None => read_after_star(r, alloc, calls),
    }
}

// Reads a star, which must stand here, and its operand.
fn read_after_star<'a>(r: &mut Reader<'a>, alloc: Global, calls: usize) -> Got<PartialExpr<'a>>
    ensures { IfOk result (λ e. reading.got (expr_of e) (reader_of r.new) ≡ after_star calls (reader_of r.old)) }
{
    let at = r.left.at;
    let inside = Inside {
        start: at,
        operators: 1,
        opened: 0,
    };
    r.take_mark(Mark::Star);
    let operand = read_unary(r, alloc, calls, inside)?;
    Ok(PartialExpr::Unary(at, CUn::Deref, Box::new(alloc, operand)?))
}

// Reads what takes a value at a place: an assignment, or a call with a result.
fn read_assigned<'a>(
    r: &mut Reader<'a>,
    alloc: Global,
    calls: usize,
    place: PartialExpr<'a>,
) -> GotStmt<'a>
    ensures { IfOk result (λ stmt. reading.got (stmt_of stmt) (reader_of r.new)
        ≡ statements.read_assigned calls (reading.got (expr_of place.entry) (reader_of r.old))) }
{
    if !r.sees_mark(Mark::Equals) {
        r.fail();
        return Ok(PartialStmt::Assign(place, None, false));
    }
    r.skip();
    if r.sees_name_and(Mark::OpenParenthesis) {
        return read_call(r, alloc, calls, Some(place));
    }
    let e = read_value(r, alloc, calls)?;
    r.take_mark(Mark::Semicolon);
    let done = !r.is_stopped();
    Ok(PartialStmt::Assign(place, Some(e), done))
}

/// Reads an assignment or a call.
pub(crate) fn read_simple<'a>(r: &mut Reader<'a>, alloc: Global, calls: usize) -> GotStmt<'a>
    ensures { IfOk result (λ stmt. reading.got (stmt_of stmt) (reader_of r.new)
        ≡ statements.read_simple calls (reader_of r.old)) }
{
    if r.sees_name_and(Mark::OpenParenthesis) {
        return read_call(r, alloc, calls, None);
    }
    let place = read_place(r, alloc, calls)?;
    read_assigned(r, alloc, calls, place)
}
