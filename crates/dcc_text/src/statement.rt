//! The text of a statement.

ghost use Rattle.std.specs.Prelude.{◌≡◌, true, false, IfOk, map, option_map, option_to_list};
ghost use Rattle.dcc_ir.specs.Tree as inner;
ghost use Rattle.dcc_ir.specs.Views.{expr_of as inner_of, stmt_of as inner_stmt_of};
ghost use Rattle.dcc_c.specs.Dos.{dos_name};
ghost use Rattle.dcc_c.specs.Tree as tree;
ghost use Rattle.dcc_c.specs.Views.{expr_of, stmt_of};
ghost use Rattle.dcc_text.specs.Spelled as spec;
ghost use Rattle.dcc_text.specs.Stmts as stmts;
ghost use Rattle.dcc_text.specs.Views.{way_of};

use crate::expression::{expr_text, loaded};
use crate::nodes::{binary, cast, cast_to, small};
use crate::operator::{left_way, symbol};
use crate::spells::Spells;
use crate::variable::pointed;
use crate::way::Way;
use dcc_c::{Base, CBin, CExpr, CStmt};
use dcc_ir::{BinOp, Expr, Loc, Stmt};
use dcc_num::dos;
use std::alloc::{AllocError, Global};

// The variable of a location.
fn place_of<S: Spells>(alloc: Global, s: &S, location: Loc) -> Result<CExpr, AllocError>
    ensures { IfOk result (λ r. expr_of r ≡ stmts.place_of (S.spelling s.now) location) }
{
    Ok(CExpr::Name(s.name(alloc, location)?))
}

// The way in which the variable of a location takes values.
fn wanted_way<S: Spells>(s: &S, location: Loc) -> Way
    ensures { way_of result ≡ stmts.wanted_way (S.spelling s.now) location }
{
    if s.width(location) == 1 && s.is_settled(location) {
        Way::Exact
    } else {
        Way::Low
    }
}

// The variable of a location takes a value.
fn assignment<S: Spells>(alloc: Global, s: &S, location: Loc, e: CExpr) -> Result<CStmt, AllocError>
    ensures { IfOk result (λ r. stmt_of r ≡ tree.Assign (stmts.place_of (S.spelling s.now) location)
        (stmts.assigned (S.spelling s.now) location (expr_of e))) }
{
    let place = place_of(alloc, s, location)?;
    let ty = s.type_of(location);
    if ty.pointer {
        Ok(CStmt::Assign(place, cast_to(alloc, ty, e)?))
    } else {
        Ok(CStmt::Assign(place, e))
    }
}

// A location takes the value of an expression.
fn setting<S: Spells>(alloc: Global, s: &S, location: Loc, e: &Expr) -> Result<CStmt, AllocError>
    ensures { IfOk result (λ r. stmt_of r ≡ stmts.setting (S.spelling s.now) location (inner_of e.now)) }
{
    let value = expr_text(alloc, s, wanted_way(s, location), false, e)?;
    assignment(alloc, s, location, value)
}

// The statement by which a location takes bits from an address.
fn fetching<S: Spells>(
    alloc: Global,
    s: &S,
    location: Loc,
    width: u8,
    address: &Expr,
) -> Result<CStmt, AllocError>
    ensures { IfOk result (λ r. stmt_of r
        ≡ stmts.setting (S.spelling s.now) location (inner.Load width (inner_of address.now))) }
{
    let value = loaded(alloc, s, wanted_way(s, location), width, address)?;
    assignment(alloc, s, location, value)
}

// The statement by which bits of a value are stored at an address.
fn storing<S: Spells>(
    alloc: Global,
    s: &S,
    width: u8,
    address: &Expr,
    e: &Expr,
) -> Result<CStmt, AllocError>
    ensures { IfOk result (λ r. stmt_of r ≡ stmts.stmt_text (S.spelling s.now) 0
        (inner.Store width (inner_of address.now) (inner_of e.now))) }
{
    let at = expr_text(alloc, s, Way::Low, false, address)?;
    let place = pointed(alloc, s, width, address, at)?;
    Ok(CStmt::Assign(place, expr_text(alloc, s, Way::Low, false, e)?))
}

// The quotient of signed bytes. The dividend times 256 is a word, and its division by the divisor faults where that of
// the bytes does.
fn byte_quotient(alloc: Global, a: CExpr, b: CExpr) -> Result<CExpr, AllocError>
    ensures { IfOk result (λ r. expr_of r ≡ spec.byte_quotient (expr_of a) (expr_of b)) }
{
    let word = cast(alloc, Base::Int, a)?;
    let dividend = binary(alloc, CBin::Mul, word, small(256))?;
    let quotient = binary(alloc, CBin::Div, dividend, b)?;
    binary(alloc, CBin::Div, quotient, small(256))
}

// The text of an operand of a division.
fn operand<S: Spells>(
    alloc: Global,
    s: &S,
    operator: BinOp,
    width: u8,
    e: &Expr,
) -> Result<CExpr, AllocError>
    ensures { IfOk result (λ r. expr_of r
        ≡ spec.text (S.spelling s.now) (spec.left_way operator spec.Low width) true (inner_of e.now)) }
{
    let way = left_way(operator, Way::Low, u32::from(width));
    expr_text(alloc, s, way, true, e)
}

// The remainder of signed bytes.
fn byte_remainder<S: Spells>(
    alloc: Global,
    s: &S,
    left: &Expr,
    right: &Expr,
) -> Result<CExpr, AllocError>
    ensures { IfOk result (λ r. expr_of r ≡ spec.text_division (S.spelling s.now)
        (inner.Binary BinOp.RemS 8 (inner_of left.now) (inner_of right.now))) }
{
    let a = operand(alloc, s, BinOp::RemS, 8, left)?;
    let b = operand(alloc, s, BinOp::RemS, 8, right)?;
    let quotient = byte_quotient(alloc, a, b)?;
    let b = operand(alloc, s, BinOp::RemS, 8, right)?;
    let taken = binary(alloc, CBin::Mul, quotient, b)?;
    let a = operand(alloc, s, BinOp::RemS, 8, left)?;
    binary(alloc, CBin::Sub, a, taken)
}

// A quotient or a remainder, which faults where the operator does.
fn division<S: Spells>(
    alloc: Global,
    s: &S,
    operator: BinOp,
    width: u8,
    left: &Expr,
    right: &Expr,
) -> Result<CExpr, AllocError>
    ensures { IfOk result (λ r. expr_of r ≡ spec.text_division (S.spelling s.now)
        (inner.Binary operator width (inner_of left.now) (inner_of right.now))) }
{
    if operator == BinOp::RemS && width == 8 {
        return byte_remainder(alloc, s, left, right);
    }
    let a = operand(alloc, s, operator, width, left)?;
    let b = operand(alloc, s, operator, width, right)?;
    match operator {
        BinOp::DivS if width == 8 => byte_quotient(alloc, a, b),
        _ => binary(alloc, symbol(operator), a, b),
    }
}

// The right side of an assignment that stands for a division.
fn divided<S: Spells>(alloc: Global, s: &S, e: &Expr) -> Result<CExpr, AllocError>
    ensures { IfOk result (λ r. expr_of r ≡ spec.text_division (S.spelling s.now) (inner_of e.now)) }
{
    match e {
        Expr::Bin(operator, width, left, right) => division(
            alloc, s, *operator, *width, left, right,
        ),
        _ => expr_text(alloc, s, Way::Low, false, e),
    }
}

// The place of the first result of a call, where it has one.
fn first_place<S: Spells>(
    alloc: Global,
    s: &S,
    results: &[Loc],
) -> Result<Option<CExpr>, AllocError>
    ensures { IfOk result (λ r. option_map expr_of r ≡ stmts.first_place (S.spelling s.now) results.now) }
{
    match results.first() {
        Some(location) => Ok(Some(place_of(alloc, s, *location)?)),
        None => Ok(None),
    }
}

// The arguments of a call.
fn arguments<S: Spells>(alloc: Global, s: &S, es: &[Expr]) -> Result<Vec<CExpr>, AllocError>
    ensures { IfOk result (λ r. map expr_of r.items
        ≡ map (spec.text (S.spelling s.now) spec.Low false) (map inner_of es.now)) }
{
    let mut arguments = Vec::new(alloc);
    for e in es {
        arguments.push(expr_text(alloc, s, Way::Low, false, e)?)?;
    }
    Ok(arguments)
}

// The argument of a DOS call, where it has one.
fn argument<S: Spells>(alloc: Global, s: &S, e: &Option<Expr>) -> Result<Vec<CExpr>, AllocError>
    ensures { IfOk result (λ r. map expr_of r.items
        ≡ map (spec.text (S.spelling s.now) spec.Low false) (option_to_list (option_map inner_of e.now))) }
{
    let mut arguments = Vec::new(alloc);
    if let Some(e) = e {
        arguments.push(expr_text(alloc, s, Way::Low, false, e)?)?;
    }
    Ok(arguments)
}

// The variable that takes the byte of a DOS call, where one does.
fn taking<S: Spells>(alloc: Global, s: &S, place: Option<Loc>) -> Result<Option<CExpr>, AllocError>
    ensures { IfOk result (λ r. option_map expr_of r ≡ option_map (stmts.place_of (S.spelling s.now)) place) }
{
    match place {
        Some(location) => Ok(Some(place_of(alloc, s, location)?)),
        None => Ok(None),
    }
}

// The function that makes the DOS call of that number.
fn dos_function(number: u8) -> &'static str
    ensures { result.now ≡ dos_name (stmts.dos_with number) }
{
    match number {
        dos::PUTC => "dos_putc",
        dos::EXIT => "dos_exit",
        dos::GETCHE => "dos_getche",
        dos::GETCH => "dos_getch",
        _ => "dos_puts",
    }
}

// The call of the graph with that entry, where so many bytes are its depth of calls.
fn graph_call<S: Spells>(
    alloc: Global,
    s: &S,
    depth: u32,
    results: &[Loc],
    entry: u16,
    es: &[Expr],
) -> Result<CStmt, AllocError>
    ensures { IfOk result (λ r. stmt_of r ≡ stmts.stmt_text (S.spelling s.now) 0
        (inner.Call results.now entry (map inner_of es.now) depth)) }
{
    let place = first_place(alloc, s, results)?;
    let function = s.function(alloc, entry)?;
    Ok(CStmt::Call(place, function, arguments(alloc, s, es)?, depth))
}

// The DOS call of that number, where so many bytes are the depth of calls in force.
fn dos_call<S: Spells>(
    alloc: Global,
    s: &S,
    depth: u32,
    number: u8,
    place: Option<Loc>,
    e: &Option<Expr>,
) -> Result<CStmt, AllocError>
    ensures { IfOk result (λ r. stmt_of r ≡ stmts.stmt_text (S.spelling s.now) depth
        (inner.Dos number place (option_map inner_of e.now))) }
{
    let place = taking(alloc, s, place)?;
    let function = String::from_str(alloc, dos_function(number))?;
    Ok(CStmt::Call(place, function, argument(alloc, s, e)?, depth))
}

/// The text of a statement, where so many bytes are the depth of calls in force. A call of another graph has a depth
/// of its own. Want of memory is the only error, and an expression with more bits than 32 bits can number is told as
/// such.
pub fn stmt_text<S: Spells>(
    alloc: Global,
    s: &S,
    depth: u32,
    stmt: &Stmt,
) -> Result<CStmt, AllocError>
    ensures { IfOk result (λ r. stmt_of r ≡ stmts.stmt_text (S.spelling s.now) depth (inner_stmt_of stmt.now)) }
{
    match stmt {
        Stmt::Set { place, value } => setting(alloc, s, *place, value),
        Stmt::Load {
            place,
            width,
            address,
        } => fetching(alloc, s, *place, *width, address),
        Stmt::Store {
            width,
            address,
            value,
        } => storing(alloc, s, *width, address, value),
        Stmt::Div { place, division } => {
            assignment(alloc, s, *place, divided(alloc, s, division)?)
        }
        Stmt::Call {
            results,
            entry,
            arguments,
            depth: own,
        } => graph_call(alloc, s, u32::from(*own), results, *entry, arguments),
        Stmt::Dos {
            number,
            place,
            argument,
        } => dos_call(alloc, s, depth, *number, *place, argument),
    }
}
