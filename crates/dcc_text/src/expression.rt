//! The text of an expression.

ghost use Rattle.std.specs.Prelude.{◌≡◌, false, ◌+◌, if◌then◌else◌, IfOk};
ghost use Rattle.dcc_ir.specs.Tree as inner;
ghost use Rattle.dcc_ir.specs.Value.{width_of};
ghost use Rattle.dcc_ir.specs.Views.{expr_of as inner_of};
ghost use Rattle.dcc_c.specs.declared.syntax.CUn.TheVariants.{Deref};
ghost use Rattle.dcc_c.specs.Types.{plain};
ghost use Rattle.dcc_c.specs.Tree as tree;
ghost use Rattle.dcc_c.specs.Views.{expr_of};
ghost use Rattle.dcc_text.specs.Spelled as spec;
ghost use Rattle.dcc_text.specs.Views.{way_of};

use crate::constant::constant;
use crate::nodes::{binary, cast, conditional, small};
use crate::operator::{
    binary_taken, left_way, operand_way, right_way, unary_taken, votes_left, votes_right,
};
use crate::spells::Spells;
use crate::variable::{placed, pointed, variable};
use crate::way::{Way, reckoning_type, unsigned_type};
use dcc_c::{CBin, CExpr};
use dcc_ir::{Expr, UnOp};
use std::alloc::{AllocError, Global};

// How many bits an expression has. That these are more than 32 bits can number is told as want of memory.
fn width_in<S: Spells>(s: &S, e: &Expr) -> Result<u32, AllocError>
    ensures { IfOk result (λ width. width ≡ width_of (S.spelling s.now).bits (inner_of e.now)) }
{
    match e {
        Expr::Const(width, ..)
        | Expr::Load(width, ..)
        | Expr::Widen(_, width, ..)
        | Expr::Part(width, ..) => Ok(u32::from(*width)),
        Expr::Get(location) => Ok(u32::from(s.width(*location))),
        Expr::Un(operator, width, ..) => {
            Ok(if operator.is_test() {
                1
            } else {
                u32::from(*width)
            })
        }
        Expr::Bin(operator, width, ..) => {
            Ok(if operator.is_comparison() {
                1
            } else {
                u32::from(*width)
            })
        }
        Expr::Join(high, low) => {
            let high = width_in(s, high)?;
            let low = width_in(s, low)?;
            high.checked_add(low).ok_or(AllocError)
        }
        Expr::Choose(_, one, ..) => width_in(s, one),
        Expr::Address(_) => Ok(16),
    }
}

// The way in which the operand of a widening is taken.
fn extended_way(by_sign: bool) -> Way
    ensures { way_of result ≡ (if by_sign then spec.Signed else spec.Exact) }
{
    if by_sign { Way::Signed } else { Way::Exact }
}

// A number that is taken in a way, at a greater width.
fn widened(alloc: Global, way: Way, by_sign: bool, width: u8, a: CExpr) -> Result<CExpr, AllocError>
    ensures { IfOk result (λ r. expr_of r
        ≡ spec.taken (if by_sign then spec.Signed else spec.Exact) (way_of way) width
        (tree.Cast (plain (spec.reckoning_type by_sign width)) (expr_of a))) }
{
    let bits = u32::from(width);
    let e = cast(alloc, reckoning_type(by_sign, bits), a)?;
    extended_way(by_sign).taken(alloc, way, bits, e)
}

// Two halves of so many bits each, in a way. That they have more bits than 32 bits can number is told as want of
// memory.
fn joined(alloc: Global, way: Way, width: u32, high: CExpr, low: CExpr) -> Result<CExpr, AllocError>
    ensures { IfOk result (λ r. expr_of r
        ≡ spec.taken spec.Exact (way_of way) (width + width) (spec.joined width (expr_of high) (expr_of low))) }
{
    let both = width.checked_add(width).ok_or(AllocError)?;
    let whole = unsigned_type(both);
    let high = cast(alloc, whole, high)?;
    let moved = binary(alloc, CBin::Shl, high, small(width))?;
    let low = cast(alloc, whole, low)?;
    let e = binary(alloc, CBin::Or, moved, low)?;
    Way::Exact.taken(alloc, way, both, e)
}

// An address in the frame in a way.
fn address<S: Spells>(alloc: Global, s: &S, way: Way, distance: u16) -> Result<CExpr, AllocError>
    ensures { IfOk result (λ r. expr_of r ≡ spec.text (S.spelling s.now) (way_of way) false (inner.Address distance)) }
{
    let place = s.place(alloc, distance)?;
    Way::Exact.taken(alloc, way, 16, placed(alloc, place)?)
}

/// The text of the number of so many bits in memory at an address, in a way. Want of memory is the only error, and an
/// expression with more bits than 32 bits can number is told as such.
#[cycle(text)]
pub fn loaded<S: Spells>(
    alloc: Global,
    s: &S,
    way: Way,
    width: u8,
    address: &Expr,
) -> Result<CExpr, AllocError>
    ensures { IfOk result (λ r. expr_of r ≡ spec.text (S.spelling s.now) (way_of way) false
        (inner.Load width (inner_of address.now))) }
{
    let at = expr_text(alloc, s, Way::Low, false, address)?;
    let number = pointed(alloc, s, width, address, at)?;
    Way::Exact.taken(alloc, way, u32::from(width), number)
}

// The text of an operator on one operand in a way.
#[cycle(text)]
fn unary_expr<S: Spells>(
    alloc: Global,
    s: &S,
    way: Way,
    operator: UnOp,
    width: u8,
    operand: &Expr,
) -> Result<CExpr, AllocError>
    ensures { IfOk result (λ r. expr_of r ≡ spec.text (S.spelling s.now) (way_of way) false
        (inner.Unary operator width (inner_of operand.now))) }
{
    let width = u32::from(width);
    let a = expr_text(alloc, s, operand_way(operator, way, width), false, operand)?;
    unary_taken(alloc, way, operator, width, a)
}

// The text of an operand at a greater width in a way.
#[cycle(text)]
fn widened_expr<S: Spells>(
    alloc: Global,
    s: &S,
    way: Way,
    by_sign: bool,
    width: u8,
    operand: &Expr,
) -> Result<CExpr, AllocError>
    ensures { IfOk result (λ r. expr_of r ≡ spec.text (S.spelling s.now) (way_of way) false
        (inner.Widen by_sign width (inner_of operand.now))) }
{
    let a = expr_text(alloc, s, extended_way(by_sign), true, operand)?;
    widened(alloc, way, by_sign, width, a)
}

// The text of a part of an operand, `width` bits from bit `first` on, in a way.
#[cycle(text)]
fn part_expr<S: Spells>(
    alloc: Global,
    s: &S,
    way: Way,
    width: u8,
    first: u8,
    operand: &Expr,
) -> Result<CExpr, AllocError>
    ensures { IfOk result (λ r. expr_of r ≡ spec.text (S.spelling s.now) (way_of way) false
        (inner.Part width first (inner_of operand.now))) }
{
    let width = u32::from(width);
    if first == 0 {
        let a = expr_text(alloc, s, Way::Low, false, operand)?;
        way.cut_to(alloc, width, a)
    } else {
        let a = expr_text(alloc, s, Way::Exact, true, operand)?;
        let moved = binary(alloc, CBin::Shr, a, small(u32::from(first)))?;
        way.cut_to(alloc, width, moved)
    }
}

/// The text of an expression in a way, and whether the operator that takes it votes. Want of memory is the only error,
/// and an expression with more bits than 32 bits can number is told as such.
#[cycle(text)]
pub fn expr_text<S: Spells>(
    alloc: Global,
    s: &S,
    way: Way,
    votes: bool,
    e: &Expr,
) -> Result<CExpr, AllocError>
    ensures { IfOk result (λ r. expr_of r ≡ spec.text (S.spelling s.now) (way_of way) votes (inner_of e.now)) }
{
    match e {
        Expr::Const(width, number) => constant(alloc, way, *width, *number),
        Expr::Get(location) => variable(alloc, s, way, votes, *location),
        Expr::Load(width, address) => loaded(alloc, s, way, *width, address),
        Expr::Un(operator, width, operand) => unary_expr(alloc, s, way, *operator, *width, operand),
        Expr::Bin(operator, width, left, right) => {
            let width = u32::from(*width);
            let left_way = left_way(*operator, way, width);
            let a = expr_text(alloc, s, left_way, votes_left(*operator), left)?;
            let right_way = right_way(*operator, way, width);
            let b = expr_text(alloc, s, right_way, votes_right(*operator), right)?;
            binary_taken(alloc, way, *operator, width, a, b)
        }
        Expr::Widen(by_sign, width, e) => widened_expr(alloc, s, way, *by_sign, *width, e),
        Expr::Part(width, first, operand) => part_expr(alloc, s, way, *width, *first, operand),
        Expr::Join(high, low) => {
            let width = width_in(s, low)?;
            let high = expr_text(alloc, s, Way::Exact, true, high)?;
            let low = expr_text(alloc, s, Way::Exact, true, low)?;
            joined(alloc, way, width, high, low)
        }
        Expr::Choose(test, one, other) => {
            let test = expr_text(alloc, s, Way::Exact, false, test)?;
            let a = expr_text(alloc, s, way, false, one)?;
            let b = expr_text(alloc, s, way, false, other)?;
            conditional(alloc, test, a, b)
        }
        Expr::Address(distance) => address(alloc, s, way, *distance),
    }
}
