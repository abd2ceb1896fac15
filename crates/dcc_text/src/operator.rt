//! The operators of a graph in a text: the ways of their operands and results, and which operands they vote on.

ghost use Rattle.std.specs.Prelude.{◌≡◌, if◌then◌else◌, IfOk, IfErr, Some, None};
ghost use Rattle.dcc_ir.specs.Value.{is_comparison, is_test};
ghost use Rattle.dcc_c.specs.Tree as tree;
ghost use Rattle.dcc_c.specs.Views.{expr_of};
ghost use Rattle.dcc_text.specs.Spelled as spec;
ghost use Rattle.dcc_text.specs.Views.{way_of};

use crate::nodes::{binary, small, unary};
use crate::way::Way;
use dcc_c::{CBin, CExpr, CUn};
use dcc_ir::{BinOp, UnOp};
use std::alloc::{AllocError, Global};

/// The way of an operator's operand, where the result is wanted in a way.
pub(crate) fn operand_way(operator: UnOp, way: Way, width: u32) -> Way
    ensures { way_of result ≡ spec.operand_way operator (way_of way) width }
{
    match operator {
        UnOp::Not if width == 1 => way.bitwise(1),
        UnOp::Neg | UnOp::Not => way.carried(width),
        UnOp::IsZero => Way::compared(width),
    }
}

// The way of an operator's result, where it is wanted in a way.
fn unary_result(operator: UnOp, way: Way, width: u32) -> Way
    ensures { way_of result ≡ spec.unary_result operator (way_of way) width }
{
    match operator {
        UnOp::IsZero => Way::Exact,
        _ => operand_way(operator, way, width),
    }
}

// The comparison that is true of two numbers where this one is false.
fn opposite_symbol(operator: CBin) -> Option<CBin>
    ensures { result ≡ spec.opposite_symbol operator }
{
    match operator {
        CBin::Eq => Some(CBin::Ne),
        CBin::Ne => Some(CBin::Eq),
        CBin::Lt => Some(CBin::Ge),
        CBin::Ge => Some(CBin::Lt),
        CBin::Le => Some(CBin::Gt),
        CBin::Gt => Some(CBin::Le),
        _ => None,
    }
}

/// The opposite of a comparison. The error is an expression that is none, as it is.
pub fn turned(e: CExpr) -> Result<CExpr, CExpr>
    ensures turned { IfOk result (λ r. spec.turned (expr_of e) ≡ Some (expr_of r)) }
    ensures none { IfErr result (λ r. spec.turned (expr_of e) ≡ None × r ≡ e) }
{
    match e {
        CExpr::Bin(operator, a, b) => match opposite_symbol(operator) {
            Some(other) => Ok(CExpr::Bin(other, a, b)),
            None => Err(CExpr::Bin(operator, a, b)),
        },
        e => Err(e),
    }
}

// The other bit: the opposite of a comparison, or else the exclusive or with 1.
fn flipped(alloc: Global, e: CExpr) -> Result<CExpr, AllocError>
    ensures { IfOk result (λ r. expr_of r ≡ spec.turned_or spec.flipped (expr_of e)) }
{
    match turned(e) {
        Ok(opposite) => Ok(opposite),
        Err(e) => binary(alloc, CBin::Xor, e, small(1)),
    }
}

// The operator on the text of its operand.
fn unary_text(alloc: Global, operator: UnOp, width: u32, a: CExpr) -> Result<CExpr, AllocError>
    ensures { IfOk result (λ r. expr_of r ≡ spec.unary_text operator width (expr_of a)) }
{
    match operator {
        UnOp::Neg => unary(alloc, CUn::Minus, a),
        UnOp::Not if width == 1 => flipped(alloc, a),
        UnOp::Not => unary(alloc, CUn::Complement, a),
        UnOp::IsZero => binary(alloc, CBin::Eq, a, small(0)),
    }
}

/// The operator on the text of its operand, wanted in a way.
pub(crate) fn unary_taken(
    alloc: Global,
    way: Way,
    operator: UnOp,
    width: u32,
    a: CExpr,
) -> Result<CExpr, AllocError>
    ensures { IfOk result (λ r. expr_of r ≡ spec.taken (spec.unary_result operator (way_of way) width) (way_of way)
        (if is_test operator then 1 else width) (spec.unary_text operator width (expr_of a))) }
{
    let result_width = if operator.is_test() { 1 } else { width };
    let e = unary_text(alloc, operator, width, a)?;
    unary_result(operator, way, width).taken(alloc, way, result_width, e)
}

/// The way of an operator's left operand, where the result is wanted in a way.
pub(crate) fn left_way(operator: BinOp, way: Way, width: u32) -> Way
    ensures { way_of result ≡ spec.left_way operator (way_of way) width }
{
    match operator {
        BinOp::Add | BinOp::Sub | BinOp::Mul | BinOp::Shl => way.carried(width),
        BinOp::And | BinOp::Or | BinOp::Xor => way.bitwise(width),
        BinOp::Eq => Way::compared(width),
        BinOp::DivU | BinOp::RemU | BinOp::Shr | BinOp::LtU | BinOp::LeU => Way::Exact,
        BinOp::DivS | BinOp::RemS | BinOp::Sar | BinOp::LtS | BinOp::LeS => Way::Signed,
    }
}

// Whether an operator shifts.
fn is_shift(operator: BinOp) -> bool
    ensures { result ≡ spec.is_shift operator }
{
    matches!(operator, BinOp::Shl | BinOp::Shr | BinOp::Sar)
}

/// The way of an operator's right operand, where the result is wanted in a way.
pub(crate) fn right_way(operator: BinOp, way: Way, width: u32) -> Way
    ensures { way_of result ≡ spec.right_way operator (way_of way) width }
{
    if is_shift(operator) {
        Way::Exact
    } else {
        left_way(operator, way, width)
    }
}

/// Whether an operator votes on the sign of its left operand.
pub(crate) fn votes_left(operator: BinOp) -> bool
    ensures { result ≡ spec.votes_left operator }
{
    !matches!(
        operator,
        BinOp::Add
            | BinOp::Sub
            | BinOp::Mul
            | BinOp::Shl
            | BinOp::And
            | BinOp::Or
            | BinOp::Xor
            | BinOp::Eq
    )
}

/// Whether an operator votes on the sign of its right operand.
pub(crate) fn votes_right(operator: BinOp) -> bool
    ensures { result ≡ spec.votes_right operator }
{
    votes_left(operator) && !is_shift(operator)
}

/// The operator of the text.
pub(crate) fn symbol(operator: BinOp) -> CBin
    ensures { result ≡ spec.symbol operator }
{
    match operator {
        BinOp::Add => CBin::Add,
        BinOp::Sub => CBin::Sub,
        BinOp::Mul => CBin::Mul,
        BinOp::DivS | BinOp::DivU => CBin::Div,
        BinOp::RemS | BinOp::RemU => CBin::Rem,
        BinOp::And => CBin::And,
        BinOp::Or => CBin::Or,
        BinOp::Xor => CBin::Xor,
        BinOp::Shl => CBin::Shl,
        BinOp::Shr | BinOp::Sar => CBin::Shr,
        BinOp::Eq => CBin::Eq,
        BinOp::LtS | BinOp::LtU => CBin::Lt,
        BinOp::LeS | BinOp::LeU => CBin::Le,
    }
}

// The way of an operator's result, where it is wanted in a way.
fn binary_result(operator: BinOp, way: Way, width: u32) -> Way
    ensures { way_of result ≡ spec.binary_result operator (way_of way) width }
{
    if operator.is_comparison() {
        Way::Exact
    } else {
        left_way(operator, way, width)
    }
}

/// The operator on the texts of its operands, wanted in a way.
pub(crate) fn binary_taken(
    alloc: Global,
    way: Way,
    operator: BinOp,
    width: u32,
    a: CExpr,
    b: CExpr,
) -> Result<CExpr, AllocError>
    ensures { IfOk result (λ r. expr_of r ≡ spec.taken (spec.binary_result operator (way_of way) width) (way_of way)
        (if is_comparison operator then 1 else width) (tree.Binary (spec.symbol operator) (expr_of a) (expr_of b))) }
{
    let result_width = if operator.is_comparison() { 1 } else { width };
    let e = binary(alloc, symbol(operator), a, b)?;
    binary_result(operator, way, width).taken(alloc, way, result_width, e)
}
