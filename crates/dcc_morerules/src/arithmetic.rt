//! The rules on sums, multiples and shifts: 57 to 59, 65, 67 and 68.

ghost use Rattle.std.specs.Prelude.{◌≡◌, option_map};
ghost use Rattle.std.specs.Option.{option_or};
ghost use Rattle.dcc_ir.specs.Forms.{is_shift};
ghost use Rattle.dcc_ir.specs.Views.{expr_of};
ghost use Rattle.dcc_rules.specs.Rules.{MeetsRuleUnder};
ghost use Rattle.dcc_morerules.specs.Further.{Gives};
ghost use Rattle.dcc_morerules.specs.Arithmetic.{zero_beside, zero_less, plus_negative, shifted_back, shifted_twice};
ghost use Rattle.dcc_morerules.specs.Arithmetic.{moves_up, base_of, times_of, sum_of_multiples, multiple_moved};

use crate::tests::is_width;
use dcc_ir::{BinOp, Expr, UnOp};
use dcc_stdrules::copy::copied;
use dcc_stdrules::moved::Sums;
use dcc_stdrules::same::{same_binary, same_expr, same_unary};
use dcc_stdrules::sums::summed;
use dcc_stdrules::values::{limit, value, wrapped};
use std::alloc::{AllocError, Global};

/// Rewrites `(x - c) + d` to x plus or minus one constant.
pub fn rule_57(alloc: Global, bits: &[u8], e: &Expr) -> Result<Option<Expr>, AllocError>
    ensures { MeetsRuleUnder 57 bits.now e.now result }
{
    summed(alloc, Sums::Returned, e)
}

// What 0 to the left of an operator on bits leaves.
fn zero_beside(alloc: Global, e: &Expr) -> Result<Option<Expr>, AllocError>
    ensures { Gives result (zero_beside (expr_of e.now)) }
{
    let Expr::Bin(operator, _, left, right) = e else {
        return Ok(None);
    };
    let left: &Expr = left;
    let Expr::Const(width, number) = left else {
        return Ok(None);
    };
    if *number != 0 {
        return Ok(None);
    }
    if same_binary(*operator, BinOp::And) {
        return Ok(Some(Expr::Const(*width, *number)));
    }
    if same_binary(*operator, BinOp::Or) || same_binary(*operator, BinOp::Xor) {
        return Ok(Some(copied(alloc, right)?));
    }
    Ok(None)
}

/// Rewrites `0 & x` to 0, and `0 | x` and `0 ^ x` to x.
pub fn rule_58(alloc: Global, bits: &[u8], e: &Expr) -> Result<Option<Expr>, AllocError>
    ensures { MeetsRuleUnder 58 bits.now e.now result }
{
    zero_beside(alloc, e)
}

// The negative of what is subtracted from 0.
fn zero_less(alloc: Global, e: &Expr) -> Result<Option<Expr>, AllocError>
    ensures { Gives result (zero_less (expr_of e.now)) }
{
    let Expr::Bin(operator, width, left, right) = e else {
        return Ok(None);
    };
    let left: &Expr = left;
    let Expr::Const(_, number) = left else {
        return Ok(None);
    };
    if !same_binary(*operator, BinOp::Sub) || *number != 0 {
        return Ok(None);
    }
    let right = copied(alloc, right)?;
    Ok(Some(Expr::unary(alloc, UnOp::Neg, *width, right)?))
}

// The difference for a sum with a negative.
fn plus_negative(alloc: Global, e: &Expr) -> Result<Option<Expr>, AllocError>
    ensures { Gives result (plus_negative (expr_of e.now)) }
{
    let Expr::Bin(operator, width, left, right) = e else {
        return Ok(None);
    };
    let right: &Expr = right;
    let Expr::Un(negative, _, operand) = right else {
        return Ok(None);
    };
    if !same_binary(*operator, BinOp::Add) || !same_unary(*negative, UnOp::Neg) {
        return Ok(None);
    }
    let left = copied(alloc, left)?;
    let operand = copied(alloc, operand)?;
    Ok(Some(Expr::binary(alloc, BinOp::Sub, *width, left, operand)?))
}

// The first of the two that there is.
fn negative(alloc: Global, e: &Expr) -> Result<Option<Expr>, AllocError>
    ensures { Gives result (option_or (zero_less (expr_of e.now)) (plus_negative (expr_of e.now))) }
{
    if let Some(negative) = zero_less(alloc, e)? {
        return Ok(Some(negative));
    }
    plus_negative(alloc, e)
}

/// Rewrites `0 - x` to `-x`, and `x + -y` to `x - y`.
pub fn rule_59(alloc: Global, bits: &[u8], e: &Expr) -> Result<Option<Expr>, AllocError>
    ensures { MeetsRuleUnder 59 bits.now e.now result }
{
    negative(alloc, e)
}

// What stays of an expression that is moved up and down again.
fn shifted_back(alloc: Global, e: &Expr) -> Result<Option<Expr>, AllocError>
    ensures { Gives result (shifted_back (expr_of e.now)) }
{
    let Expr::Bin(down, width, left, right) = e else {
        return Ok(None);
    };
    let left: &Expr = left;
    let right: &Expr = right;
    let (Expr::Bin(up, _, x, count), Expr::Const(_, d)) = (left, right) else {
        return Ok(None);
    };
    let count: &Expr = count;
    let Expr::Const(_, c) = count else {
        return Ok(None);
    };
    if !same_binary(*down, BinOp::Shr) || !same_binary(*up, BinOp::Shl) {
        return Ok(None);
    }
    if *c != *d || *c >= u32::from(*width) || !is_width(*width) {
        return Ok(None);
    }
    let Some(limit) = limit(*width) else {
        return Ok(None);
    };
    let mask = Expr::Const(*width, ((limit - 1) >> *c) as u32);
    let x = copied(alloc, x)?;
    Ok(Some(Expr::binary(alloc, BinOp::And, *width, x, mask)?))
}

/// Rewrites `x << c >> c`, without sign, to `x & mask`.
pub fn rule_65(alloc: Global, bits: &[u8], e: &Expr) -> Result<Option<Expr>, AllocError>
    ensures { MeetsRuleUnder 65 bits.now e.now result }
{
    shifted_back(alloc, e)
}

// Whether the operator is a shift.
fn is_shift(operator: BinOp) -> bool
    ensures { result ≡ is_shift operator }
{
    same_binary(operator, BinOp::Shl)
        || same_binary(operator, BinOp::Shr)
        || same_binary(operator, BinOp::Sar)
}

// An expression that is moved twice in one way, as one that is moved once.
fn shifted_twice(alloc: Global, e: &Expr) -> Result<Option<Expr>, AllocError>
    ensures { Gives result (shifted_twice (expr_of e.now)) }
{
    let Expr::Bin(outer, width, left, right) = e else {
        return Ok(None);
    };
    let left: &Expr = left;
    let right: &Expr = right;
    let (Expr::Bin(inner, _, x, count), Expr::Const(_, d)) = (left, right) else {
        return Ok(None);
    };
    let count: &Expr = count;
    let Expr::Const(_, c) = count else {
        return Ok(None);
    };
    let sum = u64::from(*c) + u64::from(*d);
    if !is_shift(*outer) || !same_binary(*inner, *outer) || sum >= u64::from(*width) {
        return Ok(None);
    }
    let x = copied(alloc, x)?;
    let count = Expr::Const(*width, sum as u32);
    Ok(Some(Expr::binary(alloc, *outer, *width, x, count)?))
}

/// Rewrites `x << c << d` to `x << (c + d)`, and so for both ways down, where the sum is below the width.
pub fn rule_67(alloc: Global, bits: &[u8], e: &Expr) -> Result<Option<Expr>, AllocError>
    ensures { MeetsRuleUnder 67 bits.now e.now result }
{
    shifted_twice(alloc, e)
}

// An expression, and the multiple of it that another one is.
#[derive(Clone, Copy)]
struct Multiple<'a> {
    base: &'a Expr,
    times: u32,
}

// Of what the expression is a multiple, and which.
fn as_multiple(e: &Expr) -> Multiple<'_>
    ensures base { expr_of result.base.now ≡ base_of (expr_of e.now) }
    ensures times { result.times ≡ times_of (expr_of e.now) }
{
    if let Expr::Bin(operator, width, x, number) = e {
        let number: &Expr = number;
        if let Expr::Const(_, c) = number {
            if same_binary(*operator, BinOp::Mul) {
                return Multiple { base: x, times: *c };
            }
            if same_binary(*operator, BinOp::Shl) && *c < u32::from(*width) && is_width(*width) {
                return Multiple {
                    base: x,
                    times: 1 << *c,
                };
            }
        }
    }
    Multiple { base: e, times: 1 }
}

// A sum of two multiples of an expression, as one multiple.
fn sum_of_multiples(alloc: Global, e: &Expr) -> Result<Option<Expr>, AllocError>
    ensures { Gives result (sum_of_multiples (expr_of e.now)) }
{
    let Expr::Bin(operator, width, left, right) = e else {
        return Ok(None);
    };
    if !same_binary(*operator, BinOp::Add) || !is_width(*width) {
        return Ok(None);
    }
    let left = as_multiple(left);
    let right = as_multiple(right);
    if !same_expr(left.base, right.base) || (left.times == 1 && right.times == 1) {
        return Ok(None);
    }
    let Some(times) = wrapped(*width, u64::from(left.times) + u64::from(right.times)) else {
        return Ok(None);
    };
    let base = copied(alloc, left.base)?;
    let times = Expr::Const(*width, times);
    Ok(Some(Expr::binary(alloc, BinOp::Mul, *width, base, times)?))
}

// A multiple that is moved up, as a greater multiple.
fn multiple_moved(alloc: Global, e: &Expr) -> Result<Option<Expr>, AllocError>
    ensures { Gives result (multiple_moved (expr_of e.now)) }
{
    let Expr::Bin(outer, width, left, right) = e else {
        return Ok(None);
    };
    let left: &Expr = left;
    let right: &Expr = right;
    let (Expr::Bin(inner, _, x, number), Expr::Const(_, d)) = (left, right) else {
        return Ok(None);
    };
    let number: &Expr = number;
    let Expr::Const(_, c) = number else {
        return Ok(None);
    };
    if !same_binary(*outer, BinOp::Shl) || !same_binary(*inner, BinOp::Mul) {
        return Ok(None);
    }
    if *d == 0 || *d >= u32::from(*width) || !is_width(*width) {
        return Ok(None);
    }
    let Some(times) = value(BinOp::Shl, *width, *c, *d) else {
        return Ok(None);
    };
    let x = copied(alloc, x)?;
    let times = Expr::Const(*width, times);
    Ok(Some(Expr::binary(alloc, BinOp::Mul, *width, x, times)?))
}

// The first of the two that there is.
fn one_multiple(alloc: Global, e: &Expr) -> Result<Option<Expr>, AllocError>
    ensures { Gives result (option_or (sum_of_multiples (expr_of e.now)) (multiple_moved (expr_of e.now))) }
{
    if let Some(multiple) = sum_of_multiples(alloc, e)? {
        return Ok(Some(multiple));
    }
    multiple_moved(alloc, e)
}

/// Rewrites `x * c + x * d` to `x * (c + d)`, where shifts are multiples too, and `x * c << d` to a multiple of x.
pub fn rule_68(alloc: Global, bits: &[u8], e: &Expr) -> Result<Option<Expr>, AllocError>
    ensures { MeetsRuleUnder 68 bits.now e.now result }
{
    one_multiple(alloc, e)
}
