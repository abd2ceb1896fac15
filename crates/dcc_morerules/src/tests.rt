//! The rules on tests that are one comparison: 42, 43, 48 and 60 to 62.

ghost use Rattle.std.specs.Prelude.{◌≡◌, IfOk};
ghost use Rattle.dcc_ir.specs.Views.{expr_of};
ghost use Rattle.dcc_ir.specs.WellFormed.{is_width};
ghost use Rattle.dcc_rules.specs.Rules.{MeetsRuleUnder};
ghost use Rattle.dcc_morerules.specs.Further.{Gives};
ghost use Rattle.dcc_morerules.specs.Tests.{are_same_two, equal_or_less, zero_or_negative, either_test, undoing};
ghost use Rattle.dcc_morerules.specs.Tests.{equal_after_sum, equality, equal_to_negative, zero_difference, opposite_of, zero_truth};

use dcc_ir::{BinOp, Expr, UnOp};
use dcc_stdrules::copy::copied;
use dcc_stdrules::same::{same_binary, same_expr, same_unary};
use dcc_stdrules::values::{unary_value, value};
use std::alloc::{AllocError, Global};

/// Whether there are expressions of so many bits.
pub fn is_width(width: u8) -> bool
    ensures { result ≡ is_width width }
{
    width == 1 || width == 8 || width == 16 || width == 32
}

// Whether the first two expressions are the other two, in one order or the other.
fn are_same_two(x: &Expr, y: &Expr, a: &Expr, b: &Expr) -> bool
    ensures { result ≡ are_same_two (expr_of x.now) (expr_of y.now) (expr_of a.now) (expr_of b.now) }
{
    (same_expr(x, a) && same_expr(y, b)) || (same_expr(x, b) && same_expr(y, a))
}

// What holds where an equality or a comparison of the same holds.
fn equal_or_less(
    alloc: Global,
    strict: BinOp,
    at_most: BinOp,
    equality: &Expr,
    test: &Expr,
) -> Result<Option<Expr>, AllocError>
    ensures { Gives result (equal_or_less strict at_most (expr_of equality.now) (expr_of test.now)) }
{
    let Expr::Bin(equal, width, x, y) = equality else {
        return Ok(None);
    };
    let Expr::Bin(operator, compared, left, right) = test else {
        return Ok(None);
    };
    if !same_binary(*equal, BinOp::Eq) || !same_binary(*operator, strict) {
        return Ok(None);
    }
    if *width != *compared || !are_same_two(x, y, left, right) {
        return Ok(None);
    }
    let left = copied(alloc, left)?;
    let right = copied(alloc, right)?;
    Ok(Some(Expr::binary(alloc, at_most, *compared, left, right)?))
}

// What holds where one of two tests holds, an equality and a comparison of the same in some order.
fn either_order(
    alloc: Global,
    strict: BinOp,
    at_most: BinOp,
    e: &Expr,
) -> Result<Option<Expr>, AllocError>
    ensures { Gives result (either_test (equal_or_less strict at_most) (expr_of e.now)) }
{
    let Expr::Bin(operator, width, first, second) = e else {
        return Ok(None);
    };
    if !same_binary(*operator, BinOp::Or) || *width != 1 {
        return Ok(None);
    }
    if let Some(joined) = equal_or_less(alloc, strict, at_most, first, second)? {
        return Ok(Some(joined));
    }
    equal_or_less(alloc, strict, at_most, second, first)
}

/// Rewrites `x == y || x < y`, signed, and its mirrors to `x <= y`.
pub fn rule_42(alloc: Global, bits: &[u8], e: &Expr) -> Result<Option<Expr>, AllocError>
    ensures { MeetsRuleUnder 42 bits.now e.now result }
{
    either_order(alloc, BinOp::LtS, BinOp::LeS, e)
}

/// Rewrites `x == y || x < y`, unsigned, and its mirrors to `x <= y`.
pub fn rule_43(alloc: Global, bits: &[u8], e: &Expr) -> Result<Option<Expr>, AllocError>
    ensures { MeetsRuleUnder 43 bits.now e.now result }
{
    either_order(alloc, BinOp::LtU, BinOp::LeU, e)
}

// What holds where an expression is 0 or negative.
fn zero_or_negative(alloc: Global, zero: &Expr, test: &Expr) -> Result<Option<Expr>, AllocError>
    ensures { Gives result (zero_or_negative (expr_of zero.now) (expr_of test.now)) }
{
    let Expr::Un(is_zero, _, x) = zero else {
        return Ok(None);
    };
    let Expr::Bin(operator, width, left, right) = test else {
        return Ok(None);
    };
    let right: &Expr = right;
    let Expr::Const(constant, number) = right else {
        return Ok(None);
    };
    if !same_unary(*is_zero, UnOp::IsZero) || !same_binary(*operator, BinOp::LtS) {
        return Ok(None);
    }
    if !same_expr(x, left) || *number != 0 {
        return Ok(None);
    }
    let left = copied(alloc, left)?;
    let right = Expr::Const(*constant, *number);
    Ok(Some(Expr::binary(alloc, BinOp::LeS, *width, left, right)?))
}

// What holds where one of two tests holds, that an expression is 0 and that it is negative, in some order.
fn not_positive(alloc: Global, e: &Expr) -> Result<Option<Expr>, AllocError>
    ensures { Gives result (either_test zero_or_negative (expr_of e.now)) }
{
    let Expr::Bin(operator, width, first, second) = e else {
        return Ok(None);
    };
    if !same_binary(*operator, BinOp::Or) || *width != 1 {
        return Ok(None);
    }
    if let Some(joined) = zero_or_negative(alloc, first, second)? {
        return Ok(Some(joined));
    }
    zero_or_negative(alloc, second, first)
}

/// Rewrites `x == 0 || x < 0`, signed, and its mirror to `x <= 0`.
pub fn rule_61(alloc: Global, bits: &[u8], e: &Expr) -> Result<Option<Expr>, AllocError>
    ensures { MeetsRuleUnder 61 bits.now e.now result }
{
    not_positive(alloc, e)
}

// The operator that undoes a sum or a difference.
fn undoing(operator: BinOp) -> Option<BinOp>
    ensures { result ≡ undoing operator }
{
    match operator {
        BinOp::Add => Some(BinOp::Sub),
        BinOp::Sub => Some(BinOp::Add),
        _ => None,
    }
}

// An equality of an expression changed by a number and a number, as one of the expression and one number.
fn equal_after_sum(alloc: Global, e: &Expr) -> Result<Option<Expr>, AllocError>
    ensures { Gives result (equal_after_sum (expr_of e.now)) }
{
    let Expr::Bin(equal, width, sum, right) = e else {
        return Ok(None);
    };
    let right: &Expr = right;
    let sum: &Expr = sum;
    let (Expr::Bin(operator, _, x, changed), Expr::Const(_, d)) = (sum, right) else {
        return Ok(None);
    };
    let changed: &Expr = changed;
    let Expr::Const(_, c) = changed else {
        return Ok(None);
    };
    if !same_binary(*equal, BinOp::Eq) || !is_width(*width) {
        return Ok(None);
    }
    let Some(operator) = undoing(*operator) else {
        return Ok(None);
    };
    let Some(number) = value(operator, *width, *d, *c) else {
        return Ok(None);
    };
    let x = copied(alloc, x)?;
    let number = Expr::Const(*width, number);
    Ok(Some(Expr::binary(alloc, BinOp::Eq, *width, x, number)?))
}

/// Rewrites `x - c == d` to `x == c + d`, and `x + c == d` to `x == d - c`.
pub fn rule_48(alloc: Global, bits: &[u8], e: &Expr) -> Result<Option<Expr>, AllocError>
    ensures { MeetsRuleUnder 48 bits.now e.now result }
{
    equal_after_sum(alloc, e)
}

// An equality of two expressions of so many bits.
fn equality(alloc: Global, width: u8, left: &Expr, right: &Expr) -> Result<Expr, AllocError>
    ensures { IfOk result (λ r. expr_of r ≡ equality width (expr_of left.now) (expr_of right.now)) }
{
    let left = copied(alloc, left)?;
    let right = copied(alloc, right)?;
    Expr::binary(alloc, BinOp::Eq, width, left, right)
}

// An equality of an expression and the negative of a number.
fn equal_to_negative(
    alloc: Global,
    width: u8,
    x: &Expr,
    number: &Expr,
) -> Result<Option<Expr>, AllocError>
    ensures { Gives result (equal_to_negative width (expr_of x.now) (expr_of number.now)) }
{
    let Expr::Const(_, number) = number else {
        return Ok(None);
    };
    if !is_width(width) {
        return Ok(None);
    }
    let Some(negative) = unary_value(UnOp::Neg, width, *number) else {
        return Ok(None);
    };
    Ok(Some(equality(alloc, width, x, &Expr::Const(width, negative))?))
}

// What is equal where a difference, an exclusive or, or a sum with a number is 0.
fn zero_difference(alloc: Global, e: &Expr) -> Result<Option<Expr>, AllocError>
    ensures { Gives result (zero_difference (expr_of e.now)) }
{
    let Expr::Un(is_zero, bits, operand) = e else {
        return Ok(None);
    };
    let operand: &Expr = operand;
    let Expr::Bin(operator, width, x, y) = operand else {
        return Ok(None);
    };
    if !same_unary(*is_zero, UnOp::IsZero) || *bits <= 1 {
        return Ok(None);
    }
    if same_binary(*operator, BinOp::Sub) || same_binary(*operator, BinOp::Xor) {
        return Ok(Some(equality(alloc, *width, x, y)?));
    }
    if same_binary(*operator, BinOp::Add) {
        return equal_to_negative(alloc, *width, x, y);
    }
    Ok(None)
}

/// Rewrites a test whether `x - y`, `x ^ y` or `x + c` is 0 to an equality.
pub fn rule_60(alloc: Global, bits: &[u8], e: &Expr) -> Result<Option<Expr>, AllocError>
    ensures { MeetsRuleUnder 60 bits.now e.now result }
{
    zero_difference(alloc, e)
}

// The opposite of a comparison, for turned operands.
fn opposite_of(operator: BinOp) -> Option<BinOp>
    ensures { result ≡ opposite_of operator }
{
    match operator {
        BinOp::LtS => Some(BinOp::LeS),
        BinOp::LtU => Some(BinOp::LeU),
        BinOp::LeS => Some(BinOp::LtS),
        BinOp::LeU => Some(BinOp::LtU),
        _ => None,
    }
}

// The opposite of a comparison that is 0.
fn zero_truth(alloc: Global, e: &Expr) -> Result<Option<Expr>, AllocError>
    ensures { Gives result (zero_truth (expr_of e.now)) }
{
    let Expr::Un(is_zero, bits, operand) = e else {
        return Ok(None);
    };
    let operand: &Expr = operand;
    let Expr::Bin(operator, width, left, right) = operand else {
        return Ok(None);
    };
    if !same_unary(*is_zero, UnOp::IsZero) || *bits != 1 {
        return Ok(None);
    }
    let Some(opposite) = opposite_of(*operator) else {
        return Ok(None);
    };
    let below = copied(alloc, right)?;
    let above = copied(alloc, left)?;
    Ok(Some(Expr::binary(alloc, opposite, *width, below, above)?))
}

/// Rewrites a test whether `x < y` or `x <= y` is 0, signed or not, to `y <= x` or `y < x`.
pub fn rule_62(alloc: Global, bits: &[u8], e: &Expr) -> Result<Option<Expr>, AllocError>
    ensures { MeetsRuleUnder 62 bits.now e.now result }
{
    zero_truth(alloc, e)
}
