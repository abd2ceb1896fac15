//! The rules on operators in a row, halves, widths and choices: 19, 20 and 35 to 40.

ghost use Rattle.std.specs.Prelude.{◌≡◌, ◌==◌, ◌&&◌};
ghost use Rattle.dcc_ir.specs.Forms.{is_twice, is_choice_by_constant};
ghost use Rattle.dcc_ir.specs.Views.{expr_of};
ghost use Rattle.dcc_rules.specs.Forms.{is_low_half, is_high_half, is_joined_again, is_whole, is_narrowed_again};
ghost use Rattle.dcc_rules.specs.Rules.{MeetsRuleUnder};
ghost use Rattle.dcc_stdrules.specs.Rewriting.{Answers, twice_below, part_of, low_of_part, high_of_part, halved, widened_in};
ghost use Rattle.dcc_stdrules.specs.Rewriting.{chosen_in};

use crate::copy::copied;
use crate::same::{has_double_width, has_width, same_expr, same_unary};
use dcc_ir::{Expr, UnOp};
use std::alloc::{AllocError, Global};

// What stands below an operator that stands twice in a row.
fn undone(alloc: Global, operator: UnOp, e: &Expr) -> Result<Option<Expr>, AllocError>
    ensures { Answers result (is_twice operator (expr_of e.now)) (twice_below (expr_of e.now)) }
{
    let Expr::Un(outer, width, operand) = e else {
        return Ok(None);
    };
    let operand: &Expr = operand;
    let Expr::Un(inner, inner_width, below) = operand else {
        return Ok(None);
    };
    if !same_unary(*outer, operator) || !same_unary(*inner, operator) || *width != *inner_width {
        return Ok(None);
    }
    Ok(Some(copied(alloc, below)?))
}

/// Rewrites the negative number of the negative number of x to x.
pub fn rule_19(alloc: Global, bits: &[u8], e: &Expr) -> Result<Option<Expr>, AllocError>
    ensures { MeetsRuleUnder 19 bits.now e.now result }
{
    undone(alloc, UnOp::Neg, e)
}

/// Rewrites the opposite of the opposite of x to x.
pub fn rule_20(alloc: Global, bits: &[u8], e: &Expr) -> Result<Option<Expr>, AllocError>
    ensures { MeetsRuleUnder 20 bits.now e.now result }
{
    undone(alloc, UnOp::Not, e)
}

// The lower half of a Join, where the expression is just that.
fn low_half(alloc: Global, bits: &[u8], e: &Expr) -> Result<Option<Expr>, AllocError>
    ensures { Answers result (is_low_half bits.now (expr_of e.now)) (low_of_part (expr_of e.now)) }
{
    let Expr::Part(width, first, whole) = e else {
        return Ok(None);
    };
    let whole: &Expr = whole;
    let Expr::Join(_, low) = whole else {
        return Ok(None);
    };
    if *first != 0 || !has_width(bits, low, *width) {
        return Ok(None);
    }
    Ok(Some(copied(alloc, low)?))
}

/// Rewrites the lower half of a Join to that half.
pub fn rule_35(alloc: Global, bits: &[u8], e: &Expr) -> Result<Option<Expr>, AllocError>
    ensures { MeetsRuleUnder 35 bits.now e.now result }
{
    low_half(alloc, bits, e)
}

// The upper half of a Join, where the expression is just that.
fn high_half(alloc: Global, bits: &[u8], e: &Expr) -> Result<Option<Expr>, AllocError>
    ensures { Answers result (is_high_half bits.now (expr_of e.now)) (high_of_part (expr_of e.now)) }
{
    let Expr::Part(width, first, whole) = e else {
        return Ok(None);
    };
    let whole: &Expr = whole;
    let Expr::Join(high, _) = whole else {
        return Ok(None);
    };
    if *first != *width || !has_width(bits, high, *width) {
        return Ok(None);
    }
    Ok(Some(copied(alloc, high)?))
}

/// Rewrites the upper half of a Join to that half.
pub fn rule_36(alloc: Global, bits: &[u8], e: &Expr) -> Result<Option<Expr>, AllocError>
    ensures { MeetsRuleUnder 36 bits.now e.now result }
{
    high_half(alloc, bits, e)
}

// Whether the numbers are those of the upper and the lower half of a number.
fn are_halves(width: u8, first: u8, low_width: u8, low_first: u8) -> bool
    ensures { result ≡ (width == low_width && first == width && low_first == 0) }
{
    width == low_width && first == width && low_first == 0
}

// The expression of which both halves are joined.
fn joined_again(alloc: Global, bits: &[u8], e: &Expr) -> Result<Option<Expr>, AllocError>
    ensures { Answers result (is_joined_again bits.now (expr_of e.now)) (halved (expr_of e.now)) }
{
    let Expr::Join(high, low) = e else {
        return Ok(None);
    };
    let high: &Expr = high;
    let Expr::Part(width, first, x) = high else {
        return Ok(None);
    };
    let low: &Expr = low;
    let Expr::Part(low_width, low_first, y) = low else {
        return Ok(None);
    };
    if !are_halves(*width, *first, *low_width, *low_first) || !same_expr(x, y) {
        return Ok(None);
    }
    if !has_double_width(bits, x, *width) {
        return Ok(None);
    }
    Ok(Some(copied(alloc, x)?))
}

/// Rewrites the upper half of x joined with its lower half to x.
pub fn rule_37(alloc: Global, bits: &[u8], e: &Expr) -> Result<Option<Expr>, AllocError>
    ensures { MeetsRuleUnder 37 bits.now e.now result }
{
    joined_again(alloc, bits, e)
}

// The operand of a Part that takes all of its bits.
fn whole_part(alloc: Global, bits: &[u8], e: &Expr) -> Result<Option<Expr>, AllocError>
    ensures { Answers result (is_whole bits.now (expr_of e.now)) (part_of (expr_of e.now)) }
{
    let Expr::Part(width, first, x) = e else {
        return Ok(None);
    };
    if *first != 0 || !has_width(bits, x, *width) {
        return Ok(None);
    }
    Ok(Some(copied(alloc, x)?))
}

/// Rewrites all bits of x to x.
pub fn rule_38(alloc: Global, bits: &[u8], e: &Expr) -> Result<Option<Expr>, AllocError>
    ensures { MeetsRuleUnder 38 bits.now e.now result }
{
    whole_part(alloc, bits, e)
}

// The expression that was widened and of which the same bits are taken.
fn narrowed_again(alloc: Global, bits: &[u8], e: &Expr) -> Result<Option<Expr>, AllocError>
    ensures { Answers result (is_narrowed_again bits.now (expr_of e.now)) (widened_in (expr_of e.now)) }
{
    let Expr::Part(width, first, wide) = e else {
        return Ok(None);
    };
    let wide: &Expr = wide;
    let Expr::Widen(_, _, x) = wide else {
        return Ok(None);
    };
    if *first != 0 || !has_width(bits, x, *width) {
        return Ok(None);
    }
    Ok(Some(copied(alloc, x)?))
}

/// Rewrites the bits of x in a widened x to x.
pub fn rule_39(alloc: Global, bits: &[u8], e: &Expr) -> Result<Option<Expr>, AllocError>
    ensures { MeetsRuleUnder 39 bits.now e.now result }
{
    narrowed_again(alloc, bits, e)
}

// The arm that a constant chooses.
fn chosen(alloc: Global, e: &Expr) -> Result<Option<Expr>, AllocError>
    ensures { Answers result (is_choice_by_constant (expr_of e.now)) (chosen_in (expr_of e.now)) }
{
    let Expr::Choose(test, one, other) = e else {
        return Ok(None);
    };
    let test: &Expr = test;
    let Expr::Const(_, number) = test else {
        return Ok(None);
    };
    if *number == 1 {
        Ok(Some(copied(alloc, one)?))
    } else {
        Ok(Some(copied(alloc, other)?))
    }
}

/// Rewrites a choice on a constant to the chosen arm.
pub fn rule_40(alloc: Global, bits: &[u8], e: &Expr) -> Result<Option<Expr>, AllocError>
    ensures { MeetsRuleUnder 40 bits.now e.now result }
{
    chosen(alloc, e)
}
