//! The rules on parts: 50 to 52, 63 and 64.

ghost use Rattle.std.specs.Prelude.{◌≡◌, option_map};
ghost use Rattle.dcc_ir.specs.Views.{expr_of};
ghost use Rattle.dcc_rules.specs.Rules.{MeetsRuleUnder};
ghost use Rattle.dcc_morerules.specs.Further.{Gives};
ghost use Rattle.dcc_widthrules.specs.Parts.{part_of_part, part_of_half, low_of_widened, part_of_widened, part_of_masked};
ghost use Rattle.dcc_widthrules.specs.Parts.{is_narrow, low_of, narrowed};
ghost use Rattle.std.specs.Prelude.{◌%◌, ◌^◌, ◌==◌, ◌&&◌};
ghost use Rattle.dcc_ir.specs.Forms.{ones};
ghost use Rattle.dcc_ir.specs.WellFormed.{is_width};

use dcc_ir::{BinOp, Expr};
use dcc_morerules::tests::is_width;
use dcc_stdrules::copy::copied;
use dcc_stdrules::same::{has_width, same_binary, width_in};
use dcc_stdrules::values::{limit, wrapped};
use std::alloc::{AllocError, Global};

/// No expression has more bits.
const MOST: u16 = 32;

// A part of a part, as one part.
fn part_of_part(alloc: Global, e: &Expr) -> Result<Option<Expr>, AllocError>
    ensures { Gives result (part_of_part (expr_of e.now)) }
{
    let Expr::Part(width, first, operand) = e else {
        return Ok(None);
    };
    let operand: &Expr = operand;
    let Expr::Part(_, second, x) = operand else {
        return Ok(None);
    };
    if u16::from(*first) + u16::from(*second) >= MOST {
        return Ok(None);
    }
    let x = copied(alloc, x)?;
    Ok(Some(Expr::part(alloc, *width, *first + *second, x)?))
}

/// Rewrites a part of a part of x to a part of x.
pub fn rule_50(alloc: Global, bits: &[u8], e: &Expr) -> Result<Option<Expr>, AllocError>
    ensures { MeetsRuleUnder 50 bits.now e.now result }
{
    part_of_part(alloc, e)
}

// A part that lies in one half of a Join, as a part of that half.
fn part_of_half(alloc: Global, bits: &[u8], e: &Expr) -> Result<Option<Expr>, AllocError>
    ensures { Gives result (part_of_half bits.now (expr_of e.now)) }
{
    let Expr::Part(width, first, operand) = e else {
        return Ok(None);
    };
    let operand: &Expr = operand;
    let Expr::Join(high, low) = operand else {
        return Ok(None);
    };
    let half = width_in(bits, low);
    if half <= u32::from(*first) {
        let high = copied(alloc, high)?;
        return Ok(Some(Expr::part(alloc, *width, *first - half as u8, high)?));
    }
    if u32::from(*first) + u32::from(*width) <= half {
        let low = copied(alloc, low)?;
        return Ok(Some(Expr::part(alloc, *width, *first, low)?));
    }
    Ok(None)
}

/// Rewrites a part that lies in one half of a Join to a part of that half.
pub fn rule_51(alloc: Global, bits: &[u8], e: &Expr) -> Result<Option<Expr>, AllocError>
    ensures { MeetsRuleUnder 51 bits.now e.now result }
{
    part_of_half(alloc, bits, e)
}

// The low bits of a widened expression.
fn low_of_widened(
    alloc: Global,
    bits: &[u8],
    width: u8,
    by_sign: bool,
    x: &Expr,
) -> Result<Option<Expr>, AllocError>
    ensures { Gives result (low_of_widened bits.now width by_sign (expr_of x.now)) }
{
    let whole = width_in(bits, x);
    if u32::from(width) < whole {
        let x = copied(alloc, x)?;
        return Ok(Some(Expr::part(alloc, width, 0, x)?));
    }
    if whole < u32::from(width) {
        let x = copied(alloc, x)?;
        return Ok(Some(Expr::widen(alloc, by_sign, width, x)?));
    }
    Ok(None)
}

// A part of a widened expression, as low bits of the expression or 0.
fn part_of_widened(alloc: Global, bits: &[u8], e: &Expr) -> Result<Option<Expr>, AllocError>
    ensures { Gives result (part_of_widened bits.now (expr_of e.now)) }
{
    let Expr::Part(width, first, operand) = e else {
        return Ok(None);
    };
    let operand: &Expr = operand;
    let Expr::Widen(by_sign, _, x) = operand else {
        return Ok(None);
    };
    if *first == 0 {
        return low_of_widened(alloc, bits, *width, *by_sign, x);
    }
    if !*by_sign && width_in(bits, x) <= u32::from(*first) {
        return Ok(Some(Expr::Const(*width, 0)));
    }
    Ok(None)
}

/// Rewrites the low bits of a widened x to low bits of x or to x widened, and bits above an x extended by zeros to 0.
pub fn rule_52(alloc: Global, bits: &[u8], e: &Expr) -> Result<Option<Expr>, AllocError>
    ensures { MeetsRuleUnder 52 bits.now e.now result }
{
    part_of_widened(alloc, bits, e)
}

// Whether the number has all bits of the width.
fn has_ones(width: u8, number: u32) -> bool
    ensures { result ≡ (is_width width && (number % 2 ^ width == ones width)) }
{
    let (Some(low), Some(limit)) = (wrapped(width, u64::from(number)), limit(width)) else {
        return false;
    };
    is_width(width) && u64::from(low) + 1 == limit
}

// The low bits of an expression under a mask that has them all.
fn part_of_masked(alloc: Global, e: &Expr) -> Result<Option<Expr>, AllocError>
    ensures { Gives result (part_of_masked (expr_of e.now)) }
{
    let Expr::Part(width, first, operand) = e else {
        return Ok(None);
    };
    let operand: &Expr = operand;
    let Expr::Bin(operator, _, x, mask) = operand else {
        return Ok(None);
    };
    let mask: &Expr = mask;
    let Expr::Const(_, number) = mask else {
        return Ok(None);
    };
    if *first != 0 || !same_binary(*operator, BinOp::And) || !has_ones(*width, *number) {
        return Ok(None);
    }
    let x = copied(alloc, x)?;
    Ok(Some(Expr::part(alloc, *width, 0, x)?))
}

/// Rewrites low bits of `x & c` to those of x, where c has ones there.
pub fn rule_63(alloc: Global, bits: &[u8], e: &Expr) -> Result<Option<Expr>, AllocError>
    ensures { MeetsRuleUnder 63 bits.now e.now result }
{
    part_of_masked(alloc, e)
}

// Whether the low bits of the operator's value are its value on low bits.
fn is_narrow(operator: BinOp) -> bool
    ensures { result ≡ is_narrow operator }
{
    match operator {
        BinOp::Add | BinOp::Sub | BinOp::Mul | BinOp::And | BinOp::Or | BinOp::Xor => true,
        _ => false,
    }
}

// An expression of so many bits, no larger, for the low bits of an expression.
fn low_of(alloc: Global, bits: &[u8], width: u8, e: &Expr) -> Result<Option<Expr>, AllocError>
    ensures { Gives result (low_of bits.now width (expr_of e.now)) }
{
    match e {
        Expr::Const(_, number) if is_width(width) => {
            Ok(wrapped(width, u64::from(*number)).map(|low| Expr::Const(width, low)))
        }
        Expr::Widen(_, _, x) if has_width(bits, x, width) => Ok(Some(copied(alloc, x)?)),
        Expr::Join(_, low) if has_width(bits, low, width) => Ok(Some(copied(alloc, low)?)),
        _ => Ok(None),
    }
}

// The low bits of an operator's value, as the operator on low bits.
fn narrowed(alloc: Global, bits: &[u8], e: &Expr) -> Result<Option<Expr>, AllocError>
    ensures { Gives result (narrowed bits.now (expr_of e.now)) }
{
    let Expr::Part(width, first, operand) = e else {
        return Ok(None);
    };
    let operand: &Expr = operand;
    let Expr::Bin(operator, _, left, right) = operand else {
        return Ok(None);
    };
    if *first != 0 || !is_narrow(*operator) {
        return Ok(None);
    }
    let Some(left) = low_of(alloc, bits, *width, left)? else {
        return Ok(None);
    };
    let Some(right) = low_of(alloc, bits, *width, right)? else {
        return Ok(None);
    };
    Ok(Some(Expr::binary(alloc, *operator, *width, left, right)?))
}

/// Rewrites low bits of a sum to the sum of low bits; so for `-`, `*`, `&`, `|` and `^`.
pub fn rule_64(alloc: Global, bits: &[u8], e: &Expr) -> Result<Option<Expr>, AllocError>
    ensures { MeetsRuleUnder 64 bits.now e.now result }
{
    narrowed(alloc, bits, e)
}
