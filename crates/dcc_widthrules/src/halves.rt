//! The rules on widened and joined expressions: 53, 55, 56 and 66.

ghost use Rattle.std.specs.Prelude.{◌≡◌, ◌<◌, ◌≤◌, option_map};
ghost use Rattle.dcc_ir.specs.Views.{expr_of};
ghost use Rattle.dcc_rules.specs.Rules.{MeetsRuleUnder};
ghost use Rattle.dcc_morerules.specs.Further.{Gives};
ghost use Rattle.dcc_widthrules.specs.Halves.{widened_once, joined_widened, joined_neighbours, is_bitwise, word_of};
ghost use Rattle.dcc_widthrules.specs.Halves.{changed_half, changed_word};

use dcc_ir::{BinOp, Expr};
use dcc_stdrules::copy::copied;
use dcc_stdrules::same::{has_width, same_binary, same_expr, width_in};
use std::alloc::{AllocError, Global};

// An expression that is widened twice, widened once.
fn widened_once(alloc: Global, e: &Expr) -> Result<Option<Expr>, AllocError>
    ensures { Gives result (widened_once (expr_of e.now)) }
{
    let Expr::Widen(outer_sign, width, operand) = e else {
        return Ok(None);
    };
    let operand: &Expr = operand;
    let Expr::Widen(by_sign, _, x) = operand else {
        return Ok(None);
    };
    if *by_sign && !*outer_sign {
        return Ok(None);
    }
    let x = copied(alloc, x)?;
    Ok(Some(Expr::widen(alloc, *by_sign, *width, x)?))
}

/// Rewrites x widened twice to x widened once, unless its sign is extended by zeros.
pub fn rule_53(alloc: Global, bits: &[u8], e: &Expr) -> Result<Option<Expr>, AllocError>
    ensures { MeetsRuleUnder 53 bits.now e.now result }
{
    widened_once(alloc, e)
}

// The widened expression of which the upper half stands beside the expression.
fn joined_widened(alloc: Global, bits: &[u8], e: &Expr) -> Result<Option<Expr>, AllocError>
    ensures { Gives result (joined_widened bits.now (expr_of e.now)) }
{
    let Expr::Join(high, low) = e else {
        return Ok(None);
    };
    let high: &Expr = high;
    let Expr::Part(width, first, widened) = high else {
        return Ok(None);
    };
    let widened: &Expr = widened;
    let Expr::Widen(by_sign, wide, x) = widened else {
        return Ok(None);
    };
    if !same_expr(x, low) || !has_width(bits, low, *width) || *first != *width {
        return Ok(None);
    }
    if u16::from(*wide) != u16::from(*width) + u16::from(*width) {
        return Ok(None);
    }
    let x = copied(alloc, x)?;
    Ok(Some(Expr::widen(alloc, *by_sign, *wide, x)?))
}

/// Rewrites the upper half of a widened x beside x to the widened x.
pub fn rule_55(alloc: Global, bits: &[u8], e: &Expr) -> Result<Option<Expr>, AllocError>
    ensures { MeetsRuleUnder 55 bits.now e.now result }
{
    joined_widened(alloc, bits, e)
}

// Two neighbouring bytes of an expression of more than 16 bits, as a word of it.
fn joined_neighbours(alloc: Global, bits: &[u8], e: &Expr) -> Result<Option<Expr>, AllocError>
    ensures { Gives result (joined_neighbours bits.now (expr_of e.now)) }
{
    let Expr::Join(high, low) = e else {
        return Ok(None);
    };
    let high: &Expr = high;
    let low: &Expr = low;
    let (Expr::Part(upper, from, x), Expr::Part(lower, first, y)) = (high, low) else {
        return Ok(None);
    };
    if !same_expr(x, y) || *upper != 8 || *lower != 8 {
        return Ok(None);
    }
    if u16::from(*from) != u16::from(*first) + 8 || width_in(bits, x) <= 16 {
        return Ok(None);
    }
    let x = copied(alloc, x)?;
    Ok(Some(Expr::part(alloc, 16, *first, x)?))
}

/// Rewrites two neighbouring bytes of an x of more than 16 bits to a word of x.
pub fn rule_56(alloc: Global, bits: &[u8], e: &Expr) -> Result<Option<Expr>, AllocError>
    ensures { MeetsRuleUnder 56 bits.now e.now result }
{
    joined_neighbours(alloc, bits, e)
}

// Whether the operator works on each bit by itself.
fn is_bitwise(operator: BinOp) -> bool
    ensures { result ≡ is_bitwise operator }
{
    match operator {
        BinOp::And | BinOp::Or | BinOp::Xor => true,
        _ => false,
    }
}

// The bits of a byte from that place on, and beside them those by which the operator leaves the other byte as it is.
fn word_of(operator: BinOp, first: u8, byte: u32) -> u32
    requires place { first ≤ 8 }
    requires byte { byte < 256 }
    ensures { result ≡ word_of operator first byte }
{
    let rest = if same_binary(operator, BinOp::And) {
        0xFF << (8 - first)
    } else {
        0
    };
    (byte << first) + rest
}

// A byte of a word from that bit on, changed by a number, beside the other byte, as the word changed by a number.
fn changed_half(
    alloc: Global,
    bits: &[u8],
    first: u8,
    changed: &Expr,
    other: &Expr,
) -> Result<Option<Expr>, AllocError>
    requires { first ≤ 8 }
    ensures { Gives result (changed_half bits.now first (expr_of changed.now) (expr_of other.now)) }
{
    let (Expr::Bin(operator, _, half, number), Expr::Part(rest, from, y)) = (changed, other) else {
        return Ok(None);
    };
    let half: &Expr = half;
    let number: &Expr = number;
    let (Expr::Part(width, place, x), Expr::Const(_, byte)) = (half, number) else {
        return Ok(None);
    };
    if !is_bitwise(*operator) || *width != 8 || *rest != 8 || *byte >= 256 {
        return Ok(None);
    }
    if *place != first || *from != 8 - first || !same_expr(x, y) || !has_width(bits, x, 16) {
        return Ok(None);
    }
    let x = copied(alloc, x)?;
    let word = Expr::Const(16, word_of(*operator, first, *byte));
    Ok(Some(Expr::binary(alloc, *operator, 16, x, word)?))
}

// One byte of a word changed by a number, beside the other byte, as the word changed by a number.
fn changed_word(alloc: Global, bits: &[u8], e: &Expr) -> Result<Option<Expr>, AllocError>
    ensures { Gives result (changed_word bits.now (expr_of e.now)) }
{
    let Expr::Join(high, low) = e else {
        return Ok(None);
    };
    if let Some(changed) = changed_half(alloc, bits, 0, low, high)? {
        return Ok(Some(changed));
    }
    changed_half(alloc, bits, 8, high, low)
}

/// Rewrites one byte of x changed by a number in `&`, `|` or `^` beside the other byte of x to x changed by a number.
pub fn rule_66(alloc: Global, bits: &[u8], e: &Expr) -> Result<Option<Expr>, AllocError>
    ensures { MeetsRuleUnder 66 bits.now e.now result }
{
    changed_word(alloc, bits, e)
}
