//! The rules on constants: 21 to 29, 33 and 34.

ghost use Rattle.std.specs.Prelude.{◌≡◌, ◌+◌, ◌*◌, ◌/◌, ◌%◌, ◌^◌, ◌<◌, ◌==◌, ◌||◌, true, false, IfSome, IsNone, option_map};
ghost use Rattle.dcc_ir.specs.Forms.{is_constant, is_constant_of, is_unary_of_constant, is_cut_constant, is_joined_constant};
ghost use Rattle.dcc_ir.specs.Tree as tree;
ghost use Rattle.dcc_ir.specs.Views.{expr_of};
ghost use Rattle.dcc_ir.specs.WellFormed.{is_width};
ghost use Rattle.dcc_rules.specs.Rules.{MeetsRuleUnder};
ghost use Rattle.dcc_stdrules.specs.Constants.{has_operator, is_computed, IsComputed};

use crate::same::same_binary;
use crate::values::{unary_value, value, widened, wrapped};
use dcc_ir::plain::values::moved_down;
use dcc_ir::{BinOp, Expr};
use std::alloc::{AllocError, Global};

/// The operators that a rule on two constants takes.
#[derive(Clone, Copy)]
pub enum Operators {
    Only(BinOp),
    Shifts,
    Comparisons,
}

impl Operators {
    // Whether the operator is one of them.
    fn has(self, operator: BinOp) -> bool
        ensures { result ≡ has_operator self operator }
    {
        match self {
            Operators::Only(one) => same_binary(operator, one),
            Operators::Shifts => {
                same_binary(operator, BinOp::Shl)
                    || same_binary(operator, BinOp::Shr)
                    || same_binary(operator, BinOp::Sar)
            }
            Operators::Comparisons => operator.is_comparison(),
        }
    }
}

/// The number of a constant of that width; none for another expression.
pub fn number_in(width: u8, e: &Expr) -> Option<u32>
    ensures some { IfSome result (λ n. expr_of e.now ≡ tree.Const width n) }
    ensures none { IsNone result → is_constant_of width (expr_of e.now) ≡ false }
{
    match e {
        Expr::Const(w, number) if *w == width => Some(*number),
        _ => None,
    }
}

/// A constant: its width and its number.
#[derive(Clone, Copy)]
struct Constant {
    width: u8,
    number: u32,
}

// The constant that the expression is; none for another expression.
fn constant_in(e: &Expr) -> Option<Constant>
    ensures some { IfSome result (λ c. expr_of e.now ≡ tree.Const c.width c.number) }
    ensures none { IsNone result → is_constant (expr_of e.now) ≡ false }
{
    match e {
        Expr::Const(width, number) => Some(Constant {
            width: *width,
            number: *number,
        }),
        _ => None,
    }
}

// The value of one of the operators on two constants of its width, as a constant.
fn computed(operators: Operators, e: &Expr) -> Option<Expr>
    ensures { IsComputed (is_computed operators (expr_of e.now)) (expr_of e.now) (option_map expr_of result) }
{
    let Expr::Bin(operator, width, left, right) = e else {
        return None;
    };
    let a = number_in(*width, left)?;
    let b = number_in(*width, right)?;
    if !operators.has(*operator) {
        return None;
    }
    let number = value(*operator, *width, a, b).unwrap_or(0);
    let bits = if operator.is_comparison() { 1 } else { *width };
    Some(Expr::Const(bits, number))
}

// The value of an operator on a constant of its width, as a constant.
fn computed_unary(e: &Expr) -> Option<Expr>
    ensures { IsComputed (is_unary_of_constant (expr_of e.now)) (expr_of e.now) (option_map expr_of result) }
{
    let Expr::Un(operator, width, operand) = e else {
        return None;
    };
    let a = number_in(*width, operand)?;
    let number = unary_value(*operator, *width, a).unwrap_or(0);
    let bits = if operator.is_test() { 1 } else { *width };
    Some(Expr::Const(bits, number))
}

// So many bits of a number, from that one on.
fn cut(width: u8, first: u8, number: u32) -> u32
    ensures { is_width width ≡ true → result ≡ number / 2 ^ first % 2 ^ width }
{
    wrapped(width, u64::from(moved_down(number, u32::from(first)))).unwrap_or(0)
}

// The number of which these are the halves of so many bits.
fn joined(high: u32, width: u8, low: u32) -> u32
    ensures { (width == 8 || width == 16) ≡ true → high < 2 ^ width → low < 2 ^ width → result ≡ high * 2 ^ width + low }
{
    match width {
        8 => high % 0x100 * 0x100 + low % 0x100,
        16 => high % 0x1_0000 * 0x1_0000 + low % 0x1_0000,
        _ => 0,
    }
}

// A part of a constant, as a constant.
fn cut_constant(width: u8, first: u8, operand: &Expr) -> Option<Expr>
    ensures { IsComputed (is_constant (expr_of operand.now)) (tree.Part width first (expr_of operand.now)) (option_map expr_of result) }
{
    let constant = constant_in(operand)?;
    Some(Expr::Const(width, cut(width, first, constant.number)))
}

// A constant that is widened, as a constant.
fn widened_constant(by_sign: bool, width: u8, operand: &Expr) -> Option<Expr>
    ensures { IsComputed (is_constant (expr_of operand.now)) (tree.Widen by_sign width (expr_of operand.now)) (option_map expr_of result) }
{
    let constant = constant_in(operand)?;
    let number = widened(by_sign, constant.width, width, constant.number).unwrap_or(0);
    Some(Expr::Const(width, number))
}

// A part of a constant, or a constant that is widened, as a constant.
fn resized(e: &Expr) -> Option<Expr>
    ensures { IsComputed (is_cut_constant (expr_of e.now)) (expr_of e.now) (option_map expr_of result) }
{
    match e {
        Expr::Part(width, first, operand) => cut_constant(*width, *first, operand),
        Expr::Widen(by_sign, width, operand) => widened_constant(*by_sign, *width, operand),
        _ => None,
    }
}

// Two constants that are joined, as a constant.
fn joined_constant(e: &Expr) -> Option<Expr>
    ensures { IsComputed (is_joined_constant (expr_of e.now)) (expr_of e.now) (option_map expr_of result) }
{
    let Expr::Join(high, low) = e else {
        return None;
    };
    let upper = constant_in(high)?;
    let lower = constant_in(low)?;
    let number = joined(upper.number, lower.width, lower.number);
    Some(Expr::Const(upper.width.saturating_add(lower.width), number))
}

/// Rewrites the sum of two constants to a constant.
pub fn rule_21(alloc: Global, bits: &[u8], e: &Expr) -> Result<Option<Expr>, AllocError>
    ensures { MeetsRuleUnder 21 bits.now e.now result }
{
    Ok(computed(Operators::Only(BinOp::Add), e))
}

/// Rewrites the difference of two constants to a constant.
pub fn rule_22(alloc: Global, bits: &[u8], e: &Expr) -> Result<Option<Expr>, AllocError>
    ensures { MeetsRuleUnder 22 bits.now e.now result }
{
    Ok(computed(Operators::Only(BinOp::Sub), e))
}

/// Rewrites the product of two constants to a constant.
pub fn rule_23(alloc: Global, bits: &[u8], e: &Expr) -> Result<Option<Expr>, AllocError>
    ensures { MeetsRuleUnder 23 bits.now e.now result }
{
    Ok(computed(Operators::Only(BinOp::Mul), e))
}

/// Rewrites `c & d` of constants to a constant.
pub fn rule_24(alloc: Global, bits: &[u8], e: &Expr) -> Result<Option<Expr>, AllocError>
    ensures { MeetsRuleUnder 24 bits.now e.now result }
{
    Ok(computed(Operators::Only(BinOp::And), e))
}

/// Rewrites `c | d` of constants to a constant.
pub fn rule_25(alloc: Global, bits: &[u8], e: &Expr) -> Result<Option<Expr>, AllocError>
    ensures { MeetsRuleUnder 25 bits.now e.now result }
{
    Ok(computed(Operators::Only(BinOp::Or), e))
}

/// Rewrites `c ^ d` of constants to a constant.
pub fn rule_26(alloc: Global, bits: &[u8], e: &Expr) -> Result<Option<Expr>, AllocError>
    ensures { MeetsRuleUnder 26 bits.now e.now result }
{
    Ok(computed(Operators::Only(BinOp::Xor), e))
}

/// Rewrites a shift of two constants to a constant.
pub fn rule_27(alloc: Global, bits: &[u8], e: &Expr) -> Result<Option<Expr>, AllocError>
    ensures { MeetsRuleUnder 27 bits.now e.now result }
{
    Ok(computed(Operators::Shifts, e))
}

/// Rewrites a comparison of two constants to a constant.
pub fn rule_28(alloc: Global, bits: &[u8], e: &Expr) -> Result<Option<Expr>, AllocError>
    ensures { MeetsRuleUnder 28 bits.now e.now result }
{
    Ok(computed(Operators::Comparisons, e))
}

/// Rewrites an operator on a constant to a constant.
pub fn rule_29(alloc: Global, bits: &[u8], e: &Expr) -> Result<Option<Expr>, AllocError>
    ensures { MeetsRuleUnder 29 bits.now e.now result }
{
    Ok(computed_unary(e))
}

/// Rewrites a part of a constant, or a constant that is widened, to a constant.
pub fn rule_33(alloc: Global, bits: &[u8], e: &Expr) -> Result<Option<Expr>, AllocError>
    ensures { MeetsRuleUnder 33 bits.now e.now result }
{
    Ok(resized(e))
}

/// Rewrites two constants that are joined to a constant.
pub fn rule_34(alloc: Global, bits: &[u8], e: &Expr) -> Result<Option<Expr>, AllocError>
    ensures { MeetsRuleUnder 34 bits.now e.now result }
{
    Ok(joined_constant(e))
}
