//! The rules that give an operand or 0 for an operator: 1 to 18.

ghost use Rattle.dcc_ir.specs.Forms.{is_binary};
ghost use Rattle.dcc_ir.specs.Views.{expr_of};
ghost use Rattle.dcc_rules.specs.Rules.{MeetsRuleUnder};
ghost use Rattle.dcc_stdrules.specs.Rewriting.{asked_of, in_place, Answers};

use crate::asked::{Asked, Given, Number};
use crate::same::same_binary;
use dcc_ir::{BinOp, Expr};
use std::alloc::{AllocError, Global};

// What is given for an expression with this operator, where its operands are as asked.
fn rewritten(
    alloc: Global,
    operator: BinOp,
    asked: Asked,
    given: Given,
    e: &Expr,
) -> Result<Option<Expr>, AllocError>
    ensures { Answers result (is_binary operator (asked_of asked) (expr_of e.now)) (in_place given (expr_of e.now)) }
{
    let Expr::Bin(found, width, left, right) = e else {
        return Ok(None);
    };
    if !same_binary(*found, operator) || !asked.holds(*width, left, right) {
        return Ok(None);
    }
    Ok(Some(given.of(alloc, *width, left, right)?))
}

/// Rewrites `x + 0` to x.
pub fn rule_1(alloc: Global, bits: &[u8], e: &Expr) -> Result<Option<Expr>, AllocError>
    ensures { MeetsRuleUnder 1 bits.now e.now result }
{
    rewritten(
        alloc,
        BinOp::Add,
        Asked::RightIs(Number::Zero),
        Given::Left,
        e,
    )
}

/// Rewrites `0 + x` to x.
pub fn rule_2(alloc: Global, bits: &[u8], e: &Expr) -> Result<Option<Expr>, AllocError>
    ensures { MeetsRuleUnder 2 bits.now e.now result }
{
    rewritten(
        alloc,
        BinOp::Add,
        Asked::LeftIs(Number::Zero),
        Given::Right,
        e,
    )
}

/// Rewrites `x - 0` to x.
pub fn rule_3(alloc: Global, bits: &[u8], e: &Expr) -> Result<Option<Expr>, AllocError>
    ensures { MeetsRuleUnder 3 bits.now e.now result }
{
    rewritten(
        alloc,
        BinOp::Sub,
        Asked::RightIs(Number::Zero),
        Given::Left,
        e,
    )
}

/// Rewrites `x - x` to 0.
pub fn rule_4(alloc: Global, bits: &[u8], e: &Expr) -> Result<Option<Expr>, AllocError>
    ensures { MeetsRuleUnder 4 bits.now e.now result }
{
    rewritten(alloc, BinOp::Sub, Asked::Same, Given::Nothing, e)
}

/// Rewrites `x * 0` to 0.
pub fn rule_5(alloc: Global, bits: &[u8], e: &Expr) -> Result<Option<Expr>, AllocError>
    ensures { MeetsRuleUnder 5 bits.now e.now result }
{
    rewritten(
        alloc,
        BinOp::Mul,
        Asked::RightIs(Number::Zero),
        Given::Right,
        e,
    )
}

/// Rewrites `x * 1` to x.
pub fn rule_6(alloc: Global, bits: &[u8], e: &Expr) -> Result<Option<Expr>, AllocError>
    ensures { MeetsRuleUnder 6 bits.now e.now result }
{
    rewritten(
        alloc,
        BinOp::Mul,
        Asked::RightIs(Number::One),
        Given::Left,
        e,
    )
}

/// Rewrites `1 * x` to x.
pub fn rule_7(alloc: Global, bits: &[u8], e: &Expr) -> Result<Option<Expr>, AllocError>
    ensures { MeetsRuleUnder 7 bits.now e.now result }
{
    rewritten(
        alloc,
        BinOp::Mul,
        Asked::LeftIs(Number::One),
        Given::Right,
        e,
    )
}

/// Rewrites `x & 0` to 0.
pub fn rule_8(alloc: Global, bits: &[u8], e: &Expr) -> Result<Option<Expr>, AllocError>
    ensures { MeetsRuleUnder 8 bits.now e.now result }
{
    rewritten(
        alloc,
        BinOp::And,
        Asked::RightIs(Number::Zero),
        Given::Right,
        e,
    )
}

/// Rewrites `x & ones` to x, ones being the greatest number of the width.
pub fn rule_9(alloc: Global, bits: &[u8], e: &Expr) -> Result<Option<Expr>, AllocError>
    ensures { MeetsRuleUnder 9 bits.now e.now result }
{
    rewritten(
        alloc,
        BinOp::And,
        Asked::RightIs(Number::Ones),
        Given::Left,
        e,
    )
}

/// Rewrites `x & x` to x.
pub fn rule_10(alloc: Global, bits: &[u8], e: &Expr) -> Result<Option<Expr>, AllocError>
    ensures { MeetsRuleUnder 10 bits.now e.now result }
{
    rewritten(alloc, BinOp::And, Asked::Same, Given::Left, e)
}

/// Rewrites `x | 0` to x.
pub fn rule_11(alloc: Global, bits: &[u8], e: &Expr) -> Result<Option<Expr>, AllocError>
    ensures { MeetsRuleUnder 11 bits.now e.now result }
{
    rewritten(
        alloc,
        BinOp::Or,
        Asked::RightIs(Number::Zero),
        Given::Left,
        e,
    )
}

/// Rewrites `x | x` to x.
pub fn rule_12(alloc: Global, bits: &[u8], e: &Expr) -> Result<Option<Expr>, AllocError>
    ensures { MeetsRuleUnder 12 bits.now e.now result }
{
    rewritten(alloc, BinOp::Or, Asked::Same, Given::Left, e)
}

/// Rewrites `x | ones` to ones.
pub fn rule_13(alloc: Global, bits: &[u8], e: &Expr) -> Result<Option<Expr>, AllocError>
    ensures { MeetsRuleUnder 13 bits.now e.now result }
{
    rewritten(
        alloc,
        BinOp::Or,
        Asked::RightIs(Number::Ones),
        Given::Right,
        e,
    )
}

/// Rewrites `x ^ 0` to x.
pub fn rule_14(alloc: Global, bits: &[u8], e: &Expr) -> Result<Option<Expr>, AllocError>
    ensures { MeetsRuleUnder 14 bits.now e.now result }
{
    rewritten(
        alloc,
        BinOp::Xor,
        Asked::RightIs(Number::Zero),
        Given::Left,
        e,
    )
}

/// Rewrites `x ^ x` to 0.
pub fn rule_15(alloc: Global, bits: &[u8], e: &Expr) -> Result<Option<Expr>, AllocError>
    ensures { MeetsRuleUnder 15 bits.now e.now result }
{
    rewritten(alloc, BinOp::Xor, Asked::Same, Given::Nothing, e)
}

/// Rewrites `x << 0` to x.
pub fn rule_16(alloc: Global, bits: &[u8], e: &Expr) -> Result<Option<Expr>, AllocError>
    ensures { MeetsRuleUnder 16 bits.now e.now result }
{
    rewritten(
        alloc,
        BinOp::Shl,
        Asked::RightIs(Number::Zero),
        Given::Left,
        e,
    )
}

/// Rewrites `x >> 0` without sign to x.
pub fn rule_17(alloc: Global, bits: &[u8], e: &Expr) -> Result<Option<Expr>, AllocError>
    ensures { MeetsRuleUnder 17 bits.now e.now result }
{
    rewritten(
        alloc,
        BinOp::Shr,
        Asked::RightIs(Number::Zero),
        Given::Left,
        e,
    )
}

/// Rewrites `x >> 0` by sign to x.
pub fn rule_18(alloc: Global, bits: &[u8], e: &Expr) -> Result<Option<Expr>, AllocError>
    ensures { MeetsRuleUnder 18 bits.now e.now result }
{
    rewritten(
        alloc,
        BinOp::Sar,
        Asked::RightIs(Number::Zero),
        Given::Left,
        e,
    )
}
