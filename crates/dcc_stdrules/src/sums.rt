//! The rules on sums of sums with constants: 30 to 32.

ghost use Rattle.std.specs.Prelude.{◌≡◌, IfOk, option_map};
ghost use Rattle.dcc_ir.specs.Views.{expr_of};
ghost use Rattle.dcc_rules.specs.Rules.{MeetsRuleUnder};
ghost use Rattle.dcc_stdrules.specs.Sums.{AnswersSums};

use crate::constants::number_in;
use crate::copy::copied;
use crate::moved::Sums;
use crate::same::same_binary;
use dcc_ir::Expr;
use std::alloc::{AllocError, Global};

/// The sum with one constant, where the expression is such a sum of a sum.
pub fn summed(alloc: Global, sums: Sums, e: &Expr) -> Result<Option<Expr>, AllocError>
    ensures { IfOk result (λ answer. AnswersSums sums (expr_of e.now) (option_map expr_of answer)) }
{
    let Expr::Bin(outer, width, left, right) = e else {
        return Ok(None);
    };
    let left: &Expr = left;
    let Expr::Bin(inner, inner_width, x, number) = left else {
        return Ok(None);
    };
    if !same_binary(*outer, sums.outer()) || !same_binary(*inner, sums.inner()) {
        return Ok(None);
    }
    if *width != *inner_width {
        return Ok(None);
    }
    let Some(c) = number_in(*width, number) else {
        return Ok(None);
    };
    let Some(d) = number_in(*width, right) else {
        return Ok(None);
    };
    let moved = sums.moved(*width, c, d);
    let x = copied(alloc, x)?;
    let number = Expr::Const(*width, moved.number);
    Ok(Some(Expr::binary(alloc, moved.operator, *width, x, number)?))
}

/// Rewrites `(x + c) + d` to x plus one constant.
pub fn rule_30(alloc: Global, bits: &[u8], e: &Expr) -> Result<Option<Expr>, AllocError>
    ensures { MeetsRuleUnder 30 bits.now e.now result }
{
    summed(alloc, Sums::Added, e)
}

/// Rewrites `(x - c) - d` to x minus one constant.
pub fn rule_31(alloc: Global, bits: &[u8], e: &Expr) -> Result<Option<Expr>, AllocError>
    ensures { MeetsRuleUnder 31 bits.now e.now result }
{
    summed(alloc, Sums::Subtracted, e)
}

/// Rewrites `(x + c) - d` to x plus or minus one constant.
pub fn rule_32(alloc: Global, bits: &[u8], e: &Expr) -> Result<Option<Expr>, AllocError>
    ensures { MeetsRuleUnder 32 bits.now e.now result }
{
    summed(alloc, Sums::Mixed, e)
}
