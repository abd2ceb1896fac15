//! The rules on the opposite of a comparison, and on an exclusive or that undoes another: 41 and 44 to 47.

ghost use Rattle.std.specs.Prelude.{◌≡◌, is_some, unwrap_or, option_map};
ghost use Rattle.dcc_ir.specs.Views.{expr_of};
ghost use Rattle.dcc_rules.specs.Rules.{MeetsRuleUnder};
ghost use Rattle.dcc_stdrules.specs.Rewriting.{Answers};
ghost use Rattle.dcc_morerules.specs.Further.{shared, is_opposite, turned, without, xor_twice};

use dcc_ir::{BinOp, Expr, UnOp};
use dcc_stdrules::copy::copied;
use dcc_stdrules::same::{same_binary, same_expr, same_unary};
use std::alloc::{AllocError, Global};

// What is left of an exclusive or without the expression, where it is one of its operands.
fn without<'a>(x: &Expr, other: &'a Expr) -> Option<&'a Expr>
    ensures { option_map shared result ≡ without (expr_of x.now) (expr_of other.now) }
{
    let Expr::Bin(operator, _, left, right) = other else {
        return None;
    };
    if !same_binary(*operator, BinOp::Xor) {
        return None;
    }
    if same_expr(left, x) {
        return Some(right);
    }
    if same_expr(right, x) {
        return Some(left);
    }
    None
}

// What is left of an exclusive or of an expression and an exclusive or with it.
fn undone(alloc: Global, e: &Expr) -> Result<Option<Expr>, AllocError>
    ensures { Answers result (is_some (xor_twice (expr_of e.now))) (unwrap_or (xor_twice (expr_of e.now)) (expr_of e.now)) }
{
    let Expr::Bin(operator, _, left, right) = e else {
        return Ok(None);
    };
    if !same_binary(*operator, BinOp::Xor) {
        return Ok(None);
    }
    if let Some(rest) = without(left, right) {
        return Ok(Some(copied(alloc, rest)?));
    }
    if let Some(rest) = without(right, left) {
        return Ok(Some(copied(alloc, rest)?));
    }
    Ok(None)
}

/// Rewrites `x ^ (y ^ x)` and its mirrors to y.
pub fn rule_41(alloc: Global, bits: &[u8], e: &Expr) -> Result<Option<Expr>, AllocError>
    ensures { MeetsRuleUnder 41 bits.now e.now result }
{
    undone(alloc, e)
}

// The compared expressions, turned, under the opposite operator.
fn opposite(
    alloc: Global,
    operator: BinOp,
    opposite: BinOp,
    e: &Expr,
) -> Result<Option<Expr>, AllocError>
    ensures { Answers result (is_opposite operator (expr_of e.now)) (turned opposite (expr_of e.now)) }
{
    let Expr::Un(not, bits, test) = e else {
        return Ok(None);
    };
    let test: &Expr = test;
    let Expr::Bin(found, width, left, right) = test else {
        return Ok(None);
    };
    if !same_unary(*not, UnOp::Not) || *bits != 1 || !same_binary(*found, operator) {
        return Ok(None);
    }
    let below = copied(alloc, right)?;
    let above = copied(alloc, left)?;
    Ok(Some(Expr::binary(alloc, opposite, *width, below, above)?))
}

/// Rewrites the opposite of x < y, signed, to y <= x.
pub fn rule_44(alloc: Global, bits: &[u8], e: &Expr) -> Result<Option<Expr>, AllocError>
    ensures { MeetsRuleUnder 44 bits.now e.now result }
{
    opposite(alloc, BinOp::LtS, BinOp::LeS, e)
}

/// Rewrites the opposite of x < y, unsigned, to y <= x.
pub fn rule_45(alloc: Global, bits: &[u8], e: &Expr) -> Result<Option<Expr>, AllocError>
    ensures { MeetsRuleUnder 45 bits.now e.now result }
{
    opposite(alloc, BinOp::LtU, BinOp::LeU, e)
}

/// Rewrites the opposite of x <= y, signed, to y < x.
pub fn rule_46(alloc: Global, bits: &[u8], e: &Expr) -> Result<Option<Expr>, AllocError>
    ensures { MeetsRuleUnder 46 bits.now e.now result }
{
    opposite(alloc, BinOp::LeS, BinOp::LtS, e)
}

/// Rewrites the opposite of x <= y, unsigned, to y < x.
pub fn rule_47(alloc: Global, bits: &[u8], e: &Expr) -> Result<Option<Expr>, AllocError>
    ensures { MeetsRuleUnder 47 bits.now e.now result }
{
    opposite(alloc, BinOp::LeU, BinOp::LtU, e)
}
