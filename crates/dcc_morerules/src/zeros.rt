//! The rule on 0 beside an expression: 54.

ghost use Rattle.dcc_ir.specs.Views.{expr_of};
ghost use Rattle.dcc_rules.specs.Rules.{MeetsRuleUnder};
ghost use Rattle.dcc_stdrules.specs.Rewriting.{Answers};
ghost use Rattle.dcc_morerules.specs.Further.{is_below_zero, at_double_width};

use dcc_ir::Expr;
use dcc_stdrules::copy::copied;
use std::alloc::{AllocError, Global};

// The expression of a byte or a word that stands below 0, at its double width.
fn widened(alloc: Global, e: &Expr) -> Result<Option<Expr>, AllocError>
    ensures { Answers result (is_below_zero (expr_of e.now)) (at_double_width (expr_of e.now)) }
{
    let Expr::Join(high, low) = e else {
        return Ok(None);
    };
    let high: &Expr = high;
    let Expr::Const(width, number) = high else {
        return Ok(None);
    };
    if *number != 0 || (*width != 8 && *width != 16) {
        return Ok(None);
    }
    let low = copied(alloc, low)?;
    Ok(Some(Expr::widen(alloc, false, *width + *width, low)?))
}

/// Rewrites 0 beside x to x extended by zeros.
pub fn rule_54(alloc: Global, bits: &[u8], e: &Expr) -> Result<Option<Expr>, AllocError>
    ensures { MeetsRuleUnder 54 bits.now e.now result }
{
    widened(alloc, e)
}
