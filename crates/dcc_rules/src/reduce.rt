//! Expressions made simpler by rules.

ghost use Rattle.std.specs.Prelude.{◌≡◌, ℕ, List, true, IfOk, option_map};
ghost use Rattle.dcc_ir.specs.Views.{expr_of};
ghost use Rattle.dcc_rules.specs.Simpler.{IsReduced};
ghost use Rattle.dcc_rules.specs.Forms.{is_leaf, is_normal_under, has_normal_parts};
ghost use Rattle.dcc_rules.specs.Rules.{ListAnswers};
ghost use Rattle.dcc_rules.specs.Views.{numbers_of};

use crate::list::RuleList;
use dcc_ir::Expr;
use std::alloc::{AllocError, Global};

/// What answers for expressions as a list of rules does.
pub trait Answers {
    // the numbers of the rules
    ghost ids: { Self → List ℕ };

    /// A simpler expression where the temporaries have these bits, or none where the expression has the form of no rule.
    fn answer(&self, alloc: Global, bits: &[u8], e: &Expr) -> Result<Option<Expr>, AllocError>
        ensures { IfOk result (λ answer.
            ListAnswers (ids self.now) bits.now (expr_of e.now) (option_map expr_of answer)) };
}

// Whether the expression has no part but itself.
fn is_leaf(e: &Expr) -> bool
    ensures { result ≡ is_leaf (expr_of e.now) }
{
    match e {
        Expr::Const(..) | Expr::Get(_) | Expr::Address(_) => true,
        Expr::Load(..)
        | Expr::Un(..)
        | Expr::Bin(..)
        | Expr::Widen(..)
        | Expr::Part(..)
        | Expr::Join(..)
        | Expr::Choose(..) => false,
    }
}

// The expression, whose parts are simple, made simpler until no rule has a place.
#[cycle(simplified)]
fn simplified<A: Answers>(
    alloc: Global,
    answers: &A,
    bits: &[u8],
    e: Expr,
) -> Result<Expr, AllocError>
    ensures reduced { IfOk result (λ o. IsReduced bits.now (expr_of e) (expr_of o)) }
    ensures normal { IfOk result (λ o. is_normal_under (A.ids answers.now) bits.now (expr_of o) ≡ true) }
{
    if is_leaf(&e) {
        // An answer has fewer nodes than what it is for, and so no rule answers for a single node.
        return Ok(e);
    }
    let e = parts_simplified(alloc, answers, bits, e)?;
    match answers.answer(alloc, bits, &e)? {
        None => Ok(e),
        Some(simpler) => simplified(alloc, answers, bits, simpler),
    }
}

// The expression with its parts made simpler.
#[cycle(simplified)]
fn parts_simplified<A: Answers>(
    alloc: Global,
    answers: &A,
    bits: &[u8],
    e: Expr,
) -> Result<Expr, AllocError>
    ensures reduced { IfOk result (λ o. IsReduced bits.now (expr_of e) (expr_of o)) }
    ensures parts { IfOk result (λ o. has_normal_parts (A.ids answers.now) bits.now (expr_of o) ≡ true) }
{
    match e {
        Expr::Const(..) | Expr::Get(_) | Expr::Address(_) => Ok(e),
        Expr::Load(width, address) => {
            let address = simplified(alloc, answers, bits, Box::into_inner(address))?;
            Expr::load(alloc, width, address)
        }
        Expr::Un(operator, width, operand) => {
            let operand = simplified(alloc, answers, bits, Box::into_inner(operand))?;
            Expr::unary(alloc, operator, width, operand)
        }
        Expr::Bin(operator, width, left, right) => {
            let left = simplified(alloc, answers, bits, Box::into_inner(left))?;
            let right = simplified(alloc, answers, bits, Box::into_inner(right))?;
            Expr::binary(alloc, operator, width, left, right)
        }
        Expr::Widen(by_sign, width, operand) => {
            let operand = simplified(alloc, answers, bits, Box::into_inner(operand))?;
            Expr::widen(alloc, by_sign, width, operand)
        }
        Expr::Part(width, first, operand) => {
            let operand = simplified(alloc, answers, bits, Box::into_inner(operand))?;
            Expr::part(alloc, width, first, operand)
        }
        Expr::Join(high, low) => {
            let high = simplified(alloc, answers, bits, Box::into_inner(high))?;
            let low = simplified(alloc, answers, bits, Box::into_inner(low))?;
            Expr::join(alloc, high, low)
        }
        Expr::Choose(test, one, other) => {
            let test = simplified(alloc, answers, bits, Box::into_inner(test))?;
            let one = simplified(alloc, answers, bits, Box::into_inner(one))?;
            let other = simplified(alloc, answers, bits, Box::into_inner(other))?;
            Expr::choose(alloc, test, one, other)
        }
    }
}

/// The expression made simpler by the rules, where the temporaries have these bits, until no part of it has the form of
/// one of them.
pub fn simplify(alloc: Global, bits: &[u8], e: Expr, rules: &RuleList) -> Result<Expr, AllocError>
    ensures reduced { IfOk result (λ o. IsReduced bits.now (expr_of e) (expr_of o)) }
    ensures normal { IfOk result (λ o. is_normal_under (numbers_of rules.now) bits.now (expr_of o) ≡ true) }
{
    simplified(alloc, rules, bits, e)
}
