//! A stored rule.

ghost use Rattle.std.specs.Prelude.{◌≡◌, ◌∷◌, [], IfOk, option_map};
ghost use Rattle.dcc_ir.specs.Views.{expr_of};
ghost use Rattle.dcc_rules.specs.Rules.{MeetsRuleUnder, ListAnswers};

use dcc_ir::Expr;
use std::alloc::{AllocError, Global};

/// What a rule answers for an expression, where the temporaries have these bits: a simpler expression with the same
/// value, or none.
pub type Apply = fn(Global, &[u8], &Expr) -> Result<Option<Expr>, AllocError>;

/// A rule and its number. One numbered 1 to 40 answers exactly where an expression has the form of that number.
#[derive(Drop)]
pub struct Rule {
    pub id: u8,
    pub apply: Apply,
    ghost callable: { Apply.IsAlwaysCallable apply },
    ghost meets: { (alloc : _) (bits : _) (e : _) (r : _) → Apply.post apply alloc bits e r
        → ∥ MeetsRuleUnder id bits.now e.now r ∥₁ },
}

impl Rule {
    /// A rule of that number.
    pub fn new(id: u8, apply: Apply) -> Rule
        requires callable { Apply.IsAlwaysCallable apply }
        requires meets { (alloc : _) (bits : _) (e : _) (r : _) → Apply.post apply alloc bits e r
            → ∥ MeetsRuleUnder id bits.now e.now r ∥₁ }
        ensures { result.id ≡ id }
    {
        Rule { id, apply }
    }

    /// What the rule answers for an expression, where the temporaries have these bits.
    pub fn answer(&self, alloc: Global, bits: &[u8], e: &Expr) -> Result<Option<Expr>, AllocError>
        ensures { IfOk result (λ answer.
            ListAnswers (self.now.id ∷ []) bits.now (expr_of e.now) (option_map expr_of answer)) }
    {
        (self.apply)(alloc, bits, e)
    }
}
