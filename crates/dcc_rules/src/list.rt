//! Lists of rules.

ghost use Rattle.std.specs.Prelude.{◌≡◌, ◌∷◌, [], ◌++◌, length, MatchResult, IfOk, option_map};
ghost use Rattle.dcc_ir.specs.Views.{expr_of};
ghost use Rattle.dcc_rules.specs.Rules.{ListAnswers};
ghost use Rattle.dcc_rules.specs.Views.{rules_of, numbers_of};

use crate::reduce::Answers;
use crate::rule::Rule;
use dcc_ir::Expr;
use std::alloc::{AllocError, Global};

/// Rules, in the order in which they are tried.
#[derive(Drop)]
pub struct RuleList {
    rules: Vec<Rule>,
}

impl RuleList {
    /// A list without rules.
    pub fn new(alloc: Global) -> RuleList
        ensures { rules_of result ≡ [] }
    {
        RuleList {
            rules: Vec::new(alloc),
        }
    }

    /// Puts a rule at the end of the list. Where there is no memory for it, the list stays as it was.
    pub fn push(&mut self, rule: Rule) -> Result<(), AllocError>
        ensures { MatchResult result (λ _. rules_of self.new ≡ rules_of self.old ++ rule ∷ [])
            (λ _. rules_of self.new ≡ rules_of self.old) }
    {
        self.rules.push(rule)?;
        Ok(())
    }

    /// How many rules were pushed.
    pub fn len(&self) -> usize
        ensures { result ≡ length (rules_of self.now) }
    {
        self.rules.len()
    }
}

impl Answers for RuleList {
    ghost ids = { λ list. numbers_of list };

    fn answer(&self, alloc: Global, bits: &[u8], e: &Expr) -> Result<Option<Expr>, AllocError> {
        for rule in &self.rules {
            if let Some(simpler) = rule.answer(alloc, bits, e)? {
                return Ok(Some(simpler));
            }
        }
        Ok(None)
    }
}
