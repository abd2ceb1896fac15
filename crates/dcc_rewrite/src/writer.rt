//! How the expressions of a function are written otherwise.

ghost use Rattle.std.specs.Prelude.{◌≡◌, IfOk, map};
ghost use Rattle.dcc_c.specs.Views.{expr_of};
ghost use Rattle.dcc_respell.specs.Writing.{Writing};

use dcc_c::CExpr;
use std::alloc::{AllocError, Global};

/// What writes each expression of a function otherwise. Want of memory is the only error.
pub trait Writer {
    /// Whether the expressions are written in a way.
    ghost writes_by: { Self → Writing → Type 0 };

    /// The test of an `if` or of a loop.
    fn test(&self, alloc: Global, e: &CExpr) -> Result<CExpr, AllocError>
        ensures { (w : Writing) → writes_by self.now w →
            IfOk result (λ after. expr_of after ≡ w.test (expr_of e.now)) };

    /// The value of a `switch`.
    fn choice(&self, alloc: Global, e: &CExpr) -> Result<CExpr, AllocError>
        ensures { (w : Writing) → writes_by self.now w →
            IfOk result (λ after. expr_of after ≡ w.choice (expr_of e.now)) };

    /// A place that takes a value.
    fn place(&self, alloc: Global, place: &CExpr) -> Result<CExpr, AllocError>
        ensures { (w : Writing) → writes_by self.now w →
            IfOk result (λ after. expr_of after ≡ w.place (expr_of place.now)) };

    /// What is assigned to a place.
    fn value(&self, alloc: Global, place: &CExpr, e: &CExpr) -> Result<CExpr, AllocError>
        ensures { (w : Writing) → writes_by self.now w →
            IfOk result (λ after. expr_of after ≡ w.value (expr_of place.now) (expr_of e.now)) };

    /// The arguments of the function with a name.
    fn arguments(
        &self,
        alloc: Global,
        function: &str,
        es: &[CExpr],
    ) -> Result<Vec<CExpr>, AllocError>
        ensures { (w : Writing) → writes_by self.now w →
            IfOk result (λ after. map expr_of after.items ≡ w.arguments function.now (map expr_of es.now)) };

    /// What is returned.
    fn returned(&self, alloc: Global, e: &CExpr) -> Result<CExpr, AllocError>
        ensures { (w : Writing) → writes_by self.now w →
            IfOk result (λ after. expr_of after ≡ w.returned (expr_of e.now)) };
}
