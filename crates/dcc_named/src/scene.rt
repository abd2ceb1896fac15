//! What is known where an expression of a function stands, and how it is written by names there.

ghost use Rattle.dcc_named.specs.Views.{IsWriting};

use crate::expression::{arguments, by_names};
use dcc_c::{CExpr, Global_};
use dcc_rewrite::{Names, Writer};
use std::alloc::{AllocError, Global};
use std::collections::BTreeMap;

/// What is known where an expression of a function stands.
#[derive(Clone, Copy)]
pub struct Scene<'s, 'n> {
    /// What the names are declared as.
    pub names: Names<'s, 'n>,
    /// Where the global variables begin.
    pub places: &'s BTreeMap<u32, &'n Global_>,
}

impl Writer for Scene<'_, '_> {
    ghost writes_by = { IsWriting };

    fn test(&self, alloc: Global, e: &CExpr) -> Result<CExpr, AllocError> {
        by_names(alloc, self, e)
    }

    fn choice(&self, alloc: Global, e: &CExpr) -> Result<CExpr, AllocError> {
        by_names(alloc, self, e)
    }

    fn place(&self, alloc: Global, place: &CExpr) -> Result<CExpr, AllocError> {
        by_names(alloc, self, place)
    }

    fn value(&self, alloc: Global, place: &CExpr, e: &CExpr) -> Result<CExpr, AllocError> {
        by_names(alloc, self, e)
    }

    fn arguments(
        &self,
        alloc: Global,
        function: &str,
        es: &[CExpr],
    ) -> Result<Vec<CExpr>, AllocError> {
        arguments(alloc, self, function, es)
    }

    fn returned(&self, alloc: Global, e: &CExpr) -> Result<CExpr, AllocError> {
        by_names(alloc, self, e)
    }
}
