//! Reading a text piece by piece, as far as the grammar and the limits of depth allow.
#![tactic(auto)]

mod arm;
mod call;
mod expression;
mod function;
mod short;
mod statement;
mod text;

use dcc_reader::PartialStmt;
use std::alloc::AllocError;
pub use text::{Reading, read};

/// What is read of a text; an error where memory runs out.
pub type Got<T> = Result<T, AllocError>;

/// What is read of a statement; an error where memory runs out.
pub(crate) type GotStmt<'a> = Got<PartialStmt<'a>>;
