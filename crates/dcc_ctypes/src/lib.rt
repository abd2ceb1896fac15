//! The types of names and of operators.
#![tactic(auto)]

pub mod names;
pub mod operators;

pub use names::Declared;
