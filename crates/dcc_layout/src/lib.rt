//! The layout of a program of the small memory model: what its prelude sets up.
#![tactic(auto)]

mod form;
pub mod laws;
mod prelude;
mod registers;
mod segments;

pub use segments::layout;
