//! The text writer: a unit in its written form.
#![tactic(auto)]

mod block;
mod declaration;
mod expression;
mod numbering;
mod rows;
mod statement;
pub mod unit;

pub use numbering::number;
pub use unit::{PrintFault, print};
