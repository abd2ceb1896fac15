//! The text of expressions and statements of the inner language.
#![tactic(auto)]

pub mod constant;
pub mod expression;
pub mod hex;
pub mod laws;
pub mod nodes;
pub mod operator;
pub mod spells;
pub mod statement;
pub mod variable;
pub mod way;

pub use spells::{NamedAddress, Spells};
pub use way::Way;
