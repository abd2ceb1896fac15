//! Stored rules that make expressions of the inner language simpler, and what simplifies by a list of them.
#![tactic(auto)]

pub mod laws;
pub mod list;
pub mod reduce;
pub mod rule;

pub use list::RuleList;
pub use reduce::simplify;
pub use rule::{Apply, Rule};
