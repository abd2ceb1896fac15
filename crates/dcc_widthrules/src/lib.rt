//! Rules on parts, halves and widened expressions, which make expressions of the inner language simpler.
#![tactic(auto)]

pub mod halves;
pub mod parts;

pub use halves::{rule_53, rule_55, rule_56, rule_66};
pub use parts::{rule_50, rule_51, rule_52, rule_63, rule_64};
