//! More rules that make expressions simpler, numbered above 40.
#![tactic(auto)]

pub mod arithmetic;
pub mod opposites;
pub mod tests;
pub mod zeros;

pub use arithmetic::{rule_57, rule_58, rule_59, rule_65, rule_67, rule_68};
pub use opposites::{rule_41, rule_44, rule_45, rule_46, rule_47};
pub use tests::{rule_42, rule_43, rule_48, rule_60, rule_61, rule_62};
pub use zeros::rule_54;
