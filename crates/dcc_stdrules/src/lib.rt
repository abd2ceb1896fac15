//! The standard rules, which make expressions of the inner language simpler.
#![tactic(auto)]

pub mod asked;
pub mod constants;
pub mod copy;
pub mod halves;
pub mod moved;
pub mod operands;
pub mod same;
pub mod sums;
pub mod values;

pub use constants::{
    rule_21, rule_22, rule_23, rule_24, rule_25, rule_26, rule_27, rule_28, rule_29, rule_33,
    rule_34,
};
pub use halves::{rule_19, rule_20, rule_35, rule_36, rule_37, rule_38, rule_39, rule_40};
pub use operands::{
    rule_1, rule_2, rule_3, rule_4, rule_5, rule_6, rule_7, rule_8, rule_9, rule_10, rule_11,
    rule_12, rule_13, rule_14, rule_15, rule_16, rule_17, rule_18,
};
pub use sums::{rule_30, rule_31, rule_32};
