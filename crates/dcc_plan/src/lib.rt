//! The texts of plans: that they run as the graphs do, with calls of functions and returns from them, and that they are
//! allowed.
#![tactic(auto)]

pub mod laws;
pub mod plan_text;
