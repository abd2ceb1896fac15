//! The variables and functions of a text: names, the array of the frame's bytes, and the head of each function.
#![tactic(auto)]

mod addresses;
mod beginning;
mod head;
pub mod laws;
mod variables;

pub use beginning::openings;
pub use head::{Head, function_name, result_type};
pub use variables::Variables;
