//! The control of a text: plans of items over the blocks of a graph, when they are valid, and the plan with jumps.
#![tactic(auto)]

pub mod complete;
pub mod goto_plan;
pub mod item;
pub mod laws;
pub mod told;

pub use item::{Arm, Item};
