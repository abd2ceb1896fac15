//! Whether a plan is one of a graph.
#![tactic(auto)]

pub mod labels;
pub mod point;
pub mod returns;
pub mod valid;

pub use returns::begins_returns;
pub use valid::{MOST_NESTED, is_structured};
