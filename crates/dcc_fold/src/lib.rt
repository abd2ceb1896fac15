//! Temporaries whose value may stand in the place of their one read: whether one is left in a graph, and which.
#![tactic(auto)]

mod alone;
mod chains;
mod depth;
mod known;
mod search;

pub use search::joinable;
