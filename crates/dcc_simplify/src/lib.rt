//! Each expression of a graph made simpler by stored rules.
#![tactic(auto)]

mod graph;
mod statement;

pub use graph::simplified;
