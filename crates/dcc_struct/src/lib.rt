//! The structured plan of a graph: loops, tests, choices and jumps in place of jumps alone.
#![tactic(auto)]

mod builder;
mod edges;
mod exits;
mod layout;
mod loops;
mod table;
mod tree;
mod walk;

pub use builder::structured;
