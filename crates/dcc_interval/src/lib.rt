//! The intervals of a graph and its derived sequence (F. E. Allen, J. Cocke, A program data flow analysis procedure,
//! 1976).
//!
//! A graph is a list of the nodes that follow each node, and the node that it is entered at. Nodes that are not reached
//! from there take no part.
#![tactic(auto)]

mod collapse;
mod growth;
mod headers;
mod interval;
pub mod laws;
mod loops;
mod noted;
mod reach;
mod reduce;
mod regions;
mod sequence;

pub use growth::intervals;
pub use interval::{Interval, Sequence};
pub use loops::loop_headers;
pub use reduce::{Joining, Reduction, reduced};
pub use sequence::derived;
