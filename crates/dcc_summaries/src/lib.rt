//! Which locations are wanted before the points of the procedures of a program of the inner language.
//!
//! What is wanted is followed backwards, one location at one point at a time: within a graph, into the graphs that it
//! calls, and to the calls and the returns of its own.
#![tactic(auto)]

mod backwards;
mod demand;
mod follow;
mod pending;
mod points;
mod summaries;
mod table;
mod ways;

pub use backwards::wanted;
pub use points::Point;
pub use summaries::{SumsFault, sums};
pub use table::Wants;
