//! The flow of data in a graph: the orders of its blocks, what they read and write, and places that are used before
//! they are written.
//!
//! Blocks are named by their places in the graph; sets of places are lists of bits (A. V. Aho, R. Sethi, J. D. Ullman,
//! Compilers, 1986, 10.5, 10.6 and 10.9).
#![tactic(auto)]

mod access;
mod bits;
mod edges;
pub mod laws;
mod locations;
mod marks;
mod mentions;
mod places;
mod search;
mod steps;
mod uses;

pub use access::{Access, BlockAccess, accesses};
pub use bits::Bits;
pub use edges::{preds, successors};
pub use locations::Locations;
pub use marks::Marks;
pub use mentions::{all_mentioned, mentioned};
pub use places::Places;
pub use search::order;
pub use steps::Steps;
pub use uses::{Flow, Work, solve};
