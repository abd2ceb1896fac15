//! What passes together between procedures is one value.
#![tactic(auto)]

pub mod laws;
mod packing;
mod program;

pub use program::pack;
