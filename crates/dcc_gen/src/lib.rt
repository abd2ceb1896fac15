//! Programs made at random: from a seed and a size, an MZ executable for the 8086.
#![tactic(auto)]

mod code;
mod draws;
mod file;
pub mod laws;
pub mod piece;
pub mod program;

pub use program::make;
