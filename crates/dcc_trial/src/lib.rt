//! Trials: a program made at random, its text, and the runs of both.
#![tactic(auto)]

pub mod found;
pub mod laws;
mod sides;
mod telling;
mod trying;

pub use found::{Ending, NoTrial, Side, Trial};
pub use telling::lines;
pub use trying::trial;
