//! The program in which just what is wanted passes between its procedures.
#![tactic(auto)]

mod localised;
mod staying;
mod trim;

pub use localised::localise;
