//! From a text to a program of numbered points: its statements in the order in which they run, and its variables at
//! their places.
#![tactic(auto)]

pub mod code;
pub mod emit;
mod frame;
pub mod placement;
pub mod prepare;
pub mod program;
pub mod start;
mod taken;
