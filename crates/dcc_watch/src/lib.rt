//! The machine with each step's cleanness tested before the step is made.
#![tactic(auto)]

mod access;
mod accesses;
mod frames;
mod judge;
mod marks;
mod places;
mod progress;
mod shape;
mod sp;
mod stack;
mod watch;
mod watched;

pub use dcc_prog::FoulKind;
pub use watch::Watch;
pub use watched::Watched;
