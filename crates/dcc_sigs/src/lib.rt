//! Signatures of library procedures: read from a file, and the procedures of a program that they tell.
#![tactic(auto)]

pub mod laws;
mod line;
mod matching;
mod read;
pub mod recognised;
pub mod signature;

pub use read::read_sigs;
pub use recognised::{Recognised, recognise};
pub use signature::{Sig, SigFault, SigKind};
