//! The assembler: from a listing to the bytes of its image.
#![tactic(auto)]

mod assembler;
pub mod fault;
mod known;
pub mod laws;
mod line;
mod step;

pub use assembler::assemble;
pub use fault::{ListFault, ListKind};
