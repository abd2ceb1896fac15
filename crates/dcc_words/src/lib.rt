//! Words in the place of pairs of bytes.
//!
//! The machine's instructions work on words, and the lifted graph on their halves. Two temporaries of 8 bits that are
//! used as one word become one temporary of 16 bits, so that a text has one variable where it had two and a shift.
#![tactic(auto)]

mod choice;
mod fitting;
mod graph;
mod rewriting;
mod roles;
mod seeds;

pub use graph::words;
