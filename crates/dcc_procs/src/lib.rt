//! The procedures of a program: their instructions and where each goes on.
#![tactic(auto)]

mod accepted;
mod code;
mod collect;
mod division;
mod entries;
mod form;
mod frame;
mod known;
pub mod laws;
mod onward;
pub mod plain;
mod procedures;
mod search;
mod table;

pub use procedures::find;
