//! The listing of a program's image in assembler's words.
#![tactic(auto)]

pub mod laws;
mod lister;
mod marks;
mod people;

pub use lister::{listing, push_head};
