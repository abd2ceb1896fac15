//! The heights of the stack in each procedure of a program.
#![tactic(auto)]

mod form;
mod moves;
mod ordered;
mod procedures;
mod removed;
mod search;

pub use procedures::heights;
