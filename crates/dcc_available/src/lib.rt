//! Substitution by available assignments: reads of temporaries become what the temporaries hold (A. V. Aho, R. Sethi,
//! J. D. Ullman, Compilers, 1986, 10.5).
#![tactic(auto)]

mod expressions;
mod known;
mod reads;
mod rewriting;
mod substitution;
mod within;

pub use substitution::substitute;
