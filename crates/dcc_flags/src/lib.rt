//! The elimination of flags: where one definition of a flag reaches a read, the read becomes what the definition
//! computed (A. V. Aho, R. Sethi, J. D. Ullman, Compilers, 1986, 10.5, on reaching definitions).
#![tactic(auto)]

mod choices;
mod fold;
mod kept;
pub mod laws;
mod reaching;
mod sources;
mod uses;
mod writer;

pub use fold::fold_flags;
