//! Changes of the names of a text's global variables, functions, parameters and local variables: what they are, when
//! one is at fault, and laws of texts after them.
#![tactic(auto)]

mod fault;
pub mod laws;
mod new_name;

pub use fault::{NameFault, NameKind};
pub use new_name::NewName;
