//! What everything that runs on an input and an output shares: keys, strings, faults, and what steps and runs leave.
#![tactic(auto)]

mod fault;
mod key;
mod string;

pub use fault::Fault;
pub use key::take_key;
pub use string::{put_string, string_length};
