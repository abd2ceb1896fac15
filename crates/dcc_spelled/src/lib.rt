//! How operations are spelled in assembler's words.
#![tactic(auto)]

mod hex;
mod spelling;

pub use hex::{push_byte, push_bytes, push_word};
pub use spelling::{alu_name, branch_name, plain_name, push_spelling, shift_name, unary_name};
