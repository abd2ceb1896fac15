//! Spellings read back: from assembler's words to the operation that is spelled so.
#![tactic(auto)]

pub mod laws;
mod mnemonic;
mod reading;

pub use reading::{before, behind, byte_of, byte_value, digit_value, operation_in, word_value};
