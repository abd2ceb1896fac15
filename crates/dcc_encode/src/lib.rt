//! The encodings of an operation at an offset, and the standard one among them.
#![tactic(auto)]

mod encoding;
pub mod laws;
mod shape;

pub use encoding::{Bytes, is_encoding, standard};
