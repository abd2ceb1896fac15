//! The parser of the dialect: from the bytes of a text to its unit, or to the first offence in it.
#![tactic(auto)]

mod fault;
pub mod laws;
mod parser;
mod strip;
mod strip_text;

pub use dcc_reader::ParseKind;
pub use fault::ParseFault;
pub use parser::parse;
