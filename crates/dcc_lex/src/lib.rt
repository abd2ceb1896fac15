//! From the bytes of a text to its pieces: tokens, and bytes that are none.
#![tactic(auto)]

mod bytes;
mod cut;
pub mod left;
mod lexer;
mod mark;
mod number;
mod pragma;
mod text;
pub mod token;
mod word;

pub use left::Pieces;
pub use lexer::{line_feeds, pieces};
pub use pragma::after_version;
pub use text::same_text;
pub use token::{Head, Keyword, Mark, Name, Piece, Suffix, Token};
