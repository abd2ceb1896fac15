//! A run of an executable beside a run of a text: which lines wrote and took what which addresses wrote and took.
#![tactic(auto)]

mod comparing;
mod event;
pub mod laws;
mod machine_side;
pub mod report;
mod tally;
mod telling;
mod text_side;

pub use comparing::compare;
pub use report::{End, Pair, Report, Settings};
pub use telling::lines;
