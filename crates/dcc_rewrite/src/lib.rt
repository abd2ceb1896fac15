//! Texts whose expressions are written otherwise, each by where it stands.
#![tactic(auto)]

pub mod copies;
pub mod names;
pub mod types;
mod walk;
mod writer;

pub use copies::{copied, copied_globals};
pub use names::Names;
pub use walk::function_after;
pub use writer::Writer;
