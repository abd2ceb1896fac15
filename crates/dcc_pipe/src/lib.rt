//! From an executable to its C text.
#![tactic(auto)]

mod allowed;
mod analysis;
mod control;
mod decompilation;
mod finishing;
pub mod laws;
mod no_text;
mod passes;
mod preparation;
mod tidying;
mod unit;

pub use analysis::analyse;
pub use decompilation::decompile;
pub use no_text::NoText;
pub use preparation::prepared;
