//! Copies that let their source write: of a copy `W := T` the writer of T writes W, and the copy goes (coalescing;
//! G. J. Chaitin et al., Register Allocation via Coloring, 1981).
#![tactic(auto)]

mod chains;
mod choosing;
mod copies;
mod holders;
pub mod laws;
mod names;
mod testing;

pub use copies::settle_copies;
