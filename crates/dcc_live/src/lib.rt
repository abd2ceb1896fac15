//! Which locations are live at the ends of blocks, and assignments that nothing needs.
//!
//! Both are solved backwards over the blocks of a graph (A. V. Aho, R. Sethi, J. D. Ullman, Compilers, 1986, 10.6).
//! What is needed is liveness by demand: what an assignment reads counts only where its own location is needed
//! (C. Cifuentes, Reverse Compilation Techniques, 1994, 5.4).
#![tactic(auto)]

mod dead;
pub mod laws;
mod living;
mod needed;
mod places;
mod rows;
mod start;

pub use dead::drop_dead;
pub use living::live;
pub use start::live_at_start;
