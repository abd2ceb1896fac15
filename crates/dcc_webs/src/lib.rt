//! Webs: the definitions of a location that share reads, and a temporary for each.
//!
//! Numbers are given to the webs of each block by themselves, from its end to its begin; at each edge the numbers that
//! stand for one location are joined (S. S. Muchnick, Advanced Compiler Design and Implementation, 1997, 16.3.3).
#![tactic(auto)]

mod classes;
mod names;
mod renaming;
mod splitting;
mod walk;

pub use splitting::split;
