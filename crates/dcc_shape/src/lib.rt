//! Whether the texts of a program's procedures have the shape that these ask for.
#![tactic(auto)]

mod asked;
mod carried;
mod counts;
mod edges;
mod jumps;
mod labels;
mod loops;
mod places;
mod points;
mod seen;
mod shape;
mod stmts;
mod tally;

pub use shape::has_shape;
