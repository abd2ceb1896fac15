//! Loads as parts of expressions.
//!
//! A statement that loads has nothing but an address for the passes to work on; an assignment of a load has an
//! expression, which may be simplified and put in the place of a read like any other.
#![tactic(auto)]

mod sets;

pub use sets::loads_as_sets;
