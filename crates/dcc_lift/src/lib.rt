//! From the machine's instructions to the inner language.
//!
//! The operands of each procedure's instructions stand in halves of registers, in the cells of its frame or in memory;
//! each instruction becomes statements over these places. Instructions that follow each other without a branch become
//! one block, and the blocks of a procedure a graph.
#![tactic(auto)]

mod access;
mod call;
mod edges;
mod flow;
mod instruction;
pub mod laws;
mod operand;
mod outline;
mod passed;
mod procedure;
mod program;

pub use program::lift;
