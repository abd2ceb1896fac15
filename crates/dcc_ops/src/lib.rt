//! What the machine's instructions become in the inner language, one by one.
//!
//! Each instruction becomes statements over the halves of registers, the flags and eight temporaries, and one with two
//! successors a test.
#![tactic(auto)]

mod alu;
mod control;
mod division;
mod expression;
pub mod laws;
mod movement;
mod operand_place;
mod operation;
mod product;
mod shift;
mod sum;
mod writer;

pub use control::op_test;
pub use expression::{bit, byte, constant, returned_place, temporary_bits};
pub use operand_place::{Computed, OperandPlace, register_place};
pub use writer::Writer;
