//! The machine with the 8086 or the 80186 on flat memory, one instruction a step, with the five DOS calls.
#![tactic(auto)]

mod alu;
mod cache;
mod dos;
mod ending;
mod flow;
mod form;
mod machine;
mod marks;
mod operand;
mod stack;
mod step;
mod string;

pub use ending::{Ending, Stepped};
pub use machine::Machine;
