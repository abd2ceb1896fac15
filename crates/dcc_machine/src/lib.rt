//! The machine, an 8086 or an 80186: executables, their instructions, and what these do to the machine's state.
#![tactic(auto)]

pub mod cpu;
pub mod image;
pub mod instr;
pub mod laws;
pub mod segment;
pub mod sp_and_bp;

pub use cpu::Cpu;
pub use image::{Image, LOAD_SEGMENT, PREFIX_SEGMENT};
pub use instr::{Alu, Cond, Count, Ea, Instr, Op, Operand, Plain, Shift, Unary};
pub use segment::{CS, DS, ES, SS};
