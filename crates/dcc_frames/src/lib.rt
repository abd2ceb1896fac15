//! The frames of procedures: their arguments, their cells, and the bytes whose address may be computed.
#![tactic(auto)]

mod access;
mod arguments;
mod body;
mod bytes;
mod cell;
mod exposed;
mod frames;
mod joined;
mod memory;
mod pieces;
mod steps;

pub use frames::cells;
pub use memory::{is_direct, memory_operand, offset_in_frame};
