//! The global variables of a text: scalars and arrays by the accesses of the program at fixed offsets, and the parts of
//! the image between them.
#![tactic(auto)]

mod borders;
mod initial;
mod laws;
mod marks;
mod operands;
mod pieces;
mod runs;
mod source;
mod texts;
mod variables;

pub use laws::{
    first_memories_are_equal, globals_are_allowed, globals_are_writable, globals_have_names,
};
pub use variables::globals;
