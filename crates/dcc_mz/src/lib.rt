//! The loader: from the bytes of an MZ executable, the .EXE file of MS-DOS, to its load image.
#![tactic(auto)]

mod checks;
pub mod fault;
mod header;
pub mod laws;
pub mod loader;
mod relocation;

pub use fault::MzFault;
pub use loader::load;
