//! The outside of the program: traits for files, input and output, objects in memory, and the real ones.
#![tactic(auto)]

pub mod memory;
pub mod outside;
pub mod system;

pub use memory::{MemShelf, MemSink, MemSource};
pub use outside::{Failed, Fetch, Fetched, Shelf, ShelfFault, Sink, Source, put_all};
pub use system::{DirShelf, StdSink, StdSource, Stream};
