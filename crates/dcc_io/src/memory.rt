//! Files, input and output in memory, of which chosen calls fail.

mod calls;
pub mod shelf;
pub mod sink;
pub mod source;

pub use shelf::MemShelf;
pub use sink::MemSink;
pub use source::MemSource;
