//! Which halves and flags each procedure of a program of the inner language changes.
//!
//! One location is taken at a time. Within a graph states flow from block to block until nothing is new, and graphs
//! take their turns until no further one changes the location. What waits for a turn has one first: the blocks after a
//! block where something was new, and the callers of a procedure that turned out to change the location.
#![tactic(auto)]

mod calls;
mod graph;
mod program;
mod state;
mod waiting;

pub use program::{changed, changes};
pub use state::{is_among, passes, writes};
