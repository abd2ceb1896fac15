//! A program of the 8086 or the 80186, and what the analyses find in it: layout, procedures, stack heights, frames.
#![tactic(auto)]

pub mod frame;
pub mod laws;
pub mod procedure;
pub mod refusal;
pub mod watch;

pub use frame::{Cell, Cells, Exposed, Frame, Heights, Program};
pub use procedure::{Layout, Node, Proc};
pub use refusal::{ConstructKind, FrameFault, LimitName, Refusal};
pub use watch::FoulKind;
