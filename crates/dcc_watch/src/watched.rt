//! How a step or a run of a watched machine came out.

use dcc_prog::FoulKind;
use dcc_step::Stepped;

/// How a step or a run came out.
#[derive(Clone, Copy, PartialEq, Eq, Debug)]
pub enum Watched {
    /// No step is foul, and the machine's steps came out as told.
    Clean(Stepped),
    /// The next step is foul, and was not made.
    Foul {
        /// The offset of the foul step's instruction in the code segment.
        at: u16,
        /// The first byte that makes the step foul, by its offset in the data segment.
        address: u16,
        /// In which way the step is foul.
        kind: FoulKind,
    },
}
