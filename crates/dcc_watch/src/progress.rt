//! Where a run stands.

use crate::judge::Foul;

/// Where a run stands.
#[derive(Clone, Copy)]
pub(crate) enum Progress {
    /// The run is at its first instruction.
    AtStart,
    /// The run is past its first instruction, and not yet past the prelude.
    InPrelude,
    /// The run is in procedures.
    InProcedures,
    /// The run was stopped at a step that is foul.
    Stopped(Foul),
}
