//! Laws of what passes leave of programs. Each function only states a law by its contract, and does nothing.

ghost use Rattle.dcc_pipe.specs.Prepared.{LiftedHasTheForm, WhatIsLeftIsPrepared};
ghost use Rattle.dcc_pipe.specs.Standing.{PreparedStands};

/// What the passes leave of each graph of a program of the form that is lifted, in which just what its summaries say
/// passes together, has what a text needs, and keeps the runs, the blocks and what passes.
pub fn what_is_left_is_prepared()
    ensures { WhatIsLeftIsPrepared }
{}

/// A lifted program has the form that is prepared.
pub fn lifted_has_the_form()
    ensures { LiftedHasTheForm }
{}

/// Each graph of a prepared program takes the argument words of its procedure's frame, in memory just where the frame
/// exposes a byte of them, and has as many local bytes in memory as the frame exposes.
pub fn prepared_stands()
    ensures { PreparedStands }
{}
