//! Laws of a program's runs, for every processor, image and input. The functions do nothing: their contracts are proved
//! for all.

ghost use Rattle.dcc_prog.specs.RunLaws.{KnownAhIsHeld, PreparedUpperIsHeld};
ghost use Rattle.dcc_prog.specs.CleanLaws.{FrontsOfCleanRunsAreClean, WhatUsesNoStackIsClean, SpIsAsTold};
ghost use Rattle.dcc_prog.specs.CleanLaws.{StoredBytesAreMarked};
ghost use Rattle.dcc_prog.specs.WatchedAlike.{ProgramsWatchAlike};

/// In every run along a trail AH holds what the trail tells of it.
pub fn known_ah_is_held()
    ensures { KnownAhIsHeld }
{}

/// In every run along a trail the upper half of what a division divides is 0, or repeats the sign of the lower one,
/// where it is prepared.
pub fn prepared_upper_is_held()
    ensures { PreparedUpperIsHeld }
{}

/// A front of a clean run is clean.
pub fn fronts_of_clean_runs_are_clean()
    ensures { FrontsOfCleanRunsAreClean }
{}

/// A step that touches no byte of the stack, is no CALL or RET and leaves SP in its bounds is clean, and leaves the
/// frames and, where SP doesn't rise or nothing is marked, the marks. So a program without stack use is clean while SP
/// keeps its bounds.
pub fn what_uses_no_stack_is_clean()
    ensures { WhatUsesNoStackIsClean }
{}

/// After an operation that may stand in a frame, SP is what the definition of low steps tells, modulo 65,536.
pub fn sp_is_as_told()
    ensures { SpIsAsTold }
{}

/// In every run, as long as it isn't stopped, just the bytes are marked that its steps have stored since SP last left
/// them behind.
pub fn stored_bytes_are_marked()
    ensures { StoredBytesAreMarked }
{}

/// Programs of one image watch its runs alike: a run that one of them finds clean is clean.
pub fn programs_watch_alike()
    ensures { ProgramsWatchAlike }
{}
