//! Laws of the machine's stack in clean runs. The functions do nothing: their contracts are proved for all.

ghost use Rattle.dcc_stack.specs.Accepted.{AcceptedProgramsAreInForm};
ghost use Rattle.dcc_stack.specs.Apart.{CleanStepsWriteApart};
ghost use Rattle.dcc_stack.specs.Laws.{CallsHaveRoom, CleanStepsStand, FramesAreFew, FramesStand};
ghost use Rattle.dcc_stack.specs.SlotLaws.{SlotsAreCarried};
ghost use Rattle.dcc_stack.specs.Tables.{RunsFollowTrails};

/// At each node of an accepted program one height is told, the instruction uses SP and BP in one of the forms of
/// frames, and it reaches bytes of its own frame alone.
pub fn accepted_programs_are_in_form()
    ensures { AcceptedProgramsAreInForm }
{}

/// In every run along a trail a jump through a table goes to one of the targets that the trail tells, and each other
/// instruction but CALL and RET to a successor of the trail.
pub fn runs_follow_trails()
    ensures { RunsFollowTrails }
{}

/// A clean step writes no byte of the code, of a return address or of a saved BP.
pub fn clean_steps_write_apart()
    ensures { CleanStepsWriteApart }
{}

/// A clean step of an accepted program that doesn't end the run leads from a stack that stands to one that does.
pub fn clean_steps_stand()
    ensures { CleanStepsStand }
{}

/// In every clean run of an accepted program the stack is what the frames of its procedures make of it.
pub fn frames_stand()
    ensures { FramesStand }
{}

/// In every clean run of an accepted program no more frames live at once than return addresses fit the stack, and that
/// of the entry procedure.
pub fn frames_are_few()
    ensures { FramesAreFew }
{}

/// Where a CALL is clean there is room for one more frame.
pub fn calls_have_room()
    ensures { CallsHaveRoom }
{}

/// A second run, whose frames have variables in place of the stack's bytes, goes on holding the machine's stack:
/// through each kind of access of memory and of frames, and where frames begin and end.
pub fn slots_are_carried()
    ensures { SlotsAreCarried }
{}
