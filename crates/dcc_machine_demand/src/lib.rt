//! Laws of what the instructions of the machine's procedures do to halves of registers and to flags, of what these
//! procedures preserve, and of which programs are refused for what they take and give back. The functions do nothing:
//! their contracts are proved for all.
#![tactic(auto)]

ghost use Rattle.dcc_machine_demand.specs.Laws.{WhatIsLeftStays, WhatInstructionsMakeAlikeIsAlike};
ghost use Rattle.dcc_machine_demand.specs.Laws.{WhatIsPreservedIsHeld};
ghost use Rattle.dcc_machine_demand.specs.Refused.{OneProgramIsFound, AcceptedIsNotRefused};

/// What an instruction is told to leave, as its procedure sees it, its step leaves as it was.
pub fn what_is_left_stays()
    ensures { WhatIsLeftStays }
{}

/// Two states that agree in all of which an instruction makes a half or a flag agree in that half or flag after its
/// step.
pub fn what_instructions_make_alike_is_alike()
    ensures { WhatInstructionsMakeAlikeIsAlike }
{}

/// At each return of a procedure each place that it preserves holds what it held at the entry.
pub fn what_is_preserved_is_held()
    ensures { WhatIsPreservedIsHeld }
{}

/// The analyses find one program in an image.
pub fn one_program_is_found()
    ensures { OneProgramIsFound }
{}

/// A program that the analyses find is accepted where no construct stands in it, and nothing refuses one that is
/// accepted but want of memory.
pub fn accepted_is_not_refused()
    ensures { AcceptedIsNotRefused }
{}
