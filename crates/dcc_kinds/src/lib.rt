//! The constructs that are told of what procedures take and give back, in the machine and in its lifted program. Each
//! function only states a law by its contract, and does nothing.
#![tactic(auto)]

ghost use Rattle.dcc_kinds.specs.Laws.{FaultsAreConstructs, ConstructsAreFaults, SummedProgramsHaveNone};
ghost use Rattle.dcc_kinds.specs.Laws.{SummariesAreLifted};

/// What keeps a lifted program from having summaries that a text can have is a construct of the machine's procedures.
pub fn faults_are_constructs()
    ensures { FaultsAreConstructs }
{}

/// A construct that summaries tell of the machine's procedures is a fault of the lifted program.
pub fn constructs_are_faults()
    ensures { ConstructsAreFaults }
{}

/// Where the lifted program has summaries that a text can have, no construct that summaries tell stands in the
/// machine's procedures.
pub fn summed_programs_have_none()
    ensures { SummedProgramsHaveNone }
{}

/// The summaries of the machine's procedures are those of the lifted program.
pub fn summaries_are_lifted()
    ensures { SummariesAreLifted }
{}
