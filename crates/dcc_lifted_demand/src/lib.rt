//! The lifted program beside the machine's procedures. The functions only state laws by their contracts, and do
//! nothing.
#![tactic(auto)]

ghost use Rattle.dcc_lifted_demand.specs.InstructionsHavePoints.{InstructionsHavePoints};
ghost use Rattle.dcc_lifted_demand.specs.LiftedIsRefined.{LiftedIsRefined};
ghost use Rattle.dcc_lifted_demand.specs.StatementsTellPoints.{StatementsTellPoints};

/// Where statements stand at points one after another, what these make and use is what is computed of the statements.
pub fn statements_tell_points()
    ensures { StatementsTellPoints }
{}

/// The points of each instruction of a procedure have its statements in the lifted graph, one after another, and lead
/// to those of its successors.
pub fn instructions_have_points()
    ensures { InstructionsHavePoints }
{}

/// Where each instruction does what its statements do together, the lifted program's points make up the machine's
/// instructions, and both have one and the same relations.
pub fn lifted_is_refined()
    ensures { LiftedIsRefined }
{}
