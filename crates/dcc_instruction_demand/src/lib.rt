//! Instructions of the machine beside the statements that stand for them. Each function only states a law by its
//! contract, and does nothing.
#![tactic(auto)]

ghost use Rattle.dcc_instruction_demand.specs.Laws.{AgreeingInstructionsAreEnough};
ghost use Rattle.dcc_instruction_demand.specs.Laws.{InstructionsAgreeWithTheirStatements};
ghost use Rattle.dcc_instruction_demand.specs.Laws.{LiftedRelationsAreTheMachines};

/// Where each instruction does what its statements do together, as it is computed of the statements, the lifted
/// program does what the machine's procedures do.
pub fn agreeing_instructions_are_enough()
    ensures { AgreeingInstructionsAreEnough }
{}

/// Each instruction of a program that is found does what its statements do together.
pub fn instructions_agree_with_their_statements()
    ensures { InstructionsAgreeWithTheirStatements }
{}

/// The lifted program and the machine's procedures change, preserve, want, take and give back the same.
pub fn lifted_relations_are_the_machines()
    ensures { LiftedRelationsAreTheMachines }
{}
