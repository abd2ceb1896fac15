//! Laws of the inner language's definitions. Each function only states a law by its contract, and does nothing.

ghost use Rattle.dcc_ir.specs.Tree.{Program};
ghost use Rattle.dcc_ir.specs.Passes.{Pass, IsPass};
ghost use Rattle.dcc_ir.specs.Keeps.{KeepsRuns};
ghost use Rattle.dcc_ir.specs.Laws.{RunsAreWatchable, StatementsAreExecuted, ProgramsKeepThemselves, KeepsComposes};
ghost use Rattle.dcc_ir.specs.Laws.{OneEdgeLiesAfterOne, ValuesFit, StatesFit, RunsAreNeverStuck, NoSwitchHasPlaces};
ghost use Rattle.dcc_ir.specs.Laws.{ProgramsKeepTheirRuns, UnreadMayGo};
ghost use Rattle.dcc_ir.specs.Families.{Family};
ghost use Rattle.dcc_ir.specs.Laws.{NeededIsClosed, LiveIsClosed, HasAllNeeded, AssignmentsMayGo};

/// A run that has ended stays, no step takes events back, and no step is foul.
pub fn runs_are_watchable()
    ensures { RunsAreWatchable }
{}

/// Statements without a call are executed one after another; where the run isn't over after them, the block goes on.
pub fn statements_are_executed()
    ensures { StatementsAreExecuted }
{}

/// A program keeps itself.
pub fn programs_keep_themselves()
    ensures { ProgramsKeepThemselves }
{}

/// What two passes keep one after another is kept from the first program to the last.
pub fn keeps_composes()
    ensures { KeepsComposes }
{}

/// Where each block that a pass drops has one edge in, it lies after one block alone that the pass leaves.
pub fn one_edge_lies_after_one()
    ensures { OneEdgeLiesAfterOne }
{}

/// The value of a well-formed expression fits its width.
pub fn values_fit()
    ensures { ValuesFit }
{}

/// Each state that a well-formed program reaches fits its widths.
pub fn states_fit()
    ensures { StatesFit }
{}

/// No run of a well-formed program with sound ends is ever stuck.
pub fn runs_are_never_stuck()
    ensures { RunsAreNeverStuck }
{}

/// In a well-formed program without a switch, each switch has its place.
pub fn no_switch_has_places()
    ensures { NoSwitchHasPlaces }
{}

/// A pass from one program to another.
pub trait SomePass {
    ghost before: { Program };

    ghost after: { Program };

    ghost pass: { Pass };
}

/// Where a pass meets what it owes, the runs of the second program visit its blocks as those of the first one do, and
/// end alike.
pub fn passes_keep_runs<P: SomePass>()
    requires { IsPass P.before P.after P.pass }
    ensures { KeepsRuns P.before P.after }
{}

/// A well-formed program keeps its own runs, by the theorem on passes.
pub fn programs_keep_their_runs()
    ensures { ProgramsKeepTheirRuns }
{}

/// Arguments and values given back that nothing reads may go.
pub fn unread_may_go()
    ensures { UnreadMayGo }
{}

/// What is needed is a closed family.
pub fn needed_is_closed()
    ensures { NeededIsClosed }
{}

/// What is live is a closed family.
pub fn live_is_closed()
    ensures { LiveIsClosed }
{}

/// Some family of locations at the points of blocks.
pub trait SomeFamily {
    ghost family: { Family };
}

/// What is needed is the least closed family.
pub fn closed_families_have_all_needed<F: SomeFamily>()
    ensures { HasAllNeeded F.family }
{}

/// A graph without assignments to locations that don't matter after them, by a closed family, may stand in the place of
/// the graph.
pub fn assignments_may_go<F: SomeFamily>()
    ensures { AssignmentsMayGo F.family }
{}
