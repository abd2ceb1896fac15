//! The laws of available assignments, of substitution by them, and of fresh temporaries. Each function only states a
//! law by its contract, and does nothing.
#![tactic(auto)]

ghost use Rattle.dcc_substitution.specs.Available.{Availability};
ghost use Rattle.dcc_substitution.specs.Laws.{AvailableHolds, SubstitutedStands, FreshMayCome};

/// Which assignments are available at the points of blocks.
pub trait SomeAvailability {
    ghost available: { Availability };
}

/// Wherever the run of a well-formed program comes to in a graph, what is available there by a right table holds.
pub fn available_holds<A: SomeAvailability>()
    ensures { AvailableHolds A.available }
{}

/// A well-formed graph that is another one with the expressions of available assignments in the place of reads, by a
/// right table, stands for it.
pub fn substituted_stands<A: SomeAvailability>()
    ensures { SubstitutedStands A.available }
{}

/// A well-formed graph that is another one with further temporaries and Sets of these stands for it.
pub fn fresh_may_come()
    ensures { FreshMayCome }
{}
