//! Laws by which a graph may stand in the place of another. Each function only states a law by its contract, and does
//! nothing.
#![tactic(auto)]

ghost use Rattle.std.specs.Prelude.{ℕ};
ghost use Rattle.dcc_passes.specs.OneGraph.{Invariant};
ghost use Rattle.dcc_passes.specs.Laws.{StandingComposes, AllMayStand, OneMayStand, OneStands, FormsFit, KindsFit};
ghost use Rattle.dcc_ir.specs.Families.{Family};
ghost use Rattle.dcc_passes.specs.Renamed.{Renaming};
ghost use Rattle.dcc_passes.specs.Laws.{FollowedStands, RenamedStands, TidiedItself, TidiedComposes};
ghost use Rattle.dcc_passes.specs.Following.{Link};

/// What stands for a graph that stands for another stands for that one.
pub fn standing_composes()
    ensures { StandingComposes }
{}

/// Where each graph stands for the one at its place, the program of the first graphs is kept by that of the second.
pub fn all_may_stand()
    ensures { AllMayStand }
{}

/// Some pass over one graph: the place in the first graph of the block at a place in the second, and what holds between
/// the values at the points of both.
pub trait OnePass {
    ghost place: { ℕ → ℕ };

    ghost invariant: { Invariant };
}

/// A graph that begins and goes on as another does, and fits in its place, may stand there.
pub fn one_may_stand<P: OnePass>()
    ensures { OneMayStand P.place P.invariant }
{}

/// A graph that begins and goes on as another does, and fits in its place, stands for it.
pub fn one_stands<P: OnePass>()
    ensures { OneStands P.place P.invariant }
{}

/// A well-formed graph with the form of another fits in its place.
pub fn forms_fit()
    ensures { FormsFit }
{}

/// A well-formed graph that stays in kind fits in the other's place.
pub fn kinds_fit()
    ensures { KindsFit }
{}

/// What holds between the values of two graphs before each statement.
pub trait SomeLink {
    ghost link: { Link };
}

/// A well-formed graph that stays in kind and follows another statement by statement stands for it.
pub fn followed_stands<L: SomeLink>()
    ensures { FollowedStands L.link }
{}

/// Which locations matter at the points of blocks, and what stands for them there.
pub trait SomeRenaming {
    ghost family: { Family };

    ghost name: { Renaming };
}

/// A well-formed graph that is another one with other locations for those that matter, by a closed family, stands for
/// it.
pub fn renamed_stands<R: SomeRenaming>()
    ensures { RenamedStands R.family R.name }
{}

/// A well-formed graph is what is left of it by a pass that changes nothing.
pub fn tidied_itself()
    ensures { TidiedItself }
{}

/// What one pass leaves of what another leaves is what both leave.
pub fn tidied_composes()
    ensures { TidiedComposes }
{}
