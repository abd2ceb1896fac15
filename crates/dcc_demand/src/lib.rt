//! Laws of what the procedures of a program want, change and give back. Each function only states a law by its
//! contract, for any procedures, and does nothing.
#![tactic(auto)]

ghost use Rattle.dcc_demand.specs.Procedures.{Procedures, ChangeFamily};
ghost use Rattle.dcc_demand.specs.Wanted.{WantedFamily};
ghost use Rattle.dcc_demand.specs.Laws.{ChangesAreClosed, HasAllChanges, LossIsMonotone, ChangesAreMonotone};
ghost use Rattle.dcc_demand.specs.Laws.{LosingIsNotSaving, SavedIsHeld, PreservedIsHeld, WantedIsClosed};
ghost use Rattle.dcc_demand.specs.Laws.{HasAllWanted, CallsPassWanted, ResultsAreWanted, SpreadIsChange};
ghost use Rattle.dcc_demand.specs.Laws.{TablesHaveAllChanges, TablesHaveAllWanted};

/// Some procedures, with the types of their points, of their locations and of the words of the stack. Beside them
/// other procedures of these types, families of what calls change, and one of what matters before points.
pub trait SomeProcedures {
    ghost point: { Type 0 };

    ghost location: { Type 0 };

    ghost word: { Type 0 };

    ghost procedures: { Procedures point location word };

    ghost more: { Procedures point location word };

    ghost changed: { ChangeFamily location };

    ghost wider: { ChangeFamily location };

    ghost wanted: { WantedFamily point location };
}

/// What is changed has all that some trail to a return loses.
pub fn changes_are_closed<P: SomeProcedures>()
    ensures { ChangesAreClosed P.procedures }
{}

/// A family that has what trails lose where calls change what is in it has all that is changed.
pub fn closed_families_have_all_changes<P: SomeProcedures>()
    ensures { HasAllChanges P.procedures P.changed }
{}

/// Where calls change more, no less is lost.
pub fn loss_is_monotone<P: SomeProcedures>()
    ensures { LossIsMonotone P.procedures P.changed P.wider }
{}

/// Procedures with more trails change no less.
pub fn changes_are_monotone<P: SomeProcedures>()
    ensures { ChangesAreMonotone P.procedures P.more }
{}

/// Losing is writing and not saving.
pub fn losing_is_not_saving<P: SomeProcedures>()
    ensures { LosingIsNotSaving P.procedures P.changed }
{}

/// A trail that saves a location ends with the location holding what it held at the begin.
pub fn saved_is_held<P: SomeProcedures>()
    ensures { SavedIsHeld P.procedures P.changed }
{}

/// At a return each location that the procedure leaves as it was holds what it held at the entry.
pub fn preserved_is_held<P: SomeProcedures>()
    ensures { PreservedIsHeld P.procedures }
{}

/// What is wanted is a closed family.
pub fn wanted_is_closed<P: SomeProcedures>()
    ensures { WantedIsClosed P.procedures }
{}

/// A family that is closed under demand has all that is wanted: what is wanted is the least one.
pub fn closed_families_have_all_wanted<P: SomeProcedures>()
    ensures { HasAllWanted P.procedures P.wanted }
{}

/// What is wanted after a call is given back by its procedure or wanted before the call, and what its procedure takes
/// is wanted before it.
pub fn calls_pass_wanted<P: SomeProcedures>()
    ensures { CallsPassWanted P.procedures }
{}

/// What a procedure gives back is wanted at each of its returns.
pub fn results_are_wanted<P: SomeProcedures>()
    ensures { ResultsAreWanted P.procedures }
{}

/// What spreads from point to point is what is changed.
pub fn spread_is_change<P: SomeProcedures>()
    ensures { SpreadIsChange P.procedures }
{}

/// Tables that are closed from point to point have all that is changed.
pub fn tables_have_all_changes<P: SomeProcedures>()
    ensures { TablesHaveAllChanges P.procedures }
{}

/// A closed table has all that is wanted.
pub fn tables_have_all_wanted<P: SomeProcedures>()
    ensures { TablesHaveAllWanted P.procedures }
{}
