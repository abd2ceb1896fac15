//! The law of settled copies. The function only states it by its contract, and does nothing.

ghost use Rattle.dcc_copies.specs.Laws.{SettledStands};

/// A well-formed graph may give its place to the one with right names for its locations, in which the copies of
/// locations to their own names are gone.
pub fn settled_stands()
    ensures { SettledStands }
{}
