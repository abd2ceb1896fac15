//! Laws of what passes between the procedures of a program of the inner language. Each function only states a law by
//! its contract, and does nothing.
#![tactic(auto)]

ghost use Rattle.dcc_sums.specs.Laws.{TrimmedIsFormed, LocalisedKeeps, LocalisedPassesJust};

/// A well-formed program is well formed still where arguments and values given back have gone.
pub fn trimmed_is_formed()
    ensures { TrimmedIsFormed }
{}

/// Where all halves and flags pass and no argument is wanted after a call that may change it, the program in which just
/// what is wanted passes is well formed, and keeps the runs, the blocks, the calls and the frames.
pub fn localised_keeps_all()
    ensures { LocalisedKeeps }
{}

/// In the localised program each graph takes words on the stack and just the params of its summary, and gives just the
/// results; each call passes and takes just these.
pub fn localised_passes_just()
    ensures { LocalisedPassesJust }
{}
