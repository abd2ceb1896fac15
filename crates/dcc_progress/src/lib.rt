//! Laws of the C dialect that no other crate needs.
#![tactic(auto)]

ghost use Rattle.std.specs.Prelude.{ℕ, List};
ghost use Rattle.dcc_c.specs.Tree.{Tree};
ghost use Rattle.dcc_c.specs.Text.{StandsFor};
ghost use Rattle.dcc_progress.specs.Stuck.{IsStuckOnlyAtEnds};

/// A run of a text is stuck only where `start` returns or ends, or where a function with a result ends without a
/// `return`. The function states this law by its contract, and does nothing.
pub fn stuck_only_at_ends()
    ensures { (text : List ℕ) (tree : Tree) → StandsFor text tree → IsStuckOnlyAtEnds tree }
{}
