//! Texts whose local variables have other types of their size: what they are, and that they run as they did.
#![tactic(auto)]

ghost use Rattle.dcc_redeclare.specs.Laws.{TypesMayChange};

/// Local variables may have other types of their size. The function states this law by its contract, and does nothing.
pub fn types_may_change()
    ensures { TypesMayChange }
{}
