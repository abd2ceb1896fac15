//! A text without casts that nothing needs: its definition, and that it means what the text means.
#![tactic(auto)]

mod body;
mod expression;
mod functions;
mod names;
mod statement;
mod text;

ghost use Rattle.dcc_casts.specs.Laws.{NeedlessCastsMayGo};

pub use names::Names;
pub use text::without_casts;

/// Needless casts may go from a text. The function states this law by its contract, and does nothing.
pub fn needless_casts_may_go()
    ensures { NeedlessCastsMayGo }
{}
