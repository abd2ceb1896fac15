//! A text whose accesses to memory are written by the names of its global variables, and that it means what the text
//! means.
#![tactic(auto)]

mod access;
mod expression;
mod places;
mod scene;
mod text;

ghost use Rattle.dcc_named.specs.Laws.{AccessesMayBeNamed};

pub use text::named;

/// The accesses of a text may be written by names. The function states this law by its contract, and does nothing.
pub fn accesses_may_be_named()
    ensures { AccessesMayBeNamed }
{}
