//! Texts that are others with their expressions and their variables' types written otherwise: they run alike.
#![tactic(auto)]

ghost use Rattle.dcc_respell.specs.Laws.{RespelledTextsRunAlike};

/// A text runs as the one does of which it is another spelling, step by step. The function states this law by its
/// contract, and does nothing.
pub fn respelled_texts_run_alike()
    ensures { RespelledTextsRunAlike }
{}
