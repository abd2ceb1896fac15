//! Laws of folded graphs. Each function only states a law by its contract, and does nothing.

ghost use Rattle.dcc_flags.specs.Laws.{FoldedGraphsStand, FoldedGraphsKeepKinds, FoldedGraphsKeepTruths};
ghost use Rattle.dcc_flags.specs.Laws.{FoldedGraphsLackFlags, FoldedGraphsStayShallow};

/// Where no flag goes that is kept, the folded graph is well formed and may stand in the place of the graph.
pub fn folded_graphs_stand()
    ensures { FoldedGraphsStand }
{}

/// The folded graph has kinds of parts and statements that the graph has, beside reads of flags and temporaries, and
/// statements that set temporaries.
pub fn folded_graphs_keep_kinds()
    ensures { FoldedGraphsKeepKinds }
{}

/// Where definitions of flags load from plain addresses, truth statements stay at their locations.
pub fn folded_graphs_keep_truths()
    ensures { FoldedGraphsKeepTruths }
{}

/// Where no flag goes that is kept, the folded graph mentions no flag that goes.
pub fn folded_graphs_lack_flags()
    ensures { FoldedGraphsLackFlags }
{}

/// Where no flag goes that is kept, and a definition of a flag reads flags only as a negation, or as arms of a choice
/// that are that flag, expressions are at most twice as deep.
pub fn folded_graphs_stay_shallow()
    ensures { FoldedGraphsStayShallow }
{}
