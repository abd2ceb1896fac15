//! Laws of trails, for every image and layout. The functions do nothing: their contracts are proved
//! for all.

ghost use Rattle.dcc_procs.specs.Laws.{KnownAhAndWindowDecideSuccessors, EntryAndSuccessorsAreNodes};
ghost use Rattle.dcc_procs.specs.Laws.{OtherNodesHavePredecessors};

/// Trails that end at one offset, before which the same is known of AH and the last five
/// instructions are the same, have the same successors.
pub fn known_ah_and_window_decide_successors()
    ensures { KnownAhAndWindowDecideSuccessors }
{}

/// The entry of a procedure is one of its nodes, and so is each successor of a trail.
pub fn entry_and_successors_are_nodes()
    ensures { EntryAndSuccessorsAreNodes }
{}

/// A node of a procedure is its entry, or an edge leads to it from another node.
pub fn other_nodes_have_predecessors()
    ensures { OtherNodesHavePredecessors }
{}
