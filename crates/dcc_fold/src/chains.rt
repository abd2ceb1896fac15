//! The chains of a graph.

ghost use Rattle.std.specs.Prelude.{◌≡◌, ℕ, ◌<◌, length, MatchOption, MatchBool, IfSome};
ghost use Rattle.dcc_ir.specs.Views.{graph_of};
ghost use Rattle.dcc_ir.specs.WellFormed.{IsGraph};
ghost use Rattle.dcc_flow.specs.Edges.{rows, successors_of, ArePredecessors};
ghost use Rattle.dcc_available.specs.Rows.{IsNext};
ghost use Rattle.dcc_fold.specs.Chain.{IsFirst};

use dcc_ir::{End, Graph};

/// A graph, and for each block the blocks with an edge to it.
#[derive(Drop)]
pub struct Chains<'a> {
    pub graph: &'a Graph,
    pub preds: &'a Vec<Vec<usize>>,
}

impl Chains<'_> {
    /// The next block of a chain: the one that the block goes to, where no other edge leads there.
    pub fn next(&self, place: usize) -> Option<usize>
        requires graph { IsGraph (graph_of self.now.graph.now) }
        requires place { place < length self.now.graph.now.blocks.items }
        requires preds { ArePredecessors (successors_of (graph_of self.now.graph.now)) (rows self.now.preds.now.items) }
        ensures next { MatchOption result ((to : ℕ) → ¬ IsNext (graph_of self.now.graph.now) place to)
            (λ to. IsNext (graph_of self.now.graph.now) place to) }
        ensures within { IfSome result (λ to. to < length self.now.graph.now.blocks.items) }
    {
        let End::Goto(to) = &self.graph.blocks[place].end else {
            return None;
        };
        let to = *to as usize;
        if to == 0 {
            return None;
        }
        let from = &self.preds[to];
        if from.len() != 1 {
            return None;
        }
        Some(to)
    }

    /// Whether a chain begins with the block.
    pub fn is_first(&self, place: usize) -> bool
        requires graph { IsGraph (graph_of self.now.graph.now) }
        requires place { place < length self.now.graph.now.blocks.items }
        requires preds { ArePredecessors (successors_of (graph_of self.now.graph.now)) (rows self.now.preds.now.items) }
        ensures { MatchBool result (IsFirst (graph_of self.now.graph.now) place) (¬ IsFirst (graph_of self.now.graph.now) place) }
    {
        let from = &self.preds[place];
        if from.len() != 1 {
            return true;
        }
        let Some(to) = self.next(from[0]) else {
            return true;
        };
        to != place
    }
}
