//! The reverse post order of a graph.

ghost use Rattle.std.specs.Prelude.{◌≡◌, ◌<◌, [], ◌∷◌, length, IfOk, OnOk};
ghost use Rattle.dcc_ir.specs.Views.{graph_of};
ghost use Rattle.dcc_ir.specs.WellFormed.{IsGraph};
ghost use Rattle.dcc_flow.specs.Edges.{rows, AreWithin};
ghost use Rattle.dcc_flow.specs.Order.{IsSearched, IsReversePostOrder};
ghost use Rattle.dcc_flow.specs.Search.{search_of, visited, gone_on};

use crate::edges::successors;
use dcc_ir::Graph;
use std::alloc::{AllocError, Global};

/// A depth-first search.
#[derive(Drop)]
pub struct Search {
    /// Which blocks were begun.
    pub seen: Vec<bool>,
    /// The blocks that are not finished, each with how many of those that follow it were visited, the newest last.
    pub begun: Vec<(u32, usize)>,
    /// The finished blocks, the newest last.
    pub finished: Vec<u32>,
}

impl Search {
    // Begins a block, unless it was begun before.
    fn visit(&mut self, block: u32) -> Result<(), AllocError>
        requires { block < length self.old.seen.items }
        ensures { OnOk result (search_of self.new ≡ visited (search_of self.old) block) }
    {
        if !self.seen[block as usize] {
            self.seen[block as usize] = true;
            self.begun.push((block, 0))?;
        }
        Ok(())
    }

    // Goes on from a block of whose followers so many were visited.
    fn go_on(&mut self, next: &Vec<Vec<u32>>, block: u32, turn: usize) -> Result<(), AllocError>
        requires block { block < length next.now.items }
        requires next { AreWithin (rows next.now.items) }
        requires seen { length self.old.seen.items ≡ length next.now.items }
        ensures { OnOk result (search_of self.new ≡ gone_on (rows next.now.items) (search_of self.old) block turn) }
    {
        let followers = next[block as usize].as_slice();
        if turn < followers.len() {
            self.begun.push((block, turn + 1))?;
            self.visit(followers[turn])
        } else {
            self.finished.push(block)?;
            Ok(())
        }
    }
}

/// The blocks that are reached from block 0, each once, in reverse post order, where these follow each block.
pub(crate) fn order_of(alloc: Global, next: &Vec<Vec<u32>>) -> Result<Vec<u32>, AllocError>
    requires some { 0 < length next.now.items }
    requires next { AreWithin (rows next.now.items) }
    ensures { IfOk result (λ order. IsSearched (rows next.now.items) [] (0 ∷ []) order.items) }
{
    let mut search = Search {
        seen: vec![in alloc; false; next.len()]?,
        begun: Vec::new(alloc),
        finished: Vec::new(alloc),
    };
    search.visit(0)?;
    while let Some(last) = search.begun.pop() {
        search.go_on(next, last.0, last.1)?;
    }
    let mut order = search.finished;
    order.reverse();
    Ok(order)
}

/// The blocks that are reached from block 0, each once, in reverse post order.
pub fn order(alloc: Global, g: &Graph) -> Result<Vec<u32>, AllocError>
    requires { IsGraph (graph_of g.now) }
    ensures { IfOk result (λ order. IsReversePostOrder (graph_of g.now) order.items) }
{
    let next = successors(alloc, g)?;
    order_of(alloc, &next)
}
