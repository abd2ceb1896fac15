//! Below which block each block stands. Blocks are named by their numbers in the reverse post order.

ghost use Rattle.std.specs.Prelude.{◌<◌};

use crate::edges::Edges;
use crate::loops::Loops;
use crate::table::Table;
use std::alloc::{AllocError, Global};

/// For each block but the first the block that it stands below, of a lower number. This is its only source by an edge
/// from a lower number; else the nearest block that all of these sources are or stand below, or the header of the
/// outermost loop that holds that one and not the block. Of each loop's exits with one edge, one at most stands below
/// the header, behind the loop.
#[derive(Drop)]
pub struct Tree {
    // The block that each stands below; 0 for the first.
    holders: Table<usize>,
    /// The only source of each by an edge from a lower number.
    pub only_source: Table<Option<usize>>,
}

impl Tree {
    /// The block that this one stands below, of a lower number; 0 for the first.
    pub fn above(&self, block: usize) -> usize
        ensures { 0 < block → result < block }
    {
        let above = self.holders.at(block);
        if above < block { above } else { 0 }
    }

    /// The block stands below the other one from now on.
    pub fn put_below(&mut self, block: usize, above: usize) {
        self.holders.put(block, above);
    }

    // The nearest block that both are, or stand below.
    fn common(&self, one: usize, other: usize) -> usize {
        let mut low = one.min(other);
        let mut high = one.max(other);
        while low < high {
            let above = self.above(high);
            high = low.max(above);
            low = low.min(above);
        }
        low
    }

    // The nearest block that all sources of lower numbers are, or stand below.
    fn above_sources(&self, edges: &Edges, block: usize) -> usize {
        let mut common = None;
        for source in edges.sources.of(block) {
            if *source < block {
                common = match common {
                    Some(one) => Some(self.common(one, *source)),
                    None => Some(*source),
                };
            }
        }
        common.unwrap_or(0)
    }

    // Finds what the block stands below, where this is known of those of lower numbers.
    fn find(&mut self, edges: &Edges, loops: &Loops, block: usize) {
        let only_source = edges.only_source(block);
        let above = match only_source {
            Some(source) => source,
            None => loops.out_of(self.above_sources(edges, block), block),
        };
        self.only_source.put(block, only_source);
        self.put_below(block, above);
    }

    /// The block stands in the place of its one edge from a lower number, unless it comes behind a loop.
    pub fn is_at_its_edge(&self, block: usize) -> bool {
        self.only_source.at(block) == Some(self.above(block))
    }
}

/// The tree of a graph with these edges and loops, where each block with one edge from a lower number stands below the
/// source of that edge.
pub fn tree_of(alloc: Global, edges: &Edges, loops: &Loops) -> Result<Tree, AllocError> {
    let mut tree = Tree {
        holders: Table::new(alloc, edges.count(), 0)?,
        only_source: Table::new(alloc, edges.count(), None)?,
    };
    for block in 1..edges.count() {
        tree.find(edges, loops, block);
    }
    Ok(tree)
}
