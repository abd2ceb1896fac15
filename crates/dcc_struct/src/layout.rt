//! Where the blocks of a graph stand in its plan. Blocks are named by their places in the graph.

ghost use Rattle.dcc_ir.specs.Views.{graph_of};
ghost use Rattle.dcc_ir.specs.WellFormed.{IsGraph};

use crate::edges::{Edges, only_goes_to};
use crate::exits::{is_behind, lift_exits};
use crate::loops::{Loops, loops_of};
use crate::table::{Lists, Table};
use crate::tree::{Tree, tree_of};
use dcc_interval::Reduction;
use dcc_ir::Graph;
use std::alloc::{AllocError, Global};

/// Where the blocks of a graph stand in its plan. A block with one edge from a lower number in the reverse post order
/// stands in the place of this edge, and each other one after a block or behind its loop.
#[derive(Drop)]
pub struct Layout {
    /// Which blocks begin a loop.
    pub loops: Table<bool>,
    /// Which blocks an edge leads to from a block of no lower number.
    pub returns: Table<bool>,
    /// For each block the one at whose edge to it it stands.
    pub at_edge_of: Table<Option<u32>>,
    /// For each block those that stand after its end.
    pub after: Lists<u32>,
    /// For each block that begins a loop those that stand behind the loop.
    pub behind: Lists<u32>,
    /// For each block the one to which the text comes from it without an item: itself, unless it does nothing but go to
    /// a block to which others lead too, and no edge leads back to it. The text passes such blocks, and jumps to none.
    pub goals: Table<u32>,
    /// For each block how long its text is with all that stands below it: so many statements and ends of blocks.
    pub lengths: Table<usize>,
}

// How long the text of the block at a place is: so many statements and its end.
fn own_length(graph: &Graph, place: u32) -> usize {
    match graph.blocks.get(place as usize) {
        Some(block) => block.stmts.len().saturating_add(1),
        None => 0,
    }
}

impl Layout {
    // Nothing is known of so many blocks.
    fn new(alloc: Global, count: usize) -> Result<Layout, AllocError> {
        Ok(Layout {
            loops: Table::new(alloc, count, false)?,
            returns: Table::new(alloc, count, false)?,
            at_edge_of: Table::new(alloc, count, None)?,
            after: Lists::new(alloc, count)?,
            behind: Lists::new(alloc, count)?,
            goals: Table::new(alloc, count, 0)?,
            lengths: Table::new(alloc, count, 0)?,
        })
    }

    // Notes where a block but the first stands.
    fn put(&mut self, known: &Known, number: usize) -> Result<(), AllocError> {
        let block = known.edges.place(number);
        let above = known.edges.place(known.tree.above(number));
        if is_behind(&known.loops, &known.tree, &known.followers, number) {
            self.behind.push(above as usize, block)
        } else if known.tree.is_at_its_edge(number) {
            self.at_edge_of.put(block as usize, Some(above));
            Ok(())
        } else {
            self.after.push(above as usize, block)
        }
    }

    // The block to which the text comes from a block without an item, where this is known of those of greater numbers.
    fn goal(&self, graph: &Graph, known: &Known, number: usize) -> u32 {
        let block = known.edges.place(number);
        if number == 0 || known.edges.is_returned_to(number) {
            return block;
        }
        match only_goes_to(graph, block) {
            Some(to) if known.edges.is_entered_beside(number, to) => self.goals.at(to as usize),
            _ => block,
        }
    }

    // Notes to which block the text comes from each without an item.
    fn find_goals(&mut self, graph: &Graph, known: &Known) {
        for number in (0..known.edges.count()).rev() {
            let goal = self.goal(graph, known, number);
            self.goals.put(known.edges.place(number) as usize, goal);
        }
    }

    // Notes how long the text of each block is, once it is known what each stands below.
    fn measure(&mut self, graph: &Graph, known: &Known) {
        for number in (0..known.edges.count()).rev() {
            let block = known.edges.place(number);
            let above = known.edges.place(known.tree.above(number));
            let length = self
                .lengths
                .at(block as usize)
                .saturating_add(own_length(graph, block));
            self.lengths.put(block as usize, length);
            if above != block {
                let longer = self.lengths.at(above as usize).saturating_add(length);
                self.lengths.put(above as usize, longer);
            }
        }
    }

    /// Where the blocks of a graph that is reduced so stand.
    pub fn of(alloc: Global, graph: &Graph, reduction: &Reduction) -> Result<Layout, AllocError>
        requires { IsGraph (graph_of graph.now) }
    {
        let known = Known::of(alloc, graph, reduction)?;
        let mut layout = Layout::new(alloc, graph.blocks.len())?;
        for number in 0..known.edges.count() {
            let block = known.edges.place(number) as usize;
            layout.loops.put(block, known.loops.headers.at(number));
            layout
                .returns
                .put(block, known.edges.is_returned_to(number));
            layout.goals.put(block, known.edges.place(number));
        }
        for number in 1..known.edges.count() {
            layout.put(&known, number)?;
        }
        layout.find_goals(graph, &known);
        layout.measure(graph, &known);
        Ok(layout)
    }
}

// What is known of a graph's blocks by their numbers.
#[derive(Drop)]
struct Known {
    edges: Edges,
    loops: Loops,
    tree: Tree,
    // For each header of a loop the block that comes next behind the loop.
    followers: Table<Option<usize>>,
}

impl Known {
    // What is known of the blocks of a graph that is reduced so.
    fn of(alloc: Global, graph: &Graph, reduction: &Reduction) -> Result<Known, AllocError>
        requires { IsGraph (graph_of graph.now) }
    {
        let edges = Edges::of(alloc, graph)?;
        let loops = loops_of(alloc, &edges, reduction)?;
        let mut tree = tree_of(alloc, &edges, &loops)?;
        let followers = lift_exits(alloc, graph, &edges, &loops, &mut tree)?;
        Ok(Known {
            edges,
            loops,
            tree,
            followers,
        })
    }
}
