//! Which exits of loops come to stand behind them. Blocks are named by their numbers in the reverse post order.

use crate::edges::{Edges, chooses};
use crate::loops::Loops;
use crate::table::{Lists, Table};
use crate::tree::Tree;
use dcc_ir::Graph;
use std::alloc::{AllocError, Global};

// The exits of the loops of a graph.
#[derive(Drop)]
struct Exits<'a> {
    graph: &'a Graph,
    edges: &'a Edges,
    loops: &'a Loops,
    tree: &'a mut Tree,
    // For each header of a loop the block that comes next behind the loop.
    followers: Table<Option<usize>>,
    // How many blocks stand below each, itself among them.
    sizes: Table<usize>,
}

// How many blocks stand below each of so many, itself among them.
fn sizes_of(alloc: Global, count: usize, tree: &Tree) -> Result<Table<usize>, AllocError> {
    let mut sizes: Table<usize> = Table::new(alloc, count, 1)?;
    for block in (1..count).rev() {
        let above = tree.above(block);
        sizes.put(above, sizes.at(above).saturating_add(sizes.at(block)));
    }
    Ok(sizes)
}

// The header of the innermost loop that holds the only source of a block, and not the block.
fn left_by(loops: &Loops, tree: &Tree, block: usize) -> Option<usize> {
    let source = tree.only_source.at(block)?;
    let header = loops.innermost(source)?;
    if loops.around(block) == Some(header) {
        None
    } else {
        Some(header)
    }
}

// For each header of a loop the blocks outside it with one edge from a lower number, from a block of which this loop is
// the innermost.
fn exits_of(
    alloc: Global,
    count: usize,
    loops: &Loops,
    tree: &Tree,
) -> Result<Lists<usize>, AllocError> {
    let mut exits = Lists::new(alloc, count)?;
    for block in 1..count {
        if let Some(header) = left_by(loops, tree, block) {
            exits.push(header, block)?;
        }
    }
    Ok(exits)
}

/// The block comes behind the loop of the one that it stands below, where these blocks come next behind loops: it is
/// not in this loop, and stands at no edge or comes next.
pub(crate) fn is_behind(
    loops: &Loops,
    tree: &Tree,
    followers: &Table<Option<usize>>,
    block: usize,
) -> bool {
    let above = tree.above(block);
    loops.leaves_out(above, block)
        && (!tree.is_at_its_edge(block) || followers.at(above) == Some(block))
}

impl Exits<'_> {
    // The block ends in a choice.
    fn chooses(&self, block: usize) -> bool {
        chooses(self.graph, self.edges.place(block))
    }

    // The block stands inside the choice at the end of the one that it stands below.
    fn is_in_choice(&self, block: usize) -> bool {
        self.tree.is_at_its_edge(block) && self.chooses(self.tree.above(block))
    }

    // The block that this one stands below begins a loop, and this one stands inside it.
    fn is_in_loop(&self, block: usize) -> bool {
        self.loops.headers.at(self.tree.above(block))
            && !is_behind(self.loops, self.tree, &self.followers, block)
    }

    // The one block outside a loop is in more of the loops around it than the other, or there is no other.
    fn stays_further_in(&self, block: usize, other: Option<usize>) -> bool {
        match other {
            Some(other) => self.loops.loop_number(other) < self.loops.loop_number(block),
            None => true,
        }
    }

    // Notes which of the blocks below each header of a loop comes next behind the loop: of those to which `break` may
    // lead the first one that is in most of the loops around.
    fn find_followers(&mut self) {
        for block in 1..self.edges.count() {
            let above = self.tree.above(block);
            if self.loops.leaves_out(above, block)
                && !self.is_in_choice(block)
                && self.stays_further_in(block, self.followers.at(above))
            {
                self.followers.put(above, Some(block));
            }
        }
    }

    // Between the end of a block and the loop of a header no choice and no other loop stands: `break` leaves this loop.
    fn may_break(&self, block: usize, header: usize) -> bool {
        let mut at = block;
        while header < at {
            let above = self.tree.above(at);
            if self.is_in_choice(at) || header < above && self.is_in_loop(at) {
                return false;
            }
            at = above;
        }
        !self.chooses(block)
    }

    // The one exit of a loop is in more of the loops around it than the other, or in as many and has no fewer blocks
    // below it.
    fn is_greater(&self, one: usize, other: usize) -> bool {
        let number = self.loops.loop_number(one);
        let least = self.loops.loop_number(other);
        least < number || number == least && self.sizes.at(other) <= self.sizes.at(one)
    }

    // Of a loop's exits to which `break` leads, the greatest one that is in more of the loops around than the block
    // that comes next behind the loop so far.
    fn greatest(&self, exits: &[usize], header: usize) -> Option<usize> {
        let follower = self.followers.at(header);
        let mut greatest = None;
        for block in exits {
            let is_greater = match greatest {
                Some(other) => self.is_greater(*block, other),
                None => self.stays_further_in(*block, follower),
            };
            if is_greater && self.may_break(self.tree.above(*block), header) {
                greatest = Some(*block);
            }
        }
        greatest
    }

    // The greatest exit of a loop comes next behind it.
    fn lift(&mut self, exits: &[usize], header: usize) {
        if let Some(exit) = self.greatest(exits, header) {
            self.tree.put_below(exit, header);
            self.followers.put(header, Some(exit));
        }
    }
}

/// For each header of a loop the block that comes next behind the loop: one that is in most of the loops around it. It
/// is one that stands below the header, or else an exit that comes to stand there, from the inner loops on: of those
/// with one edge, to which `break` leads, the one with the most blocks below it.
pub(crate) fn lift_exits(
    alloc: Global,
    graph: &Graph,
    edges: &Edges,
    loops: &Loops,
    tree: &mut Tree,
) -> Result<Table<Option<usize>>, AllocError> {
    let count = edges.count();
    let exits = exits_of(alloc, count, loops, tree)?;
    let sizes = sizes_of(alloc, count, tree)?;
    let mut lifting = Exits {
        graph,
        edges,
        loops,
        tree,
        followers: Table::new(alloc, count, None)?,
        sizes,
    };
    lifting.find_followers();
    for header in (0..count).rev() {
        lifting.lift(exits.of(header), header);
    }
    Ok(lifting.followers)
}
