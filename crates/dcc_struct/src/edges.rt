//! The edges among the reached blocks of a graph. A block is named by its number in the reverse post order.

ghost use Rattle.dcc_ir.specs.Views.{graph_of};
ghost use Rattle.dcc_ir.specs.WellFormed.{IsGraph};

use crate::table::{Lists, Table};
use dcc_flow::order;
use dcc_ir::{End, Graph};
use std::alloc::{AllocError, Global};

/// The block at a place of the graph ends in a choice.
pub(crate) fn chooses(graph: &Graph, place: u32) -> bool {
    match graph.blocks.get(place as usize) {
        Some(block) => matches!(block.end, End::Switch { .. }),
        None => false,
    }
}

/// The block to which the one at a place goes, where it does nothing else.
pub(crate) fn only_goes_to(graph: &Graph, place: u32) -> Option<u32> {
    let block = graph.blocks.get(place as usize)?;
    match &block.end {
        End::Goto(to) if block.stmts.is_empty() => Some(*to),
        _ => None,
    }
}

/// The edges among the reached blocks of a graph.
#[derive(Drop)]
pub struct Edges {
    /// The place of each block in the graph.
    pub places: Vec<u32>,
    /// The number of the block at each place, and 0 at the place of a block that is not reached.
    pub numbers: Table<usize>,
    /// For each block the blocks with an edge to it. The ways of a choice to one block are one edge; the two ways of a
    /// test are two.
    pub sources: Lists<usize>,
    /// How many edges there are.
    pub entries: usize,
}

impl Edges {
    // Notes an edge from a block to the one at a place.
    fn enter(&mut self, from: usize, to: u32) -> Result<(), AllocError> {
        self.entries = self.entries.saturating_add(1);
        self.sources.push(self.numbers.at(to as usize), from)
    }

    // Notes the edge of a choice, unless it is the newest of those to the block at the place.
    fn enter_once(&mut self, from: usize, to: u32) -> Result<(), AllocError> {
        if self.sources.of(self.numbers.at(to as usize)).last() == Some(&from) {
            return Ok(());
        }
        self.enter(from, to)
    }

    // Notes the edges from a block with this end.
    fn enter_all(&mut self, from: usize, end: &End) -> Result<(), AllocError> {
        match end {
            End::Goto(to) => self.enter(from, *to),
            End::If { one, other, .. } => {
                self.enter(from, *one)?;
                self.enter(from, *other)
            }
            End::Switch { blocks, .. } => {
                for to in blocks {
                    self.enter_once(from, *to)?;
                }
                Ok(())
            }
            End::Ret(_) | End::Stop => Ok(()),
        }
    }

    /// The edges of a graph.
    pub fn of(alloc: Global, graph: &Graph) -> Result<Edges, AllocError>
        requires { IsGraph (graph_of graph.now) }
    {
        let places = order(alloc, graph)?;
        let mut numbers = Table::new(alloc, graph.blocks.len(), 0)?;
        for (number, place) in places.iter().enumerate() {
            numbers.put(*place as usize, number);
        }
        let mut edges = Edges {
            numbers,
            sources: Lists::new(alloc, places.len())?,
            entries: 0,
            places: Vec::new(alloc),
        };
        for (number, place) in places.iter().enumerate() {
            if let Some(block) = graph.blocks.get(*place as usize) {
                edges.enter_all(number, &block.end)?;
            }
        }
        edges.places = places;
        Ok(edges)
    }

    /// How many blocks are reached.
    pub fn count(&self) -> usize {
        self.places.len()
    }

    /// The place of a block in the graph, and 0 where it is none.
    pub fn place(&self, block: usize) -> u32 {
        match self.places.get(block) {
            Some(place) => *place,
            None => 0,
        }
    }

    /// An edge leads to the block from one of no lower number.
    pub fn is_returned_to(&self, block: usize) -> bool {
        self.sources.of(block).iter().any(|source| *source >= block)
    }

    /// The block at the place is the first one, or another block than this one has an edge to it.
    pub fn is_entered_beside(&self, block: usize, place: u32) -> bool {
        let to = self.numbers.at(place as usize);
        to == 0 || self.sources.of(to).iter().any(|source| *source != block)
    }

    /// The only block with an edge to this one from a lower number, where there is one such edge.
    pub fn only_source(&self, block: usize) -> Option<usize> {
        let mut only = None;
        for source in self.sources.of(block) {
            if *source < block {
                if only.is_some() {
                    return None;
                }
                only = Some(*source);
            }
        }
        only
    }
}
