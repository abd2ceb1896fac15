//! The graph in which reads of temporaries become what available assignments give them.

ghost use Rattle.std.specs.Prelude.{◌≡◌, ◌≤◌, ◌<◌, max, length, replicate, None, IfOk, OnOk, IfSome};
ghost use Rattle.dcc_ir.specs.Measure.{deepest};
ghost use Rattle.dcc_ir.specs.Use.{graph_exprs};
ghost use Rattle.dcc_ir.specs.Views.{graph_of};
ghost use Rattle.dcc_ir.specs.WellFormed.{IsGraph};
ghost use Rattle.dcc_passes.specs.Tidied.{IsTidied};
ghost use Rattle.dcc_flow.specs.Edges.{rows, successors_of, ArePredecessors};
ghost use Rattle.dcc_available.specs.Rows.{AreRewrittenRows, IsNext, ArePut};

use crate::known::Known;
use crate::reads::{Reads, count_reads};
use dcc_flow::preds;
use dcc_ir::{Block, End, Graph};
use std::alloc::{AllocError, Global};

/// A graph, for each block the blocks with an edge to it, and how often the temporaries are read.
#[derive(Drop)]
struct Setting<'a> {
    graph: &'a Graph,
    preds: &'a Vec<Vec<usize>>,
    reads: &'a Reads,
}

impl Setting<'_> {
    // The next block of a chain: the one that the block goes to, where no other edge leads there.
    fn next(&self, place: usize) -> Option<usize>
        requires place { place < length self.now.graph.now.blocks.items }
        requires preds { ArePredecessors (successors_of (graph_of self.now.graph.now)) (rows self.now.preds.now.items) }
        ensures next { IfSome result (λ to. IsNext (graph_of self.now.graph.now) place to) }
        ensures within { IfSome result (λ to. to < length self.now.graph.now.blocks.items) }
    {
        let End::Goto(to) = &self.graph.blocks[place].end else {
            return None;
        };
        let to = *to as usize;
        match self.preds.get(to) {
            Some(from) if to != 0 && from.len() == 1 && from[0] == place => Some(to),
            _ => None,
        }
    }

    // Whether the block is the next one of another in a chain.
    fn is_next(&self, place: usize) -> bool
        requires { ArePredecessors (successors_of (graph_of self.now.graph.now)) (rows self.now.preds.now.items) }
    {
        match self.preds.get(place) {
            Some(from) if from.len() == 1 && from[0] < self.graph.blocks.len() => {
                self.next(from[0]) == Some(place)
            }
            _ => false,
        }
    }

    // Rewrites the blocks of the chain that begins at a place.
    fn rewrite_chain(
        &self,
        known: &mut Known,
        head: usize,
        blocks: &mut Vec<Option<Block>>,
    ) -> Result<(), AllocError>
        requires head { head < length self.now.graph.now.blocks.items }
        requires preds { ArePredecessors (successors_of (graph_of self.now.graph.now)) (rows self.now.preds.now.items) }
        requires count { length blocks.old.items ≡ length self.now.graph.now.blocks.items }
        requires rewritten { AreRewrittenRows (graph_of self.now.graph.now) blocks.old.items }
        ensures count { length blocks.new.items ≡ length self.now.graph.now.blocks.items }
        ensures rewritten { AreRewrittenRows (graph_of self.now.graph.now) blocks.new.items }
    {
        known.begin();
        let mut place = head;
        'chain: for _ in 0..self.graph.blocks.len() {
            blocks[place] = Some(known.block(self.reads, &self.graph.blocks[place])?);
            match self.next(place) {
                Some(to) => place = to,
                None => break,
            }
            known.pass_edge();
        }
        Ok(())
    }

    // The blocks of all chains, rewritten, each at its place.
    fn rewritten(&self, alloc: Global) -> Result<Vec<Option<Block>>, AllocError>
        requires { ArePredecessors (successors_of (graph_of self.now.graph.now)) (rows self.now.preds.now.items) }
        ensures count { IfOk result (λ blocks. length blocks.items ≡ length self.now.graph.now.blocks.items) }
        ensures rewritten { IfOk result (λ blocks. AreRewrittenRows (graph_of self.now.graph.now) blocks.items) }
    {
        let mut known = Known::new(alloc, self.graph.bits.len())?;
        let mut blocks = no_blocks(alloc, self.graph.blocks.len())?;
        for place in 0..self.graph.blocks.len() {
            if !self.is_next(place) {
                self.rewrite_chain(&mut known, place, &mut blocks)?;
            }
        }
        Ok(blocks)
    }
}

// So many places without a block.
fn no_blocks(alloc: Global, count: usize) -> Result<Vec<Option<Block>>, AllocError>
    ensures { IfOk result (λ blocks. blocks.items ≡ replicate count None) }
{
    let mut blocks = Vec::new(alloc);
    for _ in 0..count {
        blocks.push(None)?;
    }
    Ok(blocks)
}

// Puts blocks at their places.
fn put(blocks: Vec<Block>, news: Vec<Option<Block>>) -> Vec<Block>
    requires { length news.items ≡ length blocks.items }
    ensures { ArePut blocks.items news.items result.items }
{
    let mut blocks = blocks;
    let mut news = news;
    while let Some(new) = news.pop() {
        if let Some(block) = new {
            blocks[news.len()] = block;
        }
    }
    blocks
}

// The rewritten blocks of a graph, by how its temporaries are read.
fn rewritten_by(
    alloc: Global,
    g: &Graph,
    preds: &Vec<Vec<usize>>,
    reads: &Reads,
) -> Result<Vec<Option<Block>>, AllocError>
    requires { ArePredecessors (successors_of (graph_of g.now)) (rows preds.now.items) }
    ensures count { IfOk result (λ blocks. length blocks.items ≡ length g.now.blocks.items) }
    ensures rewritten { IfOk result (λ blocks. AreRewrittenRows (graph_of g.now) blocks.items) }
{
    let setting = Setting {
        graph: g,
        preds,
        reads,
    };
    setting.rewritten(alloc)
}

// The rewritten blocks of a graph. Where a sum isn't available at each read that takes it, both would stay: then the
// blocks are rewritten anew without it.
fn rewritten_blocks(alloc: Global, g: &Graph) -> Result<Vec<Option<Block>>, AllocError>
    requires { IsGraph (graph_of g.now) }
    ensures count { IfOk result (λ blocks. length blocks.items ≡ length g.now.blocks.items) }
    ensures rewritten { IfOk result (λ blocks. AreRewrittenRows (graph_of g.now) blocks.items) }
{
    let preds = preds(alloc, g)?;
    let mut reads = count_reads(alloc, g)?;
    let news = rewritten_by(alloc, g, &preds, &reads)?;
    if !reads.keep_gone(alloc, g, &news)? {
        return Ok(news);
    }
    rewritten_by(alloc, g, &preds, &reads)
}

/// The graph in which reads of temporaries become what available assignments give them: constants and other
/// temporaries, for the only read of a temporary the expression that it was set to, and a sum with a number where each
/// read stands beside a number, along each chain of blocks. Expressions get at most 32 deep by it. Sets of temporaries that are no longer read stay.
pub fn substitute(alloc: Global, g: Graph) -> Result<Graph, AllocError>
    requires { IsGraph (graph_of g) }
    ensures tidied { IfOk result (λ after. IsTidied (graph_of g) (graph_of after)) }
    ensures depth { IfOk result (λ after. deepest (graph_exprs (graph_of after))
        ≤ max 32 (deepest (graph_exprs (graph_of g)))) }
{
    let news = rewritten_blocks(alloc, &g)?;
    let blocks = put(g.blocks, news);
    Ok(Graph { blocks, ..g })
}
