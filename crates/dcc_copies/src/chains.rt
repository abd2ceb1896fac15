//! Chains of blocks: each but the first has one edge in, from a Goto of the one before.

ghost use Rattle.dcc_ir.specs.Views.{graph_of};
ghost use Rattle.dcc_ir.specs.WellFormed.{IsGraph};

use dcc_flow::preds;
use dcc_ir::{End, Graph};
use std::alloc::{AllocError, Global};

// The next block of a chain: the one that a block goes to, where no other edge leads there.
fn next(g: &Graph, preds: &[Vec<usize>], place: usize) -> Option<usize> {
    let Some(block) = g.blocks.get(place) else {
        return None;
    };
    let End::Goto(to) = &block.end else {
        return None;
    };
    let to = *to as usize;
    match preds.get(to) {
        Some(from) if to != 0 && to != place && from.len() == 1 => Some(to),
        _ => None,
    }
}

// Whether a block is the next one of another.
fn is_next(g: &Graph, preds: &[Vec<usize>], place: usize) -> bool {
    match preds.get(place) {
        Some(from) if from.len() == 1 => next(g, preds, from[0]) == Some(place),
        _ => false,
    }
}

// The chain that begins with a block.
fn chain(
    alloc: Global,
    g: &Graph,
    preds: &[Vec<usize>],
    head: usize,
) -> Result<Vec<usize>, AllocError> {
    let mut places = Vec::new(alloc);
    let mut place = head;
    for _ in 0..g.blocks.len() {
        places.push(place)?;
        match next(g, preds, place) {
            Some(to) => place = to,
            None => break,
        }
    }
    Ok(places)
}

/// The chains of a graph, each as the places of its blocks.
pub fn chains(alloc: Global, g: &Graph) -> Result<Vec<Vec<usize>>, AllocError>
    requires { IsGraph (graph_of g.now) }
{
    let preds = preds(alloc, g)?;
    let mut chains = Vec::new(alloc);
    for place in 0..g.blocks.len() {
        if !is_next(g, preds.as_slice(), place) {
            chains.push(chain(alloc, g, preds.as_slice(), place)?)?;
        }
    }
    Ok(chains)
}
