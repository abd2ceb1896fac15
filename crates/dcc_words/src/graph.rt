//! The graph in which pairs of temporaries are words.

ghost use Rattle.std.specs.Prelude.{◌≡◌, ◌≤◌, ◌+◌, ◌++◌, map, IfOk};
ghost use Rattle.dcc_ir.specs.Views.{graph_of};
ghost use Rattle.dcc_ir.specs.WellFormed.{IsGraph};
ghost use Rattle.dcc_ir.specs.Measure.{deepest};
ghost use Rattle.dcc_ir.specs.Use.{graph_exprs};
ghost use Rattle.dcc_passes.specs.Tidied.{IsTidied};
ghost use Rattle.dcc_webs.specs.Temporaries.{HasTempsAlone};
ghost use Rattle.dcc_ir.specs.declared.syntax.Loc.{Loc as Location};
ghost use Rattle.dcc_words.specs.Words as spec;
ghost use Rattle.dcc_words.specs.Words.{ReadsWords, IsWithWords};
ghost use Rattle.dcc_words.specs.Roles.{role_of};

use crate::choice::pairs_of;
use crate::rewriting::Rewriter;
use crate::roles::{Pair, Roles, are_all_halves};
use dcc_ir::Graph;
use std::alloc::{AllocError, Global};

// The bits of the words.
fn word_bits(alloc: Global, pairs: Vec<Pair>) -> Result<Vec<u8>, AllocError>
    ensures { IfOk result (λ words. words.items ≡ map (λ pair. 16) pairs.items) }
{
    let mut words = Vec::new(alloc);
    for pair in pairs {
        words.push(pair.word_bits())?;
    }
    Ok(words)
}

// The bits of the temporaries, and of the words after them.
fn with_words(alloc: Global, bits: Vec<u8>, pairs: Vec<Pair>) -> Result<Vec<u8>, AllocError>
    ensures { IfOk result (λ after. after.items ≡ bits.items ++ map (λ pair. 16) pairs.items) }
{
    let words = word_bits(alloc, pairs)?;
    let mut after = bits;
    after.extend_from_slice(words.as_slice())?;
    Ok(after)
}

// The graph with words for pairs that may become words.
fn rewritten(alloc: Global, g: Graph, roles: &Roles, pairs: Vec<Pair>) -> Result<Graph, AllocError>
    requires { (l : Location) → role_of roles.now l ≡ spec.role_in pairs.items g.bits.items l }
    ensures { IfOk result (λ after. IsWithWords pairs.items (graph_of g) (graph_of after)) }
{
    let by = Rewriter { alloc, roles };
    let blocks = by.blocks(g.blocks)?;
    let params = by.params(g.params)?;
    let bits = with_words(alloc, g.bits, pairs)?;
    Ok(Graph {
        blocks,
        params,
        bits,
        ..g
    })
}

/// The graph in which some pairs of temporaries of 8 bits, each used as one word, are temporaries of 16 bits. Sets of both
/// halves are one Set of the word, a read of a half is a part of the word, and a parameter of both halves is one of the
/// word. That there are more temporaries than 32 bits can number is told as want of memory.
pub fn words(alloc: Global, g: Graph) -> Result<Graph, AllocError>
    requires { IsGraph (graph_of g) }
    ensures words { IfOk result (λ after. ReadsWords (graph_of g) (graph_of after)) }
    ensures tidied { IfOk result (λ after. IsTidied (graph_of g) (graph_of after)) }
    ensures depth { IfOk result
        (λ after. deepest (graph_exprs (graph_of after)) ≤ deepest (graph_exprs (graph_of g)) + 2) }
    ensures temps { IfOk result (λ after. HasTempsAlone (graph_of g) → HasTempsAlone (graph_of after)) }
{
    let pairs = pairs_of(alloc, &g)?;
    if !are_all_halves(g.bits.as_slice(), pairs.as_slice()) {
        return Ok(g);
    }
    let roles = Roles::new(alloc, g.bits.as_slice(), pairs.as_slice())?;
    if !roles.may_become_words(alloc, &g, pairs.as_slice())? {
        return Ok(g);
    }
    let after = rewritten(alloc, g, &roles, pairs)?;
    Ok(after)
}
