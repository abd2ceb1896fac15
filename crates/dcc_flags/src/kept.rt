//! Which flags are kept.

ghost use Rattle.std.specs.Prelude.{◌≡◌, IfOk, MatchBool};
ghost use Rattle.std.specs.List.{list_any};
ghost use Rattle.dcc_ir.specs.declared.syntax.Loc.TheVariants.{Flag};
ghost use Rattle.dcc_ir.specs.Views.{block_of, graph_of};
ghost use Rattle.dcc_ir.specs.Live.{is_among};
ghost use Rattle.dcc_ir.specs.Joinable.{places_of};
ghost use Rattle.dcc_ir.specs.WellFormed.{IsGraph};
ghost use Rattle.dcc_flow.specs.Edges.{rows, successors_of};
ghost use Rattle.dcc_num.specs.declared.FlagName.{FlagName};
ghost use Rattle.dcc_flow.specs.Order.{IsReversePostOrder};
ghost use Rattle.dcc_flags.specs.Reaching.{has_result, IsKept};
ghost use Rattle.dcc_flags.specs.Sources as spec;
ghost use Rattle.dcc_flags.specs.Folding as folding;

use crate::reaching::{Walk, sources};
use crate::sources::Source;
use crate::uses::{end_reads, has_result, is_flag, stmt_reads};
use dcc_ir::{Block, Graph, Param, Put};
use dcc_num::FlagName;
use std::alloc::{AllocError, Global};

/// Which flags are kept.
#[derive(Clone, Copy)]
pub struct Kept {
    pub cf: bool,
    pub zf: bool,
    pub sf: bool,
    pub of: bool,
}

impl Kept {
    /// Whether the flag is kept.
    pub fn has(self, f: FlagName) -> bool
        ensures { result ≡ folding.is_kept self f }
    {
        match f {
            FlagName::Cf => self.cf,
            FlagName::Zf => self.zf,
            FlagName::Sf => self.sf,
            FlagName::Of => self.of,
        }
    }
}

// Whether an argument goes into the flag.
fn takes(f: FlagName, param: Param) -> bool
    ensures { result ≡ is_among (places_of param.put) (Flag f) }
{
    match param.put {
        Put::Memory => false,
        Put::One(location) => is_flag(f, location),
        Put::Two(low, high) => is_flag(f, low) || is_flag(f, high),
    }
}

// Whether a call in the block gives the flag back.
fn gives(f: FlagName, block: &Block) -> bool
    ensures { result ≡ list_any (has_result f) (block_of block.now).stmts }
{
    block.stmts.iter().any(|stmt| has_result(f, stmt))
}

// Whether an argument goes into the flag, or a call gives it back.
fn is_passed(f: FlagName, g: &Graph) -> bool
    ensures { result ≡ spec.is_passed f (graph_of g.now) }
{
    g.params.iter().any(|param| takes(f, *param)) || g.blocks.iter().any(|block| gives(f, block))
}

// Whether several definitions of the flag reach one read in a block.
fn mixes(f: FlagName, source: Source, place: usize, block: &Block) -> bool
    ensures { result ≡ spec.mixes f source place 0 (block_of block.now).stmts (block_of block.now).exit }
{
    let mut source = source;
    for k in 0..block.stmts.len() {
        let stmt = &block.stmts[k];
        if source.is_mixed() && stmt_reads(f, stmt) {
            return true;
        }
        source = source.moved(f, place, k, stmt);
    }
    source.is_mixed() && end_reads(f, &block.end)
}

// Whether the flag is kept.
fn is_kept(alloc: Global, f: FlagName, walk: &Walk<'_>) -> Result<bool, AllocError>
    requires graph { IsGraph (graph_of walk.now.graph.now) }
    requires next { rows walk.now.next.now.items ≡ successors_of (graph_of walk.now.graph.now) }
    requires order { IsReversePostOrder (graph_of walk.now.graph.now) walk.now.order.now }
    ensures { IfOk result (λ kept. MatchBool kept
        (IsKept (graph_of walk.now.graph.now) f) (¬ IsKept (graph_of walk.now.graph.now) f)) }
{
    if is_passed(f, walk.graph) {
        return Ok(true);
    }
    let table = sources(alloc, f, walk)?;
    for place in 0..table.len() {
        if mixes(f, table[place], place, &walk.graph.blocks[place]) {
            return Ok(true);
        }
    }
    Ok(false)
}

/// Which flags are kept.
pub(crate) fn kept_flags(alloc: Global, walk: &Walk<'_>) -> Result<Kept, AllocError>
    requires graph { IsGraph (graph_of walk.now.graph.now) }
    requires next { rows walk.now.next.now.items ≡ successors_of (graph_of walk.now.graph.now) }
    requires order { IsReversePostOrder (graph_of walk.now.graph.now) walk.now.order.now }
    ensures { IfOk result (λ kept. (f : FlagName)
        → MatchBool (folding.is_kept kept f)
        (IsKept (graph_of walk.now.graph.now) f) (¬ IsKept (graph_of walk.now.graph.now) f)) }
{
    Ok(Kept {
        cf: is_kept(alloc, FlagName::Cf, walk)?,
        zf: is_kept(alloc, FlagName::Zf, walk)?,
        sf: is_kept(alloc, FlagName::Sf, walk)?,
        of: is_kept(alloc, FlagName::Of, walk)?,
    })
}
