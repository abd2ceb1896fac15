//! The elimination of flags.

ghost use Rattle.std.specs.Prelude.{◌≡◌, ◌<◌, length, map, replicate, All, IfOk, OnOk};
ghost use Rattle.dcc_ir.specs.Views.{stmt_of, block_of, graph_of};
ghost use Rattle.dcc_ir.specs.WellFormed.{IsGraph};
ghost use Rattle.dcc_flow.specs.Edges.{rows, successors_of};
ghost use Rattle.dcc_ir.specs.Flow.{targets};
ghost use Rattle.dcc_ir.specs.Live.{block_in};
ghost use Rattle.dcc_flags.specs.Folded.{IsFolded};
ghost use Rattle.dcc_flags.specs.Folding as spec;
ghost use Rattle.dcc_flags.specs.Folding.{choices_of, folding_of};

use crate::choices::Choices;
use crate::kept::{Kept, kept_flags};
use crate::reaching::Walk;
use crate::writer::{Writer, next_temporary};
use dcc_flow::{order, successors};
use dcc_ir::{Block, Graph, Loc, Stmt};
use std::alloc::{AllocError, Global};

// Whether a statement sets a flag that is not kept.
fn goes(kept: Kept, stmt: &Stmt) -> bool
    ensures { result ≡ spec.goes_with kept (stmt_of stmt.now) }
{
    match stmt {
        Stmt::Set {
            place: Loc::Flag(f),
            ..
        } => !kept.has(*f),
        _ => false,
    }
}

// The statements of a block to which no run comes: definitions of flags that are not kept go.
fn bare_stmts(
    alloc: Global,
    kept: Kept,
    choices: &Choices,
    stmts: &[Stmt],
) -> Result<Vec<Stmt>, AllocError>
    ensures { IfOk result (λ bare. map stmt_of bare.items
        ≡ spec.bare_stmts kept (choices_of choices.now) (map stmt_of stmts.now)) }
{
    let mut bare = Vec::new(alloc);
    for stmt in stmts {
        if !goes(kept, stmt) {
            bare.push(choices.within_stmt(alloc, stmt)?)?;
        }
    }
    Ok(bare)
}

// The blocks as if no run came there.
fn bare_blocks(
    alloc: Global,
    kept: Kept,
    choices: &Choices,
    blocks: &Vec<Block>,
) -> Result<Vec<Block>, AllocError>
    ensures { IfOk result (λ bare. map block_of bare.items
        ≡ map (spec.bare_block kept (choices_of choices.now)) (map block_of blocks.now.items)) }
{
    let mut bare = Vec::new(alloc);
    for block in blocks {
        bare.push(Block {
            at: block.at,
            stmts: bare_stmts(alloc, kept, choices, block.stmts.as_slice())?,
            end: choices.within_end(alloc, &block.end)?,
        })?;
    }
    Ok(bare)
}

/// What is folded so far.
#[derive(Drop)]
pub struct Folding {
    pub alloc: Global,
    /// Which flags are kept.
    pub kept: Kept,
    /// The bits of each temporary.
    pub bits: Vec<u8>,
    /// The choices with which each block begins.
    pub given: Vec<Choices>,
    pub blocks: Vec<Block>,
}

// A number of copies of the choices.
fn repeated(alloc: Global, choices: &Choices, count: usize) -> Result<Vec<Choices>, AllocError>
    ensures { IfOk result (λ all. map choices_of all.items ≡ replicate count (choices_of choices.now)) }
{
    let mut all = Vec::new(alloc);
    for _ in 0..count {
        all.push(choices.copy(alloc)?)?;
    }
    Ok(all)
}

// Notes that the listed blocks begin with the choices.
fn give(
    alloc: Global,
    choices: &Choices,
    given: &mut Vec<Choices>,
    places: &[u32],
) -> Result<(), AllocError>
    requires { All (λ place. place < length given.old.items) places.now }
    ensures { OnOk result (map choices_of given.new.items
        ≡ spec.given_to (choices_of choices.now) (map choices_of given.old.items) places.now) }
{
    for place in places {
        given[*place as usize] = choices.copy(alloc)?;
    }
    Ok(())
}

impl Folding {
    // A folding in which nothing is folded yet: each block begins with the given choices, and stands as if no run came
    // there.
    fn new(alloc: Global, kept: Kept, choices: &Choices, g: &Graph) -> Result<Folding, AllocError>
        ensures folding { IfOk result (λ folding. folding_of folding
            ≡ spec.first_folding kept (choices_of choices.now) (graph_of g.now)) }
        ensures kept { IfOk result (λ folding. folding.kept ≡ kept) }
    {
        let mut bits = g.bits.clone()?;
        bits.push(1)?;
        Ok(Folding {
            alloc,
            kept,
            bits,
            given: repeated(alloc, choices, g.blocks.len())?,
            blocks: bare_blocks(alloc, kept, choices, &g.blocks)?,
        })
    }

    // Folds a block; the blocks after it begin with its choices.
    fn fold_block(self, g: &Graph, place: usize, next: &[u32]) -> Result<Folding, AllocError>
        requires place { place < length g.now.blocks.items }
        requires blocks { length self.blocks.items ≡ length g.now.blocks.items }
        requires given { length self.given.items ≡ length g.now.blocks.items }
        requires next { next.now ≡ targets (block_in (graph_of g.now) place).exit }
        requires targets { All (λ place. place < length g.now.blocks.items) next.now }
        ensures folding { IfOk result (λ folding. folding_of folding ≡ spec.fold_block self.kept (graph_of g.now)
            (spec.first_choices self.kept (length g.now.bits.items)) (folding_of self) place) }
        ensures kept { IfOk result (λ folding. folding.kept ≡ self.kept) }
    {
        let block = &g.blocks[place];
        let mut choices = self.given[place].copy(self.alloc)?;
        let mut writer = Writer {
            alloc: self.alloc,
            kept: self.kept,
            bits: self.bits,
            stmts: Vec::new(self.alloc),
        };
        writer.fold_stmts(&mut choices, block.stmts.as_slice())?;
        let end = choices.within_end(self.alloc, &block.end)?;
        let mut blocks = self.blocks;
        blocks[place] = Block {
            at: block.at,
            stmts: writer.stmts,
            end,
        };
        let mut given = self.given;
        give(self.alloc, &choices, &mut given, next)?;
        Ok(Folding {
            bits: writer.bits,
            given,
            blocks,
            ..self
        })
    }

    // Folds the blocks in the given order.
    fn fold_blocks(
        self,
        g: &Graph,
        next: &Vec<Vec<u32>>,
        order: &[u32],
    ) -> Result<Folding, AllocError>
        requires graph { IsGraph (graph_of g.now) }
        requires blocks { length self.blocks.items ≡ length g.now.blocks.items }
        requires given { length self.given.items ≡ length g.now.blocks.items }
        requires next { rows next.now.items ≡ successors_of (graph_of g.now) }
        requires order { All (λ place. place < length g.now.blocks.items) order.now }
        ensures { IfOk result (λ folding. folding_of folding ≡ spec.fold_blocks self.kept (graph_of g.now)
            (spec.first_choices self.kept (length g.now.bits.items)) (folding_of self) order.now) }
    {
        let mut folding = self;
        for place in order {
            let place = *place as usize;
            folding = folding.fold_block(g, place, next[place].as_slice())?;
        }
        Ok(folding)
    }
}

/// The graph without the flags that are not kept: a read becomes what the one definition computed that reaches it, over
/// temporaries that took the operands there.
///
/// # Errors
///
/// Where memory runs out, or the graph would have 2^32 temporaries.
pub fn fold_flags(alloc: Global, g: Graph) -> Result<Graph, AllocError>
    requires { IsGraph (graph_of g) }
    ensures { IfOk result (λ after. IsFolded (graph_of g) (graph_of after)) }
{
    let next = successors(alloc, &g)?;
    let order = order(alloc, &g)?;
    let walk = Walk {
        graph: &g,
        next: &next,
        order: order.as_slice(),
    };
    let kept = kept_flags(alloc, &walk)?;
    let fill = next_temporary(g.bits.as_slice())?;
    let bare = Folding::new(alloc, kept, &Choices::first(kept, fill), &g)?;
    let folding = bare.fold_blocks(&g, &next, order.as_slice())?;
    Ok(Graph {
        blocks: folding.blocks,
        bits: folding.bits,
        ..g
    })
}
