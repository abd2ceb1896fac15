//! Graphs with their expressions made simpler.

ghost use Rattle.std.specs.Prelude.{◌≤◌, map, IfOk};
ghost use Rattle.std.specs.List.{AllZip};
ghost use Rattle.dcc_ir.specs.Views.{stmt_of, block_of, graph_of};
ghost use Rattle.dcc_ir.specs.Use.{graph_exprs};
ghost use Rattle.dcc_ir.specs.Measure.{deepest};
ghost use Rattle.dcc_ir.specs.WellFormed.{IsGraph};
ghost use Rattle.dcc_passes.specs.Tidied.{IsTidied};
ghost use Rattle.dcc_rules.specs.Views.{numbers_of};
ghost use Rattle.dcc_simplify.specs.Reshaped.{IsStmtAs, IsBlockAs, IsGraphAs};
ghost use Rattle.dcc_simplify.specs.Simplified.{IsSimplified};

use crate::statement::Simplifier;
use dcc_ir::{Block, Graph, Stmt};
use dcc_rules::RuleList;
use std::alloc::{AllocError, Global};

// The statements with their expressions made simpler.
fn statements(by: &Simplifier, stmts: Vec<Stmt>) -> Result<Vec<Stmt>, AllocError>
    ensures { IfOk result (λ o. AllZip (IsStmtAs (IsSimplified (numbers_of by.now.rules.now) by.now.bits.now))
        (map stmt_of stmts.items) (map stmt_of o.items)) }
{
    let mut done = Vec::new(by.alloc);
    for stmt in stmts {
        done.push(by.statement(stmt)?)?;
    }
    Ok(done)
}

// The blocks with their expressions made simpler.
fn blocks_by(by: &Simplifier, blocks: Vec<Block>) -> Result<Vec<Block>, AllocError>
    ensures { IfOk result (λ o. AllZip (IsBlockAs (IsSimplified (numbers_of by.now.rules.now) by.now.bits.now))
        (map block_of blocks.items) (map block_of o.items)) }
{
    let mut done = Vec::new(by.alloc);
    for block in blocks {
        let stmts = statements(by, block.stmts)?;
        let end = by.end(block.end)?;
        done.push(Block {
            at: block.at,
            stmts,
            end,
        })?;
    }
    Ok(done)
}

/// The graph with each of its expressions made simpler by the rules, until no part of it has the form of one of them. Of
/// a division that may end the run the two operands are made simpler.
pub fn simplified(alloc: Global, g: Graph, rules: &RuleList) -> Result<Graph, AllocError>
    requires { IsGraph (graph_of g) }
    ensures simplified { IfOk result (λ after.
        IsGraphAs (IsSimplified (numbers_of rules.now) g.bits.items) (graph_of g) (graph_of after)) }
    ensures tidied { IfOk result (λ after. IsTidied (graph_of g) (graph_of after)) }
    ensures depth { IfOk result (λ after.
        deepest (graph_exprs (graph_of after)) ≤ deepest (graph_exprs (graph_of g))) }
{
    let bits = g.bits;
    let by = Simplifier {
        alloc,
        rules,
        bits: bits.as_slice(),
    };
    let blocks = blocks_by(&by, g.blocks)?;
    Ok(Graph {
        entry: g.entry,
        params: g.params,
        local: g.local,
        pushed: g.pushed,
        blocks,
        bits,
    })
}
