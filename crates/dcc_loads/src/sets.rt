//! An assignment of a load for each statement that loads.

ghost use Rattle.std.specs.Prelude.{◌≡◌, ◌≤◌, suc, map, IfOk};
ghost use Rattle.dcc_ir.specs.Views.{stmt_of, block_of, graph_of};
ghost use Rattle.dcc_ir.specs.WellFormed.{IsGraph};
ghost use Rattle.dcc_ir.specs.Measure.{deepest};
ghost use Rattle.dcc_ir.specs.Use.{graph_exprs};
ghost use Rattle.dcc_passes.specs.Tidied.{IsTidied};
ghost use Rattle.dcc_loads.specs.Sets as spec;
ghost use Rattle.dcc_loads.specs.Sets.{with_sets};

use dcc_ir::{Block, Expr, Graph, Stmt};
use std::alloc::{AllocError, Global};

// The statement; where it loads, an assignment of a load.
fn as_set(alloc: Global, stmt: Stmt) -> Result<Stmt, AllocError>
    ensures { IfOk result (λ after. stmt_of after ≡ spec.as_set (stmt_of stmt)) }
{
    match stmt {
        Stmt::Load {
            place,
            width,
            address,
        } => {
            let value = Expr::load(alloc, width, address)?;
            Ok(Stmt::Set { place, value })
        }
        stmt => Ok(stmt),
    }
}

// The statements, each that loads as an assignment of a load.
fn with_stmts(alloc: Global, stmts: Vec<Stmt>) -> Result<Vec<Stmt>, AllocError>
    ensures { IfOk result (λ after. map stmt_of after.items ≡ map spec.as_set (map stmt_of stmts.items)) }
{
    let mut after = Vec::new(alloc);
    for stmt in stmts {
        after.push(as_set(alloc, stmt)?)?;
    }
    Ok(after)
}

// The blocks with such statements.
fn with_blocks(alloc: Global, blocks: Vec<Block>) -> Result<Vec<Block>, AllocError>
    ensures { IfOk result (λ after. map block_of after.items ≡ map spec.block_with_sets (map block_of blocks.items)) }
{
    let mut after = Vec::new(alloc);
    for block in blocks {
        after.push(Block {
            at: block.at,
            stmts: with_stmts(alloc, block.stmts)?,
            end: block.end,
        })?;
    }
    Ok(after)
}

/// The graph with an assignment of a load for each statement that loads, and nothing else changed.
pub fn loads_as_sets(alloc: Global, g: Graph) -> Result<Graph, AllocError>
    requires { IsGraph (graph_of g) }
    ensures sets { IfOk result (λ after. graph_of after ≡ with_sets (graph_of g)) }
    ensures tidied { IfOk result (λ after. IsTidied (graph_of g) (graph_of after)) }
    ensures depth { IfOk result
        (λ after. deepest (graph_exprs (graph_of after)) ≤ suc (deepest (graph_exprs (graph_of g)))) }
{
    let blocks = with_blocks(alloc, g.blocks)?;
    Ok(Graph { blocks, ..g })
}
