//! The structured plan of a graph.

ghost use Rattle.std.specs.Prelude.{IfOk};
ghost use Rattle.dcc_ir.specs.Views.{graph_of};
ghost use Rattle.dcc_ir.specs.WellFormed.{IsGraph};
ghost use Rattle.dcc_control.specs.Views.{plan_of};
ghost use Rattle.dcc_plan_check.specs.Structured.{IsStructured, BeginsReturns};

use crate::layout::Layout;
use crate::table::Table;
use crate::walk::Walk;
use dcc_control::Item;
use dcc_control::goto_plan::goto_plan;
use dcc_interval::Reduction;
use dcc_ir::Graph;
use dcc_plan_check::{MOST_NESTED, begins_returns, is_structured};
use std::alloc::{AllocError, Global};

// The blocks that get a label: those that an edge leads back to, and those that a walk without other labels jumps to.
fn labelled(alloc: Global, graph: &Graph, layout: &Layout) -> Result<Table<bool>, AllocError> {
    let count = graph.blocks.len();
    let mut walk = Walk::new(alloc, graph, layout, &layout.returns)?;
    walk.whole(MOST_NESTED)?;
    let mut labelled = Table::new(alloc, count, false)?;
    for block in 0..count {
        labelled.put(block, layout.returns.at(block) || walk.jumped.at(block));
    }
    Ok(labelled)
}

// These items, where they are a plan of the graph with a step on each closed path; else the plan with jumps.
fn tested(alloc: Global, graph: &Graph, items: Vec<Item>) -> Result<Vec<Item>, AllocError>
    requires { IsGraph (graph_of graph.now) }
    ensures structured { IfOk result (λ plan. IsStructured (graph_of graph.now) (plan_of plan.items)) }
    ensures paced { IfOk result (λ plan. BeginsReturns (graph_of graph.now) (plan_of plan.items)) }
{
    let structured = is_structured(alloc, graph, &items)?;
    let paced = begins_returns(alloc, graph, &items)?;
    if structured && paced {
        return Ok(items);
    }
    goto_plan(alloc, graph)
}

/// The structured plan of a graph that is reduced so. A first walk tells which blocks need a label, and a
/// second one has the plan. Where this were none of the graph, or had no step on a closed path, the plan with jumps
/// stands in its place. A block with more statements than 32 bits can number and a choice with more than 65,536 places
/// are told as want of memory.
pub fn structured(
    alloc: Global,
    graph: &Graph,
    reduction: &Reduction,
) -> Result<Vec<Item>, AllocError>
    requires { IsGraph (graph_of graph.now) }
    ensures structured { IfOk result (λ items. IsStructured (graph_of graph.now) (plan_of items.items)) }
    ensures paced { IfOk result (λ items. BeginsReturns (graph_of graph.now) (plan_of items.items)) }
{
    let layout = Layout::of(alloc, graph, reduction)?;
    let labelled = labelled(alloc, graph, &layout)?;
    let mut walk = Walk::new(alloc, graph, &layout, &labelled)?;
    let items = walk.whole(MOST_NESTED)?;
    tested(alloc, graph, items)
}
