//! The control of a text: the plan of each graph.

ghost use Rattle.std.specs.Prelude.{IfOk};
ghost use Rattle.dcc_ir.specs.Views.{graph_of};
ghost use Rattle.dcc_ir.specs.WellFormed.{IsGraph};
ghost use Rattle.dcc_control.specs.Valid.{IsPlanOf};
ghost use Rattle.dcc_control.specs.Views.{plan_of};
ghost use Rattle.dcc_plan_check.specs.Structured.{BeginsReturns};
ghost use Rattle.dcc_pipe.specs.Control.{IsControlOf, IsTold};

use crate::allowed::may_stand;
use dcc_control::Item;
use dcc_control::complete::completed;
use dcc_control::goto_plan::goto_plan;
use dcc_control::told::told_loops;
use dcc_flow::successors;
use dcc_interval::reduced;
use dcc_ir::Graph;
use dcc_struct::structured;
use std::alloc::{AllocError, Global};

// The structured plan of a graph, its loops told by their tests, completed as a text must be.
fn structured_plan(alloc: Global, graph: &Graph) -> Result<Vec<Item>, AllocError>
    requires { IsGraph (graph_of graph.now) }
    ensures valid { IfOk result (λ plan. IsPlanOf (graph_of graph.now) (plan_of plan.items)) }
    ensures told { IfOk result (λ plan. IsTold (plan_of plan.items)) }
    ensures returns { IfOk result (λ plan. BeginsReturns (graph_of graph.now) (plan_of plan.items)) }
{
    let next = successors(alloc, graph)?;
    let reduction = reduced(alloc, &next, 0)?;
    let plan = structured(alloc, graph, &reduction)?;
    completed(alloc, told_loops(alloc, plan)?)
}

/// The plan of a graph's text: the structured one; where its items may not stand so in a text, the one with jumps alone.
/// What 32 bits can't number is told as want of memory.
pub(crate) fn control_of(alloc: Global, graph: &Graph) -> Result<Vec<Item>, AllocError>
    requires { IsGraph (graph_of graph.now) }
    ensures { IfOk result (λ plan. IsControlOf (graph_of graph.now) (plan_of plan.items)) }
{
    let plan = structured_plan(alloc, graph)?;
    if may_stand(alloc, plan.as_slice())? {
        return Ok(plan);
    }
    completed(alloc, goto_plan(alloc, graph)?)
}
