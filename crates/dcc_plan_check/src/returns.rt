//! Whether the text of a plan has a step on each closed path of its graph.

ghost use Rattle.std.specs.Prelude.{◌≡◌, true, get_or, All, IfOk};
ghost use Rattle.dcc_ir.specs.Views.{graph_of};
ghost use Rattle.dcc_ir.specs.WellFormed.{IsGraph};
ghost use Rattle.dcc_control.specs.Views.{plan_of};
ghost use Rattle.dcc_plan_check.specs.Checked.{has_step_in, RisesFrom};
ghost use Rattle.dcc_plan_check.specs.Structured.{BeginsReturns};

use crate::labels::{Labels, labels_of};
use crate::point::{goes_on, only_goes_at};
use crate::valid::is_marked;
use dcc_control::Item;
use dcc_flow::order;
use dcc_ir::Graph;
use std::alloc::{AllocError, Global};

// The text has a step for the block.
fn has_step(graph: &Graph, labels: &Labels, b: u32) -> bool
    ensures { result ≡ has_step_in (graph_of graph.now) labels.now.marked.items b }
{
    is_marked(labels, b) || !only_goes_at(graph, b)
}

// The number of a block; 0 where there is none for it.
fn number_of(numbers: &Vec<usize>, b: u32) -> usize
    ensures { result ≡ get_or numbers.now.items b 0 }
{
    match numbers.get(b as usize) {
        Some(number) => *number,
        None => 0,
    }
}

// The text has a step for the block, or the block goes to one for which the text has one, or which has a greater number.
fn rises_from(graph: &Graph, labels: &Labels, numbers: &Vec<usize>, b: u32) -> bool
    ensures { result ≡ true → RisesFrom (graph_of graph.now) labels.now.marked.items numbers.now.items b }
{
    if has_step(graph, labels, b) {
        return true;
    }
    match goes_on(graph, b, 0) {
        Some(to) => has_step(graph, labels, to) || number_of(numbers, b) < number_of(numbers, to),
        None => false,
    }
}

// From each of these blocks without a step edges lead to blocks with one or with a greater number.
fn all_rise(graph: &Graph, labels: &Labels, numbers: &Vec<usize>, blocks: &[u32]) -> bool
    ensures { result ≡ true
        → All (RisesFrom (graph_of graph.now) labels.now.marked.items numbers.now.items) blocks.now }
{
    for block in blocks {
        if !rises_from(graph, labels, numbers, *block) {
            return false;
        }
    }
    true
}

// The place in the list of each of so many blocks; 0 where it stands there nowhere.
fn numbers_of(alloc: Global, count: usize, blocks: &[u32]) -> Result<Vec<usize>, AllocError> {
    let mut numbers = vec![in alloc; 0; count]?;
    for (number, block) in blocks.iter().enumerate() {
        if (*block as usize) < numbers.len() {
            numbers[*block as usize] = number;
        }
    }
    Ok(numbers)
}

/// The text of the plan has a step on each closed path of reached blocks. A block without one must go to a block with
/// one, or to one that comes later in the reverse post order.
pub fn begins_returns(alloc: Global, graph: &Graph, items: &[Item]) -> Result<bool, AllocError>
    requires { IsGraph (graph_of graph.now) }
    ensures { IfOk result (λ yes. yes ≡ true → BeginsReturns (graph_of graph.now) (plan_of items.now)) }
{
    let Some(labels) = labels_of(alloc, graph.blocks.len(), items)? else {
        return Ok(false);
    };
    let order = order(alloc, graph)?;
    let numbers = numbers_of(alloc, graph.blocks.len(), &order)?;
    Ok(all_rise(graph, &labels, &numbers, &order))
}
