//! Each graph after the passes that make it plainer.

ghost use Rattle.std.specs.Prelude.{◌≡◌, ◌≤◌, max, IfOk, All, map};
ghost use Rattle.std.specs.List.{AllZip};
ghost use Rattle.dcc_ir.specs.Views.{graph_of};
ghost use Rattle.dcc_ir.specs.WellFormed.{IsGraph};
ghost use Rattle.dcc_ir.specs.Measure.{deepest};
ghost use Rattle.dcc_ir.specs.Use.{graph_exprs};
ghost use Rattle.dcc_passes.specs.Tidied.{IsTidied};
ghost use Rattle.dcc_rules.specs.Views.{numbers_of};
ghost use Rattle.dcc_live.specs.Dead.{IsWithoutUnneeded};
ghost use Rattle.dcc_tidy.specs.Tidied.{MayStandInText, HasPassesDone, IsTidiedGraph};

use dcc_available::substitute;
use dcc_copies::settle_copies;
use dcc_divisions::drop_divisions;
use dcc_ir::{Graph, Sums};
use dcc_live::{drop_dead, live};
use dcc_loads::loads_as_sets;
use dcc_rules::RuleList;
use dcc_simplify::simplified;
use dcc_webs::split;
use dcc_words::words;
use std::alloc::{AllocError, Global};

// The graph without the assignments that nothing wants.
fn without_dead(alloc: Global, graph: Graph) -> Result<Graph, AllocError>
    requires { IsGraph (graph_of graph) }
    ensures formed { IfOk result (λ after. IsGraph (graph_of after)) }
    ensures without { IfOk result (λ after. IsWithoutUnneeded (graph_of graph) (graph_of after)) }
{
    let no_sums = Sums {
        of: Vec::new(alloc),
    };
    let live = live(alloc, &graph, &no_sums)?;
    drop_dead(alloc, graph, &live)
}

/// So many rounds of passes a graph goes through.
const ROUNDS: u32 = 4;

// What one round leaves of a graph: its expressions are made simpler, reads give way to what is available, one of two
// divisions that fault alike goes, the assignments go that nothing wants, and copies let their source write.
fn round(alloc: Global, graph: Graph, rules: &RuleList) -> Result<Graph, AllocError>
    requires { IsGraph (graph_of graph) }
    ensures tidied { IfOk result (λ after. IsTidied (graph_of graph) (graph_of after)) }
    ensures depth { IfOk result (λ after. deepest (graph_exprs (graph_of after))
        ≤ max 32 (deepest (graph_exprs (graph_of graph)))) }
{
    let simple = simplified(alloc, graph, rules)?;
    let rewritten = substitute(alloc, simple)?;
    let divided = drop_divisions(alloc, rewritten)?;
    let wanted = without_dead(alloc, divided)?;
    let after = settle_copies(alloc, wanted)?;
    Ok(after)
}

// What the rounds leave of a graph.
fn rounds(alloc: Global, graph: Graph, rules: &RuleList) -> Result<Graph, AllocError>
    requires { IsGraph (graph_of graph) }
    ensures tidied { IfOk result (λ after. IsTidied (graph_of graph) (graph_of after)) }
    ensures depth { IfOk result (λ after. deepest (graph_exprs (graph_of after))
        ≤ max 32 (deepest (graph_exprs (graph_of graph)))) }
{
    let mut left = graph;
    for _ in 0..ROUNDS {
        left = round(alloc, left, rules)?;
    }
    Ok(left)
}

// What the passes leave of a graph, in their order.
fn passed(alloc: Global, graph: Graph, rules: &RuleList) -> Result<Graph, AllocError>
    requires { IsGraph (graph_of graph) }
    ensures stands { IfOk result (λ after. MayStandInText (graph_of graph) (graph_of after)) }
    ensures done { IfOk result
        (λ after. HasPassesDone (numbers_of rules.now) (graph_of graph) (graph_of after)) }
{
    let split = split(alloc, graph)?;
    let sets = loads_as_sets(alloc, split)?;
    let words = words(alloc, sets)?;
    let plain = rounds(alloc, words, rules)?;
    let last = simplified(alloc, plain, rules)?;
    let after = without_dead(alloc, last)?;
    Ok(after)
}

// What is tidied of a graph.
fn tidied_graph(alloc: Global, graph: Graph, rules: &RuleList) -> Result<Graph, AllocError>
    requires { IsGraph (graph_of graph) }
    ensures { IfOk result
        (λ after. IsTidiedGraph (numbers_of rules.now) (graph_of graph) (graph_of after)) }
{
    let after = passed(alloc, graph, rules)?;
    Ok(after)
}

/// What the passes leave of each graph, in its place: each web has a temporary of its own, loads are parts of
/// assignments, values stand where they are read, no part of an expression has the form of one of the rules, and nothing
/// is assigned that isn't wanted. That there are more temporaries than 32 bits can number is told as want of memory.
pub fn tidied_graphs(
    alloc: Global,
    graphs: Vec<Graph>,
    rules: &RuleList,
) -> Result<Vec<Graph>, AllocError>
    requires { All IsGraph (map graph_of graphs.items) }
    ensures { IfOk result (λ after. AllZip (IsTidiedGraph (numbers_of rules.now)) (map graph_of graphs.items)
        (map graph_of after.items)) }
{
    let mut after = Vec::new(alloc);
    for graph in graphs {
        after.push(tidied_graph(alloc, graph, rules)?)?;
    }
    Ok(after)
}
