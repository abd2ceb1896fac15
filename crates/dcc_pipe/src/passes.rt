//! The passes over a program before its text is written.

ghost use Rattle.std.specs.Prelude.{IfOk, All};
ghost use Rattle.dcc_ir.specs.Views.{graph_of, program_of};
ghost use Rattle.dcc_ir.specs.WellFormed.{IsGraph};
ghost use Rattle.dcc_live.specs.Dead.{IsWithoutUnneeded};
ghost use Rattle.dcc_pipe.specs.Simplified.{IsSimplifiedGraph, HasEachChanged};

use dcc_flags::fold_flags;
use dcc_ir::{Graph, IrProgram, Sums};
use dcc_live::{drop_dead, live};
use std::alloc::{AllocError, Global};

// The graph without the assignments that nothing wants.
fn without_dead(alloc: Global, graph: Graph) -> Result<Graph, AllocError>
    requires { IsGraph (graph_of graph) }
    ensures formed { IfOk result (λ after. IsGraph (graph_of after)) }
    ensures without { IfOk result (λ after. IsWithoutUnneeded (graph_of graph) (graph_of after)) }
{
    let live = live(
        alloc,
        &graph,
        &Sums {
            of: Vec::new(alloc),
        },
    )?;
    drop_dead(alloc, graph, &live)
}

// What the passes leave of a graph, in their order: assignments that nothing wants go; then each flag, but those that
// several definitions give to one read; and then the assignments that nothing wants any more.
fn simplified_graph(alloc: Global, graph: Graph) -> Result<Graph, AllocError>
    requires { IsGraph (graph_of graph) }
    ensures { IfOk result (λ after. IsSimplifiedGraph (graph_of graph) (graph_of after)) }
{
    let wanted = without_dead(alloc, graph)?;
    let folded = fold_flags(alloc, wanted)?;
    without_dead(alloc, folded)
}

/// The program with what the passes leave of each graph in its place.
pub(crate) fn simplified(alloc: Global, p: IrProgram) -> Result<IrProgram, AllocError>
    requires { All IsGraph (program_of p).graphs }
    ensures { IfOk result (λ after. HasEachChanged IsSimplifiedGraph (program_of p) (program_of after)) }
{
    let mut graphs = Vec::new(alloc);
    for graph in p.graphs {
        graphs.push(simplified_graph(alloc, graph)?)?;
    }
    Ok(IrProgram {
        graphs,
        image: p.image,
        lo: p.lo,
        hi: p.hi,
    })
}
