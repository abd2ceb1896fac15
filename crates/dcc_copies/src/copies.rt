//! The graph in which copies let their source write.

ghost use Rattle.std.specs.Prelude.{◌≡◌, ◌≤◌, IfOk};
ghost use Rattle.dcc_ir.specs.Measure.{deepest};
ghost use Rattle.dcc_ir.specs.Use.{graph_exprs};
ghost use Rattle.dcc_ir.specs.Views.{graph_of};
ghost use Rattle.dcc_ir.specs.WellFormed.{IsGraph};
ghost use Rattle.dcc_passes.specs.Tidied.{IsTidied};
ghost use Rattle.dcc_webs.specs.Temporaries.{HasTempsAlone};
ghost use Rattle.dcc_copies.specs.Settled.{AreSettled};

use crate::choosing::choose;
use dcc_ir::Graph;
use std::alloc::{AllocError, Global};

/// How many lots of copies are settled, one after another.
const LOTS: u32 = 4;

// The graph with one lot of copies settled.
fn settle_lot(alloc: Global, g: Graph) -> Result<Graph, AllocError>
    requires { IsGraph (graph_of g) }
    ensures settled { IfOk result (λ after. AreSettled (graph_of g) (graph_of after)) }
    ensures formed { IfOk result (λ after. IsGraph (graph_of after)) }
{
    let choice = choose(alloc, &g)?;
    if choice.count == 0 || !choice.is_right(alloc, &g)? {
        return Ok(g);
    }
    choice.names.settled(alloc, g)
}

/// The graph in which copies let their source write: of a copy `W := T`, where one statement before it in its chain
/// writes T, W isn't met between the two, and all other reads of T stand between them or behind the copy before W is
/// written again, T's writer writes W, those reads are of W, and the copy goes. A chain is blocks of which each but the
/// first has one edge in, from a Goto of the one before.
pub fn settle_copies(alloc: Global, g: Graph) -> Result<Graph, AllocError>
    requires { IsGraph (graph_of g) }
    ensures settled { IfOk result (λ after. AreSettled (graph_of g) (graph_of after)) }
    ensures tidied { IfOk result (λ after. IsTidied (graph_of g) (graph_of after)) }
    ensures depth { IfOk result (λ after. deepest (graph_exprs (graph_of after)) ≤ deepest (graph_exprs (graph_of g))) }
    ensures temps { IfOk result (λ after. HasTempsAlone (graph_of g) → HasTempsAlone (graph_of after)) }
{
    let mut left = g;
    for _ in 0..LOTS {
        left = settle_lot(alloc, left)?;
    }
    Ok(left)
}
