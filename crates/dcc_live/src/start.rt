//! What is live where a graph begins.

ghost use Rattle.std.specs.Prelude.{◌≡◌, IfOk};
ghost use Rattle.dcc_ir.specs.declared.syntax.Loc.{Loc as Location};
ghost use Rattle.dcc_ir.specs.Views.{graph_of};
ghost use Rattle.dcc_ir.specs.Live.{is_among};
ghost use Rattle.dcc_ir.specs.WellFormed.{IsGraph};
ghost use Rattle.dcc_live.specs.Start.{begins_live};

use crate::living::live;
use crate::rows::rows;
use dcc_flow::accesses;
use dcc_ir::{Graph, Loc, Sums};
use std::alloc::{AllocError, Global};

/// The locations that are live where the graph begins: those that some path from its first block reads before it writes
/// them.
pub fn live_at_start(alloc: Global, g: &Graph) -> Result<Vec<Loc>, AllocError>
    requires { IsGraph (graph_of g.now) }
    ensures { IfOk result (λ list. (location : Location) → is_among list.items location
        ≡ begins_live (graph_of g.now) location) }
{
    let sums = Sums {
        of: Vec::new(alloc),
    };
    let live = live(alloc, g, &sums)?;
    let blocks = accesses(alloc, g)?;
    let rows = rows(alloc, &blocks)?;
    match (rows.first(), live.at_end.first()) {
        (Some(row), Some(at_end)) => row.live_before(alloc, at_end.as_slice()),
        _ => Ok(Vec::new(alloc)),
    }
}
