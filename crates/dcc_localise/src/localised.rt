//! The pass between the procedures of a program.

ghost use Rattle.std.specs.Prelude.{◌≡◌, ℕ, List, IfOk};
ghost use Rattle.dcc_ir.specs.Views.{program_of, summaries_of};
ghost use Rattle.dcc_ir.specs.WellFormed.{IsProgram};
ghost use Rattle.dcc_ir.specs.Passing.{PassesAll};
ghost use Rattle.dcc_sums.specs.Summaries.{AreSummaries, ReusesNone};
ghost use Rattle.dcc_sums.specs.Localised.{summary_at, localised, PassesJust};
ghost use Rattle.dcc_sums.specs.Laws.{IsKeptBy};

use crate::staying::Staying;
use crate::trim::trim_graphs;
use dcc_ir::{IrProgram, Sums};
use std::alloc::{AllocError, Global};

/// The program in which each graph takes the argument words of the stack and the params of its summary, and gives back
/// the results of its summary, as each call passes and takes them. `sums` are of the graphs by their places; a graph
/// without one takes words alone and gives nothing back.
///
/// # Errors
///
/// Where memory runs out.
pub fn localise(alloc: Global, p: IrProgram, sums: &Sums) -> Result<IrProgram, AllocError>
    ensures localised { IfOk result (λ q. program_of q ≡ localised (summaries_of sums.now) (program_of p)) }
    ensures keeps { (back : ℕ → List ℕ) → IsProgram (program_of p) → PassesAll back (program_of p)
        → AreSummaries (program_of p) (summaries_of sums.now) → ReusesNone (program_of p)
        → IfOk result (λ q. IsKeptBy (program_of p) (program_of q)) }
    ensures just { (back : ℕ → List ℕ) → IsProgram (program_of p) → PassesAll back (program_of p)
        → AreSummaries (program_of p) (summaries_of sums.now)
        → IfOk result (λ q. PassesJust (summary_at (program_of p).graphs (summaries_of sums.now)) (program_of q)) }
{
    let staying = Staying::new(alloc, &p, sums)?;
    let graphs = trim_graphs(alloc, &staying, p.graphs)?;
    Ok(IrProgram { graphs, ..p })
}
