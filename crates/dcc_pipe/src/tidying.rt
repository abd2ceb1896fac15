//! The passes that make the graphs of a prepared program plainer.

ghost use Rattle.std.specs.Prelude.{IfOk, All};
ghost use Rattle.dcc_ir.specs.Views.{program_of};
ghost use Rattle.dcc_ir.specs.WellFormed.{IsGraph};
ghost use Rattle.dcc_rules.specs.Views.{numbers_of};
ghost use Rattle.dcc_tidy.specs.Tidied.{IsTidiedGraph};
ghost use Rattle.dcc_pipe.specs.Simplified.{HasEachChanged};

use dcc_ir::IrProgram;
use dcc_rules::RuleList;
use dcc_tidy::tidied_graphs;
use std::alloc::{AllocError, Global};

/// The program with what the passes leave of each graph in its place, by these rules.
pub(crate) fn tidied(alloc: Global, p: IrProgram, rules: &RuleList) -> Result<IrProgram, AllocError>
    requires { All IsGraph (program_of p).graphs }
    ensures { IfOk result
        (λ after. HasEachChanged (IsTidiedGraph (numbers_of rules.now)) (program_of p) (program_of after)) }
{
    let graphs = tidied_graphs(alloc, p.graphs, rules)?;
    Ok(IrProgram {
        graphs,
        image: p.image,
        lo: p.lo,
        hi: p.hi,
    })
}
