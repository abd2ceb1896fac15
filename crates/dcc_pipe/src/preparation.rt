//! A program before its text is written.

ghost use Rattle.std.specs.Prelude.{IfOk, IfErr};
ghost use Rattle.dcc_ir.specs.Views.{program_of};
ghost use Rattle.dcc_summaries.specs.Summaries.{IsFault};
ghost use Rattle.dcc_pipe.specs.Prepared.{HasLiftedForm, IsPrepared};

use crate::passes::simplified;
use dcc_ir::IrProgram;
use dcc_localise::localise;
use dcc_signatures::pack;
use dcc_summaries::{SumsFault, sums};
use std::alloc::Global;

/// The program with what a text needs, from one of the form that is lifted: just what is wanted passes between its
/// procedures, a register in one, and each gives at most one value back; then what the passes leave of each graph
/// stands in its place. It keeps the runs and the blocks.
///
/// # Errors
///
/// Where an argument is wanted after a call that may change it, where a procedure gives several values back, and where
/// memory runs out.
pub fn prepared(alloc: Global, p: IrProgram) -> Result<IrProgram, SumsFault>
    requires { HasLiftedForm (program_of p) }
    ensures ready { IfOk result (λ q. IsPrepared (program_of p) (program_of q)) }
    ensures fault { IfErr result (IsFault (program_of p)) }
{
    let sums = sums(alloc, &p)?;
    let localised = localise(alloc, p, &sums)?;
    let packed = pack(alloc, localised)?;
    Ok(simplified(alloc, packed)?)
}
