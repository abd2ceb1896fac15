//! Running a text.

ghost use Rattle.std.specs.Prelude.{◌≡◌, Ok, IfOk, OnErr};
ghost use Rattle.std.specs.Result.{IsErr};
ghost use Rattle.dcc_c.specs.Views.{tree_of};
ghost use Rattle.dcc_console.specs.Counts.{CountsFaults};
ghost use Rattle.dcc_top.specs.declared.reply.Reply.TheVariants.{InputFault};
ghost use Rattle.dcc_top.specs.Answer.{HasSomeText, RunsUnit, IsCutUnit};
ghost use Rattle.dcc_top.specs.Change.{change};
ghost use Rattle.dcc_top.specs.Delivery.{Answers, CutsShort};

use crate::reply::Reply;
use dcc_c::Unit;
use dcc_crun::{CRun, CStepped};
use dcc_io::{Failed, Sink, Source};
use std::alloc::Global;

/// Runs the unit for at most so many steps, and answers how that finished. The error is a failed write of what the
/// text puts out.
pub(crate) fn execute_unit<I: Source, O: Sink>(
    alloc: Global,
    unit: &Unit,
    steps: u64,
    fill: u16,
    input: &mut I,
    out: &mut O,
) -> Result<Reply, Failed>
    requires { HasSomeText (tree_of unit.now) }
    ensures ran { IfOk result (Answers
        (RunsUnit (tree_of unit.now) steps fill (I.left input.old) (I.left input.new))
        (O.taken out.old) (O.taken out.new)) }
    ensures broke_off { OnErr result (CutsShort (IsCutUnit (tree_of unit.now) steps fill
        (change I.left input.old input.new) (change O.taken out.old out.new))
        (O.taken out.old) (O.taken out.new)) }
    ensures faults { CountsFaults (result ≡ Ok InputFault) (IsErr result)
        (I.faults input.old) (I.faults input.new) (O.faults out.old) (O.faults out.new) }
{
    let Ok(mut running) = CRun::new(alloc, unit, fill) else {
        return Ok(Reply::Memory);
    };
    match running.run(alloc, input, out, steps) {
        CStepped::Running => Ok(Reply::Unfinished(steps)),
        CStepped::Exit(code) => Ok(Reply::Exited(code)),
        CStepped::Divide => Ok(Reply::Divided),
        CStepped::Stuck(line) => Ok(Reply::Stuck(line)),
        CStepped::InFault => Ok(Reply::InputFault),
        CStepped::OutFault => Err(Failed),
        CStepped::Memory => Ok(Reply::Memory),
    }
}
