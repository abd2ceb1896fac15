//! Running an executable.

ghost use Rattle.std.specs.Prelude.{◌≡◌, Ok, IfOk, OnErr};
ghost use Rattle.std.specs.Result.{IsErr};
ghost use Rattle.dcc_console.specs.Counts.{CountsFaults};
ghost use Rattle.dcc_machine.specs.MzImage.{IsLoaded};
ghost use Rattle.dcc_top.specs.declared.reply.Reply.TheVariants.{InputFault};
ghost use Rattle.dcc_top.specs.Change.{change};
ghost use Rattle.dcc_top.specs.Delivery.{Answers, CutsShort};
ghost use Rattle.dcc_top.specs.Execution.{machine_of, Finishes, IsCutRun};

use crate::reply::Reply;
use dcc_io::{Failed, Sink, Source};
use dcc_machine::{Cpu, Image};
use dcc_step::{Machine, Stepped};
use std::alloc::Global;

/// Runs the image on the processor for at most so many steps, and answers how that finished. The error is a failed
/// write of what the program puts out.
pub fn execute<I: Source, O: Sink>(
    alloc: Global,
    image: &Image,
    cpu: Cpu,
    steps: u64,
    input: &mut I,
    out: &mut O,
) -> Result<Reply, Failed>
    requires { IsLoaded image.now }
    ensures ran { IfOk result (Answers
        (Finishes (machine_of cpu image.now) steps (I.left input.old) (I.left input.new))
        (O.taken out.old) (O.taken out.new)) }
    ensures broke_off { OnErr result (CutsShort (IsCutRun (machine_of cpu image.now) steps
        (change I.left input.old input.new) (change O.taken out.old out.new))
        (O.taken out.old) (O.taken out.new)) }
    ensures faults { CountsFaults (result ≡ Ok InputFault) (IsErr result)
        (I.faults input.old) (I.faults input.new) (O.faults out.old) (O.faults out.new) }
{
    let Ok(mut machine) = Machine::new(alloc, image, cpu) else {
        return Ok(Reply::Memory);
    };
    match machine.run(input, out, steps) {
        Stepped::Running => Ok(Reply::Unfinished(steps)),
        Stepped::Exit(code) => Ok(Reply::Exited(code)),
        Stepped::Divide => Ok(Reply::Divided),
        Stepped::Outside(at) => Ok(Reply::Outside(at)),
        Stepped::InFault => Ok(Reply::InputFault),
        Stepped::OutFault => Err(Failed),
    }
}
