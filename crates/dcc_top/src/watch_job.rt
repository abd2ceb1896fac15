//! Running an executable with each step's cleanness tested before the step is made.

ghost use Rattle.std.specs.Prelude.{◌≡◌, Ok, IfOk, OnErr};
ghost use Rattle.std.specs.Result.{IsErr};
ghost use Rattle.dcc_console.specs.Counts.{CountsFaults};
ghost use Rattle.dcc_prog.specs.Analysed.{IsProgramOf};
ghost use Rattle.dcc_machine.specs.MzImage.{IsLoaded};
ghost use Rattle.dcc_top.specs.declared.reply.Reply.TheVariants.{InputFault};
ghost use Rattle.dcc_top.specs.Answer.{AllowsWatched, IsCutWatched};
ghost use Rattle.dcc_top.specs.Change.{change};
ghost use Rattle.dcc_top.specs.Delivery.{Answers, CutsShort};
ghost use Rattle.dcc_top.specs.Execution.{IsCutRun};
ghost use Rattle.dcc_top.specs.WatchedRun.{watch_of, FinishesWatched};

use crate::reply::Reply;
use dcc_io::{Failed, Sink, Source};
use dcc_machine::{Cpu, Image};
use dcc_pipe::analyse;
use dcc_prog::Program;
use dcc_step::Stepped;
use dcc_watch::{Watch, Watched};
use std::alloc::Global;

// Runs the program of the image, watched, for at most so many steps, and answers how that finished. The error is a
// failed write of what the program puts out.
fn watch_program<I: Source, O: Sink>(
    alloc: Global,
    image: &Image,
    program: &Program,
    steps: u64,
    input: &mut I,
    out: &mut O,
) -> Result<Reply, Failed>
    requires loaded { IsLoaded image.now }
    requires program { IsProgramOf program.now.layout.cpu image.now program.now }
    ensures ran { IfOk result (Answers
        (FinishesWatched program.now.layout.cpu image.now steps (I.left input.old) (I.left input.new))
        (O.taken out.old) (O.taken out.new)) }
    ensures broke_off { OnErr result (CutsShort (IsCutRun (watch_of image.now program.now) steps
        (change I.left input.old input.new) (change O.taken out.old out.new))
        (O.taken out.old) (O.taken out.new)) }
    ensures faults { CountsFaults (result ≡ Ok InputFault) (IsErr result)
        (I.faults input.old) (I.faults input.new) (O.faults out.old) (O.faults out.new) }
{
    let Ok(mut watch) = Watch::new(alloc, image, program) else {
        return Ok(Reply::Memory);
    };
    match watch.run(input, out, steps) {
        Watched::Clean(Stepped::Running) => Ok(Reply::Unfinished(steps)),
        Watched::Clean(Stepped::Exit(code)) => Ok(Reply::Exited(code)),
        Watched::Clean(Stepped::Divide) => Ok(Reply::Divided),
        Watched::Clean(Stepped::Outside(at)) => Ok(Reply::Outside(at)),
        Watched::Clean(Stepped::InFault) => Ok(Reply::InputFault),
        Watched::Clean(Stepped::OutFault) => Err(Failed),
        Watched::Foul { at, address, kind } => Ok(Reply::Foul { at, address, kind }),
    }
}

/// Runs the image on the processor, watched, for at most so many steps, and answers how that finished, or why the
/// program is refused. The error is a failed write of what the program puts out.
pub(crate) fn watch_image<I: Source, O: Sink>(
    alloc: Global,
    image: &Image,
    cpu: Cpu,
    steps: u64,
    input: &mut I,
    out: &mut O,
) -> Result<Reply, Failed>
    requires { IsLoaded image.now }
    ensures ran { IfOk result (Answers
        (AllowsWatched cpu image.now steps (I.left input.old) (I.left input.new))
        (O.taken out.old) (O.taken out.new)) }
    ensures broke_off { OnErr result (CutsShort (IsCutWatched cpu image.now steps
        (change I.left input.old input.new) (change O.taken out.old out.new))
        (O.taken out.old) (O.taken out.new)) }
    ensures faults { CountsFaults (result ≡ Ok InputFault) (IsErr result)
        (I.faults input.old) (I.faults input.new) (O.faults out.old) (O.faults out.new) }
{
    match analyse(alloc, image, cpu) {
        Ok(program) => watch_program(alloc, image, &program, steps, input, out),
        Err(refusal) => Ok(Reply::from(refusal)),
    }
}
