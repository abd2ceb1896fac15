//! The watch: steps and runs.

ghost use Rattle.std.specs.Prelude.{◌≡◌, ◌≢◌, IfOk, true};
ghost use Rattle.dcc_run.specs.End.{Running as running};
ghost use Rattle.dcc_machine.specs.MzImage.{IsLoaded};
ghost use Rattle.dcc_prog.specs.Analysed.{IsProgramOf};
ghost use Rattle.dcc_console.specs.Counts.{CountsFaults};
ghost use Rattle.dcc_console.specs.WithConsole.{beside_console};
ghost use Rattle.dcc_console.specs.Steps.{Runs, made};
ghost use Rattle.dcc_step.specs.Stepped.{counted};
ghost use Rattle.dcc_watch.specs.Executor.{watched, outcome_of, is_refused, foul_answer, Tells, StepAnswers};
ghost use Rattle.dcc_watch.specs.Executor.{first_watching, is_at_first, is_in_procedures, is_going, goes_on};

use crate::frames::Frames;
use crate::judge::{Foul, next_foul};
use crate::marks::Marks;
use crate::progress::Progress;
use crate::shape::{Shape, shapes};
use crate::stack::{Before, Stack, begin_first, follow};
use crate::watched::Watched;
use dcc_io::{Sink, Source};
use dcc_machine::Image;
use dcc_prog::{Layout, Program};
use dcc_step::{Ending, Machine, Stepped};
use std::alloc::{AllocError, Global};
use std::marker::Model;

/// A machine that runs a program, and what is kept of its stack: the frames of procedures that live, and the bytes that
/// are written. It tests whether a step is clean before the machine makes it.
#[derive(Drop)]
pub struct Watch {
    machine: Machine,
    layout: Layout,
    // The shapes of frames, by the offset where a procedure begins.
    shapes: Vec<Shape>,
    stack: Stack,
    progress: Progress,
}

impl Model for Watch {
    ghost use Rattle.dcc_watch.specs.Watching.{Watching, stage_of};
    ghost use Rattle.dcc_watch.specs.Reached.{IsKept};

    ghost Value = { Watching };

    ghost view = { λ w. record {
      layout = w.layout;
      shapes = w.shapes.items;
      room = w.stack.frames.room;
      machine = w.machine;
      stage = stage_of w.progress w.stack.frames.live w.stack.written;
    } };

    ghost invariant = { λ w. IsKept w.layout w.shapes.items w.stack.frames.room w.machine w.stack.frames.live
        w.stack.written w.progress };
}

// A copy of a layout.
fn copied(layout: &Layout) -> Layout
    ensures { result ≡ layout.now }
{
    Layout {
        cpu: layout.cpu,
        ds: layout.ds,
        delta: layout.delta,
        lo: layout.lo,
        hi: layout.hi,
        start_ip: layout.start_ip,
        code_end: layout.code_end,
        regs: layout.regs,
        flags: layout.flags,
    }
}

// Whether the step was refused.
fn is_refused(stepped: Stepped) -> bool
    ensures { result ≡ is_refused stepped }
{
    matches!(stepped, Stepped::InFault | Stepped::OutFault)
}

// Whether by its answer a step was made, and the run goes on.
fn goes_on(answer: Watched) -> bool
    ensures { result ≡ goes_on answer }
{
    matches!(answer, Watched::Clean(Stepped::Running))
}

impl Foul {
    // What a foul step answers.
    fn answer(self) -> Watched
        ensures { result ≡ foul_answer self }
    {
        Watched::Foul {
            at: self.at,
            address: self.address,
            kind: self.kind,
        }
    }
}

impl Watch {
    /// The watch at the start of a program's run. The program is the one that the analyses find in the image. All
    /// memory that steps need is taken here.
    pub fn new(alloc: Global, image: &Image, program: &Program) -> Result<Watch, AllocError>
        requires loaded { IsLoaded image.now }
        requires program { IsProgramOf program.now.layout.cpu image.now program.now }
        ensures { IfOk result (λ watch. watch ≡ first_watching image.now program.now) }
    {
        let layout = copied(&program.layout);
        let machine = Machine::new(alloc, image, layout.cpu)?;
        let shapes = shapes(alloc, program)?;
        let room = usize::from(layout.hi - layout.lo) / 2 + 1;
        let frames = Frames::with_room(alloc, room)?;
        let written = Marks::none(alloc)?;
        Ok(Watch {
            machine,
            layout,
            shapes,
            stack: Stack { frames, written },
            progress: Progress::AtStart,
        })
    }

    // A step before the first frame, of a machine that runs.
    fn step_in_prelude<I: Source, O: Sink>(&mut self, input: &mut I, out: &mut O) -> Watched
        requires runs { self.old.machine.end ≡ running }
        requires first { is_at_first self.old.stage ≡ true }
        ensures { StepAnswers result
            (counted self.old (I.left input.old) (O.taken out.old) (I.faults input.old) (O.faults out.old))
            (counted self.new (I.left input.new) (O.taken out.new) (I.faults input.new) (O.faults out.new)) }
    {
        let stepped = self.machine.step(input, out);
        if is_refused(stepped) {
            return Watched::Clean(stepped);
        }
        if self.machine.ip() != self.layout.start_ip {
            self.progress = Progress::InPrelude;
            return Watched::Clean(stepped);
        }
        begin_first(&mut self.stack, &self.shapes, &self.layout, &self.machine);
        self.progress = Progress::InProcedures;
        Watched::Clean(stepped)
    }

    // A step in procedures, of a machine that runs.
    fn step_in_procedures<I: Source, O: Sink>(&mut self, input: &mut I, out: &mut O) -> Watched
        requires runs { self.old.machine.end ≡ running }
        requires inside { is_in_procedures self.old.stage ≡ true }
        ensures { StepAnswers result
            (counted self.old (I.left input.old) (O.taken out.old) (I.faults input.old) (O.faults out.old))
            (counted self.new (I.left input.new) (O.taken out.new) (I.faults input.new) (O.faults out.new)) }
    {
        let found = self.machine.next_instruction();
        let mut before = Before::at(&self.machine, &self.layout);
        before.list.add_found(&self.machine, &self.layout, found);
        if let Some(foul) = next_foul(&self.machine, &self.layout, &self.stack, found, &before) {
            self.progress = Progress::Stopped(foul);
            return foul.answer();
        }
        let stepped = self.machine.step(input, out);
        if is_refused(stepped) {
            return Watched::Clean(stepped);
        }
        follow(
            &mut self.stack,
            &self.shapes,
            &self.layout,
            &self.machine,
            found,
            &before,
        );
        Watched::Clean(stepped)
    }

    /// Makes the next step of the machine, unless it is foul. It is foul where SP would go below 0 or below the stack's
    /// low end; else where a byte of the stack is touched that no frame exposes, otherwise than by a push, a pop, a
    /// call, a return or a direct access to the frame; else where a byte of the stack is read that no step has stored
    /// since SP last left it behind. A foul step is not made, and is answered again by each later step.
    ///
    /// `Clean` is what the machine's step answers: Exit, Divide and Outside where the run has ended, and InFault and
    /// OutFault where a read or a write failed, after which nothing has changed. No step takes memory: at a clean CALL fewer
    /// frames live than return addresses fit the stack, and one more, for which `new` took room.
    pub fn step<I: Source, O: Sink>(&mut self, input: &mut I, out: &mut O) -> Watched
        ensures { StepAnswers result
            (counted self.old (I.left input.old) (O.taken out.old) (I.faults input.old) (O.faults out.old))
            (counted self.new (I.left input.new) (O.taken out.new) (I.faults input.new) (O.faults out.new)) }
    {
        if !self.is_going() {
            return self.answer();
        }
        if self.is_inside() {
            self.step_in_procedures(input, out)
        } else {
            self.step_in_prelude(input, out)
        }
    }

    /// Makes steps until one answers something else than `Clean(Running)`, at most `most`. After a fault, and where a
    /// step is foul, the steps before it stay made.
    pub fn run<I: Source, O: Sink>(&mut self, input: &mut I, out: &mut O, most: u64) -> Watched
        ensures run { Runs watched most (outcome_of result)
            (beside_console self.old (I.left input.old) (O.taken out.old))
            (beside_console self.new (I.left input.new) (O.taken out.new)) }
        ensures tells { Tells result self.new }
        ensures faults { CountsFaults (result ≡ Watched.Clean Stepped.InFault) (result ≡ Watched.Clean Stepped.OutFault)
            (I.faults input.old) (I.faults input.new) (O.faults out.old) (O.faults out.new) }
    {
        for _count in 0..most {
            let answer = self.step(input, out);
            if !goes_on(answer) {
                return answer;
            }
        }
        self.answer()
    }

    // Whether the run has neither ended nor been stopped.
    fn is_going(&self) -> bool
        ensures { result ≡ is_going self.now }
    {
        let running = matches!(self.machine.ending(), Ending::Running);
        running && !matches!(self.progress, Progress::Stopped(_))
    }

    // Whether the run stands in procedures.
    fn is_inside(&self) -> bool
        ensures { result ≡ is_in_procedures self.now.stage }
    {
        matches!(self.progress, Progress::InProcedures)
    }

    // What a step answers that makes nothing, where the run has ended or was stopped.
    fn answer(&self) -> Watched
        ensures made { outcome_of result ≡ made }
        ensures tells { Tells result self.now }
        ensures read_faults { result ≢ Watched.Clean Stepped.InFault }
        ensures write_faults { result ≢ Watched.Clean Stepped.OutFault }
    {
        match self.progress {
            Progress::Stopped(foul) => foul.answer(),
            _ => Watched::Clean(self.machine.ending().answer()),
        }
    }
}
