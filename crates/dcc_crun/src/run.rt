//! The run of a text.

ghost use Rattle.std.specs.Prelude.{◌≡◌, ◌≤◌, ℕ, List, [], ◌∷◌, IfOk};
ghost use Rattle.dcc_io.specs.Count.{Rose};
ghost use Rattle.dcc_run.specs.End.{Running as running};
ghost use Rattle.dcc_c.specs.Tree.{Function, Tree};
ghost use Rattle.dcc_c.specs.Run.{State, first_state};
ghost use Rattle.dcc_c.specs.Views.{tree_of};
ghost use Rattle.dcc_prepare.specs.Lines.{next_line, IsLine};
ghost use Rattle.dcc_console.specs.WithConsole.{beside_console};
ghost use Rattle.dcc_console.specs.Steps.{Steps, HasEnded, Runs};
ghost use Rattle.dcc_crun.specs.Standing.{StandsAt};
ghost use Rattle.dcc_crun.specs.Stepped.{texts, outcome_of, end_told};

use crate::call::Call;
use crate::ending::{CStepped, Ending};
use crate::moment::Moment;
use dcc_c::Unit;
use dcc_io::{Sink, Source};
use dcc_prepare::prepare::prepare;
use dcc_prepare::program::Program;
use dcc_prepare::start::first_memory;
use std::alloc::{AllocError, Global};

/// A run of a text.
#[derive(Drop)]
pub struct CRun {
    /// The text, made ready.
    program: Program,
    /// The state of the run.
    moment: Moment,
}

impl CRun {
    /// The run of a text from its first function on, which has no parameters. Variables and the stack hold the fill
    /// before they have a value.
    pub fn new(alloc: Global, unit: &Unit, fill: u16) -> Result<CRun, AllocError>
        ensures { IfOk result (λ run. (start : Function) (others : List Function) (input : List ℕ) →
            (tree_of unit.now).functions ≡ start ∷ others → start.params ≡ [] →
            StandsAt (tree_of unit.now) run (first_state (tree_of unit.now) start fill input)) }
    {
        let program = prepare(alloc, unit)?;
        let base = unit.hi.wrapping_add(2);
        let (entry, variables, end) = match program.procedures.first() {
            Some(start) => (
                start.entry,
                start.variables(alloc, base, fill, &[])?,
                Ending::Running,
            ),
            None => (0, Vec::new(alloc), Ending::Stuck(0)),
        };
        let call = Call {
            procedure: 0,
            at: entry,
            base,
            variables,
        };
        let moment = Moment {
            call,
            waiting: Vec::new(alloc),
            fill,
            memory: first_memory(alloc, unit, fill)?,
            end,
        };
        Ok(CRun { program, moment })
    }

    /// The line of the statement that the next step of a run executes that is not over, or of the closing brace. Where the
    /// next step is a further turn of a `for`, which begins its body again, the line is open.
    pub fn line(&self) -> u32
        ensures { (tree : Tree) (s : State) → StandsAt tree self.now s → s.end ≡ running →
            IsLine (next_line s.rest) result }
    {
        self.moment.line(&self.program)
    }

    /// Makes one step. A run that is over answers its end again and changes nothing.
    pub fn step<I: Source, O: Sink>(
        &mut self,
        alloc: Global,
        input: &mut I,
        out: &mut O,
    ) -> CStepped
        ensures step { Steps texts (outcome_of result)
            (beside_console self.old (I.left input.old) (O.taken out.old))
            (beside_console self.new (I.left input.new) (O.taken out.new)) }
        ensures answer { HasEnded texts self.new (end_told result) }

        // The counts never fall, and a fault comes only where its count rose.
        ensures input_faults { I.faults input.old ≤ I.faults input.new }
        ensures output_faults { O.faults out.old ≤ O.faults out.new }
        ensures read_failed { result ≡ CStepped.InFault → Rose (I.faults input.old) (I.faults input.new) }
        ensures write_failed { result ≡ CStepped.OutFault → Rose (O.faults out.old) (O.faults out.new) }
    {
        let Ending::Running = self.moment.end else {
            return self.moment.end.answer();
        };
        match self.moment.advance(alloc, &self.program, input, out) {
            Ok(()) => self.moment.end.answer(),
            Err(fault) => fault.answer(),
        }
    }

    /// Makes steps until one answers something else than Running, at most `most`. After a fault the steps before the
    /// one that failed stay made.
    pub fn run<I: Source, O: Sink>(
        &mut self,
        alloc: Global,
        input: &mut I,
        out: &mut O,
        most: u64,
    ) -> CStepped
        ensures run { Runs texts most (outcome_of result)
            (beside_console self.old (I.left input.old) (O.taken out.old))
            (beside_console self.new (I.left input.new) (O.taken out.new)) }
        ensures answer { HasEnded texts self.new (end_told result) }

        // The counts never fall, and a fault comes only where its count rose.
        ensures input_faults { I.faults input.old ≤ I.faults input.new }
        ensures output_faults { O.faults out.old ≤ O.faults out.new }
        ensures read_failed { result ≡ CStepped.InFault → Rose (I.faults input.old) (I.faults input.new) }
        ensures write_failed { result ≡ CStepped.OutFault → Rose (O.faults out.old) (O.faults out.new) }
    {
        for _count in 0..most {
            match self.step(alloc, input, out) {
                CStepped::Running => {}
                answer => return answer,
            }
        }
        self.moment.end.answer()
    }
}
