//! The run of a text, event by event.

ghost use Rattle.std.specs.Prelude.{◌≡◌, ◌<◌, ℕ, List, [], IfOk, OnOk, IsTrue, ◌↔◌, length};
ghost use Rattle.dcc_run.specs.End.{End as RunEnd};
ghost use Rattle.dcc_run.specs.System.{end_after};
ghost use Rattle.dcc_c.specs.Run.{text_system, first_state};
ghost use Rattle.dcc_c.specs.Rules.{IsAllowed};
ghost use Rattle.dcc_c.specs.Tree.{Tree};
ghost use Rattle.dcc_c.specs.Views.{tree_of};
ghost use Rattle.dcc_crun.specs.Stepped.{texts, end_told};
ghost use Rattle.dcc_map.specs.Placed.{Placed};
ghost use Rattle.dcc_map.specs.Comparison.{end_of};
ghost use Rattle.dcc_map.specs.Compared.{line_of, text_events};
ghost use Rattle.dcc_map.specs.Side.{Coming, Leaves, MaySteps, Refuses, text_side};

use crate::event::{Event, WithheldKey, add_written, given, key_event, keys_of};
use crate::report::{End, Settings};
use dcc_c::Unit;
use dcc_crun::{CRun, CStepped};
use dcc_io::{MemSink, MemSource};
use std::alloc::{AllocError, Global};
use std::collections::VecDeque;

/// A run of a text of which the events are still to come.
#[derive(Drop)]
pub(crate) struct TextSide {
    /// The run.
    run: CRun,
    /// The input that is left.
    keys: VecDeque<u8>,
    /// How many more steps may be made.
    steps: u64,
    /// The line of the statement that was executed last.
    pub(crate) line: u32,
    /// Its events that are still to come.
    pending: VecDeque<Event>,
    /// How the run has ended.
    end: End,
}

// What an answer tells of the end of the run.
fn end_of(answer: CStepped) -> End
    ensures { end_of result ≡ end_told answer }
{
    match answer {
        CStepped::Exit(code) => End::Exit(code),
        CStepped::Divide => End::Divide,
        CStepped::Stuck(line) => End::Stuck(line),
        CStepped::Running | CStepped::InFault | CStepped::OutFault | CStepped::Memory =>
            End::Running,
    }
}

impl TextSide {
    /// The run of the unit on the input.
    pub(crate) fn new(
        alloc: Global,
        unit: &Unit,
        settings: &Settings,
        input: &[u8],
    ) -> Result<TextSide, AllocError>
        ensures { IfOk result (λ side. (allowed : IsAllowed (tree_of unit.now)) →
            Coming texts line_of (tree_of unit.now) (text_side side)
            (text_events settings.now (tree_of unit.now) allowed.start input.now)
            (end_after (text_system (tree_of unit.now)) settings.now.most
            (first_state (tree_of unit.now) allowed.start settings.now.fill input.now))) }
    {
        Ok(TextSide {
            run: CRun::new(alloc, unit, settings.fill)?,
            keys: keys_of(alloc, input)?,
            steps: settings.most,
            line: 0,
            pending: VecDeque::new(alloc),
            end: End::Running,
        })
    }

    // Whether no event is pending, and a further step may be made.
    fn is_silent(&self) -> bool
        ensures { IsTrue result ↔ MaySteps (text_side self.now) }
    {
        self.pending.is_empty() && self.steps > 0 && matches!(self.end, End::Running)
    }

    /// The next event, or `None` where no further one comes within the steps.
    pub(crate) fn next(&mut self, alloc: Global) -> Result<Option<Event>, AllocError>
        ensures { (tree : Tree) (coming : List Placed) (end : RunEnd) →
            Coming texts line_of tree (text_side self.old) coming end →
            IfOk result (Leaves texts line_of tree (text_side self.new) self.new.line coming end) }
    {
        let mut out = MemSink::new(alloc, Vec::new(alloc), usize::MAX);
        'steps: while self.is_silent() {
            self.step(alloc, &mut out)?;
        }
        Ok(self.pending.pop_front())
    }

    /// Makes the steps that are left, and answers how the run has ended.
    pub(crate) fn finish(&mut self, alloc: Global) -> Result<End, AllocError>
        ensures { (tree : Tree) (coming : List Placed) (end : RunEnd) →
            Coming texts line_of tree (text_side self.old) coming end →
            IfOk result (λ found. end_of found ≡ end) }
    {
        self.pending.clear();
        'steps: while self.is_silent() {
            let mut out = MemSink::new(alloc, Vec::new(alloc), usize::MAX);
            self.step(alloc, &mut out)?;
            self.pending.clear();
        }
        Ok(self.end)
    }

    // Makes a step. What it writes goes to an output that is empty yet.
    #[inline(always)]
    fn step(&mut self, alloc: Global, out: &mut MemSink) -> Result<(), AllocError>
        requires may { MaySteps (text_side self.old) }
        requires unwritten { out.old.taken ≡ [] }
        ensures comes { (tree : Tree) (coming : List Placed) (end : RunEnd) →
            Coming texts line_of tree (text_side self.old) coming end →
            OnOk result (Coming texts line_of tree (text_side self.new) coming end) }
        ensures steps { OnOk result (self.new.steps < self.old.steps) }
        ensures unwritten { OnOk result (self.new.pending.items ≡ [] → out.new.taken ≡ []) }
    {
        let line = self.run.line();
        match self.run.step(alloc, &mut WithheldKey, out) {
            CStepped::InFault => self.take_key(alloc),
            // A write fails only where memory is wanting.
            CStepped::OutFault | CStepped::Memory => Err(AllocError),
            answer => {
                self.line = line;
                self.steps -= 1;
                self.end = end_of(answer);
                add_written(&mut self.pending, out.taken())
            }
        }
    }

    // Makes a step that takes a key.
    fn take_key(&mut self, alloc: Global) -> Result<(), AllocError>
        requires may { MaySteps (text_side self.old) }
        requires takes { Refuses texts self.old.run }
        ensures comes { (tree : Tree) (coming : List Placed) (end : RunEnd) →
            Coming texts line_of tree (text_side self.old) coming end →
            OnOk result (Coming texts line_of tree (text_side self.new) coming end) }
        ensures steps { OnOk result (self.new.steps < self.old.steps) }
        ensures some { OnOk result (0 < length self.new.pending.items) }
    {
        let mut out = MemSink::new(alloc, Vec::new(alloc), usize::MAX);
        let key = self.keys.pop_front();
        let mut input = MemSource::new(given(alloc, key)?, Vec::new(alloc), 1);
        let line = self.run.line();
        match self.run.step(alloc, &mut input, &mut out) {
            // No read of this input fails, and a write only where memory is wanting.
            CStepped::InFault | CStepped::OutFault | CStepped::Memory => Err(AllocError),
            answer => {
                self.line = line;
                self.steps -= 1;
                self.end = end_of(answer);
                self.pending.push_back(key_event(key))?;
                add_written(&mut self.pending, out.taken())
            }
        }
    }
}
