//! The run of the machine, event by event.

ghost use Rattle.std.specs.Prelude.{◌≡◌, ◌<◌, ℕ, List, [], IfOk, OnOk, IsTrue, ◌↔◌, length};
ghost use Rattle.dcc_run.specs.End.{End as RunEnd};
ghost use Rattle.dcc_run.specs.System.{end_after};
ghost use Rattle.dcc_machine.specs.declared.cpu.Cpu.{Cpu};
ghost use Rattle.dcc_machine.specs.Machine.{start_state};
ghost use Rattle.dcc_machine.specs.MzImage.{IsLoaded};
ghost use Rattle.dcc_machine.specs.Step.{machine_system};
ghost use Rattle.dcc_step.specs.Stepped.{machine, end_told};
ghost use Rattle.dcc_map.specs.Placed.{Placed};
ghost use Rattle.dcc_map.specs.Comparison.{end_of};
ghost use Rattle.dcc_map.specs.Compared.{address_of, machine_events};
ghost use Rattle.dcc_map.specs.Side.{Coming, Leaves, MaySteps, Refuses, machine_side};

use crate::event::{Event, WithheldKey, add_written, given, key_event, keys_of};
use crate::report::{End, Settings};
use dcc_io::{MemSink, MemSource};
use dcc_machine::Image;
use dcc_step::{Machine, Stepped};
use std::alloc::{AllocError, Global};
use std::collections::VecDeque;

/// A run of the machine of which the events are still to come.
#[derive(Drop)]
pub(crate) struct MachineSide {
    /// The machine.
    machine: Machine,
    /// The input that is left.
    keys: VecDeque<u8>,
    /// How many more steps may be made.
    steps: u64,
    /// The offset of the instruction that was executed last.
    pub(crate) at: u16,
    /// Its events that are still to come.
    pending: VecDeque<Event>,
    /// How the run has ended.
    end: End,
}

// What an answer tells of the end of the run.
fn end_of(answer: Stepped) -> End
    ensures { end_of result ≡ end_told answer }
{
    match answer {
        Stepped::Exit(code) => End::Exit(code),
        Stepped::Divide => End::Divide,
        Stepped::Outside(at) => End::Outside(at),
        Stepped::Running | Stepped::InFault | Stepped::OutFault => End::Running,
    }
}

impl MachineSide {
    /// The run of the image on the input.
    pub(crate) fn new(
        alloc: Global,
        image: &Image,
        settings: &Settings,
        input: &[u8],
    ) -> Result<MachineSide, AllocError>
        requires { IsLoaded image.now }
        ensures { IfOk result (λ side. Coming machine address_of settings.now.cpu (machine_side side)
            (machine_events settings.now image.now input.now)
            (end_after (machine_system settings.now.cpu) settings.now.most (start_state image.now input.now))) }
    {
        Ok(MachineSide {
            machine: Machine::new(alloc, image, settings.cpu)?,
            keys: keys_of(alloc, input)?,
            steps: settings.most,
            at: image.ip,
            pending: VecDeque::new(alloc),
            end: End::Running,
        })
    }

    // Whether no event is pending, and a further step may be made.
    fn is_silent(&self) -> bool
        ensures { IsTrue result ↔ MaySteps (machine_side self.now) }
    {
        self.pending.is_empty() && self.steps > 0 && matches!(self.end, End::Running)
    }

    /// The next event, or `None` where no further one comes within the steps.
    pub(crate) fn next(&mut self, alloc: Global) -> Result<Option<Event>, AllocError>
        ensures { (cpu : Cpu) (coming : List Placed) (end : RunEnd) →
            Coming machine address_of cpu (machine_side self.old) coming end →
            IfOk result (Leaves machine address_of cpu (machine_side self.new) self.new.at coming end) }
    {
        let mut out = MemSink::new(alloc, Vec::new(alloc), usize::MAX);
        'steps: while self.is_silent() {
            self.step(alloc, &mut out)?;
        }
        Ok(self.pending.pop_front())
    }

    /// Makes the steps that are left, and answers how the run has ended.
    pub(crate) fn finish(&mut self, alloc: Global) -> Result<End, AllocError>
        ensures { (cpu : Cpu) (coming : List Placed) (end : RunEnd) →
            Coming machine address_of cpu (machine_side self.old) coming end →
            IfOk result (λ found. end_of found ≡ end) }
    {
        self.pending.clear();
        'steps: while self.is_silent() {
            let mut out = MemSink::new(alloc, Vec::new(alloc), usize::MAX);
            self.step(alloc, &mut out)?;
            self.pending.clear();
        }
        Ok(self.end)
    }

    // Makes a step. What it writes goes to an output that is empty yet.
    #[inline(always)]
    fn step(&mut self, alloc: Global, out: &mut MemSink) -> Result<(), AllocError>
        requires may { MaySteps (machine_side self.old) }
        requires unwritten { out.old.taken ≡ [] }
        ensures comes { (cpu : Cpu) (coming : List Placed) (end : RunEnd) →
            Coming machine address_of cpu (machine_side self.old) coming end →
            OnOk result (Coming machine address_of cpu (machine_side self.new) coming end) }
        ensures steps { OnOk result (self.new.steps < self.old.steps) }
        ensures unwritten { OnOk result (self.new.pending.items ≡ [] → out.new.taken ≡ []) }
    {
        let at = self.machine.ip();
        match self.machine.step(&mut WithheldKey, out) {
            Stepped::InFault => self.take_key(alloc),
            // A write fails only where memory is wanting.
            Stepped::OutFault => Err(AllocError),
            answer => {
                self.at = at;
                self.steps -= 1;
                self.end = end_of(answer);
                add_written(&mut self.pending, out.taken())
            }
        }
    }

    // Makes a step that takes a key.
    fn take_key(&mut self, alloc: Global) -> Result<(), AllocError>
        requires may { MaySteps (machine_side self.old) }
        requires takes { Refuses machine self.old.machine }
        ensures comes { (cpu : Cpu) (coming : List Placed) (end : RunEnd) →
            Coming machine address_of cpu (machine_side self.old) coming end →
            OnOk result (Coming machine address_of cpu (machine_side self.new) coming end) }
        ensures steps { OnOk result (self.new.steps < self.old.steps) }
        ensures some { OnOk result (0 < length self.new.pending.items) }
    {
        let mut out = MemSink::new(alloc, Vec::new(alloc), usize::MAX);
        let key = self.keys.pop_front();
        let mut input = MemSource::new(given(alloc, key)?, Vec::new(alloc), 1);
        let at = self.machine.ip();
        match self.machine.step(&mut input, &mut out) {
            // No read of this input fails, and a write only where memory is wanting.
            Stepped::InFault | Stepped::OutFault => Err(AllocError),
            answer => {
                self.at = at;
                self.steps -= 1;
                self.end = end_of(answer);
                self.pending.push_back(key_event(key))?;
                add_written(&mut self.pending, out.taken())
            }
        }
    }
}
