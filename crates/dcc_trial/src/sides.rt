//! The runs of a trial: on no input, from variables that hold 0.

ghost use Rattle.std.specs.Prelude.{◌≡◌, [], IfOk, IfErr, length};
ghost use Rattle.dcc_machine.specs.declared.cpu.Cpu.TheVariants.{I8086};
ghost use Rattle.dcc_machine.specs.Machine.{start_state};
ghost use Rattle.dcc_machine.specs.MzImage.{IsLoaded};
ghost use Rattle.dcc_machine.specs.Step.{machine_system};
ghost use Rattle.dcc_c.specs.Run.{text_system, first_state};
ghost use Rattle.dcc_c.specs.Rules.{IsAllowed};
ghost use Rattle.dcc_c.specs.Views.{tree_of};
ghost use Rattle.dcc_c.specs.Written.{written_form};
ghost use Rattle.dcc_trial.specs.Trial.{IsRun, EndsOutside};

use crate::found::{Ending, NoTrial, Side};
use dcc_c::Unit;
use dcc_crun::{CRun, CStepped};
use dcc_io::{MemSink, MemSource};
use dcc_machine::{Cpu, Image};
use dcc_print::print;
use dcc_step::{Machine, Stepped};
use std::alloc::{AllocError, Global};

// What a run has come to that has put out what the output has taken.
fn side(alloc: Global, out: &MemSink, ending: Ending) -> Result<Side, NoTrial>
    ensures side { IfOk result (λ side. (side.output.items ≡ out.now.taken) × (side.ending ≡ ending)) }
    ensures memory { IfErr result (λ reason. reason ≡ NoTrial.Memory) }
{
    let mut output = Vec::new(alloc);
    output.extend_from_slice(out.taken())?;
    Ok(Side { output, ending })
}

/// What the machine's run of the image has come to after so many steps.
pub(crate) fn machine_side(alloc: Global, image: &Image, steps: u64) -> Result<Side, NoTrial>
    requires { IsLoaded image.now }
    ensures run { IfOk result (IsRun (machine_system I8086) (start_state image.now []) steps) }
    ensures outside { IfErr result (EndsOutside (machine_system I8086) (start_state image.now []) steps) }
{
    let mut input = MemSource::new(Vec::new(alloc), Vec::new(alloc), 1);
    let mut out = MemSink::new(alloc, Vec::new(alloc), usize::MAX);
    let mut machine = Machine::new(alloc, image, Cpu::I8086)?;
    match machine.run(&mut input, &mut out, steps) {
        Stepped::Running => side(alloc, &out, Ending::Running),
        Stepped::Exit(code) => side(alloc, &out, Ending::Exit(code)),
        Stepped::Divide => side(alloc, &out, Ending::Divide),
        Stepped::Outside(at) => Err(NoTrial::Outside(at)),
        // No read of this input fails, and a write only where memory is wanting.
        Stepped::InFault | Stepped::OutFault => Err(NoTrial::Memory),
    }
}

/// What the text's run has come to after so many steps.
pub(crate) fn text_side(alloc: Global, unit: &Unit, steps: u64) -> Result<Side, NoTrial>
    ensures run { IfOk result (λ side. (allowed : IsAllowed (tree_of unit.now))
        → IsRun (text_system (tree_of unit.now)) (first_state (tree_of unit.now) allowed.start 0 []) steps side) }
    ensures memory { IfErr result (λ reason. reason ≡ NoTrial.Memory) }
{
    let mut input = MemSource::new(Vec::new(alloc), Vec::new(alloc), 1);
    let mut out = MemSink::new(alloc, Vec::new(alloc), usize::MAX);
    let mut running = CRun::new(alloc, unit, 0)?;
    match running.run(alloc, &mut input, &mut out, steps) {
        CStepped::Running => side(alloc, &out, Ending::Running),
        CStepped::Exit(code) => side(alloc, &out, Ending::Exit(code)),
        CStepped::Divide => side(alloc, &out, Ending::Divide),
        // No read of this input fails, a write only where memory is wanting, and the text of an image is never stuck.
        CStepped::InFault | CStepped::OutFault | CStepped::Stuck(_) | CStepped::Memory => {
            Err(NoTrial::Memory)
        }
    }
}

/// The number of bytes of the unit's text.
pub(crate) fn text_length(alloc: Global, unit: &Unit) -> Result<usize, AllocError>
    ensures { IfOk result (λ bytes. bytes ≡ length (written_form (tree_of unit.now))) }
{
    let mut out = MemSink::new(alloc, Vec::new(alloc), usize::MAX);
    match print(alloc, &mut out, unit) {
        Ok(()) => Ok(out.taken().len()),
        Err(_) => Err(AllocError),
    }
}
