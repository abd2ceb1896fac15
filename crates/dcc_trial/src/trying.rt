//! A trial of a program made at random.

ghost use Rattle.std.specs.Prelude.{◌≤◌, IfOk, IfErr};
ghost use Rattle.dcc_trial.specs.Trial.{IsTrial, IsWithout};

use crate::found::{NoTrial, Trial};
use crate::sides::{machine_side, text_length, text_side};
use dcc_gen::make;
use dcc_machine::Cpu;
use dcc_mz::load;
use dcc_pipe::{analyse, decompile};
use dcc_rules::RuleList;
use std::alloc::Global;

/// Makes the program of a seed and of `size` pieces, 1 to 1,000, decompiles it for the 8086 by these rules, and runs
/// both sides on no input for at most so many steps each.
pub fn trial(
    alloc: Global,
    seed: u64,
    size: u16,
    steps: u64,
    rules: &RuleList,
) -> Result<Trial, NoTrial>
    requires some { 1 ≤ size }
    requires few { size ≤ 1000 }
    ensures trial { IfOk result (IsTrial seed size steps) }
    ensures without { IfErr result (IsWithout seed size steps) }
{
    let file = make(alloc, seed, size)?;
    let image = load(alloc, &file)?;
    let unit = decompile(alloc, &image, Cpu::I8086, rules)?;
    // What has a text is refused by no analysis, but for want of memory.
    let Ok(program) = analyse(alloc, &image, Cpu::I8086) else {
        return Err(NoTrial::Memory);
    };
    let text = text_length(alloc, &unit)?;
    let machine = machine_side(alloc, &image, steps)?;
    let text_run = text_side(alloc, &unit, steps)?;
    Ok(Trial {
        file: file.len(),
        procedures: program.procs.len(),
        text,
        machine,
        text_run,
    })
}
