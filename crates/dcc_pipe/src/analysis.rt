//! From an image to what the analyses find in it.

ghost use Rattle.std.specs.Prelude.{IfOk, IfErr};
ghost use Rattle.dcc_prog.specs.Analysed.{IsProgramOf};
ghost use Rattle.dcc_machine.specs.MzImage.{IsLoaded};
ghost use Rattle.dcc_prog.specs.Refused.{IsRefusedByAnalysis, IsSound};

use dcc_frames::cells;
use dcc_heights::heights;
use dcc_layout::layout;
use dcc_machine::{Cpu, Image};
use dcc_procs::find;
use dcc_prog::{Program, Refusal};
use std::alloc::Global;

/// What the analyses find in a loaded program for a processor: its layout, its procedures with their instructions and
/// successors, the height of the stack at each instruction, and the frames.
///
/// A program is refused for the first of these analyses that has something to tell: that it has no layout; or, of its
/// layout, a construct or a count that is too great, of trails, then of heights, then of frames. Where the answer is
/// Ok, none of them has, and the program is sound. Want of memory may refuse any program.
pub fn analyse(alloc: Global, image: &Image, cpu: Cpu) -> Result<Program, Refusal>
    requires { IsLoaded image.now }
    ensures program { IfOk result (IsProgramOf cpu image.now) }
    ensures accepted { IfOk result (λ program. IsSound cpu image.now) }
    ensures refused { IfErr result (IsRefusedByAnalysis cpu image.now) }
{
    let layout = layout(alloc, image, cpu)?;
    let procs = find(alloc, image, &layout)?;
    let heights = heights(alloc, &procs)?;
    let cells = cells(alloc, &procs, &heights, layout.delta)?;
    Ok(Program {
        layout,
        procs,
        heights,
        cells,
    })
}
