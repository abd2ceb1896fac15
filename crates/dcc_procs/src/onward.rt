//! Where an instruction goes on.

ghost use Rattle.std.specs.Prelude.{◌≡◌, ◌∷◌, [], IfOk, option_to_list};
ghost use Rattle.dcc_machine.specs.MzImage.{IsLoaded};
ghost use Rattle.dcc_prog.specs.Trail.{table_targets};
ghost use Rattle.dcc_procs.specs.Known.{number_of, successors_by};

use crate::code::word_in_segment;
use crate::known::Known;
use dcc_machine::{Image, Instr, Op};
use dcc_num::Reg;
use dcc_num::dos::EXIT;
use smallvec::SmallVec;
use std::alloc::{AllocError, Global};

/// The targets of a jump through a table: its N + 1 words, where N is told.
pub(crate) fn table_targets(
    alloc: Global,
    image: &Image,
    offset: u16,
    number: Option<u16>,
) -> Result<SmallVec<u16, 2>, AllocError>
    requires { IsLoaded image.now }
    ensures { IfOk result (λ targets. targets.items ≡ table_targets image.now offset number) }
{
    let mut targets = SmallVec::new(alloc);
    let Some(number) = number else {
        return Ok(targets);
    };
    for k in 0..u32::from(number) + 1 {
        targets.push(word_in_segment(image, u32::from(offset) + 2 * k))?;
    }
    Ok(targets)
}

// The given offset, and after it the other one, if there is one.
fn offsets_of(
    alloc: Global,
    first: u16,
    second: Option<u16>,
) -> Result<SmallVec<u16, 2>, AllocError>
    ensures { IfOk result (λ offsets. offsets.items ≡ first ∷ option_to_list second) }
{
    let mut offsets = SmallVec::new(alloc);
    offsets.push(first)?;
    if let Some(second) = second {
        offsets.push(second)?;
    }
    Ok(offsets)
}

/// The greatest number of a table's index, by what is known before a jump through the register.
pub fn number_of(known: Known, r: Reg) -> Option<u16>
    ensures { result ≡ number_of r known.index }
{
    known.index?.number_of(r)
}

/// The offsets at which the instruction at an offset goes on, by what is known before it: the target
/// before the next instruction, or the words of a table.
pub fn successors(
    alloc: Global,
    image: &Image,
    at: u16,
    instr: Instr,
    known: Known,
) -> Result<SmallVec<u16, 2>, AllocError>
    requires { IsLoaded image.now }
    ensures { IfOk result (λ offsets. offsets.items ≡ successors_by image.now at instr known) }
{
    let next = instr.next_of(at);
    match instr.op {
        Op::Jump(target) => offsets_of(alloc, target, None),
        Op::Branch(_, target)
        | Op::Loop(target)
        | Op::LoopE(target)
        | Op::LoopNe(target)
        | Op::Jcxz(target) => offsets_of(alloc, target, Some(next)),
        Op::Table(r, offset) => table_targets(alloc, image, offset, number_of(known, r)),
        Op::Ret(_) => Ok(SmallVec::new(alloc)),
        Op::Int21 if matches!(known.ah, Some(EXIT)) => Ok(SmallVec::new(alloc)),
        _ => offsets_of(alloc, next, None),
    }
}
