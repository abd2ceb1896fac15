//! Whether the next step is clean.

ghost use Rattle.std.specs.Prelude.{◌≡◌, option_map};
ghost use Rattle.dcc_machine.specs.Access.{found_accesses};
ghost use Rattle.dcc_prog.specs.Clean.{top_in};
ghost use Rattle.dcc_step.specs.Core.{state_of};
ghost use Rattle.dcc_watch.specs.Accesses.{near};
ghost use Rattle.dcc_watch.specs.Foul.{foul_in, told_foul};
ghost use Rattle.dcc_watch.specs.Ordered.{AreOrdered};

use crate::places::{hidden, unwritten};
use crate::sp::{low, sp_after};
use crate::stack::{Before, Stack};
use dcc_machine::Instr;
use dcc_prog::{FoulKind, Layout};
use dcc_step::Machine;

/// A step that is not clean.
#[derive(Clone, Copy)]
pub(crate) struct Foul {
    /// The offset of the foul step's instruction in the code segment.
    pub(crate) at: u16,
    /// In which way the step is foul.
    pub(crate) kind: FoulKind,
    /// The first byte that makes the step foul, by its offset in the data segment.
    pub(crate) address: u16,
}

/// What is foul of the step of an instruction that was found, if anything is, by what is known of it.
#[tactic(auto, using(crate::proofs::Beside::near_hidden, crate::proofs::Beside::near_unwritten))]
pub(crate) fn next_foul(
    machine: &Machine,
    layout: &Layout,
    stack: &Stack,
    found: Option<Instr>,
    before: &Before,
) -> Option<Foul>
    requires list { before.now.list ≡ near layout.now (found_accesses found (state_of machine.now)) }
    requires top { before.now.top ≡ top_in layout.now (state_of machine.now) }
    requires ordered { AreOrdered before.now.top stack.now.frames.live }
    ensures { option_map told_foul result
        ≡ foul_in layout.now stack.now.frames.live stack.now.written (state_of machine.now) found }
{
    let Some(instr) = found else {
        return None;
    };
    let at = machine.ip();
    if let Some(address) = low(layout, sp_after(machine, instr.op)) {
        return Some(Foul {
            at,
            kind: FoulKind::Low,
            address,
        });
    }
    if let Some(address) = hidden(layout, &stack.frames, before.top, &before.list) {
        return Some(Foul {
            at,
            kind: FoulKind::Hidden,
            address,
        });
    }
    let address = unwritten(layout, &stack.written, &before.list)?;
    Some(Foul {
        at,
        kind: FoulKind::Unwritten,
        address,
    })
}
