//! The number of a procedure's arguments.

ghost use Rattle.std.specs.Prelude.{pos, neg_ℤ, ◌≤ℤ◌};
ghost use Rattle.dcc_frames.specs.Arguments.{IsLeast, ReachTo, HasAccessRoom, HasStartRoom, HasRoomFor, HasRoomIn};
ghost use Rattle.dcc_frames.specs.Arguments.{IsCounted};

use crate::memory::{access, start};
use crate::steps::Step;

// How many argument words there must be for bytes up to an end.
fn words_to(end: i32) -> u16
    requires low { neg_ℤ (pos 80000) ≤ℤ end }
    requires high { end ≤ℤ pos 80000 }
    ensures { IsLeast (ReachTo end) result }
{
    if end <= 4 {
        0
    } else {
        ((end as u32 - 3) / 2) as u16
    }
}

// How many argument words there must be for a direct access of an instruction.
fn access_room(framed: bool, step: Step) -> u16
    ensures { IsLeast (HasAccessRoom framed step) result }
{
    match access(framed, step.op) {
        Some(bytes) => words_to(bytes.end),
        None => 0,
    }
}

// How many argument words there must be for the byte from which an instruction exposes the frame.
fn start_room(step: Step) -> u16
    ensures { IsLeast (HasStartRoom step) result }
{
    match start(step.op, step.height) {
        Some(start) => words_to(start + 1),
        None => 0,
    }
}

// How many argument words there must be for what an instruction uses.
fn room(framed: bool, step: Step) -> u16
    ensures { IsLeast (HasRoomFor framed step) result }
{
    access_room(framed, step).max(start_room(step))
}

// The number of the argument words of a procedure other than the entry procedure: the least for which there is room for
// what its RETs remove, and for every byte that a direct access or a start of exposure touches.
fn most_room(framed: bool, removed: u16, steps: &[Step]) -> u16
    ensures { IsLeast (HasRoomIn framed removed steps.now) result }
{
    let mut count = removed / 2;
    for step in steps {
        count = count.max(room(framed, *step));
    }
    count
}

/// The number of the argument words of a procedure; the entry procedure has none.
pub fn arguments(is_start: bool, framed: bool, removed: u16, steps: &[Step]) -> u16
    ensures { IsCounted is_start framed removed steps.now result }
{
    if is_start {
        0
    } else {
        most_room(framed, removed, steps)
    }
}
