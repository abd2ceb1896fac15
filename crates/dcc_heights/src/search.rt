//! The search for the heights of a procedure.

ghost use Rattle.std.specs.Prelude.{◌≡◌, ◌<◌, IfOk, IfErr, OnOk};
ghost use Rattle.dcc_heights.specs.Search.{searched_procedure, IsStep, IsStepFault, IsArrived, IsArrivalFault};
ghost use Rattle.dcc_heights.specs.Search.{IsSearched};
ghost use Rattle.dcc_heights.specs.Search.{AreReached, AreAllHeights, IsFault, Extends, IsFollowed};

use crate::form::{is_bad, is_misplaced};
use crate::moves::height_after;
use dcc_machine::Op;
use dcc_prog::{ConstructKind, Proc, Refusal};
use indexmap::IndexMap;
use std::alloc::Global;

// The height after the operation at an offset, where it may stand at the height there.
fn step(
    proc: &Proc,
    framed: bool,
    removed: &IndexMap<u16, u16>,
    at: u16,
    op: Op,
    height: u16,
) -> Result<u16, Refusal>
    ensures step { IfOk result (IsStep (searched_procedure proc.now framed removed.now.entries) at op height) }
    ensures refused { IfErr result (IsStepFault (searched_procedure proc.now framed removed.now.entries) at op height) }
{
    if framed && at != proc.entry && is_misplaced(op, height) {
        return Err(Refusal::Construct {
            kind: ConstructKind::OutsideProfile,
            at,
        });
    }
    let after = height_after(removed, op, height);
    if is_bad(framed, op, height, after) {
        return Err(Refusal::Construct {
            kind: ConstructKind::StackHeight,
            at,
        });
    }
    Ok(after as u16)
}

// Notes that a trail comes to an offset at a height, which must be the one that is known there, if any is.
fn arrive(heights: &mut IndexMap<u16, u16>, to: u16, height: u16) -> Result<(), Refusal>
    ensures arrived { OnOk result (IsArrived heights.old.entries heights.new.entries to height) }
    ensures small { to < 65536 }
    ensures refused { IfErr result (IsArrivalFault heights.old.entries to height) }
{
    match heights.get(&to) {
        Some(known) if *known == height => Ok(()),
        Some(_) => Err(Refusal::Construct {
            kind: ConstructKind::StackHeight,
            at: to,
        }),
        None => {
            heights.insert(to, height)?;
            Ok(())
        }
    }
}

// Goes on from the offset at a place to its successors.
fn follow(
    proc: &Proc,
    framed: bool,
    removed: &IndexMap<u16, u16>,
    heights: &mut IndexMap<u16, u16>,
    place: usize,
) -> Result<(), Refusal>
    requires { AreReached (searched_procedure proc.now framed removed.now.entries) heights.old.entries }
    ensures followed { OnOk result
        (IsFollowed (searched_procedure proc.now framed removed.now.entries) heights.old.entries heights.new.entries
        place) }
    ensures refused { IfErr result (IsFault (searched_procedure proc.now framed removed.now.entries)) }
{
    let Some((at, height)) = heights.get_index(place) else {
        return Ok(());
    };
    let (at, height) = (*at, *height);
    let Some(node) = proc.nodes.get(&at) else {
        return Ok(());
    };
    let after = step(proc, framed, removed, at, node.instr.op, height)?;
    for to in node.succ.as_slice() {
        arrive(heights, *to, after)?;
    }
    Ok(())
}

/// The height at each offset to which a trail comes, in the order in which they are reached first.
pub fn search(
    alloc: Global,
    proc: &Proc,
    framed: bool,
    removed: &IndexMap<u16, u16>,
) -> Result<IndexMap<u16, u16>, Refusal>
    ensures found { IfOk result
        (λ heights. AreAllHeights (searched_procedure proc.now framed removed.now.entries) heights.entries) }
    ensures refused { IfErr result (IsFault (searched_procedure proc.now framed removed.now.entries)) }
{
    let mut heights = IndexMap::new(alloc);
    arrive(&mut heights, proc.entry, 0)?;
    let mut next = 0;
    while next < heights.len() {
        follow(proc, framed, removed, &mut heights, next)?;
        next += 1;
    }
    Ok(heights)
}
