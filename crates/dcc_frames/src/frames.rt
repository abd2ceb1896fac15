//! The frames of all procedures.

ghost use Rattle.std.specs.Prelude.{◌≡◌, ℤ, ◌≤ℤ◌, nat_eq, AllPairs, IfOk, IfErr, OnOk};
ghost use Rattle.std.specs.List.Sorted.{IsPermutation};
ghost use Rattle.indexmap.specs.IndexMap.{get};
ghost use Rattle.dcc_frames.specs.declared.bytes.Piece.{Piece as ThePiece};
ghost use Rattle.dcc_frames.specs.Frames.{AreFramesOfAll, IsRefusalOfAll};
ghost use Rattle.dcc_frames.specs.Ready.{IsFrameOfAll, IsFrameRefusal, AreFramesOfEach, IsFramesRefusal};
ghost use Rattle.dcc_frames.specs.Ready.{lacks_addresses};

use crate::access::{check_accesses, check_calls};
use crate::body::{Body, bodies, counts};
use crate::bytes::Piece;
use crate::cell::{cells_of, check_extents};
use crate::exposed::{exposed, starts};
use crate::joined::extents;
use crate::pieces::pieces;
use dcc_prog::{Cells, Frame, Heights, Proc, Refusal};
use indexmap::IndexMap;
use std::alloc::{AllocError, Global};

// Whether the addresses of a frame can't be told in the data segment: the stack lies apart from it, or the procedure
// sets up no BP.
fn lacks_addresses(delta: u16, framed: bool) -> bool
    ensures { result ≡ lacks_addresses delta framed }
{
    delta != 0 || !framed
}

// Brings pieces into the order of their first bytes.
fn sort(pieces: &mut Vec<Piece>) -> Result<(), AllocError>
    ensures permutation { OnOk result (IsPermutation pieces.old.items pieces.new.items) }
    ensures order { OnOk result (AllPairs (λ (a b : ThePiece). a.bytes.first ≤ℤ b.bytes.first) pieces.new.items) }
{
    pieces.sort_by_key(|piece| piece.bytes.first)?;
    Ok(())
}

// The frame of a procedure, with the numbers of arguments of all procedures by their entries.
fn frame(
    alloc: Global,
    body: &Body,
    counts: &IndexMap<u16, u16>,
    delta: u16,
) -> Result<Frame, Refusal>
    ensures frame { IfOk result (IsFrameOfAll body.now (λ entry. get nat_eq counts.now entry) delta) }
    ensures refused { IfErr result (IsFrameRefusal body.now (λ entry. get nat_eq counts.now entry) delta) }
{
    let lacks = lacks_addresses(delta, body.framed);
    check_accesses(body, lacks)?;
    check_calls(body, counts)?;
    let mut pieces = pieces(alloc, body, counts)?;
    sort(&mut pieces)?;
    let extents = extents(alloc, &pieces)?;
    check_extents(lacks, &extents)?;
    let starts = starts(alloc, &body.steps, &extents)?;
    Ok(Frame {
        framed: body.framed,
        args: body.args,
        cells: cells_of(alloc, &extents)?,
        exposed: exposed(&starts),
    })
}

// The frames of all procedures, with their numbers of arguments by their entries.
fn frames(
    alloc: Global,
    bodies: &[Body],
    counts: &IndexMap<u16, u16>,
    delta: u16,
) -> Result<Vec<Frame>, Refusal>
    ensures frames { IfOk result
        (λ frames. AreFramesOfEach bodies.now (λ entry. get nat_eq counts.now entry) delta frames.items) }
    ensures refused { IfErr result (IsFramesRefusal bodies.now (λ entry. get nat_eq counts.now entry) delta) }
{
    let mut frames = Vec::new(alloc);
    for body in bodies {
        frames.push(frame(alloc, body, counts, delta)?)?;
    }
    Ok(frames)
}

/// The frames of the procedures that `find` gives, with the heights that `heights` gives, where the stack segment
/// begins `delta` bytes above the data segment: of each procedure whether it sets up BP, the number of its argument
/// words, its cells in ascending order, and which bytes are exposed.
///
/// A program is refused for a construct of the kinds 7 and 8, which then stands at the named offset; and for more than
/// 512 cells or 32 argument words of one procedure. Where the answer is Ok, no construct that frames tell stands
/// anywhere, and no such count is too great.
pub fn cells(
    alloc: Global,
    procs: &Vec<Proc>,
    heights: &Heights,
    delta: u16,
) -> Result<Cells, Refusal>
    ensures cells { IfOk result (AreFramesOfAll procs.now.items heights.now delta) }
    ensures refused { IfErr result (IsRefusalOfAll procs.now.items heights.now delta) }
{
    let bodies = bodies(alloc, procs, heights)?;
    let counts = counts(alloc, &bodies)?;
    let frames = frames(alloc, &bodies, &counts, delta)?;
    Ok(Cells { frames })
}
