//! The bytes of a frame whose address may be computed.

ghost use Rattle.std.specs.Prelude.{◌≡◌, ◌++◌, [], ◌∷◌, List, ℤ, pos, neg_ℤ, ◌≤ℤ◌, ◌<ℤ◌, All, IfOk, OnOk};
ghost use Rattle.std.specs.Option.{option_to_list};
ghost use Rattle.dcc_frames.specs.Starts.{starts_by, long_first, starts_of, IsNear, IsLocalBy, IsArgumentBy};

use crate::bytes::Piece;
use crate::memory::start;
use crate::steps::Step;
use dcc_prog::Exposed;
use std::alloc::{AllocError, Global};

// Adds a start, if there is one.
fn add(starts: &mut Vec<i32>, start: Option<i32>) -> Result<(), AllocError>
    ensures { OnOk result (starts.new.items ≡ starts.old.items ++ option_to_list start) }
{
    if let Some(start) = start {
        starts.push(start)?;
    }
    Ok(())
}

// The first byte of an extent that is too long for a cell.
fn long_first(extent: Piece) -> Option<i32>
    ensures { result ≡ long_first extent }
{
    if extent.bytes.is_small() {
        None
    } else {
        Some(extent.bytes.first)
    }
}

// From where instructions expose bytes.
fn starts_of_steps(alloc: Global, steps: &[Step]) -> Result<Vec<i32>, AllocError>
    ensures { IfOk result (λ starts. starts.items ≡ starts_by steps.now) }
{
    let mut starts = Vec::new(alloc);
    for step in steps {
        add(&mut starts, start(step.op, step.height))?;
    }
    Ok(starts)
}

/// From where bytes are exposed: by instructions, and by extents of more than two bytes.
pub(crate) fn starts(
    alloc: Global,
    steps: &[Step],
    extents: &[Piece],
) -> Result<Vec<i32>, AllocError>
    ensures { IfOk result (λ starts. starts.items ≡ starts_of steps.now extents.now) }
{
    let mut starts = starts_of_steps(alloc, steps)?;
    for extent in extents {
        add(&mut starts, long_first(*extent))?;
    }
    Ok(starts)
}

// How many bytes lie from a start up to BP.
fn distance(start: i32) -> u16
    requires low { neg_ℤ (pos 65535) ≤ℤ start }
    requires high { start <ℤ pos 0 }
    ensures { neg_ℤ (pos result) ≡ start }
{
    (-start) as u16
}

// A start above BP as a word.
fn word(start: i32) -> u16
    requires low { pos 0 ≤ℤ start }
    requires high { start ≤ℤ pos 65535 }
    ensures { pos result ≡ start }
{
    start as u16
}

// The number of exposed bytes below BP, by the number so far and one more start.
fn local_with(count: u16, start: i32) -> u16
    ensures { (starts : List ℤ)
        → IsNear start → IsLocalBy starts count → IsLocalBy (starts ++ start ∷ []) result }
{
    if start < 0 && start >= -65535 {
        count.max(distance(start))
    } else {
        count
    }
}

// How many bytes directly below BP are exposed: from the least start below BP on.
fn local(starts: &[i32]) -> u16
    ensures { All IsNear starts.now → IsLocalBy starts.now result }
{
    let mut count = 0;
    for start in starts {
        count = local_with(count, *start);
    }
    count
}

// The least start of 4 or more, by the least so far and one more start.
fn argument_with(least: Option<u16>, start: i32) -> Option<u16>
    ensures { (starts : List ℤ)
        → IsNear start → IsArgumentBy starts least → IsArgumentBy (starts ++ start ∷ []) result }
{
    if start < 4 || start > 65535 {
        return least;
    }
    match least {
        Some(other) => Some(other.min(word(start))),
        None => Some(word(start)),
    }
}

// From which byte of the arguments on bytes are exposed: the least start of 4 or more.
fn argument(starts: &[i32]) -> Option<u16>
    ensures { All IsNear starts.now → IsArgumentBy starts.now result }
{
    let mut least = None;
    for start in starts {
        least = argument_with(least, *start);
    }
    least
}

/// The exposed bytes by the starts.
pub fn exposed(starts: &[i32]) -> Exposed
    ensures local { All IsNear starts.now → IsLocalBy starts.now result.local }
    ensures argument { All IsNear starts.now → IsArgumentBy starts.now result.arg }
{
    Exposed {
        local: local(starts),
        arg: argument(starts),
    }
}
