//! The bytes of a frame that belong together.

ghost use Rattle.std.specs.Prelude.{◌≡◌, ℕ, ◌++◌, pos, neg_ℤ, ◌≤ℤ◌, nat_eq, IfOk, OnOk};
ghost use Rattle.indexmap.specs.IndexMap.{get};
ghost use Rattle.dcc_frames.specs.Pieces.{piece_of, word_from, words_from, used_by, pieces_of};

use crate::access::passed;
use crate::body::Body;
use crate::bytes::{Bytes, Piece};
use crate::memory::{access, moved, word_at};
use crate::steps::Step;
use indexmap::IndexMap;
use std::alloc::{AllocError, Global};

// Adds the bytes that an instruction uses, if there are any.
fn add(pieces: &mut Vec<Piece>, bytes: Option<Bytes>, user: u16) -> Result<(), AllocError>
    ensures { OnOk result (pieces.new.items ≡ pieces.old.items ++ piece_of bytes user) }
{
    if let Some(bytes) = bytes {
        pieces.push(Piece {
            bytes,
            user: Some(user),
        })?;
    }
    Ok(())
}

// The word with this number from an offset on.
fn word(first: i32, user: Option<u16>, number: u16) -> Piece
    requires low { neg_ℤ (pos 65536) ≤ℤ first }
    requires high { first ≤ℤ pos 4 }
    ensures { result ≡ word_from first user number }
{
    let bytes = word_at(first + 2 * i32::from(number));
    Piece { bytes, user }
}

// Adds `count` words from an offset on.
fn add_words(
    pieces: &mut Vec<Piece>,
    first: i32,
    count: u16,
    user: Option<u16>,
) -> Result<(), AllocError>
    requires low { neg_ℤ (pos 65536) ≤ℤ first }
    requires high { first ≤ℤ pos 4 }
    ensures { OnOk result (pieces.new.items ≡ pieces.old.items ++ words_from first count user) }
{
    for number in 0..count {
        pieces.push(word(first, user, number))?;
    }
    Ok(())
}

// Adds all that an instruction uses together.
fn add_used(
    pieces: &mut Vec<Piece>,
    framed: bool,
    counts: &IndexMap<u16, u16>,
    step: Step,
) -> Result<(), AllocError>
    ensures { OnOk result
        (pieces.new.items ≡ pieces.old.items ++ used_by framed (λ entry. get nat_eq counts.now entry) step) }
{
    add(pieces, moved(framed, step.op, step.height), step.at)?;
    add(pieces, access(framed, step.op), step.at)?;
    let first = 2 - i32::from(step.height);
    add_words(pieces, first, passed(counts, step.op), Some(step.at))
}

/// The bytes of a frame that belong together: those that an instruction uses together, and the word of each argument.
pub fn pieces(
    alloc: Global,
    body: &Body,
    counts: &IndexMap<u16, u16>,
) -> Result<Vec<Piece>, AllocError>
    ensures { IfOk result (λ pieces. pieces.items ≡ pieces_of body.now (λ entry. get nat_eq counts.now entry)) }
{
    let mut pieces = Vec::new(alloc);
    add_words(&mut pieces, 4, body.args, None)?;
    for step in &body.steps {
        add_used(&mut pieces, body.framed, counts, *step)?;
    }
    Ok(pieces)
}
