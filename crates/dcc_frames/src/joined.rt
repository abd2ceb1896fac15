//! Pieces that overlap, joined to extents.

ghost use Rattle.std.specs.Prelude.{◌≡◌, [], ◌∷◌, ◌++◌, IfOk, OnOk};
ghost use Rattle.dcc_frames.specs.Extents.{AreExtents, AreAscending, user_of, extent_with, with_last, joined_to};

use crate::bytes::{Bytes, Piece};
use std::alloc::{AllocError, Global};

// The first instruction that uses an extent, if there is one, else the second.
fn user_of(first: Option<u16>, second: Option<u16>) -> Option<u16>
    ensures { result ≡ user_of first second }
{
    match first {
        Some(at) => Some(at),
        None => second,
    }
}

// An extent with a piece that overlaps it and begins no earlier.
fn extent_with(extent: Piece, piece: Piece) -> Piece
    ensures { result ≡ extent_with extent piece }
{
    let first = extent.bytes.first;
    let end = extent.bytes.end.max(piece.bytes.end);
    Piece {
        bytes: Bytes { first, end },
        user: user_of(extent.user, piece.user),
    }
}

// Joins a piece that begins no earlier than the pieces that are joined already. The last extent is handed in and out
// apart.
fn join(extents: &mut Vec<Piece>, last: Option<Piece>, piece: Piece) -> Result<Piece, AllocError>
    ensures { IfOk result (λ extent. (extents.new.items ++ extent ∷ []) ≡ joined_to extents.old.items last piece) }
{
    let Some(extent) = last else {
        return Ok(piece);
    };
    if piece.bytes.first < extent.bytes.end {
        return Ok(extent_with(extent, piece));
    }
    extents.push(extent)?;
    Ok(piece)
}

// Adds the last extent, if there is one.
fn close(extents: &mut Vec<Piece>, last: Option<Piece>) -> Result<(), AllocError>
    ensures { OnOk result (extents.new.items ≡ with_last extents.old.items last) }
{
    if let Some(extent) = last {
        extents.push(extent)?;
    }
    Ok(())
}

/// The extents of pieces that ascend by their first bytes.
pub(crate) fn extents(alloc: Global, pieces: &[Piece]) -> Result<Vec<Piece>, AllocError>
    ensures { AreAscending pieces.now → IfOk result (λ extents. AreExtents pieces.now extents.items) }
{
    let mut extents = Vec::new(alloc);
    let mut last = None;
    for piece in pieces {
        last = Some(join(&mut extents, last, *piece)?);
    }
    close(&mut extents, last)?;
    Ok(extents)
}
