//! What instructions access at fixed offsets of the data segment.

ghost use Rattle.std.specs.Prelude.{◌≡◌, ◌+◌, ◌<◌, true, ◌++◌, IfOk, OnOk};
ghost use Rattle.dcc_globals.specs.Pieces as spec;
ghost use Rattle.dcc_globals.specs.Marks.{data_of};

use crate::source::DataSource;
use dcc_machine::Ea;
use dcc_num::Width;
use std::alloc::{AllocError, Global};

/// What is accessed off the stack by an operand at a fixed offset.
#[derive(Clone, Copy, PartialEq, Eq, Debug, Drop)]
pub enum Piece {
    /// The byte at this offset.
    OneByte(u16),
    /// The word at this offset, which doesn't wrap.
    OneWord(u16),
    /// The byte at this offset, of a word of which the other byte lies in the stack, or that wraps.
    Broken(u16),
}

// Whether an offset lies in the stack.
fn is_in_stack(lo: u16, hi: u16, at: u16) -> bool
    ensures { result ≡ spec.is_in_stack lo hi at }
{
    lo <= at && at < hi
}

// Whether a word lies off the stack and doesn't wrap.
fn is_whole(lo: u16, hi: u16, at: u16) -> bool
    ensures { result ≡ spec.is_whole lo hi at }
{
    at < u16::MAX && !is_in_stack(lo, hi, at) && !is_in_stack(lo, hi, at + 1)
}

/// Whether an address is a displacement alone.
pub(crate) fn is_fixed(ea: Ea) -> bool
    ensures { result ≡ spec.is_fixed ea }
{
    ea.base.is_none() && ea.index.is_none()
}

// Appends a byte, alone, where it lies off the stack.
fn push_broken(pieces: &mut Vec<Piece>, lo: u16, hi: u16, at: u16) -> Result<(), AllocError>
    ensures { OnOk result (pieces.new.items ≡ pieces.old.items ++ spec.broken_at lo hi at) }
{
    if !is_in_stack(lo, hi, at) {
        pieces.push(Piece::Broken(at))?;
    }
    Ok(())
}

// Appends the pieces of an access to a byte.
fn push_byte(pieces: &mut Vec<Piece>, lo: u16, hi: u16, at: u16) -> Result<(), AllocError>
    ensures { OnOk result (pieces.new.items ≡ pieces.old.items ++ spec.pieces_at lo hi Width.Byte at) }
{
    if !is_in_stack(lo, hi, at) {
        pieces.push(Piece::OneByte(at))?;
    }
    Ok(())
}

// Appends the pieces of an access to a word.
fn push_word(pieces: &mut Vec<Piece>, lo: u16, hi: u16, at: u16) -> Result<(), AllocError>
    ensures { OnOk result (pieces.new.items ≡ pieces.old.items ++ spec.pieces_at lo hi Width.Word at) }
{
    if is_whole(lo, hi, at) {
        pieces.push(Piece::OneWord(at))?;
        return Ok(());
    }
    push_broken(pieces, lo, hi, at)?;
    push_broken(pieces, lo, hi, at.wrapping_add(1))
}

// Appends the pieces of a memory operand.
fn push_pieces(
    pieces: &mut Vec<Piece>,
    lo: u16,
    hi: u16,
    operand: (Width, Ea),
) -> Result<(), AllocError>
    ensures { OnOk result (pieces.new.items ≡ pieces.old.items ++ spec.pieces_of lo hi operand) }
{
    let (width, ea) = operand;
    if !is_fixed(ea) {
        return Ok(());
    }
    match width {
        Width::Byte => push_byte(pieces, lo, hi, ea.disp),
        Width::Word => push_word(pieces, lo, hi, ea.disp),
    }
}

/// The pieces of all memory operands. Want of memory is the only error.
pub(crate) fn pieces(alloc: Global, source: &DataSource) -> Result<Vec<Piece>, AllocError>
    ensures { IfOk result (λ pieces. pieces.items ≡ spec.pieces (data_of source.now)) }
{
    let mut pieces = Vec::new(alloc);
    for operand in source.operands {
        push_pieces(&mut pieces, source.lo, source.hi, *operand)?;
    }
    Ok(pieces)
}
