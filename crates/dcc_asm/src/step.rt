//! One line of a listing after another.

ghost use Rattle.std.specs.Prelude.{◌≡◌, ◌≤◌, ◌<◌, ℕ, List, IfOk, IsTrue, ◌↔◌, MatchOption, length, Some};
ghost use Rattle.dcc_encode.specs.Encoding.{IsEncoding, IsStandard};
ghost use Rattle.dcc_list.specs.Text.{IsOffset, Gives, operation_line, odd_line};
ghost use Rattle.dcc_asm.specs.Fault.{bytes_most, IsOdd, IsKnown, Offends};
ghost use Rattle.dcc_asm.specs.Form.{form_of, form_line, read_form, IsSized, Tells, operation, odd};
ghost use Rattle.dcc_asm.specs.Steps.{IsDone, IsStandardAt};

use crate::fault::ListKind;
use crate::known::is_known;
use crate::line::{Line, is_same, line_in};
use dcc_encode::{Bytes, is_encoding, standard};
use dcc_machine::{Cpu, LOAD_SEGMENT, Op};
use dcc_reread::byte_of;
use std::alloc::{AllocError, Global};

/// The greatest number of bytes of an image.
pub const BYTES_MOST: usize = 262_144;

// The number of offsets in a segment.
const OFFSETS: usize = 65536;

// Whether the image's byte of this place has the offset.
fn is_offset(cs: u16, place: usize, at: u16) -> bool
    requires { place ≤ bytes_most }
    ensures { IsTrue result ↔ IsOffset cs place at }
{
    usize::from(at) + usize::from(cs) * 16 == place + usize::from(LOAD_SEGMENT) * 16
}

// The offset of the image's byte of this place, where the segment has the byte.
fn offset_of(cs: u16, place: usize) -> Option<u16>
    requires { place ≤ bytes_most }
    ensures { MatchOption result ((at : ℕ) → IsOffset cs place at → 65536 ≤ at) (IsOffset cs place) }
{
    let address = place + usize::from(LOAD_SEGMENT) * 16;
    let segment = usize::from(cs) * 16;
    if segment <= address && address < segment + OFFSETS {
        Some((address - segment) as u16)
    } else {
        None
    }
}

// Appends the bytes that a line gives, where they aren't too many.
fn push_all(
    cpu: Cpu,
    cs: u16,
    image: &mut Vec<u8>,
    bytes: &[u8],
) -> Result<Option<ListKind>, AllocError>
    requires few { length image.old.items ≤ bytes_most }
    ensures { IfOk result (λ told. (line : List ℕ) → Gives cpu cs (length image.old.items) line bytes.now
        → IsDone cpu cs image.old.items image.new.items line told) }
{
    if bytes.len() > BYTES_MOST - image.len() {
        return Ok(Some(ListKind::Length));
    }
    image.extend_from_slice(bytes)?;
    Ok(None)
}

// The standard encoding of an operation at a place. None where it has no encoding there.
fn standard_at(
    alloc: Global,
    cpu: Cpu,
    cs: u16,
    place: usize,
    op: Op,
) -> Result<Option<Bytes>, AllocError>
    requires { place ≤ bytes_most }
    ensures { IfOk result (IsStandardAt cpu cs place op) }
{
    match offset_of(cs, place) {
        Some(at) => standard(alloc, op, at, cpu),
        None => Ok(None),
    }
}

// Appends the standard encoding of an operation.
fn push_operation(
    alloc: Global,
    cpu: Cpu,
    cs: u16,
    image: &mut Vec<u8>,
    op: Op,
) -> Result<Option<ListKind>, AllocError>
    requires few { length image.old.items ≤ bytes_most }
    requires read { read_form (operation_line op) ≡ Some (operation op) }
    ensures { IfOk result (IsDone cpu cs image.old.items image.new.items (operation_line op)) }
{
    match standard_at(alloc, cpu, cs, image.len(), op)? {
        Some(bytes) => push_all(cpu, cs, image, bytes.as_slice()),
        None => {
            if is_known(alloc, op)? {
                Ok(Some(ListKind::Range))
            } else {
                Ok(Some(ListKind::Word))
            }
        }
    }
}

// Whether the bytes are the standard encoding of the operation at the offset.
fn is_standard(alloc: Global, cpu: Cpu, at: u16, op: Op, bytes: &[u8]) -> Result<bool, AllocError>
    ensures { IfOk result (λ answer. IsTrue answer ↔ IsStandard cpu at op bytes.now) }
{
    match standard(alloc, op, at, cpu)? {
        Some(best) => Ok(is_same(best.as_slice(), bytes)),
        None => Ok(false),
    }
}

// Whether the bytes are an encoding of the operation at the place, and not the standard one.
fn is_odd(
    alloc: Global,
    cpu: Cpu,
    cs: u16,
    place: usize,
    bytes: &[u8],
    op: Op,
) -> Result<bool, AllocError>
    requires { place ≤ bytes_most }
    ensures { IfOk result (λ answer. IsTrue answer ↔ IsOdd cpu cs place bytes.now op) }
{
    match offset_of(cs, place) {
        Some(at) => Ok(is_encoding(bytes, at, op, cpu) && !is_standard(alloc, cpu, at, op, bytes)?),
        None => Ok(false),
    }
}

// Appends the bytes of an operation in another encoding.
fn push_odd(
    alloc: Global,
    cpu: Cpu,
    cs: u16,
    image: &mut Vec<u8>,
    bytes: &[u8],
    op: Op,
) -> Result<Option<ListKind>, AllocError>
    requires few { length image.old.items ≤ bytes_most }
    requires some { 0 < length bytes.now }
    requires read { read_form (odd_line bytes.now op) ≡ Some (odd bytes.now op) }
    ensures { IfOk result (IsDone cpu cs image.old.items image.new.items (odd_line bytes.now op)) }
{
    if is_odd(alloc, cpu, cs, image.len(), bytes, op)? {
        return push_all(cpu, cs, image, bytes);
    }
    if is_known(alloc, op)? {
        Ok(Some(ListKind::Odd))
    } else {
        Ok(Some(ListKind::Word))
    }
}

// Appends what a line gives that tells this.
fn push_told(
    alloc: Global,
    cpu: Cpu,
    cs: u16,
    image: &mut Vec<u8>,
    line: &Line,
) -> Result<Option<ListKind>, AllocError>
    requires few { length image.old.items ≤ bytes_most }
    requires tells { Tells (form_line (form_of line.now)) (form_of line.now) }
    ensures { IfOk result (IsDone cpu cs image.old.items image.new.items (form_line (form_of line.now))) }
{
    match line {
        Line::Place(at) => {
            if is_offset(cs, image.len(), *at) {
                Ok(None)
            } else {
                Ok(Some(ListKind::Place))
            }
        }
        Line::Bytes(bytes) => push_all(cpu, cs, image, bytes.as_slice()),
        Line::Operation(op) => push_operation(alloc, cpu, cs, image, *op),
        Line::Odd(bytes, op) => push_odd(alloc, cpu, cs, image, bytes.as_slice(), *op),
    }
}

/// Appends what a line gives, or tells how it offends.
pub fn push_line(
    alloc: Global,
    cpu: Cpu,
    cs: u16,
    image: &mut Vec<u8>,
    line: &[u8],
) -> Result<Option<ListKind>, AllocError>
    requires few { length image.old.items ≤ bytes_most }
    ensures { IfOk result (IsDone cpu cs image.old.items image.new.items line.now) }
{
    if byte_of(line, 0) == b';' {
        return Ok(None);
    }
    match line_in(alloc, line)? {
        Some(told) => push_told(alloc, cpu, cs, image, &told),
        None => Ok(Some(ListKind::Word)),
    }
}
