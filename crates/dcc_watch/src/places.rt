//! The bytes of the stack that accesses touch.

ghost use Rattle.std.specs.Prelude.{◌≡◌, ◌∷◌, [], not, true};
ghost use Rattle.std.specs.List.{filter_map};
ghost use Rattle.dcc_machine.specs.Access.{addresses_of};
ghost use Rattle.dcc_prog.specs.Clean.{stack_offset, is_marked, with_marks, stored_bytes};
ghost use Rattle.dcc_watch.specs.Accesses.{access_of};
ghost use Rattle.dcc_watch.specs.Shapes.{exposed_in};
ghost use Rattle.dcc_watch.specs.Ordered.{AreOrdered};
ghost use Rattle.dcc_watch.specs.Foul.{first_at, hidden_in, unwritten_in};

use crate::access::{Access, Direction, Kind};
use crate::accesses::Accesses;
use crate::frames::Frames;
use crate::marks::Marks;
use dcc_prog::Layout;

// The offset of a stack byte by its physical address, if it is one.
fn stack_offset(layout: &Layout, address: u32) -> Option<u16>
    ensures { result ≡ stack_offset layout.now address }
{
    let start = u32::from(layout.ds) * 16;
    if start + u32::from(layout.lo) <= address && address < start + u32::from(layout.hi) {
        Some((address - start) as u16)
    } else {
        None
    }
}

// The stack's byte at a physical address, if it is one and no frame exposes it.
fn hidden_at(layout: &Layout, frames: &Frames, top: u32, address: u32) -> Option<u16>
    requires ordered { AreOrdered top frames.now.live }
    ensures { result ≡ first_at layout.now (λ offset. not (exposed_in top frames.now.live offset)) (address ∷ []) }
{
    let offset = stack_offset(layout, address)?;
    if frames.is_exposed(top, offset) {
        None
    } else {
        Some(offset)
    }
}

// The stack's byte at a physical address, if it is one and is not written.
fn unwritten_at(layout: &Layout, written: &Marks, address: u32) -> Option<u16>
    ensures { result ≡ first_at layout.now (λ offset. not (is_marked written.now offset)) (address ∷ []) }
{
    let offset = stack_offset(layout, address)?;
    if written.is_marked(offset) {
        None
    } else {
        Some(offset)
    }
}

// The first byte of an access that no frame exposes.
fn hidden_byte(layout: &Layout, frames: &Frames, top: u32, access: Access) -> Option<u16>
    requires ordered { AreOrdered top frames.now.live }
    ensures { result ≡ first_at layout.now (λ offset. not (exposed_in top frames.now.live offset))
        (addresses_of (access_of access)) }
{
    for k in 0..access.size {
        let byte = hidden_at(layout, frames, top, access.address(k));
        if byte.is_some() {
            return byte;
        }
    }
    None
}

// The first byte of an access that is not written.
fn unwritten_byte(layout: &Layout, written: &Marks, access: Access) -> Option<u16>
    ensures { result ≡ first_at layout.now (λ offset. not (is_marked written.now offset))
        (addresses_of (access_of access)) }
{
    for k in 0..access.size {
        let byte = unwritten_at(layout, written, access.address(k));
        if byte.is_some() {
            return byte;
        }
    }
    None
}

// The first byte of an access that no frame exposes, unless the access is one of the stack or of a frame.
fn hidden_of(layout: &Layout, frames: &Frames, top: u32, access: Access) -> Option<u16>
    requires ordered { AreOrdered top frames.now.live }
    ensures { result ≡ hidden_in layout.now top frames.now.live (access_of access ∷ []) }
{
    match access.kind {
        Kind::Other => hidden_byte(layout, frames, top, access),
        Kind::OfStack | Kind::OfFrame => None,
    }
}

// The first byte of an access that is not written, if it is read.
fn unwritten_of(layout: &Layout, written: &Marks, access: Access) -> Option<u16>
    ensures { result ≡ unwritten_in layout.now written.now (access_of access ∷ []) }
{
    match access.direction {
        Direction::Reading => unwritten_byte(layout, written, access),
        Direction::Writing => None,
    }
}

/// The first byte that no frame exposes, of accesses other than those of the stack and of frames; SP stands at the
/// first offset.
pub(crate) fn hidden(layout: &Layout, frames: &Frames, top: u32, list: &Accesses) -> Option<u16>
    requires ordered { AreOrdered top frames.now.live }
    ensures { result ≡ hidden_in layout.now top frames.now.live list.now }
{
    for access in list.items() {
        let byte = hidden_of(layout, frames, top, *access);
        if byte.is_some() {
            return byte;
        }
    }
    None
}

/// The first byte that is read and not written.
pub(crate) fn unwritten(layout: &Layout, written: &Marks, list: &Accesses) -> Option<u16>
    ensures { result ≡ unwritten_in layout.now written.now list.now }
{
    for access in list.items() {
        let byte = unwritten_of(layout, written, *access);
        if byte.is_some() {
            return byte;
        }
    }
    None
}

// Marks the stack's byte at a physical address, if it is one.
fn mark_at(layout: &Layout, address: u32, written: &mut Marks)
    ensures { written.new ≡ with_marks true (filter_map (stack_offset layout.now) (address ∷ [])) written.old }
{
    if let Some(offset) = stack_offset(layout, address) {
        written.mark(offset);
    }
}

// Marks the bytes of an access.
fn mark_bytes(layout: &Layout, access: Access, written: &mut Marks)
    ensures { written.new
        ≡ with_marks true (filter_map (stack_offset layout.now) (addresses_of (access_of access))) written.old }
{
    for k in 0..access.size {
        mark_at(layout, access.address(k), written);
    }
}

// Marks the bytes of an access, if it writes.
fn mark_access(layout: &Layout, access: Access, written: &mut Marks)
    ensures { written.new ≡ with_marks true (stored_bytes layout.now (access_of access ∷ [])) written.old }
{
    if let Direction::Writing = access.direction {
        mark_bytes(layout, access, written);
    }
}

/// Marks the bytes that are stored.
pub(crate) fn mark_stored(layout: &Layout, list: &Accesses, written: &mut Marks)
    ensures { written.new ≡ with_marks true (stored_bytes layout.now list.now) written.old }
{
    for access in list.items() {
        mark_access(layout, *access, written);
    }
}
