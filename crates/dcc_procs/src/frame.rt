//! The forms in which a procedure may use SP and BP, as far as they do not rest on the height of the
//! stack.

ghost use Rattle.std.specs.Prelude.{◌≡◌};
ghost use Rattle.dcc_machine.specs.MzImage.{IsLoaded};
ghost use Rattle.dcc_prog.specs.Layout.{HasLayout};
ghost use Rattle.dcc_prog.specs.FrameForm.{stands_push_bp, stands_mov_bp_sp, stands_enter, second_of, begins_by_push};
ghost use Rattle.dcc_prog.specs.FrameForm.{is_framed, makes_frame, is_frame_form};

use crate::code::instruction_in;
use dcc_machine::{Image, Instr, Op};
use dcc_prog::Layout;

fn stands_push_bp(instr: Option<Instr>) -> bool
    ensures { result ≡ stands_push_bp instr }
{
    match instr {
        Some(instr) => instr.op.is_push_bp(),
        None => false,
    }
}

fn stands_mov_bp_sp(instr: Option<Instr>) -> bool
    ensures { result ≡ stands_mov_bp_sp instr }
{
    match instr {
        Some(instr) => instr.op.is_mov_bp_sp(),
        None => false,
    }
}

fn stands_enter(instr: Option<Instr>) -> bool
    ensures { result ≡ stands_enter instr }
{
    match instr {
        Some(instr) => instr.op.is_enter(),
        None => false,
    }
}

// The offset after the first instruction.
fn second_of(entry: u16, first: Option<Instr>) -> u16
    ensures { result ≡ second_of entry first }
{
    match first {
        Some(instr) => instr.next_of(entry),
        None => entry,
    }
}

// Whether the procedure's first instructions are `push bp` and `mov bp,sp`.
fn begins_by_push(image: &Image, layout: &Layout, entry: u16) -> bool
    requires loaded { IsLoaded image.now }
    requires layout { HasLayout image.now layout.now }
    ensures { result ≡ begins_by_push image.now layout.now entry }
{
    let first = instruction_in(image, layout, entry);
    stands_push_bp(first)
        && stands_mov_bp_sp(instruction_in(image, layout, second_of(entry, first)))
}

// Whether the procedure is framed: its first instructions are `push bp` and `mov bp,sp`, or its first instruction is
// ENTER.
fn is_framed(image: &Image, layout: &Layout, entry: u16) -> bool
    requires loaded { IsLoaded image.now }
    requires layout { HasLayout image.now layout.now }
    ensures { result ≡ is_framed image.now layout.now entry }
{
    begins_by_push(image, layout, entry) || stands_enter(instruction_in(image, layout, entry))
}

// Whether the operation, at an offset, is among the first instructions that make the procedure framed.
fn makes_frame(image: &Image, layout: &Layout, entry: u16, at: u16, op: Op) -> bool
    requires loaded { IsLoaded image.now }
    requires layout { HasLayout image.now layout.now }
    ensures { result ≡ makes_frame image.now layout.now entry at op }
{
    let first = instruction_in(image, layout, entry);
    (begins_by_push(image, layout, entry)
        && ((op.is_push_bp() && at == entry)
            || (op.is_mov_bp_sp() && at == second_of(entry, first))))
        || (op.is_enter() && at == entry)
}

/// Whether the operation, at an offset of the procedure with that entry, uses SP and BP in a form that
/// is allowed at some height of the stack.
pub(crate) fn is_frame_form(image: &Image, layout: &Layout, entry: u16, at: u16, op: Op) -> bool
    requires loaded { IsLoaded image.now }
    requires layout { HasLayout image.now layout.now }
    ensures { result ≡ is_frame_form image.now layout.now entry at op }
{
    op.is_sp_move()
        || (!op.names_sp_or_bp() && !op.uses_bp_address())
        || (is_framed(image, layout, entry)
            && (op.leaves_frame()
                || op.copies_bp()
                || makes_frame(image, layout, entry, at, op)
                || (!op.names_sp_or_bp() && op.uses_bp_address())))
}
