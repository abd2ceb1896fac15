//! Trails as a plain program: it computes, of any list of offsets, what the definition of trails
//! says of it, in the definition's own steps. It is slow, and covers calls, returns and jumps
//! through a table too; tests compare what is found with it.
//!
//! A trail stands here as in the definition, with its newest offset first.

ghost use Rattle.std.specs.Prelude.{◌≡◌, IsTrue, ◌↔◌, Contains, IfOk, IfSome, if◌then◌else◌};
ghost use Rattle.dcc_machine.specs.MzImage.{IsLoaded};
ghost use Rattle.dcc_prog.specs.Layout.{HasLayout};
ghost use Rattle.dcc_machine.specs.WellFormed.{IsOperation};
ghost use Rattle.dcc_prog.specs.Trail.{ah_after, known_ah, operation_in, moved_from, is_doubling, clears_upper};
ghost use Rattle.dcc_prog.specs.Trail.{compared_with, al_compared_with, is_test_to, number_before_test, greatest_in};
ghost use Rattle.dcc_prog.specs.Trail.{greatest_doubled, table_number, successors, IsTrail};

use crate::code::instruction_in;
use crate::form::{constant_to_ah, writes_ah};
use crate::known::{Known, NOTHING};
use crate::onward;
use crate::table::{clears_ah, is_bounds_test, is_general, is_same_register};
use dcc_machine::{Alu, Count, Image, Instr, Op, Operand, Shift};
use dcc_num::{Half, Reg};
use dcc_prog::Layout;
use smallvec::SmallVec;
use std::alloc::{AllocError, Global};

// What is known of AH after an instruction, by what is known before it.
fn ah_after(instr: Option<Instr>, known: Option<u8>) -> Option<u8>
    requires { IfSome instr (λ instr. IsOperation instr.op) }
    ensures { result ≡ ah_after instr known }
{
    match instr {
        Some(instr) if writes_ah(instr.op) => constant_to_ah(instr.op),
        _ => known,
    }
}

/// What is known of AH after a trail, whose newest offset stands first: the constant of the last
/// instruction that writes AH, if it is a MOV of one.
pub fn known_ah(image: &Image, layout: &Layout, trail: &[u16]) -> Option<u8>
    requires loaded { IsLoaded image.now }
    requires layout { HasLayout image.now layout.now }
    ensures { result ≡ known_ah image.now layout.now trail.now }
{
    let mut known = None;
    for place in (0..trail.len()).rev() {
        known = ah_after(instruction_in(image, layout, trail[place]), known);
    }
    known
}

// The operation at an offset, if an instruction stands there.
fn operation_in(image: &Image, layout: &Layout, at: u16) -> Option<Op>
    requires loaded { IsLoaded image.now }
    requires layout { HasLayout image.now layout.now }
    ensures { result ≡ operation_in image.now layout.now at }
{
    match instruction_in(image, layout, at) {
        Some(instr) => Some(instr.op),
        None => None,
    }
}

// The register r, where the operation is `mov q,r` and moves it from another register.
fn moved_from(q: Reg, op: Option<Op>) -> Option<Reg>
    ensures { result ≡ moved_from q op }
{
    match op {
        Some(Op::Mov(Operand::Word(p), Operand::Word(r)))
            if is_same_register(q, p) && !is_same_register(q, r) => { Some(r) }
        _ => None,
    }
}

// Whether the operation is `shl r,1`.
fn is_doubling(r: Reg, op: Option<Op>) -> bool
    ensures { result ≡ is_doubling r op }
{
    match op {
        Some(Op::Shift(Shift::Shl, Operand::Word(q), Count::One)) => is_same_register(r, q),
        _ => false,
    }
}

// Whether the operation is `xor ah,ah`, where r is AX.
fn clears_upper(r: Reg, op: Option<Op>) -> bool
    ensures { result ≡ clears_upper r op }
{
    match (r, op) {
        (Reg::Ax, Some(op)) => clears_ah(op),
        _ => false,
    }
}

// The number N, where the operation is `cmp r,N` of a general register.
fn compared_with(r: Reg, op: Option<Op>) -> Option<u16>
    ensures { result ≡ compared_with r op }
{
    match op {
        Some(Op::Alu(Alu::Cmp, Operand::Word(q), Operand::Const(_, constant)))
            if is_general(r) && is_same_register(r, q) => { Some(constant) }
        _ => None,
    }
}

// The number N, where the operation is `cmp al,N`.
fn al_compared_with(op: Option<Op>) -> Option<u16>
    ensures { result ≡ al_compared_with op }
{
    match op {
        Some(Op::Alu(Alu::Cmp, Operand::Byte(Reg::Ax, Half::Low), Operand::Const(_, constant))) =>
            Some(constant),
        _ => None,
    }
}

// Whether a bounds test stands at an offset, and goes on to another one.
fn is_test_to(instr: Option<Instr>, at: u16, to: u16) -> bool
    ensures { result ≡ is_test_to instr at to }
{
    match instr {
        Some(instr) => is_bounds_test(instr.op, instr.next_of(at), to),
        None => false,
    }
}

// N of the comparison of AL, or of the register, at the end of a trail but for the bounds test, which
// goes on to an offset.
fn number_before_test(
    image: &Image,
    layout: &Layout,
    of_al: bool,
    r: Reg,
    to: u16,
    trail: &[u16],
) -> Option<u16>
    requires loaded { IsLoaded image.now }
    requires layout { HasLayout image.now layout.now }
    ensures { result ≡ number_before_test image.now layout.now
        (λ op. if of_al then al_compared_with op else compared_with r op) to trail.now }
{
    let [test, compare, ..] = trail else {
        return None;
    };
    if !is_test_to(instruction_in(image, layout, *test), *test, to) {
        return None;
    }
    let comparison = operation_in(image, layout, *compare);
    if of_al {
        al_compared_with(comparison)
    } else {
        compared_with(r, comparison)
    }
}

// The greatest number that r may hold at an offset, by a trail to it.
fn greatest_in(image: &Image, layout: &Layout, r: Reg, to: u16, trail: &[u16]) -> Option<u16>
    requires loaded { IsLoaded image.now }
    requires layout { HasLayout image.now layout.now }
    ensures { result ≡ greatest_in image.now layout.now r to trail.now }
{
    let [last, before @ ..] = trail else {
        return None;
    };
    if clears_upper(r, operation_in(image, layout, *last)) {
        number_before_test(image, layout, true, r, *last, before)
    } else {
        number_before_test(image, layout, false, r, to, trail)
    }
}

// The greatest number that r may hold before the `shl r,1` with which the trail ends, by the trail before; none where
// it doesn't end so.
fn greatest_doubled(image: &Image, layout: &Layout, r: Reg, trail: &[u16]) -> Option<u16>
    requires loaded { IsLoaded image.now }
    requires layout { HasLayout image.now layout.now }
    ensures { result ≡ greatest_doubled image.now layout.now r trail.now }
{
    let [shift, before @ ..] = trail else {
        return None;
    };
    if is_doubling(r, operation_in(image, layout, *shift)) {
        greatest_in(image, layout, r, *shift, before)
    } else {
        None
    }
}

/// N of a jump through a table by a register, after a trail whose newest offset stands first.
pub(crate) fn table_number(image: &Image, layout: &Layout, q: Reg, trail: &[u16]) -> Option<u16>
    requires loaded { IsLoaded image.now }
    requires layout { HasLayout image.now layout.now }
    ensures { result ≡ table_number image.now layout.now q trail.now }
{
    let [last, before @ ..] = trail else {
        return None;
    };
    match moved_from(q, operation_in(image, layout, *last)) {
        Some(r) => greatest_doubled(image, layout, r, before),
        None => greatest_doubled(image, layout, q, trail),
    }
}

/// The successors of a trail, whose newest offset stands first: the target before the offset of the
/// next instruction, or the words of a table in their order. Where the list is empty, or no
/// instruction stands at its newest offset, there are none.
pub fn successors(
    alloc: Global,
    image: &Image,
    layout: &Layout,
    trail: &[u16],
) -> Result<SmallVec<u16, 2>, AllocError>
    requires loaded { IsLoaded image.now }
    requires layout { HasLayout image.now layout.now }
    ensures { IfOk result (λ offsets. offsets.items ≡ successors image.now layout.now trail.now) }
{
    let [at, before @ ..] = trail else {
        return Ok(SmallVec::new(alloc));
    };
    let Some(instr) = instruction_in(image, layout, *at) else {
        return Ok(SmallVec::new(alloc));
    };
    if let Op::Table(r, offset) = instr.op {
        let number = table_number(image, layout, r, before);
        return onward::table_targets(alloc, image, offset, number);
    }
    let known = Known {
        ah: known_ah(image, layout, before),
        ..NOTHING
    };
    onward::successors(alloc, image, *at, instr, known)
}

// Whether an offset is a successor of a trail.
fn goes_on_to(
    alloc: Global,
    image: &Image,
    layout: &Layout,
    trail: &[u16],
    at: u16,
) -> Result<bool, AllocError>
    requires loaded { IsLoaded image.now }
    requires layout { HasLayout image.now layout.now }
    ensures { IfOk result (λ goes. IsTrue goes ↔ Contains (successors image.now layout.now trail.now) at) }
{
    Ok(successors(alloc, image, layout, trail)?.contains(&at))
}

/// Whether the offsets, the newest first, are a trail of the procedure with that entry: the oldest
/// is the entry, and each other one is a successor of those before it.
pub fn is_trail(
    alloc: Global,
    image: &Image,
    layout: &Layout,
    entry: u16,
    trail: &[u16],
) -> Result<bool, AllocError>
    requires loaded { IsLoaded image.now }
    requires layout { HasLayout image.now layout.now }
    ensures { IfOk result (λ is. IsTrue is ↔ IsTrail image.now layout.now entry trail.now) }
{
    let Some(oldest) = trail.last() else {
        return Ok(false);
    };
    for place in 1..trail.len() {
        if !goes_on_to(alloc, image, layout, &trail[place..], trail[place - 1])? {
            return Ok(false);
        }
    }
    Ok(*oldest == entry)
}
