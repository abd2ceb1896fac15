//! The listing of a program's image.

ghost use Rattle.std.specs.Prelude.{◌≡◌, ◌<◌, ◌≤◌, ◌+◌, ◌^◌, ℕ, List, [], ◌∷◌, ◌++◌, length, IfOk, OnOk};
ghost use Rattle.std.specs.Prelude.{MatchOption, IfSome, IsTrue, ◌↔◌, false};
ghost use Rattle.dcc_machine.specs.declared.instr.Instr.{Instr as TheInstr};
ghost use Rattle.dcc_machine.specs.MzImage.{IsLoaded};
ghost use Rattle.dcc_prog.specs.Analysed.{IsProgramOf};
ghost use Rattle.dcc_encode.specs.Encoding.{IsStandard};
ghost use Rattle.dcc_list.specs.Text.{cpu_name, head_line, bytes_line, operation_line, odd_line, text_of};
ghost use Rattle.dcc_list.specs.Listed.{IsListing, IsInstructionLine, AreBetween, offset_of, begins_line, listed_at};
ghost use Rattle.dcc_list.specs.Listed.{people_at};
ghost use Rattle.dcc_list.specs.MarkViews.{IsWhole, IsSized, AreMarks, AppendsLine, IsReady, StandsThere, Advances};

use crate::marks::Marks;
use crate::people::{is_labelled, push_lines};
use dcc_decode::decode;
use dcc_encode::standard;
use dcc_machine::{Cpu, Image, Instr, LOAD_SEGMENT, Op};
use dcc_prog::Program;
use dcc_spelled::{push_bytes, push_spelling, push_word};
use std::alloc::{AllocError, Global};

// The greatest number of bytes in a line of bytes.
const MOST: usize = 16;

// The number of offsets in a segment.
const OFFSETS: usize = 65536;

// The offset in the code segment of the image's byte of a place, where the segment has the byte.
fn offset_of(cs: u16, place: usize) -> Option<u16>
    requires { place < 2 ^ 32 }
    ensures { result ≡ offset_of cs place }
{
    let address = place + usize::from(LOAD_SEGMENT) * 16;
    let segment = usize::from(cs) * 16;
    if segment <= address && address < segment + OFFSETS {
        Some((address - segment) as u16)
    } else {
        None
    }
}

// Whether a line of its own begins at a place: that of an instruction, or lines for people.
fn begins_line(image: &Image, program: &Program, marks: &Marks, place: usize) -> bool
    requires whole { IsWhole image.now program.now }
    requires sized { IsSized marks.now }
    requires place { place < 2 ^ 32 }
    ensures { (prelude : List TheInstr) → AreMarks image.now program.now prelude marks.now
        → result ≡ begins_line image.now program.now prelude (offset_of image.now.cs place) }
{
    match offset_of(image.cs, place) {
        Some(at) => marks.listed[usize::from(at)] || is_labelled(image, program, marks, at),
        None => false,
    }
}

// How many bytes from a place on stand in one line: up to 16, and up to the next line of its own.
fn count_between(image: &Image, program: &Program, marks: &Marks, place: usize) -> usize
    requires whole { IsWhole image.now program.now }
    requires sized { IsSized marks.now }
    requires place { place < length image.now.bytes.items }
    requires small { length image.now.bytes.items < 2 ^ 32 }
    ensures within { place + result ≤ length image.now.bytes.items }
    ensures some { 0 < result }
    ensures between { (prelude : List TheInstr) → AreMarks image.now program.now prelude marks.now
        → AreBetween image.now program.now prelude place result }
{
    let mut count = 1;
    while count < MOST
        && place + count < image.bytes.len()
        && !begins_line(image, program, marks, place + count)
    {
        count += 1;
    }
    count
}

// The instruction that a line of its own tells at a place, with its offset.
fn listed_instruction(
    image: &Image,
    program: &Program,
    marks: &Marks,
    place: usize,
) -> Option<(u16, Instr)>
    requires loaded { IsLoaded image.now }
    requires sized { IsSized marks.now }
    requires place { place < 2 ^ 32 }
    ensures within { IfSome result (λ found.
        (0 < found.1.len) × (place + found.1.len ≤ length image.now.bytes.items)) }
    ensures stands { (prelude : List TheInstr) → IsReady image.now program.now prelude marks.now
        → MatchOption result
        (listed_at image.now program.now prelude (offset_of image.now.cs place) ≡ false)
        (λ found. StandsThere image.now program.now prelude place found.0 found.1) }
{
    let at = offset_of(image.cs, place)?;
    if !marks.listed[usize::from(at)] {
        return None;
    }
    let instr = decode(image.code(), at, program.layout.cpu)?;
    Some((at, instr))
}

// Whether two lists of bytes are one.
fn is_same(bytes: &[u8], others: &[u8]) -> bool
    ensures { IsTrue result ↔ (bytes.now ≡ others.now) }
{
    bytes == others
}

// Whether the bytes are the standard encoding of the operation.
fn is_standard(alloc: Global, cpu: Cpu, at: u16, op: Op, bytes: &[u8]) -> Result<bool, AllocError>
    ensures { IfOk result (λ answer. IsTrue answer ↔ IsStandard cpu at op bytes.now) }
{
    match standard(alloc, op, at, cpu)? {
        Some(best) => Ok(is_same(best.as_slice(), bytes)),
        None => Ok(false),
    }
}

// Appends the line of an operation in its standard encoding.
fn push_operation(text: &mut Vec<u8>, op: Op) -> Result<(), AllocError>
    ensures { OnOk result (text.new.items ≡ text.old.items ++ text_of (operation_line op ∷ [])) }
{
    text.extend_from_slice(b"    ")?;
    push_spelling(text, op)?;
    text.extend_from_slice(b"\n")
}

// Appends the line of an operation in another encoding, with its bytes.
fn push_odd(text: &mut Vec<u8>, bytes: &[u8], op: Op) -> Result<(), AllocError>
    ensures { OnOk result (text.new.items ≡ text.old.items ++ text_of (odd_line bytes.now op ∷ [])) }
{
    text.extend_from_slice(b"    odd")?;
    push_bytes(text, bytes)?;
    text.extend_from_slice(b" ")?;
    push_spelling(text, op)?;
    text.extend_from_slice(b"\n")
}

// Appends the line of an instruction: an odd one, unless its bytes are the standard encoding.
fn push_instruction(
    alloc: Global,
    text: &mut Vec<u8>,
    cpu: Cpu,
    at: u16,
    op: Op,
    bytes: &[u8],
) -> Result<(), AllocError>
    ensures { OnOk result (AppendsLine (IsInstructionLine cpu at op bytes.now) text.old.items text.new.items) }
{
    let known = is_standard(alloc, cpu, at, op, bytes)?;
    if known {
        push_operation(text, op)?;
    } else {
        push_odd(text, bytes, op)?;
    }
    Ok(())
}

// Appends a line of bytes.
fn push_bytes_line(text: &mut Vec<u8>, bytes: &[u8]) -> Result<(), AllocError>
    ensures { OnOk result (text.new.items ≡ text.old.items ++ text_of (bytes_line bytes.now ∷ [])) }
{
    text.extend_from_slice(b"    db")?;
    push_bytes(text, bytes)?;
    text.extend_from_slice(b"\n")
}

// The name of a processor.
fn cpu_name(cpu: Cpu) -> &'static str
    ensures { result.now ≡ cpu_name cpu }
{
    match cpu {
        Cpu::I8086 => "8086",
        Cpu::I186 => "186",
    }
}

/// Appends the first line, which tells the processor and the code segment.
pub fn push_head(text: &mut Vec<u8>, cpu: Cpu, cs: u16) -> Result<(), AllocError>
    ensures { OnOk result (text.new.items ≡ text.old.items ++ text_of (head_line cpu cs ∷ [])) }
{
    text.extend_from_slice(b"; dcc list 1 ")?;
    text.extend_from_slice(cpu_name(cpu).as_bytes())?;
    text.extend_from_slice(b" ")?;
    push_word(text, cs)?;
    text.extend_from_slice(b"\n")
}

// Appends the lines for people at a place.
fn push_people(
    alloc: Global,
    text: &mut Vec<u8>,
    image: &Image,
    program: &Program,
    marks: &Marks,
    place: usize,
) -> Result<(), AllocError>
    requires whole { IsWhole image.now program.now }
    requires sized { IsSized marks.now }
    requires place { place < 2 ^ 32 }
    ensures { (prelude : List TheInstr) → AreMarks image.now program.now prelude marks.now
        → OnOk result (text.new.items ≡ text.old.items
        ++ text_of (people_at image.now program.now (offset_of image.now.cs place))) }
{
    match offset_of(image.cs, place) {
        Some(at) => push_lines(alloc, text, image, program, marks, at),
        None => Ok(()),
    }
}

// Appends the lines of the image's bytes from a place on, up to those of the next instruction or bytes, and answers
// where these end.
fn push_next(
    alloc: Global,
    text: &mut Vec<u8>,
    image: &Image,
    program: &Program,
    marks: &Marks,
    place: usize,
) -> Result<usize, AllocError>
    requires loaded { IsLoaded image.now }
    requires whole { IsWhole image.now program.now }
    requires sized { IsSized marks.now }
    requires place { place < length image.now.bytes.items }
    ensures further { IfOk result (λ end. (place < end) × (end ≤ length image.now.bytes.items)) }
    ensures advances { (prelude : List TheInstr) → IsReady image.now program.now prelude marks.now
        → IfOk result (λ end. Advances image.now program.now prelude place end text.old.items text.new.items) }
{
    push_people(alloc, text, image, program, marks, place)?;
    match listed_instruction(image, program, marks, place) {
        Some((at, instr)) => {
            let end = place + usize::from(instr.len);
            let bytes = &image.bytes[place..end];
            push_instruction(alloc, text, program.layout.cpu, at, instr.op, bytes)?;
            Ok(end)
        }
        None => {
            let end = place + count_between(image, program, marks, place);
            push_bytes_line(text, &image.bytes[place..end])?;
            Ok(end)
        }
    }
}

/// The listing of the image, whose program the analyses found.
pub fn listing(alloc: Global, image: &Image, program: &Program) -> Result<Vec<u8>, AllocError>
    requires loaded { IsLoaded image.now }
    requires found { IsProgramOf program.now.layout.cpu image.now program.now }
    ensures { IfOk result (λ text. IsListing image.now program.now text.items) }
{
    let marks = Marks::of(alloc, image, program)?;
    let mut text = Vec::new(alloc);
    push_head(&mut text, program.layout.cpu, image.cs)?;
    let mut place = 0;
    while place < image.bytes.len() {
        place = push_next(alloc, &mut text, image, program, &marks, place)?;
    }
    Ok(text)
}
