//! The lines of a listing for people: what begins at an offset, and which offset it is.

ghost use Rattle.std.specs.Prelude.{◌≡◌, ◌<◌, ℕ, List, [], ◌∷◌, ◌++◌, length, ◌==◌, false, if◌then◌else◌, OnOk};
ghost use Rattle.dcc_machine.specs.declared.instr.Instr.{Instr as TheInstr};
ghost use Rattle.std.specs.Fmt.{digit_glyph};
ghost use Rattle.std.specs.List.{list_any};
ghost use Rattle.dcc_list.specs.Text.{place_line, text_of};
ghost use Rattle.dcc_list.specs.Listed.{procedure_name, procedure_line, procedure_lines, data_offset};
ghost use Rattle.dcc_list.specs.Listed.{headings, is_labelled, lines_for_people};
ghost use Rattle.dcc_list.specs.MarkViews.{IsWhole, AreMarks};

use crate::marks::Marks;
use dcc_machine::Image;
use dcc_prog::{Proc, Program};
use dcc_spelled::push_word;
use std::alloc::{AllocError, Global};

// A hexadecimal digit in lower case.
fn lower_digit(number: u16) -> u8
    requires { number < 16 }
    ensures { result ≡ digit_glyph false number }
{
    if number < 10 {
        b'0' + number as u8
    } else {
        b'a' - 10 + number as u8
    }
}

// Appends the name of the procedure with this entry, where the entry procedure's is the first number.
fn push_name(text: &mut Vec<u8>, start: u16, entry: u16) -> Result<(), AllocError>
    ensures { OnOk result (text.new.items ≡ text.old.items ++ procedure_name start entry) }
{
    if entry == start {
        return text.extend_from_slice(b"start");
    }
    text.extend_from_slice(b"f_")?;
    text.extend_from_slice(&[
        lower_digit(entry / 4096 % 16),
        lower_digit(entry / 256 % 16),
        lower_digit(entry / 16 % 16),
        lower_digit(entry % 16),
    ])
}

// Appends the line of a procedure.
fn push_procedure(
    alloc: Global,
    text: &mut Vec<u8>,
    start: u16,
    proc: &Proc,
    args: u16,
    removed: u16,
) -> Result<(), AllocError>
    ensures { OnOk result (text.new.items
        ≡ text.old.items ++ text_of (procedure_line start proc.now args removed ∷ [])) }
{
    let nodes = proc.nodes.len();
    let counts = format!(in alloc; " nodes {nodes} args {args} ret {removed}")?;
    text.extend_from_slice(b"; ")?;
    push_name(text, start, proc.entry)?;
    text.extend_from_slice(counts.as_bytes())?;
    text.extend_from_slice(b"\n")
}

// Appends the line of the procedure that begins at an offset, if one does.
fn push_procedures(
    alloc: Global,
    text: &mut Vec<u8>,
    program: &Program,
    at: u16,
) -> Result<(), AllocError>
    requires frames { length program.now.procs.items ≡ length program.now.cells.frames.items }
    requires removed { length program.now.procs.items ≡ length program.now.heights.ret.items }
    ensures { OnOk result (text.new.items ≡ text.old.items ++ text_of (procedure_lines program.now.layout.start_ip at
        program.now.procs.items program.now.cells.frames.items program.now.heights.ret.items)) }
{
    for (i, proc) in program.procs.iter().enumerate() {
        let args = program.cells.frames[i].args;
        let removed = program.heights.ret[i];
        if proc.entry == at {
            push_procedure(alloc, text, program.layout.start_ip, proc, args, removed)?;
        }
    }
    Ok(())
}

// The offset at which the data segment begins.
fn data_offset(image: &Image, program: &Program) -> usize
    requires { IsWhole image.now program.now }
    ensures { result ≡ data_offset image.now program.now.layout }
{
    usize::from(program.layout.ds - image.cs) * 16
}

// Whether a procedure begins at an offset.
fn has_entry(procs: &[Proc], at: u16) -> bool
    ensures { result ≡ list_any (λ proc. proc.entry == at) procs.now }
{
    procs.iter().any(|proc| proc.entry == at)
}

/// Whether there are lines for people at an offset.
pub fn is_labelled(image: &Image, program: &Program, marks: &Marks, at: u16) -> bool
    requires whole { IsWhole image.now program.now }
    requires length { length marks.now.targets.items ≡ 65536 }
    ensures { (prelude : List TheInstr) → AreMarks image.now program.now prelude marks.now
        → result ≡ is_labelled image.now program.now at }
{
    image.ip == at
        || has_entry(&program.procs, at)
        || data_offset(image, program) == usize::from(at)
        || marks.targets[usize::from(at)]
}

// Appends a line, where it is wanted.
fn push_heading(text: &mut Vec<u8>, wanted: bool, line: &str) -> Result<(), AllocError>
    ensures { OnOk result (text.new.items
        ≡ text.old.items ++ text_of (if wanted then line.now ∷ [] else [])) }
{
    if !wanted {
        return Ok(());
    }
    text.extend_from_slice(line.as_bytes())?;
    text.extend_from_slice(b"\n")
}

// Appends the headings at an offset.
fn push_headings(
    alloc: Global,
    text: &mut Vec<u8>,
    image: &Image,
    program: &Program,
    at: u16,
) -> Result<(), AllocError>
    requires { IsWhole image.now program.now }
    ensures { OnOk result (text.new.items ≡ text.old.items ++ text_of (headings image.now program.now at)) }
{
    push_heading(text, image.ip == at, "; prelude")?;
    push_procedures(alloc, text, program, at)?;
    push_heading(
        text,
        data_offset(image, program) == usize::from(at),
        "; data",
    )?;
    Ok(())
}

// Appends the headings at an offset, and then the offset.
fn push_label(
    alloc: Global,
    text: &mut Vec<u8>,
    image: &Image,
    program: &Program,
    at: u16,
) -> Result<(), AllocError>
    requires { IsWhole image.now program.now }
    ensures { OnOk result (text.new.items ≡ text.old.items
        ++ text_of (headings image.now program.now at ++ place_line at ∷ [])) }
{
    push_headings(alloc, text, image, program, at)?;
    push_word(text, at)?;
    text.extend_from_slice(b":\n")?;
    Ok(())
}

/// Appends the lines for people at an offset.
pub fn push_lines(
    alloc: Global,
    text: &mut Vec<u8>,
    image: &Image,
    program: &Program,
    marks: &Marks,
    at: u16,
) -> Result<(), AllocError>
    requires whole { IsWhole image.now program.now }
    requires length { length marks.now.targets.items ≡ 65536 }
    ensures { (prelude : List TheInstr) → AreMarks image.now program.now prelude marks.now
        → OnOk result (text.new.items ≡ text.old.items ++ text_of (lines_for_people image.now program.now at)) }
{
    if !is_labelled(image, program, marks, at) {
        return Ok(());
    }
    push_label(alloc, text, image, program, at)
}
