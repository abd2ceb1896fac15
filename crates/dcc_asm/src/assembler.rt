//! The assembler.

ghost use Rattle.std.specs.Prelude.{◌≡◌, ◌≢◌, ◌<◌, ◌≤◌, ℕ, List, ◌++◌, ◌∷◌, [], length, IfOk, IfErr, MatchOption};
ghost use Rattle.dcc_list.specs.Text.{IsLine, text_of};
ghost use Rattle.dcc_asm.specs.Fault.{IsAssembled, IsFaultOf, text_most};
ghost use Rattle.dcc_asm.specs.Steps.{digits_place, IsHeadingFor, IsHeading, AreGiven, IsFaultOfLines};

use crate::fault::{ListFault, ListKind};
use crate::line::is_same;
use crate::step::push_line;
use dcc_list::push_head;
use dcc_machine::Cpu;
use dcc_reread::word_value;
use std::alloc::{AllocError, Global};

// The greatest number of bytes of a text.
const TEXT_MOST: usize = 67_108_864;

/// The first line of a listing and the text behind it.
#[derive(Clone, Copy)]
pub struct Heading<'a> {
    /// The processor.
    pub cpu: Cpu,
    /// The code segment.
    pub cs: u16,
    /// What stands behind the first line.
    pub rest: &'a [u8],
}

// Where the digits of the code segment stand in the first line.
fn digits_place(cpu: Cpu) -> usize
    ensures place { result ≡ digits_place cpu }
    ensures small { result < 1000 }
{
    match cpu {
        Cpu::I8086 => 18,
        Cpu::I186 => 17,
    }
}

// What stands behind the head of a text.
fn behind_head<'a>(text: &'a [u8], head: &[u8]) -> Option<&'a [u8]>
    ensures { MatchOption result ((rest : List ℕ) → text.now ≢ head.now ++ rest) (λ rest. text.now ≡ head.now ++ rest.now) }
{
    let size = head.len();
    if size <= text.len() && is_same(&text[..size], head) {
        Some(&text[size..])
    } else {
        None
    }
}

// The first line, where it tells this processor and a code segment.
fn heading_for<'a>(
    alloc: Global,
    text: &'a [u8],
    cpu: Cpu,
) -> Result<Option<Heading<'a>>, AllocError>
    ensures { IfOk result (IsHeadingFor cpu text.now) }
{
    let cs = word_value(text, digits_place(cpu));
    let mut head = Vec::new(alloc);
    push_head(&mut head, cpu, cs)?;
    match behind_head(text, head.as_slice()) {
        Some(rest) => Ok(Some(Heading { cpu, cs, rest })),
        None => Ok(None),
    }
}

// The first line, where it tells a processor and a code segment.
fn heading_of<'a>(alloc: Global, text: &'a [u8]) -> Result<Option<Heading<'a>>, AllocError>
    ensures { IfOk result (IsHeading text.now) }
{
    match heading_for(alloc, text, Cpu::I8086)? {
        Some(heading) => Ok(Some(heading)),
        None => heading_for(alloc, text, Cpu::I186),
    }
}

// The first line of the text and what stands behind it.
fn first_line<'a>(text: &'a [u8]) -> Option<(&'a [u8], &'a [u8])>
    ensures { MatchOption result (IsLine text.now)
        (λ found. IsLine found.0.now × (text.now ≡ text_of (found.0.now ∷ []) ++ found.1.now)) }
{
    match text.iter().position(|byte| *byte == b'\n') {
        Some(place) => Some((&text[..place], &text[place + 1..])),
        None => None,
    }
}

// The bytes that the lines behind the first one give.
fn assemble_lines(alloc: Global, cpu: Cpu, cs: u16, text: &[u8]) -> Result<Vec<u8>, ListFault>
    requires { length text.now ≤ text_most }
    ensures given { IfOk result (λ bytes. AreGiven cpu cs text.now bytes.items) }
    ensures refused { IfErr result (IsFaultOfLines cpu cs text.now) }
{
    let mut image = Vec::new(alloc);
    let mut left = text;
    let mut number: u32 = 2;
    while !left.is_empty() {
        match first_line(left) {
            Some((line, rest)) => {
                if let Some(kind) = push_line(alloc, cpu, cs, &mut image, line)? {
                    return Err(ListFault::At { line: number, kind });
                }
                left = rest;
                number += 1;
            }
            None => {
                return Err(ListFault::At {
                    line: number,
                    kind: ListKind::Word,
                });
            }
        }
    }
    Ok(image)
}

/// The bytes of a listing.
///
/// # Errors
///
/// The first line that offends, and how it does. Or that memory ran out.
pub fn assemble(alloc: Global, text: &Vec<u8>) -> Result<Vec<u8>, ListFault>
    ensures assembled { IfOk result (λ bytes. IsAssembled text.now.items bytes.items) }
    ensures refused { IfErr result (IsFaultOf text.now.items) }
{
    if text.len() > TEXT_MOST {
        return Err(ListFault::At {
            line: 0,
            kind: ListKind::Length,
        });
    }
    match heading_of(alloc, text.as_slice())? {
        Some(heading) => assemble_lines(alloc, heading.cpu, heading.cs, heading.rest),
        None => Err(ListFault::At {
            line: 1,
            kind: ListKind::Head,
        }),
    }
}
