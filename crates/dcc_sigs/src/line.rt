//! What a line tells.

ghost use Rattle.std.specs.Prelude.{◌≡◌, ◌++◌, ◌↔◌, ◌<◌, ◌≤◌, IfOk, OnOk, IsTrue, MatchOption, All, length, take, position, codes};
ghost use Rattle.std.specs.List.{list_all};
ghost use Rattle.dcc_sigs.specs.Signature.{part_text, parts_text, IsPart, IsName};
ghost use Rattle.dcc_c.specs.Token as tokens;
ghost use Rattle.dcc_sigs.specs.Reading.{is_space, name_size, part_of, parts_in, AreSized, IsPartsReading, IsReading};

use dcc_reread::{before, digit_value};
use dcc_spelled::push_byte;
use std::alloc::{AllocError, Global};
use std::str;

// The greatest number of bytes of a name.
const NAME_MOST: usize = 31;

// The greatest number of parts.
const PARTS_MOST: usize = 64;

/// The name and the parts of a line.
#[derive(Drop)]
pub(crate) struct Line<'a> {
    /// The name.
    pub name: &'a str,
    /// The parts.
    pub parts: Vec<Option<u8>>,
}

// Whether two lists of bytes are one.
fn is_same(bytes: &[u8], others: &[u8]) -> bool
    ensures { IsTrue result ↔ (bytes.now ≡ others.now) }
{
    bytes == others
}

// The place of the first space.
fn space_in(line: &[u8]) -> Option<usize>
    ensures { result ≡ position is_space line.now }
{
    line.iter().position(|byte| *byte == b' ')
}

// How many bytes stand before the first space.
fn name_size(line: &[u8]) -> usize
    ensures size { result ≡ name_size line.now }
    ensures within { result ≤ length line.now }
{
    match space_in(line) {
        Some(place) => place,
        None => line.len(),
    }
}

// Whether the byte is a letter, a digit or `_`.
fn is_word_byte(byte: u8) -> bool
    ensures { result ≡ tokens.is_word_byte byte }
{
    byte.is_ascii_alphanumeric() || byte == b'_'
}

// Whether all the bytes are letters, digits or `_`.
fn are_word_bytes(bytes: &[u8]) -> bool
    ensures { result ≡ list_all tokens.is_word_byte bytes.now }
{
    bytes.iter().all(|byte| is_word_byte(*byte))
}

// Whether the bytes begin with `lib_`.
fn begins_library(bytes: &[u8]) -> bool
    ensures { IsTrue result ↔ (take 4 bytes.now ≡ codes "lib_") }
{
    is_same(before(bytes, 4), b"lib_")
}

// Whether the bytes are a name that begins with `lib_`.
fn is_name(bytes: &[u8]) -> bool
    ensures { IsTrue result ↔ IsName bytes.now }
{
    bytes.len() <= NAME_MOST && begins_library(bytes) && are_word_bytes(bytes)
}

// The name that the bytes are.
fn name_in(bytes: &[u8]) -> Option<&str>
    ensures { MatchOption result (¬ IsName bytes.now) (λ name. IsName bytes.now × (name.now ≡ bytes.now)) }
{
    if is_name(bytes) {
        match str::from_utf8(bytes) {
            Ok(name) => Some(name),
            Err(_) => unreachable!(),
        }
    } else {
        None
    }
}

// The part that two bytes are, if they are one: `??` or two digits.
fn part_of(high: u8, low: u8) -> Option<u8>
    ensures part { result ≡ part_of high low }
    ensures small { IsPart result }
{
    if high == b'?' {
        None
    } else {
        Some(digit_value(high) * 16 + digit_value(low))
    }
}

// The parts of two bytes each, after a byte each.
fn parts_in(alloc: Global, text: &[u8]) -> Result<Vec<Option<u8>>, AllocError>
    ensures parts { IfOk result (λ parts. parts.items ≡ parts_in text.now) }
    ensures small { IfOk result (λ parts. All IsPart parts.items) }
{
    let mut parts = Vec::new(alloc);
    let mut left = text;
    while let [_, high, low, rest @ ..] = left {
        parts.push(part_of(*high, *low))?;
        left = rest;
    }
    Ok(parts)
}

// Appends a part after a space.
fn push_part(text: &mut Vec<u8>, part: Option<u8>) -> Result<(), AllocError>
    ensures { OnOk result (text.new.items ≡ text.old.items ++ part_text part) }
{
    match part {
        Some(byte) => {
            text.push(b' ')?;
            push_byte(text, byte)
        }
        None => text.extend_from_slice(b" ??"),
    }
}

// Appends parts, each after a space.
fn push_parts(text: &mut Vec<u8>, parts: &[Option<u8>]) -> Result<(), AllocError>
    ensures { OnOk result (text.new.items ≡ text.old.items ++ parts_text parts.now) }
{
    for part in parts {
        push_part(text, *part)?;
    }
    Ok(())
}

// Whether the text is that of the parts.
fn is_written(alloc: Global, parts: &[Option<u8>], text: &[u8]) -> Result<bool, AllocError>
    ensures { IfOk result (λ answer. IsTrue answer ↔ (text.now ≡ parts_text parts.now)) }
{
    let mut written = Vec::new(alloc);
    push_parts(&mut written, parts)?;
    Ok(is_same(text, written.as_slice()))
}

// Whether there are parts, and no more than 64.
fn are_sized(parts: &[Option<u8>]) -> bool
    ensures { IsTrue result ↔ AreSized parts.now }
{
    !parts.is_empty() && parts.len() <= PARTS_MOST
}

// The parts that the text is that of, where they are neither none nor too many.
fn parts_of(alloc: Global, text: &[u8]) -> Result<Option<Vec<Option<u8>>>, AllocError>
    ensures { IfOk result (IsPartsReading text.now) }
{
    let parts = parts_in(alloc, text)?;
    if are_sized(&parts) {
        if is_written(alloc, &parts, text)? {
            Ok(Some(parts))
        } else {
            Ok(None)
        }
    } else {
        Ok(None)
    }
}

/// The name and the parts that a line tells. None where it is no signature's.
pub(crate) fn line_in<'a>(alloc: Global, text: &'a [u8]) -> Result<Option<Line<'a>>, AllocError>
    ensures { IfOk result (IsReading text.now) }
{
    let size = name_size(text);
    match name_in(&text[..size]) {
        Some(name) => match parts_of(alloc, &text[size..])? {
            Some(parts) => Ok(Some(Line { name, parts })),
            None => Ok(None),
        },
        None => Ok(None),
    }
}
