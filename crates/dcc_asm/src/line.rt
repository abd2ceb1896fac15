//! What a line tells.

ghost use Rattle.std.specs.Prelude.{◌≡◌, ◌++◌, ◌≤◌, IfOk, OnOk, IsTrue, ◌↔◌, option_map, position, nat_le};
ghost use Rattle.std.specs.Option.{MatchOption};
ghost use Rattle.dcc_asm.specs.Form.{form_of, form_line, read_form, pairs, IsSized, IsReading, spelling_place, odd_form};
ghost use Rattle.dcc_asm.specs.Form.{is_bytes_line, is_odd_line};

use dcc_machine::Op;
use dcc_reread::{before, behind, byte_of, digit_value, operation_in, word_value};
use dcc_spelled::{push_bytes, push_spelling, push_word};
use std::alloc::{AllocError, Global};

/// What a line tells that is no line for people.
#[derive(Drop)]
pub enum Line {
    /// The offset of the next byte.
    Place(u16),
    /// Bytes.
    Bytes(Vec<u8>),
    /// An operation in its standard encoding.
    Operation(Op),
    /// An operation in another encoding.
    Odd(Vec<u8>, Op),
}

// The bytes of digits, two after each space.
fn pairs(alloc: Global, text: &[u8]) -> Result<Vec<u8>, AllocError>
    ensures { IfOk result (λ bytes. bytes.items ≡ pairs text.now) }
{
    let mut bytes = Vec::new(alloc);
    let mut left = text;
    while let [_, high, low, rest @ ..] = left {
        bytes.push(digit_value(*high) * 16 + digit_value(*low))?;
        left = rest;
    }
    Ok(bytes)
}

// Whether the line begins as a line of bytes does, whose first four bytes may be whatever they are.
fn is_bytes_line(line: &[u8]) -> bool
    ensures { result ≡ is_bytes_line line.now }
{
    byte_of(line, 4) == b'd' && byte_of(line, 5) == b'b' && byte_of(line, 6) == b' '
}

// Whether the line begins as an odd line does.
fn is_odd_line(line: &[u8]) -> bool
    ensures { result ≡ is_odd_line line.now }
{
    byte_of(line, 4) == b'o' && byte_of(line, 5) == b'd'
}

// The place of the first lower-case letter.
fn letter_in(text: &[u8]) -> Option<usize>
    ensures { result ≡ position (λ byte. nat_le 97 byte) text.now }
{
    text.iter().position(|byte| 97 <= *byte)
}

// Where the spelling begins behind bytes: at the first lower-case letter.
fn spelling_place(text: &[u8]) -> usize
    ensures { result ≡ spelling_place text.now }
{
    match letter_in(text) {
        Some(place) => place,
        None => text.len(),
    }
}

// Bytes and a spelling.
fn odd_line(alloc: Global, text: &[u8]) -> Result<Option<Line>, AllocError>
    ensures { IfOk result (λ found. option_map form_of found ≡ odd_form text.now) }
{
    let place = spelling_place(text);
    match operation_in(behind(text, place)) {
        Some(op) => Ok(Some(Line::Odd(pairs(alloc, before(text, place.saturating_sub(1)))?, op))),
        None => Ok(None),
    }
}

// What the line tells, if it has the form that its first bytes promise.
fn read(alloc: Global, line: &[u8]) -> Result<Option<Line>, AllocError>
    ensures { IfOk result (λ found. option_map form_of found ≡ read_form line.now) }
{
    if byte_of(line, 0) != b' ' {
        return Ok(Some(Line::Place(word_value(line, 0))));
    }
    if is_bytes_line(line) {
        return Ok(Some(Line::Bytes(pairs(alloc, behind(line, 6))?)));
    }
    if is_odd_line(line) {
        return odd_line(alloc, behind(line, 7));
    }
    match operation_in(behind(line, 4)) {
        Some(op) => Ok(Some(Line::Operation(op))),
        None => Ok(None),
    }
}

// Appends the line that tells this, without its line feed.
fn push_line(text: &mut Vec<u8>, line: &Line) -> Result<(), AllocError>
    ensures { OnOk result (text.new.items ≡ text.old.items ++ form_line (form_of line.now)) }
{
    match line {
        Line::Place(at) => {
            push_word(text, *at)?;
            text.extend_from_slice(b":")
        }
        Line::Bytes(bytes) => {
            text.extend_from_slice(b"    db")?;
            push_bytes(text, bytes.as_slice())
        }
        Line::Operation(op) => {
            text.extend_from_slice(b"    ")?;
            push_spelling(text, *op)
        }
        Line::Odd(bytes, op) => {
            text.extend_from_slice(b"    odd")?;
            push_bytes(text, bytes.as_slice())?;
            text.extend_from_slice(b" ")?;
            push_spelling(text, *op)
        }
    }
}

/// Whether two lists of bytes are one.
pub(crate) fn is_same(bytes: &[u8], others: &[u8]) -> bool
    ensures { IsTrue result ↔ (bytes.now ≡ others.now) }
{
    bytes == others
}

// Whether the text is the line that tells this.
fn is_written(alloc: Global, line: &Line, text: &[u8]) -> Result<bool, AllocError>
    ensures { IfOk result (λ answer. IsTrue answer ↔ (text.now ≡ form_line (form_of line.now))) }
{
    let mut written = Vec::new(alloc);
    push_line(&mut written, line)?;
    Ok(is_same(text, written.as_slice()))
}

// Whether there are bytes, and in a line of bytes no more than 16.
fn is_sized(line: &Line) -> bool
    ensures { IsTrue result ↔ IsSized (form_of line.now) }
{
    match line {
        Line::Bytes(bytes) => !bytes.is_empty() && bytes.len() <= 16,
        Line::Odd(bytes, _) => !bytes.is_empty(),
        Line::Place(_) | Line::Operation(_) => true,
    }
}

// Whether the text is the line that tells this, with bytes that are neither none nor too many.
fn is_told(alloc: Global, line: &Line, text: &[u8]) -> Result<bool, AllocError>
    ensures { IfOk result (λ answer. IsTrue answer
        ↔ (IsSized (form_of line.now) × (text.now ≡ form_line (form_of line.now)))) }
{
    if is_sized(line) {
        is_written(alloc, line, text)
    } else {
        Ok(false)
    }
}

/// What a line tells that is no line for people. None where it has no form.
pub fn line_in(alloc: Global, text: &[u8]) -> Result<Option<Line>, AllocError>
    ensures { IfOk result (IsReading text.now) }
{
    match read(alloc, text)? {
        Some(line) => {
            if is_told(alloc, &line, text)? {
                Ok(Some(line))
            } else {
                Ok(None)
            }
        }
        None => Ok(None),
    }
}
