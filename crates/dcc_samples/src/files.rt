//! Files of programs, their texts, calls on them, and their runs.

ghost use Rattle.std.specs.Prelude.{◌≤◌, IfOk};

use dcc_io::{MemShelf, MemSink, MemSource};
use dcc_rules::RuleList;
use dcc_top::top::dcc;
use std::alloc::{AllocError, Global};

/// A program of 48 bytes that prints A and exits with 3: a header of two paragraphs with one relocation,
/// then 16 bytes of code.
pub const PRINTS_A: [u8; 48] = [
    0x4D, 0x5A, 0x30, 0x00, 0x01, 0x00, 0x01, 0x00, 0x02, 0x00, 0x00, 0x00, 0xFF, 0xFF, 0x01, 0x00,
    0x00, 0x01, 0x00, 0x00, 0x00, 0x00, 0x00, 0x00, 0x1C, 0x00, 0x00, 0x00, 0x01, 0x00, 0x00, 0x00,
    0xB8, 0x01, 0x00, 0x8E, 0xD8, 0xB2, 0x41, 0xB4, 0x02, 0xCD, 0x21, 0xB8, 0x03, 0x4C, 0xCD, 0x21,
];

/// The code of a loop with two entries, which counts to 5: the key 0 enters after its first instruction.
pub const TWO_ENTRIES: &[u8] =
    b"\xB4\x08\xCD\x21\x3C\x30\x74\x01\x43\x41\x83\xF9\x05\x75\xF9\x8A\xC3\xB4\x4C\xCD\x21";

/// The factorial of 7, modulo 65536, by recursion.
pub const FACTORIAL: &[u8] =
    b"\xB8\x07\x00\x50\xE8\x05\x00\x59\xB4\x4C\xCD\x21\x55\x8B\xEC\x8B\x46\x04\x3D\x01\x00\x7E\x09\x48\
        \x50\xE8\xF0\xFF\x59\xF7\x66\x04\x5D\xC3";

/// The paragraphs of 16 bytes that the code takes, with the two instructions that set DS before it. Code of more than
/// 65,531 bytes is told as want of memory.
fn paragraphs(code: &[u8]) -> Result<u16, AllocError>
    ensures { IfOk result (λ n. n ≤ 4096) }
{
    let bytes = code.len();
    if bytes > 65_531 {
        return Err(AllocError);
    }
    Ok((5 + bytes).div_ceil(16) as u16)
}

/// The file of a program. The image is `mov ax, p`, `mov ds, ax` and the code, with zeros up to a whole
/// paragraph; p, the image's paragraphs, is relocated, so that DS and SS are the segment after the image.
/// Code of more than 65,531 bytes is told as want of memory.
pub fn program(alloc: Global, code: &[u8]) -> Result<Vec<u8>, AllocError> {
    let paragraphs = paragraphs(code)?;
    let length = 32 + 16 * u32::from(paragraphs);
    let header = [
        (length % 512) as u16,
        length.div_ceil(512) as u16,
        1,
        2,
        0,
        0xFFFF,
        paragraphs,
        0x0100,
        0,
        0,
        0,
        0x1C,
        0,
    ];
    let mut file = b"MZ".to_vec(alloc)?;
    for word in header {
        file.extend_from_slice(&word.to_le_bytes())?;
    }
    // The relocation of the word at offset 1.
    file.extend_from_slice(&[1, 0, 0, 0, 0xB8])?;
    file.extend_from_slice(&paragraphs.to_le_bytes())?;
    file.extend_from_slice(&[0x8E, 0xD8])?;
    file.extend_from_slice(code)?;
    file.resize(length as usize, 0)?;
    Ok(file)
}

/// The file of a program with data after its code, where DS begins. A file of more than 131,072 bytes is told as want of
/// memory.
pub fn program_with_data(alloc: Global, code: &[u8], data: &[u8]) -> Result<Vec<u8>, AllocError> {
    let mut file = program(alloc, code)?;
    file.extend_from_slice(data)?;
    if file.len() < 6 || file.len() > 131_072 {
        return Err(AllocError);
    }
    let [low, high] = ((file.len() % 512) as u16).to_le_bytes();
    file[2] = low;
    file[3] = high;
    let [low, high] = (file.len().div_ceil(512) as u16).to_le_bytes();
    file[4] = low;
    file[5] = high;
    Ok(file)
}

/// The numbers, from 1 on, of a fetch, of a read and of writes that fail; 0 where none does.
#[derive(Clone, Copy)]
pub struct Faults {
    /// Of the shelf.
    pub fetch: u64,
    /// Of the input.
    pub read: u64,
    /// Of the output.
    pub out: u64,
    /// Of the error stream.
    pub err: u64,
}

/// Nothing fails.
pub const NO_FAULTS: Faults = Faults {
    fetch: 0,
    read: 0,
    out: 0,
    err: 0,
};

/// What a call answered and wrote.
#[derive(Drop)]
pub struct Answer {
    /// The exit status.
    pub status: u8,
    /// What was written to the output.
    pub out: Vec<u8>,
    /// What was written to the error stream.
    pub err: Vec<u8>,
}

/// Calls the top call with the words and no rules, where the shelf has one file, ROW1.EXE, of these bytes, and the
/// input has these. The input gives one byte a read, and the streams take at most 8 bytes a write.
pub fn answered_on(
    alloc: Global,
    words: &[&str],
    file: &[u8],
    input: &[u8],
    faults: Faults,
) -> Result<Answer, AllocError> {
    let mut command = Vec::new(alloc);
    for word in words {
        command.push(String::from_str(alloc, word)?)?;
    }
    let mut files = Vec::new(alloc);
    files.push((String::from_str(alloc, "ROW1.EXE")?, file.to_vec(alloc)?))?;
    let mut shelf = MemShelf::new(alloc, files, [faults.fetch].to_vec(alloc)?);
    let mut input = MemSource::new(input.to_vec(alloc)?, [faults.read].to_vec(alloc)?, 1);
    let mut out = MemSink::new(alloc, [faults.out].to_vec(alloc)?, 8);
    let mut err = MemSink::new(alloc, [faults.err].to_vec(alloc)?, 8);
    let rules = RuleList::new(alloc);
    let status = dcc(
        alloc, &command, &rules, &mut shelf, &mut input, &mut out, &mut err,
    );
    Ok(Answer {
        status,
        out: out.taken().clone()?,
        err: err.taken().clone()?,
    })
}

/// Calls the top call with the words on an empty input.
pub fn answered(
    alloc: Global,
    words: &[&str],
    file: &[u8],
    faults: Faults,
) -> Result<Answer, AllocError> {
    answered_on(alloc, words, file, b"", faults)
}
