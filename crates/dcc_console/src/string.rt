//! Strings in memory, which a `$` ends: they are found and written in the longest stretches that memory has in one
//! piece.

ghost use Rattle.std.specs.Prelude.{◌≡◌, ◌+◌, ◌<◌, ◌≤◌, ℕ, length, slice_index, OnOk, OnErr};
ghost use Rattle.dcc_io.specs.Count.{Rose};
ghost use Rattle.dcc_io.specs.Told.{append_told, AppendsProperPrefix};
ghost use Rattle.dcc_console.specs.Strings.{byte_in, string_in};

use dcc_io::{Failed, Sink, put_all};
use dcc_num::dos;
use memchr::memchr;

// The number of offsets in a segment.
const OFFSETS: usize = 0x1_0000;

// The number of addresses.
const ADDRESSES: usize = 0x10_0000;

// The most bytes of a string.
const MOST: usize = dos::STRING_MOST as usize;

// What a byte past the end of memory is read as.
static PAST_THE_END: [u8; 1] = [0];

// The bytes from an offset in a segment on that memory has in one piece, up to where the offset or the address wraps,
// and at most `most`; past the end of memory one byte.
fn stretch(memory: &[u8], segment: u16, at: usize, most: usize) -> &[u8]
    requires { 0 < most }
    ensures some { 0 < length result.now }
    ensures within { length result.now ≤ most }
    ensures bytes { (j : ℕ) → j < length result.now → slice_index result.now j ≡ byte_in memory.now segment (at + j) }
{
    let offset = at % OFFSETS;
    let address = (usize::from(segment) * 16 + offset) % ADDRESSES;
    if address >= memory.len() {
        return &PAST_THE_END;
    }
    let room = most.min(OFFSETS - offset).min(ADDRESSES - address);
    &memory[address..address + room.min(memory.len() - address)]
}

/// The number of bytes of the string at an offset in a segment: those up to the first `$`, and at most 65,536. Past its
/// end memory is read as zeros.
pub fn string_length(memory: &[u8], segment: u16, start: u32) -> u32
    ensures value { result ≡ length (string_in memory.now segment start) }
    ensures within { result ≤ 65536 }
{
    let mut k = 0;
    while k < MOST {
        let piece = stretch(memory, segment, start as usize + k, MOST - k);
        match memchr(dos::STRING_END, piece) {
            Some(at) => return (k + at) as u32,
            None => k += piece.len(),
        }
    }
    MOST as u32
}

/// Writes the string at an offset in a segment. Where a write fails, a part of it was written.
pub fn put_string<O: Sink>(
    memory: &[u8],
    segment: u16,
    start: u32,
    out: &mut O,
) -> Result<(), Failed>
    ensures whole { OnOk result
        (O.taken out.new ≡ append_told (O.taken out.old) (string_in memory.now segment start)) }
    ensures part { OnErr result
        (AppendsProperPrefix (O.taken out.old) (O.taken out.new) (string_in memory.now segment start)) }

    // The count never falls, and the error comes only where it rose.
    ensures faults { O.faults out.old ≤ O.faults out.new }
    ensures failed { OnErr result (Rose (O.faults out.old) (O.faults out.new)) }
{
    let size = string_length(memory, segment, start) as usize;
    let mut written = 0;
    while written < size {
        let piece = stretch(memory, segment, start as usize + written, size - written);
        put_all(out, piece)?;
        written += piece.len();
    }
    Ok(())
}
