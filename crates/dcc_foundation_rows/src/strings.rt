//! Strings in memory, written to memory.

use dcc_console::{put_string, string_length};
use dcc_io::{Failed, MemSink};
use std::alloc::{AllocError, Global};
use std::test::Fail;

// The size of a memory, and the bytes that stand in it at addresses.
type Memory = (usize, &'static [(usize, &'static [u8])]);

const HELLO: Memory = (0x1_0000, &[(0x100, b"hello$x$"), (0x200, b"$x$")]);

const LAST_OFFSET: Memory = (0x1_0000, &[(0, b"cd$"), (0xFFFE, b"ab")]);

const HIGH_SEGMENT: Memory = (0x9_0000, &[(0x8_0000, b"b$"), (0x8_FFFF, b"a")]);

const LAST_ADDRESS: Memory = (0x10_0000, &[(0, b"cd$"), (0xF_FFFE, b"ab")]);

// A memory, a segment and an offset in it, the number of the write that fails, if it is not 0, and what is written.
type Row = (Memory, u16, u32, u64, &'static [u8]);

static ROWS: [Row; 13] = [
    (HELLO, 0, 0x100, 0, b"hello"),
    (HELLO, 0, 0x100, 2, b"hello"),
    (HELLO, 0, 0x1_0100, 2, b"hello"),
    (HELLO, 0, 0x100, 1, b""),
    (HELLO, 0, 0x200, 1, b""),
    (LAST_OFFSET, 0, 0xFFFE, 0, b"abcd"),
    (LAST_OFFSET, 0, 0xFFFE, 1, b""),
    (LAST_OFFSET, 0, 0xFFFE, 2, b"ab"),
    (LAST_OFFSET, 0, 0xFFFE, 3, b"abcd"),
    (HIGH_SEGMENT, 0x8000, 0xFFFF, 3, b"ab"),
    (LAST_ADDRESS, 0xFFFF, 0x000E, 0, b"abcd"),
    (LAST_ADDRESS, 0xFFFF, 0x000E, 2, b"ab"),
    (LAST_ADDRESS, 0xFFFF, 0x000E, 3, b"abcd"),
];

// The memory with those bytes, and with zeros elsewhere.
fn memory_with(
    alloc: Global,
    size: usize,
    parts: &[(usize, &[u8])],
) -> Result<Vec<u8>, AllocError> {
    let mut memory = Vec::new(alloc);
    for (at, bytes) in parts {
        memory.resize(*at, 0)?;
        memory.extend_from_slice(bytes)?;
    }
    memory.resize(size, 0)?;
    Ok(memory)
}

#[test]
fn strings_are_written_in_the_longest_pieces(rt: HostRuntime) -> Result<(), Fail> {
    let alloc = rt.alloc();
    for ((size, parts), segment, start, fail, want) in ROWS {
        let memory = memory_with(alloc, size, parts)?;
        let mut out = MemSink::new(alloc, vec![in alloc; fail]?, 0x1_0000);
        let result = put_string(&memory, segment, start, &mut out);
        assert_eq!(rt; out.taken().as_slice(), want);
        let whole = want.len() == string_length(&memory, segment, start) as usize;
        assert_eq!(rt; result, if whole { Ok(()) } else { Err(Failed) });
    }
    Ok(())
}

#[test]
fn a_string_without_an_end_has_65536_bytes(rt: HostRuntime) -> Result<(), Fail> {
    let alloc = rt.alloc();
    for size in [0, 3, 0x1_0000, 0x10_0000] {
        let memory = memory_with(alloc, size, &[])?;
        let mut out = MemSink::new(alloc, Vec::new(alloc), 1000);
        assert_eq!(rt; string_length(&memory, 0, 7), 0x1_0000);
        assert_eq!(rt; put_string(&memory, 0, 7, &mut out), Ok(()));
        assert_eq!(rt; out.taken().len(), 0x1_0000);
    }
    Ok(())
}
