//! Both sides of programs that use memory, frames, divisions and jump tables.

use crate::both::{Program, check_both, text_of};
use dcc_samples::files::{NO_FAULTS, answered, program, program_with_data};
use std::test::Fail;

// The bytes of the data after the code's paragraphs, the code after the instructions that set DS, the input, the output
// and the line at the end.
type Row = (
    &'static [u8],
    &'static [u8],
    &'static [u8],
    &'static [u8],
    &'static str,
);

// A jump through a table by a digit: two of its four entries are one.
const TABLE_JUMP: &[u8] =
    b"\xB4\x08\xCD\x21\x8A\xD8\x80\xEB\x30\xB7\x00\x83\xFB\x03\x77\x19\xD1\xE3\x2E\xFF\xA7\x32\x00\xB0\x01\xEB\
        \x0A\xB0\x02\xEB\x06\xB0\x03\xEB\x02\xB0\x04\xB4\x4C\xCD\x21\xB0\x09\xEB\xF8\x1C\x00\x20\x00\x24\x00\x1C\
        \x00";

// A long in memory is compared with FFFF0000h, and its lower word where the upper ones are equal.
const COMPARES_LONGS: &[u8] =
    b"\xBA\xFF\xFF\xB8\x00\x00\x3B\x16\x02\x00\x7C\x0D\x7F\x06\x3B\x06\x00\x00\x72\x05\xB8\x00\x4C\xCD\
        \x21\xB8\x01\x4C\xCD\x21";

// Bytes and words of memory without a value and with one, by addresses in registers and constants.
const MEMORY_WORDS: &[u8] =
    b"\xBB\x00\x02\xC7\x47\x04\x41\x42\xFE\x06\x04\x02\xBE\x05\x02\x8A\x14\xB4\x02\xCD\x21\x8A\x16\
        \x04\x02\xCD\x21\x8A\x0E\x01\x00\x86\x4F\x06\x80\x06\x02\x00\x03\xBB\x00\x00\x8D\x77\x02\x8A\
        \x04\x86\x87\x06\x02\x02\x04\xB4\x4C\xCD\x21";

// A sum of longs in memory.
const LONG_SUM: &[u8] =
    b"\xA1\x00\x00\x8B\x16\x02\x00\x03\x06\x04\x00\x13\x16\x06\x00\xA3\x00\x00\x89\x16\x02\x00\x8A\
        \x16\x03\x00\xB4\x02\xCD\x21\xA0\x01\x00\xB4\x4C\xCD\x21";

// A string that is written, and its second byte by XLAT.
const STRING: &[u8] = b"\xBA\x00\x00\xB4\x09\xCD\x21\xBB\x00\x00\xB0\x01\xD7\xB4\x4C\xCD\x21";

// Quotients and remainders of words, with signs and without; one waits on the stack.
const WORD_DIVISIONS: &[u8] =
    b"\xB8\x9C\xFF\x99\xBB\x07\x00\xF7\xFB\x52\xB4\x00\x2C\x00\xBA\x00\x00\xB9\x0A\x00\xF7\xF1\x88\
        \xC2\x80\xC2\x41\xB4\x02\xCD\x21\x58\xB4\x4C\xCD\x21";

// A quotient and a remainder of bytes with signs.
const BYTE_DIVISION: &[u8] =
    b"\xB0\x9C\x98\xB3\xF9\xF6\xFB\x88\xE2\xB4\x02\xCD\x21\x88\xC2\xCD\x21\xB4\x4C\xCD\x21";

// A division by 0.
const DIVISION_BY_0: &[u8] = b"\xB8\x01\x00\xBB\x00\x00\x99\xF7\xFB\xB8\x00\x4C\xCD\x21";

// A buffer in the frame that is filled by its address and written as a string, beside a variable.
const BUFFER: &[u8] =
    b"\x55\x89\xE5\x83\xEC\x06\x8D\x7E\xFC\xB9\x03\x00\xC6\x05\x78\x47\xE2\xFA\xC6\x05\x24\x8D\x56\
        \xFC\xB4\x09\xCD\x21\x89\x4E\xFA\x8A\x46\xFA\xB4\x4C\xCD\x21";

// A word in the frame that is set as a word and as a byte, under pushes and pops.
const FRAME_WORD: &[u8] =
    b"\x55\x89\xE5\x50\x53\xC7\x46\xFE\x34\x12\xC6\x46\xFF\x56\x8B\x46\xFE\x88\xE2\x5B\x59\x88\xCE\
        \x5D\xB4\x02\xCD\x21\x88\xF0\xB4\x4C\xCD\x21";

// A jump through a table of four entries, to its first and its last one, to the first past it and to the last of all.
const FIRST_OF_FOUR: &[u8] =
    b"\xBB\x00\x00\x83\xFB\x03\x77\x19\xD1\xE3\x2E\xFF\xA7\x2A\x00\xB0\x01\xEB\x0A\xB0\x02\xEB\x06\
        \xB0\x03\xEB\x02\xB0\x04\xB4\x4C\xCD\x21\xB0\x09\xEB\xF8\x14\x00\x18\x00\x1C\x00\x20\x00";

const LAST_OF_FOUR: &[u8] =
    b"\xBB\x03\x00\x83\xFB\x03\x77\x19\xD1\xE3\x2E\xFF\xA7\x2A\x00\xB0\x01\xEB\x0A\xB0\x02\xEB\x06\
        \xB0\x03\xEB\x02\xB0\x04\xB4\x4C\xCD\x21\xB0\x09\xEB\xF8\x14\x00\x18\x00\x1C\x00\x20\x00";

const PAST_FOUR: &[u8] =
    b"\xBB\x04\x00\x83\xFB\x03\x77\x19\xD1\xE3\x2E\xFF\xA7\x2A\x00\xB0\x01\xEB\x0A\xB0\x02\xEB\x06\
        \xB0\x03\xEB\x02\xB0\x04\xB4\x4C\xCD\x21\xB0\x09\xEB\xF8\x14\x00\x18\x00\x1C\x00\x20\x00";

const LAST_OF_ALL: &[u8] =
    b"\xBB\xFF\xFF\x83\xFB\x03\x77\x19\xD1\xE3\x2E\xFF\xA7\x2A\x00\xB0\x01\xEB\x0A\xB0\x02\xEB\x06\
        \xB0\x03\xEB\x02\xB0\x04\xB4\x4C\xCD\x21\xB0\x09\xEB\xF8\x14\x00\x18\x00\x1C\x00\x20\x00";

// A quotient that no word holds.
const TOO_GREAT_A_QUOTIENT: &[u8] = b"\xB8\x00\x80\xBB\xFF\xFF\x99\xF7\xFB\xB8\x00\x4C\xCD\x21";

// A word that is loaded into the register of its own address.
const LOADS_ITS_ADDRESS: &[u8] =
    b"\xBB\x00\x00\x8B\x1F\x8A\xD3\xB4\x02\xCD\x21\x8A\xD7\xB4\x02\xCD\x21\xB8\x00\x4C\xCD\x21";

// A table by a copy of the compared register, and by a byte that is widened.
const TABLE_BY_A_COPY: &[u8] =
    b"\xB8\x02\x00\x3D\x03\x00\x77\x1B\xD1\xE0\x8B\xD8\x2E\xFF\xA7\x2C\x00\xB0\x01\xEB\x0A\xB0\x02\
        \xEB\x06\xB0\x03\xEB\x02\xB0\x04\xB4\x4C\xCD\x21\xB0\x09\xEB\xF8\x16\x00\x1A\x00\x1E\x00\x22\
        \x00";

const TABLE_BY_A_BYTE: &[u8] =
    b"\xB0\x02\x3C\x03\x77\x1D\x32\xE4\xD1\xE0\x8B\xD8\x2E\xFF\xA7\x2C\x00\xB0\x01\xEB\x0A\xB0\x02\
        \xEB\x06\xB0\x03\xEB\x02\xB0\x04\xB4\x4C\xCD\x21\xB0\x09\xEB\xF8\x16\x00\x1A\x00\x1E\x00\x22\
        \x00";

static ROWS: [Row; 23] = [
    (b"Hi!", MEMORY_WORDS, b"", b"BB", "exit 141\n"),
    (
        b"\xFF\xFF\x00\x41\x01\x00\x00\x01",
        LONG_SUM,
        b"",
        b"B",
        "exit 0\n",
    ),
    (b"Hi!$", STRING, b"", b"Hi!", "exit 105\n"),
    (b"", WORD_DIVISIONS, b"", b"Y", "exit 254\n"),
    (b"", BYTE_DIVISION, b"", b"\xFE\x0E", "exit 14\n"),
    (b"", DIVISION_BY_0, b"", b"", "divide\n"),
    (b"", BUFFER, b"", b"xxx", "exit 0\n"),
    (b"", FRAME_WORD, b"", b"V", "exit 52\n"),
    // Jumps through a table, to its first, third and last entry and past it.
    (b"", TABLE_JUMP, b"0", b"", "exit 1\n"),
    (b"", TABLE_JUMP, b"2", b"", "exit 3\n"),
    (b"", TABLE_JUMP, b"3", b"", "exit 1\n"),
    (b"", TABLE_JUMP, b"9", b"", "exit 9\n"),
    // A long in memory that is compared with FFFF0000h.
    (b"\x00\x00\x00\x00", COMPARES_LONGS, b"", b"", "exit 1\n"),
    (b"\x00\x00\xFF\xFF", COMPARES_LONGS, b"", b"", "exit 0\n"),
    (b"\x01\x00\xFF\xFF", COMPARES_LONGS, b"", b"", "exit 1\n"),
    (b"", FIRST_OF_FOUR, b"", b"", "exit 1\n"),
    (b"", LAST_OF_FOUR, b"", b"", "exit 4\n"),
    (b"", PAST_FOUR, b"", b"", "exit 9\n"),
    (b"", LAST_OF_ALL, b"", b"", "exit 9\n"),
    (b"", TOO_GREAT_A_QUOTIENT, b"", b"", "divide\n"),
    (
        b"\x02\x5A\x41\x42",
        LOADS_ITS_ADDRESS,
        b"",
        b"\x02Z",
        "exit 0\n",
    ),
    (b"", TABLE_BY_A_COPY, b"", b"", "exit 3\n"),
    (b"", TABLE_BY_A_BYTE, b"", b"", "exit 3\n"),
];

fn rows() -> &'static [Row] {
    &ROWS
}

#[test]
fn texts_with_memory_put_out_and_end_as_their_programs_do(rt: HostRuntime) -> Result<(), Fail> {
    let alloc = rt.alloc();
    for row in rows() {
        let (data, code, input, output, line) = *row;
        let program = Program {
            code,
            input,
            output,
            line,
        };
        let file = program_with_data(alloc, code, data)?;
        for fill in ["0", "43690"] {
            check_both(&rt, alloc, &file, &program, "8086", fill)?;
        }
    }
    Ok(())
}

// A byte of the frame that nothing has written is put out.
const UNWRITTEN: &[u8] =
    b"\x55\x8B\xEC\x83\xEC\x02\x8A\x56\xFE\xB4\x02\xCD\x21\xB8\x00\x4C\xCD\x21";

#[test]
fn the_text_of_a_foul_run_goes_on_and_ends(rt: HostRuntime) -> Result<(), Fail> {
    let alloc = rt.alloc();
    let file = program(alloc, UNWRITTEN)?;
    let watched = answered(alloc, &["watch", "ROW1.EXE"], &file, NO_FAULTS)?;
    assert_eq!(rt; watched.status, 23);
    let text = text_of(&rt, alloc, &file, "8086")?;
    for (fill, byte) in [("0", 0), ("65535", 255)] {
        let words = ["runc", "ROW1.EXE", "--fill", fill];
        let given = answered(alloc, &words, &text, NO_FAULTS)?;
        assert_eq!(rt; given.status, 0);
        assert_eq!(rt; given.err.as_slice(), "exit 0\n".as_bytes());
        assert_eq!(rt; given.out.as_slice(), [byte].as_slice());
    }
    Ok(())
}
