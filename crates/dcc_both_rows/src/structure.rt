//! Loops, choices and jumps of texts, and how deep their blocks stand in each other.

use crate::both::text_of;
use crate::calls::FILLS_A_BUFFER;
use dcc_samples::files::{FACTORIAL, NO_FAULTS, TWO_ENTRIES, answered, program};
use std::alloc::{AllocError, Global};
use std::test::Fail;

// Prints three letters.
const COUNTS_DOWN: &[u8] =
    b"\xB9\x03\x00\xB2\x61\xB4\x02\xCD\x21\xFE\xC2\xE2\xFA\xB8\x00\x4C\xCD\x21";

// Ends with one more than BX where that is 0 to 3, by a table of four, and with 9 else.
const CHOOSES: &[u8] =
    b"\xBB\x00\x00\x83\xFB\x03\x77\x19\xD1\xE3\x2E\xFF\xA7\x2A\x00\xB0\x01\xEB\x0A\xB0\x02\xEB\x06\xB0\x03\
        \xEB\x02\xB0\x04\xB4\x4C\xCD\x21\xB0\x09\xEB\xF8\x14\x00\x18\x00\x1C\x00\x20\x00";

// Prints `y` where it reads an `a`, and `n` else; what it does with an `a` stands first.
const TELLS_A: &[u8] = b"\xB4\x01\xCD\x21\x3C\x61\x75\x08\xB2\x79\xB4\x02\xCD\x21\xEB\x06\
        \xB2\x6E\xB4\x02\xCD\x21\xB8\x00\x4C\xCD\x21";

// Prints `n` where it reads no `a`, and `y` else; what it does without an `a` stands first, before the test.
const TELLS_NO_A: &[u8] =
    b"\xEB\x08\xB2\x6E\xB4\x02\xCD\x21\xEB\x0E\xB4\x01\xCD\x21\x3C\x61\x75\xF0\
        \xB2\x79\xB4\x02\xCD\x21\xB8\x00\x4C\xCD\x21";

// Jumps to itself.
const STAYS: &[u8] = b"\xEB\xFE";

// The code after the instructions that set DS, and how often each of these pieces stands in its text.
type StructureRow = (&'static [u8], &'static [(&'static str, usize)]);

static STRUCTURES: [StructureRow; 7] = [
    // A recursion, and no loop. Its test guards the call, which is on the side of false.
    (
        FACTORIAL,
        &[
            ("for (", 0),
            ("while (", 0),
            ("goto ", 0),
            ("if (", 1),
            ("else", 0),
        ],
    ),
    // One loop, which tests last, in the function that fills the buffer.
    (
        FILLS_A_BUFFER,
        &[
            ("L_002c:\n    do {\n", 1),
            ("    } while (", 1),
            ("while (", 1),
            ("for (", 0),
            ("goto ", 0),
        ],
    ),
    (
        COUNTS_DOWN,
        &[("L_000c:\n    do {\n", 1), ("while (", 1), ("goto ", 0)],
    ),
    // One choice of four cases.
    (
        CHOOSES,
        &[
            ("switch (", 1),
            ("case ", 4),
            ("default:", 0),
            ("goto ", 0),
            ("for (", 0),
            ("while (", 0),
        ],
    ),
    // The sides of a test, in the order of their addresses: that of false first, and that of true.
    (
        TELLS_A,
        &[
            ("if (", 1),
            ("        dos_putc(121);\n    } else {\n", 1),
            ("goto ", 0),
        ],
    ),
    (
        TELLS_NO_A,
        &[
            ("if (", 1),
            ("        dos_putc(110);\n    } else {\n", 1),
            ("goto ", 0),
        ],
    ),
    // A loop with two entries is none of the text.
    (
        TWO_ENTRIES,
        &[
            ("for (", 0),
            ("while (", 0),
            ("goto ", 1),
            ("goto L_000e;\n", 1),
            ("L_000e:\n", 1),
        ],
    ),
];

fn structures() -> &'static [StructureRow] {
    &STRUCTURES
}

// How often the piece stands in the text.
fn occurrences(text: &[u8], piece: &str) -> usize {
    let mut count = 0usize;
    for at in 0..text.len() {
        if text[at..].starts_with(piece.as_bytes()) {
            count = count.wrapping_add(1);
        }
    }
    count
}

#[test]
fn loops_and_choices_are_those_of_the_program(rt: HostRuntime) -> Result<(), Fail> {
    let alloc = rt.alloc();
    for (code, pieces) in structures() {
        let text = text_of(&rt, alloc, program(alloc, code)?.as_slice(), "8086")?;
        for (piece, count) in pieces.iter() {
            assert_eq!(&rt; occurrences(text.as_slice(), piece), *count, "{piece}");
        }
    }
    Ok(())
}

#[test]
fn a_jump_to_itself_is_an_endless_loop(rt: HostRuntime) -> Result<(), Fail> {
    let alloc = rt.alloc();
    let text = text_of(&rt, alloc, program(alloc, STAYS)?.as_slice(), "8086")?;
    let whole: &[u8] =
        b"#pragma dcc text 1\n#pragma dcc stack 0 256\nvoid start(void)\n{\nL_0005:\n    for (;;) {\n    }\n}\n";
    assert_eq!(&rt; text.as_slice(), whole);
    for (words, file) in [("run", program(alloc, STAYS)?), ("runc", text)] {
        let given = answered(
            alloc,
            &[words, "ROW1.EXE", "--steps", "1000"],
            file.as_slice(),
            NO_FAULTS,
        )?;
        assert_eq!(&rt;
            given.err.as_slice(),
            b"running after 1000 steps\n".as_slice()
        );
        assert_eq!(&rt; given.status, 20);
        assert!(&rt; given.out.is_empty());
    }
    Ok(())
}

// So many tests, each around all that come after it; where one fails, all of these and the instruction that they guard
// are passed.
fn nested_tests(alloc: Global, count: u16) -> Result<Vec<u8>, AllocError> {
    let mut code = Vec::new(alloc);
    for left in (0..count).rev() {
        // `jnz` past a jump of three bytes, each test with its jump has five, and the instruction two.
        let distance = left.wrapping_mul(5).wrapping_add(2);
        code.extend_from_slice(&[0x75, 0x03, 0xE9])?;
        code.extend_from_slice(&distance.to_le_bytes())?;
    }
    // `inc bl; mov al,bl`, and the end with AL.
    code.extend_from_slice(b"\xFE\xC3\x8A\xC3\xB4\x4C\xCD\x21")?;
    Ok(code)
}

// How many tests stand in each other, and how many jumps the text has.
static NESTED: [(u16, usize); 5] = [(198, 0), (199, 0), (200, 2), (201, 3), (202, 4)];

fn nested() -> &'static [(u16, usize)] {
    &NESTED
}

#[test]
fn blocks_stand_at_most_200_deep(rt: HostRuntime) -> Result<(), Fail> {
    let alloc = rt.alloc();
    for (count, jumps) in nested() {
        let file = program(alloc, nested_tests(alloc, *count)?.as_slice())?;
        let text = text_of(&rt, alloc, file.as_slice(), "8086")?;
        assert_eq!(&rt; occurrences(text.as_slice(), "goto "), *jumps, "{count}");
        assert_eq!(&rt;
            occurrences(text.as_slice(), "if ("),
            *count as usize,
            "{count}"
        );
        for (words, file) in [("run", file.as_slice()), ("runc", text.as_slice())] {
            let given = answered(alloc, &[words, "ROW1.EXE"], file, NO_FAULTS)?;
            assert_eq!(&rt; given.err.as_slice(), b"exit 1\n".as_slice(), "{count}");
        }
    }
    Ok(())
}
