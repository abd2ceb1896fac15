//! The status and the line of each answer.

use dcc_samples::files::{Answer, FACTORIAL, Faults, NO_FAULTS, PRINTS_A, answered, program};
use std::alloc::{AllocError, Global};
use std::process::Abort;
use std::test::Fail;

// The call must answer this status and write this line, and nothing on its output.
fn check_refused(rt: &impl Abort, given: &Answer, status: u8, line: &str) {
    assert_eq!(rt; given.err.as_slice(), line.as_bytes(), "{line}");
    assert_eq!(rt; given.status, status, "{line}");
    assert!(rt; given.out.is_empty(), "{line}");
}

// Words, the number of the fetch that fails, the status and the line.
type WordsRow = (&'static [&'static str], u64, u8, &'static str);

static WORDS: [WordsRow; 26] = [
    (&[], 0, 2, "dcc: usage\n"),
    (&["c"], 0, 2, "dcc: usage\n"),
    (&["help"], 0, 2, "dcc: usage\n"),
    (&["c", "a", "b"], 0, 2, "dcc: usage\n"),
    (&["C", "ROW1.EXE"], 0, 2, "dcc: usage\n"),
    (&["run"], 0, 2, "dcc: usage\n"),
    (
        &["run", "a", "--steps", "1", "--steps", "2"],
        0,
        2,
        "dcc: usage\n",
    ),
    (&["c", "ROW2.EXE"], 0, 3, "dcc: no file\n"),
    (&["run", "ROW2.EXE"], 0, 3, "dcc: no file\n"),
    (&["c", "ROW1.EXE"], 1, 4, "dcc: file fault\n"),
    (&["run", "ROW1.EXE"], 1, 4, "dcc: file fault\n"),
    (&["runc"], 0, 2, "dcc: usage\n"),
    (&["runc", "ROW2.C"], 0, 3, "dcc: no file\n"),
    (&["runc", "ROW1.EXE"], 1, 4, "dcc: file fault\n"),
    (&["run", "ROW1.EXE", "--fill", "1"], 0, 2, "dcc: usage\n"),
    (&["c", "ROW1.EXE", "--cpu", "286"], 0, 2, "dcc: usage\n"),
    (
        &["run", "ROW1.EXE", "--cpu=186", "--cpu", "186"],
        0,
        2,
        "dcc: usage\n",
    ),
    (&["run", "ROW1.EXE", "--cpu"], 0, 2, "dcc: usage\n"),
    (&["runc", "--cpu", "186", "ROW1.EXE"], 0, 2, "dcc: usage\n"),
    (&["procs"], 0, 2, "dcc: usage\n"),
    (&["procs", "ROW1.EXE", "--steps", "1"], 0, 2, "dcc: usage\n"),
    (&["procs", "ROW2.EXE"], 0, 3, "dcc: no file\n"),
    (&["procs", "ROW1.EXE"], 1, 4, "dcc: file fault\n"),
    (&["asm", "ROW1.EXE", "--cpu", "186"], 0, 2, "dcc: usage\n"),
    (&["asm", "ROW2.LST"], 0, 3, "dcc: no file\n"),
    (&["asm", "ROW1.EXE"], 1, 4, "dcc: file fault\n"),
];

fn words() -> &'static [WordsRow] {
    &WORDS
}

#[test]
fn words_and_shelves_are_refused(rt: HostRuntime) -> Result<(), Fail> {
    for (words, fetch, status, line) in words() {
        let faults = Faults {
            fetch: *fetch,
            read: 0,
            out: 0,
            err: 0,
        };
        let given = answered(rt.alloc(), words, &PRINTS_A, faults)?;
        check_refused(&rt, &given, *status, line);
    }
    Ok(())
}

// A file of these bytes is refused with the line, and with status 8, by each command.
fn check_format(rt: &impl Abort, alloc: Global, file: &[u8], line: &str) -> Result<(), AllocError> {
    for command in ["c", "procs", "run"] {
        let given = answered(alloc, &[command, "ROW1.EXE"], file, NO_FAULTS)?;
        check_refused(rt, &given, 8, line);
    }
    Ok(())
}

// The offset of a byte of the program that prints A, what it is changed to, and the line.
type ChangeRow = (usize, u8, &'static str);

static CHANGES: [ChangeRow; 4] = [
    (0x00, 0x4E, "dcc: format 2 at 0\n"),
    (0x08, 0x04, "dcc: format 4 at 8\n"),
    (0x1C, 0x0F, "dcc: format 5 at 0\n"),
    (0x14, 0x10, "dcc: format 6 at 20\n"),
];

fn changes() -> &'static [ChangeRow] {
    &CHANGES
}

#[test]
fn a_file_that_is_cut_has_no_image(rt: HostRuntime) -> Result<(), Fail> {
    let alloc = rt.alloc();
    for length in 0..PRINTS_A.len() {
        let line = if length < 28 {
            format!(in alloc; "dcc: format 1 at {length}\n")?
        } else {
            format!(in alloc; "dcc: format 3 at 2\n")?
        };
        check_format(&rt, alloc, &PRINTS_A[..length], line.as_str())?;
    }
    Ok(())
}

#[test]
fn more_relocations_than_a_file_has_are_refused(rt: HostRuntime) -> Result<(), Fail> {
    let mut file = PRINTS_A;
    assert!(rt; file.len() == 48);
    file[0x06] = 0xFF;
    file[0x07] = 0xFF;
    check_format(&rt, rt.alloc(), &file, "dcc: format 5 at 1\n")?;
    Ok(())
}

#[test]
fn files_without_an_image_are_refused(rt: HostRuntime) -> Result<(), Fail> {
    let alloc = rt.alloc();
    let text = b"hello, this is a text and not a program\n";
    check_format(&rt, alloc, text, "dcc: format 2 at 0\n")?;
    for length in [262_145, 300_000] {
        let large = Vec::from_elem(alloc, 0x4D, length)?;
        check_format(&rt, alloc, &large, "dcc: format 7 at 262144\n")?;
    }
    for (at, byte, line) in changes() {
        let mut file = PRINTS_A;
        let at = *at;
        assert!(rt; at < 48);
        file[at] = *byte;
        check_format(&rt, alloc, &file, line)?;
    }
    Ok(())
}

// The code after the instructions that set DS, the status and the line.
type RefusalRow = (&'static [u8], u8, &'static str);

static REFUSALS: [RefusalRow; 16] = [
    // No instruction of the profile.
    (b"\xCD\x20", 9, "dcc: construct 2 at 0005\n"),
    // CLI after the prelude.
    (
        b"\xB8\x00\x4C\x90\x43\xFA\xCD\x21",
        9,
        "dcc: construct 2 at 000A\n",
    ),
    // The code ends before the program does.
    (
        b"\xB8\x00\x4C\xB9\x00\x00\xBA\x00\x00\x8B\xC8",
        9,
        "dcc: construct 2 at 0010\n",
    ),
    // SP or BP in a form that no frame has.
    (
        b"\xBD\x05\x00\xB8\x00\x4C\xCD\x21",
        9,
        "dcc: construct 2 at 0005\n",
    ),
    (b"\xB8\x00\x4C\x55\xCD\x21", 9, "dcc: construct 2 at 0008\n"),
    // An indirect jump, near and far, and an indirect call.
    (b"\xFF\x27", 9, "dcc: construct 3 at 0005\n"),
    (b"\xFF\x2F", 9, "dcc: construct 3 at 0005\n"),
    (b"\xFF\x17", 9, "dcc: construct 4 at 0005\n"),
    // INT 21h where AH is not known, though it is 4Ch; with a number that no call has; and with two numbers.
    (
        b"\xB8\x00\x4C\x05\x01\x00\xCD\x21\xB4\x4C\xCD\x21",
        9,
        "dcc: construct 5 at 000B\n",
    ),
    (
        b"\xB4\x30\xCD\x21\xB4\x4C\xCD\x21",
        9,
        "dcc: construct 5 at 0007\n",
    ),
    (
        b"\xB4\x02\x74\x02\xB4\x08\xCD\x21\xB4\x4C\xCD\x21",
        9,
        "dcc: construct 5 at 000B\n",
    ),
    // A return from the entry procedure.
    (b"\xC3", 9, "dcc: construct 11 at 0005\n"),
    // A division whose upper half is not that of the sign.
    (
        b"\xB8\x01\x00\x2B\xD2\xF7\xF9\xB8\x00\x4C\xCD\x21",
        9,
        "dcc: construct 12 at 000A\n",
    ),
    // The callee doubles its argument, which the caller takes back after the CALL and prints.
    (
        b"\xB8\x05\x00\x50\xE8\x0C\x00\x58\x8B\xD0\xB4\x02\xCD\x21\xB8\x00\x4C\xCD\x21\x55\x8B\xEC\
            \xD1\x66\x04\x5D\xC3",
        9,
        "dcc: construct 9 at 0009\n",
    ),
    // The callee gives BX and CX back.
    (
        b"\xE8\x08\x00\x03\xD9\x8A\xC3\xB4\x4C\xCD\x21\xBB\x01\x00\xB9\x02\x00\xC3",
        9,
        "dcc: construct 10 at 0010\n",
    ),
    // A construct comes before what is at fault between procedures, wherever it stands.
    (
        b"\xE8\x07\x00\x03\xC3\xB4\x4C\xFA\xCD\x21\xB8\x01\x00\xBB\x02\x00\xC3",
        9,
        "dcc: construct 2 at 000C\n",
    ),
];

fn refusals() -> &'static [RefusalRow] {
    &REFUSALS
}

#[test]
fn programs_are_refused(rt: HostRuntime) -> Result<(), Fail> {
    let alloc = rt.alloc();
    for (code, status, line) in refusals() {
        let file = program(alloc, code)?;
        let given = answered(alloc, &["c", "ROW1.EXE"], &file, NO_FAULTS)?;
        check_refused(&rt, &given, *status, line);
    }
    Ok(())
}

#[test]
fn a_program_without_a_layout_is_refused(rt: HostRuntime) -> Result<(), Fail> {
    let alloc = rt.alloc();
    // An image of one paragraph without a relocation, which sets no DS: its header and its five bytes of code.
    let file =
        b"MZ\x25\x00\x01\x00\x00\x00\x02\x00\x00\x00\xFF\xFF\x01\x00\x00\x01\x00\x00\x00\x00\x00\
            \x00\x1C\x00\x00\x00\x00\x00\x00\x00\xB8\x00\x4C\xCD\x21";
    let given = answered(alloc, &["c", "ROW1.EXE"], file, NO_FAULTS)?;
    check_refused(&rt, &given, 9, "dcc: construct 1 at 0000\n");
    Ok(())
}

#[test]
fn a_procedure_of_too_many_instructions_is_refused(rt: HostRuntime) -> Result<(), Fail> {
    let alloc = rt.alloc();
    // 4,095 increments of BX and a call that leaves, in two instructions; and one increment more.
    let mut code = Vec::new(alloc);
    code.resize(4094, 0x43)?;
    code.extend_from_slice(b"\xB4\x4C\xCD\x21")?;
    let file = program(alloc, &code)?;
    let given = answered(alloc, &["c", "ROW1.EXE"], &file, NO_FAULTS)?;
    assert_eq!(rt; given.status, 0);
    code.insert(0, 0x43)?;
    let file = program(alloc, &code)?;
    let given = answered(alloc, &["c", "ROW1.EXE"], &file, NO_FAULTS)?;
    check_refused(&rt, &given, 10, "dcc: limit instructions 4097\n");
    Ok(())
}

// JNZ to itself, then so many times JNZ to the one before, and a call that leaves: each jump ends a loop around those
// before it.
fn loops_around_a_loop(alloc: Global, count: usize) -> Result<Vec<u8>, AllocError> {
    let mut code = Vec::new(alloc);
    code.extend_from_slice(b"\x75\xFE")?;
    for _ in 0..count {
        code.extend_from_slice(b"\x75\xFC")?;
    }
    code.extend_from_slice(b"\xB8\x00\x4C\xCD\x21")?;
    Ok(code)
}

#[test]
fn loops_in_one_another_have_a_text_however_many(rt: HostRuntime) -> Result<(), Fail> {
    let alloc = rt.alloc();
    for count in [198, 199, 200, 201, 250] {
        let file = program(alloc, &loops_around_a_loop(alloc, count)?)?;
        let given = answered(alloc, &["c", "ROW1.EXE"], &file, NO_FAULTS)?;
        assert_eq!(rt; given.status, 0);
    }
    Ok(())
}

#[test]
fn a_write_that_fails_leaves_a_part_of_the_answer(rt: HostRuntime) -> Result<(), Fail> {
    let second_of_text = Faults {
        fetch: 0,
        read: 0,
        out: 2,
        err: 0,
    };
    let recursive = program(rt.alloc(), FACTORIAL)?;
    for file in [PRINTS_A.as_slice(), recursive.as_slice()] {
        let given = answered(rt.alloc(), &["c", "ROW1.EXE"], file, second_of_text)?;
        assert_eq!(rt; given.status, 6);
        assert_eq!(rt; given.out.as_slice(), b"#pragma ".as_slice());
        assert!(rt; given.err.is_empty());
    }

    let first_of_line = Faults {
        fetch: 0,
        read: 0,
        out: 0,
        err: 1,
    };
    let given = answered(rt.alloc(), &["c"], &PRINTS_A, first_of_line)?;
    assert_eq!(rt; given.status, 6);
    assert!(rt; given.out.is_empty());
    assert!(rt; given.err.is_empty());
    Ok(())
}
