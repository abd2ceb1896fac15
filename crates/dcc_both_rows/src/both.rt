//! Both sides of a program: the run of an executable, and that of its text.

use dcc_samples::files::{Answer, Faults, NO_FAULTS, PRINTS_A, answered, answered_on, program};
use std::alloc::Global;
use std::process::Abort;
use std::test::Fail;

/// A program: the code after the instructions that set DS, the input, the output and the line at its end.
#[derive(Drop)]
pub(crate) struct Program {
    pub(crate) code: &'static [u8],
    pub(crate) input: &'static [u8],
    pub(crate) output: &'static [u8],
    pub(crate) line: &'static str,
}

static PROGRAMS: [Program; 18] = [
    // Prints a sum.
    Program {
        code: b"\xB8\x40\x00\xBB\x01\x00\x03\xC3\x8B\xD0\xB4\x02\xCD\x21\xB8\x02\x4C\xCD\x21",
        input: b"",
        output: b"A",
        line: "exit 2\n",
    },
    // Prints two differences.
    Program {
        code: b"\xB9\x01\x00\xBA\x44\x00\x29\xCA\xB4\x02\xCD\x21\x2B\xD1\xCD\x21\xB8\x01\x4C\xCD\x21",
        input: b"",
        output: b"CB",
        line: "exit 1\n",
    },
    // Leaves with the low byte of its segment.
    Program {
        code: b"\xB4\x4C\xCD\x21",
        input: b"",
        output: b"",
        line: "exit 17\n",
    },
    // The carry of a sum of bytes.
    Program {
        code: b"\xB0\xFF\x04\x01\x72\x05\xB8\x00\x4C\xCD\x21\xB8\x01\x4C\xCD\x21",
        input: b"",
        output: b"",
        line: "exit 1\n",
    },
    // A shift by 0 keeps the flags.
    Program {
        code: b"\x2B\xC0\x3D\x01\x00\xB1\x00\xD3\xE0\x74\x05\xB8\x00\x4C\xCD\x21\xB8\x01\x4C\xCD\x21",
        input: b"",
        output: b"",
        line: "exit 0\n",
    },
    // 32 shifts of a word leave 0.
    Program {
        code: b"\xB8\x01\x00\xB1\x20\xD3\xE0\xB4\x4C\xCD\x21",
        input: b"",
        output: b"",
        line: "exit 0\n",
    },
    // -1 is less than 1 where signs count, and not below it.
    Program {
        code: b"\xB8\xFF\xFF\x3D\x01\x00\x7C\x05\xB8\x00\x4C\xCD\x21\xB8\x01\x4C\xCD\x21",
        input: b"",
        output: b"",
        line: "exit 1\n",
    },
    Program {
        code: b"\xB8\xFF\xFF\x3D\x01\x00\x72\x05\xB8\x00\x4C\xCD\x21\xB8\x01\x4C\xCD\x21",
        input: b"",
        output: b"",
        line: "exit 0\n",
    },
    // -32768 is less than 1, though the difference is not negative.
    Program {
        code: b"\xB8\x00\x80\x3D\x01\x00\x7C\x05\xB8\x00\x4C\xCD\x21\xB8\x01\x4C\xCD\x21",
        input: b"",
        output: b"",
        line: "exit 1\n",
    },
    // A loop that prints three letters.
    Program {
        code: b"\xB9\x03\x00\xB2\x61\xB4\x02\xCD\x21\xFE\xC2\xE2\xFA\xB8\x00\x4C\xCD\x21",
        input: b"",
        output: b"abc",
        line: "exit 0\n",
    },
    // A product of words, whose upper half is left.
    Program {
        code: b"\xB8\x34\x12\xBB\x00\x10\xF7\xE3\x8A\xC2\xB4\x4C\xCD\x21",
        input: b"",
        output: b"",
        line: "exit 35\n",
    },
    // A product with signs.
    Program {
        code: b"\xB8\xFE\xFF\xBB\x03\x00\xF7\xEB\xB4\x4C\xCD\x21",
        input: b"",
        output: b"",
        line: "exit 250\n",
    },
    // A loop with two entries, by the input.
    Program {
        code: b"\xB4\x08\xCD\x21\x3C\x30\x74\x01\x43\x41\x83\xF9\x05\x75\xF9\x8A\xC3\xB4\x4C\xCD\x21",
        input: b"0",
        output: b"",
        line: "exit 4\n",
    },
    Program {
        code: b"\xB4\x08\xCD\x21\x3C\x30\x74\x01\x43\x41\x83\xF9\x05\x75\xF9\x8A\xC3\xB4\x4C\xCD\x21",
        input: b"1",
        output: b"",
        line: "exit 5\n",
    },
    // Two keys with an echo, where the input has none, one and two.
    Program {
        code: b"\xB4\x01\xCD\x21\xB4\x01\xCD\x21\xB4\x4C\xCD\x21",
        input: b"",
        output: b"",
        line: "exit 26\n",
    },
    Program {
        code: b"\xB4\x01\xCD\x21\xB4\x01\xCD\x21\xB4\x4C\xCD\x21",
        input: b"a",
        output: b"a",
        line: "exit 26\n",
    },
    Program {
        code: b"\xB4\x01\xCD\x21\xB4\x01\xCD\x21\xB4\x4C\xCD\x21",
        input: b"ab",
        output: b"ab",
        line: "exit 98\n",
    },
    // Twice the digit, by a shift with a carry.
    Program {
        code: b"\xB4\x08\xCD\x21\x24\x0F\xD0\xE0\xD0\xD8\xD0\xC0\xB4\x4C\xCD\x21",
        input: b"7",
        output: b"",
        line: "exit 14\n",
    },
];

fn programs() -> &'static [Program] {
    &PROGRAMS
}

// Programs of the 80186, or with another end on it.
static LATER_PROGRAMS: [Program; 9] = [
    // A procedure that sets up its frame by ENTER prints a star from a variable in it.
    Program {
        code: b"\xE8\x05\x00\xB8\x00\x4C\xCD\x21\xC8\x02\x00\x00\xC6\x46\xFE\x2A\x8A\x56\xFE\xB4\x02\xCD\x21\
            \xC9\xC3",
        input: b"",
        output: b"*",
        line: "exit 0\n",
    },
    // A count in CL is taken modulo 32.
    Program {
        code: b"\xB8\x01\x00\xB1\x20\xD3\xE0\xB4\x4C\xCD\x21",
        input: b"",
        output: b"",
        line: "exit 1\n",
    },
    Program {
        code: b"\xB8\x01\x00\xB1\x21\xD3\xE0\xB4\x4C\xCD\x21",
        input: b"",
        output: b"",
        line: "exit 2\n",
    },
    // A shift and a rotate by a constant.
    Program {
        code: b"\xB8\x01\x00\xC1\xE0\x05\xB4\x4C\xCD\x21",
        input: b"",
        output: b"",
        line: "exit 32\n",
    },
    Program {
        code: b"\xB0\x80\xC0\xC8\x09\xB4\x4C\xCD\x21",
        input: b"",
        output: b"",
        line: "exit 64\n",
    },
    // A shift by 32 keeps the flags.
    Program {
        code: b"\x2B\xC0\xC1\xE0\x20\x74\x05\xB8\x00\x4C\xCD\x21\xB8\x01\x4C\xCD\x21",
        input: b"",
        output: b"",
        line: "exit 1\n",
    },
    // Products of three operands; the third one doesn't fit a word.
    Program {
        code: b"\xBB\x07\x00\x6B\xC3\x06\xB4\x4C\xCD\x21",
        input: b"",
        output: b"",
        line: "exit 42\n",
    },
    Program {
        code: b"\xBB\xFE\xFF\x69\xC3\x03\x00\xB4\x4C\xCD\x21",
        input: b"",
        output: b"",
        line: "exit 250\n",
    },
    Program {
        code: b"\xBB\x00\x80\x6B\xC3\x02\x70\x05\xB8\x00\x4C\xCD\x21\xB8\x01\x4C\xCD\x21",
        input: b"",
        output: b"",
        line: "exit 1\n",
    },
];

fn later_programs() -> &'static [Program] {
    &LATER_PROGRAMS
}

// The call must answer this output and this line, with the status of the line.
fn check(rt: &impl Abort, given: &Answer, output: &[u8], line: &str) {
    let status = if line == "divide\n" { 21 } else { 0 };
    assert_eq!(rt; given.err.as_slice(), line.as_bytes());
    assert_eq!(rt; given.out.as_slice(), output, "{line}");
    assert_eq!(rt; given.status, status, "{line}");
}

/// The text of the program of this file for a processor.
pub(crate) fn text_of(
    rt: &impl Abort,
    alloc: Global,
    file: &[u8],
    cpu: &str,
) -> Result<Vec<u8>, Fail> {
    let words = ["c", "ROW1.EXE", "--cpu", cpu];
    let given = answered(alloc, &words, file, NO_FAULTS)?;
    assert_eq!(rt; given.status, 0);
    assert!(rt; given.err.is_empty());
    assert!(rt;
        given
            .out
            .starts_with(b"#pragma dcc text 1\n#pragma dcc stack ")
    );
    Ok(given.out.clone()?)
}

/// The file on a processor and its text put out the same and end alike, the text with this fill.
pub(crate) fn check_both(
    rt: &impl Abort,
    alloc: Global,
    file: &[u8],
    program: &Program,
    cpu: &str,
    fill: &str,
) -> Result<(), Fail> {
    let words = ["run", "ROW1.EXE", "--cpu", cpu];
    let given = answered_on(alloc, &words, file, program.input, NO_FAULTS)?;
    check(rt, &given, program.output, program.line);
    let text = text_of(rt, alloc, file, cpu)?;
    let words = ["runc", "ROW1.EXE", "--fill", fill];
    let given = answered_on(alloc, &words, &text, program.input, NO_FAULTS)?;
    check(rt, &given, program.output, program.line);
    Ok(())
}

/// Each of these programs on a processor and its text put out the same and end alike, from two fills.
pub(crate) fn check_all(
    rt: &impl Abort,
    alloc: Global,
    programs: &[Program],
    cpu: &str,
) -> Result<(), Fail> {
    for program_row in programs {
        let file = program(alloc, program_row.code)?;
        check_both(rt, alloc, &file, program_row, cpu, "0")?;
        check_both(rt, alloc, &file, program_row, cpu, "43690")?;
    }
    Ok(())
}

#[test]
fn texts_put_out_and_end_as_their_programs_do(rt: HostRuntime) -> Result<(), Fail> {
    let alloc = rt.alloc();
    let prints_a = Program {
        code: b"",
        input: b"",
        output: b"A",
        line: "exit 3\n",
    };
    check_both(&rt, alloc, &PRINTS_A, &prints_a, "8086", "0")?;
    check_all(&rt, alloc, programs(), "8086")
}

#[test]
fn texts_for_the_80186_put_out_and_end_as_their_programs_do(rt: HostRuntime) -> Result<(), Fail> {
    check_all(&rt, rt.alloc(), later_programs(), "186")
}

#[test]
fn a_text_runs_on_as_its_program_does(rt: HostRuntime) -> Result<(), Fail> {
    let alloc = rt.alloc();
    let file = program(alloc, b"\xEB\xFE")?;
    let text = text_of(&rt, alloc, &file, "8086")?;
    for (command, bytes) in [("run", &file), ("runc", &text)] {
        let words = [command, "ROW1.EXE", "--steps", "1000"];
        let given = answered(alloc, &words, bytes, NO_FAULTS)?;
        assert_eq!(rt; given.status, 20);
        assert_eq!(rt;
            given.err.as_slice(),
            b"running after 1000 steps\n".as_slice()
        );
        assert!(rt; given.out.is_empty());
    }
    Ok(())
}

#[test]
fn a_failing_read_ends_both_sides(rt: HostRuntime) -> Result<(), Fail> {
    let alloc = rt.alloc();
    // Takes two keys, and leaves with the last one.
    let code = b"\xB4\x01\xCD\x21\xB4\x01\xCD\x21\xB4\x4C\xCD\x21";
    let file = program(alloc, code)?;
    let text = text_of(&rt, alloc, &file, "8086")?;
    let first_read = Faults {
        read: 1,
        ..NO_FAULTS
    };
    for (command, bytes) in [("run", &file), ("runc", &text)] {
        let words = [command, "ROW1.EXE"];
        let given = answered_on(alloc, &words, bytes, b"ab", first_read)?;
        assert_eq!(rt; given.status, 5);
        assert!(rt; given.out.is_empty());
        assert_eq!(rt; given.err.as_slice(), b"dcc: input fault\n".as_slice());
    }
    Ok(())
}
