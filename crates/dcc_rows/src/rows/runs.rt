//! Runs of executables by the command.

use dcc_samples::files::{
    Answer, Faults, NO_FAULTS, PRINTS_A, TWO_ENTRIES, answered, answered_on, program,
    program_with_data,
};
use std::process::Abort;
use std::test::Fail;

// A program and its run: the code after the instructions that set DS, in two parts, the bytes of the data after the
// code's paragraphs, the input, the output, the status and the line. The values come from a reference of the machine.
#[derive(Clone, Copy)]
struct Run {
    start: &'static [u8],
    code: &'static [u8],
    data: &'static [u8],
    input: &'static [u8],
    output: &'static [u8],
    status: u8,
    line: &'static str,
}

// A run that puts nothing out and exits with 0.
const EXITS: Run = Run {
    start: b"",
    code: b"",
    data: b"",
    input: b"",
    output: b"",
    status: 0,
    line: "exit 0\n",
};

// Leaves with the factorial of AX, modulo 65536, by recursion.
const FACTORIAL: &[u8] =
    b"\x50\xE8\x05\x00\x59\xB4\x4C\xCD\x21\x55\x8B\xEC\x8B\x46\x04\x3D\x01\x00\x7E\x09\x48\x50\xE8\
        \xF0\xFF\x59\xF7\x66\x04\x5D\xC3";

// Leaves with 1 where FFFF0000h is less than the long at the start of the data, and else with 0.
const COMPARISON: &[u8] =
    b"\xBA\xFF\xFF\xB8\x00\x00\x3B\x16\x02\x00\x7C\x0D\x7F\x06\x3B\x06\x00\x00\x72\x05\xB8\x00\x4C\
        \xCD\x21\xB8\x01\x4C\xCD\x21";

// A jump by BX through a table of four entries, which leave with 1 to 4; a number past it leaves with 9.
const TABLE_JUMP: &[u8] =
    b"\x83\xFB\x03\x77\x19\xD1\xE3\x2E\xFF\xA7\x2A\x00\xB0\x01\xEB\x0A\xB0\x02\xEB\x06\xB0\x03\xEB\
        \x02\xB0\x04\xB4\x4C\xCD\x21\xB0\x09\xEB\xF8\x14\x00\x18\x00\x1C\x00\x20\x00";

// Two keys with echo; leaves with the second.
const TWO_KEYS: &[u8] = b"\xB4\x01\xCD\x21\xB4\x01\xCD\x21\xB4\x4C\xCD\x21";

static RUNS: [Run; 25] = [
    // Prints a character.
    Run {
        code: b"\xB2\x41\xB4\x02\xCD\x21\xB8\x03\x4C\xCD\x21",
        output: b"A",
        line: "exit 3\n",
        ..EXITS
    },
    // The carry of a sum of bytes.
    Run {
        code: b"\xB0\xFF\x04\x01\x72\x05\xB8\x00\x4C\xCD\x21\xB8\x01\x4C\xCD\x21",
        line: "exit 1\n",
        ..EXITS
    },
    // A shift by 0 keeps the flags.
    Run {
        code: b"\x2B\xC0\x3D\x01\x00\xB1\x00\xD3\xE0\x74\x05\xB8\x00\x4C\xCD\x21\xB8\x01\x4C\xCD\
            \x21",
        ..EXITS
    },
    // 32 shifts of a word leave 0.
    Run {
        code: b"\xB8\x01\x00\xB1\x20\xD3\xE0\xB4\x4C\xCD\x21",
        ..EXITS
    },
    // The factorials of 7 and of 9, modulo 65536, by recursion.
    Run {
        start: b"\xB8\x07\x00",
        code: FACTORIAL,
        line: "exit 176\n",
        ..EXITS
    },
    Run {
        start: b"\xB8\x09\x00",
        code: FACTORIAL,
        line: "exit 128\n",
        ..EXITS
    },
    // FFFF0000h compared with a long in memory.
    Run {
        code: COMPARISON,
        data: b"\x00\x00\x00\x00",
        line: "exit 1\n",
        ..EXITS
    },
    Run {
        code: COMPARISON,
        data: b"\x00\x00\xFF\xFF",
        ..EXITS
    },
    Run {
        code: COMPARISON,
        data: b"\x01\x00\xFF\xFF",
        line: "exit 1\n",
        ..EXITS
    },
    // The address of a local at two depths of calls.
    Run {
        code: b"\xE8\x0A\x00\x50\xE8\x06\x00\x58\xB8\x00\x4C\xCD\x21\x55\x8B\xEC\x83\xEC\x02\x8D\
            \x46\xFE\x8B\xD0\xB4\x02\xCD\x21\x8A\xD6\xB4\x02\xCD\x21\x8B\xE5\x5D\xC3",
        output: b"\xFA\x00\xF8\x00",
        ..EXITS
    },
    // A buffer of the caller is filled by the callee and written as a string.
    Run {
        code: b"\xE8\x05\x00\xB8\x00\x4C\xCD\x21\x55\x8B\xEC\x83\xEC\x16\xC7\x46\xFE\x00\x00\x8D\
            \x7E\xEA\xE8\x0B\x00\x8D\x56\xEA\xB4\x09\xCD\x21\x8B\xE5\x5D\xC3\xB9\x04\x00\xC6\x05\
            \x78\x47\xE2\xFA\xC6\x05\x24\xC3",
        output: b"xxxx",
        ..EXITS
    },
    // The callee doubles its argument, which is dropped, or taken back and printed.
    Run {
        code: b"\xB8\x05\x00\x50\xE8\x06\x00\x59\xB8\x00\x4C\xCD\x21\x55\x8B\xEC\xD1\x66\x04\x5D\
            \xC3",
        ..EXITS
    },
    Run {
        code: b"\xB8\x05\x00\x50\xE8\x0C\x00\x58\x8B\xD0\xB4\x02\xCD\x21\xB8\x00\x4C\xCD\x21\x55\
            \x8B\xEC\xD1\x66\x04\x5D\xC3",
        output: b"\n",
        ..EXITS
    },
    // A jump through a table: its first and last entries, and two numbers past it.
    Run {
        start: b"\xBB\x00\x00",
        code: TABLE_JUMP,
        line: "exit 1\n",
        ..EXITS
    },
    Run {
        start: b"\xBB\x03\x00",
        code: TABLE_JUMP,
        line: "exit 4\n",
        ..EXITS
    },
    Run {
        start: b"\xBB\x04\x00",
        code: TABLE_JUMP,
        line: "exit 9\n",
        ..EXITS
    },
    Run {
        start: b"\xBB\xFF\xFF",
        code: TABLE_JUMP,
        line: "exit 9\n",
        ..EXITS
    },
    // Divisions by 0, and of -32768 by -1.
    Run {
        code: b"\xB8\x01\x00\xBB\x00\x00\x99\xF7\xFB\xB8\x00\x4C\xCD\x21",
        status: 21,
        line: "divide\n",
        ..EXITS
    },
    Run {
        code: b"\xB8\x00\x80\xBB\xFF\xFF\x99\xF7\xFB\xB8\x00\x4C\xCD\x21",
        status: 21,
        line: "divide\n",
        ..EXITS
    },
    // A loop with two entries.
    Run {
        code: TWO_ENTRIES,
        input: b"0",
        line: "exit 4\n",
        ..EXITS
    },
    Run {
        code: TWO_ENTRIES,
        input: b"1",
        line: "exit 5\n",
        ..EXITS
    },
    // Two keys with echo, at the end of the input too.
    Run {
        code: TWO_KEYS,
        line: "exit 26\n",
        ..EXITS
    },
    Run {
        code: TWO_KEYS,
        input: b"a",
        output: b"a",
        line: "exit 26\n",
        ..EXITS
    },
    Run {
        code: TWO_KEYS,
        input: b"ab",
        output: b"ab",
        line: "exit 98\n",
        ..EXITS
    },
    // An interrupt other than 21h.
    Run {
        code: b"\xCD\x20",
        status: 22,
        line: "outside at 0005\n",
        ..EXITS
    },
];

fn runs() -> &'static [Run] {
    &RUNS
}

// The call must answer this status, this output and this line.
fn check(rt: &impl Abort, given: &Answer, status: u8, output: &[u8], line: &str) {
    assert_eq!(rt; given.err.as_slice(), line.as_bytes());
    assert_eq!(rt; given.out.as_slice(), output, "{line}");
    assert_eq!(rt; given.status, status, "{line}");
}

#[test]
fn programs_put_out_and_end_as_the_machine_does(rt: HostRuntime) -> Result<(), Fail> {
    let alloc = rt.alloc();
    for run in runs() {
        let mut code = run.start.to_vec(alloc)?;
        code.extend_from_slice(run.code)?;
        let file = program_with_data(alloc, &code, run.data)?;
        let words = ["run", "ROW1.EXE"];
        let given = answered_on(alloc, &words, &file, run.input, NO_FAULTS)?;
        check(&rt, &given, run.status, run.output, run.line);
    }
    Ok(())
}

#[test]
fn a_run_stops_after_the_steps_that_were_asked_for(rt: HostRuntime) -> Result<(), Fail> {
    let alloc = rt.alloc();
    let jumps_to_itself = program(alloc, b"\xEB\xFE")?;
    let words = ["run", "ROW1.EXE", "--steps", "1000"];
    let given = answered(alloc, &words, &jumps_to_itself, NO_FAULTS)?;
    check(&rt, &given, 20, b"", "running after 1000 steps\n");
    let given = answered(alloc, &["run", "ROW1.EXE"], &jumps_to_itself, NO_FAULTS)?;
    check(&rt, &given, 20, b"", "running after 1000000 steps\n");
    let words = ["run", "--steps=0", "--", "ROW1.EXE"];
    let given = answered(alloc, &words, &PRINTS_A, NO_FAULTS)?;
    check(&rt, &given, 20, b"", "running after 0 steps\n");
    let words = ["run", "--steps=7", "--", "ROW1.EXE"];
    let given = answered(alloc, &words, &PRINTS_A, NO_FAULTS)?;
    check(&rt, &given, 0, b"A", "exit 3\n");
    let words = ["run", "--steps=6", "--", "ROW1.EXE"];
    let given = answered(alloc, &words, &PRINTS_A, NO_FAULTS)?;
    check(&rt, &given, 20, b"A", "running after 6 steps\n");
    Ok(())
}

#[test]
fn a_fault_of_the_streams_ends_a_run(rt: HostRuntime) -> Result<(), Fail> {
    let alloc = rt.alloc();
    let words = ["run", "ROW1.EXE"];
    let reads = program(alloc, TWO_KEYS)?;
    let first_read = Faults {
        read: 1,
        ..NO_FAULTS
    };
    let given = answered_on(alloc, &words, &reads, b"ab", first_read)?;
    check(&rt, &given, 5, b"", "dcc: input fault\n");
    let second_read = Faults {
        read: 2,
        ..NO_FAULTS
    };
    let given = answered_on(alloc, &words, &reads, b"ab", second_read)?;
    check(&rt, &given, 5, b"a", "dcc: input fault\n");
    let second_write = Faults {
        out: 2,
        ..NO_FAULTS
    };
    let given = answered_on(alloc, &words, &reads, b"ab", second_write)?;
    check(&rt, &given, 6, b"a", "");
    // A string of call 09h, which the second write breaks off.
    let code = b"\xBA\x00\x00\xB4\x09\xCD\x21\xB4\x4C\xCD\x21";
    let says = program_with_data(alloc, code, b"hello, world$")?;
    let given = answered(alloc, &words, &says, second_write)?;
    assert_eq!(rt; given.status, 6);
    assert!(rt; given.err.is_empty() && !given.out.is_empty() && given.out.len() < 12);
    assert!(rt; b"hello, world".starts_with(&given.out));
    let first_of_line = Faults {
        err: 1,
        ..NO_FAULTS
    };
    let given = answered_on(alloc, &words, &reads, b"ab", first_of_line)?;
    check(&rt, &given, 6, b"ab", "");
    Ok(())
}
