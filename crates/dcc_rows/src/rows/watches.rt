//! Watched runs of executables by the command. The values come from a reference of the watch apart from this one.

use dcc_samples::files::{Faults, NO_FAULTS, PRINTS_A, answered, answered_on, program};
use std::test::Fail;

// A program after the instructions that set DS, and what its watched run does: the processor, the most steps, the
// input, the output, the status and the line.
#[derive(Clone, Copy)]
struct Watched {
    code: &'static [u8],
    cpu: &'static str,
    steps: &'static str,
    input: &'static [u8],
    faults: Faults,
    output: &'static [u8],
    status: u8,
    line: &'static str,
}

// A run on the 8086 that puts nothing out and exits with 0.
const EXITS: Watched = Watched {
    code: b"",
    cpu: "8086",
    steps: "1000000",
    input: b"",
    faults: NO_FAULTS,
    output: b"",
    status: 0,
    line: "exit 0\n",
};

// Two keys with echo; leaves with the second.
const TWO_KEYS: &[u8] = b"\xB4\x01\xCD\x21\xB4\x01\xCD\x21\xB4\x4C\xCD\x21";

// A procedure that sets up its frame by ENTER, stores a byte there and prints it, and ends by LEAVE.
const ENTERS: &[u8] =
    b"\xE8\x05\x00\xB8\x00\x4C\xCD\x21\xC8\x02\x00\x00\xC6\x46\xFE\x2A\x8A\x56\xFE\xB4\x02\xCD\x21\xC9\xC3";

static WATCHED: [Watched; 19] = [
    // A buffer of the caller is filled by the callee and written as a string.
    Watched {
        code: b"\xE8\x05\x00\xB8\x00\x4C\xCD\x21\x55\x8B\xEC\x83\xEC\x16\xC7\x46\xFE\x00\x00\x8D\x7E\xEA\xE8\x0B\
            \x00\x8D\x56\xEA\xB4\x09\xCD\x21\x8B\xE5\x5D\xC3\xB9\x04\x00\xC6\x05\x78\x47\xE2\xFA\xC6\x05\x24\xC3",
        output: b"xxxx",
        ..EXITS
    },
    // A local buffer is filled past its end, into the saved BP.
    Watched {
        code: b"\xE8\x05\x00\xB8\x00\x4C\xCD\x21\x55\x8B\xEC\x83\xEC\x16\xC7\x46\xFE\x00\x00\x8D\x7E\xEA\xE8\x0B\
            \x00\x8D\x56\xEA\xB4\x09\xCD\x21\x8B\xE5\x5D\xC3\xB9\x16\x00\xC6\x05\x78\x47\xE2\xFA\xC6\x05\x24\xC3",
        status: 23,
        line: "foul at 0032: hidden 00FC\n",
        ..EXITS
    },
    // A procedure that pushes a word and calls itself without end.
    Watched {
        code: b"\xE8\x05\x00\xB8\x00\x4C\xCD\x21\x50\xE8\xFC\xFF\x59\xC3",
        status: 23,
        line: "foul at 000E: low FFFE\n",
        ..EXITS
    },
    // A byte of the frame is read before it is stored.
    Watched {
        code: b"\x55\x8B\xEC\x83\xEC\x02\x8A\x56\xFE\xB4\x02\xCD\x21\xB8\x00\x4C\xCD\x21",
        status: 23,
        line: "foul at 000B: unwritten 00FC\n",
        ..EXITS
    },
    // What POP stores into the word that it takes is unwritten when SP has left it behind.
    Watched {
        code: b"\xB8\x41\x41\xE8\x08\x00\xE8\x0E\x00\xB8\x00\x4C\xCD\x21\x55\x8B\xEC\x50\x8F\x46\xFE\x5D\xC3\x55\
            \x8B\xEC\x83\xEC\x02\x8A\x56\xFE\xB4\x02\xCD\x21\x8B\xE5\x5D\xC3",
        status: 23,
        line: "foul at 0022: unwritten 00FA\n",
        ..EXITS
    },
    // A byte below SP is no byte of a frame.
    Watched {
        code: b"\x8B\x07\xB8\x00\x4C\xCD\x21",
        status: 23,
        line: "foul at 0005: hidden 0000\n",
        ..EXITS
    },
    // A store and a load through an address that BP gave.
    Watched {
        code: b"\xE8\x05\x00\xB8\x00\x4C\xCD\x21\x55\x8B\xEC\x83\xEC\x02\x8B\xDD\x4B\xC6\x07\x42\x8A\x17\xB4\x02\
            \xCD\x21\x8B\xE5\x5D\xC3",
        output: b"B",
        ..EXITS
    },
    // An argument that the callee changes and the caller takes back: no text is written for it.
    Watched {
        code: b"\xB8\x05\x00\x50\xE8\x0C\x00\x58\x8B\xD0\xB4\x02\xCD\x21\xB8\x00\x4C\xCD\x21\x55\x8B\xEC\xD1\x66\
            \x04\x5D\xC3",
        output: b"\n",
        ..EXITS
    },
    // A frame set up by ENTER; the byte of it is read before it is stored; the 8086 has no ENTER.
    Watched {
        code: ENTERS,
        cpu: "186",
        output: b"*",
        ..EXITS
    },
    Watched {
        code: b"\xE8\x05\x00\xB8\x00\x4C\xCD\x21\xC8\x02\x00\x00\x90\x90\x90\x90\x8A\x56\xFE\xB4\x02\xCD\x21\xC9\xC3",
        cpu: "186",
        status: 23,
        line: "foul at 0015: unwritten 00FA\n",
        ..EXITS
    },
    Watched {
        code: ENTERS,
        status: 9,
        line: "dcc: construct 2 at 000D\n",
        ..EXITS
    },
    // A run that goes on, also before its first step; one that divides by 0; an interrupt other than 21h, which no
    // accepted program has.
    Watched {
        code: b"\xEB\xFE",
        steps: "1000",
        status: 20,
        line: "running after 1000 steps\n",
        ..EXITS
    },
    Watched {
        code: b"\x55\x8B\xEC\x83\xEC\x02\x8A\x56\xFE\xB4\x02\xCD\x21\xB8\x00\x4C\xCD\x21",
        steps: "5",
        status: 20,
        line: "running after 5 steps\n",
        ..EXITS
    },
    Watched {
        code: b"\xB8\x01\x00\xBB\x00\x00\x99\xF7\xFB\xB8\x00\x4C\xCD\x21",
        status: 21,
        line: "divide\n",
        ..EXITS
    },
    Watched {
        code: b"\xCD\x20",
        status: 9,
        line: "dcc: construct 2 at 0005\n",
        ..EXITS
    },
    // A count that is too great.
    Watched {
        code: b"\x81\xFB\x00\x01\x77\x07\xD1\xE3\x2E\xFF\xA7\x00\x00\xB8\x00\x4C\xCD\x21",
        status: 10,
        line: "dcc: limit entries 257\n",
        ..EXITS
    },
    // Two keys with echo: the second read fails; the second write fails.
    Watched {
        code: TWO_KEYS,
        input: b"ab",
        output: b"ab",
        line: "exit 98\n",
        ..EXITS
    },
    Watched {
        code: TWO_KEYS,
        input: b"ab",
        faults: Faults {
            read: 2,
            ..NO_FAULTS
        },
        output: b"a",
        status: 5,
        line: "dcc: input fault\n",
        ..EXITS
    },
    Watched {
        code: TWO_KEYS,
        input: b"ab",
        faults: Faults {
            out: 2,
            ..NO_FAULTS
        },
        output: b"a",
        status: 6,
        line: "",
        ..EXITS
    },
];

fn watched_runs() -> &'static [Watched] {
    &WATCHED
}

#[test]
fn watched_runs_are_the_machines_up_to_a_foul_step(rt: HostRuntime) -> Result<(), Fail> {
    let alloc = rt.alloc();
    for row in watched_runs() {
        let file = program(alloc, row.code)?;
        let words = ["watch", "ROW1.EXE", "--cpu", row.cpu, "--steps", row.steps];
        let given = answered_on(alloc, &words, &file, row.input, row.faults)?;
        assert_eq!(rt; given.err.as_slice(), row.line.as_bytes());
        assert_eq!(rt; given.out.as_slice(), row.output, "{}", row.line);
        assert_eq!(rt; given.status, row.status, "{}", row.line);
    }
    Ok(())
}

#[test]
fn a_program_without_a_layout_is_not_watched(rt: HostRuntime) -> Result<(), Fail> {
    let alloc = rt.alloc();
    let mut file = PRINTS_A.to_vec(alloc)?;
    // SP is 0 at the start.
    assert!(rt; file.len() == 48);
    file[0x11] = 0;
    let given = answered(alloc, &["watch", "ROW1.EXE"], &file, NO_FAULTS)?;
    assert_eq!(rt;
        given.err.as_slice(),
        b"dcc: construct 1 at 0000\n".as_slice()
    );
    assert_eq!(rt; given.status, 9);
    assert!(rt; given.out.is_empty());
    Ok(())
}
