//! One program on two processors.

use dcc_samples::files::{NO_FAULTS, answered, program};
use std::test::Fail;

// Sets up a frame by ENTER in a procedure that it calls, which prints a star from a variable in it.
const ENTERS: &[u8] =
    b"\xE8\x05\x00\xB8\x00\x4C\xCD\x21\xC8\x02\x00\x00\xC6\x46\xFE\x2A\x8A\x56\xFE\xB4\x02\xCD\x21\xC9\xC3";

// Leaves with the product of 7 and 6, by a product of three operands.
const MULTIPLIES: &[u8] = b"\xBB\x07\x00\x6B\xC3\x06\xB4\x4C\xCD\x21";

// A program after the instructions that set DS, the command, the processor, the status, the output and the line.
#[derive(Drop)]
struct Answered {
    code: &'static [u8],
    command: &'static str,
    cpu: &'static str,
    status: u8,
    out: &'static [u8],
    line: &'static str,
}

static ANSWERS: [Answered; 6] = [
    Answered {
        code: ENTERS,
        command: "run",
        cpu: "8086",
        status: 22,
        out: b"",
        line: "outside at 000D\n",
    },
    Answered {
        code: ENTERS,
        command: "run",
        cpu: "186",
        status: 0,
        out: b"*",
        line: "exit 0\n",
    },
    Answered {
        code: ENTERS,
        command: "c",
        cpu: "8086",
        status: 9,
        out: b"",
        line: "dcc: construct 2 at 000D\n",
    },
    Answered {
        code: MULTIPLIES,
        command: "run",
        cpu: "8086",
        status: 22,
        out: b"",
        line: "outside at 0008\n",
    },
    Answered {
        code: MULTIPLIES,
        command: "run",
        cpu: "186",
        status: 0,
        out: b"",
        line: "exit 42\n",
    },
    Answered {
        code: MULTIPLIES,
        command: "c",
        cpu: "8086",
        status: 9,
        out: b"",
        line: "dcc: construct 2 at 0008\n",
    },
];

fn answers() -> &'static [Answered] {
    &ANSWERS
}

#[test]
fn a_processor_runs_and_refuses_by_its_own_instructions(rt: HostRuntime) -> Result<(), Fail> {
    let alloc = rt.alloc();
    for row in answers() {
        let file = program(alloc, row.code)?;
        let words = [row.command, "ROW1.EXE", "--cpu", row.cpu];
        let given = answered(alloc, &words, &file, NO_FAULTS)?;
        assert_eq!(rt; given.err.as_slice(), row.line.as_bytes());
        assert_eq!(rt; given.out.as_slice(), row.out, "{}", row.line);
        assert_eq!(rt; given.status, row.status, "{}", row.line);
    }
    Ok(())
}
