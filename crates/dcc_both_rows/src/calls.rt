//! Both sides of programs with several procedures: arguments, results, recursion, frames whose addresses are passed on,
//! and code that two procedures share.

use crate::both::{Program, check_all, text_of};
use dcc_samples::files::{FACTORIAL, NO_FAULTS, answered, program};
use std::alloc::Global;
use std::process::Abort;
use std::test::Fail;

/// The address of a local at two depths of calls.
pub(crate) const PRINTS_AN_ADDRESS: &[u8] =
    b"\xE8\x0A\x00\x50\xE8\x06\x00\x58\xB8\x00\x4C\xCD\x21\x55\x8B\xEC\x83\xEC\x02\x8D\x46\xFE\x8B\xD0\
        \xB4\x02\xCD\x21\x8A\xD6\xB4\x02\xCD\x21\x8B\xE5\x5D\xC3";

/// A buffer of the caller is filled by the callee, and written as a string.
pub(crate) const FILLS_A_BUFFER: &[u8] =
    b"\xE8\x05\x00\xB8\x00\x4C\xCD\x21\x55\x8B\xEC\x83\xEC\x16\xC7\x46\xFE\x00\x00\x8D\x7E\xEA\xE8\x0B\
        \x00\x8D\x56\xEA\xB4\x09\xCD\x21\x8B\xE5\x5D\xC3\xB9\x04\x00\xC6\x05\x78\x47\xE2\xFA\xC6\x05\x24\
        \xC3";

/// A jump by the flags of the sum that lowers SP, in a procedure that exposes no local byte.
pub(crate) const JUMPS_BY_SP: &[u8] =
    b"\xE8\x05\x00\xB8\x00\x4C\xCD\x21\x55\x8B\xEC\x83\xEC\x02\x74\x06\xC6\x46\xFE\x41\xEB\x04\xC6\x46\
        \xFE\x42\x8A\x56\xFE\xB4\x02\xCD\x21\x8B\xE5\x5D\xC3";

static PROGRAMS: [Program; 18] = [
    Program {
        code: FACTORIAL,
        input: b"",
        output: b"",
        line: "exit 176\n",
    },
    // The factorial of 9.
    Program {
        code: b"\xB8\x09\x00\x50\xE8\x05\x00\x59\xB4\x4C\xCD\x21\x55\x8B\xEC\x8B\x46\x04\x3D\x01\x00\x7E\x09\
            \x48\x50\xE8\xF0\xFF\x59\xF7\x66\x04\x5D\xC3",
        input: b"",
        output: b"",
        line: "exit 128\n",
    },
    Program {
        code: PRINTS_AN_ADDRESS,
        input: b"",
        output: b"\xFA\x00\xF8\x00",
        line: "exit 0\n",
    },
    Program {
        code: FILLS_A_BUFFER,
        input: b"",
        output: b"xxxx",
        line: "exit 0\n",
    },
    Program {
        code: JUMPS_BY_SP,
        input: b"",
        output: b"A",
        line: "exit 0\n",
    },
    // The callee doubles its argument, which the caller drops.
    Program {
        code: b"\xB8\x05\x00\x50\xE8\x06\x00\x59\xB8\x00\x4C\xCD\x21\x55\x8B\xEC\xD1\x66\x04\x5D\xC3",
        input: b"",
        output: b"",
        line: "exit 0\n",
    },
    // SP is lowered by the sum with a number below 0, by DEC, and by LEA.
    Program {
        code: b"\xE8\x05\x00\xB8\x00\x4C\xCD\x21\x55\x8B\xEC\x83\xC4\xFE\xC6\x46\xFE\x41\x8A\x56\xFE\xB4\x02\
            \xCD\x21\x8B\xE5\x5D\xC3",
        input: b"",
        output: b"A",
        line: "exit 0\n",
    },
    Program {
        code: b"\xE8\x05\x00\xB8\x00\x4C\xCD\x21\x55\x8B\xEC\x4C\x4C\x90\xC6\x46\xFE\x41\x8A\x56\xFE\xB4\x02\
            \xCD\x21\x8B\xE5\x5D\xC3",
        input: b"",
        output: b"A",
        line: "exit 0\n",
    },
    Program {
        code: b"\xE8\x05\x00\xB8\x00\x4C\xCD\x21\x55\x8B\xEC\x8D\x66\xFE\xC6\x46\xFE\x41\x8A\x56\xFE\xB4\x02\
            \xCD\x21\x8B\xE5\x5D\xC3",
        input: b"",
        output: b"A",
        line: "exit 0\n",
    },
    // The address of a local is taken from BP.
    Program {
        code: b"\xE8\x05\x00\xB8\x00\x4C\xCD\x21\x55\x8B\xEC\x83\xEC\x02\x8B\xDD\x4B\xC6\x07\x42\x8A\x17\xB4\
            \x02\xCD\x21\x8B\xE5\x5D\xC3",
        input: b"",
        output: b"B",
        line: "exit 0\n",
    },
    // An argument of which the callee takes the address of one byte.
    Program {
        code: b"\xB8\x41\x42\x50\xE8\x08\x00\x58\xB8\x00\x4C\xCD\x21\x90\x90\x55\x8B\xEC\x8D\x5E\x05\x8A\x17\
            \xB4\x02\xCD\x21\x8A\x56\x04\xB4\x02\xCD\x21\x5D\xC3",
        input: b"",
        output: b"BA",
        line: "exit 0\n",
    },
    // An argument whose address the caller takes.
    Program {
        code: b"\xE8\x05\x00\xB8\x00\x4C\xCD\x21\x55\x8B\xEC\x83\xEC\x02\x8D\x5E\xFE\xC7\x07\x42\x41\xE8\x0A\
            \x00\x8A\x17\xB4\x02\xCD\x21\x8B\xE5\x5D\xC3\x55\x8B\xEC\x8B\x46\x04\x5D\xC3",
        input: b"",
        output: b"B",
        line: "exit 0\n",
    },
    // The divisor comes from one procedure, and another one divides by it: neither gives back or takes DX.
    Program {
        code: b"\xE8\x0A\x00\xB8\x64\x00\xE8\x0B\x00\xB4\x4C\xCD\x21\xBB\x07\x00\xBA\x01\x00\xC3\x33\xD2\xF7\
            \xF3\xC3",
        input: b"",
        output: b"",
        line: "exit 14\n",
    },
    // An argument is written before it is read.
    Program {
        code: b"\x50\xE8\x05\x00\x59\xB4\x4C\xCD\x21\x55\x8B\xEC\x89\x5E\x04\x8B\x46\x04\x5D\xC3",
        input: b"",
        output: b"",
        line: "exit 0\n",
    },
    // One caller takes the result as the address of a byte, and one doesn't take it.
    Program {
        code: b"\x74\x05\xE8\x13\x00\xEB\x09\xE8\x0E\x00\x8A\x17\xB4\x02\xCD\x21\x2B\xDB\x8A\xC3\xB4\x4C\xCD\
            \x21\xBB\x20\x01\xC3",
        input: b"",
        output: b"",
        line: "exit 0\n",
    },
    // One caller takes the result as the address of a byte, and one as that of a word.
    Program {
        code: b"\xE8\x18\x00\x8B\xD8\x8A\x17\xB4\x02\xCD\x21\xE8\x0D\x00\x8B\xD8\x8B\x17\xB4\x02\xCD\x21\xB8\
            \x00\x4C\xCD\x21\xB8\x20\x01\xC3",
        input: b"",
        output: b"\x00\x00",
        line: "exit 0\n",
    },
    // Two procedures share their ends.
    Program {
        code: b"\xE8\x0B\x00\xE8\x05\x00\xB8\x00\x4C\xCD\x21\x40\xEB\x03\x74\x01\x90\x90\xC3",
        input: b"",
        output: b"",
        line: "exit 0\n",
    },
    // What stands before the program's first instruction is run again, as part of a loop.
    Program {
        code: b"\x90\x83\xC4\x02\x41\x83\xF9\x03\x74\x03\x50\xEB\xF3\xB8\x00\x4C\xCD\x21",
        input: b"",
        output: b"",
        line: "exit 0\n",
    },
];

fn programs() -> &'static [Program] {
    &PROGRAMS
}

#[test]
fn texts_with_calls_put_out_and_end_as_their_programs_do(rt: HostRuntime) -> Result<(), Fail> {
    check_all(&rt, rt.alloc(), programs(), "8086")
}

#[test]
fn texts_with_calls_do_so_for_the_80186(rt: HostRuntime) -> Result<(), Fail> {
    check_all(&rt, rt.alloc(), programs(), "186")
}

// The run of a program is foul, and its text puts this out and exits with 0.
fn check_foul(
    rt: &impl Abort,
    alloc: Global,
    code: &[u8],
    fill: &str,
    output: &[u8],
) -> Result<(), Fail> {
    let file = program(alloc, code)?;
    let watched = answered(alloc, &["watch", "ROW1.EXE"], &file, NO_FAULTS)?;
    assert_eq!(rt; watched.status, 23);
    let text = text_of(rt, alloc, &file, "8086")?;
    let words = ["runc", "ROW1.EXE", "--fill", fill];
    let given = answered(alloc, &words, &text, NO_FAULTS)?;
    assert_eq!(rt; given.err.as_slice(), "exit 0\n".as_bytes());
    assert_eq!(rt; given.out.as_slice(), output);
    Ok(())
}

#[test]
fn programs_that_run_foully_have_texts(rt: HostRuntime) -> Result<(), Fail> {
    let alloc = rt.alloc();
    // The callee fills the caller's buffer past its end, into the saved BP.
    let overflows =
        b"\xE8\x05\x00\xB8\x00\x4C\xCD\x21\x55\x8B\xEC\x83\xEC\x16\xC7\x46\xFE\x00\x00\x8D\x7E\xEA\xE8\
        \x0B\x00\x8D\x56\xEA\xB4\x09\xCD\x21\x8B\xE5\x5D\xC3\xB9\x16\x00\xC6\x05\x78\x47\xE2\xFA\xC6\x05\x24\xC3";
    let filled = [0x78; 22];
    check_foul(&rt, alloc, overflows, "0", filled.as_slice())?;
    check_foul(&rt, alloc, overflows, "65535", filled.as_slice())?;
    // A local that an earlier procedure has left behind is read.
    let leaves =
        b"\xB8\x41\x41\xE8\x08\x00\xE8\x0E\x00\xB8\x00\x4C\xCD\x21\x55\x8B\xEC\x50\x8F\x46\xFE\x5D\xC3\x55\
        \x8B\xEC\x83\xEC\x02\x8A\x56\xFE\xB4\x02\xCD\x21\x8B\xE5\x5D\xC3";
    check_foul(&rt, alloc, leaves, "0", b"\x00")?;
    check_foul(&rt, alloc, leaves, "65535", b"\xFF")?;
    Ok(())
}
