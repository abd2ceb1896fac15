//! Executables, and the programs of the inner language that are lifted from them: both put out the same and end alike,
//! from any fill, and the machine's run is clean. The values come from runs of the executables apart from this program.

use crate::procedures::image_with;
use dcc_io::{MemSink, MemSource};
use dcc_ir::plain::{End, Event, run};
use dcc_lift::lift;
use dcc_machine::Cpu;
use dcc_pipe::analyse;
use dcc_step::Stepped;
use dcc_watch::{Watch, Watched};
use std::alloc::{AllocError, Global};
use std::test::Fail;

// The processor, the code, the bytes of the data segment, the output and the end.
#[derive(Drop)]
struct Row {
    cpu: Cpu,
    code: &'static [u8],
    rest: &'static [u8],
    output: &'static [u8],
    end: Stepped,
}

// What most rows have: the 8086, no data and no output, and exit code 0.
const QUIET: Row = Row {
    cpu: Cpu::I8086,
    code: b"",
    rest: b"",
    output: b"",
    end: Stepped::Exit(0),
};

static ROWS: [Row; 20] = [
    // XOR and SUB of a register with itself, after STC: 0, ZF set and the other flags clear.
    Row {
        code: b"\xB8\x34\x12\xF9\x33\xC0\x75\x22\x72\x20\x78\x1E\x70\x1C\xB3\x80\xF9\x2A\xDB\x75\x15\x72\
            \x13\x78\x11\x70\x0F\x04\x41\x02\xC3\x8A\xD0\xB4\x02\xCD\x21\xB8\x00\x4C\xCD\x21\xB8\x01\x4C\
            \xCD\x21",
        output: b"A",
        ..QUIET
    },
    // A local, below which SP is lowered by a negative raise.
    Row {
        code: b"\xE8\x05\x00\xB8\x00\x4C\xCD\x21\x55\x8B\xEC\x83\xC4\xFE\xC6\x46\xFE\x41\x8A\x56\xFE\xB4\x02\xCD\
            \x21\x8B\xE5\x5D\xC3",
        output: b"A",
        ..QUIET
    },
    // By DEC SP, twice.
    Row {
        code: b"\xE8\x05\x00\xB8\x00\x4C\xCD\x21\x55\x8B\xEC\x4C\x4C\x90\xC6\x46\xFE\x41\x8A\x56\xFE\xB4\x02\xCD\
            \x21\x8B\xE5\x5D\xC3",
        output: b"A",
        ..QUIET
    },
    // By LEA.
    Row {
        code: b"\xE8\x05\x00\xB8\x00\x4C\xCD\x21\x55\x8B\xEC\x8D\x66\xFE\xC6\x46\xFE\x41\x8A\x56\xFE\xB4\x02\xCD\
            \x21\x8B\xE5\x5D\xC3",
        output: b"A",
        ..QUIET
    },
    // A local that is stored and loaded by its address, from BP.
    Row {
        code: b"\xE8\x05\x00\xB8\x00\x4C\xCD\x21\x55\x8B\xEC\x83\xEC\x02\x8B\xDD\x4B\xC6\x07\x42\x8A\x17\xB4\x02\
            \xCD\x21\x8B\xE5\x5D\xC3",
        output: b"B",
        ..QUIET
    },
    // An argument word of which one byte is exposed.
    Row {
        code: b"\xB8\x41\x42\x50\xE8\x08\x00\x58\xB8\x00\x4C\xCD\x21\x90\x90\x55\x8B\xEC\x8D\x5E\x05\x8A\x17\xB4\
            \x02\xCD\x21\x8A\x56\x04\xB4\x02\xCD\x21\x5D\xC3",
        output: b"BA",
        ..QUIET
    },
    // An argument word that the caller exposes.
    Row {
        code: b"\xE8\x05\x00\xB8\x00\x4C\xCD\x21\x55\x8B\xEC\x83\xEC\x02\x8D\x5E\xFE\xC7\x07\x42\x41\xE8\x0A\x00\
            \x8A\x17\xB4\x02\xCD\x21\x8B\xE5\x5D\xC3\x55\x8B\xEC\x8B\x46\x04\x5D\xC3",
        output: b"B",
        ..QUIET
    },
    // A word that is loaded into the register of its own address.
    Row {
        code: b"\xBB\x00\x00\x8B\x1F\x8A\xD3\xB4\x02\xCD\x21\x8A\xD7\xB4\x02\xCD\x21\xB8\x00\x4C\xCD\x21",
        rest: b"\x02\x5A\x41\x42",
        output: b"\x02Z",
        ..QUIET
    },
    // A jump through a table, by a copy of the register that is compared.
    Row {
        code: b"\xB8\x02\x00\x3D\x03\x00\x77\x1B\xD1\xE0\x8B\xD8\x2E\xFF\xA7\x2C\x00\xB0\x01\xEB\x0A\xB0\x02\xEB\
            \x06\xB0\x03\xEB\x02\xB0\x04\xB4\x4C\xCD\x21\xB0\x09\xEB\xF8\x16\x00\x1A\x00\x1E\x00\x22\x00",
        end: Stepped::Exit(3),
        ..QUIET
    },
    // By a byte that is compared and widened.
    Row {
        code: b"\xB0\x02\x3C\x03\x77\x1D\x32\xE4\xD1\xE0\x8B\xD8\x2E\xFF\xA7\x2C\x00\xB0\x01\xEB\x0A\xB0\x02\xEB\
            \x06\xB0\x03\xEB\x02\xB0\x04\xB4\x4C\xCD\x21\xB0\x09\xEB\xF8\x16\x00\x1A\x00\x1E\x00\x22\x00",
        end: Stepped::Exit(3),
        ..QUIET
    },
    // The factorial of 7, which calls itself.
    Row {
        code: b"\xB8\x07\x00\x50\xE8\x05\x00\x59\xB4\x4C\xCD\x21\x55\x8B\xEC\x8B\x46\x04\x3D\x01\x00\x7E\x09\x48\
            \x50\xE8\xF0\xFF\x59\xF7\x66\x04\x5D\xC3",
        end: Stepped::Exit(176),
        ..QUIET
    },
    // A long in memory that is compared.
    Row {
        code: b"\xBA\xFF\xFF\xB8\x00\x00\x3B\x16\x02\x00\x7C\x0D\x7F\x06\x3B\x06\x00\x00\x72\x05\xB8\x00\x4C\xCD\
            \x21\xB8\x01\x4C\xCD\x21",
        rest: b"\x01\x00\xFF\xFF",
        end: Stepped::Exit(1),
        ..QUIET
    },
    // The address of a local, at two depths of calls.
    Row {
        code: b"\xE8\x0A\x00\x50\xE8\x06\x00\x58\xB8\x00\x4C\xCD\x21\x55\x8B\xEC\x83\xEC\x02\x8D\x46\xFE\x8B\xD0\
            \xB4\x02\xCD\x21\x8A\xD6\xB4\x02\xCD\x21\x8B\xE5\x5D\xC3",
        output: b"\xFA\x00\xF8\x00",
        ..QUIET
    },
    // A buffer of the caller, which the callee fills.
    Row {
        code: b"\xE8\x05\x00\xB8\x00\x4C\xCD\x21\x55\x8B\xEC\x83\xEC\x16\xC7\x46\xFE\x00\x00\x8D\x7E\xEA\xE8\x0B\
            \x00\x8D\x56\xEA\xB4\x09\xCD\x21\x8B\xE5\x5D\xC3\xB9\x04\x00\xC6\x05\x78\x47\xE2\xFA\xC6\x05\x24\
            \xC3",
        output: b"xxxx",
        ..QUIET
    },
    // An argument that is given back, since the callee writes it: the caller prints it.
    Row {
        code: b"\xB8\x05\x00\x50\xE8\x0C\x00\x58\x8B\xD0\xB4\x02\xCD\x21\xB8\x00\x4C\xCD\x21\x55\x8B\xEC\xD1\x66\
            \x04\x5D\xC3",
        output: b"\n",
        ..QUIET
    },
    // The first case of a jump through a table.
    Row {
        code: b"\xBB\x00\x00\x83\xFB\x03\x77\x19\xD1\xE3\x2E\xFF\xA7\x2A\x00\xB0\x01\xEB\x0A\xB0\x02\xEB\x06\xB0\
            \x03\xEB\x02\xB0\x04\xB4\x4C\xCD\x21\xB0\x09\xEB\xF8\x14\x00\x18\x00\x1C\x00\x20\x00",
        end: Stepped::Exit(1),
        ..QUIET
    },
    // The last case of a jump through a table.
    Row {
        code: b"\xBB\x03\x00\x83\xFB\x03\x77\x19\xD1\xE3\x2E\xFF\xA7\x2A\x00\xB0\x01\xEB\x0A\xB0\x02\xEB\x06\xB0\
            \x03\xEB\x02\xB0\x04\xB4\x4C\xCD\x21\xB0\x09\xEB\xF8\x14\x00\x18\x00\x1C\x00\x20\x00",
        end: Stepped::Exit(4),
        ..QUIET
    },
    // An index that is no place of the jump's table.
    Row {
        code: b"\xBB\xFF\xFF\x83\xFB\x03\x77\x19\xD1\xE3\x2E\xFF\xA7\x2A\x00\xB0\x01\xEB\x0A\xB0\x02\xEB\x06\xB0\
            \x03\xEB\x02\xB0\x04\xB4\x4C\xCD\x21\xB0\x09\xEB\xF8\x14\x00\x18\x00\x1C\x00\x20\x00",
        end: Stepped::Exit(9),
        ..QUIET
    },
    // A division by zero, whose quotient nothing wants.
    Row {
        code: b"\xB8\x01\x00\xBB\x00\x00\x99\xF7\xFB\xB8\x00\x4C\xCD\x21",
        end: Stepped::Divide,
        ..QUIET
    },
    // A frame by ENTER and LEAVE.
    Row {
        cpu: Cpu::I186,
        code: b"\xE8\x05\x00\xB8\x00\x4C\xCD\x21\xC8\x02\x00\x00\xC6\x46\xFE\x2A\x8A\x56\xFE\xB4\x02\xCD\x21\xC9\
            \xC3",
        output: b"*",
        ..QUIET
    },
];

fn rows() -> &'static [Row] {
    &ROWS
}

// How a run of the inner language ends where the machine's ends so.
fn inner_end(end: Stepped) -> Option<End> {
    match end {
        Stepped::Exit(code) => Some(End::Exit(u32::from(code))),
        Stepped::Divide => Some(End::Divide),
        _ => None,
    }
}

// The bytes that are written.
fn output(alloc: Global, events: &[Event]) -> Result<Vec<u8>, AllocError> {
    let mut bytes = Vec::new(alloc);
    for event in events {
        if let Event::Wrote(byte) = event {
            bytes.push(*byte)?;
        }
    }
    Ok(bytes)
}

#[test]
fn lifted_programs_run_as_their_executables_do(rt: HostRuntime) -> Result<(), Fail> {
    let alloc = rt.alloc();
    for row in rows() {
        let image = image_with(&rt, alloc, row.code, row.rest)?;
        let program = analyse(alloc, &image, row.cpu)?;
        let mut watch = Watch::new(alloc, &image, &program)?;
        let mut input = MemSource::new(Vec::new(alloc), Vec::new(alloc), 1);
        let mut out = MemSink::new(alloc, Vec::new(alloc), 1);
        let ended = watch.run(&mut input, &mut out, 1_000);
        assert_eq!(rt; ended, Watched::Clean(row.end));
        assert_eq!(rt; out.taken().as_slice(), row.output);
        let lifted = lift(alloc, &image, &program)?;
        for fill in [0, 65_535] {
            let outcome = run(alloc, &lifted, b"", fill, 1_000)?;
            assert_eq!(rt; Some(outcome.end), inner_end(row.end));
            let written = output(alloc, &outcome.events)?;
            assert_eq!(rt; written.as_slice(), row.output);
        }
    }
    Ok(())
}
