//! Frames in small programs. The values come from a reference analysis apart from this one.

use crate::procedures::image_of;
use dcc_frames::cells;
use dcc_heights::heights;
use dcc_layout::layout;
use dcc_machine::Cpu;
use dcc_procs::find;
use dcc_prog::{ConstructKind, FrameFault, LimitName, Refusal};
use std::test::Fail;

// Whether a procedure is framed, the number of its argument words, its cells by their first byte and size, the number
// of its exposed local bytes, and its least exposed byte of an argument.
type FrameRow = (bool, u16, &'static [(i32, u8)], u16, Option<u16>);

// The processor, the code, and its frames.
type ProgramRow = (Cpu, &'static [u8], &'static [FrameRow]);

static PROGRAMS: [ProgramRow; 9] = [
    // The factorial, which calls itself, of 7.
    (
        Cpu::I8086,
        b"\xB8\x07\x00\x50\xE8\x05\x00\x59\xB4\x4C\xCD\x21\x55\x8B\xEC\x8B\x46\x04\x3D\x01\x00\x7E\x09\x48\x50\xE8\xF0\xFF\x59\xF7\x66\x04\x5D\xC3",
        &[
            (false, 0, &[(0, 2)], 0, None),
            (true, 1, &[(-2, 2), (4, 2)], 0, None),
        ],
    ),
    // Locals that touch: words at BP-6 and BP-3, bytes at BP-4 and BP-1.
    (
        Cpu::I8086,
        b"\xE8\x04\x00\xB4\x4C\xCD\x21\x55\x8B\xEC\x83\xEC\x06\x88\x46\xFF\x89\x46\xFD\x8A\x46\xFC\x89\x46\xFA\x8B\xE5\x5D\xC3",
        &[
            (false, 0, &[], 0, None),
            (true, 0, &[(-6, 2), (-4, 1), (-3, 2), (-1, 1)], 0, None),
        ],
    ),
    // The address of a local.
    (
        Cpu::I8086,
        b"\xE8\x04\x00\xB4\x4C\xCD\x21\x55\x8B\xEC\x83\xEC\x08\xC6\x46\xFE\x41\x8D\x5E\xFA\x8B\x76\xFA\x8B\xE5\x5D\xC3",
        &[
            (false, 0, &[], 0, None),
            (true, 0, &[(-6, 2), (-2, 1)], 6, None),
        ],
    ),
    // `mov bx,bp` exposes the bytes between SP and BP.
    (
        Cpu::I8086,
        b"\xE8\x05\x00\xB8\x00\x4C\xCD\x21\x55\x8B\xEC\x83\xEC\x02\x8B\xDD\x4B\xC6\x07\x42\x8A\x17\xB4\x02\xCD\x21\x8B\xE5\x5D\xC3",
        &[(false, 0, &[], 0, None), (true, 0, &[], 2, None)],
    ),
    // The upper byte of an argument is exposed.
    (
        Cpu::I8086,
        b"\xB8\x41\x42\x50\xE8\x08\x00\x58\xB8\x00\x4C\xCD\x21\x90\x90\x55\x8B\xEC\x8D\x5E\x05\x8A\x17\xB4\x02\xCD\x21\x8A\x56\x04\xB4\x02\xCD\x21\x5D\xC3",
        &[
            (false, 0, &[(0, 2)], 0, None),
            (true, 1, &[(4, 2)], 0, Some(5)),
        ],
    ),
    // Words at BP-4 and BP-3 make a run of three bytes.
    (
        Cpu::I8086,
        b"\xE8\x04\x00\xB4\x4C\xCD\x21\x55\x8B\xEC\x83\xEC\x04\x89\x46\xFC\x8A\x46\xFD\x89\x46\xFD\x8B\xE5\x5D\xC3",
        &[(false, 0, &[], 0, None), (true, 0, &[], 4, None)],
    ),
    // Two arguments that a RET removes, and nothing touches.
    (
        Cpu::I8086,
        b"\x50\x50\xE8\x04\x00\xB4\x4C\xCD\x21\xC2\x04\x00",
        &[
            (false, 0, &[(-2, 2), (0, 2)], 0, None),
            (false, 2, &[(4, 2), (6, 2)], 0, None),
        ],
    ),
    // A frame by ENTER and LEAVE.
    (
        Cpu::I186,
        b"\xE8\x05\x00\xB8\x00\x4C\xCD\x21\xC8\x02\x00\x00\xC6\x46\xFE\x2A\x8A\x56\xFE\xB4\x02\xCD\x21\xC9\xC3",
        &[(false, 0, &[], 0, None), (true, 0, &[(-2, 1)], 0, None)],
    ),
    // An operand with an index.
    (
        Cpu::I8086,
        b"\xE8\x04\x00\xB4\x4C\xCD\x21\x55\x8B\xEC\x83\xEC\x08\x8B\x42\xF8\x88\x46\xFF\x8B\xE5\x5D\xC3",
        &[(false, 0, &[], 0, None), (true, 0, &[(-1, 1)], 8, None)],
    ),
];

fn programs() -> &'static [ProgramRow] {
    &PROGRAMS
}

#[test]
fn each_procedure_has_its_frame(rt: HostRuntime) -> Result<(), Fail> {
    let alloc = rt.alloc();
    for (cpu, code, rows) in programs() {
        let image = image_of(&rt, alloc, code)?;
        let layout = layout(alloc, &image, *cpu)?;
        let procs = find(alloc, &image, &layout)?;
        let found = cells(alloc, &procs, &heights(alloc, &procs)?, layout.delta)?;
        assert_eq!(rt; found.frames.len(), rows.len());
        for (frame, (framed, args, expected, local, arg)) in found.frames.iter().zip(*rows) {
            assert_eq!(rt; frame.framed, *framed);
            assert_eq!(rt; frame.args, *args);
            assert_eq!(rt; frame.exposed.local, *local);
            assert_eq!(rt; frame.exposed.arg, *arg);
            assert_eq!(rt; frame.cells.len(), expected.len());
            for (cell, (first, size)) in frame.cells.iter().zip(*expected) {
                assert_eq!(rt; cell.first, *first);
                assert_eq!(rt; cell.size, *size);
            }
        }
    }
    Ok(())
}

// The code, how far the stack's segment begins above that of the data, and what is told.
type RefusedRow = (&'static [u8], u16, Refusal);

static REFUSED: [RefusedRow; 9] = [
    // A call that finds one word where its callee has two.
    (
        b"\x50\xE8\x05\x00\xB8\x00\x4C\xCD\x21\x55\x8B\xEC\x8B\x46\x06\x5D\xC3",
        0,
        Refusal::Construct {
            kind: ConstructKind::ArgumentsShort,
            at: 0x0006,
        },
    ),
    // An access to the return address, to a byte below SP, and to an argument of the entry procedure.
    (
        b"\xE8\x05\x00\xB8\x00\x4C\xCD\x21\x55\x8B\xEC\x8B\x46\x02\x5D\xC3",
        0,
        Refusal::Construct {
            kind: ConstructKind::FrameAccess(FrameFault::AccessOutside),
            at: 0x0010,
        },
    ),
    (
        b"\xE8\x04\x00\xB4\x4C\xCD\x21\x55\x8B\xEC\x50\x8B\x46\xFD\x8B\xE5\x5D\xC3",
        0,
        Refusal::Construct {
            kind: ConstructKind::FrameAccess(FrameFault::AccessOutside),
            at: 0x0010,
        },
    ),
    (
        b"\x55\x8B\xEC\x8B\x46\x04\xEB\xFE",
        0,
        Refusal::Construct {
            kind: ConstructKind::FrameAccess(FrameFault::AccessOutside),
            at: 0x0008,
        },
    ),
    // `mov bx,bp` where there are no bytes between SP and BP.
    (
        b"\x55\x8B\xEC\x8B\xDD\xEB\xFE",
        0,
        Refusal::Construct {
            kind: ConstructKind::FrameAccess(FrameFault::AddressOutside),
            at: 0x0008,
        },
    ),
    // An address, and a run of three bytes, where the stack lies apart from the data.
    (
        b"\x55\x8B\xEC\x83\xEC\x02\x8D\x5E\xFE\xEB\xFE",
        16,
        Refusal::Construct {
            kind: ConstructKind::FrameAccess(FrameFault::NoAddress),
            at: 0x000B,
        },
    ),
    (
        b"\x55\x8B\xEC\x83\xEC\x04\x89\x46\xFC\x89\x46\xFD\xEB\xFE",
        16,
        Refusal::Construct {
            kind: ConstructKind::FrameAccess(FrameFault::LongExtent),
            at: 0x000B,
        },
    ),
    // Pushed words that overlap in a procedure without BP.
    (
        b"\x50\x44\x50\x44\x44\x44\xB4\x4C\xCD\x21",
        0,
        Refusal::Construct {
            kind: ConstructKind::FrameAccess(FrameFault::LongExtent),
            at: 0x0007,
        },
    ),
    // 33 argument words.
    (
        b"\xE8\x04\x00\xB4\x4C\xCD\x21\x55\x8B\xEC\x8B\x46\x44\x5D\xC3",
        0,
        Refusal::Limit {
            what: LimitName::Arguments,
            count: 33,
        },
    ),
];

fn refused() -> &'static [RefusedRow] {
    &REFUSED
}

#[test]
fn what_a_frame_does_not_allow_is_refused(rt: HostRuntime) -> Result<(), Fail> {
    let alloc = rt.alloc();
    for (code, delta, refusal) in refused() {
        let image = image_of(&rt, alloc, code)?;
        let layout = layout(alloc, &image, Cpu::I8086)?;
        let procs = find(alloc, &image, &layout)?;
        let heights = heights(alloc, &procs)?;
        let Err(told) = cells(alloc, &procs, &heights, *delta) else {
            return Err("accepted".into());
        };
        assert_eq!(rt; told, *refusal);
    }
    Ok(())
}
