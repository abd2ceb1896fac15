//! Heights of the stack in small programs. The values come from a reference analysis apart from this one.

use crate::procedures::image_of;
use dcc_heights::heights;
use dcc_layout::layout;
use dcc_machine::Cpu;
use dcc_procs::find;
use dcc_prog::{ConstructKind, Refusal};
use std::process::Abort;
use std::test::Fail;

// How many bytes the RETs of a procedure remove, and the height at each of its offsets.
type ProcRow = (u16, &'static [(u16, u16)]);

// The processor, the code, and its procedures.
type ProgramRow = (Cpu, &'static [u8], &'static [ProcRow]);

static PROGRAMS: [ProgramRow; 4] = [
    // The factorial, which calls itself, of 7.
    (
        Cpu::I8086,
        b"\xB8\x07\x00\x50\xE8\x05\x00\x59\xB4\x4C\xCD\x21\x55\x8B\xEC\x8B\x46\x04\x3D\x01\x00\x7E\x09\x48\x50\xE8\xF0\xFF\x59\xF7\x66\x04\x5D\xC3",
        &[
            (0, &[(5, 0), (8, 0), (9, 2), (12, 2), (13, 0), (15, 0)]),
            (
                0,
                &[
                    (17, 0),
                    (18, 2),
                    (20, 2),
                    (23, 2),
                    (26, 2),
                    (28, 2),
                    (29, 2),
                    (30, 4),
                    (33, 4),
                    (34, 2),
                    (37, 2),
                    (38, 0),
                ],
            ),
        ],
    ),
    // A RET that removes its argument.
    (
        Cpu::I8086,
        b"\x50\xE8\x04\x00\xB4\x4C\xCD\x21\xC2\x02\x00",
        &[(0, &[(5, 0), (6, 2), (9, 0), (11, 0)]), (2, &[(13, 0)])],
    ),
    // SP is lowered by ADD of a negative number, by DEC and by LEA.
    (
        Cpu::I8086,
        b"\xE8\x04\x00\xB4\x4C\xCD\x21\x55\x8B\xEC\x83\xC4\xFE\x4C\x4C\x8D\x66\xFA\x8B\xE5\x5D\xC3",
        &[
            (0, &[(5, 0), (8, 0), (10, 0)]),
            (
                0,
                &[
                    (12, 0),
                    (13, 2),
                    (15, 2),
                    (18, 4),
                    (19, 5),
                    (20, 6),
                    (23, 8),
                    (25, 2),
                    (26, 0),
                ],
            ),
        ],
    ),
    // A frame by ENTER and LEAVE.
    (
        Cpu::I186,
        b"\xE8\x05\x00\xB8\x00\x4C\xCD\x21\xC8\x02\x00\x00\xC6\x46\xFE\x2A\x8A\x56\xFE\xB4\x02\xCD\x21\xC9\xC3",
        &[
            (0, &[(5, 0), (8, 0), (11, 0)]),
            (
                0,
                &[
                    (13, 0),
                    (17, 4),
                    (21, 4),
                    (24, 4),
                    (26, 4),
                    (28, 4),
                    (29, 0),
                ],
            ),
        ],
    ),
];

fn programs() -> &'static [ProgramRow] {
    &PROGRAMS
}

#[test]
fn each_instruction_has_its_height(rt: HostRuntime) -> Result<(), Fail> {
    let alloc = rt.alloc();
    for (cpu, code, rows) in programs() {
        let image = image_of(&rt, alloc, code)?;
        let layout = layout(alloc, &image, *cpu)?;
        let heights = heights(alloc, &find(alloc, &image, &layout)?)?;
        assert_eq!(rt; heights.at.len(), rows.len());
        assert_eq!(rt; heights.ret.len(), rows.len());
        for ((at, ret), (bytes, nodes)) in heights.at.iter().zip(heights.ret.iter()).zip(*rows) {
            assert_eq!(rt; ret, bytes);
            assert_eq!(rt; at.len(), nodes.len());
            for ((offset, height), (expected, level)) in at.iter().zip(*nodes) {
                assert_eq!(rt; offset, expected);
                assert_eq!(rt; height, level);
            }
        }
    }
    Ok(())
}

// The processor, the code, the construct that is told, and its offset.
type RefusedRow = (Cpu, &'static [u8], ConstructKind, u16);

static REFUSED: [RefusedRow; 14] = [
    // A program that takes its own address: the return address is popped.
    (
        Cpu::I8086,
        b"\xE8\x00\x00\x58\xB8\x00\x4C\xCD\x21",
        ConstructKind::StackHeight,
        0x0008,
    ),
    // A push on one arm.
    (
        Cpu::I8086,
        b"\x3D\x00\x00\x74\x01\x50\xEB\xFE",
        ConstructKind::StackHeight,
        0x000B,
    ),
    // SUB of a negative number, and INC, raise SP above its value at the entry.
    (
        Cpu::I8086,
        b"\x50\x83\xEC\xFC\xEB\xFE",
        ConstructKind::StackHeight,
        0x0006,
    ),
    (
        Cpu::I8086,
        b"\x44\xEB\xFE",
        ConstructKind::StackHeight,
        0x0005,
    ),
    // INC, and a POP, raise SP into the saved BP.
    (
        Cpu::I8086,
        b"\x55\x8B\xEC\x44\xEB\xFE",
        ConstructKind::StackHeight,
        0x0008,
    ),
    (
        Cpu::I8086,
        b"\x55\x8B\xEC\x58\xEB\xFE",
        ConstructKind::StackHeight,
        0x0008,
    ),
    // A CALL of a procedure that removes an argument raises SP into the saved BP.
    (
        Cpu::I8086,
        b"\x55\x8B\xEC\xE8\x02\x00\xEB\xFE\xC2\x02\x00",
        ConstructKind::StackHeight,
        0x0008,
    ),
    // A RET with a word on the stack, and with a byte.
    (
        Cpu::I8086,
        b"\xE8\x04\x00\xB4\x4C\xCD\x21\x50\xC3",
        ConstructKind::StackHeight,
        0x000D,
    ),
    (
        Cpu::I8086,
        b"\xE8\x04\x00\xB4\x4C\xCD\x21\x4C\xC3",
        ConstructKind::StackHeight,
        0x000D,
    ),
    // Two RETs that remove different sizes.
    (
        Cpu::I8086,
        b"\xE8\x04\x00\xB4\x4C\xCD\x21\x74\x01\xC3\xC2\x02\x00",
        ConstructKind::StackHeight,
        0x000F,
    ),
    // A height above 32,766 bytes.
    (
        Cpu::I8086,
        b"\x50\x81\xEC\xFD\x7F\xEB\xFE",
        ConstructKind::StackHeight,
        0x0006,
    ),
    // A push, and LEAVE, where the frame is given up already.
    (
        Cpu::I8086,
        b"\x55\x8B\xEC\x5D\x50\xEB\xFE",
        ConstructKind::OutsideProfile,
        0x0009,
    ),
    (
        Cpu::I186,
        b"\xC8\x00\x00\x00\xC9\xC9\xEB\xFE",
        ConstructKind::OutsideProfile,
        0x000A,
    ),
    // `pop bp` above its word.
    (
        Cpu::I8086,
        b"\x55\x8B\xEC\x50\x5D\xEB\xFE",
        ConstructKind::OutsideProfile,
        0x0009,
    ),
];

fn refused() -> &'static [RefusedRow] {
    &REFUSED
}

#[test]
fn wrong_heights_are_refused_where_they_stand(rt: HostRuntime) -> Result<(), Fail> {
    let alloc = rt.alloc();
    for (cpu, code, kind, at) in refused() {
        let image = image_of(&rt, alloc, code)?;
        let layout = layout(alloc, &image, *cpu)?;
        let procs = find(alloc, &image, &layout)?;
        let Err(refusal) = heights(alloc, &procs) else {
            return Err("accepted".into());
        };
        assert_eq!(rt;
            refusal,
            Refusal::Construct {
                kind: *kind,
                at: *at
            }
        );
    }
    Ok(())
}
