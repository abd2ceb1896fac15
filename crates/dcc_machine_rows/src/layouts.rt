//! Layouts of small programs. The values come from a reference analysis apart from this one.

ghost use Rattle.std.specs.Prelude.{IfOk};
ghost use Rattle.dcc_machine.specs.MzImage.{IsLoaded};

use dcc_layout::layout;
use dcc_machine::{Cpu, Image};
use dcc_mz::load;
use dcc_num::Flags;
use dcc_prog::{ConstructKind, Refusal};
use std::alloc::Global;
use std::process::Abort;
use std::test::Fail;

// What a file's header says of the start; segments count from the image's start.
#[derive(Clone, Copy)]
struct Start {
    cs: u16,
    ip: u16,
    ss: u16,
    sp: u16,
}

// The stack segment begins 16 bytes above the code segment.
const START: Start = Start {
    cs: 0,
    ip: 0,
    ss: 1,
    sp: 0x0100,
};

// At offset 3 of the code.
const AT_3: Start = Start { ip: 3, ..START };

// The image of a file with a header of two paragraphs, whose one relocation moves the word at image offset 1. The
// bytes are at most 64.
fn image_of(rt: &impl Abort, alloc: Global, start: Start, bytes: &[u8]) -> Result<Image, Fail>
    ensures { IfOk result IsLoaded }
{
    assert!(rt; bytes.len() <= 64);
    let mut file = b"MZ".to_vec(alloc)?;
    for word in [
        32 + bytes.len() as u16,
        1,
        1,
        2,
        0,
        0xFFFF,
        start.ss,
        start.sp,
        0,
        start.ip,
    ] {
        file.extend_from_slice(&word.to_le_bytes())?;
    }
    file.extend_from_slice(&start.cs.to_le_bytes())?;
    file.extend_from_slice(b"\x1C\x00\x00\x00\x01\x00\x00\x00")?;
    file.extend_from_slice(bytes)?;
    Ok(load(alloc, &file)?)
}

// A start that moves the stack to the data: SS takes DS, and SP the distance between them.
const MOVES_STACK: [u8; 34] = [
    0xB8, 0x02, 0x00, 0x8E, 0xD8, 0xFA, 0x8C, 0xD3, 0x2B, 0xD8, 0xB1, 0x04, 0xD3, 0xE3, 0x8E, 0xD0,
    0x03, 0xE3, 0xFB, 0xB8, 0x00, 0x4C, 0xCD, 0x21, 0x00, 0x00, 0x00, 0x00, 0x00, 0x00, 0x00, 0x00,
    0x41, 0x42,
];

// A program with its layout: DS, delta, the lowest offset of the stack, the offset above it, the offset after the
// prelude and that after the code; the word registers by number; CF, ZF, SF and OF.
type LayoutRow = (Start, &'static [u8], [u32; 6], [u16; 8], [bool; 4]);

static LAYOUTS: [LayoutRow; 9] = [
    // The usual start.
    (
        START,
        b"\xB8\x01\x00\x8E\xD8\xB2\x41\xB4\x02\xCD\x21\xB8\x03\x4C\xCD\x21",
        [0x0111, 0, 0, 256, 5, 16],
        [0x0111, 0, 0, 0, 0x0100, 0, 0, 0],
        [false, false, false, false],
    ),
    // The code lies above other bytes.
    (
        Start {
            cs: 1,
            ss: 2,
            ..START
        },
        b"\0\0\0\0\0\0\0\0\0\0\0\0\0\0\0\0\xB8\x12\x01\x8E\xD8\xB4\x4C\xCD\x21\0\0\0\0\0\0\0\x41\x42",
        [0x0112, 0, 2, 256, 5, 16],
        [0x0112, 0, 0, 0, 0x0100, 0, 0, 0],
        [false, false, false, false],
    ),
    // The stack is moved to the data.
    (
        Start {
            ss: 3,
            sp: 0x0400,
            ..START
        },
        &MOVES_STACK,
        [0x0112, 0, 16, 1040, 19, 32],
        [0x0112, 4, 0, 0x0010, 0x0410, 0, 0, 0],
        [false, false, false, false],
    ),
    // SP falls, and bytes are moved.
    (
        Start { ss: 2, ..START },
        b"\xB8\x02\x00\x8E\xD8\x83\xEC\x08\x8A\xF4\x8A\xD6\x8E\xC2\x90\xB4\x4C\xCD\x21",
        [0x0112, 0, 0, 248, 14, 19],
        [0x0112, 0, 0x0101, 0, 0x00F8, 0, 0, 0],
        [false, false, false, false],
    ),
    // A shift by 16 and one by 17.
    (
        START,
        b"\xB8\x01\x00\xBB\xFF\xFF\xB1\x10\xD3\xE3\x8E\xD8\xCD\x21",
        [0x0111, 0, 0, 256, 12, 14],
        [0x0111, 0x0010, 0, 0, 0x0100, 0, 0, 0],
        [true, true, false, false],
    ),
    (
        START,
        b"\xB8\x01\x00\xBB\xFF\xFF\xB1\x11\xD3\xE3\x8E\xD8\xCD\x21",
        [0x0111, 0, 0, 256, 12, 14],
        [0x0111, 0x0011, 0, 0, 0x0100, 0, 0, 0],
        [false, true, false, false],
    ),
    // The greatest delta, the greatest end of the stack, and the highest data segment.
    (
        Start {
            ss: 0x1000,
            sp: 15,
            ..START
        },
        b"\xB8\x01\x00\x8E\xD8\xB4\x4C\xCD\x21",
        [0x0111, 65520, 65520, 65535, 5, 9],
        [0x0111, 0, 0, 0, 15, 0, 0, 0],
        [false, false, false, false],
    ),
    (
        Start {
            ss: 2,
            sp: 0xFFEF,
            ..START
        },
        b"\xB8\x01\x00\x8E\xD8\xB4\x4C\xCD\x21",
        [0x0111, 16, 16, 65535, 5, 9],
        [0x0111, 0, 0, 0, 0xFFEF, 0, 0, 0],
        [false, false, false, false],
    ),
    (
        Start {
            ss: 0xEEF0,
            sp: 1,
            ..AT_3
        },
        b"\0\0\0\xB8\x00\xF0\x8E\xD8\x90",
        [0xF000, 0, 0, 1, 8, 9],
        [0xF000, 0, 0, 0, 1, 0, 0, 0],
        [false, false, false, false],
    ),
];

fn layouts() -> &'static [LayoutRow] {
    &LAYOUTS
}

// Whether the program has the row's layout for the processor.
fn lays_out(rt: &impl Abort, alloc: Global, cpu: Cpu, row: &LayoutRow) -> Result<(), Fail> {
    let (start, bytes, places, regs, flags) = row;
    let image = image_of(rt, alloc, *start, bytes)?;
    let layout = layout(alloc, &image, cpu)?;
    let found = [
        u32::from(layout.ds),
        u32::from(layout.delta),
        u32::from(layout.lo),
        u32::from(layout.hi),
        u32::from(layout.start_ip),
        layout.code_end,
    ];
    let Flags { cf, zf, sf, of } = layout.flags;
    assert!(rt; layout.cpu == cpu);
    assert_eq!(rt; found, *places);
    assert_eq!(rt; layout.regs, *regs);
    assert_eq!(rt; [cf, zf, sf, of], *flags);
    Ok(())
}

#[test]
fn a_prelude_sets_segments_stack_and_registers(rt: HostRuntime) -> Result<(), Fail> {
    for row in layouts() {
        lays_out(&rt, rt.alloc(), Cpu::I8086, row)?;
        lays_out(&rt, rt.alloc(), Cpu::I186, row)?;
    }
    Ok(())
}

// The stack segment begins where the data does.
const STACK_IN_DATA: Start = Start {
    ss: 2,
    sp: 0x0200,
    ..START
};

// A shift of AX by a constant gives SP its value.
const SHIFT_BY_CONSTANT: &[u8] =
    b"\xB8\x02\x00\x8E\xD8\xB8\x10\x00\xC1\xE0\x04\x8B\xE0\xB4\x4C\xCD\x21";

// A shift of BX by 36, a constant.
const CONSTANT_MODULO: &[u8] =
    b"\xB8\x02\x00\x8E\xD8\xBB\x11\x00\xC1\xE3\x24\x8E\xC3\xB4\x4C\xCD\x21";

// A shift of BX by 36, which CL holds.
const CL_MODULO: &[u8] =
    b"\xB8\x02\x00\x8E\xD8\xBB\x11\x00\xB1\x24\xD3\xE3\x8E\xC3\xB4\x4C\xCD\x21";

// A prelude of the 8086 ends before a shift by a constant; the 80186 takes each count modulo 32.
static BY_PROCESSOR: [(Cpu, LayoutRow); 6] = [
    (
        Cpu::I8086,
        (
            STACK_IN_DATA,
            SHIFT_BY_CONSTANT,
            [0x0112, 0, 0, 512, 5, 17],
            [0x0112, 0, 0, 0, 0x0200, 0, 0, 0],
            [false, false, false, false],
        ),
    ),
    (
        Cpu::I186,
        (
            STACK_IN_DATA,
            SHIFT_BY_CONSTANT,
            [0x0112, 0, 0, 256, 13, 17],
            [0x0100, 0, 0, 0, 0x0100, 0, 0, 0],
            [false, false, false, false],
        ),
    ),
    (
        Cpu::I8086,
        (
            STACK_IN_DATA,
            CONSTANT_MODULO,
            [0x0112, 0, 0, 512, 5, 17],
            [0x0112, 0, 0, 0, 0x0200, 0, 0, 0],
            [false, false, false, false],
        ),
    ),
    (
        Cpu::I186,
        (
            STACK_IN_DATA,
            CONSTANT_MODULO,
            [0x0112, 0, 0, 512, 13, 17],
            [0x0112, 0, 0, 0x0110, 0x0200, 0, 0, 0],
            [false, false, false, false],
        ),
    ),
    (
        Cpu::I8086,
        (
            STACK_IN_DATA,
            CL_MODULO,
            [0x0112, 0, 0, 512, 14, 18],
            [0x0112, 0x0024, 0, 0, 0x0200, 0, 0, 0],
            [false, true, false, false],
        ),
    ),
    (
        Cpu::I186,
        (
            STACK_IN_DATA,
            CL_MODULO,
            [0x0112, 0, 0, 512, 14, 18],
            [0x0112, 0x0024, 0, 0x0110, 0x0200, 0, 0, 0],
            [false, false, false, false],
        ),
    ),
];

fn by_processor() -> &'static [(Cpu, LayoutRow)] {
    &BY_PROCESSOR
}

#[test]
fn each_processor_shifts_in_its_way(rt: HostRuntime) -> Result<(), Fail> {
    for (cpu, row) in by_processor() {
        lays_out(&rt, rt.alloc(), *cpu, row)?;
    }
    Ok(())
}

// A shift by a constant stands before the move to DS.
#[test]
fn a_program_may_have_a_layout_for_the_80186_alone(rt: HostRuntime) -> Result<(), Fail> {
    let alloc = rt.alloc();
    let start = Start { ss: 0x1010, ..AT_3 };
    let bytes = b"\0\0\0\xB8\x12\x01\xC1\xE0\x04\x8E\xD8\xB4\x4C\xCD\x21";
    let image = image_of(&rt, alloc, start, bytes)?;
    let refusal = Refusal::Construct {
        kind: ConstructKind::NoLayout,
        at: start.ip,
    };
    assert_eq!(rt; layout(alloc, &image, Cpu::I8086).err(), Some(refusal));
    assert_eq!(rt; layout(alloc, &image, Cpu::I186)?.ds, 0x1120);
    Ok(())
}

static REFUSED: [(Start, &[u8]); 12] = [
    // ES alone is written.
    (START, b"\xB8\x01\x00\x8E\xC0\xB4\x4C\xCD\x21"),
    // A move from CS is none of a prelude.
    (
        Start { ss: 2, ..AT_3 },
        b"\0\0\0\x8C\xC8\x05\x02\x00\x8E\xD8\xB4\x4C\xCD\x21",
    ),
    // DS is CS.
    (
        Start { ss: 0, ..AT_3 },
        b"\0\0\0\xB8\x10\x01\x8E\xD8\xB4\x4C\xCD\x21",
    ),
    // DS lies below CS.
    (
        Start { cs: 1, ..START },
        b"\0\0\0\0\0\0\0\0\0\0\0\0\0\0\0\0\xB8\x10\x01\x8E\xD8\xB4\x4C\xCD\x21",
    ),
    // DS lies above F000h.
    (
        Start {
            ss: 0xEEF1,
            sp: 1,
            ..AT_3
        },
        b"\0\0\0\xB8\x01\xF0\x8E\xD8\x90",
    ),
    // SS lies below DS.
    (
        Start { ss: 0, ..START },
        b"\xB8\x01\x00\x8E\xD8\xB4\x4C\xCD\x21",
    ),
    // SS lies 65,536 bytes above DS.
    (
        Start {
            ss: 0x1001,
            sp: 15,
            ..START
        },
        b"\xB8\x01\x00\x8E\xD8\xB4\x4C\xCD\x21",
    ),
    // The stack ends at 65,536.
    (
        Start {
            ss: 2,
            sp: 0xFFF0,
            ..START
        },
        b"\xB8\x01\x00\x8E\xD8\xB4\x4C\xCD\x21",
    ),
    // The stack has no byte.
    (
        Start { sp: 8, ..START },
        b"\xB8\x01\x00\x8E\xD8\xB4\x4C\xCD\x21\0\0\0\0\0\0\0\0\0\0\0\0\0\0\0",
    ),
    // The move to DS is cut by the end.
    (Start { ss: 0x1EF0, ..AT_3 }, b"\0\0\0\xB8\x00\x20\x8E"),
    // The image ends with the prelude.
    (Start { ss: 0x1EF0, ..AT_3 }, b"\0\0\0\xB8\x00\x20\x8E\xD8"),
    // The data begins in the prelude.
    (
        START,
        b"\xB8\x01\x00\x90\x90\x90\x90\x90\x90\x90\x90\x90\x90\x90\x8E\xD8\x41",
    ),
];

fn refused() -> &'static [(Start, &'static [u8])] {
    &REFUSED
}

#[test]
fn a_program_without_a_layout_is_refused_at_its_entry(rt: HostRuntime) -> Result<(), Fail> {
    let alloc = rt.alloc();
    for (start, bytes) in refused() {
        let image = image_of(&rt, alloc, *start, bytes)?;
        let refusal = Refusal::Construct {
            kind: ConstructKind::NoLayout,
            at: start.ip,
        };
        assert_eq!(rt; layout(alloc, &image, Cpu::I8086).err(), Some(refusal));
        assert_eq!(rt; layout(alloc, &image, Cpu::I186).err(), Some(refusal));
    }
    Ok(())
}
