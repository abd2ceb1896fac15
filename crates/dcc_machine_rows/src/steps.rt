//! Small programs, with what a reference machine apart from this one gives.

use dcc_io::{MemSink, MemSource};
use dcc_machine::{Cpu, Image, LOAD_SEGMENT};
use dcc_num::Reg;
use dcc_step::{Machine, Stepped};
use std::alloc::{AllocError, Global};
use std::process::Abort;
use std::test::Fail;

const PROCESSORS: [Cpu; 2] = [Cpu::I8086, Cpu::I186];

// A machine with this code from the load segment on, and a stack in segment 0300h.
fn machine(rt: &impl Abort, alloc: Global, code: &[u8], cpu: Cpu) -> Result<Machine, AllocError> {
    let bytes = code.to_vec(alloc)?;
    assert!(rt; bytes.len() <= 64);
    let image = Image {
        code_len: bytes.len() as u32,
        bytes,
        cs: LOAD_SEGMENT,
        ip: 0,
        ss: 0x0300,
        sp: 0x0100,
    };
    Machine::new(alloc, &image, cpu)
}

// The word registers by number.
fn registers(machine: &Machine) -> [u16; 8] {
    [
        machine.reg(Reg::Ax),
        machine.reg(Reg::Cx),
        machine.reg(Reg::Dx),
        machine.reg(Reg::Bx),
        machine.reg(Reg::Sp),
        machine.reg(Reg::Bp),
        machine.reg(Reg::Si),
        machine.reg(Reg::Di),
    ]
}

// The code, a number of steps, the word registers after them, IP, and the answer.
type Case<'a> = (&'a [u8], u64, [u16; 8], u16, Stepped);

// Runs the code on an empty input, by each processor; it must write nothing.
fn check_case(rt: &impl Abort, alloc: Global, case: Case) -> Result<(), Fail> {
    let (code, steps, regs, ip, answer) = case;
    for cpu in PROCESSORS {
        let mut machine = machine(rt, alloc, code, cpu)?;
        let mut input = MemSource::new(Vec::new(alloc), Vec::new(alloc), 1);
        let mut out = MemSink::new(alloc, Vec::new(alloc), 1);
        assert_eq!(rt;
            machine.run(&mut input, &mut out, steps),
            answer,
            "{code:?}"
        );
        assert_eq!(rt; (registers(&machine), machine.ip()), (regs, ip), "{code:?}");
        assert!(rt; out.taken().is_empty(), "{code:?}");
    }
    Ok(())
}

#[test]
fn sums_and_logic_give_registers_and_flags(rt: HostRuntime) -> Result<(), Fail> {
    let cases: [Case; 4] = [
        // A word sum that carries, and ADC.
        (
            b"\xB8\xFF\xFF\x05\x02\x00\x11\xC0\x8B\xD0\x19\xDB",
            5,
            [0x0003, 0, 0x0003, 0, 0x0100, 0, 0, 0],
            0x000C,
            Stepped::Running,
        ),
        // OR, AND, XOR and NOT.
        (
            b"\xB0\x0F\xB4\xF0\x08\xE0\x80\xE4\x3C\x34\xFF\xF7\xD0",
            6,
            [0xCFFF, 0, 0, 0, 0x0100, 0, 0, 0],
            0x000D,
            Stepped::Running,
        ),
        // A compare of bytes and a signed jump.
        (
            b"\xB0\x80\x3C\x01\x7C\x02\xB3\x01\xB7\x02",
            4,
            [0x0080, 0, 0, 0x0200, 0x0100, 0, 0, 0],
            0x000A,
            Stepped::Running,
        ),
        // NEG and SBB.
        (
            b"\xB8\x01\x00\xF7\xD8\x1B\xDB",
            3,
            [0xFFFF, 0, 0, 0xFFFF, 0x0100, 0, 0, 0],
            0x0007,
            Stepped::Running,
        ),
    ];
    for case in cases {
        check_case(&rt, rt.alloc(), case)?;
    }
    Ok(())
}

#[test]
fn shifts_and_rotations_go_past_the_width(rt: HostRuntime) -> Result<(), Fail> {
    let cases: [Case; 2] = [
        // Shifts by more than the width.
        (
            b"\xB8\x01\x80\xB1\x11\xD3\xF8\xBB\xFF\xFF\xD3\xE3\xD1\xEA",
            6,
            [0xFFFF, 0x0011, 0, 0, 0x0100, 0, 0, 0],
            0x000E,
            Stepped::Running,
        ),
        // Rotates through the carry.
        (
            b"\xF9\xB0\x01\xD0\xD0\xD0\xD8\xD1\xD0\xB1\x03\xD2\xC4\xD2\xCC",
            8,
            [0x0003, 0x0003, 0, 0, 0x0100, 0, 0, 0],
            0x000F,
            Stepped::Running,
        ),
    ];
    for case in cases {
        check_case(&rt, rt.alloc(), case)?;
    }
    Ok(())
}

#[test]
fn products_and_quotients_take_two_registers(rt: HostRuntime) -> Result<(), Fail> {
    let cases: [Case; 4] = [
        // A product in two words.
        (
            b"\xB8\x34\x12\xBB\x78\x56\xF7\xE3",
            3,
            [0x0060, 0, 0x0626, 0x5678, 0x0100, 0, 0, 0],
            0x0008,
            Stepped::Running,
        ),
        // A signed product of bytes.
        (
            b"\xB0\x80\xB3\xFF\xF6\xEB",
            3,
            [0x0080, 0, 0, 0x00FF, 0x0100, 0, 0, 0],
            0x0006,
            Stepped::Running,
        ),
        // A signed division rounds to 0.
        (
            b"\xB8\xF9\xFF\xB3\x02\xF6\xFB",
            3,
            [0xFFFD, 0, 0, 0x0002, 0x0100, 0, 0, 0],
            0x0007,
            Stepped::Running,
        ),
        // CBW, CWD.
        (
            b"\xB0\x80\x98\x99",
            3,
            [0xFF80, 0, 0xFFFF, 0, 0x0100, 0, 0, 0],
            0x0004,
            Stepped::Running,
        ),
    ];
    for case in cases {
        check_case(&rt, rt.alloc(), case)?;
    }
    Ok(())
}

#[test]
fn exchanges_swap_registers_and_memory(rt: HostRuntime) -> Result<(), Fail> {
    let cases: [Case; 2] = [
        // Exchanges.
        (
            b"\xB8\x02\x01\x86\xC4\xBB\x04\x03\x93",
            4,
            [0x0304, 0, 0, 0x0201, 0x0100, 0, 0, 0],
            0x0009,
            Stepped::Running,
        ),
        // An exchange with memory.
        (
            b"\xBB\x00\x02\xC7\x07\x34\x12\x87\x1F",
            3,
            [0, 0, 0, 0x1234, 0x0100, 0, 0, 0],
            0x0009,
            Stepped::Running,
        ),
    ];
    for case in cases {
        check_case(&rt, rt.alloc(), case)?;
    }
    Ok(())
}

#[test]
fn tables_are_read_at_an_index(rt: HostRuntime) -> Result<(), Fail> {
    let cases: [Case; 2] = [
        // A table of bytes.
        (
            b"\xBB\x00\x20\xB0\x05\xC6\x47\x05\x77\xD7",
            4,
            [0x0077, 0, 0, 0x2000, 0x0100, 0, 0, 0],
            0x000A,
            Stepped::Running,
        ),
        // A table jump.
        (
            b"\xBB\x02\x00\x2E\xFF\xA7\x10\x00\x00\x00\x00\x00\x00\x00\x00\x00\x00\x00\x34\x12",
            2,
            [0, 0, 0, 0x0002, 0x0100, 0, 0, 0],
            0x1234,
            Stepped::Running,
        ),
    ];
    for case in cases {
        check_case(&rt, rt.alloc(), case)?;
    }
    Ok(())
}

#[test]
fn the_stack_gives_back_what_was_pushed(rt: HostRuntime) -> Result<(), Fail> {
    let cases: [Case; 2] = [
        // A word that is popped into memory at the top.
        (
            b"\xB8\x34\x12\x50\x8B\xEC\xFF\x76\x00\x8F\x46\xFC\x8B\x56\xFC",
            7,
            [0x1234, 0, 0x1234, 0, 0x00FE, 0x00FE, 0, 0],
            0x0011,
            Stepped::Running,
        ),
        // A call and a return that removes a word.
        (
            b"\x50\xE8\x02\x00\xEB\x06\x8B\xEC\xC2\x02\x00\x90\x90\x90",
            5,
            [0, 0, 0, 0, 0x0100, 0x00FC, 0, 0],
            0x000C,
            Stepped::Running,
        ),
    ];
    for case in cases {
        check_case(&rt, rt.alloc(), case)?;
    }
    Ok(())
}

#[test]
fn jumps_follow_the_count_and_the_carry(rt: HostRuntime) -> Result<(), Fail> {
    let cases: [Case; 2] = [
        // LOOP forms.
        (
            b"\xB9\x03\x00\x40\xE2\xFD\xE3\x01\x90\x43\xB9\x02\x00\x85\xC0\xE0\xFB",
            16,
            [0x0003, 0x0001, 0, 0x0001, 0x0100, 0, 0, 0],
            0x0015,
            Stepped::Running,
        ),
        // CLC, CMC, STC.
        (
            b"\xF8\xF5\x73\x02\xB0\x01\xF9\xF5\x73\x02\xB4\x01",
            8,
            [0x0001, 0, 0, 0, 0x0100, 0, 0, 0],
            0x000E,
            Stepped::Running,
        ),
    ];
    for case in cases {
        check_case(&rt, rt.alloc(), case)?;
    }
    Ok(())
}

#[test]
fn addresses_wrap_in_their_segment(rt: HostRuntime) -> Result<(), Fail> {
    let cases: [Case; 3] = [
        // A word at the end of a segment.
        (
            b"\xBB\xFF\xFF\xC7\x07\x34\x12\x8A\x07\x8A\x26\x00\x00",
            4,
            [0x1234, 0, 0, 0xFFFF, 0x0100, 0, 0, 0],
            0x000D,
            Stepped::Running,
        ),
        // An address past 1 MiB.
        (
            b"\xB8\xFF\xFF\x8E\xD8\xC6\x06\x10\x00\x77\xB8\x00\x00\x8E\xD8\x8A\x0E\x00\x00",
            6,
            [0, 0x0077, 0, 0, 0x0100, 0, 0, 0],
            0x0013,
            Stepped::Running,
        ),
        // BP addresses the stack.
        (
            b"\xBD\x08\x00\xC7\x46\xF8\xCD\xAB\xBB\x08\x00\x8B\x47\xF8\x8B\x56\xF8",
            5,
            [0, 0, 0xABCD, 0x0008, 0x0100, 0x0008, 0, 0],
            0x0011,
            Stepped::Running,
        ),
    ];
    for case in cases {
        check_case(&rt, rt.alloc(), case)?;
    }
    Ok(())
}

#[test]
fn runs_end_at_faults_and_outside_the_table(rt: HostRuntime) -> Result<(), Fail> {
    let cases: [Case; 3] = [
        // A divide fault leaves all.
        (
            b"\xB8\x07\x00\xF9\xB1\x00\xF6\xF1",
            9,
            [0x0007, 0, 0, 0, 0x0100, 0, 0, 0],
            0x0006,
            Stepped::Divide,
        ),
        // No instruction of the table.
        (
            b"\x90\x0F",
            9,
            [0, 0, 0, 0, 0x0100, 0, 0, 0],
            0x0001,
            Stepped::Outside(1),
        ),
        // INT 21h with another number in AH than the five.
        (
            b"\xB4\x30\xCD\x21",
            9,
            [0x3000, 0, 0, 0, 0x0100, 0, 0, 0],
            0x0002,
            Stepped::Outside(2),
        ),
    ];
    for case in cases {
        check_case(&rt, rt.alloc(), case)?;
    }
    Ok(())
}

// Prints A and exits with 3, as a linker makes it: DS is set to a segment after the code first.
const PRINTS_A: [u8; 16] = [
    0xB8, 0x11, 0x01, 0x8E, 0xD8, 0xB2, 0x41, 0xB4, 0x02, 0xCD, 0x21, 0xB8, 0x03, 0x4C, 0xCD, 0x21,
];

// Takes two keys with an echo, and exits with the second.
const ECHOES_TWO: [u8; 12] = [
    0xB4, 0x01, 0xCD, 0x21, 0xB4, 0x01, 0xCD, 0x21, 0xB4, 0x4C, 0xCD, 0x21,
];

// Takes a key without an echo, and exits with it.
const TAKES_ONE: [u8; 8] = [0xB4, 0x08, 0xCD, 0x21, 0xB4, 0x4C, 0xCD, 0x21];

// Writes the string `hello` that stands after the code, and exits with AL, which is still that of DS.
const SAYS_HELLO: [u8; 22] = [
    0xB8, 0x10, 0x01, 0x8E, 0xD8, 0xBA, 0x10, 0x00, 0xB4, 0x09, 0xCD, 0x21, 0xB4, 0x4C, 0xCD, 0x21,
    b'h', b'e', b'l', b'l', b'o', b'$',
];

// Shifts 1 by 32 in CL, and exits with what is left of it.
const SHIFTS_BY_32: [u8; 16] = [
    0xB8, 0x11, 0x01, 0x8E, 0xD8, 0xB8, 0x01, 0x00, 0xB1, 0x20, 0xD3, 0xE0, 0xB4, 0x4C, 0xCD, 0x21,
];

// Calls a procedure that keeps a byte in a frame made by ENTER, writes it, and gives the frame up by LEAVE.
const KEEPS_A_BYTE: [u8; 30] = [
    0xB8, 0x12, 0x01, 0x8E, 0xD8, 0xE8, 0x05, 0x00, 0xB8, 0x00, 0x4C, 0xCD, 0x21, 0xC8, 0x02, 0x00,
    0x00, 0xC6, 0x46, 0xFE, 0x2A, 0x8A, 0x56, 0xFE, 0xB4, 0x02, 0xCD, 0x21, 0xC9, 0xC3,
];

// Exits with the product of BX and a constant.
const MULTIPLIES_BY_6: [u8; 15] = [
    0xB8, 0x11, 0x01, 0x8E, 0xD8, 0xBB, 0x07, 0x00, 0x6B, 0xC3, 0x06, 0xB4, 0x4C, 0xCD, 0x21,
];

#[test]
fn processors_differ_in_counts_and_in_instructions(rt: HostRuntime) -> Result<(), Fail> {
    let alloc = rt.alloc();
    for (code, cpu, answer, output) in [
        (SHIFTS_BY_32.as_slice(), Cpu::I8086, Stepped::Exit(0), ""),
        (SHIFTS_BY_32.as_slice(), Cpu::I186, Stepped::Exit(1), ""),
        (
            KEEPS_A_BYTE.as_slice(),
            Cpu::I8086,
            Stepped::Outside(0x0D),
            "",
        ),
        (KEEPS_A_BYTE.as_slice(), Cpu::I186, Stepped::Exit(0), "*"),
        (
            MULTIPLIES_BY_6.as_slice(),
            Cpu::I8086,
            Stepped::Outside(0x08),
            "",
        ),
        (MULTIPLIES_BY_6.as_slice(), Cpu::I186, Stepped::Exit(42), ""),
    ] {
        let mut machine = machine(&rt, alloc, code, cpu)?;
        let mut input = MemSource::new(Vec::new(alloc), Vec::new(alloc), 1);
        let mut out = MemSink::new(alloc, Vec::new(alloc), 1);
        assert_eq!(rt; machine.run(&mut input, &mut out, 100), answer, "{code:?}");
        assert_eq!(rt; out.taken().as_slice(), output.as_bytes(), "{code:?}");
    }
    Ok(())
}

#[test]
fn a_loaded_program_starts_with_its_registers_and_memory(rt: HostRuntime) -> Result<(), Fail> {
    let machine = machine(&rt, rt.alloc(), &PRINTS_A, Cpu::I8086)?;
    assert_eq!(rt; registers(&machine), [0, 0, 0, 0, 0x0100, 0, 0, 0]);
    assert_eq!(rt; machine.ip(), 0);
    for (at, byte) in [
        (0x10FF, 0),
        (0x1100, 0xB8),
        (0x110F, 0x21),
        (0x1110, 0),
        (0xF_FFFF, 0),
    ] {
        assert_eq!(rt; machine.byte(at), byte);
    }
    Ok(())
}

#[test]
fn calls_read_and_write(rt: HostRuntime) -> Result<(), Fail> {
    let alloc = rt.alloc();
    // The code, the input, the read and the write that fail, the answer, and the output.
    for (code, keys, read, write, answer, output) in [
        (PRINTS_A.as_slice(), "", 0, 0, Stepped::Exit(3), "A"),
        (PRINTS_A.as_slice(), "", 0, 1, Stepped::OutFault, ""),
        (ECHOES_TWO.as_slice(), "ab", 0, 0, Stepped::Exit(b'b'), "ab"),
        (ECHOES_TWO.as_slice(), "a", 0, 0, Stepped::Exit(26), "a"),
        (ECHOES_TWO.as_slice(), "", 0, 0, Stepped::Exit(26), ""),
        (ECHOES_TWO.as_slice(), "ab", 2, 0, Stepped::InFault, "a"),
        (ECHOES_TWO.as_slice(), "ab", 0, 2, Stepped::OutFault, "a"),
        (TAKES_ONE.as_slice(), "a", 0, 0, Stepped::Exit(b'a'), ""),
        (TAKES_ONE.as_slice(), "", 0, 0, Stepped::Exit(26), ""),
        (TAKES_ONE.as_slice(), "a", 1, 0, Stepped::InFault, ""),
        (
            SAYS_HELLO.as_slice(),
            "",
            0,
            0,
            Stepped::Exit(0x10),
            "hello",
        ),
        (SAYS_HELLO.as_slice(), "", 0, 3, Stepped::OutFault, "he"),
    ] {
        let mut machine = machine(&rt, alloc, code, Cpu::I8086)?;
        let mut input = MemSource::new(keys.as_bytes().to_vec(alloc)?, [read].to_vec(alloc)?, 1);
        let mut out = MemSink::new(alloc, [write].to_vec(alloc)?, 1);
        assert_eq!(rt; machine.run(&mut input, &mut out, 100), answer, "{code:?}");
        assert_eq!(rt; out.taken().as_slice(), output.as_bytes(), "{code:?}");
    }
    Ok(())
}

#[test]
fn a_refused_step_is_made_when_it_is_asked_for_again(rt: HostRuntime) -> Result<(), Fail> {
    let alloc = rt.alloc();
    let mut machine = machine(&rt, alloc, &ECHOES_TWO, Cpu::I8086)?;
    let mut input = MemSource::new(b"ab".to_vec(alloc)?, [1].to_vec(alloc)?, 1);
    let mut out = MemSink::new(alloc, [2].to_vec(alloc)?, 1);
    assert_eq!(rt; machine.run(&mut input, &mut out, 100), Stepped::InFault);
    assert_eq!(rt; (machine.reg(Reg::Ax), machine.ip()), (0x0100, 2));
    assert_eq!(rt; machine.run(&mut input, &mut out, 100), Stepped::OutFault);
    assert_eq!(rt; (machine.reg(Reg::Ax), machine.ip()), (0x0161, 6));
    // The key that was taken is gone, so the call comes to the end of the input.
    assert_eq!(rt; machine.run(&mut input, &mut out, 100), Stepped::Exit(26));
    assert_eq!(rt; machine.step(&mut input, &mut out), Stepped::Exit(26));
    assert_eq!(rt; machine.run(&mut input, &mut out, 0), Stepped::Exit(26));
    assert_eq!(rt; out.taken().as_slice(), b"a".as_slice());
    Ok(())
}

#[test]
fn a_string_without_an_end_has_the_bytes_of_a_whole_segment(rt: HostRuntime) -> Result<(), Fail> {
    let alloc = rt.alloc();
    // DS is 8000h and DX is FFFFh; the first byte of the segment is set to 7.
    let code = [
        0xB8, 0x00, 0x80, 0x8E, 0xD8, 0xC6, 0x06, 0x00, 0x00, 0x07, 0xBA, 0xFF, 0xFF, 0xB4, 0x09,
        0xCD, 0x21,
    ];
    let mut machine = machine(&rt, alloc, &code, Cpu::I8086)?;
    let mut input = MemSource::new(Vec::new(alloc), Vec::new(alloc), 1);
    let mut out = MemSink::new(alloc, Vec::new(alloc), 1);
    assert_eq!(rt; machine.run(&mut input, &mut out, 6), Stepped::Running);
    assert_eq!(rt; out.taken().len(), 65_536);
    assert_eq!(rt; out.taken().get(..3), Some([0, 7, 0].as_slice()));
    Ok(())
}
