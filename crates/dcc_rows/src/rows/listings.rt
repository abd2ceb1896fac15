//! What `procs` and `list` list of programs, and what refuses them there and for `c`. The lines come from a reference of
//! the analyses, of encodings and of spellings apart from this one.

use dcc_samples::files::{Faults, NO_FAULTS, PRINTS_A, answered, program};
use std::alloc::{AllocError, Global};
use std::test::Fail;

// A program after the instructions that set DS, the processor and the lines.
#[derive(Drop)]
struct ListRow {
    code: &'static [u8],
    cpu: &'static str,
    lines: &'static str,
}

static LISTS: [ListRow; 12] = [
    // Prints the address of a local at two depths of calls.
    ListRow {
        code: b"\xE8\x0A\x00\x50\xE8\x06\x00\x58\xB8\x00\x4C\xCD\x21\x55\x8B\xEC\x83\xEC\x02\x8D\x46\xFE\x8B\xD0\
            \xB4\x02\xCD\x21\x8A\xD6\xB4\x02\xCD\x21\x8B\xE5\x5D\xC3",
        cpu: "8086",
        lines: "0005 nodes 6 args 0 ret 0\n0012 nodes 13 args 0 ret 0\n",
    },
    // Fills a buffer of its caller, which writes it.
    ListRow {
        code: b"\xE8\x05\x00\xB8\x00\x4C\xCD\x21\x55\x8B\xEC\x83\xEC\x16\xC7\x46\xFE\x00\x00\x8D\x7E\xEA\xE8\x0B\
            \x00\x8D\x56\xEA\xB4\x09\xCD\x21\x8B\xE5\x5D\xC3\xB9\x04\x00\xC6\x05\x78\x47\xE2\xFA\xC6\x05\x24\xC3",
        cpu: "8086",
        lines: "0005 nodes 3 args 0 ret 0\n000D nodes 12 args 0 ret 0\n0029 nodes 6 args 0 ret 0\n",
    },
    // A recursive procedure with an argument, which its callers remove.
    ListRow {
        code: b"\xB8\x07\x00\x50\xE8\x05\x00\x59\xB4\x4C\xCD\x21\x55\x8B\xEC\x8B\x46\x04\x3D\x01\x00\x7E\x09\x48\
            \x50\xE8\xF0\xFF\x59\xF7\x66\x04\x5D\xC3",
        cpu: "8086",
        lines: "0005 nodes 6 args 0 ret 0\n0011 nodes 12 args 1 ret 0\n",
    },
    // An argument that the procedure's RET removes.
    ListRow {
        code: b"\xB8\x05\x00\x50\xE8\x05\x00\xB8\x00\x4C\xCD\x21\x55\x8B\xEC\x8B\x46\x04\x5D\xC2\x02\x00",
        cpu: "8086",
        lines: "0005 nodes 5 args 0 ret 0\n0011 nodes 5 args 1 ret 2\n",
    },
    // One word of which the procedure exposes the upper byte.
    ListRow {
        code: b"\xB8\x41\x42\x50\xE8\x08\x00\x58\xB8\x00\x4C\xCD\x21\x90\x90\x55\x8B\xEC\x8D\x5E\x05\x8A\x17\xB4\
            \x02\xCD\x21\x8A\x56\x04\xB4\x02\xCD\x21\x5D\xC3",
        cpu: "8086",
        lines: "0005 nodes 6 args 0 ret 0\n0014 nodes 11 args 1 ret 0\n",
    },
    // A division by 0, and a jump through a table of four words.
    ListRow {
        code: b"\xB8\x01\x00\xBB\x00\x00\x99\xF7\xFB\xB8\x00\x4C\xCD\x21",
        cpu: "8086",
        lines: "0005 nodes 6 args 0 ret 0\n",
    },
    ListRow {
        code: b"\xBB\x00\x00\x83\xFB\x03\x77\x19\xD1\xE3\x2E\xFF\xA7\x2A\x00\xB0\x01\xEB\x0A\xB0\x02\xEB\x06\xB0\
            \x03\xEB\x02\xB0\x04\xB4\x4C\xCD\x21\xB0\x09\xEB\xF8\x14\x00\x18\x00\x1C\x00\x20\x00",
        cpu: "8086",
        lines: "0005 nodes 16 args 0 ret 0\n",
    },
    // SP lowered by the sum with a number below 0, by DEC, and by LEA; and an address of the frame taken from BP.
    ListRow {
        code: b"\xE8\x05\x00\xB8\x00\x4C\xCD\x21\x55\x8B\xEC\x83\xC4\xFE\xC6\x46\xFE\x41\x8A\x56\xFE\xB4\x02\xCD\
            \x21\x8B\xE5\x5D\xC3",
        cpu: "8086",
        lines: "0005 nodes 3 args 0 ret 0\n000D nodes 10 args 0 ret 0\n",
    },
    ListRow {
        code: b"\xE8\x05\x00\xB8\x00\x4C\xCD\x21\x55\x8B\xEC\x4C\x4C\x90\xC6\x46\xFE\x41\x8A\x56\xFE\xB4\x02\xCD\
            \x21\x8B\xE5\x5D\xC3",
        cpu: "8086",
        lines: "0005 nodes 3 args 0 ret 0\n000D nodes 12 args 0 ret 0\n",
    },
    ListRow {
        code: b"\xE8\x05\x00\xB8\x00\x4C\xCD\x21\x55\x8B\xEC\x8D\x66\xFE\xC6\x46\xFE\x41\x8A\x56\xFE\xB4\x02\xCD\
            \x21\x8B\xE5\x5D\xC3",
        cpu: "8086",
        lines: "0005 nodes 3 args 0 ret 0\n000D nodes 10 args 0 ret 0\n",
    },
    ListRow {
        code: b"\xE8\x05\x00\xB8\x00\x4C\xCD\x21\x55\x8B\xEC\x83\xEC\x02\x8B\xDD\x4B\xC6\x07\x42\x8A\x17\xB4\x02\
            \xCD\x21\x8B\xE5\x5D\xC3",
        cpu: "8086",
        lines: "0005 nodes 3 args 0 ret 0\n000D nodes 12 args 0 ret 0\n",
    },
    // A frame by ENTER and LEAVE.
    ListRow {
        code: b"\xE8\x05\x00\xB8\x00\x4C\xCD\x21\xC8\x02\x00\x00\xC6\x46\xFE\x2A\x8A\x56\xFE\xB4\x02\xCD\x21\xC9\
            \xC3",
        cpu: "186",
        lines: "0005 nodes 3 args 0 ret 0\n000D nodes 7 args 0 ret 0\n",
    },
];

fn lists() -> &'static [ListRow] {
    &LISTS
}

#[test]
fn procedures_are_listed_and_have_a_text(rt: HostRuntime) -> Result<(), Fail> {
    let alloc = rt.alloc();
    for row in lists() {
        let file = program(alloc, row.code)?;
        let given = answered(
            alloc,
            &["procs", "ROW1.EXE", "--cpu", row.cpu],
            &file,
            NO_FAULTS,
        )?;
        assert_eq!(rt; given.out.as_slice(), row.lines.as_bytes(), "{}", row.lines);
        assert!(rt; given.err.is_empty(), "{}", row.lines);
        assert_eq!(rt; given.status, 0, "{}", row.lines);
        let text = answered(
            alloc,
            &["c", "ROW1.EXE", "--cpu", row.cpu],
            &file,
            NO_FAULTS,
        )?;
        assert_eq!(rt; text.err.as_slice(), b"".as_slice(), "{}", row.lines);
        assert_eq!(rt; text.status, 0, "{}", row.lines);
    }
    Ok(())
}

// The listing of the program that prints A.
const PRINTS_A_LISTING: &str =
    "; dcc list 1 8086 0110\n; prelude\n0000:\n    mov ax,0x0111\n    mov ds,ax\n\
    ; start nodes 5 args 0 ret 0\n0005:\n    mov dl,0x41\n    mov ah,0x02\n    int 0x21\n    mov ax,0x4C03\n    int 0x21\n";

// An instruction in another encoding than the standard one, and bytes that no instruction has.
const ODD_CODE: &[u8] = b"\x29\xC0\xB4\x4C\xCD\x21";

const ODD_LISTING: &str =
    "; dcc list 1 8086 0110\n; prelude\n0000:\n    mov ax,0x0111\n    mov ds,ax\n\
    ; start nodes 3 args 0 ret 0\n0005:\n    odd 29 C0 sub ax,ax\n    mov ah,0x4C\n    int 0x21\n    db 00 00 00 00 00\n";

#[test]
fn images_are_listed_in_words(rt: HostRuntime) -> Result<(), Fail> {
    let alloc = rt.alloc();
    let files = [
        (PRINTS_A.as_slice().to_vec(alloc)?, PRINTS_A_LISTING),
        (program(alloc, ODD_CODE)?, ODD_LISTING),
    ];
    for (file, listing) in &files {
        let given = answered(alloc, &["list", "ROW1.EXE"], file, NO_FAULTS)?;
        assert_eq!(rt; given.err.as_slice(), b"".as_slice(), "{listing}");
        assert_eq!(rt; given.out.as_slice(), listing.as_bytes(), "{listing}");
        assert_eq!(rt; given.status, 0, "{listing}");
    }
    Ok(())
}

// The code after the instructions that set DS, the status and the line.
type RefusalRow = (&'static [u8], u8, &'static str);

static REFUSALS: [RefusalRow; 15] = [
    // SP or BP in a form that no frame has.
    (
        b"\xBD\x05\x00\xB8\x00\x4C\xCD\x21",
        9,
        "dcc: construct 2 at 0005\n",
    ),
    // An indirect call; INT 21h where AH is not known; a return from the entry procedure.
    (b"\xFF\x17", 9, "dcc: construct 4 at 0005\n"),
    (
        b"\x8A\x26\x00\x00\xCD\x21\xB8\x00\x4C\xCD\x21",
        9,
        "dcc: construct 5 at 0009\n",
    ),
    (b"\xC3", 9, "dcc: construct 11 at 0005\n"),
    // A program that takes its own address; a push on one arm.
    (
        b"\xE8\x00\x00\x58\xB8\x00\x4C\xCD\x21",
        9,
        "dcc: construct 6 at 0008\n",
    ),
    (
        b"\x3D\x00\x00\x74\x01\x50\xEB\xFE",
        9,
        "dcc: construct 6 at 000B\n",
    ),
    // SP above its value at the entry by the difference with a number below 0, and by INC; and in the saved BP.
    (b"\x50\x83\xEC\xFC\xEB\xFE", 9, "dcc: construct 6 at 0006\n"),
    (b"\x44\xEB\xFE", 9, "dcc: construct 6 at 0005\n"),
    (b"\x55\x8B\xEC\x44\xEB\xFE", 9, "dcc: construct 6 at 0008\n"),
    // The frame of a procedure accessed at its return address; and too few bytes for two arguments.
    (
        b"\xE8\x05\x00\xB8\x00\x4C\xCD\x21\x55\x8B\xEC\x8B\x46\x02\x5D\xC3",
        9,
        "dcc: construct 7 at 0010\n",
    ),
    (
        b"\x50\xE8\x05\x00\xB8\x00\x4C\xCD\x21\x55\x8B\xEC\x8B\x46\x06\x5D\xC3",
        9,
        "dcc: construct 8 at 0006\n",
    ),
    // A division whose upper half is not prepared.
    (
        b"\xB8\x01\x00\xBB\x00\x00\xF7\xFB\xB8\x00\x4C\xCD\x21",
        9,
        "dcc: construct 12 at 000B\n",
    ),
    // A table of 257 words.
    (
        b"\x81\xFB\x00\x01\x77\x07\xD1\xE3\x2E\xFF\xA7\x00\x00\xB8\x00\x4C\xCD\x21",
        10,
        "dcc: limit entries 257\n",
    ),
    // What the later processor alone has: ENTER, and a product of three operands.
    (
        b"\xE8\x05\x00\xB8\x00\x4C\xCD\x21\xC8\x02\x00\x00\xC6\x46\xFE\x2A\x8A\x56\xFE\xB4\x02\xCD\x21\xC9\xC3",
        9,
        "dcc: construct 2 at 000D\n",
    ),
    (
        b"\xBB\x07\x00\x6B\xC3\x06\xB4\x4C\xCD\x21",
        9,
        "dcc: construct 2 at 0008\n",
    ),
];

fn refusals() -> &'static [RefusalRow] {
    &REFUSALS
}

#[test]
fn what_refuses_the_list_refuses_the_text(rt: HostRuntime) -> Result<(), Fail> {
    let alloc = rt.alloc();
    for (code, status, line) in refusals() {
        let file = program(alloc, code)?;
        for command in ["procs", "list", "c"] {
            let given = answered(alloc, &[command, "ROW1.EXE"], &file, NO_FAULTS)?;
            assert_eq!(rt; given.err.as_slice(), line.as_bytes(), "{command}: {line}");
            assert_eq!(rt; given.status, *status, "{command}: {line}");
            assert!(rt; given.out.is_empty(), "{command}: {line}");
        }
    }
    Ok(())
}

// A call of a procedure, which stores a byte into each of so many bytes of its frame.
fn stores_below_bp(alloc: Global, count: u16) -> Result<Vec<u8>, AllocError> {
    let mut code = b"\xE8\x05\x00\xB8\x00\x4C\xCD\x21\x55\x8B\xEC\x81\xEC\x04\x02".to_vec(alloc)?;
    for number in 0..count {
        let [low, high] = (0xFFFF - number).to_le_bytes();
        code.extend_from_slice(&[0xC6, 0x86, low, high, 0x41])?;
    }
    code.extend_from_slice(b"\x8B\xE5\x5D\xC3")?;
    Ok(code)
}

#[test]
fn a_frame_of_too_many_cells_is_told(rt: HostRuntime) -> Result<(), Fail> {
    let alloc = rt.alloc();
    let most = program(alloc, &stores_below_bp(alloc, 512)?)?;
    let given = answered(alloc, &["procs", "ROW1.EXE"], &most, NO_FAULTS)?;
    assert_eq!(rt; given.status, 0);
    let more = program(alloc, &stores_below_bp(alloc, 513)?)?;
    let given = answered(alloc, &["procs", "ROW1.EXE"], &more, NO_FAULTS)?;
    assert_eq!(rt; given.err.as_slice(), b"dcc: limit cells 513\n".as_slice());
    assert_eq!(rt; given.status, 10);
    Ok(())
}

#[test]
fn a_program_without_a_layout_has_no_list(rt: HostRuntime) -> Result<(), Fail> {
    let alloc = rt.alloc();
    let file =
        b"MZ\x25\x00\x01\x00\x00\x00\x02\x00\x00\x00\xFF\xFF\x01\x00\x00\x01\x00\x00\x00\x00\x00\
            \x00\x1C\x00\x00\x00\x00\x00\x00\x00\xB8\x00\x4C\xCD\x21";
    let given = answered(alloc, &["procs", "ROW1.EXE"], file, NO_FAULTS)?;
    assert_eq!(rt;
        given.err.as_slice(),
        b"dcc: construct 1 at 0000\n".as_slice()
    );
    assert_eq!(rt; given.status, 9);
    Ok(())
}

#[test]
fn a_write_that_fails_leaves_a_part_of_the_list(rt: HostRuntime) -> Result<(), Fail> {
    let alloc = rt.alloc();
    let file = program(alloc, b"\xB8\x00\x4C\xCD\x21")?;
    let second_write = Faults {
        out: 2,
        ..NO_FAULTS
    };
    let given = answered(alloc, &["procs", "ROW1.EXE"], &file, second_write)?;
    assert_eq!(rt; given.status, 6);
    assert_eq!(rt; given.out.as_slice(), b"0005 nod".as_slice());
    assert!(rt; given.err.is_empty());
    Ok(())
}
