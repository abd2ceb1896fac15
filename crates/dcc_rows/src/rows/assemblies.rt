//! What `asm` makes of listings. The bytes, and which line offends first and how, come from a reference of encodings and
//! of spellings apart from this one.

use dcc_samples::files::{Faults, NO_FAULTS, answered};
use std::alloc::{AllocError, Global};
use std::test::Fail;

// The listing, the bytes, the status and the line on the error stream.
type Row = (&'static str, &'static [u8], u8, &'static str);

static ROWS: [Row; 11] = [
    // The listing of the program that prints A.
    (
        "; dcc list 1 8086 0110\n; prelude\n0000:\n    mov ax,0x0111\n    mov ds,ax\n\
        ; start nodes 5 args 0 ret 0\n0005:\n    mov dl,0x41\n    mov ah,0x02\n    int 0x21\n    mov ax,0x4C03\n    int 0x21\n",
        b"\xB8\x11\x01\x8E\xD8\xB2\x41\xB4\x02\xCD\x21\xB8\x03\x4C\xCD\x21",
        0,
        "",
    ),
    // An operation in another encoding than the standard one, and in the standard one.
    (
        "; dcc list 1 8086 0110\n    odd 29 C0 sub ax,ax\n    sub ax,ax\n",
        b"\x29\xC0\x2B\xC0",
        0,
        "",
    ),
    (
        "; dcc list 1 8086 0110\n    odd 2B C0 sub ax,ax\n",
        b"",
        25,
        "dcc: listing odd at line 2\n",
    ),
    // What the later processor alone has.
    (
        "; dcc list 1 186 0110\n    enter 0x0002\n",
        b"\xC8\x02\x00\x00",
        0,
        "",
    ),
    (
        "; dcc list 1 8086 0110\n    enter 0x0002\n",
        b"",
        25,
        "dcc: listing range at line 2\n",
    ),
    ("; dcc list 1 8086 0110\n", b"", 0, ""),
    ("", b"", 25, "dcc: listing head at line 1\n"),
    (
        "; dcc list 2 8086 0110\n    nop\n",
        b"",
        25,
        "dcc: listing head at line 1\n",
    ),
    (
        "; dcc list 1 8086 0110\n    nop\n    mov ax,5\n",
        b"",
        25,
        "dcc: listing word at line 3\n",
    ),
    // A line without its end.
    (
        "; dcc list 1 8086 0110\n    nop",
        b"",
        25,
        "dcc: listing word at line 2\n",
    ),
    // The first of two lines that offend.
    (
        "; dcc list 1 8086 0110\n    nop\n0002:\n    mov\n",
        b"",
        25,
        "dcc: listing place at line 3\n",
    ),
];

fn rows() -> &'static [Row] {
    &ROWS
}

#[test]
fn listings_are_assembled_or_refused(rt: HostRuntime) -> Result<(), Fail> {
    for (listing, bytes, status, line) in rows() {
        let given = answered(
            rt.alloc(),
            &["asm", "ROW1.EXE"],
            listing.as_bytes(),
            NO_FAULTS,
        )?;
        assert_eq!(rt; given.err.as_slice(), line.as_bytes(), "{listing}");
        assert_eq!(rt; given.out.as_slice(), *bytes, "{listing}");
        assert_eq!(rt; given.status, *status, "{listing}");
    }
    Ok(())
}

// A listing of so many lines of 16 bytes, and one of a byte.
fn lines_of_bytes(alloc: Global, count: u16) -> Result<String, AllocError> {
    let mut listing = String::from_str(alloc, "; dcc list 1 8086 0110\n")?;
    for _ in 0..count {
        listing.push_str("    db 00 00 00 00 00 00 00 00 00 00 00 00 00 00 00 00\n")?;
    }
    listing.push_str("    db 00\n")?;
    Ok(listing)
}

#[test]
fn an_image_of_too_many_bytes_is_told(rt: HostRuntime) -> Result<(), Fail> {
    let alloc = rt.alloc();
    let most = lines_of_bytes(alloc, 16_383)?;
    let given = answered(alloc, &["asm", "ROW1.EXE"], most.as_bytes(), NO_FAULTS)?;
    assert_eq!(rt; given.status, 0);
    assert_eq!(rt; given.out.len(), 262_129);
    let more = lines_of_bytes(alloc, 16_384)?;
    let given = answered(alloc, &["asm", "ROW1.EXE"], more.as_bytes(), NO_FAULTS)?;
    assert_eq!(rt;
        given.err.as_slice(),
        b"dcc: listing length at line 16386\n".as_slice()
    );
    assert_eq!(rt; given.status, 25);
    assert!(rt; given.out.is_empty());
    Ok(())
}

#[test]
fn a_write_that_fails_leaves_a_part_of_the_bytes(rt: HostRuntime) -> Result<(), Fail> {
    let second_write = Faults {
        out: 2,
        ..NO_FAULTS
    };
    let listing = b"; dcc list 1 8086 0110\n    db 00 01 02 03 04 05 06 07 08\n";
    let given = answered(rt.alloc(), &["asm", "ROW1.EXE"], listing, second_write)?;
    assert_eq!(rt; given.status, 6);
    assert_eq!(rt;
        given.out.as_slice(),
        b"\x00\x01\x02\x03\x04\x05\x06\x07".as_slice()
    );
    assert!(rt; given.err.is_empty());
    Ok(())
}
