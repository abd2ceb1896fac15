//! Texts that are assembled, and texts in which a line offends.

use dcc_asm::{ListFault, ListKind, assemble};
use std::alloc::Global;
use std::process::Abort;
use std::test::Fail;

// The text is assembled to these bytes.
fn check_bytes(rt: &impl Abort, alloc: Global, text: &[u8], bytes: &[u8]) -> Result<(), Fail> {
    let answer = assemble(alloc, &text.to_vec(alloc)?);
    assert!(rt; answer.is_ok());
    if let Ok(made) = answer {
        assert_eq!(rt; made.as_slice(), bytes);
    }
    Ok(())
}

// This line of the text offends first, and so.
fn check_fault(
    rt: &impl Abort,
    alloc: Global,
    text: &[u8],
    line: u32,
    kind: ListKind,
) -> Result<(), Fail> {
    let answer = assemble(alloc, &text.to_vec(alloc)?);
    assert!(rt; answer.is_err());
    if let Err(fault) = answer {
        assert_eq!(rt; fault, ListFault::At { line, kind });
    }
    Ok(())
}

#[test]
fn lines_give_bytes(rt: HostRuntime) -> Result<(), Fail> {
    let alloc = rt.alloc();
    check_bytes(&rt, alloc, b"; dcc list 1 8086 0110\n", b"")?;
    check_bytes(
        &rt,
        alloc,
        b"; dcc list 1 8086 0110\n; prelude\n0000:\n    mov ax,0x0111\n    mov ds,ax\n; start nodes 5 args 0 ret 0\n\
        0005:\n    mov dl,0x41\n    mov ah,0x02\n    int 0x21\n    mov ax,0x4C03\n    int 0x21\n",
        &[
            0xB8, 0x11, 0x01, 0x8E, 0xD8, 0xB2, 0x41, 0xB4, 0x02, 0xCD, 0x21, 0xB8, 0x03, 0x4C,
            0xCD, 0x21,
        ],
    )?;
    check_bytes(
        &rt,
        alloc,
        b"; dcc list 1 186 0110\n; words\n    push 0x0001\n0002:\n    db 00 FF\n\
        \x20   odd 68 02 00 push 0x0002\n    leave\n",
        &[0x6A, 0x01, 0x00, 0xFF, 0x68, 0x02, 0x00, 0xC9],
    )?;
    check_bytes(
        &rt,
        alloc,
        b"; dcc list 1 8086 0110\n    mov word [bx+si+0x0012],0x0003\n    lea ax,[bp]\n    jmp cs:[bx+0x0000]\n\
        \x20   imul al\n    jz 0x000D\n    ret 0x0002\n",
        &[
            0xC7, 0x40, 0x12, 0x03, 0x00, 0x8D, 0x46, 0x00, 0x2E, 0xFF, 0xA7, 0x00, 0x00, 0xF6,
            0xE8, 0x74, 0xFC, 0xC2, 0x02, 0x00,
        ],
    )
}

#[test]
fn offsets_count_from_the_code_segment(rt: HostRuntime) -> Result<(), Fail> {
    let alloc = rt.alloc();
    check_bytes(
        &rt,
        alloc,
        b"; dcc list 1 8086 0111\n    db 00 00 00 00 00 00 00 00 00 00 00 00 00 00 00 00\n0000:\n    jmp 0x0000\n",
        &[0, 0, 0, 0, 0, 0, 0, 0, 0, 0, 0, 0, 0, 0, 0, 0, 0xEB, 0xFE],
    )
}

// A text, the line that offends first, and how it does.
type FaultRow = (&'static [u8], u32, ListKind);

static FAULTS: [FaultRow; 16] = [
    (b"", 1, ListKind::Head),
    (b"; dcc list 1 8086 0110", 1, ListKind::Head),
    (b"; dcc list 1 8087 0110\n", 1, ListKind::Head),
    (b"; dcc list 1 8086 011a\n", 1, ListKind::Head),
    (
        b"; dcc list 1 8086 0110\n    nop ; words\n    none\n",
        2,
        ListKind::Word,
    ),
    (
        b"; dcc list 1 8086 0110\n    nop\n    nop",
        3,
        ListKind::Word,
    ),
    (
        b"; dcc list 1 8086 0110\n    add 0x0001,ax\n",
        2,
        ListKind::Word,
    ),
    (b"; dcc list 1 8086 0110\n    db\n", 2, ListKind::Word),
    (
        b"; dcc list 1 8086 0110\n    odd sub ax,ax\n",
        2,
        ListKind::Word,
    ),
    (
        b"; dcc list 1 8086 0110\n    push 0x0001\n",
        2,
        ListKind::Range,
    ),
    (
        b"; dcc list 1 8086 0110\n    jz 0x0200\n",
        2,
        ListKind::Range,
    ),
    (b"; dcc list 1 8086 0111\n    nop\n", 2, ListKind::Range),
    (
        b"; dcc list 1 8086 0110\n    odd 2B C0 sub ax,ax\n",
        2,
        ListKind::Odd,
    ),
    (
        b"; dcc list 1 8086 0110\n    odd 29 C1 sub ax,ax\n",
        2,
        ListKind::Odd,
    ),
    (
        b"; dcc list 1 8086 0110\n    nop\n0002:\n",
        3,
        ListKind::Place,
    ),
    (
        b"; dcc list 1 8086 0110\n0000:\n    push ax\n0004:\n    pop ax\n    loop 0x0004\n0007:\n",
        4,
        ListKind::Place,
    ),
];

fn faults() -> &'static [FaultRow] {
    &FAULTS
}

#[test]
fn the_first_fault_is_told(rt: HostRuntime) -> Result<(), Fail> {
    for (text, line, kind) in faults() {
        check_fault(&rt, rt.alloc(), text, *line, *kind)?;
    }
    Ok(())
}

#[test]
fn an_image_is_not_too_long(rt: HostRuntime) -> Result<(), Fail> {
    let alloc = rt.alloc();
    let line = b"    db 00 00 00 00 00 00 00 00 00 00 00 00 00 00 00 00\n";
    let mut text = b"; dcc list 1 8086 0110\n".to_vec(alloc)?;
    for _line in 0..16384 {
        text.extend_from_slice(line)?;
    }
    let answer = assemble(alloc, &text);
    assert!(rt; answer.is_ok_and(|bytes| bytes.len() == 262_144));
    text.extend_from_slice(b"; words\n    db 00\n")?;
    let fault = ListFault::At {
        line: 16387,
        kind: ListKind::Length,
    };
    assert!(rt; assemble(alloc, &text).is_err_and(|told| told == fault));
    Ok(())
}
