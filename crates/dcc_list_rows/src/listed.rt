//! Listings of small programs, which are assembled to their images.

use dcc_asm::assemble;
use dcc_list::listing;
use dcc_machine::Cpu;
use dcc_mz::load;
use dcc_pipe::analyse;
use std::alloc::Global;
use std::process::Abort;
use std::test::Fail;

// The listing of the file's image is the text, which is assembled to the image's bytes.
fn check_listing(rt: &impl Abort, alloc: Global, file: &[u8], text: &[u8]) -> Result<(), Fail> {
    let image = load(alloc, &file.to_vec(alloc)?)?;
    let found = analyse(alloc, &image, Cpu::I8086);
    assert!(rt; found.is_ok());
    if let Ok(program) = found {
        let listed = listing(alloc, &image, &program)?;
        assert_eq!(rt; listed.as_slice(), text);
        let answer = assemble(alloc, &listed);
        assert!(rt; answer.is_ok());
        if let Ok(bytes) = answer {
            assert_eq!(rt; bytes.as_slice(), image.bytes.as_slice());
        }
    }
    Ok(())
}

#[test]
fn a_program_is_listed(rt: HostRuntime) -> Result<(), Fail> {
    check_listing(
        &rt,
        rt.alloc(),
        b"MZ\x30\x00\x01\x00\x01\x00\x02\x00\x00\x00\xFF\xFF\x01\x00\x00\x01\x00\x00\x00\x00\x00\x00\x1C\x00\x00\x00\
        \x01\x00\x00\x00\xB8\x01\x00\x8E\xD8\xB2\x41\xB4\x02\xCD\x21\xB8\x03\x4C\xCD\x21",
        b"; dcc list 1 8086 0110\n; prelude\n0000:\n    mov ax,0x0111\n    mov ds,ax\n; start nodes 5 args 0 ret 0\n\
        0005:\n    mov dl,0x41\n    mov ah,0x02\n    int 0x21\n    mov ax,0x4C03\n    int 0x21\n",
    )
}

#[test]
fn another_encoding_is_odd(rt: HostRuntime) -> Result<(), Fail> {
    check_listing(
        &rt,
        rt.alloc(),
        b"MZ\x30\x00\x01\x00\x01\x00\x02\x00\x00\x00\xFF\xFF\x01\x00\x00\x01\x00\x00\x00\x00\x00\x00\x1C\x00\x00\x00\
        \x01\x00\x00\x00\xB8\x01\x00\x8E\xD8\x29\xC0\xB4\x4C\xCD\x21\x00\x00\x00\x00\x00",
        b"; dcc list 1 8086 0110\n; prelude\n0000:\n    mov ax,0x0111\n    mov ds,ax\n; start nodes 3 args 0 ret 0\n\
        0005:\n    odd 29 C0 sub ax,ax\n    mov ah,0x4C\n    int 0x21\n    db 00 00 00 00 00\n",
    )
}

// Two procedures, of which the first calls the other in a loop, and data.
const TWO_PROCEDURES: &[u8] =
    b"MZ\x52\x00\x01\x00\x01\x00\x02\x00\x00\x00\xFF\xFF\x02\x00\x00\x01\x00\x00\x00\x00\x00\x00\x1C\x00\x00\x00\
    \x01\x00\x00\x00\xB8\x02\x00\x8E\xD8\xB9\x02\x00\x50\xE8\x09\x00\x58\xE2\xF9\xB8\x00\x4C\xCD\x21\x00\x55\x8B\xEC\
    \x8B\x46\x04\x5D\xC3\x00\x00\x00\x00\x01\x02\x03\x04\x05\x06\x07\x08\x09\x0A\x0B\x0C\x0D\x0E\x0F\x10\x11";

#[test]
fn procedures_jumps_and_data_have_labels(rt: HostRuntime) -> Result<(), Fail> {
    check_listing(
        &rt,
        rt.alloc(),
        TWO_PROCEDURES,
        b"; dcc list 1 8086 0110\n; prelude\n0000:\n    mov ax,0x0112\n    mov ds,ax\n; start nodes 7 args 0 ret 0\n\
        0005:\n    mov cx,0x0002\n0008:\n    push ax\n    call 0x0015\n    pop ax\n    loop 0x0008\n    mov ax,0x4C00\n\
        \x20   int 0x21\n    db 00\n; f_0015 nodes 5 args 1 ret 0\n0015:\n    push bp\n    mov bp,sp\n\
        \x20   mov ax,word [bp+0x0004]\n    pop bp\n    ret\n    db 00 00 00\n; data\n0020:\n\
        \x20   db 00 01 02 03 04 05 06 07 08 09 0A 0B 0C 0D 0E 0F\n    db 10 11\n",
    )
}

// A jump over the first byte of a MOV, into its constant, and one back to that byte.
const OVER_ONE_ANOTHER: &[u8] =
    b"MZ\x40\x00\x01\x00\x01\x00\x02\x00\x00\x00\xFF\xFF\x02\x00\x00\x01\x00\x00\x00\x00\x00\x00\x1C\x00\x00\x00\
    \x01\x00\x00\x00\xB8\x02\x00\x8E\xD8\xEB\x01\xB8\x90\x90\x75\xFB\xB8\x00\x4C\xCD\x21\x00\x00\x00\x00\x00\x00\x00\
    \x00\x00\x00\x00\x00\x00\x00\x00";

#[test]
fn what_begins_inside_an_instruction_has_no_line(rt: HostRuntime) -> Result<(), Fail> {
    check_listing(
        &rt,
        rt.alloc(),
        OVER_ONE_ANOTHER,
        b"; dcc list 1 8086 0110\n; prelude\n0000:\n    mov ax,0x0112\n    mov ds,ax\n; start nodes 7 args 0 ret 0\n\
        0005:\n    jmp 0x0008\n0007:\n    mov ax,0x9090\n    jnz 0x0007\n    mov ax,0x4C00\n    int 0x21\n\
        \x20   db 00 00 00 00 00 00 00 00 00 00 00 00 00 00 00\n",
    )
}
