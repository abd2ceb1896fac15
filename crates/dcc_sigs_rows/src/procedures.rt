//! Procedures that signatures tell.

use dcc_machine::Cpu;
use dcc_mz::load;
use dcc_pipe::analyse;
use dcc_sigs::{read_sigs, recognise};
use std::alloc::Global;
use std::process::Abort;
use std::test::Fail;

// The factorial of 7 by recursion: a procedure at the offset 11h, behind the one of the entry.
const FACTORIAL: &[u8] =
    b"MZ\x50\x00\x01\x00\x01\x00\x02\x00\x00\x00\xFF\xFF\x03\x00\x00\x01\x00\x00\x00\x00\x00\x00\x1C\x00\x00\x00\
    \x01\x00\x00\x00\xB8\x03\x00\x8E\xD8\xB8\x07\x00\x50\xE8\x05\x00\x59\xB4\x4C\xCD\x21\x55\x8B\xEC\x8B\x46\x04\
    \x3D\x01\x00\x7E\x09\x48\x50\xE8\xF0\xFF\x59\xF7\x66\x04\x5D\xC3\x00\x00\x00\x00\x00\x00\x00\x00\x00";

// The signatures tell these procedures of the file.
fn check_told(
    rt: &impl Abort,
    alloc: Global,
    file: &[u8],
    sigs: &[u8],
    told: &[(u16, &str)],
) -> Result<(), Fail> {
    let image = load(alloc, &file.to_vec(alloc)?)?;
    let program = analyse(alloc, &image, Cpu::I8086);
    let sigs = read_sigs(alloc, sigs);
    assert!(rt; program.is_ok() && sigs.is_ok());
    if let (Ok(program), Ok(sigs)) = (program, sigs) {
        let found = recognise(alloc, &image, &program, &sigs)?;
        assert_eq!(rt; found.len(), told.len());
        for (place, recognised) in found.iter().enumerate() {
            let (entry, name) = told[place];
            assert_eq!(rt; recognised.entry, entry);
            assert_eq!(rt; recognised.name.as_str(), name);
        }
    }
    Ok(())
}

#[test]
fn one_signature_tells_one_procedure(rt: HostRuntime) -> Result<(), Fail> {
    let alloc = rt.alloc();
    let fact = b"lib_fact 55 8B EC 8B 46 04 3D 01 00 7E ??\n";
    check_told(&rt, alloc, FACTORIAL, fact, &[(0x11, "lib_fact")])?;
    // The last byte of the code, and one byte more than the code has.
    check_told(
        &rt,
        alloc,
        FACTORIAL,
        b"lib_a 55 8B EC 8B 46 04 3D 01 00 7E 09 48 50 E8 F0 FF 59 F7 66 04 5D C3 00 00 00 00 00 00 00 00 00\n",
        &[(0x11, "lib_a")],
    )?;
    check_told(
        &rt,
        alloc,
        FACTORIAL,
        b"lib_a 55 8B EC 8B 46 04 3D 01 00 7E 09 48 50 E8 F0 FF 59 F7 66 04 5D C3 00 00 00 00 00 00 00 00 00 ??\n",
        &[],
    )
}

#[test]
fn several_signatures_tell_nothing(rt: HostRuntime) -> Result<(), Fail> {
    let alloc = rt.alloc();
    let both = b"lib_fact 55 8B EC 8B 46 04 3D 01 00 7E ??\nlib_any 55 8B EC\n";
    check_told(&rt, alloc, FACTORIAL, both, &[])
}

#[test]
fn the_entry_procedure_is_never_told(rt: HostRuntime) -> Result<(), Fail> {
    let alloc = rt.alloc();
    check_told(&rt, alloc, FACTORIAL, b"lib_start B8 07 00 50\n", &[])
}
