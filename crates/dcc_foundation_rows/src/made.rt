//! Files of programs that are made at random.

use dcc_gen::make;
use std::alloc::Global;
use std::test::Fail;

// What the bytes of a file make up, each added to 31 times what those before it make up, modulo 2 to the 32.
fn digest(bytes: &[u8]) -> u32 {
    let mut sum: u32 = 0;
    for byte in bytes {
        sum = sum.wrapping_mul(31).wrapping_add(u32::from(*byte));
    }
    sum
}

// A seed, a size, and the length and the digest of the file.
type Row = (u64, u16, usize, u32);

static ROWS: [Row; 5] = [
    (0, 1, 720, 108_278_652),
    (7, 400, 2_128, 3_761_120_973),
    (1, 1_000, 4_208, 1_290_405_311),
    (u64::MAX, 1_000, 4_240, 2_993_859_676),
    (123_456_789, 999, 4_176, 2_587_005_328),
];

// The header of the first row's file, and its code up to the first procedure: the calls of all eight, the one piece,
// which calls procedure 0, and the exit.
const FIRST_BYTES: &[u8] = b"MZ\xD0\x00\x02\x00\x01\x00\x02\x00\x00\x00\xFF\xFF\x2B\x00\x00\x02\
    \x00\x00\x00\x00\x00\x00\x1C\x00\x00\x00\x01\x00\x00\x00\xB8\x23\x00\x8E\xD8\
    \x50\xE8\x2E\x00\x59\x50\xE8\x63\x00\x59\x50\xE8\xA2\x00\x59\x50\xE8\xDE\x00\x59\
    \x50\xE8\x1D\x01\x59\x50\xE8\x51\x01\x59\x50\xE8\x90\x01\x59\x50\xE8\xBE\x01\x59\
    \x50\xE8\x06\x00\x59\xB8\x00\x4C\xCD\x21\x55\x8B\xEC";

#[test]
fn files_are_those_of_the_reference(rt: HostRuntime) -> Result<(), Fail> {
    let alloc = rt.alloc();
    for (seed, size, length, sum) in ROWS {
        if size < 1 || size > 1_000 {
            continue;
        }
        let file = make(alloc, seed, size)?;
        assert_eq!(rt; file.len(), length, "seed {seed}, size {size}");
        assert_eq!(rt; digest(&file), sum, "seed {seed}, size {size}");
    }
    Ok(())
}

#[test]
fn a_file_begins_as_the_reference_has_it(rt: HostRuntime) -> Result<(), Fail> {
    let file = make(rt.alloc(), 0, 1)?;
    assert!(rt; file.as_slice().starts_with(FIRST_BYTES));
    Ok(())
}
