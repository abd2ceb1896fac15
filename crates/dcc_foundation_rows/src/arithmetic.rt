//! Rows of the operations at the corners of their widths.

ghost use Rattle.std.specs.Prelude.{◌<◌, ◌↔◌, IsTrue};
ghost use Rattle.dcc_num.specs.Numbers.{limit_of};

use Operation::*;
use dcc_num::Width::{Byte, Word};
use dcc_num::{
    Flags, Width, add, and, dec, div, idiv, imul, inc, mul, neg, or, rcl1, rcr1, rol, ror, sar,
    shl, shr, sign8, sub, xor,
};

// An operation on one or two operands that gives a result and flags.
#[derive(Clone, Copy)]
enum Operation {
    Add,
    Sub,
    And,
    Or,
    Xor,
    Neg,
    Inc,
    Dec,
    Shl,
    Shr,
    Sar,
    Rol,
    Ror,
    Rcl1,
    Rcr1,
}

// An operation, its width, its operands, the carry before it, its result, and the flags that are then set.
type Row = (Operation, Width, u16, u16, bool, u16, &'static [u8; 4]);

static ROWS: [Row; 97] = [
    (Add, Byte, 0x00, 0x00, false, 0x00, b"-z--"),
    (Add, Byte, 0x00, 0x01, false, 0x01, b"----"),
    (Add, Byte, 0x00, 0x80, false, 0x80, b"--s-"),
    (Add, Byte, 0x01, 0x7F, false, 0x80, b"--so"),
    (Add, Byte, 0x01, 0xFF, false, 0x00, b"cz--"),
    (Add, Byte, 0x7F, 0xFF, false, 0x7E, b"c---"),
    (Add, Byte, 0x80, 0x80, false, 0x00, b"cz-o"),
    (Add, Byte, 0x80, 0xFF, false, 0x7F, b"c--o"),
    (Add, Byte, 0xFF, 0xFF, false, 0xFE, b"c-s-"),
    (Add, Word, 0x0000, 0x0000, true, 0x0001, b"----"),
    (Add, Word, 0x0000, 0x7FFF, true, 0x8000, b"--so"),
    (Add, Word, 0x0000, 0x8000, true, 0x8001, b"--s-"),
    (Add, Word, 0x0000, 0xFFFF, true, 0x0000, b"cz--"),
    (Add, Word, 0x0001, 0xFFFF, true, 0x0001, b"c---"),
    (Add, Word, 0x8000, 0x8000, true, 0x0001, b"c--o"),
    (Add, Word, 0x8000, 0xFFFF, true, 0x8000, b"c-s-"),
    (Sub, Byte, 0x00, 0x00, false, 0x00, b"-z--"),
    (Sub, Byte, 0x00, 0x01, false, 0xFF, b"c-s-"),
    (Sub, Byte, 0x00, 0x80, false, 0x80, b"c-so"),
    (Sub, Byte, 0x00, 0xFF, false, 0x01, b"c---"),
    (Sub, Byte, 0x01, 0x00, false, 0x01, b"----"),
    (Sub, Byte, 0x80, 0x00, false, 0x80, b"--s-"),
    (Sub, Byte, 0x80, 0x01, false, 0x7F, b"---o"),
    (Sub, Byte, 0x00, 0xFF, true, 0x00, b"cz--"),
    (Sub, Byte, 0x80, 0x7F, true, 0x00, b"-z-o"),
    (Sub, Word, 0x0000, 0x0000, true, 0xFFFF, b"c-s-"),
    (Sub, Word, 0x0000, 0x8000, true, 0x7FFF, b"c---"),
    (Sub, Word, 0x0001, 0x0000, true, 0x0000, b"-z--"),
    (Sub, Word, 0x0001, 0x8000, true, 0x8000, b"c-so"),
    (Sub, Word, 0x007F, 0x0000, true, 0x007E, b"----"),
    (Sub, Word, 0x8000, 0x0000, true, 0x7FFF, b"---o"),
    (Sub, Word, 0xFFFF, 0x0000, true, 0xFFFE, b"--s-"),
    (And, Byte, 0x55, 0xAA, true, 0x00, b"-z--"),
    (And, Byte, 0x81, 0xC1, true, 0x81, b"--s-"),
    (And, Byte, 0x7F, 0x3C, true, 0x3C, b"----"),
    (Or, Byte, 0x55, 0xAA, true, 0xFF, b"--s-"),
    (Or, Byte, 0x7F, 0x3C, true, 0x7F, b"----"),
    (Xor, Byte, 0x55, 0xAA, true, 0xFF, b"--s-"),
    (Xor, Byte, 0x81, 0xC1, true, 0x40, b"----"),
    (Neg, Byte, 0x00, 0x00, false, 0x00, b"-z--"),
    (Neg, Byte, 0x01, 0x00, false, 0xFF, b"c-s-"),
    (Neg, Byte, 0x80, 0x00, false, 0x80, b"c-so"),
    (Neg, Byte, 0xFF, 0x00, false, 0x01, b"c---"),
    (Inc, Byte, 0x00, 0x00, false, 0x01, b"----"),
    (Inc, Byte, 0x7F, 0x00, true, 0x80, b"c-so"),
    (Inc, Byte, 0x80, 0x00, false, 0x81, b"--s-"),
    (Inc, Byte, 0xFF, 0x00, false, 0x00, b"-z--"),
    (Inc, Byte, 0x01, 0x00, true, 0x02, b"c---"),
    (Inc, Word, 0x7FFF, 0x0000, false, 0x8000, b"--so"),
    (Inc, Word, 0x8000, 0x0000, true, 0x8001, b"c-s-"),
    (Dec, Byte, 0x00, 0x00, false, 0xFF, b"--s-"),
    (Dec, Byte, 0x7F, 0x00, true, 0x7E, b"c---"),
    (Dec, Byte, 0x80, 0x00, false, 0x7F, b"---o"),
    (Dec, Byte, 0x01, 0x00, true, 0x00, b"cz--"),
    (Dec, Word, 0x0000, 0x0000, true, 0xFFFF, b"c-s-"),
    (Dec, Word, 0x7FFF, 0x0000, false, 0x7FFE, b"----"),
    (Dec, Word, 0x8000, 0x0000, true, 0x7FFF, b"c--o"),
    (Shl, Byte, 0x81, 0, false, 0x81, b"-zso"),
    (Shl, Byte, 0x81, 1, false, 0x02, b"c--o"),
    (Shl, Byte, 0x7F, 1, false, 0xFE, b"--so"),
    (Shl, Byte, 0x81, 7, false, 0x80, b"--s-"),
    (Shl, Byte, 0x81, 8, false, 0x00, b"cz--"),
    (Shl, Byte, 0x81, 9, false, 0x00, b"-z--"),
    (Shr, Byte, 0x81, 0, false, 0x81, b"-zso"),
    (Shr, Byte, 0x81, 1, false, 0x40, b"c--o"),
    (Shr, Byte, 0x81, 7, false, 0x01, b"----"),
    (Shr, Byte, 0x81, 8, false, 0x00, b"cz--"),
    (Shr, Byte, 0x81, 9, false, 0x00, b"-z--"),
    (Shr, Byte, 0x00, 1, true, 0x00, b"-z--"),
    (Sar, Byte, 0x81, 0, false, 0x81, b"-zso"),
    (Sar, Byte, 0x81, 1, false, 0xC0, b"c-s-"),
    (Sar, Byte, 0x81, 7, false, 0xFF, b"--s-"),
    (Sar, Byte, 0x81, 8, false, 0xFF, b"c-s-"),
    (Sar, Byte, 0x81, 9, false, 0xFF, b"c-s-"),
    (Sar, Byte, 0x00, 1, true, 0x00, b"-z--"),
    (Rol, Byte, 0x81, 0, false, 0x81, b"-zso"),
    (Rol, Byte, 0x81, 1, false, 0x03, b"czso"),
    (Rol, Byte, 0x7F, 1, false, 0xFE, b"-zso"),
    (Rol, Byte, 0x81, 7, false, 0xC0, b"-zs-"),
    (Rol, Byte, 0x81, 8, false, 0x81, b"czs-"),
    (Rol, Byte, 0x81, 9, false, 0x03, b"czs-"),
    (Rol, Byte, 0x81, 255, false, 0xC0, b"-zs-"),
    (Ror, Byte, 0x81, 0, false, 0x81, b"-zso"),
    (Ror, Byte, 0x81, 1, false, 0xC0, b"czs-"),
    (Ror, Byte, 0x81, 7, false, 0x03, b"-zs-"),
    (Ror, Byte, 0x81, 8, false, 0x81, b"czs-"),
    (Ror, Byte, 0x81, 9, false, 0xC0, b"czs-"),
    (Ror, Byte, 0x81, 255, false, 0x03, b"-zs-"),
    (Ror, Byte, 0x00, 1, true, 0x00, b"-zs-"),
    (Rcl1, Byte, 0x7F, 0x00, false, 0xFE, b"-zso"),
    (Rcl1, Byte, 0x80, 0x00, true, 0x01, b"czso"),
    (Rcl1, Byte, 0x01, 0x00, true, 0x03, b"-zs-"),
    (Rcl1, Byte, 0xFF, 0x00, false, 0xFE, b"czs-"),
    (Rcr1, Byte, 0x7F, 0x00, false, 0x3F, b"czs-"),
    (Rcr1, Byte, 0x80, 0x00, true, 0xC0, b"-zs-"),
    (Rcr1, Byte, 0x01, 0x00, true, 0x80, b"czso"),
    (Rcr1, Byte, 0x00, 0x00, false, 0x00, b"-zs-"),
];

// A width, two operands, and the two halves and CF that MUL and IMUL give.
type Product = (Width, u16, u16, (u16, u16, bool), (u16, u16, bool));

static PRODUCTS: [Product; 12] = [
    (Byte, 0x00, 0xFF, (0x00, 0x00, false), (0x00, 0x00, false)),
    (Byte, 0x10, 0x10, (0x00, 0x01, true), (0x00, 0x01, true)),
    (Byte, 0x7F, 0x7F, (0x01, 0x3F, true), (0x01, 0x3F, true)),
    (Byte, 0x01, 0x80, (0x80, 0x00, false), (0x80, 0xFF, false)),
    (Byte, 0x80, 0x80, (0x00, 0x40, true), (0x00, 0x40, true)),
    (Byte, 0xFF, 0xFF, (0x01, 0xFE, true), (0x01, 0x00, false)),
    (Byte, 0x80, 0xFF, (0x80, 0x7F, true), (0x80, 0x00, true)),
    (
        Word,
        0x00FF,
        0x00FF,
        (0xFE01, 0x0000, false),
        (0xFE01, 0x0000, true),
    ),
    (
        Word,
        0x0001,
        0x8000,
        (0x8000, 0x0000, false),
        (0x8000, 0xFFFF, false),
    ),
    (
        Word,
        0x8000,
        0x8000,
        (0x0000, 0x4000, true),
        (0x0000, 0x4000, true),
    ),
    (
        Word,
        0xFFFF,
        0xFFFF,
        (0x0001, 0xFFFE, true),
        (0x0001, 0x0000, false),
    ),
    (
        Word,
        0x7FFF,
        0x8000,
        (0x8000, 0x3FFF, true),
        (0x8000, 0xC000, true),
    ),
];

// A width, a dividend by its halves, a divisor, and what DIV and IDIV give.
type Quotient = (Width, u16, u16, u16, Option<(u16, u16)>, Option<(u16, u16)>);

static QUOTIENTS: [Quotient; 38] = [
    (
        Byte,
        0x00,
        0x64,
        0x07,
        Some((0x0E, 0x02)),
        Some((0x0E, 0x02)),
    ),
    (Byte, 0x00, 0x07, 0x00, None, None),
    (Byte, 0x01, 0x00, 0x01, None, None),
    (Byte, 0x00, 0xFF, 0x01, Some((0xFF, 0x00)), None),
    (Byte, 0x01, 0xFF, 0x02, Some((0xFF, 0x01)), None),
    (Byte, 0x02, 0x00, 0x02, None, None),
    (Byte, 0x7F, 0xFF, 0x80, Some((0xFF, 0x7F)), None),
    (Byte, 0xFF, 0x80, 0x01, None, Some((0x80, 0x00))),
    (Byte, 0xFF, 0x80, 0xFF, None, None),
    (Byte, 0xFF, 0x7F, 0x01, None, None),
    (Byte, 0xFF, 0xF9, 0x02, None, Some((0xFD, 0xFF))),
    (
        Byte,
        0x00,
        0x07,
        0xFE,
        Some((0x00, 0x07)),
        Some((0xFD, 0x01)),
    ),
    (Byte, 0xFF, 0xF9, 0xFE, None, Some((0x03, 0xFF))),
    (
        Byte,
        0x40,
        0x00,
        0x80,
        Some((0x80, 0x00)),
        Some((0x80, 0x00)),
    ),
    (
        Byte,
        0x3F,
        0xFF,
        0x80,
        Some((0x7F, 0x7F)),
        Some((0x81, 0x7F)),
    ),
    (
        Byte,
        0x40,
        0x7F,
        0x80,
        Some((0x80, 0x7F)),
        Some((0x80, 0x7F)),
    ),
    (Byte, 0x40, 0x80, 0x80, Some((0x81, 0x00)), None),
    (Byte, 0x00, 0x80, 0x01, Some((0x80, 0x00)), None),
    (
        Byte,
        0x00,
        0x80,
        0xFF,
        Some((0x00, 0x80)),
        Some((0x80, 0x00)),
    ),
    (Byte, 0x80, 0x00, 0xFF, Some((0x80, 0x80)), None),
    (Byte, 0x80, 0x00, 0x80, None, None),
    (
        Word,
        0x0000,
        0x0064,
        0x0007,
        Some((0x000E, 0x0002)),
        Some((0x000E, 0x0002)),
    ),
    (Word, 0x0000, 0x0007, 0x0000, None, None),
    (Word, 0x0001, 0x0000, 0x0001, None, None),
    (Word, 0x0000, 0xFFFF, 0x0001, Some((0xFFFF, 0x0000)), None),
    (Word, 0x0001, 0xFFFF, 0x0002, Some((0xFFFF, 0x0001)), None),
    (Word, 0x0002, 0x0000, 0x0002, None, None),
    (Word, 0xFFFF, 0x8000, 0x0001, None, Some((0x8000, 0x0000))),
    (Word, 0xFFFF, 0x8000, 0xFFFF, None, None),
    (Word, 0xFFFF, 0xFFF9, 0x0002, None, Some((0xFFFD, 0xFFFF))),
    (
        Word,
        0x0000,
        0x0007,
        0xFFFE,
        Some((0x0000, 0x0007)),
        Some((0xFFFD, 0x0001)),
    ),
    (Word, 0xFFFF, 0xFFF9, 0xFFFE, None, Some((0x0003, 0xFFFF))),
    (
        Word,
        0x0000,
        0x8000,
        0xFFFF,
        Some((0x0000, 0x8000)),
        Some((0x8000, 0x0000)),
    ),
    (Word, 0x8000, 0x0000, 0xFFFF, Some((0x8000, 0x8000)), None),
    (
        Word,
        0x4000,
        0x0000,
        0x8000,
        Some((0x8000, 0x0000)),
        Some((0x8000, 0x0000)),
    ),
    (
        Word,
        0x4000,
        0x7FFF,
        0x8000,
        Some((0x8000, 0x7FFF)),
        Some((0x8000, 0x7FFF)),
    ),
    (Word, 0x4000, 0x8000, 0x8000, Some((0x8001, 0x0000)), None),
    (Word, 0x8000, 0x0000, 0x8000, None, None),
];

// The rows, as a slice whose values a proof does not look into.
fn rows() -> &'static [Row] {
    &ROWS
}

fn products() -> &'static [Product] {
    &PRODUCTS
}

fn quotients() -> &'static [Quotient] {
    &QUOTIENTS
}

// ZF, SF and OF are set before each operation, so that a flag that stays shows.
fn before(carry: bool) -> Flags {
    Flags {
        cf: carry,
        zf: true,
        sf: true,
        of: true,
    }
}

// Whether an operand has that width.
fn fits(w: Width, a: u16) -> bool
    ensures { IsTrue result ↔ a < limit_of w }
{
    match w {
        Byte => a < 0x100,
        Word => true,
    }
}

fn done(operation: Operation, w: Width, a: u16, b: u16, carry: bool) -> (u16, Flags)
    requires first { a < limit_of w }
    requires second { b < limit_of w }
{
    let count = (b % 256) as u8;
    match operation {
        Add => add(w, a, b, carry),
        Sub => sub(w, a, b, carry),
        And => and(w, a, b),
        Or => or(w, a, b),
        Xor => xor(w, a, b),
        Neg => neg(w, a),
        Inc => inc(w, a, before(carry)),
        Dec => dec(w, a, before(carry)),
        Shl => shl(w, a, count, before(carry)),
        Shr => shr(w, a, count, before(carry)),
        Sar => sar(w, a, count, before(carry)),
        Rol => rol(w, a, count, before(carry)),
        Ror => ror(w, a, count, before(carry)),
        Rcl1 => rcl1(w, a, before(carry)),
        Rcr1 => rcr1(w, a, before(carry)),
    }
}

// The flags by their letters, a dash for one that is clear.
fn letters(flags: Flags) -> [u8; 4] {
    [
        if flags.cf { b'c' } else { b'-' },
        if flags.zf { b'z' } else { b'-' },
        if flags.sf { b's' } else { b'-' },
        if flags.of { b'o' } else { b'-' },
    ]
}

#[test]
fn results_and_flags_at_the_corners(rt: HostRuntime) {
    for &(operation, w, a, b, carry, result, flags) in rows() {
        assert!(rt; fits(w, a) && fits(w, b));
        let (given, set) = done(operation, w, a, b, carry);
        assert_eq!(rt; given, result);
        assert_eq!(rt; letters(set), *flags);
    }
}

#[test]
fn products_at_the_corners(rt: HostRuntime) {
    for &(w, a, b, unsigned, signed) in products() {
        assert!(rt; fits(w, a) && fits(w, b));
        let (low, high, flags) = mul(w, a, b);
        assert_eq!(rt; (low, high, flags.cf), unsigned);
        assert_eq!(rt; letters(flags), *if unsigned.2 { b"c--o" } else { b"----" });
        let (low, high, flags) = imul(w, a, b);
        assert_eq!(rt; (low, high, flags.cf), signed);
        assert_eq!(rt; letters(flags), *if signed.2 { b"c--o" } else { b"----" });
    }
}

#[test]
fn quotients_and_faults_at_the_corners(rt: HostRuntime) {
    for &(w, high, low, by, unsigned, signed) in quotients() {
        assert!(rt; fits(w, high) && fits(w, low));
        assert!(rt; fits(w, by));
        assert_eq!(rt; div(w, high, low, by), unsigned);
        assert_eq!(rt; idiv(w, high, low, by), signed);
    }
}

#[test]
fn bytes_are_sign_extended(rt: HostRuntime) {
    for (byte, word) in [
        (0x00, 0x0000),
        (0x01, 0x0001),
        (0x7F, 0x007F),
        (0x80, 0xFF80),
        (0xFF, 0xFFFF),
    ] {
        assert_eq!(rt; sign8(byte), word);
    }
}
