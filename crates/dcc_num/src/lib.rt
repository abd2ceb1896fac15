//! Registers, flags and arithmetic of the 8086 (8086 Family User's Manual, chapter 2).
#![tactic(auto)]

pub mod dos;
mod halves;
pub mod laws;
mod logic;
mod operand;
mod product;
mod quotient;
mod shift;
mod sum;

pub use logic::{and, or, xor};
pub use operand::sign8;
pub use product::{imul, mul};
pub use quotient::{div, idiv};
pub use shift::{rcl1, rcr1, rol, ror, sar, shl, shr};
pub use sum::{add, dec, inc, neg, sub};

/// The width of an operand.
#[derive(Clone, Copy, PartialEq, Eq, Debug)]
pub enum Width {
    /// 8 bits.
    Byte,
    /// 16 bits.
    Word,
}

/// A word register, in the order of its number in an instruction, from 0 to 7.
#[derive(Clone, Copy, PartialEq, Eq, Debug)]
pub enum Reg {
    Ax,
    Cx,
    Dx,
    Bx,
    Sp,
    Bp,
    Si,
    Di,
}

/// One of the two bytes of AX, CX, DX or BX.
#[derive(Clone, Copy, PartialEq, Eq, Debug)]
pub enum Half {
    /// Bits 0 to 7.
    Low,
    /// Bits 8 to 15.
    High,
}

/// One of the four modelled flags.
#[derive(Clone, Copy, PartialEq, Eq, Debug)]
pub enum FlagName {
    /// Carry.
    Cf,
    /// Zero.
    Zf,
    /// Sign.
    Sf,
    /// Signed overflow.
    Of,
}

/// The values of the four modelled flags.
#[derive(Clone, Copy, PartialEq, Eq, Debug)]
pub struct Flags {
    /// Carry.
    pub cf: bool,
    /// Zero.
    pub zf: bool,
    /// Sign.
    pub sf: bool,
    /// Signed overflow.
    pub of: bool,
}

/// No flag is set.
pub const NO_FLAGS: Flags = Flags {
    cf: false,
    zf: false,
    sf: false,
    of: false,
};
