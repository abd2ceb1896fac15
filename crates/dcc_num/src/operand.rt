//! Operands as numbers, and the flags of a result.

ghost use Rattle.std.specs.Prelude.{◌≡◌, ◌<◌, ◌≤◌, pos, neg_ℤ, ◌≤ℤ◌, ◌<ℤ◌};
ghost use Rattle.dcc_num.specs.Numbers.{bits_of, wrapped_of, sign_extension_of, limit_of, half_of, has_sign, signed_of};
ghost use Rattle.dcc_num.specs.Numbers.{fits_signed, result_flags};

use crate::{Flags, Width};

impl Width {
    /// How many bits an operand has.
    pub fn bits(self) -> u8
        ensures bits { result ≡ bits_of self }
        ensures least { 8 ≤ result }
        ensures most { result ≤ 16 }
    {
        match self {
            Width::Byte => 8,
            Width::Word => 16,
        }
    }
}

/// The least number that an operand has no room for.
pub fn limit(w: Width) -> u32
    ensures { result ≡ limit_of w }
{
    match w {
        Width::Byte => 0x100,
        Width::Word => 0x1_0000,
    }
}

/// The least number with the sign bit.
pub fn half(w: Width) -> u32
    ensures { result ≡ half_of w }
{
    match w {
        Width::Byte => 0x80,
        Width::Word => 0x8000,
    }
}

/// Whether the sign bit is set.
pub fn is_negative(w: Width, a: u16) -> bool
    ensures { result ≡ has_sign w a }
{
    u32::from(a) >= half(w)
}

/// The number that the bits stand for in two's complement.
#[tactic(auto, unfolding(crate::specs::Numbers::signed_of))]
pub fn signed(w: Width, a: u16) -> i64
    requires { a < limit_of w }
    ensures value { result ≡ signed_of w a }
    ensures low { neg_ℤ (pos 32768) ≤ℤ result }
    ensures high { result <ℤ pos 32768 }
{
    if is_negative(w, a) {
        i64::from(a) - i64::from(limit(w))
    } else {
        i64::from(a)
    }
}

/// Whether a number is among those that two's complement has at the width.
#[tactic(auto, unfolding(crate::specs::Numbers::fits_signed))]
pub fn fits(w: Width, number: i64) -> bool
    ensures { result ≡ fits_signed w number }
{
    let half = i64::from(half(w));
    -half <= number && number < half
}

/// ZF and SF of a result, beside the given CF and OF.
#[tactic(auto, unfolding(crate::specs::Numbers::result_flags))]
pub(crate) fn flags_of(w: Width, value: u16, cf: bool, of: bool) -> Flags
    ensures { result ≡ result_flags w value cf of }
{
    Flags {
        cf,
        zf: value == 0,
        sf: is_negative(w, value),
        of,
    }
}

/// The bits of a number in two's complement.
pub fn wrapped(w: Width, number: i64) -> u16
    ensures bits { result ≡ wrapped_of w number }
    ensures width { result < limit_of w }
{
    number.rem_euclid(i64::from(limit(w))) as u16
}

/// CBW: a byte, sign-extended to a word.
#[tactic(auto, unfolding(crate::specs::Numbers::sign_extension_of))]
pub fn sign8(a: u8) -> u16
    ensures { result ≡ sign_extension_of a }
{
    wrapped(Width::Word, signed(Width::Byte, u16::from(a)))
}
