//! Shifts and rotations. A count is taken whole, from 0 to 255.

ghost use Rattle.std.specs.Prelude.{◌==◌, ◌≡◌, ◌<◌, ◌≤◌, ◌*◌, ◌/◌, ◌%◌, ◌^◌, ◌-◌};
ghost use Rattle.dcc_num.specs.Numbers.{limit_of, bits_of, is_set, signed_of, wrapped_of, residue_of, halved_of};
ghost use Rattle.dcc_num.specs.Shift.{shl_of, shr_of, sar_of, rol_of, ror_of, rcl_of};
ghost use Rattle.dcc_num.specs.Shift.{rcr_of, rotated_of, top_bits_differ};

use crate::operand::{flags_of, half, is_negative, limit, signed, wrapped};
use crate::{Flags, Width};

// A count at which nothing is left of a word, nor of the bits that it shifts out last.
const ALL_OUT: u8 = 17;

// The bits moved up by a count, and whether the last bit shifted out is set.
fn moved_up(w: Width, a: u16, count: u8) -> (u16, bool)
    requires { a < limit_of w }
    ensures bits { result.0 ≡ a * 2 ^ count % limit_of w }
    ensures out { result.1 ≡ is_set (a * 2 ^ count) (bits_of w) }
{
    let wide = u64::from(a) << count.min(ALL_OUT);
    let limit = u64::from(limit(w));
    ((wide % limit) as u16, wide / limit % 2 == 1)
}

/// SHL: the bits moved up, with 0 coming in.
#[tactic(auto, unfolding(crate::specs::Shift::shl_of))]
pub fn shl(w: Width, a: u16, count: u8, was: Flags) -> (u16, Flags)
    requires { a < limit_of w }
    ensures shift { result ≡ shl_of w a count was }
    ensures width { result.0 < limit_of w }
{
    if count == 0 {
        return (a, was);
    }
    let (result, cf) = moved_up(w, a, count);
    let of = count == 1 && cf != is_negative(w, result);
    (result, flags_of(w, result, cf, of))
}

// The bits moved down by a count, and whether the last bit shifted out is set.
fn moved_down(a: u16, count: u8) -> (u16, bool)
    requires { 0 < count }
    ensures bits { result.0 ≡ a / 2 ^ count }
    ensures out { result.1 ≡ is_set a (count - 1) }
{
    // One place less than the count, so that the last bit to leave is the lowest.
    let moved = u32::from(a) >> (count.min(ALL_OUT) - 1);
    ((moved / 2) as u16, moved % 2 == 1)
}

/// SHR: the bits moved down, with 0 coming in.
#[tactic(auto, unfolding(crate::specs::Shift::shr_of))]
pub fn shr(w: Width, a: u16, count: u8, was: Flags) -> (u16, Flags)
    requires { a < limit_of w }
    ensures shift { result ≡ shr_of w a count was }
    ensures width { result.0 < limit_of w }
{
    if count == 0 {
        return (a, was);
    }
    let (result, cf) = moved_down(a, count);
    let of = count == 1 && is_negative(w, a);
    (result, flags_of(w, result, cf, of))
}

// The bits of a signed operand moved down by a count, with its sign coming in, and whether the last bit shifted out is
// set.
fn moved_down_signed(w: Width, a: u16, count: u8) -> (u16, bool)
    requires operand { a < limit_of w }
    requires moved { 0 < count }
    ensures bits { result.0 ≡ wrapped_of w (halved_of (signed_of w a) count) }
    ensures out { result.1 ≡ (residue_of 2 (halved_of (signed_of w a) (count - 1)) == 1) }
{
    let moved = signed(w, a) >> (count.min(ALL_OUT) - 1);
    (wrapped(w, moved >> 1), moved.rem_euclid(2) == 1)
}

/// SAR: the bits moved down, with copies of the sign coming in.
#[tactic(auto, unfolding(crate::specs::Shift::sar_of))]
pub fn sar(w: Width, a: u16, count: u8, was: Flags) -> (u16, Flags)
    requires { a < limit_of w }
    ensures shift { result ≡ sar_of w a count was }
    ensures width { result.0 < limit_of w }
{
    if count == 0 {
        return (a, was);
    }
    let (result, cf) = moved_down_signed(w, a, count);
    (result, flags_of(w, result, cf, false))
}

// The bits moved up by some places, at most the width: those that leave at the top come in at the bottom.
fn rotated(w: Width, a: u16, places: u8) -> u16
    requires operand { a < limit_of w }
    requires places { places ≤ bits_of w }
    ensures rotated { result ≡ rotated_of w a places }
    ensures width { result < limit_of w }
{
    let wide = u64::from(a) << places;
    let limit = u64::from(limit(w));
    (wide % limit + wide / limit) as u16
}

// Whether the two top bits of an operand differ.
fn top_bits_differ(w: Width, a: u16) -> bool
    ensures { result ≡ top_bits_differ w a }
{
    let below_sign = u32::from(a) / (half(w) / 2) % 2 == 1;
    is_negative(w, a) != below_sign
}

/// ROL: the bits rotated left.
#[tactic(auto, unfolding(crate::specs::Shift::rol_of))]
pub fn rol(w: Width, a: u16, count: u8, was: Flags) -> (u16, Flags)
    requires { a < limit_of w }
    ensures rotation { result ≡ rol_of w a count was }
    ensures width { result.0 < limit_of w }
{
    if count == 0 {
        return (a, was);
    }
    let result = rotated(w, a, count % w.bits());
    let cf = result % 2 == 1;
    let of = count == 1 && cf != is_negative(w, result);
    (result, Flags { cf, of, ..was })
}

/// ROR: the bits rotated right.
#[tactic(auto, unfolding(crate::specs::Shift::ror_of))]
pub fn ror(w: Width, a: u16, count: u8, was: Flags) -> (u16, Flags)
    requires { a < limit_of w }
    ensures rotation { result ≡ ror_of w a count was }
    ensures width { result.0 < limit_of w }
{
    if count == 0 {
        return (a, was);
    }
    let result = rotated(w, a, w.bits() - count % w.bits());
    let of = count == 1 && top_bits_differ(w, result);
    (
        result,
        Flags {
            cf: is_negative(w, result),
            of,
            ..was
        },
    )
}

/// RCL by 1: the bits and CF rotated left by one place.
#[tactic(auto, unfolding(crate::specs::Shift::rcl_of))]
pub fn rcl1(w: Width, a: u16, was: Flags) -> (u16, Flags)
    requires { a < limit_of w }
    ensures rotation { result ≡ rcl_of w a was }
    ensures width { result.0 < limit_of w }
{
    let wide = 2 * u32::from(a) + u32::from(was.cf);
    let result = (wide % limit(w)) as u16;
    let cf = is_negative(w, a);
    (
        result,
        Flags {
            cf,
            of: cf != is_negative(w, result),
            ..was
        },
    )
}

/// RCR by 1: the bits and CF rotated right by one place.
#[tactic(auto, unfolding(crate::specs::Shift::rcr_of))]
pub fn rcr1(w: Width, a: u16, was: Flags) -> (u16, Flags)
    requires { a < limit_of w }
    ensures rotation { result ≡ rcr_of w a was }
    ensures width { result.0 < limit_of w }
{
    let result = (u32::from(a) / 2 + u32::from(was.cf) * half(w)) as u16;
    (
        result,
        Flags {
            cf: a % 2 == 1,
            of: top_bits_differ(w, result),
            ..was
        },
    )
}
