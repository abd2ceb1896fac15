//! Sums and differences.

ghost use Rattle.std.specs.Prelude.{◌≡◌, ◌<◌};
ghost use Rattle.dcc_num.specs.Numbers.{limit_of};
ghost use Rattle.dcc_num.specs.Sum.{sum_of, difference_of, negation_of, increment_of, decrement_of};

use crate::operand::{fits, flags_of, limit, signed};
use crate::{Flags, Width};

/// ADD and ADC: the sum of two operands and the carry.
#[tactic(auto, unfolding(crate::specs::Sum::sum_of))]
pub fn add(w: Width, a: u16, b: u16, carry: bool) -> (u16, Flags)
    requires first { a < limit_of w }
    requires second { b < limit_of w }
    ensures sum { result ≡ sum_of w a b carry }
    ensures width { result.0 < limit_of w }
{
    let total = u32::from(a) + u32::from(b) + u32::from(carry);
    let result = (total % limit(w)) as u16;
    let exact = signed(w, a) + signed(w, b) + i64::from(carry);
    (
        result,
        flags_of(w, result, total >= limit(w), !fits(w, exact)),
    )
}

/// SUB, SBB and CMP: the first operand less the second and the borrow.
#[tactic(auto, unfolding(crate::specs::Sum::difference_of))]
pub fn sub(w: Width, a: u16, b: u16, borrow: bool) -> (u16, Flags)
    requires first { a < limit_of w }
    requires second { b < limit_of w }
    ensures difference { result ≡ difference_of w a b borrow }
    ensures width { result.0 < limit_of w }
{
    let less = u32::from(b) + u32::from(borrow);
    let result = ((u32::from(a) + limit(w) - less) % limit(w)) as u16;
    let exact = signed(w, a) - signed(w, b) - i64::from(borrow);
    (
        result,
        flags_of(w, result, u32::from(a) < less, !fits(w, exact)),
    )
}

/// NEG: 0 less the operand.
#[tactic(auto, unfolding(crate::specs::Sum::negation_of))]
pub fn neg(w: Width, a: u16) -> (u16, Flags)
    requires { a < limit_of w }
    ensures negation { result ≡ negation_of w a }
    ensures width { result.0 < limit_of w }
{
    sub(w, 0, a, false)
}

/// INC: the operand and 1, with CF as it was.
#[tactic(auto, unfolding(crate::specs::Sum::increment_of))]
pub fn inc(w: Width, a: u16, was: Flags) -> (u16, Flags)
    requires { a < limit_of w }
    ensures increment { result ≡ increment_of w a was }
    ensures width { result.0 < limit_of w }
{
    let (result, flags) = add(w, a, 1, false);
    (
        result,
        Flags {
            cf: was.cf,
            ..flags
        },
    )
}

/// DEC: the operand less 1, with CF as it was.
#[tactic(auto, unfolding(crate::specs::Sum::decrement_of))]
pub fn dec(w: Width, a: u16, was: Flags) -> (u16, Flags)
    requires { a < limit_of w }
    ensures decrement { result ≡ decrement_of w a was }
    ensures width { result.0 < limit_of w }
{
    let (result, flags) = sub(w, a, 1, false);
    (
        result,
        Flags {
            cf: was.cf,
            ..flags
        },
    )
}
