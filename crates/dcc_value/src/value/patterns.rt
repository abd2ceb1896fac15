//! The operators on two's complement bit patterns of the number types (ISO/IEC 9899:1990, 6.3.3 to 6.3.14).

ghost use Rattle.std.specs.Prelude.{◌≡◌, ◌-◌, ◌/◌, ◌^◌, ◌<◌, ◌≤◌, false, if◌then◌else◌};
ghost use Rattle.dcc_c.specs.Types.{bits_of};
ghost use Rattle.dcc_c.specs.Arithmetic.{negated, complement, difference, magnitude, with_sign, same_sign};
ghost use Rattle.dcc_c.specs.Arithmetic.{division_faults, quotient, remainder, rank, is_less, is_past, shifted_left};
ghost use Rattle.dcc_c.specs.Arithmetic.{shifted_right};

use dcc_c::Base;

/// The number with the other sign.
pub fn negated(base: Base, n: u32) -> u32
    ensures { result ≡ negated base n }
{
    base.wrapped(base.modulus().saturating_sub(u64::from(n)))
}

/// The number with each bit turned.
pub fn complement(base: Base, n: u32) -> u32
    ensures { result ≡ complement base n }
{
    (base.modulus() - 1).saturating_sub(u64::from(n)) as u32
}

/// The difference, which wraps.
pub fn difference(base: Base, a: u32, b: u32) -> u32
    ensures { result ≡ difference base a b }
{
    base.wrapped((u64::from(a) + base.modulus()).saturating_sub(u64::from(b)))
}

// The number without its sign.
fn magnitude(base: Base, n: u32) -> u32
    ensures value { result ≡ magnitude base n }
    ensures some { 0 < n → n < 2 ^ bits_of base → 0 < result }
{
    if base.is_negative(n) {
        base.modulus().saturating_sub(u64::from(n)) as u32
    } else {
        n
    }
}

// The magnitude with a sign.
fn with_sign(negative: bool, base: Base, n: u32) -> u32
    ensures { result ≡ with_sign negative base n }
{
    if negative { negated(base, n) } else { n }
}

// Whether both numbers are below 0, or neither is.
fn same_sign(base: Base, a: u32, b: u32) -> bool
    ensures { result ≡ same_sign base a b }
{
    if base.is_negative(a) {
        base.is_negative(b)
    } else {
        !base.is_negative(b)
    }
}

/// Whether the division has no quotient: the divisor is 0, or the least number is divided by -1.
pub(crate) fn division_faults(base: Base, a: u32, b: u32) -> bool
    ensures value { result ≡ division_faults base a b }
    ensures some { result ≡ false → 0 < b }
{
    b == 0 || (base.is_signed() && (a == base.top_bit() && u64::from(b) == base.modulus() - 1))
}

/// The quotient, which is cut towards 0.
pub fn quotient(base: Base, a: u32, b: u32) -> u32
    requires some { 0 < b }
    requires within { b < 2 ^ bits_of base }
    ensures { result ≡ quotient base a b }
{
    with_sign(
        !same_sign(base, a, b),
        base,
        magnitude(base, a) / magnitude(base, b),
    )
}

/// The remainder, which has the dividend's sign.
pub fn remainder(base: Base, a: u32, b: u32) -> u32
    requires some { 0 < b }
    requires within { b < 2 ^ bits_of base }
    ensures { result ≡ remainder base a b }
{
    with_sign(
        base.is_negative(a),
        base,
        magnitude(base, a) % magnitude(base, b),
    )
}

// The place of the number among those of its type, from the least on.
fn rank(base: Base, n: u32) -> u32
    ensures { result ≡ rank base n }
{
    if base.is_signed() {
        ((u64::from(n) + u64::from(base.top_bit())) % base.modulus()) as u32
    } else {
        n
    }
}

/// Whether the first number is the less one.
pub(crate) fn is_less(base: Base, a: u32, b: u32) -> bool
    ensures { result ≡ is_less base a b }
{
    rank(base, a) < rank(base, b)
}

// Whether a count of another type shifts all bits out.
fn is_past(base: Base, of_count: Base, count: u32) -> bool
    ensures value { result ≡ is_past base of_count count }
    ensures within { result ≡ false → count < 32 }
{
    of_count.is_negative(count) || base.bits() <= count
}

/// The bits moved up.
pub(crate) fn shifted_left(base: Base, n: u32, of_count: Base, count: u32) -> u32
    ensures { result ≡ shifted_left base n of_count count }
{
    if is_past(base, of_count, count) {
        0
    } else {
        base.wrapped(u64::from(n) << count)
    }
}

// The bits moved down, with 0 coming in.
fn moved_down(base: Base, n: u32, of_count: Base, count: u32) -> u32
    ensures { result ≡ (if is_past base of_count count then 0 else n / 2 ^ count) }
{
    if is_past(base, of_count, count) {
        0
    } else {
        n >> count
    }
}

/// The bits moved down, with copies of the sign coming in: a negative number is moved as its complement.
pub(crate) fn shifted_right(base: Base, n: u32, of_count: Base, count: u32) -> u32
    ensures { result ≡ shifted_right base n of_count count }
{
    if base.is_negative(n) {
        complement(base, moved_down(base, complement(base, n), of_count, count))
    } else {
        moved_down(base, n, of_count, count)
    }
}
