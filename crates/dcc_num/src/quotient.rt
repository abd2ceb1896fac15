//! Quotients and remainders of a dividend in two operands.

ghost use Rattle.std.specs.Prelude.{◌≡◌, ◌<◌, ◌≤◌, ◌^◌, unsigned_abs, IfSome};
ghost use Rattle.dcc_num.specs.Numbers.{limit_of};
ghost use Rattle.dcc_num.specs.Quotient.{division_of, signed_division_of, joined_of, signed_joined_of};

use crate::Width;
use crate::operand::{fits, limit, signed, wrapped};

/// DIV: the quotient and the remainder without a sign, or None at a divide fault.
#[tactic(auto, unfolding(crate::specs::Quotient::division_of))]
pub fn div(w: Width, high: u16, low: u16, by: u16) -> Option<(u16, u16)>
    requires upper { high < limit_of w }
    requires lower { low < limit_of w }
    requires divisor { by < limit_of w }
    ensures division { result ≡ division_of w high low by }
    ensures width { IfSome result (λ x. (x.0 < limit_of w) × (x.1 < limit_of w)) }
{
    let dividend = u32::from(high) * limit(w) + u32::from(low);
    let by = u32::from(by);
    if by == 0 || dividend / by >= limit(w) {
        return None;
    }
    Some(((dividend / by) as u16, (dividend % by) as u16))
}

// A dividend in two's complement.
fn signed_dividend(w: Width, high: u16, low: u16) -> i64
    requires upper { high < limit_of w }
    requires lower { low < limit_of w }
    ensures value { result ≡ signed_joined_of w high low }
    ensures size { unsigned_abs result ≤ 2 ^ 31 }
{
    signed(w, high) * i64::from(limit(w)) + i64::from(low)
}

/// IDIV: the quotient of the signed numbers, rounded towards 0, and the remainder, which has the
/// dividend's sign, or None at a divide fault. Quotients of -128 and -32,768 are given.
#[tactic(auto, unfolding(crate::specs::Quotient::signed_division_of))]
pub fn idiv(w: Width, high: u16, low: u16, by: u16) -> Option<(u16, u16)>
    requires upper { high < limit_of w }
    requires lower { low < limit_of w }
    requires divisor { by < limit_of w }
    ensures division { result ≡ signed_division_of w high low by }
    ensures width { IfSome result (λ x. (x.0 < limit_of w) × (x.1 < limit_of w)) }
{
    if by == 0 {
        return None;
    }
    let dividend = signed_dividend(w, high, low);
    let by = signed(w, by);
    let quotient = dividend / by;
    if !fits(w, quotient) {
        return None;
    }
    Some((wrapped(w, quotient), wrapped(w, dividend % by)))
}
