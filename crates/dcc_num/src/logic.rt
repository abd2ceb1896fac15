//! Operations on single bits.

ghost use Rattle.std.specs.Prelude.{◌≡◌, ◌<◌};
ghost use Rattle.dcc_num.specs.Numbers.{limit_of};
ghost use Rattle.dcc_num.specs.Logic.{conjunction_of, disjunction_of, exclusive_of};

use crate::operand::flags_of;
use crate::{Flags, Width};

/// AND and TEST: the bits that are in both operands.
#[tactic(auto, unfolding(crate::specs::Logic::conjunction_of))]
pub fn and(w: Width, a: u16, b: u16) -> (u16, Flags)
    requires first { a < limit_of w }
    requires second { b < limit_of w }
    ensures conjunction { result ≡ conjunction_of w a b }
    ensures width { result.0 < limit_of w }
{
    (a & b, flags_of(w, a & b, false, false))
}

/// OR: the bits that are in one of the operands, or in both.
#[tactic(auto, unfolding(crate::specs::Logic::disjunction_of))]
pub fn or(w: Width, a: u16, b: u16) -> (u16, Flags)
    requires first { a < limit_of w }
    requires second { b < limit_of w }
    ensures disjunction { result ≡ disjunction_of w a b }
    ensures width { result.0 < limit_of w }
{
    (a | b, flags_of(w, a | b, false, false))
}

/// XOR: the bits that are in one of the operands only.
#[tactic(auto, unfolding(crate::specs::Logic::exclusive_of))]
pub fn xor(w: Width, a: u16, b: u16) -> (u16, Flags)
    requires first { a < limit_of w }
    requires second { b < limit_of w }
    ensures exclusive { result ≡ exclusive_of w a b }
    ensures width { result.0 < limit_of w }
{
    (a ^ b, flags_of(w, a ^ b, false, false))
}
