//! The values of operators on constants.

ghost use Rattle.std.specs.Prelude.{◌≡◌, ◌-◌, ◌*◌, ◌/◌, ◌%◌, ◌^◌, ◌<◌, ◌≤◌, ◌<ℤ◌, ◌≤ℤ◌, pos, neg_ℤ, false, ◌&&◌, IfSome, IsNone};
ghost use Rattle.std.specs.Prelude.{if◌then◌else◌};
ghost use Rattle.dcc_num.specs.Numbers.{halved_of};
ghost use Rattle.dcc_ir.specs.Value.{signed_at, pattern_at, unary_value, binary_value};
ghost use Rattle.dcc_ir.specs.WellFormed.{is_width, is_division};

use dcc_ir::plain::values::moved_down;
use dcc_ir::{BinOp, UnOp};

/// How many numbers a width has; none for what is no width.
pub fn limit(width: u8) -> Option<u64>
    ensures value { IfSome result (λ n. n ≡ 2 ^ width) }
    ensures some { IfSome result (λ n. 0 < n) }
    ensures size { IfSome result (λ n. n ≤ 2 ^ 32) }
    ensures narrow { IfSome result (λ n. width ≤ 32) }
    ensures none { IsNone result → is_width width ≡ false }
{
    match width {
        1 => Some(2),
        8 => Some(0x100),
        16 => Some(0x1_0000),
        32 => Some(0x1_0000_0000),
        _ => None,
    }
}

// The least number of a width with the sign bit.
fn half(width: u8) -> Option<u64>
    ensures value { IfSome result (λ n. n ≡ 2 ^ (width - 1)) }
    ensures none { IsNone result → is_width width ≡ false }
{
    match width {
        1 => Some(1),
        8 => Some(0x80),
        16 => Some(0x8000),
        32 => Some(0x8000_0000),
        _ => None,
    }
}

/// The low bits of a number.
pub fn wrapped(width: u8, n: u64) -> Option<u32>
    ensures value { IfSome result (λ r. r ≡ n % 2 ^ width) }
    ensures none { IsNone result → is_width width ≡ false }
{
    let limit = limit(width)?;
    Some((n % limit) as u32)
}

// The number that the bits stand for in two's complement.
fn signed(width: u8, a: u32) -> Option<i64>
    ensures value { IfSome result (λ z. z ≡ signed_at width a) }
    ensures low { IfSome result (λ z. neg_ℤ (pos (2 ^ 32)) ≤ℤ z) }
    ensures high { IfSome result (λ z. z <ℤ pos (2 ^ 32)) }
    ensures none { IsNone result → is_width width ≡ false }
{
    let limit = limit(width)?;
    let half = half(width)?;
    let number = i64::from(a);
    Some(if u64::from(a) >= half {
        number - limit as i64
    } else {
        number
    })
}

// The bits of a signed number.
fn pattern(width: u8, z: i64) -> Option<u32>
    ensures value { IfSome result (λ r. r ≡ pattern_at width z) }
    ensures none { IsNone result → is_width width ≡ false }
{
    let limit = limit(width)?;
    Some(z.rem_euclid(limit as i64) as u32)
}

/// The value of an operator on one operand; none where the width is none.
pub fn unary_value(operator: UnOp, width: u8, a: u32) -> Option<u32>
    ensures value { IfSome result (λ r. r ≡ unary_value operator width a) }
    ensures none { IsNone result → is_width width ≡ false }
{
    let limit = limit(width)?;
    match operator {
        UnOp::Neg => wrapped(width, limit.saturating_sub(u64::from(a))),
        UnOp::Not => Some((limit - 1).saturating_sub(u64::from(a)) as u32),
        UnOp::IsZero => Some(u32::from(a == 0)),
    }
}

/// A count at which nothing is left of a number.
const ALL_OUT: u32 = 32;

// The bits moved up, with 0 coming in.
fn moved_up(width: u8, a: u32, count: u32) -> Option<u32>
    ensures value { IfSome result (λ r. r ≡ a * 2 ^ count % 2 ^ width) }
    ensures none { IsNone result → is_width width ≡ false }
{
    let limit = limit(width)?;
    if count >= ALL_OUT {
        return Some(0);
    }
    Some(((u64::from(a) << count) % limit) as u32)
}

// The bits moved down, with copies of the sign coming in.
fn moved_down_signed(width: u8, a: u32, count: u32) -> Option<u32>
    ensures value { IfSome result (λ r. r ≡ pattern_at width (halved_of (signed_at width a) count)) }
    ensures none { IsNone result → is_width width ≡ false }
{
    let z = signed(width, a)?;
    pattern(width, z >> count.min(ALL_OUT))
}

/// A number at a greater width, extended by its sign or by zeros; none where one of the widths is none.
pub fn widened(by_sign: bool, from: u8, to: u8, n: u32) -> Option<u32>
    ensures value { IfSome result (λ r. r ≡ (if by_sign then pattern_at to (signed_at from n) else n)) }
    ensures none { IsNone result → (is_width from && is_width to) ≡ false }
{
    if by_sign {
        pattern(to, signed(from, n)?)
    } else {
        Some(n)
    }
}

/// The value of an operator that is no division; 0 for a division; none where the width is none.
pub fn value(operator: BinOp, width: u8, a: u32, b: u32) -> Option<u32>
    ensures value { is_division operator ≡ false → IfSome result (λ r. r ≡ binary_value operator width a b) }
    ensures none { IsNone result → is_width width ≡ false }
{
    let limit = limit(width)?;
    match operator {
        BinOp::Add => wrapped(width, u64::from(a) + u64::from(b)),
        BinOp::Sub => wrapped(width, (u64::from(a) + limit).saturating_sub(u64::from(b))),
        BinOp::Mul => wrapped(width, u64::from(a) * u64::from(b)),
        BinOp::And => Some(a & b),
        BinOp::Or => Some(a | b),
        BinOp::Xor => Some(a ^ b),
        BinOp::Shl => moved_up(width, a, b),
        BinOp::Shr => Some(moved_down(a, b)),
        BinOp::Sar => moved_down_signed(width, a, b),
        BinOp::Eq => Some(u32::from(a == b)),
        BinOp::LtS => Some(u32::from(signed(width, a)? < signed(width, b)?)),
        BinOp::LtU => Some(u32::from(a < b)),
        BinOp::LeS => Some(u32::from(signed(width, a)? <= signed(width, b)?)),
        BinOp::LeU => Some(u32::from(a <= b)),
        BinOp::DivS | BinOp::DivU | BinOp::RemS | BinOp::RemU => Some(0),
    }
}
