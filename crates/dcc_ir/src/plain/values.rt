//! Numbers of a width, and the operators on them.

ghost use Rattle.std.specs.Prelude.{if◌then◌else◌, ◌≡◌, ℕ, ◌-◌, ◌*◌, ◌/◌, ◌%◌, ◌^◌, ◌<◌, ◌≤◌, ◌<ℤ◌, ◌≤ℤ◌, pos, neg_ℤ};
ghost use Rattle.std.specs.Prelude.{int_div, int_rem, IfSome};
ghost use Rattle.dcc_num.specs.Numbers.{residue_of, halved_of};
ghost use Rattle.dcc_ir.specs.Value.{signed_at, pattern_at, faults_signed, divided_signed, division_at, unary_value};
ghost use Rattle.dcc_ir.specs.Value.{binary_value};

use crate::syntax::{BinOp, UnOp};

/// How many numbers a width has; none for what is no width.
pub fn limit(width: u8) -> Option<u64>
    ensures value { IfSome result (λ n. n ≡ 2 ^ width) }
    ensures some { IfSome result (λ n. 0 < n) }
    ensures size { IfSome result (λ n. n ≤ 2 ^ 32) }
    ensures narrow { IfSome result (λ n. width ≤ 32) }
{
    match width {
        1 => Some(2),
        8 => Some(0x100),
        16 => Some(0x1_0000),
        32 => Some(0x1_0000_0000),
        _ => None,
    }
}

// The least number of a width with the sign bit.
fn half(width: u8) -> Option<u64>
    ensures { IfSome result (λ n. n ≡ 2 ^ (width - 1)) }
{
    match width {
        1 => Some(1),
        8 => Some(0x80),
        16 => Some(0x8000),
        32 => Some(0x8000_0000),
        _ => None,
    }
}

/// The low bits of a number.
pub fn wrapped(width: u8, n: u64) -> Option<u32>
    ensures { IfSome result (λ r. r ≡ n % 2 ^ width) }
{
    let limit = limit(width)?;
    Some((n % limit) as u32)
}

/// The number that the bits stand for in two's complement.
pub fn signed(width: u8, a: u32) -> Option<i64>
    ensures value { IfSome result (λ z. z ≡ signed_at width a) }
    ensures low { IfSome result (λ z. neg_ℤ (pos (2 ^ 32)) ≤ℤ z) }
    ensures high { IfSome result (λ z. z <ℤ pos (2 ^ 32)) }
{
    let limit = limit(width)?;
    let half = half(width)?;
    let number = i64::from(a);
    Some(if u64::from(a) >= half {
        number - limit as i64
    } else {
        number
    })
}

/// The bits of a signed number.
pub(crate) fn pattern(width: u8, z: i64) -> Option<u32>
    ensures { IfSome result (λ r. r ≡ pattern_at width z) }
{
    let limit = limit(width)?;
    Some(z.rem_euclid(limit as i64) as u32)
}

/// The value of an operator on one operand.
pub fn unary_value(operator: UnOp, width: u8, a: u32) -> Option<u32>
    ensures { IfSome result (λ r. r ≡ unary_value operator width a) }
{
    let limit = limit(width)?;
    match operator {
        UnOp::Neg => wrapped(width, limit.saturating_sub(u64::from(a))),
        UnOp::Not => Some((limit - 1).saturating_sub(u64::from(a)) as u32),
        UnOp::IsZero => Some(u32::from(a == 0)),
    }
}

/// A count at which nothing is left of a number.
const ALL_OUT: u32 = 32;

// The bits moved up, with 0 coming in.
fn moved_up(width: u8, a: u32, count: u32) -> Option<u32>
    ensures { IfSome result (λ r. r ≡ a * 2 ^ count % 2 ^ width) }
{
    let limit = limit(width)?;
    if count >= ALL_OUT {
        return Some(0);
    }
    Some(((u64::from(a) << count) % limit) as u32)
}

/// The bits moved down, with 0 coming in.
pub fn moved_down(a: u32, count: u32) -> u32
    ensures { result ≡ a / 2 ^ count }
{
    if count >= ALL_OUT { 0 } else { a >> count }
}

// The bits moved down, with copies of the sign coming in.
fn moved_down_signed(width: u8, a: u32, count: u32) -> Option<u32>
    ensures { IfSome result (λ r. r ≡ pattern_at width (halved_of (signed_at width a) count)) }
{
    let z = signed(width, a)?;
    pattern(width, z >> count.min(ALL_OUT))
}

// Whether a division of signed numbers faults.
fn faults_signed(width: u8, a: u32, b: u32) -> Option<bool>
    ensures { IfSome result (λ r. r ≡ faults_signed width a b) }
{
    let limit = limit(width)?;
    let half = half(width)?;
    Some(b == 0 || (u64::from(a) == half && u64::from(b) == limit - 1))
}

// The quotient or remainder of signed numbers, or none where the division faults; none around it where the numbers have
// not the width.
fn signed_division(remainder: bool, width: u8, a: u32, b: u32) -> Option<Option<u32>>
    ensures { IfSome result (λ r. r ≡ divided_signed (if remainder then int_rem else int_div) width a b) }
{
    if faults_signed(width, a, b)? {
        return Some(None);
    }
    let dividend = signed(width, a)?;
    let by = signed(width, b)?;
    if by == 0 {
        return None;
    }
    if remainder {
        Some(Some(pattern(width, dividend % by)?))
    } else {
        Some(Some(pattern(width, dividend / by)?))
    }
}

/// The quotient or remainder of a division, or none where it faults; none around it where the numbers have not the
/// width.
pub fn division(operator: BinOp, width: u8, a: u32, b: u32) -> Option<Option<u32>>
    ensures { IfSome result (λ r. r ≡ division_at operator width a b) }
{
    match operator {
        BinOp::DivU if b != 0 => Some(Some(a / b)),
        BinOp::RemU if b != 0 => Some(Some(a % b)),
        BinOp::DivS => signed_division(false, width, a, b),
        BinOp::RemS => signed_division(true, width, a, b),
        _ => Some(None),
    }
}

/// The value of an operator on two operands.
pub fn binary_value(operator: BinOp, width: u8, a: u32, b: u32) -> Option<u32>
    ensures { IfSome result (λ r. r ≡ binary_value operator width a b) }
{
    let limit = limit(width)?;
    match operator {
        BinOp::Add => wrapped(width, u64::from(a) + u64::from(b)),
        BinOp::Sub => wrapped(width, (u64::from(a) + limit).saturating_sub(u64::from(b))),
        BinOp::Mul => wrapped(width, u64::from(a) * u64::from(b)),
        BinOp::And => Some(a & b),
        BinOp::Or => Some(a | b),
        BinOp::Xor => Some(a ^ b),
        BinOp::Shl => moved_up(width, a, b),
        BinOp::Shr => Some(moved_down(a, b)),
        BinOp::Sar => moved_down_signed(width, a, b),
        BinOp::Eq => Some(u32::from(a == b)),
        BinOp::LtS => Some(u32::from(signed(width, a)? < signed(width, b)?)),
        BinOp::LtU => Some(u32::from(a < b)),
        BinOp::LeS => Some(u32::from(signed(width, a)? <= signed(width, b)?)),
        BinOp::LeU => Some(u32::from(a <= b)),
        BinOp::DivS | BinOp::DivU | BinOp::RemS | BinOp::RemU => {
            Some(division(operator, width, a, b)?.unwrap_or(0))
        }
    }
}
