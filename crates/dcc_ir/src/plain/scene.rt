//! What expressions read, and their values.

ghost use Rattle.std.specs.Prelude.{◌≡◌, ℕ, ◌+◌, ◌*◌, ◌/◌, ◌%◌, ◌^◌, ◌<◌, if◌then◌else◌, IfSome};
ghost use Rattle.dcc_ir.specs.Location.{same_location, fill_at};
ghost use Rattle.dcc_ir.specs.Value.{width_of, byte_at, bytes_at, value_of, pattern_at, signed_at};
ghost use Rattle.dcc_ir.specs.Views.{expr_of};
ghost use Rattle.dcc_ir.specs.Plain.{values_of, scene_of};

use super::values::{binary_value, limit, moved_down, pattern, signed, unary_value, wrapped};
use crate::syntax::{Expr, Loc};

/// A location that has taken a value.
#[derive(Clone, Copy, PartialEq, Eq, Debug)]
pub struct Held {
    pub at: Loc,
    pub bits: u32,
}

/// What the expressions of a call read.
#[derive(Drop)]
pub struct View<'a> {
    /// The bits of each temporary.
    pub bits: &'a [u8],
    /// The locations that have taken values, the latest last.
    pub held: &'a [Held],
    /// What the others hold, cut or sign-extended.
    pub fill: u16,
    /// The base of the frame.
    pub base: u16,
    pub memory: &'a [u8],
}

/// Whether the two are one location.
pub fn same_location(a: Loc, b: Loc) -> bool
    ensures { result ≡ same_location a b }
{
    match (a, b) {
        (Loc::Half(r, h), Loc::Half(s, k)) => { r as u8 == s as u8 && h as u8 == k as u8 }
        (Loc::Flag(f), Loc::Flag(g)) => f as u8 == g as u8,
        (Loc::Cell(n, h), Loc::Cell(m, k)) => n == m && h as u8 == k as u8,
        (Loc::Temp(n), Loc::Temp(m)) => n == m,
        _ => false,
    }
}

// The fill, cut or sign-extended to a width.
fn fill_at(width: u8, fill: u16) -> Option<u32>
    ensures { IfSome result (λ r. r ≡ fill_at width fill) }
{
    let n = u64::from(fill);
    wrapped(width, if n >= 0x8000 { n + 0xFFFF_0000 } else { n })
}

// What a location holds.
fn held_by(bits: &[u8], fill: u16, held: &[Held], location: Loc) -> Option<u32>
    ensures { IfSome result (λ r. r ≡ values_of bits.now fill held.now location) }
{
    let mut value = fill_at(location.width(bits), fill)?;
    for h in held {
        if same_location(location, h.at) {
            value = h.bits;
        }
    }
    Some(value)
}

/// The byte at an address, which wraps.
pub fn byte_at(memory: &[u8], address: u32) -> u8
    ensures { result ≡ byte_at memory.now address }
{
    memory
        .get((address % 65_536) as usize)
        .copied()
        .unwrap_or(0)
}

// The word at an address, low byte first.
fn word_at(memory: &[u8], address: u32) -> u32
    requires { address + 1 < 2 ^ 32 }
    ensures word { result ≡ bytes_at memory.now 2 address }
    ensures within { result < 2 ^ 16 }
{
    u32::from(byte_at(memory, address)) + 256 * u32::from(byte_at(memory, address + 1))
}

/// The number of so many bits at an address; none where it is no byte, word or long, or the address is none.
pub fn bits_at(memory: &[u8], width: u8, address: u32) -> Option<u32>
    ensures { IfSome result (λ r. r ≡ bytes_at memory.now (width / 8) address) }
{
    if address >= 0x8000_0000 {
        return None;
    }
    match width {
        8 => Some(u32::from(byte_at(memory, address))),
        16 => Some(word_at(memory, address)),
        32 => Some(word_at(memory, address) + 0x1_0000 * word_at(memory, address + 2)),
        _ => None,
    }
}

/// How many bits an expression has, where these are fewer than 256.
pub fn width_of(bits: &[u8], e: &Expr) -> Option<u8>
    ensures { IfSome result (λ r. r ≡ width_of bits.now (expr_of e.now)) }
{
    match e {
        Expr::Const(width, ..)
        | Expr::Load(width, ..)
        | Expr::Widen(_, width, ..)
        | Expr::Part(width, ..) => Some(*width),
        Expr::Get(location) => Some(location.width(bits)),
        Expr::Un(operator, width, ..) => Some(if operator.is_test() { 1 } else { *width }),
        Expr::Bin(operator, width, ..) => {
            Some(if operator.is_comparison() { 1 } else { *width })
        }
        Expr::Join(high, low) => width_of(bits, high)?.checked_add(width_of(bits, low)?),
        Expr::Choose(_, one, ..) => width_of(bits, one),
        Expr::Address(_) => Some(16),
    }
}

// A number at a greater width, extended by its sign or by zeros.
fn widened(by_sign: bool, from: u8, to: u8, n: u32) -> Option<u32>
    ensures { IfSome result (λ r. r ≡ (if by_sign then pattern_at to (signed_at from n) else n)) }
{
    if by_sign {
        pattern(to, signed(from, n)?)
    } else {
        Some(n)
    }
}

// A number from its upper and its lower half, of so many bits, where it has at most 32.
fn joined(high: u32, width: u8, low: u32) -> Option<u32>
    ensures { IfSome result (λ r. r ≡ high * 2 ^ width + low) }
{
    let n = u64::from(high)
        .checked_mul(limit(width)?)?
        .checked_add(u64::from(low))?;
    u32::try_from(n).ok()
}

/// The value of an expression, where it and what it is made of have at most 32 bits.
pub fn value_of(view: &View<'_>, e: &Expr) -> Option<u32>
    ensures { IfSome result (λ r. r ≡ value_of (scene_of view.now) (expr_of e.now)) }
{
    match e {
        Expr::Const(_, number) => Some(*number),
        Expr::Get(location) => held_by(view.bits, view.fill, view.held, *location),
        Expr::Load(width, address) => bits_at(view.memory, *width, value_of(view, address)?),
        Expr::Un(operator, width, operand) => {
            let n = value_of(view, operand)?;
            unary_value(*operator, *width, n)
        }
        Expr::Bin(operator, width, left, right) => {
            let (a, b) = (value_of(view, left)?, value_of(view, right)?);
            binary_value(*operator, *width, a, b)
        }
        Expr::Widen(by_sign, width, operand) => {
            let from = width_of(view.bits, operand)?;
            widened(*by_sign, from, *width, value_of(view, operand)?)
        }
        Expr::Part(width, first, operand) => {
            let moved = moved_down(value_of(view, operand)?, u32::from(*first));
            wrapped(*width, u64::from(moved))
        }
        Expr::Join(high, low) => {
            let width = width_of(view.bits, low)?;
            joined(value_of(view, high)?, width, value_of(view, low)?)
        }
        Expr::Choose(test, one, other) => {
            if value_of(view, test)? == 1 {
                value_of(view, one)
            } else {
                value_of(view, other)
            }
        }
        Expr::Address(distance) => Some((u32::from(view.base) + u32::from(*distance)) % 65_536),
    }
}
