//! Numbers: decimal and hexadecimal, each with its suffix.

ghost use Rattle.std.specs.Prelude.{◌≡◌, ◌≤◌, length, true, option_map};
ghost use Rattle.std.specs.List.{list_all};
ghost use Rattle.dcc_c.specs.Token as tokens;
ghost use Rattle.dcc_c.specs.Pieces as spec;
ghost use Rattle.dcc_lex.specs.TokenViews as views;
ghost use Rattle.dcc_lex.specs.NumberViews.{is_short, decimal_value};

use crate::bytes::{ByteKind, after, hex_value, same_bytes};
use crate::token::{Suffix, Token};

// The suffix that the bytes are.
fn suffix_of(bytes: &[u8]) -> Option<Suffix>
    ensures { option_map views.suffix_of result ≡ spec.suffix_of bytes.now }
{
    if same_bytes(bytes, b"") {
        Some(Suffix::Plain)
    } else if same_bytes(bytes, b"U") {
        Some(Suffix::Unsigned)
    } else if same_bytes(bytes, b"L") {
        Some(Suffix::Long)
    } else if same_bytes(bytes, b"UL") {
        Some(Suffix::UnsignedLong)
    } else {
        None
    }
}

// Whether the digits are one to ten, without a needless zero.
fn is_short(digits: &[u8]) -> bool
    ensures { result ≡ is_short digits.now }
{
    match digits.first() {
        None => false,
        Some(first) => digits.len() == 1 || (digits.len() <= 10 && *first != b'0'),
    }
}

// The value of at most ten decimal digits.
fn value_of(digits: &[u8]) -> u64
    requires digits { list_all tokens.is_digit digits.now ≡ true }
    requires few { length digits.now ≤ 10 }
    ensures { result ≡ spec.decimal_from 0 digits.now }
{
    let mut value = 0u64;
    for digit in digits {
        value = 10 * value + u64::from(*digit - b'0');
    }
    value
}

// The value of decimal digits without a needless zero, if it is at most 4294967295.
fn decimal_value(digits: &[u8]) -> Option<u32>
    requires { list_all tokens.is_digit digits.now ≡ true }
    ensures { result ≡ decimal_value digits.now }
{
    if !is_short(digits) {
        return None;
    }
    let value = value_of(digits);
    if value <= 4294967295 {
        Some(value as u32)
    } else {
        None
    }
}

// The decimal number that the bytes are.
#[tactic(auto, using(crate::proofs::Numbers::decimal_none, crate::proofs::Numbers::decimal_some))]
fn decimal_of(bytes: &[u8]) -> Option<Token<'static>>
    ensures { option_map views.token_of result ≡ spec.decimal_of bytes.now }
{
    let (digits, rest) = ByteKind::Digit.split(bytes);
    let value = decimal_value(digits)?;
    let suffix = suffix_of(rest)?;
    Some(Token::Decimal(value, suffix))
}

// The value of at most eight hexadecimal digits.
fn hex_number(digits: &[u8]) -> u32
    requires digits { list_all spec.is_hex_digit digits.now ≡ true }
    requires few { length digits.now ≤ 8 }
    ensures { result ≡ tokens.hex_from 0 digits.now }
{
    let mut value = 0u32;
    for digit in digits {
        value = 16 * value + u32::from(hex_value(*digit));
    }
    value
}

// The hexadecimal number that the bytes are after `0x`.
fn hex_of(bytes: &[u8]) -> Option<Token<'static>>
    ensures { option_map views.token_of result ≡ spec.hex_of bytes.now }
{
    let (digits, rest) = ByteKind::HexDigit.split(bytes);
    if digits.is_empty() || digits.len() > 8 {
        return None;
    }
    let suffix = suffix_of(rest)?;
    Some(Token::Hex(hex_number(digits), suffix))
}

/// The number that a run of letters, digits and `_` is.
pub fn number_of(run: &[u8]) -> Option<Token<'static>>
    ensures { option_map views.token_of result ≡ spec.number_of run.now }
{
    match after(b"0x", run) {
        Some(digits) => hex_of(digits),
        None => decimal_of(run),
    }
}
