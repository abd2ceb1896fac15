//! Numbers and operators among tokens.

ghost use Rattle.std.specs.Prelude.{◌≡◌, Some};
ghost use Rattle.std.specs.Option.{option_map};
ghost use Rattle.dcc_c.specs.Token as tokens;
ghost use Rattle.dcc_c.specs.Grammar as grammar;
ghost use Rattle.dcc_c.specs.Reading as reading;
ghost use Rattle.dcc_lex.specs.TokenViews.{mark_of, suffix_of, token_of};
ghost use Rattle.dcc_reader.specs.OperatorViews.{typed_of};

use dcc_c::{Base, CBin, CUn};
use dcc_lex::{Mark, Suffix, Token};

/// A number and its type.
#[derive(Clone, Copy)]
pub struct TypedNumber {
    /// The number.
    pub value: u32,
    /// The type of the number.
    pub base: Base,
}

// The type of a decimal number.
fn decimal_type(value: u32, suffix: Suffix) -> Base
    ensures { result ≡ tokens.decimal_type value (suffix_of suffix) }
{
    match suffix {
        Suffix::Plain if value <= 32767 => Base::Int,
        Suffix::Unsigned if value <= 65535 => Base::Uint,
        Suffix::Plain | Suffix::Long if value <= 2147483647 => Base::Long,
        _ => Base::Ulong,
    }
}

// The type of a number in hexadecimal.
fn hex_type(value: u32, suffix: Suffix) -> Base
    ensures { result ≡ tokens.hex_type value (suffix_of suffix) }
{
    match suffix {
        Suffix::Plain if value <= 32767 => Base::Int,
        Suffix::Plain | Suffix::Unsigned if value <= 65535 => Base::Uint,
        Suffix::Plain | Suffix::Long if value <= 2147483647 => Base::Long,
        _ => Base::Ulong,
    }
}

/// The number that the token is, with its type.
pub fn number_of(token: Option<&Token>) -> Option<TypedNumber>
    ensures { option_map typed_of result ≡ reading.number_of (option_map (λ t. token_of t.now) token.entry) }
{
    match token {
        Some(Token::Decimal(value, suffix)) => Some(TypedNumber {
            value: *value,
            base: decimal_type(*value, *suffix),
        }),
        Some(Token::Hex(value, suffix)) => Some(TypedNumber {
            value: *value,
            base: hex_type(*value, *suffix),
        }),
        _ => None,
    }
}

// The mark that the token is.
fn mark_in(token: Option<&Token>) -> Option<Mark>
    ensures unary { reading.unary_of (option_map (λ t. tokens.Mark (mark_of t)) result)
        ≡ reading.unary_of (option_map (λ t. token_of t.now) token.entry) }
    ensures binary { reading.binary_of (option_map (λ t. tokens.Mark (mark_of t)) result)
        ≡ reading.binary_of (option_map (λ t. token_of t.now) token.entry) }
{
    match token {
        Some(Token::Mark(mark)) => Some(*mark),
        _ => None,
    }
}

// The unary operator that a mark stands for.
fn unary_with(mark: Mark) -> Option<CUn>
    ensures { result ≡ reading.unary_of (Some (tokens.Mark (mark_of mark))) }
{
    match mark {
        Mark::Minus => Some(CUn::Minus),
        Mark::Tilde => Some(CUn::Complement),
        Mark::Exclamation => Some(CUn::Not),
        Mark::Star => Some(CUn::Deref),
        Mark::And => Some(CUn::AddressOf),
        _ => None,
    }
}

// The binary operator that a mark stands for.
fn binary_with(mark: Mark) -> Option<CBin>
    ensures { result ≡ reading.binary_of (Some (tokens.Mark (mark_of mark))) }
{
    match mark {
        Mark::OrOr => Some(CBin::OrOr),
        Mark::AndAnd => Some(CBin::AndAnd),
        Mark::Or => Some(CBin::Or),
        Mark::Xor => Some(CBin::Xor),
        Mark::And => Some(CBin::And),
        Mark::EqualsEquals => Some(CBin::Eq),
        Mark::NotEquals => Some(CBin::Ne),
        Mark::Less => Some(CBin::Lt),
        Mark::LessEquals => Some(CBin::Le),
        Mark::Greater => Some(CBin::Gt),
        Mark::GreaterEquals => Some(CBin::Ge),
        Mark::ShiftLeft => Some(CBin::Shl),
        Mark::ShiftRight => Some(CBin::Shr),
        Mark::Plus => Some(CBin::Add),
        Mark::Minus => Some(CBin::Sub),
        Mark::Star => Some(CBin::Mul),
        Mark::Slash => Some(CBin::Div),
        Mark::Percent => Some(CBin::Rem),
        _ => None,
    }
}

/// The unary operator that the token is.
pub fn unary_of(token: Option<&Token>) -> Option<CUn>
    ensures { result ≡ reading.unary_of (option_map (λ t. token_of t.now) token.entry) }
{
    unary_with(mark_in(token)?)
}

/// The binary operator that the token is.
pub fn binary_of(token: Option<&Token>) -> Option<CBin>
    ensures { result ≡ reading.binary_of (option_map (λ t. token_of t.now) token.entry) }
{
    binary_with(mark_in(token)?)
}

/// The strength of a binary operator: operators of more of it are joined first.
pub fn strength(operator: CBin) -> u8
    ensures { result ≡ grammar.strength operator }
{
    match operator {
        CBin::OrOr => 1,
        CBin::AndAnd => 2,
        CBin::Or => 3,
        CBin::Xor => 4,
        CBin::And => 5,
        CBin::Eq | CBin::Ne => 6,
        CBin::Lt | CBin::Le | CBin::Gt | CBin::Ge => 7,
        CBin::Shl | CBin::Shr => 8,
        CBin::Add | CBin::Sub => 9,
        CBin::Mul | CBin::Div | CBin::Rem => 10,
    }
}
