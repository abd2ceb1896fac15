//! Operators, brackets and separators.

ghost use Rattle.std.specs.Prelude.{[], ◌∷◌};
ghost use Rattle.dcc_lex.specs.MarkViews.{IsMarkOf, IsFirstMark};

use crate::token::Mark;

// A mark of one byte.
fn short_mark(byte: u8) -> Option<Mark>
    ensures { IsMarkOf result (byte ∷ []) }
{
    match byte {
        b'(' => Some(Mark::OpenParenthesis),
        b')' => Some(Mark::CloseParenthesis),
        b'{' => Some(Mark::OpenBrace),
        b'}' => Some(Mark::CloseBrace),
        b'[' => Some(Mark::OpenBracket),
        b']' => Some(Mark::CloseBracket),
        b';' => Some(Mark::Semicolon),
        b':' => Some(Mark::Colon),
        b',' => Some(Mark::Comma),
        b'=' => Some(Mark::Equals),
        b'?' => Some(Mark::Question),
        b'|' => Some(Mark::Or),
        b'^' => Some(Mark::Xor),
        b'&' => Some(Mark::And),
        b'<' => Some(Mark::Less),
        b'>' => Some(Mark::Greater),
        b'+' => Some(Mark::Plus),
        b'-' => Some(Mark::Minus),
        b'*' => Some(Mark::Star),
        b'/' => Some(Mark::Slash),
        b'%' => Some(Mark::Percent),
        b'~' => Some(Mark::Tilde),
        b'!' => Some(Mark::Exclamation),
        _ => None,
    }
}

// A mark of two bytes.
fn long_mark(first: u8, second: u8) -> Option<Mark>
    ensures { IsMarkOf result (first ∷ second ∷ []) }
{
    match (first, second) {
        (b'|', b'|') => Some(Mark::OrOr),
        (b'&', b'&') => Some(Mark::AndAnd),
        (b'=', b'=') => Some(Mark::EqualsEquals),
        (b'!', b'=') => Some(Mark::NotEquals),
        (b'<', b'=') => Some(Mark::LessEquals),
        (b'>', b'=') => Some(Mark::GreaterEquals),
        (b'<', b'<') => Some(Mark::ShiftLeft),
        (b'>', b'>') => Some(Mark::ShiftRight),
        _ => None,
    }
}

/// A mark that bytes begin with, and the bytes after it.
#[derive(Drop)]
pub struct FoundMark<'a> {
    /// The mark.
    pub mark: Mark,
    /// The bytes after the mark.
    pub rest: &'a [u8],
}

/// The longest mark that the bytes begin with.
pub(crate) fn first_mark(bytes: &[u8]) -> Option<FoundMark<'_>>
    ensures { IsFirstMark result bytes.now }
{
    let (first, after_first) = bytes.split_first()?;
    if let Some((second, rest)) = after_first.split_first() {
        if let Some(mark) = long_mark(*first, *second) {
            return Some(FoundMark { mark, rest });
        }
    }
    Some(FoundMark {
        mark: short_mark(*first)?,
        rest: after_first,
    })
}
