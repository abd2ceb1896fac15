//! The words of pragmas.

ghost use Rattle.std.specs.Prelude.{◌≡◌, None, option_map};
ghost use Rattle.dcc_c.specs.Pieces as spec;
ghost use Rattle.dcc_lex.specs.TokenViews as views;
ghost use Rattle.dcc_lex.specs.HeadViews.{found_of};

use crate::bytes::{after, is_line_end, is_word_end};
use crate::token::Head;

/// A pragma whose words bytes begin with, and the bytes after them.
#[derive(Drop)]
pub struct FoundHead<'a> {
    /// What the pragma is about.
    pub head: Head,
    /// The bytes after the pragma's words.
    pub rest: &'a [u8],
}

// The words of a pragma, without the number of the version line.
fn pragma_words(head: Head) -> &'static [u8]
    ensures { result.now ≡ spec.pragma_words (views.head_of head) }
{
    match head {
        Head::Version => b"#pragma dcc text",
        Head::Stack => b"#pragma dcc stack",
        Head::Place => b"#pragma dcc at",
        Head::Depth => b"#pragma dcc depth",
    }
}

// The given pragma, if the bytes begin with its words.
fn head_if(head: Head, bytes: &[u8]) -> Option<FoundHead<'_>>
    ensures { option_map found_of result
        ≡ spec.head_if (views.head_of head) (spec.after (spec.pragma_words (views.head_of head)) bytes.now) None }
{
    let rest = after(pragma_words(head), bytes)?;
    if is_word_end(rest) {
        Some(FoundHead { head, rest })
    } else {
        None
    }
}

/// The pragma whose words the bytes begin with.
pub fn head_of(bytes: &[u8]) -> Option<FoundHead<'_>>
    ensures { option_map found_of result ≡ spec.head_of bytes.now }
{
    if let Some(found) = head_if(Head::Version, bytes) {
        return Some(found);
    }
    if let Some(found) = head_if(Head::Stack, bytes) {
        return Some(found);
    }
    if let Some(found) = head_if(Head::Place, bytes) {
        return Some(found);
    }
    head_if(Head::Depth, bytes)
}

/// The bytes after the version line, which is the first line; None where it is another.
pub fn after_version(bytes: &[u8]) -> Option<&[u8]>
    ensures { option_map (λ rest. rest.now) result ≡ spec.after_version bytes.now }
{
    let rest = after(b"#pragma dcc text 1", bytes)?;
    if is_line_end(rest) { Some(rest) } else { None }
}
