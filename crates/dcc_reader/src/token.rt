//! Tests of a token.

ghost use Rattle.std.specs.Prelude.{◌≡◌, Some};
ghost use Rattle.std.specs.Option.{option_map};
ghost use Rattle.dcc_c.specs.Token as tokens;
ghost use Rattle.dcc_c.specs.Reading as reading;
ghost use Rattle.dcc_c.specs.ReadingStatements as statements;
ghost use Rattle.dcc_lex.specs.TokenViews.{mark_of, head_of, keyword_of, token_of};

use dcc_lex::{Head, Keyword, Mark, Suffix, Token};

// Whether two marks are the same.
fn same_mark(left: Mark, right: Mark) -> bool
    ensures { result ≡ tokens.same_bytes (mark_of left) (mark_of right) }
{
    left == right
}

// Whether the words of two pragmas are the same.
fn same_head(left: Head, right: Head) -> bool
    ensures { result ≡ statements.is_the_head (head_of right) (Some (tokens.Pragma (head_of left))) }
{
    left == right
}

// Whether two keywords are the same.
fn same_keyword(left: Keyword, right: Keyword) -> bool
    ensures { result ≡ tokens.same_bytes (keyword_of left) (keyword_of right) }
{
    left == right
}

/// Whether the token is the mark.
pub(crate) fn is_the_mark(token: Option<&Token>, mark: Mark) -> bool
    ensures { result ≡ reading.is_the_mark (mark_of mark) (option_map (λ t. token_of t.now) token.entry) }
{
    match token {
        Some(Token::Mark(seen)) => same_mark(*seen, mark),
        _ => false,
    }
}

/// Whether the token is the keyword.
pub(crate) fn is_the_word(token: Option<&Token>, keyword: Keyword) -> bool
    ensures { result ≡ reading.is_the_word (keyword_of keyword) (option_map (λ t. token_of t.now) token.entry) }
{
    match token {
        Some(Token::Keyword(seen)) => same_keyword(*seen, keyword),
        _ => false,
    }
}

/// Whether the token is the words of the pragma.
pub(crate) fn is_the_head(token: Option<&Token>, head: Head) -> bool
    ensures { result ≡ statements.is_the_head (head_of head) (option_map (λ t. token_of t.now) token.entry) }
{
    match token {
        Some(Token::Pragma(seen)) => same_head(*seen, head),
        _ => false,
    }
}

/// The name that the token is: a word that is no keyword.
pub(crate) fn name_of<'a>(token: Option<&Token<'a>>) -> Option<&'a str>
    ensures { option_map (λ word. word.now) result ≡ reading.name_of (option_map (λ t. token_of t.now) token.entry) }
{
    match token {
        Some(Token::Name(name)) => Some(name.word),
        _ => None,
    }
}

/// Whether a type begins with the token.
pub(crate) fn begins_type(token: Option<&Token>) -> bool
    ensures { result ≡ reading.begins_type (option_map (λ t. token_of t.now) token.entry) }
{
    let Some(Token::Keyword(keyword)) = token else {
        return false;
    };
    matches!(
        keyword,
        Keyword::Signed | Keyword::Unsigned | Keyword::Int | Keyword::Long
    )
}

/// The decimal number without suffix that the token is.
pub(crate) fn plain_of(token: Option<&Token>) -> Option<u32>
    ensures { result ≡ reading.plain_of (option_map (λ t. token_of t.now) token.entry) }
{
    match token {
        Some(Token::Decimal(value, Suffix::Plain)) => Some(*value),
        _ => None,
    }
}
