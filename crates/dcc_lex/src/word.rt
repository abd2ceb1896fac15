//! Words, and the tokens that runs of letters, digits and `_` are.

ghost use Rattle.std.specs.Prelude.{◌≡◌, true, false, MatchOption, Some, option_map, get_or};
ghost use Rattle.std.specs.List.{list_all};
ghost use Rattle.dcc_c.specs.Token as tokens;
ghost use Rattle.dcc_c.specs.Pieces as spec;
ghost use Rattle.dcc_lex.specs.TokenViews as views;
ghost use Rattle.dcc_lex.specs.WordViews.{word_token};

use crate::bytes::is_digit;
use crate::number::number_of;
use crate::text::first_byte;
use crate::token::{Keyword, Name, Suffix, Token};
use std::str;

// Whether the first of the bytes is a digit.
fn begins_number(run: &[u8]) -> bool
    ensures { result ≡ tokens.is_digit (get_or run.now 0 0) }
{
    run.first().is_some_and(|first| is_digit(*first))
}

// The text of a run of letters, digits and `_` that begins with no digit, where it is a word.
fn word_in(run: &[u8]) -> Option<&str>
    requires run { list_all tokens.is_word_byte run.now ≡ true }
    requires other { tokens.is_digit (get_or run.now 0 0) ≡ false }
    ensures { MatchOption result (tokens.is_word run.now ≡ false)
        (λ word. (tokens.is_word run.now ≡ true) × (word.now ≡ run.now)) }
{
    if run.is_empty() || run.len() > 31 {
        return None;
    }
    match str::from_utf8(run) {
        Ok(word) => Some(word),
        Err(_) => unreachable!(),
    }
}

// The token that a word is which begins with a letter from `a` to `c`.
fn token_from_a(word: &str) -> Option<Token<'_>>
    requires word { tokens.is_word word.now ≡ true }
    requires first { tokens.is_between 97 99 (get_or word.now 0 0) ≡ true }
    ensures { option_map views.token_of result ≡ word_token word.now }
{
    match word {
        "auto" => Some(Token::Keyword(Keyword::Auto)),
        "break" => Some(Token::Keyword(Keyword::Break)),
        "case" => Some(Token::Keyword(Keyword::Case)),
        "char" => Some(Token::Keyword(Keyword::Char)),
        "continue" => Some(Token::Keyword(Keyword::Continue)),
        "const" => None,
        _ => Some(Token::Name(Name { word })),
    }
}

// The token that a word is which begins with a letter from `d` to `f`.
fn token_from_d(word: &str) -> Option<Token<'_>>
    requires word { tokens.is_word word.now ≡ true }
    requires first { tokens.is_between 100 102 (get_or word.now 0 0) ≡ true }
    ensures { option_map views.token_of result ≡ word_token word.now }
{
    match word {
        "default" => Some(Token::Keyword(Keyword::Default)),
        "do" => Some(Token::Keyword(Keyword::Do)),
        "else" => Some(Token::Keyword(Keyword::Else)),
        "for" => Some(Token::Keyword(Keyword::For)),
        "double" | "enum" | "extern" | "float" => None,
        _ => Some(Token::Name(Name { word })),
    }
}

// The token that a word is which begins with a letter from `g` to `r`.
fn token_from_g(word: &str) -> Option<Token<'_>>
    requires word { tokens.is_word word.now ≡ true }
    requires first { tokens.is_between 103 114 (get_or word.now 0 0) ≡ true }
    ensures { option_map views.token_of result ≡ word_token word.now }
{
    match word {
        "goto" => Some(Token::Keyword(Keyword::Goto)),
        "if" => Some(Token::Keyword(Keyword::If)),
        "int" => Some(Token::Keyword(Keyword::Int)),
        "long" => Some(Token::Keyword(Keyword::Long)),
        "register" => Some(Token::Keyword(Keyword::Register)),
        "return" => Some(Token::Keyword(Keyword::Return)),
        _ => Some(Token::Name(Name { word })),
    }
}

// The token that a word is which begins with a letter from `s` to `w`.
fn token_from_s(word: &str) -> Option<Token<'_>>
    requires word { tokens.is_word word.now ≡ true }
    requires first { tokens.is_between 115 119 (get_or word.now 0 0) ≡ true }
    ensures { option_map views.token_of result ≡ word_token word.now }
{
    match word {
        "signed" => Some(Token::Keyword(Keyword::Signed)),
        "switch" => Some(Token::Keyword(Keyword::Switch)),
        "unsigned" => Some(Token::Keyword(Keyword::Unsigned)),
        "void" => Some(Token::Keyword(Keyword::Void)),
        "while" => Some(Token::Keyword(Keyword::While)),
        "short" | "sizeof" | "static" | "struct" | "typedef" | "union" | "volatile" => None,
        _ => Some(Token::Name(Name { word })),
    }
}

// The token that a word is: a keyword or a name; None for a keyword of ISO C90 that the grammar does not have.
fn token_of_text(word: &str) -> Option<Token<'_>>
    requires { tokens.is_word word.now ≡ true }
    ensures { option_map views.token_of result ≡ word_token word.now }
{
    match first_byte(word) {
        b'a'..=b'c' => token_from_a(word),
        b'd'..=b'f' => token_from_d(word),
        b'g'..=b'r' => token_from_g(word),
        b's'..=b'w' => token_from_s(word),
        _ => Some(Token::Name(Name { word })),
    }
}

/// The token that a run of letters, digits and `_` is.
pub(crate) fn token_of_word(run: &[u8]) -> Option<Token<'_>>
    requires { list_all tokens.is_word_byte run.now ≡ true }
    ensures { option_map views.token_of result ≡ spec.token_of_word run.now }
{
    if begins_number(run) {
        return number_of(run);
    }
    token_of_text(word_in(run)?)
}

/// The decimal number without suffix that a run of letters, digits and `_` is.
pub fn plain_number(run: &[u8]) -> Option<u32>
    ensures { MatchOption result (spec.is_plain (spec.token_of_word run.now) ≡ false)
        (λ n. spec.token_of_word run.now ≡ Some (tokens.Decimal n tokens.plain_number)) }
{
    let first = run.first()?;
    if !is_digit(*first) {
        return None;
    }
    match number_of(run)? {
        Token::Decimal(n, Suffix::Plain) => Some(n),
        _ => None,
    }
}
