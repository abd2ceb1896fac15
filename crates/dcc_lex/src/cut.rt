//! The first bytes of a text: a piece or none, and where the text goes on.

ghost use Rattle.std.specs.Prelude.{◌≡◌, ◌+◌, ◌<◌, ◌≤◌, length, true, false, [], ◌∷◌, MatchOption, Some, None};
ghost use Rattle.std.specs.Prelude.{option_map, option_to_list};
ghost use Rattle.std.specs.Option.{ForNone};
ghost use Rattle.dcc_c.specs.Pieces as spec;
ghost use Rattle.dcc_lex.specs.TokenViews as views;
ghost use Rattle.dcc_lex.specs.HeadViews.{found_of};
ghost use Rattle.dcc_lex.specs.CutViews as cuts;

use crate::bytes::{ByteKind, is_blank, is_line_end};
use crate::mark::first_mark;
use crate::pragma::{FoundHead, head_of};
use crate::token::{Head, Piece, Suffix, Token};
use crate::word::{plain_number, token_of_word};

/// Where in a line bytes begin.
#[derive(Clone, Copy, PartialEq, Eq, Debug)]
pub enum Spot {
    /// At the beginning of a line.
    LineStart,
    /// In a line of tokens.
    InLine,
    /// After the words of a pragma or one of its numbers.
    InPragma,
    /// After blanks in a pragma's line, where no token may stand.
    InBlanks,
}

/// A piece or none, and where the text goes on.
#[derive(Clone, Copy)]
pub struct Cut<'a> {
    /// The piece; None for a line feed and for blanks between tokens.
    pub piece: Option<Piece<'a>>,
    /// Where in a line the bytes after the piece begin.
    pub spot: Spot,
    /// The line where the other bytes begin, from 1.
    pub line: u32,
    /// The bytes after the piece.
    pub rest: &'a [u8],
}

impl<'a> Cut<'a> {
    // A token or bytes that are none, and where the text goes on in their line.
    fn with_piece(token: Option<Token<'a>>, spot: Spot, line: u32, rest: &'a [u8]) -> Cut<'a>
        ensures { cuts.cut_of result
            ≡ spec.cut (spec.piece line (option_map views.token_of token.entry) ∷ [])
            (cuts.spot_of spot) line rest.now }
    {
        let piece = Some(Piece { token, line });
        Cut {
            piece,
            spot,
            line,
            rest,
        }
    }

    // A line feed or blanks, and where the text goes on.
    fn without_piece(spot: Spot, line: u32, rest: &'a [u8]) -> Cut<'a>
        ensures cut { cuts.cut_of result ≡ spec.cut [] (cuts.spot_of spot) line rest.now }
        ensures none { result.piece ≡ None }
    {
        Cut {
            piece: None,
            spot,
            line,
            rest,
        }
    }
}

// A token that the grammar allows nowhere but in the version line, for a token that may not stand at its place.
fn stray() -> Option<Token<'static>>
    ensures { option_map views.token_of result ≡ Some spec.stray }
{
    Some(Token::Pragma(Head::Version))
}

// Whether no token may stand here but a number after one space.
fn is_of_pragma(spot: Spot) -> bool
    ensures { result ≡ spec.is_of_pragma (cuts.spot_of spot) }
{
    matches!(spot, Spot::InPragma | Spot::InBlanks)
}

// The token at a spot; in the line of a pragma one that may stand nowhere.
fn allowed_at<'a>(spot: Spot, token: Option<Token<'a>>) -> Option<Token<'a>>
    ensures { option_map views.token_of result
        ≡ spec.allowed_at (cuts.spot_of spot) (option_map views.token_of token.entry) }
{
    if token.is_some() && is_of_pragma(spot) {
        return stray();
    }
    token
}

// The cut of the words of a pragma, which begins at the beginning of a line.
fn head_cut<'a>(spot: Spot, line: u32, found: FoundHead<'a>) -> Cut<'a>
    ensures { cuts.cut_of result ≡ spec.cut_head (cuts.spot_of spot) line (found_of found.entry) }
{
    if spot == Spot::LineStart {
        return Cut::with_piece(
            Some(Token::Pragma(found.head)),
            Spot::InPragma,
            line,
            found.rest,
        );
    }
    Cut::with_piece(stray(), Spot::InLine, line, found.rest)
}

// The cut of a token that may stand at the spot, or of bytes that are none.
fn token_piece<'a>(spot: Spot, line: u32, token: Option<Token<'a>>, rest: &'a [u8]) -> Cut<'a>
    ensures { cuts.cut_of result
        ≡ spec.cut (spec.piece line (spec.allowed_at (cuts.spot_of spot) (option_map views.token_of token.entry)) ∷ [])
        spec.in_line line rest.now }
{
    Cut::with_piece(allowed_at(spot, token), Spot::InLine, line, rest)
}

// The cut of a mark, of the words of a pragma, or of a byte that begins no token.
fn mark_cut(spot: Spot, line: u32, bytes: &[u8]) -> Cut<'_>
    requires { 0 < length bytes.now }
    ensures { cuts.cut_of result ≡ cuts.mark_cut (cuts.spot_of spot) line bytes.now }
{
    if let Some(found) = first_mark(bytes) {
        return token_piece(spot, line, Some(Token::Mark(found.mark)), found.rest);
    }
    if let Some(found) = head_of(bytes) {
        return head_cut(spot, line, found);
    }
    Cut::with_piece(None, Spot::InLine, line, &bytes[1..])
}

// The cut of a run of letters, digits and `_`, or of another byte.
fn token_cut(spot: Spot, line: u32, bytes: &[u8]) -> Cut<'_>
    requires { 0 < length bytes.now }
    ensures { cuts.cut_of result ≡ cuts.token_cut (cuts.spot_of spot) line bytes.now }
{
    let (run, rest) = ByteKind::WordByte.split(bytes);
    if run.is_empty() {
        return mark_cut(spot, line, bytes);
    }
    token_piece(spot, line, token_of_word(run), rest)
}

// The cut of a run of spaces and tabs: in the line of a pragma something stands after it, else it offends itself.
fn blank_cut(spot: Spot, line: u32, bytes: &[u8]) -> Cut<'_>
    ensures { cuts.cut_of result ≡ cuts.blank_run (cuts.spot_of spot) line bytes.now }
{
    let (_blanks, rest) = ByteKind::Blank.split(bytes);
    if !is_of_pragma(spot) {
        Cut::without_piece(Spot::InLine, line, rest)
    } else if is_line_end(rest) {
        Cut::with_piece(stray(), Spot::InLine, line, rest)
    } else {
        Cut::without_piece(Spot::InBlanks, line, rest)
    }
}

// The cut of the number of a pragma, after one space.
fn number_cut(spot: Spot, line: u32, bytes: &[u8]) -> Option<Cut<'_>>
    ensures { MatchOption result (cuts.has_number (cuts.spot_of spot) bytes.now ≡ false)
        (λ c. (cuts.has_number (cuts.spot_of spot) bytes.now ≡ true)
        × (cuts.cut_of c ≡ cuts.number_cut line bytes.now)) }
{
    if spot != Spot::InPragma {
        return None;
    }
    let (first, others) = bytes.split_first()?;
    if *first != b' ' {
        return None;
    }
    let (run, rest) = ByteKind::WordByte.split(others);
    let token = Token::Decimal(plain_number(run)?, Suffix::Plain);
    Some(Cut::with_piece(Some(token), Spot::InPragma, line, rest))
}

/// The first cut of bytes that are not none; a run of blanks is one.
pub(crate) fn next_cut(spot: Spot, line: u32, bytes: &[u8]) -> Cut<'_>
    requires some { 0 < length bytes.now }
    requires short { line < 4294967295 }
    ensures continues { cuts.Continues (cuts.spot_of spot) line bytes.now (cuts.cut_of result) }
    ensures shorter { length result.rest.now < length bytes.now }
    ensures line { result.line ≤ line + 1 }
{
    let first = bytes[0];
    if first == b'\n' {
        return Cut::without_piece(Spot::LineStart, line + 1, &bytes[1..]);
    }
    if let Some(cut) = number_cut(spot, line, bytes) {
        return cut;
    }
    if is_blank(first) {
        return blank_cut(spot, line, bytes);
    }
    token_cut(spot, line, bytes)
}

/// The next piece of bytes that begin at this spot of this line, or none, and where the text goes on.
pub(crate) fn next_piece(spot: Spot, line: u32, bytes: &[u8]) -> Cut<'_>
    requires short { line + length bytes.now ≤ 67108865 }
    ensures continues { cuts.Continues (cuts.spot_of spot) line bytes.now (cuts.cut_of result) }
    ensures all { ForNone result.piece (length result.rest.now ≡ 0) }
    ensures lines { result.line + length result.rest.now ≤ line + length bytes.now }
    ensures shorter { length (option_to_list result.piece) + length result.rest.now ≤ length bytes.now }
{
    let mut spot = spot;
    let mut line = line;
    let mut rest = bytes;
    while !rest.is_empty() {
        let cut = next_cut(spot, line, rest);
        if cut.piece.is_some() {
            return cut;
        }
        spot = cut.spot;
        line = cut.line;
        rest = cut.rest;
    }
    Cut::without_piece(spot, line, rest)
}
