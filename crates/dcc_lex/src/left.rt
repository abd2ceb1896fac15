//! What is left of a text: its pieces, cut as those before them are passed.

ghost use Rattle.std.specs.Prelude.{◌≡◌, ◌+◌, ◌≤◌, length, option_to_list};
ghost use Rattle.std.specs.Option.{ForNone};

use crate::cut::{Spot, next_piece};
use crate::token::Piece;

/// What is left of a text: its pieces. The first two have been cut; each later one is cut when it becomes the second.
#[derive(Clone, Copy)]
pub struct Pieces<'a> {
    // The first piece.
    first: Option<Piece<'a>>,
    // The piece after the first.
    second: Option<Piece<'a>>,
    /// How many pieces stand before the first.
    pub at: u32,
    // Where in a line what has not been cut begins.
    spot: Spot,
    // The line where what has not been cut begins, from 1.
    line: u32,
    // What has not been cut.
    bytes: &'a [u8],
    ghost pair: { ForNone first (length (option_to_list second) ≡ 0) },
    ghost all: { ForNone second (length bytes.now ≡ 0) },
    ghost lines: { line + length bytes.now ≤ 67108865 },
    ghost few: { at + length (option_to_list first) + length (option_to_list second) + length bytes.now ≤ 67108864 },
}

impl<'a> Pieces<'a> {
    ghost use Rattle.std.specs.Prelude.{take, drop, map, option_map, ◌++◌};
    ghost use Rattle.dcc_c.specs.Pieces as spec;
    ghost use Rattle.dcc_lex.specs.TokenViews.{piece_of};
    ghost use Rattle.dcc_lex.specs.CutViews.{spot_of, remaining};
    ghost use Rattle.dcc_lex.specs.PiecesViews.{pieces_of, BeginWith};

    // The pieces that begin with one that has been cut; `at` pieces stand before it.
    fn from_first(
        at: u32,
        first: Option<Piece<'a>>,
        spot: Spot,
        line: u32,
        bytes: &'a [u8],
    ) -> Pieces<'a>
        requires all { ForNone first (length bytes.now ≡ 0) }
        requires lines { line + length bytes.now ≤ 67108865 }
        requires few { at + length (option_to_list first) + length bytes.now ≤ 67108864 }
        ensures pieces { pieces_of result
            ≡ map piece_of (option_to_list first.entry) ++ remaining (spot_of spot) line bytes.now }
        ensures place { result.at ≡ at }
    {
        let cut = next_piece(spot, line, bytes);
        Pieces {
            first,
            second: cut.piece,
            at,
            spot: cut.spot,
            line: cut.line,
            bytes: cut.rest,
        }
    }

    /// The pieces of the bytes after the version line, which are at most 67108864.
    pub fn of(rest: &'a [u8]) -> Pieces<'a>
        requires short { length rest.now ≤ 67108864 }
        ensures pieces { pieces_of result ≡ spec.pieces_of rest.now }
        ensures few { length (pieces_of result) ≤ length rest.now }
        ensures place { result.at ≡ 0 }
    {
        let cut = next_piece(Spot::InLine, 1, rest);
        Pieces::from_first(0, cut.piece, cut.spot, cut.line, cut.rest)
    }

    /// The first of the pieces.
    pub fn first(&self) -> Option<&Piece<'a>>
        ensures { BeginWith (option_map (λ p. piece_of p.now) result) (pieces_of self.now) }
    {
        self.first.as_ref()
    }

    /// The piece after the first.
    pub fn second(&self) -> Option<Piece<'a>>
        ensures { BeginWith (option_map piece_of result) (drop 1 (pieces_of self.now)) }
    {
        self.second
    }

    /// Goes past the first piece, where there is one.
    pub fn skip(&mut self)
        ensures pieces { pieces_of self.new ≡ drop 1 (pieces_of self.old) }
        ensures place { self.new.at ≡ self.old.at + length (take 1 (pieces_of self.old)) }
    {
        if self.first.is_some() {
            *self = Pieces::from_first(self.at + 1, self.second, self.spot, self.line, self.bytes);
        }
    }

    /// The pieces that are left, counted from the first of them on.
    pub fn from_here(&self) -> Pieces<'a>
        ensures pieces { pieces_of result ≡ pieces_of self.now }
        ensures place { result.at ≡ 0 }
    {
        Pieces {
            first: self.first,
            second: self.second,
            at: 0,
            spot: self.spot,
            line: self.line,
            bytes: self.bytes,
        }
    }
}
