//! What offends in a text.

ghost use Rattle.std.specs.Prelude.{◌≡◌, Some};
ghost use Rattle.dcc_reader.specs.KindWords.{kind_word};

use std::fmt;

/// Why a text is refused.
#[derive(Clone, Copy, PartialEq, Eq, Debug)]
pub enum ParseKind {
    /// The text has more than 67,108,864 bytes.
    Length,
    /// The text's first line is not the version line.
    Version,
    /// Bytes that are no token.
    Token,
    /// A token that the grammar does not allow, or the end of the text too early.
    Grammar,
    /// A name.
    Name,
    /// A type.
    Type_,
    /// A place in memory.
    Place,
    /// A depth.
    Depth,
}

impl ParseKind {
    /// The word that tells the kind.
    pub fn word(self) -> &'static str
        ensures { result.now ≡ kind_word self }
    {
        match self {
            ParseKind::Length => "length",
            ParseKind::Version => "version",
            ParseKind::Token => "token",
            ParseKind::Grammar => "grammar",
            ParseKind::Name => "name",
            ParseKind::Type_ => "type",
            ParseKind::Place => "place",
            ParseKind::Depth => "depth",
        }
    }
}

impl fmt::Display for ParseKind {
    ghost output = { λ kind. Some (kind_word kind) };

    fn fmt<W: fmt::Write>(&self, f: &mut fmt::Formatter<W>) -> fmt::Result {
        f.write_str(self.word())
    }
}

/// An offence, at a place: the number of pieces after the version line and before it.
#[derive(Clone, Copy, PartialEq, Eq, Debug)]
pub struct Offence {
    /// The place.
    pub at: u32,
    /// What offends.
    pub kind: ParseKind,
}
