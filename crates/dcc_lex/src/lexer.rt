//! From the bytes after the version line to pieces.

ghost use Rattle.std.specs.Prelude.{◌≡◌, ◌≤◌, length};
ghost use Rattle.dcc_c.specs.Pieces as spec;
ghost use Rattle.dcc_c.specs.Numbered.{rows};
ghost use Rattle.dcc_lex.specs.PiecesViews.{pieces_of};

use crate::left::Pieces;

/// The pieces of the bytes after the version line, which are at most 67108864. Each is cut as those before it are
/// passed.
pub fn pieces(rest: &[u8]) -> Pieces<'_>
    requires short { length rest.now ≤ 67108864 }
    ensures pieces { pieces_of result ≡ spec.pieces_of rest.now }
    ensures few { length (pieces_of result) ≤ length rest.now }
    ensures place { result.at ≡ 0 }
{
    Pieces::of(rest)
}

/// How many line feeds the bytes have.
pub fn line_feeds(bytes: &[u8]) -> u32
    requires { length bytes.now ≤ 67108864 }
    ensures { result ≡ rows bytes.now }
{
    let mut count = 0;
    for byte in bytes {
        count += u32::from(*byte == b'\n');
    }
    count
}
