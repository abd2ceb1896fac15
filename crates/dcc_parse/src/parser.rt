//! From the bytes of a text to its unit, or to what offends in it first.

ghost use Rattle.std.specs.Prelude.{◌≡◌, ◌≤◌, ◌<◌, length, IfOk, IfErr, OnOk, Some};
ghost use Rattle.dcc_c.specs.Kinds.{first_of};
ghost use Rattle.dcc_c.specs.Pieces as spec;
ghost use Rattle.dcc_c.specs.Text.{StandsFor};
ghost use Rattle.dcc_c.specs.TextOffences as offences;
ghost use Rattle.dcc_c.specs.Tree.{Tree};
ghost use Rattle.dcc_c.specs.Views.{tree_of};
ghost use Rattle.dcc_lex.specs.PiecesViews.{pieces_of};
ghost use Rattle.dcc_parse.specs.Fault.{IsFaultOf, IsWhole};
ghost use Rattle.dcc_reader.specs.OffenceViews.{offence_of};
ghost use Rattle.dcc_reader.specs.PartialViews.{text_of};
ghost use Rattle.dcc_reader.specs.ReaderViews.{reader_of};

use crate::fault::ParseFault;
use crate::strip_text::strip;
use dcc_c::Unit;
use dcc_check::first_offence;
use dcc_lex::{Pieces, after_version, line_feeds, pieces};
use dcc_read::read;
use dcc_reader::{Offence, ParseKind, PartialText, Reader};
use std::alloc::{AllocError, Global};

// The pieces that have not been read, where reading stopped.
fn unread<'a>(reader: &Reader<'a>) -> Pieces<'a>
    ensures { pieces_of result ≡ offences.unread (reader_of reader.now) }
{
    if reader.stop.is_none() {
        return pieces(b"");
    }
    reader.left
}

// What the pieces after the version line are read as, or what offends in them first. It fails only for want of memory.
fn read_pieces<'a>(
    alloc: Global,
    pieces: &Pieces<'a>,
) -> Result<Result<PartialText<'a>, Offence>, AllocError>
    requires few { length (pieces_of pieces.now) < 67108864 }
    ensures text { IfOk result (λ found. IfOk found (λ text. IsWhole (pieces_of pieces.now) (text_of text))) }
    ensures offence { IfOk result (λ found. IfErr found (λ offence.
        first_of (offences.offences_of (pieces_of pieces.now)) ≡ Some (offence_of offence))) }
{
    let reading = read(alloc, pieces)?;
    let rest = unread(&reading.following);
    match first_offence(alloc, &reading.text, reading.following.stop, &rest)? {
        Some(offence) => Ok(Err(offence)),
        None => Ok(Ok(reading.text)),
    }
}

// The line of the piece at a place, or the last line.
fn line_at(pieces: &Pieces<'_>, last: u32, at: u32) -> u32
    ensures { result ≡ spec.line_at (pieces_of pieces.now) last at }
{
    let mut left = *pieces;
    for _passed in 0..at {
        left.skip();
    }
    match left.first() {
        Some(piece) => piece.line,
        None => last,
    }
}

// The unit of a text, or why there is none.
fn parse_bytes(alloc: Global, bytes: &[u8]) -> Result<Unit, ParseFault>
    ensures stands { IfOk result (λ unit. StandsFor bytes.now (tree_of unit)) }
    ensures length { OnOk result (length bytes.now ≤ 67108864) }
    ensures refused { IfErr result (IsFaultOf bytes.now) }
{
    if bytes.len() > 67_108_864 {
        return Err(ParseFault::At {
            line: 0,
            kind: ParseKind::Length,
        });
    }
    let Some(rest) = after_version(bytes) else {
        return Err(ParseFault::At {
            line: 1,
            kind: ParseKind::Version,
        });
    };
    let pieces = pieces(rest);
    match read_pieces(alloc, &pieces)? {
        Ok(text) => Ok(strip(alloc, text)?),
        Err(offence) => {
            let last = 1 + line_feeds(bytes);
            Err(ParseFault::At {
                line: line_at(&pieces, last, offence.at),
                kind: offence.kind,
            })
        }
    }
}

/// The unit of a text of the dialect.
///
/// # Errors
///
/// What offends in the text first, and in which line: in a text of more than 67,108,864 bytes its length, in line 0. Or
/// that memory ran out.
pub fn parse(alloc: Global, bytes: &Vec<u8>) -> Result<Unit, ParseFault>
    ensures stands { IfOk result (λ unit. StandsFor bytes.now.items (tree_of unit)) }
    ensures alone { IfOk result (λ unit. (tree : Tree) → StandsFor bytes.now.items tree → tree ≡ tree_of unit) }
    ensures length { OnOk result (length bytes.now.items ≤ 67108864) }
    ensures refused { IfErr result (IsFaultOf bytes.now.items) }
{
    parse_bytes(alloc, bytes)
}
