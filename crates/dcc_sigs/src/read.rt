//! Signatures read from a file.

ghost use Rattle.std.specs.Prelude.{◌≡◌, ◌<◌, ◌≤◌, ◌-◌, ◌^◌, ℕ, List, ◌+◌, ◌||◌, not, length, map, IfOk, IfErr, OnOk, string_bytes};
ghost use Rattle.dcc_c.specs.Token.{same_bytes};
ghost use Rattle.dcc_c.specs.Tree.{Word};
ghost use Rattle.dcc_reader.specs.WordViews.{holds};
ghost use Rattle.dcc_sigs.specs.Fault.{pieces_of, piece_at, AreSigs, IsFaultOf, text_most};
ghost use Rattle.dcc_sigs.specs.Steps.{lent_pieces, IsBegun, IsDone, AreRead, IsFaultOfPieces};
ghost use Rattle.dcc_sigs.specs.declared.signature.SigFault.TheVariants.{At};

use crate::line::{Line, line_in};
use crate::signature::{Sig, SigFault, SigKind};
use std::alloc::{AllocError, Global};
use std::collections::BTreeSet;

// The greatest number of bytes of a file.
const TEXT_MOST: usize = 262_144;

// Adds a word to the set, and tells whether it is new.
fn add_new<'a>(words: &mut BTreeSet<&'a str>, word: &'a str) -> Result<bool, AllocError>
    ensures added { OnOk result
        ((other : Word) → holds words.new other ≡ same_bytes other word.now || holds words.old other) }
    ensures new { IfOk result (λ is_new. is_new ≡ not (holds words.old word.now)) }
{
    Ok(words.insert(word)?)
}

// The signature that a line tells.
fn sig_of(alloc: Global, line: Line) -> Result<Sig, AllocError>
    ensures { IfOk result (λ sig. (string_bytes sig.name ≡ line.entry.name.now) × (sig.bytes ≡ line.entry.parts)) }
{
    Ok(Sig {
        name: String::from_str(alloc, line.name)?,
        bytes: line.parts,
    })
}

// What the lines so far tell: their signatures, and the set of their names.
#[derive(Drop)]
struct Begun<'a> {
    sigs: Vec<Sig>,
    names: BTreeSet<&'a str>,
}

impl<'a> Begun<'a> {
    // Adds the signature of the next line, or tells how the line offends.
    fn add(&mut self, alloc: Global, text: &'a [u8]) -> Result<Option<SigKind>, AllocError>
        ensures { (pieces : List (List ℕ)) (place : ℕ) → IsBegun pieces place self.old → place + 1 < length pieces
            → piece_at pieces place ≡ text.now → IfOk result (IsDone pieces place self.new) }
    {
        let Some(line) = line_in(alloc, text)? else {
            return Ok(Some(SigKind::Form));
        };
        if add_new(&mut self.names, line.name)? {
            self.sigs.push(sig_of(alloc, line)?)?;
            Ok(None)
        } else {
            Ok(Some(SigKind::Twice))
        }
    }
}

// The fault of the piece of a place.
fn fault_at(place: usize, kind: SigKind) -> SigFault
    requires { place < 2 ^ 32 - 1 }
    ensures { result ≡ At (place + 1) kind }
{
    SigFault::At {
        line: place as u32 + 1,
        kind,
    }
}

// The signatures of the pieces of a text.
fn read_pieces(alloc: Global, pieces: &[&[u8]]) -> Result<Vec<Sig>, SigFault>
    requires some { 0 < length pieces.now }
    requires few { length pieces.now ≤ text_most + 1 }
    ensures read { IfOk result (λ sigs. AreRead (lent_pieces pieces.now) sigs.items) }
    ensures refused { IfErr result (IsFaultOfPieces (lent_pieces pieces.now)) }
{
    let last = pieces.len() - 1;
    let mut begun = Begun {
        sigs: Vec::new(alloc),
        names: BTreeSet::new(alloc),
    };
    for place in 0..last {
        if let Some(kind) = begun.add(alloc, pieces[place])? {
            return Err(fault_at(place, kind));
        }
    }
    if pieces[last].is_empty() {
        Ok(begun.sigs)
    } else {
        Err(fault_at(last, SigKind::Form))
    }
}

// What stands before the first line feed, between two of them, and behind the last one.
fn pieces_of<'a>(alloc: Global, text: &'a [u8]) -> Result<Vec<&'a [u8]>, AllocError>
    ensures { IfOk result (λ pieces. map (λ piece. piece.now) pieces.items ≡ pieces_of text.now) }
{
    text.split(|byte| *byte == b'\n').collect(alloc)
}

/// The signatures of a file.
///
/// # Errors
///
/// The first line that offends, and how it does. Or that memory ran out.
pub fn read_sigs(alloc: Global, bytes: &[u8]) -> Result<Vec<Sig>, SigFault>
    ensures read { IfOk result (λ sigs. AreSigs bytes.now sigs.items) }
    ensures refused { IfErr result (IsFaultOf bytes.now) }
{
    if bytes.len() > TEXT_MOST {
        return Err(SigFault::At {
            line: 0,
            kind: SigKind::Form,
        });
    }
    let pieces = pieces_of(alloc, bytes)?;
    read_pieces(alloc, &pieces)
}
