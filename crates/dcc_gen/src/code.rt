//! The code of a program.

ghost use Rattle.std.specs.Prelude.{◌≡◌, ℕ, ◌+◌, ◌*◌, ◌<◌, ◌≤◌, ◌++◌, OnOk, IfOk, All, length, slice_index, vec_len};
ghost use Rattle.std.specs.List.{sum_by};
ghost use Rattle.dcc_gen.specs.Code.{piece_length, pieces_code, procedure_code, procedures_code, exit_code, code_of};
ghost use Rattle.dcc_gen.specs.Pieces.{IsInRange, piece_code, word_bytes};

use crate::piece::Piece;
use std::alloc::{AllocError, Global};

/// The procedures that start may call.
const PROCEDURES: usize = 8;
/// The pieces of each of them.
const PIECES: usize = 16;

/// A call of each procedure.
const CALLS_OF_ALL: [Piece; PROCEDURES] = [
    Piece::Call(0),
    Piece::Call(1),
    Piece::Call(2),
    Piece::Call(3),
    Piece::Call(4),
    Piece::Call(5),
    Piece::Call(6),
    Piece::Call(7),
];

/// The first instructions of a procedure.
const ENTRY: [u8; 8] = [0x55, 0x8B, 0xEC, 0x53, 0x51, 0x8B, 0x46, 0x04];
/// The last instructions of a procedure.
const RETURN: [u8; 4] = [0x59, 0x5B, 0x5D, 0xC3];
/// The last instructions of start, which end the program.
const EXIT: [u8; 5] = [0xB8, 0x00, 0x4C, 0xCD, 0x21];

/// Appends a word, its low byte first.
pub(crate) fn push_word(code: &mut Vec<u8>, word: u16) -> Result<(), AllocError>
    ensures { OnOk result (code.new.items ≡ code.old.items ++ word_bytes word) }
{
    code.extend_from_slice(&word.to_le_bytes())
}

// Appends the bytes of instructions that stand around a word, and the word.
fn push_around(code: &mut Vec<u8>, before: &[u8], word: u16, after: &[u8]) -> Result<(), AllocError>
    ensures { OnOk result (code.new.items ≡ code.old.items ++ (before.now ++ (word_bytes word ++ after.now))) }
{
    code.extend_from_slice(before)?;
    push_word(code, word)?;
    code.extend_from_slice(after)
}

// Appends a piece, behind which `left` further bytes of pieces stand, and behind these as many bytes before the entry
// of each procedure as `ahead` tells.
fn push_piece(
    code: &mut Vec<u8>,
    piece: Piece,
    left: usize,
    ahead: &[usize],
) -> Result<(), AllocError>
    requires in_range { IsInRange piece }
    requires procedures { length ahead.now ≡ 8 }
    requires near { left < 20000 }
    requires all_near { (k : ℕ) → k < 8 → slice_index ahead.now k < 20000 }
    ensures { OnOk result (code.new.items ≡ code.old.items
        ++ piece_code (λ procedure. left + slice_index ahead.now procedure) piece) }
{
    match piece {
        Piece::SetAx(word) => push_around(code, &[0xB8], word, &[]),
        Piece::AddBx => code.extend_from_slice(&[0x01, 0xD8]),
        Piece::Exchange => code.extend_from_slice(&[0x93]),
        Piece::SubtractAx => code.extend_from_slice(&[0x29, 0xC3]),
        Piece::Negate => code.extend_from_slice(&[0xF7, 0xD8]),
        Piece::Store(place) => push_around(code, &[0xA3], 2 * place, &[]),
        Piece::AddWord(place) => push_around(code, &[0x03, 0x06], 2 * place, &[]),
        Piece::CountUnlessLess => code.extend_from_slice(&[0x3B, 0xC3, 0x7C, 0x01, 0x43]),
        Piece::CopyByStack => code.extend_from_slice(&[0x50, 0x5B]),
        Piece::AddCounts(more) => push_around(code, &[0xB9], 1 + more, &[0x03, 0xC1, 0xE2, 0xFC]),
        Piece::PrintAl => code.extend_from_slice(&[0x88, 0xC2, 0xB4, 0x02, 0xCD, 0x21]),
        Piece::Call(procedure) => {
            let distance = 1 + left + ahead[usize::from(procedure)];
            push_around(code, &[0x50, 0xE8], distance as u16, &[0x59])
        }
    }
}

// The number of bytes of a piece.
fn length_of(piece: Piece) -> usize
    ensures length { result ≡ piece_length piece }
    ensures few { result ≤ 7 }
{
    match piece {
        Piece::Exchange => 1,
        Piece::AddBx | Piece::SubtractAx | Piece::Negate | Piece::CopyByStack => 2,
        Piece::SetAx(_) | Piece::Store(_) => 3,
        Piece::AddWord(_) => 4,
        Piece::CountUnlessLess | Piece::Call(_) => 5,
        Piece::PrintAl => 6,
        Piece::AddCounts(_) => 7,
    }
}

// The number of bytes of pieces.
fn length_of_all(pieces: &[Piece]) -> usize
    requires { length pieces.now ≤ 2000 }
    ensures length { result ≡ sum_by piece_length pieces.now }
    ensures few { result ≤ 7 * length pieces.now }
{
    let mut bytes = 0;
    for piece in pieces {
        bytes += length_of(*piece);
    }
    bytes
}

// Appends pieces, behind which as many bytes stand before the entry of each procedure as `ahead` tells.
fn push_pieces(code: &mut Vec<u8>, pieces: &[Piece], ahead: &[usize]) -> Result<(), AllocError>
    requires few { length pieces.now ≤ 2000 }
    requires in_range { All IsInRange pieces.now }
    requires procedures { length ahead.now ≡ 8 }
    requires all_near { (k : ℕ) → k < 8 → slice_index ahead.now k < 20000 }
    ensures { OnOk result (code.new.items ≡ code.old.items
        ++ pieces_code (λ procedure. slice_index ahead.now procedure) pieces.now) }
{
    let mut left = length_of_all(pieces);
    for piece in pieces {
        left -= length_of(*piece);
        push_piece(code, *piece, left, ahead)?;
    }
    Ok(())
}

// Appends a procedure.
fn push_procedure(code: &mut Vec<u8>, body: &[Piece]) -> Result<(), AllocError>
    requires few { length body.now ≤ 16 }
    requires in_range { All IsInRange body.now }
    ensures { OnOk result (code.new.items ≡ code.old.items ++ procedure_code body.now) }
{
    code.extend_from_slice(&ENTRY)?;
    push_pieces(code, body, &[0; PROCEDURES])?;
    code.extend_from_slice(&RETURN)
}

// The code behind the pieces of start: the exit and the procedures; and how many bytes stand before the entry of each.
fn rest(alloc: Global, bodies: &[Piece]) -> Result<(Vec<u8>, Vec<usize>), AllocError>
    requires bodies { length bodies.now ≡ 128 }
    requires in_range { All IsInRange bodies.now }
    ensures code { IfOk result (λ rest. rest.0.items ≡ exit_code ++ procedures_code bodies.now 8) }
    ensures procedures { IfOk result (λ rest. vec_len rest.1 ≡ 8) }
    ensures entries { IfOk result (λ rest. (k : ℕ) → k < 8
        → slice_index rest.1.items k ≡ length (exit_code ++ procedures_code bodies.now k)) }
{
    let mut code = Vec::new(alloc);
    code.extend_from_slice(&EXIT)?;
    let mut entries = Vec::new(alloc);
    for procedure in 0..PROCEDURES {
        entries.push(code.len())?;
        push_procedure(
            &mut code,
            &bodies[PIECES * procedure..PIECES * procedure + PIECES],
        )?;
    }
    Ok((code, entries))
}

/// The code of a program behind its first instructions.
pub(crate) fn code(alloc: Global, start: &[Piece], bodies: &[Piece]) -> Result<Vec<u8>, AllocError>
    requires start { length start.now ≤ 1000 }
    requires bodies { length bodies.now ≡ 128 }
    requires start_in_range { All IsInRange start.now }
    requires bodies_in_range { All IsInRange bodies.now }
    ensures few { IfOk result (λ code. length code.items ≤ 30000) }
    ensures code { IfOk result (λ code. code.items ≡ code_of start.now bodies.now) }
{
    let (rest, entries) = rest(alloc, bodies)?;
    let mut pieces = Vec::new(alloc);
    pieces.extend_from_slice(&CALLS_OF_ALL)?;
    pieces.extend_from_slice(start)?;
    let mut code = Vec::new(alloc);
    push_pieces(&mut code, &pieces, &entries)?;
    code.extend_from_slice(&rest)?;
    Ok(code)
}
