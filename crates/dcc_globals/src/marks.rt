//! Tables over the offsets of the data segment: what stands at each.

ghost use Rattle.std.specs.Prelude.{◌≡◌, ℕ, ◌<◌, ◌==◌, ◌||◌, false, length, slice_index_or, IfOk};
ghost use Rattle.std.specs.List.{list_any};
ghost use Rattle.dcc_globals.specs.Pieces as spec;
ghost use Rattle.dcc_globals.specs.Marks.{data_of, is_small, breaks, IsTable, AreMarks};

use crate::pieces::{Piece, is_fixed, pieces};
use crate::source::{DataSource, OFFSETS};
use dcc_machine::Ea;
use dcc_num::Width;
use std::alloc::{AllocError, Global};

/// What stands at each offset.
#[derive(Drop)]
pub struct Marks {
    /// A piece has the byte.
    pub in_run: Vec<bool>,
    /// A piece has the byte and the one before it.
    pub crossed: Vec<bool>,
    /// A piece is the byte alone.
    pub small: Vec<bool>,
    /// A broken piece is the byte.
    pub broken: Vec<bool>,
    /// An operand adds a register other than BP to the offset.
    pub displaced: Vec<bool>,
}

// Nothing is marked; the table has one place more than a segment has offsets.
fn unmarked(alloc: Global) -> Result<Vec<bool>, AllocError>
    ensures whole { IfOk result (λ table. length table.items ≡ 65537) }
    ensures none { (at : ℕ) → IfOk result (λ table. slice_index_or table.items at false ≡ false) }
{
    let table = vec![in alloc; false; OFFSETS + 1]?;
    Ok(table)
}

// Marks an offset.
fn mark(table: &mut [bool], at: usize)
    requires { at < length table.old }
    ensures { (k : ℕ) → slice_index_or table.new k false ≡ slice_index_or table.old k false || (at == k) }
{
    table[at] = true;
}

// Marks the bytes of a piece.
fn mark_bytes(table: &mut [bool], piece: Piece)
    requires { length table.old ≡ 65537 }
    ensures { (k : ℕ) → slice_index_or table.new k false ≡ slice_index_or table.old k false || spec.has_byte k piece }
{
    match piece {
        Piece::OneByte(at) | Piece::Broken(at) => mark(table, usize::from(at)),
        Piece::OneWord(at) => {
            mark(table, usize::from(at));
            mark(table, usize::from(at) + 1);
        }
    }
}

// Marks the border that a piece crosses.
fn mark_crossed(table: &mut [bool], piece: Piece)
    requires { length table.old ≡ 65537 }
    ensures { (k : ℕ) → slice_index_or table.new k false ≡ slice_index_or table.old k false || spec.crosses k piece }
{
    if let Piece::OneWord(at) = piece {
        mark(table, usize::from(at) + 1);
    }
}

// Marks a piece that is a byte alone.
fn mark_small(table: &mut [bool], piece: Piece)
    requires { length table.old ≡ 65537 }
    ensures { (k : ℕ) → slice_index_or table.new k false ≡ slice_index_or table.old k false || is_small k piece }
{
    match piece {
        Piece::OneByte(at) | Piece::Broken(at) => mark(table, usize::from(at)),
        Piece::OneWord(_) => {}
    }
}

// Marks a piece that is broken.
fn mark_broken(table: &mut [bool], piece: Piece)
    requires { length table.old ≡ 65537 }
    ensures { (k : ℕ) → slice_index_or table.new k false ≡ slice_index_or table.old k false || breaks k piece }
{
    if let Piece::Broken(at) = piece {
        mark(table, usize::from(at));
    }
}

// Marks the displacement to which an operand adds a register other than BP.
fn mark_displacement(table: &mut [bool], operand: (Width, Ea))
    requires { length table.old ≡ 65537 }
    ensures { (k : ℕ) → slice_index_or table.new k false
        ≡ slice_index_or table.old k false || spec.is_displaced_by k operand }
{
    let (_, ea) = operand;
    if !is_fixed(ea) && !ea.uses_bp() {
        mark(table, usize::from(ea.disp));
    }
}

// The table of the bytes that pieces have.
fn in_run(alloc: Global, pieces: &[Piece]) -> Result<Vec<bool>, AllocError>
    ensures { IfOk result (λ table. IsTable spec.has_byte pieces.now table.items) }
{
    let mut table = unmarked(alloc)?;
    for piece in pieces {
        mark_bytes(table.as_mut_slice(), *piece);
    }
    Ok(table)
}

// The table of the borders that pieces cross.
fn crossed(alloc: Global, pieces: &[Piece]) -> Result<Vec<bool>, AllocError>
    ensures { IfOk result (λ table. IsTable spec.crosses pieces.now table.items) }
{
    let mut table = unmarked(alloc)?;
    for piece in pieces {
        mark_crossed(table.as_mut_slice(), *piece);
    }
    Ok(table)
}

// The table of pieces of a byte alone.
fn small(alloc: Global, pieces: &[Piece]) -> Result<Vec<bool>, AllocError>
    ensures { IfOk result (λ table. IsTable is_small pieces.now table.items) }
{
    let mut table = unmarked(alloc)?;
    for piece in pieces {
        mark_small(table.as_mut_slice(), *piece);
    }
    Ok(table)
}

// The table of broken pieces.
fn broken(alloc: Global, pieces: &[Piece]) -> Result<Vec<bool>, AllocError>
    ensures { IfOk result (λ table. IsTable breaks pieces.now table.items) }
{
    let mut table = unmarked(alloc)?;
    for piece in pieces {
        mark_broken(table.as_mut_slice(), *piece);
    }
    Ok(table)
}

// The table of displacements.
fn displaced(alloc: Global, operands: &[(Width, Ea)]) -> Result<Vec<bool>, AllocError>
    ensures { IfOk result (λ table. IsTable spec.is_displaced_by operands.now table.items) }
{
    let mut table = unmarked(alloc)?;
    for operand in operands {
        mark_displacement(table.as_mut_slice(), *operand);
    }
    Ok(table)
}

/// What stands at each offset of a program's data segment. Want of memory is the only error.
pub(crate) fn marks_of(alloc: Global, source: &DataSource) -> Result<Marks, AllocError>
    ensures { IfOk result (AreMarks (data_of source.now)) }
{
    let pieces = pieces(alloc, source)?;
    Ok(Marks {
        in_run: in_run(alloc, pieces.as_slice())?,
        crossed: crossed(alloc, pieces.as_slice())?,
        small: small(alloc, pieces.as_slice())?,
        broken: broken(alloc, pieces.as_slice())?,
        displaced: displaced(alloc, source.operands)?,
    })
}
