//! Cells, and the extents that are too long for one.

ghost use Rattle.std.specs.Prelude.{◌≡◌, ◌≤◌, ◌++◌, length, All, None, IfOk, IfErr, OnOk};
ghost use Rattle.std.specs.Option.{option_to_list};
ghost use Rattle.dcc_frames.specs.CellLists.{cell_of, small_cell, cells_from, long_user, IsOverfull, IsToldOfExtents};

use crate::bytes::{Bytes, Piece};
use dcc_prog::{Cell, ConstructKind, FrameFault, LimitName, Refusal};
use std::alloc::Global;

// The greatest number of cells of a frame.
const MOST_CELLS: usize = 512;

// The cell of one or two bytes.
fn cell_of(bytes: Bytes) -> Cell
    ensures { result ≡ cell_of bytes }
{
    let size = if i64::from(bytes.end) <= i64::from(bytes.first) + 1 {
        1
    } else {
        2
    };
    Cell {
        first: bytes.first,
        size,
    }
}

// The cell of an extent, if it has at most two bytes.
fn small_cell(extent: Piece) -> Option<Cell>
    ensures { result ≡ small_cell extent }
{
    if extent.bytes.is_small() {
        Some(cell_of(extent.bytes))
    } else {
        None
    }
}

// Adds a cell, if there is one. More than 512 are refused.
fn add(cells: &mut Vec<Cell>, cell: Option<Cell>) -> Result<(), Refusal>
    requires { length cells.old.items ≤ 512 }
    ensures added { OnOk result (cells.new.items ≡ cells.old.items ++ option_to_list cell) }
    ensures few { OnOk result (length cells.new.items ≤ 512) }
    ensures refused { IfErr result (IsOverfull (cells.old.items ++ option_to_list cell)) }
{
    let Some(cell) = cell else {
        return Ok(());
    };
    if cells.len() == MOST_CELLS {
        return Err(Refusal::Limit {
            what: LimitName::Cells,
            count: 513,
        });
    }
    cells.push(cell)?;
    Ok(())
}

/// The cells: the extents of at most two bytes. More than 512 are refused.
pub fn cells_of(alloc: Global, extents: &[Piece]) -> Result<Vec<Cell>, Refusal>
    ensures cells { IfOk result (λ cells. cells.items ≡ cells_from extents.now) }
    ensures few { IfOk result (λ cells. length cells.items ≤ 512) }
    ensures refused { IfErr result (IsOverfull (cells_from extents.now)) }
{
    let mut cells = Vec::new(alloc);
    for extent in extents {
        add(&mut cells, small_cell(*extent))?;
    }
    Ok(cells)
}

// The user of an extent that is too long for a cell, where the frame's addresses can't be told.
fn long_user(lacks_addresses: bool, extent: Piece) -> Option<u16>
    ensures { result ≡ long_user lacks_addresses extent }
{
    if !lacks_addresses || extent.bytes.is_small() {
        None
    } else {
        extent.user
    }
}

/// Refuses a frame whose addresses can't be told, where an instruction uses an extent of more than two bytes.
pub(crate) fn check_extents(lacks_addresses: bool, extents: &[Piece]) -> Result<(), Refusal>
    ensures none { OnOk result (All (λ extent. long_user lacks_addresses extent ≡ None) extents.now) }
    ensures refused { IfErr result (IsToldOfExtents lacks_addresses extents.now) }
{
    for extent in extents {
        if let Some(at) = long_user(lacks_addresses, *extent) {
            return Err(Refusal::Construct {
                kind: ConstructKind::FrameAccess(FrameFault::LongExtent),
                at,
            });
        }
    }
    Ok(())
}
