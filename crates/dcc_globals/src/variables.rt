//! The global variables of a text.

ghost use Rattle.std.specs.Prelude.{◌≡◌, ◌≤◌, ◌<◌, ◌++◌, IfOk, OnOk, length, map};
ghost use Rattle.dcc_c.specs.Views.{global_of};
ghost use Rattle.dcc_globals.specs.Globals as spec;
ghost use Rattle.dcc_globals.specs.Globals.{globals_of};
ghost use Rattle.dcc_globals.specs.Marks.{data_of, global_if, AreTables};
ghost use Rattle.dcc_globals.specs.Pieces.{Data, operands_of};

use crate::borders::Borders;
use crate::initial::{array_values, bytes_at, scalar_values};
use crate::operands::operands;
use crate::source::{DataSource, OFFSETS};
use dcc_c::{Base, CType, Global_};
use dcc_prog::Proc;
use dcc_text::hex::name_at;
use std::alloc::{AllocError, Global};

// The scalar of one or two bytes at an offset, with those that it holds at first.
fn scalar(alloc: Global, at: u16, size: usize, bytes: &[u8]) -> Result<Global_, AllocError>
    requires { length bytes.now ≤ 2 }
    ensures { IfOk result (λ global. global_of global ≡ spec.scalar at size bytes.now) }
{
    let base = if size == 1 { Base::Uchar } else { Base::Uint };
    Ok(Global_ {
        name: name_at(alloc, "g_", at)?,
        at: u32::from(at),
        ty: CType::plain(base),
        len: None,
        init: scalar_values(alloc, bytes)?,
    })
}

// The array of so many bytes at an offset, with those that it holds at first.
fn array(alloc: Global, at: u16, size: usize, bytes: &[u8]) -> Result<Global_, AllocError>
    requires { size ≤ 65536 }
    ensures { IfOk result (λ global. global_of global ≡ spec.array at size bytes.now) }
{
    Ok(Global_ {
        name: name_at(alloc, "d_", at)?,
        at: u32::from(at),
        ty: CType::plain(Base::Uchar),
        len: Some(size as u32),
        init: array_values(alloc, bytes)?,
    })
}

// The global variable that begins at an offset.
fn global_at(alloc: Global, borders: &Borders, at: usize) -> Result<Global_, AllocError>
    requires tables { AreTables borders.now }
    requires inside { at < 65536 }
    ensures { IfOk result (λ global. global_of global ≡ spec.global_at (data_of borders.now.runs.source) at) }
{
    let size = borders.extent(at);
    let bytes = bytes_at(borders.runs.source.bytes, at, size);
    if borders.is_scalar(at, size) {
        scalar(alloc, at as u16, size, bytes)
    } else {
        array(alloc, at as u16, size, bytes)
    }
}

// Appends the global variable that begins at an offset, where one does.
fn push_global(
    alloc: Global,
    globals: &mut Vec<Global_>,
    borders: &Borders,
    at: usize,
) -> Result<(), AllocError>
    requires tables { AreTables borders.now }
    requires inside { at < 65536 }
    ensures { OnOk result (map global_of globals.new.items
        ≡ map global_of globals.old.items ++ global_if (data_of borders.now.runs.source) at) }
{
    if borders.begins(at) {
        globals.push(global_at(alloc, borders, at)?)?;
    }
    Ok(())
}

// The global variables of a data segment with its tables, in the order of their offsets.
#[tactic(auto, unfolding(crate::specs::Globals::globals_of))]
fn all_globals(alloc: Global, borders: &Borders) -> Result<Vec<Global_>, AllocError>
    requires { AreTables borders.now }
    ensures { IfOk result (λ globals. map global_of globals.items ≡ globals_of (data_of borders.now.runs.source)) }
{
    let mut globals = Vec::new(alloc);
    for at in 0..OFFSETS {
        push_global(alloc, &mut globals, borders, at)?;
    }
    Ok(globals)
}

/// The global variables of the text of a program whose image has these bytes in the data segment, whose stack reaches
/// from `lo` to below `hi`, and which has these procedures, in the order of their offsets. Want of memory is the only
/// error.
pub fn globals(
    alloc: Global,
    bytes: &[u8],
    lo: u16,
    hi: u16,
    procs: &[Proc],
) -> Result<Vec<Global_>, AllocError>
    ensures { let segment : Data = record { bytes = bytes.now; lo = lo; hi = hi; operands = operands_of procs.now } in
        IfOk result (λ globals. map global_of globals.items ≡ globals_of segment) }
{
    let operands = operands(alloc, procs)?;
    let source = DataSource {
        bytes,
        lo,
        hi,
        operands: operands.as_slice(),
    };
    let borders = Borders::new(alloc, source)?;
    all_globals(alloc, &borders)
}
