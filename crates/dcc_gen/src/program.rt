//! The program of a seed and a size.

ghost use Rattle.std.specs.Prelude.{◌≤◌, IfOk};
ghost use Rattle.dcc_gen.specs.File.{IsMade};

use crate::code::code;
use crate::draws::Draws;
use crate::file::file;
use std::alloc::{AllocError, Global};

/// The file of the program of `size` pieces, 1 to 1,000, that is drawn from a seed: an MZ executable for the 8086. Its
/// runs take no input. The only error is want of memory.
pub fn make(alloc: Global, seed: u64, size: u16) -> Result<Vec<u8>, AllocError>
    requires some { 1 ≤ size }
    requires few { size ≤ 1000 }
    ensures { IfOk result (λ file. IsMade seed size file.items) }
{
    let mut draws = Draws { state: seed };
    let start = draws.pieces(alloc, 12, size)?;
    let bodies = draws.pieces(alloc, 11, 128)?;
    let words = draws.words(alloc, 64)?;
    let code = code(alloc, &start, &bodies)?;
    file(alloc, &code, &words)
}
