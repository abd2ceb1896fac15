//! The bytes of text that stand together in the gaps of the data segment.

ghost use Rattle.std.specs.Prelude.{◌≡◌, ◌≤◌, ◌+◌, ℕ, if◌then◌else◌, length, slice_index, IfOk};
ghost use Rattle.dcc_globals.specs.Gaps as spec;
ghost use Rattle.dcc_globals.specs.Marks.{data_of, AreRuns, Counts, AreTexts};

use crate::runs::Runs;
use crate::source::OFFSETS;
use std::alloc::{AllocError, Global};

/// How many bytes of text stand together at each border, which is named by the offset behind it.
#[derive(Drop)]
pub struct Texts {
    /// Directly before it.
    pub before: Vec<usize>,
    /// Directly behind it.
    pub behind: Vec<usize>,
}

// No border is counted yet.
fn zeros(alloc: Global) -> Result<Vec<usize>, AllocError>
    ensures whole { IfOk result (λ table. length table.items ≡ 65537) }
    ensures none { (at : ℕ) → IfOk result (λ table. slice_index table.items at ≡ 0) }
{
    let table = vec![in alloc; 0; OFFSETS + 1]?;
    Ok(table)
}

// The count with one byte more, which is text or isn't.
fn next_count(count: usize, is_text: bool) -> usize
    requires { count ≤ 65536 }
    ensures { result ≡ (if is_text then count + 1 else 0) }
{
    if is_text { count + 1 } else { 0 }
}

// How many bytes of text stand together before each border.
fn before(alloc: Global, runs: &Runs) -> Result<Vec<usize>, AllocError>
    requires { AreRuns runs.now }
    ensures { IfOk result (λ table. Counts (spec.text_before (data_of runs.now.source)) table.items) }
{
    let mut table = zeros(alloc)?;
    let mut count = 0;
    for at in 0..OFFSETS {
        count = next_count(count, runs.is_text(at));
        table[at + 1] = count;
    }
    Ok(table)
}

// How many bytes of text stand together behind each border.
fn behind(alloc: Global, runs: &Runs) -> Result<Vec<usize>, AllocError>
    requires { AreRuns runs.now }
    ensures { IfOk result (λ table. Counts (spec.text_from (data_of runs.now.source)) table.items) }
{
    let mut table = zeros(alloc)?;
    let mut count = 0;
    let mut at = OFFSETS;
    while at > 0 {
        at -= 1;
        count = next_count(count, runs.is_text(at));
        table[at] = count;
    }
    Ok(table)
}

/// How many bytes of text stand together at each border of a data segment. Want of memory is the only error.
pub(crate) fn texts_of(alloc: Global, runs: &Runs) -> Result<Texts, AllocError>
    requires { AreRuns runs.now }
    ensures { IfOk result (AreTexts (data_of runs.now.source)) }
{
    Ok(Texts {
        before: before(alloc, runs)?,
        behind: behind(alloc, runs)?,
    })
}
