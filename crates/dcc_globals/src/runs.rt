//! The runs and gaps of a program's data segment.

ghost use Rattle.std.specs.Prelude.{◌≡◌, ◌<◌, not, IfOk};
ghost use Rattle.std.specs.List.{list_any};
ghost use Rattle.dcc_globals.specs.Gaps as spec;
ghost use Rattle.dcc_globals.specs.Marks.{data_of, AreRuns};
ghost use Rattle.dcc_globals.specs.Pieces.{pieces, spoils, is_displaced_by};

use crate::marks::{Marks, marks_of};
use crate::source::{DataSource, OFFSETS};
use std::alloc::{AllocError, Global};

/// The data segment of a program, with what stands at each offset.
#[derive(Drop)]
pub struct Runs<'a> {
    /// The data segment.
    pub source: DataSource<'a>,
    /// What stands at each offset.
    pub marks: Marks,
}

// Whether a byte is text.
fn is_text_byte(byte: u8) -> bool
    ensures { result ≡ spec.is_text_byte byte }
{
    (32 <= byte && byte <= 126) || byte == 9 || byte == 10 || byte == 13
}

impl<'a> Runs<'a> {
    /// The runs of a data segment. Want of memory is the only error.
    pub fn new(alloc: Global, source: DataSource<'a>) -> Result<Runs<'a>, AllocError>
        ensures runs { IfOk result AreRuns }
        ensures source { IfOk result (λ runs. data_of runs.source ≡ data_of source.entry) }
    {
        let marks = marks_of(alloc, &source)?;
        Ok(Runs { source, marks })
    }

    /// Whether a piece has the byte at an offset.
    pub fn is_in_run(&self, at: usize) -> bool
        requires runs { AreRuns self.now }
        requires inside { at < 65536 }
        ensures { result ≡ spec.is_in_run (data_of self.now.source) at }
    {
        self.marks.in_run[at]
    }

    /// Whether a piece has bytes on both sides of a border.
    pub fn is_crossed(&self, at: usize) -> bool
        requires runs { AreRuns self.now }
        requires inside { at < 65536 }
        ensures { result ≡ spec.is_crossed (data_of self.now.source) at }
    {
        self.marks.crossed[at]
    }

    /// Whether an operand adds a register other than BP to an offset.
    pub fn is_displaced(&self, at: usize) -> bool
        requires runs { AreRuns self.now }
        requires inside { at < 65536 }
        ensures { result ≡ list_any (is_displaced_by at) (data_of self.now.source).operands }
    {
        self.marks.displaced[at]
    }

    /// Whether a piece spoils the byte at an offset as a scalar.
    pub fn is_byte_spoilt(&self, at: usize) -> bool
        requires runs { AreRuns self.now }
        requires inside { at < 65536 }
        ensures { result ≡ list_any (spoils at 1) (pieces (data_of self.now.source)) }
    {
        self.marks.broken[at]
    }

    /// Whether a piece spoils the word at an offset as a scalar.
    pub fn is_word_spoilt(&self, at: usize) -> bool
        requires runs { AreRuns self.now }
        requires inside { at < 65536 }
        ensures { result ≡ list_any (spoils at 2) (pieces (data_of self.now.source)) }
    {
        self.marks.small[at] || self.marks.small[at + 1]
    }

    /// Whether an offset lies in a gap.
    #[tactic(auto, unfolding(crate::specs::Gaps::is_in_gap))]
    pub fn is_in_gap(&self, at: usize) -> bool
        requires { AreRuns self.now }
        ensures { result ≡ spec.is_in_gap (data_of self.now.source) at }
    {
        if at >= OFFSETS.min(self.source.bytes.len()) {
            return false;
        }
        !self.source.is_in_stack(at) && !self.is_in_run(at)
    }

    /// Whether a byte of text stands in a gap at an offset.
    #[tactic(auto, unfolding(crate::specs::Gaps::is_text))]
    pub fn is_text(&self, at: usize) -> bool
        requires { AreRuns self.now }
        ensures { result ≡ spec.is_text (data_of self.now.source) at }
    {
        self.is_in_gap(at) && is_text_byte(self.source.byte_at(at))
    }

    /// Whether a 0 stands in a gap at an offset.
    #[tactic(auto, unfolding(crate::specs::Gaps::is_zero))]
    pub fn is_zero(&self, at: usize) -> bool
        requires { AreRuns self.now }
        ensures { result ≡ spec.is_zero (data_of self.now.source) at }
    {
        self.is_in_gap(at) && self.source.byte_at(at) == 0
    }
}
