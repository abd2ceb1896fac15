//! Where global variables begin, and how far they go.

ghost use Rattle.std.specs.Prelude.{◌≡◌, ◌+◌, ◌≤◌, ◌<◌, true, IfOk};
ghost use Rattle.dcc_globals.specs.Gaps as spec;
ghost use Rattle.dcc_globals.specs.Globals.{is_scalar};
ghost use Rattle.dcc_globals.specs.Marks.{data_of, AreTables};

use crate::runs::Runs;
use crate::source::{DataSource, OFFSETS};
use crate::texts::{Texts, texts_of};
use std::alloc::{AllocError, Global};

/// The data segment of a program with its tables.
#[derive(Drop)]
pub struct Borders<'a> {
    /// The data segment with its runs.
    pub runs: Runs<'a>,
    /// The text at each border.
    pub texts: Texts,
}

// Whether a byte is a `$` that ends a string before the next byte.
fn ends_string(byte: u8, next: u8) -> bool
    ensures { result ≡ spec.ends_string byte next }
{
    byte == 36 && !(next == 0 || next == 36 || next == 10 || next == 13)
}

impl<'a> Borders<'a> {
    /// The tables of a data segment. Want of memory is the only error.
    pub fn new(alloc: Global, source: DataSource<'a>) -> Result<Borders<'a>, AllocError>
        ensures tables { IfOk result AreTables }
        ensures source { IfOk result (λ borders. data_of borders.runs.source ≡ data_of source.entry) }
    {
        let runs = Runs::new(alloc, source)?;
        let texts = texts_of(alloc, &runs)?;
        Ok(Borders { runs, texts })
    }

    // How many bytes of text stand together before a border.
    fn text_before(&self, at: usize) -> usize
        requires tables { AreTables self.now }
        requires inside { at < 65536 }
        ensures value { result ≡ spec.text_before (data_of self.now.runs.source) at }
        ensures fits { result ≤ 65536 }
    {
        self.texts.before[at]
    }

    // How many bytes of text stand together behind a border.
    fn text_from(&self, at: usize) -> usize
        requires tables { AreTables self.now }
        requires inside { at < 65536 }
        ensures value { result ≡ spec.text_from (data_of self.now.runs.source) at }
        ensures fits { at + result ≤ 65536 }
    {
        self.texts.behind[at]
    }

    // Whether a border is in a text run or at its begin.
    #[tactic(auto, unfolding(crate::specs::Gaps::is_at_text))]
    fn is_at_text(&self, at: usize) -> bool
        requires tables { AreTables self.now }
        requires inside { at < 65536 }
        ensures { result ≡ spec.is_at_text (data_of self.now.runs.source) at }
    {
        let behind = self.text_from(at);
        4 <= self.text_before(at) + behind && self.runs.is_zero(at + behind)
    }

    // Whether the 0 behind a text run stands at an offset.
    #[tactic(auto, unfolding(crate::specs::Gaps::ends_text))]
    fn ends_text(&self, at: usize) -> bool
        requires tables { AreTables self.now }
        requires inside { at < 65536 }
        ensures { result ≡ spec.ends_text (data_of self.now.runs.source) at }
    {
        4 <= self.text_before(at) && self.runs.is_zero(at)
    }

    // Whether the bytes on both sides of a border have no text before it, or a string ends there.
    #[tactic(auto, unfolding(crate::specs::Gaps::begins_string))]
    fn begins_string(&self, at: usize) -> bool
        requires tables { AreTables self.now }
        requires some { 0 < at }
        requires inside { at < 65536 }
        ensures { result ≡ spec.begins_string (data_of self.now.runs.source) at }
    {
        let source = &self.runs.source;
        self.text_before(at) == 0 || ends_string(source.byte_at(at - 1), source.byte_at(at))
    }

    // Whether a text run begins behind a border, or a string in one.
    #[tactic(auto, unfolding(crate::specs::Gaps::begins_text))]
    fn begins_text(&self, at: usize) -> bool
        requires tables { AreTables self.now }
        requires some { 0 < at }
        requires inside { at < 65536 }
        ensures { result ≡ spec.begins_text (data_of self.now.runs.source) at }
    {
        self.is_at_text(at) && self.begins_string(at)
    }

    // Whether a gap is cut at a border.
    #[tactic(auto, unfolding(crate::specs::Gaps::is_cut))]
    fn is_cut(&self, at: usize) -> bool
        requires tables { AreTables self.now }
        requires some { 0 < at }
        requires inside { at < 65536 }
        ensures { result ≡ spec.is_cut (data_of self.now.runs.source) at }
    {
        self.begins_text(at) || self.ends_text(at - 1) || self.runs.is_displaced(at)
    }

    // Whether the bytes on both sides of a border are in one part of a gap.
    #[tactic(auto, unfolding(crate::specs::Gaps::is_within_part))]
    fn is_within_part(&self, at: usize) -> bool
        requires tables { AreTables self.now }
        requires some { 0 < at }
        requires inside { at < 65536 }
        ensures { result ≡ spec.is_within_part (data_of self.now.runs.source) at }
    {
        self.runs.is_in_gap(at - 1) && self.runs.is_in_gap(at) && !self.is_cut(at)
    }

    // Whether a byte belongs to the global variable that has the byte before it.
    #[tactic(auto, unfolding(crate::specs::Gaps::goes_on))]
    fn goes_on(&self, at: usize) -> bool
        requires tables { AreTables self.now }
        requires inside { at < 65536 }
        ensures { result ≡ spec.goes_on (data_of self.now.runs.source) at }
    {
        if at == 0 {
            return false;
        }
        self.runs.is_crossed(at) || self.is_within_part(at)
    }

    /// Whether a global variable begins with the byte at an offset.
    #[tactic(auto, unfolding(crate::specs::Gaps::begins))]
    pub fn begins(&self, at: usize) -> bool
        requires tables { AreTables self.now }
        requires inside { at < 65536 }
        ensures { result ≡ spec.begins (data_of self.now.runs.source) at }
    {
        (self.runs.is_in_run(at) || self.runs.is_in_gap(at)) && !self.goes_on(at)
    }

    /// How many bytes the global variable has that begins at an offset.
    #[tactic(auto, unfolding(crate::specs::Gaps::extent))]
    pub fn extent(&self, at: usize) -> usize
        requires tables { AreTables self.now }
        requires inside { at < 65536 }
        ensures value { result ≡ spec.extent (data_of self.now.runs.source) at }
        ensures fits { at + result ≤ 65536 }
        ensures some { 0 < result }
    {
        let mut next = at + 1;
        while next < OFFSETS {
            if !self.goes_on(next) {
                return next - at;
            }
            next += 1;
        }
        next - at
    }

    /// Whether so many bytes from an offset on are a run that is always accessed as a whole.
    #[tactic(auto, unfolding(crate::specs::Globals::is_scalar))]
    pub fn is_scalar(&self, at: usize, size: usize) -> bool
        requires tables { AreTables self.now }
        requires some { 0 < size }
        requires inside { at + size ≤ 65536 }
        ensures value { result ≡ is_scalar (data_of self.now.runs.source) at size }
        ensures small { result ≡ true → size ≤ 2 }
    {
        if !self.runs.is_in_run(at) {
            return false;
        }
        match size {
            1 => !self.runs.is_byte_spoilt(at),
            2 => !self.runs.is_word_spoilt(at),
            _ => false,
        }
    }
}
