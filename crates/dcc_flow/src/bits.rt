//! Lists of truth values in words of 64 bits.

ghost use Rattle.std.specs.Prelude.{◌≡◌, ◌≢◌, ◌+◌, ◌<◌, true, false, length, replicate, slice_set, IfOk};
ghost use Rattle.std.specs.Prelude.{MatchBool, MatchOption};
ghost use Rattle.dcc_flow.specs.Bits.{words_for, bit, flowed, differ, IsNext, AreNoneFrom};
ghost use Rattle.dcc_flow.specs.Words.{AreWords, flowed_words, IsNextSet, AreNoneSet};

use crate::steps::Steps;
use std::alloc::{AllocError, Global};
use std::marker::Model;
use std::sync::ledger::Ledger;

/// A list of truth values.
#[derive(Drop)]
pub struct Bits {
    words: Vec<u64>,
    len: usize,
}

impl Model for Bits {
    ghost use Rattle.std.specs.Prelude.{List, Bool};
    ghost use Rattle.dcc_flow.specs.Words.{bits_in, AreWords};

    ghost Value = { List Bool };

    ghost view = { λ b. bits_in b.words.items b.len };

    ghost invariant = { λ b. AreWords b.words.items b.len };
}

// The flow of one row into another, word by word. The answer is whether a word changed.
fn flow_words<L: Ledger>(
    words: &mut [u64],
    used: &[u64],
    out: &[u64],
    written: &[u64],
    steps: &mut Steps<L>,
) -> bool
    requires used { length used.now ≡ length words.old }
    requires out { length out.now ≡ length words.old }
    requires written { length written.now ≡ length words.old }
    ensures words { words.new ≡ flowed_words words.old used.now out.now written.now }
    ensures changed { MatchBool result (words.new ≢ words.old) (words.new ≡ words.old) }
    ensures steps { steps.new ≡ steps.old + length words.old }
{
    let mut changed = false;
    for k in 0..words.len() {
        let word = words[k];
        let flowed = word | used[k] | out[k] & !written[k];
        changed |= flowed != word;
        words[k] = flowed;
        steps.tick();
    }
    changed
}

// The first place from one on whose bit is set in the words of so many places, if there is one.
fn next_set(words: &[u64], len: usize, from: usize) -> Option<usize>
    requires { AreWords words.now len }
    ensures { MatchOption result (AreNoneSet words.now from) (IsNextSet words.now from) }
{
    if len <= from {
        return None;
    }
    let mut skipped = from % 64;
    for k in from / 64..words.len() {
        let rest = words[k] >> skipped;
        if rest != 0 {
            return Some(64 * k + skipped + rest.trailing_zeros() as usize);
        }
        skipped = 0;
    }
    None
}

impl Bits {
    /// So many values, all false.
    pub fn new(alloc: Global, len: usize) -> Result<Bits, AllocError>
        ensures { IfOk result (λ bits. bits ≡ replicate len false) }
    {
        let words = vec![in alloc; 0; len.div_ceil(64)]?;
        Ok(Bits { words, len })
    }

    /// A row of its own with the same values.
    pub(crate) fn copy(&self) -> Result<Bits, AllocError>
        ensures { IfOk result (λ bits. bits ≡ self.now) }
    {
        let words = self.words.clone()?;
        Ok(Bits {
            words,
            len: self.len,
        })
    }

    /// The value at a place.
    pub fn get(&self, i: usize) -> bool
        requires { i < length self.now }
        ensures { result ≡ bit self.now i }
    {
        self.words[i / 64] >> (i % 64) & 1 == 1
    }

    /// The first place from one on that holds true, if there is one. It goes word by word, and so costs little where few
    /// places hold true.
    pub fn next(&self, from: usize) -> Option<usize>
        ensures { MatchOption result (AreNoneFrom self.now from) (IsNext self.now from) }
    {
        next_set(self.words.as_slice(), self.len, from)
    }

    /// The place takes true.
    pub fn set<L: Ledger>(&mut self, i: usize, steps: &mut Steps<L>)
        requires { i < length self.old }
        ensures bits { self.new ≡ slice_set self.old i true }
        ensures steps { steps.new ≡ steps.old + 1 }
    {
        self.words[i / 64] |= 1 << (i % 64);
        steps.tick();
    }

    /// Each place takes true where `used` has it, or `out` has it and `written` does not. The answer is whether a place
    /// changed.
    pub fn flow<L: Ledger>(
        &mut self,
        used: &Bits,
        out: &Bits,
        written: &Bits,
        steps: &mut Steps<L>,
    ) -> bool
        requires used { length used.now ≡ length self.old }
        requires out { length out.now ≡ length self.old }
        requires written { length written.now ≡ length self.old }
        ensures bits { self.new ≡ flowed self.old used.now out.now written.now }
        ensures changed { result ≡ differ self.old self.new }
        ensures steps { steps.new ≡ steps.old + words_for (length self.old) }
    {
        flow_words(
            self.words.as_mut_slice(),
            used.words.as_slice(),
            out.words.as_slice(),
            written.words.as_slice(),
            steps,
        )
    }
}
