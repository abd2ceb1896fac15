//! What a program meets outside itself: files, input and output, each with counts of what went wrong.

ghost use Rattle.std.specs.Prelude.{◌≡◌, ◌<◌, ◌≤◌, ℕ, List, [], length, take, vec_len, Option, Some, IfOk, IsOk, OnOk};
ghost use Rattle.std.specs.Prelude.{OnErr, IsErrOf};
ghost use Rattle.dcc_io.specs.declared.outside.ShelfFault.TheVariants.{Memory};
ghost use Rattle.dcc_io.specs.Count.{Rose};
ghost use Rattle.dcc_io.specs.Told.{WhenTold, append_told, prepend_told, AppendsProperPrefix};
ghost use Rattle.dcc_io.specs.Fetch.{Fetches, KeepsWithin, Records};

use std::alloc::{AllocError, AllocFailed, Global};

/// A read or a write failed.
#[derive(Clone, Copy, PartialEq, Eq, Debug)]
pub struct Failed;

/// How much of a file was fetched.
#[derive(Clone, Copy, PartialEq, Eq, Debug)]
pub enum Fetched {
    /// The whole file.
    Whole,
    /// The first bytes of the file, as many as were asked for; the file has more.
    Longer,
}

/// Why a file wasn't fetched.
#[derive(Clone, Copy, PartialEq, Eq, Debug)]
pub enum ShelfFault {
    /// There is no file of that name.
    Absent,
    /// The shelf failed.
    Failed,
    /// Memory was wanting.
    Memory,
}

impl From<AllocError> for ShelfFault {
    ghost from_gives = { λ _ fault. fault ≡ Memory };

    fn from(_: AllocError) -> Self {
        ShelfFault::Memory
    }
}

impl<T: Drop> From<AllocFailed<T>> for ShelfFault {
    ghost from_gives = { λ _ fault. fault ≡ Memory };

    fn from(_: AllocFailed<T>) -> Self {
        ShelfFault::Memory
    }
}

/// What a fetch answers.
pub type Fetch = Result<Fetched, ShelfFault>;

/// Files by their names.
pub trait Shelf {
    /// The bytes of the file of each name, where the shelf tells them.
    ghost files: { Self → Option (List ℕ → Option (List ℕ)) };

    /// The requests so far, the newest last: a name, and the greatest number of bytes.
    ghost asked: { Self → List (List ℕ × ℕ) };

    /// How often the shelf has found no file.
    ghost absences: { Self → ℕ };

    /// How often the shelf has failed.
    ghost faults: { Self → ℕ };

    /// Puts the named file, or its first `most` bytes, into an empty list. After an error the
    /// content of `into` is open.
    fn fetch(&mut self, alloc: Global, name: &str, most: usize, into: &mut Vec<u8>) -> Fetch
        requires { vec_len into.old ≡ 0 }

        ensures files { files self.new ≡ files self.old }
        ensures asked { Records (asked self.old) (asked self.new) (name.now, most) result }

        ensures answer { WhenTold (files self.old) (λ file. Fetches (file name.now) most result into.new.items) }
        ensures within { KeepsWithin most result into.new.items }

        // Counts never fall, and an error comes only where its count rose.
        ensures absences { absences self.old ≤ absences self.new }
        ensures absent { IsErrOf result ShelfFault.Absent → Rose (absences self.old) (absences self.new) }
        ensures faults { faults self.old ≤ faults self.new }
        ensures failed { IsErrOf result ShelfFault.Failed → Rose (faults self.old) (faults self.new) };
}

/// Input, read from its front.
pub trait Source {
    /// The bytes that are left, where the source tells them.
    ghost left: { Self → Option (List ℕ) };

    /// How often a read has failed.
    ghost faults: { Self → ℕ };

    /// Reads into the front of the buffer, and answers how many bytes. On a buffer that isn't empty
    /// an answer of 0 is the end of the input.
    fn read(&mut self, buf: &mut [u8]) -> Result<usize, Failed>
        ensures bound { IfOk result (λ count. count ≤ length buf.new) }
        ensures taken { IfOk result (λ count. left self.old ≡ prepend_told (take count buf.new) (left self.new)) }
        ensures end { result ≡ Ok 0 → 0 < length buf.new → WhenTold (left self.old) (λ bytes. bytes ≡ []) }
        ensures none_left { left self.old ≡ Some [] → IfOk result (λ count. count ≡ 0) }
        ensures err { OnErr result (left self.new ≡ left self.old) }

        // The count never falls, and an error comes only where it rose.
        ensures faults { faults self.old ≤ faults self.new }
        ensures failed { OnErr result (Rose (faults self.old) (faults self.new)) };
}

/// Output, written at its end.
pub trait Sink {
    /// The bytes taken so far, where the sink tells them.
    ghost taken: { Self → Option (List ℕ) };

    /// How often a write has failed.
    ghost faults: { Self → ℕ };

    /// Takes bytes from the front of the piece, and answers how many: at least 1 of a piece that
    /// isn't empty.
    fn write(&mut self, piece: &[u8]) -> Result<usize, Failed>
        ensures bound { IfOk result (λ count. count ≤ length piece.now) }
        ensures progress { 0 < length piece.now → IfOk result (λ count. 0 < count) }
        ensures taken { IfOk result (λ count. taken self.new ≡ append_told (taken self.old) (take count piece.now)) }
        ensures err { OnErr result (taken self.new ≡ taken self.old) }

        // The count never falls, and an error comes only where it rose.
        ensures faults { faults self.old ≤ faults self.new }
        ensures failed { OnErr result (Rose (faults self.old) (faults self.new)) };
}

/// Writes the whole piece, in as many writes as it takes. Where one fails, a part of the piece was
/// written.
#[tactic(auto, using(crate::proofs::ToldLemmas::told_steps))]
pub fn put_all<O: Sink>(sink: &mut O, piece: &[u8]) -> Result<(), Failed>
    ensures whole { OnOk result (O.taken sink.new ≡ append_told (O.taken sink.old) piece.now) }
    ensures part { OnErr result (AppendsProperPrefix (O.taken sink.old) (O.taken sink.new) piece.now) }
    ensures empty { piece.now ≡ [] → IsOk result × (sink.new ≡ sink.old) }

    // The count never falls, and the error comes only where it rose.
    ensures faults { O.faults sink.old ≤ O.faults sink.new }
    ensures failed { OnErr result (Rose (O.faults sink.old) (O.faults sink.new)) }
{
    let mut written = 0;
    while written < piece.len() {
        written += sink.write(&piece[written..])?;
    }
    Ok(())
}
