//! Output in memory.

ghost use Rattle.std.specs.Prelude.{◌≡◌, ◌<◌, ◌≤◌, ◌||◌, [], length, take, min, Some, IfOk, IsErr, OnErr, IsTrue};
ghost use Rattle.std.specs.Prelude.{is_ok, if◌then◌else◌};
ghost use Rattle.dcc_io.specs.Count.{Rose};
ghost use Rattle.dcc_io.specs.Told.{append_told};
ghost use Rattle.dcc_io.specs.Memory.{next_count, fails_next, sink_faults};

use super::calls::Calls;
use crate::outside::{Failed, Sink};
use std::alloc::Global;
use std::marker::Model;

/// Output in memory. Each write takes at most a set number of bytes, and chosen writes fail, as does
/// one for which there is no memory.
#[derive(Drop)]
pub struct MemSink {
    bytes: Vec<u8>,
    calls: Calls,
    refused: u64,
    most: usize,
}

impl Model for MemSink {
    ghost use Rattle.std.specs.Prelude.{◌≤◌};
    ghost use Rattle.dcc_io.specs.Memory.{SinkState};

    ghost Value = { SinkState };

    ghost view = { λ s. record {
      taken = s.bytes.items;
      writes = s.calls.made;
      refused = s.refused;
      fail = s.calls.fail.items;
      most = s.most;
    } };

    ghost invariant = { λ s. 1 ≤ s.most };
}

impl MemSink {
    /// Output that is empty yet. The writes whose numbers are in `fail`, from 1 on, fail; each other
    /// takes at most `most` bytes.
    pub fn new(alloc: Global, fail: Vec<u64>, most: usize) -> MemSink
        requires { 1 ≤ most }
        ensures { result ≡ record { taken = []; writes = 0; refused = 0; fail = fail.items; most = most } }
    {
        MemSink {
            bytes: Vec::new(alloc),
            calls: Calls::new(fail),
            refused: 0,
            most,
        }
    }

    /// The bytes taken so far.
    pub fn taken(&self) -> &Vec<u8>
        ensures { result.now.items ≡ self.now.taken }
    {
        &self.bytes
    }
}

impl Sink for MemSink {
    ghost taken = { λ s. Some s.taken };

    ghost faults = { sink_faults };

    #[tactic(auto, unfolding(crate::specs::Told::append_told))]
    fn write(&mut self, piece: &[u8]) -> Result<usize, Failed>
        ensures bound { IfOk result (λ count. count ≤ length piece.now) }
        ensures progress { 0 < length piece.now → IfOk result (λ count. 0 < count) }
        ensures taken { IfOk result (λ count. Some self.new.taken
            ≡ append_told (Some self.old.taken) (take count piece.now)) }
        ensures err { OnErr result (Some self.new.taken ≡ Some self.old.taken) }
        ensures faults { sink_faults self.old ≤ sink_faults self.new }
        ensures failed { OnErr result (Rose (sink_faults self.old) (sink_faults self.new)) }

        // The writes that are on the list fail. Another fails only where memory is wanting, and is
        // counted as refused.
        ensures listed { IsTrue (fails_next self.old.fail self.old.writes) → IsErr result }
        ensures refused { self.new.refused
            ≡ (if is_ok result || fails_next self.old.fail self.old.writes then self.old.refused
            else next_count self.old.refused) }
        ensures count { IfOk result (λ count. count ≡ min (length piece.now) self.old.most) }
        ensures writes { self.new.writes ≡ next_count self.old.writes }
        ensures fail { self.new.fail ≡ self.old.fail }
        ensures most { self.new.most ≡ self.old.most }
    {
        if self.calls.next_fails() {
            return Err(Failed);
        }
        let count = piece.len().min(self.most);
        match self.bytes.extend_from_slice(&piece[..count]) {
            Ok(()) => Ok(count),
            Err(_) => {
                self.refused = self.refused.saturating_add(1);
                Err(Failed)
            }
        }
    }
}
