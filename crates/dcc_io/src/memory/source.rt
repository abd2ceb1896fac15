//! Input in memory.

ghost use Rattle.std.specs.Prelude.{◌≡◌, ◌<◌, ◌≤◌, [], length, take, min, Some, IfOk, OnErr, is_err, Ok};
ghost use Rattle.dcc_io.specs.Count.{Rose};
ghost use Rattle.dcc_io.specs.Told.{WhenTold, prepend_told};
ghost use Rattle.dcc_io.specs.Memory.{next_count, fails_next, listed_calls};

use super::calls::Calls;
use crate::outside::{Failed, Source};
use std::marker::Model;

/// Input in memory. Each read gives at most a set number of bytes, and chosen reads fail.
#[derive(Drop)]
pub struct MemSource {
    bytes: Vec<u8>,
    at: usize,
    calls: Calls,
    most: usize,
}

impl Model for MemSource {
    ghost use Rattle.std.specs.Prelude.{◌≤◌, drop, length};
    ghost use Rattle.dcc_io.specs.Memory.{SourceState};

    ghost Value = { SourceState };

    ghost view = { λ s. record {
      left = drop s.at s.bytes.items;
      reads = s.calls.made;
      fail = s.calls.fail.items;
      most = s.most;
    } };

    ghost invariant = { λ s. record { within : s.at ≤ length s.bytes.items; some : 1 ≤ s.most } };
}

impl MemSource {
    /// Input of these bytes. The reads whose numbers are in `fail`, from 1 on, fail; each other
    /// gives at most `most` bytes.
    pub fn new(bytes: Vec<u8>, fail: Vec<u64>, most: usize) -> MemSource
        requires { 1 ≤ most }
        ensures { result ≡ record { left = bytes.items; reads = 0; fail = fail.items; most = most } }
    {
        MemSource {
            bytes,
            at: 0,
            calls: Calls::new(fail),
            most,
        }
    }
}

impl Source for MemSource {
    ghost left = { λ s. Some s.left };

    ghost faults = { λ s. listed_calls s.fail s.reads };

    fn read(&mut self, buf: &mut [u8]) -> Result<usize, Failed>
        ensures bound { IfOk result (λ count. count ≤ length buf.new) }
        ensures taken { IfOk result (λ count. Some self.old.left
            ≡ prepend_told (take count buf.new) (Some self.new.left)) }
        ensures end { result ≡ Ok 0 → 0 < length buf.new → WhenTold (Some self.old.left) (λ bytes. bytes ≡ []) }
        ensures none_left { Some self.old.left ≡ Some [] → IfOk result (λ count. count ≡ 0) }
        ensures err { OnErr result (Some self.new.left ≡ Some self.old.left) }
        ensures faults { listed_calls self.old.fail self.old.reads ≤ listed_calls self.new.fail self.new.reads }
        ensures failed { OnErr result
            (Rose (listed_calls self.old.fail self.old.reads) (listed_calls self.new.fail self.new.reads)) }

        // The reads that are on the list fail, and each other gives as many bytes as it may.
        ensures fails { is_err result ≡ fails_next self.old.fail self.old.reads }
        ensures count { IfOk result (λ count. count ≡ min (min (length self.old.left) (length buf.old)) self.old.most) }
        ensures reads { self.new.reads ≡ next_count self.old.reads }
        ensures fail { self.new.fail ≡ self.old.fail }
        ensures most { self.new.most ≡ self.old.most }
    {
        if self.calls.next_fails() {
            return Err(Failed);
        }
        let left = &self.bytes[self.at..];
        let count = left.len().min(buf.len()).min(self.most);
        buf[..count].copy_from_slice(&left[..count]);
        self.at += count;
        Ok(count)
    }
}
