//! Which bytes of memory belong to instructions that are known.

ghost use Rattle.std.specs.Prelude.{◌≡◌, ◌<◌, ◌^◌, ℕ, true};
ghost use Rattle.dcc_step.specs.Cache.{is_marked, IsMarkedFrom};

use crate::operand::physical_address;
use std::alloc::{AllocError, Global};
use std::marker::Model;

// The number of bytes in memory: 1 MiB.
const BYTES: usize = 0x10_0000;

/// For each physical address whether it is marked.
#[derive(Drop)]
pub(crate) struct Marks {
    items: Vec<bool>,
}

impl Model for Marks {
    ghost use Rattle.std.specs.Prelude.{◌≡◌, ◌^◌, List, Bool, vec_len};

    ghost Value = { List Bool };

    ghost view = { λ marks. marks.items.items };

    ghost invariant = { λ marks. vec_len marks.items ≡ 2 ^ 20 };
}

impl Marks {
    /// No address is marked.
    pub(crate) fn none(alloc: Global) -> Result<Marks, AllocError> {
        let mut items = Vec::with_capacity(alloc, BYTES)?;
        items.resize(BYTES, false)?;
        Ok(Marks { items })
    }

    /// Whether an address is marked.
    #[inline]
    pub(crate) fn is_marked(&self, address: usize) -> bool
        requires { address < 2 ^ 20 }
        ensures { result ≡ is_marked self.now address }
    {
        self.items[address]
    }

    /// Marks the bytes from an offset of a segment on, as many as the longest instruction has.
    pub(crate) fn mark_from(&mut self, segment: u16, at: u16)
        ensures more { (a : ℕ) → is_marked self.old a ≡ true → is_marked self.new a ≡ true }
        ensures marked { IsMarkedFrom self.new segment at }
    {
        for k in 0..6_u16 {
            let address = physical_address(segment, at.wrapping_add(k));
            self.items[address] = true;
        }
    }
}
