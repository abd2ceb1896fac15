//! Which offsets are marked.

ghost use Rattle.std.specs.Prelude.{◌≡◌, ◌-◌, ◌≤◌, ◌^◌, false, true, slice_set, IfOk, List};
ghost use Rattle.std.specs.List.{range_with_len};
ghost use Rattle.dcc_prog.specs.Clean.{is_marked, with_marks};
ghost use Rattle.dcc_watch.specs.Marks.{no_marks};

use crate::shape::OFFSETS;
use std::alloc::{AllocError, Global};
use std::marker::Model;

/// For each offset whether it is marked.
#[derive(Drop)]
pub(crate) struct Marks {
    items: Vec<bool>,
    // An offset below which none is marked, so that a stack that falls and rises again without a store costs nothing.
    lowest: usize,
}

impl Model for Marks {
    ghost use Rattle.std.specs.Prelude.{◌≡◌, ◌^◌, List, Bool, vec_len};
    ghost use Rattle.dcc_watch.specs.Marks.{HasNoneBelow};

    ghost Value = { List Bool };

    ghost view = { λ marks. marks.items.items };

    ghost invariant = { λ marks. (vec_len marks.items ≡ 2 ^ 16) × HasNoneBelow marks.lowest marks.items.items };
}

impl Marks {
    /// No offset is marked.
    pub(crate) fn none(alloc: Global) -> Result<Marks, AllocError>
        ensures { IfOk result (λ marks. marks ≡ no_marks) }
    {
        let mut items = Vec::with_capacity(alloc, OFFSETS)?;
        items.resize(OFFSETS, false)?;
        Ok(Marks {
            items,
            lowest: OFFSETS,
        })
    }

    /// Whether an offset is marked.
    pub(crate) fn is_marked(&self, offset: u16) -> bool
        ensures { result ≡ is_marked self.now offset }
    {
        self.items[usize::from(offset)]
    }

    /// Marks an offset.
    pub(crate) fn mark(&mut self, offset: u16)
        ensures { self.new ≡ slice_set self.old offset true }
    {
        let place = usize::from(offset);
        self.items[place] = true;
        self.lowest = self.lowest.min(place);
    }

    /// Takes the marks off from the first offset up to the second, which keeps its own.
    pub(crate) fn unmark(&mut self, from: u32, to: u32)
        ensures { self.new ≡ with_marks false (range_with_len from (to - from)) self.old }
    {
        let (from, to) = (from as usize, (to as usize).min(OFFSETS));
        self.clear(from.max(self.lowest), to);
        if from <= self.lowest {
            self.lowest = self.lowest.max(to);
        }
    }

    // Takes the marks off at the places from the first up to the second, which keeps its own.
    fn clear(&mut self, from: usize, to: usize)
        requires { to ≤ 2 ^ 16 }
        ensures marks { self.new ≡ with_marks false (range_with_len from (to - from)) self.old }
    {
        for place in from..to {
            self.items[place] = false;
        }
    }
}
