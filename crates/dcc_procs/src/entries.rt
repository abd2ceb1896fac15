//! The entries of the procedures that are reached.

ghost use Rattle.std.specs.Prelude.{◌≡◌, ◌≤◌, ◌<◌, length, IfOk, IfErr, OnOk, Contains};
ghost use Rattle.dcc_machine.specs.declared.image.Image.{Image as TheImage};
ghost use Rattle.dcc_prog.specs.declared.procedure.Layout.{Layout as TheLayout};
ghost use Rattle.dcc_prog.specs.Trail.{IsEntry};
ghost use Rattle.dcc_prog.specs.Refused.{IsRefusedByTrails};
ghost use Rattle.dcc_procs.specs.Entries.{IsEmpty, IsAdded, IsOverfull, AreEntries, AreAdded, AreAllReached};

use dcc_prog::{LimitName, Refusal};
use std::alloc::{AllocError, Global};

// The number of offsets in a segment.
const OFFSETS: usize = 65536;

// The greatest number of procedures.
const MOST: usize = 512;

/// The entries of the procedures that are reached.
#[derive(Drop)]
pub struct Entries {
    /// The entries in the order in which they were reached.
    pub order: Vec<u16>,
    /// For each offset whether it is a noted entry.
    pub listed: Vec<bool>,
}

impl Entries {
    /// No entry is noted.
    pub fn new(alloc: Global) -> Result<Entries, AllocError>
        ensures { IfOk result IsEmpty }
    {
        Ok(Entries {
            order: Vec::new(alloc),
            listed: vec![in alloc; false; OFFSETS]?,
        })
    }

    /// Notes an entry, where it was not noted before.
    pub fn add(&mut self, entry: u16) -> Result<(), Refusal>
        requires length { length self.old.listed.items ≡ 65536 }
        requires few { length self.old.order.items ≤ 512 }
        ensures added { OnOk result (IsAdded self.old self.new entry) }
        ensures full { IfErr result (IsOverfull self.old entry) }
        ensures small { entry < 65536 }
    {
        if self.listed[usize::from(entry)] {
            return Ok(());
        }
        if self.order.len() == MOST {
            return Err(Refusal::Limit {
                what: LimitName::Procedures,
                count: 513,
            });
        }
        self.order.push(entry)?;
        self.listed[usize::from(entry)] = true;
        Ok(())
    }

    /// Notes entries.
    pub fn add_all(&mut self, entries: &[u16]) -> Result<(), Refusal>
        requires length { length self.old.listed.items ≡ 65536 }
        requires few { length self.old.order.items ≤ 512 }
        ensures added { (image : TheImage) (layout : TheLayout) → AreEntries image layout self.old
            → AreAllReached image layout entries.now
            → OnOk result (AreAdded image layout self.old self.new entries.now) }
        ensures refused { (image : TheImage) (layout : TheLayout) → AreEntries image layout self.old
            → AreAllReached image layout entries.now
            → IfErr result (IsRefusedByTrails image layout) }
    {
        for place in 0..entries.len() {
            self.add(entries[place])?;
        }
        Ok(())
    }
}
