//! What two runs have in common.

ghost use Rattle.std.specs.Prelude.{◌≡◌, ◌^◌, ◌<◌, ◌∷◌, ◌++◌, [], ℕ, List, length, IfOk, OnOk};
ghost use Rattle.dcc_map.specs.Placed.{Placed};
ghost use Rattle.dcc_map.specs.Comparison.{ArePairs};
ghost use Rattle.dcc_map.specs.Agreed.{Tallies};
ghost use Rattle.dcc_map.specs.Side.{event_of};

use crate::event::Event;
use crate::report::Pair;
use std::alloc::{AllocError, Global};
use std::collections::BTreeMap;

/// How many bytes were written, and how often which line and which offset have stood beside each other. Counts stay
/// below their types' greatest values, since no run has so many events.
#[derive(Drop)]
pub(crate) struct Tally {
    /// The bytes.
    pub(crate) bytes: u64,
    /// For lines with offsets how often they have.
    counts: BTreeMap<(u32, u16), u64>,
}

impl Tally {
    /// No event yet.
    pub(crate) fn new(alloc: Global) -> Tally
        ensures { Tallies [] result }
    {
        Tally {
            bytes: 0,
            counts: BTreeMap::new(alloc),
        }
    }

    /// Counts an event of a line and of an offset.
    pub(crate) fn count(&mut self, line: u32, at: u16, event: Event) -> Result<(), AllocError>
        ensures { (both : List (Placed × Placed)) → length both < 2 ^ 63 → Tallies both self.old →
            OnOk result (Tallies (both ++ (
              record { at = at; event = event_of event },
              record { at = line; event = event_of event },
            ) ∷ []) self.new) }
    {
        if let Event::Wrote(_) = event {
            self.bytes = self.bytes.saturating_add(1);
        }
        let had = self.counts.get(&(line, at)).copied().unwrap_or(0);
        self.counts.insert((line, at), had.saturating_add(1))?;
        Ok(())
    }

    /// The lines and offsets, in their order.
    pub(crate) fn pairs(&self, alloc: Global) -> Result<Vec<Pair>, AllocError>
        ensures { (both : List (Placed × Placed)) → Tallies both self.now →
            IfOk result (λ pairs. ArePairs both pairs.items) }
    {
        self.counts
            .iter()
            .map(|(site, count)| Pair {
                line: site.0,
                at: site.1,
                count: *count,
            })
            .collect(alloc)
    }
}
