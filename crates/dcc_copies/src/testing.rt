//! Whether names are right: whatever is read is held by its name.

ghost use Rattle.std.specs.Prelude.{◌≡◌, ◌<◌, true, [], length, All, IfOk};
ghost use Rattle.dcc_ir.specs.Views.{block_of, graph_of, exit_of};
ghost use Rattle.dcc_flow.specs.Access.{block_access_in, block_access_of};
ghost use Rattle.dcc_copies.specs.Settled.{IsRight, IsRightBlock};
ghost use Rattle.dcc_copies.specs.Holders.{holders_of, name_by, entries_at, IsPlain};
ghost use Rattle.dcc_copies.specs.Choice.{begins_of, begins_by, HaveWidths, BeginPlain, LeadsRight};

use crate::holders::{Entry, Holders};
use crate::names::Names;
use dcc_flow::{BlockAccess, accesses};
use dcc_ir::{Block, End, Graph};
use std::alloc::{AllocError, Global};

/// Names, and for each block what they hold where it begins.
#[derive(Drop)]
pub struct Choice {
    pub names: Names,
    pub begins: Vec<Vec<Entry>>,
    /// How many temporaries got another name.
    pub count: usize,
}

impl Choice {
    /// Each temporary is its own name.
    pub fn new(alloc: Global, g: &Graph) -> Result<Choice, AllocError> {
        let mut of = Vec::new(alloc);
        for temporary in 0..g.bits.len() {
            of.push(u32::try_from(temporary).map_err(|_| AllocError)?)?;
        }
        let mut begins = Vec::new(alloc);
        for _ in 0..g.blocks.len() {
            begins.push(Vec::new(alloc))?;
        }
        Ok(Choice {
            names: Names { of },
            begins,
            count: 0,
        })
    }

    /// A temporary gets another one as its name.
    pub fn name(&mut self, temporary: u32, name: u32) {
        if let Some(slot) = self.names.of.get_mut(temporary as usize) {
            *slot = name;
            self.count = self.count.saturating_add(1);
        }
    }

    /// Where a block begins, a name holds what the entry tells.
    pub fn hold(&mut self, place: usize, entry: Entry) -> Result<(), AllocError> {
        if let Some(entries) = self.begins.get_mut(place) {
            entries.push(entry)?;
        }
        Ok(())
    }

    // What the names hold where a block begins.
    fn entries(&self, place: usize) -> &[Entry]
        ensures { result.now ≡ entries_at (begins_of self.now) place }
    {
        match self.begins.get(place) {
            Some(entries) => entries.as_slice(),
            None => &[],
        }
    }

    // Whether no name holds anything but its own temporary where a block begins.
    fn begins_plain(&self, place: u32) -> bool
        ensures { result ≡ true → BeginPlain (begins_of self.now) place }
    {
        self.entries(place as usize).is_empty()
    }

    // Whether this is so of each of the blocks.
    fn all_begin_plain(&self, places: &[u32]) -> bool
        ensures { result ≡ true → All (BeginPlain (begins_of self.now)) places.now }
    {
        for at in 0..places.len() {
            if !self.begins_plain(places[at]) {
                return false;
            }
        }
        true
    }

    // Whether the names hold at the end of a block what they hold where the blocks begin to which it goes.
    fn leads_right(&self, holders: &Holders, end: &End) -> bool
        requires { IsPlain (holders_of holders.now) }
        ensures { result ≡ true
            → LeadsRight self.now.names.of.items (begins_of self.now) (holders_of holders.now) (exit_of end.now) }
    {
        match end {
            End::Goto(to) => holders.covers(&self.names, self.entries(*to as usize)),
            End::If { one, other, .. } => {
                self.begins_plain(*one)
                    && self.begins_plain(*other)
                    && holders.covers(&self.names, &[])
            }
            End::Switch { blocks, .. } => {
                self.all_begin_plain(blocks.as_slice()) && holders.covers(&self.names, &[])
            }
            End::Ret(_) | End::Stop => true,
        }
    }

    // Whether the names hold what the block at a place reads, and what is asked where it leads.
    fn block_is_right(
        &self,
        holders: &mut Holders,
        place: usize,
        block: &Block,
        access: &BlockAccess,
    ) -> Result<bool, AllocError>
        requires plain { IsPlain (holders_of holders.old) }
        requires access { block_access_in access.now ≡ block_access_of (block_of block.now) }
        ensures plain { IfOk result (λ right. right ≡ true → IsPlain (holders_of holders.new)) }
        ensures right { IfOk result (λ right. right ≡ true → IsRightBlock (name_by self.now.names.of.items)
            (begins_by self.now.names.of.items (begins_of self.now)) place (block_of block.now)) }
    {
        if !holders.begin(&self.names, self.entries(place))? {
            return Ok(false);
        }
        if !holders.steps(&self.names, block.stmts.as_slice(), access.stmts.as_slice())? {
            return Ok(false);
        }
        Ok(
            holders.hold_all(&self.names, access.last.as_slice())
                && self.leads_right(holders, &block.end),
        )
    }

    // Whether the names have the widths of their temporaries.
    fn has_widths(&self, bits: &[u8]) -> bool
        ensures { result ≡ true → HaveWidths self.now.names.of.items bits.now }
    {
        if self.names.of.len() != bits.len() {
            return false;
        }
        for temporary in 0..bits.len() {
            let name = self.names.of[temporary] as usize;
            if name >= bits.len() || bits[name] != bits[temporary] {
                return false;
            }
        }
        true
    }

    /// Whether the names are right: each has its temporary's width, and whatever is read is held by its name.
    pub fn is_right(&self, alloc: Global, g: &Graph) -> Result<bool, AllocError>
        ensures { IfOk result (λ right. right ≡ true → IsRight (name_by self.now.names.of.items) (graph_of g.now)) }
    {
        if !self.has_widths(g.bits.as_slice()) || !self.begins_plain(0) {
            return Ok(false);
        }
        let accesses = accesses(alloc, g)?;
        let mut holders = Holders::new(alloc, g.bits.len())?;
        for place in 0..g.blocks.len() {
            if !self.block_is_right(&mut holders, place, &g.blocks[place], &accesses[place])? {
                return Ok(false);
            }
        }
        Ok(true)
    }
}
