//! What each block reads before it writes it, and what it writes.

ghost use Rattle.std.specs.Prelude.{◌≡◌, ◌++◌, [], map, flat_map, All, Contains, IfOk, OnOk};
ghost use Rattle.dcc_flow.specs.Access.{access_in, block_access_in};
ghost use Rattle.dcc_flow.specs.Marks.{empty, members, with_all};
ghost use Rattle.dcc_live.specs.First.{others, row_of, row_in};

use dcc_flow::{Access, BlockAccess, Marks, Places};
use dcc_ir::Loc;
use std::alloc::{AllocError, Global};

/// The locations that a block reads before it writes them, and those that it writes.
#[derive(Drop)]
pub struct Row {
    /// As often as it reads them.
    pub first: Vec<Loc>,
    /// As often as it writes them.
    pub writes: Vec<Loc>,
}

impl Row {
    // Notes what is read and was not written before.
    fn read(&mut self, written: &Marks, reads: &[Loc]) -> Result<(), AllocError>
        ensures first { OnOk result (self.new.first.items
            ≡ self.old.first.items ++ others (members written.now) reads.now) }
        ensures writes { self.new.writes ≡ self.old.writes }
    {
        for location in reads {
            if !written.contains(*location) {
                self.first.push(*location)?;
            }
        }
        Ok(())
    }

    // Notes what a statement reads and writes.
    fn note(&mut self, written: &mut Marks, access: &Access) -> Result<(), AllocError>
        ensures first { OnOk result (self.new.first.items
            ≡ self.old.first.items ++ others (members written.old) access.now.reads.items) }
        ensures writes { OnOk result (self.new.writes.items ≡ self.old.writes.items ++ access.now.writes.items) }
        ensures written { OnOk result (members written.new ≡ with_all (members written.old) access.now.writes.items) }
    {
        self.read(written, access.reads.as_slice())?;
        self.writes.extend_from_slice(access.writes.as_slice())?;
        written.add_all(access.writes.as_slice())
    }

    /// What is live before the block, where this is live at its end: what the block reads first, and what it doesn't
    /// write.
    pub fn live_before(&self, alloc: Global, at_end: &[Loc]) -> Result<Vec<Loc>, AllocError>
        ensures { IfOk result (λ live. live.items
            ≡ self.now.first.items ++ others (with_all empty self.now.writes.items) at_end.now) }
    {
        let mut written = Marks::new(alloc);
        written.add_all(self.writes.as_slice())?;
        let mut row = Row {
            first: self.first.clone()?,
            writes: Vec::new(alloc),
        };
        row.read(&written, at_end)?;
        Ok(row.first)
    }
}

// What a block reads before it writes it, and what it writes. The set is empty, before and after.
fn block_row(alloc: Global, written: &mut Marks, block: &BlockAccess) -> Result<Row, AllocError>
    requires { members written.old ≡ empty }
    ensures row { IfOk result (λ row. row_in row ≡ row_of (block_access_in block.now)) }
    ensures written { OnOk result (members written.new ≡ empty) }
{
    let mut row = Row {
        first: Vec::new(alloc),
        writes: Vec::new(alloc),
    };
    for access in &block.stmts {
        row.note(written, access)?;
    }
    row.read(written, block.last.as_slice())?;
    written.clear();
    Ok(row)
}

/// What each block reads before it writes it, and what it writes.
pub fn rows(alloc: Global, blocks: &Vec<BlockAccess>) -> Result<Vec<Row>, AllocError>
    ensures { IfOk result (λ rows. map row_in rows.items ≡ map row_of (map block_access_in blocks.now.items)) }
{
    let mut written = Marks::new(alloc);
    let mut rows = Vec::new(alloc);
    for block in blocks {
        rows.push(block_row(alloc, &mut written, block)?)?;
    }
    Ok(rows)
}

/// The locations that some block reads before it writes them, each once.
pub fn places(alloc: Global, rows: &Vec<Row>) -> Result<Places, AllocError>
    ensures { IfOk result (λ places. All (λ row. All (Contains places) row.first) (map row_in rows.now.items)) }
{
    let mut places = Places::new(alloc);
    for row in rows {
        places.add_all(row.first.as_slice())?;
    }
    Ok(places)
}
