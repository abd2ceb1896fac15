//! Which locations are wanted before which points, as far as is known.

ghost use Rattle.std.specs.Prelude.{◌≡◌, ℕ, suc, ◌||◌, ◌&&◌, ◌==◌, ◌<◌, [], get_or, length, OnOk};
ghost use Rattle.dcc_ir.specs.declared.syntax.Loc.{Loc as LocOf};
ghost use Rattle.dcc_ir.specs.Live.{is_among};
ghost use Rattle.dcc_ir.specs.Location.{same_location};
ghost use Rattle.dcc_summaries.specs.Table.{lists_of, row_of, block_rows, graph_rows, row_at, told_here, told_in_block};
ghost use Rattle.dcc_summaries.specs.Table.{told_in, same_want};
ghost use Rattle.dcc_summaries.specs.Points.{next_point};

use crate::points::Point;
use dcc_flow::Locations;
use dcc_ir::Loc;
use std::alloc::{AllocError, Global};

/// A location that is wanted before a point.
#[derive(Clone, Copy)]
pub struct Want {
    pub at: Point,
    pub location: Loc,
}

/// The locations that are wanted before each point of a program.
#[derive(Drop)]
pub struct Wants {
    /// By the places of graphs, the places of their blocks, and the number of statements that are done.
    pub rows: Vec<Vec<Vec<Locations>>>,
}

// The list has the place; what is added is empty.
fn make_room<T: Drop>(
    alloc: Global,
    lists: &mut Vec<Vec<T>>,
    place: usize,
) -> Result<(), AllocError>
    ensures same { (n : ℕ) → get_or (lists_of lists.new.items) n [] ≡ get_or (lists_of lists.old.items) n [] }
    ensures room { OnOk result (place < length lists.new.items) }
{
    while lists.len() <= place {
        lists.push(Vec::new(alloc))?;
    }
    Ok(())
}

// The lists of a block have the place; what is added is empty.
fn make_row(alloc: Global, rows: &mut Vec<Locations>, done: usize) -> Result<(), AllocError>
    ensures same { (n : ℕ) → row_of rows.new.items n ≡ row_of rows.old.items n }
    ensures room { OnOk result (done < length rows.new.items) }
{
    while rows.len() <= done {
        rows.push(Locations::new(alloc))?;
    }
    Ok(())
}

// The location is put into the list of so many statements done.
fn add_in_block(
    alloc: Global,
    rows: &mut Vec<Locations>,
    done: usize,
    location: Loc,
) -> Result<(), AllocError>
    ensures { OnOk result ((n : ℕ) (l : LocOf) → told_here rows.new.items n l
        ≡ ((n == done) && same_location l location || told_here rows.old.items n l)) }
{
    make_row(alloc, rows, done)?;
    rows[done].push(location)?;
    Ok(())
}

// Adds a location that is wanted before a point of a graph to the graph's lists.
fn add_in_graph(
    alloc: Global,
    blocks: &mut Vec<Vec<Locations>>,
    want: Want,
) -> Result<(), AllocError>
    ensures { OnOk result ((b n : ℕ) (l : LocOf) → told_in_block blocks.new.items b n l
        ≡ ((b == want.at.block) && ((n == want.at.done) && same_location l want.location)
        || told_in_block blocks.old.items b n l)) }
{
    let block = want.at.block;
    make_room(alloc, blocks, block)?;
    add_in_block(alloc, &mut blocks[block], want.at.done, want.location)
}

// The list of one more statement done.
fn row_after(rows: &[Locations], done: usize) -> &[Loc]
    ensures { result.now ≡ row_of rows.now (suc done) }
{
    let Some(rest) = rows.get(done..) else {
        return &[];
    };
    match rest.get(1) {
        Some(row) => row.as_slice(),
        None => &[],
    }
}

impl Wants {
    // The lists of the block in which a point stands.
    fn rows_at(&self, at: Point) -> &[Locations]
        ensures { result.now ≡ block_rows (graph_rows self.now.rows.items at.graph) at.block }
    {
        let Some(blocks) = self.rows.get(at.graph) else {
            return &[];
        };
        match blocks.get(at.block) {
            Some(rows) => rows.as_slice(),
            None => &[],
        }
    }

    /// The locations that are wanted before a point, in no order.
    pub fn before(&self, at: Point) -> &[Loc]
        ensures { result.now ≡ row_at self.now.rows.items at }
    {
        match self.rows_at(at).get(at.done) {
            Some(row) => row.as_slice(),
            None => &[],
        }
    }

    /// The locations that are wanted after the statement at a point, in no order.
    pub fn after(&self, at: Point) -> &[Loc]
        ensures { result.now ≡ row_at self.now.rows.items (next_point at) }
    {
        row_after(self.rows_at(at), at.done)
    }

    /// Whether it is known.
    pub fn has(&self, want: Want) -> bool
        ensures { result ≡ told_in self.now.rows.items want }
    {
        match self.rows_at(want.at).get(want.at.done) {
            Some(row) => row.contains(want.location),
            None => false,
        }
    }

    /// The want becomes known.
    pub fn add(&mut self, alloc: Global, want: Want) -> Result<(), AllocError>
        ensures { OnOk result ((x : _) → told_in self.new.rows.items x
            ≡ (same_want x want || told_in self.old.rows.items x)) }
    {
        let graph = want.at.graph;
        make_room(alloc, &mut self.rows, graph)?;
        add_in_graph(alloc, &mut self.rows[graph], want)
    }
}
