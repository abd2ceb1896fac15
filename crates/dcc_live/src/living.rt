//! Which locations are live at the ends of blocks.

ghost use Rattle.std.specs.Prelude.{◌≡◌, ◌<◌, length, map, All, IfOk};
ghost use Rattle.dcc_ir.specs.Views.{graph_of, live_of};
ghost use Rattle.dcc_ir.specs.WellFormed.{IsGraph};
ghost use Rattle.dcc_ir.specs.Live.{IsLive};
ghost use Rattle.dcc_flow.specs.Access.{accesses_of};
ghost use Rattle.dcc_flow.specs.Marks.{selected};
ghost use Rattle.dcc_live.specs.First.{row_of, row_in, AreTold, AreLiveBits};

use crate::places::{bits_at, selected};
use crate::rows::{Row, places, rows};
use dcc_flow::{Bits, Places, Steps, accesses, solve, successors};
use dcc_ir::{Graph, Live, Loc, Sums};
use std::alloc::{AllocError, Global};
use std::marker::Brand;
use std::sync::ledger::{Blank, Ledger};

/// For each block which of these locations it reads before it writes them, and which it writes.
#[derive(Drop)]
pub struct Table {
    pub used: Vec<Bits>,
    pub written: Vec<Bits>,
}

// For each block which of these locations it reads before it writes them, and which it writes.
fn table_of<L: Ledger>(
    alloc: Global,
    places: &Places,
    rows: &Vec<Row>,
    steps: &mut Steps<L>,
) -> Result<Table, AllocError>
    ensures { IfOk result
        (λ table. AreTold places.now (map row_in rows.now.items) table.used.items table.written.items) }
{
    let mut used = Vec::new(alloc);
    let mut written = Vec::new(alloc);
    for row in rows {
        used.push(bits_at(alloc, places, row.first.as_slice(), steps)?)?;
        written.push(bits_at(alloc, places, row.writes.as_slice(), steps)?)?;
    }
    Ok(Table { used, written })
}

// Which of these locations are live at the end of each block.
fn live_bits<L: Ledger>(
    alloc: Global,
    blank: Blank,
    g: &Graph,
    places: &Places,
    rows: &Vec<Row>,
) -> Result<Vec<Bits>, AllocError>
    requires graph { IsGraph (graph_of g.now) }
    requires rows { map row_in rows.now.items ≡ map row_of (accesses_of (graph_of g.now)) }
    requires name { blank.name ≡ L.name }
    requires parts { blank.parts ≡ L.parts }
    requires some { 0 < blank.parts }
    ensures { IfOk result (λ answer. AreLiveBits (graph_of g.now) places.now answer.items) }
{
    let mut steps = Steps::<L>::new(blank);
    let table = table_of(alloc, places, rows, &mut steps)?;
    let next = successors(alloc, g)?;
    let answer = solve(
        alloc,
        &next,
        &table.used,
        &table.written,
        places.len(),
        &mut steps,
    )?;
    Ok(answer)
}

// The locations that each of these selects.
fn all_selected(
    alloc: Global,
    places: &Places,
    bits: &Vec<Bits>,
) -> Result<Vec<Vec<Loc>>, AllocError>
    requires { All (λ b. length b ≡ length places.now) bits.now.items }
    ensures { IfOk result (λ lists. map (λ v. v.items) lists.items ≡ map (selected places.now) bits.now.items) }
{
    let mut lists = Vec::new(alloc);
    for b in bits {
        lists.push(selected(alloc, places, b)?)?;
    }
    Ok(lists)
}

/// The locations that are live at the end of each block: those that some path from there reads before it writes them.
/// The sums play no part, since each call names what it reads and what it writes.
pub fn live(alloc: Global, g: &Graph, _sums: &Sums) -> Result<Live, AllocError>
    requires { IsGraph (graph_of g.now) }
    ensures { IfOk result (λ l. IsLive (graph_of g.now) (live_of l)) }
{
    let blocks = accesses(alloc, g)?;
    let rows = rows(alloc, &blocks)?;
    let places = places(alloc, &rows)?;
    let bits = live_bits::<Brand>(alloc, Blank::new(1), g, &places, &rows)?;
    let at_end = all_selected(alloc, &places, &bits)?;
    Ok(Live { at_end })
}
