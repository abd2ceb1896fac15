//! Which locations are needed at the ends of blocks.

ghost use Rattle.std.specs.Prelude.{◌≡◌, length, map, All, Contains, IfOk, OnOk};
ghost use Rattle.dcc_ir.specs.Views.{graph_of};
ghost use Rattle.dcc_ir.specs.WellFormed.{IsGraph};
ghost use Rattle.dcc_flow.specs.Access.{access_in, block_access_in, accesses_of};
ghost use Rattle.dcc_flow.specs.Marks.{empty, members};
ghost use Rattle.dcc_live.specs.First.{row_of, Tells};
ghost use Rattle.dcc_live.specs.Needed.{stays, before_one, before_all, after_stmts, before_block, AreNeededAtEnds};

use crate::places::{bits_of, selected};
use crate::rows::{places, rows};
use dcc_flow::{Access, Bits, BlockAccess, Flow, Marks, Places, Steps, Work, preds, successors};
use dcc_ir::{Graph, Loc};
use std::alloc::{AllocError, Global};
use std::sync::ledger::Ledger;

// Whether a statement stays, where the set is needed after it.
fn stays(marks: &Marks, access: &Access) -> bool
    ensures { result ≡ stays (access_in access.now) (members marks.now) }
{
    !(access.assigns && !marks.contains_any(access.writes.as_slice()))
}

/// From what is needed after a statement to what is needed before it. The answer is whether the statement stays: an
/// assignment to what is not needed goes, and leaves the set as it was.
pub fn pass(marks: &mut Marks, access: &Access) -> Result<bool, AllocError>
    ensures stays { IfOk result (λ b. b ≡ stays (access_in access.now) (members marks.old)) }
    ensures marks { OnOk result (members marks.new ≡ before_one (access_in access.now) (members marks.old)) }
{
    let staying = stays(marks, access);
    if staying {
        marks.remove_all(access.writes.as_slice());
        marks.add_all(access.reads.as_slice())?;
    }
    Ok(staying)
}

/// From nothing to what is needed after the statements of a block, where these places are needed after the block.
pub fn begin(
    alloc: Global,
    marks: &mut Marks,
    places: &Places,
    bits: &Bits,
    last: &[Loc],
) -> Result<(), AllocError>
    requires empty { members marks.old ≡ empty }
    requires len { length bits.now ≡ length places.now }
    ensures { OnOk result (members marks.new ≡ after_stmts places.now bits.now last.now) }
{
    let needed = selected(alloc, places, bits)?;
    marks.add_all(needed.as_slice())?;
    marks.add_all(last)
}

// From what is needed after the statements of a block to what is needed before them.
fn pass_all(marks: &mut Marks, stmts: &[Access]) -> Result<(), AllocError>
    ensures { OnOk result (members marks.new ≡ before_all (map access_in stmts.now) (members marks.old)) }
{
    let mut at = stmts.len();
    while at > 0 {
        at -= 1;
        pass(marks, &stmts[at])?;
    }
    Ok(())
}

// Which places are needed before a block, where these are needed after it. The set is empty, before and after.
fn needed_before<L: Ledger>(
    alloc: Global,
    marks: &mut Marks,
    places: &Places,
    bits: &Bits,
    block: &BlockAccess,
    steps: &mut Steps<L>,
) -> Result<Bits, AllocError>
    requires empty { members marks.old ≡ empty }
    requires len { length bits.now ≡ length places.now }
    ensures len { IfOk result (λ start. length start ≡ length places.now) }
    ensures tells { IfOk result (Tells places.now (before_block places.now bits.now (block_access_in block.now))) }
    ensures empty { OnOk result (members marks.new ≡ empty) }
{
    begin(alloc, marks, places, bits, block.last.as_slice())?;
    pass_all(marks, block.stmts.as_slice())?;
    let start = bits_of(alloc, places, marks, steps)?;
    marks.clear();
    Ok(start)
}

/// Which locations are needed at the ends of the blocks.
#[derive(Drop)]
pub struct NeededEnds {
    /// Some locations, all those among them that are needed at the end of a block.
    pub places: Places,
    /// For each block which of them are needed at its end.
    pub at_end: Vec<Bits>,
}

// Which of these locations are needed at the end of each block.
fn solved<L: Ledger>(
    alloc: Global,
    g: &Graph,
    places: &Places,
    blocks: &Vec<BlockAccess>,
    steps: &mut Steps<L>,
) -> Result<Vec<Bits>, AllocError>
    requires graph { IsGraph (graph_of g.now) }
    requires blocks { map block_access_in blocks.now.items ≡ accesses_of (graph_of g.now) }
    requires places { All (λ row. All (Contains places.now) row.first) (map row_of (accesses_of (graph_of g.now))) }
    ensures { IfOk result (λ at_end. AreNeededAtEnds (graph_of g.now) places.now at_end.items) }
{
    let sources = preds(alloc, g)?;
    let next = successors(alloc, g)?;
    let mut marks = Marks::new(alloc);
    let mut work = Work::new(alloc, &next, places.len())?;
    while let Some(block) = work.take() {
        let start = needed_before(
            alloc,
            &mut marks,
            places,
            &work.answer[block],
            &blocks[block],
            steps,
        )?;
        let flow = Flow {
            used: &start,
            out: &start,
            written: &start,
        };
        work.spread(sources[block].as_slice(), &flow, steps);
    }
    Ok(work.answer)
}

/// What is needed at the end of each block of a graph.
pub(crate) fn needed_at_ends<L: Ledger>(
    alloc: Global,
    g: &Graph,
    blocks: &Vec<BlockAccess>,
    steps: &mut Steps<L>,
) -> Result<NeededEnds, AllocError>
    requires graph { IsGraph (graph_of g.now) }
    requires blocks { map block_access_in blocks.now.items ≡ accesses_of (graph_of g.now) }
    ensures { IfOk result (λ w. AreNeededAtEnds (graph_of g.now) w.places w.at_end.items) }
{
    let rows = rows(alloc, blocks)?;
    let places = places(alloc, &rows)?;
    let at_end = solved(alloc, g, &places, blocks, steps)?;
    Ok(NeededEnds { places, at_end })
}
