//! Assignments to locations that are not needed after them.

ghost use Rattle.std.specs.Prelude.{◌≡◌, ◌<◌, [], ◌∷◌, ◌++◌, if◌then◌else◌, length, get_or, map, All, IfOk, OnOk};
ghost use Rattle.dcc_ir.specs.Views.{stmt_of, block_of, graph_of, live_of};
ghost use Rattle.dcc_ir.specs.WellFormed.{IsGraph};
ghost use Rattle.dcc_ir.specs.Live.{IsLive};
ghost use Rattle.dcc_ir.specs.Replaced.{MayReplace};
ghost use Rattle.dcc_flow.specs.Access.{access_in, access_of, block_access_in, block_access_of, accesses_of};
ghost use Rattle.dcc_flow.specs.Marks.{empty, members};
ghost use Rattle.dcc_live.specs.Needed.{left_of, block_left, blocks_left, AreNeededAtEnds};
ghost use Rattle.dcc_live.specs.Dead.{IsWithoutUnneeded};

use crate::needed::{NeededEnds, begin, needed_at_ends, pass};
use dcc_flow::{Access, BlockAccess, Marks, Steps, accesses};
use dcc_ir::{Block, Graph, Live, Stmt};
use std::alloc::{AllocError, Global};
use std::marker::Brand;
use std::sync::ledger::{Blank, Ledger};

// Puts a statement that stays at the end of a list.
fn put(left: &mut Vec<Stmt>, stmt: Stmt, staying: bool) -> Result<(), AllocError>
    ensures { OnOk result (left.new.items ≡ (if staying then left.old.items ++ stmt ∷ [] else left.old.items)) }
{
    if staying {
        left.push(stmt)?;
    }
    Ok(())
}

// The statements without the assignments to what is not needed after them; the set has what is needed after the last.
fn stmts_left(
    alloc: Global,
    marks: &mut Marks,
    accesses: &[Access],
    stmts: Vec<Stmt>,
) -> Result<Vec<Stmt>, AllocError>
    requires { map access_in accesses.now ≡ map access_of (map stmt_of stmts.items) }
    ensures { IfOk result (λ left. map stmt_of left.items ≡ left_of (map stmt_of stmts.items) (members marks.old)) }
{
    let mut rest = stmts;
    let mut left = Vec::new(alloc);
    while let Some(stmt) = rest.pop() {
        let staying = pass(marks, &accesses[rest.len()])?;
        put(&mut left, stmt, staying)?;
    }
    left.reverse();
    Ok(left)
}

// The block without the assignments to what is not needed after them. The set is empty, before and after.
fn block_left(
    alloc: Global,
    marks: &mut Marks,
    needed: &NeededEnds,
    place: usize,
    access: &BlockAccess,
    block: Block,
) -> Result<Block, AllocError>
    requires empty { members marks.old ≡ empty }
    requires place { place < length needed.now.at_end.items }
    requires len { All (λ bits. length bits ≡ length needed.now.places) needed.now.at_end.items }
    requires access { block_access_in access.now ≡ block_access_of (block_of block) }
    ensures left { IfOk result (λ left. block_of left
        ≡ block_left needed.now.places (get_or needed.now.at_end.items place []) (block_of block)) }
    ensures empty { OnOk result (members marks.new ≡ empty) }
{
    begin(
        alloc,
        marks,
        &needed.places,
        &needed.at_end[place],
        access.last.as_slice(),
    )?;
    let stmts = stmts_left(alloc, marks, access.stmts.as_slice(), block.stmts)?;
    marks.clear();
    Ok(Block {
        at: block.at,
        stmts,
        end: block.end,
    })
}

// The blocks without the assignments to what is not needed after them.
fn blocks_left(
    alloc: Global,
    needed: &NeededEnds,
    accesses: &Vec<BlockAccess>,
    blocks: Vec<Block>,
) -> Result<Vec<Block>, AllocError>
    requires count { length needed.now.at_end.items ≡ length blocks.items }
    requires len { All (λ bits. length bits ≡ length needed.now.places) needed.now.at_end.items }
    requires accesses { map block_access_in accesses.now.items ≡ map block_access_of (map block_of blocks.items) }
    ensures { IfOk result (λ left. map block_of left.items
        ≡ blocks_left needed.now.places needed.now.at_end.items (map block_of blocks.items)) }
{
    let mut marks = Marks::new(alloc);
    let mut rest = blocks;
    let mut left = Vec::new(alloc);
    while let Some(block) = rest.pop() {
        let place = rest.len();
        let staying = block_left(alloc, &mut marks, needed, place, &accesses[place], block)?;
        left.push(staying)?;
    }
    left.reverse();
    Ok(left)
}

// What is needed at the end of each block.
fn needed_in<L: Ledger>(
    alloc: Global,
    blank: Blank,
    g: &Graph,
    accesses: &Vec<BlockAccess>,
) -> Result<NeededEnds, AllocError>
    requires graph { IsGraph (graph_of g.now) }
    requires blocks { map block_access_in accesses.now.items ≡ accesses_of (graph_of g.now) }
    requires name { blank.name ≡ L.name }
    requires parts { blank.parts ≡ L.parts }
    requires some { 0 < blank.parts }
    ensures { IfOk result (λ w. AreNeededAtEnds (graph_of g.now) w.places w.at_end.items) }
{
    let mut steps = Steps::<L>::new(blank);
    needed_at_ends(alloc, g, accesses, &mut steps)
}

/// The graph without the assignments to locations that are not needed after them. `l` is what is live in the graph;
/// what is needed is less, and is found anew.
pub fn drop_dead(alloc: Global, g: Graph, _l: &Live) -> Result<Graph, AllocError>
    requires graph { IsGraph (graph_of g) }
    requires live { IsLive (graph_of g) (live_of _l.now) }
    ensures formed { IfOk result (λ after. IsGraph (graph_of after)) }
    ensures without { IfOk result (λ after. IsWithoutUnneeded (graph_of g) (graph_of after)) }
    ensures keeps { IfOk result (λ after. MayReplace (graph_of g) (graph_of after)) }
{
    let accesses = accesses(alloc, &g)?;
    let needed = needed_in::<Brand>(alloc, Blank::new(1), &g, &accesses)?;
    let blocks = blocks_left(alloc, &needed, &accesses, g.blocks)?;
    Ok(Graph { blocks, ..g })
}
