//! A graph without the divisions that may go.

ghost use Rattle.std.specs.Prelude.{◌≡◌, ◌≤◌, ◌++◌, [], ◌∷◌, if◌then◌else◌, length, map, All, IfOk, OnOk, true};
ghost use Rattle.std.specs.List.{AllZip};
ghost use Rattle.dcc_ir.specs.Tree.{Graph as GraphOf, Block as BlockOf, Stmt as StmtOf};
ghost use Rattle.dcc_ir.specs.Live.{IsLive};
ghost use Rattle.dcc_ir.specs.Families.{live as Live};
ghost use Rattle.dcc_ir.specs.Measure.{deepest};
ghost use Rattle.dcc_ir.specs.Use.{graph_exprs};
ghost use Rattle.dcc_ir.specs.Views.{stmt_of, block_of, graph_of, live_of};
ghost use Rattle.dcc_ir.specs.WellFormed.{IsGraph};
ghost use Rattle.dcc_flow.specs.Access.{access_in, access_of, block_access_in, block_access_of};
ghost use Rattle.dcc_flow.specs.Marks.{empty, members, with_all, without_all};
ghost use Rattle.dcc_passes.specs.Tidied.{IsTidied};
ghost use Rattle.dcc_divisions.specs.Divisions.{AreLeft, IsBlockLeft, IsWithoutDivisions};
ghost use Rattle.dcc_divisions.specs.Walk.{backward, MayGo, Covers, CoversEnd, CoverEnds};

use crate::alike::{divides_last, is_divided};
use dcc_flow::{Access, BlockAccess, Marks, accesses};
use dcc_ir::{Block, Graph, Loc, Stmt, Sums};
use dcc_live::live;
use std::alloc::{AllocError, Global};

/// How many statements before a division are looked at.
const REACH: usize = 64;

// Whether a division may go, where these are passed, that is live after it, and these are left behind it, the last one
// first.
fn may_go(passed: &[Stmt], live: &Marks, left: &[Stmt], access: &Access, stmt: &Stmt) -> bool
    requires { access_in access.now ≡ access_of (stmt_of stmt.now) }
    ensures { result ≡ true → MayGo (members live.now) (backward passed.now) (backward left.now) (stmt_of stmt.now) }
{
    match stmt {
        Stmt::Div { place, division } => {
            let reads = access.reads.as_slice();
            !live.contains(*place)
                && (divides_last(left, division) || is_divided(passed, REACH, division, reads))
        }
        _ => false,
    }
}

// Puts a statement that stays at the end of a list.
fn put(left: &mut Vec<Stmt>, stmt: Stmt, goes: bool) -> Result<(), AllocError>
    ensures { OnOk result (left.new.items ≡ (if goes then left.old.items else left.old.items ++ stmt ∷ [])) }
{
    if !goes {
        left.push(stmt)?;
    }
    Ok(())
}

// From what is live after a statement to what is live before it.
fn pass(live: &mut Marks, access: &Access) -> Result<(), AllocError>
    ensures { OnOk result (members live.new
        ≡ with_all (without_all (members live.old) (access_in access.now).writes) (access_in access.now).reads) }
{
    live.remove_all(access.writes.as_slice());
    live.add_all(access.reads.as_slice())
}

// The statements without the divisions that may go; the set has what is live after the last one.
fn stmts_left(
    alloc: Global,
    live: &mut Marks,
    accesses: &[Access],
    stmts: Vec<Stmt>,
) -> Result<Vec<Stmt>, AllocError>
    requires { map access_in accesses.now ≡ map access_of (map stmt_of stmts.items) }
    ensures { IfOk result (λ left. (graph : GraphOf) (block : BlockOf) → Covers graph block [] (members live.old)
        → AreLeft (Live graph block) [] (map stmt_of stmts.items) (map stmt_of left.items)) }
{
    let mut passed = stmts;
    let mut left = Vec::new(alloc);
    while let Some(stmt) = passed.pop() {
        let access = &accesses[passed.len()];
        let goes = may_go(passed.as_slice(), &*live, left.as_slice(), access, &stmt);
        pass(live, access)?;
        put(&mut left, stmt, goes)?;
    }
    left.reverse();
    Ok(left)
}

// The block without the divisions that may go. The set is empty, before and after.
fn block_left(
    alloc: Global,
    live: &mut Marks,
    at_end: &[Loc],
    access: &BlockAccess,
    block: Block,
) -> Result<Block, AllocError>
    requires empty { members live.old ≡ empty }
    requires access { block_access_in access.now ≡ block_access_of (block_of block) }
    ensures left { IfOk result (λ left. (graph : GraphOf) → CoversEnd graph (block_of block) at_end.now
        → IsBlockLeft graph (block_of block) (block_of left)) }
    ensures empty { OnOk result (members live.new ≡ empty) }
{
    live.add_all(at_end)?;
    live.add_all(access.last.as_slice())?;
    let stmts = stmts_left(alloc, live, access.stmts.as_slice(), block.stmts)?;
    live.clear();
    Ok(Block {
        at: block.at,
        stmts,
        end: block.end,
    })
}

// The blocks without the divisions that may go.
fn blocks_left(
    alloc: Global,
    at_end: &Vec<Vec<Loc>>,
    accesses: &Vec<BlockAccess>,
    blocks: Vec<Block>,
) -> Result<Vec<Block>, AllocError>
    requires count { length at_end.now.items ≡ length blocks.items }
    requires accesses { map block_access_in accesses.now.items ≡ map block_access_of (map block_of blocks.items) }
    ensures { IfOk result (λ left. (graph : GraphOf)
        → CoverEnds graph (map block_of blocks.items) (map (λ v. v.items) at_end.now.items)
        → AllZip (IsBlockLeft graph) (map block_of blocks.items) (map block_of left.items)) }
{
    let mut live = Marks::new(alloc);
    let mut left = Vec::new(alloc);
    for block in blocks {
        let place = left.len();
        let at_end = at_end[place].as_slice();
        left.push(block_left(alloc, &mut live, at_end, &accesses[place], block)?)?;
    }
    Ok(left)
}

/// The graph without the divisions that nothing asks for: a division goes whose location isn't live after it, where
/// another one that faults alike stands before it in its block and what it reads wasn't written since, or directly behind
/// it. A division may stay that stands more than 64 statements behind the other one.
pub fn drop_divisions(alloc: Global, g: Graph) -> Result<Graph, AllocError>
    requires { IsGraph (graph_of g) }
    ensures without { IfOk result (λ after. IsWithoutDivisions (graph_of g) (graph_of after)) }
    ensures tidied { IfOk result (λ after. IsTidied (graph_of g) (graph_of after)) }
    ensures depth { IfOk result
        (λ after. deepest (graph_exprs (graph_of after)) ≤ deepest (graph_exprs (graph_of g))) }
{
    let no_sums = Sums {
        of: Vec::new(alloc),
    };
    let live = live(alloc, &g, &no_sums)?;
    let accesses = accesses(alloc, &g)?;
    let blocks = blocks_left(alloc, &live.at_end, &accesses, g.blocks)?;
    Ok(Graph { blocks, ..g })
}
