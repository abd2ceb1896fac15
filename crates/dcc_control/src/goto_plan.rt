//! The plan of a text with jumps.

ghost use Rattle.std.specs.Prelude.{◌≡◌, ◌<◌, [], ◌∷◌, ◌++◌, IfOk, OnOk, IfSome, length, map, replicate};
ghost use Rattle.dcc_ir.specs.Views.{block_of, exit_of, graph_of, stmt_of};
ghost use Rattle.dcc_control.specs.Cases.{with_case};
ghost use Rattle.dcc_control.specs.GotoPlan as spec;
ghost use Rattle.dcc_control.specs.Plan.{Plan, item, Mark, If as Test, Switch as Choice};
ghost use Rattle.dcc_control.specs.Views.{plan_before, plan_of, arms_of};

use crate::item::{Arm, Item};
use dcc_ir::{Block, End, Graph, Stmt};
use indexmap::IndexSet;
use std::alloc::{AllocError, Global};

// The place of a block or a statement as a number of 32 bits. That it is none is told as want of memory.
fn numbered(place: usize) -> Result<u32, AllocError>
    ensures { IfOk result (λ n. n ≡ place) }
{
    u32::try_from(place).map_err(|_| AllocError)
}

// A jump to a block.
fn jump(alloc: Global, b: u32) -> Result<Vec<Item>, AllocError>
    ensures { IfOk result (λ items. plan_of items.items ≡ spec.jump b) }
{
    let mut items = Vec::with_capacity(alloc, 1)?;
    items.push(Item::Jump(b))?;
    Ok(items)
}

// The numbers in the order in which they first stand in a list.
fn distinct(alloc: Global, places: &[u32]) -> Result<IndexSet<u32>, AllocError>
    ensures { IfOk result (λ set. set.keys ≡ spec.distinct places.now) }
{
    let mut set = IndexSet::new(alloc);
    for place in places {
        set.insert(*place)?;
    }
    Ok(set)
}

// As many empty lists.
fn empty_lists(alloc: Global, count: usize) -> Result<Vec<Vec<u16>>, AllocError>
    ensures { IfOk result (λ lists. map (λ list. list.items) lists.items ≡ replicate count []) }
{
    let mut lists = Vec::new(alloc);
    for _ in 0..count {
        lists.push(Vec::new(alloc))?;
    }
    Ok(lists)
}

// The place in a list as a case. That it has more than 16 bits is told as want of memory.
fn case_at(place: usize) -> Result<u16, AllocError>
    ensures { IfOk result (λ case. case ≡ place) }
{
    u16::try_from(place).map_err(|_| AllocError)
}

// Puts a case at the end of a list.
fn push_case(list: &mut Vec<u16>, case: u16) -> Result<(), AllocError>
    ensures { OnOk result (list.new.items ≡ list.old.items ++ case ∷ []) }
{
    list.push(case)?;
    Ok(())
}

// Puts a case at the end of the list at a place, where there is one.
fn add_case(lists: &mut Vec<Vec<u16>>, place: Option<usize>, case: u16) -> Result<(), AllocError>
    requires { IfSome place (λ i. i < length lists.old.items) }
    ensures { OnOk result (map (λ list. list.items) lists.new.items
        ≡ with_case place case (map (λ list. list.items) lists.old.items)) }
{
    match place {
        Some(i) => push_case(&mut lists[i], case),
        None => Ok(()),
    }
}

// For each of a list's distinct numbers, where it stands in the list, in ascending order. That the list has more than
// 65,536 numbers is told as want of memory.
fn case_lists(
    alloc: Global,
    places: &[u32],
    targets: &IndexSet<u32>,
) -> Result<Vec<Vec<u16>>, AllocError>
    requires { targets.now.keys ≡ spec.distinct places.now }
    ensures { IfOk result (λ lists. map (λ list. list.items) lists.items
        ≡ map (λ target. spec.places_from 0 target places.now) (spec.distinct places.now)) }
{
    let mut lists = empty_lists(alloc, targets.len())?;
    for (n, place) in places.iter().enumerate() {
        let case = case_at(n)?;
        add_case(&mut lists, targets.get_index_of(place), case)?;
    }
    Ok(lists)
}

// An arm for each target of a choice, in the order of their first cases.
fn target_arms(alloc: Global, places: &[u32]) -> Result<Vec<Arm>, AllocError>
    ensures { IfOk result (λ arms. arms_of arms.items ≡ spec.target_arms places.now (spec.distinct places.now)) }
{
    let targets = distinct(alloc, places)?;
    let lists = case_lists(alloc, places, &targets)?;
    let targets = targets.as_slice();
    let mut arms = Vec::with_capacity(alloc, targets.len())?;
    for i in 0..targets.len() {
        let cases = lists[i].as_slice().to_vec(alloc)?;
        let body = jump(alloc, targets[i])?;
        arms.push(Arm { cases, body })?;
    }
    Ok(arms)
}

// Appends the statements of a block.
fn push_stmts(items: &mut Vec<Item>, b: u32, stmts: &[Stmt]) -> Result<(), AllocError>
    ensures { (plan : Plan) → OnOk result (plan_before items.new.items plan
        ≡ plan_before items.old.items (spec.do_all b 0 (map stmt_of stmts.now) plan)) }
{
    let count = numbered(stmts.len())?;
    for m in 0..count {
        items.push(Item::Do(b, m))?;
    }
    Ok(())
}

// Appends a test with a jump on either side.
fn push_test(
    alloc: Global,
    items: &mut Vec<Item>,
    b: u32,
    one: u32,
    other: u32,
) -> Result<(), AllocError>
    ensures { (plan : Plan) → OnOk result (plan_before items.new.items plan
        ≡ plan_before items.old.items (item (Test b (spec.jump one) (spec.jump other)) plan)) }
{
    let one = jump(alloc, one)?;
    let other = jump(alloc, other)?;
    items.push(Item::If(b, one, other))?;
    Ok(())
}

// Appends a choice, each arm of which is a jump.
fn push_choice(
    alloc: Global,
    items: &mut Vec<Item>,
    b: u32,
    places: &[u32],
) -> Result<(), AllocError>
    ensures { (plan : Plan) → OnOk result (plan_before items.new.items plan
        ≡ plan_before items.old.items (item (Choice b
        (spec.target_arms places.now (spec.distinct places.now))) plan)) }
{
    let arms = target_arms(alloc, places)?;
    items.push(Item::Switch(b, arms))?;
    Ok(())
}

// Appends the end of a block.
fn push_exit(alloc: Global, items: &mut Vec<Item>, b: u32, end: &End) -> Result<(), AllocError>
    ensures { (plan : Plan) → OnOk result (plan_before items.new.items plan
        ≡ plan_before items.old.items (spec.goto_exit b (exit_of end.now) plan)) }
{
    match end {
        End::Goto(next) => items.push(Item::Jump(*next))?,
        End::If { one, other, .. } => push_test(alloc, items, b, *one, *other)?,
        End::Switch { blocks, .. } => push_choice(alloc, items, b, blocks)?,
        End::Ret(_) => items.push(Item::Return(b))?,
        End::Stop => {}
    }
    Ok(())
}

// Appends a block: its label, its statements and its end.
fn push_block(alloc: Global, items: &mut Vec<Item>, b: u32, block: &Block) -> Result<(), AllocError>
    ensures { (plan : Plan) → OnOk result (plan_before items.new.items plan
        ≡ plan_before items.old.items (item (Mark b)
        (spec.do_all b 0 (block_of block.now).stmts (spec.goto_exit b (block_of block.now).exit plan)))) }
{
    items.push(Item::Mark(b))?;
    push_stmts(items, b, &block.stmts)?;
    push_exit(alloc, items, b, &block.end)
}

// The plan of all blocks of a graph.
fn blocks_plan(alloc: Global, blocks: &[Block]) -> Result<Vec<Item>, AllocError>
    ensures { IfOk result (λ items. plan_of items.items ≡ spec.goto_blocks 0 (map block_of blocks.now)) }
{
    let mut items = Vec::new(alloc);
    for (b, block) in blocks.iter().enumerate() {
        let place = numbered(b)?;
        push_block(alloc, &mut items, place, block)?;
    }
    Ok(items)
}

/// The plan of a text with jumps: each block after its label, its statements, and its end by jumps or a return. A graph
/// with more blocks, a block with more statements than 32 bits can number and a choice with more than 65,536 places are
/// told as want of memory.
pub fn goto_plan(alloc: Global, graph: &Graph) -> Result<Vec<Item>, AllocError>
    ensures { IfOk result (λ items. plan_of items.items ≡ spec.goto_plan (graph_of graph.now)) }
{
    blocks_plan(alloc, &graph.blocks)
}
