//! The test that a plan is one of its graph.

ghost use Rattle.std.specs.Prelude.{◌≡◌, ◌<◌, ℕ, true, List, length, slice_get, Some, IfOk, IfSome};
ghost use Rattle.dcc_ir.specs.Live.{block_in};
ghost use Rattle.dcc_ir.specs.Tree.{Expr, If as Test, Switch as Choice, Ret};
ghost use Rattle.dcc_ir.specs.Views.{graph_of};
ghost use Rattle.dcc_control.specs.Plan.{arm_with, is_empty_statement, starts_empty};
ghost use Rattle.dcc_control.specs.Plan.{If as TestItem, Switch as ChoiceItem, For as LoopItem};
ghost use Rattle.dcc_control.specs.Valid.{Begin, Leads, end_of, entry, item_entry};
ghost use Rattle.dcc_control.specs.Views.{item_of, plan_of, arms_of};
ghost use Rattle.dcc_plan_check.specs.Checked.{point_of, context_of, is_begun_in, is_marked_in, FitsItem, Fits, FitArms};
ghost use Rattle.dcc_plan_check.specs.Checked.{in_sides, in_arms, in_loop};
ghost use Rattle.dcc_plan_check.specs.Structured.{IsStructured};

use crate::labels::{Labels, labels_of};
use crate::point::{Point, leads};
use dcc_control::{Arm, Item};
use dcc_ir::{End, Graph};
use std::alloc::{AllocError, Global};

/// How many items may stand around another.
pub const MOST_NESTED: usize = 200;

/// What stands around a part of a plan.
#[derive(Clone, Copy, PartialEq, Eq, Debug)]
pub struct Around {
    /// Where the graph is behind the part.
    pub next: Point,
    /// Where `break` leads.
    pub at_break: Point,
    /// Where `continue` leads.
    pub at_continue: Point,
    /// How many items more may stand around each other.
    pub room: usize,
}

// The end of a block.
fn end_of(graph: &Graph, b: u32) -> Point
    ensures { point_of result ≡ end_of (graph_of graph.now) b }
{
    match graph.blocks.get(b as usize) {
        Some(block) => Point::Before(b, block.stmts.len()),
        None => Point::Before(b, 0),
    }
}

// The point that an item stands for, where the graph is at the next point behind it.
fn item_entry(graph: &Graph, item: &Item, a: Around) -> Point
    ensures { point_of result ≡ item_entry (graph_of graph.now) (item_of item.now) (context_of a) }
{
    match item {
        Item::Do(b, m) => Point::Before(*b, *m as usize),
        Item::Mark(b) => Point::Begin(*b),
        Item::Jump(b) => Point::Begin(*b),
        Item::If(b, _, _) => end_of(graph, *b),
        Item::Switch(b, _) => end_of(graph, *b),
        Item::Return(b) => end_of(graph, *b),
        Item::For(b, _) => Point::Before(*b, 0),
        Item::While(_, b, _) => Point::Before(*b, 0),
        Item::DoWhile(_, _, head, _) => Point::Before(*head, 0),
        Item::Break => a.at_break,
        Item::Continue => a.at_continue,
        Item::Empty => a.next,
    }
}

// Whether the item is an empty statement.
fn is_empty_statement(item: &Item) -> bool
    ensures { result ≡ is_empty_statement (item_of item.now) }
{
    matches!(item, Item::Empty)
}

// The point that a plan stands for.
fn entry(graph: &Graph, items: &[Item], a: Around) -> Point
    ensures { point_of result ≡ entry (graph_of graph.now) (plan_of items.now) (context_of a) }
{
    for item in items {
        if !is_empty_statement(item) {
            return item_entry(graph, item, a);
        }
    }
    a.next
}

// Whether the first item is an empty statement.
fn starts_empty(items: &[Item]) -> bool
    ensures { result ≡ starts_empty (plan_of items.now) }
{
    match items.first() {
        Some(item) => is_empty_statement(item),
        None => false,
    }
}

// The point that the first arm with a case stands for, or where the graph is behind the choice if there is none.
fn arm_entry(graph: &Graph, arms: &[Arm], case: u16, a: Around) -> Point
    ensures { point_of result ≡ entry (graph_of graph.now) (arm_with case (arms_of arms.now)) (context_of a) }
{
    for arm in arms {
        if arm.cases.contains(&case) {
            return entry(graph, &arm.body, a);
        }
    }
    a.next
}

// The graph has the block.
fn is_block(graph: &Graph, b: u32) -> bool
    ensures { result ≡ true → b < length (graph_of graph.now).blocks }
{
    (b as usize) < graph.blocks.len()
}

// The block has the statement.
fn is_stmt(graph: &Graph, b: u32, m: u32) -> bool
    ensures { result ≡ true → (b < length (graph_of graph.now).blocks)
        × (m < length (block_in (graph_of graph.now) b).stmts) }
{
    match graph.blocks.get(b as usize) {
        Some(block) => (m as usize) < block.stmts.len(),
        None => false,
    }
}

// The block ends in a return.
fn is_return(graph: &Graph, b: u32) -> bool
    ensures { result ≡ true → (values : List Expr) × ((block_in (graph_of graph.now) b).exit ≡ Ret values)
        × (b < length (graph_of graph.now).blocks) }
{
    match graph.blocks.get(b as usize) {
        Some(block) => matches!(block.end, End::Ret(_)),
        None => false,
    }
}

/// The block has a label.
pub(crate) fn is_marked(labels: &Labels, b: u32) -> bool
    ensures { result ≡ is_marked_in labels.now.marked.items b }
{
    match labels.marked.get(b as usize) {
        Some(is) => *is,
        None => false,
    }
}

// The blocks to which the test at the end of a block goes, where there is one.
fn sides(graph: &Graph, b: u32) -> Option<(u32, u32)>
    ensures { IfSome result (λ to. (b < length (graph_of graph.now).blocks)
        × ((test : Expr) × ((block_in (graph_of graph.now) b).exit ≡ Test test to.0 to.1))) }
{
    match graph.blocks.get(b as usize) {
        Some(block) => match &block.end {
            End::If { one, other, .. } => Some((*one, *other)),
            _ => None,
        },
        None => None,
    }
}

// From each place of a choice the graph leads to the arm with its case.
fn leads_to_arms(graph: &Graph, labels: &Labels, places: &[u32], arms: &[Arm], a: Around) -> bool
    ensures { result ≡ true → (n place : ℕ) → slice_get places.now n ≡ Some place
        → Leads (graph_of graph.now) (is_begun_in labels.now.begun.items) (Begin place)
        (entry (graph_of graph.now) (arm_with n (arms_of arms.now)) (context_of a)) }
{
    for (n, place) in places.iter().enumerate() {
        let Ok(case) = u16::try_from(n) else {
            return false;
        };
        let to = arm_entry(graph, arms, case, a);
        if !leads(graph, &labels.begun, Point::Begin(*place), to) {
            return false;
        }
    }
    true
}

// The block ends in a choice, from each of whose places the graph leads to the arm with its case.
fn is_choice(graph: &Graph, labels: &Labels, b: u32, arms: &[Arm], a: Around) -> bool
    ensures { result ≡ true → (b < length (graph_of graph.now).blocks)
        × ((e : Expr) × (places : List ℕ) × ((block_in (graph_of graph.now) b).exit ≡ Choice e places)
        × ((n place : ℕ) → slice_get places n ≡ Some place
        → Leads (graph_of graph.now) (is_begun_in labels.now.begun.items) (Begin place)
        (entry (graph_of graph.now) (arm_with n (arms_of arms.now)) (context_of a)))) }
{
    match graph.blocks.get(b as usize) {
        Some(block) => match &block.end {
            End::Switch { blocks, .. } => leads_to_arms(graph, labels, blocks, arms, a),
            _ => false,
        },
        None => false,
    }
}

// What stands around the sides of a test.
fn in_sides(a: Around) -> Around
    ensures { result ≡ in_sides a }
{
    Around {
        room: a.room.saturating_sub(1),
        ..a
    }
}

// What stands around the arms of a choice.
fn in_arms(a: Around) -> Around
    ensures { result ≡ in_arms a }
{
    Around {
        at_break: a.next,
        room: a.room.saturating_sub(1),
        ..a
    }
}

// What stands around the body of the loop that a block begins.
fn in_loop(b: u32, a: Around) -> Around
    ensures { result ≡ in_loop b a }
{
    Around {
        next: Point::Begin(b),
        at_break: a.next,
        at_continue: Point::Begin(b),
        room: a.room.saturating_sub(1),
    }
}

// The block ends in a test that fits where its sides do.
fn is_test(graph: &Graph, labels: &Labels, b: u32, one: &[Item], other: &[Item], a: Around) -> bool
    ensures { result ≡ true
        → Fits (graph_of graph.now) labels.now (plan_of one.now) (in_sides a)
        → Fits (graph_of graph.now) labels.now (plan_of other.now) (in_sides a)
        → FitsItem (graph_of graph.now) labels.now (TestItem b (plan_of one.now) (plan_of other.now)) a }
{
    let Some(to) = sides(graph, b) else {
        return false;
    };
    let begun = &labels.begun;
    let first = leads(graph, begun, Point::Begin(to.0), entry(graph, one, a));
    let second = leads(graph, begun, Point::Begin(to.1), entry(graph, other, a));
    first && second && 0 < a.room
}

// The block ends in a choice that fits where its arms do.
fn is_switch(graph: &Graph, labels: &Labels, b: u32, arms: &[Arm], a: Around) -> bool
    ensures { result ≡ true → FitArms (graph_of graph.now) labels.now (arms_of arms.now) (in_arms a)
        → FitsItem (graph_of graph.now) labels.now (ChoiceItem b (arms_of arms.now)) a }
{
    is_choice(graph, labels, b, arms, in_arms(a)) && 0 < a.room
}

// The loop that the block begins fits where its body does.
fn is_loop(graph: &Graph, labels: &Labels, b: u32, body: &[Item], a: Around) -> bool
    ensures { result ≡ true → Fits (graph_of graph.now) labels.now (plan_of body.now) (in_loop b a)
        → FitsItem (graph_of graph.now) labels.now (LoopItem b (plan_of body.now)) a }
{
    let start = entry(graph, body, in_loop(b, a));
    leads(graph, &labels.begun, Point::Before(b, 0), start) && is_block(graph, b) && 0 < a.room
}

// The item fits what stands around it, and has no others inside.
fn is_valid_alone(graph: &Graph, labels: &Labels, item: &Item, a: Around) -> bool
    ensures { result ≡ true → FitsItem (graph_of graph.now) labels.now (item_of item.now) a }
{
    let begun = &labels.begun;
    match item {
        Item::Do(b, m) => {
            is_stmt(graph, *b, *m)
                && leads(graph, begun, Point::Before(*b, *m as usize + 1), a.next)
        }
        Item::Mark(b) => is_block(graph, *b) && leads(graph, begun, Point::Before(*b, 0), a.next),
        Item::Jump(b) => is_block(graph, *b) && is_marked(labels, *b),
        Item::Return(b) => is_return(graph, *b),
        Item::Break | Item::Continue => true,
        _ => false,
    }
}

// The item fits what stands around it; loops that test are told of plans that were tested before.
#[cycle(valid)]
fn is_valid_item(graph: &Graph, labels: &Labels, item: &Item, a: Around) -> bool
    ensures { result ≡ true → FitsItem (graph_of graph.now) labels.now (item_of item.now) a }
{
    match item {
        Item::If(b, one, other) => {
            is_test(graph, labels, *b, one, other, a)
                && is_valid(graph, labels, one, in_sides(a))
                && is_valid(graph, labels, other, in_sides(a))
        }
        Item::Switch(b, arms) => {
            is_switch(graph, labels, *b, arms, a) && are_valid(graph, labels, arms, in_arms(a))
        }
        Item::For(b, body) => {
            is_loop(graph, labels, *b, body, a) && is_valid(graph, labels, body, in_loop(*b, a))
        }
        other => is_valid_alone(graph, labels, other, a),
    }
}

// Each arm fits what stands around it.
#[cycle(valid)]
fn are_valid(graph: &Graph, labels: &Labels, arms: &[Arm], a: Around) -> bool
    ensures { result ≡ true → FitArms (graph_of graph.now) labels.now (arms_of arms.now) a }
{
    let mut left = arms.len();
    while 0 < left {
        left -= 1;
        let arm = &arms[left];
        if !is_valid(graph, labels, &arm.body, a) {
            return false;
        }
    }
    true
}

// The plan fits what stands around it.
#[cycle(valid)]
fn is_valid(graph: &Graph, labels: &Labels, items: &[Item], a: Around) -> bool
    ensures { result ≡ true → Fits (graph_of graph.now) labels.now (plan_of items.now) a }
{
    let mut next = a.next;
    let mut left = items.len();
    while 0 < left {
        left -= 1;
        let item = &items[left];
        if !is_valid_item(graph, labels, item, Around { next, ..a }) {
            return false;
        }
        next = item_entry(graph, item, Around { next, ..a });
    }
    true
}

/// The plan is one of the graph, and nests no deeper than a text may.
pub fn is_structured(alloc: Global, graph: &Graph, items: &[Item]) -> Result<bool, AllocError>
    ensures { IfOk result (λ yes. yes ≡ true → IsStructured (graph_of graph.now) (plan_of items.now)) }
{
    let Some(labels) = labels_of(alloc, graph.blocks.len(), items)? else {
        return Ok(false);
    };
    let outside = Around {
        next: Point::Nowhere,
        at_break: Point::Nowhere,
        at_continue: Point::Nowhere,
        room: MOST_NESTED,
    };
    if starts_empty(items) {
        return Ok(false);
    }
    let start = entry(graph, items, outside);
    if !leads(graph, &labels.begun, Point::Begin(0), start) {
        return Ok(false);
    }
    Ok(is_valid(graph, &labels, items, outside))
}
