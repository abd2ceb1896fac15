//! Loops told by their tests: one whose first item is a test that may leave it tests first, and one whose last item is
//! such a test tests last.

ghost use Rattle.std.specs.Prelude.{◌≡◌, true, Some, IfOk, is_some, option_map, if◌then◌else◌};
ghost use Rattle.dcc_control.specs.Plan as plan;
ghost use Rattle.dcc_control.specs.Told as spec;
ghost use Rattle.dcc_control.specs.Views.{item_of, plan_of, arms_of, leaving_in};

use crate::item::{Arm, Item};
use std::alloc::{AllocError, Global};

// A test that leaves the loop around it for one truth value.
#[derive(Clone, Copy)]
struct Leaving<'a> {
    // The truth value for which it goes on.
    on: bool,
    // The block that it ends.
    block: u32,
    // What stands where it goes on.
    goes_on: &'a [Item],
}

// Whether the items are `break` alone.
fn only_breaks(items: &[Item]) -> bool
    ensures { result ≡ spec.only_breaks (plan_of items.now) }
{
    matches!(items, [Item::Break])
}

// The item as a test that leaves the loop around it.
fn as_leaving(item: &Item) -> Option<Leaving<'_>>
    ensures { option_map leaving_in result ≡ spec.leaving_of (item_of item.now) }
{
    let Item::If(block, one, other) = item else {
        return None;
    };
    if only_breaks(other) {
        Some(Leaving {
            on: true,
            block: *block,
            goes_on: one,
        })
    } else if only_breaks(one) {
        Some(Leaving {
            on: false,
            block: *block,
            goes_on: other,
        })
    } else {
        None
    }
}

// Whether the item is a statement, a test or a choice of the block.
fn is_of(block: u32, item: &Item) -> bool
    ensures { result ≡ plan.is_of block (item_of item.now) }
{
    match item {
        Item::Do(b, _) | Item::If(b, _, _) | Item::Switch(b, _) => *b == block,
        _ => false,
    }
}

// One of two lists of items.
fn one_of(first: bool, one: Vec<Item>, other: Vec<Item>) -> Vec<Item>
    ensures { result.items ≡ (if first then one.items else other.items) }
{
    if first { one } else { other }
}

// Whether the item, as the first of a loop of the block, is a test that leaves it.
fn tests_first(b: u32, item: &Item) -> bool
    ensures { (rest : plan.Plan) → result ≡ is_some (spec.tests_first b (item_of item.now) rest) }
{
    match as_leaving(item) {
        Some(test) => test.block == b,
        None => false,
    }
}

// The loop of a block with these items, of which the first is a test that leaves it, as one that tests first.
fn testing_first(alloc: Global, b: u32, body: Vec<Item>) -> Result<Item, AllocError>
    ensures { (i : plan.Item) (rest : plan.Plan) → plan_of body.items ≡ plan.item i rest
        → is_some (spec.tests_first b i rest) ≡ true
        → IfOk result (λ loop. spec.tests_first b i rest ≡ Some (item_of loop)) }
{
    let mut rest = body.into_iter();
    let Some(Item::If(_, one, other)) = rest.next() else {
        return Ok(Item::While(true, b, Vec::new(alloc)));
    };
    let on = only_breaks(&other);
    let mut items = one_of(on, one, other);
    for item in rest {
        items.push(item)?;
    }
    Ok(Item::While(on, b, items))
}

// The loop of a block with these items, as one that tests last where its last item is a test that leaves it. Whether a
// `continue` of the loop stands among the items is known.
fn testing_last(b: u32, body: Vec<Item>, continues: bool) -> Item
    ensures { (i : plan.Item) (rest : plan.Plan) → plan_of body.items ≡ plan.item i rest
        → continues ≡ spec.continues (plan.item i rest)
        → item_of result ≡ spec.told_last b i rest }
{
    let Some((last, _)) = body.split_last() else {
        return Item::For(b, body);
    };
    let Some(test) = as_leaving(last) else {
        return Item::For(b, body);
    };
    if continues {
        return Item::For(b, body);
    }
    if !test.goes_on.is_empty() {
        return Item::For(b, body);
    }
    let (on, block) = (test.on, test.block);
    let mut body = body;
    body.pop();
    Item::DoWhile(on, block, b, body)
}

// The loop of a block with these items, told by its test. Whether a `continue` of the loop stands among the items is
// known.
fn told_loop(alloc: Global, b: u32, body: Vec<Item>, continues: bool) -> Result<Item, AllocError>
    ensures { continues ≡ spec.continues (plan_of body.items)
        → IfOk result (λ loop. item_of loop ≡ spec.told_loop b (plan_of body.items)) }
{
    let Some(first) = body.first() else {
        return Ok(Item::For(b, body));
    };
    if tests_first(b, first) {
        testing_first(alloc, b, body)
    } else if is_of(b, first) {
        Ok(testing_last(b, body, continues))
    } else {
        Ok(Item::For(b, body))
    }
}

// The item with the loops in it told by their tests, and whether it holds a `continue` of the loop around it.
#[cycle(told)]
fn told_item(alloc: Global, item: Item) -> Result<(Item, bool), AllocError>
    ensures told { IfOk result (λ r. item_of r.0 ≡ spec.told_item (item_of item)) }
    ensures continues { IfOk result (λ r. r.1 ≡ spec.item_continues (item_of r.0)) }
{
    match item {
        Item::If(b, one, other) => {
            let (one, found) = told_plan(alloc, one)?;
            let (other, also) = told_plan(alloc, other)?;
            Ok((Item::If(b, one, other), found | also))
        }
        Item::Switch(b, arms) => {
            let (arms, found) = told_arms(alloc, arms)?;
            Ok((Item::Switch(b, arms), found))
        }
        Item::For(b, body) => {
            let (body, continues) = told_plan(alloc, body)?;
            Ok((told_loop(alloc, b, body, continues)?, false))
        }
        Item::While(on, b, body) => {
            let (body, _) = told_plan(alloc, body)?;
            Ok((Item::While(on, b, body), false))
        }
        Item::DoWhile(on, b, head, body) => {
            let (body, _) = told_plan(alloc, body)?;
            Ok((Item::DoWhile(on, b, head, body), false))
        }
        Item::Continue => Ok((Item::Continue, true)),
        Item::Do(..)
        | Item::Mark(_)
        | Item::Jump(_)
        | Item::Return(_)
        | Item::Break
        | Item::Empty => Ok((item, false)),
    }
}

// The arms of a choice with the loops in them told by their tests, and whether they hold a `continue` of the loop
// around the choice.
#[cycle(told)]
fn told_arms(alloc: Global, arms: Vec<Arm>) -> Result<(Vec<Arm>, bool), AllocError>
    ensures told { IfOk result (λ r. arms_of r.0.items ≡ spec.told_arms (arms_of arms.items)) }
    ensures continues { IfOk result (λ r. r.1 ≡ spec.arms_continue (arms_of r.0.items)) }
{
    let mut told = Vec::with_capacity(alloc, arms.len())?;
    let mut continues = false;
    for arm in arms {
        let Arm { cases, body } = arm;
        let (body, found) = told_plan(alloc, body)?;
        told.push(Arm { cases, body })?;
        continues |= found;
    }
    Ok((told, continues))
}

// The items with their loops told by their tests, and whether a `continue` of the loop around them stands among them.
#[cycle(told)]
fn told_plan(alloc: Global, items: Vec<Item>) -> Result<(Vec<Item>, bool), AllocError>
    ensures told { IfOk result (λ r. plan_of r.0.items ≡ spec.told_loops (plan_of items.items)) }
    ensures continues { IfOk result (λ r. r.1 ≡ spec.continues (plan_of r.0.items)) }
{
    let mut told = Vec::with_capacity(alloc, items.len())?;
    let mut continues = false;
    for item in items {
        let (item, found) = told_item(alloc, item)?;
        told.push(item)?;
        continues |= found;
    }
    Ok((told, continues))
}

/// The plan with each of its loops told by its test, those inside others first. Each item is moved a few times and no
/// more, however the loops nest. Want of memory is the only error.
pub fn told_loops(alloc: Global, items: Vec<Item>) -> Result<Vec<Item>, AllocError>
    ensures { IfOk result (λ r. plan_of r.items ≡ spec.told_loops (plan_of items.items)) }
{
    let (told, _) = told_plan(alloc, items)?;
    Ok(told)
}
