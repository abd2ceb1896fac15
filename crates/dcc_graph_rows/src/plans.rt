//! Plans of a small graph with a loop: whether the test of plans takes them, and what its loops are told as.

use crate::graphs::bare_graph;
use dcc_control::Item;
use dcc_control::told::told_loops;
use dcc_plan_check::is_structured;
use std::alloc::{AllocError, Global};
use std::test::Fail;

// Block 0 goes to 1, whose test goes to 2 or 3; 2 goes back to 1, and no run comes past 3.
const NEXT: [&[u32]; 4] = [&[1], &[2, 3], &[1], &[]];

fn nothing(alloc: Global) -> Vec<Item> {
    Vec::new(alloc)
}

fn one(alloc: Global, item: Item) -> Result<Vec<Item>, AllocError> {
    let mut plan = nothing(alloc);
    plan.push(item)?;
    Ok(plan)
}

fn two(alloc: Global, first: Item, second: Item) -> Result<Vec<Item>, AllocError> {
    let mut plan = one(alloc, first)?;
    plan.push(second)?;
    Ok(plan)
}

// A loop whose turns begin the block, and which a test at the end of block 1 leaves.
fn left_by_a_test(alloc: Global, block: u32) -> Result<Item, AllocError> {
    let test = Item::If(1, nothing(alloc), one(alloc, Item::Break)?);
    Ok(Item::For(block, one(alloc, test)?))
}

fn plan(alloc: Global, number: usize) -> Result<Vec<Item>, AllocError> {
    match number {
        0 => one(alloc, left_by_a_test(alloc, 1)?),
        1 => two(alloc, Item::Mark(1), left_by_a_test(alloc, 1)?),
        2 => two(
            alloc,
            Item::Mark(1),
            Item::If(1, one(alloc, Item::Jump(1))?, nothing(alloc)),
        ),
        // The loop begins another block.
        3 => one(alloc, left_by_a_test(alloc, 2)?),
        // A label stands twice.
        4 => two(alloc, Item::Mark(1), Item::Mark(1)),
        // The jump stands on the other side of the test.
        5 => two(
            alloc,
            Item::Mark(1),
            Item::If(1, nothing(alloc), one(alloc, Item::Jump(1))?),
        ),
        // The jump has no label.
        6 => one(alloc, Item::Jump(1)),
        // The text ends where the graph goes on.
        _ => Ok(nothing(alloc)),
    }
}

#[test]
fn just_plans_of_the_graph_are_taken(rt: HostRuntime) -> Result<(), Fail> {
    let alloc = rt.alloc();
    let graph = bare_graph(&rt, alloc, &NEXT)?;
    for number in 0..8 {
        let items = plan(alloc, number)?;
        let is_plan = is_structured(alloc, &graph, items.as_slice())?;
        assert_eq!(rt; is_plan, number < 3, "plan {number}");
    }
    Ok(())
}

// A loop of block 1 in whose first or last item the test may leave it.
fn untold(alloc: Global, number: usize) -> Result<Vec<Item>, AllocError> {
    let leave = one(alloc, Item::Break)?;
    match number {
        0 => {
            let test = Item::If(1, one(alloc, Item::Do(2, 0))?, leave);
            two(alloc, test, Item::Do(2, 1))
        }
        1 => {
            let test = Item::If(1, leave, one(alloc, Item::Do(2, 0))?);
            two(alloc, test, Item::Do(2, 1))
        }
        2 => two(alloc, Item::Do(1, 0), Item::If(1, nothing(alloc), leave)),
        // The test goes on with an item.
        _ => two(
            alloc,
            Item::Do(1, 0),
            Item::If(1, one(alloc, Item::Continue)?, leave),
        ),
    }
}

// The items are both statements of block 2.
fn are_both(items: &[Item]) -> bool {
    matches!(items, [Item::Do(2, 0), Item::Do(2, 1)])
}

// The item is the loop of that number as it is to be told.
fn is_told(item: &Item, number: usize) -> bool {
    match (number, item) {
        (0, Item::While(true, 1, body)) => are_both(body),
        (1, Item::While(false, 1, body)) => are_both(body),
        (2, Item::DoWhile(true, 1, 1, body)) => matches!(body.as_slice(), [Item::Do(1, 0)]),
        (3, Item::For(1, body)) => match body.as_slice() {
            [Item::Do(1, 0), Item::If(1, one, other)] => {
                matches!(one.as_slice(), [Item::Continue])
                    && matches!(other.as_slice(), [Item::Break])
            }
            _ => false,
        },
        _ => false,
    }
}

#[test]
fn loops_are_told_by_their_tests(rt: HostRuntime) -> Result<(), Fail> {
    let alloc = rt.alloc();
    for number in 0..4 {
        let inside = one(alloc, Item::For(1, untold(alloc, number)?))?;
        let plan = two(
            alloc,
            Item::For(1, untold(alloc, number)?),
            Item::If(3, inside, nothing(alloc)),
        )?;
        let told = told_loops(alloc, plan)?;
        let [first, Item::If(3, one, other)] = told.as_slice() else {
            assert!(rt; false, "plan {number}");
            return Ok(());
        };
        let [inner] = one.as_slice() else {
            assert!(rt; false, "plan {number}");
            return Ok(());
        };
        assert!(rt;
            is_told(first, number) && is_told(inner, number) && other.is_empty(),
            "plan {number}"
        );
    }
    Ok(())
}
