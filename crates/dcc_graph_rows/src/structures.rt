//! The structured plans of small graphs.

ghost use Rattle.dcc_ir.specs.Views.{graph_of};
ghost use Rattle.dcc_ir.specs.WellFormed.{IsGraph};

use crate::graphs::{Exit, Line, Op, bare_graph, graph};
use dcc_control::Item;
use dcc_flow::successors;
use dcc_interval::reduced;
use dcc_ir::Graph;
use dcc_num::{FlagName, Reg};
use dcc_struct::structured;
use std::alloc::{AllocError, Global};
use std::process::Abort;
use std::test::Fail;

// Block 0 goes to 1, whose test goes to 2 or 3; 2 goes back to 1, and no run comes past 3.
const LOOP: [&[u32]; 4] = [&[1], &[2, 3], &[1], &[]];

// The test of block 0 goes to 1 or 2, and both go to 3, which returns.
const DIAMOND: [Line; 4] = [
    Line(&[], Exit::If(FlagName::Cf, 1, 2)),
    Line(&[Op::Copy(Reg::Ax, Reg::Bx)], Exit::Goto(3)),
    Line(
        &[Op::Copy(Reg::Ax, Reg::Cx), Op::Copy(Reg::Bx, Reg::Cx)],
        Exit::Goto(3),
    ),
    Line(&[], Exit::Ret(Reg::Ax)),
];

// The test of block 0 goes to 1 or 2, each of which goes to the other; 2 may go to 3, past which no run comes.
const ENTERED_TWICE: [&[u32]; 4] = [&[1, 2], &[2], &[1, 3], &[]];

// The test of block 0 goes to 1 or 2, that of 1 to 3 or 4; 2 goes to 3, which goes to 4, past which no run comes.
const PASSED: [&[u32]; 5] = [&[1, 2], &[3, 4], &[3], &[4], &[]];

// Block 1 begins a loop, which its test may leave. Each of the tests of 2, 3, 4 and 5 goes to the next turn or on.
const TURNS: [&[u32]; 8] = [&[1], &[2, 7], &[1, 3], &[1, 4], &[1, 5], &[1, 6], &[1], &[]];

// Block 2 begins a loop in that of block 1. Its test may go to 5, which returns, and that of 3 to 4, which goes to 1.
const LEFT_TWICE: [Line; 6] = [
    Line(&[], Exit::Goto(1)),
    Line(&[], Exit::Goto(2)),
    Line(&[], Exit::If(FlagName::Cf, 5, 3)),
    Line(&[], Exit::If(FlagName::Cf, 4, 2)),
    Line(&[Op::Copy(Reg::Ax, Reg::Bx)], Exit::Goto(1)),
    Line(&[], Exit::Ret(Reg::Ax)),
];

// The choice of block 0 goes to 1 or 2, which go to 3, or to 3 itself, which returns.
const CHOICE: [Line; 4] = [
    Line(&[], Exit::Switch(Reg::Ax, &[1, 3, 2, 3])),
    Line(&[Op::Copy(Reg::Ax, Reg::Bx)], Exit::Goto(3)),
    Line(&[Op::Copy(Reg::Ax, Reg::Cx)], Exit::Goto(3)),
    Line(&[], Exit::Ret(Reg::Ax)),
];

// The structured plan of a graph.
fn plan(rt: &impl Abort, alloc: Global, graph: &Graph) -> Result<Vec<Item>, AllocError>
    requires { IsGraph (graph_of graph.now) }
{
    let next = successors(alloc, graph)?;
    assert!(rt; 0 < next.len());
    let reduction = reduced(alloc, &next, 0)?;
    structured(alloc, graph, &reduction)
}

#[test]
fn a_loop_is_left_by_the_test_at_its_head(rt: HostRuntime) -> Result<(), Fail> {
    let alloc = rt.alloc();
    let graph = bare_graph(&rt, alloc, &LOOP)?;
    let items = plan(&rt, alloc, &graph)?;
    let [Item::Mark(1), Item::For(1, body)] = items.as_slice() else {
        assert!(rt; false);
        return Ok(());
    };
    let [Item::If(1, one, other)] = body.as_slice() else {
        assert!(rt; false);
        return Ok(());
    };
    assert!(rt; one.is_empty() && matches!(other.as_slice(), [Item::Break]));
    Ok(())
}

#[test]
fn both_sides_of_a_test_come_to_one_block(rt: HostRuntime) -> Result<(), Fail> {
    let alloc = rt.alloc();
    let graph = graph(&rt, alloc, &DIAMOND)?;
    let items = plan(&rt, alloc, &graph)?;
    let [Item::If(0, one, other), Item::Return(3)] = items.as_slice() else {
        assert!(rt; false);
        return Ok(());
    };
    assert!(rt; matches!(one.as_slice(), [Item::Do(1, 0)]));
    assert!(rt; matches!(other.as_slice(), [Item::Do(2, 0), Item::Do(2, 1)]));
    Ok(())
}

#[test]
fn a_loop_with_two_entries_is_one_of_jumps(rt: HostRuntime) -> Result<(), Fail> {
    let alloc = rt.alloc();
    let graph = bare_graph(&rt, alloc, &ENTERED_TWICE)?;
    let items = plan(&rt, alloc, &graph)?;
    let [Item::If(0, enter, past), Item::If(2, back, on)] = items.as_slice() else {
        assert!(rt; false);
        return Ok(());
    };
    assert!(rt; matches!(enter.as_slice(), [Item::Mark(1)]) && past.is_empty());
    assert!(rt; matches!(back.as_slice(), [Item::Jump(1)]) && on.is_empty());
    Ok(())
}

#[test]
fn a_test_before_much_else_of_a_turn_is_a_guard(rt: HostRuntime) -> Result<(), Fail> {
    let alloc = rt.alloc();
    let graph = bare_graph(&rt, alloc, &TURNS)?;
    let items = plan(&rt, alloc, &graph)?;
    let [Item::Mark(1), Item::For(1, body)] = items.as_slice() else {
        assert!(rt; false);
        return Ok(());
    };
    let [
        Item::If(1, _, leaves),
        Item::If(2, turns, on),
        Item::If(3, past, inside),
    ] = body.as_slice()
    else {
        assert!(rt; false);
        return Ok(());
    };
    assert!(rt; matches!(leaves.as_slice(), [Item::Break]));
    assert!(rt; matches!(turns.as_slice(), [Item::Continue]) && on.is_empty());
    assert!(rt; past.is_empty() && matches!(inside.as_slice(), [Item::If(4, _, _)]));
    Ok(())
}

#[test]
fn behind_a_loop_comes_what_stays_in_the_one_around(rt: HostRuntime) -> Result<(), Fail> {
    let alloc = rt.alloc();
    let graph = graph(&rt, alloc, &LEFT_TWICE)?;
    let items = plan(&rt, alloc, &graph)?;
    let [Item::Mark(1), Item::For(1, outer)] = items.as_slice() else {
        assert!(rt; false);
        return Ok(());
    };
    let [Item::Mark(2), Item::For(2, inner), Item::Do(4, 0)] = outer.as_slice() else {
        assert!(rt; false);
        return Ok(());
    };
    let [Item::If(2, ends, _), Item::If(3, leaves, _)] = inner.as_slice() else {
        assert!(rt; false);
        return Ok(());
    };
    assert!(rt; matches!(ends.as_slice(), [Item::Return(5)]));
    assert!(rt; matches!(leaves.as_slice(), [Item::Break]));
    Ok(())
}

#[test]
fn a_choice_has_no_empty_arm(rt: HostRuntime) -> Result<(), Fail> {
    let alloc = rt.alloc();
    let graph = graph(&rt, alloc, &CHOICE)?;
    let items = plan(&rt, alloc, &graph)?;
    let [Item::Switch(0, arms), Item::Return(3)] = items.as_slice() else {
        assert!(rt; false);
        return Ok(());
    };
    let [first, second] = arms.as_slice() else {
        assert!(rt; false);
        return Ok(());
    };
    assert!(rt; matches!(first.cases.as_slice(), [0]));
    assert!(rt; matches!(first.body.as_slice(), [Item::Do(1, 0)]));
    assert!(rt; matches!(second.cases.as_slice(), [2]));
    assert!(rt; matches!(second.body.as_slice(), [Item::Do(2, 0)]));
    Ok(())
}

#[test]
fn blocks_that_only_go_to_others_are_passed(rt: HostRuntime) -> Result<(), Fail> {
    let alloc = rt.alloc();
    let graph = bare_graph(&rt, alloc, &PASSED)?;
    let items = plan(&rt, alloc, &graph)?;
    let [Item::If(0, one, other)] = items.as_slice() else {
        assert!(rt; false);
        return Ok(());
    };
    let [Item::If(1, on, past)] = one.as_slice() else {
        assert!(rt; false);
        return Ok(());
    };
    assert!(rt; other.is_empty() && on.is_empty() && past.is_empty());
    Ok(())
}
