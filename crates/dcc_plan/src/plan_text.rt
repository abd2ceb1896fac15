//! The text of a plan, its lines not numbered yet.

ghost use Rattle.std.specs.Prelude.{◌≡◌, IfOk, if◌then◌else◌, map, string_bytes};
ghost use Rattle.dcc_ir.specs.Live.{block_in};
ghost use Rattle.std.specs.Prelude.{option_map};
ghost use Rattle.dcc_ir.specs.Views.{block_of, exit_of, expr_of as inner_of, graph_of};
ghost use Rattle.dcc_c.specs.Tree.{If};
ghost use Rattle.dcc_c.specs.Views.{expr_of, stmt_of, lines_of, arms_of as c_arms_of};
ghost use Rattle.dcc_variables.specs.Functions.{ret_value};
ghost use Rattle.dcc_plan.specs.Labels as labels;
ghost use Rattle.dcc_plan.specs.PlanText as spec;
ghost use Rattle.dcc_control.specs.Views.{item_of, plan_of, arms_of};

use dcc_c::{Arm as CArm, Base, CExpr, CStmt, CUn, Line};
use dcc_control::{Arm, Item};
use dcc_ir::{Block, End, Expr, Graph};
use dcc_text::expression::expr_text;
use dcc_text::hex::name_at;
use dcc_text::operator::turned;
use dcc_text::statement::stmt_text;
use dcc_text::{Spells, Way};
use std::alloc::{AllocError, Global};

// The depth of calls, in bytes, that is in force where no pragma stands.
const DEPTH: u32 = 2;

// The label of the block at a place in the graph.
fn label_at(alloc: Global, blocks: &[Block], place: u32) -> Result<String, AllocError>
    ensures { IfOk result (λ name. string_bytes name ≡ labels.label_at (map block_of blocks.now) place) }
{
    match blocks.get(place as usize) {
        Some(block) => name_at(alloc, "L_", block.at),
        None => String::from_str(alloc, "L"),
    }
}

// The statement of a block at a place.
fn stmt_at<S: Spells>(
    alloc: Global,
    s: &S,
    graph: &Graph,
    b: u32,
    m: u32,
) -> Result<CStmt, AllocError>
    ensures { IfOk result (λ r. stmt_of r ≡ spec.text_of_stmt (S.spelling s.now) (graph_of graph.now) b m) }
{
    let Some(block) = graph.blocks.get(b as usize) else {
        return Ok(CStmt::Empty);
    };
    match block.stmts.get(m as usize) {
        Some(stmt) => stmt_text(alloc, s, DEPTH, stmt),
        None => Ok(CStmt::Empty),
    }
}

// The test of a block's end.
fn test_of<S: Spells>(alloc: Global, s: &S, end: &End) -> Result<CExpr, AllocError>
    ensures { IfOk result (λ r. expr_of r ≡ spec.text_of_test (S.spelling s.now) (exit_of end.now)) }
{
    match end {
        End::If { test, .. } => expr_text(alloc, s, Way::Exact, false, test),
        _ => Ok(CExpr::Num(0, Base::Int)),
    }
}

// The value that a block's end chooses by.
fn choice_of<S: Spells>(alloc: Global, s: &S, end: &End) -> Result<CExpr, AllocError>
    ensures { IfOk result (λ r. expr_of r ≡ spec.text_of_choice (S.spelling s.now) (exit_of end.now)) }
{
    match end {
        End::Switch { value, .. } => expr_text(alloc, s, Way::Low, false, value),
        _ => Ok(CExpr::Num(0, Base::Int)),
    }
}

// The test at the end of the block at a place in the graph.
fn test_at<S: Spells>(alloc: Global, s: &S, graph: &Graph, b: u32) -> Result<CExpr, AllocError>
    ensures { IfOk result (λ r. expr_of r
        ≡ spec.text_of_test (S.spelling s.now) (block_in (graph_of graph.now) b).exit) }
{
    match graph.blocks.get(b as usize) {
        Some(block) => test_of(alloc, s, &block.end),
        None => Ok(CExpr::Num(0, Base::Int)),
    }
}

// The test at the end of the block at a place in the graph, or its opposite, true where the test comes to this truth.
fn way_at<S: Spells>(
    alloc: Global,
    s: &S,
    graph: &Graph,
    on: bool,
    b: u32,
) -> Result<CExpr, AllocError>
    ensures { IfOk result (λ r. expr_of r
        ≡ spec.text_of_way (S.spelling s.now) on (block_in (graph_of graph.now) b).exit) }
{
    let test = test_at(alloc, s, graph, b)?;
    if on {
        return Ok(test);
    }
    match turned(test) {
        Ok(opposite) => Ok(opposite),
        Err(test) => Ok(CExpr::Un(CUn::Not, Box::new(alloc, test)?)),
    }
}

// The value that the block at a place in the graph chooses by at its end.
fn choice_at<S: Spells>(alloc: Global, s: &S, graph: &Graph, b: u32) -> Result<CExpr, AllocError>
    ensures { IfOk result (λ r. expr_of r
        ≡ spec.text_of_choice (S.spelling s.now) (block_in (graph_of graph.now) b).exit) }
{
    match graph.blocks.get(b as usize) {
        Some(block) => choice_of(alloc, s, &block.end),
        None => Ok(CExpr::Num(0, Base::Int)),
    }
}

// What a return gives back, where it gives a value.
fn given<S: Spells>(alloc: Global, s: &S, values: &[Expr]) -> Result<Option<CExpr>, AllocError>
    ensures { IfOk result (λ r. option_map expr_of r ≡ ret_value (S.spelling s.now) (map inner_of values.now)) }
{
    match values.first() {
        Some(e) => Ok(Some(expr_text(alloc, s, Way::Low, false, e)?)),
        None => Ok(None),
    }
}

// The return at a block's end.
fn return_of<S: Spells>(alloc: Global, s: &S, end: &End) -> Result<CStmt, AllocError>
    ensures { IfOk result (λ r. stmt_of r ≡ spec.text_of_return (S.spelling s.now) (exit_of end.now)) }
{
    match end {
        End::Ret(values) => Ok(CStmt::Return(given(alloc, s, values)?)),
        _ => Ok(CStmt::Empty),
    }
}

// The return at the end of the block at a place in the graph.
fn return_at<S: Spells>(alloc: Global, s: &S, graph: &Graph, b: u32) -> Result<CStmt, AllocError>
    ensures { IfOk result (λ r. stmt_of r
        ≡ spec.text_of_return (S.spelling s.now) (block_in (graph_of graph.now) b).exit) }
{
    match graph.blocks.get(b as usize) {
        Some(block) => return_of(alloc, s, &block.end),
        None => Ok(CStmt::Empty),
    }
}

// The block at which an item begins, where it begins at one.
fn first_block(item: &Item) -> Option<u32>
    ensures { result ≡ spec.first_block (item_of item.now) }
{
    match item {
        Item::Do(b, _)
        | Item::Mark(b)
        | Item::If(b, _, _)
        | Item::Switch(b, _)
        | Item::Return(b)
        | Item::For(b, _)
        | Item::While(_, b, _)
        | Item::DoWhile(_, _, b, _) => Some(*b),
        Item::Jump(_) | Item::Break | Item::Continue | Item::Empty => None,
    }
}

// The address of the block at a place in the graph.
fn address_at(graph: &Graph, b: u32) -> u16
    ensures { result ≡ (block_in (graph_of graph.now) b).at }
{
    match graph.blocks.get(b as usize) {
        Some(block) => block.at,
        None => 0,
    }
}

// The address of the block at which a plan begins, where it begins at one.
fn begins_at(graph: &Graph, items: &[Item]) -> Option<u16>
    ensures { result ≡ spec.begins_at (graph_of graph.now) (plan_of items.now) }
{
    let b = first_block(items.first()?)?;
    Some(address_at(graph, b))
}

// Whether the side of true may stand first: not where that of false alone has items.
fn may_be_first(one: &[Item], other: &[Item]) -> bool
    ensures { result ≡ spec.may_be_first (plan_of one.now) (plan_of other.now) }
{
    !one.is_empty() || other.is_empty()
}

// Whether what begins at the first address stands before what begins at the second; where one has none, as told.
fn in_order(first: Option<u16>, second: Option<u16>, told: bool) -> bool
    ensures { result ≡ spec.in_order first second told }
{
    match (first, second) {
        (Some(first), Some(second)) => first <= second,
        _ => told,
    }
}

// Whether the text of a test has the side of true first.
fn is_true_first(graph: &Graph, one: &[Item], other: &[Item]) -> bool
    ensures { result ≡ spec.is_true_first (graph_of graph.now) (plan_of one.now) (plan_of other.now) }
{
    let first = begins_at(graph, one);
    let second = begins_at(graph, other);
    in_order(first, second, may_be_first(one, other))
}

// The statement of a test that is for this truth, with the lines for true and the lines for false.
fn if_stmt(truth: bool, test: CExpr, body: Vec<Line>, otherwise: Vec<Line>) -> CStmt
    ensures { stmt_of result ≡ If (expr_of test)
        (if truth then lines_of body.items else lines_of otherwise.items)
        (if truth then lines_of otherwise.items else lines_of body.items) }
{
    if truth {
        CStmt::If(test, body, otherwise)
    } else {
        CStmt::If(test, otherwise, body)
    }
}

// The text of an item.
#[cycle(text)]
fn item_text<S: Spells>(
    alloc: Global,
    s: &S,
    graph: &Graph,
    item: &Item,
) -> Result<CStmt, AllocError>
    ensures { IfOk result (λ r. stmt_of r
        ≡ spec.item_text (S.spelling s.now) (graph_of graph.now) (item_of item.now)) }
{
    match item {
        Item::Do(b, m) => stmt_at(alloc, s, graph, *b, *m),
        Item::Mark(b) => Ok(CStmt::Label(label_at(alloc, &graph.blocks, *b)?)),
        Item::Jump(b) => Ok(CStmt::Goto(label_at(alloc, &graph.blocks, *b)?)),
        Item::If(b, one, other) => {
            let body = plan_text(alloc, s, graph, one)?;
            let otherwise = plan_text(alloc, s, graph, other)?;
            let on = is_true_first(graph, one, other);
            let test = way_at(alloc, s, graph, on, *b)?;
            Ok(if_stmt(on, test, body, otherwise))
        }
        Item::Switch(b, arms) => {
            let value = choice_at(alloc, s, graph, *b)?;
            let bodies = arms_text(alloc, s, graph, arms)?;
            Ok(CStmt::Switch(value, bodies, None))
        }
        Item::Return(b) => return_at(alloc, s, graph, *b),
        Item::For(_, inner) => {
            let body = plan_text(alloc, s, graph, inner)?;
            Ok(CStmt::Forever(body))
        }
        Item::While(on, b, inner) => {
            let body = plan_text(alloc, s, graph, inner)?;
            let test = way_at(alloc, s, graph, *on, *b)?;
            Ok(CStmt::While(test, body))
        }
        Item::DoWhile(on, b, _, inner) => {
            let body = plan_text(alloc, s, graph, inner)?;
            let test = way_at(alloc, s, graph, *on, *b)?;
            Ok(CStmt::DoWhile(body, test))
        }
        Item::Break => Ok(CStmt::Break),
        Item::Continue => Ok(CStmt::Continue),
        Item::Empty => Ok(CStmt::Empty),
    }
}

// The text of the arms of a choice.
#[cycle(text)]
fn arms_text<S: Spells>(
    alloc: Global,
    s: &S,
    graph: &Graph,
    arms: &[Arm],
) -> Result<Vec<CArm>, AllocError>
    ensures { IfOk result (λ r. c_arms_of r.items
        ≡ spec.arms_text (S.spelling s.now) (graph_of graph.now) (arms_of arms.now)) }
{
    let mut bodies = Vec::with_capacity(alloc, arms.len())?;
    for arm in arms {
        let cases = arm.cases.as_slice().to_vec(alloc)?;
        let body = plan_text(alloc, s, graph, &arm.body)?;
        bodies.push(CArm { cases, body })?;
    }
    Ok(bodies)
}

/// The text of a plan of a graph: its statements, each in a line that is not numbered yet. Want of memory is the only
/// error, and an expression with more bits than 32 bits can number is told as such.
#[cycle(text)]
pub fn plan_text<S: Spells>(
    alloc: Global,
    s: &S,
    graph: &Graph,
    items: &[Item],
) -> Result<Vec<Line>, AllocError>
    ensures { IfOk result (λ r. lines_of r.items
        ≡ spec.plan_text (S.spelling s.now) (graph_of graph.now) (plan_of items.now)) }
{
    let mut lines = Vec::with_capacity(alloc, items.len())?;
    for item in items {
        let stmt = item_text(alloc, s, graph, item)?;
        lines.push(Line { stmt, line: 0 })?;
    }
    Ok(lines)
}
