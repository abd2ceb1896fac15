//! Points of a graph, and where its runs come from one without a step of the text.

ghost use Rattle.std.specs.Prelude.{◌≡◌, ℕ, Bool, true, length, IfSome};
ghost use Rattle.dcc_ir.specs.Live.{block_in};
ghost use Rattle.dcc_ir.specs.Tree.{Goto, Stop};
ghost use Rattle.dcc_ir.specs.Views.{block_of, graph_of};
ghost use Rattle.dcc_control.specs.Valid.{Point as ThePoint, Leads, only_goes, only_begins};
ghost use Rattle.dcc_plan_check.specs.Checked.{point_of, is_begun_in};

use dcc_ir::{Block, End, Graph};

/// A point of a graph.
#[derive(Clone, Copy, PartialEq, Eq, Debug)]
pub enum Point {
    /// Where a block begins.
    Begin(u32),
    /// Before the statement of a block at that place; after the last one stands its end.
    Before(u32, usize),
    /// Where no run comes.
    Nowhere,
}

// The block to which this one goes from before the statement at a place, where this is its end.
fn goes_to(block: &Block, place: usize) -> Option<u32>
    ensures { IfSome result (λ next. (place ≡ length (block_of block.now).stmts)
        × ((block_of block.now).exit ≡ Goto next)) }
{
    match &block.end {
        End::Goto(next) if place == block.stmts.len() => Some(*next),
        _ => None,
    }
}

// The place is the end of this block, and no run comes past it.
fn is_stop(block: &Block, place: usize) -> bool
    ensures { result ≡ true → (place ≡ length (block_of block.now).stmts) × ((block_of block.now).exit ≡ Stop) }
{
    match &block.end {
        End::Stop => place == block.stmts.len(),
        _ => false,
    }
}

// The place is the end of the block, and no run comes past it.
fn stops(graph: &Graph, b: u32, place: usize) -> bool
    ensures { result ≡ true → (place ≡ length (block_in (graph_of graph.now) b).stmts)
        × ((block_in (graph_of graph.now) b).exit ≡ Stop) }
{
    match graph.blocks.get(b as usize) {
        Some(block) => is_stop(block, place),
        None => false,
    }
}

/// The block whose begin a run comes to from before a statement of a block, without a step of the text, if it does.
pub(crate) fn goes_on(graph: &Graph, b: u32, place: usize) -> Option<u32>
    ensures { IfSome result (λ next. (place ≡ length (block_in (graph_of graph.now) b).stmts)
        × ((block_in (graph_of graph.now) b).exit ≡ Goto next)) }
{
    match graph.blocks.get(b as usize) {
        Some(block) => goes_to(block, place),
        None => None,
    }
}

// The text has a step where the block begins.
fn is_begun(begun: &Vec<bool>, b: u32) -> bool
    ensures { result ≡ is_begun_in begun.now.items b }
{
    match begun.get(b as usize) {
        Some(is) => *is,
        None => true,
    }
}

// The block does nothing but go to another.
fn only_goes(block: &Block) -> bool
    ensures { result ≡ only_goes (block_of block.now).stmts (block_of block.now).exit }
{
    block.stmts.is_empty() && matches!(block.end, End::Goto(_))
}

/// The block at a place in the graph does nothing but go to another.
pub(crate) fn only_goes_at(graph: &Graph, b: u32) -> bool
    ensures { result
        ≡ only_goes (block_in (graph_of graph.now) b).stmts (block_in (graph_of graph.now) b).exit }
{
    match graph.blocks.get(b as usize) {
        Some(block) => only_goes(block),
        None => false,
    }
}

// The text has a step for the block where it begins alone.
fn only_begins(graph: &Graph, begun: &Vec<bool>, b: u32) -> bool
    ensures { result ≡ only_begins (graph_of graph.now) (is_begun_in begun.now.items) b }
{
    is_begun(begun, b) && only_goes_at(graph, b)
}

// The next point that a run comes to from this one without a step of the text, if it does.
fn next_point(graph: &Graph, begun: &Vec<bool>, at: Point) -> Option<Point>
    ensures { IfSome result (λ next. (to : ThePoint)
        → Leads (graph_of graph.now) (is_begun_in begun.now.items) (point_of next) to
        → Leads (graph_of graph.now) (is_begun_in begun.now.items) (point_of at) to) }
{
    match at {
        Point::Begin(b) => {
            if only_begins(graph, begun, b) {
                return None;
            }
            Some(Point::Before(b, 0))
        }
        Point::Before(b, place) => match goes_on(graph, b, place) {
            Some(next) => Some(Point::Begin(next)),
            None => None,
        },
        Point::Nowhere => None,
    }
}

// The points are one, or no run comes past the first.
fn is_there(graph: &Graph, at: Point, to: Point) -> bool
    ensures { result ≡ true → (begun : ℕ → Bool) → Leads (graph_of graph.now) begun (point_of at) (point_of to) }
{
    if at == to {
        return true;
    }
    match at {
        Point::Before(b, place) => stops(graph, b, place),
        _ => false,
    }
}

/// A run of the graph comes from the one point to the other without a step of the text.
pub fn leads(graph: &Graph, begun: &Vec<bool>, from: Point, to: Point) -> bool
    ensures { result ≡ true
        → Leads (graph_of graph.now) (is_begun_in begun.now.items) (point_of from) (point_of to) }
{
    let mut at = from;
    for _ in 0..graph.blocks.len().saturating_mul(2) {
        if is_there(graph, at, to) {
            return true;
        }
        let Some(next) = next_point(graph, begun, at) else {
            return false;
        };
        at = next;
    }
    false
}
