//! The points of a program.

ghost use Rattle.std.specs.Prelude.{◌≡◌, ◌++◌, map, IfOk, OnOk};
ghost use Rattle.std.specs.List.{range_with_len};
ghost use Rattle.dcc_ir.specs.Views.{stmt_of, graph_of, program_of};
ghost use Rattle.dcc_sums.specs.Points.{is_return};
ghost use Rattle.dcc_sums.specs.Instance.{callee_of};
ghost use Rattle.dcc_summaries.specs.Points.{IsPoint, site_in, site_seen, all_points, graph_points, point_at};
ghost use Rattle.dcc_summaries.specs.Points.{callee_at};

use dcc_ir::{End, Graph, IrProgram, Stmt};
use std::alloc::{AllocError, Global};

/// A point of a graph of a program: after a number of statements of a block.
#[derive(Clone, Copy)]
pub struct Point {
    /// The place of the graph in the program.
    pub graph: usize,
    /// The place of the block in the graph.
    pub block: usize,
    /// How many of the block's statements are done.
    pub done: usize,
}

/// What comes next at a point: a statement or the end of the block.
#[derive(Drop)]
pub enum Site<'a> {
    Executes(&'a Stmt),
    Ends(&'a End),
}

/// The entry of the procedure that a statement calls.
pub fn callee(stmt: &Stmt) -> Option<u16>
    ensures { result ≡ callee_of (stmt_of stmt.now) }
{
    match stmt {
        Stmt::Call { entry, .. } => Some(*entry),
        _ => None,
    }
}

impl Site<'_> {
    /// The entry of the procedure that is called at the point.
    pub fn callee(&self) -> Option<u16>
        ensures { result ≡ callee_at (site_seen self.now) }
    {
        match self {
            Site::Executes(stmt) => callee(stmt),
            Site::Ends(_) => None,
        }
    }

    /// Whether the procedure returns at the point.
    pub fn returns(&self) -> bool
        ensures { result ≡ is_return (site_seen self.now) }
    {
        match self {
            Site::Executes(_) => false,
            Site::Ends(end) => match end {
                End::Ret(_) => true,
                _ => false,
            },
        }
    }
}

/// What comes next at a point of a program.
pub(crate) fn site_at<'a>(p: &'a IrProgram, at: Point) -> Site<'a>
    requires { IsPoint (program_of p.now) at }
    ensures { site_seen result ≡ site_in (program_of p.now) at }
{
    let block = &p.graphs[at.graph].blocks[at.block];
    match block.stmts.get(at.done) {
        Some(stmt) => Site::Executes(stmt),
        None => Site::Ends(&block.end),
    }
}

// Puts the first `count` points of a block at the end of a list.
fn add_block(
    points: &mut Vec<Point>,
    graph: usize,
    block: usize,
    count: usize,
) -> Result<(), AllocError>
    ensures { OnOk result (points.new.items ≡ points.old.items ++ map (point_at graph block) (range_with_len 0 count)) }
{
    for done in 0..count {
        points.push(Point { graph, block, done })?;
    }
    Ok(())
}

// Puts the points of a graph, the one at that place, at the end of a list.
fn add_graph(points: &mut Vec<Point>, place: usize, graph: &Graph) -> Result<(), AllocError>
    ensures { OnOk result (points.new.items ≡ points.old.items ++ graph_points place (graph_of graph.now)) }
{
    for block in 0..graph.blocks.len() {
        let count = graph.blocks[block].stmts.len() + 1;
        add_block(points, place, block, count)?;
    }
    Ok(())
}

/// All points of a program.
pub fn points(alloc: Global, p: &IrProgram) -> Result<Vec<Point>, AllocError>
    ensures { IfOk result (λ points. points.items ≡ all_points (program_of p.now)) }
{
    let mut points = Vec::new(alloc);
    for place in 0..p.graphs.len() {
        add_graph(&mut points, place, &p.graphs[place])?;
    }
    Ok(points)
}
