//! A program of which some arguments and values go.

ghost use Rattle.std.specs.Prelude.{◌≡◌, IfOk, map};
ghost use Rattle.dcc_ir.specs.Views.{stmt_of, exit_of, block_of, graph_of};
ghost use Rattle.dcc_ir.specs.Trimmed as trimmed;
ghost use Rattle.dcc_localise.specs.Staying.{stays_in, trim_in};

use crate::staying::Staying;
use dcc_ir::{Block, End, Graph, Stmt};
use std::alloc::{AllocError, Global};

// Whether a place stays; places past the end of the list go.
fn has(stays: &[bool], place: usize) -> bool
    ensures { result ≡ stays_in stays.now place }
{
    stays.get(place).copied().unwrap_or(false)
}

// The items of a list whose places stay.
fn kept<T: Drop>(alloc: Global, stays: &[bool], items: Vec<T>) -> Result<Vec<T>, AllocError>
    ensures { IfOk result (λ left. left.items ≡ trimmed.kept (stays_in stays.now) items.items) }
{
    let mut rest = items;
    let mut left = Vec::new(alloc);
    while let Some(item) = rest.pop() {
        if !has(stays, rest.len()) {
            continue;
        }
        left.push(item)?;
    }
    left.reverse();
    Ok(left)
}

// A statement with what stays: a call passes the arguments that its callee takes, and takes what that gives.
fn trim_stmt(alloc: Global, staying: &Staying, stmt: Stmt) -> Result<Stmt, AllocError>
    ensures { IfOk result (λ left. stmt_of left
        ≡ trimmed.trim_stmt (trim_in staying.now.by_entry.entries) (stmt_of stmt)) }
{
    match stmt {
        Stmt::Call {
            results,
            entry,
            arguments,
            depth,
        } => Ok(Stmt::Call {
            results: kept(alloc, staying.gives(entry), results)?,
            entry,
            arguments: kept(alloc, staying.takes(entry), arguments)?,
            depth,
        }),
        stmt => Ok(stmt),
    }
}

// The end of a block of the graph with that entry, with what stays: a return gives the values that stay.
fn trim_end(alloc: Global, staying: &Staying, entry: u16, end: End) -> Result<End, AllocError>
    ensures { IfOk result (λ left. exit_of left
        ≡ trimmed.trim_exit (trim_in staying.now.by_entry.entries) entry (exit_of end)) }
{
    match end {
        End::Ret(values) => Ok(End::Ret(kept(alloc, staying.gives(entry), values)?)),
        end => Ok(end),
    }
}

// The statements of a block, of which each call passes and takes what stays.
fn trim_stmts(alloc: Global, staying: &Staying, stmts: Vec<Stmt>) -> Result<Vec<Stmt>, AllocError>
    ensures { IfOk result (λ left. map stmt_of left.items
        ≡ map (trimmed.trim_stmt (trim_in staying.now.by_entry.entries)) (map stmt_of stmts.items)) }
{
    let mut left = Vec::new(alloc);
    for stmt in stmts {
        left.push(trim_stmt(alloc, staying, stmt)?)?;
    }
    Ok(left)
}

// The blocks of the graph with that entry, with what stays.
fn trim_blocks(
    alloc: Global,
    staying: &Staying,
    entry: u16,
    blocks: Vec<Block>,
) -> Result<Vec<Block>, AllocError>
    ensures { IfOk result (λ left. map block_of left.items
        ≡ map (trimmed.trim_block (trim_in staying.now.by_entry.entries) entry) (map block_of blocks.items)) }
{
    let mut left = Vec::new(alloc);
    for block in blocks {
        left.push(Block {
            at: block.at,
            stmts: trim_stmts(alloc, staying, block.stmts)?,
            end: trim_end(alloc, staying, entry, block.end)?,
        })?;
    }
    Ok(left)
}

// A graph with the params that stay, and with the arguments and values that stay at its calls and returns.
fn trim_graph(alloc: Global, staying: &Staying, g: Graph) -> Result<Graph, AllocError>
    ensures { IfOk result (λ left. graph_of left
        ≡ trimmed.trim_graph (trim_in staying.now.by_entry.entries) (graph_of g)) }
{
    let params = kept(alloc, staying.takes(g.entry), g.params)?;
    let blocks = trim_blocks(alloc, staying, g.entry, g.blocks)?;
    Ok(Graph {
        params,
        blocks,
        ..g
    })
}

/// The graphs in which just the arguments and values stay that are told of their entries.
pub(crate) fn trim_graphs(
    alloc: Global,
    staying: &Staying,
    graphs: Vec<Graph>,
) -> Result<Vec<Graph>, AllocError>
    ensures { IfOk result (λ left. map graph_of left.items
        ≡ map (trimmed.trim_graph (trim_in staying.now.by_entry.entries)) (map graph_of graphs.items)) }
{
    let mut left = Vec::new(alloc);
    for graph in graphs {
        left.push(trim_graph(alloc, staying, graph)?)?;
    }
    Ok(left)
}
