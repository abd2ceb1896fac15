//! What the statements of a graph read and write.

ghost use Rattle.std.specs.Prelude.{◌≡◌, ◌++◌, map, flat_map, IfOk, OnOk};
ghost use Rattle.dcc_ir.specs.Views.{expr_of, stmt_of, exit_of, block_of, graph_of};
ghost use Rattle.dcc_ir.specs.Use.{reads_of, exprs_of, writes_of, exit_exprs};
ghost use Rattle.dcc_ir.specs.Demand.{is_assignment};
ghost use Rattle.dcc_flow.specs.Access.{block_access_of, accesses_of, block_access_in};

use dcc_ir::{Block, End, Expr, Graph, Loc, Stmt};
use std::alloc::{AllocError, Global};

/// What a statement reads and writes.
#[derive(Drop)]
pub struct Access {
    /// The locations that it reads.
    pub reads: Vec<Loc>,
    /// The locations that it writes, after it has read.
    pub writes: Vec<Loc>,
    /// Whether it only makes a value for a location.
    pub assigns: bool,
}

/// What a block reads and writes.
#[derive(Drop)]
pub struct BlockAccess {
    /// What each statement of the block reads and writes, in their order.
    pub stmts: Vec<Access>,
    /// The locations that the block's end reads.
    pub last: Vec<Loc>,
}

// Puts the locations that an expression reads at the end of a list.
fn add_reads(e: &Expr, list: &mut Vec<Loc>) -> Result<(), AllocError>
    ensures { OnOk result (list.new.items ≡ list.old.items ++ reads_of (expr_of e.now)) }
{
    match e {
        Expr::Const(..) | Expr::Address(_) => Ok(()),
        Expr::Get(location) => {
            list.push(*location)?;
            Ok(())
        }
        Expr::Load(_, address) => add_reads(address, list),
        Expr::Un(_, _, operand) | Expr::Widen(_, _, operand) | Expr::Part(_, _, operand) => {
            add_reads(operand, list)
        }
        Expr::Bin(_, _, left, right) => {
            add_reads(left, list)?;
            add_reads(right, list)
        }
        Expr::Join(high, low) => {
            add_reads(high, list)?;
            add_reads(low, list)
        }
        Expr::Choose(test, one, other) => {
            add_reads(test, list)?;
            add_reads(one, list)?;
            add_reads(other, list)
        }
    }
}

// The locations that these expressions read.
fn reads_of_all(alloc: Global, es: &[Expr]) -> Result<Vec<Loc>, AllocError>
    ensures { IfOk result (λ list. list.items ≡ flat_map reads_of (map expr_of es.now)) }
{
    let mut list = Vec::new(alloc);
    for e in es {
        add_reads(e, &mut list)?;
    }
    Ok(list)
}

// The locations that an expression reads.
fn reads_of_one(alloc: Global, e: &Expr) -> Result<Vec<Loc>, AllocError>
    ensures { IfOk result (λ list. list.items ≡ reads_of (expr_of e.now)) }
{
    let mut list = Vec::new(alloc);
    add_reads(e, &mut list)?;
    Ok(list)
}

// The locations that a statement reads.
fn stmt_reads(alloc: Global, stmt: &Stmt) -> Result<Vec<Loc>, AllocError>
    ensures { IfOk result (λ list. list.items ≡ flat_map reads_of (exprs_of (stmt_of stmt.now))) }
{
    match stmt {
        Stmt::Set { value, .. } => reads_of_one(alloc, value),
        Stmt::Load { address, .. } => reads_of_one(alloc, address),
        Stmt::Store { address, value, .. } => {
            let mut list = reads_of_one(alloc, address)?;
            add_reads(value, &mut list)?;
            Ok(list)
        }
        Stmt::Div { division, .. } => reads_of_one(alloc, division),
        Stmt::Call { arguments, .. } => reads_of_all(alloc, arguments),
        Stmt::Dos { argument, .. } => match argument {
            Some(e) => reads_of_one(alloc, e),
            None => Ok(Vec::new(alloc)),
        },
    }
}

// The locations that a statement writes.
fn stmt_writes(alloc: Global, stmt: &Stmt) -> Result<Vec<Loc>, AllocError>
    ensures { IfOk result (λ list. list.items ≡ writes_of (stmt_of stmt.now)) }
{
    match stmt {
        Stmt::Set { place, .. } | Stmt::Load { place, .. } | Stmt::Div { place, .. } => {
            Ok(vec![in alloc; *place]?)
        }
        Stmt::Store { .. } => Ok(Vec::new(alloc)),
        Stmt::Call { results, .. } => results.clone(),
        Stmt::Dos { place, .. } => match place {
            Some(location) => Ok(vec![in alloc; *location]?),
            None => Ok(Vec::new(alloc)),
        },
    }
}

// Whether a statement only makes a value for a location.
fn assigns(stmt: &Stmt) -> bool
    ensures { result ≡ is_assignment (stmt_of stmt.now) }
{
    match stmt {
        Stmt::Set { .. } | Stmt::Load { .. } => true,
        _ => false,
    }
}

// The locations that the end of a block reads.
fn end_reads(alloc: Global, end: &End) -> Result<Vec<Loc>, AllocError>
    ensures { IfOk result (λ list. list.items ≡ flat_map reads_of (exit_exprs (exit_of end.now))) }
{
    match end {
        End::If { test, .. } => reads_of_one(alloc, test),
        End::Switch { value, .. } => reads_of_one(alloc, value),
        End::Ret(values) => reads_of_all(alloc, values),
        End::Goto(_) | End::Stop => Ok(Vec::new(alloc)),
    }
}

// What a block reads and writes.
fn block_accesses(alloc: Global, block: &Block) -> Result<BlockAccess, AllocError>
    ensures { IfOk result (λ b. block_access_in b ≡ block_access_of (block_of block.now)) }
{
    let mut stmts = Vec::new(alloc);
    for stmt in &block.stmts {
        stmts.push(Access {
            reads: stmt_reads(alloc, stmt)?,
            writes: stmt_writes(alloc, stmt)?,
            assigns: assigns(stmt),
        })?;
    }
    Ok(BlockAccess {
        stmts,
        last: end_reads(alloc, &block.end)?,
    })
}

/// What each block of a graph reads and writes.
pub fn accesses(alloc: Global, g: &Graph) -> Result<Vec<BlockAccess>, AllocError>
    ensures { IfOk result (λ blocks. map block_access_in blocks.items ≡ accesses_of (graph_of g.now)) }
{
    let mut blocks = Vec::new(alloc);
    for block in &g.blocks {
        blocks.push(block_accesses(alloc, block)?)?;
    }
    Ok(blocks)
}
