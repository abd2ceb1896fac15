//! Small graphs, by their lines: what the statements of each block do, and how it ends.

ghost use Rattle.std.specs.Prelude.{◌≡◌, true, false, [], map, option_map, IfOk};
ghost use Rattle.std.specs.List.{list_all, list_any};
ghost use Rattle.dcc_ir.specs.Run.{is_call};
ghost use Rattle.dcc_ir.specs.Tree.{Unary, Binary, Get, Dos};
ghost use Rattle.dcc_ir.specs.Views.{expr_of, stmt_of, exit_of, block_of, graph_of};
ghost use Rattle.dcc_ir.specs.WellFormed.{is_expr_of, is_stmt, is_exit, is_block, jumps_after_call, IsGraph};

use dcc_ir::{BinOp, Block, End, Expr, Graph, Loc, Stmt, UnOp};
use dcc_num::{FlagName, Half, Reg};
use std::alloc::{AllocError, Global};
use std::process::Abort;

// The low byte of a register.
pub(crate) type Byte = Reg;

// What a statement does. Bytes are low halves of registers; an address is a byte, widened.
#[derive(Clone, Copy)]
pub(crate) enum Op {
    /// The first takes the second.
    Copy(Byte, Byte),
    /// The first takes the sum of the others.
    Add(Byte, Byte, Byte),
    /// The first takes the sum of the others and the flag.
    AddWith(Byte, Byte, Byte, FlagName),
    /// The flag takes the carry of the sum of the bytes.
    Carry(FlagName, Byte, Byte),
    /// The flag takes whether the byte is 0.
    Test(FlagName, Byte),
    /// The first flag takes itself where the byte is 0, else the second one.
    Keep(FlagName, Byte, FlagName),
    /// The flag stays where the first byte is 0, else it takes whether the other one is.
    KeepOrTest(FlagName, Byte, Byte),
    /// The flag takes its complement.
    Complement(FlagName),
    /// The byte takes the second where the flag is set, else the third.
    Pick(Byte, FlagName, Byte, Byte),
    /// The first takes the byte at the second.
    Load(Byte, Byte),
    /// At the first stands the second.
    Store(Byte, Byte),
    /// The first takes the quotient of the others.
    Divide(Byte, Byte, Byte),
    /// The byte is written.
    Write(Byte),
    /// The byte takes a key.
    Key(Byte),
}

// How a block ends.
#[derive(Clone, Copy)]
pub(crate) enum Exit {
    Goto(u32),
    If(FlagName, u32, u32),
    Switch(Byte, &'static [u32]),
    /// By a call that puts its result into the first byte and takes the second, and then there.
    Call(Byte, Byte, u32),
    Ret(Byte),
    Stop,
}

// A block: its statements and its end.
#[derive(Clone, Copy)]
pub(crate) struct Line(pub(crate) &'static [Op], pub(crate) Exit);

fn get(b: Byte) -> Expr
    ensures { expr_of result ≡ Get (Loc.Half b Half.Low) }
{
    Expr::Get(Loc::Half(b, Half::Low))
}

fn flag(f: FlagName) -> Expr
    ensures { expr_of result ≡ Get (Loc.Flag f) }
{
    Expr::Get(Loc::Flag(f))
}

fn is_zero(alloc: Global, b: Byte) -> Result<Expr, AllocError>
    ensures { IfOk result (λ e. expr_of e ≡ Unary UnOp.IsZero 8 (Get (Loc.Half b Half.Low))) }
{
    Expr::unary(alloc, UnOp::IsZero, 8, get(b))
}

fn wide(alloc: Global, b: Byte) -> Result<Expr, AllocError>
    ensures { IfOk result (λ e. is_expr_of [] 16 (expr_of e) ≡ true) }
{
    Expr::widen(alloc, false, 16, get(b))
}

// The first flag where the byte is 0, else the second.
fn choose(alloc: Global, b: Byte, one: FlagName, other: FlagName) -> Result<Expr, AllocError>
    ensures { IfOk result (λ e. is_expr_of [] 1 (expr_of e) ≡ true) }
{
    let test = is_zero(alloc, b)?;
    Expr::choose(alloc, test, flag(one), flag(other))
}

// The first byte where the flag is set, else the second.
fn pick(alloc: Global, test: FlagName, one: Byte, other: Byte) -> Result<Expr, AllocError>
    ensures { IfOk result (λ e. is_expr_of [] 8 (expr_of e) ≡ true) }
{
    Expr::choose(alloc, flag(test), get(one), get(other))
}

// An operator on two bytes.
fn both(alloc: Global, operator: BinOp, a: Byte, b: Byte) -> Result<Expr, AllocError>
    ensures { IfOk result (λ e. expr_of e ≡ Binary operator 8 (Get (Loc.Half a Half.Low)) (Get (Loc.Half b Half.Low))) }
{
    Expr::binary(alloc, operator, 8, get(a), get(b))
}

// The byte, and the flag as a byte of 0 or 1.
fn with_flag(alloc: Global, e: Expr, f: FlagName) -> Result<Expr, AllocError>
    requires { is_expr_of [] 8 (expr_of e) ≡ true }
    ensures { IfOk result (λ e. is_expr_of [] 8 (expr_of e) ≡ true) }
{
    let carry = Expr::widen(alloc, false, 8, flag(f))?;
    Expr::binary(alloc, BinOp::Add, 8, e, carry)
}

// The carry of a sum of bytes: it lies below the first one.
fn carry(alloc: Global, a: Byte, b: Byte) -> Result<Expr, AllocError>
    ensures { IfOk result (λ e. is_expr_of [] 1 (expr_of e) ≡ true) }
{
    let sum = both(alloc, BinOp::Add, a, b)?;
    Expr::binary(alloc, BinOp::LtU, 8, sum, get(a))
}

// The flag where the first byte is 0, else whether the second is.
fn keep_or_test(alloc: Global, f: FlagName, a: Byte, b: Byte) -> Result<Expr, AllocError>
    ensures { IfOk result (λ e. is_expr_of [] 1 (expr_of e) ≡ true) }
{
    let test = is_zero(alloc, a)?;
    let other = is_zero(alloc, b)?;
    Expr::choose(alloc, test, flag(f), other)
}

fn complement(alloc: Global, f: FlagName) -> Result<Expr, AllocError>
    ensures { IfOk result (λ e. is_expr_of [] 1 (expr_of e) ≡ true) }
{
    Expr::unary(alloc, UnOp::Not, 1, flag(f))
}

// The flag takes the value.
fn set_flag(f: FlagName, value: Expr) -> Stmt
    requires { is_expr_of [] 1 (expr_of value) ≡ true }
    ensures fine { is_stmt [] (stmt_of result) ≡ true }
    ensures plain { is_call (stmt_of result) ≡ false }
{
    Stmt::Set {
        place: Loc::Flag(f),
        value,
    }
}

// A DOS call: 2 writes a byte, 8 takes one.
fn dos(number: u8, place: Option<Loc>, argument: Option<Expr>) -> Stmt
    ensures { stmt_of result ≡ Dos number place (option_map expr_of argument) }
{
    Stmt::Dos {
        number,
        place,
        argument,
    }
}

// The byte takes the value.
fn set_byte(to: Byte, value: Expr) -> Stmt
    requires { is_expr_of [] 8 (expr_of value) ≡ true }
    ensures fine { is_stmt [] (stmt_of result) ≡ true }
    ensures plain { is_call (stmt_of result) ≡ false }
{
    Stmt::Set {
        place: Loc::Half(to, Half::Low),
        value,
    }
}

fn stmt(alloc: Global, op: Op) -> Result<Stmt, AllocError>
    ensures fine { IfOk result (λ s. is_stmt [] (stmt_of s) ≡ true) }
    ensures plain { IfOk result (λ s. is_call (stmt_of s) ≡ false) }
{
    match op {
        Op::Copy(to, from) => Ok(set_byte(to, get(from))),
        Op::Add(to, a, b) => Ok(set_byte(to, both(alloc, BinOp::Add, a, b)?)),
        Op::AddWith(to, a, b, f) => {
            let sum = both(alloc, BinOp::Add, a, b)?;
            Ok(set_byte(to, with_flag(alloc, sum, f)?))
        }
        Op::Carry(f, a, b) => Ok(set_flag(f, carry(alloc, a, b)?)),
        Op::Test(f, b) => Ok(set_flag(f, is_zero(alloc, b)?)),
        Op::Keep(f, b, other) => Ok(set_flag(f, choose(alloc, b, f, other)?)),
        Op::KeepOrTest(f, a, b) => Ok(set_flag(f, keep_or_test(alloc, f, a, b)?)),
        Op::Complement(f) => Ok(set_flag(f, complement(alloc, f)?)),
        Op::Pick(to, test, one, other) => Ok(set_byte(to, pick(alloc, test, one, other)?)),
        Op::Load(to, at) => Ok(Stmt::Load {
            place: Loc::Half(to, Half::Low),
            width: 8,
            address: wide(alloc, at)?,
        }),
        Op::Store(at, b) => Ok(Stmt::Store {
            width: 8,
            address: wide(alloc, at)?,
            value: get(b),
        }),
        Op::Divide(to, a, b) => Ok(Stmt::Div {
            place: Loc::Half(to, Half::Low),
            division: both(alloc, BinOp::DivU, a, b)?,
        }),
        Op::Write(b) => Ok(dos(2, None, Some(get(b)))),
        Op::Key(to) => Ok(dos(8, Some(Loc::Half(to, Half::Low)), None)),
    }
}

fn stmts(alloc: Global, ops: &[Op]) -> Result<Vec<Stmt>, AllocError>
    ensures fine { IfOk result (λ stmts. list_all (is_stmt []) (map stmt_of stmts.items) ≡ true) }
    ensures plain { IfOk result (λ stmts. list_any is_call (map stmt_of stmts.items) ≡ false) }
{
    let mut stmts = Vec::new(alloc);
    for op in ops {
        stmts.push(stmt(alloc, *op)?)?;
    }
    Ok(stmts)
}

fn end(rt: &impl Abort, alloc: Global, exit: Exit, count: usize) -> Result<End, AllocError>
    ensures { IfOk result (λ end. is_exit [] count (exit_of end) ≡ true) }
{
    match exit {
        Exit::Goto(block) => {
            assert!(rt; (block as usize) < count);
            Ok(End::Goto(block))
        }
        Exit::If(test, one, other) => {
            assert!(rt; (one as usize) < count && (other as usize) < count);
            Ok(End::If {
                test: flag(test),
                one,
                other,
            })
        }
        Exit::Switch(b, blocks) => {
            assert!(rt; blocks.len() < 9);
            for block in blocks {
                assert!(rt; (*block as usize) < count);
            }
            Ok(End::Switch {
                value: wide(alloc, b)?,
                blocks: Vec::from_slice(alloc, blocks)?,
            })
        }
        Exit::Call(_, _, block) => {
            assert!(rt; (block as usize) < count);
            Ok(End::Goto(block))
        }
        Exit::Ret(b) => Ok(End::Ret(vec![in alloc; get(b)]?)),
        Exit::Stop => Ok(End::Stop),
    }
}

fn call_stmt(alloc: Global, to: Byte, argument: Byte) -> Result<Stmt, AllocError>
    ensures { IfOk result (λ s. is_stmt [] (stmt_of s) ≡ true) }
{
    let results = vec![in alloc; Loc::Half(to, Half::Low)]?;
    let arguments = vec![in alloc; get(argument)]?;
    Ok(Stmt::Call {
        results,
        entry: 100,
        arguments,
        depth: 4,
    })
}

// The block of a line.
fn block(
    rt: &impl Abort,
    alloc: Global,
    at: u16,
    line: &Line,
    count: usize,
) -> Result<Block, AllocError>
    ensures at { IfOk result (λ b. b.at ≡ at) }
    ensures jumps { IfOk result (λ b. jumps_after_call (block_of b).stmts (block_of b).exit ≡ true) }
    ensures fine { IfOk result (λ b. is_block [] count (block_of b) ≡ true) }
{
    let Line(ops, exit) = line;
    let mut stmts = stmts(alloc, ops)?;
    match *exit {
        Exit::Call(to, argument, next) => {
            assert!(rt; (next as usize) < count);
            let last = call_stmt(alloc, to, argument)?;
            stmts.push(last)?;
            Ok(Block {
                at,
                stmts,
                end: End::Goto(next),
            })
        }
        exit => {
            let end = end(rt, alloc, exit, count)?;
            Ok(Block { at, stmts, end })
        }
    }
}

// The graph of these lines, whose blocks are at 0, 1 and so on.
pub(crate) fn graph(rt: &impl Abort, alloc: Global, lines: &[Line]) -> Result<Graph, AllocError>
    ensures { IfOk result (λ graph. IsGraph (graph_of graph)) }
{
    assert!(rt; 0 < lines.len());
    assert!(rt; lines.len() < 9);
    let mut blocks = Vec::new(alloc);
    for at in 0..lines.len() {
        blocks.push(block(rt, alloc, at as u16, &lines[at], lines.len())?)?;
    }
    Ok(Graph {
        entry: 0,
        params: Vec::new(alloc),
        local: 0,
        pushed: 0,
        blocks,
        bits: Vec::new(alloc),
    })
}

// A block without statements, which leads to these.
fn line_to(blocks: &'static [u32]) -> Line {
    let exit = match blocks {
        [] => Exit::Stop,
        [block] => Exit::Goto(*block),
        [one, other] => Exit::If(FlagName::Cf, *one, *other),
        _ => Exit::Switch(Reg::Ax, blocks),
    };
    Line(&[], exit)
}

// A graph of blocks without statements, which lead to these.
pub(crate) fn bare_graph(
    rt: &impl Abort,
    alloc: Global,
    next: &[&'static [u32]],
) -> Result<Graph, AllocError>
    ensures { IfOk result (λ graph. IsGraph (graph_of graph)) }
{
    let mut lines = Vec::new(alloc);
    for blocks in next {
        lines.push(line_to(blocks))?;
    }
    graph(rt, alloc, lines.as_slice())
}
