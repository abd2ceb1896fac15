//! The pass: what passes together is one value.

ghost use Rattle.std.specs.Prelude.{◌≡◌, List, [], ◌∷◌, ◌++◌, IfOk, OnOk, length, map, flat_map, option_map, reverse};
ghost use Rattle.dcc_ir.specs.Views.{expr_of, stmt_of, exit_of, block_of, graph_of, program_of};
ghost use Rattle.dcc_ir.specs.Use.{got_by};
ghost use Rattle.dcc_ir.specs.Tree.{Summary};
ghost use Rattle.dcc_ir.specs.WellFormed.{IsProgram};
ghost use Rattle.dcc_sums.specs.Localised.{summary_at};
ghost use Rattle.dcc_sums.specs.Laws.{IsKeptBy};
ghost use Rattle.dcc_signatures.specs.Laws.{PassesOneValue, PassesAtMostOne};
ghost use Rattle.dcc_signatures.specs.Packed as spec;
ghost use Rattle.dcc_signatures.specs.Packed.{packed};

use crate::packing::{Fresh, are_halves, one_value, push_parts, value_places, word};
use dcc_ir::{Block, End, Expr, Graph, IrProgram, Loc, Param, Put, Stmt};
use std::alloc::{AllocError, Global};

// The locations of two arguments that are the low and the high half of one register.
fn halves_got(low: &Expr, high: &Expr) -> Option<(Loc, Loc)>
    ensures { option_map (λ halves. spec.word_of halves.0 halves.1) result
        ≡ spec.one_argument (expr_of low.now) (expr_of high.now) }
{
    match (low, high) {
        (Expr::Get(low), Expr::Get(high)) if are_halves(*low, *high) => Some((*low, *high)),
        _ => None,
    }
}

// Puts an argument before the later ones, which stand in reverse; where it is the low half and the next one the high
// half of one register, they become a word.
fn put_argument(alloc: Global, argument: Expr, later: &mut Vec<Expr>) -> Result<(), AllocError>
    ensures { OnOk result (map expr_of (reverse later.new.items)
        ≡ spec.in_front spec.one_argument (expr_of argument) (map expr_of (reverse later.old.items))) }
{
    let halves = match later.last() {
        Some(next) => halves_got(&argument, next),
        None => None,
    };
    if let Some((low, high)) = halves {
        later.pop();
        later.push(word(alloc, low, high)?)?;
    } else {
        later.push(argument)?;
    }
    Ok(())
}

// The arguments, where the two halves of a register are a word.
fn pack_arguments(alloc: Global, arguments: Vec<Expr>) -> Result<Vec<Expr>, AllocError>
    ensures { IfOk result (λ packed. map expr_of packed.items
        ≡ spec.merged spec.one_argument (map expr_of arguments.items)) }
{
    let mut rest = arguments;
    let mut packed = Vec::new(alloc);
    while let Some(argument) = rest.pop() {
        put_argument(alloc, argument, &mut packed)?;
    }
    packed.reverse();
    Ok(packed)
}

// Puts a param before the later ones, which stand in reverse; where it is the low half and the next one the high half
// of one register, they become one.
fn put_param(param: Param, later: &mut Vec<Param>) -> Result<(), AllocError>
    ensures { OnOk result (reverse later.new.items ≡ spec.in_front spec.one_param param (reverse later.old.items)) }
{
    let one = match later.last() {
        Some(next) => one_param(param, *next),
        None => None,
    };
    if one.is_some() {
        later.pop();
    }
    later.push(one.unwrap_or(param))?;
    Ok(())
}

// Two params as one, where they are the low and the high half of one register.
fn one_param(low: Param, high: Param) -> Option<Param>
    ensures { result ≡ spec.one_param low high }
{
    if low.stack || high.stack {
        return None;
    }
    match (low.put, high.put) {
        (Put::One(low), Put::One(high)) if are_halves(low, high) => Some(Param {
            stack: false,
            put: Put::Two(low, high),
        }),
        _ => None,
    }
}

// The params, where the two halves of a register are one.
fn pack_params(alloc: Global, params: Vec<Param>) -> Result<Vec<Param>, AllocError>
    ensures { IfOk result (λ packed. packed.items ≡ spec.merged spec.one_param params.items) }
{
    let mut rest = params;
    let mut packed = Vec::new(alloc);
    while let Some(param) = rest.pop() {
        put_param(param, &mut packed)?;
    }
    packed.reverse();
    Ok(packed)
}

// Adds a statement; after a call that gives one value for several locations, these take their parts.
fn push_packed(
    alloc: Global,
    fresh: Fresh,
    stmt: Stmt,
    stmts: &mut Vec<Stmt>,
) -> Result<(), AllocError>
    ensures { OnOk result (map stmt_of stmts.new.items
        ≡ map stmt_of stmts.old.items ++ spec.pack_stmt fresh (stmt_of stmt)) }
{
    let Stmt::Call {
        results,
        entry,
        arguments,
        depth,
    } = stmt
    else {
        stmts.push(stmt)?;
        return Ok(());
    };
    stmts.push(Stmt::Call {
        results: value_places(alloc, fresh, results.as_slice())?,
        entry,
        arguments: pack_arguments(alloc, arguments)?,
        depth,
    })?;
    push_parts(alloc, fresh, results.as_slice(), stmts)
}

// The statements of a block, of which each call passes and takes values packed.
fn pack_stmts(alloc: Global, fresh: Fresh, stmts: Vec<Stmt>) -> Result<Vec<Stmt>, AllocError>
    ensures { IfOk result (λ packed. map stmt_of packed.items
        ≡ flat_map (spec.pack_stmt fresh) (map stmt_of stmts.items)) }
{
    let mut packed = Vec::new(alloc);
    for stmt in stmts {
        push_packed(alloc, fresh, stmt, &mut packed)?;
    }
    Ok(packed)
}

// The locations that the values are reads of.
fn got_by(alloc: Global, values: &[Expr]) -> Result<Vec<Loc>, AllocError>
    ensures { IfOk result (λ got. got.items ≡ flat_map got_by (map expr_of values.now)) }
{
    let mut got = Vec::new(alloc);
    for value in values {
        if let Expr::Get(location) = value {
            got.push(*location)?;
        }
    }
    Ok(got)
}

// The end of a block; a return gives at most one value.
fn pack_end(alloc: Global, end: End) -> Result<End, AllocError>
    ensures { IfOk result (λ packed. exit_of packed ≡ spec.pack_exit (exit_of end)) }
{
    match end {
        End::Ret(values) => {
            let given = got_by(alloc, values.as_slice())?;
            Ok(End::Ret(one_value(alloc, given.as_slice(), values)?))
        }
        end => Ok(end),
    }
}

// The blocks of a graph, whose calls and returns pass values packed.
fn pack_blocks(alloc: Global, fresh: Fresh, blocks: Vec<Block>) -> Result<Vec<Block>, AllocError>
    ensures { IfOk result (λ packed. map block_of packed.items
        ≡ map (spec.pack_block fresh) (map block_of blocks.items)) }
{
    let mut packed = Vec::new(alloc);
    for block in blocks {
        packed.push(Block {
            at: block.at,
            stmts: pack_stmts(alloc, fresh, block.stmts)?,
            end: pack_end(alloc, block.end)?,
        })?;
    }
    Ok(packed)
}

// A fresh temporary of `width` bits.
fn temporary(bits: &mut Vec<u8>, width: u8) -> Result<u32, AllocError>
    ensures bits { OnOk result (bits.new.items ≡ bits.old.items ++ width ∷ []) }
    ensures number { IfOk result (λ n. n ≡ length bits.old.items) }
{
    let number = u32::try_from(bits.len()).map_err(|_| AllocError)?;
    bits.push(width)?;
    Ok(number)
}

// A graph whose params, calls and returns pass values packed, with two temporaries more.
fn pack_graph(alloc: Global, g: Graph) -> Result<Graph, AllocError>
    ensures { IfOk result (λ packed. graph_of packed ≡ spec.pack_graph (graph_of g)) }
{
    let mut bits = g.bits;
    let word = temporary(&mut bits, 16)?;
    let double = temporary(&mut bits, 32)?;
    Ok(Graph {
        params: pack_params(alloc, g.params)?,
        blocks: pack_blocks(alloc, Fresh { word, double }, g.blocks)?,
        bits,
        entry: g.entry,
        local: g.local,
        pushed: g.pushed,
    })
}

// The graphs, of which each passes values packed.
fn pack_graphs(alloc: Global, graphs: Vec<Graph>) -> Result<Vec<Graph>, AllocError>
    ensures { IfOk result (λ packed. map graph_of packed.items ≡ map spec.pack_graph (map graph_of graphs.items)) }
{
    let mut packed = Vec::new(alloc);
    for graph in graphs {
        packed.push(pack_graph(alloc, graph)?)?;
    }
    Ok(packed)
}

/// The program in which what passes together is one value: the two halves of a register pass to a procedure as a word,
/// and a procedure gives at most one value back. Halves of AX and DX that it gave back are one value of 32 bits.
///
/// # Errors
///
/// Where memory runs out, or a graph has 2^32 temporaries.
pub fn pack(alloc: Global, p: IrProgram) -> Result<IrProgram, AllocError>
    ensures packed { IfOk result (λ q. program_of q ≡ packed (program_of p)) }
    ensures keeps { (sums : List Summary) → IsProgram (program_of p) → PassesOneValue (program_of p) sums
        → IfOk result (λ q. IsKeptBy (program_of p) (program_of q)) }
    ensures one { (sums : List Summary) → IsProgram (program_of p) → PassesOneValue (program_of p) sums
        → IfOk result (λ q. PassesAtMostOne (summary_at (program_of p).graphs sums) (program_of q)) }
{
    let graphs = pack_graphs(alloc, p.graphs)?;
    Ok(IrProgram { graphs, ..p })
}
