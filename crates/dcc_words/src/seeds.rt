//! Pairs of temporaries that a graph reads, takes or sets as one word.

use crate::roles::Pair;
use dcc_ir::{Block, End, Expr, Graph, Loc, Put, Stmt};
use std::alloc::{AllocError, Global};

// Notes the pair of two locations, where both are temporaries.
fn note(seeds: &mut Vec<Pair>, low: Loc, high: Loc) -> Result<(), AllocError> {
    if let (Loc::Temp(low), Loc::Temp(high)) = (low, high) {
        seeds.push(Pair { low, high })?;
    }
    Ok(())
}

// Notes the pairs that an expression reads as one word.
fn note_joins(seeds: &mut Vec<Pair>, e: &Expr) -> Result<(), AllocError> {
    match e {
        Expr::Const(..) | Expr::Get(_) | Expr::Address(_) => Ok(()),
        Expr::Load(_, a) | Expr::Un(_, _, a) | Expr::Widen(_, _, a) | Expr::Part(_, _, a) => {
            note_joins(seeds, a)
        }
        Expr::Bin(_, _, a, b) => {
            note_joins(seeds, a)?;
            note_joins(seeds, b)
        }
        Expr::Join(high, low) => {
            if let (Expr::Get(high), Expr::Get(low)) = (&**high, &**low) {
                return note(seeds, *low, *high);
            }
            note_joins(seeds, high)?;
            note_joins(seeds, low)
        }
        Expr::Choose(test, a, b) => {
            note_joins(seeds, test)?;
            note_joins(seeds, a)?;
            note_joins(seeds, b)
        }
    }
}

// Notes the pairs that expressions read as one word.
fn note_all_joins(seeds: &mut Vec<Pair>, es: &[Expr]) -> Result<(), AllocError> {
    for e in es {
        note_joins(seeds, e)?;
    }
    Ok(())
}

// Notes the pairs that a statement reads as one word.
fn note_stmt(seeds: &mut Vec<Pair>, stmt: &Stmt) -> Result<(), AllocError> {
    match stmt {
        Stmt::Set { value, .. } => note_joins(seeds, value),
        Stmt::Load { address, .. } => note_joins(seeds, address),
        Stmt::Store { address, value, .. } => {
            note_joins(seeds, address)?;
            note_joins(seeds, value)
        }
        Stmt::Div { division, .. } => note_joins(seeds, division),
        Stmt::Call { arguments, .. } => note_all_joins(seeds, arguments.as_slice()),
        Stmt::Dos { argument, .. } => match argument {
            Some(e) => note_joins(seeds, e),
            None => Ok(()),
        },
    }
}

// Notes the pairs that the end of a block reads as one word.
fn note_end(seeds: &mut Vec<Pair>, end: &End) -> Result<(), AllocError> {
    match end {
        End::If { test, .. } => note_joins(seeds, test),
        End::Switch { value, .. } => note_joins(seeds, value),
        End::Ret(values) => note_all_joins(seeds, values.as_slice()),
        End::Goto(_) | End::Stop => Ok(()),
    }
}

// The first bit of the part of 8 bits that the value is, if it is one.
fn first_bit(value: &Expr) -> Option<u8> {
    match value {
        Expr::Part(8, first, _) => Some(*first),
        _ => None,
    }
}

// Notes the pair that two Sets, one behind the other, set to the parts of a word.
fn note_parts(seeds: &mut Vec<Pair>, stmt: &Stmt, next: &Stmt) -> Result<(), AllocError> {
    let (
        Stmt::Set { place, value },
        Stmt::Set {
            place: other,
            value: then,
        },
    ) = (stmt, next)
    else {
        return Ok(());
    };
    match (first_bit(value), first_bit(then)) {
        (Some(0), Some(8)) => note(seeds, *place, *other),
        (Some(8), Some(0)) => note(seeds, *other, *place),
        _ => Ok(()),
    }
}

// Notes the pairs that a block sets to the parts of words.
fn note_block_parts(seeds: &mut Vec<Pair>, block: &Block) -> Result<(), AllocError> {
    for k in 1..block.stmts.len() {
        note_parts(seeds, &block.stmts[k - 1], &block.stmts[k])?;
    }
    Ok(())
}

/// The pairs that a graph reads as one word, those that take one argument, and those that it sets to the parts of one.
pub fn seeds_of(alloc: Global, g: &Graph) -> Result<Vec<Pair>, AllocError> {
    let mut seeds = Vec::new(alloc);
    for block in &g.blocks {
        for stmt in &block.stmts {
            note_stmt(&mut seeds, stmt)?;
        }
        note_end(&mut seeds, &block.end)?;
    }
    for param in &g.params {
        if let Put::Two(low, high) = param.put {
            note(&mut seeds, low, high)?;
        }
    }
    for block in &g.blocks {
        note_block_parts(&mut seeds, block)?;
    }
    Ok(seeds)
}
