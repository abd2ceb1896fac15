//! The statements of a function, each with what is asked of where it stands.

ghost use Rattle.std.specs.Prelude.{◌≡◌, ℕ, ◌+◌, ◌-◌, ◌∷◌, ◌++◌, map, None, IfOk, OnOk};
ghost use Rattle.std.specs.List.{list_any};
ghost use Rattle.dcc_c.specs.Views.{stmt_of, lines_of, arms_of, arms_if};
ghost use Rattle.dcc_shape.specs.Spots.{is_the, spots, block_spots, inner_spots, arm_spots};
ghost use Rattle.dcc_shape.specs.Seen.{lent, seen, seen_in, spares_own, goes_round};

use crate::stmts::{goal_in, label_in};
use dcc_c::{Arm, CStmt, Line};
use std::alloc::{AllocError, Global};

// From so many blocks around one on a text may be too deep for what is asked of jumps and loops.
const MOST_AROUND: usize = 199;

/// A statement, and what is asked of where it stands.
#[derive(Clone, Copy)]
pub(crate) struct Seen<'a> {
    /// The statement.
    pub stmt: &'a CStmt,
    /// The label that is the statement directly before it.
    pub label: Option<&'a str>,
    /// Whether it does not go to the label of its innermost loop.
    pub spares_own: bool,
    /// Whether it goes to the label of a loop around it.
    pub is_round: bool,
    /// How many blocks more may stand around the statement.
    pub room: usize,
}

// Whether there is a label, and it is this.
fn is_the(word: &str, label: Option<&str>) -> bool
    ensures { result ≡ is_the word.now (lent label.entry) }
{
    match label {
        Some(other) => word == other,
        None => false,
    }
}

// Whether a statement does not go to the label of the first of these loops.
fn spares_own(stmt: &CStmt, loops: &[Option<&str>]) -> bool
    ensures { result ≡ spares_own (map lent loops.now) (stmt_of stmt.now) }
{
    let Some(word) = goal_in(stmt) else {
        return true;
    };
    match loops.first() {
        Some(first) => !is_the(word, *first),
        None => true,
    }
}

// Whether one of these labels is the word.
fn is_among(word: &str, loops: &[Option<&str>]) -> bool
    ensures { result ≡ list_any (λ label. is_the word.now (lent label)) loops.now }
{
    loops.iter().any(|label| is_the(word, *label))
}

// Whether a statement goes to the label of one of these loops.
fn goes_round(stmt: &CStmt, loops: &[Option<&str>]) -> bool
    ensures { result ≡ goes_round (map lent loops.now) (stmt_of stmt.now) }
{
    match goal_in(stmt) {
        Some(word) => is_among(word, loops),
        None => false,
    }
}

// The labels of the loops inside a loop with that label.
fn loops_inside<'a>(
    alloc: Global,
    label: Option<&'a str>,
    loops: &[Option<&'a str>],
) -> Result<Vec<Option<&'a str>>, AllocError>
    ensures { IfOk result (λ inside. map lent inside.items ≡ lent label.entry ∷ map lent loops.now) }
{
    let mut inside = vec![in alloc; label]?;
    inside.extend_from_slice(loops)?;
    Ok(inside)
}

/// The statements of a function's body, in the order of the text.
pub(crate) fn statements<'a>(alloc: Global, body: &'a [Line]) -> Result<Vec<Seen<'a>>, AllocError>
    ensures { IfOk result (λ list. map seen_in list.items ≡ map seen (spots (lines_of body.now))) }
{
    let mut list = Vec::new(alloc);
    add_lines(alloc, &[], MOST_AROUND, body, &mut list)?;
    Ok(list)
}

// Adds the statements of a block in these loops, where so many blocks more may stand around its statements.
#[cycle(add)]
fn add_lines<'a>(
    alloc: Global,
    loops: &[Option<&'a str>],
    room: usize,
    lines: &'a [Line],
    list: &mut Vec<Seen<'a>>,
) -> Result<(), AllocError>
    ensures { (depth : ℕ) → room ≡ 199 - depth → OnOk result (map seen_in list.new.items
        ≡ map seen_in list.old.items
        ++ map seen (block_spots (map lent loops.now) depth None (lines_of lines.now))) }
{
    let mut label = None;
    for line in lines {
        let stmt = &line.stmt;
        list.push(Seen {
            stmt,
            label,
            spares_own: spares_own(stmt, loops),
            is_round: goes_round(stmt, loops),
            room,
        })?;
        add_inner(alloc, loops, room, label, stmt, list)?;
        label = label_in(stmt);
    }
    Ok(())
}

// Adds the statements inside a statement with that label in these loops.
#[cycle(add)]
fn add_inner<'a>(
    alloc: Global,
    loops: &[Option<&'a str>],
    room: usize,
    label: Option<&'a str>,
    stmt: &'a CStmt,
    list: &mut Vec<Seen<'a>>,
) -> Result<(), AllocError>
    ensures { (depth : ℕ) → room ≡ 199 - depth → OnOk result (map seen_in list.new.items
        ≡ map seen_in list.old.items
        ++ map seen (inner_spots (map lent loops.now) depth (lent label.entry) (stmt_of stmt.now))) }
{
    let less = room.saturating_sub(1);
    match stmt {
        CStmt::If(_, body, otherwise) => {
            add_lines(alloc, loops, less, body, list)?;
            add_lines(alloc, loops, less, otherwise, list)
        }
        CStmt::While(_, body) => add_loop(alloc, loops, less, label, body, list),
        CStmt::DoWhile(body, _) => add_loop(alloc, loops, less, label, body, list),
        CStmt::Forever(body) => add_loop(alloc, loops, less, label, body, list),
        CStmt::Switch(_, arms, last) => {
            add_arms(alloc, loops, less, arms, list)?;
            add_default(alloc, loops, less, last, list)
        }
        _ => Ok(()),
    }
}

// Adds the statements of a loop with that label in these loops, around which so many blocks more may stand.
#[cycle(add)]
fn add_loop<'a>(
    alloc: Global,
    loops: &[Option<&'a str>],
    less: usize,
    label: Option<&'a str>,
    body: &'a [Line],
    list: &mut Vec<Seen<'a>>,
) -> Result<(), AllocError>
    ensures { (depth : ℕ) → less ≡ 199 - (depth + 1) → OnOk result (map seen_in list.new.items
        ≡ map seen_in list.old.items
        ++ map seen (block_spots (lent label.entry ∷ map lent loops.now) (depth + 1) None (lines_of body.now))) }
{
    let inside = loops_inside(alloc, label, loops)?;
    add_lines(alloc, &inside, less, body, list)
}

// Adds the statements of the default arm of a `switch` in these loops, around which so many blocks more may stand.
#[cycle(add)]
fn add_default<'a>(
    alloc: Global,
    loops: &[Option<&'a str>],
    less: usize,
    last: &'a Option<Arm>,
    list: &mut Vec<Seen<'a>>,
) -> Result<(), AllocError>
    ensures { (depth : ℕ) → less ≡ 199 - (depth + 1) → OnOk result (map seen_in list.new.items
        ≡ map seen_in list.old.items ++ map seen (arm_spots (map lent loops.now) depth (arms_if last.now))) }
{
    match last {
        Some(arm) => add_lines(alloc, loops, less, &arm.body, list),
        None => Ok(()),
    }
}

// Adds the statements inside the arms of a `switch` in these loops, around which so many blocks more may stand.
#[cycle(add)]
fn add_arms<'a>(
    alloc: Global,
    loops: &[Option<&'a str>],
    less: usize,
    arms: &'a [Arm],
    list: &mut Vec<Seen<'a>>,
) -> Result<(), AllocError>
    ensures { (depth : ℕ) → less ≡ 199 - (depth + 1) → OnOk result (map seen_in list.new.items
        ≡ map seen_in list.old.items ++ map seen (arm_spots (map lent loops.now) depth (arms_of arms.now))) }
{
    for arm in arms {
        add_lines(alloc, loops, less, &arm.body, list)?;
    }
    Ok(())
}
