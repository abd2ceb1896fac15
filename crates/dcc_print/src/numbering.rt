//! The lines of a unit, counted as they stand in its written form.

ghost use Rattle.std.specs.Prelude.{◌≡◌, true, ◌+◌, ◌<◌, if◌then◌else◌, ◌∷◌, [], OnOk, IfOk, length, drop, map};
ghost use Rattle.std.specs.List.{list_all};
ghost use Rattle.dcc_c.specs.Tree.{Arms, no_arms};
ghost use Rattle.dcc_c.specs.Parts.{stmts_in, inner_stmts, arm_stmts};
ghost use Rattle.dcc_c.specs.Written as written;
ghost use Rattle.dcc_c.specs.Written.{depth_after, written_depth, written_cases, written_stmt, written_lines};
ghost use Rattle.dcc_c.specs.Written.{written_arms, written_default};
ghost use Rattle.dcc_c.specs.Numbered.{rows, numbered_stmt, numbered_lines, numbered_arms, numbered_default};
ghost use Rattle.dcc_c.specs.Numbered.{numbered_function, numbered_functions, numbered};
ghost use Rattle.dcc_c.specs.Views.{stmt_of, lines_of, arms_of, arm_before, function_of, tree_of, arms_if};
ghost use Rattle.dcc_print.specs.Unbroken.{are_unbroken, is_unbroken_tree};

use crate::rows::globals_rows;
use crate::statement::next_depth;
use dcc_c::{Arm, CStmt, Func, Line, Unit};
use std::alloc::{AllocError, Global};
use std::mem;

// The depth of calls that is in force where a function's body begins, in bytes.
const FIRST_DEPTH: u32 = 2;

// The place after a part of a text.
#[derive(Clone, Copy, PartialEq, Eq, Debug)]
struct Place {
    /// The line.
    line: u32,
    /// The depth of calls in force there, in bytes.
    depth: u32,
}

impl Place {
    // The place one line further on.
    fn below(self) -> Result<Place, AllocError>
        ensures line { IfOk result (λ place. place.line ≡ self.line + 1) }
        ensures depth { IfOk result (λ place. place.depth ≡ self.depth) }
    {
        Ok(Place {
            line: further(self.line, 1)?,
            depth: self.depth,
        })
    }
}

// The line so many lines further on. A line whose number has more than 32 bits is told as want of memory.
fn further(line: u32, count: usize) -> Result<u32, AllocError>
    ensures { IfOk result (λ n. n ≡ line + count) }
{
    let count = u32::try_from(count).map_err(|_| AllocError)?;
    line.checked_add(count).ok_or(AllocError)
}

// The line after the pragma that changes the depth in force, where it is another.
fn after_pragma(depth: u32, next: u32, line: u32) -> Result<u32, AllocError>
    ensures { IfOk result (λ n. n ≡ line + rows (written_depth depth next)) }
{
    if depth == next {
        Ok(line)
    } else {
        further(line, 1)
    }
}

// The depth of the call that comes next in the lines from this one on, where one does, else that in force.
fn own_depth(depth: u32, lines: &[Line], from: usize) -> u32
    requires { from < length lines.now }
    ensures { result ≡ written.next_depth depth (lines_of (drop from lines.now)) }
{
    next_depth(depth, &lines[from..])
}

// How many lines the cases of an arm take.
fn cases_rows(cases: &[u16]) -> usize
    ensures count { result ≡ length cases.now }
    ensures rows { result ≡ rows (written_cases 1 cases.now) }
{
    cases.len()
}

// The place after an `if` whose last block ends here: after the brace that ends the else part, where it has one.
fn after_if(end: Place, has_else: bool) -> Result<Place, AllocError>
    ensures line { IfOk result (λ place. place.line ≡ end.line + (if has_else then 1 else 0)) }
    ensures depth { IfOk result (λ place. place.depth ≡ end.depth) }
{
    if has_else { end.below() } else { Ok(end) }
}

// The depth in force after a statement without others inside it.
fn depth_after_simple(depth: u32, stmt: &CStmt) -> u32
    ensures { result ≡ depth_after depth (stmt_of stmt.now ∷ []) }
{
    match stmt {
        CStmt::Call(_, _, _, own) => *own,
        _ => depth,
    }
}

// The statement, which stands in this line, with the lines inside it counted, and the place after it.
#[cycle(number)]
fn number_stmt(depth: u32, line: u32, stmt: CStmt) -> Result<(CStmt, Place), AllocError>
    ensures numbered { are_unbroken (stmt_of stmt ∷ inner_stmts (stmt_of stmt)) ≡ true →
        IfOk result (λ r. stmt_of r.0 ≡ numbered_stmt depth line (stmt_of stmt)) }
    ensures line { are_unbroken (stmt_of stmt ∷ inner_stmts (stmt_of stmt)) ≡ true →
        IfOk result (λ r. r.1.line ≡ line + rows (written_stmt 1 depth (stmt_of stmt))) }
    ensures depth { IfOk result (λ r. r.1.depth ≡ depth_after depth (stmt_of stmt ∷ inner_stmts (stmt_of stmt))) }
{
    match stmt {
        CStmt::If(test, mut body, mut otherwise) => {
            let middle = number_lines(depth, further(line, 1)?, &mut body)?;
            let has_else = !otherwise.is_empty();
            let end = number_lines(middle.depth, further(middle.line, 1)?, &mut otherwise)?;
            let following = after_if(end, has_else)?;
            Ok((CStmt::If(test, body, otherwise), following))
        }
        CStmt::While(test, mut body) => {
            let following = number_lines(depth, further(line, 1)?, &mut body)?.below()?;
            Ok((CStmt::While(test, body), following))
        }
        CStmt::DoWhile(mut body, test) => {
            let following = number_lines(depth, further(line, 1)?, &mut body)?.below()?;
            Ok((CStmt::DoWhile(body, test), following))
        }
        CStmt::Forever(mut body) => {
            let following = number_lines(depth, further(line, 1)?, &mut body)?.below()?;
            Ok((CStmt::Forever(body), following))
        }
        CStmt::Switch(value, mut arms, mut last) => {
            let middle = number_arms(depth, further(line, 1)?, &mut arms)?;
            let following = number_default(middle.depth, further(middle.line, 1)?, &mut last)?;
            Ok((CStmt::Switch(value, arms, last), following))
        }
        simple => {
            let depth = depth_after_simple(depth, &simple);
            let following = Place { line, depth }.below()?;
            Ok((simple, following))
        }
    }
}

// Counts the lines of the default arm of a `switch`, whose body begins in this line where there is one. The answer is
// the place after the `switch`.
#[cycle(number)]
fn number_default(depth: u32, line: u32, last: &mut Option<Arm>) -> Result<Place, AllocError>
    ensures numbered { are_unbroken (arm_stmts (arms_if last.old)) ≡ true →
        OnOk result (arms_if last.new ≡ numbered_default depth line (arms_if last.old)) }
    ensures line { are_unbroken (arm_stmts (arms_if last.old)) ≡ true →
        IfOk result (λ following. following.line ≡ line + rows (written_default 1 depth (arms_if last.old))) }
    ensures depth { IfOk result (λ following. following.depth ≡ depth_after depth (arm_stmts (arms_if last.old))) }
{
    match last {
        None => Ok(Place { line, depth }),
        Some(arm) => number_lines(depth, line, &mut arm.body)?.below()?.below(),
    }
}

// Counts the lines of arms, the first case of which stands in this line. The answer is the place after them.
#[cycle(number)]
fn number_arms(depth: u32, line: u32, arms: &mut [Arm]) -> Result<Place, AllocError>
    ensures numbered { are_unbroken (arm_stmts (arms_of arms.old)) ≡ true →
        OnOk result (arms_of arms.new ≡ numbered_arms depth line (arms_of arms.old)) }
    ensures line { are_unbroken (arm_stmts (arms_of arms.old)) ≡ true →
        IfOk result (λ following. following.line ≡ line + rows (written_arms 1 depth (arms_of arms.old))) }
    ensures depth { IfOk result (λ following. following.depth ≡ depth_after depth (arm_stmts (arms_of arms.old))) }
{
    let mut place = Place { line, depth };
    for i in 0..arms.len() {
        place = number_arm(place.depth, place.line, &mut arms[i])?;
    }
    Ok(place)
}

// Counts the lines of an arm whose first case stands in this line. The answer is the place after its `break`, where
// the rest of the arms begins.
#[cycle(number)]
fn number_arm(depth: u32, line: u32, arm: &mut Arm) -> Result<Place, AllocError>
    ensures numbered { (rest : Arms) → are_unbroken (arm_stmts (arm_before arm.old no_arms)) ≡ true →
        IfOk result (λ following. arm_before arm.new (numbered_arms following.depth following.line rest)
        ≡ numbered_arms depth line (arm_before arm.old rest)) }
    ensures line { (rest : Arms) → are_unbroken (arm_stmts (arm_before arm.old no_arms)) ≡ true →
        IfOk result (λ following. following.line + rows (written_arms 1 following.depth rest)
        ≡ line + rows (written_arms 1 depth (arm_before arm.old rest))) }
    ensures depth { (rest : Arms) → IfOk result (λ following. depth_after following.depth (arm_stmts rest)
        ≡ depth_after depth (arm_stmts (arm_before arm.old rest))) }
{
    let first = further(line, cases_rows(&arm.cases))?;
    number_lines(depth, first, &mut arm.body)?.below()
}

// Counts the lines of statements, the first of which stands in this line or after its pragma. The answer is the place
// after them.
#[cycle(number)]
fn number_lines(depth: u32, line: u32, lines: &mut [Line]) -> Result<Place, AllocError>
    ensures numbered { are_unbroken (stmts_in (lines_of lines.old)) ≡ true →
        OnOk result (lines_of lines.new ≡ numbered_lines depth line (lines_of lines.old)) }
    ensures line { are_unbroken (stmts_in (lines_of lines.old)) ≡ true →
        IfOk result (λ following. following.line ≡ line + rows (written_lines 1 depth (lines_of lines.old))) }
    ensures depth { IfOk result (λ following. following.depth ≡ depth_after depth (stmts_in (lines_of lines.old))) }
{
    let mut place = Place { line, depth };
    for i in 0..lines.len() {
        let own = own_depth(place.depth, lines, i);
        let here = after_pragma(place.depth, own, place.line)?;
        place = number_line(own, here, &mut lines[i])?;
    }
    Ok(place)
}

// Counts the lines of a statement that stands in this line. The answer is the place after it.
#[cycle(number)]
fn number_line(depth: u32, here: u32, line: &mut Line) -> Result<Place, AllocError>
    ensures here { OnOk result (line.new.line ≡ here) }
    ensures numbered { are_unbroken (stmt_of line.old.stmt ∷ inner_stmts (stmt_of line.old.stmt)) ≡ true →
        OnOk result (stmt_of line.new.stmt ≡ numbered_stmt depth here (stmt_of line.old.stmt)) }
    ensures line { are_unbroken (stmt_of line.old.stmt ∷ inner_stmts (stmt_of line.old.stmt)) ≡ true →
        IfOk result (λ following. following.line ≡ here + rows (written_stmt 1 depth (stmt_of line.old.stmt))) }
    ensures depth { IfOk result (λ following.
        following.depth ≡ depth_after depth (stmt_of line.old.stmt ∷ inner_stmts (stmt_of line.old.stmt))) }
{
    // The statement is taken out, since it is made anew from its parts.
    let stmt = mem::replace(&mut line.stmt, CStmt::Empty);
    let (stmt, following) = number_stmt(depth, here, stmt)?;
    line.stmt = stmt;
    line.line = here;
    Ok(following)
}

// Counts the lines of a function whose head stands in this line. The answer is the line after it.
fn number_function(line: u32, f: &mut Func) -> Result<u32, AllocError>
    ensures numbered { are_unbroken (stmts_in (lines_of f.old.body.items)) ≡ true →
        OnOk result (function_of f.new ≡ numbered_function line (function_of f.old)) }
    ensures line { IfOk result (λ following. following ≡ f.new.last + 1) }
{
    let first = further(further(line, 2)?, f.locals.len())?;
    f.last = number_lines(FIRST_DEPTH, first, &mut f.body)?.line;
    further(f.last, 1)
}

// Counts the lines of functions, the head of the first of which stands in this line.
fn number_functions(line: u32, functions: &mut [Func]) -> Result<(), AllocError>
    ensures { list_all (λ f. are_unbroken (stmts_in f.body)) (map function_of functions.old) ≡ true →
        OnOk result (map function_of functions.new ≡ numbered_functions line (map function_of functions.old)) }
{
    let mut next = line;
    for i in 0..functions.len() {
        next = number_function(next, &mut functions[i])?;
    }
    Ok(())
}

/// The unit with its lines counted as they stand in its written form, where no name has a line feed. A line whose
/// number has more than 32 bits is told as want of memory.
pub fn number(alloc: Global, unit: Unit) -> Result<Unit, AllocError>
    ensures { is_unbroken_tree (tree_of unit) ≡ true → IfOk result (λ r. tree_of r ≡ numbered (tree_of unit)) }
{
    let mut unit = unit;
    let line = further(3, globals_rows(alloc, &unit.globals)?)?;
    number_functions(line, &mut unit.funcs)?;
    Ok(unit)
}
