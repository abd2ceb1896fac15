//! Whether a text has the shape that its program's procedures ask for.

ghost use Rattle.std.specs.Prelude.{◌≡◌, ◌↔◌, ℕ, ◌||◌, not, nat_lt, true, Some, None, length, map};
ghost use Rattle.std.specs.Prelude.{IfOk};
ghost use Rattle.std.specs.List.{list_all, zip};
ghost use Rattle.dcc_c.specs.Views.{stmt_of, lines_of, function_of};
ghost use Rattle.dcc_shape.specs.Procedures.{flow_of};
ghost use Rattle.dcc_shape.specs.Spots.{has_blocks};
ghost use Rattle.dcc_shape.specs.Carried.{UsesAddressesAlone};
ghost use Rattle.dcc_shape.specs.Shape.{HasShapeOf, IsShapedFor, HaveShape, LacksShape};
ghost use Rattle.dcc_shape.specs.Asked.{is_shallow, are_looped, is_as_asked};

use crate::asked::{Asked, asked_by};
use crate::carried::uses_addresses_alone;
use crate::counts::{is_at_most, is_counted};
use crate::jumps::{go_on_or_round, go_where_edges_meet, leave_innermost_alone};
use crate::loops::are_labelled;
use crate::seen::{Seen, statements};
use crate::stmts::has_blocks;
use dcc_c::{Func, Line};
use dcc_prog::{Frame, Proc};
use std::alloc::{AllocError, Global};

// From so many branches and loop headers on a text may be too deep for what is asked of jumps and loops.
const MANY: usize = 190;

// Whether no statement has so many blocks around it that one more would be too deep.
fn have_room(list: &[Seen]) -> bool
    ensures { result ≡ list_all (λ s. not (has_blocks (stmt_of s.stmt.now)) || nat_lt 0 s.room) list.now }
{
    list.iter()
        .all(|seen| !has_blocks(seen.stmt) || seen.room > 0)
}

// Whether something is asked of jumps and loops.
fn is_shallow(asked: &Asked, list: &[Seen]) -> bool
    ensures { result ≡ is_shallow asked.now list.now }
{
    !is_at_most(MANY, asked.branches, asked.heads.len()) || have_room(list)
}

// Whether jumps and loops are as they are asked.
fn has_loops(alloc: Global, asked: &Asked, list: &[Seen]) -> Result<bool, AllocError>
    ensures { IfOk result (λ yes. yes ≡ are_looped asked.now list.now) }
{
    let meet = go_where_edges_meet(alloc, asked, list)?;
    if !meet || !leave_innermost_alone(list) {
        return Ok(false);
    }
    if asked.ends_in_one {
        if !go_on_or_round(alloc, list)? {
            return Ok(false);
        }
    }
    are_labelled(alloc, asked.heads.as_slice(), list)
}

// Whether all is as it is asked.
fn is_as_asked(alloc: Global, asked: &Asked, list: &[Seen]) -> Result<bool, AllocError>
    ensures { IfOk result (λ yes. yes ≡ is_as_asked asked.now list.now) }
{
    if !is_counted(asked, list) {
        return Ok(false);
    }
    if !is_shallow(asked, list) {
        return Ok(true);
    }
    has_loops(alloc, asked, list)
}

// Whether the body of a function has the shape that a procedure asks for.
fn has_shape_of(alloc: Global, proc: &Proc, body: &[Line]) -> Result<bool, AllocError>
    ensures { IfOk result (λ yes. (yes ≡ true) ↔ HasShapeOf (flow_of proc.now) (lines_of body.now)) }
{
    let asked = asked_by(alloc, proc)?;
    let list = statements(alloc, body)?;
    is_as_asked(alloc, &asked, list.as_slice())
}

// Whether nothing of the `auto` variables of a function is used but the addresses, where the frame has no local bytes.
fn has_addresses_of(alloc: Global, frame: &Frame, function: &Func) -> Result<bool, AllocError>
    ensures { IfOk result (λ yes. (yes ≡ true)
        ↔ (frame.now.exposed.local ≡ 0 → UsesAddressesAlone (function_of function.now))) }
{
    if frame.exposed.local > 0 {
        return Ok(true);
    }
    uses_addresses_alone(alloc, function)
}

// Whether a function has the shape that a procedure with this frame asks for.
fn is_shaped_for(
    alloc: Global,
    proc: &Proc,
    frame: &Frame,
    function: &Func,
) -> Result<bool, AllocError>
    ensures { IfOk result (λ yes. (yes ≡ true) ↔ IsShapedFor proc.now frame.now (function_of function.now)) }
{
    if !has_shape_of(alloc, proc, &function.body)? {
        return Ok(false);
    }
    has_addresses_of(alloc, frame, function)
}

/// Of how many procedures with their frames, from the first on, the functions have the shape that is asked for, where
/// not all have it or there is not a function for each procedure; none where there is, and all have it.
///
/// # Errors
/// Where memory runs out.
pub fn has_shape(
    alloc: Global,
    procs: &[Proc],
    frames: &[Frame],
    functions: &[Func],
) -> Result<Option<usize>, AllocError>
    requires { length procs.now ≡ length frames.now }
    ensures has { IfOk result (λ lacks. lacks ≡ None
        → HaveShape (zip procs.now frames.now) (map function_of functions.now)) }
    ensures lacks { IfOk result (λ lacks. (i : ℕ) → lacks ≡ Some i
        → LacksShape i (zip procs.now frames.now) (map function_of functions.now)) }
{
    let count = procs.len().min(functions.len());
    for i in 0..count {
        if !is_shaped_for(alloc, &procs[i], &frames[i], &functions[i])? {
            return Ok(Some(i));
        }
    }
    if procs.len() == functions.len() {
        Ok(None)
    } else {
        Ok(Some(count))
    }
}
