//! The heights of the stack in all procedures.

ghost use Rattle.std.specs.Prelude.{IfOk, IfErr};
ghost use Rattle.dcc_heights.specs.Search.{AreHeightsBy, HasFault};
ghost use Rattle.dcc_heights.specs.Heights.{AreHeightsOfAll, IsRefusalOfAll};

use crate::ordered::ordered;
use crate::removed::sizes_of;
use crate::search::search;
use dcc_prog::{Heights, Proc, Refusal};
use indexmap::IndexMap;
use std::alloc::Global;

// The heights of a procedure, in the order of its nodes.
fn heights_of(
    alloc: Global,
    proc: &Proc,
    removed: &IndexMap<u16, u16>,
) -> Result<IndexMap<u16, u16>, Refusal>
    ensures found { IfOk result (λ heights. AreHeightsBy removed.now.entries proc.now heights.entries) }
    ensures refused { IfErr result (HasFault removed.now.entries proc.now) }
{
    let framed = proc.is_framed();
    let found = search(alloc, proc, framed, removed)?;
    Ok(ordered(alloc, &proc.nodes, &found)?)
}

/// The heights of the stack in the procedures that `find` gives: for each procedure how many bytes SP lies below its
/// value at the procedure's entry, at each of its instructions in their order, and how many bytes its RETs remove, 0
/// where it has none.
///
/// A program is refused for a construct of the kinds 2 and 6 that rests on a height, which then stands at the named
/// offset. Where the answer is Ok, none stands anywhere.
pub fn heights(alloc: Global, procs: &Vec<Proc>) -> Result<Heights, Refusal>
    ensures heights { IfOk result (AreHeightsOfAll procs.now.items) }
    ensures refused { IfErr result (IsRefusalOfAll procs.now.items) }
{
    let sizes = sizes_of(alloc, procs)?;
    let mut at = Vec::new(alloc);
    for proc in procs.iter() {
        at.push(heights_of(alloc, proc, &sizes.by_entry)?)?;
    }
    Ok(Heights {
        at,
        ret: sizes.in_order,
    })
}
