//! Procedures, as their frames are told.

ghost use Rattle.std.specs.Prelude.{◌≡◌, ℕ, nat_eq, Some, IfOk, IfErr, OnOk};
ghost use Rattle.std.specs.Map.{update};
ghost use Rattle.indexmap.specs.IndexMap.{get};
ghost use Rattle.dcc_frames.specs.Body.{IsBodyOfAll, IsBodyRefusal, AreBodiesOfAll, IsBodiesRefusal, AreCounts};

use crate::arguments::arguments;
use crate::steps::{Step, steps};
use dcc_prog::{Heights, LimitName, Proc, Refusal};
use indexmap::IndexMap;
use std::alloc::{AllocError, Global};

// The greatest number of argument words.
const MOST_ARGUMENTS: u16 = 32;

/// A procedure, as its frame is told.
#[derive(Drop)]
pub struct Body {
    /// The offset of the procedure's first instruction.
    pub entry: u16,
    /// Whether the procedure begins with PUSH BP and MOV BP,SP, or with ENTER.
    pub framed: bool,
    /// The number of argument words on the stack.
    pub args: u16,
    /// The procedure's instructions, each with its height.
    pub steps: Vec<Step>,
}

impl Body {
    /// A procedure with its heights, and with what its RETs remove.
    pub fn new(
        alloc: Global,
        proc: &Proc,
        heights: &IndexMap<u16, u16>,
        removed: u16,
        is_start: bool,
    ) -> Result<Body, Refusal>
        ensures body { IfOk result (IsBodyOfAll proc.now heights.now.entries removed is_start) }
        ensures refused { IfErr result (IsBodyRefusal proc.now heights.now.entries removed is_start) }
    {
        let framed = proc.is_framed();
        let steps = steps(alloc, proc, heights)?;
        let args = arguments(is_start, framed, removed, &steps);
        if args > MOST_ARGUMENTS {
            return Err(Refusal::Limit {
                what: LimitName::Arguments,
                count: u32::from(args),
            });
        }
        Ok(Body {
            entry: proc.entry,
            framed,
            args,
            steps,
        })
    }
}

/// All procedures, of which the first is the entry procedure.
pub fn bodies(alloc: Global, procs: &[Proc], heights: &Heights) -> Result<Vec<Body>, Refusal>
    ensures bodies { IfOk result (λ bodies. AreBodiesOfAll procs.now heights.now bodies.items) }
    ensures refused { IfErr result (IsBodiesRefusal procs.now heights.now) }
{
    let mut bodies = Vec::new(alloc);
    for place in 0..procs.len().min(heights.at.len()).min(heights.ret.len()) {
        bodies.push(Body::new(
            alloc,
            &procs[place],
            &heights.at[place],
            heights.ret[place],
            place == 0,
        )?)?;
    }
    Ok(bodies)
}

// Notes the number of arguments of the procedure with that entry.
fn note(counts: &mut IndexMap<u16, u16>, entry: u16, count: u16) -> Result<(), AllocError>
    ensures { OnOk result ((other : ℕ) → get nat_eq counts.new other
        ≡ update nat_eq (λ q. get nat_eq counts.old q) entry (Some count) other) }
{
    counts.insert(entry, count)?;
    Ok(())
}

/// The number of arguments of each procedure, by its entry.
pub fn counts(alloc: Global, bodies: &[Body]) -> Result<IndexMap<u16, u16>, AllocError>
    ensures { IfOk result (λ counts. AreCounts bodies.now (λ entry. get nat_eq counts entry)) }
{
    let mut counts = IndexMap::new(alloc);
    for body in bodies {
        note(&mut counts, body.entry, body.args)?;
    }
    Ok(counts)
}
