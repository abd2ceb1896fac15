//! What the RETs of procedures remove.

ghost use Rattle.std.specs.Prelude.{IfOk, IfErr};
ghost use Rattle.dcc_heights.specs.Removed.{IsSize, HasTwoSizes, AreSizes, IsSizeFault};

use dcc_machine::Op;
use dcc_prog::{ConstructKind, Proc, Refusal};
use indexmap::IndexMap;
use std::alloc::Global;

/// How many bytes the RETs of each procedure remove: 0 where it has none.
#[derive(Drop)]
pub struct Sizes {
    /// The sizes in the order of the procedures.
    pub in_order: Vec<u16>,
    /// The sizes by the procedures' entries.
    pub by_entry: IndexMap<u16, u16>,
}

// How many bytes the RETs of a procedure remove.
fn size_of(proc: &Proc) -> Result<u16, Refusal>
    ensures size { IfOk result (IsSize proc.now.nodes.entries) }
    ensures refused { IfErr result (HasTwoSizes proc.now.nodes.entries) }
{
    let mut size = None;
    for (at, node) in proc.nodes.iter() {
        let Op::Ret(bytes) = node.instr.op else {
            continue;
        };
        match size {
            Some(known) if known != bytes => {
                return Err(Refusal::Construct {
                    kind: ConstructKind::StackHeight,
                    at: *at,
                });
            }
            _ => size = Some(bytes),
        }
    }
    Ok(size.unwrap_or(0))
}

/// How many bytes the RETs of each procedure remove; refused where two of a procedure remove different sizes.
pub fn sizes_of(alloc: Global, procs: &[Proc]) -> Result<Sizes, Refusal>
    ensures sizes { IfOk result (λ sizes. AreSizes procs.now sizes.in_order.items sizes.by_entry.entries) }
    ensures refused { IfErr result (IsSizeFault procs.now) }
{
    let mut in_order = Vec::new(alloc);
    let mut by_entry = IndexMap::new(alloc);
    for proc in procs {
        let size = size_of(proc)?;
        in_order.push(size)?;
        by_entry.insert(proc.entry, size)?;
    }
    Ok(Sizes { in_order, by_entry })
}
