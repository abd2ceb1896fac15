//! The nodes that the search has seen, with their successors.

ghost use Rattle.std.specs.Prelude.{◌≡◌, ◌<◌, nat_eq, AllPairs, IfOk, OnOk};
ghost use Rattle.dcc_machine.specs.MzImage.{IsLoaded};
ghost use Rattle.dcc_prog.specs.Layout.{HasLayout};
ghost use Rattle.dcc_prog.specs.Found.{IsFound};
ghost use Rattle.indexmap.specs.IndexMap.{insert_entry};
ghost use Rattle.dcc_procs.specs.Search.{AreAllSeen, IsListing};
ghost use Rattle.dcc_procs.specs.Nodes.{number_by, HasInstruction, IsNodeBy};

use crate::code::instruction_in;
use crate::known::Known;
use crate::onward::successors;
use dcc_machine::{Image, Op};
use dcc_prog::{Layout, Node, Proc};
use indexmap::IndexMap;
use std::alloc::{AllocError, Global};

// The number of a DOS call, by what is known before it.
fn number_by(op: Op, known: Known) -> Option<u8>
    ensures { result ≡ number_by op known }
{
    match op {
        Op::Int21 => known.ah,
        _ => None,
    }
}

// The node at an offset, before which this is known.
fn node_at(
    alloc: Global,
    image: &Image,
    layout: &Layout,
    at: u16,
    known: Known,
) -> Result<Node, AllocError>
    requires loaded { IsLoaded image.now }
    requires layout { HasLayout image.now layout.now }
    requires stands { HasInstruction image.now layout.now at }
    ensures { IfOk result (IsNodeBy image.now layout.now at known) }
{
    let Some(instr) = instruction_in(image, layout, at) else {
        unreachable!();
    };
    Ok(Node {
        instr,
        succ: successors(alloc, image, at, instr, known)?,
        number: number_by(instr.op, known),
    })
}

// Puts a node at its offset.
fn add(nodes: &mut IndexMap<u16, Node>, at: u16, node: Node) -> Result<(), AllocError>
    ensures { OnOk result (nodes.new.entries ≡ insert_entry nat_eq nodes.old.entries at node) }
{
    nodes.insert(at, node)?;
    Ok(())
}

/// The procedure with that entry, of which this was seen at these offsets, which ascend.
pub fn collect(
    alloc: Global,
    image: &Image,
    layout: &Layout,
    entry: u16,
    seen: &[Option<Known>],
    offsets: &[u16],
) -> Result<Proc, AllocError>
    requires loaded { IsLoaded image.now }
    requires layout { HasLayout image.now layout.now }
    requires seen { AreAllSeen image.now layout.now entry seen.now }
    requires listing { IsListing seen.now offsets.now }
    requires ascending { AllPairs (λ a b. a < b) offsets.now }
    ensures { IfOk result (λ proc. (proc.entry ≡ entry) × IsFound image.now layout.now proc) }
{
    let mut nodes = IndexMap::new(alloc);
    for place in 0..offsets.len() {
        let at = offsets[place];
        let Some(known) = seen[usize::from(at)] else {
            unreachable!();
        };
        let node = node_at(alloc, image, layout, at, known)?;
        add(&mut nodes, at, node)?;
    }
    Ok(Proc { entry, nodes })
}
