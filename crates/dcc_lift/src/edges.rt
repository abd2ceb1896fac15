//! From where edges lead to each instruction.

ghost use Rattle.std.specs.Prelude.{◌≡◌, ℕ, List, ◌++◌, ◌==◌, [], ◌∷◌, length, map, filter, get_or, IfOk};
ghost use Rattle.dcc_lift.specs.Incoming.{incoming_of, AreIncoming};

use dcc_prog::Node;
use indexmap::IndexMap;
use std::alloc::{AllocError, Global};

/// The number of offsets in a segment, each of which has a byte.
pub const OFFSETS: usize = 65536;

/// The edges to an offset.
#[derive(Clone, Copy)]
pub enum Incoming {
    /// No edge leads there.
    Nowhere,
    /// One edge leads there, from that offset.
    From(u16),
    /// Several edges lead there.
    Several,
}

impl Incoming {
    // The edges to an offset with one more.
    fn with(self, from: u16) -> Incoming
        ensures { (edges : List ℕ) → self ≡ incoming_of edges → result ≡ incoming_of (edges ++ from ∷ []) }
    {
        match self {
            Incoming::Nowhere => Incoming::From(from),
            _ => Incoming::Several,
        }
    }
}

// Notes the edges from one offset.
fn note(table: &mut [Incoming], from: u16, successors: &[u16])
    requires { length table.old ≡ 65536 }
    ensures { (to : ℕ) (edges : List ℕ) → get_or table.old to Incoming.Nowhere ≡ incoming_of edges
        → get_or table.new to Incoming.Nowhere
        ≡ incoming_of (edges ++ map (λ _. from) (filter (λ next. next == to) successors.now)) }
{
    for to in successors {
        let place = usize::from(*to);
        table[place] = table[place].with(from);
    }
}

/// The edges to each offset of a segment.
pub(crate) fn edges_of(
    alloc: Global,
    nodes: &IndexMap<u16, Node>,
) -> Result<Vec<Incoming>, AllocError>
    ensures { IfOk result (λ table. AreIncoming nodes.now.entries table.items) }
{
    let mut table = vec![in alloc; Incoming::Nowhere; OFFSETS]?;
    for (from, node) in nodes.iter() {
        note(&mut table, *from, node.succ.as_slice());
    }
    Ok(table)
}
