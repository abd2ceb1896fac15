//! The orders of the blocks of small graphs, and places that are used before they are written.

ghost use Rattle.std.specs.Prelude.{◌≡◌, ◌<◌, length, IfOk};
ghost use Rattle.dcc_ir.specs.Views.{graph_of};
ghost use Rattle.dcc_ir.specs.WellFormed.{IsGraph};
ghost use Rattle.dcc_flow.specs.Uses.{AreLists};

use crate::graphs::bare_graph;
use dcc_flow::{Bits, Steps, order, preds, solve, successors};
use dcc_ir::Graph;
use std::alloc::{AllocError, Global};
use std::marker::Brand;
use std::process::Abort;
use std::sync::ledger::{Blank, Ledger};
use std::test::Fail;

// A row is a block: the blocks that follow it, the places that it uses and those that it writes. Then its predecessors,
// the order of the blocks, and the places that are used after each.
struct Case {
    next: &'static [&'static [u32]],
    used: &'static [&'static [usize]],
    written: &'static [&'static [usize]],
    preds: &'static str,
    order: &'static str,
    after: &'static str,
}

// How many places there are: more than two words have.
const PLACES: usize = 130;

const ONE_BLOCK: Case = Case {
    next: &[&[]],
    used: &[&[0]],
    written: &[&[]],
    preds: "[[]]",
    order: "[0]",
    after: "[[]]",
};

const LINE: Case = Case {
    next: &[&[1], &[2], &[3], &[]],
    used: &[&[], &[64], &[], &[63, 64]],
    written: &[&[63, 64], &[63], &[], &[]],
    preds: "[[], [0], [1], [2]]",
    order: "[0, 1, 2, 3]",
    after: "[[64], [63, 64], [63, 64], []]",
};

const DIAMOND: Case = Case {
    next: &[&[1, 2], &[3], &[3], &[]],
    used: &[&[], &[1], &[], &[0]],
    written: &[&[], &[0], &[], &[]],
    preds: "[[], [0], [0], [1, 2]]",
    order: "[0, 2, 1, 3]",
    after: "[[0, 1], [0], [0], []]",
};

const LOOP: Case = Case {
    next: &[&[1], &[2, 3], &[1], &[]],
    used: &[&[], &[129], &[1], &[0]],
    written: &[&[0, 1], &[], &[129], &[]],
    preds: "[[], [0, 2], [1], [1]]",
    order: "[0, 1, 3, 2]",
    after: "[[0, 1, 129], [0, 1], [0, 1, 129], []]",
};

const TWO_ENTRY_LOOP: Case = Case {
    next: &[&[1, 2], &[2], &[1, 3], &[]],
    used: &[&[], &[1], &[2], &[0]],
    written: &[&[], &[2], &[1], &[]],
    preds: "[[], [0, 2], [0, 1], [2]]",
    order: "[0, 1, 2, 3]",
    after: "[[0, 1, 2], [0, 2], [0, 1], []]",
};

const LOOP_THROUGH_ENTRY: Case = Case {
    next: &[&[2, 1], &[0], &[1], &[1]],
    used: &[&[1], &[0], &[], &[]],
    written: &[&[0], &[1], &[0], &[]],
    preds: "[[1], [0, 2, 3], [0], []]",
    order: "[0, 2, 1]",
    after: "[[0], [1], [0], [0]]",
};

const UNREACHABLE: Case = Case {
    next: &[&[1], &[], &[1], &[2]],
    used: &[&[], &[127], &[128], &[]],
    written: &[&[], &[], &[], &[]],
    preds: "[[], [0, 2], [3], []]",
    order: "[0, 1]",
    after: "[[127], [], [127], [127, 128]]",
};

const SELF_LOOPS: Case = Case {
    next: &[&[0, 1], &[1]],
    used: &[&[0], &[1]],
    written: &[&[1], &[]],
    preds: "[[0], [0, 1]]",
    order: "[0, 1]",
    after: "[[0, 1], [1]]",
};

const SWITCH_WITH_REPEATS: Case = Case {
    next: &[&[2, 1, 2, 2], &[3], &[3, 3], &[]],
    used: &[&[], &[0], &[1], &[2]],
    written: &[&[], &[2], &[2], &[]],
    preds: "[[], [0], [0], [1, 2]]",
    order: "[0, 1, 2, 3]",
    after: "[[0, 1], [2], [2], []]",
};

const CASES: [(&str, Case); 9] = [
    ("one block", ONE_BLOCK),
    ("line", LINE),
    ("diamond", DIAMOND),
    ("loop", LOOP),
    ("two-entry loop", TWO_ENTRY_LOOP),
    ("loop through the entry", LOOP_THROUGH_ENTRY),
    ("unreachable blocks", UNREACHABLE),
    ("self loops", SELF_LOOPS),
    ("switch with repeats", SWITCH_WITH_REPEATS),
];

#[test]
fn edges_and_order(rt: HostRuntime) -> Result<(), Fail> {
    let alloc = rt.alloc();
    for (name, case) in &CASES {
        let graph = bare_graph(&rt, alloc, case.next)?;
        let next = successors(alloc, &graph)?;
        assert_eq!(rt;
            format!(in alloc; "{next:?}")?,
            format!(in alloc; "{:?}", case.next)?,
            "{name}"
        );
        let before = preds(alloc, &graph)?;
        assert_eq!(rt;
            format!(in alloc; "{before:?}")?.as_str(),
            case.preds,
            "{name}"
        );
        let blocks = order(alloc, &graph)?;
        assert_eq!(rt;
            format!(in alloc; "{blocks:?}")?.as_str(),
            case.order,
            "{name}"
        );
    }
    Ok(())
}

// A list that holds true at these places alone.
fn bits<L: Ledger>(
    rt: &impl Abort,
    alloc: Global,
    len: usize,
    places: &[usize],
    steps: &mut Steps<L>,
) -> Result<Bits, AllocError>
    ensures { IfOk result (λ bits. length bits ≡ len) }
{
    let mut bits = Bits::new(alloc, len)?;
    for place in places {
        assert!(rt; *place < len);
        bits.set(*place, steps);
    }
    Ok(bits)
}

// A list for each row.
fn lists<L: Ledger>(
    rt: &impl Abort,
    alloc: Global,
    len: usize,
    rows: &[&[usize]],
    steps: &mut Steps<L>,
) -> Result<Vec<Bits>, AllocError>
    ensures { IfOk result (λ lists. AreLists (length rows.now) len lists.items) }
{
    let mut lists = Vec::new(alloc);
    for row in rows {
        lists.push(bits(rt, alloc, len, row, steps)?)?;
    }
    Ok(lists)
}

// The places that hold true.
fn places(alloc: Global, bits: &Bits, len: usize) -> Result<Vec<usize>, AllocError>
    requires { length bits.now ≡ len }
{
    let mut places = Vec::new(alloc);
    for place in 0..len {
        if bits.get(place) {
            places.push(place)?;
        }
    }
    Ok(places)
}

// The places that are used after each block.
fn places_after<L: Ledger>(
    rt: &impl Abort,
    alloc: Global,
    blank: Blank,
    graph: &Graph,
    case: &Case,
) -> Result<Vec<Vec<usize>>, AllocError>
    requires graph { IsGraph (graph_of graph.now) }
    requires name { blank.name ≡ L.name }
    requires parts { blank.parts ≡ L.parts }
    requires some { 0 < blank.parts }
{
    let mut steps = Steps::<L>::new(blank);
    let next = successors(alloc, graph)?;
    let used = lists(rt, alloc, PLACES, case.used, &mut steps)?;
    let written = lists(rt, alloc, PLACES, case.written, &mut steps)?;
    assert!(rt; used.len() == next.len() && written.len() == next.len());
    let mut after = Vec::new(alloc);
    for bits in &solve(alloc, &next, &used, &written, PLACES, &mut steps)? {
        after.push(places(alloc, bits, PLACES)?)?;
    }
    Ok(after)
}

#[test]
fn places_flow(rt: HostRuntime) -> Result<(), Fail> {
    let alloc = rt.alloc();
    for (name, case) in &CASES {
        let graph = bare_graph(&rt, alloc, case.next)?;
        let after = places_after::<Brand>(&rt, alloc, Blank::new(1), &graph, case)?;
        assert_eq!(rt;
            format!(in alloc; "{after:?}")?.as_str(),
            case.after,
            "{name}"
        );
    }
    Ok(())
}
