//! The derived sequences of small graphs, their loop headers, and how the graphs are reduced.

ghost use Rattle.dcc_ir.specs.Views.{graph_of};
ghost use Rattle.dcc_ir.specs.WellFormed.{IsGraph};

use crate::graphs::bare_graph;
use dcc_flow::successors;
use dcc_interval::{Interval, Reduction, derived, loop_headers, reduced};
use dcc_ir::Graph;
use std::alloc::{AllocError, Global};
use std::process::Abort;
use std::test::Fail;

// A row is the blocks that follow a block. Then the levels of the derived sequence, with the header and the members of
// each interval, and the loop headers; then the joinings of regions, each with the region that it was joined into.
struct Case {
    next: &'static [&'static [u32]],
    entry: u32,
    levels: &'static str,
    headers: &'static str,
    joinings: &'static str,
}

const ONE_BLOCK: Case = Case {
    next: &[&[]],
    entry: 0,
    levels: "[[(0, [0])]]",
    headers: "[]",
    joinings: "[]",
};

const SELF_LOOP: Case = Case {
    next: &[&[0]],
    entry: 0,
    levels: "[[(0, [0])], [(0, [0])]]",
    headers: "[0]",
    joinings: "[]",
};

const DIAMOND: Case = Case {
    next: &[&[1, 2], &[3], &[3], &[]],
    entry: 0,
    levels: "[[(0, [0, 1, 2, 3])], [(0, [0])]]",
    headers: "[]",
    joinings: "[(2, 0), (1, 0), (3, 0)]",
};

const LOOP: Case = Case {
    next: &[&[1], &[2, 3], &[1], &[]],
    entry: 0,
    levels: "[[(0, [0]), (1, [1, 2, 3])], [(0, [0, 1])], [(0, [0])]]",
    headers: "[1]",
    joinings: "[(3, 1), (2, 1), (1, 0)]",
};

const NESTED_LOOPS: Case = Case {
    next: &[&[1], &[2], &[2, 3], &[1, 4], &[]],
    entry: 0,
    levels: "[[(0, [0]), (1, [1]), (2, [2, 3, 4])], [(0, [0]), (1, [1, 2])], [(0, [0, 1])], [(0, [0])]]",
    headers: "[2, 1]",
    joinings: "[(4, 3), (3, 2), (2, 1), (1, 0)]",
};

const TWO_ENTRY_LOOP: Case = Case {
    next: &[&[1, 2], &[2], &[1, 3], &[]],
    entry: 0,
    levels: "[[(0, [0]), (1, [1]), (2, [2, 3])], [(0, [0]), (1, [1]), (2, [2])]]",
    headers: "[]",
    joinings: "[(3, 2)]",
};

const TWO_ENTRY_LOOP_IN_A_LOOP: Case = Case {
    next: &[&[1], &[2, 3], &[3, 1], &[2]],
    entry: 0,
    levels: "[[(0, [0]), (1, [1]), (2, [2]), (3, [3])]]",
    headers: "[]",
    joinings: "[]",
};

const LOOP_THROUGH_ENTRY: Case = Case {
    next: &[&[2, 1], &[0], &[1], &[1]],
    entry: 0,
    levels: "[[(0, [0, 2, 1])], [(0, [0])]]",
    headers: "[0]",
    joinings: "[(2, 0), (1, 0)]",
};

const ENTERED_IN_THE_MIDDLE: Case = Case {
    next: &[&[1], &[0, 2], &[]],
    entry: 1,
    levels: "[[(1, [1, 0, 2])], [(0, [0])]]",
    headers: "[1]",
    joinings: "[(2, 1), (0, 1)]",
};

const SWITCH_WITH_REPEATS: Case = Case {
    next: &[&[2, 1, 2, 2], &[3], &[3, 3], &[]],
    entry: 0,
    levels: "[[(0, [0, 2, 1, 3])], [(0, [0])]]",
    headers: "[]",
    joinings: "[(1, 0), (2, 0), (3, 0)]",
};

const CASES: [(&str, Case); 10] = [
    ("one block", ONE_BLOCK),
    ("self loop", SELF_LOOP),
    ("diamond", DIAMOND),
    ("loop", LOOP),
    ("nested loops", NESTED_LOOPS),
    ("two-entry loop", TWO_ENTRY_LOOP),
    ("two-entry loop in a loop", TWO_ENTRY_LOOP_IN_A_LOOP),
    ("loop through the entry", LOOP_THROUGH_ENTRY),
    ("entered in the middle", ENTERED_IN_THE_MIDDLE),
    ("switch with repeats", SWITCH_WITH_REPEATS),
];

// The header and the members of each interval.
fn pairs(alloc: Global, level: &Vec<Interval>) -> Result<Vec<(u32, Vec<u32>)>, AllocError> {
    let mut pairs = Vec::new(alloc);
    for interval in level {
        pairs.push((interval.header, interval.members.clone()?))?;
    }
    Ok(pairs)
}

// The levels of a graph's derived sequence, and its loop headers.
fn found(
    rt: &impl Abort,
    alloc: Global,
    graph: &Graph,
    entry: u32,
) -> Result<(String, String), AllocError>
    requires { IsGraph (graph_of graph.now) }
{
    let next = successors(alloc, graph)?;
    assert!(rt; (entry as usize) < next.len());
    let sequence = derived(alloc, &next, entry)?;
    let mut levels = Vec::new(alloc);
    for level in &sequence.levels {
        levels.push(pairs(alloc, level)?)?;
    }
    let headers = loop_headers(alloc, &next, &sequence)?;
    Ok((
        format!(in alloc; "{levels:?}")?,
        format!(in alloc; "{headers:?}")?,
    ))
}

#[test]
fn derived_sequences(rt: HostRuntime) -> Result<(), Fail> {
    let alloc = rt.alloc();
    for (name, case) in &CASES {
        let graph = bare_graph(&rt, alloc, case.next)?;
        let (levels, headers) = found(&rt, alloc, &graph, case.entry)?;
        assert_eq!(rt; levels.as_str(), case.levels, "{name}");
        assert_eq!(rt; headers.as_str(), case.headers, "{name}");
    }
    Ok(())
}

// The joinings of a graph that is reduced, each with the region that it was joined into.
fn joinings(alloc: Global, reduction: &Reduction) -> Result<String, AllocError> {
    let mut pairs = Vec::new(alloc);
    for joining in &reduction.joinings {
        pairs.push((joining.region, joining.into))?;
    }
    format!(in alloc; "{pairs:?}")
}

// How a graph is reduced.
fn reduction(
    rt: &impl Abort,
    alloc: Global,
    graph: &Graph,
    entry: u32,
) -> Result<Reduction, AllocError>
    requires { IsGraph (graph_of graph.now) }
{
    let next = successors(alloc, graph)?;
    assert!(rt; (entry as usize) < next.len());
    reduced(alloc, &next, entry)
}

#[test]
fn reductions(rt: HostRuntime) -> Result<(), Fail> {
    let alloc = rt.alloc();
    for (name, case) in &CASES {
        let graph = bare_graph(&rt, alloc, case.next)?;
        let reduction = reduction(&rt, alloc, &graph, case.entry)?;
        let found = joinings(alloc, &reduction)?;
        assert_eq!(rt; found.as_str(), case.joinings, "{name}");
    }
    Ok(())
}
