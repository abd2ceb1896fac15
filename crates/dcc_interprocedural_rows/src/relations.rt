//! What each procedure keeps, and what is wanted before its blocks.

use crate::programs::{cases, lifted};
use crate::texts::{check, joined, location_text, locations_text};
use dcc_ir::{Graph, Loc, PASSED_LOCATIONS};
use dcc_modref::{changed, changes, is_among, passes};
use dcc_num::{FlagName, Half, Reg};
use dcc_summaries::{Point, Wants, wanted};
use std::alloc::{AllocError, Global};
use std::test::Fail;

// The locations that the procedure of that entry doesn't change, where for each that passes it is told which do.
fn kept(alloc: Global, changes: &[Vec<bool>], entry: u16) -> Result<String, AllocError> {
    let mut locations = Vec::new(alloc);
    for (location, changed) in PASSED_LOCATIONS.iter().zip(changes) {
        if changed.get(entry as usize) == Some(&false) {
            locations.push(*location)?;
        }
    }
    locations_text(alloc, locations.as_slice())
}

#[test]
fn what_each_procedure_keeps(rt: HostRuntime) -> Result<(), Fail> {
    let alloc = rt.alloc();
    for case in cases() {
        let p = lifted(alloc, case.code)?;
        let lists = changes(alloc, &p)?;
        let mut texts = Vec::new(alloc);
        for graph in &p.graphs {
            texts.push(kept(alloc, lists.as_slice(), graph.entry)?)?;
        }
        check(&rt, texts.as_slice(), case.keeps, case.name);
    }
    Ok(())
}

#[test]
fn which_procedures_change_a_location(rt: HostRuntime) -> Result<(), Fail> {
    let alloc = rt.alloc();
    for case in cases() {
        let p = lifted(alloc, case.code)?;
        for location in [Loc::Half(Reg::Bx, Half::Low), Loc::Flag(FlagName::Zf)] {
            assert!(rt; passes(location));
            let entries = changed(alloc, &p, location)?;
            let text = location_text(alloc, location)?;
            assert_eq!(rt; p.graphs.len(), case.keeps.len());
            for (graph, keeps) in p.graphs.iter().zip(case.keeps) {
                let is_kept = keeps.split(' ').any(|kept| kept == text.as_str());
                let told = entries.get(graph.entry as usize).copied();
                assert_eq!(rt; told, Some(!is_kept), "{}: {text}", case.name);
            }
        }
    }
    Ok(())
}

// How many cells of a frame are looked at: more than any has.
const CELLS: u16 = 4;

// Which of the halves, the flags and the cells of a frame are among these, in that order.
fn ordered(alloc: Global, found: &[Loc]) -> Result<Vec<Loc>, AllocError> {
    let mut all = PASSED_LOCATIONS.to_vec(alloc)?;
    for number in 0..CELLS {
        all.push(Loc::Cell(number, Half::Low))?;
        all.push(Loc::Cell(number, Half::High))?;
    }
    let mut locations = Vec::new(alloc);
    for location in &all {
        if is_among(found, *location) {
            locations.push(*location)?;
        }
    }
    Ok(locations)
}

// What is wanted before each block of the graph at that place, by the block's address, but for a prelude.
fn wanted_text(
    alloc: Global,
    wants: &Wants,
    place: usize,
    graph: &Graph,
) -> Result<String, AllocError> {
    let mut texts = Vec::new(alloc);
    for (block, first) in graph.blocks.iter().enumerate() {
        let at = Point {
            graph: place,
            block,
            done: 0,
        };
        if place > 0 || block > 0 {
            let locations = ordered(alloc, wants.before(at))?;
            let locations = locations_text(alloc, locations.as_slice())?;
            texts.push(format!(in alloc; "{:04x} {locations}", first.at)?)?;
        }
    }
    joined(alloc, texts.as_slice(), "; ")
}

#[test]
fn what_is_wanted_before_each_block(rt: HostRuntime) -> Result<(), Fail> {
    let alloc = rt.alloc();
    for case in cases() {
        let p = lifted(alloc, case.code)?;
        let wants = wanted(alloc, &p)?;
        let mut texts = Vec::new(alloc);
        for (place, graph) in p.graphs.iter().enumerate() {
            texts.push(wanted_text(alloc, &wants, place, graph)?)?;
        }
        check(&rt, texts.as_slice(), case.wanted, case.name);
    }
    Ok(())
}
