//! What passes between procedures or is at fault, and how they call each other after each pass.

use crate::programs::{cases, lifted};
use crate::texts::{check, graph_texts, locations_text};
use dcc_ir::Sums;
use dcc_localise::localise;
use dcc_pipe::prepared;
use dcc_signatures::pack;
use dcc_summaries::sums;
use std::alloc::{AllocError, Global};
use std::test::Fail;

// What each procedure takes and gives back.
fn sums_texts(alloc: Global, sums: &Sums) -> Result<Vec<String>, AllocError> {
    let mut texts = Vec::new(alloc);
    for sum in &sums.of {
        let taken = locations_text(alloc, sum.params.as_slice())?;
        let given = locations_text(alloc, sum.results.as_slice())?;
        texts.push(format!(in alloc; "takes {taken}; gives {given}")?)?;
    }
    Ok(texts)
}

// What each procedure keeps.
fn preserved_texts(alloc: Global, sums: &Sums) -> Result<Vec<String>, AllocError> {
    let mut texts = Vec::new(alloc);
    for sum in &sums.of {
        texts.push(locations_text(alloc, sum.preserved.as_slice())?)?;
    }
    Ok(texts)
}

#[test]
fn just_what_is_wanted_passes_and_as_one_value(rt: HostRuntime) -> Result<(), Fail> {
    let alloc = rt.alloc();
    for case in cases() {
        let Ok(passing) = &case.passing else {
            continue;
        };
        let p = lifted(alloc, case.code)?;
        let sums = sums(alloc, &p)?;
        let texts = sums_texts(alloc, &sums)?;
        check(&rt, texts.as_slice(), passing.sums, case.name);
        let texts = preserved_texts(alloc, &sums)?;
        check(&rt, texts.as_slice(), case.keeps, case.name);
        let localised = localise(alloc, p, &sums)?;
        let texts = graph_texts(alloc, localised.graphs.as_slice())?;
        check(&rt, texts.as_slice(), passing.localised, case.name);
        let packed = pack(alloc, localised)?;
        let texts = graph_texts(alloc, packed.graphs.as_slice())?;
        check(&rt, texts.as_slice(), passing.packed, case.name);
    }
    Ok(())
}

#[test]
fn prepared_programs_pass_what_packed_ones_do(rt: HostRuntime) -> Result<(), Fail> {
    let alloc = rt.alloc();
    for case in cases() {
        if let Ok(passing) = &case.passing {
            let p = prepared(alloc, lifted(alloc, case.code)?)?;
            let texts = graph_texts(alloc, p.graphs.as_slice())?;
            check(&rt, texts.as_slice(), passing.prepared, case.name);
        }
    }
    Ok(())
}

#[test]
fn what_is_at_fault_between_procedures_is_told(rt: HostRuntime) -> Result<(), Fail> {
    let alloc = rt.alloc();
    for case in cases() {
        let Err(expected) = &case.passing else {
            continue;
        };
        let p = lifted(alloc, case.code)?;
        let told = sums(alloc, &p).err();
        assert_eq!(rt; told, Some(*expected), "{}", case.name);
        let told = prepared(alloc, p).err();
        assert_eq!(rt; told, Some(*expected), "{}", case.name);
    }
    Ok(())
}
