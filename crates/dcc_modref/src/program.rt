//! What the procedures of a program change.

ghost use Rattle.std.specs.Prelude.{◌≡◌, ◌<◌, true, map, length, IfOk, OnOk};
ghost use Rattle.dcc_ir.specs.Views.{program_of};
ghost use Rattle.dcc_ir.specs.WellFormed.{IsProgram};
ghost use Rattle.dcc_sums.specs.Instance.{passes};
ghost use Rattle.dcc_modref.specs.Programs.{TellsJust, AreChanges, AreTelling, HasLooked};

use crate::calls::Calls;
use crate::graph::loses;
use crate::state::Subject;
use dcc_ir::{IrProgram, Loc, PASSED_LOCATIONS};
use std::alloc::{AllocError, Global};

// The graph at that place is looked at, if its procedure isn't told of. The answer is whether it loses the location.
fn look(
    alloc: Global,
    p: &IrProgram,
    changed: &mut Vec<bool>,
    at: usize,
    location: Loc,
) -> Result<bool, AllocError>
    requires program { IsProgram (program_of p.now) }
    requires passes { passes location ≡ true }
    requires at { at < length p.now.graphs.items }
    requires telling { AreTelling (program_of p.now) location changed.old.items }
    ensures telling { OnOk result (AreTelling (program_of p.now) location changed.new.items) }
    ensures looked { IfOk result (λ new. HasLooked (program_of p.now) location changed.old.items changed.new.items new
        (λ place. place ≡ at)) }
{
    let graph = &p.graphs[at];
    let entry = graph.entry as usize;
    if changed[entry] {
        return Ok(false);
    }
    let subject = Subject {
        changed: changed.as_slice(),
        graph,
        location,
    };
    let lost = loses(alloc, &subject)?;
    if lost {
        changed[entry] = true;
    }
    Ok(lost)
}

// Each graph is looked at. The answer is whether a further one loses the location.
fn look_round(
    alloc: Global,
    p: &IrProgram,
    changed: &mut Vec<bool>,
    location: Loc,
) -> Result<bool, AllocError>
    requires program { IsProgram (program_of p.now) }
    requires passes { passes location ≡ true }
    requires telling { AreTelling (program_of p.now) location changed.old.items }
    ensures telling { OnOk result (AreTelling (program_of p.now) location changed.new.items) }
    ensures looked { IfOk result (λ new. HasLooked (program_of p.now) location changed.old.items changed.new.items new
        (λ place. place < length p.now.graphs.items)) }
{
    let mut new = false;
    for at in 0..p.graphs.len() {
        new |= look(alloc, p, changed, at, location)?;
    }
    Ok(new)
}

// A graph that waited is looked at. Those that call its procedure wait if that changes the location.
fn look_again(
    alloc: Global,
    p: &IrProgram,
    changed: &mut Vec<bool>,
    at: usize,
    location: Loc,
    calls: &mut Calls,
) -> Result<bool, AllocError>
    requires program { IsProgram (program_of p.now) }
    requires passes { passes location ≡ true }
    requires telling { AreTelling (program_of p.now) location changed.old.items }
    ensures telling { OnOk result (AreTelling (program_of p.now) location changed.new.items) }
    ensures looked { IfOk result (λ new. HasLooked (program_of p.now) location changed.old.items changed.new.items new
        (λ place. ⊥)) }
{
    calls.waiting.begin(at);
    if at >= p.graphs.len() {
        return Ok(false);
    }
    let new = look(alloc, p, changed, at, location)?;
    if new {
        calls.add_callers(p.graphs[at].entry)?;
    }
    Ok(new)
}

// These graphs are looked at. The answer is whether a further one loses the location.
fn looks(
    alloc: Global,
    p: &IrProgram,
    changed: &mut Vec<bool>,
    places: &[usize],
    location: Loc,
    calls: &mut Calls,
) -> Result<bool, AllocError>
    requires program { IsProgram (program_of p.now) }
    requires passes { passes location ≡ true }
    requires telling { AreTelling (program_of p.now) location changed.old.items }
    ensures telling { OnOk result (AreTelling (program_of p.now) location changed.new.items) }
    ensures looked { IfOk result (λ new. HasLooked (program_of p.now) location changed.old.items changed.new.items new
        (λ place. ⊥)) }
{
    let mut new = false;
    for at in places {
        new |= look_again(alloc, p, changed, *at, location, calls)?;
    }
    Ok(new)
}

// Graphs are looked at until none waits, all of them at first.
fn spread(
    alloc: Global,
    p: &IrProgram,
    changed: &mut Vec<bool>,
    location: Loc,
    calls: &mut Calls,
) -> Result<(), AllocError>
    requires program { IsProgram (program_of p.now) }
    requires passes { passes location ≡ true }
    requires telling { AreTelling (program_of p.now) location changed.old.items }
    ensures { OnOk result (AreTelling (program_of p.now) location changed.new.items) }
{
    let mut places = Vec::new(alloc);
    for at in 0..p.graphs.len() {
        places.push(at)?;
    }
    while looks(alloc, p, changed, places.as_slice(), location, calls)? {
        places = calls.waiting.take(alloc);
    }
    Ok(())
}

// Whether the procedure of each entry changes the location, where these are the calls.
fn changed_by(
    alloc: Global,
    p: &IrProgram,
    location: Loc,
    calls: &mut Calls,
) -> Result<Vec<bool>, AllocError>
    requires program { IsProgram (program_of p.now) }
    requires passes { passes location ≡ true }
    ensures { IfOk result (λ changed. TellsJust (program_of p.now) location changed.items) }
{
    let mut changed = vec![in alloc; false; 0x10000]?;
    spread(alloc, p, &mut changed, location, calls)?;
    while look_round(alloc, p, &mut changed, location)? {}
    Ok(changed)
}

/// Whether the procedure of each entry changes the location, which passes between procedures.
pub fn changed(alloc: Global, p: &IrProgram, location: Loc) -> Result<Vec<bool>, AllocError>
    requires program { IsProgram (program_of p.now) }
    requires passes { passes location ≡ true }
    ensures { IfOk result (λ changed. TellsJust (program_of p.now) location changed.items) }
{
    let mut calls = Calls::new(alloc, p)?;
    changed_by(alloc, p, location, &mut calls)
}

/// For each half and flag that passes, in their order, whether the procedure of each entry changes it.
pub fn changes(alloc: Global, p: &IrProgram) -> Result<Vec<Vec<bool>>, AllocError>
    requires { IsProgram (program_of p.now) }
    ensures { IfOk result (λ lists. AreChanges (program_of p.now) (map (λ v. v.items) lists.items)) }
{
    let mut calls = Calls::new(alloc, p)?;
    let mut lists = Vec::new(alloc);
    for location in &PASSED_LOCATIONS {
        lists.push(changed_by(alloc, p, *location, &mut calls)?)?;
    }
    Ok(lists)
}
