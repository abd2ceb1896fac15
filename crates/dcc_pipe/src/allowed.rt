//! The test that the items of a plan may stand where they do in a text.

ghost use Rattle.std.specs.Prelude.{◌≡◌, ◌≤◌, false, ◌&&◌, IfOk};
ghost use Rattle.dcc_c.specs.Grammar as grammar;
ghost use Rattle.dcc_c.specs.Rules as rules;
ghost use Rattle.dcc_c.proofs.Writable as writable;
ghost use Rattle.dcc_control.specs.Plan as plan;
ghost use Rattle.dcc_control.specs.Views.{item_of, plan_of, arms_of};
ghost use Rattle.dcc_plan.specs.Allowed as spec;
ghost use Rattle.dcc_pipe.specs.Lines.{around_of};

use dcc_control::complete::is_mark;
use dcc_control::{Arm, Item};
use indexmap::IndexSet;
use std::alloc::{AllocError, Global};

// How many blocks may stand around an item.
const MOST_AROUND: usize = 200;

// What stands around items.
#[derive(Clone, Copy)]
struct Around {
    // How many blocks, without the function's own braces.
    blocks: usize,
    // Whether a loop or a choice, which `break` leaves.
    breaks: bool,
    // Whether a loop, of which `continue` begins a turn.
    continues: bool,
}

impl Around {
    // What stands around the items of a function.
    fn outermost() -> Around
        ensures { around_of result ≡ grammar.outermost }
    {
        Around {
            blocks: 0,
            breaks: false,
            continues: false,
        }
    }

    // What stands around the sides of a test.
    fn in_block(self) -> Around
        requires { self.blocks ≤ 200 }
        ensures { around_of result ≡ grammar.in_block (around_of self) }
    {
        Around {
            blocks: self.blocks + 1,
            ..self
        }
    }

    // What stands around the items of a loop.
    fn in_loop(self) -> Around
        requires { self.blocks ≤ 200 }
        ensures { around_of result ≡ grammar.in_loop (around_of self) }
    {
        Around {
            blocks: self.blocks + 1,
            breaks: true,
            continues: true,
        }
    }

    // What stands around the arms of a choice.
    fn in_switch(self) -> Around
        requires { self.blocks ≤ 200 }
        ensures { around_of result ≡ grammar.in_switch (around_of self) }
    {
        Around {
            blocks: self.blocks + 1,
            breaks: true,
            ..self
        }
    }
}

// All cases of the arms.
fn all_cases(alloc: Global, arms: &[Arm]) -> Result<Vec<u16>, AllocError>
    ensures { IfOk result (λ cases. cases.items ≡ plan.all_cases (arms_of arms.now)) }
{
    let mut cases = Vec::new(alloc);
    for arm in arms {
        cases.extend_from_slice(&arm.cases)?;
    }
    Ok(cases)
}

// Whether the numbers differ.
fn differ(alloc: Global, cases: &[u16]) -> Result<bool, AllocError>
    ensures { IfOk result (λ yes. yes ≡ rules.differ cases.now) }
{
    let mut seen = IndexSet::new(alloc);
    for case in cases {
        let is_new = seen.insert(*case)?;
        if !is_new {
            return Ok(false);
        }
    }
    Ok(true)
}

// Whether there is a case, as an arm needs.
fn are_cases(cases: &[u16]) -> bool
    ensures { result ≡ writable.are_cases cases.now }
{
    !cases.is_empty()
}

// Whether the choice has an arm, and all its cases differ.
fn chooses(alloc: Global, arms: &[Arm]) -> Result<bool, AllocError>
    ensures { IfOk result (λ yes. yes
        ≡ (spec.has_an_arm (arms_of arms.now) && rules.differ (plan.all_cases (arms_of arms.now)))) }
{
    if arms.is_empty() {
        return Ok(false);
    }
    let cases = all_cases(alloc, arms)?;
    differ(alloc, cases.as_slice())
}

// Whether the item may stand with this around it.
#[cycle(stand)]
fn item_may_stand(alloc: Global, around: Around, item: &Item) -> Result<bool, AllocError>
    requires { around.blocks ≤ 200 }
    ensures { IfOk result (λ yes. yes ≡ spec.item_may_stand (around_of around) (item_of item.now)) }
{
    match item {
        Item::If(_, one, other) => {
            let first = items_may_stand(alloc, around.in_block(), one)?;
            let second = items_may_stand(alloc, around.in_block(), other)?;
            Ok(first & second)
        }
        Item::Switch(_, arms) => {
            let differ = chooses(alloc, arms)?;
            let inside = arms_may_stand(alloc, around.in_switch(), arms)?;
            Ok(differ & inside)
        }
        Item::For(_, body) => items_may_stand(alloc, around.in_loop(), body),
        Item::While(_, _, body) => items_may_stand(alloc, around.in_loop(), body),
        Item::DoWhile(_, _, _, body) => items_may_stand(alloc, around.in_loop(), body),
        Item::Break => Ok(around.breaks),
        Item::Continue => Ok(around.continues),
        _ => Ok(true),
    }
}

// Whether the arms may stand with this around them.
#[cycle(stand)]
fn arms_may_stand(alloc: Global, around: Around, arms: &[Arm]) -> Result<bool, AllocError>
    ensures { IfOk result (λ yes. yes ≡ spec.arms_may_stand (around_of around) (arms_of arms.now)) }
{
    for arm in arms {
        if around.blocks > MOST_AROUND {
            return Ok(false);
        }
        if !are_cases(&arm.cases) {
            return Ok(false);
        }
        let stands = items_may_stand(alloc, around, &arm.body)?;
        if !stands {
            return Ok(false);
        }
    }
    Ok(true)
}

// Whether the items may stand with this around them.
#[cycle(stand)]
fn items_may_stand(alloc: Global, around: Around, items: &[Item]) -> Result<bool, AllocError>
    ensures { IfOk result (λ yes. yes ≡ spec.may_stand (around_of around) false (plan_of items.now)) }
{
    let mut labelled = false;
    for item in items {
        if around.blocks > MOST_AROUND {
            return Ok(false);
        }
        let stands = item_may_stand(alloc, around, item)?;
        if !stands {
            return Ok(false);
        }
        labelled = is_mark(item);
    }
    Ok(!labelled)
}

/// Whether the items of a plan may stand in the body of a function where they do: something after each label, `break` and
/// `continue` where they lead somewhere, choices whose cases differ, and at most 200 blocks around another. Want of
/// memory is the only error.
pub(crate) fn may_stand(alloc: Global, items: &[Item]) -> Result<bool, AllocError>
    ensures { IfOk result (λ yes. yes ≡ spec.may_stand grammar.outermost false (plan_of items.now)) }
{
    items_may_stand(alloc, Around::outermost(), items)
}
