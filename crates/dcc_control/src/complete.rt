//! Completed plans: with an empty statement after each label that stands last, and with an arm in each choice that has
//! none.

ghost use Rattle.std.specs.Prelude.{◌≡◌, ◌∷◌, [], IfOk};
ghost use Rattle.dcc_control.specs.Complete as spec;
ghost use Rattle.dcc_control.specs.Plan as plan;
ghost use Rattle.dcc_control.specs.Views.{item_of, plan_of, arms_of};

use crate::item::{Arm, Item};
use std::alloc::{AllocError, Global};

// An arm without statements.
fn empty_arm(alloc: Global) -> Result<Arm, AllocError>
    ensures { IfOk result (λ a. arms_of (a ∷ []) ≡ plan.arm (0 ∷ []) plan.no_items plan.no_arms) }
{
    let mut cases = Vec::new(alloc);
    cases.push(0)?;
    Ok(Arm {
        cases,
        body: Vec::new(alloc),
    })
}

// The arms of a choice, or an empty one where it has none.
fn some_arms(alloc: Global, arms: Vec<Arm>) -> Result<Vec<Arm>, AllocError>
    ensures { IfOk result (λ r. arms_of r.items ≡ spec.some_arms (arms_of arms.items)) }
{
    if !arms.is_empty() {
        return Ok(arms);
    }
    let mut arms = Vec::new(alloc);
    arms.push(empty_arm(alloc)?)?;
    Ok(arms)
}

/// Whether the item is a label.
pub fn is_mark(item: &Item) -> bool
    ensures { result ≡ plan.is_mark (item_of item.now) }
{
    matches!(item, Item::Mark(_))
}

// The item with what stands inside it completed.
#[cycle(complete)]
fn completed_item(alloc: Global, item: Item) -> Result<Item, AllocError>
    ensures { IfOk result (λ r. item_of r ≡ spec.completed_item (item_of item)) }
{
    match item {
        Item::If(b, one, other) => {
            let one = completed(alloc, one)?;
            let other = completed(alloc, other)?;
            Ok(Item::If(b, one, other))
        }
        Item::Switch(b, arms) => {
            let arms = completed_arms(alloc, arms)?;
            let arms = some_arms(alloc, arms)?;
            Ok(Item::Switch(b, arms))
        }
        Item::For(b, body) => {
            let body = completed(alloc, body)?;
            Ok(Item::For(b, body))
        }
        Item::While(on, b, body) => {
            let body = completed(alloc, body)?;
            Ok(Item::While(on, b, body))
        }
        Item::DoWhile(on, b, head, body) => {
            let body = completed(alloc, body)?;
            Ok(Item::DoWhile(on, b, head, body))
        }
        other => Ok(other),
    }
}

// The arms of a choice with what stands in them completed.
#[cycle(complete)]
fn completed_arms(alloc: Global, arms: Vec<Arm>) -> Result<Vec<Arm>, AllocError>
    ensures { IfOk result (λ r. arms_of r.items ≡ spec.completed_arms (arms_of arms.items)) }
{
    let mut done = Vec::with_capacity(alloc, arms.len())?;
    for arm in arms {
        let Arm { cases, body } = arm;
        let body = completed(alloc, body)?;
        done.push(Arm { cases, body })?;
    }
    Ok(done)
}

/// The plan completed, as a text must be: with an empty statement after each label that stands last among its items, and
/// with an empty arm in each choice that has none. Want of memory is the only error.
#[cycle(complete)]
pub fn completed(alloc: Global, items: Vec<Item>) -> Result<Vec<Item>, AllocError>
    ensures { IfOk result (λ r. plan_of r.items ≡ spec.completed (plan_of items.items)) }
{
    let mut done = Vec::with_capacity(alloc, items.len())?;
    let mut labelled = false;
    for item in items {
        labelled = is_mark(&item);
        let item = completed_item(alloc, item)?;
        done.push(item)?;
    }
    if labelled {
        done.push(Item::Empty)?;
    }
    Ok(done)
}
