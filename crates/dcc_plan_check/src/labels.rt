//! The labels of a plan, and the blocks that turns of its loops begin.

ghost use Rattle.std.specs.Prelude.{◌≡◌, ◌⊎◌, ℕ, true, false, get_or, length, IfOk, IfSome, OnOk};
ghost use Rattle.dcc_ir.specs.WellFormed.{all_differ};
ghost use Rattle.dcc_control.specs.Plan.{is_in, marks, turns, item_marks, item_turns, arm_marks, arm_turns};
ghost use Rattle.dcc_control.specs.Views.{item_of, plan_of, arms_of};
ghost use Rattle.dcc_plan_check.specs.Checked.{is_marked_in, is_begun_in, AreLabels, Notes};

use dcc_control::{Arm, Item};
use std::alloc::{AllocError, Global};

/// Which blocks of a graph a plan has a label of, and of which it has a step where they begin.
#[derive(Drop)]
pub struct Labels {
    /// Which blocks have a label.
    pub marked: Vec<bool>,
    /// For which blocks the text has a step where they begin: the label, or a turn of a loop.
    pub begun: Vec<bool>,
}

/// The blocks whose labels stand in a plan, and those that turns of loops begin, in the order of the text.
#[derive(Drop)]
pub struct Noted {
    /// The blocks whose labels stand there.
    pub labels: Vec<u32>,
    /// The blocks that turns of loops begin.
    pub heads: Vec<u32>,
}

// Notes the labels and loops of an item.
#[cycle(note)]
fn note_item(noted: &mut Noted, item: &Item) -> Result<(), AllocError>
    ensures { OnOk result (Notes noted.old (item_marks (item_of item.now)) (item_turns (item_of item.now)) noted.new) }
{
    match item {
        Item::Mark(b) => {
            noted.labels.push(*b)?;
            Ok(())
        }
        Item::If(_, one, other) => {
            note_items(noted, one)?;
            note_items(noted, other)?;
            Ok(())
        }
        Item::Switch(_, arms) => {
            note_arms(noted, arms)?;
            Ok(())
        }
        Item::For(b, body) => {
            noted.heads.push(*b)?;
            note_items(noted, body)?;
            Ok(())
        }
        Item::While(_, _, body) => {
            note_items(noted, body)?;
            Ok(())
        }
        Item::DoWhile(_, _, _, body) => {
            note_items(noted, body)?;
            Ok(())
        }
        Item::Do(..)
        | Item::Jump(_)
        | Item::Return(_)
        | Item::Break
        | Item::Continue
        | Item::Empty => Ok(()),
    }
}

// Notes the labels and loops of the arms of a choice.
#[cycle(note)]
fn note_arms(noted: &mut Noted, arms: &[Arm]) -> Result<(), AllocError>
    ensures { OnOk result (Notes noted.old (arm_marks (arms_of arms.now)) (arm_turns (arms_of arms.now)) noted.new) }
{
    for arm in arms {
        note_items(noted, &arm.body)?;
    }
    Ok(())
}

// Notes the labels and loops of a plan.
#[cycle(note)]
fn note_items(noted: &mut Noted, items: &[Item]) -> Result<(), AllocError>
    ensures { OnOk result (Notes noted.old (marks (plan_of items.now)) (turns (plan_of items.now)) noted.new) }
{
    for item in items {
        note_item(noted, item)?;
    }
    Ok(())
}

// Which of so many blocks stand in the list; none where one stands there twice or is not of these.
fn flags(alloc: Global, count: usize, blocks: &[u32]) -> Result<Option<Vec<bool>>, AllocError>
    ensures { IfOk result (λ o. IfSome o (λ flags. (all_differ blocks.now ≡ true)
        × ((b : ℕ) → get_or flags.items b false ≡ is_in b blocks.now))) }
{
    let mut flags = vec![in alloc; false; count]?;
    let mut left = blocks.len();
    while 0 < left {
        left -= 1;
        let block = blocks[left] as usize;
        if block >= flags.len() || flags[block] {
            return Ok(None);
        }
        flags[block] = true;
    }
    Ok(Some(flags))
}

// The blocks of a list are flagged too, where there is a flag for them.
fn flag_all(flags: &mut Vec<bool>, blocks: &[u32])
    ensures { (b : ℕ) → (get_or flags.old.items b false ≡ true) ⊎ (is_in b blocks.now ≡ true)
        → get_or flags.new.items b true ≡ true }
{
    for block in blocks {
        if (*block as usize) < flags.len() {
            flags[*block as usize] = true;
        }
    }
}

/// The labels of a plan of a graph with so many blocks; none where a label stands twice or is of no block.
pub fn labels_of(alloc: Global, count: usize, items: &[Item]) -> Result<Option<Labels>, AllocError>
    ensures { IfOk result (λ o. IfSome o (λ labels. AreLabels (plan_of items.now) labels)) }
{
    let mut noted = Noted {
        labels: Vec::new(alloc),
        heads: Vec::new(alloc),
    };
    note_items(&mut noted, items)?;
    let Some(marked) = flags(alloc, count, noted.labels.as_slice())? else {
        return Ok(None);
    };
    let mut begun = marked.clone()?;
    flag_all(&mut begun, noted.heads.as_slice());
    Ok(Some(Labels { marked, begun }))
}
