//! The labels of a function.

ghost use Rattle.std.specs.Prelude.{◌≡◌, ◌++◌, map, OnOk};
ghost use Rattle.dcc_c.specs.Offences.{label_list, labels_of, labels_in_arms};
ghost use Rattle.dcc_reader.specs.PartialViews.{stmt_of, lines_of, arms_of};
ghost use Rattle.dcc_reader.specs.WordViews.{lent_word};

use crate::partial::{PartialArm, PartialStmt, Row, WordAt};
use std::alloc::AllocError;

/// Appends the labels of statements, at every depth, in the order of the text.
///
/// # Errors
/// Where memory runs out.
#[cycle(labels)]
pub fn push_labels<'r, 'a>(
    rows: &'r [Row<'a>],
    found: &mut Vec<&'r WordAt<'a>>,
) -> Result<(), AllocError>
    ensures { OnOk result
        (map lent_word found.new.items ≡ map lent_word found.old.items ++ label_list (lines_of rows.now)) }
{
    for row in rows {
        push_labels_of(&row.stmt, found)?;
    }
    Ok(())
}

// Appends the labels of a statement and of the statements inside it.
#[cycle(labels)]
fn push_labels_of<'r, 'a>(
    stmt: &'r PartialStmt<'a>,
    found: &mut Vec<&'r WordAt<'a>>,
) -> Result<(), AllocError>
    ensures { OnOk result
        (map lent_word found.new.items ≡ map lent_word found.old.items ++ labels_of (stmt_of stmt.now)) }
{
    match stmt {
        PartialStmt::Label(name) => {
            found.push(name)?;
            Ok(())
        }
        PartialStmt::If(_, _, body, otherwise) => {
            push_labels(body, found)?;
            push_labels(otherwise, found)
        }
        PartialStmt::While(_, _, body) => push_labels(body, found),
        PartialStmt::DoWhile(body, _, _) => push_labels(body, found),
        PartialStmt::Forever(body) => push_labels(body, found),
        PartialStmt::Switch(_, _, arms) => push_arm_labels(arms, found),
        PartialStmt::Assign(_, _, _)
        | PartialStmt::Call(_, _)
        | PartialStmt::Break
        | PartialStmt::Continue
        | PartialStmt::Goto(_)
        | PartialStmt::Empty
        | PartialStmt::Return(_, _) => Ok(()),
    }
}

// Appends the labels in the bodies of arms.
#[cycle(labels)]
fn push_arm_labels<'r, 'a>(
    arms: &'r [PartialArm<'a>],
    found: &mut Vec<&'r WordAt<'a>>,
) -> Result<(), AllocError>
    ensures { OnOk result
        (map lent_word found.new.items ≡ map lent_word found.old.items ++ labels_in_arms (arms_of arms.now)) }
{
    for arm in arms {
        push_labels(&arm.body, found)?;
    }
    Ok(())
}
