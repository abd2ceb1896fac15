//! Which label each loop has.

ghost use Rattle.std.specs.Prelude.{◌≡◌, ◌==◌, ◌&&◌, ◌<◌, ℕ, List, get_or, false, true, count_by, Some, IfOk, IfSome};
ghost use Rattle.std.specs.Prelude.{IfNone};
ghost use Rattle.std.specs.List.{list_all};
ghost use Rattle.dcc_flow.specs.Edges.{is_in};
ghost use Rattle.dcc_c.specs.Views.{stmt_of};
ghost use Rattle.dcc_shape.specs.Shape.{label_of, names_one, is_loop_at};
ghost use Rattle.dcc_shape.specs.Seen.{lent};
ghost use Rattle.dcc_shape.specs.Known.{IsTally};
ghost use Rattle.dcc_shape.specs.Asked.{loops_are_labelled, each_labels_one};

use crate::labels::offset_named;
use crate::seen::Seen;
use crate::stmts::is_loop;
use crate::tally::{Tally, came_once, tally_of};
use std::alloc::{AllocError, Global};

// The offset that a label names, where it is one of these.
fn head_of(heads: &Tally, label: Option<&str>) -> Option<u16>
    ensures named { IfSome result (λ at. (at < 65536) × (lent label.entry ≡ Some (label_of at))) }
    ensures among { (ats : List ℕ) → IsTally heads.now (λ n. count_by (λ m. m == n) ats)
        → IfSome result (λ at. is_in ats at ≡ true) }
    ensures none { (ats : List ℕ) → IsTally heads.now (λ n. count_by (λ m. m == n) ats)
        → ((n : ℕ) → get_or ats n 0 < 65536)
        → IfNone result (names_one (λ at. true) ats (lent label.entry) ≡ false) }
{
    let at = offset_named(label?)?;
    if heads.once.contains(&at) {
        Some(at)
    } else {
        None
    }
}

// The offset that the label of each loop names, in the order of the loops; none where a loop has the label of none of
// these.
fn labels_of_loops(
    alloc: Global,
    heads: &[u16],
    list: &[Seen],
) -> Result<Option<Vec<u16>>, AllocError>
    ensures labelled { IfOk result (λ found. IfSome found (λ labels. loops_are_labelled heads.now list.now ≡ true)) }
    ensures counts { IfOk result (λ found. IfSome found (λ labels. (at : ℕ) → at < 65536
        → count_by (λ s. is_loop_at at (stmt_of s.stmt.now) (lent s.label)) list.now
        ≡ count_by (λ l. l == at) labels.items)) }
    ensures none { IfOk result (λ found. IfNone found (loops_are_labelled heads.now list.now ≡ false)) }
{
    let known = tally_of(alloc, heads)?;
    let mut labels = Vec::new(alloc);
    for seen in list {
        if is_loop(seen.stmt) {
            let Some(at) = head_of(&known, seen.label) else {
                return Ok(None);
            };
            labels.push(at)?;
        }
    }
    Ok(Some(labels))
}

// Whether each of these numbers came just once.
fn each_once(numbers: &[u16], tally: &Tally) -> bool
    ensures { (counts : ℕ → ℕ) → IsTally tally.now counts → result ≡ list_all (λ at. counts at == 1) numbers.now }
{
    for number in numbers {
        if !came_once(tally, *number) {
            return false;
        }
    }
    true
}

/// Whether each loop has the label of one of these, and each of them labels one loop.
pub(crate) fn are_labelled(alloc: Global, heads: &[u16], list: &[Seen]) -> Result<bool, AllocError>
    ensures { IfOk result (λ yes. yes
        ≡ (loops_are_labelled heads.now list.now && each_labels_one heads.now list.now)) }
{
    let Some(labels) = labels_of_loops(alloc, heads, list)? else {
        return Ok(false);
    };
    let tally = tally_of(alloc, labels.as_slice())?;
    Ok(each_once(heads, &tally))
}
