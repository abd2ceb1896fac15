//! The edges from instruction to instruction.

ghost use Rattle.std.specs.Prelude.{◌≡◌, ◌+◌, ◌==◌, ℕ, if◌then◌else◌, length, sum_by, count_by, IfOk, OnOk};
ghost use Rattle.dcc_flow.specs.Edges.{is_in};
ghost use Rattle.dcc_shape.specs.Procedures.{different};

use crate::points::Point;
use std::alloc::{AllocError, Global};
use std::collections::BTreeSet;

// Adds each number of a list once.
fn add_different(alloc: Global, row: &[u16], list: &mut Vec<u16>) -> Result<(), AllocError>
    ensures count { OnOk result (length list.new.items ≡ length list.old.items + different row.now) }
    ensures each { (n : ℕ) → OnOk result (count_by (λ m. m == n) list.new.items
        ≡ count_by (λ m. m == n) list.old.items + (if is_in row.now n then 1 else 0)) }
{
    let mut known = BTreeSet::new(alloc);
    let mut i = row.len();
    while i > 0 {
        i -= 1;
        let number = row[i];
        if known.insert(number)? {
            list.push(number)?;
        }
    }
    Ok(())
}

/// The addresses that the edges from these instructions lead to, one for each edge. Two ways from one instruction to
/// one are one edge.
pub(crate) fn edges(alloc: Global, points: &[Point]) -> Result<Vec<u16>, AllocError>
    ensures count { IfOk result (λ list. length list.items ≡ sum_by (λ p. different p.next.items) points.now) }
    ensures each { IfOk result (λ list. (n : ℕ) → count_by (λ m. m == n) list.items
        ≡ count_by (λ p. is_in p.next.items n) points.now) }
{
    let mut list = Vec::new(alloc);
    for point in points {
        add_different(alloc, point.next.as_slice(), &mut list)?;
    }
    Ok(list)
}
