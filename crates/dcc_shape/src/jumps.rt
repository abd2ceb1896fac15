//! Where each `goto` goes.

ghost use Rattle.std.specs.Prelude.{◌≡◌, ◌<◌, ◌&&◌, ℕ, Bool, true, List, ◌∷◌, map, get_or, All, IfOk, OnOk};
ghost use Rattle.std.specs.List.{list_all};
ghost use Rattle.std.specs.BTreeSet.{contains};
ghost use Rattle.std.specs.Ordering.{nat_cmp};
ghost use Rattle.dcc_flow.specs.Edges.{is_in};
ghost use Rattle.dcc_c.specs.Tree.{Word};
ghost use Rattle.dcc_c.specs.Views.{stmt_of};
ghost use Rattle.dcc_shape.specs.Spots.{goal_passes};
ghost use Rattle.dcc_shape.specs.Seen as spec;
ghost use Rattle.dcc_shape.specs.Seen.{seen_in, may_go, may_all_go, GoesToOffset, AreLabels};
ghost use Rattle.dcc_shape.specs.Known.{AreNamed};
ghost use Rattle.dcc_shape.specs.Asked.{goes_where_edges_meet};

use crate::asked::Asked;
use crate::labels::{is_named, offset_named};
use crate::seen::Seen;
use crate::stmts::{goal_in, label_in};
use crate::tally::{Tally, add, tally_of};
use dcc_c::CStmt;
use std::alloc::{AllocError, Global};
use std::collections::BTreeSet;

// Those of the addresses to which at least two edges lead.
fn meetings(alloc: Global, ats: &[u16], edges: &Tally) -> Result<BTreeSet<u16>, AllocError>
    ensures fit { (n : ℕ) → get_or ats.now n 0 < 65536 }
    ensures are { IfOk result (λ known. (n : ℕ) → contains nat_cmp known n
        ≡ (is_in ats.now n && contains nat_cmp edges.now.twice n)) }
{
    let mut known = BTreeSet::new(alloc);
    for at in ats {
        if edges.twice.contains(at) {
            known.insert(*at)?;
        }
    }
    Ok(known)
}

// Whether a statement goes to the label of one of these offsets, if it is a `goto`.
fn goes_to_named(known: &BTreeSet<u16>, stmt: &CStmt) -> bool
    ensures { (test : Word → Bool) → AreNamed known.now test → result ≡ goal_passes test (stmt_of stmt.now) }
{
    match goal_in(stmt) {
        Some(word) => is_named(known, word),
        None => true,
    }
}

// Whether each `goto` goes to the label of one of these offsets.
fn all_go_to_named(known: &BTreeSet<u16>, list: &[Seen]) -> bool
    ensures { (test : Word → Bool) → AreNamed known.now test
        → result ≡ list_all (λ s. goal_passes test (stmt_of s.stmt.now)) list.now }
{
    for seen in list {
        if !goes_to_named(known, seen.stmt) {
            return false;
        }
    }
    true
}

/// Whether each `goto` goes to an instruction to which at least two edges lead.
pub(crate) fn go_where_edges_meet(
    alloc: Global,
    asked: &Asked,
    list: &[Seen],
) -> Result<bool, AllocError>
    ensures are { IfOk result (λ yes. yes ≡ goes_where_edges_meet asked.now list.now) }
    ensures named { IfOk result (λ yes. yes ≡ true → All (λ s. GoesToOffset (stmt_of s.stmt.now)) list.now) }
{
    let mut edges = tally_of(alloc, asked.edges.as_slice())?;
    add(&mut edges, asked.entry)?;
    let known = meetings(alloc, asked.ats.as_slice(), &edges)?;
    Ok(all_go_to_named(&known, list))
}

/// Whether no `goto` goes to the label of its innermost loop.
pub(crate) fn leave_innermost_alone(list: &[Seen]) -> bool
    ensures { result ≡ list_all (λ s. s.spares_own) list.now }
{
    list.iter().all(|seen| seen.spares_own)
}

// Whether a statement, if it is a `goto`, goes to a label further on in the text or to that of a loop around it.
fn may_go(seen: &Seen, later: &BTreeSet<u16>) -> bool
    requires { GoesToOffset (stmt_of seen.now.stmt.now) }
    ensures { (rest : List spec.Seen) → AreLabels later.now rest → result ≡ may_go rest (seen_in seen.now) }
{
    let Some(word) = goal_in(seen.stmt) else {
        return true;
    };
    if seen.is_round {
        return true;
    }
    match offset_named(word) {
        Some(at) => later.contains(&at),
        None => false,
    }
}

// Notes the label that a statement is.
fn note_label(stmt: &CStmt, later: &mut BTreeSet<u16>) -> Result<(), AllocError>
    ensures { (s : spec.Seen) (rest : List spec.Seen) → s.stmt ≡ stmt_of stmt.now → AreLabels later.old rest
        → OnOk result (AreLabels later.new (s ∷ rest)) }
{
    if let Some(word) = label_in(stmt) {
        if let Some(at) = offset_named(word) {
            later.insert(at)?;
        }
    }
    Ok(())
}

/// Whether each `goto`, all of which go to labels of offsets, goes to a label further on in the text or to that of a
/// loop around it.
pub(crate) fn go_on_or_round(alloc: Global, list: &[Seen]) -> Result<bool, AllocError>
    requires { All (λ s. GoesToOffset (stmt_of s.stmt.now)) list.now }
    ensures { IfOk result (λ yes. yes ≡ may_all_go (map seen_in list.now)) }
{
    let mut later = BTreeSet::new(alloc);
    let mut i = list.len();
    while i > 0 {
        i -= 1;
        let seen = &list[i];
        if !may_go(seen, &later) {
            return Ok(false);
        }
        note_label(seen.stmt, &mut later)?;
    }
    Ok(true)
}
