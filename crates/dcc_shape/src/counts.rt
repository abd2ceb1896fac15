//! How many statements of each kind there are.

ghost use Rattle.std.specs.Prelude.{◌≡◌, ◌+◌, nat_le, count_by};
ghost use Rattle.dcc_c.specs.Views.{stmt_of};
ghost use Rattle.dcc_shape.specs.Shape.{is_label, is_jump, is_empty};
ghost use Rattle.dcc_shape.specs.Spots.{has_blocks};
ghost use Rattle.dcc_shape.specs.Asked.{are_counted};

use crate::asked::Asked;
use crate::seen::Seen;
use crate::stmts::{has_blocks, is_empty, is_jump, is_label};

/// Whether a number is at most the sum of two others.
pub(crate) fn is_at_most(number: usize, first: usize, second: usize) -> bool
    ensures { result ≡ nat_le number (first + second) }
{
    number.saturating_sub(first) <= second
}

// How many of the statements have blocks.
fn blocks(list: &[Seen]) -> usize
    ensures { result ≡ count_by (λ s. has_blocks (stmt_of s.stmt.now)) list.now }
{
    list.iter().filter(|s| has_blocks(s.stmt)).count()
}

// How many of the statements are labels.
fn labels(list: &[Seen]) -> usize
    ensures { result ≡ count_by (λ s. is_label (stmt_of s.stmt.now)) list.now }
{
    list.iter().filter(|s| is_label(s.stmt)).count()
}

// How many of the statements are jumps.
fn jumps(list: &[Seen]) -> usize
    ensures { result ≡ count_by (λ s. is_jump (stmt_of s.stmt.now)) list.now }
{
    list.iter().filter(|s| is_jump(s.stmt)).count()
}

// How many of the statements are empty.
fn empty(list: &[Seen]) -> usize
    ensures { result ≡ count_by (λ s. is_empty (stmt_of s.stmt.now)) list.now }
{
    list.iter().filter(|s| is_empty(s.stmt)).count()
}

/// Whether there are no more statements of each kind than a procedure asks.
pub(crate) fn is_counted(asked: &Asked, list: &[Seen]) -> bool
    ensures { result ≡ are_counted asked.now list.now }
{
    let labels = labels(list);
    let heads = asked.heads.len();
    let few_blocks = is_at_most(blocks(list), asked.branches, heads);
    let few_labels = labels <= asked.ats.len();
    let few_jumps = is_at_most(jumps(list), asked.edges.len(), heads);
    let few_empty = empty(list) <= labels;
    few_blocks && (few_labels && (few_jumps && few_empty))
}
