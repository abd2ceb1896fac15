//! Sets of numbers, and which numbers come more than once.

ghost use Rattle.std.specs.Prelude.{◌≡◌, ◌+◌, ◌==◌, ℕ, if◌then◌else◌, count_by, IfOk, OnOk};
ghost use Rattle.dcc_shape.specs.Known.{IsTally};

use std::alloc::{AllocError, Global};
use std::collections::BTreeSet;

/// Which numbers came at least once, and which at least twice.
#[derive(Drop)]
pub(crate) struct Tally {
    /// Those that came at least once.
    pub once: BTreeSet<u16>,
    /// Those that came at least twice.
    pub twice: BTreeSet<u16>,
}

/// Counts a number once more.
pub(crate) fn add(tally: &mut Tally, number: u16) -> Result<(), AllocError>
    ensures { (counts : ℕ → ℕ) → IsTally tally.old counts
        → OnOk result (IsTally tally.new (λ n. counts n + (if number == n then 1 else 0))) }
{
    if !tally.once.insert(number)? {
        tally.twice.insert(number)?;
    }
    Ok(())
}

/// How often each number stands in a list.
pub(crate) fn tally_of(alloc: Global, numbers: &[u16]) -> Result<Tally, AllocError>
    ensures { IfOk result (λ tally. IsTally tally (λ n. count_by (λ m. m == n) numbers.now)) }
{
    let mut tally = Tally {
        once: BTreeSet::new(alloc),
        twice: BTreeSet::new(alloc),
    };
    for number in numbers {
        add(&mut tally, *number)?;
    }
    Ok(tally)
}

/// Whether a number came just once.
pub(crate) fn came_once(tally: &Tally, number: u16) -> bool
    ensures { (counts : ℕ → ℕ) → IsTally tally.now counts → result ≡ (counts number == 1) }
{
    tally.once.contains(&number) && !tally.twice.contains(&number)
}
