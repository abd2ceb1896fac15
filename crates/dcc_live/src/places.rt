//! Sets of locations as truth values at the places of a list.

ghost use Rattle.std.specs.Prelude.{◌≡◌, length, IfOk};
ghost use Rattle.dcc_flow.specs.Marks.{members, selected};
ghost use Rattle.dcc_live.specs.First.{Tells, TellsOf};

use dcc_flow::{Bits, Marks, Places, Steps};
use dcc_ir::Loc;
use std::alloc::{AllocError, Global};
use std::sync::ledger::Ledger;

/// Which of these places' locations are in the list. It costs as much as the list has.
pub fn bits_at<L: Ledger>(
    alloc: Global,
    places: &Places,
    locations: &[Loc],
    steps: &mut Steps<L>,
) -> Result<Bits, AllocError>
    ensures len { IfOk result (λ bits. length bits ≡ length places.now) }
    ensures tells { IfOk result (TellsOf places.now locations.now) }
{
    let mut bits = Bits::new(alloc, places.len())?;
    for location in locations {
        if let Some(place) = places.place_of(*location) {
            bits.set(place, steps);
        }
    }
    Ok(bits)
}

/// Which of these places' locations are in the set. It costs as much as was put into the set.
pub fn bits_of<L: Ledger>(
    alloc: Global,
    places: &Places,
    marks: &Marks,
    steps: &mut Steps<L>,
) -> Result<Bits, AllocError>
    ensures len { IfOk result (λ bits. length bits ≡ length places.now) }
    ensures tells { IfOk result (Tells places.now (members marks.now)) }
{
    let listed = marks.listed(alloc)?;
    bits_at(alloc, places, listed.as_slice(), steps)
}

/// The locations at whose places the list holds true. It costs as much as there are, and as the list has words.
pub(crate) fn selected(alloc: Global, places: &Places, bits: &Bits) -> Result<Vec<Loc>, AllocError>
    requires { length bits.now ≡ length places.now }
    ensures { IfOk result (λ locations. locations.items ≡ selected places.now bits.now) }
{
    let list = places.as_slice();
    let mut locations = Vec::new(alloc);
    let mut from = 0;
    while let Some(place) = bits.next(from) {
        locations.push(list[place])?;
        from = place + 1;
    }
    Ok(locations)
}
