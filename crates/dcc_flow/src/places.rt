//! Lists of locations that tell at which place a location is.

ghost use Rattle.std.specs.Prelude.{◌≡◌, ℕ, ◌<◌, ◌≤◌, false, [], ◌∷◌, ◌++◌, length, get_or, OnOk, MatchOption};
ghost use Rattle.dcc_ir.specs.Live.{is_among};
ghost use Rattle.dcc_ir.specs.Location.{same_location};
ghost use Rattle.dcc_flow.specs.Places.{IsPlace, with_place, with_places};

use crate::marks::number;
use dcc_ir::Loc;
use std::alloc::{AllocError, Global};
use std::marker::Model;

// The list has the place; what is added holds 0.
fn make_room(at: &mut Vec<usize>, place: usize) -> Result<(), AllocError>
    ensures same { (n : ℕ) → get_or at.new.items n 0 ≡ get_or at.old.items n 0 }
    ensures longer { length at.old.items ≤ length at.new.items }
    ensures room { OnOk result (place < length at.new.items) }
{
    while at.len() <= place {
        at.push(0)?;
    }
    Ok(())
}

// Whether the two are one.
fn is_same(location: Loc, other: Loc) -> bool
    ensures { result ≡ same_location location other }
{
    location == other
}

/// A list of locations, each once. To tell at which place a location is costs the same however long the list is.
#[derive(Drop)]
pub struct Places {
    list: Vec<Loc>,
    /// At the number of each location in the list its place.
    at: Vec<usize>,
}

impl Model for Places {
    ghost use Rattle.std.specs.Prelude.{List};
    ghost use Rattle.dcc_ir.specs.declared.syntax.Loc.{Loc};
    ghost use Rattle.dcc_flow.specs.Places.{AreAt};

    ghost Value = { List Loc };

    ghost view = { λ p. p.list.items };

    ghost invariant = { λ p. AreAt p.list.items p.at.items };
}

impl Places {
    /// The empty list.
    pub fn new(alloc: Global) -> Places
        ensures { result ≡ [] }
    {
        Places {
            list: Vec::new(alloc),
            at: Vec::new(alloc),
        }
    }

    /// The locations.
    pub fn as_slice(&self) -> &[Loc]
        ensures { result.now ≡ self.now }
    {
        self.list.as_slice()
    }

    /// How many locations there are.
    pub fn len(&self) -> usize
        ensures { result ≡ length self.now }
    {
        self.list.len()
    }

    /// At which place a location is, if it is in the list.
    pub fn place_of(&self, location: Loc) -> Option<usize>
        ensures { MatchOption result (is_among self.now location ≡ false) (IsPlace self.now location) }
    {
        let n = number(location);
        if n < self.at.len() {
            let place = self.at[n];
            if place < self.list.len() && is_same(self.list[place], location) {
                return Some(place);
            }
        }
        None
    }

    // The location, which isn't in the list, is put at its end.
    fn push(&mut self, location: Loc) -> Result<(), AllocError>
        requires { is_among self.old location ≡ false }
        ensures { OnOk result (self.new ≡ self.old ++ location ∷ []) }
    {
        let n = number(location);
        let place = self.list.len();
        make_room(&mut self.at, n)?;
        self.list.push(location)?;
        self.at[n] = place;
        Ok(())
    }

    /// The location is put at the end of the list, where it isn't in it.
    pub fn add(&mut self, location: Loc) -> Result<(), AllocError>
        ensures { OnOk result (self.new ≡ with_place self.old location) }
    {
        match self.place_of(location) {
            Some(_) => Ok(()),
            None => {
                self.push(location)?;
                Ok(())
            }
        }
    }

    /// The locations are put at the end of the list, each of them that isn't in it.
    pub fn add_all(&mut self, locations: &[Loc]) -> Result<(), AllocError>
        ensures { OnOk result (self.new ≡ with_places self.old locations.now) }
    {
        for location in locations {
            self.add(*location)?;
        }
        Ok(())
    }
}
