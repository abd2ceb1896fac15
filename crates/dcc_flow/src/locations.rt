//! Lists of locations.

ghost use Rattle.std.specs.Prelude.{◌≡◌, ℕ, ◌<◌, [], ◌∷◌, ◌++◌, length, IfOk, OnOk};
ghost use Rattle.dcc_ir.specs.Live.{is_among};
ghost use Rattle.dcc_flow.specs.Words.{bit_in};

use crate::marks::number;
use dcc_ir::Loc;
use std::alloc::{AllocError, Global};
use std::marker::Model;

/// A list of locations. To tell whether a location is in it costs the same however long the list is.
#[derive(Drop)]
pub struct Locations {
    list: Vec<Loc>,
    /// A bit for each number of a location, the lowest of a word first, set where that location is in the list; those of
    /// further numbers are not.
    has: Vec<u64>,
}

// The list has the word of that place; what is added has no bit set.
fn make_room(has: &mut Vec<u64>, word: usize) -> Result<(), AllocError>
    ensures same { (n : ℕ) → bit_in has.new.items n ≡ bit_in has.old.items n }
    ensures room { OnOk result (word < length has.new.items) }
{
    while has.len() <= word {
        has.push(0)?;
    }
    Ok(())
}

impl Model for Locations {
    ghost use Rattle.std.specs.Prelude.{List};
    ghost use Rattle.dcc_ir.specs.declared.syntax.Loc.{Loc};
    ghost use Rattle.dcc_flow.specs.Marks.{AreThoseOf};

    ghost Value = { List Loc };

    ghost view = { λ l. l.list.items };

    ghost invariant = { λ l. AreThoseOf l.list.items l.has.items };
}

impl Locations {
    /// The empty list.
    pub fn new(alloc: Global) -> Locations
        ensures { result ≡ [] }
    {
        Locations {
            list: Vec::new(alloc),
            has: Vec::new(alloc),
        }
    }

    /// Whether the location is in the list.
    pub fn contains(&self, location: Loc) -> bool
        ensures { result ≡ is_among self.now location }
    {
        let n = number(location);
        match self.has.get(n / 64) {
            Some(word) => *word >> (n % 64) & 1 == 1,
            None => false,
        }
    }

    /// The location is put at the end of the list.
    pub fn push(&mut self, location: Loc) -> Result<(), AllocError>
        ensures { OnOk result (self.new ≡ self.old ++ location ∷ []) }
    {
        let n = number(location);
        make_room(&mut self.has, n / 64)?;
        self.list.push(location)?;
        self.has[n / 64] |= 1 << (n % 64);
        Ok(())
    }

    /// A list of its own with the same locations.
    pub fn copy(&self) -> Result<Locations, AllocError>
        ensures { IfOk result (λ copy. copy ≡ self.now) }
    {
        let list = self.list.clone()?;
        let has = self.has.clone()?;
        Ok(Locations { list, has })
    }

    /// The locations.
    pub fn as_slice(&self) -> &[Loc]
        ensures { result.now ≡ self.now }
    {
        self.list.as_slice()
    }
}
