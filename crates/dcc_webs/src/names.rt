//! Numbers for the webs of a block.

ghost use Rattle.std.specs.Prelude.{◌≡◌, ℕ, ◌<◌, length, get_or, IfOk, OnOk};
ghost use Rattle.dcc_flow.specs.Access.{access_in};
ghost use Rattle.dcc_flow.specs.Marks.{location_number};
ghost use Rattle.dcc_webs.specs.Names.{names_of, no_names, with_number, all_with_numbers, named, all_named};
ghost use Rattle.dcc_webs.specs.Names.{without_names, before_one};

use dcc_flow::{Access, Marks};
use dcc_ir::Loc;
use std::alloc::{AllocError, Global};

// The place of a location in a list of numbers.
fn place_of(location: Loc) -> usize
    ensures { result ≡ location_number location }
{
    match location {
        Loc::Half(register, half) => half as usize + 2 * (register as usize),
        Loc::Flag(flag) => flag as usize + 16,
        Loc::Cell(cell, half) => half as usize + 3 * (cell as usize) + 20,
        Loc::Temp(temporary) => 3 * (temporary as usize) + 22,
    }
}

// The list has the place; what is added is 0.
fn make_room(numbers: &mut Vec<u32>, place: usize) -> Result<(), AllocError>
    ensures same { (n : ℕ) → get_or numbers.new.items n 0 ≡ get_or numbers.old.items n 0 }
    ensures room { OnOk result (place < length numbers.new.items) }
{
    while numbers.len() <= place {
        numbers.push(0)?;
    }
    Ok(())
}

// The number after those of these locations.
fn next_number(origins: &[Loc]) -> Result<u32, AllocError>
    ensures { IfOk result (λ n. n ≡ length origins.now) }
{
    u32::try_from(origins.len()).map_err(|_| AllocError)
}

/// A number for each location of some, and the location of each number that was given. To look a number up and to give
/// one costs the same however many there are.
#[derive(Drop)]
pub struct Names {
    /// Which locations have a number.
    pub has: Marks,
    /// The number of each location that has one, by the place of the location.
    pub numbers: Vec<u32>,
    /// The location of each number.
    pub origins: Vec<Loc>,
}

impl Names {
    /// No location has a number.
    pub fn new(alloc: Global) -> Names
        ensures { names_of result ≡ no_names }
    {
        Names {
            has: Marks::new(alloc),
            numbers: Vec::new(alloc),
            origins: Vec::new(alloc),
        }
    }

    /// The number of a location, if it has one.
    pub fn get(&self, location: Loc) -> Option<u32>
        ensures { result ≡ (names_of self.now).number location }
    {
        if self.has.contains(location) {
            Some(self.numbers.get(place_of(location)).copied().unwrap_or(0))
        } else {
            None
        }
    }

    // The location takes the next number.
    fn put(&mut self, location: Loc) -> Result<(), AllocError>
        ensures { OnOk result (names_of self.new ≡ with_number (names_of self.old) location) }
    {
        let number = next_number(self.origins.as_slice())?;
        let place = place_of(location);
        make_room(&mut self.numbers, place)?;
        self.has.add(location)?;
        self.numbers[place] = number;
        self.origins.push(location)?;
        Ok(())
    }

    // The location takes the next number, unless it has one.
    fn name(&mut self, location: Loc) -> Result<(), AllocError>
        ensures { OnOk result (names_of self.new ≡ named (names_of self.old) location) }
    {
        match self.get(location) {
            Some(_) => Ok(()),
            None => self.put(location),
        }
    }

    /// Each of the locations takes the next number.
    pub fn put_all(&mut self, locations: &[Loc]) -> Result<(), AllocError>
        ensures { OnOk result (names_of self.new ≡ all_with_numbers (names_of self.old) locations.now) }
    {
        for location in locations {
            self.put(*location)?;
        }
        Ok(())
    }

    /// Each of the locations that has no number takes the next one.
    pub fn name_all(&mut self, locations: &[Loc]) -> Result<(), AllocError>
        ensures { OnOk result (names_of self.new ≡ all_named (names_of self.old) locations.now) }
    {
        for location in locations {
            self.name(*location)?;
        }
        Ok(())
    }

    /// The locations have no number any more; numbers that were given aren't given again.
    pub fn remove_all(&mut self, locations: &[Loc])
        ensures { names_of self.new ≡ without_names (names_of self.old) locations.now }
    {
        self.has.remove_all(locations);
    }

    /// No location has a number, and the next one is 0.
    pub fn clear(&mut self)
        ensures { names_of self.new ≡ no_names }
    {
        self.has.clear();
        self.origins.clear();
    }

    /// From the numbers after a statement to those before it.
    pub fn pass(&mut self, access: &Access) -> Result<(), AllocError>
        ensures { OnOk result (names_of self.new ≡ before_one (access_in access.now) (names_of self.old)) }
    {
        self.name_all(access.writes.as_slice())?;
        self.remove_all(access.writes.as_slice());
        self.name_all(access.reads.as_slice())
    }
}
