//! Sets of locations.

ghost use Rattle.std.specs.Prelude.{◌≡◌, ℕ, ◌<◌, false, [], length, get_or, filter, IfOk, OnOk};
ghost use Rattle.std.specs.List.{list_any};
ghost use Rattle.dcc_ir.specs.declared.syntax.Loc.{Loc as Location};
ghost use Rattle.dcc_ir.specs.Live.{is_among};
ghost use Rattle.dcc_flow.specs.Marks.{empty, members, with_one, without_one, with_all, without_all, location_number};
ghost use Rattle.dcc_flow.specs.Marks.{AreNoted};

use dcc_ir::Loc;
use std::alloc::{AllocError, Global};
use std::marker::Model;

/// A number of its own for each location.
pub(crate) fn number(location: Loc) -> usize
    ensures { result ≡ location_number location }
{
    match location {
        Loc::Half(r, h) => 2 * (r as usize) + h as usize,
        Loc::Flag(f) => 16 + f as usize,
        Loc::Cell(n, h) => 20 + 3 * (n as usize) + h as usize,
        Loc::Temp(n) => 22 + 3 * (n as usize),
    }
}

// The list has the place; what is added holds false.
fn make_room(has: &mut Vec<bool>, place: usize) -> Result<(), AllocError>
    ensures same { (n : ℕ) → get_or has.new.items n false ≡ get_or has.old.items n false }
    ensures room { OnOk result (place < length has.new.items) }
{
    while has.len() <= place {
        has.push(false)?;
    }
    Ok(())
}

// Takes all that was noted out.
fn take_out(has: &mut Vec<bool>, noted: &mut Vec<Loc>)
    requires { AreNoted has.old.items noted.old.items }
    ensures has { (n : ℕ) → get_or has.new.items n false ≡ false }
    ensures noted { noted.new.items ≡ [] }
{
    while let Some(location) = noted.pop() {
        let n = number(location);
        if n < has.len() {
            has[n] = false;
        }
    }
}

// The locations among these whose numbers hold true.
fn those_held(alloc: Global, has: &[bool], locations: &[Loc]) -> Result<Vec<Loc>, AllocError>
    ensures { IfOk result (λ list. list.items ≡ filter (members has.now) locations.now) }
{
    let mut list = Vec::new(alloc);
    for location in locations {
        let n = number(*location);
        if n < has.len() && has[n] {
            list.push(*location)?;
        }
    }
    Ok(list)
}

/// A set of locations. To look a location up, to put it in and to take it out costs the same however many there are;
/// to empty the set, or to list what is in it, costs as much as was put in.
#[derive(Drop)]
pub struct Marks {
    /// Whether the location of a number is in the set; those of further numbers are not.
    has: Vec<bool>,
    /// What was put in since the set was empty.
    noted: Vec<Loc>,
}

impl Model for Marks {
    ghost use Rattle.std.specs.Prelude.{List, Bool};
    ghost use Rattle.dcc_flow.specs.Marks.{AreNoted};

    ghost Value = { List Bool };

    ghost view = { λ m. m.has.items };

    ghost invariant = { λ m. AreNoted m.has.items m.noted.items };
}

impl Marks {
    /// The empty set.
    pub fn new(alloc: Global) -> Marks
        ensures { members result ≡ empty }
    {
        Marks {
            has: Vec::new(alloc),
            noted: Vec::new(alloc),
        }
    }

    /// Whether the location is in the set.
    pub fn contains(&self, location: Loc) -> bool
        ensures { result ≡ members self.now location }
    {
        let n = number(location);
        n < self.has.len() && self.has[n]
    }

    /// The location is put into the set.
    pub fn add(&mut self, location: Loc) -> Result<(), AllocError>
        ensures { OnOk result (members self.new ≡ with_one (members self.old) location) }
    {
        let n = number(location);
        make_room(&mut self.has, n)?;
        if !self.has[n] {
            self.noted.push(location)?;
            self.has[n] = true;
        }
        Ok(())
    }

    /// The location is taken out of the set.
    pub fn remove(&mut self, location: Loc)
        ensures { members self.new ≡ without_one (members self.old) location }
    {
        let n = number(location);
        if n < self.has.len() {
            self.has[n] = false;
        }
    }

    /// The locations are put into the set.
    pub fn add_all(&mut self, locations: &[Loc]) -> Result<(), AllocError>
        ensures { OnOk result (members self.new ≡ with_all (members self.old) locations.now) }
    {
        for location in locations {
            self.add(*location)?;
        }
        Ok(())
    }

    /// The locations are taken out of the set.
    pub fn remove_all(&mut self, locations: &[Loc])
        ensures { members self.new ≡ without_all (members self.old) locations.now }
    {
        for location in locations {
            self.remove(*location);
        }
    }

    /// Whether one of the locations is in the set.
    pub fn contains_any(&self, locations: &[Loc]) -> bool
        ensures { result ≡ list_any (members self.now) locations.now }
    {
        for location in locations {
            if self.contains(*location) {
                return true;
            }
        }
        false
    }

    /// The locations in the set, some of them perhaps more than once.
    pub fn listed(&self, alloc: Global) -> Result<Vec<Loc>, AllocError>
        ensures { IfOk result (λ list. (x : Location) → is_among list.items x ≡ members self.now x) }
    {
        those_held(alloc, self.has.as_slice(), self.noted.as_slice())
    }

    /// The set is empty.
    pub fn clear(&mut self)
        ensures { members self.new ≡ empty }
    {
        take_out(&mut self.has, &mut self.noted);
    }
}
