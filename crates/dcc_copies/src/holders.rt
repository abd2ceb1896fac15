//! Which locations are held by their names, along the statements of a block.

ghost use Rattle.std.specs.Prelude.{◌≡◌, ◌<◌, true, [], ◌∷◌, length, map, IfOk};
ghost use Rattle.std.specs.List.{list_all};
ghost use Rattle.dcc_ir.specs.Tree.{Set as SetOf, Get as GetOf};
ghost use Rattle.dcc_ir.specs.Use.{writes_of};
ghost use Rattle.dcc_ir.specs.Views.{stmt_of};
ghost use Rattle.dcc_flow.specs.Access.{access_in, access_of};
ghost use Rattle.dcc_copies.specs.Held.{is_own_copy, with_written, all_written, with_copied, held_after};
ghost use Rattle.dcc_copies.specs.Settled.{stmt_reads};
ghost use Rattle.dcc_copies.specs.Holders as spec;
ghost use Rattle.dcc_copies.specs.Holders.{holders_of, with_pair, name_by, held_by, IsSound, IsPlain, IsPassed};
ghost use Rattle.dcc_copies.specs.Holders.{AreRead, Covers};

use crate::names::Names;
use dcc_flow::Access;
use dcc_ir::{Expr, Loc, Stmt};
use std::alloc::{AllocError, Global};

/// Two temporaries of one name, or twice the same, whose values the name holds.
#[derive(Clone, Copy)]
pub struct Pair {
    pub first: u32,
    pub second: u32,
}

/// What a name other than its own temporary alone holds where a block begins.
#[derive(Clone, Copy)]
pub struct Entry {
    pub place: u32,
    pub pair: Pair,
}

/// For each name the temporaries of that name that it holds.
#[derive(Drop)]
pub struct Holders {
    /// For each name two temporaries that it holds.
    pub pairs: Vec<Pair>,
    /// The names that may hold others than their own temporary alone.
    pub noted: Vec<u32>,
}

// The temporary, twice.
fn alone(temporary: u32) -> Pair
    ensures { result ≡ record { first = temporary; second = temporary } }
{
    Pair {
        first: temporary,
        second: temporary,
    }
}

// Whether a name has an entry.
fn has_entry(entries: &[Entry], place: u32) -> bool
    ensures { result ≡ spec.has_entry entries.now place }
{
    for entry in entries {
        if entry.place == place {
            return true;
        }
    }
    false
}

impl Holders {
    /// Each name holds its own temporary alone.
    pub fn new(alloc: Global, count: usize) -> Result<Holders, AllocError>
        ensures { IfOk result (λ holders. IsPlain (holders_of holders)) }
    {
        let mut pairs = Vec::new(alloc);
        for place in 0..count {
            let place = u32::try_from(place).map_err(|_| AllocError)?;
            pairs.push(alone(place))?;
        }
        Ok(Holders {
            pairs,
            noted: Vec::new(alloc),
        })
    }

    /// Whether a location is a temporary that is held by its name.
    pub fn holds(&self, names: &Names, location: Loc) -> bool
        ensures { result ≡ spec.is_held names.now.of.items (holders_of self.now) location }
    {
        let Loc::Temp(temporary) = location else {
            return false;
        };
        let place = names.number(temporary);
        match self.pairs.get(place as usize) {
            Some(pair) => pair.first == temporary || pair.second == temporary,
            None => place == temporary,
        }
    }

    /// Whether the locations are held by their names.
    pub fn hold_all(&self, names: &Names, locations: &[Loc]) -> bool
        ensures { result ≡ list_all (spec.is_held names.now.of.items (holders_of self.now)) locations.now }
    {
        for location in locations {
            if !self.holds(names, *location) {
                return false;
            }
        }
        true
    }

    // A name holds these temporaries; whether there is such a name.
    fn put(&mut self, place: u32, pair: Pair) -> Result<bool, AllocError>
        ensures there { IfOk result (λ there. there ≡ true → place < length self.old.pairs.items) }
        ensures put { IfOk result (λ there. there ≡ true
            → holders_of self.new ≡ with_pair place pair (holders_of self.old)) }
    {
        if place as usize >= self.pairs.len() {
            return Ok(false);
        }
        self.pairs[place as usize] = pair;
        self.noted.push(place)?;
        Ok(true)
    }

    // Each name holds its own temporary alone.
    fn clear(&mut self)
        requires { IsPlain (holders_of self.old) }
        ensures plain { IsPlain (holders_of self.new) }
        ensures none { self.new.noted.items ≡ [] }
    {
        while let Some(place) = self.noted.pop() {
            if (place as usize) < self.pairs.len() {
                self.pairs[place as usize] = alone(place);
            }
        }
    }

    /// The names hold what the entries tell, and else their own temporary alone; whether there are such names.
    pub fn begin(&mut self, names: &Names, entries: &[Entry]) -> Result<bool, AllocError>
        requires { IsPlain (holders_of self.old) }
        ensures plain { IfOk result (λ there. there ≡ true → IsPlain (holders_of self.new)) }
        ensures sound { IfOk result (λ there. there ≡ true
            → IsSound names.now.of.items (holders_of self.new) (held_by names.now.of.items entries.now)) }
    {
        self.clear();
        let mut at = entries.len();
        while at > 0 {
            at -= 1;
            if !self.put(entries[at].place, entries[at].pair)? {
                return Ok(false);
            }
        }
        Ok(true)
    }

    // A location is written; whether it is a temporary that has a name.
    fn write(&mut self, names: &Names, location: Loc) -> Result<bool, AllocError>
        ensures { IfOk result (λ there. there ≡ true → IsPassed names.now.of.items (holders_of self.old)
            (holders_of self.new) (with_written (name_by names.now.of.items) location)) }
    {
        match location {
            Loc::Temp(temporary) => self.put(names.number(temporary), alone(temporary)),
            Loc::Half(..) | Loc::Flag(_) | Loc::Cell(..) => Ok(false),
        }
    }

    // Locations are written; whether they are temporaries that have names.
    fn write_all(&mut self, names: &Names, locations: &[Loc]) -> Result<bool, AllocError>
        ensures { IfOk result (λ there. there ≡ true → IsPassed names.now.of.items (holders_of self.old)
            (holders_of self.new) (all_written (name_by names.now.of.items) locations.now)) }
    {
        for at in 0..locations.len() {
            if !self.write(names, locations[at])? {
                return Ok(false);
            }
        }
        Ok(true)
    }

    // A location that is held is copied to one of the same name; whether both are temporaries that have it.
    fn copy_one(&mut self, names: &Names, to: Loc, from: Loc) -> Result<bool, AllocError>
        requires own { is_own_copy (name_by names.now.of.items) (SetOf to (GetOf from)) ≡ true }
        requires held { list_all (spec.is_held names.now.of.items (holders_of self.old)) (stmt_reads (SetOf to (GetOf from)))
            ≡ true }
        ensures { IfOk result (λ there. there ≡ true → IsPassed names.now.of.items (holders_of self.old)
            (holders_of self.new) (with_copied (SetOf to (GetOf from)))) }
    {
        let Loc::Temp(second) = to else {
            return Ok(false);
        };
        let Loc::Temp(first) = from else {
            return Ok(false);
        };
        self.put(names.number(first), Pair { first, second })
    }

    // A statement copies a location that is held to one of the same name; whether both are temporaries that have it.
    fn copy(&mut self, names: &Names, stmt: &Stmt) -> Result<bool, AllocError>
        requires own { is_own_copy (name_by names.now.of.items) (stmt_of stmt.now) ≡ true }
        requires held { list_all (spec.is_held names.now.of.items (holders_of self.old)) (stmt_reads (stmt_of stmt.now))
            ≡ true }
        ensures { IfOk result (λ there. there ≡ true → IsPassed names.now.of.items (holders_of self.old)
            (holders_of self.new) (with_copied (stmt_of stmt.now))) }
    {
        match stmt {
            Stmt::Set {
                place,
                value: Expr::Get(from),
            } => self.copy_one(names, *place, *from),
            _ => Ok(false),
        }
    }

    // From what is held before a statement, which reads what is held, to what is held after it; whether it writes
    // temporaries that have names.
    fn pass(&mut self, names: &Names, stmt: &Stmt, writes: &[Loc]) -> Result<bool, AllocError>
        requires writes { writes.now ≡ writes_of (stmt_of stmt.now) }
        requires held { list_all (spec.is_held names.now.of.items (holders_of self.old)) (stmt_reads (stmt_of stmt.now))
            ≡ true }
        ensures { IfOk result (λ there. there ≡ true → IsPassed names.now.of.items (holders_of self.old)
            (holders_of self.new) (held_after (name_by names.now.of.items) (stmt_of stmt.now))) }
    {
        if names.is_own_copy(stmt) {
            self.copy(names, stmt)
        } else {
            self.write_all(names, writes)
        }
    }

    // Whether a statement reads what is held; then from what is held before it to what is held after it.
    fn step(&mut self, names: &Names, stmt: &Stmt, access: &Access) -> Result<bool, AllocError>
        requires { access_in access.now ≡ access_of (stmt_of stmt.now) }
        ensures { IfOk result (λ right. right ≡ true
            → AreRead names.now.of.items (holders_of self.old) (holders_of self.new) (stmt_of stmt.now ∷ [])) }
    {
        if !self.hold_all(names, access.reads.as_slice()) {
            return Ok(false);
        }
        self.pass(names, stmt, access.writes.as_slice())
    }

    /// Whether statements read what is held; then from what is held before them to what is held after them.
    pub fn steps(
        &mut self,
        names: &Names,
        stmts: &[Stmt],
        accesses: &[Access],
    ) -> Result<bool, AllocError>
        requires { map access_in accesses.now ≡ map access_of (map stmt_of stmts.now) }
        ensures { IfOk result (λ right. right ≡ true
            → AreRead names.now.of.items (holders_of self.old) (holders_of self.new) (map stmt_of stmts.now)) }
    {
        for at in 0..stmts.len() {
            if !self.step(names, &stmts[at], &accesses[at])? {
                return Ok(false);
            }
        }
        Ok(true)
    }

    // Whether a name holds its own temporary.
    fn holds_own(&self, place: u32) -> bool
        ensures { result ≡ spec.is_own (holders_of self.now) place }
    {
        match self.pairs.get(place as usize) {
            Some(pair) => pair.first == place || pair.second == place,
            None => true,
        }
    }

    // Whether the names that were noted and have no entry hold their own temporary.
    fn hold_others(&self, entries: &[Entry]) -> bool
        ensures { result ≡ list_all (spec.is_own_or_entered (holders_of self.now) entries.now) self.now.noted.items }
    {
        for place in &self.noted {
            if !self.holds_own(*place) && !has_entry(entries, *place) {
                return false;
            }
        }
        true
    }

    // Whether the names hold both temporaries of each entry.
    fn hold_entries(&self, names: &Names, entries: &[Entry]) -> bool
        ensures { result ≡ list_all (spec.is_entry_held names.now.of.items (holders_of self.now)) entries.now }
    {
        for entry in entries {
            let first = self.holds(names, Loc::Temp(entry.pair.first));
            if !first || !self.holds(names, Loc::Temp(entry.pair.second)) {
                return false;
            }
        }
        true
    }

    /// Whether the names hold what the entries tell, and else their own temporary.
    pub fn covers(&self, names: &Names, entries: &[Entry]) -> bool
        requires { IsPlain (holders_of self.now) }
        ensures { result ≡ true → Covers names.now.of.items (holders_of self.now) entries.now }
    {
        self.hold_others(entries) && self.hold_entries(names, entries)
    }
}
