//! What trails to a point have done to a location.

ghost use Rattle.std.specs.Prelude.{◌≡◌, ◌&&◌, not, map, filter, IfOk, OnOk};
ghost use Rattle.std.specs.List.{list_any};
ghost use Rattle.std.specs.Option.{option_to_list};
ghost use Rattle.dcc_ir.specs.Views.{stmt_of};
ghost use Rattle.dcc_ir.specs.Live.{is_among};
ghost use Rattle.dcc_demand.specs.Tables.{lost_after};
ghost use Rattle.dcc_sums.specs.Instance.{passes, is_half, is_pushed, written_by, callee_of, action_of};
ghost use Rattle.dcc_modref.specs.States.{state_of, at_entry, is_unsaved, joined, is_news, is_told, told_in};
ghost use Rattle.dcc_modref.specs.States.{pushed_by, after, after_all};

use dcc_flow::Locations;
use dcc_ir::plain::scene::same_location;
use dcc_ir::{Expr, Graph, Loc, PASSED_LOCATIONS, Stmt};
use std::alloc::{AllocError, Global};

/// Whether the location is one of the list.
pub fn is_among(locations: &[Loc], location: Loc) -> bool
    ensures { result ≡ is_among locations.now location }
{
    for other in locations {
        if same_location(location, *other) {
            return true;
        }
    }
    false
}

/// Whether the location passes between procedures.
pub fn passes(location: Loc) -> bool
    ensures { result ≡ passes location }
{
    is_among(&PASSED_LOCATIONS, location)
}

fn is_half(location: Loc) -> bool
    ensures { result ≡ is_half location }
{
    match location {
        Loc::Half(..) => true,
        _ => false,
    }
}

// Whether the location is a byte of a pushed word's cell.
fn is_pushed(pushed: u16, location: Loc) -> bool
    ensures { result ≡ is_pushed pushed location }
{
    match location {
        Loc::Cell(n, _) => pushed <= n,
        _ => false,
    }
}

/// Whether a statement writes the location. Of the places of a call's results only those of bytes of arguments are
/// written.
#[tactic(auto, using(crate::proofs::StateLaws::among_filter))]
pub fn writes(stmt: &Stmt, location: Loc) -> bool
    ensures { result ≡ is_among (written_by (stmt_of stmt.now)) location }
{
    match stmt {
        Stmt::Set { place, .. } | Stmt::Load { place, .. } | Stmt::Div { place, .. } => {
            same_location(location, *place)
        }
        Stmt::Store { .. } => false,
        Stmt::Call { results, .. } => !passes(location) && is_among(results.as_slice(), location),
        Stmt::Dos { place, .. } => match place {
            Some(place) => same_location(location, *place),
            None => false,
        },
    }
}

// Whether a statement calls one of the procedures that are told of.
fn calls_one(stmt: &Stmt, changed: &[bool]) -> bool
    ensures { result ≡ is_told (told_in changed.now) (callee_of (stmt_of stmt.now)) }
{
    match stmt {
        Stmt::Call { entry, .. } => changed.get(*entry as usize).copied().unwrap_or(false),
        _ => false,
    }
}

// The word into which a statement pushes the location.
fn pushed_by(stmt: &Stmt, location: Loc) -> Option<Loc>
    ensures { option_to_list result ≡ pushed_by location (stmt_of stmt.now) }
{
    let Stmt::Set { place, value } = stmt else {
        return None;
    };
    let Expr::Get(from) = value else {
        return None;
    };
    if is_half(*from) && same_location(*from, location) {
        Some(*place)
    } else {
        None
    }
}

/// Which location is looked at where.
#[derive(Drop)]
pub struct Subject<'a> {
    /// Whether the procedure of an entry is known to change the location.
    pub changed: &'a [bool],
    pub graph: &'a Graph,
    pub location: Loc,
}

/// What some trails to a point have done to a location, and what all have.
#[derive(Drop)]
pub struct State {
    /// Some trail has written it.
    pub written: bool,
    /// Some trail has lost it.
    pub lost: bool,
    /// All trails have saved it in these words.
    pub saved: Locations,
}

impl State {
    /// At the entry of a procedure.
    pub fn new(alloc: Global) -> State
        ensures { state_of result ≡ at_entry }
    {
        State {
            written: false,
            lost: false,
            saved: Locations::new(alloc),
        }
    }

    /// A state of its own with the same facts.
    pub fn copy(&self) -> Result<State, AllocError>
        ensures { IfOk result (λ s. state_of s ≡ state_of self.now) }
    {
        let saved = self.saved.copy()?;
        Ok(State {
            written: self.written,
            lost: self.lost,
            saved,
        })
    }

    // Whether the location is lost after a statement, but for what its call does.
    fn loses(&self, stmt: &Stmt, pushed: u16, location: Loc) -> bool
        ensures { result ≡ lost_after (is_pushed pushed) ((action_of pushed (stmt_of stmt.now)).effect location)
            (is_unsaved (state_of self.now)) self.now.lost }
    {
        if !writes(stmt, location) {
            return self.lost;
        }
        let Stmt::Set { place, value } = stmt else {
            return true;
        };
        let Expr::Get(from) = value else {
            return true;
        };
        !(is_half(*place) && is_pushed(pushed, *from) && self.saved.contains(*from))
    }

    // Whether one of these places of a call's results is of a byte of an argument that holds the location saved.
    fn any_saves(&self, results: &[Loc]) -> bool
        ensures { result ≡ list_any (λ place. not (passes place) && is_among self.now.saved place) results.now }
    {
        results
            .iter()
            .any(|place| !passes(*place) && self.saved.contains(*place))
    }

    // Whether a statement writes one of the words that hold the location saved.
    fn is_overwritten(&self, stmt: &Stmt) -> bool
        ensures { result ≡ list_any (is_among self.now.saved) (written_by (stmt_of stmt.now)) }
    {
        match stmt {
            Stmt::Set { place, .. } | Stmt::Load { place, .. } | Stmt::Div { place, .. } => {
                self.saved.contains(*place)
            }
            Stmt::Store { .. } => false,
            Stmt::Call { results, .. } => self.any_saves(results.as_slice()),
            Stmt::Dos { place, .. } => match place {
                Some(place) => self.saved.contains(*place),
                None => false,
            },
        }
    }

    // The words that hold the location saved and that a statement doesn't write.
    fn unwritten(&self, alloc: Global, stmt: &Stmt) -> Result<Locations, AllocError>
        ensures { IfOk result (λ words. words
            ≡ filter (λ word. not (is_among (written_by (stmt_of stmt.now)) word)) self.now.saved) }
    {
        let mut words = Locations::new(alloc);
        for word in self.saved.as_slice() {
            if !writes(stmt, *word) {
                words.push(*word)?;
            }
        }
        Ok(words)
    }

    // The words that a statement writes hold the location saved no more. Most statements write none of them.
    fn forget(&mut self, alloc: Global, stmt: &Stmt) -> Result<(), AllocError>
        ensures saved { OnOk result (self.new.saved
            ≡ filter (λ word. not (is_among (written_by (stmt_of stmt.now)) word)) self.old.saved) }
        ensures written { self.new.written ≡ self.old.written }
        ensures lost { self.new.lost ≡ self.old.lost }
    {
        if self.is_overwritten(stmt) {
            self.saved = self.unwritten(alloc, stmt)?;
        }
        Ok(())
    }

    /// From before a statement to after it.
    #[tactic(auto, using(crate::proofs::StateLaws::left_unwritten))]
    pub fn pass(
        &mut self,
        alloc: Global,
        stmt: &Stmt,
        subject: &Subject<'_>,
    ) -> Result<(), AllocError>
        ensures { OnOk result (state_of self.new ≡ after (told_in subject.now.changed.now) subject.now.graph.now.pushed
            subject.now.location (stmt_of stmt.now) (state_of self.old)) }
    {
        let called = calls_one(stmt, subject.changed);
        let lost = called || self.loses(stmt, subject.graph.pushed, subject.location);
        self.forget(alloc, stmt)?;
        if !self.written {
            if let Some(word) = pushed_by(stmt, subject.location) {
                self.saved.push(word)?;
            }
        }
        self.written = writes(stmt, subject.location) || called || self.written;
        self.lost = lost;
        Ok(())
    }

    /// From before statements to after them.
    pub fn pass_all(
        &mut self,
        alloc: Global,
        stmts: &[Stmt],
        subject: &Subject<'_>,
    ) -> Result<(), AllocError>
        ensures { OnOk result (state_of self.new ≡ after_all (told_in subject.now.changed.now)
            subject.now.graph.now.pushed subject.now.location (map stmt_of stmts.now) (state_of self.old)) }
    {
        for stmt in stmts {
            self.pass(alloc, stmt, subject)?;
        }
        Ok(())
    }

    // The words that hold the location saved in both states.
    fn common(&self, alloc: Global, other: &State) -> Result<Locations, AllocError>
        ensures { IfOk result (λ words. words ≡ filter (is_among other.now.saved) self.now.saved) }
    {
        let mut words = Locations::new(alloc);
        for word in self.saved.as_slice() {
            if other.saved.contains(*word) {
                words.push(*word)?;
            }
        }
        Ok(words)
    }

    /// Another trail comes to where this one has come. The answer is whether that is new.
    pub fn join(&mut self, alloc: Global, other: &State) -> Result<bool, AllocError>
        ensures state { OnOk result (state_of self.new ≡ joined (state_of self.old) (state_of other.now)) }
        ensures new { IfOk result (λ new. new ≡ is_news (state_of self.old) (state_of other.now)) }
    {
        let new = other.written && !self.written || other.lost && !self.lost;
        self.written |= other.written;
        self.lost |= other.lost;
        // Most states have saved nothing.
        let before = self.saved.as_slice().len();
        if before == 0 {
            return Ok(new);
        }
        let saved = self.common(alloc, other)?;
        let fewer = saved.as_slice().len() < before;
        self.saved = saved;
        Ok(new || fewer)
    }
}
