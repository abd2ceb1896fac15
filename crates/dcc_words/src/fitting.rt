//! Whether pairs may become words.

ghost use Rattle.std.specs.Prelude.{◌≡◌, ◌&&◌, ◌||◌, true, map, IfOk};
ghost use Rattle.std.specs.List.{list_all};
ghost use Rattle.dcc_ir.specs.Views.{stmt_of, block_of, graph_of};
ghost use Rattle.dcc_ir.specs.declared.syntax.Loc.{Loc as Location};
ghost use Rattle.dcc_ir.specs.WellFormed.{IsGraph};
ghost use Rattle.dcc_ir.specs.Location.{same_location};
ghost use Rattle.dcc_words.specs.Words as spec;
ghost use Rattle.dcc_words.specs.Words.{are_halves, takes_argument, MayBecomeWords};
ghost use Rattle.dcc_words.specs.Roles.{role_of};

use crate::roles::{Pair, Role, Roles};
use dcc_ir::{Block, Graph, Loc, Param, Put, Stmt};
use dcc_live::live_at_start;
use std::alloc::{AllocError, Global};

// Whether all three hold.
fn are_all(one: bool, other: bool, third: bool) -> bool
    ensures { result ≡ (one && other && third) }
{
    one && other && third
}

impl Roles {
    // Whether an argument goes to no half but together with the other half of its word.
    fn takes_whole(&self, put: Put) -> bool
        ensures { result ≡ spec.takes_whole (role_of self.now) put }
    {
        match put {
            Put::Memory => true,
            Put::One(location) => self.role(location).is_alone(),
            Put::Two(low, high) => match (self.role(low), self.role(high)) {
                (Role::Alone, Role::Alone) => true,
                (Role::Low(word), Role::High(other)) => word == other,
                _ => false,
            },
        }
    }

    // Whether all arguments do so.
    fn take_whole(&self, params: &[Param]) -> bool
        ensures { result ≡ list_all (λ p. spec.takes_whole (role_of self.now) p.put) params.now }
    {
        for param in params {
            if !self.takes_whole(param.put) {
                return false;
            }
        }
        true
    }

    // Whether no location is a half.
    fn are_alone(&self, locations: &[Loc]) -> bool
        ensures { result ≡ list_all (λ l. spec.is_alone (role_of self.now l)) locations.now }
    {
        for location in locations {
            if !self.role(*location).is_alone() {
                return false;
            }
        }
        true
    }

    // Whether a statement writes no half but by a Set.
    fn writes_whole(&self, stmt: &Stmt) -> bool
        ensures { result ≡ spec.writes_whole (role_of self.now) (stmt_of stmt.now) }
    {
        match stmt {
            Stmt::Set { .. } | Stmt::Store { .. } => true,
            Stmt::Load { place, .. } | Stmt::Div { place, .. } => self.role(*place).is_alone(),
            Stmt::Call { results, .. } => self.are_alone(results.as_slice()),
            Stmt::Dos { place, .. } => match place {
                Some(location) => self.role(*location).is_alone(),
                None => true,
            },
        }
    }

    // Whether all statements of a block do so.
    fn block_writes_whole(&self, stmts: &Vec<Stmt>) -> bool
        ensures { result ≡ list_all (spec.writes_whole (role_of self.now)) (map stmt_of stmts.now.items) }
    {
        for stmt in stmts {
            if !self.writes_whole(stmt) {
                return false;
            }
        }
        true
    }

    // Whether all statements of all blocks do so.
    fn write_whole(&self, blocks: &Vec<Block>) -> bool
        ensures { result ≡ list_all (λ b. list_all (spec.writes_whole (role_of self.now)) b.stmts) (map block_of blocks.now.items) }
    {
        for block in blocks {
            if !self.block_writes_whole(&block.stmts) {
                return false;
            }
        }
        true
    }

    // Whether each of the locations stays, or takes an argument.
    fn are_given(&self, locations: &[Loc], params: &[Param]) -> bool
        ensures { result ≡ list_all (λ l. spec.is_alone (role_of self.now l) || takes_argument params.now l) locations.now }
    {
        for location in locations {
            if !(self.role(*location).is_alone() || takes(params, *location)) {
                return false;
            }
        }
        true
    }

    /// Whether the pairs may become words.
    pub fn may_become_words(
        &self,
        alloc: Global,
        g: &Graph,
        pairs: &[Pair],
    ) -> Result<bool, AllocError>
        requires formed { IsGraph (graph_of g.now) }
        requires halves { list_all (are_halves g.now.bits.items) pairs.now ≡ true }
        requires roles { (l : Location) → role_of self.now l ≡ spec.role_in pairs.now g.now.bits.items l }
        ensures { IfOk result (λ may. may ≡ true → MayBecomeWords pairs.now (graph_of g.now)) }
    {
        let live = live_at_start(alloc, g)?;
        let params = g.params.as_slice();
        let takes = self.take_whole(params);
        let given = self.are_given(live.as_slice(), params);
        let writes = self.write_whole(&g.blocks);
        Ok(are_all(takes, given, writes))
    }
}

// Whether the two are one.
fn is_same(location: Loc, other: Loc) -> bool
    ensures { result ≡ same_location location other }
{
    location == other
}

// Whether an argument goes to the location.
fn goes_to(location: Loc, put: Put) -> bool
    ensures { result ≡ spec.goes_to location put }
{
    match put {
        Put::Memory => false,
        Put::One(place) => is_same(location, place),
        Put::Two(low, high) => is_same(location, low) || is_same(location, high),
    }
}

// Whether a location takes an argument.
fn takes(params: &[Param], location: Loc) -> bool
    ensures { result ≡ takes_argument params.now location }
{
    for param in params {
        if goes_to(location, param.put) {
            return true;
        }
    }
    false
}
