//! What a walk along a chain of blocks knows of temporaries.

ghost use Rattle.std.specs.Prelude.{◌≡◌, ℕ, ◌<◌, length, map, option_map, get_or, if◌then◌else◌, OnOk};
ghost use Rattle.dcc_ir.specs.declared.syntax.Loc.{Loc as LocOf};
ghost use Rattle.dcc_ir.specs.Tree.{Set as SetOf};
ghost use Rattle.dcc_ir.specs.Views.{expr_of, stmt_of};
ghost use Rattle.dcc_ir.specs.Location.{same_location};
ghost use Rattle.dcc_flow.specs.Marks.{location_number};
ghost use Rattle.dcc_fold.specs.Chain.{statement, edge};
ghost use Rattle.dcc_fold.specs.Known as spec;
ghost use Rattle.dcc_fold.specs.Known.{known_of, IsEmpty, IsAfter, is_begun, told, stamp, IsWritten};

use dcc_ir::{Expr, Loc, Stmt};
use std::alloc::{AllocError, Global};

/// That a temporary was set to a value.
#[derive(Drop)]
pub struct Fact<'a> {
    temporary: u32,
    value: &'a Expr,
}

/// The facts of a walk, in their order, and what it passed since. What was passed is told by the number of facts before
/// it: the value of a fact that has a greater or the same number came later.
#[derive(Drop)]
pub struct Known<'a> {
    facts: Vec<Fact<'a>>,
    /// For each number of a location when it was written last.
    written: Vec<usize>,
    /// The last Store.
    stored: usize,
    /// The last edge.
    crossed: usize,
    /// The last Call or Dos, or the begin of the chain.
    called: usize,
}

// A number of its own for each location.
fn number(location: Loc) -> usize
    ensures { result ≡ location_number location }
{
    match location {
        Loc::Half(r, h) => 2 * (r as usize) + h as usize,
        Loc::Flag(f) => 16 + f as usize,
        Loc::Cell(n, h) => 20 + 3 * (n as usize) + h as usize,
        Loc::Temp(n) => 22 + 3 * (n as usize),
    }
}

// The list has the place; what is added is 0.
fn make_room(list: &mut Vec<usize>, place: usize) -> Result<(), AllocError>
    ensures same { (n : ℕ) → get_or list.new.items n 0 ≡ get_or list.old.items n 0 }
    ensures room { OnOk result (place < length list.new.items) }
{
    while list.len() <= place {
        list.push(0)?;
    }
    Ok(())
}

impl<'a> Known<'a> {
    /// Nothing is known.
    pub fn new(alloc: Global) -> Known<'a>
        ensures { IsEmpty (known_of result) }
    {
        Known {
            facts: Vec::new(alloc),
            written: Vec::new(alloc),
            stored: 0,
            crossed: 0,
            called: 0,
        }
    }

    /// A chain begins, and nothing is known.
    pub fn begin(&mut self)
        ensures { known_of self.new ≡ is_begun (known_of self.old) }
    {
        self.called = self.facts.len();
    }

    /// An edge is passed.
    pub fn cross(&mut self)
        ensures { IsAfter edge (known_of self.old) (known_of self.new) }
    {
        self.crossed = self.facts.len();
    }

    // A location is written.
    fn write(&mut self, location: Loc) -> Result<(), AllocError>
        ensures { OnOk result (IsWritten location (known_of self.old) (known_of self.new)) }
    {
        let place = number(location);
        make_room(&mut self.written, place)?;
        self.written[place] = self.facts.len();
        Ok(())
    }

    // A location was set to a value.
    fn set(&mut self, location: Loc, value: &'a Expr) -> Result<(), AllocError>
        ensures { OnOk result (IsAfter (statement (SetOf location (expr_of value.now))) (known_of self.old) (known_of self.new)) }
    {
        self.write(location)?;
        if let Loc::Temp(temporary) = location {
            self.facts.push(Fact { temporary, value })?;
        }
        Ok(())
    }

    /// A statement is passed. What a Call or a Dos writes is no matter, since no value passes these.
    pub fn pass(&mut self, stmt: &'a Stmt) -> Result<(), AllocError>
        ensures { OnOk result (IsAfter (statement (stmt_of stmt.now)) (known_of self.old) (known_of self.new)) }
    {
        match stmt {
            Stmt::Set { place, value } => self.set(*place, value)?,
            Stmt::Load { place, .. } | Stmt::Div { place, .. } => self.write(*place)?,
            Stmt::Store { .. } => self.stored = self.facts.len(),
            Stmt::Call { .. } | Stmt::Dos { .. } => self.called = self.facts.len(),
        }
        Ok(())
    }

    // When the location was written last.
    fn stamp(&self, location: Loc) -> usize
        ensures { result ≡ stamp (known_of self.now) location }
    {
        self.written.get(number(location)).copied().unwrap_or(0)
    }

    // Whether nothing of what the expression reads was written since the fact of that number.
    fn is_still(&self, at: usize, e: &Expr) -> bool
        ensures { result ≡ spec.is_still (known_of self.now) at (expr_of e.now) }
    {
        match e {
            Expr::Const(..) => true,
            Expr::Get(location) => self.stamp(*location) <= at,
            Expr::Load(_, a) => self.stored <= at && self.crossed <= at && self.is_still(at, a),
            Expr::Un(_, _, a) | Expr::Widen(_, _, a) | Expr::Part(_, _, a) => self.is_still(at, a),
            Expr::Bin(_, _, a, b) | Expr::Join(a, b) => self.is_still(at, a)
                && self.is_still(at, b),
            Expr::Choose(test, a, b) => {
                self.is_still(at, test) && self.is_still(at, a) && self.is_still(at, b)
            }
            Expr::Address(_) => self.crossed <= at,
        }
    }

    /// The value that the temporary was set to, if it may pass all that the walk passed since.
    pub fn value(&self, temporary: u32) -> Option<&'a Expr>
        ensures { option_map (λ value. expr_of value.now) result ≡ told (known_of self.now) temporary }
    {
        let at = self.stamp(Loc::Temp(temporary));
        match self.facts.get(at) {
            Some(fact)
                if fact.temporary == temporary
                    && self.called <= at
                    && self.is_still(at, fact.value) => Some(fact.value),
            _ => None,
        }
    }
}
