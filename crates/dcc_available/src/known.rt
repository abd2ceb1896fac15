//! What a walk along a chain of blocks knows of temporaries.

ghost use Rattle.std.specs.Prelude.{◌≡◌, ◌≤◌, [], ◌∷◌, length, IfOk, OnOk, IfSome};
ghost use Rattle.dcc_ir.specs.declared.syntax.Loc.TheVariants.{Temp as TempOf};
ghost use Rattle.dcc_ir.specs.Measure.{depth_of};
ghost use Rattle.dcc_ir.specs.Views.{expr_of, stmt_of};
ghost use Rattle.dcc_available.specs.Along.{edge};
ghost use Rattle.dcc_available.specs.Known as spec;
ghost use Rattle.dcc_available.specs.Known.{known_of, stamps_of, with_written, past, with_fact, IsTold};

use crate::expressions::{copied, is_within};
use dcc_ir::{Expr, Loc, Stmt};
use std::alloc::{AllocError, Global};

/// An assignment of an expression to a temporary.
#[derive(Drop)]
pub struct Fact {
    pub temporary: u32,
    pub value: Expr,
}

/// The facts that a walk noted, and what was written since: each fact holds whose temporary and whose reads no later
/// statement wrote.
#[derive(Drop)]
pub struct Known {
    pub alloc: Global,
    pub facts: Vec<Fact>,
    /// The number of facts before the chain.
    pub begun: usize,
    /// For each temporary the number of its last fact, if it has one.
    pub last: Vec<usize>,
    /// For each temporary the number of facts before its last write.
    pub written: Vec<usize>,
    /// The number of facts before the last Store, Call or Dos.
    pub stored: usize,
    /// The number of facts before the last Call, or edge.
    pub called: usize,
}

impl Known {
    /// Nothing is known of so many temporaries.
    pub fn new(alloc: Global, count: usize) -> Result<Known, AllocError> {
        Ok(Known {
            alloc,
            facts: Vec::new(alloc),
            begun: 0,
            last: vec![in alloc; 0; count]?,
            written: vec![in alloc; 0; count]?,
            stored: 0,
            called: 0,
        })
    }

    /// At the begin of a chain nothing is known.
    pub fn begin(&mut self)
        ensures { known_of self.new ≡ record (known_of self.old) { begun = length (known_of self.old).facts } }
    {
        self.begun = self.facts.len();
    }

    /// From what is known at the end of a block to what is known behind the edge to the next one.
    pub fn pass_edge(&mut self)
        ensures { known_of self.new ≡ past edge (known_of self.old) }
    {
        self.stored = self.facts.len();
        self.called = self.facts.len();
    }

    // A location is written.
    fn write(&mut self, place: Loc)
        ensures { known_of self.new ≡ with_written (place ∷ []) (known_of self.old) }
    {
        if let Loc::Temp(temporary) = place {
            if let Some(written) = self.written.get_mut(temporary as usize) {
                *written = self.facts.len();
            }
        }
    }

    // Locations are written.
    fn write_all(&mut self, places: &[Loc])
        ensures { known_of self.new ≡ with_written places.now (known_of self.old) }
    {
        for place in places {
            self.write(*place);
        }
    }

    /// From what is known before a statement to what is known after it.
    pub fn pass(&mut self, stmt: &Stmt)
        ensures { known_of self.new ≡ past (stmt_of stmt.now) (known_of self.old) }
    {
        match stmt {
            Stmt::Set { place, .. } | Stmt::Load { place, .. } | Stmt::Div { place, .. } => {
                self.write(*place);
            }
            Stmt::Store { .. } => self.stored = self.facts.len(),
            Stmt::Call { results, .. } => {
                self.write_all(results.as_slice());
                self.pass_edge();
            }
            Stmt::Dos { place, .. } => {
                self.stored = self.facts.len();
                if let Some(place) = place {
                    self.write(*place);
                }
            }
        }
    }

    /// Notes that a temporary was just set to the expression.
    pub fn note(&mut self, temporary: u32, value: &Expr) -> Result<(), AllocError>
        ensures { OnOk result (known_of self.new
            ≡ with_fact (record { temporary = temporary; value = expr_of value.now }) (known_of self.old)) }
    {
        let at = self.facts.len();
        let value = copied(self.alloc, value)?;
        self.facts.push(Fact { temporary, value })?;
        if let Some(last) = self.last.get_mut(temporary as usize) {
            *last = at;
        }
        Ok(())
    }

    // Whether nothing has written the temporary since the fact of that number.
    fn is_kept(&self, at: usize, temporary: u32) -> bool
        ensures { result ≡ spec.is_kept self.now.written.items at temporary }
    {
        match self.written.get(temporary as usize) {
            Some(written) => *written <= at,
            None => false,
        }
    }

    // Whether the location is another temporary, which nothing has written since the fact of that number.
    fn is_kept_apart(&self, at: usize, temporary: u32, location: Loc) -> bool
        ensures { result ≡ spec.is_kept_apart self.now.written.items at temporary location }
    {
        match location {
            Loc::Temp(other) => other != temporary && self.is_kept(at, other),
            Loc::Half(..) | Loc::Flag(_) | Loc::Cell(..) => false,
        }
    }

    // Whether nothing has written what the expression reads since the fact of that number.
    fn is_still(&self, at: usize, temporary: u32, e: &Expr) -> bool
        ensures { result ≡ spec.is_still (stamps_of self.now) at temporary (expr_of e.now) }
    {
        match e {
            Expr::Const(..) => true,
            Expr::Get(location) => self.is_kept_apart(at, temporary, *location),
            Expr::Load(_, a) => self.stored <= at && self.is_still(at, temporary, a),
            Expr::Un(_, _, a) | Expr::Widen(_, _, a) | Expr::Part(_, _, a) => {
                self.is_still(at, temporary, a)
            }
            Expr::Bin(_, _, a, b) | Expr::Join(a, b) => {
                self.is_still(at, temporary, a) && self.is_still(at, temporary, b)
            }
            Expr::Choose(test, a, b) => self.is_still(at, temporary, test)
                && self.is_still(at, temporary, a)
                && self.is_still(at, temporary, b),
            Expr::Address(_) => self.called <= at,
        }
    }

    // Whether the fact of that number is of the chain, of the temporary, and holds.
    fn holds(&self, at: usize, fact: &Fact) -> bool
        ensures { result ≡ spec.is_holding (known_of self.now) at (spec.fact_of fact.now) }
    {
        self.begun <= at
            && self.is_kept(at, fact.temporary)
            && self.is_still(at, fact.temporary, &fact.value)
    }

    /// An expression of which the temporary is known to hold the value, at most so deep.
    pub fn value(&self, temporary: u32, depth: usize) -> Result<Option<Expr>, AllocError>
        ensures told { IfOk result (λ o. IfSome o
            (λ e. IsTold (known_of self.now) (TempOf temporary) (expr_of e))) }
        ensures within { IfOk result (λ o. IfSome o (λ e. depth_of (expr_of e) ≤ depth)) }
    {
        let at = match self.last.get(temporary as usize) {
            Some(at) => *at,
            None => return Ok(None),
        };
        match self.facts.get(at) {
            Some(fact)
                if fact.temporary == temporary
                    && self.holds(at, fact)
                    && is_within(&fact.value, depth) => {
                Ok(Some(copied(self.alloc, &fact.value)?))
            }
            _ => Ok(None),
        }
    }
}
