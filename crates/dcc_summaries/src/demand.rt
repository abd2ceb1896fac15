//! What is known to be wanted, and what a part of a program makes wanted.

ghost use Rattle.std.specs.Prelude.{◌≡◌, [], ◌∷◌, map, All, IfOk, OnOk};
ghost use Rattle.dcc_ir.specs.Views.{expr_of, stmt_of, exit_of, program_of};
ghost use Rattle.dcc_ir.specs.Use.{reads_of};
ghost use Rattle.dcc_ir.specs.Demand.{makes_of};
ghost use Rattle.dcc_sums.specs.Instance.{is_passing, used_by, used_at_end};
ghost use Rattle.dcc_summaries.specs.Points.{IsPoint, used_at, site_seen};
ghost use Rattle.dcc_summaries.specs.Demands.{demand_of, no_demand, with_want, with_wants, wants_at, argument_reads};
ghost use Rattle.dcc_summaries.specs.Demands.{seeds};

use crate::pending::Pending;
use crate::points::{Point, Site, site_at};
use crate::table::{Want, Wants};
use dcc_ir::{End, Expr, IrProgram, Stmt};
use dcc_modref::passes;
use std::alloc::{AllocError, Global};

/// What is known to be wanted.
#[derive(Drop)]
pub struct Demand {
    pub wants: Wants,
    /// What is known to be wanted and hasn't been followed yet.
    pub pending: Pending,
}

// Whether an expression is no more than a half or a flag that passes.
fn is_passing(e: &Expr) -> bool
    ensures { result ≡ is_passing (expr_of e.now) }
{
    match e {
        Expr::Get(location) => passes(*location),
        _ => false,
    }
}

impl Demand {
    /// A demand in which nothing is known to be wanted, in graphs of up to so many blocks.
    pub fn new(alloc: Global, blocks: usize) -> Result<Demand, AllocError>
        ensures { IfOk result (λ demand. demand_of demand ≡ no_demand blocks) }
    {
        let pending = Pending::new(alloc, blocks)?;
        Ok(Demand {
            wants: Wants {
                rows: Vec::new(alloc),
            },
            pending,
        })
    }

    /// Notes that a location is wanted before a point.
    pub fn want(&mut self, alloc: Global, want: Want) -> Result<(), AllocError>
        ensures { OnOk result (demand_of self.new ≡ with_want (demand_of self.old) want) }
    {
        if !self.wants.has(want) {
            self.wants.add(alloc, want)?;
            self.pending.add(alloc, want)?;
        }
        Ok(())
    }

    // Notes all that an expression reads as wanted.
    #[tactic(auto, using(crate::proofs::DemandLaws::both_read))]
    fn want_reads(&mut self, alloc: Global, at: Point, e: &Expr) -> Result<(), AllocError>
        ensures { OnOk result (demand_of self.new
            ≡ with_wants (demand_of self.old) (wants_at at (reads_of (expr_of e.now)))) }
    {
        match e {
            Expr::Const(..) | Expr::Address(_) => Ok(()),
            Expr::Get(location) => {
                let location = *location;
                self.want(alloc, Want { at, location })
            }
            Expr::Load(_, inner)
            | Expr::Un(_, _, inner)
            | Expr::Widen(_, _, inner)
            | Expr::Part(_, _, inner) => self.want_reads(alloc, at, inner),
            Expr::Bin(_, _, left, right) => {
                self.want_reads(alloc, at, left)?;
                self.want_reads(alloc, at, right)
            }
            Expr::Join(high, low) => {
                self.want_reads(alloc, at, high)?;
                self.want_reads(alloc, at, low)
            }
            Expr::Choose(test, one, other) => {
                self.want_reads(alloc, at, test)?;
                self.want_reads(alloc, at, one)?;
                self.want_reads(alloc, at, other)
            }
        }
    }

    // Notes what an argument of a call reads, unless it is a half or a flag that passes, as wanted.
    fn want_argument(&mut self, alloc: Global, at: Point, argument: &Expr) -> Result<(), AllocError>
        ensures { OnOk result (demand_of self.new
            ≡ with_wants (demand_of self.old) (wants_at at (argument_reads (expr_of argument.now ∷ [])))) }
    {
        if is_passing(argument) {
            return Ok(());
        }
        self.want_reads(alloc, at, argument)
    }

    // Notes what the arguments of a call read, but for halves and flags that pass, as wanted.
    fn want_arguments(
        &mut self,
        alloc: Global,
        at: Point,
        arguments: &[Expr],
    ) -> Result<(), AllocError>
        ensures { OnOk result (demand_of self.new
            ≡ with_wants (demand_of self.old) (wants_at at (argument_reads (map expr_of arguments.now)))) }
    {
        for argument in arguments {
            self.want_argument(alloc, at, argument)?;
        }
        Ok(())
    }

    // Notes what a statement uses as wanted before it.
    #[tactic(auto, using(crate::proofs::DemandLaws::both_made))]
    fn want_used(&mut self, alloc: Global, at: Point, stmt: &Stmt) -> Result<(), AllocError>
        ensures { OnOk result (demand_of self.new
            ≡ with_wants (demand_of self.old) (wants_at at (used_by (stmt_of stmt.now)))) }
    {
        match stmt {
            Stmt::Set { .. } | Stmt::Load { .. } => Ok(()),
            Stmt::Store { address, value, .. } => {
                self.want_reads(alloc, at, address)?;
                self.want_reads(alloc, at, value)
            }
            Stmt::Div { division, .. } => self.want_reads(alloc, at, division),
            Stmt::Call { arguments, .. } => self.want_arguments(alloc, at, arguments.as_slice()),
            Stmt::Dos { argument, .. } => match argument {
                Some(e) => self.want_reads(alloc, at, e),
                None => Ok(()),
            },
        }
    }

    // Notes what the test of a block's end reads as wanted before it.
    fn want_tested(&mut self, alloc: Global, at: Point, end: &End) -> Result<(), AllocError>
        ensures { OnOk result (demand_of self.new
            ≡ with_wants (demand_of self.old) (wants_at at (used_at_end (exit_of end.now)))) }
    {
        match end {
            End::If { test, .. } => self.want_reads(alloc, at, test),
            End::Switch { value, .. } => self.want_reads(alloc, at, value),
            End::Goto(_) | End::Ret(_) | End::Stop => Ok(()),
        }
    }

    /// Notes what a statement makes its value of as wanted before it.
    pub fn want_made(&mut self, alloc: Global, at: Point, stmt: &Stmt) -> Result<(), AllocError>
        ensures { OnOk result (demand_of self.new
            ≡ with_wants (demand_of self.old) (wants_at at (makes_of (stmt_of stmt.now)))) }
    {
        match stmt {
            Stmt::Set { value, .. } => self.want_reads(alloc, at, value),
            Stmt::Load { address, .. } => self.want_reads(alloc, at, address),
            _ => Ok(()),
        }
    }

    // Notes what is used at a point as wanted before it.
    fn want_there(&mut self, alloc: Global, at: Point, site: &Site<'_>) -> Result<(), AllocError>
        ensures { OnOk result (demand_of self.new
            ≡ with_wants (demand_of self.old) (wants_at at (used_at (site_seen site.now)))) }
    {
        match site {
            Site::Executes(stmt) => self.want_used(alloc, at, stmt),
            Site::Ends(end) => self.want_tested(alloc, at, end),
        }
    }

    /// Notes what is used at some points of a program as wanted before them.
    pub fn seed(&mut self, alloc: Global, p: &IrProgram, points: &[Point]) -> Result<(), AllocError>
        requires { All (IsPoint (program_of p.now)) points.now }
        ensures { OnOk result (demand_of self.new
            ≡ with_wants (demand_of self.old) (seeds (program_of p.now) points.now)) }
    {
        for at in points {
            let site = site_at(p, *at);
            self.want_there(alloc, *at, &site)?;
        }
        Ok(())
    }
}
