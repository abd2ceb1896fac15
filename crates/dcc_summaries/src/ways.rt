//! How control comes to the points of a program.

ghost use Rattle.std.specs.Prelude.{◌≡◌, ◌++◌, All, IfOk, OnOk};
ghost use Rattle.dcc_ir.specs.Views.{program_of};
ghost use Rattle.dcc_ir.specs.WellFormed.{IsProgram};
ghost use Rattle.dcc_summaries.specs.Points.{IsPoint, site_seen};
ghost use Rattle.dcc_summaries.specs.Ways.{lists_in, ArePreds, calls_at, returns_at, all_calls, all_returns};

use crate::points::{Point, Site, site_at};
use dcc_flow::preds;
use dcc_ir::IrProgram;
use std::alloc::{AllocError, Global};

/// A point where a procedure is called or returns.
#[derive(Clone, Copy)]
pub struct Port {
    pub at: Point,
    /// The entry of the procedure that is called or returns.
    pub entry: u16,
}

/// How control comes to the points of a program.
#[derive(Drop)]
pub struct Ways {
    /// For each graph and each of its blocks the blocks that lead there.
    pub preds: Vec<Vec<Vec<usize>>>,
    /// All calls.
    pub calls: Vec<Port>,
    /// All returns.
    pub returns: Vec<Port>,
}

// For each graph and each of its blocks the blocks that lead there.
fn all_preds(alloc: Global, p: &IrProgram) -> Result<Vec<Vec<Vec<usize>>>, AllocError>
    requires { IsProgram (program_of p.now) }
    ensures { IfOk result (λ lists. ArePreds (program_of p.now) (lists_in lists.items)) }
{
    let mut lists = Vec::new(alloc);
    for graph in &p.graphs {
        lists.push(preds(alloc, graph)?)?;
    }
    Ok(lists)
}

impl Ways {
    // Notes the call at a point, if a procedure is called there.
    fn note_call(&mut self, at: Point, site: &Site<'_>) -> Result<(), AllocError>
        ensures calls { OnOk result (self.new.calls.items ≡ self.old.calls.items ++ calls_at at (site_seen site.now)) }
        ensures returns { self.new.returns ≡ self.old.returns }
        ensures preds { self.new.preds ≡ self.old.preds }
    {
        if let Some(entry) = site.callee() {
            self.calls.push(Port { at, entry })?;
        }
        Ok(())
    }

    // Notes the return at a point, if the procedure of that entry returns there.
    fn note_return(&mut self, at: Point, entry: u16, site: &Site<'_>) -> Result<(), AllocError>
        ensures returns { OnOk result (self.new.returns.items
            ≡ self.old.returns.items ++ returns_at at entry (site_seen site.now)) }
        ensures calls { self.new.calls ≡ self.old.calls }
        ensures preds { self.new.preds ≡ self.old.preds }
    {
        if site.returns() {
            self.returns.push(Port { at, entry })?;
        }
        Ok(())
    }

    /// How control comes to the given points of a program.
    pub fn new(alloc: Global, p: &IrProgram, points: &[Point]) -> Result<Ways, AllocError>
        requires program { IsProgram (program_of p.now) }
        requires points { All (IsPoint (program_of p.now)) points.now }
        ensures preds { IfOk result (λ ways. ArePreds (program_of p.now) (lists_in ways.preds.items)) }
        ensures calls { IfOk result (λ ways. ways.calls.items ≡ all_calls (program_of p.now) points.now) }
        ensures returns { IfOk result (λ ways. ways.returns.items ≡ all_returns (program_of p.now) points.now) }
    {
        let mut ways = Ways {
            preds: all_preds(alloc, p)?,
            calls: Vec::new(alloc),
            returns: Vec::new(alloc),
        };
        for at in points {
            let site = site_at(p, *at);
            ways.note_call(*at, &site)?;
            ways.note_return(*at, p.graphs[at.graph].entry, &site)?;
        }
        Ok(ways)
    }
}
