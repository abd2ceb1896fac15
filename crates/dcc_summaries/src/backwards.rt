//! What is wanted before the points of a program.

ghost use Rattle.std.specs.Prelude.{◌≡◌, map, IfOk};
ghost use Rattle.dcc_ir.specs.Views.{program_of};
ghost use Rattle.dcc_ir.specs.WellFormed.{IsProgram};
ghost use Rattle.dcc_modref.specs.Programs.{AreChanges};
ghost use Rattle.dcc_summaries.specs.Points.{all_points};
ghost use Rattle.dcc_summaries.specs.Ways.{lists_in, ArePreds, all_calls, all_returns};
ghost use Rattle.dcc_summaries.specs.Wanted.{AreWanted};
ghost use Rattle.dcc_summaries.specs.Found.{AreFound};

use crate::demand::Demand;
use crate::follow::Setting;
use crate::points::{Point, points};
use crate::table::Wants;
use crate::ways::{Port, Ways};
use dcc_ir::IrProgram;
use dcc_modref::changes;
use std::alloc::{AllocError, Global};

// The most blocks that a graph of a program has.
fn most_blocks(p: &IrProgram) -> usize {
    let mut most = 0;
    for graph in &p.graphs {
        most = graph.blocks.len().max(most);
    }
    most
}

// All that is wanted, from what is used at the points of a program on.
fn find(alloc: Global, setting: &Setting<'_>, points: &[Point]) -> Result<Wants, AllocError>
    requires program { IsProgram (program_of setting.now.program.now) }
    requires changed { AreChanges (program_of setting.now.program.now) (map (λ v. v.items) setting.now.changed.now) }
    requires points { points.now ≡ all_points (program_of setting.now.program.now) }
    requires preds { ArePreds (program_of setting.now.program.now) (lists_in setting.now.ways.now.preds.items) }
    requires calls { setting.now.ways.now.calls.items ≡ all_calls (program_of setting.now.program.now) points.now }
    requires returns { setting.now.ways.now.returns.items
        ≡ all_returns (program_of setting.now.program.now) points.now }
    ensures { IfOk result (λ wants. AreWanted (program_of setting.now.program.now) wants) }
{
    let mut demand = Demand::new(alloc, most_blocks(setting.program))?;
    demand.seed(alloc, setting.program, points)?;
    while let Some(want) = demand.pending.take() {
        demand.follow(alloc, setting, want)?;
    }
    Ok(demand.wants)
}

/// What is known of a program.
#[derive(Drop)]
pub struct Found {
    /// For each half and flag that passes, in their order, whether the procedure of each entry changes it.
    pub changed: Vec<Vec<bool>>,
    /// All calls.
    pub calls: Vec<Port>,
    pub wants: Wants,
}

/// What is changed and what is wanted.
pub fn find_all(alloc: Global, p: &IrProgram) -> Result<Found, AllocError>
    requires { IsProgram (program_of p.now) }
    ensures { IfOk result (λ found. AreFound (program_of p.now) found) }
{
    let changed = changes(alloc, p)?;
    let points = points(alloc, p)?;
    let ways = Ways::new(alloc, p, points.as_slice())?;
    let setting = Setting {
        program: p,
        changed: changed.as_slice(),
        ways: &ways,
    };
    let wants = find(alloc, &setting, points.as_slice())?;
    Ok(Found {
        changed,
        calls: ways.calls,
        wants,
    })
}

/// The locations that are wanted before each point of a program: whose value a use may come to take, within a graph, in
/// those that it calls and in those that call it.
///
/// # Errors
///
/// Where memory runs out.
pub fn wanted(alloc: Global, p: &IrProgram) -> Result<Wants, AllocError>
    requires { IsProgram (program_of p.now) }
    ensures { IfOk result (λ wants. AreWanted (program_of p.now) wants) }
{
    let found = find_all(alloc, p)?;
    Ok(found.wants)
}
