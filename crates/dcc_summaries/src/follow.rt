//! What a location that is wanted makes wanted.

ghost use Rattle.std.specs.Prelude.{◌≡◌, [], ◌∷◌, map, length, OnOk};
ghost use Rattle.dcc_ir.specs.Views.{stmt_of, program_of};
ghost use Rattle.dcc_modref.specs.States.{told_in as list_tells};
ghost use Rattle.dcc_summaries.specs.Points.{IsPoint};
ghost use Rattle.dcc_summaries.specs.Ways.{lists_in, ArePreds};
ghost use Rattle.dcc_summaries.specs.Demands.{demand_of, with_wants};
ghost use Rattle.dcc_summaries.specs.Follow.{changed_in, wants_of, before_call, before_stmt, before_block};
ghost use Rattle.dcc_summaries.specs.Follow.{before_entry, followers};
ghost use Rattle.dcc_summaries.specs.Setting.{setting_of};

use crate::demand::Demand;
use crate::points::{Point, Site, callee, site_at};
use crate::table::Want;
use crate::ways::{Port, Ways};
use dcc_ir::plain::scene::same_location;
use dcc_ir::{IrProgram, Loc, PASSED_LOCATIONS, Stmt};
use dcc_modref::{passes, writes};
use std::alloc::{AllocError, Global};

/// What is known of a program before the search for what is wanted.
#[derive(Drop)]
pub struct Setting<'a> {
    pub program: &'a IrProgram,
    /// For each half and flag that passes, in their order, whether the procedure of each entry changes it.
    pub changed: &'a [Vec<bool>],
    pub ways: &'a Ways,
}

// Whether a list tells of the procedure of that entry.
fn tells(changed: &[bool], entry: u16) -> bool
    ensures { result ≡ list_tells changed.now entry }
{
    changed.get(entry as usize).copied().unwrap_or(false)
}

/// Whether the procedure of that entry changes the location, by a list for each half and flag that passes.
pub(crate) fn is_changed(changed: &[Vec<bool>], entry: u16, location: Loc) -> bool
    requires { length changed.now ≡ 16 }
    ensures { result ≡ changed_in (map (λ v. v.items) changed.now) entry location }
{
    for place in 0..PASSED_LOCATIONS.len() {
        if same_location(location, PASSED_LOCATIONS[place]) {
            return tells(changed[place].as_slice(), entry);
        }
    }
    false
}

impl Demand {
    // Notes a location as wanted at a point if the procedure that is called there or returns there has that entry.
    fn want_at_port(
        &mut self,
        alloc: Global,
        port: Port,
        entry: u16,
        location: Loc,
    ) -> Result<(), AllocError>
        ensures { OnOk result (demand_of self.new
            ≡ with_wants (demand_of self.old) (wants_of entry (port ∷ []) location)) }
    {
        if port.entry != entry {
            return Ok(());
        }
        let at = port.at;
        self.want(alloc, Want { at, location })
    }

    // Notes a location as wanted at each of the points where the procedure of that entry is called, or returns.
    fn want_at_ports(
        &mut self,
        alloc: Global,
        ports: &[Port],
        entry: u16,
        location: Loc,
    ) -> Result<(), AllocError>
        ensures { OnOk result (demand_of self.new
            ≡ with_wants (demand_of self.old) (wants_of entry ports.now location)) }
    {
        for port in ports {
            self.want_at_port(alloc, *port, entry, location)?;
        }
        Ok(())
    }

    // Follows a location that is wanted after a point that does not write it, and where a procedure may be called.
    fn follow_call(
        &mut self,
        alloc: Global,
        setting: &Setting<'_>,
        callee: Option<u16>,
        want: Want,
    ) -> Result<(), AllocError>
        requires { length setting.now.changed.now ≡ 16 }
        ensures { OnOk result (demand_of self.new ≡ with_wants (demand_of self.old) (before_call
            (changed_in (map (λ v. v.items) setting.now.changed.now)) setting.now.ways.now.returns.items
            want.at callee want.location)) }
    {
        match callee {
            Some(entry) => {
                if is_changed(setting.changed, entry, want.location) {
                    let returns = setting.ways.returns.as_slice();
                    self.want_at_ports(alloc, returns, entry, want.location)
                } else {
                    self.want(alloc, want)
                }
            }
            None => self.want(alloc, want),
        }
    }

    // Follows a location that is wanted after the statement at a point.
    fn follow_stmt(
        &mut self,
        alloc: Global,
        setting: &Setting<'_>,
        stmt: &Stmt,
        want: Want,
    ) -> Result<(), AllocError>
        requires { length setting.now.changed.now ≡ 16 }
        ensures { OnOk result (demand_of self.new ≡ with_wants (demand_of self.old) (before_stmt
            (changed_in (map (λ v. v.items) setting.now.changed.now)) setting.now.ways.now.returns.items
            want.at (stmt_of stmt.now) want.location)) }
    {
        if writes(stmt, want.location) {
            self.want_made(alloc, want.at, stmt)
        } else {
            self.follow_call(alloc, setting, callee(stmt), want)
        }
    }

    // Follows a location that is wanted where a block begins: it is wanted where those blocks end that lead there.
    fn follow_begin(
        &mut self,
        alloc: Global,
        setting: &Setting<'_>,
        want: Want,
    ) -> Result<(), AllocError>
        requires point { IsPoint (program_of setting.now.program.now) want.at }
        requires preds { ArePreds (program_of setting.now.program.now) (lists_in setting.now.ways.now.preds.items) }
        ensures { OnOk result (demand_of self.new ≡ with_wants (demand_of self.old) (before_block
            (program_of setting.now.program.now) (lists_in setting.now.ways.now.preds.items)
            want.at.graph want.at.block want.location)) }
    {
        let place = want.at.graph;
        let graph = &setting.program.graphs[place];
        for block in &setting.ways.preds[place][want.at.block] {
            let done = graph.blocks[*block].stmts.len();
            let at = Point {
                graph: place,
                block: *block,
                done,
            };
            let location = want.location;
            self.want(alloc, Want { at, location })?;
        }
        Ok(())
    }

    // Follows a location that is wanted where a block begins: if that is the entry of its graph, it is wanted at the
    // graph's calls.
    fn follow_entry(
        &mut self,
        alloc: Global,
        setting: &Setting<'_>,
        want: Want,
    ) -> Result<(), AllocError>
        requires { IsPoint (program_of setting.now.program.now) want.at }
        ensures { OnOk result (demand_of self.new ≡ with_wants (demand_of self.old) (before_entry
            (program_of setting.now.program.now) setting.now.ways.now.calls.items
            want.at.graph want.at.block want.location)) }
    {
        if want.at.block == 0 && passes(want.location) {
            let entry = setting.program.graphs[want.at.graph].entry;
            let calls = setting.ways.calls.as_slice();
            self.want_at_ports(alloc, calls, entry, want.location)
        } else {
            Ok(())
        }
    }

    /// Notes all that follows from a location that is wanted.
    pub fn follow(
        &mut self,
        alloc: Global,
        setting: &Setting<'_>,
        want: Want,
    ) -> Result<(), AllocError>
        requires point { IsPoint (program_of setting.now.program.now) want.at }
        requires preds { ArePreds (program_of setting.now.program.now) (lists_in setting.now.ways.now.preds.items) }
        requires lists { length setting.now.changed.now ≡ 16 }
        ensures { OnOk result (demand_of self.new
            ≡ with_wants (demand_of self.old) (followers (setting_of setting.now) want)) }
    {
        if want.at.done == 0 {
            self.follow_begin(alloc, setting, want)?;
            self.follow_entry(alloc, setting, want)
        } else {
            let done = want.at.done - 1;
            let at = Point { done, ..want.at };
            let location = want.location;
            match site_at(setting.program, at) {
                Site::Executes(stmt) => {
                    self.follow_stmt(alloc, setting, stmt, Want { at, location })
                }
                Site::Ends(_) => Ok(()),
            }
        }
    }
}
