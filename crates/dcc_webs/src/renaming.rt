//! Trees with temporaries in the place of locations.

ghost use Rattle.std.specs.Prelude.{◌≡◌, ◌<◌, length, map};
ghost use Rattle.dcc_ir.specs.Views.{expr_of, stmt_of, exit_of};
ghost use Rattle.dcc_passes.specs.Renaming.{renamed, renamed_exit, renamed_param};
ghost use Rattle.dcc_webs.specs.Split.{temp_in, with_reads, with_writes};

use crate::names::Names;
use dcc_ir::{End, Expr, Loc, Param, Put, Stmt};

/// Which temporary stands for each location that has a number in a block.
#[derive(Drop)]
pub struct Renamer<'a> {
    pub names: &'a Names,
    /// What is added to the numbers of the block.
    pub base: usize,
    /// The temporary of each number of the graph.
    pub temps: &'a [u32],
}

impl Renamer<'_> {
    /// The temporary that stands for a location.
    pub fn temp(&self, location: Loc) -> Loc
        ensures { result ≡ temp_in self.now location }
    {
        let number = self.names.get(location).unwrap_or(0);
        let place = self.base.saturating_add(number as usize);
        Loc::Temp(self.temps.get(place).copied().unwrap_or(0))
    }

    // Replaces the locations that an expression reads.
    fn rename(&self, e: &mut Expr)
        ensures { expr_of e.new ≡ renamed (temp_in self.now) (expr_of e.old) }
    {
        match e {
            Expr::Const(..) | Expr::Address(_) => {}
            Expr::Get(location) => *location = self.temp(*location),
            Expr::Load(_, a) => self.rename(a),
            Expr::Un(_, _, a) => self.rename(a),
            Expr::Bin(_, _, a, b) => {
                self.rename(a);
                self.rename(b);
            }
            Expr::Widen(_, _, a) => self.rename(a),
            Expr::Part(_, _, a) => self.rename(a),
            Expr::Join(high, low) => {
                self.rename(high);
                self.rename(low);
            }
            Expr::Choose(test, a, b) => {
                self.rename(test);
                self.rename(a);
                self.rename(b);
            }
        }
    }

    // Replaces the locations that expressions read.
    fn rename_all(&self, es: &mut Vec<Expr>)
        ensures { map expr_of es.new.items ≡ map (renamed (temp_in self.now)) (map expr_of es.old.items) }
    {
        for i in 0..es.len() {
            self.rename(&mut es[i]);
        }
    }

    // Replaces locations that are written.
    fn rename_places(&self, places: &mut Vec<Loc>)
        ensures { places.new.items ≡ map (temp_in self.now) places.old.items }
    {
        for i in 0..places.len() {
            places[i] = self.temp(places[i]);
        }
    }

    /// Replaces the locations that a statement reads.
    pub fn rename_reads(&self, stmt: &mut Stmt)
        ensures { stmt_of stmt.new ≡ with_reads (temp_in self.now) (stmt_of stmt.old) }
    {
        match stmt {
            Stmt::Set { value, .. } => self.rename(value),
            Stmt::Load { address, .. } => self.rename(address),
            Stmt::Store { address, value, .. } => {
                self.rename(address);
                self.rename(value);
            }
            Stmt::Div { division, .. } => self.rename(division),
            Stmt::Call { arguments, .. } => self.rename_all(arguments),
            Stmt::Dos { argument, .. } => {
                if let Some(e) = argument {
                    self.rename(e);
                }
            }
        }
    }

    /// Replaces the locations that a statement writes.
    pub fn rename_writes(&self, stmt: &mut Stmt)
        ensures { stmt_of stmt.new ≡ with_writes (temp_in self.now) (stmt_of stmt.old) }
    {
        match stmt {
            Stmt::Set { place, .. } => *place = self.temp(*place),
            Stmt::Load { place, .. } => *place = self.temp(*place),
            Stmt::Store { .. } => {}
            Stmt::Div { place, .. } => *place = self.temp(*place),
            Stmt::Call { results, .. } => self.rename_places(results),
            Stmt::Dos { place, .. } => {
                if let Some(location) = place {
                    *location = self.temp(*location);
                }
            }
        }
    }

    /// Replaces the locations that the end of a block reads.
    pub fn rename_end(&self, end: &mut End)
        ensures { exit_of end.new ≡ renamed_exit (temp_in self.now) (exit_of end.old) }
    {
        match end {
            End::If { test, .. } => self.rename(test),
            End::Switch { value, .. } => self.rename(value),
            End::Ret(values) => self.rename_all(values),
            End::Goto(_) | End::Stop => {}
        }
    }

    // Replaces the locations that take an argument.
    fn rename_param(&self, param: Param) -> Param
        ensures { result ≡ renamed_param (temp_in self.now) param }
    {
        let put = match param.put {
            Put::Memory => Put::Memory,
            Put::One(location) => Put::One(self.temp(location)),
            Put::Two(low, high) => Put::Two(self.temp(low), self.temp(high)),
        };
        Param {
            stack: param.stack,
            put,
        }
    }

    /// Replaces the locations that take arguments.
    pub fn rename_params(&self, params: &mut Vec<Param>)
        ensures { params.new.items ≡ map (renamed_param (temp_in self.now)) params.old.items }
    {
        for i in 0..params.len() {
            params[i] = self.rename_param(params[i]);
        }
    }
}
