//! Trees with names in the place of locations.

ghost use Rattle.std.specs.Prelude.{◌≡◌, map, get_or, IfOk};
ghost use Rattle.dcc_ir.specs.Location.{same_location};
ghost use Rattle.dcc_ir.specs.Views.{expr_of, stmt_of, exit_of, block_of, graph_of};
ghost use Rattle.dcc_passes.specs.Renaming.{renamed, renamed_stmt, renamed_exit};
ghost use Rattle.dcc_copies.specs.Held as spec;
ghost use Rattle.dcc_copies.specs.Settled as after;
ghost use Rattle.dcc_copies.specs.Holders.{name_by};

use dcc_ir::{Block, End, Expr, Graph, Loc, Stmt};
use std::alloc::{AllocError, Global};

// Whether both are the same location.
fn is_same(one: Loc, other: Loc) -> bool
    ensures { result ≡ same_location one other }
{
    one == other
}

/// For each temporary the one that is its name; each other location is its own.
#[derive(Drop)]
pub struct Names {
    pub of: Vec<u32>,
}

impl Names {
    /// The temporary that is the name of one.
    pub fn number(&self, temporary: u32) -> u32
        ensures { result ≡ get_or self.now.of.items temporary temporary }
    {
        self.of
            .get(temporary as usize)
            .copied()
            .unwrap_or(temporary)
    }

    /// The name of a location.
    pub fn name(&self, location: Loc) -> Loc
        ensures { result ≡ name_by self.now.of.items location }
    {
        match location {
            Loc::Temp(temporary) => Loc::Temp(self.number(temporary)),
            _ => location,
        }
    }

    /// Whether a statement copies a location to one of the same name.
    pub fn is_own_copy(&self, stmt: &Stmt) -> bool
        ensures { result ≡ spec.is_own_copy (name_by self.now.of.items) (stmt_of stmt.now) }
    {
        match stmt {
            Stmt::Set {
                place,
                value: Expr::Get(from),
            } => is_same(self.name(*place), self.name(*from)),
            _ => false,
        }
    }

    // Puts names in the place of the locations that an expression reads.
    fn rename(&self, e: &mut Expr)
        ensures { expr_of e.new ≡ renamed (name_by self.now.of.items) (expr_of e.old) }
    {
        match e {
            Expr::Const(..) | Expr::Address(_) => {}
            Expr::Get(location) => *location = self.name(*location),
            Expr::Load(_, a) => self.rename(a),
            Expr::Un(_, _, a) => self.rename(a),
            Expr::Bin(_, _, a, b) => {
                self.rename(a);
                self.rename(b);
            }
            Expr::Widen(_, _, a) => self.rename(a),
            Expr::Part(_, _, a) => self.rename(a),
            Expr::Join(high, low) => {
                self.rename(high);
                self.rename(low);
            }
            Expr::Choose(test, a, b) => {
                self.rename(test);
                self.rename(a);
                self.rename(b);
            }
        }
    }

    // Puts names in the place of the locations that expressions read.
    fn rename_all(&self, es: &mut Vec<Expr>)
        ensures { map expr_of es.new.items ≡ map (renamed (name_by self.now.of.items)) (map expr_of es.old.items) }
    {
        for i in 0..es.len() {
            self.rename(&mut es[i]);
        }
    }

    // Puts names in the place of locations.
    fn rename_places(&self, places: &mut Vec<Loc>)
        ensures { places.new.items ≡ map (name_by self.now.of.items) places.old.items }
    {
        for i in 0..places.len() {
            places[i] = self.name(places[i]);
        }
    }

    // Puts names in the place of the locations of a statement.
    fn rename_stmt(&self, stmt: &mut Stmt)
        ensures { stmt_of stmt.new
            ≡ renamed_stmt (name_by self.now.of.items) (name_by self.now.of.items) (stmt_of stmt.old) }
    {
        match stmt {
            Stmt::Set { place, value } => {
                *place = self.name(*place);
                self.rename(value);
            }
            Stmt::Load { place, address, .. } => {
                *place = self.name(*place);
                self.rename(address);
            }
            Stmt::Store { address, value, .. } => {
                self.rename(address);
                self.rename(value);
            }
            Stmt::Div { place, division } => {
                *place = self.name(*place);
                self.rename(division);
            }
            Stmt::Call {
                results,
                arguments,
                ..
            } => {
                self.rename_places(results);
                self.rename_all(arguments);
            }
            Stmt::Dos {
                place,
                argument,
                ..
            } => {
                if let Some(location) = place {
                    *location = self.name(*location);
                }
                if let Some(e) = argument {
                    self.rename(e);
                }
            }
        }
    }

    // Puts names in the place of the locations that the end of a block reads.
    fn rename_end(&self, end: &mut End)
        ensures { exit_of end.new ≡ renamed_exit (name_by self.now.of.items) (exit_of end.old) }
    {
        match end {
            End::If { test, .. } => self.rename(test),
            End::Switch { value, .. } => self.rename(value),
            End::Ret(values) => self.rename_all(values),
            End::Goto(_) | End::Stop => {}
        }
    }

    // The statements with names in the place of locations, without copies of locations to their own names.
    fn settled_stmts(&self, alloc: Global, stmts: Vec<Stmt>) -> Result<Vec<Stmt>, AllocError>
        ensures { IfOk result (λ news. map stmt_of news.items
            ≡ after.settled_stmts (name_by self.now.of.items) (map stmt_of stmts.items)) }
    {
        let mut news = Vec::new(alloc);
        for stmt in stmts {
            if !self.is_own_copy(&stmt) {
                let mut new = stmt;
                self.rename_stmt(&mut new);
                news.push(new)?;
            }
        }
        Ok(news)
    }

    // The block with names in the place of locations, without copies of locations to their own names.
    fn settled_block(&self, alloc: Global, block: Block) -> Result<Block, AllocError>
        ensures { IfOk result (λ new. block_of new ≡ after.settled_block (name_by self.now.of.items) (block_of block)) }
    {
        let mut end = block.end;
        self.rename_end(&mut end);
        Ok(Block {
            at: block.at,
            stmts: self.settled_stmts(alloc, block.stmts)?,
            end,
        })
    }

    /// The graph with names in the place of locations, without copies of locations to their own names.
    pub fn settled(&self, alloc: Global, g: Graph) -> Result<Graph, AllocError>
        ensures { IfOk result (λ new. graph_of new ≡ after.settled (name_by self.now.of.items) (graph_of g)) }
    {
        let mut blocks = Vec::new(alloc);
        for block in g.blocks {
            blocks.push(self.settled_block(alloc, block)?)?;
        }
        Ok(Graph { blocks, ..g })
    }
}
