//! Blocks in which what temporaries hold stands in the place of reads.

ghost use Rattle.std.specs.Prelude.{◌≡◌, [], ◌∷◌, ◌++◌, List, map, IfOk, OnOk};
ghost use Rattle.dcc_ir.specs.Tree.{Stmt as StmtOf};
ghost use Rattle.dcc_ir.specs.Use.{exprs_of};
ghost use Rattle.dcc_ir.specs.Views.{stmt_of, block_of};
ghost use Rattle.dcc_substitution.specs.Substituted.{IsSubstituteStmt};
ghost use Rattle.dcc_available.specs.Along.{along};
ghost use Rattle.dcc_available.specs.Known.{known_of};
ghost use Rattle.dcc_available.specs.Within.{StayShallow};
ghost use Rattle.dcc_available.specs.Rewritten as spec;
ghost use Rattle.dcc_available.specs.Rewritten.{IsSound, AreRewritten, IsRewritten, IsPut, IsNoted};

use crate::expressions::is_simple;
use crate::known::Known;
use crate::reads::Reads;
use dcc_ir::{Block, Expr, Loc, Stmt};
use std::alloc::AllocError;

// Whether a statement sets a location to what it holds.
fn sets_itself(stmt: &Stmt) -> bool
    ensures { result ≡ spec.sets_itself (stmt_of stmt.now) }
{
    match stmt {
        Stmt::Set {
            place,
            value: Expr::Get(location),
        } => *place == *location,
        _ => false,
    }
}

// Puts a statement at the end of a list, unless it sets a location to what it holds.
fn put(stmts: &mut Vec<Stmt>, stmt: Stmt) -> Result<(), AllocError>
    ensures { OnOk result (IsPut stmts.old.items stmt stmts.new.items) }
{
    if !sets_itself(&stmt) {
        stmts.push(stmt)?;
    }
    Ok(())
}

// Whether reads of a temporary that was set to the expression may become that: a constant or another temporary, what is
// read once, or a sum that each read takes.
fn is_wanted(reads: &Reads, temporary: u32, value: &Expr) -> bool {
    is_simple(value) || reads.is_once(temporary) || reads.takes(temporary, value)
}

impl Known {
    // Notes what a temporary was just set to, where reads of it may become that.
    fn note_set(&mut self, reads: &Reads, stmt: &Stmt) -> Result<(), AllocError>
        ensures { OnOk result (IsNoted (stmt_of stmt.now) (known_of self.old) (known_of self.new)) }
    {
        let Stmt::Set { place, value } = stmt else {
            return Ok(());
        };
        let Loc::Temp(temporary) = *place else {
            return Ok(());
        };
        if !is_wanted(reads, temporary, value) {
            return Ok(());
        }
        self.note(temporary, value)
    }

    // The statement with what temporaries hold in the place of reads; what is known is that before it, and then that
    // after it.
    fn step(&mut self, reads: &Reads, stmt: &Stmt) -> Result<Stmt, AllocError>
        ensures substitute { IfOk result (λ new. (history : List StmtOf) → IsSound (known_of self.old) history
            → IsSubstituteStmt (along history) (stmt_of stmt.now) (stmt_of new)) }
        ensures shallow { IfOk result (λ new. StayShallow (exprs_of (stmt_of stmt.now)) (exprs_of (stmt_of new))) }
        ensures sound { OnOk result ((history : List StmtOf) → IsSound (known_of self.old) history
            → IsSound (known_of self.new) (history ++ stmt_of stmt.now ∷ [])) }
    {
        let new = self.within_stmt(stmt)?;
        self.pass(stmt);
        self.note_set(reads, &new)?;
        Ok(new)
    }

    // The statements with what temporaries hold in the place of reads; what is known is that before them, and then that
    // after them.
    fn steps(&mut self, reads: &Reads, stmts: &[Stmt]) -> Result<Vec<Stmt>, AllocError>
        ensures rewritten { IfOk result (λ news. (history : List StmtOf) → IsSound (known_of self.old) history
            → AreRewritten history (map stmt_of stmts.now) (map stmt_of news.items)) }
        ensures sound { OnOk result ((history : List StmtOf) → IsSound (known_of self.old) history
            → IsSound (known_of self.new) (history ++ map stmt_of stmts.now)) }
    {
        let mut news = Vec::new(self.alloc);
        for stmt in stmts {
            let new = self.step(reads, stmt)?;
            put(&mut news, new)?;
        }
        Ok(news)
    }

    /// The block with what temporaries hold in the place of reads; what is known is that before it, and then that at its
    /// end.
    pub fn block(&mut self, reads: &Reads, block: &Block) -> Result<Block, AllocError>
        ensures rewritten { IfOk result (λ new. (history : List StmtOf) → IsSound (known_of self.old) history
            → IsRewritten history (block_of block.now) (block_of new)) }
        ensures sound { OnOk result ((history : List StmtOf) → IsSound (known_of self.old) history
            → IsSound (known_of self.new) (history ++ (block_of block.now).stmts)) }
    {
        let stmts = self.steps(reads, block.stmts.as_slice())?;
        Ok(Block {
            at: block.at,
            stmts,
            end: self.within_end(&block.end)?,
        })
    }
}
