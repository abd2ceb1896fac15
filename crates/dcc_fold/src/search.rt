//! The search for a temporary that is joinable.

ghost use Rattle.std.specs.Prelude.{◌≡◌, ℕ, ◌<◌, ◌+◌, ◌++◌, length, map, List, IfOk, OnOk, MatchOption};
ghost use Rattle.dcc_ir.specs.Views.{expr_of, stmt_of, exit_of, block_of, graph_of};
ghost use Rattle.dcc_ir.specs.Use.{exprs_of, exit_exprs};
ghost use Rattle.dcc_ir.specs.WellFormed.{IsGraph};
ghost use Rattle.dcc_flow.specs.Edges.{rows, successors_of, ArePredecessors};
ghost use Rattle.dcc_fold.specs.Alone.{AreCounted};
ghost use Rattle.dcc_fold.specs.Carried.{IsTrue};
ghost use Rattle.dcc_fold.specs.Chain.{Step, statement, IsFirst};
ghost use Rattle.dcc_fold.specs.Found.{IsFoundBy, IsFoundAmong, JoinsIn, JoinsAlong};
ghost use Rattle.dcc_fold.specs.Joinable.{IsJoinable};
ghost use Rattle.dcc_fold.specs.Known.{known_of, IsBounded};
ghost use Rattle.dcc_ir.specs.declared.syntax.Loc.{Loc as LocOf};
ghost use Rattle.dcc_ir.specs.Tree.{Get as GetOf};
ghost use Rattle.dcc_fold.specs.Found.{AreSeen};

use crate::alone::Alone;
use crate::chains::Chains;
use crate::depth::is_within_with;
use crate::known::Known;
use dcc_flow::preds;
use dcc_ir::{Block, End, Expr, Graph, Loc, Stmt};
use std::alloc::{AllocError, Global};

/// How deep expressions may get.
const DEPTH_MOST: usize = 32;

/// What a search goes over.
#[derive(Drop)]
struct Search<'a> {
    chains: Chains<'a>,
    alone: Alone,
}

impl<'a> Search<'a> {
    // The temporary of a read, where its value may stand in its place in the whole expression.
    fn at_read(&self, known: &Known<'a>, whole: &Expr, location: Loc) -> Option<u32>
        requires { AreCounted (graph_of self.now.chains.graph.now) self.now.alone }
        ensures { MatchOption result ((n : ℕ) → ¬ IsFoundBy (graph_of self.now.chains.graph.now) (known_of known.now) (expr_of whole.now) (GetOf location) n)
            (IsFoundBy (graph_of self.now.chains.graph.now) (known_of known.now) (expr_of whole.now) (GetOf location)) }
    {
        let Loc::Temp(temporary) = location else {
            return None;
        };
        if !self.alone.has(temporary) {
            return None;
        }
        let Some(value) = known.value(temporary) else {
            return None;
        };
        if !is_within_with(whole, temporary, value, DEPTH_MOST) {
            return None;
        }
        Some(temporary)
    }

    // A temporary that a part of the whole expression reads, and whose value may stand there.
    fn in_part(&self, known: &Known<'a>, whole: &Expr, part: &Expr) -> Option<u32>
        requires { AreCounted (graph_of self.now.chains.graph.now) self.now.alone }
        ensures { MatchOption result ((n : ℕ) → ¬ IsFoundBy (graph_of self.now.chains.graph.now) (known_of known.now) (expr_of whole.now) (expr_of part.now) n)
            (IsFoundBy (graph_of self.now.chains.graph.now) (known_of known.now) (expr_of whole.now) (expr_of part.now)) }
    {
        match part {
            Expr::Const(..) | Expr::Address(_) => None,
            Expr::Get(location) => self.at_read(known, whole, *location),
            Expr::Load(_, a) | Expr::Un(_, _, a) | Expr::Widen(_, _, a) | Expr::Part(_, _, a) => {
                self.in_part(known, whole, a)
            }
            Expr::Bin(_, _, a, b) | Expr::Join(a, b) => match self.in_part(known, whole, a) {
                Some(temporary) => Some(temporary),
                None => self.in_part(known, whole, b),
            },
            Expr::Choose(test, a, b) => match self.in_part(known, whole, test) {
                Some(temporary) => Some(temporary),
                None => match self.in_part(known, whole, a) {
                    Some(temporary) => Some(temporary),
                    None => self.in_part(known, whole, b),
                },
            },
        }
    }

    // The same of some expressions.
    fn in_all(&self, known: &Known<'a>, es: &[Expr]) -> Option<u32>
        requires { AreCounted (graph_of self.now.chains.graph.now) self.now.alone }
        ensures { MatchOption result ((n : ℕ) → ¬ IsFoundAmong (graph_of self.now.chains.graph.now) (known_of known.now) (map expr_of es.now) n)
            (IsFoundAmong (graph_of self.now.chains.graph.now) (known_of known.now) (map expr_of es.now)) }
    {
        for e in es {
            if let Some(temporary) = self.in_part(known, e, e) {
                return Some(temporary);
            }
        }
        None
    }

    // The same of a statement.
    fn in_stmt(&self, known: &Known<'a>, stmt: &Stmt) -> Option<u32>
        requires { AreCounted (graph_of self.now.chains.graph.now) self.now.alone }
        ensures { MatchOption result ((n : ℕ) → ¬ IsFoundAmong (graph_of self.now.chains.graph.now) (known_of known.now) (exprs_of (stmt_of stmt.now)) n)
            (IsFoundAmong (graph_of self.now.chains.graph.now) (known_of known.now) (exprs_of (stmt_of stmt.now))) }
    {
        match stmt {
            Stmt::Set { value: e, .. }
            | Stmt::Load { address: e, .. }
            | Stmt::Div { division: e, .. } => { self.in_part(known, e, e) }
            Stmt::Store { address, value, .. } => match self.in_part(known, address, address) {
                Some(temporary) => Some(temporary),
                None => self.in_part(known, value, value),
            },
            Stmt::Call { arguments, .. } => self.in_all(known, arguments.as_slice()),
            Stmt::Dos { argument, .. } => match argument {
                Some(e) => self.in_part(known, e, e),
                None => None,
            },
        }
    }

    // The same of a block's end.
    fn in_end(&self, known: &Known<'a>, end: &End) -> Option<u32>
        requires { AreCounted (graph_of self.now.chains.graph.now) self.now.alone }
        ensures { MatchOption result ((n : ℕ) → ¬ IsFoundAmong (graph_of self.now.chains.graph.now) (known_of known.now) (exit_exprs (exit_of end.now)) n)
            (IsFoundAmong (graph_of self.now.chains.graph.now) (known_of known.now) (exit_exprs (exit_of end.now))) }
    {
        match end {
            End::If { test: e, .. } | End::Switch { value: e, .. } => self.in_part(known, e, e),
            End::Ret(values) => self.in_all(known, values.as_slice()),
            End::Goto(_) | End::Stop => None,
        }
    }

    // A temporary that is joinable at a point of the block; what is known is that before it, and then that at its end.
    fn in_block(&self, known: &mut Known<'a>, block: &'a Block) -> Result<Option<u32>, AllocError>
        requires { AreCounted (graph_of self.now.chains.graph.now) self.now.alone }
        ensures { IfOk result (λ found. (steps : List Step) → IsTrue (known_of known.old) steps → MatchOption found
            (IsTrue (known_of known.new) (steps ++ map statement (block_of block.now).stmts)
            × ((n : ℕ) → ¬ JoinsIn (graph_of self.now.chains.graph.now) steps (block_of block.now) n))
            (JoinsIn (graph_of self.now.chains.graph.now) steps (block_of block.now))) }
    {
        for stmt in &block.stmts {
            if let Some(temporary) = self.in_stmt(known, stmt) {
                return Ok(Some(temporary));
            }
            known.pass(stmt)?;
        }
        Ok(self.in_end(known, &block.end))
    }

    // A temporary that is joinable at a point of the chain that begins at the place. No chain has a block twice.
    fn in_chain(
        &self,
        known: &mut Known<'a>,
        seen: &mut Vec<bool>,
        first: usize,
    ) -> Result<Option<u32>, AllocError>
        requires counted { AreCounted (graph_of self.now.chains.graph.now) self.now.alone }
        requires graph { IsGraph (graph_of self.now.chains.graph.now) }
        requires preds { ArePredecessors (successors_of (graph_of self.now.chains.graph.now)) (rows self.now.chains.preds.now.items) }
        requires first { first < length self.now.chains.graph.now.blocks.items }
        requires begins { IsFirst (graph_of self.now.chains.graph.now) first }
        requires bounded { IsBounded (known_of known.old) }
        requires seen { AreSeen (graph_of self.now.chains.graph.now) first seen.old.items }
        ensures { IfOk result (λ found. MatchOption found (IsBounded (known_of known.new)
            × AreSeen (graph_of self.now.chains.graph.now) (first + 1) seen.new.items × ((n : ℕ) → ¬ JoinsAlong (graph_of self.now.chains.graph.now) first n))
            (JoinsAlong (graph_of self.now.chains.graph.now) first)) }
    {
        known.begin();
        let mut place = first;
        'chain: loop {
            seen[place] = true;
            if let Some(temporary) = self.in_block(known, &self.chains.graph.blocks[place])? {
                return Ok(Some(temporary));
            }
            let Some(to) = self.chains.next(place) else {
                return Ok(None);
            };
            known.cross();
            place = to;
        }
    }

    // A temporary that is joinable.
    fn anywhere(&self, alloc: Global) -> Result<Option<u32>, AllocError>
        requires counted { AreCounted (graph_of self.now.chains.graph.now) self.now.alone }
        requires graph { IsGraph (graph_of self.now.chains.graph.now) }
        requires preds { ArePredecessors (successors_of (graph_of self.now.chains.graph.now)) (rows self.now.chains.preds.now.items) }
        ensures { IfOk result (λ found. MatchOption found ((n : ℕ) → ¬ IsJoinable (graph_of self.now.chains.graph.now) n) (IsJoinable (graph_of self.now.chains.graph.now))) }
    {
        let count = self.chains.graph.blocks.len();
        let mut known = Known::new(alloc);
        let mut seen = vec![in alloc; false; count]?;
        for place in 0..count {
            if !self.chains.is_first(place) {
                continue;
            }
            if let Some(temporary) = self.in_chain(&mut known, &mut seen, place)? {
                return Ok(Some(temporary));
            }
        }
        Ok(None)
    }
}

/// A temporary that is joinable in the graph, if there is one. Each statement is met once, and with it what it reads.
pub fn joinable(alloc: Global, g: &Graph) -> Result<Option<u32>, AllocError>
    requires { IsGraph (graph_of g.now) }
    ensures { IfOk result (λ found. MatchOption found ((temporary : ℕ) → ¬ IsJoinable (graph_of g.now) temporary)
        (IsJoinable (graph_of g.now))) }
{
    let preds = preds(alloc, g)?;
    let search = Search {
        chains: Chains {
            graph: g,
            preds: &preds,
        },
        alone: Alone::of(alloc, g)?,
    };
    search.anywhere(alloc)
}
