//! Graphs over words.

ghost use Rattle.std.specs.Prelude.{◌≡◌, ◌++◌, map, option_map, IfOk, OnOk};
ghost use Rattle.std.specs.List.{AllZip};
ghost use Rattle.dcc_ir.specs.Tree.{Set as SetOf};
ghost use Rattle.dcc_ir.specs.Use.{reads_of};
ghost use Rattle.dcc_ir.specs.Live.{is_among};
ghost use Rattle.dcc_ir.specs.Views.{expr_of, stmt_of, exit_of, block_of};
ghost use Rattle.dcc_words.specs.Reading.{exit_read_by};
ghost use Rattle.dcc_words.specs.Words as spec;
ghost use Rattle.dcc_words.specs.Words.{in_words, stmt_in_words, AreInWords, IsBlockInWords, param_in_words};
ghost use Rattle.dcc_words.specs.Roles.{role_of};
ghost use Rattle.dcc_words.specs.Rewriting.{IsJoined, IsLastOf};

use crate::roles::{Role, Roles};
use dcc_ir::{Block, End, Expr, Loc, Param, Put, Stmt};
use std::alloc::{AllocError, Global};

/// Whether an expression reads the location.
pub fn reads(e: &Expr, location: Loc) -> bool
    ensures { result ≡ is_among (reads_of (expr_of e.now)) location }
{
    match e {
        Expr::Const(..) | Expr::Address(_) => false,
        Expr::Get(other) => location == *other,
        Expr::Load(_, a) | Expr::Un(_, _, a) | Expr::Widen(_, _, a) | Expr::Part(_, _, a) => {
            reads(a, location)
        }
        Expr::Bin(_, _, a, b) | Expr::Join(a, b) => reads(a, location) || reads(b, location),
        Expr::Choose(test, a, b) => {
            reads(test, location) || reads(a, location) || reads(b, location)
        }
    }
}

/// Two statements, one behind the other.
#[derive(Drop)]
pub enum Joined {
    /// The Set of a word, for the Sets of both its halves.
    One(Stmt),
    /// The two, as they are.
    Two(Stmt, Stmt),
}

/// What writes a graph over words: what each location becomes.
#[derive(Drop)]
pub struct Rewriter<'a> {
    pub alloc: Global,
    pub roles: &'a Roles,
}

impl Rewriter<'_> {
    // The lower or the upper half of a word: the part from that bit on.
    fn half(&self, word: u32, first: u8) -> Result<Expr, AllocError>
        ensures { IfOk result (λ e. expr_of e ≡ spec.half_of word first) }
    {
        Expr::part(self.alloc, 8, first, Expr::Get(Loc::Temp(word)))
    }

    // How a location is read.
    fn reading(&self, location: Loc) -> Result<Expr, AllocError>
        ensures { IfOk result (λ e. expr_of e ≡ spec.reading (role_of self.now.roles.now) location) }
    {
        match self.roles.role(location) {
            Role::Alone => Ok(Expr::Get(location)),
            Role::Low(word) => self.half(word, 0),
            Role::High(word) => self.half(word, 8),
        }
    }

    // The expression over words.
    fn expression(&self, e: Expr) -> Result<Expr, AllocError>
        ensures { IfOk result (λ o. expr_of o ≡ in_words (role_of self.now.roles.now) (expr_of e)) }
    {
        match e {
            Expr::Get(location) => self.reading(location),
            Expr::Load(width, a) => {
                Expr::load(self.alloc, width, self.expression(Box::into_inner(a))?)
            }
            Expr::Un(operator, width, a) => {
                let a = self.expression(Box::into_inner(a))?;
                Expr::unary(self.alloc, operator, width, a)
            }
            Expr::Bin(operator, width, a, b) => {
                let a = self.expression(Box::into_inner(a))?;
                let b = self.expression(Box::into_inner(b))?;
                Expr::binary(self.alloc, operator, width, a, b)
            }
            Expr::Widen(by_sign, width, a) => {
                let a = self.expression(Box::into_inner(a))?;
                Expr::widen(self.alloc, by_sign, width, a)
            }
            Expr::Part(width, first, a) => {
                let a = self.expression(Box::into_inner(a))?;
                Expr::part(self.alloc, width, first, a)
            }
            Expr::Join(high, low) => {
                let high = self.expression(Box::into_inner(high))?;
                let low = self.expression(Box::into_inner(low))?;
                Expr::join(self.alloc, high, low)
            }
            Expr::Choose(test, a, b) => {
                let test = self.expression(Box::into_inner(test))?;
                let a = self.expression(Box::into_inner(a))?;
                let b = self.expression(Box::into_inner(b))?;
                Expr::choose(self.alloc, test, a, b)
            }
            Expr::Const(width, n) => Ok(Expr::Const(width, n)),
            Expr::Address(distance) => Ok(Expr::Address(distance)),
        }
    }

    // The expressions over words.
    fn expressions(&self, es: Vec<Expr>) -> Result<Vec<Expr>, AllocError>
        ensures { IfOk result
            (λ o. map expr_of o.items ≡ map (in_words (role_of self.now.roles.now)) (map expr_of es.items)) }
    {
        let mut done = Vec::new(self.alloc);
        for e in es {
            done.push(self.expression(e)?)?;
        }
        Ok(done)
    }

    // The argument over words, where there is one.
    fn argument(&self, argument: Option<Expr>) -> Result<Option<Expr>, AllocError>
        ensures { IfOk result (λ o. option_map expr_of o
            ≡ option_map (in_words (role_of self.now.roles.now)) (option_map expr_of argument)) }
    {
        match argument {
            None => Ok(None),
            Some(e) => Ok(Some(self.expression(e)?)),
        }
    }

    // The Set of a word to its halves.
    fn word(&self, word: u32, high: Expr, low: Expr) -> Result<Stmt, AllocError>
        ensures { IfOk result (λ o. stmt_of o ≡ spec.set_word word (expr_of high) (expr_of low)) }
    {
        Ok(Stmt::Set {
            place: Loc::Temp(word),
            value: Expr::join(self.alloc, high, low)?,
        })
    }

    // The Set of a location, over words.
    fn set(&self, place: Loc, value: Expr) -> Result<Stmt, AllocError>
        ensures { IfOk result (λ o. stmt_of o
            ≡ spec.set_as (role_of self.now.roles.now place) place (in_words (role_of self.now.roles.now) (expr_of value))) }
    {
        let value = self.expression(value)?;
        match self.roles.role(place) {
            Role::Alone => Ok(Stmt::Set { place, value }),
            Role::Low(word) => self.word(word, self.half(word, 8)?, value),
            Role::High(word) => {
                let low = self.half(word, 0)?;
                self.word(word, value, low)
            }
        }
    }

    // The statement over words.
    fn statement(&self, stmt: Stmt) -> Result<Stmt, AllocError>
        ensures { IfOk result (λ o. stmt_of o ≡ stmt_in_words (role_of self.now.roles.now) (stmt_of stmt)) }
    {
        match stmt {
            Stmt::Set { place, value } => self.set(place, value),
            Stmt::Load {
                place,
                width,
                address,
            } => {
                let address = self.expression(address)?;
                Ok(Stmt::Load {
                    place,
                    width,
                    address,
                })
            }
            Stmt::Store {
                width,
                address,
                value,
            } => {
                let address = self.expression(address)?;
                let value = self.expression(value)?;
                Ok(Stmt::Store {
                    width,
                    address,
                    value,
                })
            }
            Stmt::Div { place, division } => {
                let division = self.expression(division)?;
                Ok(Stmt::Div { place, division })
            }
            Stmt::Call {
                results,
                entry,
                arguments,
                depth,
            } => {
                let arguments = self.expressions(arguments)?;
                Ok(Stmt::Call {
                    results,
                    entry,
                    arguments,
                    depth,
                })
            }
            Stmt::Dos {
                number,
                place,
                argument,
            } => {
                let argument = self.argument(argument)?;
                Ok(Stmt::Dos {
                    number,
                    place,
                    argument,
                })
            }
        }
    }

    // The end of a block over words.
    fn end(&self, end: End) -> Result<End, AllocError>
        ensures { IfOk result (λ o. exit_of o
            ≡ exit_read_by (spec.reading (role_of self.now.roles.now)) (exit_of end)) }
    {
        match end {
            End::Goto(place) => Ok(End::Goto(place)),
            End::If { test, one, other } => {
                let test = self.expression(test)?;
                Ok(End::If { test, one, other })
            }
            End::Switch { value, blocks } => {
                let value = self.expression(value)?;
                Ok(End::Switch { value, blocks })
            }
            End::Ret(values) => Ok(End::Ret(self.expressions(values)?)),
            End::Stop => Ok(End::Stop),
        }
    }

    // One Set of a word for two Sets of its halves, of which the second doesn't read what the first one sets.
    fn joined_sets(&self, first: Loc, e: Expr, second: Loc, f: Expr) -> Result<Joined, AllocError>
        ensures { IfOk result (IsJoined (role_of self.now.roles.now) (SetOf first (expr_of e)) (SetOf second (expr_of f))) }
    {
        if !reads(&f, first) {
            match (self.roles.role(first), self.roles.role(second)) {
                (Role::Low(word), Role::High(other)) if word == other => {
                    let low = self.expression(e)?;
                    let high = self.expression(f)?;
                    return Ok(Joined::One(self.word(word, high, low)?));
                }
                (Role::High(word), Role::Low(other)) if word == other => {
                    let high = self.expression(e)?;
                    let low = self.expression(f)?;
                    return Ok(Joined::One(self.word(word, high, low)?));
                }
                _ => {}
            }
        }
        Ok(Joined::Two(
            Stmt::Set {
                place: first,
                value: e,
            },
            Stmt::Set {
                place: second,
                value: f,
            },
        ))
    }

    // One Set of a word for two statements, where they are Sets of its halves.
    fn joined(&self, first: Stmt, second: Stmt) -> Result<Joined, AllocError>
        ensures { IfOk result (IsJoined (role_of self.now.roles.now) (stmt_of first) (stmt_of second)) }
    {
        match (first, second) {
            (
                Stmt::Set { place, value },
                Stmt::Set {
                    place: next,
                    value: f,
                },
            ) => { self.joined_sets(place, value, next, f) }
            (first, second) => Ok(Joined::Two(first, second)),
        }
    }

    // The statement after these over words, together with the last of them, which is taken out, where both are Sets of
    // the halves of a word.
    fn last(&self, rest: &mut Vec<Stmt>, stmt: Stmt) -> Result<Stmt, AllocError>
        ensures { IfOk result (λ new. IsLastOf (role_of self.now.roles.now) (map stmt_of rest.old.items) (stmt_of stmt)
            (map stmt_of rest.new.items) (stmt_of new)) }
    {
        let Some(first) = rest.pop() else {
            return self.statement(stmt);
        };
        match self.joined(first, stmt)? {
            Joined::One(new) => Ok(new),
            Joined::Two(first, stmt) => {
                rest.push(first)?;
                self.statement(stmt)
            }
        }
    }

    // The statements over words.
    fn statements(&self, stmts: Vec<Stmt>) -> Result<Vec<Stmt>, AllocError>
        ensures { IfOk result
            (λ after. AreInWords (role_of self.now.roles.now) (map stmt_of stmts.items) (map stmt_of after.items)) }
    {
        let mut rest = stmts;
        let mut after = Vec::new(self.alloc);
        while let Some(stmt) = rest.pop() {
            after.push(self.last(&mut rest, stmt)?)?;
        }
        after.reverse();
        Ok(after)
    }

    /// The blocks over words.
    pub fn blocks(&self, blocks: Vec<Block>) -> Result<Vec<Block>, AllocError>
        ensures { IfOk result (λ after. AllZip (IsBlockInWords (role_of self.now.roles.now)) (map block_of blocks.items)
            (map block_of after.items)) }
    {
        let mut after = Vec::new(self.alloc);
        for block in blocks {
            let stmts = self.statements(block.stmts)?;
            let end = self.end(block.end)?;
            after.push(Block {
                at: block.at,
                stmts,
                end,
            })?;
        }
        Ok(after)
    }

    // The param over words.
    fn param(&self, param: Param) -> Param
        ensures { result ≡ param_in_words (role_of self.now.roles.now) param }
    {
        let put = match param.put {
            Put::Two(low, high) => match self.roles.role(low) {
                Role::Low(word) => Put::One(Loc::Temp(word)),
                Role::Alone | Role::High(_) => Put::Two(low, high),
            },
            put => put,
        };
        Param {
            stack: param.stack,
            put,
        }
    }

    /// The params over words.
    pub fn params(&self, params: Vec<Param>) -> Result<Vec<Param>, AllocError>
        ensures { IfOk result (λ after. after.items ≡ map (param_in_words (role_of self.now.roles.now)) params.items) }
    {
        let mut after = Vec::new(self.alloc);
        for param in params {
            after.push(self.param(param))?;
        }
        Ok(after)
    }
}
