//! Statements and ends of blocks with their expressions made simpler.

ghost use Rattle.std.specs.Prelude.{map, option_map, IfOk};
ghost use Rattle.std.specs.List.{AllZip};
ghost use Rattle.dcc_ir.specs.Views.{expr_of, stmt_of, exit_of};
ghost use Rattle.dcc_rules.specs.Views.{numbers_of};
ghost use Rattle.dcc_simplify.specs.Reshaped.{IsDivisionAs, IsArgumentAs, IsStmtAs, IsExitAs};
ghost use Rattle.dcc_simplify.specs.Simplified.{IsSimplified};

use dcc_ir::{End, Expr, Stmt};
use dcc_rules::{RuleList, simplify};
use std::alloc::{AllocError, Global};

/// What expressions are made simpler by: the rules, and the bits of the temporaries.
#[derive(Drop)]
pub struct Simplifier<'a> {
    pub alloc: Global,
    pub rules: &'a RuleList,
    pub bits: &'a [u8],
}

impl Simplifier<'_> {
    // The expression made simpler.
    fn expression(&self, e: Expr) -> Result<Expr, AllocError>
        ensures { IfOk result (λ o. IsSimplified (numbers_of self.now.rules.now) self.now.bits.now (expr_of e) (expr_of o)) }
    {
        simplify(self.alloc, self.bits, e, self.rules)
    }

    // Each of the expressions made simpler.
    fn expressions(&self, es: Vec<Expr>) -> Result<Vec<Expr>, AllocError>
        ensures { IfOk result (λ o. AllZip (IsSimplified (numbers_of self.now.rules.now) self.now.bits.now)
            (map expr_of es.items) (map expr_of o.items)) }
    {
        let mut done = Vec::new(self.alloc);
        for e in es {
            done.push(self.expression(e)?)?;
        }
        Ok(done)
    }

    // The division with its operands made simpler. It may end the run, so that it is no matter for the rules itself.
    fn division(&self, division: Expr) -> Result<Expr, AllocError>
        ensures { IfOk result (λ o. IsDivisionAs (IsSimplified (numbers_of self.now.rules.now) self.now.bits.now)
            (expr_of division) (expr_of o)) }
    {
        match division {
            Expr::Bin(operator, width, left, right) => {
                let left = self.expression(Box::into_inner(left))?;
                let right = self.expression(Box::into_inner(right))?;
                Expr::binary(self.alloc, operator, width, left, right)
            }
            other => Ok(other),
        }
    }

    // The argument made simpler, where there is one.
    fn argument(&self, argument: Option<Expr>) -> Result<Option<Expr>, AllocError>
        ensures { IfOk result (λ o. IsArgumentAs (IsSimplified (numbers_of self.now.rules.now) self.now.bits.now)
            (option_map expr_of argument) (option_map expr_of o)) }
    {
        match argument {
            None => Ok(None),
            Some(e) => Ok(Some(self.expression(e)?)),
        }
    }

    /// The statement with its expressions made simpler.
    pub fn statement(&self, stmt: Stmt) -> Result<Stmt, AllocError>
        ensures { IfOk result (λ o. IsStmtAs (IsSimplified (numbers_of self.now.rules.now) self.now.bits.now)
            (stmt_of stmt) (stmt_of o)) }
    {
        match stmt {
            Stmt::Set { place, value } => {
                let value = self.expression(value)?;
                Ok(Stmt::Set { place, value })
            }
            Stmt::Load {
                place,
                width,
                address,
            } => {
                let address = self.expression(address)?;
                Ok(Stmt::Load {
                    place,
                    width,
                    address,
                })
            }
            Stmt::Store {
                width,
                address,
                value,
            } => {
                let address = self.expression(address)?;
                let value = self.expression(value)?;
                Ok(Stmt::Store {
                    width,
                    address,
                    value,
                })
            }
            Stmt::Div { place, division } => {
                let division = self.division(division)?;
                Ok(Stmt::Div { place, division })
            }
            Stmt::Call {
                results,
                entry,
                arguments,
                depth,
            } => {
                let arguments = self.expressions(arguments)?;
                Ok(Stmt::Call {
                    results,
                    entry,
                    arguments,
                    depth,
                })
            }
            Stmt::Dos {
                number,
                place,
                argument,
            } => {
                let argument = self.argument(argument)?;
                Ok(Stmt::Dos {
                    number,
                    place,
                    argument,
                })
            }
        }
    }

    /// The end of a block with its expressions made simpler.
    pub fn end(&self, end: End) -> Result<End, AllocError>
        ensures { IfOk result (λ o. IsExitAs (IsSimplified (numbers_of self.now.rules.now) self.now.bits.now)
            (exit_of end) (exit_of o)) }
    {
        match end {
            End::Goto(place) => Ok(End::Goto(place)),
            End::If { test, one, other } => {
                let test = self.expression(test)?;
                Ok(End::If { test, one, other })
            }
            End::Switch { value, blocks } => {
                let value = self.expression(value)?;
                Ok(End::Switch { value, blocks })
            }
            End::Ret(values) => Ok(End::Ret(self.expressions(values)?)),
            End::Stop => Ok(End::Stop),
        }
    }
}
