//! Expressions, statements and ends of blocks, with what temporaries hold in the place of reads.

ghost use Rattle.std.specs.Prelude.{◌≡◌, map, IfOk};
ghost use Rattle.dcc_ir.specs.Tree.{Get as GetOf};
ghost use Rattle.dcc_ir.specs.Use.{exprs_of, exit_exprs};
ghost use Rattle.dcc_ir.specs.Views.{expr_of, stmt_of, exit_of};
ghost use Rattle.dcc_substitution.specs.Substituted.{IsSubstituteStmt, IsSubstituteExit};
ghost use Rattle.dcc_available.specs.Known.{known_of, IsTold};
ghost use Rattle.dcc_available.specs.Within.{IsSubstituteWithin, AreSubstitutesWithin, IsDividedAlike, StayShallow};

use crate::expressions::copied;
use crate::known::Known;
use dcc_ir::{End, Expr, Loc, Stmt};
use std::alloc::AllocError;

/// How deep expressions may get.
const DEPTH_MOST: usize = 32;

// A copy of a list of locations.
fn copied_places(places: &Vec<Loc>) -> Result<Vec<Loc>, AllocError>
    ensures { IfOk result (λ copy. copy.items ≡ places.now.items) }
{
    places.clone()
}

// A copy of a list of blocks.
fn copied_blocks(blocks: &Vec<u32>) -> Result<Vec<u32>, AllocError>
    ensures { IfOk result (λ copy. copy.items ≡ blocks.now.items) }
{
    blocks.clone()
}

impl Known {
    // What stands for a read, at most so deep, or the read itself.
    fn read(&self, location: Loc, depth: usize) -> Result<Expr, AllocError>
        ensures { IfOk result (λ r. IsSubstituteWithin (known_of self.now) depth (GetOf location) (expr_of r)) }
    {
        let Loc::Temp(temporary) = location else {
            return Ok(Expr::Get(location));
        };
        match self.value(temporary, depth)? {
            Some(value) => Ok(value),
            None => Ok(Expr::Get(location)),
        }
    }

    // The expression with what temporaries hold in the place of reads, as far as it gets no deeper than that.
    fn within(&self, e: &Expr, depth: usize) -> Result<Expr, AllocError>
        ensures { IfOk result (λ r. IsSubstituteWithin (known_of self.now) depth (expr_of e.now) (expr_of r)) }
    {
        let alloc = self.alloc;
        let less = depth.saturating_sub(1);
        match e {
            Expr::Const(width, number) => Ok(Expr::Const(*width, *number)),
            Expr::Get(location) => self.read(*location, depth),
            Expr::Load(width, address) => Expr::load(alloc, *width, self.within(address, less)?),
            Expr::Un(operator, width, operand) => {
                Expr::unary(alloc, *operator, *width, self.within(operand, less)?)
            }
            Expr::Bin(operator, width, left, right) => {
                let left = self.within(left, less)?;
                Expr::binary(alloc, *operator, *width, left, self.within(right, less)?)
            }
            Expr::Widen(by_sign, width, operand) => {
                Expr::widen(alloc, *by_sign, *width, self.within(operand, less)?)
            }
            Expr::Part(width, first, operand) => {
                Expr::part(alloc, *width, *first, self.within(operand, less)?)
            }
            Expr::Join(high, low) => {
                let high = self.within(high, less)?;
                Expr::join(alloc, high, self.within(low, less)?)
            }
            Expr::Choose(test, one, other) => {
                let test = self.within(test, less)?;
                let one = self.within(one, less)?;
                Expr::choose(alloc, test, one, self.within(other, less)?)
            }
            Expr::Address(distance) => Ok(Expr::Address(*distance)),
        }
    }

    // The expressions with what temporaries hold in the place of reads.
    fn within_all(&self, es: &[Expr]) -> Result<Vec<Expr>, AllocError>
        ensures { IfOk result (λ all. AreSubstitutesWithin (known_of self.now) (map expr_of es.now)
            (map expr_of all.items)) }
    {
        let mut all = Vec::new(self.alloc);
        for e in es {
            all.push(self.within(e, DEPTH_MOST)?)?;
        }
        Ok(all)
    }

    // The division with what temporaries hold in the place of its operands' reads.
    fn within_division(&self, division: &Expr) -> Result<Expr, AllocError>
        ensures { IfOk result (λ r. IsDividedAlike (known_of self.now) (expr_of division.now) (expr_of r)) }
    {
        match division {
            Expr::Bin(operator, width, left, right) => {
                let left = self.within(left, DEPTH_MOST - 1)?;
                let right = self.within(right, DEPTH_MOST - 1)?;
                Expr::binary(self.alloc, *operator, *width, left, right)
            }
            _ => copied(self.alloc, division),
        }
    }

    /// The statement with what temporaries hold in the place of reads.
    pub fn within_stmt(&self, stmt: &Stmt) -> Result<Stmt, AllocError>
        ensures substitute { IfOk result (λ r. IsSubstituteStmt (IsTold (known_of self.now)) (stmt_of stmt.now)
            (stmt_of r)) }
        ensures shallow { IfOk result (λ r. StayShallow (exprs_of (stmt_of stmt.now)) (exprs_of (stmt_of r))) }
    {
        match stmt {
            Stmt::Set { place, value } => Ok(Stmt::Set {
                place: *place,
                value: self.within(value, DEPTH_MOST)?,
            }),
            Stmt::Load {
                place,
                width,
                address,
            } => Ok(Stmt::Load {
                place: *place,
                width: *width,
                address: self.within(address, DEPTH_MOST)?,
            }),
            Stmt::Store {
                width,
                address,
                value,
            } => Ok(Stmt::Store {
                width: *width,
                address: self.within(address, DEPTH_MOST)?,
                value: self.within(value, DEPTH_MOST)?,
            }),
            Stmt::Div { place, division } => Ok(Stmt::Div {
                place: *place,
                division: self.within_division(division)?,
            }),
            Stmt::Call {
                results,
                entry,
                arguments,
                depth,
            } => Ok(Stmt::Call {
                results: copied_places(results)?,
                entry: *entry,
                arguments: self.within_all(arguments.as_slice())?,
                depth: *depth,
            }),
            Stmt::Dos {
                number,
                place,
                argument,
            } => Ok(Stmt::Dos {
                number: *number,
                place: *place,
                argument: match argument {
                    Some(e) => Some(self.within(e, DEPTH_MOST)?),
                    None => None,
                },
            }),
        }
    }

    /// The end of a block with what temporaries hold in the place of reads.
    pub fn within_end(&self, end: &End) -> Result<End, AllocError>
        ensures substitute { IfOk result (λ r. IsSubstituteExit (IsTold (known_of self.now)) (exit_of end.now)
            (exit_of r)) }
        ensures shallow { IfOk result (λ r. StayShallow (exit_exprs (exit_of end.now)) (exit_exprs (exit_of r))) }
    {
        match end {
            End::Goto(block) => Ok(End::Goto(*block)),
            End::If { test, one, other } => Ok(End::If {
                test: self.within(test, DEPTH_MOST)?,
                one: *one,
                other: *other,
            }),
            End::Switch { value, blocks } => Ok(End::Switch {
                value: self.within(value, DEPTH_MOST)?,
                blocks: copied_blocks(blocks)?,
            }),
            End::Ret(values) => Ok(End::Ret(self.within_all(values.as_slice())?)),
            End::Stop => Ok(End::Stop),
        }
    }
}
