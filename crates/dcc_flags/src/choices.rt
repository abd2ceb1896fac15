//! For each flag an expression that has its value.

ghost use Rattle.std.specs.Prelude.{◌≡◌, map, option_map, IfOk};
ghost use Rattle.dcc_ir.specs.Tree as tree;
ghost use Rattle.dcc_ir.specs.Views.{expr_of, stmt_of, exit_of};
ghost use Rattle.dcc_flags.specs.Folding as spec;

use crate::kept::Kept;
use dcc_ir::{End, Expr, Loc, Stmt, UnOp};
use dcc_num::FlagName;
use std::alloc::{AllocError, Global};

/// For each flag an expression that has its value.
#[derive(Drop)]
pub struct Choices {
    pub cf: Expr,
    pub zf: Expr,
    pub sf: Expr,
    pub of: Expr,
}

// A copy of an expression.
pub fn copied(alloc: Global, e: &Expr) -> Result<Expr, AllocError>
    ensures { IfOk result (λ r. expr_of r ≡ expr_of e.now) }
{
    match e {
        Expr::Const(width, number) => Ok(Expr::Const(*width, *number)),
        Expr::Get(location) => Ok(Expr::Get(*location)),
        Expr::Load(width, address) => Expr::load(alloc, *width, copied(alloc, address)?),
        Expr::Un(operator, width, operand) => {
            Expr::unary(alloc, *operator, *width, copied(alloc, operand)?)
        }
        Expr::Bin(operator, width, left, right) => {
            let left = copied(alloc, left)?;
            Expr::binary(alloc, *operator, *width, left, copied(alloc, right)?)
        }
        Expr::Widen(by_sign, width, operand) => {
            Expr::widen(alloc, *by_sign, *width, copied(alloc, operand)?)
        }
        Expr::Part(width, first, operand) => {
            Expr::part(alloc, *width, *first, copied(alloc, operand)?)
        }
        Expr::Join(high, low) => {
            let high = copied(alloc, high)?;
            Expr::join(alloc, high, copied(alloc, low)?)
        }
        Expr::Choose(test, one, other) => {
            let test = copied(alloc, test)?;
            let one = copied(alloc, one)?;
            Expr::choose(alloc, test, one, copied(alloc, other)?)
        }
        Expr::Address(distance) => Ok(Expr::Address(*distance)),
    }
}

// An operator on one operand; a negation of a negation is the operand of that.
fn operated(alloc: Global, operator: UnOp, width: u8, a: Expr) -> Result<Expr, AllocError>
    ensures { IfOk result (λ r. expr_of r ≡ spec.with_operator operator width (expr_of a)) }
{
    match operator {
        UnOp::Not => negated(alloc, width, a),
        UnOp::Neg | UnOp::IsZero => Ok(Expr::Un(operator, width, Box::new(alloc, a)?)),
    }
}

// The negation of an expression.
fn negated(alloc: Global, width: u8, a: Expr) -> Result<Expr, AllocError>
    ensures { IfOk result (λ r. expr_of r ≡ spec.negated width (expr_of a)) }
{
    match a {
        Expr::Un(UnOp::Not, w, operand) if w == width => Ok(Box::into_inner(operand)),
        a => Ok(Expr::Un(UnOp::Not, width, Box::new(alloc, a)?)),
    }
}

// The choice for a flag at the start: a kept flag has its own value, another one what the temporary holds.
fn first_choice(kept: Kept, temporary: u32, f: FlagName) -> Expr
    ensures { expr_of result ≡ spec.first_choice kept temporary f }
{
    Expr::Get(if kept.has(f) {
        Loc::Flag(f)
    } else {
        Loc::Temp(temporary)
    })
}

impl Choices {
    /// The choices at the start, where the temporary holds what the flags do that are not kept.
    pub fn first(kept: Kept, temporary: u32) -> Choices
        ensures { spec.choices_of result ≡ spec.first_choices kept temporary }
    {
        Choices {
            cf: first_choice(kept, temporary, FlagName::Cf),
            zf: first_choice(kept, temporary, FlagName::Zf),
            sf: first_choice(kept, temporary, FlagName::Sf),
            of: first_choice(kept, temporary, FlagName::Of),
        }
    }

    /// A copy of the choices.
    pub fn copy(&self, alloc: Global) -> Result<Choices, AllocError>
        ensures { IfOk result (λ r. spec.choices_of r ≡ spec.choices_of self.now) }
    {
        Ok(Choices {
            cf: copied(alloc, &self.cf)?,
            zf: copied(alloc, &self.zf)?,
            sf: copied(alloc, &self.sf)?,
            of: copied(alloc, &self.of)?,
        })
    }

    // The choice for a flag.
    fn of(&self, f: FlagName) -> &Expr
        ensures { expr_of result.now ≡ spec.choice (spec.choices_of self.now) f }
    {
        match f {
            FlagName::Cf => &self.cf,
            FlagName::Zf => &self.zf,
            FlagName::Sf => &self.sf,
            FlagName::Of => &self.of,
        }
    }

    /// Sets the choice for a flag to the expression.
    pub fn choose(&mut self, f: FlagName, e: Expr)
        ensures { spec.choices_of self.new ≡ spec.with_choice (spec.choices_of self.old) f (expr_of e) }
    {
        match f {
            FlagName::Cf => self.cf = e,
            FlagName::Zf => self.zf = e,
            FlagName::Sf => self.sf = e,
            FlagName::Of => self.of = e,
        }
    }

    // What is read at a location.
    fn read(&self, alloc: Global, location: Loc) -> Result<Expr, AllocError>
        ensures { IfOk result (λ r. expr_of r ≡ spec.chosen (spec.choices_of self.now) location) }
    {
        match location {
            Loc::Flag(f) => copied(alloc, self.of(f)),
            Loc::Half(..) | Loc::Cell(..) | Loc::Temp(_) => Ok(Expr::Get(location)),
        }
    }

    /// The expression with the choices in place of reads of flags.
    pub fn within(&self, alloc: Global, e: &Expr) -> Result<Expr, AllocError>
        ensures { IfOk result (λ r. expr_of r ≡ spec.with_choices (spec.choices_of self.now) (expr_of e.now)) }
    {
        match e {
            Expr::Const(width, number) => Ok(Expr::Const(*width, *number)),
            Expr::Get(location) => self.read(alloc, *location),
            Expr::Load(width, address) => Expr::load(alloc, *width, self.within(alloc, address)?),
            Expr::Un(operator, width, operand) => {
                operated(alloc, *operator, *width, self.within(alloc, operand)?)
            }
            Expr::Bin(operator, width, left, right) => {
                let left = self.within(alloc, left)?;
                Expr::binary(alloc, *operator, *width, left, self.within(alloc, right)?)
            }
            Expr::Widen(by_sign, width, operand) => {
                Expr::widen(alloc, *by_sign, *width, self.within(alloc, operand)?)
            }
            Expr::Part(width, first, operand) => {
                Expr::part(alloc, *width, *first, self.within(alloc, operand)?)
            }
            Expr::Join(high, low) => {
                let high = self.within(alloc, high)?;
                Expr::join(alloc, high, self.within(alloc, low)?)
            }
            Expr::Choose(test, one, other) => {
                let test = self.within(alloc, test)?;
                let one = self.within(alloc, one)?;
                Expr::choose(alloc, test, one, self.within(alloc, other)?)
            }
            Expr::Address(distance) => Ok(Expr::Address(*distance)),
        }
    }

    // The expressions with the choices in them.
    fn within_all(&self, alloc: Global, es: &[Expr]) -> Result<Vec<Expr>, AllocError>
        ensures { IfOk result (λ r. map expr_of r.items
            ≡ map (spec.with_choices (spec.choices_of self.now)) (map expr_of es.now)) }
    {
        let mut all = Vec::new(alloc);
        for e in es {
            all.push(self.within(alloc, e)?)?;
        }
        Ok(all)
    }

    // The argument with the choices in it.
    fn within_argument(
        &self,
        alloc: Global,
        argument: &Option<Expr>,
    ) -> Result<Option<Expr>, AllocError>
        ensures { IfOk result (λ r. option_map expr_of r
            ≡ option_map (spec.with_choices (spec.choices_of self.now)) (option_map expr_of argument.now)) }
    {
        match argument {
            Some(e) => Ok(Some(self.within(alloc, e)?)),
            None => Ok(None),
        }
    }

    // The statement that loads, with the choices in its address.
    fn within_load(
        &self,
        alloc: Global,
        place: Loc,
        width: u8,
        address: &Expr,
    ) -> Result<Stmt, AllocError>
        ensures { IfOk result (λ r. stmt_of r
            ≡ spec.stmt_with_choices (spec.choices_of self.now) (tree.Fetch place width (expr_of address.now))) }
    {
        let address = self.within(alloc, address)?;
        Ok(Stmt::Load {
            place,
            width,
            address,
        })
    }

    // The statement that stores, with the choices in its address and its value.
    fn within_store(
        &self,
        alloc: Global,
        width: u8,
        address: &Expr,
        value: &Expr,
    ) -> Result<Stmt, AllocError>
        ensures { IfOk result (λ r. stmt_of r ≡ spec.stmt_with_choices (spec.choices_of self.now)
            (tree.Store width (expr_of address.now) (expr_of value.now))) }
    {
        let address = self.within(alloc, address)?;
        Ok(Stmt::Store {
            width,
            address,
            value: self.within(alloc, value)?,
        })
    }

    // The call with the choices in its arguments.
    fn within_call(
        &self,
        alloc: Global,
        results: &Vec<Loc>,
        entry: u16,
        arguments: &Vec<Expr>,
        depth: u16,
    ) -> Result<Stmt, AllocError>
        ensures { IfOk result (λ r. stmt_of r ≡ spec.stmt_with_choices (spec.choices_of self.now)
            (tree.Call results.now.items entry (map expr_of arguments.now.items) depth)) }
    {
        Ok(Stmt::Call {
            results: results.clone()?,
            entry,
            arguments: self.within_all(alloc, arguments.as_slice())?,
            depth,
        })
    }

    /// The statement with the choices in it.
    pub fn within_stmt(&self, alloc: Global, stmt: &Stmt) -> Result<Stmt, AllocError>
        ensures { IfOk result (λ r. stmt_of r ≡ spec.stmt_with_choices (spec.choices_of self.now) (stmt_of stmt.now)) }
    {
        Ok(match stmt {
            Stmt::Set { place, value } => Stmt::Set {
                place: *place,
                value: self.within(alloc, value)?,
            },
            Stmt::Load {
                place,
                width,
                address,
            } => self.within_load(alloc, *place, *width, address)?,
            Stmt::Store {
                width,
                address,
                value,
            } => self.within_store(alloc, *width, address, value)?,
            Stmt::Div { place, division } => Stmt::Div {
                place: *place,
                division: self.within(alloc, division)?,
            },
            Stmt::Call {
                results,
                entry,
                arguments,
                depth,
            } => self.within_call(alloc, results, *entry, arguments, *depth)?,
            Stmt::Dos {
                number,
                place,
                argument,
            } => Stmt::Dos {
                number: *number,
                place: *place,
                argument: self.within_argument(alloc, argument)?,
            },
        })
    }

    /// The end of a block with the choices in it.
    pub fn within_end(&self, alloc: Global, end: &End) -> Result<End, AllocError>
        ensures { IfOk result (λ r. exit_of r ≡ spec.exit_with_choices (spec.choices_of self.now) (exit_of end.now)) }
    {
        Ok(match end {
            End::Goto(block) => End::Goto(*block),
            End::If { test, one, other } => End::If {
                test: self.within(alloc, test)?,
                one: *one,
                other: *other,
            },
            End::Switch { value, blocks } => End::Switch {
                value: self.within(alloc, value)?,
                blocks: blocks.clone()?,
            },
            End::Ret(values) => End::Ret(self.within_all(alloc, values.as_slice())?),
            End::Stop => End::Stop,
        })
    }
}
