//! The writer of folded statements.

ghost use Rattle.std.specs.Prelude.{◌≡◌, ◌++◌, length, map, IfOk, OnOk};
ghost use Rattle.dcc_ir.specs.Views.{expr_of, stmt_of};
ghost use Rattle.dcc_flags.specs.Folding as spec;
ghost use Rattle.dcc_flags.specs.Folding.{choices_of};

use crate::choices::{Choices, copied};
use crate::kept::Kept;
use dcc_ir::{Expr, Loc, Stmt};
use std::alloc::{AllocError, Global};

// Whether a truth node stands in an expression.
fn has_truth(e: &Expr) -> bool
    ensures { result ≡ spec.has_truth (expr_of e.now) }
{
    match e {
        Expr::Const(..) | Expr::Get(_) | Expr::Address(_) => false,
        Expr::Load(_, a) | Expr::Widen(_, _, a) | Expr::Part(_, _, a) => has_truth(a),
        Expr::Un(operator, _, operand) => operator.is_test() || has_truth(operand),
        Expr::Bin(operator, _, left, right) => operator.is_comparison()
            || has_truth(left)
            || has_truth(right),
        Expr::Join(high, low) => has_truth(high) || has_truth(low),
        Expr::Choose(..) => true,
    }
}

// How many bits an expression has, at most 255.
fn bits_in(bits: &[u8], e: &Expr) -> u8
    ensures { result ≡ spec.bits_in bits.now (expr_of e.now) }
{
    match e {
        Expr::Const(width, ..)
        | Expr::Load(width, ..)
        | Expr::Widen(_, width, ..)
        | Expr::Part(width, ..) => *width,
        Expr::Get(location) => location.width(bits),
        Expr::Un(operator, width, ..) => if operator.is_test() { 1 } else { *width },
        Expr::Bin(operator, width, ..) => if operator.is_comparison() { 1 } else { *width },
        Expr::Join(high, low) => bits_in(bits, high).saturating_add(bits_in(bits, low)),
        Expr::Choose(_, one, ..) => bits_in(bits, one),
        Expr::Address(_) => 16,
    }
}

/// The number of the temporary after the given ones.
///
/// # Errors
///
/// Where there are 2^32.
pub(crate) fn next_temporary(bits: &[u8]) -> Result<u32, AllocError>
    ensures { IfOk result (λ n. n ≡ length bits.now) }
{
    u32::try_from(bits.len()).map_err(|_| AllocError)
}

/// Writes statements, and makes fresh temporaries.
#[derive(Drop)]
pub struct Writer {
    pub alloc: Global,
    /// Which flags are kept.
    pub kept: Kept,
    /// The bits of each temporary.
    pub bits: Vec<u8>,
    /// The statements written so far.
    pub stmts: Vec<Stmt>,
}

impl Writer {
    // Writes that a fresh temporary takes the expression, and gives its read.
    fn copy(&mut self, e: &Expr) -> Result<Expr, AllocError>
        ensures value { IfOk result (λ r. expr_of r ≡ (spec.copied self.old.bits.items (expr_of e.now)).value) }
        ensures stmts { OnOk result (map stmt_of self.new.stmts.items ≡ map stmt_of self.old.stmts.items
            ++ (spec.copied self.old.bits.items (expr_of e.now)).copies) }
        ensures bits { OnOk result (self.new.bits.items ≡ self.old.bits.items
            ++ (spec.copied self.old.bits.items (expr_of e.now)).widths) }
        ensures kept { self.new.kept ≡ self.old.kept }
    {
        let fresh = Loc::Temp(next_temporary(self.bits.as_slice())?);
        self.bits.push(bits_in(self.bits.as_slice(), e))?;
        self.stmts.push(Stmt::Set {
            place: fresh,
            value: copied(self.alloc, e)?,
        })?;
        Ok(Expr::Get(fresh))
    }

    // The expression over fresh temporaries, which take its greatest parts without a truth node, and its loads.
    fn take(&mut self, e: &Expr) -> Result<Expr, AllocError>
        ensures value { IfOk result (λ r. expr_of r ≡ (spec.taken self.old.bits.items (expr_of e.now)).value) }
        ensures stmts { OnOk result (map stmt_of self.new.stmts.items ≡ map stmt_of self.old.stmts.items
            ++ (spec.taken self.old.bits.items (expr_of e.now)).copies) }
        ensures bits { OnOk result (self.new.bits.items ≡ self.old.bits.items
            ++ (spec.taken self.old.bits.items (expr_of e.now)).widths) }
        ensures kept { self.new.kept ≡ self.old.kept }
    {
        let alloc = self.alloc;
        match e {
            Expr::Const(width, number) => Ok(Expr::Const(*width, *number)),
            Expr::Get(_) | Expr::Load(..) | Expr::Address(_) => self.copy(e),
            Expr::Un(..) | Expr::Bin(..) | Expr::Widen(..) | Expr::Part(..) | Expr::Join(..)
                if !has_truth(e) => { self.copy(e) }
            Expr::Un(operator, width, operand) => {
                Expr::unary(alloc, *operator, *width, self.take(operand)?)
            }
            Expr::Bin(operator, width, left, right) => {
                let left = self.take(left)?;
                Expr::binary(alloc, *operator, *width, left, self.take(right)?)
            }
            Expr::Widen(by_sign, width, operand) => {
                Expr::widen(alloc, *by_sign, *width, self.take(operand)?)
            }
            Expr::Part(width, first, operand) => {
                Expr::part(alloc, *width, *first, self.take(operand)?)
            }
            Expr::Join(high, low) => {
                let high = self.take(high)?;
                Expr::join(alloc, high, self.take(low)?)
            }
            Expr::Choose(test, one, other) => {
                let test = self.take(test)?;
                let one = self.take(one)?;
                Expr::choose(alloc, test, one, self.take(other)?)
            }
        }
    }

    // Writes that a location takes the expression. A flag that is not kept goes, and is chosen over fresh temporaries.
    fn set(&mut self, choices: &mut Choices, place: Loc, e: Expr) -> Result<(), AllocError>
        ensures stmts { OnOk result (map stmt_of self.new.stmts.items ≡ map stmt_of self.old.stmts.items
            ++ (spec.set_folded self.old.kept self.old.bits.items (choices_of choices.old) place (expr_of e)).stmts) }
        ensures bits { OnOk result (self.new.bits.items ≡ self.old.bits.items
            ++ (spec.set_folded self.old.kept self.old.bits.items (choices_of choices.old) place (expr_of e)).widths) }
        ensures choices { OnOk result (choices_of choices.new
            ≡ (spec.set_folded self.old.kept self.old.bits.items (choices_of choices.old) place (expr_of e)).choices) }
        ensures kept { self.new.kept ≡ self.old.kept }
    {
        match place {
            Loc::Flag(f) if !self.kept.has(f) => {
                let value = self.take(&e)?;
                choices.choose(f, value);
            }
            _ => self.stmts.push(Stmt::Set { place, value: e })?,
        }
        Ok(())
    }

    // Writes the statement with the choices in it, or what stands in its place.
    fn fold_stmt(&mut self, choices: &mut Choices, stmt: &Stmt) -> Result<(), AllocError>
        ensures stmts { OnOk result (map stmt_of self.new.stmts.items ≡ map stmt_of self.old.stmts.items
            ++ (spec.stmt_folded self.old.kept self.old.bits.items (choices_of choices.old)
            (stmt_of stmt.now)).stmts) }
        ensures bits { OnOk result (self.new.bits.items ≡ self.old.bits.items
            ++ (spec.stmt_folded self.old.kept self.old.bits.items (choices_of choices.old)
            (stmt_of stmt.now)).widths) }
        ensures choices { OnOk result (choices_of choices.new
            ≡ (spec.stmt_folded self.old.kept self.old.bits.items (choices_of choices.old)
            (stmt_of stmt.now)).choices) }
        ensures kept { self.new.kept ≡ self.old.kept }
    {
        match stmt {
            Stmt::Set { place, value } => {
                let e = choices.within(self.alloc, value)?;
                self.set(choices, *place, e)
            }
            Stmt::Load { .. }
            | Stmt::Store { .. }
            | Stmt::Div { .. }
            | Stmt::Call { .. }
            | Stmt::Dos { .. } => {
                self.stmts.push(choices.within_stmt(self.alloc, stmt)?)?;
                Ok(())
            }
        }
    }

    /// Writes what stands in place of the statements, and leaves the choices after them.
    pub fn fold_stmts(&mut self, choices: &mut Choices, stmts: &[Stmt]) -> Result<(), AllocError>
        ensures stmts { OnOk result (map stmt_of self.new.stmts.items ≡ map stmt_of self.old.stmts.items
            ++ (spec.stmts_folded self.old.kept self.old.bits.items (choices_of choices.old)
            (map stmt_of stmts.now)).stmts) }
        ensures bits { OnOk result (self.new.bits.items ≡ self.old.bits.items
            ++ (spec.stmts_folded self.old.kept self.old.bits.items (choices_of choices.old)
            (map stmt_of stmts.now)).widths) }
        ensures choices { OnOk result (choices_of choices.new
            ≡ (spec.stmts_folded self.old.kept self.old.bits.items (choices_of choices.old)
            (map stmt_of stmts.now)).choices) }
        ensures kept { self.new.kept ≡ self.old.kept }
    {
        for stmt in stmts {
            self.fold_stmt(choices, stmt)?;
        }
        Ok(())
    }
}
