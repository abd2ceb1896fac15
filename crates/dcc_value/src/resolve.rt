//! From the expressions of a text to resolved ones.

ghost use Rattle.std.specs.Prelude.{◌≡◌, map, option_map, slice_get, IfOk};
ghost use Rattle.dcc_c.specs.declared.syntax.CUn.TheVariants.{AddressOf};
ghost use Rattle.dcc_c.specs.Tree.{Expr, Name, Unary, Binary};
ghost use Rattle.dcc_c.specs.Typing.{both_arms_type, type_of, declared_as};
ghost use Rattle.dcc_c.specs.Views.{expr_of};
ghost use Rattle.dcc_value.specs.Evaluation.{declared_of};
ghost use Rattle.dcc_value.specs.Resolved.{Names as NamesOf, names_of, all_names, index_named, slot_named};
ghost use Rattle.dcc_value.specs.Resolved.{lent_declared, Stands};

use crate::declarations::Declarations;
use crate::expression::{Resolved, Slot};
use crate::value::number;
use crate::variable::{Declared, Names};
use dcc_c::{CBin, CExpr, CType, CUn};
use dcc_ctypes::names::{type_of_address, type_of_name};
use dcc_ctypes::operators::{arms_type, binary_type, both_arms_type, unary_type};
use std::alloc::{AllocError, Global};

// The place of the first declaration with the name.
fn index_named(names: &Declarations<'_>, name: &str) -> Option<usize>
    ensures { result ≡ index_named (map declared_of names.now.list.now) name.now }
{
    names.find(name)
}

// The place of the variable with the name.
fn slot_named(names: &Names<'_, '_, '_>, name: &str) -> Option<Slot>
    ensures { result ≡ slot_named (names_of names.now) name.now }
{
    match index_named(names.locals, name) {
        Some(i) => Some(Slot::Local(i)),
        None => index_named(names.globals, name).map(Slot::Global),
    }
}

// The declaration at a place.
fn declared_at<'a>(declared: &'a Declarations<'_>, i: usize) -> Option<&'a Declared>
    ensures { option_map lent_declared result ≡ slice_get (map declared_of declared.now.list.now) i }
{
    let list: &'a [Declared] = declared.list;
    list.get(i)
}

// What the name is declared as.
fn declared_as<'a>(names: &Names<'a, '_, '_>, name: &str) -> Option<&'a Declared>
    ensures { option_map lent_declared result ≡ declared_as (all_names (names_of names.now)) name.now }
{
    match slot_named(names, name)? {
        Slot::Local(i) => declared_at(names.locals, i),
        Slot::Global(i) => declared_at(names.globals, i),
    }
}

/// The type of an expression, or none where a name is not declared or an operand not allowed.
pub fn type_of(names: &Names<'_, '_, '_>, e: &CExpr) -> Option<CType>
    ensures { result ≡ type_of (all_names (names_of names.now)) (expr_of e.now) }
{
    match e {
        CExpr::Num(_, base) => Some(CType::plain(*base)),
        CExpr::Name(name) => type_of_name(declared_as(names, name.as_str())?.nameless()),
        CExpr::Un(CUn::AddressOf, a) => match &**a {
            CExpr::Name(name) => type_of_address(declared_as(names, name.as_str())?.nameless()),
            _ => None,
        },
        CExpr::Un(operator, a) => unary_type(*operator, type_of(names, a)?),
        CExpr::Bin(operator, a, b) => {
            binary_type(*operator, type_of(names, a)?, type_of(names, b)?)
        }
        CExpr::Cond(a, b, c) => {
            let test = type_of(names, a)?;
            if test.pointer {
                return None;
            }
            arms_type(type_of(names, b)?, type_of(names, c)?)
        }
        CExpr::Cast(ty, a) => {
            type_of(names, a)?;
            Some(*ty)
        }
    }
}

// The type of `?:` by its last two operands, where they have one.
fn type_of_arms(names: &Names<'_, '_, '_>, b: &CExpr, c: &CExpr) -> Option<CType>
    ensures { result ≡ both_arms_type
        (type_of (all_names (names_of names.now)) (expr_of b.now))
        (type_of (all_names (names_of names.now)) (expr_of c.now)) }
{
    both_arms_type(type_of(names, b), type_of(names, c))
}

// The value of a variable.
fn resolve_name(names: &Names<'_, '_, '_>, name: &str) -> Resolved
    ensures { Stands (names_of names.now) (Name name.now) result }
{
    match slot_named(names, name) {
        Some(slot) => Resolved::Variable(slot),
        None => Resolved::Meaningless,
    }
}

// `&` of an expression: only a variable has an address.
fn resolve_address(names: &Names<'_, '_, '_>, a: &CExpr) -> Resolved
    ensures { Stands (names_of names.now) (Unary AddressOf (expr_of a.now)) result }
{
    match a {
        CExpr::Name(name) => match slot_named(names, name.as_str()) {
            Some(slot) => Resolved::AddressOf(slot),
            None => Resolved::Meaningless,
        },
        _ => Resolved::Meaningless,
    }
}

// A binary operator on resolved operands.
fn resolve_binary(operator: CBin, left: Box<Resolved>, right: Box<Resolved>) -> Resolved
    ensures { (names : NamesOf) (a b : Expr) → Stands names a left.value → Stands names b right.value →
        Stands names (Binary operator a b) result }
{
    match operator {
        CBin::OrOr => Resolved::Either(left, right),
        CBin::AndAnd => Resolved::Both(left, right),
        _ => Resolved::Binary(operator, left, right),
    }
}

/// The expression with its names resolved; one that is not declared has no meaning.
pub fn resolve(alloc: Global, names: &Names<'_, '_, '_>, e: &CExpr) -> Result<Resolved, AllocError>
    ensures { IfOk result (λ r. Stands (names_of names.now) (expr_of e.now) r) }
{
    match e {
        CExpr::Num(n, base) => Ok(Resolved::Constant(number(*base, base.wrapped(u64::from(*n))))),
        CExpr::Name(name) => Ok(resolve_name(names, name.as_str())),
        CExpr::Un(CUn::AddressOf, a) => Ok(resolve_address(names, a)),
        CExpr::Un(CUn::Deref, a) => {
            let address = Box::new(alloc, resolve(alloc, names, a)?)?;
            Ok(Resolved::Load(address))
        }
        CExpr::Un(operator, a) => {
            let operand = Box::new(alloc, resolve(alloc, names, a)?)?;
            Ok(Resolved::Unary(*operator, operand))
        }
        CExpr::Bin(operator, a, b) => {
            let left = Box::new(alloc, resolve(alloc, names, a)?)?;
            let right = Box::new(alloc, resolve(alloc, names, b)?)?;
            Ok(resolve_binary(*operator, left, right))
        }
        CExpr::Cond(a, b, c) => {
            let ty = type_of_arms(names, b, c);
            let test = Box::new(alloc, resolve(alloc, names, a)?)?;
            let first = Box::new(alloc, resolve(alloc, names, b)?)?;
            let second = Box::new(alloc, resolve(alloc, names, c)?)?;
            Ok(Resolved::Choose(ty, test, first, second))
        }
        CExpr::Cast(ty, a) => {
            let operand = Box::new(alloc, resolve(alloc, names, a)?)?;
            Ok(Resolved::Cast(*ty, operand))
        }
    }
}
