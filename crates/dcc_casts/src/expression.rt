//! Expressions without needless casts.

ghost use Rattle.std.specs.Prelude.{◌≡◌, if◌then◌else◌, List, IfOk};
ghost use Rattle.dcc_c.specs.Typing as typing;
ghost use Rattle.dcc_c.specs.Rules as rules;
ghost use Rattle.dcc_c.specs.Views.{expr_of};
ghost use Rattle.dcc_casts.specs.Casts as spec;
ghost use Rattle.dcc_casts.specs.Views.{IsKnown};

use crate::names::Names;
use dcc_c::{CBin, CExpr, CType, CUn};
use dcc_ctypes::names::{type_of_address, type_of_name};
use dcc_ctypes::operators::{both_arms_type, both_types, type_of_unary};
use std::alloc::{AllocError, Global};

// The type of the name's address, where the expression is a name.
fn type_of_place(names: &Names, e: &CExpr) -> Option<CType>
    ensures { (ds : List typing.Declared) → IsKnown names.now ds →
        result ≡ typing.type_of ds (spec.address_of (expr_of e.now)) }
{
    match e {
        CExpr::Name(word) => type_of_address(names.variable(word.as_str())?),
        _ => None,
    }
}

/// The type of the expression's value, where it has one.
pub fn typed(names: &Names, e: &CExpr) -> Option<CType>
    ensures { (ds : List typing.Declared) → IsKnown names.now ds → result ≡ typing.type_of ds (expr_of e.now) }
{
    match e {
        CExpr::Num(_, base) => Some(CType::plain(*base)),
        CExpr::Name(word) => type_of_name(names.variable(word.as_str())?),
        CExpr::Un(CUn::AddressOf, a) => type_of_place(names, a),
        CExpr::Un(operator, a) => type_of_unary(*operator, typed(names, a)),
        CExpr::Bin(operator, a, b) => both_types(*operator, typed(names, a), typed(names, b)),
        CExpr::Cond(test, a, b) => {
            if typed(names, test)?.pointer {
                return None;
            }
            both_arms_type(typed(names, a), typed(names, b))
        }
        CExpr::Cast(ty, a) => {
            typed(names, a)?;
            Some(*ty)
        }
    }
}

/// Whether the expression is a number.
pub fn is_number(names: &Names, e: &CExpr) -> bool
    ensures { (ds : List typing.Declared) → IsKnown names.now ds → result ≡ rules.is_number ds (expr_of e.now) }
{
    match typed(names, e) {
        Some(ty) => !ty.pointer,
        None => false,
    }
}

// Whether the low bits of the operator's result are made of as many low bits of its operands.
fn carries(operator: CBin) -> bool
    ensures { result ≡ spec.carries operator }
{
    matches!(
        operator,
        CBin::Add | CBin::Sub | CBin::Mul | CBin::Or | CBin::Xor | CBin::And
    )
}

// Whether the low bits of the operator's result are made of as many low bits of its operand.
fn carries_one(operator: CUn) -> bool
    ensures { result ≡ spec.carries_one operator }
{
    matches!(operator, CUn::Minus | CUn::Complement)
}

// Whether the operator shifts to the left.
fn is_left_shift(operator: CBin) -> bool
    ensures { result ≡ spec.is_left_shift operator }
{
    matches!(operator, CBin::Shl)
}

// The bits of a type.
fn room_of(ty: CType) -> u32
    ensures { result ≡ spec.room_of ty }
{
    if ty.pointer { 16 } else { ty.base.bits() }
}

// Whether a cast keeps so many low bits of a number.
fn is_needless(names: &Names, bits: u32, ty: CType, e: &CExpr) -> bool
    ensures { (ds : List typing.Declared) → IsKnown names.now ds →
        result ≡ spec.is_needless ds bits ty (expr_of e.now) }
{
    !ty.pointer && bits <= ty.base.bits() && is_number(names, e)
}

/// The expression without needless casts, of the type and the value that it has. Want of memory is the only error.
#[cycle(lower)]
pub fn kept(alloc: Global, names: &Names, e: &CExpr) -> Result<CExpr, AllocError>
    ensures { (ds : List typing.Declared) → IsKnown names.now ds →
        IfOk result (λ after. expr_of after ≡ spec.kept ds (expr_of e.now)) }
{
    match e {
        CExpr::Num(n, base) => Ok(CExpr::Num(*n, *base)),
        CExpr::Name(word) => Ok(CExpr::Name(word.clone()?)),
        CExpr::Un(operator, a) => Ok(CExpr::Un(
            *operator,
            Box::new(alloc, kept(alloc, names, a)?)?,
        )),
        CExpr::Bin(operator, a, b) => {
            let a = Box::new(alloc, kept(alloc, names, a)?)?;
            let b = Box::new(alloc, kept(alloc, names, b)?)?;
            Ok(CExpr::Bin(*operator, a, b))
        }
        CExpr::Cond(test, a, b) => {
            let test = Box::new(alloc, kept(alloc, names, test)?)?;
            let a = Box::new(alloc, kept(alloc, names, a)?)?;
            let b = Box::new(alloc, kept(alloc, names, b)?)?;
            Ok(CExpr::Cond(test, a, b))
        }
        CExpr::Cast(ty, a) => {
            let a = lowered(alloc, names, room_of(*ty), a)?;
            Ok(CExpr::Cast(*ty, Box::new(alloc, a)?))
        }
    }
}

/// The expression without the casts that its low bits don't need. Want of memory is the only error.
#[cycle(lower)]
pub fn lowered(alloc: Global, names: &Names, bits: u32, e: &CExpr) -> Result<CExpr, AllocError>
    ensures { (ds : List typing.Declared) → IsKnown names.now ds →
        IfOk result (λ after. expr_of after ≡ spec.lowered ds bits (expr_of e.now)) }
{
    match e {
        CExpr::Num(n, base) => Ok(CExpr::Num(*n, *base)),
        CExpr::Name(word) => Ok(CExpr::Name(word.clone()?)),
        CExpr::Un(operator, a) => {
            let low = carries_one(*operator) && bits <= 16 && is_number(names, a);
            let a = either(alloc, names, low, bits, a)?;
            Ok(CExpr::Un(*operator, Box::new(alloc, a)?))
        }
        CExpr::Bin(operator, a, b) => {
            let numbers = bits <= 16 && is_number(names, a) && is_number(names, b);
            let left = (carries(*operator) || is_left_shift(*operator)) && numbers;
            let a = either(alloc, names, left, bits, a)?;
            let b = either(alloc, names, carries(*operator) && numbers, bits, b)?;
            Ok(CExpr::Bin(*operator, Box::new(alloc, a)?, Box::new(alloc, b)?))
        }
        CExpr::Cond(test, a, b) => {
            let numbers = bits <= 16 && is_number(names, a) && is_number(names, b);
            let test = Box::new(alloc, kept(alloc, names, test)?)?;
            let a = Box::new(alloc, either(alloc, names, numbers, bits, a)?)?;
            let b = Box::new(alloc, either(alloc, names, numbers, bits, b)?)?;
            Ok(CExpr::Cond(test, a, b))
        }
        CExpr::Cast(ty, a) => {
            if is_needless(names, bits, *ty, a) {
                return lowered(alloc, names, bits, a);
            }
            let a = lowered(alloc, names, room_of(*ty), a)?;
            Ok(CExpr::Cast(*ty, Box::new(alloc, a)?))
        }
    }
}

// The expression without the casts that its low bits don't need, or with its type and value.
#[cycle(lower)]
fn either(
    alloc: Global,
    names: &Names,
    low: bool,
    bits: u32,
    e: &CExpr,
) -> Result<CExpr, AllocError>
    ensures { (ds : List typing.Declared) → IsKnown names.now ds →
        IfOk result (λ after. expr_of after
        ≡ (if low then spec.lowered ds bits (expr_of e.now) else spec.kept ds (expr_of e.now))) }
{
    if low {
        lowered(alloc, names, bits, e)
    } else {
        kept(alloc, names, e)
    }
}
