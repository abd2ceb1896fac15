//! The types of operators.

ghost use Rattle.std.specs.Prelude.{◌≡◌, option_and_then};
ghost use Rattle.dcc_c.specs.Typing.{unary_type, is_comparison, is_sum, numbers_type, binary_type, both_types};
ghost use Rattle.dcc_c.specs.Typing.{arms_type, both_arms_type};
ghost use Rattle.dcc_c.specs.Rules.{converts, is_word_base};
ghost use Rattle.dcc_c.specs.Offences.{is_pointer, is_switch_type};

use dcc_c::{Base, CBin, CType, CUn};

/// Whether the type is known to be that of an address.
pub fn is_pointer(ty: Option<CType>) -> bool
    ensures { result ≡ is_pointer ty }
{
    match ty {
        Some(ty) => ty.pointer,
        None => false,
    }
}

/// The type of a unary operator: `*` takes a pointer, and the others a number.
pub fn unary_type(operator: CUn, a: CType) -> Option<CType>
    ensures { result ≡ unary_type operator a }
{
    match operator {
        CUn::Deref if a.pointer => Some(CType::plain(a.base)),
        CUn::Minus | CUn::Complement if !a.pointer => Some(CType::plain(a.base.promoted())),
        CUn::Not if !a.pointer => Some(CType::plain(Base::Int)),
        _ => None,
    }
}

/// The type of a unary operator, where the operand has one.
pub fn type_of_unary(operator: CUn, a: Option<CType>) -> Option<CType>
    ensures { result ≡ option_and_then (unary_type operator) a }
{
    unary_type(operator, a?)
}

/// Whether the operator compares.
pub fn is_comparison(operator: CBin) -> bool
    ensures { result ≡ is_comparison operator }
{
    matches!(
        operator,
        CBin::Eq | CBin::Ne | CBin::Lt | CBin::Le | CBin::Gt | CBin::Ge
    )
}

/// Whether the operator is a sum or a difference.
pub fn is_sum(operator: CBin) -> bool
    ensures { result ≡ is_sum operator }
{
    matches!(operator, CBin::Add | CBin::Sub)
}

// The type of an operator on two numbers: a truth value, the promoted left type, or the common type.
fn numbers_type(operator: CBin, a: Base, b: Base) -> Base
    ensures { result ≡ numbers_type operator a b }
{
    match operator {
        CBin::OrOr | CBin::AndAnd => Base::Int,
        CBin::Shl | CBin::Shr => a.promoted(),
        _ if is_comparison(operator) => Base::Int,
        _ => a.common(b),
    }
}

/// The type of a binary operator: on two numbers, on a pointer and a number that moves it, or on two pointers of one
/// type that are compared.
pub fn binary_type(operator: CBin, a: CType, b: CType) -> Option<CType>
    ensures { result ≡ binary_type operator a b }
{
    match (a.pointer, b.pointer) {
        (false, false) => Some(CType::plain(numbers_type(operator, a.base, b.base))),
        (false, true) => None,
        (true, false) if is_sum(operator) => Some(a),
        (true, true) if is_comparison(operator) && a == b => Some(CType::plain(Base::Int)),
        _ => None,
    }
}

/// The type of a binary operator, where both operands have one.
pub fn both_types(operator: CBin, a: Option<CType>, b: Option<CType>) -> Option<CType>
    ensures { result ≡ both_types operator a b }
{
    binary_type(operator, a?, b?)
}

/// The type of `?:`, by those of its last two operands: the common type of two numbers, or one type of pointers.
pub fn arms_type(a: CType, b: CType) -> Option<CType>
    ensures { result ≡ arms_type a b }
{
    match (a.pointer, b.pointer) {
        (false, false) => Some(CType::plain(a.base.common(b.base))),
        (true, _) if a == b => Some(a),
        _ => None,
    }
}

/// The type of `?:`, where its last two operands have one.
pub fn both_arms_type(a: Option<CType>, b: Option<CType>) -> Option<CType>
    ensures { result ≡ both_arms_type a b }
{
    arms_type(a?, b?)
}

/// Whether a value of the first type may become one of the second.
pub fn converts(from: CType, to: CType) -> bool
    ensures { result ≡ converts from to }
{
    !(from.pointer || to.pointer) || from == to
}

// Whether the type is an int or an unsigned int after promotion.
fn is_word_base(base: Base) -> bool
    ensures { result ≡ is_word_base base }
{
    matches!(base, Base::Int | Base::Uint)
}

/// Whether a value of the type may be that of a `switch`.
pub fn is_switch_type(ty: CType) -> bool
    ensures { result ≡ is_switch_type ty }
{
    !ty.pointer && is_word_base(ty.base.promoted())
}
