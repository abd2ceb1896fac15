//! The types of expressions whose names are known.

ghost use Rattle.std.specs.Prelude.{◌≡◌, List};
ghost use Rattle.dcc_c.specs.Typing as typing;
ghost use Rattle.dcc_c.specs.Rules as rules;
ghost use Rattle.dcc_c.specs.Views.{expr_of};
ghost use Rattle.dcc_rewrite.specs.Views.{IsKnown, address_of};

use crate::names::Names;
use dcc_c::{CExpr, CType, CUn};
use dcc_ctypes::names::{type_of_address, type_of_name};
use dcc_ctypes::operators::{both_arms_type, both_types, type_of_unary};

// The type of the name's address, where the expression is a name.
fn type_of_named(names: &Names, e: &CExpr) -> Option<CType>
    ensures { (ds : List typing.Declared) → IsKnown names.now ds →
        result ≡ typing.type_of ds (address_of (expr_of e.now)) }
{
    match e {
        CExpr::Name(word) => type_of_address(names.variable(word.as_str())?),
        _ => None,
    }
}

/// The type of the expression's value, where it has one.
pub fn typed(names: &Names, e: &CExpr) -> Option<CType>
    ensures { (ds : List typing.Declared) → IsKnown names.now ds → result ≡ typing.type_of ds (expr_of e.now) }
{
    match e {
        CExpr::Num(_, base) => Some(CType::plain(*base)),
        CExpr::Name(word) => type_of_name(names.variable(word.as_str())?),
        CExpr::Un(CUn::AddressOf, a) => type_of_named(names, a),
        CExpr::Un(operator, a) => type_of_unary(*operator, typed(names, a)),
        CExpr::Bin(operator, a, b) => both_types(*operator, typed(names, a), typed(names, b)),
        CExpr::Cond(test, a, b) => {
            if typed(names, test)?.pointer {
                return None;
            }
            both_arms_type(typed(names, a), typed(names, b))
        }
        CExpr::Cast(ty, a) => {
            typed(names, a)?;
            Some(*ty)
        }
    }
}

/// Whether the expression is a number.
pub fn is_number(names: &Names, e: &CExpr) -> bool
    ensures { (ds : List typing.Declared) → IsKnown names.now ds → result ≡ rules.is_number ds (expr_of e.now) }
{
    match typed(names, e) {
        Some(ty) => !ty.pointer,
        None => false,
    }
}
