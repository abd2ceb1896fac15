//! Expressions as operands: what offends in their types.

ghost use Rattle.std.specs.Prelude.{◌≡◌, is_some};
ghost use Rattle.dcc_c.specs.Kinds.{of_type, offence, only_if};
ghost use Rattle.dcc_c.specs.Offences as offences;
ghost use Rattle.dcc_c.specs.Offences.{wants_number, unary_offences, binary_offences, arms_offences, conversion};
ghost use Rattle.dcc_c.specs.Offences.{becomes, switch_offences, told_type};
ghost use Rattle.dcc_c.specs.Partial as partial;
ghost use Rattle.dcc_reader.specs.Told.{Tells};
ghost use Rattle.dcc_check.specs.Operands.{operand, selector_offences};

use dcc_c::{CBin, CType, CUn};
use dcc_ctypes::operators::{
    both_arms_type, both_types, converts, is_comparison, is_pointer, is_sum, is_switch_type,
};
use dcc_reader::{First, ParseKind};

/// An expression as an operand.
#[derive(Clone, Copy)]
pub(crate) struct Operand {
    /// The type of the expression, as far as it can be told.
    pub(crate) ty: Option<CType>,
    /// Where the expression begins.
    pub(crate) at: u32,
}

/// Tells that the operand offends where a number is wanted and it is known to be none.
pub(crate) fn want_number(a: Operand, first: &mut First)
    ensures { (s : offences.BodyContext) (e : partial.PartialExpr) → a ≡ operand s e →
        Tells first.old first.new (wants_number s e) }
{
    first.tell_if(is_pointer(a.ty), ParseKind::Type_, a.at);
}

// Tells that the operand offends where a pointer is wanted and it is known to be none.
fn want_pointer(a: Operand, first: &mut First)
    ensures { (s : offences.BodyContext) (e : partial.PartialExpr) → a ≡ operand s e →
        Tells first.old first.new (offences.wants_pointer s e) }
{
    if let Some(ty) = a.ty {
        first.tell_if(!ty.pointer, ParseKind::Type_, a.at);
    }
}

/// Tells that the operand of `&`, which is no variable, offends if it has a type.
pub(crate) fn tell_typed(a: Operand, first: &mut First)
    ensures { (s : offences.BodyContext) (e : partial.PartialExpr) → a ≡ operand s e →
        Tells first.old first.new (only_if (is_some (told_type s.names e)) (offence of_type (partial.place_of e))) }
{
    first.tell_if(a.ty.is_some(), ParseKind::Type_, a.at);
}

/// Tells what offends in the operand of a unary operator but `&`.
pub(crate) fn check_unary(operator: CUn, a: Operand, first: &mut First)
    ensures { (s : offences.BodyContext) (e : partial.PartialExpr) → a ≡ operand s e →
        Tells first.old first.new (unary_offences s operator e) }
{
    match operator {
        CUn::Deref => want_pointer(a, first),
        CUn::Minus | CUn::Complement | CUn::Not | CUn::AddressOf => want_number(a, first),
    }
}

/// Tells what offends in the operands of a binary operator, by its type: of a comparison, a sum and a difference the
/// second one does not fit the first, of any other each is a number.
pub(crate) fn check_binary(operator: CBin, a: Operand, b: Operand, first: &mut First)
    ensures { (s : offences.BodyContext) (d e : partial.PartialExpr) → a ≡ operand s d → b ≡ operand s e →
        Tells first.old first.new (binary_offences s operator d e) }
{
    if is_comparison(operator) || is_sum(operator) {
        let ty = both_types(operator, a.ty, b.ty);
        first.tell_if(
            a.ty.is_some() && b.ty.is_some() && ty.is_none(),
            ParseKind::Type_,
            b.at,
        );
    } else {
        want_number(a, first);
        want_number(b, first);
    }
}

/// Tells what offends in the last two operands of `?:`.
pub(crate) fn check_choice(b: Operand, c: Operand, first: &mut First)
    ensures { (s : offences.BodyContext) (d e : partial.PartialExpr) → b ≡ operand s d → c ≡ operand s e →
        Tells first.old first.new (arms_offences s d e) }
{
    let ty = both_arms_type(b.ty, c.ty);
    first.tell_if(
        b.ty.is_some() && c.ty.is_some() && ty.is_none(),
        ParseKind::Type_,
        c.at,
    );
}

/// Tells what offends in the value of a `switch`, whether read to its parenthesis or not: it is an int or an unsigned
/// int after promotion.
pub(crate) fn check_selector(a: Operand, done: bool, first: &mut First)
    ensures { (s : offences.BodyContext) (e : partial.PartialExpr) → a ≡ operand s e →
        Tells first.old first.new (selector_offences s e done) }
{
    if let Some(ty) = a.ty {
        let is_other = done && !is_switch_type(ty);
        first.tell_if(is_other, ParseKind::Type_, a.at);
    }
}

/// Tells that a value of the first type, which goes where one of the second is wanted, offends at a place if it may
/// not become one.
pub(crate) fn check_conversion(from: Option<CType>, to: Option<CType>, at: u32, first: &mut First)
    ensures { Tells first.old first.new (conversion from to at) }
{
    if let (Some(from), Some(to)) = (from, to) {
        first.tell_if(!converts(from, to), ParseKind::Type_, at);
    }
}

/// Tells whether the value, which goes where one of the type is wanted, offends, if it has been read to its end.
pub(crate) fn check_becomes(a: Operand, done: bool, to: Option<CType>, first: &mut First)
    ensures { (s : offences.BodyContext) (e : partial.PartialExpr) → a ≡ operand s e →
        Tells first.old first.new (becomes s e done to) }
{
    if done {
        check_conversion(a.ty, to, a.at, first);
    }
}
