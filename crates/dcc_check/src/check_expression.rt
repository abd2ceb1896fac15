//! What offends in expressions.

ghost use Rattle.std.specs.Prelude.{◌≡◌, true, option_map};
ghost use Rattle.dcc_c.specs.declared.syntax.CUn.TheVariants.{AddressOf};
ghost use Rattle.dcc_c.specs.Offences as offences;
ghost use Rattle.dcc_c.specs.Offences.{operand_of_address, no_variable, expr_offences, place_offences};
ghost use Rattle.dcc_c.specs.Partial as partial;
ghost use Rattle.dcc_c.specs.Partial.{is_missing, is_name_here};
ghost use Rattle.dcc_reader.specs.PartialViews.{expr_of};
ghost use Rattle.dcc_reader.specs.Told.{Tells};
ghost use Rattle.dcc_ctypes.specs.NameViews.{unnamed};
ghost use Rattle.dcc_check.specs.Contexts.{IsContext};
ghost use Rattle.dcc_check.specs.Operands.{operand, target};

use crate::context::BodyContext;
use crate::operand::{Operand, check_binary, check_choice, check_unary, tell_typed, want_number};
use dcc_c::{CType, CUn};
use dcc_ctypes::Declared;
use dcc_ctypes::names::{type_of_address, type_of_name, type_of_variable};
use dcc_ctypes::operators::{both_arms_type, both_types, type_of_unary};
use dcc_reader::{First, ParseKind, PartialExpr};

/// Whether nothing has been read of the expression.
pub(crate) fn is_missing(e: &PartialExpr) -> bool
    ensures { result ≡ is_missing (expr_of e.now) }
{
    matches!(e, PartialExpr::Missing)
}

/// Whether the expression is a name.
pub(crate) fn is_name(e: &PartialExpr) -> bool
    ensures { result ≡ is_name_here (expr_of e.now) }
{
    matches!(e, PartialExpr::Name(_, _, _))
}

// A name that is no variable: a function's offends as an operand, but not before a parenthesis.
fn tell_no_variable(
    scene: &BodyContext<'_, '_>,
    at: u32,
    word: &str,
    called: bool,
    first: &mut First,
)
    ensures { (s : offences.BodyContext) → IsContext scene.now s →
        Tells first.old first.new (no_variable s at word.now called) }
{
    match scene.function(word) {
        Some(_) => first.tell_if(!called, ParseKind::Type_, at),
        None => first.tell(ParseKind::Name, at),
    }
}

// A name as a value: that of an array of pointers has no type.
fn check_name(
    scene: &BodyContext<'_, '_>,
    at: u32,
    word: &str,
    called: bool,
    first: &mut First,
) -> Operand
    ensures operand { (s : offences.BodyContext) → IsContext scene.now s →
        result ≡ operand s (partial.NameHere at word.now called) }
    ensures told { (s : offences.BodyContext) → IsContext scene.now s →
        Tells first.old first.new (expr_offences s (partial.NameHere at word.now called)) }
{
    match scene.variable(word) {
        Some(declared) => {
            let ty = type_of_name(declared);
            first.tell_if(ty.is_none(), ParseKind::Type_, at);
            Operand { ty, at }
        }
        None => {
            tell_no_variable(scene, at, word, called, first);
            Operand { ty: None, at }
        }
    }
}

// The operand of `&`, where it is the name of a variable.
fn operand_of_address(scene: &BodyContext<'_, '_>, a: &PartialExpr) -> Option<Declared>
    ensures { (s : offences.BodyContext) → IsContext scene.now s →
        result ≡ option_map unnamed (operand_of_address s.names (expr_of a.now)) }
{
    match a {
        PartialExpr::Name(_, _, word) => scene.variable(word),
        _ => None,
    }
}

// The place where a name stands, and 0 for another expression.
fn place_of_name(a: &PartialExpr) -> u32
    ensures { is_name_here (expr_of a.now) ≡ true → result ≡ partial.place_of (expr_of a.now) }
{
    match a {
        PartialExpr::Name(_, at, _) => *at,
        _ => 0,
    }
}

/// Tells what offends in an expression.
#[cycle(expression)]
pub(crate) fn check_expr(scene: &BodyContext<'_, '_>, e: &PartialExpr, first: &mut First) -> Operand
    ensures operand { (s : offences.BodyContext) → IsContext scene.now s → result ≡ operand s (expr_of e.now) }
    ensures told { (s : offences.BodyContext) → IsContext scene.now s →
        Tells first.old first.new (expr_offences s (expr_of e.now)) }
{
    match e {
        PartialExpr::Missing => Operand { ty: None, at: 0 },
        PartialExpr::Number(at, _, base) => Operand {
            ty: Some(CType::plain(*base)),
            at: *at,
        },
        PartialExpr::Name(called, at, word) => { check_name(scene, *at, word, *called, first) }
        PartialExpr::Unary(at, operator, a) => check_operator(scene, *at, *operator, a, first),
        PartialExpr::Binary(operator, a, b) => {
            let a = check_expr(scene, a, first);
            let b = check_expr(scene, b, first);
            check_binary(*operator, a, b, first);
            Operand {
                ty: both_types(*operator, a.ty, b.ty),
                at: a.at,
            }
        }
        PartialExpr::Conditional(choice) => {
            let a = check_expr(scene, &choice.test, first);
            let b = check_expr(scene, &choice.first, first);
            let c = check_expr(scene, &choice.second, first);
            want_number(a, first);
            check_choice(b, c, first);
            Operand {
                ty: both_arms_type(b.ty, c.ty),
                at: a.at,
            }
        }
        PartialExpr::Cast(at, ty, a) => {
            check_expr(scene, a, first);
            Operand {
                ty: Some(*ty),
                at: *at,
            }
        }
    }
}

// Tells what offends in a unary operator and its operand.
#[cycle(expression)]
fn check_operator(
    scene: &BodyContext<'_, '_>,
    at: u32,
    operator: CUn,
    a: &PartialExpr,
    first: &mut First,
) -> Operand
    ensures operand { (s : offences.BodyContext) → IsContext scene.now s →
        result ≡ operand s (partial.UnaryHere at operator (expr_of a.now)) }
    ensures told { (s : offences.BodyContext) → IsContext scene.now s →
        Tells first.old first.new (expr_offences s (partial.UnaryHere at operator (expr_of a.now))) }
{
    if operator == CUn::AddressOf {
        return check_address(scene, at, a, first);
    }
    let a = check_expr(scene, a, first);
    check_unary(operator, a, first);
    Operand {
        ty: type_of_unary(operator, a.ty),
        at,
    }
}

// Tells what offends in `&` and its operand: a variable that has an address, and is no array and no pointer.
#[cycle(expression)]
fn check_address(
    scene: &BodyContext<'_, '_>,
    at: u32,
    a: &PartialExpr,
    first: &mut First,
) -> Operand
    ensures operand { (s : offences.BodyContext) → IsContext scene.now s →
        result ≡ operand s (partial.UnaryHere at AddressOf (expr_of a.now)) }
    ensures told { (s : offences.BodyContext) → IsContext scene.now s →
        Tells first.old first.new (expr_offences s (partial.UnaryHere at AddressOf (expr_of a.now))) }
{
    match operand_of_address(scene, a) {
        Some(declared) => {
            let ty = type_of_address(declared);
            first.tell_if(ty.is_none(), ParseKind::Type_, place_of_name(a));
            Operand { ty, at }
        }
        None => {
            let inner = check_expr(scene, a, first);
            tell_typed(inner, first);
            Operand { ty: None, at }
        }
    }
}

/// The expression as an operand.
pub(crate) fn operand_of(scene: &BodyContext<'_, '_>, e: &PartialExpr) -> Operand
    ensures { (s : offences.BodyContext) → IsContext scene.now s → result ≡ operand s (expr_of e.now) }
{
    let mut unheard = First::new();
    check_expr(scene, e, &mut unheard)
}

/// Tells what offends in the place of an assignment: an array's name is none.
pub(crate) fn check_place(
    scene: &BodyContext<'_, '_>,
    e: &PartialExpr,
    first: &mut First,
) -> Operand
    ensures place { (s : offences.BodyContext) → IsContext scene.now s → result ≡ target s (expr_of e.now) }
    ensures told { (s : offences.BodyContext) → IsContext scene.now s →
        Tells first.old first.new (place_offences s (expr_of e.now)) }
{
    match e {
        PartialExpr::Name(called, at, word) => match scene.variable(word) {
            Some(declared) => {
                first.tell_if(declared.is_array, ParseKind::Type_, *at);
                Operand {
                    ty: type_of_variable(declared),
                    at: *at,
                }
            }
            None => {
                tell_no_variable(scene, *at, word, *called, first);
                Operand { ty: None, at: *at }
            }
        },
        _ => check_expr(scene, e, first),
    }
}
