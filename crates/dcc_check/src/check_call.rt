//! What offends in calls.

ghost use Rattle.std.specs.Prelude.{◌≡◌, ◌+◌, ◌<◌, ◌||◌, nat_lt, Option, Some, map, option_map};
ghost use Rattle.dcc_c.specs.Offences as offences;
ghost use Rattle.dcc_c.specs.Offences.{arguments_inner, arguments_become, count_read, count_offends, result_offences};
ghost use Rattle.dcc_c.specs.Offences.{signature_offences, callee_offences, place_if, call_offences};
ghost use Rattle.dcc_c.specs.Partial as partial;
ghost use Rattle.dcc_reader.specs.PartialViews.{expr_of, word_of, call_of};
ghost use Rattle.dcc_reader.specs.Told.{Tells};
ghost use Rattle.dcc_check.specs.Contexts.{signature_of, IsContext};
ghost use Rattle.dcc_check.specs.Operands.{target};

use crate::check_expression::{check_expr, check_place, is_missing, operand_of};
use crate::context::{BodyContext, Signature};
use crate::operand::{Operand, check_becomes, check_conversion};
use dcc_c::CType;
use dcc_reader::{First, ParseKind, PartialCall, PartialExpr, WordAt};

// Tells what offends in the arguments, each by itself.
fn check_arguments(scene: &BodyContext<'_, '_>, arguments: &[PartialExpr], first: &mut First)
    ensures { (s : offences.BodyContext) → IsContext scene.now s →
        Tells first.old first.new (arguments_inner s (map expr_of arguments.now)) }
{
    for e in arguments {
        check_expr(scene, e, first);
    }
}

// How many arguments have been read, at least in part.
fn count_read(arguments: &[PartialExpr]) -> usize
    ensures { result ≡ count_read (map expr_of arguments.now) }
{
    let mut count = 0;
    for e in arguments {
        if !is_missing(e) {
            count += 1;
        }
    }
    count
}

// Whether an argument has been read to its end: another one follows, or the closing parenthesis does.
fn is_done(closed: bool, i: usize, count: usize) -> bool
    requires { i < count }
    ensures { result ≡ closed || nat_lt (i + 1) count }
{
    closed || i + 1 < count
}

// Tells which arguments do not become values of the parameters' types. The last one has been read to its end where the
// closing parenthesis has.
fn check_arguments_become(
    scene: &BodyContext<'_, '_>,
    closed: bool,
    params: &[CType],
    arguments: &[PartialExpr],
    first: &mut First,
)
    ensures { (s : offences.BodyContext) → IsContext scene.now s →
        Tells first.old first.new (arguments_become s closed params.now (map expr_of arguments.now)) }
{
    for i in 0..params.len().min(arguments.len()) {
        let done = is_done(closed, i, arguments.len());
        let argument = operand_of(scene, &arguments[i]);
        check_becomes(argument, done, Some(params[i]), first);
    }
}

// Whether there are more arguments than parameters, or fewer up to the closing parenthesis.
fn count_offends(call: &PartialCall, params: &[CType]) -> bool
    ensures { result ≡ count_offends (call_of call.now) params.now }
{
    let count = count_read(&call.arguments);
    params.len() < count || (call.closed && count < params.len())
}

// Tells whether the result does not go to the place, where there is one.
fn check_result(
    place: Option<Operand>,
    at: u32,
    function: &WordAt,
    result_type: Option<CType>,
    first: &mut First,
)
    ensures { (s : offences.BodyContext) (e : Option partial.PartialExpr) → place ≡ option_map (target s) e →
        Tells first.old first.new (result_offences s at e (word_of function.now) result_type) }
{
    match (place, result_type) {
        (None, _) => {}
        (Some(_), None) => first.tell(ParseKind::Type_, at),
        (Some(place), Some(_)) => check_conversion(result_type, place.ty, function.at, first),
    }
}

// Tells what offends in the call of a function with the signature, which begins at a place.
fn check_signature(
    scene: &BodyContext<'_, '_>,
    at: u32,
    place: Option<Operand>,
    call: &PartialCall,
    signature: &Signature,
    first: &mut First,
)
    ensures { (s : offences.BodyContext) (e : Option partial.PartialExpr) → IsContext scene.now s →
        place ≡ option_map (target s) e →
        Tells first.old first.new (signature_offences s at e (call_of call.now) (Some (signature_of signature.now))) }
{
    check_result(place, at, &call.function, signature.result, first);
    let miscounted = count_offends(call, &signature.params);
    first.tell_if(miscounted, ParseKind::Type_, at);
    check_arguments_become(
        scene,
        call.closed,
        &signature.params,
        &call.arguments,
        first,
    );
}

// Tells what offends in the function that is called: it is no variable, and known.
fn check_callee(
    scene: &BodyContext<'_, '_>,
    at: u32,
    place: Option<Operand>,
    call: &PartialCall,
    first: &mut First,
)
    ensures { (s : offences.BodyContext) (e : Option partial.PartialExpr) → IsContext scene.now s →
        place ≡ option_map (target s) e → Tells first.old first.new (callee_offences s at e (call_of call.now)) }
{
    let word = call.function.word;
    if scene.variable(word).is_some() {
        first.tell(ParseKind::Type_, call.function.at);
        return;
    }
    match scene.function(word) {
        Some(Some(signature)) => check_signature(scene, at, place, call, signature, first),
        Some(None) => {}
        None => first.tell(ParseKind::Name, call.function.at),
    }
}

// Tells what offends in the place of a result, where there is one.
fn check_place_if(
    scene: &BodyContext<'_, '_>,
    place: &Option<PartialExpr>,
    first: &mut First,
) -> Option<Operand>
    ensures place { (s : offences.BodyContext) → IsContext scene.now s →
        result ≡ option_map (target s) (option_map expr_of place.now) }
    ensures told { (s : offences.BodyContext) → IsContext scene.now s →
        Tells first.old first.new (place_if s (option_map expr_of place.now)) }
{
    match place {
        Some(place) => Some(check_place(scene, place, first)),
        None => None,
    }
}

/// Tells what offends in a call, which begins at a place.
pub(crate) fn check_call(
    scene: &BodyContext<'_, '_>,
    at: u32,
    place: &Option<PartialExpr>,
    call: &PartialCall,
    first: &mut First,
)
    ensures { (s : offences.BodyContext) → IsContext scene.now s →
        Tells first.old first.new (call_offences s at (option_map expr_of place.now) (call_of call.now)) }
{
    let place = check_place_if(scene, place, first);
    check_arguments(scene, &call.arguments, first);
    check_callee(scene, at, place, call, first);
}
