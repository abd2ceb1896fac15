//! Statements without needless casts.

ghost use Rattle.std.specs.Prelude.{◌≡◌, List, IfOk, Some, None, map, option_map};
ghost use Rattle.dcc_c.specs.Typing as typing;
ghost use Rattle.dcc_c.specs.Rules as rules;
ghost use Rattle.dcc_c.specs.Tree.{Function, Tree};
ghost use Rattle.dcc_c.specs.Views.{expr_of};
ghost use Rattle.dcc_casts.specs.Casts as spec;
ghost use Rattle.dcc_casts.specs.Views.{IsKnown, IsSceneOf};

use crate::expression::{kept, lowered, typed};
use crate::functions::Params;
use crate::names::Names;
use dcc_c::{CExpr, CType, CUn};
use dcc_ctypes::names::type_of_variable;
use dcc_ctypes::operators::{is_switch_type, type_of_unary};
use std::alloc::{AllocError, Global};
use std::collections::BTreeMap;

/// What is known where a function's statements stand.
#[derive(Clone, Copy)]
pub struct Scene<'s, 'n> {
    /// What the names are declared as.
    pub names: Names<'s, 'n>,
    /// What the functions take.
    pub functions: &'s BTreeMap<&'n str, Params>,
    /// The type of the function's result, where it has one.
    pub result: Option<CType>,
}

// A copy of the expression.
fn copied(alloc: Global, e: &CExpr) -> Result<CExpr, AllocError>
    ensures { IfOk result (λ copy. expr_of copy ≡ expr_of e.now) }
{
    match e {
        CExpr::Num(n, base) => Ok(CExpr::Num(*n, *base)),
        CExpr::Name(word) => Ok(CExpr::Name(word.clone()?)),
        CExpr::Un(operator, a) => Ok(CExpr::Un(*operator, Box::new(alloc, copied(alloc, a)?)?)),
        CExpr::Bin(operator, a, b) => {
            let a = Box::new(alloc, copied(alloc, a)?)?;
            let b = Box::new(alloc, copied(alloc, b)?)?;
            Ok(CExpr::Bin(*operator, a, b))
        }
        CExpr::Cond(test, a, b) => {
            let test = Box::new(alloc, copied(alloc, test)?)?;
            let a = Box::new(alloc, copied(alloc, a)?)?;
            let b = Box::new(alloc, copied(alloc, b)?)?;
            Ok(CExpr::Cond(test, a, b))
        }
        CExpr::Cast(ty, a) => Ok(CExpr::Cast(*ty, Box::new(alloc, copied(alloc, a)?)?)),
    }
}

// What becomes a value of the type, without needless casts.
fn becoming(alloc: Global, names: &Names, ty: CType, e: &CExpr) -> Result<CExpr, AllocError>
    ensures { (ds : List typing.Declared) → IsKnown names.now ds →
        IfOk result (λ after. expr_of after ≡ spec.becoming ds ty (expr_of e.now)) }
{
    if ty.pointer {
        kept(alloc, names, e)
    } else {
        lowered(alloc, names, ty.base.bits(), e)
    }
}

// The type of the place, where the expression is one.
fn type_of_place(names: &Names, place: &CExpr) -> Option<CType>
    ensures { (ds : List typing.Declared) → IsKnown names.now ds →
        result ≡ typing.place_type ds (expr_of place.now) }
{
    match place {
        CExpr::Name(word) => type_of_variable(names.variable(word.as_str())?),
        CExpr::Un(CUn::Deref, a) => type_of_unary(CUn::Deref, typed(names, a)),
        _ => None,
    }
}

// Whether the expression may be the value of a `switch`.
fn is_switch_value(names: &Names, e: &CExpr) -> bool
    ensures { (ds : List typing.Declared) → IsKnown names.now ds →
        result ≡ rules.is_switch_value ds (expr_of e.now) }
{
    match typed(names, e) {
        Some(ty) => is_switch_type(ty),
        None => false,
    }
}

/// The value of a `switch` without needless casts.
pub fn chosen(alloc: Global, names: &Names, e: &CExpr) -> Result<CExpr, AllocError>
    ensures { (ds : List typing.Declared) → IsKnown names.now ds →
        IfOk result (λ after. expr_of after ≡ spec.chosen_by ds (expr_of e.now)) }
{
    let low = lowered(alloc, names, 16, e)?;
    if is_switch_value(names, &low) {
        Ok(low)
    } else {
        kept(alloc, names, e)
    }
}

/// What is assigned to the place, without needless casts.
pub fn assigned(alloc: Global, names: &Names, place: &CExpr, e: &CExpr) -> Result<CExpr, AllocError>
    ensures { (ds : List typing.Declared) → IsKnown names.now ds →
        IfOk result (λ after. expr_of after ≡ spec.assigned_to ds (expr_of place.now) (expr_of e.now)) }
{
    match type_of_place(names, place) {
        Some(ty) => becoming(alloc, names, ty, e),
        None => kept(alloc, names, e),
    }
}

// The argument of a parameter without needless casts; as it is, where there is no parameter for it.
fn passed_to(
    alloc: Global,
    names: &Names,
    ty: Option<&CType>,
    e: &CExpr,
) -> Result<CExpr, AllocError>
    ensures { (ds : List typing.Declared) → IsKnown names.now ds →
        IfOk result (λ after. expr_of after ≡ spec.passed_to ds (option_map (λ t. t.now) ty.entry) (expr_of e.now)) }
{
    match ty {
        Some(ty) => becoming(alloc, names, *ty, e),
        None => copied(alloc, e),
    }
}

// The arguments of parameters of these types, without needless casts.
fn passed(
    alloc: Global,
    names: &Names,
    types: &[CType],
    es: &[CExpr],
) -> Result<Vec<CExpr>, AllocError>
    ensures { (ds : List typing.Declared) → IsKnown names.now ds →
        IfOk result (λ after. map expr_of after.items ≡ spec.passed ds types.now (map expr_of es.now)) }
{
    let mut after = Vec::with_capacity(alloc, es.len())?;
    for i in 0..es.len() {
        after.push(passed_to(alloc, names, types.get(i), &es[i])?)?;
    }
    Ok(after)
}

// A copy of the arguments.
fn all_copied(alloc: Global, es: &[CExpr]) -> Result<Vec<CExpr>, AllocError>
    ensures { IfOk result (λ copies. map expr_of copies.items ≡ map expr_of es.now) }
{
    let mut copies = Vec::with_capacity(alloc, es.len())?;
    for e in es {
        copies.push(copied(alloc, e)?)?;
    }
    Ok(copies)
}

/// The arguments of the function with a name, without needless casts.
pub fn arguments(
    alloc: Global,
    scene: &Scene,
    function: &str,
    es: &[CExpr],
) -> Result<Vec<CExpr>, AllocError>
    ensures { (tree : Tree) (f : Function) → IsSceneOf scene.now tree f → IfOk result
        (λ after. map expr_of after.items ≡ spec.arguments_by tree f function.now (map expr_of es.now)) }
{
    match scene.functions.get(function) {
        Some(params) => passed(alloc, &scene.names, params.types.as_slice(), es),
        None => all_copied(alloc, es),
    }
}

/// The place of a call's result, where it has one.
pub fn place_if(
    alloc: Global,
    names: &Names,
    place: &Option<CExpr>,
) -> Result<Option<CExpr>, AllocError>
    ensures { (ds : List typing.Declared) → IsKnown names.now ds → IfOk result
        (λ after. option_map expr_of after ≡ option_map (spec.kept ds) (option_map expr_of place.now)) }
{
    match place {
        Some(place) => Ok(Some(kept(alloc, names, place)?)),
        None => Ok(None),
    }
}

// What is returned, without needless casts.
fn returned(alloc: Global, scene: &Scene, e: &CExpr) -> Result<CExpr, AllocError>
    ensures { (tree : Tree) (f : Function) → IsSceneOf scene.now tree f → IfOk result
        (λ after. expr_of after ≡ spec.returned_by tree f (expr_of e.now)) }
{
    match scene.result {
        Some(ty) => becoming(alloc, &scene.names, ty, e),
        None => copied(alloc, e),
    }
}

/// What is returned, where something is.
pub fn returned_if(
    alloc: Global,
    scene: &Scene,
    e: &Option<CExpr>,
) -> Result<Option<CExpr>, AllocError>
    ensures { (tree : Tree) (f : Function) → IsSceneOf scene.now tree f → IfOk result
        (λ after. option_map expr_of after ≡ option_map (spec.returned_by tree f) (option_map expr_of e.now)) }
{
    match e {
        Some(e) => Ok(Some(returned(alloc, scene, e)?)),
        None => Ok(None),
    }
}
