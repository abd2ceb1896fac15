//! Expressions whose accesses are written by names.

ghost use Rattle.std.specs.Prelude.{◌≡◌, nat_le, List, IfOk, option_map, map};
ghost use Rattle.dcc_c.specs.Tree as trees;
ghost use Rattle.dcc_c.specs.Tree.{Function, Tree};
ghost use Rattle.dcc_c.specs.Rules as rules;
ghost use Rattle.dcc_c.specs.Typing as typing;
ghost use Rattle.dcc_c.specs.Views.{expr_of, global_of};
ghost use Rattle.dcc_rewrite.specs.Views.{IsKnown};
ghost use Rattle.dcc_named.specs.Named as spec;
ghost use Rattle.dcc_named.specs.Views.{KnowsPlaces, IsSceneOf};

use crate::access::{accessed, offset_of};
use crate::places::{begins_at, is_bytes};
use crate::scene::Scene;
use dcc_c::{Base, CExpr, CType, CUn, Global_};
use dcc_rewrite::copied;
use std::alloc::{AllocError, Global};

// What a pointer points to, where it is a number that was cast to one.
fn pointed_by(alloc: Global, scene: &Scene, e: &CExpr) -> Result<Option<CExpr>, AllocError>
    ensures { (globals : List trees.Global) (ds : List typing.Declared) → KnowsPlaces scene.now.places.now globals →
        IsKnown scene.now.names ds →
        IfOk result (λ o. option_map expr_of o ≡ spec.pointed_by globals ds (expr_of e.now)) }
{
    match e {
        CExpr::Cast(ty, address) => {
            if ty.pointer {
                accessed(alloc, scene, ty.base, address)
            } else {
                Ok(None)
            }
        }
        _ => Ok(None),
    }
}

// What a pointer points to.
fn pointed(alloc: Global, scene: &Scene, e: CExpr) -> Result<CExpr, AllocError>
    ensures { (globals : List trees.Global) (ds : List typing.Declared) → KnowsPlaces scene.now.places.now globals →
        IsKnown scene.now.names ds →
        IfOk result (λ after. expr_of after ≡ spec.pointed globals ds (expr_of e)) }
{
    match pointed_by(alloc, scene, &e)? {
        Some(by_names) => Ok(by_names),
        None => Ok(CExpr::Un(CUn::Deref, Box::new(alloc, e)?)),
    }
}

/// The expression with its accesses by names. Want of memory is the only error.
pub fn named(alloc: Global, scene: &Scene, e: &CExpr) -> Result<CExpr, AllocError>
    ensures { (globals : List trees.Global) (ds : List typing.Declared) → KnowsPlaces scene.now.places.now globals →
        IsKnown scene.now.names ds →
        IfOk result (λ after. expr_of after ≡ spec.named globals ds (expr_of e.now)) }
{
    match e {
        CExpr::Num(n, base) => Ok(CExpr::Num(*n, *base)),
        CExpr::Name(word) => Ok(CExpr::Name(word.clone()?)),
        CExpr::Un(CUn::Deref, a) => {
            let a = named(alloc, scene, a)?;
            let by_names = pointed(alloc, scene, a)?;
            Ok(by_names)
        }
        CExpr::Un(CUn::AddressOf, a) => {
            let a = Box::new(alloc, copied(alloc, a)?)?;
            Ok(CExpr::Un(CUn::AddressOf, a))
        }
        CExpr::Un(operator, a) => {
            let a = Box::new(alloc, named(alloc, scene, a)?)?;
            Ok(CExpr::Un(*operator, a))
        }
        CExpr::Bin(operator, a, b) => {
            let a = Box::new(alloc, named(alloc, scene, a)?)?;
            let b = Box::new(alloc, named(alloc, scene, b)?)?;
            Ok(CExpr::Bin(*operator, a, b))
        }
        CExpr::Cond(test, a, b) => {
            let test = Box::new(alloc, named(alloc, scene, test)?)?;
            let a = Box::new(alloc, named(alloc, scene, a)?)?;
            let b = Box::new(alloc, named(alloc, scene, b)?)?;
            Ok(CExpr::Cond(test, a, b))
        }
        CExpr::Cast(ty, a) => {
            let a = Box::new(alloc, named(alloc, scene, a)?)?;
            Ok(CExpr::Cast(*ty, a))
        }
    }
}

// Whether the expression has no more levels than the limit.
fn is_shallow(e: &CExpr, limit: u32) -> bool
    ensures { result ≡ nat_le (rules.expr_depth (expr_of e.now)) limit }
{
    if limit == 0 {
        return false;
    }
    match e {
        CExpr::Num(..) | CExpr::Name(_) => true,
        CExpr::Un(_, a) | CExpr::Cast(_, a) => is_shallow(a, limit - 1),
        CExpr::Bin(_, a, b) => is_shallow(a, limit - 1) && is_shallow(b, limit - 1),
        CExpr::Cond(test, a, b) => {
            is_shallow(test, limit - 1) && is_shallow(a, limit - 1) && is_shallow(b, limit - 1)
        }
    }
}

/// The expression of a function with its accesses by names, unless it would be too deep. Want of memory is the only
/// error.
pub fn by_names(alloc: Global, scene: &Scene, e: &CExpr) -> Result<CExpr, AllocError>
    ensures { (tree : Tree) (f : Function) → IsSceneOf scene.now tree f →
        IfOk result (λ after. expr_of after ≡ spec.by_names tree f (expr_of e.now)) }
{
    let after = named(alloc, scene, e)?;
    if is_shallow(&after, 200) {
        Ok(after)
    } else {
        copied(alloc, e)
    }
}

// The address of an array of bytes, as a number.
fn address_in(alloc: Global, g: &Global_) -> Result<Option<CExpr>, AllocError>
    ensures { IfOk result (λ o. option_map expr_of o ≡ spec.address_in (global_of g.now)) }
{
    if is_bytes(g) {
        let name = Box::new(alloc, CExpr::Name(g.name.clone()?))?;
        Ok(Some(CExpr::Cast(CType::plain(Base::Uint), name)))
    } else {
        Ok(None)
    }
}

// The address of a text that is written, by the name of the array that begins there.
fn written_text(alloc: Global, scene: &Scene, e: &CExpr) -> Result<Option<CExpr>, AllocError>
    ensures { (globals : List trees.Global) → KnowsPlaces scene.now.places.now globals →
        IfOk result (λ o. option_map expr_of o ≡ spec.written_text globals (expr_of e.now)) }
{
    match e {
        CExpr::Num(n, base) => match begins_at(scene.places, offset_of(*n, *base)) {
            Some(g) => address_in(alloc, g),
            None => Ok(None),
        },
        _ => Ok(None),
    }
}

// The argument of `dos_puts`.
fn text_argument(alloc: Global, scene: &Scene, e: &CExpr) -> Result<CExpr, AllocError>
    ensures { (tree : Tree) (f : Function) → IsSceneOf scene.now tree f →
        IfOk result (λ after. expr_of after ≡ spec.text_argument tree f (expr_of e.now)) }
{
    match written_text(alloc, scene, e)? {
        Some(address) => Ok(address),
        None => by_names(alloc, scene, e),
    }
}

// An argument of the function with a name.
fn argument(alloc: Global, scene: &Scene, function: &str, e: &CExpr) -> Result<CExpr, AllocError>
    ensures { (tree : Tree) (f : Function) → IsSceneOf scene.now tree f →
        IfOk result (λ after. expr_of after ≡ spec.argument_named tree f function.now (expr_of e.now)) }
{
    if function == "dos_puts" {
        text_argument(alloc, scene, e)
    } else {
        by_names(alloc, scene, e)
    }
}

/// The arguments of the function with a name. Want of memory is the only error.
pub fn arguments(
    alloc: Global,
    scene: &Scene,
    function: &str,
    es: &[CExpr],
) -> Result<Vec<CExpr>, AllocError>
    ensures { (tree : Tree) (f : Function) → IsSceneOf scene.now tree f → IfOk result
        (λ after. map expr_of after.items ≡ map (spec.argument_named tree f function.now) (map expr_of es.now)) }
{
    let mut after = Vec::with_capacity(alloc, es.len())?;
    for e in es {
        after.push(argument(alloc, scene, function, e)?)?;
    }
    Ok(after)
}
