//! What stands at an address, by the names of global variables.

ghost use Rattle.std.specs.Prelude.{◌≡◌, ◌<◌, ◌^◌, List, IfOk, map, option_map};
ghost use Rattle.dcc_c.specs.Tree as tree;
ghost use Rattle.dcc_c.specs.Typing as typing;
ghost use Rattle.dcc_c.specs.Views.{expr_of, global_of};
ghost use Rattle.dcc_rewrite.specs.Views.{IsKnown};
ghost use Rattle.dcc_named.specs.Named as spec;
ghost use Rattle.dcc_named.specs.Views.{KnowsPlaces};

use crate::places::{begins_at, begins_before, is_bytes, is_scalar, reaches};
use crate::scene::Scene;
use dcc_c::{Base, CBin, CExpr, CType, CUn, Global_};
use dcc_rewrite::copied;
use dcc_rewrite::types::is_number;
use std::alloc::{AllocError, Global};

/// The offset that a number stands for.
pub fn offset_of(n: u32, base: Base) -> u32
    ensures value { result ≡ spec.offset_of n base }
    ensures within { result < 2 ^ 16 }
{
    base.convert(Base::Uint, base.wrapped(u64::from(n)))
}

// So many bytes from a place on.
fn counted(count: u32) -> CExpr
    ensures { expr_of result ≡ spec.counted count }
{
    if count <= 32767 {
        CExpr::Num(count, Base::Int)
    } else {
        CExpr::Num(count, Base::Uint)
    }
}

// What stands at the address of a byte, as a number of the type.
fn number_at(alloc: Global, base: Base, address: CExpr) -> Result<CExpr, AllocError>
    ensures { IfOk result (λ e. expr_of e ≡ spec.number_at base (expr_of address)) }
{
    let address = if base == Base::Uchar {
        address
    } else {
        CExpr::Cast(CType::pointer_to(base), Box::new(alloc, address)?)
    };
    Ok(CExpr::Un(CUn::Deref, Box::new(alloc, address)?))
}

// The sum of an array's name and another expression.
fn behind(alloc: Global, g: &Global_, index: CExpr) -> Result<CExpr, AllocError>
    ensures { IfOk result (λ e. expr_of e ≡ spec.behind (global_of g.now).name (expr_of index)) }
{
    let name = Box::new(alloc, CExpr::Name(g.name.clone()?))?;
    Ok(CExpr::Bin(CBin::Add, name, Box::new(alloc, index)?))
}

// The address of the byte of an array with so many before it, where a number of the type begins.
fn byte_address(alloc: Global, base: Base, g: &Global_, count: u32) -> Result<CExpr, AllocError>
    ensures { IfOk result (λ e. expr_of e ≡ spec.byte_address base (global_of g.now).name count) }
{
    if count == 0 && base != Base::Uchar {
        return Ok(CExpr::Name(g.name.clone()?));
    }
    behind(alloc, g, counted(count))
}

// The number of the type at an offset, in the global variable that begins there or before.
fn direct_in(alloc: Global, base: Base, at: u32, g: &Global_) -> Result<Option<CExpr>, AllocError>
    ensures { IfOk result (λ o. option_map expr_of o ≡ spec.direct_in base at (global_of g.now)) }
{
    if g.at == at && is_scalar(base, g) {
        return Ok(Some(CExpr::Name(g.name.clone()?)));
    }
    if is_bytes(g) && reaches(g, at, CType::plain(base).size()) {
        let address = byte_address(alloc, base, g, at.saturating_sub(g.at))?;
        return Ok(Some(number_at(alloc, base, address)?));
    }
    Ok(None)
}

// The number of the type at an offset.
fn direct(alloc: Global, scene: &Scene, base: Base, at: u32) -> Result<Option<CExpr>, AllocError>
    ensures { (globals : List tree.Global) (ds : List typing.Declared) → KnowsPlaces scene.now.places.now globals →
        IfOk result (λ o. option_map expr_of o ≡ spec.direct globals ds base at) }
{
    match begins_before(scene.places, at) {
        Some(g) => direct_in(alloc, base, at, g),
        None => Ok(None),
    }
}

// The number of the type so many bytes behind the first one of an array.
fn indexed_in(
    alloc: Global,
    base: Base,
    index: &CExpr,
    g: &Global_,
) -> Result<Option<CExpr>, AllocError>
    ensures { IfOk result (λ o. option_map expr_of o ≡ spec.indexed_in base (expr_of index.now) (global_of g.now)) }
{
    if is_bytes(g) {
        let address = behind(alloc, g, copied(alloc, index)?)?;
        Ok(Some(number_at(alloc, base, address)?))
    } else {
        Ok(None)
    }
}

// The number of the type at the sum of a number and an offset at which an array begins.
fn indexed(
    alloc: Global,
    scene: &Scene,
    base: Base,
    index: &CExpr,
    at: u32,
) -> Result<Option<CExpr>, AllocError>
    ensures { (globals : List tree.Global) (ds : List typing.Declared) → KnowsPlaces scene.now.places.now globals →
        IsKnown scene.now.names ds →
        IfOk result (λ o. option_map expr_of o ≡ spec.indexed globals ds base (expr_of index.now) at) }
{
    if 2 <= at && is_number(&scene.names, index) {
        match begins_at(scene.places, at) {
            Some(g) => indexed_in(alloc, base, index, g),
            None => Ok(None),
        }
    } else {
        Ok(None)
    }
}

// The number of the type at the sum or the difference of an expression and an offset.
fn moved_by(
    alloc: Global,
    scene: &Scene,
    base: Base,
    operator: CBin,
    index: &CExpr,
    at: u32,
) -> Result<Option<CExpr>, AllocError>
    requires { at < 2 ^ 16 }
    ensures { (globals : List tree.Global) (ds : List typing.Declared) → KnowsPlaces scene.now.places.now globals →
        IsKnown scene.now.names ds →
        IfOk result (λ o. option_map expr_of o ≡ spec.moved_by globals ds base operator (expr_of index.now) at) }
{
    match operator {
        CBin::Add => indexed(alloc, scene, base, index, at),
        CBin::Sub => indexed(alloc, scene, base, index, (65536 - at) % 65536),
        _ => Ok(None),
    }
}

// The number of the type at the address that an operator makes of an expression and another one.
fn moved(
    alloc: Global,
    scene: &Scene,
    base: Base,
    operator: CBin,
    index: &CExpr,
    other: &CExpr,
) -> Result<Option<CExpr>, AllocError>
    ensures { (globals : List tree.Global) (ds : List typing.Declared) → KnowsPlaces scene.now.places.now globals →
        IsKnown scene.now.names ds →
        IfOk result (λ o. option_map expr_of o
        ≡ spec.moved globals ds base operator (expr_of index.now) (expr_of other.now)) }
{
    match other {
        CExpr::Num(n, ty) => moved_by(alloc, scene, base, operator, index, offset_of(*n, *ty)),
        _ => Ok(None),
    }
}

/// The number of the type at an address, by names where it has any. Want of memory is the only error.
pub fn accessed(
    alloc: Global,
    scene: &Scene,
    base: Base,
    address: &CExpr,
) -> Result<Option<CExpr>, AllocError>
    ensures { (globals : List tree.Global) (ds : List typing.Declared) → KnowsPlaces scene.now.places.now globals →
        IsKnown scene.now.names ds →
        IfOk result (λ o. option_map expr_of o ≡ spec.accessed globals ds base (expr_of address.now)) }
{
    match address {
        CExpr::Num(n, ty) => direct(alloc, scene, base, offset_of(*n, *ty)),
        CExpr::Bin(operator, index, other) => moved(alloc, scene, base, *operator, index, other),
        _ => Ok(None),
    }
}
