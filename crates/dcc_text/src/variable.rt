//! Variables and addresses in a text.

ghost use Rattle.std.specs.Prelude.{◌≡◌, true, if◌then◌else◌, Some, IfOk, option_map, string_bytes};
ghost use Rattle.dcc_ir.specs.Tree as inner;
ghost use Rattle.dcc_ir.specs.Views.{expr_of as inner_of};
ghost use Rattle.dcc_c.specs.Types.{is_signed, same_base, same_type};
ghost use Rattle.dcc_c.specs.Tree as tree;
ghost use Rattle.dcc_c.specs.Views.{expr_of};
ghost use Rattle.dcc_text.specs.Spelled as spec;
ghost use Rattle.dcc_text.specs.Views.{placed_of, way_of};

use crate::nodes::{binary, cast, cast_to, small, unary};
use crate::spells::{NamedAddress, Spells};
use crate::way::{Way, unsigned_type};
use dcc_c::{Base, CBin, CExpr, CType, CUn};
use dcc_ir::{Expr, Loc};
use std::alloc::{AllocError, Global};

// Whether the two number types are one.
fn is_same_base(a: Base, b: Base) -> bool
    ensures { result ≡ same_base a b }
{
    a == b
}

// Whether the two types are one.
fn is_same_type(a: CType, b: CType) -> bool
    ensures { result ≡ same_type a b }
{
    is_same_base(a.base, b.base) && a.pointer == b.pointer
}

// A variable of a char type as one of this char type.
fn as_char(alloc: Global, base: Base, ty: CType, e: CExpr) -> Result<CExpr, AllocError>
    ensures { IfOk result (λ r. expr_of r ≡ spec.as_char base ty (expr_of e)) }
{
    if is_same_type(ty, CType::plain(base)) {
        Ok(e)
    } else {
        cast(alloc, base, e)
    }
}

// The bit that a variable of a char type holds, as a signed number; the read votes.
fn signed_bit(alloc: Global, settled: bool, ty: CType, e: CExpr) -> Result<CExpr, AllocError>
    ensures { IfOk result (λ r. expr_of r ≡ spec.bit_read spec.Signed true settled ty (expr_of e)) }
{
    let char = as_char(alloc, Base::Schar, ty, e)?;
    if settled {
        cast(alloc, Base::Int, char)
    } else {
        let rest = binary(alloc, CBin::Rem, char, small(2))?;
        binary(alloc, CBin::And, rest, small(1))
    }
}

// The bit that a variable of a char type holds, exactly; the read votes.
fn exact_bit(alloc: Global, settled: bool, ty: CType, e: CExpr) -> Result<CExpr, AllocError>
    ensures { IfOk result (λ r. expr_of r ≡ spec.bit_read spec.Exact true settled ty (expr_of e)) }
{
    let char = as_char(alloc, Base::Uchar, ty, e)?;
    if settled {
        Ok(char)
    } else {
        binary(alloc, CBin::Rem, char, small(2))
    }
}

// The bit that a variable of a char type holds, exactly, but for the way of low bits.
fn bit_read(
    alloc: Global,
    way: Way,
    votes: bool,
    settled: bool,
    ty: CType,
    e: CExpr,
) -> Result<CExpr, AllocError>
    ensures { IfOk result (λ r. expr_of r ≡ spec.bit_read (way_of way) votes settled ty (expr_of e)) }
{
    match way {
        Way::Low => Ok(e),
        Way::Signed if votes => signed_bit(alloc, settled, ty, e),
        Way::Exact if votes => exact_bit(alloc, settled, ty, e),
        _ if settled && !ty.base.is_signed() => Ok(e),
        _ => binary(alloc, CBin::And, e, small(1)),
    }
}

// The way in which a variable of a number type that has room for just its location gives it.
fn held_way(base: Base) -> Way
    ensures { way_of result ≡ (if is_signed base then spec.Signed else spec.Exact) }
{
    if base.is_signed() {
        Way::Signed
    } else {
        Way::Exact
    }
}

/// The variable of a location in a way. The read votes where the operator that takes it does.
pub fn variable<S: Spells>(
    alloc: Global,
    s: &S,
    way: Way,
    votes: bool,
    location: Loc,
) -> Result<CExpr, AllocError>
    ensures { IfOk result (λ r. expr_of r
        ≡ spec.text (S.spelling s.now) (way_of way) votes (inner.Get location)) }
{
    let ty = s.type_of(location);
    let width = u32::from(s.width(location));
    let name = CExpr::Name(s.name(alloc, location)?);
    if ty.pointer {
        way.cut_to(alloc, width, name)
    } else if width == 1 {
        let bit = bit_read(alloc, way, votes, s.is_settled(location), ty, name)?;
        Way::Exact.taken(alloc, way, 1, bit)
    } else {
        held_way(ty.base).taken(alloc, way, width, name)
    }
}

// The address of a variable with a place or of an array, as a number.
fn address_of(alloc: Global, place: NamedAddress) -> Result<CExpr, AllocError>
    ensures { IfOk result (λ r. expr_of r
        ≡ spec.placed (Some (record { name = string_bytes place.name; is_array = place.is_array; above = 0 }))) }
{
    let name = CExpr::Name(place.name);
    if place.is_array {
        cast(alloc, Base::Uint, name)
    } else {
        cast(alloc, Base::Uint, unary(alloc, CUn::AddressOf, name)?)
    }
}

/// An address in the frame.
pub fn placed(alloc: Global, place: Option<NamedAddress>) -> Result<CExpr, AllocError>
    ensures { IfOk result (λ r. expr_of r ≡ spec.placed (option_map placed_of place)) }
{
    let Some(place) = place else {
        return Ok(small(0));
    };
    let above = u32::from(place.above);
    let at = address_of(alloc, place)?;
    if above == 0 {
        Ok(at)
    } else {
        binary(alloc, CBin::Add, at, CExpr::Num(above, Base::Uint))
    }
}

/// The number of so many bits in memory at an address whose low bits the expression gives. A pointer to such numbers is
/// one as it stands.
pub(crate) fn pointed<S: Spells>(
    alloc: Global,
    s: &S,
    width: u8,
    address: &Expr,
    e: CExpr,
) -> Result<CExpr, AllocError>
    ensures { IfOk result (λ r. expr_of r
        ≡ tree.Unary CUn.Deref (spec.pointer (S.spelling s.now) width (inner_of address.now) (expr_of e))) }
{
    let ty = CType::pointer_to(unsigned_type(u32::from(width)));
    match address {
        Expr::Get(location) if is_same_type(s.type_of(*location), ty) => {
            unary(alloc, CUn::Deref, CExpr::Name(s.name(alloc, *location)?))
        }
        _ => unary(alloc, CUn::Deref, cast_to(alloc, ty, e)?),
    }
}
