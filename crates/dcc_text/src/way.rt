//! The three ways in which a text gives a value, and how one becomes another.

ghost use Rattle.std.specs.Prelude.{◌≡◌, IfOk};
ghost use Rattle.dcc_c.specs.Views.{expr_of};
ghost use Rattle.dcc_text.specs.Spelled as spec;
ghost use Rattle.dcc_text.specs.Views.{way_of};

use crate::nodes::{binary, cast, small, unary};
use dcc_c::{Base, CBin, CExpr, CUn};
use std::alloc::{AllocError, Global};

/// What a text's number is to the value of an expression of so many bits.
#[derive(Clone, Copy, PartialEq, Eq, Debug)]
pub enum Way {
    /// The text's number has the value's low bits.
    Low,
    /// The text's number is the value itself.
    Exact,
    /// The text's number is the signed number that the value's bits stand for.
    Signed,
}

/// The unsigned type that holds numbers of so many bits; a bit is held in a char.
pub fn unsigned_type(width: u32) -> Base
    ensures { result ≡ spec.unsigned_type width }
{
    if width <= 8 {
        Base::Uchar
    } else if width <= 16 {
        Base::Uint
    } else {
        Base::Ulong
    }
}

/// The signed type that holds numbers of so many bits; a bit is held in a char.
pub(crate) fn signed_type(width: u32) -> Base
    ensures { result ≡ spec.signed_type width }
{
    if width <= 8 {
        Base::Schar
    } else if width <= 16 {
        Base::Int
    } else {
        Base::Long
    }
}

/// The type in which operators reckon on numbers of so many bits, by sign.
pub(crate) fn reckoning_type(signed: bool, width: u32) -> Base
    ensures { result ≡ spec.reckoning_type signed width }
{
    if width <= 8 {
        Base::Int
    } else if signed {
        signed_type(width)
    } else {
        unsigned_type(width)
    }
}

// The low bits of any number, exactly.
fn cut(alloc: Global, width: u32, e: CExpr) -> Result<CExpr, AllocError>
    ensures { IfOk result (λ r. expr_of r ≡ spec.cut width (expr_of e)) }
{
    let low = cast(alloc, unsigned_type(width), e)?;
    if width == 1 {
        binary(alloc, CBin::And, low, small(1))
    } else {
        Ok(low)
    }
}

// An exact number with its sign; one bit stands for 0 or -1.
fn signed_reading(alloc: Global, width: u32, e: CExpr) -> Result<CExpr, AllocError>
    ensures { IfOk result (λ r. expr_of r ≡ spec.signed_reading width (expr_of e)) }
{
    if width == 1 {
        unary(alloc, CUn::Minus, e)
    } else {
        cast(alloc, signed_type(width), e)
    }
}

// Any number as a signed one, by its low bits.
fn signed_cut(alloc: Global, width: u32, e: CExpr) -> Result<CExpr, AllocError>
    ensures { IfOk result (λ r. expr_of r ≡ spec.cut_to spec.Signed width (expr_of e)) }
{
    if width == 1 {
        signed_reading(alloc, width, cut(alloc, width, e)?)
    } else {
        signed_reading(alloc, width, e)
    }
}

impl Way {
    /// Any number of so many bits in this way, by its low bits.
    pub fn cut_to(self, alloc: Global, width: u32, e: CExpr) -> Result<CExpr, AllocError>
        ensures { IfOk result (λ r. expr_of r ≡ spec.cut_to (way_of self) width (expr_of e)) }
    {
        match self {
            Way::Signed => signed_cut(alloc, width, e),
            Way::Low | Way::Exact => cut(alloc, width, e),
        }
    }

    /// What an expression of so many bits gives in this way, in another.
    pub fn taken(self, alloc: Global, want: Way, width: u32, e: CExpr) -> Result<CExpr, AllocError>
        ensures { IfOk result (λ r. expr_of r ≡ spec.taken (way_of self) (way_of want) width (expr_of e)) }
    {
        match (self, want) {
            (_, Way::Low) | (Way::Exact, Way::Exact) | (Way::Signed, Way::Signed) => Ok(e),
            (Way::Exact, Way::Signed) => signed_reading(alloc, width, e),
            (Way::Low, Way::Signed) => signed_cut(alloc, width, e),
            (Way::Low | Way::Signed, Way::Exact) => cut(alloc, width, e),
        }
    }

    /// The way of sums and the like of numbers in this way.
    pub fn carried(self, width: u32) -> Way
        ensures { way_of result ≡ spec.carried (way_of self) width }
    {
        if width >= 16 { self } else { Way::Low }
    }

    /// The way of operators that go bit by bit, on numbers in this way.
    pub fn bitwise(self, width: u32) -> Way
        ensures { way_of result ≡ spec.bitwise (way_of self) width }
    {
        match self {
            Way::Signed if width < 16 => Way::Exact,
            _ => self,
        }
    }

    /// The way in which numbers of so many bits are compared.
    pub fn compared(width: u32) -> Way
        ensures { way_of result ≡ spec.compared width }
    {
        if width >= 16 { Way::Low } else { Way::Exact }
    }
}
