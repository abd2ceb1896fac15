//! Numbers in a text.

ghost use Rattle.std.specs.Prelude.{◌≡◌, ◌-◌, ◌^◌, ◌<◌, ◌==◌, nat_lt, IfOk};
ghost use Rattle.dcc_c.specs.Views.{expr_of};
ghost use Rattle.dcc_text.specs.Spelled as spec;
ghost use Rattle.dcc_text.specs.Views.{way_of};

use crate::nodes::unary;
use crate::way::{Way, reckoning_type};
use dcc_c::{CExpr, CUn};
use std::alloc::{AllocError, Global};

// Whether a number is below the half of the numbers of so many bits.
fn is_below_half(width: u8, n: u32) -> bool
    ensures { result ≡ nat_lt n (2 ^ (width - 1)) }
{
    width > 32 || u64::from(n) < 1 << width.saturating_sub(1)
}

// Whether a number is the half of the numbers of so many bits.
fn is_half(width: u8, n: u32) -> bool
    ensures { result ≡ (n == 2 ^ (width - 1)) }
{
    width <= 32 && u64::from(n) == 1 << width.saturating_sub(1)
}

// What is missing from a number above the half of the numbers of so many bits to all of them.
fn missing(width: u8, n: u32) -> u32
    requires { 2 ^ (width - 1) < n }
    ensures { result ≡ 2 ^ width - n }
{
    (1u64 << width).saturating_sub(u64::from(n)) as u32
}

// A number of so many bits as a signed one: from the half of these numbers on, they stand for numbers below 0.
fn signed_constant(alloc: Global, width: u8, n: u32) -> Result<CExpr, AllocError>
    ensures { IfOk result (λ r. expr_of r ≡ spec.constant spec.Signed width n) }
{
    let bits = u32::from(width);
    let signed = reckoning_type(true, bits);
    if is_below_half(width, n) {
        Ok(CExpr::Num(n, signed))
    } else if is_half(width, n) {
        Way::Signed.cut_to(alloc, bits, CExpr::Num(n, reckoning_type(false, bits)))
    } else {
        unary(alloc, CUn::Minus, CExpr::Num(missing(width, n), signed))
    }
}

/// A number of so many bits in a way.
pub fn constant(alloc: Global, way: Way, width: u8, n: u32) -> Result<CExpr, AllocError>
    ensures { IfOk result (λ r. expr_of r ≡ spec.constant (way_of way) width n) }
{
    let bits = u32::from(width);
    match way {
        Way::Exact => Ok(CExpr::Num(n, reckoning_type(false, bits))),
        Way::Low => Ok(CExpr::Num(n, reckoning_type(is_below_half(width, n), bits))),
        Way::Signed => signed_constant(alloc, width, n),
    }
}
