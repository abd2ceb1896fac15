//! Products, in two operands.

ghost use Rattle.std.specs.Prelude.{◌≡◌, ◌<◌};
ghost use Rattle.dcc_num.specs.Numbers.{limit_of};
ghost use Rattle.dcc_num.specs.Product.{product_of, signed_product_of, product_flags, extension_of};

use crate::operand::{is_negative, limit, signed, wrapped};
use crate::{Flags, Width};

// CF and OF tell whether the product needs its upper half.
fn flags_of(needed: bool) -> Flags
    ensures { result ≡ product_flags needed }
{
    Flags {
        cf: needed,
        zf: false,
        sf: false,
        of: needed,
    }
}

/// MUL: the lower and the upper half of the product without a sign.
#[tactic(auto, unfolding(crate::specs::Product::product_of))]
pub fn mul(w: Width, a: u16, b: u16) -> (u16, u16, Flags)
    requires first { a < limit_of w }
    requires second { b < limit_of w }
    ensures product { result ≡ product_of w a b }
    ensures low { result.0 < limit_of w }
    ensures high { result.1 < limit_of w }
{
    let product = u32::from(a) * u32::from(b);
    let low = (product % limit(w)) as u16;
    let high = (product / limit(w)) as u16;
    (low, high, flags_of(high != 0))
}

// The upper half that only repeats the sign of the lower one.
fn extension(w: Width, low: u16) -> u16
    ensures { result ≡ extension_of w low }
{
    if is_negative(w, low) {
        (limit(w) - 1) as u16
    } else {
        0
    }
}

/// IMUL: the lower and the upper half of the product of the signed numbers.
#[tactic(auto, unfolding(crate::specs::Product::signed_product_of))]
pub fn imul(w: Width, a: u16, b: u16) -> (u16, u16, Flags)
    requires first { a < limit_of w }
    requires second { b < limit_of w }
    ensures product { result ≡ signed_product_of w a b }
    ensures low { result.0 < limit_of w }
    ensures high { result.1 < limit_of w }
{
    let product = signed(w, a) * signed(w, b);
    let low = wrapped(w, product);
    let high = wrapped(w, product >> w.bits());
    (low, high, flags_of(high != extension(w, low)))
}
