//! Labels that name offsets.

ghost use Rattle.std.specs.Prelude.{◌≡◌, ◌<◌, ℕ, Bool, false, IfSome, IfNone};
ghost use Rattle.std.specs.Fmt.{digit_glyph};
ghost use Rattle.dcc_c.specs.Tree.{Word};
ghost use Rattle.dcc_shape.specs.Shape.{label_of};
ghost use Rattle.dcc_shape.specs.Known.{AreNamed};

use std::collections::BTreeSet;

// The value of a hexadecimal digit in lower case.
fn digit(byte: u8) -> Option<u16>
    ensures is { IfSome result (λ n. (n < 16) × (digit_glyph false n ≡ byte)) }
    ensures none { IfNone result ((n : ℕ) → n < 16 → ¬ (digit_glyph false n ≡ byte)) }
{
    match byte {
        b'0'..=b'9' => Some(u16::from(byte - b'0')),
        b'a'..=b'f' => Some(u16::from(byte - b'a') + 10),
        _ => None,
    }
}

/// The offset of the instruction whose label this is.
pub(crate) fn offset_named(label: &str) -> Option<u16>
    ensures is { IfSome result (λ at. (at < 65536) × (label.now ≡ label_of at)) }
    ensures none { IfNone result ((at : ℕ) → ¬ (label.now ≡ label_of at)) }
{
    let [first, second, a, b, c, d] = label.as_bytes() else {
        return None;
    };
    if *first != b'L' || *second != b'_' {
        return None;
    }
    let high = 16 * digit(*a)? + digit(*b)?;
    let low = 16 * digit(*c)? + digit(*d)?;
    Some(256 * high + low)
}

/// Whether a label is that of one of these offsets.
pub(crate) fn is_named(known: &BTreeSet<u16>, label: &str) -> bool
    ensures { (test : Word → Bool) → AreNamed known.now test → result ≡ test label.now }
{
    match offset_named(label) {
        Some(at) => known.contains(&at),
        None => false,
    }
}
