//! Names that end with an offset.

ghost use Rattle.std.specs.Prelude.{◌≡◌, IfOk, string_bytes};
ghost use Rattle.dcc_text.specs.Hex as spec;

use std::alloc::{AllocError, Global};

/// The name of what stands at an offset: a prefix that says what it is, and the four hexadecimal digits of the offset
/// in lower case. Want of memory is the only error.
pub fn name_at(alloc: Global, prefix: &str, at: u16) -> Result<String, AllocError>
    ensures { IfOk result (λ name. string_bytes name ≡ spec.name_at prefix.now at) }
{
    let high = at / 256;
    let low = at % 256;
    format!(in alloc; "{prefix}{high:02x}{low:02x}")
}
