//! Which signatures match the code of which procedures.

ghost use Rattle.std.specs.Prelude.{◌≡◌, ◌==◌, count_by};
ghost use Rattle.dcc_sigs.specs.Recognised.{is_met, matches, matches_at};

use crate::signature::Sig;
use dcc_reread::behind;

// Whether a part is this byte, or any byte.
fn is_met(part: Option<u8>, byte: u8) -> bool
    ensures { result ≡ is_met part byte }
{
    match part {
        Some(part) => part == byte,
        None => true,
    }
}

// Whether the code has as many bytes as there are parts, and each meets its part.
fn matches(parts: &[Option<u8>], code: &[u8]) -> bool
    ensures { result ≡ matches parts.now code.now }
{
    let mut left = parts;
    let mut bytes = code;
    while let [part, others @ ..] = left {
        let [byte, rest @ ..] = bytes else {
            return false;
        };
        if !is_met(*part, *byte) {
            return false;
        }
        left = others;
        bytes = rest;
    }
    true
}

/// Whether the signature matches the code from the entry on.
pub(crate) fn matches_at(code: &[u8], entry: u16, sig: &Sig) -> bool
    ensures { result ≡ matches_at code.now entry sig.now }
{
    matches(&sig.bytes, behind(code, usize::from(entry)))
}

/// How many of the signatures match the code from the entry on.
pub(crate) fn sigs_at(code: &[u8], entry: u16, sigs: &[Sig]) -> usize
    ensures { result ≡ count_by (matches_at code.now entry) sigs.now }
{
    let mut count = 0;
    for sig in sigs {
        if matches_at(code, entry, sig) {
            count += 1;
        }
    }
    count
}

/// From how many of the entries on the signature matches the code.
pub(crate) fn entries_with(code: &[u8], entries: &[u16], sig: &Sig) -> usize
    ensures { result ≡ count_by (λ entry. matches_at code.now entry sig.now) entries.now }
{
    let mut count = 0;
    for entry in entries {
        if matches_at(code, *entry, sig) {
            count += 1;
        }
    }
    count
}
