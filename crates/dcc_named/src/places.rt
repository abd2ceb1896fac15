//! Where global variables begin.

ghost use Rattle.std.specs.Prelude.{◌≡◌, ◌==◌, ℕ, List, Some, None, IfOk, OnOk, option_map, map, if◌then◌else◌};
ghost use Rattle.dcc_c.specs.Tree as tree;
ghost use Rattle.dcc_c.specs.Views.{global_of};
ghost use Rattle.dcc_check.specs.Declarations.{first_found};
ghost use Rattle.dcc_named.specs.Named as spec;
ghost use Rattle.dcc_named.specs.Views.{lent, placed, KnowsPlaces};

use dcc_c::{Base, CType, Global_};
use std::alloc::{AllocError, Global};
use std::collections::BTreeMap;

// Adds a global variable to the map, unless another one is there at its offset.
fn add_first<'n>(places: &mut BTreeMap<u32, &'n Global_>, g: &'n Global_) -> Result<(), AllocError>
    ensures { OnOk result ((at : ℕ) → placed places.new at ≡ first_found (placed places.old at)
        (if (global_of g.now).at == at then Some (global_of g.now) else None)) }
{
    if let Some(first) = places.insert(g.at, g)? {
        places.insert(g.at, first)?;
    }
    Ok(())
}

/// Where global variables begin. Want of memory is the only error.
pub fn places_of(alloc: Global, globals: &[Global_]) -> Result<BTreeMap<u32, &Global_>, AllocError>
    ensures { IfOk result (λ places. KnowsPlaces places (map global_of globals.now)) }
{
    let mut places = BTreeMap::new(alloc);
    for g in globals {
        add_first(&mut places, g)?;
    }
    Ok(places)
}

/// The global variable that begins at an offset.
pub fn begins_at<'n>(places: &BTreeMap<u32, &'n Global_>, at: u32) -> Option<&'n Global_>
    ensures { (globals : List tree.Global) → KnowsPlaces places.now globals →
        option_map lent result ≡ spec.begins_at globals at }
{
    places.get(&at).copied()
}

/// The global variable that begins at an offset, or else at the greatest one below it.
pub fn begins_before<'n>(places: &BTreeMap<u32, &'n Global_>, at: u32) -> Option<&'n Global_>
    ensures { (globals : List tree.Global) → KnowsPlaces places.now globals →
        option_map lent result ≡ spec.begins_before globals at }
{
    match places.range(..=at).next_back() {
        Some((_, g)) => Some(*g),
        None => None,
    }
}

/// Whether the global variable is one number of the type.
pub fn is_scalar(base: Base, g: &Global_) -> bool
    ensures { result ≡ spec.is_scalar base (global_of g.now) }
{
    g.len.is_none() && g.ty == CType::plain(base)
}

/// Whether the global variable is an array of bytes.
pub fn is_bytes(g: &Global_) -> bool
    ensures { result ≡ spec.is_bytes (global_of g.now) }
{
    g.len.is_some() && g.ty == CType::plain(Base::Uchar)
}

/// Whether the array of bytes has all of so many bytes from an offset on, at which it doesn't begin later.
pub fn reaches(g: &Global_, at: u32, bytes: u32) -> bool
    ensures { result ≡ spec.reaches at bytes (global_of g.now) }
{
    let last = match g.len {
        Some(len) => u64::from(g.at) + u64::from(len),
        None => u64::from(g.at) + 1,
    };
    u64::from(at) + u64::from(bytes) <= last
}
