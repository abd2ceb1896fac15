//! Where names stand in a list: the first place of a name counts.

ghost use Rattle.std.specs.Prelude.{◌≡◌, ◌++◌, ◌∷◌, [], List, length, OnOk, OnErr};
ghost use Rattle.dcc_c.specs.Tree.{Word};
ghost use Rattle.dcc_value.specs.Places.{place_of, AreFirst};

use std::alloc::AllocError;
use std::collections::BTreeMap;

/// The place of the name, where it has one.
pub fn place_of(places: &BTreeMap<&str, usize>, name: &str) -> Option<usize>
    ensures { result ≡ place_of places.now name.now }
{
    places.get(name).copied()
}

/// Adds a name that stands at `place` in a list of names; a name that the map has already keeps its place.
///
/// # Errors
///
/// Want of memory, after which each name has the place that it had.
pub fn add_place<'a>(
    places: &mut BTreeMap<&'a str, usize>,
    name: &'a str,
    place: usize,
) -> Result<(), AllocError>
    ensures added { (words : List Word) → AreFirst places.old words → place ≡ length words →
        OnOk result (AreFirst places.new (words ++ name.now ∷ [])) }
    ensures unchanged { OnErr result ((word : Word) → place_of places.new word ≡ place_of places.old word) }
{
    if !places.contains_key(name) {
        places.insert(name, place)?;
    }
    Ok(())
}
