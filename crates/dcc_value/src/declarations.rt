//! Declarations, and where the first with each name stands.

ghost use Rattle.std.specs.Prelude.{◌≡◌, List, map, IfOk};
ghost use Rattle.dcc_c.specs.Typing.{Declared as Declaration};
ghost use Rattle.dcc_value.specs.Places.{first_place, AreFirst};
ghost use Rattle.dcc_value.specs.Evaluation.{declared_of, names_declared};

use crate::places::{add_place, place_of};
use crate::variable::Declared;
use std::alloc::{AllocError, Global};
use std::collections::BTreeMap;

/// Declarations, of which the first one with a name counts.
#[derive(Drop)]
pub struct Declarations<'a> {
    /// The declarations.
    pub list: &'a [Declared],
    // Where the first with each name stands.
    places: BTreeMap<&'a str, usize>,
    ghost first: { AreFirst places (names_declared list.now) },
}

impl<'a> Declarations<'a> {
    /// The declarations of a list, with the places of their names.
    ///
    /// # Errors
    ///
    /// Want of memory.
    pub fn new(alloc: Global, list: &'a [Declared]) -> Result<Declarations<'a>, AllocError>
        ensures { IfOk result (λ d. d.list.now ≡ list.now) }
    {
        let places = places_of(alloc, list)?;
        Ok(Declarations { list, places })
    }

    /// The place of the first declaration with the name.
    pub fn find(&self, name: &str) -> Option<usize>
        ensures { result ≡ first_place (names_declared self.now.list.now) name.now }
    {
        place_of(&self.places, name)
    }
}

// Where the first with each name stands.
fn places_of<'a>(
    alloc: Global,
    list: &'a [Declared],
) -> Result<BTreeMap<&'a str, usize>, AllocError>
    ensures { IfOk result (λ places. AreFirst places (names_declared list.now)) }
{
    let mut places = BTreeMap::new(alloc);
    for (i, declared) in list.iter().enumerate() {
        add_place(&mut places, declared.name.as_str(), i)?;
    }
    Ok(places)
}
