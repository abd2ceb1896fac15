//! The whole text with its accesses by names.

ghost use Rattle.std.specs.Prelude.{◌≡◌, IfOk, map};
ghost use Rattle.dcc_c.specs.Tree.{Tree};
ghost use Rattle.dcc_c.specs.Views.{function_of, tree_of};
ghost use Rattle.dcc_respell.specs.Writing.{function_by};
ghost use Rattle.dcc_named.specs.Named as spec;
ghost use Rattle.dcc_named.specs.Views.{KnowsText};

use crate::places::places_of;
use crate::scene::Scene;
use dcc_c::{Func, Global_, Unit};
use dcc_ctypes::Declared;
use dcc_rewrite::names::{global_names, own_names};
use dcc_rewrite::{Names, copied_globals, function_after};
use std::alloc::{AllocError, Global};
use std::collections::BTreeMap;

/// What is known wherever a function of a text stands.
#[derive(Clone, Copy)]
pub struct Known<'s, 'n> {
    /// What the global variables are declared as.
    pub globals: &'s BTreeMap<&'n str, Declared>,
    /// Where the global variables begin.
    pub places: &'s BTreeMap<u32, &'n Global_>,
}

// A function with its accesses by names.
fn function<'n>(alloc: Global, known: &Known<'_, 'n>, f: &'n Func) -> Result<Func, AllocError>
    ensures { (tree : Tree) → KnowsText known.now tree → IfOk result
        (λ after. function_of after ≡ function_by (spec.writing tree) (function_of f.now)) }
{
    let own = own_names(alloc, &f.params, &f.locals)?;
    let scene = Scene {
        names: Names {
            own: &own,
            globals: known.globals,
        },
        places: known.places,
    };
    function_after(alloc, &scene, f)
}

// Functions with their accesses by names.
fn all_functions<'n>(
    alloc: Global,
    known: &Known<'_, 'n>,
    fs: &'n [Func],
) -> Result<Vec<Func>, AllocError>
    ensures { (tree : Tree) → KnowsText known.now tree → IfOk result
        (λ after. map function_of after.items ≡ map (function_by (spec.writing tree)) (map function_of fs.now)) }
{
    let mut after = Vec::with_capacity(alloc, fs.len())?;
    for f in fs {
        after.push(function(alloc, known, f)?)?;
    }
    Ok(after)
}

/// The text with its accesses to memory by the names of its global variables; its lines keep the numbers that they
/// have. Want of memory is the only error.
pub fn named(alloc: Global, unit: &Unit) -> Result<Unit, AllocError>
    ensures { IfOk result (λ after. tree_of after ≡ spec.with_names (tree_of unit.now)) }
{
    let declared = global_names(alloc, &unit.globals)?;
    let places = places_of(alloc, &unit.globals)?;
    let known = Known {
        globals: &declared,
        places: &places,
    };
    let funcs = all_functions(alloc, &known, &unit.funcs)?;
    Ok(Unit {
        version: unit.version,
        lo: unit.lo,
        hi: unit.hi,
        globals: copied_globals(alloc, &unit.globals)?,
        funcs,
    })
}
