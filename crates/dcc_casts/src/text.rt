//! The whole text without needless casts.

ghost use Rattle.std.specs.Prelude.{◌≡◌, IfOk, map, option_map};
ghost use Rattle.dcc_c.specs.Rules.{declared_in};
ghost use Rattle.dcc_c.specs.Tree.{Function, Tree};
ghost use Rattle.dcc_c.specs.Views.{global_of, variable_of, function_of, tree_of};
ghost use Rattle.dcc_respell.specs.Writing.{function_by};
ghost use Rattle.dcc_casts.specs.Casts as spec;
ghost use Rattle.dcc_casts.specs.Views.{IsKnown, KnowsText};

use crate::body::lines;
use crate::functions::{Params, functions_of};
use crate::names::{Names, global_names, own_names};
use crate::statement::Scene;
use dcc_c::{Func, Global_, Unit, Var};
use dcc_ctypes::Declared;
use std::alloc::{AllocError, Global};
use std::collections::BTreeMap;

/// What is known wherever a statement of a text stands.
#[derive(Clone, Copy)]
pub struct Known<'s, 'n> {
    /// What the global variables are declared as.
    pub globals: &'s BTreeMap<&'n str, Declared>,
    /// What the functions take.
    pub functions: &'s BTreeMap<&'n str, Params>,
}

// A copy of a parameter or of a local variable.
fn variable(v: &Var) -> Result<Var, AllocError>
    ensures { IfOk result (λ copy. variable_of copy ≡ variable_of v.now) }
{
    Ok(Var {
        name: v.name.clone()?,
        ty: v.ty,
        len: v.len,
        class: v.class,
    })
}

// Copies of parameters or of local variables.
fn variables(alloc: Global, vs: &[Var]) -> Result<Vec<Var>, AllocError>
    ensures { IfOk result (λ copies. map variable_of copies.items ≡ map variable_of vs.now) }
{
    let mut copies = Vec::with_capacity(alloc, vs.len())?;
    for v in vs {
        copies.push(variable(v)?)?;
    }
    Ok(copies)
}

// A copy of a global variable.
fn global(g: &Global_) -> Result<Global_, AllocError>
    ensures { IfOk result (λ copy. global_of copy ≡ global_of g.now) }
{
    Ok(Global_ {
        name: g.name.clone()?,
        at: g.at,
        ty: g.ty,
        len: g.len,
        init: g.init.clone()?,
    })
}

// Copies of global variables.
fn globals(alloc: Global, gs: &[Global_]) -> Result<Vec<Global_>, AllocError>
    ensures { IfOk result (λ copies. map global_of copies.items ≡ map global_of gs.now) }
{
    let mut copies = Vec::with_capacity(alloc, gs.len())?;
    for g in gs {
        copies.push(global(g)?)?;
    }
    Ok(copies)
}

// A function without needless casts.
fn function<'n>(alloc: Global, known: &Known<'_, 'n>, f: &'n Func) -> Result<Func, AllocError>
    ensures { (tree : Tree) → KnowsText known.now tree → IfOk result
        (λ after. function_of after ≡ function_by (spec.writing tree) (function_of f.now)) }
{
    let own = own_names(alloc, &f.params, &f.locals)?;
    let scene = Scene {
        names: Names {
            own: &own,
            globals: known.globals,
        },
        functions: known.functions,
        result: f.result,
    };
    let body = lines(alloc, &scene, &f.body)?;
    Ok(Func {
        name: f.name.clone()?,
        result: f.result,
        params: variables(alloc, &f.params)?,
        locals: variables(alloc, &f.locals)?,
        body,
        last: f.last,
    })
}

// Functions without needless casts.
fn all_functions<'n>(
    alloc: Global,
    known: &Known<'_, 'n>,
    fs: &'n [Func],
) -> Result<Vec<Func>, AllocError>
    ensures { (tree : Tree) → KnowsText known.now tree → IfOk result
        (λ after. map function_of after.items ≡ map (function_by (spec.writing tree)) (map function_of fs.now)) }
{
    let mut after = Vec::with_capacity(alloc, fs.len())?;
    for f in fs {
        after.push(function(alloc, known, f)?)?;
    }
    Ok(after)
}

/// The text without the casts that nothing needs; its lines keep the numbers that they have. Want of memory is the
/// only error.
pub fn without_casts(alloc: Global, unit: &Unit) -> Result<Unit, AllocError>
    ensures { IfOk result (λ after. tree_of after ≡ spec.without_casts (tree_of unit.now)) }
{
    let declared = global_names(alloc, &unit.globals)?;
    let functions = functions_of(alloc, unit)?;
    let known = Known {
        globals: &declared,
        functions: &functions,
    };
    let funcs = all_functions(alloc, &known, &unit.funcs)?;
    Ok(Unit {
        version: unit.version,
        lo: unit.lo,
        hi: unit.hi,
        globals: globals(alloc, &unit.globals)?,
        funcs,
    })
}
