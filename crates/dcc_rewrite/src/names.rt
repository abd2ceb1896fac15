//! What is known where an expression of a text stands: its names and the functions that it calls.

ghost use Rattle.std.specs.Prelude.{◌≡◌, ◌++◌, List, Some, None, IfOk, OnOk, option_map, map, if◌then◌else◌};
ghost use Rattle.dcc_c.specs.Token.{same_bytes};
ghost use Rattle.dcc_c.specs.Tree.{Word};
ghost use Rattle.dcc_c.specs.Typing as typing;
ghost use Rattle.dcc_c.specs.Rules.{declared_param, declared_local, declared_global};
ghost use Rattle.dcc_c.specs.Views.{variable_of, global_of};
ghost use Rattle.dcc_ctypes.specs.NameViews.{unnamed};
ghost use Rattle.dcc_check.specs.Contexts.{held};
ghost use Rattle.dcc_check.specs.Declarations.{first_found};
ghost use Rattle.dcc_rewrite.specs.Views.{IsKnown};

use dcc_c::{Class, Global_, Var};
use dcc_ctypes::Declared;
use std::alloc::{AllocError, Global};
use std::collections::BTreeMap;

/// What the names of a function's expressions are declared as.
#[derive(Clone, Copy)]
pub struct Names<'s, 'n> {
    /// The parameters and the local variables.
    pub own: &'s BTreeMap<&'n str, Declared>,
    /// The global variables.
    pub globals: &'s BTreeMap<&'n str, Declared>,
}

impl Names<'_, '_> {
    /// What the name of a variable is declared as.
    pub fn variable(&self, word: &str) -> Option<Declared>
        ensures { (names : List typing.Declared) → IsKnown self.now names →
            result ≡ option_map unnamed (typing.declared_as names word.now) }
    {
        match self.own.get(word) {
            Some(declared) => Some(*declared),
            None => self.globals.get(word).copied(),
        }
    }
}

// Adds a value to the map, unless the word has one already.
fn add_first<'a>(
    declared: &mut BTreeMap<&'a str, Declared>,
    word: &'a str,
    value: Declared,
) -> Result<(), AllocError>
    ensures { OnOk result ((other : Word) → held declared.new other
        ≡ first_found (held declared.old other) (if same_bytes word.now other then Some value else None)) }
{
    if let Some(first) = declared.insert(word, value)? {
        declared.insert(word, first)?;
    }
    Ok(())
}

// What a parameter is declared as.
fn parameter(v: &Var) -> Declared
    ensures { result ≡ unnamed (declared_param (variable_of v.now)) }
{
    Declared {
        ty: v.ty,
        is_array: v.len.is_some(),
        is_placed: v.class != Class::Register,
    }
}

// What a local variable is declared as.
fn local(v: &Var) -> Declared
    ensures { result ≡ unnamed (declared_local (variable_of v.now)) }
{
    Declared {
        ty: v.ty,
        is_array: v.len.is_some(),
        is_placed: v.class == Class::Auto,
    }
}

// What a global variable is declared as.
fn global(g: &Global_) -> Declared
    ensures { result ≡ unnamed (declared_global (global_of g.now)) }
{
    Declared {
        ty: g.ty,
        is_array: g.len.is_some(),
        is_placed: true,
    }
}

// Adds what parameters are declared as to the map. The first declaration of a name counts.
fn add_params<'a>(
    declared: &mut BTreeMap<&'a str, Declared>,
    params: &'a [Var],
) -> Result<(), AllocError>
    ensures { OnOk result ((word : Word) → held declared.new word ≡ first_found (held declared.old word)
        (option_map unnamed (typing.declared_as (map declared_param (map variable_of params.now)) word))) }
{
    for v in params {
        add_first(declared, v.name.as_str(), parameter(v))?;
    }
    Ok(())
}

// Adds what local variables are declared as to the map. The first declaration of a name counts.
fn add_locals<'a>(
    declared: &mut BTreeMap<&'a str, Declared>,
    locals: &'a [Var],
) -> Result<(), AllocError>
    ensures { OnOk result ((word : Word) → held declared.new word ≡ first_found (held declared.old word)
        (option_map unnamed (typing.declared_as (map declared_local (map variable_of locals.now)) word))) }
{
    for v in locals {
        add_first(declared, v.name.as_str(), local(v))?;
    }
    Ok(())
}

/// What the parameters and the local variables of a function are declared as. The first declaration of a name counts.
pub fn own_names<'a>(
    alloc: Global,
    params: &'a [Var],
    locals: &'a [Var],
) -> Result<BTreeMap<&'a str, Declared>, AllocError>
    ensures { IfOk result (λ own. (word : Word) → held own word ≡ option_map unnamed (typing.declared_as
        (map declared_param (map variable_of params.now) ++ map declared_local (map variable_of locals.now)) word)) }
{
    let mut own = BTreeMap::new(alloc);
    add_params(&mut own, params)?;
    add_locals(&mut own, locals)?;
    Ok(own)
}

/// What global variables are declared as. The first declaration of a name counts.
pub fn global_names(
    alloc: Global,
    globals: &[Global_],
) -> Result<BTreeMap<&str, Declared>, AllocError>
    ensures { IfOk result (λ declared. (word : Word) → held declared word
        ≡ option_map unnamed (typing.declared_as (map declared_global (map global_of globals.now)) word)) }
{
    let mut declared = BTreeMap::new(alloc);
    for g in globals {
        add_first(&mut declared, g.name.as_str(), global(g))?;
    }
    Ok(declared)
}
