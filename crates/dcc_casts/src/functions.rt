//! What the functions that a text calls take.

ghost use Rattle.std.specs.Prelude.{◌≡◌, [], ◌∷◌, List, Some, None, IfOk, OnOk, option_map, map, if◌then◌else◌};
ghost use Rattle.dcc_c.specs.Dos.{dos_of, dos_signature};
ghost use Rattle.dcc_c.specs.Rules.{signature_of, signature_in};
ghost use Rattle.dcc_c.specs.Run.{function_in, param_types};
ghost use Rattle.dcc_c.specs.Token.{same_bytes};
ghost use Rattle.dcc_c.specs.Tree.{Word};
ghost use Rattle.dcc_c.specs.Types.{plain};
ghost use Rattle.dcc_c.specs.Views.{variable_of, function_of, tree_of};
ghost use Rattle.dcc_check.specs.Contexts.{held};
ghost use Rattle.dcc_check.specs.Declarations.{first_found};
ghost use Rattle.dcc_casts.specs.Views.{held_params, params_of, KnowsFunctions};

use dcc_c::{Base, CType, Func, Unit, Var};
use std::alloc::{AllocError, Global};
use std::collections::BTreeMap;

/// The types of a function's parameters.
#[derive(Drop)]
pub struct Params {
    /// The types, in the parameters' order.
    pub types: Vec<CType>,
}

// The types of parameters.
fn types_of(alloc: Global, params: &[Var]) -> Result<Params, AllocError>
    ensures { IfOk result (λ of. of.types.items ≡ map (λ v. v.type) (map variable_of params.now)) }
{
    let mut types = Vec::with_capacity(alloc, params.len())?;
    for v in params {
        types.push(v.ty)?;
    }
    Ok(Params { types })
}

// One number of a type.
fn taking(alloc: Global, base: Base) -> Result<Params, AllocError>
    ensures { IfOk result (λ of. of.types.items ≡ plain base ∷ []) }
{
    let mut types = Vec::new(alloc);
    types.push(CType::plain(base))?;
    Ok(Params { types })
}

// Nothing.
fn taking_none(alloc: Global) -> Params
    ensures { result.types.items ≡ [] }
{
    Params {
        types: Vec::new(alloc),
    }
}

// Adds what a function takes to the map, unless its name is there already.
fn add_first<'a>(
    functions: &mut BTreeMap<&'a str, Params>,
    word: &'a str,
    params: Params,
) -> Result<(), AllocError>
    ensures { OnOk result ((other : Word) → held functions.new other
        ≡ first_found (held functions.old other) (if same_bytes word.now other then Some params else None)) }
{
    if let Some(first) = functions.insert(word, params)? {
        functions.insert(word, first)?;
    }
    Ok(())
}

// Adds what the DOS calls take to an empty map.
fn add_dos<'a>(alloc: Global, functions: &mut BTreeMap<&'a str, Params>) -> Result<(), AllocError>
    ensures { ((word : Word) → held functions.old word ≡ None) → OnOk result ((word : Word) →
        held_params functions.new word ≡ option_map (λ dos. (dos_signature dos).params) (dos_of word)) }
{
    add_first(functions, "dos_putc", taking(alloc, Base::Uchar)?)?;
    add_first(functions, "dos_getche", taking_none(alloc))?;
    add_first(functions, "dos_getch", taking_none(alloc))?;
    add_first(functions, "dos_puts", taking(alloc, Base::Uint)?)?;
    add_first(functions, "dos_exit", taking(alloc, Base::Uchar)?)?;
    Ok(())
}

// Adds what functions take to the map. The first function with a name counts.
fn add_functions<'a>(
    alloc: Global,
    functions: &mut BTreeMap<&'a str, Params>,
    funcs: &'a [Func],
) -> Result<(), AllocError>
    ensures { OnOk result ((word : Word) → held_params functions.new word ≡ first_found (held_params functions.old word)
        (option_map param_types (function_in (map function_of funcs.now) word))) }
{
    for f in funcs {
        add_first(functions, f.name.as_str(), types_of(alloc, &f.params)?)?;
    }
    Ok(())
}

/// What the DOS calls and the functions of a text take, by their names.
pub fn functions_of(alloc: Global, unit: &Unit) -> Result<BTreeMap<&str, Params>, AllocError>
    ensures { IfOk result (λ functions. KnowsFunctions functions (tree_of unit.now)) }
{
    let mut functions = BTreeMap::new(alloc);
    add_dos(alloc, &mut functions)?;
    add_functions(alloc, &mut functions, &unit.funcs)?;
    Ok(functions)
}
