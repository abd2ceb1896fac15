//! What is known in the body of a function, and how it is found among declarations.

ghost use Rattle.std.specs.Prelude.{◌≡◌, Some, None, IfOk, OnOk, option_map, map, if◌then◌else◌};
ghost use Rattle.dcc_c.specs.Grammar.{is_among};
ghost use Rattle.dcc_c.specs.Known as known;
ghost use Rattle.dcc_c.specs.Known.{known_as, known_dos, known_functions, type_list};
ghost use Rattle.dcc_c.specs.Offences as offences;
ghost use Rattle.dcc_c.specs.Partial as partial;
ghost use Rattle.dcc_c.specs.TextOffences.{declared_of};
ghost use Rattle.dcc_c.specs.Token.{same_bytes};
ghost use Rattle.dcc_c.specs.Tree.{Word};
ghost use Rattle.dcc_c.specs.Typing.{declared_as};
ghost use Rattle.dcc_ctypes.specs.NameViews.{unnamed};
ghost use Rattle.dcc_reader.specs.PartialViews.{variable_of, function_of};
ghost use Rattle.dcc_check.specs.Declarations.{placed_in, first_found, held_head, taking, giving};
ghost use Rattle.dcc_check.specs.Contexts.{held, head_of, lent_head, signature_of, IsContext};

use dcc_c::{Base, CType, Class};
use dcc_ctypes::Declared;
use dcc_reader::{PartialFunction, PartialVariable};
use std::alloc::{AllocError, Global};
use std::collections::{BTreeMap, BTreeSet};

/// The result of a function and the types of its parameters.
#[derive(Drop)]
pub struct Signature {
    /// The type of the result, where there is one.
    pub result: Option<CType>,
    /// The types of the parameters.
    pub params: Vec<CType>,
}

/// What is known in the body of a function.
#[derive(Clone, Copy)]
pub struct BodyContext<'s, 'n> {
    /// The parameters and the local variables.
    pub locals: &'s BTreeMap<&'n str, Declared>,
    /// The global variables.
    pub globals: &'s BTreeMap<&'n str, Declared>,
    /// The functions, with their signatures where their heads could be read.
    pub functions: &'s BTreeMap<&'n str, Option<Signature>>,
    /// The labels of the function.
    pub labels: &'s BTreeSet<&'n str>,
    /// Whether the result of the function is a type.
    pub has_result: bool,
    /// The type of the result, if it has one.
    pub result: Option<CType>,
}

impl BodyContext<'_, '_> {
    /// What the name of a variable is declared as.
    pub fn variable(&self, word: &str) -> Option<Declared>
        ensures { (s : offences.BodyContext) → IsContext self.now s →
            result ≡ option_map unnamed (declared_as s.names word.now) }
    {
        match self.locals.get(word) {
            Some(declared) => Some(*declared),
            None => self.globals.get(word).copied(),
        }
    }

    /// The function with the name, with its signature where its head could be read.
    pub fn function(&self, word: &str) -> Option<&Option<Signature>>
        ensures { (s : offences.BodyContext) → IsContext self.now s →
            option_map lent_head result ≡ option_map head_of (known_as s.functions word.now) }
    {
        self.functions.get(word)
    }

    /// Whether the function has the label.
    pub fn has_label(&self, word: &str) -> bool
        ensures { (s : offences.BodyContext) → IsContext self.now s → result ≡ is_among s.labels word.now }
    {
        self.labels.contains(word)
    }
}

/// Where variables are declared.
#[derive(Clone, Copy, PartialEq, Eq, Debug)]
pub enum Scope {
    /// The variables are declared outside functions.
    Text,
    /// The variables are declared in the head of a function.
    Head,
    /// The variables are declared in the body of a function.
    Body,
}

// Whether a variable has an address.
fn is_placed(scope: Scope, class: Class) -> bool
    ensures { (v : partial.PartialVariable) → v.class ≡ class → result ≡ placed_in scope v }
{
    match scope {
        Scope::Text => true,
        Scope::Head => !matches!(class, Class::Register),
        Scope::Body => matches!(class, Class::Auto),
    }
}

// Adds a value to the map, unless the word has one already.
fn add_first<'a, V: Drop>(
    declared: &mut BTreeMap<&'a str, V>,
    word: &'a str,
    value: V,
) -> Result<(), AllocError>
    ensures { OnOk result ((other : Word) → held declared.new other
        ≡ first_found (held declared.old other) (if same_bytes word.now other then Some value else None)) }
{
    // Few words have a value already, so that the map is searched once for each.
    if let Some(first) = declared.insert(word, value)? {
        declared.insert(word, first)?;
    }
    Ok(())
}

/// Adds what variables are declared as to the map. The first declaration of a name counts.
pub fn declare<'a>(
    declared: &mut BTreeMap<&'a str, Declared>,
    scope: Scope,
    variables: &[PartialVariable<'a>],
) -> Result<(), AllocError>
    ensures { OnOk result ((word : Word) → held declared.new word ≡ first_found (held declared.old word)
        (option_map unnamed (declared_as (declared_of (placed_in scope) (map variable_of variables.now)) word))) }
{
    for variable in variables {
        if let Some(name) = &variable.name {
            if let Some(ty) = variable.ty {
                let variable = Declared {
                    ty,
                    is_array: variable.size.is_some(),
                    is_placed: is_placed(scope, variable.class),
                };
                add_first(declared, name.word, variable)?;
            }
        }
    }
    Ok(())
}

// The types of parameters, as far as they have been read.
fn param_types(alloc: Global, params: &[PartialVariable]) -> Result<Vec<CType>, AllocError>
    ensures { IfOk result (λ types. types.items ≡ type_list (map variable_of params.now)) }
{
    let mut types = Vec::new(alloc);
    for param in params {
        if let Some(ty) = param.ty {
            types.push(ty)?;
        }
    }
    Ok(types)
}

// The result and the parameters of a function whose head has been read.
fn head_signature(
    alloc: Global,
    function: &PartialFunction,
) -> Result<Option<Signature>, AllocError>
    ensures { IfOk result (λ head. option_map signature_of head ≡ known.signature_of (function_of function.now)) }
{
    if !function.headed {
        return Ok(None);
    }
    let params = param_types(alloc, &function.params)?;
    Ok(Some(Signature {
        result: function.result,
        params,
    }))
}

/// Adds functions to the map whose opening parentheses have been read. The first function with a name counts.
pub(crate) fn add_functions<'a>(
    alloc: Global,
    declared: &mut BTreeMap<&'a str, Option<Signature>>,
    functions: &[PartialFunction<'a>],
) -> Result<(), AllocError>
    ensures { OnOk result ((word : Word) → held_head declared.new word ≡ first_found (held_head declared.old word)
        (option_map head_of (known_as (known_functions (map function_of functions.now)) word))) }
{
    for function in functions {
        if function.opened.is_some() {
            if let Some(name) = &function.name {
                let head = head_signature(alloc, function)?;
                add_first(declared, name.word, head)?;
            }
        }
    }
    Ok(())
}

// The signature of a DOS call that takes a number.
fn takes(alloc: Global, base: Base) -> Result<Option<Signature>, AllocError>
    ensures { IfOk result (λ head. option_map signature_of head ≡ Some (taking base)) }
{
    let mut params = Vec::new(alloc);
    params.push(CType::plain(base))?;
    Ok(Some(Signature {
        result: None,
        params,
    }))
}

// The signature of a DOS call that gives a number.
fn gives(alloc: Global, base: Base) -> Result<Option<Signature>, AllocError>
    ensures { IfOk result (λ head. option_map signature_of head ≡ Some (giving base)) }
{
    let params = Vec::new(alloc);
    Ok(Some(Signature {
        result: Some(CType::plain(base)),
        params,
    }))
}

/// Adds the DOS calls to the map.
pub fn add_dos<'a>(
    alloc: Global,
    declared: &mut BTreeMap<&'a str, Option<Signature>>,
) -> Result<(), AllocError>
    ensures { OnOk result ((word : Word) → held_head declared.new word ≡ first_found (held_head declared.old word)
        (option_map head_of (known_as known_dos word))) }
{
    add_first(declared, "dos_putc", takes(alloc, Base::Uchar)?)?;
    add_first(declared, "dos_getche", gives(alloc, Base::Uchar)?)?;
    add_first(declared, "dos_getch", gives(alloc, Base::Uchar)?)?;
    add_first(declared, "dos_puts", takes(alloc, Base::Uint)?)?;
    add_first(declared, "dos_exit", takes(alloc, Base::Uchar)?)?;
    Ok(())
}
