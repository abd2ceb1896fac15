//! From what has been read of declarations and of a whole text to the unit of the text.

ghost use Rattle.std.specs.Prelude.{◌≡◌, ◌≤◌, ℕ, [], true, IfOk, map};
ghost use Rattle.std.specs.Option.{option_map};
ghost use Rattle.std.specs.List.{list_all};
ghost use Rattle.dcc_c.specs.Complete.{is_complete_text};
ghost use Rattle.dcc_c.specs.Offences.{BodyContext, lines_offences};
ghost use Rattle.dcc_c.specs.Stripped as stripped;
ghost use Rattle.dcc_c.specs.TextOffences.{Whole, stack_offences, functions_offences, text_offences};
ghost use Rattle.dcc_c.specs.Views as tree;
ghost use Rattle.dcc_parse.specs.Stripping.{is_in_memory};
ghost use Rattle.dcc_reader.specs.PartialViews as partial;

use crate::strip::{strip_lines, strip_name};
use dcc_c::{Base, CType, Func, Global_, Unit, Var};
use dcc_reader::{NumberAt, PartialFunction, PartialText, PartialVariable};
use std::alloc::{AllocError, Global};

// A type.
fn strip_type(ty: Option<CType>) -> CType
    ensures { result ≡ stripped.plain_type ty }
{
    match ty {
        Some(ty) => ty,
        None => CType {
            base: Base::Int,
            pointer: false,
        },
    }
}

// The number of elements of an array.
fn strip_size(size: Option<NumberAt>) -> Option<u32>
    ensures { result ≡ option_map (λ n. n.value) (option_map partial.number_of size) }
{
    match size {
        Some(size) => Some(size.value),
        None => None,
    }
}

// Initial values.
fn strip_init(alloc: Global, init: &[NumberAt]) -> Result<Vec<u32>, AllocError>
    ensures { IfOk result (λ r. r.items ≡ stripped.plain_numbers (map partial.number_of init.now)) }
{
    let mut found = Vec::with_capacity(alloc, init.len())?;
    for n in init {
        found.push(n.value)?;
    }
    Ok(found)
}

// A parameter or a local variable.
fn strip_variable(alloc: Global, v: PartialVariable) -> Result<Var, AllocError>
    ensures { IfOk result (λ r. tree.variable_of r ≡ stripped.plain_variable (partial.variable_of v.entry)) }
{
    Ok(Var {
        name: strip_name(alloc, v.name)?,
        ty: strip_type(v.ty),
        len: strip_size(v.size),
        class: v.class,
    })
}

// Parameters or local variables.
fn strip_variables(alloc: Global, vs: Vec<PartialVariable>) -> Result<Vec<Var>, AllocError>
    ensures { IfOk result (λ r.
        map tree.variable_of r.items ≡ map stripped.plain_variable (map partial.variable_of vs.entry.items)) }
{
    let mut found = Vec::with_capacity(alloc, vs.len())?;
    for v in vs {
        found.push(strip_variable(alloc, v)?)?;
    }
    Ok(found)
}

// The address of a global variable in memory.
fn strip_address(address: u64) -> u32
    ensures { address ≤ 65536 → result ≡ address }
{
    u32::try_from(address).unwrap_or(0)
}

// A global variable, which stands in memory.
fn strip_global(alloc: Global, v: PartialVariable) -> Result<Global_, AllocError>
    ensures { v.entry.address ≤ 65536 →
        IfOk result (λ r. tree.global_of r ≡ stripped.plain_global (partial.variable_of v.entry)) }
{
    let init = strip_init(alloc, &v.init)?;
    Ok(Global_ {
        name: strip_name(alloc, v.name)?,
        at: strip_address(v.address),
        ty: strip_type(v.ty),
        len: strip_size(v.size),
        init,
    })
}

// Global variables.
fn strip_globals(alloc: Global, vs: Vec<PartialVariable>) -> Result<Vec<Global_>, AllocError>
    ensures { list_all is_in_memory (map partial.variable_of vs.entry.items) ≡ true → IfOk result (λ r.
        map tree.global_of r.items ≡ map stripped.plain_global (map partial.variable_of vs.entry.items)) }
{
    let mut found = Vec::with_capacity(alloc, vs.len())?;
    for v in vs {
        found.push(strip_global(alloc, v)?)?;
    }
    Ok(found)
}

// A function.
fn strip_function(alloc: Global, f: PartialFunction) -> Result<Func, AllocError>
    ensures { (scene : BodyContext) → lines_offences scene 0 (partial.lines_of f.entry.body.items) ≡ [] →
        IfOk result (λ r. tree.function_of r ≡ stripped.plain_function (partial.function_of f.entry)) }
{
    Ok(Func {
        name: strip_name(alloc, f.name)?,
        result: f.result,
        params: strip_variables(alloc, f.params)?,
        locals: strip_variables(alloc, f.locals)?,
        body: strip_lines(alloc, f.body)?,
        last: f.last,
    })
}

// Functions.
fn strip_functions(alloc: Global, functions: Vec<PartialFunction>) -> Result<Vec<Func>, AllocError>
    ensures { (whole : Whole) → functions_offences whole (map partial.function_of functions.entry.items) ≡ [] →
        IfOk result (λ r. map tree.function_of r.items
        ≡ map stripped.plain_function (map partial.function_of functions.entry.items)) }
{
    let mut found = Vec::with_capacity(alloc, functions.len())?;
    for f in functions {
        found.push(strip_function(alloc, f)?)?;
    }
    Ok(found)
}

// A number of the stack line, which is an offset.
fn strip_offset(number: Option<NumberAt>) -> u16
    ensures { stack_offences (option_map partial.number_of number) ≡ [] →
        result ≡ stripped.plain_number (option_map partial.number_of number) }
{
    match number {
        Some(number) => u16::try_from(number.value).unwrap_or(0),
        None => 0,
    }
}

/// A whole text in which nothing offends. Each part of what has been read is freed as its own form is made.
pub(crate) fn strip(alloc: Global, text: PartialText) -> Result<Unit, AllocError>
    ensures { is_complete_text (partial.text_of text.entry) ≡ true →
        text_offences (partial.text_of text.entry) [] ≡ [] →
        IfOk result (λ unit. tree.tree_of unit ≡ stripped.plain_text (partial.text_of text.entry)) }
{
    Ok(Unit {
        version: 1,
        lo: strip_offset(text.lo),
        hi: strip_offset(text.hi),
        globals: strip_globals(alloc, text.globals)?,
        funcs: strip_functions(alloc, text.functions)?,
    })
}
