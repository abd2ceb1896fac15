//! Declarations in their written form.

ghost use Rattle.std.specs.Prelude.{◌≡◌, ◌++◌, ◌≤◌, OnOk, map, option_map, string_bytes};
ghost use Rattle.dcc_c.specs.Placement.{after_global};
ghost use Rattle.dcc_c.specs.Written.{written_variable, written_size, written_class, written_local, written_param};
ghost use Rattle.dcc_c.specs.Written.{written_head_params, written_head, written_numbers, written_initial};
ghost use Rattle.dcc_c.specs.Written.{written_global, written_place, written_globals};
ghost use Rattle.dcc_c.specs.Views.{global_of, variable_of};

use crate::expression::base_words;
use dcc_c::{CType, Class, Global_, Var};
use std::alloc::AllocError;

// Appends a type and the name that has it.
fn push_variable(text: &mut String, ty: CType, name: &str) -> Result<(), AllocError>
    ensures { OnOk result (string_bytes text.new ≡ string_bytes text.old ++ written_variable ty name.now) }
{
    text.push_str(base_words(ty.base))?;
    text.push_str(if ty.pointer { " *" } else { " " })?;
    text.push_str(name)
}

// Appends the number of elements of an array.
fn push_size(text: &mut String, len: Option<u32>) -> Result<(), AllocError>
    ensures { OnOk result (string_bytes text.new ≡ string_bytes text.old ++ written_size len) }
{
    match len {
        None => Ok(()),
        Some(len) => write!(text, "[{len}]"),
    }
}

// The word of a class.
fn class_word(class: Class) -> &'static str
    ensures { result.now ≡ written_class class }
{
    match class {
        Class::Plain => "",
        Class::Auto => "auto ",
        Class::Register => "register ",
    }
}

/// Appends the declaration of a local variable.
pub(crate) fn push_local(text: &mut String, v: &Var) -> Result<(), AllocError>
    ensures { OnOk result (string_bytes text.new ≡ string_bytes text.old ++ written_local (variable_of v.now)) }
{
    text.push_str("    ")?;
    text.push_str(class_word(v.class))?;
    push_variable(text, v.ty, v.name.as_str())?;
    push_size(text, v.len)?;
    text.push_str(";\n")
}

// Appends a parameter.
fn push_param(text: &mut String, v: &Var) -> Result<(), AllocError>
    ensures { OnOk result (string_bytes text.new ≡ string_bytes text.old ++ written_param (variable_of v.now)) }
{
    text.push_str(class_word(v.class))?;
    push_variable(text, v.ty, v.name.as_str())
}

/// Appends the parameters in a function's head.
pub(crate) fn push_params(text: &mut String, params: &[Var]) -> Result<(), AllocError>
    ensures { OnOk result
        (string_bytes text.new ≡ string_bytes text.old ++ written_head_params (map variable_of params.now)) }
{
    match params {
        [] => text.push_str("void"),
        [first, others @ ..] => {
            push_param(text, first)?;
            for v in others {
                text.push_str(", ")?;
                push_param(text, v)?;
            }
            Ok(())
        }
    }
}

/// Appends the result and the name in a function's head.
pub(crate) fn push_head(text: &mut String, ty: Option<CType>, name: &str) -> Result<(), AllocError>
    ensures { OnOk result (string_bytes text.new ≡ string_bytes text.old ++ written_head ty name.now) }
{
    match ty {
        None => {
            text.push_str("void ")?;
            text.push_str(name)
        }
        Some(ty) => push_variable(text, ty, name),
    }
}

// Appends numbers with a comma and a space between them.
fn push_numbers(text: &mut String, numbers: &[u32]) -> Result<(), AllocError>
    ensures { OnOk result (string_bytes text.new ≡ string_bytes text.old ++ written_numbers numbers.now) }
{
    match numbers {
        [] => Ok(()),
        [first, others @ ..] => {
            write!(text, "{first}")?;
            for n in others {
                write!(text, ", {n}")?;
            }
            Ok(())
        }
    }
}

// Appends initial values, where there are any.
fn push_initial(text: &mut String, len: Option<u32>, init: &[u32]) -> Result<(), AllocError>
    ensures { OnOk result (string_bytes text.new ≡ string_bytes text.old ++ written_initial len init.now) }
{
    if init.is_empty() {
        return Ok(());
    }
    match len {
        None => {
            text.push_str(" = ")?;
            push_numbers(text, init)
        }
        Some(_) => {
            text.push_str(" = {")?;
            push_numbers(text, init)?;
            text.push_str("}")
        }
    }
}

// Appends the declaration of a global variable.
fn push_global(text: &mut String, global: &Global_) -> Result<(), AllocError>
    ensures { OnOk result (string_bytes text.new ≡ string_bytes text.old ++ written_global (global_of global.now)) }
{
    push_variable(text, global.ty, global.name.as_str())?;
    push_size(text, global.len)?;
    push_initial(text, global.len, &global.init)?;
    text.push_str(";\n")
}

// The address after a global variable.
fn address_after(global: &Global_) -> u64
    ensures { result ≡ after_global (global_of global.now) }
{
    let size = u64::from(global.ty.size());
    let bytes = match global.len {
        None => size,
        Some(len) => size * u64::from(len),
    };
    u64::from(global.at) + bytes
}

// Appends the line with the address of a global variable, where the one before does not end there.
fn push_place(text: &mut String, end: Option<u64>, at: u32) -> Result<(), AllocError>
    ensures { OnOk result (string_bytes text.new ≡ string_bytes text.old ++ written_place end at) }
{
    if end == Some(u64::from(at)) {
        return Ok(());
    }
    write!(text, "#pragma dcc at {at}\n")
}

/// Appends the global variables.
pub(crate) fn push_globals(text: &mut String, globals: &[Global_]) -> Result<(), AllocError>
    ensures { OnOk result
        (string_bytes text.new ≡ string_bytes text.old ++ written_globals None (map global_of globals.now)) }
{
    let mut end = None;
    for global in globals {
        push_place(text, end, global.at)?;
        push_global(text, global)?;
        end = Some(address_after(global));
    }
    Ok(())
}
