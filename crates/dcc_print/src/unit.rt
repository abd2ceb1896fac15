//! A whole text in its written form.

ghost use Rattle.std.specs.Prelude.{◌≡◌, ◌≤◌, ◌++◌, OnOk, IfOk, IsErrOf, map, string_bytes};
ghost use Rattle.std.specs.List.{flat_map};
ghost use Rattle.dcc_c.specs.Written.{written_local, written_function, written_functions, written_form};
ghost use Rattle.dcc_c.specs.Views.{variable_of, function_of, tree_of};
ghost use Rattle.dcc_io.specs.Count.{Rose};
ghost use Rattle.dcc_io.specs.Told.{append_told, AppendsProperPrefix};

use crate::block::push_lines;
use crate::declaration::{push_globals, push_head, push_local, push_params};
use dcc_c::{Func, Unit, Var};
use dcc_io::{Failed, Sink, put_all};
use std::alloc::{AllocError, Global};

// The depth of calls that is in force where a function begins, in bytes.
const FIRST_DEPTH: u32 = 2;

/// Why a text was not written.
#[derive(Clone, Copy, PartialEq, Eq, Debug)]
pub enum PrintFault {
    /// A write failed.
    Failed,
    /// Memory ran out.
    Memory,
}

impl From<AllocError> for PrintFault {
    ghost use Rattle.dcc_print.specs.declared.unit.PrintFault.TheVariants.{Memory};

    ghost from_gives = { λ _ fault. fault ≡ Memory };

    fn from(_error: AllocError) -> PrintFault {
        PrintFault::Memory
    }
}

impl From<Failed> for PrintFault {
    ghost use Rattle.dcc_print.specs.declared.unit.PrintFault.TheVariants as fault;

    ghost from_gives = { λ _ given. given ≡ fault.Failed };

    fn from(_error: Failed) -> PrintFault {
        PrintFault::Failed
    }
}

// Appends the declarations of local variables.
fn push_locals(text: &mut String, locals: &[Var]) -> Result<(), AllocError>
    ensures { OnOk result (string_bytes text.new
        ≡ string_bytes text.old ++ flat_map written_local (map variable_of locals.now)) }
{
    for v in locals {
        push_local(text, v)?;
    }
    Ok(())
}

// Appends a function.
fn push_function(text: &mut String, function: &Func) -> Result<(), AllocError>
    ensures { OnOk result (string_bytes text.new
        ≡ string_bytes text.old ++ written_function (function_of function.now)) }
{
    push_head(text, function.result, function.name.as_str())?;
    text.push_str("(")?;
    push_params(text, &function.params)?;
    text.push_str(")\n{\n")?;
    push_locals(text, &function.locals)?;
    push_lines(text, 1, FIRST_DEPTH, &function.body)?;
    text.push_str("}\n")
}

// Appends functions.
fn push_functions(text: &mut String, functions: &[Func]) -> Result<(), AllocError>
    ensures { OnOk result (string_bytes text.new
        ≡ string_bytes text.old ++ written_functions (map function_of functions.now)) }
{
    for function in functions {
        push_function(text, function)?;
    }
    Ok(())
}

// The written form of the unit.
fn unit_text(alloc: Global, unit: &Unit) -> Result<String, AllocError>
    ensures { IfOk result (λ text. string_bytes text ≡ written_form (tree_of unit.now)) }
{
    let mut text = String::new(alloc);
    let (lo, hi) = (unit.lo, unit.hi);
    write!(text, "#pragma dcc text 1\n#pragma dcc stack {lo} {hi}\n")?;
    push_globals(&mut text, &unit.globals)?;
    push_functions(&mut text, &unit.funcs)?;
    Ok(text)
}

/// Writes the written form of the unit. Where a write fails, a part of it was written, and not all;
/// where memory ran out, nothing was.
pub fn print<O: Sink>(alloc: Global, sink: &mut O, unit: &Unit) -> Result<(), PrintFault>
    ensures whole { OnOk result (O.taken sink.new ≡ append_told (O.taken sink.old) (written_form (tree_of unit.now))) }
    ensures part { IsErrOf result PrintFault.Failed →
        AppendsProperPrefix (O.taken sink.old) (O.taken sink.new) (written_form (tree_of unit.now)) }
    ensures memory { IsErrOf result PrintFault.Memory → sink.new ≡ sink.old }

    // The count never falls, and a failed write is told only where it rose.
    ensures faults { O.faults sink.old ≤ O.faults sink.new }
    ensures failed { IsErrOf result PrintFault.Failed → Rose (O.faults sink.old) (O.faults sink.new) }
{
    let text = unit_text(alloc, unit)?;
    put_all(sink, text.as_bytes())?;
    Ok(())
}
