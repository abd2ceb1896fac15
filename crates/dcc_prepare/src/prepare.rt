//! From a text to a program that is ready to run.

ghost use Rattle.std.specs.Prelude.{◌≡◌, ◌++◌, ℕ, List, [], map, string_bytes, Option, IfOk, OnOk};
ghost use Rattle.dcc_c.specs.Tree.{Word, Function, Tree};
ghost use Rattle.dcc_c.specs.Rules.{declared_global};
ghost use Rattle.dcc_c.specs.Run.{Continuation, runs, ends_function, after_goto, global_binding};
ghost use Rattle.dcc_c.specs.Views.{variable_of, global_of, function_of, tree_of};
ghost use Rattle.dcc_value.specs.Evaluation.{declared_of, bindings_named};
ghost use Rattle.dcc_prepare.specs.Points.{Goes, MayGo, point_named, declared_with, AreRows};
ghost use Rattle.dcc_prepare.specs.Emission.{IsContext, function_names};
ghost use Rattle.dcc_value.specs.Places.{AreFirst};
ghost use Rattle.dcc_prepare.specs.Programs.{none_open, place_in, AreVariables, IsProcedure, IsProgram};
ghost use Rattle.dcc_prepare.specs.Prepared.{IsBody, HasPoints, name_declared, names_declared};

use crate::code::{Code, Context};
use crate::emit::{Following, emit_lines};
use crate::placement::{locals_of, params_of};
use crate::program::{Action, Procedure, Program, Variable};
use dcc_c::{Func, Global_, Unit, Var};
use dcc_value::declarations::Declarations;
use dcc_value::places::add_place;
use dcc_value::variable::{Binding, Declared, Names};
use std::alloc::{AllocError, Global};
use std::collections::BTreeMap;

/// The program of a text.
pub fn prepare(alloc: Global, unit: &Unit) -> Result<Program, AllocError>
    ensures { IfOk result (λ program. (points : ℕ → List Continuation) × IsProgram (tree_of unit.now) points program) }
{
    let globals = declared_globals(alloc, &unit.globals)?;
    let globals = Declarations::new(alloc, &globals)?;
    let functions = function_places(alloc, &unit.funcs)?;
    let mut procedures = Vec::new(alloc);
    for function in &unit.funcs {
        procedures.push(procedure(alloc, &globals, &functions, function)?)?;
    }
    Ok(Program {
        globals: global_bindings(alloc, &unit.globals)?,
        procedures,
    })
}

// The number of the first function with each name.
fn function_places<'a>(
    alloc: Global,
    functions: &'a [Func],
) -> Result<BTreeMap<&'a str, usize>, AllocError>
    ensures { IfOk result (λ places. AreFirst places (map (λ f. string_bytes f.name) functions.now)) }
{
    let mut places = BTreeMap::new(alloc);
    for (i, function) in functions.iter().enumerate() {
        add_place(&mut places, function.name.as_str(), i)?;
    }
    Ok(places)
}

// A function made ready to run.
fn procedure<'g>(
    alloc: Global,
    globals: &Declarations<'g>,
    functions: &BTreeMap<&'g str, usize>,
    function: &Func,
) -> Result<Procedure, AllocError>
    ensures { (tree : Tree) → map declared_of globals.now.list.now ≡ map declared_global tree.globals →
        AreFirst functions.now (function_names tree) →
        IfOk result (HasPoints tree (function_of function.now)) }
{
    let params = params_of(alloc, &function.body, &function.params)?;
    let locals = locals_of(alloc, &function.locals)?;
    let mut names = Vec::new(alloc);
    declare(alloc, &function.params, &params, &mut names)?;
    declare(alloc, &function.locals, &locals, &mut names)?;
    let own = Declarations::new(alloc, &names)?;
    let names = Names {
        locals: &own,
        globals,
    };
    let context = Context {
        alloc,
        names: &names,
        functions,
    };
    let mut code = Code::new(alloc);
    let entry = body(&context, function, &mut code)?;
    let Code { rows, labels, .. } = code;
    Ok(Procedure {
        is_start: function.name.as_str() == "start",
        result: function.result,
        params,
        locals,
        rows,
        labels,
        entry,
    })
}

// Makes the points of a function. The answer is the point where its body begins.
fn body<'a>(
    context: &Context<'_, '_, '_>,
    function: &'a Func,
    code: &mut Code<'a>,
) -> Result<usize, AllocError>
    ensures { (tree : Tree) →
        IsContext context.now tree (function_of function.now) →
        code.old.rows.items ≡ [] →
        code.old.labels.items ≡ [] →
        IfOk result (IsBody tree (function_of function.now) code.new) }
{
    let close = code.push(function.last, Action::Close)?;
    let following = Following {
        next: close,
        on_break: None,
        on_continue: None,
    };
    emit_lines(context, &function.body, following, code)
}

// Adds the names of variables to the list.
fn declare(
    alloc: Global,
    declared: &[Var],
    variables: &[Variable],
    names: &mut Vec<Declared>,
) -> Result<(), AllocError>
    ensures { OnOk result (map declared_of names.new.items
        ≡ map declared_of names.old.items ++ names_declared declared.now variables.now) }
{
    for i in 0..declared.len().min(variables.len()) {
        let name = declared_name(alloc, &declared[i], variables[i])?;
        names.push(name)?;
    }
    Ok(())
}

// The names of the global variables.
fn declared_globals(alloc: Global, globals: &[Global_]) -> Result<Vec<Declared>, AllocError>
    ensures { IfOk result (λ names. map declared_of names.items ≡ map declared_global (map global_of globals.now)) }
{
    let mut names = Vec::new(alloc);
    for global in globals {
        names.push(Declared {
            name: String::from_str(alloc, global.name.as_str())?,
            ty: global.ty,
            is_array: global.len.is_some(),
            is_placed: true,
        })?;
    }
    Ok(names)
}

// The global variables.
fn global_bindings(alloc: Global, globals: &[Global_]) -> Result<Vec<Binding>, AllocError>
    ensures { IfOk result (λ bindings. bindings_named (map declared_global (map global_of globals.now)) bindings.items
        ≡ map global_binding (map global_of globals.now)) }
{
    let mut bindings = Vec::new(alloc);
    for global in globals {
        bindings.push(Binding {
            ty: global.ty,
            is_array: global.len.is_some(),
            is_placed: true,
            bits: global.at,
        })?;
    }
    Ok(bindings)
}

// The name of a variable.
fn declared_name(alloc: Global, declared: &Var, variable: Variable) -> Result<Declared, AllocError>
    ensures { IfOk result (λ d. declared_of d ≡ name_declared declared.now variable) }
{
    Ok(Declared {
        name: String::from_str(alloc, declared.name.as_str())?,
        ty: variable.ty,
        is_array: variable.is_array,
        is_placed: variable.offset.is_some(),
    })
}
