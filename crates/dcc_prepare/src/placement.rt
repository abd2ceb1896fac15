//! Where the parameters and the local variables of a function stand.

ghost use Rattle.std.specs.Prelude.{◌≡◌, ◌%◌, ◌*◌, ℕ, ◌||◌, map, is_some, false, IfOk};
ghost use Rattle.dcc_c.specs.Tree.{Lines};
ghost use Rattle.dcc_c.specs.Placement.{is_auto, is_register, wants_place, bytes_of, param_places, local_places};
ghost use Rattle.dcc_c.specs.Views.{lines_of, variable_of};
ghost use Rattle.dcc_value.specs.Places.{AreFirst};
ghost use Rattle.dcc_prepare.specs.Programs.{AreVariables};
ghost use Rattle.dcc_prepare.specs.Placing.{IsNextParam};
ghost use Rattle.dcc_prepare.specs.Taken.{lines_taken};

use crate::program::Variable;
use crate::taken::names_taken;
use dcc_c::{Class, Line, Var};
use dcc_value::places::place_of;
use std::alloc::{AllocError, Global};
use std::collections::BTreeMap;

/// The parameters of a function with this body. A stack argument is in memory where it, or one before it, has to be.
pub fn params_of(alloc: Global, body: &[Line], params: &[Var]) -> Result<Vec<Variable>, AllocError>
    ensures { IfOk result (λ variables. AreVariables (map variable_of params.now)
        (λ base. param_places (lines_of body.now) base 0 false (map variable_of params.now)) variables.items) }
{
    let mut variables = Vec::new(alloc);
    let mut offset = 0u16;
    let mut placed = false;
    let taken = names_taken(alloc, body)?;
    for param in params {
        let next = param_of(&taken, param, placed, offset);
        variables.push(next.variable)?;
        placed = next.placed;
        offset = next.offset;
    }
    Ok(variables)
}

/// A parameter, and what is then known of those after it: whether they are in memory, and where the next stack
/// argument stands.
#[derive(Clone, Copy)]
struct NextParam {
    variable: Variable,
    placed: bool,
    offset: u16,
}

// The parameter at this place.
fn param_of(taken: &BTreeMap<&str, usize>, param: &Var, placed: bool, offset: u16) -> NextParam
    ensures { (body : Lines) (number : ℕ) → AreFirst taken.now (lines_taken body) → offset ≡ (2 * number) % 65536 →
        IsNextParam body (variable_of param.now) placed number result }
{
    if is_register(param.class) {
        return NextParam {
            variable: variable(param, None),
            placed,
            offset,
        };
    }
    if needs_place(taken, param, placed) {
        return NextParam {
            variable: variable(param, Some(offset)),
            placed: true,
            offset: offset.wrapping_add(2),
        };
    }
    NextParam {
        variable: variable(param, None),
        placed: false,
        offset: offset.wrapping_add(2),
    }
}

// Whether the parameter is no stack argument.
fn is_register(class: Class) -> bool
    ensures { result ≡ is_register class }
{
    class == Class::Register
}

// Whether a variable of this class is in memory in any case.
fn is_auto(class: Class) -> bool
    ensures { result ≡ is_auto class }
{
    class == Class::Auto
}

// Whether the parameter, after others of which one may have its place, is in memory.
fn needs_place(taken: &BTreeMap<&str, usize>, param: &Var, placed: bool) -> bool
    ensures { (body : Lines) → AreFirst taken.now (lines_taken body) →
        result ≡ (placed || wants_place body (variable_of param.now)) }
{
    placed || (is_auto(param.class) || place_of(taken, param.name.as_str()).is_some())
}

/// The local variables of a function: `auto` ones stand below the base and four bytes, each below the one before.
pub fn locals_of(alloc: Global, locals: &[Var]) -> Result<Vec<Variable>, AllocError>
    ensures { IfOk result (λ variables. AreVariables (map variable_of locals.now)
        (λ base. local_places base 4 (map variable_of locals.now)) variables.items) }
{
    let mut variables = Vec::new(alloc);
    let mut used = 4u16;
    for local in locals {
        if is_auto(local.class) {
            used = used.wrapping_add(bytes_of(local));
            variables.push(variable(local, Some(0u16.wrapping_sub(used))))?;
        } else {
            variables.push(variable(local, None))?;
        }
    }
    Ok(variables)
}

// How many bytes the variable takes, modulo 65536.
fn bytes_of(variable: &Var) -> u16
    ensures { result ≡ bytes_of variable.now.ty variable.now.len % 65536 }
{
    let elements = variable.len.unwrap_or(1);
    (u64::from(variable.ty.size()) * u64::from(elements) % 0x1_0000) as u16
}

// A variable at a number of bytes above the base, if it is in memory.
fn variable(declared: &Var, offset: Option<u16>) -> Variable
    ensures kind { result.ty ≡ declared.now.ty }
    ensures array { result.is_array ≡ is_some declared.now.len }
    ensures offset { result.offset ≡ offset }
{
    Variable {
        ty: declared.ty,
        is_array: declared.len.is_some(),
        offset,
    }
}
