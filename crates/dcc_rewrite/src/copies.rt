//! Copies of what a text is made of.

ghost use Rattle.std.specs.Prelude.{◌≡◌, IfOk, map};
ghost use Rattle.dcc_c.specs.Views.{expr_of, variable_of, global_of};

use dcc_c::{CExpr, Global_, Var};
use std::alloc::{AllocError, Global};

/// A copy of the expression. Want of memory is the only error.
pub fn copied(alloc: Global, e: &CExpr) -> Result<CExpr, AllocError>
    ensures { IfOk result (λ copy. expr_of copy ≡ expr_of e.now) }
{
    match e {
        CExpr::Num(n, base) => Ok(CExpr::Num(*n, *base)),
        CExpr::Name(word) => Ok(CExpr::Name(word.clone()?)),
        CExpr::Un(operator, a) => Ok(CExpr::Un(*operator, Box::new(alloc, copied(alloc, a)?)?)),
        CExpr::Bin(operator, a, b) => {
            let a = Box::new(alloc, copied(alloc, a)?)?;
            let b = Box::new(alloc, copied(alloc, b)?)?;
            Ok(CExpr::Bin(*operator, a, b))
        }
        CExpr::Cond(test, a, b) => {
            let test = Box::new(alloc, copied(alloc, test)?)?;
            let a = Box::new(alloc, copied(alloc, a)?)?;
            let b = Box::new(alloc, copied(alloc, b)?)?;
            Ok(CExpr::Cond(test, a, b))
        }
        CExpr::Cast(ty, a) => Ok(CExpr::Cast(*ty, Box::new(alloc, copied(alloc, a)?)?)),
    }
}

// A copy of a parameter or of a local variable.
fn variable(v: &Var) -> Result<Var, AllocError>
    ensures { IfOk result (λ copy. variable_of copy ≡ variable_of v.now) }
{
    Ok(Var {
        name: v.name.clone()?,
        ty: v.ty,
        len: v.len,
        class: v.class,
    })
}

/// Copies of parameters or of local variables. Want of memory is the only error.
pub fn copied_variables(alloc: Global, vs: &[Var]) -> Result<Vec<Var>, AllocError>
    ensures { IfOk result (λ copies. map variable_of copies.items ≡ map variable_of vs.now) }
{
    let mut copies = Vec::with_capacity(alloc, vs.len())?;
    for v in vs {
        copies.push(variable(v)?)?;
    }
    Ok(copies)
}

// A copy of a global variable.
fn global(g: &Global_) -> Result<Global_, AllocError>
    ensures { IfOk result (λ copy. global_of copy ≡ global_of g.now) }
{
    Ok(Global_ {
        name: g.name.clone()?,
        at: g.at,
        ty: g.ty,
        len: g.len,
        init: g.init.clone()?,
    })
}

/// Copies of global variables. Want of memory is the only error.
pub fn copied_globals(alloc: Global, gs: &[Global_]) -> Result<Vec<Global_>, AllocError>
    ensures { IfOk result (λ copies. map global_of copies.items ≡ map global_of gs.now) }
{
    let mut copies = Vec::with_capacity(alloc, gs.len())?;
    for g in gs {
        copies.push(global(g)?)?;
    }
    Ok(copies)
}
