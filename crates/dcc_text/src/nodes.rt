//! Nodes of the trees of a text.

ghost use Rattle.std.specs.Prelude.{◌≡◌, IfOk};
ghost use Rattle.dcc_c.specs.Types.{plain};
ghost use Rattle.dcc_c.specs.Tree as tree;
ghost use Rattle.dcc_c.specs.Views.{expr_of};
ghost use Rattle.dcc_text.specs.Spelled as spec;

use dcc_c::{Base, CBin, CExpr, CType, CUn};
use std::alloc::{AllocError, Global};

/// A small number, as a bit or a count.
pub fn small(n: u32) -> CExpr
    ensures { expr_of result ≡ spec.small n }
{
    CExpr::Num(n, Base::Int)
}

/// An operator on one operand.
pub fn unary(alloc: Global, operator: CUn, a: CExpr) -> Result<CExpr, AllocError>
    ensures { IfOk result (λ r. expr_of r ≡ tree.Unary operator (expr_of a)) }
{
    Ok(CExpr::Un(operator, Box::new(alloc, a)?))
}

/// An operator on two operands.
pub fn binary(alloc: Global, operator: CBin, a: CExpr, b: CExpr) -> Result<CExpr, AllocError>
    ensures { IfOk result (λ r. expr_of r ≡ tree.Binary operator (expr_of a) (expr_of b)) }
{
    let a = Box::new(alloc, a)?;
    let b = Box::new(alloc, b)?;
    Ok(CExpr::Bin(operator, a, b))
}

/// The first expression where the test is not 0, else the second.
pub(crate) fn conditional(
    alloc: Global,
    test: CExpr,
    a: CExpr,
    b: CExpr,
) -> Result<CExpr, AllocError>
    ensures { IfOk result (λ r. expr_of r ≡ tree.Conditional (expr_of test) (expr_of a) (expr_of b)) }
{
    let test = Box::new(alloc, test)?;
    let a = Box::new(alloc, a)?;
    let b = Box::new(alloc, b)?;
    Ok(CExpr::Cond(test, a, b))
}

/// A value as one of a type.
pub(crate) fn cast_to(alloc: Global, ty: CType, e: CExpr) -> Result<CExpr, AllocError>
    ensures { IfOk result (λ r. expr_of r ≡ tree.Cast ty (expr_of e)) }
{
    Ok(CExpr::Cast(ty, Box::new(alloc, e)?))
}

/// A value as one of a number type.
pub(crate) fn cast(alloc: Global, base: Base, e: CExpr) -> Result<CExpr, AllocError>
    ensures { IfOk result (λ r. expr_of r ≡ tree.Cast (plain base) (expr_of e)) }
{
    cast_to(alloc, CType::plain(base), e)
}
