//! The assignments with which a function's body begins.

ghost use Rattle.std.specs.Prelude.{◌≡◌, ◌+◌, ◌^◌, ◌<◌, ◌++◌, IfOk, OnOk, map};
ghost use Rattle.dcc_ir.specs.Live.{is_among};
ghost use Rattle.dcc_c.specs.Tree as tree;
ghost use Rattle.dcc_c.specs.Views.{expr_of, stmt_of};
ghost use Rattle.dcc_text.specs.Stmts.{place_of};
ghost use Rattle.dcc_variables.specs.Functions as spec;
ghost use Rattle.dcc_variables.specs.Views.{spelling_in};

use crate::head::{Head, parameter_name};
use dcc_c::{CBin, CExpr, CStmt};
use dcc_ir::plain::scene::same_location;
use dcc_ir::{Loc, Put};
use dcc_text::nodes::{binary, small};
use dcc_text::{Spells, Way};
use std::alloc::{AllocError, Global};

// Whether a location is one of those that want an assignment.
fn is_wanted(wanted: &[Loc], location: Loc) -> bool
    ensures { result ≡ is_among wanted.now location }
{
    wanted.iter().any(|other| same_location(location, *other))
}

// The low byte of a parameter.
fn low_byte(alloc: Global, place: usize) -> Result<CExpr, AllocError>
    requires { place + 1 < 2 ^ 64 }
    ensures { IfOk result (λ e. expr_of e ≡ spec.low_byte (tree.Name (spec.parameter_name place))) }
{
    let word = CExpr::Name(parameter_name(alloc, place)?);
    Way::Low.cut_to(alloc, 8, word)
}

// The high byte of a parameter.
fn high_byte(alloc: Global, place: usize) -> Result<CExpr, AllocError>
    requires { place + 1 < 2 ^ 64 }
    ensures { IfOk result (λ e. expr_of e ≡ spec.high_byte (tree.Name (spec.parameter_name place))) }
{
    let word = CExpr::Name(parameter_name(alloc, place)?);
    let moved = binary(alloc, CBin::Shr, word, small(8))?;
    Way::Low.cut_to(alloc, 8, moved)
}

// The assignment by which a location takes the value of an expression.
fn opening(alloc: Global, head: &Head, location: Loc, e: CExpr) -> Result<CStmt, AllocError>
    ensures { IfOk result (λ r. stmt_of r ≡ tree.Assign (place_of (spelling_in head.now) location) (expr_of e)) }
{
    Ok(CStmt::Assign(CExpr::Name(head.name(alloc, location)?), e))
}

// Appends the assignments of a param's bytes that are wanted.
fn push_openings(
    alloc: Global,
    head: &Head,
    wanted: &[Loc],
    list: &mut Vec<CStmt>,
    place: usize,
    put: Put,
) -> Result<(), AllocError>
    requires { place + 1 < 2 ^ 64 }
    ensures { OnOk result (map stmt_of list.new.items ≡ map stmt_of list.old.items
        ++ spec.put_openings (spelling_in head.now) (is_among wanted.now) (spec.parameter_name place) put) }
{
    if let Put::Two(low, high) = put {
        if is_wanted(wanted, low) {
            list.push(opening(alloc, head, low, low_byte(alloc, place)?)?)?;
        }
        if is_wanted(wanted, high) {
            list.push(opening(alloc, head, high, high_byte(alloc, place)?)?)?;
        }
    }
    Ok(())
}

/// The assignments that open the body of a graph's function: the bytes of argument words go to those of their
/// locations that are wanted. Want of memory is the only error.
pub fn openings(alloc: Global, head: &Head, wanted: &[Loc]) -> Result<Vec<CStmt>, AllocError>
    ensures { IfOk result (λ list. map stmt_of list.items
        ≡ spec.openings_from (spelling_in head.now) (is_among wanted.now) 0 head.now.params.items) }
{
    let mut list = Vec::new(alloc);
    for (place, p) in head.params.iter().enumerate() {
        push_openings(alloc, head, wanted, &mut list, place, p.put)?;
    }
    Ok(list)
}
