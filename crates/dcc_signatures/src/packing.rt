//! How some locations are given back as one value.

ghost use Rattle.std.specs.Prelude.{◌≡◌, ◌++◌, IfOk, OnOk, map};
ghost use Rattle.dcc_ir.specs.Views.{expr_of, stmt_of};
ghost use Rattle.dcc_ir.specs.Live.{is_among};
ghost use Rattle.dcc_signatures.specs.Packed as spec;

use dcc_ir::plain::scene::same_location;
use dcc_ir::{Expr, Loc, Stmt};
use dcc_num::{Half, Reg};
use std::alloc::{AllocError, Global};

/// How some locations are given back.
#[derive(Clone, Copy, PartialEq, Eq, Debug)]
pub enum Packing {
    /// At most one location is given back, by itself.
    Apart,
    /// The locations are the low and the high half of one register, and go back as a word.
    Word(Loc, Loc),
    /// The locations are halves of AX and DX, and go back as 32 bits, AX below DX.
    Double,
}

/// The temporaries of a graph that take what its calls give where that stands for several locations.
#[derive(Clone, Copy, PartialEq, Eq, Debug)]
pub struct Fresh {
    /// The temporary of 16 bits.
    pub word: u32,
    /// The temporary of 32 bits.
    pub double: u32,
}

/// Whether the two locations are the low and the high half of one register.
pub(crate) fn are_halves(low: Loc, high: Loc) -> bool
    ensures { result ≡ spec.are_halves low high }
{
    match high {
        Loc::Half(r, Half::High) => same_location(low, Loc::Half(r, Half::Low)),
        _ => false,
    }
}

/// How the locations are given back.
pub(crate) fn packing_of(locations: &[Loc]) -> Packing
    ensures { result ≡ spec.packing_of locations.now }
{
    match locations {
        [] | [_] => Packing::Apart,
        [low, high] if are_halves(*low, *high) => Packing::Word(*low, *high),
        _ => Packing::Double,
    }
}

/// The word of two halves.
pub fn word(alloc: Global, low: Loc, high: Loc) -> Result<Expr, AllocError>
    ensures { IfOk result (λ e. expr_of e ≡ spec.word_of low high) }
{
    Expr::join(alloc, Expr::Get(high), Expr::Get(low))
}

// Whether the location is given back.
fn is_given(given: &[Loc], location: Loc) -> bool
    ensures { result ≡ is_among given.now location }
{
    given.iter().any(|other| same_location(location, *other))
}

// The value of the location where it is given back, else 0.
fn given_or_zero(given: &[Loc], location: Loc) -> Expr
    ensures { expr_of result ≡ spec.given_or_zero given.now location }
{
    if is_given(given, location) {
        Expr::Get(location)
    } else {
        Expr::Const(8, 0)
    }
}

// The word of the halves of a register that are given back.
fn given_word(alloc: Global, given: &[Loc], register: Reg) -> Result<Expr, AllocError>
    ensures { IfOk result (λ e. expr_of e ≡ spec.given_word given.now register) }
{
    let high = given_or_zero(given, Loc::Half(register, Half::High));
    Expr::join(
        alloc,
        high,
        given_or_zero(given, Loc::Half(register, Half::Low)),
    )
}

// The halves of AX and DX that are given back, as 32 bits.
fn double(alloc: Global, given: &[Loc]) -> Result<Expr, AllocError>
    ensures { IfOk result (λ e. expr_of e ≡ spec.double_of given.now) }
{
    let high = given_word(alloc, given, Reg::Dx)?;
    Expr::join(alloc, high, given_word(alloc, given, Reg::Ax)?)
}

/// The values of the locations, which are given back, as at most one.
pub(crate) fn one_value(
    alloc: Global,
    given: &[Loc],
    values: Vec<Expr>,
) -> Result<Vec<Expr>, AllocError>
    ensures { IfOk result (λ one. map expr_of one.items ≡ spec.one_value given.now (map expr_of values.items)) }
{
    let mut one = Vec::new(alloc);
    match packing_of(given) {
        Packing::Apart => return Ok(values),
        Packing::Word(low, high) => one.push(word(alloc, low, high)?)?,
        Packing::Double => one.push(double(alloc, given)?)?,
    }
    Ok(one)
}

/// The place of the one value that a call gives for the locations.
pub(crate) fn value_places(
    alloc: Global,
    fresh: Fresh,
    results: &[Loc],
) -> Result<Vec<Loc>, AllocError>
    ensures { IfOk result (λ places. places.items ≡ spec.value_places fresh results.now) }
{
    let mut places = Vec::new(alloc);
    match packing_of(results) {
        Packing::Apart => {
            for location in results {
                places.push(*location)?;
            }
        }
        Packing::Word(..) => places.push(Loc::Temp(fresh.word))?,
        Packing::Double => places.push(Loc::Temp(fresh.double))?,
    }
    Ok(places)
}

// The bit at which a half begins in its register.
fn bit_in_word(location: Loc) -> u8
    ensures { result ≡ spec.bit_in_word location }
{
    match location {
        Loc::Half(_, Half::High) => 8,
        _ => 0,
    }
}

// The bit at which a half begins in its register, or in 32 bits, where DX stands above AX.
fn bit_of(double: bool, location: Loc) -> u8
    ensures { result ≡ spec.bit_of double location }
{
    match location {
        Loc::Half(Reg::Dx, _) if double => 16 + bit_in_word(location),
        _ => bit_in_word(location),
    }
}

// Adds statements by which each location takes its part of a temporary.
fn take_parts(
    alloc: Global,
    temporary: u32,
    double: bool,
    places: &[Loc],
    stmts: &mut Vec<Stmt>,
) -> Result<(), AllocError>
    ensures { OnOk result (map stmt_of stmts.new.items
        ≡ map stmt_of stmts.old.items ++ map (spec.taking_part temporary double) places.now) }
{
    for place in places {
        let value = Expr::Get(Loc::Temp(temporary));
        let value = Expr::part(alloc, 8, bit_of(double, *place), value)?;
        stmts.push(Stmt::Set {
            place: *place,
            value,
        })?;
    }
    Ok(())
}

/// Adds statements by which the locations take their parts of the value that a call has given.
pub(crate) fn push_parts(
    alloc: Global,
    fresh: Fresh,
    results: &[Loc],
    stmts: &mut Vec<Stmt>,
) -> Result<(), AllocError>
    ensures { OnOk result (map stmt_of stmts.new.items
        ≡ map stmt_of stmts.old.items ++ spec.taking_parts fresh results.now) }
{
    match packing_of(results) {
        Packing::Apart => Ok(()),
        Packing::Word(..) => take_parts(alloc, fresh.word, false, results, stmts),
        Packing::Double => take_parts(alloc, fresh.double, true, results, stmts),
    }
}
