//! What becomes of the addresses of `auto` variables of which a function uses nothing else.

ghost use Rattle.std.specs.Prelude.{◌≡◌, ◌↔◌, ◌<◌, ◌||◌, Bool, true, false, option_map, IfOk, OnOk};
ghost use Rattle.std.specs.List.{list_any};
ghost use Rattle.dcc_c.specs.Tree.{Word};
ghost use Rattle.dcc_c.specs.Views.{expr_of, stmt_of, function_of};
ghost use Rattle.dcc_shape.specs.Carried as spec;
ghost use Rattle.dcc_shape.specs.Carried.{is_one, gives_bit, carries, points, points_if, accesses, sends, goes_to, keeps};
ghost use Rattle.dcc_shape.specs.Carried.{UsesAddressesAlone};
ghost use Rattle.dcc_shape.specs.Carrying.{holds, Within, settles, all_settle, all_keep, strangers};
ghost use Rattle.dcc_shape.specs.Seen.{lent};

use crate::seen::{Seen, statements};
use dcc_c::{CBin, CExpr, CStmt, CUn, Class, Func};
use std::alloc::{AllocError, Global};
use std::collections::BTreeSet;

// Whether an expression is the number 1.
fn is_one(e: &CExpr) -> bool
    ensures { result ≡ is_one (expr_of e.now) }
{
    matches!(e, CExpr::Num(1, _))
}

// Whether an operator gives one bit whatever its left operand is.
fn gives_bit(operator: CBin, right: &CExpr) -> bool
    ensures { result ≡ gives_bit operator (expr_of right.now) }
{
    match operator {
        CBin::OrOr
        | CBin::AndAnd
        | CBin::Eq
        | CBin::Ne
        | CBin::Lt
        | CBin::Le
        | CBin::Gt
        | CBin::Ge => true,
        CBin::And => is_one(right),
        _ => false,
    }
}

// Whether one of these names stands in an expression outside of what gives one bit.
fn carries(names: &BTreeSet<&str>, e: &CExpr) -> bool
    ensures { result ≡ carries (holds names.now) (expr_of e.now) }
{
    match e {
        CExpr::Num(..) => false,
        CExpr::Name(name) => names.contains(name.as_str()),
        CExpr::Un(operator, a) => *operator != CUn::Not && carries(names, a),
        CExpr::Bin(operator, a, b) => {
            !gives_bit(*operator, b) && (carries(names, a) || carries(names, b))
        }
        CExpr::Cond(_, a, b) => carries(names, a) || carries(names, b),
        CExpr::Cast(_, a) => carries(names, a),
    }
}

// Whether a `*` stands in an expression before an address in which one of these names stands, outside of single bits.
fn points(names: &BTreeSet<&str>, e: &CExpr) -> bool
    ensures { result ≡ points (holds names.now) (expr_of e.now) }
{
    match e {
        CExpr::Num(..) | CExpr::Name(_) => false,
        CExpr::Un(operator, a) => {
            (*operator == CUn::Deref && carries(names, a)) || points(names, a)
        }
        CExpr::Bin(_, a, b) => points(names, a) || points(names, b),
        CExpr::Cond(test, a, b) => points(names, test) || points(names, a) || points(names, b),
        CExpr::Cast(_, a) => points(names, a),
    }
}

// Whether a `*` stands so in one of these expressions.
fn any_points(names: &BTreeSet<&str>, list: &[CExpr]) -> bool
    ensures { result ≡ list_any (λ e. points (holds names.now) (expr_of e)) list.now }
{
    list.iter().any(|e| points(names, e))
}

// Whether one of these names stands so in one of these expressions.
fn any_carries(names: &BTreeSet<&str>, list: &[CExpr]) -> bool
    ensures { result ≡ list_any (λ e. carries (holds names.now) (expr_of e)) list.now }
{
    list.iter().any(|e| carries(names, e))
}

// Whether there is an expression, and a `*` stands so in it.
fn points_if(names: &BTreeSet<&str>, e: &Option<CExpr>) -> bool
    ensures { result ≡ points_if (holds names.now) (option_map expr_of e.now) }
{
    match e {
        Some(e) => points(names, e),
        None => false,
    }
}

// Whether a `*` stands so in the place of a result, or in an argument.
fn call_points(names: &BTreeSet<&str>, place: &Option<CExpr>, arguments: &[CExpr]) -> bool
    ensures { result ≡ points_if (holds names.now) (option_map expr_of place.now)
        || list_any (λ e. points (holds names.now) (expr_of e)) arguments.now }
{
    points_if(names, place) || any_points(names, arguments)
}

// Whether an expression of a statement loads or stores by one of these names.
fn accesses(names: &BTreeSet<&str>, stmt: &CStmt) -> bool
    ensures { result ≡ accesses (holds names.now) (stmt_of stmt.now) }
{
    match stmt {
        CStmt::Assign(place, e) => points(names, place) || points(names, e),
        CStmt::Call(place, _, arguments, _) => call_points(names, place, arguments),
        CStmt::If(e, ..) | CStmt::While(e, _) | CStmt::DoWhile(_, e) | CStmt::Switch(e, ..) => {
            points(names, e)
        }
        CStmt::Return(e) => points_if(names, e),
        _ => false,
    }
}

// Whether a statement sends anywhere what one of these names carries.
fn sends(names: &BTreeSet<&str>, stmt: &CStmt) -> bool
    ensures { result ≡ sends (holds names.now) (stmt_of stmt.now) }
{
    match stmt {
        CStmt::Assign(_, e) | CStmt::Switch(e, ..) | CStmt::Return(Some(e)) => carries(names, e),
        CStmt::Call(_, _, arguments, _) => any_carries(names, arguments),
        _ => false,
    }
}

// The variable to which a statement assigns.
fn goal_of<'a>(stmt: &'a CStmt) -> Option<&'a str>
    ensures { lent result ≡ spec.goal_of (stmt_of stmt.now) }
{
    match stmt {
        CStmt::Assign(CExpr::Name(name), _) => Some(name.as_str()),
        _ => None,
    }
}

// Whether a statement assigns to a variable of one of these names.
fn goes_to(words: &BTreeSet<&str>, stmt: &CStmt) -> bool
    ensures { result ≡ goes_to (holds words.now) (stmt_of stmt.now) }
{
    match goal_of(stmt) {
        Some(word) => words.contains(word),
        None => false,
    }
}

// Whether a statement that sends what the names carry to a variable in no memory sends it to one of them.
fn settles(names: &BTreeSet<&str>, unplaced: &BTreeSet<&str>, stmt: &CStmt) -> bool
    ensures { result ≡ settles (holds unplaced.now) (holds names.now) (stmt_of stmt.now) }
{
    !(sends(names, stmt) && goes_to(unplaced, stmt)) || goes_to(names, stmt)
}

// Adds the variable in no memory to which a statement sends what the names carry, if there is one, and tells whether its
// name is new.
fn follow<'a>(
    names: &mut BTreeSet<&'a str>,
    unplaced: &BTreeSet<&str>,
    stmt: &'a CStmt,
) -> Result<bool, AllocError>
    ensures more { OnOk result (Within (holds names.old) (holds names.new)) }
    ensures forced { OnOk result ((all : Word → Bool) → Within (holds names.old) all
        → keeps (holds unplaced.now) all (stmt_of stmt.now) ≡ true → Within (holds names.new) all) }
    ensures same { IfOk result (λ grown. grown ≡ false
        → (names.new ≡ names.old) × (settles (holds unplaced.now) (holds names.new) (stmt_of stmt.now) ≡ true)) }
    ensures grown { IfOk result (λ grown. grown ≡ true → (goes_to (holds names.old) (stmt_of stmt.now) ≡ false)
        × (goes_to (holds names.new) (stmt_of stmt.now) ≡ true)) }
{
    if settles(names, unplaced, stmt) {
        return Ok(false);
    }
    let Some(word) = goal_of(stmt) else {
        return Ok(false);
    };
    names.insert(word)?;
    Ok(true)
}

// Follows each statement once, and tells whether a name was new.
fn follow_all<'a>(
    names: &mut BTreeSet<&'a str>,
    unplaced: &BTreeSet<&str>,
    list: &[Seen<'a>],
) -> Result<bool, AllocError>
    ensures more { OnOk result (Within (holds names.old) (holds names.new)) }
    ensures forced { OnOk result ((all : Word → Bool) → Within (holds names.old) all
        → all_keep (holds unplaced.now) all list.now ≡ true → Within (holds names.new) all) }
    ensures settled { IfOk result (λ grown. grown ≡ false
        → all_settle (holds unplaced.now) (holds names.new) list.now ≡ true) }
    ensures fewer { IfOk result (λ grown. grown ≡ true
        → strangers (holds names.new) list.now < strangers (holds names.old) list.now) }
{
    let mut grown = false;
    for seen in list {
        if follow(names, unplaced, seen.stmt)? {
            grown = true;
        }
    }
    Ok(grown)
}

// Adds all variables in no memory to which what the names carry is sent, from statement to statement.
fn settle<'a>(
    names: &mut BTreeSet<&'a str>,
    unplaced: &BTreeSet<&str>,
    list: &[Seen<'a>],
) -> Result<(), AllocError>
    ensures more { OnOk result (Within (holds names.old) (holds names.new)) }
    ensures forced { OnOk result ((all : Word → Bool) → Within (holds names.old) all
        → all_keep (holds unplaced.now) all list.now ≡ true → Within (holds names.new) all) }
    ensures settled { OnOk result (all_settle (holds unplaced.now) (holds names.new) list.now ≡ true) }
{
    let mut grown = true;
    while grown {
        grown = follow_all(names, unplaced, list)?;
    }
    Ok(())
}

// Whether a statement keeps what the names carry among them.
fn keeps(names: &BTreeSet<&str>, unplaced: &BTreeSet<&str>, stmt: &CStmt) -> bool
    ensures { result ≡ keeps (holds unplaced.now) (holds names.now) (stmt_of stmt.now) }
{
    !accesses(names, stmt)
        && (!sends(names, stmt) || (goes_to(unplaced, stmt) && goes_to(names, stmt)))
}

// Whether each of the statements keeps what the names carry among them.
fn all_keep(names: &BTreeSet<&str>, unplaced: &BTreeSet<&str>, list: &[Seen]) -> bool
    ensures { result ≡ all_keep (holds unplaced.now) (holds names.now) list.now }
{
    list.iter().all(|seen| keeps(names, unplaced, seen.stmt))
}

// Whether a class is `auto`, or whether it isn't.
fn is_of_class(auto: bool, class: Class) -> bool
    ensures { result ≡ spec.is_of_class auto class }
{
    match class {
        Class::Auto => auto,
        Class::Plain | Class::Register => !auto,
    }
}

// The names of the local variables of a function, of those that are `auto` or of the others.
fn locals<'a>(
    alloc: Global,
    auto: bool,
    function: &'a Func,
) -> Result<BTreeSet<&'a str>, AllocError>
    ensures { IfOk result (λ names. (word : Word)
        → holds names word ≡ spec.is_local auto (function_of function.now) word) }
{
    let mut names = BTreeSet::new(alloc);
    for variable in &function.locals {
        if is_of_class(auto, variable.class) {
            names.insert(variable.name.as_str())?;
        }
    }
    Ok(names)
}

/// Whether a function uses of its `auto` variables the addresses alone.
///
/// # Errors
/// Where memory runs out.
pub(crate) fn uses_addresses_alone(alloc: Global, function: &Func) -> Result<bool, AllocError>
    ensures { IfOk result (λ yes. (yes ≡ true) ↔ UsesAddressesAlone (function_of function.now)) }
{
    let list = statements(alloc, &function.body)?;
    let unplaced = locals(alloc, false, function)?;
    let mut names = locals(alloc, true, function)?;
    settle(&mut names, &unplaced, list.as_slice())?;
    Ok(all_keep(&names, &unplaced, list.as_slice()))
}
