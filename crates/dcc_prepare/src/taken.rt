//! The names whose addresses a function takes.

ghost use Rattle.std.specs.Prelude.{◌≡◌, ◌++◌, map, option_map, IfOk, OnOk};
ghost use Rattle.dcc_c.specs.declared.syntax.CUn.TheVariants.{AddressOf};
ghost use Rattle.dcc_c.specs.Tree.{Unary};
ghost use Rattle.dcc_c.specs.Views.{expr_of, stmt_of, lines_of, arms_of, arms_if};
ghost use Rattle.dcc_value.specs.Places.{AreFirst};
ghost use Rattle.dcc_prepare.specs.Taken.{lent_words, address_word, expr_taken, exprs_taken, option_taken, stmt_taken};
ghost use Rattle.dcc_prepare.specs.Taken.{lines_taken, arms_taken};

use dcc_c::{Arm, CExpr, CStmt, CUn, Line};
use dcc_value::places::add_place;
use std::alloc::{AllocError, Global};
use std::collections::BTreeMap;

/// Where the names whose addresses the body takes stand among all of them.
pub(crate) fn names_taken<'a>(
    alloc: Global,
    body: &'a [Line],
) -> Result<BTreeMap<&'a str, usize>, AllocError>
    ensures { IfOk result (λ places. AreFirst places (lines_taken (lines_of body.now))) }
{
    let mut names = Vec::new(alloc);
    push_lines(body, &mut names)?;
    first_places(alloc, &names)
}

// The first place of each name.
fn first_places<'a>(
    alloc: Global,
    names: &[&'a str],
) -> Result<BTreeMap<&'a str, usize>, AllocError>
    ensures { IfOk result (λ places. AreFirst places (lent_words names.now)) }
{
    let mut places = BTreeMap::new(alloc);
    for (i, name) in names.iter().enumerate() {
        add_place(&mut places, name, i)?;
    }
    Ok(places)
}

// Adds the name, where the expression is one.
fn push_name<'a>(e: &'a CExpr, names: &mut Vec<&'a str>) -> Result<(), AllocError>
    ensures { OnOk result (lent_words names.new.items
        ≡ lent_words names.old.items ++ address_word (Unary AddressOf (expr_of e.now))) }
{
    if let CExpr::Name(name) = e {
        names.push(name.as_str())?;
    }
    Ok(())
}

// Adds the names whose addresses are taken in the expression.
fn push_expr<'a>(e: &'a CExpr, names: &mut Vec<&'a str>) -> Result<(), AllocError>
    ensures { OnOk result (lent_words names.new.items
        ≡ lent_words names.old.items ++ expr_taken (expr_of e.now)) }
{
    match e {
        CExpr::Num(_, _) | CExpr::Name(_) => Ok(()),
        CExpr::Un(CUn::AddressOf, a) => {
            push_name(a, names)?;
            push_expr(a, names)
        }
        CExpr::Un(_, a) | CExpr::Cast(_, a) => push_expr(a, names),
        CExpr::Bin(_, a, b) => {
            push_expr(a, names)?;
            push_expr(b, names)
        }
        CExpr::Cond(a, b, c) => {
            push_expr(a, names)?;
            push_expr(b, names)?;
            push_expr(c, names)
        }
    }
}

// Adds the names whose addresses are taken in the expressions.
fn push_exprs<'a>(list: &'a [CExpr], names: &mut Vec<&'a str>) -> Result<(), AllocError>
    ensures { OnOk result (lent_words names.new.items
        ≡ lent_words names.old.items ++ exprs_taken (map expr_of list.now)) }
{
    for e in list {
        push_expr(e, names)?;
    }
    Ok(())
}

// Adds the names whose addresses are taken in the expression, where there is one.
fn push_option<'a>(e: &'a Option<CExpr>, names: &mut Vec<&'a str>) -> Result<(), AllocError>
    ensures { OnOk result (lent_words names.new.items
        ≡ lent_words names.old.items ++ option_taken (option_map expr_of e.now)) }
{
    match e {
        Some(e) => push_expr(e, names),
        None => Ok(()),
    }
}

// Adds the names whose addresses are taken in the statement.
#[cycle(taken)]
fn push_stmt<'a>(stmt: &'a CStmt, names: &mut Vec<&'a str>) -> Result<(), AllocError>
    ensures { OnOk result (lent_words names.new.items
        ≡ lent_words names.old.items ++ stmt_taken (stmt_of stmt.now)) }
{
    match stmt {
        CStmt::Assign(place, e) => {
            push_expr(place, names)?;
            push_expr(e, names)
        }
        CStmt::Call(place, _, arguments, _) => {
            push_option(place, names)?;
            push_exprs(arguments, names)
        }
        CStmt::If(e, body, otherwise) => {
            push_expr(e, names)?;
            push_lines(body, names)?;
            push_lines(otherwise, names)
        }
        CStmt::While(e, body) => {
            push_expr(e, names)?;
            push_lines(body, names)
        }
        CStmt::DoWhile(body, e) => {
            push_expr(e, names)?;
            push_lines(body, names)
        }
        CStmt::Forever(body) => push_lines(body, names),
        CStmt::Switch(e, arms, last) => {
            push_expr(e, names)?;
            push_arms(arms, names)?;
            push_default(last, names)
        }
        CStmt::Return(e) => push_option(e, names),
        CStmt::Break | CStmt::Continue | CStmt::Goto(_) | CStmt::Label(_) | CStmt::Empty => Ok(()),
    }
}

// Adds the names whose addresses are taken in the statements.
#[cycle(taken)]
fn push_lines<'a>(lines: &'a [Line], names: &mut Vec<&'a str>) -> Result<(), AllocError>
    ensures { OnOk result (lent_words names.new.items
        ≡ lent_words names.old.items ++ lines_taken (lines_of lines.now)) }
{
    for line in lines {
        push_stmt(&line.stmt, names)?;
    }
    Ok(())
}

// Adds the names whose addresses are taken in the arms.
#[cycle(taken)]
fn push_arms<'a>(arms: &'a [Arm], names: &mut Vec<&'a str>) -> Result<(), AllocError>
    ensures { OnOk result (lent_words names.new.items
        ≡ lent_words names.old.items ++ arms_taken (arms_of arms.now)) }
{
    for arm in arms {
        push_lines(&arm.body, names)?;
    }
    Ok(())
}

// Adds the names whose addresses are taken in the default arm, where there is one.
#[cycle(taken)]
fn push_default<'a>(last: &'a Option<Arm>, names: &mut Vec<&'a str>) -> Result<(), AllocError>
    ensures { OnOk result (lent_words names.new.items
        ≡ lent_words names.old.items ++ arms_taken (arms_if last.now)) }
{
    match last {
        Some(arm) => push_lines(&arm.body, names),
        None => Ok(()),
    }
}
