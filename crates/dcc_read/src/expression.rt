//! Reading expressions.

ghost use Rattle.std.specs.Prelude.{◌≡◌, ◌+◌, ◌^◌, ◌<◌, ◌≤◌, IfOk, Some, true, is_some, min, nat_le};
ghost use Rattle.dcc_c.specs.Partial as partial;
ghost use Rattle.dcc_c.specs.Reading as reading;
ghost use Rattle.dcc_c.specs.ReadingStatements as statements;
ghost use Rattle.dcc_lex.specs.TokenViews.{token_of};
ghost use Rattle.dcc_read.specs.ExpressionViews.{inside_of, measure, strong_enough, stopped_deep};
ghost use Rattle.dcc_reader.specs.PartialViews.{expr_of};
ghost use Rattle.dcc_reader.specs.ReaderViews.{reader_of};

use crate::Got;
use dcc_c::{CBin, CType, CUn};
use dcc_lex::Mark;
use dcc_reader::operator::{binary_of, number_of, strength, unary_of};
use dcc_reader::{ParseKind, PartialChoice, PartialExpr, Reader};
use std::alloc::Global;

/// How deep an expression may be, and how many parentheses may stand around a part of it.
const MOST: usize = 200;

/// A part of an expression, and how deep it is.
#[derive(Drop)]
struct Measured<'a> {
    /// The part.
    expr: PartialExpr<'a>,
    /// The depth of the part, or 201 where it is deeper.
    depth: usize,
    ghost measured: { depth ≡ measure (expr_of expr) },
}

/// What stands around a part of an expression.
#[derive(Clone, Copy)]
pub struct Inside {
    /// The place where the whole expression begins.
    pub start: u32,
    /// How many operators of the whole expression are around the part.
    pub operators: usize,
    /// How many parentheses are open.
    pub opened: usize,
}

impl Inside {
    // What stands around an operand.
    fn in_operator(self) -> Inside
        requires fits { self.operators + 1 < 2 ^ 64 }
        ensures { inside_of result ≡ reading.in_operator (inside_of self) }
    {
        Inside {
            start: self.start,
            operators: self.operators + 1,
            opened: self.opened,
        }
    }

    // What stands around the content of parentheses.
    fn in_parentheses(self) -> Inside
        requires fits { self.opened + 1 < 2 ^ 64 }
        ensures { inside_of result ≡ reading.in_parentheses (inside_of self) }
    {
        Inside {
            start: self.start,
            operators: self.operators,
            opened: self.opened + 1,
        }
    }
}

// The depth of what stands above a part of the given depth, up to 201.
fn deeper(depth: usize) -> usize
    requires measured { depth ≤ 201 }
    ensures { result ≡ min 201 (depth + 1) }
{
    if depth <= MOST { depth + 1 } else { depth }
}

// What was not read.
fn missing<'a>() -> Measured<'a>
    ensures { expr_of result.expr ≡ partial.Missing }
{
    Measured {
        expr: PartialExpr::Missing,
        depth: 1,
    }
}

// The unary operator on an operand.
fn unary_at<'a>(alloc: Global, at: u32, operator: CUn, operand: Measured<'a>) -> Got<Measured<'a>>
    ensures { IfOk result (λ e. expr_of e.expr ≡ partial.UnaryHere at operator (expr_of operand.entry.expr)) }
{
    let depth = deeper(operand.depth);
    let operand = Box::new(alloc, operand.expr)?;
    Ok(Measured {
        expr: PartialExpr::Unary(at, operator, operand),
        depth,
    })
}

// The cast of an operand.
fn cast_at<'a>(alloc: Global, at: u32, ty: CType, operand: Measured<'a>) -> Got<Measured<'a>>
    ensures { IfOk result (λ e. expr_of e.expr ≡ partial.CastHere at ty (expr_of operand.entry.expr)) }
{
    let depth = deeper(operand.depth);
    let operand = Box::new(alloc, operand.expr)?;
    Ok(Measured {
        expr: PartialExpr::Cast(at, ty, operand),
        depth,
    })
}

// Two operands and their operator.
fn binary_of_two<'a>(
    alloc: Global,
    operator: CBin,
    left: Measured<'a>,
    right: Measured<'a>,
) -> Got<Measured<'a>>
    ensures { IfOk result (λ e. expr_of e.expr
        ≡ partial.BinaryOf operator (expr_of left.entry.expr) (expr_of right.entry.expr)) }
{
    let depth = deeper(left.depth.max(right.depth));
    let left = Box::new(alloc, left.expr)?;
    let right = Box::new(alloc, right.expr)?;
    Ok(Measured {
        expr: PartialExpr::Binary(operator, left, right),
        depth,
    })
}

// A conditional.
fn conditional_of<'a>(
    alloc: Global,
    test: Measured<'a>,
    first: Measured<'a>,
    second: Measured<'a>,
) -> Got<Measured<'a>>
    ensures { IfOk result (λ e. expr_of e.expr
        ≡ partial.ConditionalOf (expr_of test.entry.expr) (expr_of first.entry.expr) (expr_of second.entry.expr)) }
{
    let depth = deeper(test.depth.max(first.depth.max(second.depth)));
    let choice = PartialChoice {
        test: test.expr,
        first: first.expr,
        second: second.expr,
    };
    Ok(Measured {
        expr: PartialExpr::Conditional(Box::new(alloc, choice)?),
        depth,
    })
}

// Stops where the whole expression of which the part is one gets too deep.
fn stop_if_deep(r: &mut Reader<'_>, inside: Inside, part: &Measured)
    ensures { reader_of r.new ≡ reading.stop_if_deep (inside_of inside) (expr_of part.now.expr) (reader_of r.old) }
{
    if inside.operators.saturating_add(part.depth) > MOST {
        r.stop_at(ParseKind::Depth, inside.start);
    }
}

// Whether an expression may begin with the next token.
fn begins_expr(r: &Reader<'_>) -> bool
    ensures { result ≡ reading.begins_expr (reading.next_token (reader_of r.now)) }
{
    let token = r.next();
    unary_of(token).is_some()
        || r.sees_mark(Mark::OpenParenthesis)
        || number_of(token).is_some()
        || r.name().is_some()
}

// Stops at what is the first in too many parentheses.
fn stop_if_enclosed(r: &mut Reader<'_>, inside: Inside)
    ensures { reader_of r.new ≡ reading.stop_if_enclosed (inside_of inside) (reader_of r.old) }
{
    if inside.opened > MOST {
        stop_enclosed(r);
    }
}

// Stops at the next piece, where too many parentheses are open.
fn stop_enclosed(r: &mut Reader<'_>)
    ensures { reader_of r.new ≡ stopped_deep (reader_of r.old) }
{
    if begins_expr(r) || r.sees_type() {
        r.stop_at(ParseKind::Depth, r.left.at);
    } else {
        r.fail();
    }
}

// The next token, if it is a binary operator of this strength at least.
fn operator_of(r: &Reader<'_>, weakest: u8) -> Option<CBin>
    ensures { result ≡ strong_enough weakest (reading.binary_of (reading.next_token (reader_of r.now))) }
{
    let operator = binary_of(r.next())?;
    if weakest <= strength(operator) {
        Some(operator)
    } else {
        None
    }
}

/// A name, and whether a parenthesis follows.
pub(crate) fn name_here<'a>(r: &mut Reader<'a>, word: &'a str) -> PartialExpr<'a>
    requires seen { is_some (reading.next_token (reader_of r.now)) ≡ true }
    ensures { reading.got (expr_of result) (reader_of r.new) ≡ reading.name_here word.now (reader_of r.old) }
{
    let at = r.left.at;
    r.skip();
    PartialExpr::Name(r.sees_mark(Mark::OpenParenthesis), at, word)
}

// Reads a number or a name.
fn read_leaf<'a>(r: &mut Reader<'a>) -> Measured<'a>
    ensures { reading.got (expr_of result.expr) (reader_of r.new) ≡ reading.read_leaf (reader_of r.old) }
{
    let at = r.left.at;
    if let Some(number) = number_of(r.next()) {
        r.skip();
        return Measured {
            expr: PartialExpr::Number(at, number.value, number.base),
            depth: 1,
        };
    }
    let Some(word) = r.name() else {
        r.fail();
        return missing();
    };
    let expr = name_here(r, word);
    Measured { expr, depth: 1 }
}

// Reads a unary part.
#[cycle(expression)]
fn measured_unary<'a>(
    r: &mut Reader<'a>,
    alloc: Global,
    calls: usize,
    inside: Inside,
) -> Got<Measured<'a>>
    requires operators { inside.operators + calls ≤ 2 ^ 64 }
    requires opened { inside.opened + calls ≤ 2 ^ 64 }
    ensures { IfOk result (λ e. reading.got (expr_of e.expr) (reader_of r.new)
        ≡ reading.read_unary calls (inside_of inside) (reader_of r.old)) }
{
    let Some(calls) = calls.checked_sub(1) else {
        return Ok(missing());
    };
    if inside.operators >= MOST {
        r.stop_at(ParseKind::Depth, inside.start);
        return Ok(missing());
    }
    let at = r.left.at;
    if let Some(operator) = unary_of(r.next()) {
        r.skip();
        let operand = measured_unary(r, alloc, calls, inside.in_operator())?;
        return unary_at(alloc, at, operator, operand);
    }
    if r.sees_mark(Mark::OpenParenthesis) {
        r.skip();
        return read_parentheses(r, alloc, calls, inside, at);
    }
    Ok(read_leaf(r))
}

// Reads what stands after an opening parenthesis at a place: the rest of a cast, or an expression and the closing
// parenthesis.
#[cycle(expression)]
fn read_parentheses<'a>(
    r: &mut Reader<'a>,
    alloc: Global,
    calls: usize,
    inside: Inside,
    at: u32,
) -> Got<Measured<'a>>
    requires operators { inside.operators + calls < 2 ^ 64 }
    requires opened { inside.opened + calls < 2 ^ 64 }
    ensures { IfOk result (λ e. reading.got (expr_of e.expr) (reader_of r.new)
        ≡ reading.read_parentheses calls (inside_of inside) at (reader_of r.old)) }
{
    let Some(calls) = calls.checked_sub(1) else {
        return Ok(missing());
    };
    let content = inside.in_parentheses();
    stop_if_enclosed(r, content);
    if r.sees_type() {
        let ty = r.take_type();
        return read_cast(r, alloc, calls, inside, at, ty);
    }
    let whole = measured_expr(r, alloc, calls, content)?;
    r.take_mark(Mark::CloseParenthesis);
    Ok(whole)
}

// Reads the rest of a cast after its type.
#[cycle(expression)]
fn read_cast<'a>(
    r: &mut Reader<'a>,
    alloc: Global,
    calls: usize,
    inside: Inside,
    at: u32,
    ty: Option<CType>,
) -> Got<Measured<'a>>
    requires operators { inside.operators + calls < 2 ^ 64 }
    requires opened { inside.opened + calls < 2 ^ 64 }
    ensures { IfOk result (λ e. reading.got (expr_of e.expr) (reader_of r.new)
        ≡ reading.read_cast calls (inside_of inside) at (reading.got ty (reader_of r.old))) }
{
    let Some(calls) = calls.checked_sub(1) else {
        return Ok(missing());
    };
    let Some(ty) = ty else {
        return Ok(missing());
    };
    r.take_mark(Mark::CloseParenthesis);
    let operand = measured_unary(r, alloc, calls, inside.in_operator())?;
    cast_at(alloc, at, ty, operand)
}

// Reads operands that are joined by binary operators of this strength at least.
#[cycle(expression)]
fn read_binary<'a>(
    r: &mut Reader<'a>,
    alloc: Global,
    calls: usize,
    inside: Inside,
    weakest: u8,
) -> Got<Measured<'a>>
    requires operators { inside.operators + calls ≤ 2 ^ 64 }
    requires opened { inside.opened + calls ≤ 2 ^ 64 }
    ensures { IfOk result (λ e. reading.got (expr_of e.expr) (reader_of r.new)
        ≡ reading.read_binary calls (inside_of inside) weakest (reader_of r.old)) }
{
    let Some(calls) = calls.checked_sub(1) else {
        return Ok(missing());
    };
    let first = measured_unary(r, alloc, calls, inside)?;
    read_more(r, alloc, calls, inside, weakest, first)
}

// Reads operands after the first one that are joined by binary operators of the given strength at least.
#[cycle(expression)]
fn read_more<'a>(
    r: &mut Reader<'a>,
    alloc: Global,
    calls: usize,
    inside: Inside,
    weakest: u8,
    first: Measured<'a>,
) -> Got<Measured<'a>>
    requires operators { inside.operators + calls < 2 ^ 64 }
    requires opened { inside.opened + calls < 2 ^ 64 }
    ensures { IfOk result (λ e. reading.got (expr_of e.expr) (reader_of r.new)
        ≡ reading.read_more calls (inside_of inside) weakest
        (reading.got (expr_of first.entry.expr) (reader_of r.old))) }
{
    let mut left = first;
    let mut calls = calls;
    while let Some(fewer) = calls.checked_sub(1) {
        let Some(operator) = operator_of(r, weakest) else {
            return Ok(left);
        };
        r.skip();
        let right = read_binary(
            r,
            alloc,
            fewer,
            inside.in_operator(),
            strength(operator) + 1,
        )?;
        left = binary_of_two(alloc, operator, left, right)?;
        stop_if_deep(r, inside, &left);
        calls = fewer;
    }
    Ok(left)
}

// Reads an expression.
#[cycle(expression)]
fn measured_expr<'a>(
    r: &mut Reader<'a>,
    alloc: Global,
    calls: usize,
    inside: Inside,
) -> Got<Measured<'a>>
    requires operators { inside.operators + calls ≤ 2 ^ 64 }
    requires opened { inside.opened + calls ≤ 2 ^ 64 }
    ensures { IfOk result (λ e. reading.got (expr_of e.expr) (reader_of r.new)
        ≡ reading.read_expr calls (inside_of inside) (reader_of r.old)) }
{
    let Some(calls) = calls.checked_sub(1) else {
        return Ok(missing());
    };
    let test = read_binary(r, alloc, calls, inside, 1)?;
    read_rest(r, alloc, calls, inside, test)
}

// Reads the rest of a conditional after its test, where there is one.
#[cycle(expression)]
fn read_rest<'a>(
    r: &mut Reader<'a>,
    alloc: Global,
    calls: usize,
    inside: Inside,
    test: Measured<'a>,
) -> Got<Measured<'a>>
    requires operators { inside.operators + calls < 2 ^ 64 }
    requires opened { inside.opened + calls < 2 ^ 64 }
    ensures { IfOk result (λ e. reading.got (expr_of e.expr) (reader_of r.new)
        ≡ reading.read_rest calls (inside_of inside) (reading.got (expr_of test.entry.expr) (reader_of r.old))) }
{
    let Some(calls) = calls.checked_sub(1) else {
        return Ok(test);
    };
    if !r.sees_mark(Mark::Question) {
        return Ok(test);
    }
    r.skip();
    let first = measured_expr(r, alloc, calls, inside.in_operator())?;
    r.take_mark(Mark::Colon);
    let second = measured_expr(r, alloc, calls, inside.in_operator())?;
    let whole = conditional_of(alloc, test, first, second)?;
    stop_if_deep(r, inside, &whole);
    Ok(whole)
}

/// Reads a unary part, which must stand here.
pub(crate) fn read_unary<'a>(
    r: &mut Reader<'a>,
    alloc: Global,
    calls: usize,
    inside: Inside,
) -> Got<PartialExpr<'a>>
    requires operators { inside.operators + calls ≤ 2 ^ 64 }
    requires opened { inside.opened + calls ≤ 2 ^ 64 }
    ensures { IfOk result (λ e. reading.got (expr_of e) (reader_of r.new)
        ≡ reading.read_unary calls (inside_of inside) (reader_of r.old)) }
{
    Ok(measured_unary(r, alloc, calls, inside)?.expr)
}

/// Reads a whole expression.
pub(crate) fn read_value<'a>(
    r: &mut Reader<'a>,
    alloc: Global,
    calls: usize,
) -> Got<PartialExpr<'a>>
    ensures { IfOk result (λ e. reading.got (expr_of e) (reader_of r.new)
        ≡ statements.read_value calls (reader_of r.old)) }
{
    let inside = Inside {
        start: r.left.at,
        operators: 0,
        opened: 0,
    };
    Ok(measured_expr(r, alloc, calls, inside)?.expr)
}

/// Reads a whole expression inside the parentheses of a statement.
pub(crate) fn read_enclosed<'a>(
    r: &mut Reader<'a>,
    alloc: Global,
    calls: usize,
) -> Got<PartialExpr<'a>>
    ensures { IfOk result (λ e. reading.got (expr_of e) (reader_of r.new)
        ≡ statements.read_enclosed calls (reader_of r.old)) }
{
    let inside = Inside {
        start: r.left.at,
        operators: 0,
        opened: 1,
    };
    Ok(measured_expr(r, alloc, calls, inside)?.expr)
}

/// Reads an expression in parentheses.
pub(crate) fn read_test<'a>(r: &mut Reader<'a>, alloc: Global, calls: usize) -> Got<PartialExpr<'a>>
    ensures { IfOk result (λ e. reading.got (expr_of e) (reader_of r.new)
        ≡ statements.read_test calls (reader_of r.old)) }
{
    r.take_mark(Mark::OpenParenthesis);
    let e = read_enclosed(r, alloc, calls)?;
    r.take_mark(Mark::CloseParenthesis);
    Ok(e)
}
