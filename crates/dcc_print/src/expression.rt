//! Expressions in their written form.

ghost use Rattle.std.specs.Prelude.{◌≡◌, ◌++◌, OnOk, map, string_bytes};
ghost use Rattle.dcc_c.specs.Token.{suffix_bytes};
ghost use Rattle.dcc_c.specs.Grammar.{unary_mark, binary_mark};
ghost use Rattle.dcc_c.specs.Written.{suffix_for, written_base, written_cast, written_expr, is_compound};
ghost use Rattle.dcc_c.specs.Written.{in_parentheses, begins_with_minus, written_arguments};
ghost use Rattle.dcc_c.specs.Views.{expr_of};

use dcc_c::{Base, CBin, CExpr, CType, CUn};
use std::alloc::AllocError;

// The suffix with which the number has the type; `UL` where none does.
fn suffix_for(n: u32, base: Base) -> &'static str
    ensures { result.now ≡ suffix_bytes (suffix_for n base) }
{
    match base {
        Base::Int if n <= 32_767 => "",
        Base::Uint if n <= 65_535 => "U",
        Base::Long if n <= 32_767 => "L",
        Base::Long if n <= 2_147_483_647 => "",
        Base::Ulong if n > 2_147_483_647 => "",
        Base::Ulong if n > 65_535 => "U",
        _ => "UL",
    }
}

/// The words of a number type.
pub(crate) fn base_words(base: Base) -> &'static str
    ensures { result.now ≡ written_base base }
{
    match base {
        Base::Schar => "signed char",
        Base::Uchar => "unsigned char",
        Base::Int => "int",
        Base::Uint => "unsigned int",
        Base::Long => "long",
        Base::Ulong => "unsigned long",
    }
}

// The mark of a unary operator.
fn unary_mark(operator: CUn) -> &'static str
    ensures { result.now ≡ unary_mark operator }
{
    match operator {
        CUn::Minus => "-",
        CUn::Complement => "~",
        CUn::Not => "!",
        CUn::Deref => "*",
        CUn::AddressOf => "&",
    }
}

// The mark of a binary operator.
fn binary_mark(operator: CBin) -> &'static str
    ensures { result.now ≡ binary_mark operator }
{
    match operator {
        CBin::OrOr => "||",
        CBin::AndAnd => "&&",
        CBin::Or => "|",
        CBin::Xor => "^",
        CBin::And => "&",
        CBin::Eq => "==",
        CBin::Ne => "!=",
        CBin::Lt => "<",
        CBin::Le => "<=",
        CBin::Gt => ">",
        CBin::Ge => ">=",
        CBin::Shl => "<<",
        CBin::Shr => ">>",
        CBin::Add => "+",
        CBin::Sub => "-",
        CBin::Mul => "*",
        CBin::Div => "/",
        CBin::Rem => "%",
    }
}

// Whether the expression stands in parentheses where it is an operand.
fn is_compound(e: &CExpr) -> bool
    ensures { result ≡ is_compound (expr_of e.now) }
{
    matches!(e, CExpr::Bin(..) | CExpr::Cond(..))
}

// Whether the operand begins with `-`.
#[tactic(auto, using(crate::proofs::MinusLaws::minus_rules))]
fn begins_with_minus(e: &CExpr) -> bool
    ensures { result ≡ begins_with_minus (in_parentheses (is_compound (expr_of e.now)) (written_expr (expr_of e.now))) }
{
    match e {
        CExpr::Un(operator, _) => *operator == CUn::Minus,
        CExpr::Name(name) => name.as_bytes().first() == Some(&b'-'),
        CExpr::Num(..) | CExpr::Bin(..) | CExpr::Cond(..) | CExpr::Cast(..) => false,
    }
}

// Appends a type in a cast.
fn push_cast(text: &mut String, ty: CType) -> Result<(), AllocError>
    ensures { OnOk result (string_bytes text.new ≡ string_bytes text.old ++ written_cast ty) }
{
    text.push_str(base_words(ty.base))?;
    text.push_str(if ty.pointer { " *" } else { "" })
}

/// Appends an expression.
#[cycle(expression)]
pub(crate) fn push_expr(text: &mut String, e: &CExpr) -> Result<(), AllocError>
    ensures { OnOk result (string_bytes text.new ≡ string_bytes text.old ++ written_expr (expr_of e.now)) }
{
    match e {
        CExpr::Num(n, base) => {
            let suffix = suffix_for(*n, *base);
            write!(text, "{n}{suffix}")
        }
        CExpr::Name(name) => text.push_str(name.as_str()),
        CExpr::Un(operator, a) => {
            text.push_str(unary_mark(*operator))?;
            if *operator == CUn::Minus && begins_with_minus(a) {
                text.push_str("(")?;
                push_operand(text, a)?;
                text.push_str(")")
            } else {
                push_operand(text, a)
            }
        }
        CExpr::Bin(operator, a, b) => {
            push_operand(text, a)?;
            text.push_str(" ")?;
            text.push_str(binary_mark(*operator))?;
            text.push_str(" ")?;
            push_operand(text, b)
        }
        CExpr::Cond(a, b, c) => {
            push_operand(text, a)?;
            text.push_str(" ? ")?;
            push_operand(text, b)?;
            text.push_str(" : ")?;
            push_operand(text, c)
        }
        CExpr::Cast(ty, value) => {
            text.push_str("(")?;
            push_cast(text, *ty)?;
            text.push_str(")")?;
            push_operand(text, value)
        }
    }
}

// Appends an expression as an operand.
#[cycle(expression)]
fn push_operand(text: &mut String, e: &CExpr) -> Result<(), AllocError>
    ensures { OnOk result (string_bytes text.new
        ≡ string_bytes text.old ++ in_parentheses (is_compound (expr_of e.now)) (written_expr (expr_of e.now))) }
{
    if is_compound(e) {
        text.push_str("(")?;
        push_expr(text, e)?;
        text.push_str(")")
    } else {
        push_expr(text, e)
    }
}

/// Appends the arguments of a call.
pub(crate) fn push_arguments(text: &mut String, arguments: &[CExpr]) -> Result<(), AllocError>
    ensures { OnOk result
        (string_bytes text.new ≡ string_bytes text.old ++ written_arguments (map expr_of arguments.now)) }
{
    match arguments {
        [] => Ok(()),
        [first, others @ ..] => {
            push_expr(text, first)?;
            for e in others {
                text.push_str(", ")?;
                push_expr(text, e)?;
            }
            Ok(())
        }
    }
}
