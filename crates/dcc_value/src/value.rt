//! Values of expressions, and the operators on them.

ghost use Rattle.std.specs.Prelude.{◌≡◌, ◌^◌, ◌<◌};
ghost use Rattle.dcc_c.specs.Types.{bits_of};
ghost use Rattle.dcc_c.specs.Value.{number, truth, is_zero, converted, unary_number, unary_value, compared};
ghost use Rattle.dcc_c.specs.Value.{binary_value, numbers_value, moved, both_values, truth_value};
ghost use Rattle.dcc_value.specs.Evaluation.{typed, outcome_of};

use dcc_c::{Base, CBin, CType, CUn};

pub mod memory;
mod patterns;

use memory::MEMORY;
use patterns::{
    complement, difference, division_faults, is_less, negated, quotient, remainder, shifted_left,
    shifted_right,
};

/// A number or an address with its type; `bits` is its pattern in two's complement.
#[derive(Clone, Copy, PartialEq, Eq, Debug)]
pub struct Value {
    /// The type of the value.
    pub ty: CType,
    /// The bits of the value, in two's complement.
    pub bits: u32,
}

/// Why an evaluation gives nothing.
#[derive(Clone, Copy, PartialEq, Eq, Debug)]
pub enum NoValue {
    /// A division faults.
    Divides,
    /// A name or an operand is not allowed.
    Undefined,
}

/// A number with its type.
pub fn number(base: Base, bits: u32) -> Value
    ensures { typed result ≡ number base bits }
{
    Value {
        ty: CType::plain(base),
        bits,
    }
}

// 0 or 1.
fn truth(b: bool) -> Value
    ensures { typed result ≡ truth b }
{
    number(Base::Int, u32::from(b))
}

/// Whether the value is 0.
pub fn is_zero(v: Value) -> bool
    ensures { result ≡ is_zero (typed v) }
{
    v.bits == 0
}

/// The value converted to the type.
pub fn converted(ty: CType, v: Value) -> Value
    ensures { typed result ≡ converted ty (typed v) }
{
    Value {
        ty,
        bits: v.ty.number().convert(ty.number(), v.bits),
    }
}

// A unary operator on a number of a promoted type.
fn unary_number(operator: CUn, base: Base, n: u32) -> Result<Value, NoValue>
    ensures { outcome_of typed result ≡ unary_number operator base n }
{
    match operator {
        CUn::Minus => Ok(number(base, negated(base, n))),
        CUn::Complement => Ok(number(base, complement(base, n))),
        CUn::Not => Ok(truth(n == 0)),
        CUn::Deref | CUn::AddressOf => Err(NoValue::Undefined),
    }
}

/// A unary operator on a number, which is promoted.
pub fn unary_value(operator: CUn, v: Value) -> Result<Value, NoValue>
    ensures { outcome_of typed result ≡ unary_value operator (typed v) }
{
    if v.ty.pointer {
        return Err(NoValue::Undefined);
    }
    let base = v.ty.base.promoted();
    unary_number(operator, base, v.ty.base.convert(base, v.bits))
}

// The truth of a comparison of two numbers of one type.
fn compared(operator: CBin, base: Base, a: u32, b: u32) -> Result<Value, NoValue>
    ensures { outcome_of typed result ≡ compared operator base a b }
{
    let holds = match operator {
        CBin::Eq => a == b,
        CBin::Ne => a != b,
        CBin::Lt => is_less(base, a, b),
        CBin::Le => !is_less(base, b, a),
        CBin::Gt => is_less(base, b, a),
        CBin::Ge => !is_less(base, a, b),
        _ => return Err(NoValue::Undefined),
    };
    Ok(truth(holds))
}

// An operator on two numbers of one type.
fn binary_value(operator: CBin, base: Base, a: u32, b: u32) -> Result<Value, NoValue>
    requires { b < 2 ^ bits_of base }
    ensures { outcome_of typed result ≡ binary_value operator base a b }
{
    let bits = match operator {
        CBin::Or => a | b,
        CBin::Xor => a ^ b,
        CBin::And => a & b,
        CBin::Add => base.wrapped(u64::from(a) + u64::from(b)),
        CBin::Sub => difference(base, a, b),
        CBin::Mul => base.wrapped(u64::from(a) * u64::from(b)),
        CBin::Div | CBin::Rem if division_faults(base, a, b) => return Err(NoValue::Divides),
        CBin::Div => quotient(base, a, b),
        CBin::Rem => remainder(base, a, b),
        _ => return compared(operator, base, a, b),
    };
    Ok(number(base, bits))
}

// An operator on two numbers: both are converted to their common type, but for a shift, whose left one is promoted.
fn numbers_value(operator: CBin, a: Base, m: u32, b: Base, n: u32) -> Result<Value, NoValue>
    ensures { outcome_of typed result ≡ numbers_value operator a m b n }
{
    let promoted = a.promoted();
    let left = a.convert(promoted, m);
    match operator {
        CBin::Shl => Ok(number(promoted, shifted_left(promoted, left, b, n))),
        CBin::Shr => Ok(number(promoted, shifted_right(promoted, left, b, n))),
        _ => {
            let common = a.common(b);
            binary_value(operator, common, a.convert(common, m), b.convert(common, n))
        }
    }
}

// A pointer moved by so many elements, modulo 65536.
fn moved(operator: CBin, ty: CType, at: u32, b: Base, n: u32) -> Result<Value, NoValue>
    ensures { outcome_of typed result ≡ moved operator ty at b n }
{
    let elements = match operator {
        CBin::Add => b.extended(n),
        CBin::Sub => 0x1_0000_0000_u64.saturating_sub(b.extended(n)),
        _ => return Err(NoValue::Undefined),
    };
    let size = u64::from(CType::plain(ty.base).size());
    Ok(Value {
        ty,
        bits: ((u64::from(at) + size * elements) % MEMORY) as u32,
    })
}

/// An operator on two values: a pointer is moved by a number, or compared with a pointer of its type.
pub(crate) fn both_values(operator: CBin, a: Value, b: Value) -> Result<Value, NoValue>
    ensures { outcome_of typed result ≡ both_values operator (typed a) (typed b) }
{
    match (a.ty.pointer, b.ty.pointer) {
        (false, false) => numbers_value(operator, a.ty.base, a.bits, b.ty.base, b.bits),
        (true, false) => moved(operator, a.ty, a.bits, b.ty.base, b.bits),
        (true, true) if a.ty == b.ty => compared(operator, Base::Uint, a.bits, b.bits),
        _ => Err(NoValue::Undefined),
    }
}

/// The truth of a number.
pub(crate) fn truth_value(v: Value) -> Result<Value, NoValue>
    ensures { outcome_of typed result ≡ truth_value (typed v) }
{
    if v.ty.pointer {
        return Err(NoValue::Undefined);
    }
    Ok(truth(v.bits != 0))
}
