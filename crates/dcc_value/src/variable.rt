//! Variables, and what expressions are evaluated over.

ghost use Rattle.std.specs.Prelude.{◌≡◌};
ghost use Rattle.dcc_c.specs.Value.{variable_value, address_value, pointed_value};
ghost use Rattle.dcc_ctypes.specs.NameViews.{unnamed as unnamed_declaration};
ghost use Rattle.dcc_value.specs.Evaluation.{typed, outcome_of, unnamed, declared_of};

use crate::declarations::Declarations;
use crate::value::memory::loaded;
use crate::value::{NoValue, Value};
use dcc_c::CType;

/// A variable with its storage; the type is that of its elements where it is an array.
#[derive(Clone, Copy, PartialEq, Eq, Debug)]
pub struct Binding {
    /// The type of the variable, or of its elements where it is an array.
    pub ty: CType,
    /// Whether the variable is an array.
    pub is_array: bool,
    /// Whether the variable is kept in memory.
    pub is_placed: bool,
    /// The address of the variable where it is kept in memory, and else its bits.
    pub bits: u32,
}

/// What a name is declared as.
#[derive(Drop)]
pub struct Declared {
    /// The name.
    pub name: String,
    /// The type of the name, or of its elements where it is an array.
    pub ty: CType,
    /// Whether the name is that of an array.
    pub is_array: bool,
    /// Whether what is named has an address.
    pub is_placed: bool,
}

impl Declared {
    /// The declaration without its name.
    pub fn nameless(&self) -> dcc_ctypes::Declared
        ensures { unnamed_declaration (declared_of self.now) ≡ result }
    {
        dcc_ctypes::Declared {
            ty: self.ty,
            is_array: self.is_array,
            is_placed: self.is_placed,
        }
    }
}

/// The names that the expressions of a function may use.
#[derive(Clone, Copy)]
pub struct Names<'a, 'l, 'g> {
    /// The parameters of the function, and then its local variables.
    pub locals: &'a Declarations<'l>,
    /// The global variables.
    pub globals: &'a Declarations<'g>,
}

/// What expressions are evaluated over.
#[derive(Clone, Copy)]
pub struct Contents<'a> {
    /// The variables of the call: its parameters and then its local variables.
    pub frame: &'a [Binding],
    /// The global variables.
    pub globals: &'a [Binding],
    /// 65,536 bytes.
    pub memory: &'a [u8],
}

/// The value of a variable: for an array the address of its first element.
pub(crate) fn variable_value(memory: &[u8], b: Binding) -> Result<Value, NoValue>
    ensures { outcome_of typed result ≡ variable_value memory.now (unnamed b) }
{
    match (b.is_placed, b.is_array) {
        (true, true) => {
            if b.ty.pointer {
                Err(NoValue::Undefined)
            } else {
                Ok(Value {
                    ty: CType::pointer_to(b.ty.base),
                    bits: b.bits,
                })
            }
        }
        (true, false) => Ok(loaded(memory, b.ty, b.bits)),
        (false, true) => Err(NoValue::Undefined),
        (false, false) => Ok(Value {
            ty: b.ty,
            bits: b.bits,
        }),
    }
}

/// The address of a variable that is no array and no pointer.
pub(crate) fn address_value(b: Binding) -> Result<Value, NoValue>
    ensures { outcome_of typed result ≡ address_value (unnamed b) }
{
    if !b.is_placed || b.is_array || b.ty.pointer {
        return Err(NoValue::Undefined);
    }
    Ok(Value {
        ty: CType::pointer_to(b.ty.base),
        bits: b.bits,
    })
}

/// What stands at an address.
pub(crate) fn pointed_value(memory: &[u8], v: Value) -> Result<Value, NoValue>
    ensures { outcome_of typed result ≡ pointed_value memory.now (typed v) }
{
    if !v.ty.pointer {
        return Err(NoValue::Undefined);
    }
    Ok(loaded(memory, CType::plain(v.ty.base), v.bits))
}
