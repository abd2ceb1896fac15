//! What names are declared as, and the types of their values.

ghost use Rattle.std.specs.Prelude.{◌≡◌};
ghost use Rattle.dcc_c.specs.Typing.{type_of_name, type_of_address, type_of_variable};
ghost use Rattle.dcc_ctypes.specs.NameViews.{nameless};

use dcc_c::CType;

/// What a name is declared as.
#[derive(Clone, Copy)]
pub struct Declared {
    /// The type of the name, or of its elements where it is an array.
    pub ty: CType,
    /// Whether the name is that of an array.
    pub is_array: bool,
    /// Whether the name has an address.
    pub is_placed: bool,
}

/// The type of a name's value: that of an array is its first element's address.
pub fn type_of_name(declared: Declared) -> Option<CType>
    ensures { result ≡ type_of_name (nameless declared) }
{
    if !declared.is_array {
        Some(declared.ty)
    } else if declared.ty.pointer {
        None
    } else {
        Some(CType::pointer_to(declared.ty.base))
    }
}

/// The type of a name's address: the name has one, and is no array and no pointer.
pub fn type_of_address(declared: Declared) -> Option<CType>
    ensures { result ≡ type_of_address (nameless declared) }
{
    if declared.is_placed && !declared.is_array && !declared.ty.pointer {
        Some(CType::pointer_to(declared.ty.base))
    } else {
        None
    }
}

/// The type of what may be assigned to the name: an array is no place.
pub fn type_of_variable(declared: Declared) -> Option<CType>
    ensures { result ≡ type_of_variable (nameless declared) }
{
    if declared.is_array {
        None
    } else {
        Some(declared.ty)
    }
}
