//! The number types: their sizes, promotion and conversion (ISO/IEC 9899:1990, 6.1.2.5 and 6.2); and the types of
//! values.

ghost use Rattle.std.specs.Prelude.{◌≡◌, ◌-◌, ◌^◌, ◌<◌, ◌≤◌};
ghost use Rattle.dcc_c.specs.Types.{bits_of, is_signed, promoted_type, common_type, wrapped_bits, is_negative};
ghost use Rattle.dcc_c.specs.Types.{extended_bits, convert, plain, pointer_to, number_of_type, size_of};

use crate::syntax::{Base, CType};

impl Base {
    /// How many bits a number of the type has.
    pub fn bits(self) -> u32
        ensures value { result ≡ bits_of self }
        ensures within { result ≤ 32 }
    {
        match self {
            Base::Schar | Base::Uchar => 8,
            Base::Int | Base::Uint => 16,
            Base::Long | Base::Ulong => 32,
        }
    }

    /// Whether the type has numbers below 0.
    pub fn is_signed(self) -> bool
        ensures { result ≡ is_signed self }
    {
        match self {
            Base::Schar | Base::Int | Base::Long => true,
            Base::Uchar | Base::Uint | Base::Ulong => false,
        }
    }

    /// How many patterns of bits the type has.
    pub fn modulus(self) -> u64
        ensures value { result ≡ 2 ^ bits_of self }
        ensures some { 0 < result }
        ensures within { result ≤ 2 ^ 32 }
    {
        match self {
            Base::Schar | Base::Uchar => 0x100,
            Base::Int | Base::Uint => 0x1_0000,
            Base::Long | Base::Ulong => 0x1_0000_0000,
        }
    }

    /// The least pattern with the top bit.
    pub fn top_bit(self) -> u32
        ensures { result ≡ 2 ^ (bits_of self - 1) }
    {
        match self {
            Base::Schar | Base::Uchar => 0x80,
            Base::Int | Base::Uint => 0x8000,
            Base::Long | Base::Ulong => 0x8000_0000,
        }
    }

    /// The type that an operand of this type has: a `char` becomes an `int` (6.2.1.1).
    pub fn promoted(self) -> Base
        ensures { result ≡ promoted_type self }
    {
        match self {
            Base::Schar | Base::Uchar => Base::Int,
            other => other,
        }
    }

    /// The common type of operands of the two types (6.2.1.5).
    pub fn common(self, other: Base) -> Base
        ensures { result ≡ common_type self other }
    {
        match (self.promoted(), other.promoted()) {
            (Base::Ulong, _) | (_, Base::Ulong) => Base::Ulong,
            (Base::Long, _) | (_, Base::Long) => Base::Long,
            (Base::Uint, _) | (_, Base::Uint) => Base::Uint,
            _ => Base::Int,
        }
    }

    /// The low bits of a number that the type has.
    pub fn wrapped(self, n: u64) -> u32
        ensures value { result ≡ wrapped_bits self n }
        ensures within { result < 2 ^ bits_of self }
    {
        (n % self.modulus()) as u32
    }

    /// Whether the number with these bits is below 0.
    pub fn is_negative(self, bits: u32) -> bool
        ensures { result ≡ is_negative self bits }
    {
        self.is_signed() && self.top_bit() <= bits
    }

    /// The 32 bits of the number with these bits: a negative one is extended by ones.
    pub fn extended(self, bits: u32) -> u64
        ensures value { result ≡ extended_bits self bits }
        ensures within { result < 2 ^ 33 }
    {
        if self.is_negative(bits) {
            u64::from(bits) + (0x1_0000_0000 - self.modulus())
        } else {
            u64::from(bits)
        }
    }

    /// The bits of a number of this type as one of another: its low bits, extended where the other is wider (6.2.1.2).
    pub fn convert(self, to: Base, bits: u32) -> u32
        ensures value { result ≡ convert self to bits }
        ensures within { result < 2 ^ bits_of to }
    {
        to.wrapped(self.extended(bits))
    }
}

impl CType {
    /// A number type as the type of a value.
    pub fn plain(base: Base) -> CType
        ensures { result ≡ plain base }
    {
        CType {
            base,
            pointer: false,
        }
    }

    /// The type of addresses of numbers of this type.
    pub fn pointer_to(base: Base) -> CType
        ensures { result ≡ pointer_to base }
    {
        CType {
            base,
            pointer: true,
        }
    }

    /// The number type whose bits a value of the type has: an address is 16 unsigned bits.
    pub fn number(self) -> Base
        ensures { result ≡ number_of_type self }
    {
        if self.pointer { Base::Uint } else { self.base }
    }

    /// How many bytes of memory a value of the type takes.
    pub fn size(self) -> u32
        ensures value { result ≡ size_of self }
        ensures within { result ≤ 4 }
    {
        self.number().bits() / 8
    }
}
