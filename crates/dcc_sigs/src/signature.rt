//! Signatures, and why a file of them isn't read.

ghost use Rattle.std.specs.Prelude.{◌≡◌};

use std::alloc::AllocError;

/// A signature of a library procedure: the bytes with which its code begins.
#[derive(Drop)]
pub struct Sig {
    /// The procedure's name, which begins with `lib_`.
    pub name: String,
    /// The bytes, from 1 to 64; none stands for any byte.
    pub bytes: Vec<Option<u8>>,
}

/// How a line offends.
#[derive(Clone, Copy, PartialEq, Eq, Debug)]
pub enum SigKind {
    /// The file has more than 262,144 bytes, or the line is no signature's.
    Form,
    /// An earlier line has the line's name.
    Twice,
}

/// Why a file isn't read.
#[derive(Clone, Copy, PartialEq, Eq, Debug)]
pub enum SigFault {
    /// How the line offends, where no line before it does. Lines are counted from 1; a file that is too long offends in
    /// line 0.
    At { line: u32, kind: SigKind },
    /// Memory ran out.
    Memory,
}

impl From<AllocError> for SigFault {
    ghost use Rattle.dcc_sigs.specs.declared.signature.SigFault.TheVariants.{Memory};

    ghost from_gives = { λ _ fault. fault ≡ Memory };

    fn from(_error: AllocError) -> SigFault {
        SigFault::Memory
    }
}
