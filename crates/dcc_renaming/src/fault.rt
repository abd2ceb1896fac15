//! Why names are refused.

ghost use Rattle.std.specs.Prelude.{◌≡◌};

use std::alloc::AllocError;

/// How a line of a names file offends.
#[derive(Clone, Copy, PartialEq, Eq, Debug)]
pub enum NameKind {
    /// The line is of no form.
    Form,
    /// No such name is declared.
    Unknown,
    /// An earlier line has the same function and the same old name.
    Twice,
    /// The new name may not stand there, or another thing from which it is kept apart has it.
    Clash,
}

/// Why names are refused.
#[derive(Clone, Copy, PartialEq, Eq, Debug)]
pub enum NameFault {
    /// The line that offends, from 1, and how it does; line 0 where the file is too long.
    At { line: u32, kind: NameKind },
    /// Memory ran out.
    Memory,
}

impl From<AllocError> for NameFault {
    ghost use Rattle.dcc_renaming.specs.declared.fault.NameFault.TheVariants.{Memory};

    ghost from_gives = { λ _ fault. fault ≡ Memory };

    fn from(_error: AllocError) -> NameFault {
        NameFault::Memory
    }
}
