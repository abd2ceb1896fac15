//! Why a text isn't assembled.

ghost use Rattle.std.specs.Prelude.{◌≡◌};

use std::alloc::AllocError;

/// How a line offends.
#[derive(Clone, Copy, PartialEq, Eq, Debug)]
pub enum ListKind {
    /// The text has more than 67,108,864 bytes, or the line gives the image more than 262,144 bytes.
    Length,
    /// The first line doesn't tell the processor and the code segment.
    Head,
    /// The line has no form that a line may have.
    Word,
    /// The operation has no encoding at its offset.
    Range,
    /// The bytes aren't an encoding of the operation, or are its standard one.
    Odd,
    /// The next byte doesn't stand at the offset that the line tells.
    Place,
}

/// Why a text isn't assembled.
#[derive(Clone, Copy, PartialEq, Eq, Debug)]
pub enum ListFault {
    /// How the line offends, where no line before it does. Lines are counted from 1; a text that is too long offends
    /// in line 0.
    At { line: u32, kind: ListKind },
    /// Memory ran out.
    Memory,
}

impl From<AllocError> for ListFault {
    ghost use Rattle.dcc_asm.specs.declared.fault.ListFault.TheVariants.{Memory};

    ghost from_gives = { λ _ fault. fault ≡ Memory };

    fn from(_error: AllocError) -> ListFault {
        ListFault::Memory
    }
}
