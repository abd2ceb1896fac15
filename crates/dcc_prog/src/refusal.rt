//! Why a program is not decompiled.

use std::alloc::{AllocError, AllocFailed};

/// Why the accesses to a frame are none that variables can make.
#[derive(Clone, Copy, PartialEq, Eq, Debug)]
pub enum FrameFault {
    /// A direct access lies neither wholly in the arguments nor wholly between SP and BP.
    AccessOutside,
    /// An address is computed of a byte that lies neither in the arguments nor between SP and BP.
    AddressOutside,
    /// An address of the frame may be computed where the stack lies apart from the data, or where the procedure sets up
    /// no BP.
    NoAddress,
    /// An instruction uses bytes of an extent of more than two, which would need an address, where the stack lies apart
    /// from the data, or where the procedure sets up no BP.
    LongExtent,
}

/// What stands in a program for which it is not decompiled. `NoLayout` stands where the program begins,
/// `SeveralResults` at a procedure's entry, each other at an instruction that is reached.
#[derive(Clone, Copy, PartialEq, Eq, Debug)]
pub enum ConstructKind {
    /// No layout of the small memory model holds of the image.
    NoLayout,
    /// No instruction of the table of encodings lies at the offset, wholly in the code; or the instruction there moves
    /// a segment register, or is CLI, STI or CLD, after the prelude; or it uses SP or BP in a form that no frame has,
    /// or at a height at which the form is none.
    OutsideProfile,
    /// A jump through a register or memory that is no jump through a table; or one through a table of which trails tell
    /// no number of entries or two numbers, or which does not lie wholly in the code.
    IndirectJump,
    /// A call through a register or memory.
    IndirectCall,
    /// INT 21h where AH is not known, has two values, or has another number than the five.
    DosNumber,
    /// Two trails give the stack two heights; or it is taken above the procedure's entry, or into its saved BP
    /// otherwise than by POP BP or LEAVE, or is not empty at a RET; or two RETs of the procedure remove different
    /// sizes; or the height is above 32,766.
    StackHeight,
    /// A frame is accessed, or its addresses are computed, as no frame of variables can be.
    FrameAccess(FrameFault),
    /// A call finds fewer bytes in its own frame than the callee's arguments take.
    ArgumentsShort,
    /// A CALL passes an argument that its procedure may change, and a byte of it is wanted after the CALL, or stands
    /// in no cell of the caller.
    ArgumentReused,
    /// A procedure gives several values back that its callers want: not halves of one register, one flag, or halves of
    /// AX and DX.
    SeveralResults,
    /// A RET in the entry procedure, or a call of it.
    EntryReturn,
    /// A division whose upper half is not prepared: made 0 before DIV, or the sign of the lower half before IDIV.
    Division,
}

impl ConstructKind {
    ghost use Rattle.std.specs.Prelude.{◌≡◌};
    ghost use Rattle.dcc_prog.specs.Construct.{construct_number};

    /// The number by which the construct is told, from 1 to 12.
    pub fn number(self) -> u8
        ensures { result ≡ construct_number self }
    {
        match self {
            ConstructKind::NoLayout => 1,
            ConstructKind::OutsideProfile => 2,
            ConstructKind::IndirectJump => 3,
            ConstructKind::IndirectCall => 4,
            ConstructKind::DosNumber => 5,
            ConstructKind::StackHeight => 6,
            ConstructKind::FrameAccess(_) => 7,
            ConstructKind::ArgumentsShort => 8,
            ConstructKind::ArgumentReused => 9,
            ConstructKind::SeveralResults => 10,
            ConstructKind::EntryReturn => 11,
            ConstructKind::Division => 12,
        }
    }
}

/// A count that has a greatest number.
#[derive(Clone, Copy, PartialEq, Eq, Debug)]
pub enum LimitName {
    /// Procedures of a program: 512.
    Procedures,
    /// Instructions of one procedure: 4,096.
    Instructions,
    /// Instructions over all procedures: 32,768.
    Total,
    /// Cells of one frame: 512.
    Cells,
    /// Entries of a jump table: 256.
    Entries,
    /// Argument words on the stack: 32.
    Arguments,
}

/// Why a program is not decompiled.
#[derive(Clone, Copy, PartialEq, Eq, Debug)]
pub enum Refusal {
    /// A construct stands at the offset in the code segment.
    Construct { kind: ConstructKind, at: u16 },
    /// A count is above its greatest number.
    Limit { what: LimitName, count: u32 },
    /// Memory ran out.
    Memory,
}

impl From<AllocError> for Refusal {
    ghost use Rattle.std.specs.Prelude.{◌≡◌};
    ghost use Rattle.dcc_prog.specs.declared.refusal.Refusal.TheVariants.{Memory};

    ghost from_gives = { λ _ refusal. refusal ≡ Memory };

    fn from(_: AllocError) -> Self {
        Refusal::Memory
    }
}

impl<T: Drop> From<AllocFailed<T>> for Refusal {
    ghost use Rattle.std.specs.Prelude.{◌≡◌};
    ghost use Rattle.dcc_prog.specs.declared.refusal.Refusal.TheVariants.{Memory};

    ghost from_gives = { λ _ refusal. refusal ≡ Memory };

    fn from(_: AllocFailed<T>) -> Self {
        Refusal::Memory
    }
}
