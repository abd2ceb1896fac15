//! Why a text is not parsed.

ghost use Rattle.std.specs.Prelude.{◌≡◌};

use dcc_reader::ParseKind;
use std::alloc::AllocError;

/// Why a text is not parsed.
#[derive(Clone, Copy, PartialEq, Eq, Debug)]
pub enum ParseFault {
    /// What offends in the line, where nothing offends before it.
    At { line: u32, kind: ParseKind },
    /// Memory ran out.
    Memory,
}

impl From<AllocError> for ParseFault {
    ghost use Rattle.dcc_parse.specs.declared.fault.ParseFault.TheVariants.{Memory};

    ghost from_gives = { λ _ fault. fault ≡ Memory };

    fn from(_error: AllocError) -> ParseFault {
        ParseFault::Memory
    }
}
