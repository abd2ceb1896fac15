//! Why an image has no text.

ghost use Rattle.std.specs.Prelude.{◌≡◌};
ghost use Rattle.dcc_prog.specs.declared.refusal.Refusal.TheVariants.{Memory};
ghost use Rattle.dcc_pipe.specs.declared.no_text.NoText.TheVariants.{Refused};

use dcc_prog::Refusal;
use std::alloc::AllocError;

/// Why an image has no text.
#[derive(Clone, Copy, PartialEq, Eq, Debug)]
pub enum NoText {
    /// The program is refused.
    Refused(Refusal),
    /// The text of a procedure lacks the shape that the procedure asks for.
    NotYet {
        /// The procedure's entry, an offset in the code segment.
        at: u16,
    },
}

impl From<Refusal> for NoText {
    ghost from_gives = { λ refusal reason. reason ≡ Refused refusal };

    fn from(refusal: Refusal) -> NoText {
        NoText::Refused(refusal)
    }
}

impl From<AllocError> for NoText {
    ghost from_gives = { λ fault reason. reason ≡ Refused Memory };

    fn from(_: AllocError) -> NoText {
        NoText::Refused(Refusal::Memory)
    }
}
