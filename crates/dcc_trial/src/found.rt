//! What a trial finds.

ghost use Rattle.std.specs.Prelude.{◌≡◌};
ghost use Rattle.dcc_trial.specs.declared.found.NoTrial.TheVariants.{Format, Refused, Memory};

use dcc_mz::MzFault;
use dcc_pipe::NoText;
use std::alloc::AllocError;

/// How a run has ended, or that it goes on.
#[derive(Clone, Copy, PartialEq, Eq, Debug)]
pub enum Ending {
    /// It goes on.
    Running,
    /// By its exit, with this code.
    Exit(u8),
    /// By a divide fault.
    Divide,
}

/// What a run has come to.
#[derive(Drop)]
pub struct Side {
    /// The bytes that it has put out.
    pub output: Vec<u8>,
    /// How it has ended.
    pub ending: Ending,
}

/// What a trial has found.
#[derive(Drop)]
pub struct Trial {
    /// The bytes of the file.
    pub file: usize,
    /// The program's procedures.
    pub procedures: usize,
    /// The bytes of the text.
    pub text: usize,
    /// The machine's run.
    pub machine: Side,
    /// The text's run.
    pub text_run: Side,
}

/// Why a program could not be tried.
#[derive(Clone, Copy, PartialEq, Eq, Debug)]
pub enum NoTrial {
    /// The file has no image.
    Format(MzFault),
    /// The image has no text.
    Refused(NoText),
    /// The machine's run came to what is no instruction, at this offset in the code segment.
    Outside(u16),
    /// Memory ran out.
    Memory,
}

impl From<MzFault> for NoTrial {
    ghost from_gives = { λ fault reason. reason ≡ Format fault };

    fn from(fault: MzFault) -> NoTrial {
        NoTrial::Format(fault)
    }
}

impl From<NoText> for NoTrial {
    ghost from_gives = { λ why reason. reason ≡ Refused why };

    fn from(why: NoText) -> NoTrial {
        NoTrial::Refused(why)
    }
}

impl From<AllocError> for NoTrial {
    ghost from_gives = { λ fault reason. reason ≡ Memory };

    fn from(_: AllocError) -> NoTrial {
        NoTrial::Memory
    }
}
