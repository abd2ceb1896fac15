//! How a step comes out, and how a run has ended.

ghost use Rattle.std.specs.Prelude.{◌≡◌};
ghost use Rattle.dcc_step.specs.Ending.{answer_of, fault_answer_of};

use dcc_console::Fault;

/// How a step or a run came out.
#[derive(Clone, Copy, PartialEq, Eq, Debug)]
pub enum Stepped {
    /// The run goes on.
    Running,
    /// The program ended with this exit code.
    Exit(u8),
    /// A division had no quotient.
    Divide,
    /// The instruction at this offset of the code segment is none that the machine knows.
    Outside(u16),
    /// A read of the input failed; the step was not made.
    InFault,
    /// A write to the output failed; the step was not made.
    OutFault,
}

/// How the run of a machine has ended, if it has.
#[derive(Clone, Copy, PartialEq, Eq, Debug)]
pub enum Ending {
    /// The run goes on.
    Running,
    /// The program ended with this exit code.
    Exit(u8),
    /// A division had no quotient.
    Divide,
    /// The instruction at this offset of the code segment is none that the machine knows.
    Outside(u16),
}

impl Ending {
    /// What a step answers.
    pub fn answer(self) -> Stepped
        ensures { result ≡ answer_of self }
    {
        match self {
            Ending::Running => Stepped::Running,
            Ending::Exit(code) => Stepped::Exit(code),
            Ending::Divide => Stepped::Divide,
            Ending::Outside(at) => Stepped::Outside(at),
        }
    }
}

impl From<Fault> for Stepped {
    ghost from_gives = { λ fault answer. answer ≡ fault_answer_of fault };

    fn from(fault: Fault) -> Stepped {
        match fault {
            Fault::Input => Stepped::InFault,
            Fault::Output => Stepped::OutFault,
        }
    }
}
