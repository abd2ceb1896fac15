//! How a step comes out, and how a run has ended.

ghost use Rattle.std.specs.Prelude.{◌≡◌};
ghost use Rattle.dcc_crun.specs.Ending.{answer_of, fault_answer_of};

use dcc_console::Fault;
use dcc_value::value::NoValue;
use std::alloc::{AllocError, AllocFailed};

/// How a step or a run came out.
#[derive(Clone, Copy, PartialEq, Eq, Debug)]
pub enum CStepped {
    /// The run goes on.
    Running,
    /// The text ended with this exit code.
    Exit(u8),
    /// A division has no quotient.
    Divide,
    /// The statement or the closing brace in this line has no step.
    Stuck(u32),
    /// A read of the input failed; the step was not made.
    InFault,
    /// A write to the output failed; the step was not made.
    OutFault,
    /// Memory was wanting; the step was not made.
    Memory,
}

/// How a run has ended, if it has.
#[derive(Clone, Copy, PartialEq, Eq, Debug)]
pub enum Ending {
    /// The run goes on.
    Running,
    /// The run has ended with this exit code.
    Exit(u8),
    /// The run has ended by a division that has no quotient.
    Divide,
    /// The run has ended in this line, at a statement or a closing brace that has no step.
    Stuck(u32),
}

/// Why a step is refused.
#[derive(Clone, Copy, PartialEq, Eq, Debug)]
pub(crate) enum Refusal {
    /// A read failed.
    Input,
    /// A write failed.
    Output,
    /// Memory was wanting.
    Memory,
}

/// Why what a statement does stops before its end.
#[derive(Clone, Copy, PartialEq, Eq, Debug)]
pub(crate) enum Stop {
    /// A division has no quotient.
    Divides,
    /// What the statement does has no meaning.
    Undefined,
    /// What the statement does is refused.
    Refused(Refusal),
}

impl From<NoValue> for Stop {
    ghost use Rattle.dcc_crun.specs.Ending.{stop_of};

    ghost from_gives = { λ why stop. stop ≡ stop_of why };

    fn from(why: NoValue) -> Stop {
        match why {
            NoValue::Divides => Stop::Divides,
            NoValue::Undefined => Stop::Undefined,
        }
    }
}

impl From<Fault> for Stop {
    ghost use Rattle.dcc_crun.specs.declared.ending.Stop.TheVariants.{Refused};
    ghost use Rattle.dcc_crun.specs.Ending.{refusal_of};

    ghost from_gives = { λ fault stop. stop ≡ Refused (refusal_of fault) };

    fn from(fault: Fault) -> Stop {
        match fault {
            Fault::Input => Stop::Refused(Refusal::Input),
            Fault::Output => Stop::Refused(Refusal::Output),
        }
    }
}

impl From<AllocError> for Stop {
    ghost use Rattle.dcc_crun.specs.declared.ending.Refusal.TheVariants.{Memory};
    ghost use Rattle.dcc_crun.specs.declared.ending.Stop.TheVariants.{Refused};

    ghost from_gives = { λ _ stop. stop ≡ Refused Memory };

    fn from(_: AllocError) -> Stop {
        Stop::Refused(Refusal::Memory)
    }
}

impl<T: Drop> From<AllocFailed<T>> for Stop {
    ghost use Rattle.dcc_crun.specs.declared.ending.Refusal.TheVariants.{Memory};
    ghost use Rattle.dcc_crun.specs.declared.ending.Stop.TheVariants.{Refused};

    ghost from_gives = { λ _ stop. stop ≡ Refused Memory };

    fn from(_: AllocFailed<T>) -> Stop {
        Stop::Refused(Refusal::Memory)
    }
}

impl Ending {
    /// What a step answers.
    pub(crate) fn answer(self) -> CStepped
        ensures { result ≡ answer_of self }
    {
        match self {
            Ending::Running => CStepped::Running,
            Ending::Exit(code) => CStepped::Exit(code),
            Ending::Divide => CStepped::Divide,
            Ending::Stuck(line) => CStepped::Stuck(line),
        }
    }
}

impl Refusal {
    /// What a step answers that is refused.
    pub(crate) fn answer(self) -> CStepped
        ensures { result ≡ fault_answer_of self }
    {
        match self {
            Refusal::Input => CStepped::InFault,
            Refusal::Output => CStepped::OutFault,
            Refusal::Memory => CStepped::Memory,
        }
    }
}
