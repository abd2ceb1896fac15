//! What the program is to do.

use dcc_machine::Cpu;

/// What is made of an executable.
#[derive(Clone, Copy, PartialEq, Eq, Debug)]
pub enum Product {
    /// Its text.
    Text,
    /// The list of its procedures.
    Procedures,
    /// The listing of its image in assembler's words.
    Listing,
}

/// The run of an executable.
#[derive(Clone, Copy, PartialEq, Eq, Debug)]
pub struct Execution<'a> {
    /// The executable's name.
    pub file: &'a str,
    /// The most steps of the run.
    pub steps: u64,
    /// The processor that makes them.
    pub cpu: Cpu,
}

/// The run of a text.
#[derive(Clone, Copy, PartialEq, Eq, Debug)]
pub struct TextExecution<'a> {
    /// The text's name.
    pub file: &'a str,
    /// The most steps of the run.
    pub steps: u64,
    /// What variables and the stack hold before they have a value.
    pub fill: u16,
}

/// The trial of a program made at random.
#[derive(Clone, Copy, PartialEq, Eq, Debug)]
pub struct Attempt {
    /// The seed from which the program is drawn.
    pub seed: u64,
    /// The number of its pieces, 1 to 1,000.
    pub size: u16,
    /// The most steps of each of the two runs.
    pub steps: u64,
}

/// A job of the program.
#[derive(Clone, Copy, PartialEq, Eq, Debug)]
pub enum Job<'a> {
    /// Make this of the executable of this name, for this processor.
    Make {
        product: Product,
        file: &'a str,
        cpu: Cpu,
    },
    /// Run an executable.
    Execute(Execution<'a>),
    /// Run an executable with each step's cleanness tested before the step is made.
    ExecuteWatched(Execution<'a>),
    /// Run a text.
    ExecuteText(TextExecution<'a>),
    /// Assemble the listing of this name to the bytes of its image.
    Assemble(&'a str),
    /// Try a program made at random.
    Try(Attempt),
}
