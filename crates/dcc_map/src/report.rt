//! What a comparison is asked, and what it finds.

use dcc_machine::Cpu;

/// How both runs are made.
#[derive(Clone, Copy)]
pub struct Settings {
    /// The processor of the machine.
    pub cpu: Cpu,
    /// What the text's variables hold before they have a value.
    pub fill: u16,
    /// How many steps each run makes at most.
    pub most: u64,
}

/// How a run has ended, or that it goes on.
#[derive(Clone, Copy, PartialEq, Eq, Debug)]
pub enum End {
    /// It goes on.
    Running,
    /// By its exit, with this code.
    Exit(u8),
    /// By a divide fault.
    Divide,
    /// The machine's run, at what is no instruction, at this offset in the code segment.
    Outside(u16),
    /// The text's run, in this line, at a statement or a closing brace that has no step.
    Stuck(u32),
}

/// A line of the text and an offset in the code segment whose events stand beside each other.
#[derive(Clone, Copy, PartialEq, Eq, Debug)]
pub struct Pair {
    /// The line of the statement.
    pub line: u32,
    /// The offset of the INT 21h.
    pub at: u16,
    /// How often their events stand beside each other.
    pub count: u64,
}

/// What a comparison has found.
#[derive(Drop)]
pub struct Report {
    /// How many bytes both runs have written before their events differ.
    pub bytes: u64,
    /// The lines and offsets of the events before that, by line and then by offset.
    pub pairs: Vec<Pair>,
    /// The line and the offset of the first events that differ.
    pub differs: Option<(u32, u16)>,
    /// How the machine's run has ended.
    pub machine: End,
    /// How the text's run has ended.
    pub text: End,
}
