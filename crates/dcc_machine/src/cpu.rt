//! The processors.

ghost use Rattle.std.specs.Prelude.{◌≡◌};
ghost use Rattle.dcc_machine.specs.Operations.{taken_count};

/// The processor that runs a program.
#[derive(Clone, Copy, PartialEq, Eq, Debug)]
pub enum Cpu {
    /// The Intel 8086.
    I8086,
    /// The Intel 80186: the 8086 with some instructions more, and with counts of shifts modulo 32.
    I186,
}

impl Cpu {
    /// How far a shift goes by a number in CL: the 80186 takes it modulo 32.
    pub fn taken_count(self, number: u8) -> u8
        ensures { result ≡ taken_count self number }
    {
        match self {
            Cpu::I8086 => number,
            Cpu::I186 => number % 32,
        }
    }
}
