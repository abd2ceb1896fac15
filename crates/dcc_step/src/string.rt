//! The string of call 09h.

ghost use Rattle.std.specs.Prelude.{◌≡◌, ◌≤◌, length, OnOk, OnErr};
ghost use Rattle.dcc_io.specs.Count.{Rose};
ghost use Rattle.dcc_io.specs.Told.{append_told, AppendsProperPrefix};
ghost use Rattle.dcc_machine.specs.Dos.{dos_string};
ghost use Rattle.dcc_step.specs.Core.{state_of};

use crate::machine::Machine;
use dcc_console::{put_string, string_length};
use dcc_io::{Failed, Sink};
use dcc_num::Reg;

impl Machine {
    /// The number of bytes of the string at DS:DX.
    pub fn string_length(&self) -> u32
        ensures value { result ≡ length (dos_string (state_of self.now)) }
        ensures within { result ≤ 65536 }
    {
        string_length(&self.memory, self.ds(), u32::from(self.reg(Reg::Dx)))
    }

    /// Writes the string at DS:DX. Where a write fails, a part of it was written.
    pub(crate) fn write_string<O: Sink>(&self, out: &mut O) -> Result<(), Failed>
        ensures whole { OnOk result (O.taken out.new ≡ append_told (O.taken out.old) (dos_string (state_of self.now))) }
        ensures part { OnErr result
            (AppendsProperPrefix (O.taken out.old) (O.taken out.new) (dos_string (state_of self.now))) }
        ensures faults { O.faults out.old ≤ O.faults out.new }
        ensures failed { OnErr result (Rose (O.faults out.old) (O.faults out.new)) }
    {
        put_string(&self.memory, self.ds(), u32::from(self.reg(Reg::Dx)), out)
    }
}
