//! The calls of INT 21h.

ghost use Rattle.std.specs.Prelude.{◌≡◌, OnOk, IfErr, IsErrOf};
ghost use Rattle.dcc_machine.specs.Operations.{with_al, with_end};
ghost use Rattle.dcc_machine.specs.Dos.{key_step, dos_call};
ghost use Rattle.dcc_step.specs.Core.{state_of, changed_by};
ghost use Rattle.dcc_step.specs.Ending.{end_of};
ghost use Rattle.dcc_console.specs.Counts.{CountsFaults};
ghost use Rattle.dcc_console.specs.WithConsole.{beside_console};
ghost use Rattle.dcc_console.specs.Steps.{Makes, Steps, refusal_of};
ghost use Rattle.dcc_step.specs.Stepped.{machine_by, LeadsOnBytes};

use crate::ending::Ending;
use crate::machine::Machine;
use dcc_console::{Fault, take_key};
use dcc_io::{Sink, Source, put_all};
use dcc_num::{Half, Reg, dos};

impl Machine {
    /// Gives AL a value.
    pub(crate) fn set_al(&mut self, byte: u8)
        ensures { self.new ≡ changed_by (with_al byte) self.old }
    {
        let word = Half::Low.put(self.reg(Reg::Ax), byte);
        self.set_reg(Reg::Ax, word);
    }

    /// Ends the run at the instruction at an offset.
    pub(crate) fn finish(&mut self, end: Ending, at: u16)
        ensures { self.new ≡ changed_by (with_end (end_of end) at) self.old }
    {
        self.end = end;
        self.ip = at;
    }

    // Takes the next key into AL, and writes it where it is echoed.
    fn read_key<I: Source, O: Sink>(
        &mut self,
        echo: bool,
        input: &mut I,
        out: &mut O,
    ) -> Result<(), Fault>
        ensures made { OnOk result (Makes (machine_by (λ cpu. key_step echo))
            (beside_console self.old (I.left input.old) (O.taken out.old))
            (beside_console self.new (I.left input.new) (O.taken out.new))) }
        ensures bytes { OnOk result (LeadsOnBytes (λ cpu. key_step echo) self.old self.new) }
        ensures refused { IfErr result (λ fault. Steps (machine_by (λ cpu. key_step echo)) (refusal_of fault)
            (beside_console self.old (I.left input.old) (O.taken out.old))
            (beside_console self.new (I.left input.new) (O.taken out.new))) }
        ensures faults { CountsFaults (IsErrOf result Fault.Input) (IsErrOf result Fault.Output)
            (I.faults input.old) (I.faults input.new) (O.faults out.old) (O.faults out.new) }
    {
        let byte = take_key(echo, input, out)?;
        self.set_al(byte);
        Ok(())
    }

    /// INT 21h at an offset, by the number in AH.
    pub(crate) fn call_dos<I: Source, O: Sink>(
        &mut self,
        at: u16,
        input: &mut I,
        out: &mut O,
    ) -> Result<(), Fault>
        ensures made { OnOk result (Makes (machine_by (λ cpu. dos_call at))
            (beside_console self.old (I.left input.old) (O.taken out.old))
            (beside_console self.new (I.left input.new) (O.taken out.new))) }
        ensures bytes { OnOk result (LeadsOnBytes (λ cpu. dos_call at) self.old self.new) }
        ensures refused { IfErr result (λ fault. Steps (machine_by (λ cpu. dos_call at)) (refusal_of fault)
            (beside_console self.old (I.left input.old) (O.taken out.old))
            (beside_console self.new (I.left input.new) (O.taken out.new))) }
        ensures faults { CountsFaults (IsErrOf result Fault.Input) (IsErrOf result Fault.Output)
            (I.faults input.old) (I.faults input.new) (O.faults out.old) (O.faults out.new) }
    {
        let ax = self.reg(Reg::Ax);
        match Half::High.of(ax) {
            dos::GETCHE => return self.read_key(true, input, out),
            dos::GETCH => return self.read_key(false, input, out),
            dos::PUTC => {
                let byte = Half::Low.of(self.reg(Reg::Dx));
                let Ok(()) = put_all(out, &[byte]) else {
                    return Err(Fault::Output);
                };
            }
            dos::PUTS => {
                let Ok(()) = self.write_string(out) else {
                    return Err(Fault::Output);
                };
            }
            dos::EXIT => self.finish(Ending::Exit(Half::Low.of(ax)), at),
            _ => self.finish(Ending::Outside(at), at),
        }
        Ok(())
    }
}
