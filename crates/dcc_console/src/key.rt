//! Keys: bytes of the input that a program asks for one at a time.

ghost use Rattle.std.specs.Prelude.{◌≡◌, ◌≤◌, ◌∷◌, [], OnOk, OnErr, IfOk, IfErr, IsErrOf, Ok, None};
ghost use Rattle.std.specs.Option.{option_to_list};
ghost use Rattle.dcc_io.specs.Count.{Rose};
ghost use Rattle.dcc_io.specs.Told.{append_told, prepend_told, AppendsProperPrefix};
ghost use Rattle.dcc_console.specs.Key.{echoed, TakesKey, IsRefusedKey};
ghost use Rattle.dcc_console.specs.WithConsole.{told_bytes};

use crate::fault::Fault;
use dcc_io::{Failed, Sink, Source, put_all};
use dcc_num::dos;

// The next input byte, or `None` at the end of the input.
fn next_byte<I: Source>(input: &mut I) -> Result<Option<u8>, Failed>
    ensures byte { IfOk result (λ byte. I.left input.old ≡ prepend_told (option_to_list byte) (I.left input.new)) }
    ensures end { result ≡ Ok None → told_bytes (I.left input.new) ≡ [] }
    ensures err { OnErr result (I.left input.new ≡ I.left input.old) }
    ensures faults { I.faults input.old ≤ I.faults input.new }
    ensures failed { OnErr result (Rose (I.faults input.old) (I.faults input.new)) }
{
    let mut buffer = [0u8];
    let count = input.read(&mut buffer)?;
    if count == 0 {
        Ok(None)
    } else {
        Ok(Some(buffer[0]))
    }
}

// Writes a byte where it is echoed.
fn echo_byte<O: Sink>(echo: bool, byte: u8, out: &mut O) -> Result<(), Failed>
    ensures whole { OnOk result (O.taken out.new ≡ append_told (O.taken out.old) (echoed echo byte)) }
    ensures part { OnErr result (AppendsProperPrefix (O.taken out.old) (O.taken out.new) (echoed echo byte)) }
    ensures faults { O.faults out.old ≤ O.faults out.new }
    ensures failed { OnErr result (Rose (O.faults out.old) (O.faults out.new)) }
{
    if echo { put_all(out, &[byte]) } else { Ok(()) }
}

/// Takes the next key, and writes it where it is echoed. The key is the next input byte, or 1Ah, which is
/// not written, where there is none. The error is `Input` where a read failed, and then nothing was read or written;
/// `Output` where the write of the key failed, and then its byte stays taken.
pub fn take_key<I: Source, O: Sink>(echo: bool, input: &mut I, out: &mut O) -> Result<u8, Fault>
    ensures taken { IfOk result (TakesKey echo
        (I.left input.old) (O.taken out.old) (I.left input.new) (O.taken out.new)) }
    ensures refused { IfErr result (IsRefusedKey echo
        (I.left input.old) (O.taken out.old) (I.left input.new) (O.taken out.new)) }

    // The counts never fall, and a fault comes only where its count rose.
    ensures input_faults { I.faults input.old ≤ I.faults input.new }
    ensures output_faults { O.faults out.old ≤ O.faults out.new }
    ensures read_failed { IsErrOf result Fault.Input → Rose (I.faults input.old) (I.faults input.new) }
    ensures write_failed { IsErrOf result Fault.Output → Rose (O.faults out.old) (O.faults out.new) }
{
    let Ok(next) = next_byte(input) else {
        return Err(Fault::Input);
    };
    let Some(byte) = next else {
        return Ok(dos::END_OF_INPUT);
    };
    let Ok(()) = echo_byte(echo, byte, out) else {
        return Err(Fault::Output);
    };
    Ok(byte)
}
