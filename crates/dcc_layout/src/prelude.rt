//! The prelude and what it leaves.

ghost use Rattle.std.specs.Prelude.{◌≡◌, ◌≤◌, length, None, IfSome};
ghost use Rattle.dcc_machine.specs.declared.instr.Instr.{Instr};
ghost use Rattle.dcc_prog.specs.Layout.{IsFormAt};
ghost use Rattle.dcc_machine.specs.MzImage.{IsLoaded};
ghost use Rattle.dcc_machine.specs.WellFormed.{IsOperation};
ghost use Rattle.dcc_layout.specs.Prelude.{IsLeft};

use crate::form::{is_prelude_form, may_end_prelude};
use crate::registers::Registers;
use dcc_decode::decode_window;
use dcc_machine::{Cpu, Image, Instr};

/// What a prelude leaves.
#[derive(Clone, Copy)]
pub struct Prelude {
    /// The registers and flags.
    pub registers: Registers,
    /// The offset after the prelude in the code segment, at most 65,536.
    pub end: usize,
}

// The processor's instruction at an offset, wholly in the code, if it may stand in a prelude.
fn form_at(code: &[u8], at: usize, cpu: Cpu) -> Option<Instr>
    requires { length code.now ≤ 65536 }
    ensures found { IfSome result (IsFormAt cpu code.now at) }
    ensures operation { IfSome result (λ instr. IsOperation instr.op) }
    ensures none { result ≡ None → (instr : Instr) → ¬ IsFormAt cpu code.now at instr }
{
    let offset = u16::try_from(at).ok()?;
    let instr = decode_window(code.get(at..)?, offset, cpu)?;
    is_prelude_form(instr.op).then_some(instr)
}

/// What the prelude of a loaded program leaves on the processor, which is the longest run from the entry of
/// instructions that may stand in one, up to the last after which it may end.
pub(crate) fn prelude_of(image: &Image, cpu: Cpu) -> Prelude
    requires { IsLoaded image.now }
    ensures { IsLeft cpu image.now result }
{
    let code = image.code();
    let mut registers = Registers::new(image);
    let mut at = usize::from(image.ip);
    let mut prelude = Prelude { registers, end: at };
    while let Some(instr) = form_at(code, at, cpu) {
        registers.execute(cpu, instr.op);
        at += usize::from(instr.len);
        if may_end_prelude(instr.op) {
            prelude = Prelude { registers, end: at };
        }
    }
    prelude
}
