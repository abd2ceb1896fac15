//! The decoder of the instructions of the 8086 and the 80186 (8086 Family User's Manual, table 4-12; iAPX 86/88,
//! 186/188 User's Manual, Programmer's Reference).
#![tactic(auto)]

mod fields;
pub mod laws;
mod operand;
mod operation;

ghost use Rattle.std.specs.Prelude.{◌≡◌, ◌≢◌, ◌<◌, ◌∷◌, ℕ, drop, length, slice_index, IfSome};
ghost use Rattle.dcc_machine.specs.declared.cpu.Cpu.{Cpu};
ghost use Rattle.dcc_machine.specs.Table.{instruction_at};
ghost use Rattle.dcc_machine.specs.WellFormed.{IsOperation};

use dcc_machine::{Cpu, Instr, Op};
use dcc_num::Reg;
use fields::Fields;

/// The instruction of the processor that begins at the index `at` of `code` and lies wholly within it. It is None
/// where these bytes are no instruction of that processor that this project knows. An index of `code` is an offset in
/// the code segment.
#[tactic(auto, using(crate::proofs::Decoding::end_rules))]
pub fn decode(code: &[u8], at: u16, cpu: Cpu) -> Option<Instr>
    ensures { result ≡ instruction_at cpu at (drop at code.now) }
{
    let bytes = code.get(usize::from(at)..)?;
    decode_window(bytes, at, cpu)
}

/// The instruction of the processor whose first byte is the first one of the window, and stands at the offset `at` of
/// the code segment. It is None where no instruction of that processor that this project knows lies wholly within the
/// window.
pub fn decode_window(window: &[u8], at: u16, cpu: Cpu) -> Option<Instr>
    ensures found { result ≡ instruction_at cpu at window.now }
    ensures operation { IfSome result (λ instr. IsOperation instr.op) }
{
    instruction_in(window, at, cpu)
}

// The instruction that begins with the first byte of a window.
#[tactic(auto, using(crate::proofs::Decoding::end_rules))]
fn instruction_in(window: &[u8], at: u16, cpu: Cpu) -> Option<Instr>
    ensures { result ≡ instruction_at cpu at window.now }
{
    let (opcode, rest) = window.split_first()?;
    match *opcode {
        0x2e => table_jump(rest),
        0xc8 => enter(rest, cpu),
        0xcd => interrupt(rest),
        _ => decode_fields(window, at, cpu),
    }
}

// An instruction other than INT 21h, the jump through a table and ENTER, whose first bytes are its opcode and its
// ModRM byte.
#[tactic(auto, using(crate::proofs::Decoding::field_rules))]
fn decode_fields(bytes: &[u8], at: u16, cpu: Cpu) -> Option<Instr>
    requires some { 0 < length bytes.now }
    requires table_jump { slice_index bytes.now 0 ≢ 0x2e }
    requires enter { slice_index bytes.now 0 ≢ 0xc8 }
    requires interrupt { slice_index bytes.now 0 ≢ 0xcd }
    ensures { result ≡ instruction_at cpu at bytes.now }
{
    let fields = Fields::read(bytes, at)?;
    let op = operation::operation(fields, cpu)?;
    Some(Instr {
        op,
        len: fields.len,
    })
}

// INT 21h, by the bytes after its opcode.
#[tactic(auto, using(crate::proofs::Decoding::interrupt_rules))]
fn interrupt(rest: &[u8]) -> Option<Instr>
    ensures { (cpu : Cpu) (at : ℕ) → result ≡ instruction_at cpu at (0xcd ∷ rest.now) }
{
    if *rest.first()? == 0x21 {
        Some(Instr {
            op: Op::Int21,
            len: 2,
        })
    } else {
        None
    }
}

// A jump to the word at CS:[SI+iw], CS:[DI+iw] or CS:[BX+iw], by the bytes after its CS prefix.
#[tactic(auto, using(crate::proofs::Decoding::table_jump_rules), unfolding(dcc_machine::specs::Bytes::word_at))]
fn table_jump(rest: &[u8]) -> Option<Instr>
    ensures { (cpu : Cpu) (at : ℕ) → result ≡ instruction_at cpu at (0x2e ∷ rest.now) }
{
    let [0xff, modrm, _, _, ..] = rest else {
        return None;
    };
    let register = match *modrm {
        0xa4 => Reg::Si,
        0xa5 => Reg::Di,
        0xa7 => Reg::Bx,
        _ => return None,
    };
    Some(Instr {
        op: Op::Table(register, fields::word(rest, 2)),
        len: 5,
    })
}

// ENTER at level 0, which the 80186 alone has, by the bytes after its opcode: the word, then the level.
#[tactic(auto, using(crate::proofs::Decoding::enter_rules), unfolding(dcc_machine::specs::Bytes::word_at))]
fn enter(rest: &[u8], cpu: Cpu) -> Option<Instr>
    ensures { (at : ℕ) → result ≡ instruction_at cpu at (0xc8 ∷ rest.now) }
{
    let [_, _, 0x00, ..] = rest else {
        return None;
    };
    match cpu {
        Cpu::I8086 => None,
        Cpu::I186 => Some(Instr {
            op: Op::Enter(fields::word(rest, 0)),
            len: 4,
        }),
    }
}
