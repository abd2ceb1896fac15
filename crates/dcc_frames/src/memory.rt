//! What an instruction uses of its procedure's frame.

ghost use Rattle.std.specs.Prelude.{◌≡◌, ◌≤◌, ◌<◌, ℤ, pos, neg_ℤ, ◌≤ℤ◌, ◌<ℤ◌, IfSome};
ghost use Rattle.dcc_num.specs.Numbers.{signed_of};
ghost use Rattle.dcc_machine.specs.Access.{bytes_in, is_direct};
ghost use Rattle.dcc_prog.specs.Frame.{memory_of, memory_of_two, memory_operand, offset_in_frame};
ghost use Rattle.dcc_frames.specs.Bytes.{IsReached};
ghost use Rattle.dcc_frames.specs.Used.{access_at, access_of, start_at, start_of, is_bp_word, word_at, moved_of};

use crate::bytes::Bytes;
use dcc_machine::{Ea, Op, Operand};
use dcc_num::{Reg, Width};

// The operand, if it lies in memory.
fn memory_of(operand: Operand) -> Option<(Width, Ea)>
    ensures { result ≡ memory_of operand }
{
    match operand {
        Operand::Mem(width, ea) => Some((width, ea)),
        _ => None,
    }
}

// The memory operand among two operands, of which one at most lies in memory.
fn memory_of_two(a: Operand, b: Operand) -> Option<(Width, Ea)>
    ensures { result ≡ memory_of_two a b }
{
    match a {
        Operand::Mem(width, ea) => Some((width, ea)),
        _ => memory_of(b),
    }
}

/// The memory operand of an operation; LEA has none.
pub fn memory_operand(op: Op) -> Option<(Width, Ea)>
    ensures { result ≡ memory_operand op }
{
    match op {
        Op::Alu(_, a, b) | Op::Mov(a, b) | Op::Xchg(a, b) => memory_of_two(a, b),
        Op::Unary(_, a) | Op::Shift(_, a, _) | Op::Imul3(_, a, _) | Op::Push(a) | Op::Pop(a) =>
            memory_of(a),
        _ => None,
    }
}

/// Whether the address is BP plus a displacement, without an index.
pub fn is_direct(ea: Ea) -> bool
    ensures { result ≡ is_direct ea }
{
    matches!(ea.base, Some(Reg::Bp)) && ea.index.is_none()
}

/// The displacement, taken as a signed word.
#[tactic(auto, unfolding(dcc_num::specs::Numbers::signed_of))]
pub fn offset_in_frame(ea: Ea) -> i32
    ensures value { result ≡ offset_in_frame ea }
    ensures low { neg_ℤ (pos 32768) ≤ℤ result }
    ensures high { result <ℤ pos 32768 }
{
    if ea.disp >= 32768 {
        i32::from(ea.disp) - 65536
    } else {
        i32::from(ea.disp)
    }
}

// The number of bytes of an operand.
fn bytes_in(width: Width) -> i32
    ensures value { result ≡ pos (bytes_in width) }
    ensures low { pos 1 ≤ℤ result }
    ensures high { result ≤ℤ pos 2 }
{
    match width {
        Width::Byte => 1,
        Width::Word => 2,
    }
}

// The bytes of a memory operand at BP plus a displacement.
fn access_at(operand: Option<(Width, Ea)>) -> Option<Bytes>
    ensures value { result ≡ access_at operand }
    ensures small { IfSome result IsReached }
{
    match operand {
        Some((width, ea)) if is_direct(ea) => {
            let first = offset_in_frame(ea);
            let end = first + bytes_in(width);
            Some(Bytes { first, end })
        }
        _ => None,
    }
}

/// The bytes of a direct access, which a framed procedure makes.
pub fn access(framed: bool, op: Op) -> Option<Bytes>
    ensures value { result ≡ access_of framed op }
    ensures small { IfSome result IsReached }
{
    if framed {
        access_at(memory_operand(op))
    } else {
        None
    }
}

// From where a memory operand with BP and an index exposes bytes.
fn start_at(operand: Option<(Width, Ea)>) -> Option<i32>
    ensures value { result ≡ start_at operand }
    ensures small { IfSome result (λ start. (neg_ℤ (pos 65535) ≤ℤ start) × (start ≤ℤ pos 32767)) }
{
    match operand {
        Some((_, ea)) if ea.uses_bp() && !is_direct(ea) => Some(offset_in_frame(ea)),
        _ => None,
    }
}

/// From which byte on an instruction exposes the frame's bytes, if it does: LEA of another register than SP from an
/// address with BP, an operand with BP and an index, or `mov r,bp`, which exposes all bytes between SP and BP.
pub fn start(op: Op, height: u16) -> Option<i32>
    ensures value { result ≡ start_of op height }
    ensures small { IfSome result (λ start. (neg_ℤ (pos 65535) ≤ℤ start) × (start ≤ℤ pos 32767)) }
{
    match op {
        Op::Lea(Reg::Sp, _) => None,
        Op::Lea(_, ea) if ea.uses_bp() => Some(offset_in_frame(ea)),
        Op::Lea(..) => None,
        _ if op.copies_bp() => Some(2 - i32::from(height)),
        _ => start_at(memory_operand(op)),
    }
}

// Whether the operand is BP.
fn is_bp(operand: Operand) -> bool
    ensures { result ≡ is_bp_word operand }
{
    matches!(operand, Operand::Word(Reg::Bp))
}

/// A word at an offset.
pub fn word_at(first: i32) -> Bytes
    requires low { neg_ℤ (pos 200000) ≤ℤ first }
    requires high { first ≤ℤ pos 200000 }
    ensures { result ≡ word_at first }
{
    Bytes {
        first,
        end: first + 2,
    }
}

/// The word that a PUSH or POP moves, but for the saved BP of a framed procedure.
pub fn moved(framed: bool, op: Op, height: u16) -> Option<Bytes>
    ensures { result ≡ moved_of framed op height }
{
    match op {
        Op::Push(a) | Op::Pop(a) if framed && is_bp(a) => None,
        Op::Push(_) => Some(word_at(-i32::from(height))),
        Op::Pop(_) => Some(word_at(2 - i32::from(height))),
        _ => None,
    }
}
