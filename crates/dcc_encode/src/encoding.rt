//! The encodings of an operation at an offset, and the standard one among them.

ghost use Rattle.std.specs.Prelude.{◌≡◌, ◌≤◌, [], ◌∷◌, ◌++◌, ℕ, List, OnOk, IfOk, MatchOption, IsTrue, ◌↔◌, length};
ghost use Rattle.dcc_encode.specs.EncodingViews.{IsBest, items_of};
ghost use Rattle.dcc_encode.specs.Encoding.{IsEncoding, IsStandard, is_preferred};
ghost use Rattle.dcc_encode.specs.Shapes.{displacement_in, constant_in, head_bytes, size_of, low_bytes, draft};
ghost use Rattle.dcc_encode.specs.Shapes.{operand_displacement, displacement_of_two, distance, moved_constant};
ghost use Rattle.dcc_encode.specs.Shapes.{operand_constant, count_constant};

use crate::shape::{Head, Shape, shapes_of};
use dcc_decode::decode_window;
use dcc_machine::{Count, Cpu, Op, Operand};
use dcc_num::Width;
use smallvec::SmallVec;
use std::alloc::{AllocError, Global};

// The number of offsets in a segment.
const OFFSETS: usize = 65536;

/// The bytes of an encoding.
pub type Bytes = SmallVec<u8, 8>;

fn operand_displacement(a: Operand) -> u16
    ensures { result ≡ operand_displacement a }
{
    match a {
        Operand::Mem(_, ea) => ea.disp,
        _ => 0,
    }
}

// The displacement of two operands, of which one at most lies in memory.
fn displacement_of_two(a: Operand, b: Operand) -> u16
    ensures { result ≡ displacement_of_two a b }
{
    match a {
        Operand::Mem(_, ea) => ea.disp,
        _ => operand_displacement(b),
    }
}

// The number that stands as a displacement.
fn displacement_in(op: Op) -> u16
    ensures { result ≡ displacement_in op }
{
    match op {
        Op::Alu(_, a, b) | Op::Mov(a, b) | Op::Xchg(a, b) => displacement_of_two(a, b),
        Op::Unary(_, a) | Op::Shift(_, a, _) | Op::Imul3(_, a, _) => operand_displacement(a),
        Op::Push(a) | Op::Pop(a) => operand_displacement(a),
        Op::Lea(_, ea) => ea.disp,
        Op::Enter(count) => count,
        Op::Table(_, offset) => offset,
        _ => 0,
    }
}

// How far a target lies from the next instruction, modulo 65536.
fn distance(target: u16, next: u16) -> u16
    ensures { result ≡ distance target next }
{
    target.wrapping_sub(next)
}

// The constant of a MOV, where the displacement of a memory operand may stand as one.
fn moved_constant(to: Operand, from: Operand) -> u16
    ensures { result ≡ moved_constant to from }
{
    match from {
        Operand::Const(_, number) => number,
        _ => displacement_of_two(to, from),
    }
}

fn operand_constant(a: Operand) -> u16
    ensures { result ≡ operand_constant a }
{
    match a {
        Operand::Const(_, number) => number,
        _ => operand_displacement(a),
    }
}

fn count_constant(count: Count) -> u16
    ensures { result ≡ count_constant count }
{
    match count {
        Count::Const(number) => u16::from(number),
        Count::One | Count::Cl => 0,
    }
}

// The number that stands as a constant, where the next instruction has this offset.
fn constant_in(op: Op, next: u16) -> u16
    ensures { result ≡ constant_in op next }
{
    match op {
        Op::Alu(_, _, b) => operand_constant(b),
        Op::Shift(_, _, count) => count_constant(count),
        Op::Mov(to, from) => moved_constant(to, from),
        Op::Imul3(_, _, constant) => constant,
        Op::Push(a) => operand_constant(a),
        Op::Ret(count) => count,
        Op::Jump(target) | Op::Branch(_, target) | Op::Call(target) => distance(target, next),
        Op::Loop(target) | Op::LoopE(target) | Op::LoopNe(target) | Op::Jcxz(target) => {
            distance(target, next)
        }
        _ => 0,
    }
}

// The number of bytes before the displacement.
fn head_length(head: Head) -> u16
    ensures { result ≡ length (head_bytes head) }
{
    match head {
        Head::Opcode(_) => 1,
        Head::TwoBytes(_, _) => 2,
        Head::ThreeBytes(_, _, _) => 3,
    }
}

fn size_of(width: Option<Width>) -> u16
    ensures value { result ≡ size_of width }
    ensures small { result ≤ 2 }
{
    match width {
        None => 0,
        Some(Width::Byte) => 1,
        Some(Width::Word) => 2,
    }
}

fn push_head(bytes: &mut Bytes, head: Head) -> Result<(), AllocError>
    ensures { OnOk result (bytes.new.items ≡ bytes.old.items ++ head_bytes head) }
{
    match head {
        Head::Opcode(opcode) => bytes.push(opcode)?,
        Head::TwoBytes(first, second) => {
            bytes.push(first)?;
            bytes.push(second)?;
        }
        Head::ThreeBytes(first, second, third) => {
            bytes.push(first)?;
            bytes.push(second)?;
            bytes.push(third)?;
        }
    }
    Ok(())
}

// Appends the low bytes of a number, the lowest first.
fn push_low(bytes: &mut Bytes, width: Option<Width>, number: u16) -> Result<(), AllocError>
    ensures { OnOk result (bytes.new.items ≡ bytes.old.items ++ low_bytes width number) }
{
    match width {
        None => {}
        Some(Width::Byte) => bytes.push((number % 256) as u8)?,
        Some(Width::Word) => {
            bytes.push((number % 256) as u8)?;
            bytes.push((number / 256) as u8)?;
        }
    }
    Ok(())
}

// The bytes of a shape with the operation's displacement and constant, at an offset.
fn draft(alloc: Global, op: Op, at: u16, shape: Shape) -> Result<Bytes, AllocError>
    ensures { IfOk result (λ bytes. bytes.items ≡ draft op at shape) }
{
    let displacement = size_of(shape.displacement);
    let constant = size_of(shape.constant);
    let next = at.wrapping_add(head_length(shape.head) + displacement + constant);
    let mut bytes = Bytes::new(alloc);
    push_head(&mut bytes, shape.head)?;
    push_low(&mut bytes, shape.displacement, displacement_in(op))?;
    push_low(&mut bytes, shape.constant, constant_in(op, next))?;
    Ok(bytes)
}

// Whether two operations are one.
fn is_same(op: Op, other: Op) -> bool
    ensures { IsTrue result ↔ (op ≡ other) }
{
    op == other
}

/// Whether the bytes, whole, are an encoding of the operation at the offset.
pub fn is_encoding(bytes: &[u8], at: u16, op: Op, cpu: Cpu) -> bool
    ensures { IsTrue result ↔ IsEncoding cpu at op bytes.now }
{
    if usize::from(at) + bytes.len() > OFFSETS {
        return false;
    }
    match decode_window(bytes, at, cpu) {
        Some(instr) => usize::from(instr.len) == bytes.len() && is_same(instr.op, op),
        None => false,
    }
}

// Whether an encoding is preferred to another: it is shorter, or as long and greater.
fn is_preferred(bytes: &[u8], others: &[u8]) -> bool
    ensures { result ≡ is_preferred bytes.now others.now }
{
    bytes.len() < others.len() || (bytes.len() == others.len() && others.cmp(&bytes).is_lt())
}

// The best encoding so far, after one more draft.
fn with_draft(best: Option<Bytes>, bytes: Bytes, op: Op, at: u16, cpu: Cpu) -> Option<Bytes>
    ensures { (drafts : List (List ℕ)) → IsBest cpu at op drafts (items_of best)
        → IsBest cpu at op (drafts ++ bytes.items ∷ []) (items_of result) }
{
    if !is_encoding(bytes.as_slice(), at, op, cpu) {
        return best;
    }
    match best {
        Some(known) => {
            if is_preferred(bytes.as_slice(), known.as_slice()) {
                Some(bytes)
            } else {
                Some(known)
            }
        }
        None => Some(bytes),
    }
}

/// The standard encoding of the operation at the offset; None where it has no encoding there.
pub fn standard(alloc: Global, op: Op, at: u16, cpu: Cpu) -> Result<Option<Bytes>, AllocError>
    ensures { IfOk result (λ found. MatchOption found
        ((bytes : List ℕ) → ¬ IsEncoding cpu at op bytes)
        (λ bytes. IsStandard cpu at op bytes.items)) }
{
    let list = shapes_of(alloc, op)?;
    let mut best = None;
    for shape in &list {
        let bytes = draft(alloc, op, at, *shape)?;
        best = with_draft(best, bytes, op, at, cpu);
    }
    Ok(best)
}
