//! Reading a spelling back, by the bytes at a few places. What is read from a text that is no spelling doesn't matter,
//! since the spelling of what was read is compared with the text.

ghost use Rattle.std.specs.Prelude.{◌≡◌, ◌+◌, ◌<◌, ◌≤◌, ◌==◌, position, slice_index, drop, take, IfSome};
ghost use Rattle.dcc_reread.specs.Reading.{digit_value, byte_value, word_value, register_of_letter, word_register_of};
ghost use Rattle.dcc_reread.specs.Reading.{segment_of_letter, register_of, has_second, displacement_place};
ghost use Rattle.dcc_reread.specs.Reading.{displacement_at, brackets_length, word_register_at, base_of, index_of};
ghost use Rattle.dcc_reread.specs.Reading.{address_of, operand_of, first_length, first_of, behind_first, second_of};
ghost use Rattle.dcc_reread.specs.Reading.{count_of, unary_of, jump_of, return_of, operation_of, name_length};
ghost use Rattle.dcc_reread.specs.Reading.{operation_in, begins_with_index, constant_of, product_of};

use crate::mnemonic::{Mnemonic, mnemonic_of};
use dcc_machine::{Count, Ea, Op, Operand, Unary};
use dcc_num::{Half, Reg, Width};

/// The byte at a place, or 0.
pub fn byte_of(text: &[u8], place: usize) -> u8
    ensures { result ≡ slice_index text.now place }
{
    match text.get(place) {
        Some(byte) => *byte,
        None => 0,
    }
}

/// What stands from a place on.
pub fn behind<'a>(text: &'a [u8], place: usize) -> &'a [u8]
    ensures { result.now ≡ drop place text.now }
{
    if place <= text.len() {
        &text[place..]
    } else {
        &[]
    }
}

/// What stands before a place.
pub fn before<'a>(text: &'a [u8], place: usize) -> &'a [u8]
    ensures { result.now ≡ take place text.now }
{
    if place <= text.len() {
        &text[..place]
    } else {
        text
    }
}

/// The number of a hexadecimal digit in upper case.
pub fn digit_value(digit: u8) -> u8
    ensures value { result ≡ digit_value digit }
    ensures small { result < 16 }
{
    if digit < 58 {
        digit.saturating_sub(48) % 16
    } else {
        (digit - 55) % 16
    }
}

/// The number of the two digits at a place.
pub fn byte_value(text: &[u8], place: usize) -> u8
    requires { place < 1000000000 }
    ensures { result ≡ byte_value text.now place }
{
    digit_value(byte_of(text, place)) * 16 + digit_value(byte_of(text, place + 1))
}

/// The number of the four digits at a place.
pub fn word_value(text: &[u8], place: usize) -> u16
    requires { place < 1000 }
    ensures { result ≡ word_value text.now place }
{
    u16::from(byte_value(text, place)) * 256 + u16::from(byte_value(text, place + 2))
}

// AX, CX, DX or BX by its letter.
fn register_of_letter(letter: u8) -> Reg
    ensures { result ≡ register_of_letter letter }
{
    match letter {
        b'a' => Reg::Ax,
        b'c' => Reg::Cx,
        b'd' => Reg::Dx,
        _ => Reg::Bx,
    }
}

// The word register of a name of two letters.
fn word_register_of(first: u8, second: u8) -> Reg
    ensures { result ≡ word_register_of first second }
{
    if second == b'x' {
        register_of_letter(first)
    } else if second == b'p' {
        if first == b's' { Reg::Sp } else { Reg::Bp }
    } else if first == b's' {
        Reg::Si
    } else {
        Reg::Di
    }
}

// The number of a segment register by its first letter.
fn segment_of_letter(letter: u8) -> u8
    ensures { result ≡ segment_of_letter letter }
{
    match letter {
        b'e' => 0,
        b'c' => 1,
        b's' => 2,
        _ => 3,
    }
}

// The register of a name of two letters.
fn register_of(first: u8, second: u8) -> Operand
    ensures { result ≡ register_of first second }
{
    match second {
        b'l' => Operand::Byte(register_of_letter(first), Half::Low),
        b'h' => Operand::Byte(register_of_letter(first), Half::High),
        b's' => Operand::Seg(segment_of_letter(first)),
        _ => Operand::Word(word_register_of(first, second)),
    }
}

// Whether in brackets a second register stands behind the first one.
fn has_second(brackets: &[u8]) -> bool
    ensures { result ≡ has_second brackets.now }
{
    byte_of(brackets, 3) == b'+' && byte_of(brackets, 4) != b'0'
}

// Where the digits of the displacement stand in brackets, if there is one.
fn displacement_place(brackets: &[u8]) -> Option<usize>
    ensures { result ≡ displacement_place brackets.now }
{
    if byte_of(brackets, 1) == b'0' {
        Some(3)
    } else if byte_of(brackets, 3) != b'+' {
        None
    } else if byte_of(brackets, 4) == b'0' {
        Some(6)
    } else if byte_of(brackets, 6) == b'+' {
        Some(9)
    } else {
        None
    }
}

// The displacement whose digits stand at a place of brackets.
fn displacement_at(brackets: &[u8], place: Option<usize>) -> u16
    requires { IfSome place (λ place. place < 1000) }
    ensures { result ≡ displacement_at brackets.now place }
{
    match place {
        Some(place) => word_value(brackets, place),
        None => 0,
    }
}

// The length of brackets.
fn brackets_length(brackets: &[u8]) -> usize
    ensures length { result ≡ brackets_length brackets.now }
    ensures small { result ≤ 14 }
{
    match displacement_place(brackets) {
        Some(place) => place + 5,
        None => { if has_second(brackets) { 7 } else { 4 } }
    }
}

// The register of a name of two letters at a place.
fn word_register_at(text: &[u8], place: usize) -> Reg
    requires { place < 1000 }
    ensures { result ≡ word_register_at text.now place }
{
    word_register_of(byte_of(text, place), byte_of(text, place + 1))
}

// Whether the first part in brackets is SI or DI, and not BX or BP.
fn begins_with_index(brackets: &[u8]) -> bool
    ensures { result ≡ begins_with_index brackets.now }
{
    byte_of(brackets, 2) == b'i'
}

fn base_of(brackets: &[u8]) -> Option<Reg>
    ensures { result ≡ base_of brackets.now }
{
    if byte_of(brackets, 1) == b'0' || begins_with_index(brackets) {
        None
    } else {
        Some(word_register_at(brackets, 1))
    }
}

fn index_of(brackets: &[u8]) -> Option<Reg>
    ensures { result ≡ index_of brackets.now }
{
    if byte_of(brackets, 1) == b'0' {
        None
    } else if begins_with_index(brackets) {
        Some(word_register_at(brackets, 1))
    } else if has_second(brackets) {
        Some(word_register_at(brackets, 4))
    } else {
        None
    }
}

// The address that brackets name.
fn address_of(brackets: &[u8]) -> Ea
    ensures { result ≡ address_of brackets.now }
{
    Ea {
        base: base_of(brackets),
        index: index_of(brackets),
        disp: displacement_at(brackets, displacement_place(brackets)),
    }
}

// The constant whose spelling is the text.
fn constant_of(text: &[u8]) -> Operand
    ensures { result ≡ constant_of text.now }
{
    if text.len() == 4 {
        Operand::Const(Width::Byte, u16::from(byte_value(text, 2)))
    } else {
        Operand::Const(Width::Word, word_value(text, 2))
    }
}

// The operand whose spelling is the text.
fn operand_of(text: &[u8]) -> Operand
    ensures { result ≡ operand_of text.now }
{
    if byte_of(text, 0) == b'0' {
        constant_of(text)
    } else if byte_of(text, 4) == b' ' {
        let width = if byte_of(text, 0) == b'w' {
            Width::Word
        } else {
            Width::Byte
        };
        Operand::Mem(width, address_of(behind(text, 5)))
    } else {
        register_of(byte_of(text, 0), byte_of(text, 1))
    }
}

// The length of the first of several operands, which is no constant.
fn first_length(text: &[u8]) -> usize
    ensures length { result ≡ first_length text.now }
    ensures small { result ≤ 19 }
{
    if byte_of(text, 2) == b',' {
        2
    } else {
        5 + brackets_length(behind(text, 5))
    }
}

fn first_of(text: &[u8]) -> Operand
    ensures { result ≡ first_of text.now }
{
    operand_of(before(text, first_length(text)))
}

// What stands behind the first operand and the comma.
fn behind_first<'a>(text: &'a [u8]) -> &'a [u8]
    ensures { result.now ≡ behind_first text.now }
{
    behind(text, first_length(text) + 1)
}

fn second_of(text: &[u8]) -> Operand
    ensures { result ≡ second_of text.now }
{
    operand_of(behind_first(text))
}

fn count_of(text: &[u8]) -> Count
    ensures { result ≡ count_of text.now }
{
    match text.len() {
        1 => Count::One,
        2 => Count::Cl,
        _ => Count::Const(byte_value(text, 2)),
    }
}

// A product: of one operand, or of an operand and a constant.
fn product_of(text: &[u8]) -> Op
    ensures { result ≡ product_of text.now }
{
    if byte_of(text, 2) == b',' {
        let rest = behind(text, 3);
        Op::Imul3(
            word_register_at(text, 0),
            first_of(rest),
            word_value(behind_first(rest), 2),
        )
    } else {
        Op::Unary(Unary::Imul, operand_of(text))
    }
}

// An operation on one operand.
fn unary_of(operation: Unary, text: &[u8]) -> Op
    ensures { result ≡ unary_of operation text.now }
{
    match operation {
        Unary::Imul => product_of(text),
        _ => Op::Unary(operation, operand_of(text)),
    }
}

// A jump to a target, or through a table.
fn jump_of(text: &[u8]) -> Op
    ensures { result ≡ jump_of text.now }
{
    if byte_of(text, 0) == b'c' {
        Op::Table(word_register_at(text, 4), word_value(text, 9))
    } else {
        Op::Jump(word_value(text, 2))
    }
}

fn return_of(text: &[u8]) -> Op
    ensures { result ≡ return_of text.now }
{
    match text {
        [] => Op::Ret(0),
        _ => Op::Ret(word_value(text, 2)),
    }
}

// The operation of a mnemonic and its operands' text.
fn operation_of(mnemonic: Mnemonic, text: &[u8]) -> Op
    ensures { result ≡ operation_of mnemonic text.now }
{
    match mnemonic {
        Mnemonic::Alu(operation) => Op::Alu(operation, first_of(text), second_of(text)),
        Mnemonic::Unary(operation) => unary_of(operation, text),
        Mnemonic::Shift(operation) => {
            Op::Shift(operation, first_of(text), count_of(behind_first(text)))
        }
        Mnemonic::Mov => Op::Mov(first_of(text), second_of(text)),
        Mnemonic::Xchg => Op::Xchg(first_of(text), second_of(text)),
        Mnemonic::Lea => Op::Lea(word_register_at(text, 0), address_of(behind(text, 3))),
        Mnemonic::Push => Op::Push(operand_of(text)),
        Mnemonic::Pop => Op::Pop(operand_of(text)),
        Mnemonic::Enter => Op::Enter(word_value(text, 2)),
        Mnemonic::Leave => Op::Leave,
        Mnemonic::Plain(operation) => Op::Plain(operation),
        Mnemonic::Jmp => jump_of(text),
        Mnemonic::Branch(condition) => Op::Branch(condition, word_value(text, 2)),
        Mnemonic::Loop => Op::Loop(word_value(text, 2)),
        Mnemonic::LoopE => Op::LoopE(word_value(text, 2)),
        Mnemonic::LoopNe => Op::LoopNe(word_value(text, 2)),
        Mnemonic::Jcxz => Op::Jcxz(word_value(text, 2)),
        Mnemonic::Call => Op::Call(word_value(text, 2)),
        Mnemonic::Ret => return_of(text),
        Mnemonic::Int => Op::Int21,
    }
}

// The place of the first space.
fn space_in(text: &[u8]) -> Option<usize>
    ensures { result ≡ position (λ byte. byte == 32) text.now }
{
    text.iter().position(|byte| *byte == b' ')
}

// Where the mnemonic ends: at the first space, or at the text's end.
fn name_length(text: &[u8]) -> usize
    ensures { result ≡ name_length text.now }
{
    match space_in(text) {
        Some(place) => place,
        None => text.len(),
    }
}

// What stands behind a place.
fn behind_place<'a>(text: &'a [u8], place: usize) -> &'a [u8]
    ensures { result.now ≡ drop (place + 1) text.now }
{
    if place < text.len() {
        &text[place + 1..]
    } else {
        &[]
    }
}

/// The operation whose spelling may be the text; each other operation has another spelling.
pub fn operation_in(text: &[u8]) -> Option<Op>
    ensures { result ≡ operation_in text.now }
{
    let end = name_length(text);
    match mnemonic_of(before(text, end)) {
        Some(mnemonic) => Some(operation_of(mnemonic, behind_place(text, end))),
        None => None,
    }
}
