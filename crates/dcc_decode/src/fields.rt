//! The fields of an instruction: opcode, ModRM byte, displacement and constant.

ghost use Rattle.std.specs.Prelude.{◌≡◌, ℕ, ◌+◌, ◌<◌, ◌≤◌, ◌%◌, ◌/◌, ◌&&◌, ◌==◌, length, IfSome, None};
ghost use Rattle.dcc_machine.specs.Bytes.{byte_at, word_at};
ghost use Rattle.dcc_machine.specs.Operands.{mod_field, reg_field, rm_field, register, rm_operand, address, width_of};
ghost use Rattle.dcc_machine.specs.Operands.{displacement_size};
ghost use Rattle.dcc_machine.specs.Table.{word_constant, constant_size, destination, source, reg, direct, target};
ghost use Rattle.dcc_decode.specs.Reading.{form_of, parts_of, TellsModrm, TellsConstant, modrm_read, constant_read};
ghost use Rattle.dcc_decode.specs.Reading.{ReadsHead, ReadsRows, FitsAsRead, HasByteCount};

use crate::operand;
use byteorder::{ByteOrder, LittleEndian};
use dcc_machine::{Ea, Operand};
use dcc_num::{Width, sign8};

/// Which constant ends an instruction.
#[derive(Clone, Copy, PartialEq, Eq, Debug)]
pub enum Constant {
    /// The instruction has no constant.
    Absent,
    /// The constant is a byte.
    Byte,
    /// The constant is a word, low byte first.
    Word,
    /// The constant is a byte, sign-extended to a word.
    SignedByte,
}

/// The fields of an instruction, as they stand in its bytes. What it doesn't have is 0.
#[derive(Clone, Copy)]
pub struct Fields {
    /// The offset of the first byte.
    pub at: u16,
    /// The opcode byte.
    pub opcode: u8,
    /// The ModRM byte.
    pub modrm: u8,
    /// The displacement, sign-extended to a word.
    pub displacement: u16,
    /// The constant, in its form.
    pub constant: u16,
    /// The number of bytes of the instruction.
    pub len: u8,
}

impl Fields {
    /// The fields of the instruction that begins with these bytes; None where they end within it.
    #[tactic(auto, using(crate::proofs::ReadLaws::read_rules))]
    pub fn read(bytes: &[u8], at: u16) -> Option<Fields>
        ensures rows { ReadsRows bytes.now at result }
        ensures first { IfSome result (λ fields. fields.opcode ≡ byte_at bytes.now 0) }
        ensures fitting { IfSome result (λ fields. FitsAsRead bytes.now fields) }
        ensures count { IfSome result (λ fields. HasByteCount fields) }
    {
        let opcode = *bytes.first()?;
        let (modrm, displacement, end) = read_head(opcode, bytes)?;
        let form = constant_form(opcode, modrm);
        let constant = read_constant(form, bytes, usize::from(end))?;
        Some(Fields {
            at,
            opcode,
            modrm,
            displacement,
            constant,
            len: end + constant_size(form),
        })
    }

    /// The field mod of the ModRM byte.
    pub fn mod_field(self) -> u8
        ensures value { result ≡ mod_field self.modrm }
        ensures range { result < 4 }
    {
        operand::mod_field(self.modrm)
    }

    /// The field reg of the ModRM byte.
    pub fn reg_field(self) -> u8
        ensures value { result ≡ reg_field self.modrm }
        ensures range { result < 8 }
    {
        operand::reg_field(self.modrm)
    }

    /// Whether the ModRM byte names the word register SP.
    pub fn names_sp(self) -> bool
        ensures { result ≡ (mod_field self.modrm == 3) && (rm_field self.modrm == 4) }
    {
        operand::mod_field(self.modrm) == 3 && operand::rm_field(self.modrm) == 4
    }

    /// The width that bit 0 of the opcode gives.
    pub fn width(self) -> Width
        ensures { result ≡ width_of self.opcode }
    {
        if self.opcode & 1 == 1 {
            Width::Word
        } else {
            Width::Byte
        }
    }

    /// The operand that the fields mod and rm name.
    pub fn rm_operand(self, width: Width) -> Operand
        ensures { result ≡ rm_operand width self.modrm self.displacement }
    {
        operand::rm_operand(width, self.modrm, self.displacement)
    }

    /// The register that the field reg names, by the width bit.
    pub fn reg_operand(self) -> Operand
        ensures { result ≡ reg (parts_of self) }
    {
        operand::register(self.width(), operand::reg_field(self.modrm))
    }

    /// Of the operands r/m and r, the one that bit 1 of the opcode makes the destination.
    pub fn destination(self) -> Operand
        ensures { result ≡ destination (parts_of self) }
    {
        if self.opcode >> 1 & 1 == 1 {
            self.reg_operand()
        } else {
            self.rm_operand(self.width())
        }
    }

    /// Of the operands r/m and r, the one that bit 1 of the opcode makes the source.
    pub fn source(self) -> Operand
        ensures { result ≡ source (parts_of self) }
    {
        if self.opcode >> 1 & 1 == 1 {
            self.rm_operand(self.width())
        } else {
            self.reg_operand()
        }
    }

    /// The register that bits 2 to 0 of the opcode name.
    pub fn opcode_register(self, width: Width) -> Operand
        ensures { result ≡ register width (self.opcode % 8) }
    {
        operand::register(width, self.opcode & 7)
    }

    /// The constant, which is a byte.
    pub fn constant_byte(self) -> u8
        requires { self.constant < 256 }
        ensures { result ≡ self.constant }
    {
        self.constant as u8
    }

    /// The constant as an operand.
    pub fn constant_operand(self, width: Width) -> Operand
        ensures { result ≡ Operand.Const width self.constant }
    {
        Operand::Const(width, self.constant)
    }

    /// The memory at the offset that the constant gives, by the width bit.
    pub fn direct_operand(self) -> Operand
        ensures { result ≡ direct (parts_of self) }
    {
        let address = Ea {
            base: None,
            index: None,
            disp: self.constant,
        };
        Operand::Mem(self.width(), address)
    }

    /// The address of the memory operand.
    pub fn address(self) -> Ea
        ensures { result ≡ address self.modrm self.displacement }
    {
        operand::address(self.modrm, self.displacement)
    }

    /// The target of a relative jump: the constant is the distance from the next instruction.
    pub fn target(self) -> u16
        ensures { result ≡ target (parts_of self) }
    {
        self.at
            .wrapping_add(u16::from(self.len))
            .wrapping_add(self.constant)
    }
}

// Whether a ModRM byte follows the opcode.
#[tactic(auto, using(crate::proofs::Forms::modrm_rules))]
fn has_modrm(opcode: u8) -> bool
    ensures { TellsModrm opcode result }
{
    match opcode {
        0x00..=0x3f => opcode & 7 < 4,
        0x40..=0x7f => is_multiplication(opcode),
        0x80..=0x8f | 0xc0..=0xc1 | 0xc6..=0xc7 => true,
        0xd0..=0xd3 | 0xf6..=0xf7 | 0xfe..=0xff => true,
        _ => false,
    }
}

// Whether a ModRM byte follows an opcode from 0x40 to 0x7F; the multiplications alone have one.
#[tactic(auto, using(crate::proofs::Forms::multiplication_rules))]
fn is_multiplication(opcode: u8) -> bool
    requires low { 0x40 ≤ opcode }
    requires high { opcode ≤ 0x7f }
    ensures { TellsModrm opcode result }
{
    opcode == 0x69 || opcode == 0x6b
}

// Which constant ends an instruction with this opcode and ModRM byte.
#[tactic(auto, using(crate::proofs::Forms::constant_rules))]
fn constant_form(opcode: u8, modrm: u8) -> Constant
    ensures form { TellsConstant opcode modrm result }
    ensures count { 0xc0 ≤ opcode → opcode ≤ 0xc1 → result ≡ Constant.Byte }
{
    match opcode {
        0x00..=0x3f => arithmetic_constant(opcode),
        0x68..=0x69 => Constant::Word,
        0x6a..=0x6b => Constant::SignedByte,
        0x70..=0x7f => Constant::SignedByte,
        0x80..=0x8f => operand_constant(opcode),
        0xa0..=0xaf => accumulator_constant(opcode),
        0xb0..=0xb7 => Constant::Byte,
        0xb8..=0xbf => Constant::Word,
        0xc0..=0xc1 => Constant::Byte,
        0xc2..=0xc7 => return_constant(opcode),
        0xe0..=0xef => jump_constant(opcode),
        0xf6..=0xf7 => test_constant(opcode, modrm),
        _ => Constant::Absent,
    }
}

// The constant of the opcodes 0x00 to 0x3F.
#[tactic(auto, using(crate::proofs::Forms::constant_rules))]
fn arithmetic_constant(opcode: u8) -> Constant
    requires { opcode ≤ 0x3f }
    ensures { (modrm : ℕ) → TellsConstant opcode modrm result }
{
    match opcode & 7 {
        4 => Constant::Byte,
        5 => Constant::Word,
        _ => Constant::Absent,
    }
}

// The constant of the opcodes 0x80 to 0x8F.
#[tactic(auto, using(crate::proofs::Forms::constant_rules))]
fn operand_constant(opcode: u8) -> Constant
    requires low { 0x80 ≤ opcode }
    requires high { opcode ≤ 0x8f }
    ensures { (modrm : ℕ) → TellsConstant opcode modrm result }
{
    match opcode {
        0x80 => Constant::Byte,
        0x81 => Constant::Word,
        0x83 => Constant::SignedByte,
        _ => Constant::Absent,
    }
}

// The constant of the opcodes 0xA0 to 0xAF.
#[tactic(auto, using(crate::proofs::Forms::constant_rules))]
fn accumulator_constant(opcode: u8) -> Constant
    requires low { 0xa0 ≤ opcode }
    requires high { opcode ≤ 0xaf }
    ensures { (modrm : ℕ) → TellsConstant opcode modrm result }
{
    match opcode {
        0xa0..=0xa3 | 0xa9 => Constant::Word,
        0xa8 => Constant::Byte,
        _ => Constant::Absent,
    }
}

// The constant of the opcodes 0xC2 to 0xC7.
#[tactic(auto, using(crate::proofs::Forms::constant_rules))]
fn return_constant(opcode: u8) -> Constant
    requires low { 0xc2 ≤ opcode }
    requires high { opcode ≤ 0xc7 }
    ensures { (modrm : ℕ) → TellsConstant opcode modrm result }
{
    match opcode {
        0xc2 => Constant::Word,
        0xc6 => Constant::Byte,
        0xc7 => Constant::Word,
        _ => Constant::Absent,
    }
}

// The constant of the opcodes 0xE0 to 0xEF.
#[tactic(auto, using(crate::proofs::Forms::constant_rules))]
fn jump_constant(opcode: u8) -> Constant
    requires low { 0xe0 ≤ opcode }
    requires high { opcode ≤ 0xef }
    ensures { (modrm : ℕ) → TellsConstant opcode modrm result }
{
    match opcode {
        0xe0..=0xe3 | 0xeb => Constant::SignedByte,
        0xe8 | 0xe9 => Constant::Word,
        _ => Constant::Absent,
    }
}

// The constant of the opcodes 0xF6 and 0xF7, which their TEST alone has.
#[tactic(auto, using(crate::proofs::Forms::constant_rules))]
fn test_constant(opcode: u8, modrm: u8) -> Constant
    requires low { 0xf6 ≤ opcode }
    requires high { opcode ≤ 0xf7 }
    ensures { TellsConstant opcode modrm result }
{
    if operand::reg_field(modrm) != 0 {
        Constant::Absent
    } else if opcode == 0xf6 {
        Constant::Byte
    } else {
        Constant::Word
    }
}

// The number of bytes of a constant.
fn constant_size(form: Constant) -> u8
    ensures value { result ≡ constant_size (form_of form) }
    ensures range { result ≤ 2 }
{
    match form {
        Constant::Absent => 0,
        Constant::Byte | Constant::SignedByte => 1,
        Constant::Word => 2,
    }
}

// The ModRM byte at index 1, the displacement after it, and the index after that.
fn read_modrm(bytes: &[u8]) -> Option<(u8, u16, u8)>
    ensures value { result ≡ modrm_read bytes.now }
    ensures small { IfSome result (λ found. found.2 ≤ 4) }
    ensures within { IfSome result (λ found. found.2 ≤ length bytes.now) }
{
    let modrm = *bytes.get(1)?;
    match operand::displacement_size(modrm) {
        0 => Some((modrm, 0, 2)),
        1 => Some((modrm, sign8(*bytes.get(2)?), 3)),
        _ => Some((modrm, read_word(bytes, 2)?, 4)),
    }
}

// The ModRM byte and the displacement, 0 where there are none, and the index after them.
#[tactic(auto, using(crate::proofs::ReadLaws::head_rules))]
fn read_head(opcode: u8, bytes: &[u8]) -> Option<(u8, u16, u8)>
    requires there { 0 < length bytes.now }
    requires first { opcode ≡ byte_at bytes.now 0 }
    ensures value { ReadsHead opcode bytes.now result }
    ensures small { IfSome result (λ found. found.2 ≤ 4) }
    ensures within { IfSome result (λ found. found.2 ≤ length bytes.now) }
{
    if has_modrm(opcode) {
        read_modrm(bytes)
    } else {
        Some((0, 0, 1))
    }
}

// The constant of that form at an index.
fn read_constant(form: Constant, bytes: &[u8], index: usize) -> Option<u16>
    requires small { index ≤ 4 }
    requires within { index ≤ length bytes.now }
    ensures value { result ≡ constant_read (form_of form) bytes.now index }
    ensures range { form ≡ Constant.Byte → IfSome result (λ constant. constant < 256) }
{
    match form {
        Constant::Absent => Some(0),
        Constant::Byte => Some(u16::from(*bytes.get(index)?)),
        Constant::Word => read_word(bytes, index),
        Constant::SignedByte => Some(sign8(*bytes.get(index)?)),
    }
}

// The word at an index, low byte first; None where the bytes end within it.
fn read_word(bytes: &[u8], index: usize) -> Option<u16>
    requires { index ≤ 4 }
    ensures { result ≡ constant_read word_constant bytes.now index }
{
    if index + 2 <= bytes.len() {
        Some(word(bytes, index))
    } else {
        None
    }
}

/// The word at an index, low byte first.
#[tactic(auto, unfolding(dcc_machine::specs::Bytes::word_at))]
pub fn word(bytes: &[u8], index: usize) -> u16
    requires { index + 2 ≤ length bytes.now }
    ensures { result ≡ word_at bytes.now index }
{
    LittleEndian::read_u16(&bytes[index..])
}
