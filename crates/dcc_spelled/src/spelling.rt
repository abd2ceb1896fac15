//! How operations are spelled.

ghost use Rattle.std.specs.Prelude.{◌≡◌, [], ◌∷◌, ◌++◌, OnOk};
ghost use Rattle.std.specs.List.{join_with_byte};
ghost use Rattle.dcc_spelled.specs.Spelling.{alu_name, unary_name, shift_name, plain_name, branch_name, mnemonic};
ghost use Rattle.dcc_spelled.specs.Spelling.{register_name, half_name, segment_name, byte_constant, word_constant};
ghost use Rattle.dcc_spelled.specs.Spelling.{width_name, brackets, operand, count_name, table_word, operands, spelling};
ghost use Rattle.dcc_spelled.specs.Spelling.{registers_of, displacement_parts};

use crate::hex::{push_byte, push_word};
use dcc_machine::{Alu, Cond, Count, Ea, Op, Operand, Plain, Shift, Unary};
use dcc_num::{Half, Reg, Width};
use std::alloc::AllocError;

pub fn alu_name(operation: Alu) -> &'static str
    ensures { result.now ≡ alu_name operation }
{
    match operation {
        Alu::Add => "add",
        Alu::Or => "or",
        Alu::Adc => "adc",
        Alu::Sbb => "sbb",
        Alu::And => "and",
        Alu::Sub => "sub",
        Alu::Xor => "xor",
        Alu::Cmp => "cmp",
        Alu::Test => "test",
    }
}

pub fn unary_name(operation: Unary) -> &'static str
    ensures { result.now ≡ unary_name operation }
{
    match operation {
        Unary::Inc => "inc",
        Unary::Dec => "dec",
        Unary::Neg => "neg",
        Unary::Not => "not",
        Unary::Mul => "mul",
        Unary::Imul => "imul",
        Unary::Div => "div",
        Unary::Idiv => "idiv",
    }
}

pub fn shift_name(operation: Shift) -> &'static str
    ensures { result.now ≡ shift_name operation }
{
    match operation {
        Shift::Rol => "rol",
        Shift::Ror => "ror",
        Shift::Rcl => "rcl",
        Shift::Rcr => "rcr",
        Shift::Shl => "shl",
        Shift::Shr => "shr",
        Shift::Sar => "sar",
    }
}

pub fn plain_name(operation: Plain) -> &'static str
    ensures { result.now ≡ plain_name operation }
{
    match operation {
        Plain::Nop => "nop",
        Plain::Cbw => "cbw",
        Plain::Cwd => "cwd",
        Plain::Xlat => "xlat",
        Plain::Clc => "clc",
        Plain::Stc => "stc",
        Plain::Cmc => "cmc",
        Plain::Cli => "cli",
        Plain::Sti => "sti",
        Plain::Cld => "cld",
    }
}

pub fn branch_name(condition: Cond) -> &'static str
    ensures { result.now ≡ branch_name condition }
{
    match condition {
        Cond::O => "jo",
        Cond::No => "jno",
        Cond::B => "jb",
        Cond::Ae => "jae",
        Cond::Z => "jz",
        Cond::Nz => "jnz",
        Cond::Be => "jbe",
        Cond::A => "ja",
        Cond::S => "js",
        Cond::Ns => "jns",
        Cond::L => "jl",
        Cond::Ge => "jge",
        Cond::Le => "jle",
        Cond::G => "jg",
    }
}

fn mnemonic(op: Op) -> &'static str
    ensures { result.now ≡ mnemonic op }
{
    match op {
        Op::Alu(operation, _, _) => alu_name(operation),
        Op::Unary(operation, _) => unary_name(operation),
        Op::Shift(operation, _, _) => shift_name(operation),
        Op::Mov(_, _) => "mov",
        Op::Xchg(_, _) => "xchg",
        Op::Lea(_, _) => "lea",
        Op::Imul3(_, _, _) => "imul",
        Op::Push(_) => "push",
        Op::Pop(_) => "pop",
        Op::Enter(_) => "enter",
        Op::Leave => "leave",
        Op::Plain(operation) => plain_name(operation),
        Op::Jump(_) | Op::Table(_, _) => "jmp",
        Op::Branch(condition, _) => branch_name(condition),
        Op::Loop(_) => "loop",
        Op::LoopE(_) => "loope",
        Op::LoopNe(_) => "loopne",
        Op::Jcxz(_) => "jcxz",
        Op::Call(_) => "call",
        Op::Ret(_) => "ret",
        Op::Int21 => "int",
    }
}

fn register_name(r: Reg) -> &'static str
    ensures { result.now ≡ register_name r }
{
    match r {
        Reg::Ax => "ax",
        Reg::Cx => "cx",
        Reg::Dx => "dx",
        Reg::Bx => "bx",
        Reg::Sp => "sp",
        Reg::Bp => "bp",
        Reg::Si => "si",
        Reg::Di => "di",
    }
}

// The name of one half of AX, CX, DX or BX.
fn half_name(r: Reg, half: Half) -> &'static str
    ensures { result.now ≡ half_name r half }
{
    match (r, half) {
        (Reg::Ax, Half::Low) => "al",
        (Reg::Cx, Half::Low) => "cl",
        (Reg::Dx, Half::Low) => "dl",
        (Reg::Bx, Half::Low) => "bl",
        (Reg::Ax, Half::High) => "ah",
        (Reg::Cx, Half::High) => "ch",
        (Reg::Dx, Half::High) => "dh",
        (Reg::Bx, Half::High) => "bh",
        _ => "",
    }
}

// The name of the segment register of a number from 0 to 3.
fn segment_name(number: u8) -> &'static str
    ensures { result.now ≡ segment_name number }
{
    match number {
        0 => "es",
        1 => "cs",
        2 => "ss",
        _ => "ds",
    }
}

fn width_name(width: Width) -> &'static str
    ensures { result.now ≡ width_name width }
{
    match width {
        Width::Byte => "byte",
        Width::Word => "word",
    }
}

fn push_str(text: &mut Vec<u8>, words: &str) -> Result<(), AllocError>
    ensures { OnOk result (text.new.items ≡ text.old.items ++ words.now) }
{
    text.extend_from_slice(words.as_bytes())
}

fn push_byte_constant(text: &mut Vec<u8>, number: u16) -> Result<(), AllocError>
    ensures { OnOk result (text.new.items ≡ text.old.items ++ byte_constant number) }
{
    push_str(text, "0x")?;
    push_byte(text, (number % 256) as u8)
}

fn push_word_constant(text: &mut Vec<u8>, number: u16) -> Result<(), AllocError>
    ensures { OnOk result (text.new.items ≡ text.old.items ++ word_constant number) }
{
    push_str(text, "0x")?;
    push_word(text, number)
}

// Appends the registers of an address, with `+` between them.
fn push_registers(text: &mut Vec<u8>, ea: Ea) -> Result<(), AllocError>
    ensures { OnOk result (text.new.items ≡ text.old.items ++ join_with_byte 43 (registers_of ea)) }
{
    if let Some(base) = ea.base {
        push_str(text, register_name(base))?;
        if ea.index.is_some() {
            push_str(text, "+")?;
        }
    }
    if let Some(index) = ea.index {
        push_str(text, register_name(index))?;
    }
    Ok(())
}

// Appends an address in brackets.
fn push_brackets(text: &mut Vec<u8>, ea: Ea) -> Result<(), AllocError>
    ensures { OnOk result (text.new.items ≡ text.old.items ++ brackets ea) }
{
    let has_register = ea.base.is_some() || ea.index.is_some();
    push_str(text, "[")?;
    push_registers(text, ea)?;
    if !has_register {
        push_word_constant(text, ea.disp)?;
    } else if ea.disp != 0 {
        push_str(text, "+")?;
        push_word_constant(text, ea.disp)?;
    }
    push_str(text, "]")
}

fn push_operand(text: &mut Vec<u8>, a: Operand) -> Result<(), AllocError>
    ensures { OnOk result (text.new.items ≡ text.old.items ++ operand a) }
{
    match a {
        Operand::Word(r) => push_str(text, register_name(r)),
        Operand::Byte(r, half) => push_str(text, half_name(r, half)),
        Operand::Seg(number) => push_str(text, segment_name(number)),
        Operand::Mem(width, ea) => {
            push_str(text, width_name(width))?;
            push_str(text, " ")?;
            push_brackets(text, ea)
        }
        Operand::Const(Width::Byte, number) => push_byte_constant(text, number),
        Operand::Const(Width::Word, number) => push_word_constant(text, number),
    }
}

fn push_count(text: &mut Vec<u8>, count: Count) -> Result<(), AllocError>
    ensures { OnOk result (text.new.items ≡ text.old.items ++ count_name count) }
{
    match count {
        Count::One => push_str(text, "1"),
        Count::Cl => push_str(text, "cl"),
        Count::Const(number) => push_byte_constant(text, u16::from(number)),
    }
}

fn push_table_word(text: &mut Vec<u8>, r: Reg, offset: u16) -> Result<(), AllocError>
    ensures { OnOk result (text.new.items ≡ text.old.items ++ table_word r offset) }
{
    push_str(text, "cs:[")?;
    push_str(text, register_name(r))?;
    push_str(text, "+")?;
    push_word_constant(text, offset)?;
    push_str(text, "]")
}

// Appends two operands, with a comma between them.
fn push_two(text: &mut Vec<u8>, a: Operand, b: Operand) -> Result<(), AllocError>
    ensures { OnOk result (text.new.items ≡ text.old.items ++ join_with_byte 44 (operand a ∷ operand b ∷ [])) }
{
    push_operand(text, a)?;
    push_str(text, ",")?;
    push_operand(text, b)
}

// Appends the operands, with commas between them.
fn push_operands(text: &mut Vec<u8>, op: Op) -> Result<(), AllocError>
    ensures { OnOk result (text.new.items ≡ text.old.items ++ join_with_byte 44 (operands op)) }
{
    match op {
        Op::Alu(_, a, b) | Op::Mov(a, b) | Op::Xchg(a, b) => push_two(text, a, b),
        Op::Unary(_, a) | Op::Push(a) | Op::Pop(a) => push_operand(text, a),
        Op::Shift(_, a, count) => {
            push_operand(text, a)?;
            push_str(text, ",")?;
            push_count(text, count)
        }
        Op::Lea(r, ea) => {
            push_str(text, register_name(r))?;
            push_str(text, ",")?;
            push_brackets(text, ea)
        }
        Op::Imul3(r, a, constant) => {
            push_two(text, Operand::Word(r), a)?;
            push_str(text, ",")?;
            push_word_constant(text, constant)
        }
        Op::Jump(target) | Op::Branch(_, target) | Op::Call(target) => push_word_constant(
            text, target,
        ),
        Op::Loop(target) | Op::LoopE(target) | Op::LoopNe(target) | Op::Jcxz(target) => {
            push_word_constant(text, target)
        }
        Op::Enter(count) => push_word_constant(text, count),
        Op::Ret(0) | Op::Leave | Op::Plain(_) => Ok(()),
        Op::Ret(count) => push_word_constant(text, count),
        Op::Table(r, offset) => push_table_word(text, r, offset),
        Op::Int21 => push_byte_constant(text, 0x21),
    }
}

/// Appends the spelling of an operation: its mnemonic, a space and its operands.
pub fn push_spelling(text: &mut Vec<u8>, op: Op) -> Result<(), AllocError>
    ensures { OnOk result (text.new.items ≡ text.old.items ++ spelling op) }
{
    push_str(text, mnemonic(op))?;
    match op {
        Op::Ret(0) | Op::Leave | Op::Plain(_) => Ok(()),
        _ => {
            push_str(text, " ")?;
            push_operands(text, op)
        }
    }
}
