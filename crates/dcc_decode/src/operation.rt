//! The operations by their opcodes (8086 Family User's Manual, table 4-12; iAPX 86/88, 186/188 User's Manual,
//! Programmer's Reference).

ghost use Rattle.std.specs.Prelude.{◌≡◌, ◌≢◌, ◌≤◌, ◌<◌, ◌⊎◌, Some, None};
ghost use Rattle.dcc_machine.specs.Table.{alu_of, condition_of, signed_condition_of, shift_of, unary_of};
ghost use Rattle.dcc_machine.specs.declared.cpu.Cpu.TheVariants.{I8086, I186};
ghost use Rattle.dcc_decode.specs.Reading.{operation_of, parts_of, HasByteCount};

use crate::fields::Fields;
use crate::operand;
use dcc_machine::{Alu, Cond, Count, Cpu, Op, Operand, Plain, Shift, Unary};
use dcc_num::Width;

/// The operation of an instruction with these fields, if it is one that the processor has and this project knows.
#[tactic(auto, using(crate::proofs::LaterRows::processor_rules))]
pub fn operation(fields: Fields, cpu: Cpu) -> Option<Op>
    requires other { fields.opcode ≢ 0xcd }
    requires count { HasByteCount fields }
    ensures { result ≡ operation_of cpu (parts_of fields) }
{
    if let Some(op) = earlier_operation(fields) {
        return Some(op);
    }
    match cpu {
        Cpu::I8086 => None,
        Cpu::I186 => later_operation(fields),
    }
}

// The operation where the 8086 has it.
#[tactic(auto, using(crate::proofs::Rows::operation_rules))]
fn earlier_operation(fields: Fields) -> Option<Op>
    requires { fields.opcode ≢ 0xcd }
    ensures { result ≡ operation_of I8086 (parts_of fields) }
{
    match fields.opcode >> 4 {
        0x0..=0x3 => arithmetic(fields),
        0x4 => Some(step_register(fields)),
        0x5 => push_or_pop_register(fields),
        0x7 => branch(fields),
        0x8 => operand_operation(fields),
        0x9 => accumulator_operation(fields),
        0xa => move_or_test_accumulator(fields),
        0xb => Some(move_constant(fields)),
        0xc => move_constant_or_return(fields),
        0xd => shift_or_translate(fields),
        0xe => loop_or_jump(fields),
        0xf => group(fields),
        _ => None,
    }
}

// The operation on two operands of a number.
fn alu(number: u8) -> Alu
    requires { number < 8 }
    ensures { result ≡ alu_of number }
{
    match number {
        0 => Alu::Add,
        1 => Alu::Or,
        2 => Alu::Adc,
        3 => Alu::Sbb,
        4 => Alu::And,
        5 => Alu::Sub,
        6 => Alu::Xor,
        _ => Alu::Cmp,
    }
}

// 0x00 to 0x3F: ADD, OR, ADC, SBB, AND, SUB, XOR, CMP.
#[tactic(auto, using(crate::proofs::Rows::arithmetic_rules))]
fn arithmetic(fields: Fields) -> Option<Op>
    requires { fields.opcode ≤ 0x3f }
    ensures { result ≡ operation_of I8086 (parts_of fields) }
{
    let alu = alu(fields.opcode >> 3);
    match fields.opcode & 7 {
        0..=3 => Some(Op::Alu(alu, fields.destination(), fields.source())),
        4 => Some(Op::Alu(
            alu,
            operand::register(Width::Byte, 0),
            fields.constant_operand(Width::Byte),
        )),
        5 => Some(Op::Alu(
            alu,
            operand::register(Width::Word, 0),
            fields.constant_operand(Width::Word),
        )),
        _ => None,
    }
}

// 0x40 to 0x4F: INC and DEC of a word register.
#[tactic(auto, using(crate::proofs::Rows::register_rules))]
fn step_register(fields: Fields) -> Op
    requires low { 0x40 ≤ fields.opcode }
    requires high { fields.opcode ≤ 0x4f }
    ensures { Some result ≡ operation_of I8086 (parts_of fields) }
{
    let operand = fields.opcode_register(Width::Word);
    if fields.opcode < 0x48 {
        Op::Unary(Unary::Inc, operand)
    } else {
        Op::Unary(Unary::Dec, operand)
    }
}

// 0x50 to 0x5F: PUSH and POP of a word register other than SP.
#[tactic(auto, using(crate::proofs::Rows::register_rules))]
fn push_or_pop_register(fields: Fields) -> Option<Op>
    requires low { 0x50 ≤ fields.opcode }
    requires high { fields.opcode ≤ 0x5f }
    ensures { result ≡ operation_of I8086 (parts_of fields) }
{
    let operand = fields.opcode_register(Width::Word);
    match fields.opcode {
        0x54 | 0x5c => None,
        0x50..=0x57 => Some(Op::Push(operand)),
        _ => Some(Op::Pop(operand)),
    }
}

// The condition of the opcodes 0x70 to 0x79, from 0 on.
fn condition(number: u8) -> Cond
    requires { number < 10 }
    ensures { result ≡ condition_of number }
{
    match number {
        0 => Cond::O,
        1 => Cond::No,
        2 => Cond::B,
        3 => Cond::Ae,
        4 => Cond::Z,
        5 => Cond::Nz,
        6 => Cond::Be,
        7 => Cond::A,
        8 => Cond::S,
        _ => Cond::Ns,
    }
}

// The condition of the opcodes 0x7C to 0x7F, from 0 on.
fn signed_condition(number: u8) -> Cond
    requires { number < 4 }
    ensures { result ≡ signed_condition_of number }
{
    match number {
        0 => Cond::L,
        1 => Cond::Ge,
        2 => Cond::Le,
        _ => Cond::G,
    }
}

// 0x70 to 0x7F: jumps on a condition other than parity.
#[tactic(auto, using(crate::proofs::Rows::branch_rules))]
fn branch(fields: Fields) -> Option<Op>
    requires low { 0x70 ≤ fields.opcode }
    requires high { fields.opcode ≤ 0x7f }
    ensures { result ≡ operation_of I8086 (parts_of fields) }
{
    let target = fields.target();
    match fields.opcode {
        0x70..=0x79 => Some(Op::Branch(condition(fields.opcode - 0x70), target)),
        0x7c..=0x7f => Some(Op::Branch(signed_condition(fields.opcode - 0x7c), target)),
        _ => None,
    }
}

// 0x80 to 0x83: ADD, OR, ADC, SBB, AND, SUB, XOR, CMP with a constant.
#[tactic(auto, using(crate::proofs::Rows::operand_rules))]
fn arithmetic_with_constant(fields: Fields) -> Option<Op>
    requires low { 0x80 ≤ fields.opcode }
    requires high { fields.opcode ≤ 0x83 }
    ensures { result ≡ operation_of I8086 (parts_of fields) }
{
    let alu = alu(fields.reg_field());
    match fields.opcode {
        0x80 => Some(Op::Alu(
            alu,
            fields.rm_operand(Width::Byte),
            fields.constant_operand(Width::Byte),
        )),
        0x82 => None,
        _ => Some(Op::Alu(
            alu,
            fields.rm_operand(Width::Word),
            fields.constant_operand(Width::Word),
        )),
    }
}

// 0x80 to 0x8F: arithmetic with a constant, TEST, XCHG, MOV, LEA, POP.
#[tactic(auto, using(crate::proofs::Rows::operand_rules))]
fn operand_operation(fields: Fields) -> Option<Op>
    requires low { 0x80 ≤ fields.opcode }
    requires high { fields.opcode ≤ 0x8f }
    ensures { result ≡ operation_of I8086 (parts_of fields) }
{
    match fields.opcode {
        0x80..=0x83 => arithmetic_with_constant(fields),
        0x84..=0x85 => Some(Op::Alu(
            Alu::Test,
            fields.rm_operand(fields.width()),
            fields.reg_operand(),
        )),
        0x86..=0x87 => Some(Op::Xchg(fields.rm_operand(fields.width()), fields.reg_operand())),
        0x88..=0x8b => Some(Op::Mov(fields.destination(), fields.source())),
        0x8c | 0x8e => move_segment(fields),
        0x8d => load_address(fields),
        0x8f => pop_operand(fields),
        _ => None,
    }
}

// 0x8C and 0x8E: MOV of a word register from ES, CS, SS or DS, and to ES, SS or DS.
#[tactic(auto, using(crate::proofs::Rows::segment_rules))]
fn move_segment(fields: Fields) -> Option<Op>
    requires { (fields.opcode ≡ 0x8c) ⊎ (fields.opcode ≡ 0x8e) }
    ensures { result ≡ operation_of I8086 (parts_of fields) }
{
    if fields.mod_field() != 3 {
        return None;
    }
    let number = fields.reg_field();
    let segment = Operand::Seg(number);
    let word = fields.rm_operand(Width::Word);
    match fields.opcode {
        0x8c if number < 4 => Some(Op::Mov(word, segment)),
        0x8e if number == 0 || number == 2 || number == 3 => Some(Op::Mov(segment, word)),
        _ => None,
    }
}

// 0x8D: LEA, whose operand is in memory.
#[tactic(auto, using(crate::proofs::Rows::address_rules))]
fn load_address(fields: Fields) -> Option<Op>
    requires { fields.opcode ≡ 0x8d }
    ensures { result ≡ operation_of I8086 (parts_of fields) }
{
    if fields.mod_field() == 3 {
        return None;
    }
    let register = operand::word_register(fields.reg_field());
    Some(Op::Lea(register, fields.address()))
}

// 0x8F /0: POP of an operand other than SP.
#[tactic(auto, using(crate::proofs::Rows::pop_rules))]
fn pop_operand(fields: Fields) -> Option<Op>
    requires { fields.opcode ≡ 0x8f }
    ensures { result ≡ operation_of I8086 (parts_of fields) }
{
    if fields.reg_field() != 0 || fields.names_sp() {
        return None;
    }
    Some(Op::Pop(fields.rm_operand(Width::Word)))
}

// 0x90 to 0x9F: NOP, XCHG with AX, CBW, CWD.
#[tactic(auto, using(crate::proofs::Rows::accumulator_rules))]
fn accumulator_operation(fields: Fields) -> Option<Op>
    requires low { 0x90 ≤ fields.opcode }
    requires high { fields.opcode ≤ 0x9f }
    ensures { result ≡ operation_of I8086 (parts_of fields) }
{
    match fields.opcode {
        0x90 => Some(Op::Plain(Plain::Nop)),
        0x91..=0x97 => Some(Op::Xchg(
            operand::register(Width::Word, 0),
            fields.opcode_register(Width::Word),
        )),
        0x98 => Some(Op::Plain(Plain::Cbw)),
        0x99 => Some(Op::Plain(Plain::Cwd)),
        _ => None,
    }
}

// 0xA0 to 0xAF: MOV between AL or AX and memory, TEST of AL or AX with a constant.
#[tactic(auto, using(crate::proofs::Rows::direct_rules))]
fn move_or_test_accumulator(fields: Fields) -> Option<Op>
    requires low { 0xa0 ≤ fields.opcode }
    requires high { fields.opcode ≤ 0xaf }
    ensures { result ≡ operation_of I8086 (parts_of fields) }
{
    let accumulator = operand::register(fields.width(), 0);
    match fields.opcode {
        0xa0..=0xa1 => Some(Op::Mov(accumulator, fields.direct_operand())),
        0xa2..=0xa3 => Some(Op::Mov(fields.direct_operand(), accumulator)),
        0xa8..=0xa9 => Some(Op::Alu(
            Alu::Test,
            accumulator,
            fields.constant_operand(fields.width()),
        )),
        _ => None,
    }
}

// 0xB0 to 0xBF: MOV of a constant into a register.
#[tactic(auto, using(crate::proofs::Rows::constant_rules))]
fn move_constant(fields: Fields) -> Op
    requires low { 0xb0 ≤ fields.opcode }
    requires high { fields.opcode ≤ 0xbf }
    ensures { Some result ≡ operation_of I8086 (parts_of fields) }
{
    let width = if fields.opcode < 0xb8 {
        Width::Byte
    } else {
        Width::Word
    };
    Op::Mov(
        fields.opcode_register(width),
        fields.constant_operand(width),
    )
}

// 0xC0 to 0xCF: RET, and MOV of a constant.
#[tactic(auto, using(crate::proofs::Rows::return_rules))]
fn move_constant_or_return(fields: Fields) -> Option<Op>
    requires low { 0xc0 ≤ fields.opcode }
    requires high { fields.opcode ≤ 0xcf }
    requires other { fields.opcode ≢ 0xcd }
    ensures { result ≡ operation_of I8086 (parts_of fields) }
{
    match fields.opcode {
        0xc2 => Some(Op::Ret(fields.constant)),
        0xc3 => Some(Op::Ret(0)),
        0xc6..=0xc7 if fields.reg_field() == 0 => Some(Op::Mov(
            fields.rm_operand(fields.width()),
            fields.constant_operand(fields.width()),
        )),
        _ => None,
    }
}

// The shift or rotate of a number other than 6.
fn shift(number: u8) -> Shift
    requires { number < 8 }
    ensures { result ≡ shift_of number }
{
    match number {
        0 => Shift::Rol,
        1 => Shift::Ror,
        2 => Shift::Rcl,
        3 => Shift::Rcr,
        4 => Shift::Shl,
        5 => Shift::Shr,
        _ => Shift::Sar,
    }
}

// 0xD0 to 0xDF: shifts and rotates, XLAT.
#[tactic(auto, using(crate::proofs::Rows::translate_rules))]
fn shift_or_translate(fields: Fields) -> Option<Op>
    requires low { 0xd0 ≤ fields.opcode }
    requires high { fields.opcode ≤ 0xdf }
    ensures { result ≡ operation_of I8086 (parts_of fields) }
{
    match fields.opcode {
        0xd0..=0xd1 => shift_by_one(fields),
        0xd2..=0xd3 => shift_by_cl(fields),
        0xd7 => Some(Op::Plain(Plain::Xlat)),
        _ => None,
    }
}

// 0xD0 and 0xD1: shifts and rotates by 1.
#[tactic(auto, using(crate::proofs::Rows::shift_rules))]
fn shift_by_one(fields: Fields) -> Option<Op>
    requires low { 0xd0 ≤ fields.opcode }
    requires high { fields.opcode ≤ 0xd1 }
    ensures { result ≡ operation_of I8086 (parts_of fields) }
{
    match fields.reg_field() {
        6 => None,
        number => {
            let operand = fields.rm_operand(fields.width());
            Some(Op::Shift(shift(number), operand, Count::One))
        }
    }
}

// 0xD2 and 0xD3: shifts and rotates by CL, but RCL and RCR.
#[tactic(auto, using(crate::proofs::Rows::shift_rules))]
fn shift_by_cl(fields: Fields) -> Option<Op>
    requires low { 0xd2 ≤ fields.opcode }
    requires high { fields.opcode ≤ 0xd3 }
    ensures { result ≡ operation_of I8086 (parts_of fields) }
{
    match fields.reg_field() {
        2 | 3 | 6 => None,
        number => {
            let operand = fields.rm_operand(fields.width());
            Some(Op::Shift(shift(number), operand, Count::Cl))
        }
    }
}

// 0xE0 to 0xEF: LOOPNE, LOOPE, LOOP, JCXZ, CALL, JMP.
#[tactic(auto, using(crate::proofs::Rows::jump_rules))]
fn loop_or_jump(fields: Fields) -> Option<Op>
    requires low { 0xe0 ≤ fields.opcode }
    requires high { fields.opcode ≤ 0xef }
    ensures { result ≡ operation_of I8086 (parts_of fields) }
{
    let target = fields.target();
    match fields.opcode {
        0xe0 => Some(Op::LoopNe(target)),
        0xe1 => Some(Op::LoopE(target)),
        0xe2 => Some(Op::Loop(target)),
        0xe3 => Some(Op::Jcxz(target)),
        0xe8 => Some(Op::Call(target)),
        0xe9 | 0xeb => Some(Op::Jump(target)),
        _ => None,
    }
}

// 0xF0 to 0xFF: flags, and the groups that the field reg names.
#[tactic(auto, using(crate::proofs::Rows::group_rules))]
fn group(fields: Fields) -> Option<Op>
    requires { 0xf0 ≤ fields.opcode }
    ensures { result ≡ operation_of I8086 (parts_of fields) }
{
    match fields.opcode {
        0xf5 => Some(Op::Plain(Plain::Cmc)),
        0xf6..=0xf7 => test_or_unary(fields),
        0xf8 => Some(Op::Plain(Plain::Clc)),
        0xf9 => Some(Op::Plain(Plain::Stc)),
        0xfa => Some(Op::Plain(Plain::Cli)),
        0xfb => Some(Op::Plain(Plain::Sti)),
        0xfc => Some(Op::Plain(Plain::Cld)),
        0xfe..=0xff => step_or_push(fields),
        _ => None,
    }
}

// The operation of 0xF6 and 0xF7 of a number from 2 to 7.
fn unary(number: u8) -> Unary
    requires low { 2 ≤ number }
    requires high { number < 8 }
    ensures { result ≡ unary_of number }
{
    match number {
        2 => Unary::Not,
        3 => Unary::Neg,
        4 => Unary::Mul,
        5 => Unary::Imul,
        6 => Unary::Div,
        _ => Unary::Idiv,
    }
}

// 0xF6 and 0xF7: TEST with a constant, NOT, NEG, MUL, IMUL, DIV, IDIV.
#[tactic(auto, using(crate::proofs::Rows::unary_rules))]
fn test_or_unary(fields: Fields) -> Option<Op>
    requires low { 0xf6 ≤ fields.opcode }
    requires high { fields.opcode ≤ 0xf7 }
    ensures { result ≡ operation_of I8086 (parts_of fields) }
{
    let operand = fields.rm_operand(fields.width());
    match fields.reg_field() {
        0 => Some(Op::Alu(Alu::Test, operand, fields.constant_operand(fields.width()))),
        1 => None,
        number => Some(Op::Unary(unary(number), operand)),
    }
}

// 0xFE and 0xFF: INC, DEC; PUSH of a word operand other than SP.
#[tactic(auto, using(crate::proofs::Rows::step_rules))]
fn step_or_push(fields: Fields) -> Option<Op>
    requires { 0xfe ≤ fields.opcode }
    ensures { result ≡ operation_of I8086 (parts_of fields) }
{
    let operand = fields.rm_operand(fields.width());
    match fields.reg_field() {
        0 => Some(Op::Unary(Unary::Inc, operand)),
        1 => Some(Op::Unary(Unary::Dec, operand)),
        6 if fields.opcode == 0xff && !fields.names_sp() => {
            Some(Op::Push(fields.rm_operand(Width::Word)))
        }
        _ => None,
    }
}

// The operation where the 8086 has none and the 80186 may have one.
#[tactic(auto, using(crate::proofs::LaterRows::later_rules))]
fn later_operation(fields: Fields) -> Option<Op>
    requires count { HasByteCount fields }
    requires earlier { operation_of I8086 (parts_of fields) ≡ None }
    ensures { result ≡ operation_of I186 (parts_of fields) }
{
    match fields.opcode {
        0x68 | 0x6a => Some(Op::Push(fields.constant_operand(Width::Word))),
        0x69 | 0x6b => Some(product_with_constant(fields)),
        0xc0..=0xc1 => shift_by_constant(fields),
        0xc9 => Some(Op::Leave),
        _ => None,
    }
}

// 0x69 and 0x6B: IMUL of a word operand and a constant.
#[tactic(auto, using(crate::proofs::LaterRows::product_rules))]
fn product_with_constant(fields: Fields) -> Op
    requires { (fields.opcode ≡ 0x69) ⊎ (fields.opcode ≡ 0x6b) }
    ensures { Some result ≡ operation_of I186 (parts_of fields) }
{
    let register = operand::word_register(fields.reg_field());
    Op::Imul3(register, fields.rm_operand(Width::Word), fields.constant)
}

// 0xC0 and 0xC1: shifts and rotates by a constant, but RCL and RCR.
#[tactic(auto, using(crate::proofs::LaterRows::shift_rules))]
fn shift_by_constant(fields: Fields) -> Option<Op>
    requires low { 0xc0 ≤ fields.opcode }
    requires high { fields.opcode ≤ 0xc1 }
    requires count { HasByteCount fields }
    ensures { result ≡ operation_of I186 (parts_of fields) }
{
    match fields.reg_field() {
        2 | 3 | 6 => None,
        number => {
            let count = Count::Const(fields.constant_byte());
            Some(Op::Shift(shift(number), fields.rm_operand(fields.width()), count))
        }
    }
}
