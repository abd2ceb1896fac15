//! Encodings with the instructions that an independent decoder of both processors gives for them.

use dcc_decode::decode;
use dcc_machine::Operand::{Byte, Seg, Word};
use dcc_machine::{Alu, Cond, Count, Cpu, Ea, Instr, Op, Operand, Plain, Shift, Unary};
use dcc_num::Half::{High, Low};
use dcc_num::Reg::{Ax, Bp, Bx, Cx, Di, Dx, Si, Sp};
use dcc_num::{Reg, Width};

// Whether all of the bytes are an instruction of the processor with this operation.
fn decodes_on(cpu: Cpu, code: &[u8], op: Op) -> bool {
    match decode(code, 0, cpu) {
        Some(instr) => instr.op == op && usize::from(instr.len) == code.len(),
        None => false,
    }
}

// Whether all of the bytes are an instruction of both processors with the operation.
fn decodes(code: &[u8], op: Op) -> bool {
    decodes_on(Cpu::I8086, code, op) && decodes_on(Cpu::I186, code, op)
}

// Whether all of the bytes are an instruction of the 80186 with the operation, and none of the 8086 begins there.
fn decodes_later(code: &[u8], op: Op) -> bool {
    decodes_on(Cpu::I186, code, op) && decode(code, 0, Cpu::I8086).is_none()
}

// Whether neither processor has an instruction that the bytes begin with.
fn is_none(code: &[u8]) -> bool {
    decode(code, 0, Cpu::I8086).is_none() && decode(code, 0, Cpu::I186).is_none()
}

fn byte(value: u16) -> Operand {
    Operand::Const(Width::Byte, value)
}

fn word(value: u16) -> Operand {
    Operand::Const(Width::Word, value)
}

fn byte_at(base: Option<Reg>, index: Option<Reg>, disp: u16) -> Operand {
    Operand::Mem(Width::Byte, Ea { base, index, disp })
}

fn word_at(base: Option<Reg>, index: Option<Reg>, disp: u16) -> Operand {
    Operand::Mem(Width::Word, Ea { base, index, disp })
}

#[test]
fn two_operands_come_in_their_order(rt: HostRuntime) {
    assert!(rt; decodes(b"\x01\xd8", Op::Alu(Alu::Add, Word(Ax), Word(Bx))));
    assert!(rt;
        decodes(
            b"\x00\xb4\x34\x12",
            Op::Alu(Alu::Add, byte_at(None, Some(Si), 0x1234), Byte(Dx, High))
        )
    );
    assert!(rt; decodes(b"\x2b\xc3", Op::Alu(Alu::Sub, Word(Ax), Word(Bx))));
    assert!(rt;
        decodes(
            b"\x3a\x46\x01",
            Op::Alu(Alu::Cmp, Byte(Ax, Low), byte_at(Some(Bp), None, 0x1))
        )
    );
    assert!(rt; decodes(b"\x04\x06", Op::Alu(Alu::Add, Byte(Ax, Low), byte(0x6))));
    assert!(rt; decodes(b"\x25\xff\x00", Op::Alu(Alu::And, Word(Ax), word(0xff))));
    assert!(rt; decodes(b"\x80\xe3\x0f", Op::Alu(Alu::And, Byte(Bx, Low), byte(0xf))));
    assert!(rt;
        decodes(
            b"\x81\x03\x34\x12",
            Op::Alu(Alu::Add, word_at(Some(Bp), Some(Di), 0x0), word(0x1234))
        )
    );
    assert!(rt; decodes(b"\x83\xc4\xfe", Op::Alu(Alu::Add, Word(Sp), word(0xfffe))));
    assert!(rt;
        decodes(
            b"\x3b\x06\x00\x01",
            Op::Alu(Alu::Cmp, Word(Ax), word_at(None, None, 0x100))
        )
    );
    assert!(rt; decodes(b"\x85\xc0", Op::Alu(Alu::Test, Word(Ax), Word(Ax))));
    assert!(rt; decodes(b"\xa9\x80\xff", Op::Alu(Alu::Test, Word(Ax), word(0xff80))));
    assert!(rt;
        decodes(
            b"\xf6\x06\x10\x00\x01",
            Op::Alu(Alu::Test, byte_at(None, None, 0x10), byte(0x1))
        )
    );
}

#[test]
fn groups_go_by_the_reg_field(rt: HostRuntime) {
    assert!(rt; decodes(b"\x4c", Op::Unary(Unary::Dec, Word(Sp))));
    assert!(rt; decodes(b"\xf7\xd8", Op::Unary(Unary::Neg, Word(Ax))));
    assert!(rt;
        decodes(
            b"\xf6\x2c",
            Op::Unary(Unary::Imul, byte_at(None, Some(Si), 0x0))
        )
    );
    assert!(rt;
        decodes(
            b"\xfe\x46\x00",
            Op::Unary(Unary::Inc, byte_at(Some(Bp), None, 0x0))
        )
    );
    assert!(rt;
        decodes(
            b"\xff\x0e\x10\x00",
            Op::Unary(Unary::Dec, word_at(None, None, 0x10))
        )
    );
    assert!(rt;
        decodes(
            b"\xd0\xe1",
            Op::Shift(Shift::Shl, Byte(Cx, Low), Count::One)
        )
    );
    assert!(rt; decodes(b"\xd1\xd8", Op::Shift(Shift::Rcr, Word(Ax), Count::One)));
    assert!(rt; decodes(b"\xd3\xe0", Op::Shift(Shift::Shl, Word(Ax), Count::Cl)));
    assert!(rt;
        decodes(
            b"\xd2\xbe\x00\x01",
            Op::Shift(Shift::Sar, byte_at(Some(Bp), None, 0x100), Count::Cl)
        )
    );
}

#[test]
fn addresses_are_those_of_the_rm_table(rt: HostRuntime) {
    assert!(rt;
        decodes(
            b"\x8b\x46\x04",
            Op::Mov(Word(Ax), word_at(Some(Bp), None, 0x4))
        )
    );
    assert!(rt;
        decodes(
            b"\x89\xb9\xfe\xff",
            Op::Mov(word_at(Some(Bx), Some(Di), 0xfffe), Word(Di))
        )
    );
    assert!(rt;
        decodes(
            b"\x8a\x2e\x20\x00",
            Op::Mov(Byte(Cx, High), byte_at(None, None, 0x20))
        )
    );
    let address = Ea {
        base: Some(Bp),
        index: Some(Si),
        disp: 0xff85,
    };
    assert!(rt; decodes(b"\x8d\x42\x85", Op::Lea(Ax, address)));
    assert!(rt;
        decodes(
            b"\x86\x66\xf0",
            Op::Xchg(byte_at(Some(Bp), None, 0xfff0), Byte(Ax, High))
        )
    );
}

#[test]
fn moves_take_constants_segments_and_addresses(rt: HostRuntime) {
    assert!(rt; decodes(b"\xb8\x34\x12", Op::Mov(Word(Ax), word(0x1234))));
    assert!(rt; decodes(b"\xb7\xff", Op::Mov(Byte(Bx, High), byte(0xff))));
    assert!(rt; decodes(b"\xc7\xc0\x34\x12", Op::Mov(Word(Ax), word(0x1234))));
    assert!(rt;
        decodes(
            b"\xc6\x06\x20\x00\x41",
            Op::Mov(byte_at(None, None, 0x20), byte(0x41))
        )
    );
    assert!(rt;
        decodes(
            b"\xa2\x10\x00",
            Op::Mov(byte_at(None, None, 0x10), Byte(Ax, Low))
        )
    );
    assert!(rt; decodes(b"\x8c\xd8", Op::Mov(Word(Ax), Seg(3))));
    assert!(rt; decodes(b"\x8e\xd0", Op::Mov(Seg(2), Word(Ax))));
    assert!(rt; decodes(b"\x93", Op::Xchg(Word(Ax), Word(Bx))));
}

#[test]
fn targets_are_counted_from_the_next_instruction(rt: HostRuntime) {
    assert!(rt; decodes(b"\x5f", Op::Pop(Word(Di))));
    assert!(rt; decodes(b"\xff\x36\x10\x00", Op::Push(word_at(None, None, 0x10))));
    assert!(rt; decodes(b"\x8f\x04", Op::Pop(word_at(None, Some(Si), 0x0))));
    assert!(rt; decodes(b"\x74\xfe", Op::Branch(Cond::Z, 0x0)));
    assert!(rt; decodes(b"\x7f\x80", Op::Branch(Cond::G, 0xff82)));
    assert!(rt; decodes(b"\xe2\xfc", Op::Loop(0xfffe)));
    assert!(rt; decodes(b"\xe1\x00", Op::LoopE(0x2)));
    assert!(rt; decodes(b"\xe3\x05", Op::Jcxz(0x7)));
    assert!(rt; decodes(b"\xe8\x01\x00", Op::Call(0x4)));
    assert!(rt; decodes(b"\xe9\xfe\xff", Op::Jump(0x1)));
    assert!(rt; decodes(b"\xeb\x80", Op::Jump(0xff82)));
    assert!(rt; decodes(b"\xc2\x04\x00", Op::Ret(0x4)));
    assert!(rt; decodes(b"\xcd\x21", Op::Int21));
    assert!(rt; decodes(b"\x2e\xff\xa5\x34\x12", Op::Table(Di, 0x1234)));
    assert!(rt; decodes(b"\x99", Op::Plain(Plain::Cwd)));
    assert!(rt; decodes(b"\xd7", Op::Plain(Plain::Xlat)));
    assert!(rt; decodes(b"\xf5", Op::Plain(Plain::Cmc)));
}

#[test]
fn the_80186_has_more_instructions(rt: HostRuntime) {
    assert!(rt; decodes_later(b"\x68\x34\x12", Op::Push(word(0x1234))));
    assert!(rt; decodes_later(b"\x6a\xfe", Op::Push(word(0xfffe))));
    assert!(rt; decodes_later(b"\x69\xc3\x34\x12", Op::Imul3(Ax, Word(Bx), 0x1234)));
    assert!(rt; decodes_later(b"\x6b\xc3\x06", Op::Imul3(Ax, Word(Bx), 6)));
    assert!(rt;
        decodes_later(
            b"\x6b\x06\x10\x00\xff",
            Op::Imul3(Ax, word_at(None, None, 0x10), 0xffff)
        )
    );
    assert!(rt;
        decodes_later(
            b"\xc1\xe0\x04",
            Op::Shift(Shift::Shl, Word(Ax), Count::Const(4))
        )
    );
    assert!(rt;
        decodes_later(
            b"\xc0\x2e\x00\x00\x21",
            Op::Shift(Shift::Shr, byte_at(None, None, 0), Count::Const(0x21))
        )
    );
    assert!(rt; decodes_later(b"\xc8\x02\x00\x00", Op::Enter(2)));
    assert!(rt; decodes_later(b"\xc9", Op::Leave));
}

#[test]
fn other_bytes_are_no_instruction(rt: HostRuntime) {
    assert!(rt; is_none(b""));
    assert!(rt; is_none(b"\xb8\x34"));
    assert!(rt; is_none(b"\x54"));
    assert!(rt; is_none(b"\x7a\x00"));
    assert!(rt; is_none(b"\x82\xc0\x00"));
    assert!(rt; is_none(b"\x8c\xe0"));
    assert!(rt; is_none(b"\x8e\xc8"));
    assert!(rt; is_none(b"\x8e\x06\x00\x00"));
    assert!(rt; is_none(b"\x8d\xc0"));
    assert!(rt; is_none(b"\x8f\xc4"));
    assert!(rt; is_none(b"\x8f\xc8"));
    assert!(rt; is_none(b"\xd2\xd0"));
    assert!(rt; is_none(b"\xd0\xf0"));
    assert!(rt; is_none(b"\xf6\xc8"));
    assert!(rt; is_none(b"\xfe\x10"));
    assert!(rt; is_none(b"\xff\xf4"));
    assert!(rt; is_none(b"\xff\x26\x00\x00"));
    assert!(rt; is_none(b"\xcd\x20"));
    assert!(rt; is_none(b"\xcd"));
    assert!(rt; is_none(b"\x2e\xff\xa6\x00\x00"));
    assert!(rt; is_none(b"\x8b\x06\x00"));
    assert!(rt; is_none(b"\xc8\x02\x00\x01"));
    assert!(rt; is_none(b"\xc8\x02\x00"));
    assert!(rt; is_none(b"\xc0\xd0\x01"));
    assert!(rt; is_none(b"\xc0\xf0\x01"));
    assert!(rt; is_none(b"\x69\xc3\x34"));
}

#[test]
fn an_index_is_an_offset(rt: HostRuntime) {
    let code = [0xb4, 0x4c, 0xeb, 0xfc];
    assert!(rt;
        decode(&code, 2, Cpu::I8086)
            == Some(Instr {
                op: Op::Jump(0),
                len: 2
            })
    );
    assert!(rt;
        decode(&code, 3, Cpu::I8086)
            == Some(Instr {
                op: Op::Plain(Plain::Cld),
                len: 1
            })
    );
    assert!(rt; decode(&code, 4, Cpu::I8086).is_none());
    assert!(rt; decode(&code, 0xffff, Cpu::I8086).is_none());
}
