//! The shapes in which operations may be encoded.

ghost use Rattle.std.specs.Prelude.{◌≡◌, ◌<◌, [], ◌∷◌, ◌++◌, OnOk, IfOk, IfSome, Some, None};
ghost use Rattle.dcc_encode.specs.Shapes.{reg_number, half_number, address_number, width_bit, alu_number, shift_number};
ghost use Rattle.dcc_encode.specs.Shapes.{unary_opcode, branch_opcode, plain_opcode, table_modrm, opcode_shape};
ghost use Rattle.dcc_encode.specs.Shapes.{memory_shapes, rm_shapes, rm_register_shapes, word_register_shapes, shapes};
ghost use Rattle.dcc_encode.specs.Shapes.{rm_constant_shapes, constant_shapes, direct_shapes, alu_shapes, unary_shapes};
ghost use Rattle.dcc_encode.specs.Shapes.{shift_shapes, segment_shapes, register_constant_shapes, move_shapes};
ghost use Rattle.dcc_encode.specs.Shapes.{pushed_constant_shapes, modrm_shape, control_shapes, one_operand_shapes};

use dcc_machine::{Alu, Cond, Count, Ea, Op, Operand, Plain, Shift, Unary};
use dcc_num::{Half, Reg, Width};
use std::alloc::{AllocError, Global};

/// The first bytes of an encoding, before the displacement and the constant.
#[derive(Clone, Copy, PartialEq, Eq, Debug)]
pub enum Head {
    /// An opcode.
    Opcode(u8),
    /// An opcode and its ModRM byte, or the two bytes of INT 21h.
    TwoBytes(u8, u8),
    /// A prefix, an opcode and its ModRM byte.
    ThreeBytes(u8, u8, u8),
}

/// The shape of an encoding.
#[derive(Clone, Copy, PartialEq, Eq, Debug)]
pub struct Shape {
    /// The bytes before the displacement.
    pub head: Head,
    /// The width of the displacement, if there is one.
    pub displacement: Option<Width>,
    /// The width of the constant, if there is one.
    pub constant: Option<Width>,
}

/// Shapes, in a list of their own.
pub type Shapes = Vec<Shape>;

fn reg_number(r: Reg) -> u8
    ensures value { result ≡ reg_number r }
    ensures range { result < 8 }
{
    match r {
        Reg::Ax => 0,
        Reg::Cx => 1,
        Reg::Dx => 2,
        Reg::Bx => 3,
        Reg::Sp => 4,
        Reg::Bp => 5,
        Reg::Si => 6,
        Reg::Di => 7,
    }
}

// The number of one half of AX, CX, DX or BX.
fn half_number(r: Reg, half: Half) -> u8
    ensures value { result ≡ half_number r half }
    ensures range { result < 8 }
{
    match half {
        Half::Low => reg_number(r) % 4,
        Half::High => 4 + reg_number(r) % 4,
    }
}

// The field rm of an address with a register.
fn address_number(base: Option<Reg>, index: Option<Reg>) -> u8
    ensures value { result ≡ address_number base index }
    ensures range { result < 8 }
{
    match (base, index) {
        (Some(Reg::Bx), Some(Reg::Si)) => 0,
        (Some(Reg::Bx), Some(Reg::Di)) => 1,
        (Some(Reg::Bp), Some(Reg::Si)) => 2,
        (Some(Reg::Bp), Some(Reg::Di)) => 3,
        (None, Some(Reg::Si)) => 4,
        (None, Some(Reg::Di)) => 5,
        (Some(Reg::Bp), None) => 6,
        _ => 7,
    }
}

fn width_bit(width: Width) -> u8
    ensures value { result ≡ width_bit width }
    ensures range { result < 2 }
{
    match width {
        Width::Byte => 0,
        Width::Word => 1,
    }
}

// The number of an operation on two operands; TEST has none.
fn alu_number(operation: Alu) -> Option<u8>
    ensures value { result ≡ alu_number operation }
    ensures range { IfSome result (λ number. number < 8) }
{
    match operation {
        Alu::Add => Some(0),
        Alu::Or => Some(1),
        Alu::Adc => Some(2),
        Alu::Sbb => Some(3),
        Alu::And => Some(4),
        Alu::Sub => Some(5),
        Alu::Xor => Some(6),
        Alu::Cmp => Some(7),
        Alu::Test => None,
    }
}

fn shift_number(operation: Shift) -> u8
    ensures value { result ≡ shift_number operation }
    ensures range { result < 8 }
{
    match operation {
        Shift::Rol => 0,
        Shift::Ror => 1,
        Shift::Rcl => 2,
        Shift::Rcr => 3,
        Shift::Shl => 4,
        Shift::Shr => 5,
        Shift::Sar => 7,
    }
}

// The opcode of an operation on one operand, before the width bit, and its field reg.
fn unary_opcode(operation: Unary) -> (u8, u8)
    ensures value { result ≡ unary_opcode operation }
    ensures opcode { result.0 < 255 }
    ensures reg { result.1 < 8 }
{
    match operation {
        Unary::Inc => (0xfe, 0),
        Unary::Dec => (0xfe, 1),
        Unary::Not => (0xf6, 2),
        Unary::Neg => (0xf6, 3),
        Unary::Mul => (0xf6, 4),
        Unary::Imul => (0xf6, 5),
        Unary::Div => (0xf6, 6),
        Unary::Idiv => (0xf6, 7),
    }
}

fn branch_opcode(condition: Cond) -> u8
    ensures { result ≡ branch_opcode condition }
{
    match condition {
        Cond::O => 0x70,
        Cond::No => 0x71,
        Cond::B => 0x72,
        Cond::Ae => 0x73,
        Cond::Z => 0x74,
        Cond::Nz => 0x75,
        Cond::Be => 0x76,
        Cond::A => 0x77,
        Cond::S => 0x78,
        Cond::Ns => 0x79,
        Cond::L => 0x7c,
        Cond::Ge => 0x7d,
        Cond::Le => 0x7e,
        Cond::G => 0x7f,
    }
}

fn plain_opcode(operation: Plain) -> u8
    ensures { result ≡ plain_opcode operation }
{
    match operation {
        Plain::Nop => 0x90,
        Plain::Cbw => 0x98,
        Plain::Cwd => 0x99,
        Plain::Xlat => 0xd7,
        Plain::Cmc => 0xf5,
        Plain::Clc => 0xf8,
        Plain::Stc => 0xf9,
        Plain::Cli => 0xfa,
        Plain::Sti => 0xfb,
        Plain::Cld => 0xfc,
    }
}

// The ModRM byte of a jump through a table by a register.
fn table_modrm(r: Reg) -> u8
    ensures { result ≡ table_modrm r }
{
    match r {
        Reg::Si => 0xa4,
        Reg::Di => 0xa5,
        _ => 0xa7,
    }
}

fn push_opcode(list: &mut Shapes, opcode: u8, constant: Option<Width>) -> Result<(), AllocError>
    ensures { OnOk result (list.new.items ≡ list.old.items ++ opcode_shape opcode constant) }
{
    let shape = Shape {
        head: Head::Opcode(opcode),
        displacement: None,
        constant,
    };
    list.push(shape)?;
    Ok(())
}

// A shape with a ModRM byte of these fields.
fn modrm_shape(
    opcode: u8,
    mode: u8,
    reg: u8,
    rm: u8,
    displacement: Option<Width>,
    constant: Option<Width>,
) -> Shape
    requires mode { mode < 4 }
    requires reg { reg < 8 }
    requires rm { rm < 8 }
    ensures { result ≡ modrm_shape opcode mode reg rm displacement constant }
{
    Shape {
        head: Head::TwoBytes(opcode, 64 * mode + 8 * reg + rm),
        displacement,
        constant,
    }
}

// Appends the shapes with a memory operand.
fn push_memory(
    list: &mut Shapes,
    opcode: u8,
    reg: u8,
    ea: Ea,
    constant: Option<Width>,
) -> Result<(), AllocError>
    requires { reg < 8 }
    ensures { OnOk result (list.new.items ≡ list.old.items ++ memory_shapes opcode reg ea.base ea.index constant) }
{
    let word = Some(Width::Word);
    if ea.base.is_none() && ea.index.is_none() {
        list.push(modrm_shape(opcode, 0, reg, 6, word, constant))?;
        return Ok(());
    }
    let rm = address_number(ea.base, ea.index);
    list.push(modrm_shape(opcode, 0, reg, rm, None, constant))?;
    list.push(modrm_shape(opcode, 1, reg, rm, Some(Width::Byte), constant))?;
    list.push(modrm_shape(opcode, 2, reg, rm, word, constant))?;
    Ok(())
}

// Appends the shapes with an operand r/m.
fn push_rm(
    list: &mut Shapes,
    opcode: u8,
    reg: u8,
    a: Operand,
    constant: Option<Width>,
) -> Result<(), AllocError>
    requires { reg < 8 }
    ensures { OnOk result (list.new.items ≡ list.old.items ++ rm_shapes opcode reg a constant) }
{
    match a {
        Operand::Word(r) => {
            list.push(modrm_shape(opcode, 3, reg, reg_number(r), None, constant))?;
            Ok(())
        }
        Operand::Byte(r, half) => {
            list.push(modrm_shape(opcode, 3, reg, half_number(r, half), None, constant))?;
            Ok(())
        }
        Operand::Mem(_, ea) => push_memory(list, opcode, reg, ea, constant),
        Operand::Seg(_) | Operand::Const(_, _) => Ok(()),
    }
}

// Appends the shapes with an operand r/m and a register of its width.
fn push_rm_register(
    list: &mut Shapes,
    opcode: u8,
    rm: Operand,
    r: Operand,
) -> Result<(), AllocError>
    requires { opcode < 255 }
    ensures { OnOk result (list.new.items ≡ list.old.items ++ rm_register_shapes opcode rm r) }
{
    match r {
        Operand::Word(r) => push_rm(list, opcode + 1, reg_number(r), rm, None),
        Operand::Byte(r, half) => push_rm(list, opcode, half_number(r, half), rm, None),
        _ => Ok(()),
    }
}

// Appends the shape whose opcode names a word register.
fn push_word_register(list: &mut Shapes, opcode: u8, a: Operand) -> Result<(), AllocError>
    requires { opcode < 248 }
    ensures { OnOk result (list.new.items ≡ list.old.items ++ word_register_shapes opcode a None) }
{
    match a {
        Operand::Word(r) => push_opcode(list, opcode + reg_number(r), None),
        _ => Ok(()),
    }
}

// Appends the shapes with an operand r/m and a constant of its width.
fn push_rm_constant(
    list: &mut Shapes,
    opcode: u8,
    reg: u8,
    rm: Operand,
    constant: Operand,
) -> Result<(), AllocError>
    requires opcode { opcode < 255 }
    requires reg { reg < 8 }
    ensures { OnOk result (list.new.items ≡ list.old.items ++ rm_constant_shapes opcode reg rm constant) }
{
    match constant {
        Operand::Const(width, _) => push_rm(list, opcode + width_bit(width), reg, rm, Some(width)),
        _ => Ok(()),
    }
}

// Appends the shape of a constant alone.
fn push_constant(list: &mut Shapes, opcode: u8, constant: Operand) -> Result<(), AllocError>
    requires { opcode < 255 }
    ensures { OnOk result (list.new.items ≡ list.old.items ++ constant_shapes opcode constant) }
{
    match constant {
        Operand::Const(width, _) => push_opcode(list, opcode + width_bit(width), Some(width)),
        _ => Ok(()),
    }
}

// Appends the shape of a memory operand whose displacement stands as a constant.
fn push_direct(list: &mut Shapes, opcode: u8, memory: Operand) -> Result<(), AllocError>
    requires { opcode < 255 }
    ensures { OnOk result (list.new.items ≡ list.old.items ++ direct_shapes opcode memory) }
{
    match memory {
        Operand::Mem(width, _) => push_opcode(list, opcode + width_bit(width), Some(Width::Word)),
        _ => Ok(()),
    }
}

// Appends the shapes of TEST.
fn push_test(list: &mut Shapes, a: Operand, b: Operand) -> Result<(), AllocError>
    ensures { OnOk result (list.new.items ≡ list.old.items ++ alu_shapes None a b) }
{
    push_rm_register(list, 0x84, a, b)?;
    push_constant(list, 0xa8, b)?;
    push_rm_constant(list, 0xf6, 0, a, b)
}

// Appends the shapes of the operation on two operands of a number.
fn push_arithmetic(list: &mut Shapes, number: u8, a: Operand, b: Operand) -> Result<(), AllocError>
    requires { number < 8 }
    ensures { OnOk result (list.new.items ≡ list.old.items ++ alu_shapes (Some number) a b) }
{
    push_rm_register(list, 8 * number, a, b)?;
    push_rm_register(list, 8 * number + 2, b, a)?;
    push_constant(list, 8 * number + 4, b)?;
    push_rm_constant(list, 0x80, number, a, b)?;
    push_rm(list, 0x83, number, a, Some(Width::Byte))
}

fn push_alu(list: &mut Shapes, operation: Alu, a: Operand, b: Operand) -> Result<(), AllocError>
    ensures { OnOk result (list.new.items ≡ list.old.items ++ alu_shapes (alu_number operation) a b) }
{
    match alu_number(operation) {
        Some(number) => push_arithmetic(list, number, a, b),
        None => push_test(list, a, b),
    }
}

fn push_unary(list: &mut Shapes, operation: Unary, a: Operand) -> Result<(), AllocError>
    ensures { OnOk result (list.new.items ≡ list.old.items ++ unary_shapes operation a) }
{
    match operation {
        Unary::Inc => push_word_register(list, 0x40, a)?,
        Unary::Dec => push_word_register(list, 0x48, a)?,
        _ => {}
    }
    let (opcode, reg) = unary_opcode(operation);
    push_rm(list, opcode + width_bit(a.width()), reg, a, None)
}

fn push_shift(
    list: &mut Shapes,
    operation: Shift,
    a: Operand,
    count: Count,
) -> Result<(), AllocError>
    ensures { OnOk result (list.new.items ≡ list.old.items ++ shift_shapes operation a count) }
{
    let (opcode, constant) = match count {
        Count::One => (0xd0, None),
        Count::Cl => (0xd2, None),
        Count::Const(_) => (0xc0, Some(Width::Byte)),
    };
    push_rm(
        list,
        opcode + width_bit(a.width()),
        shift_number(operation),
        a,
        constant,
    )
}

// Appends the shapes of a MOV between a word register and a segment register.
fn push_segment(list: &mut Shapes, to: Operand, from: Operand) -> Result<(), AllocError>
    ensures { OnOk result (list.new.items ≡ list.old.items ++ segment_shapes to from) }
{
    match (to, from) {
        (_, Operand::Seg(number)) => push_rm(list, 0x8c, number % 8, to, None),
        (Operand::Seg(number), _) => push_rm(list, 0x8e, number % 8, from, None),
        _ => Ok(()),
    }
}

// Appends the shape of a MOV of a constant to a register, which the opcode names.
fn push_register_constant(list: &mut Shapes, to: Operand, from: Operand) -> Result<(), AllocError>
    ensures { OnOk result (list.new.items ≡ list.old.items ++ register_constant_shapes to from) }
{
    match (to, from) {
        (Operand::Word(r), Operand::Const(width, _)) => push_opcode(
            list,
            0xb8 + reg_number(r),
            Some(width),
        ),
        (Operand::Byte(r, half), Operand::Const(width, _)) => {
            push_opcode(list, 0xb0 + half_number(r, half), Some(width))
        }
        _ => Ok(()),
    }
}

fn push_move(list: &mut Shapes, to: Operand, from: Operand) -> Result<(), AllocError>
    ensures { OnOk result (list.new.items ≡ list.old.items ++ move_shapes to from) }
{
    push_rm_register(list, 0x88, to, from)?;
    push_rm_register(list, 0x8a, from, to)?;
    push_segment(list, to, from)?;
    push_direct(list, 0xa0, from)?;
    push_direct(list, 0xa2, to)?;
    push_register_constant(list, to, from)?;
    push_rm_constant(list, 0xc6, 0, to, from)
}

// Appends the shapes of a PUSH of a constant, which may be a byte that is sign-extended.
fn push_pushed_constant(list: &mut Shapes, a: Operand) -> Result<(), AllocError>
    ensures { OnOk result (list.new.items ≡ list.old.items ++ pushed_constant_shapes a) }
{
    match a {
        Operand::Const(_, _) => {
            push_opcode(list, 0x68, Some(Width::Word))?;
            push_opcode(list, 0x6a, Some(Width::Byte))
        }
        _ => Ok(()),
    }
}

// Appends the shapes of a jump, a call, a return or an operation without operands.
fn push_control(list: &mut Shapes, op: Op) -> Result<(), AllocError>
    ensures { OnOk result (list.new.items ≡ list.old.items ++ control_shapes op) }
{
    let byte = Some(Width::Byte);
    let word = Some(Width::Word);
    match op {
        Op::Leave => push_opcode(list, 0xc9, None),
        Op::Plain(operation) => push_opcode(list, plain_opcode(operation), None),
        Op::Jump(_) => {
            push_opcode(list, 0xeb, byte)?;
            push_opcode(list, 0xe9, word)
        }
        Op::Branch(condition, _) => push_opcode(list, branch_opcode(condition), byte),
        Op::Loop(_) => push_opcode(list, 0xe2, byte),
        Op::LoopE(_) => push_opcode(list, 0xe1, byte),
        Op::LoopNe(_) => push_opcode(list, 0xe0, byte),
        Op::Jcxz(_) => push_opcode(list, 0xe3, byte),
        Op::Call(_) => push_opcode(list, 0xe8, word),
        Op::Ret(_) => {
            push_opcode(list, 0xc3, None)?;
            push_opcode(list, 0xc2, word)
        }
        _ => Ok(()),
    }
}

// Appends the shapes of LEA, of a product with a constant, of PUSH and of POP, and those of an operation without
// operands.
fn push_one_operand(list: &mut Shapes, op: Op) -> Result<(), AllocError>
    ensures { OnOk result (list.new.items ≡ list.old.items ++ one_operand_shapes op) }
{
    match op {
        Op::Lea(r, ea) => push_memory(list, 0x8d, reg_number(r), ea, None),
        Op::Imul3(r, a, _) => {
            push_rm(list, 0x69, reg_number(r), a, Some(Width::Word))?;
            push_rm(list, 0x6b, reg_number(r), a, Some(Width::Byte))
        }
        Op::Push(a) => {
            push_pushed_constant(list, a)?;
            push_word_register(list, 0x50, a)?;
            push_rm(list, 0xff, 6, a, None)
        }
        Op::Pop(a) => {
            push_word_register(list, 0x58, a)?;
            push_rm(list, 0x8f, 0, a, None)
        }
        _ => push_control(list, op),
    }
}

// Appends one shape.
fn push_whole(
    list: &mut Shapes,
    head: Head,
    displacement: Option<Width>,
    constant: Option<Width>,
) -> Result<(), AllocError>
    ensures { OnOk result (list.new.items ≡ list.old.items
        ++ record { head = head; displacement = displacement; constant = constant } ∷ []) }
{
    let shape = Shape {
        head,
        displacement,
        constant,
    };
    list.push(shape)?;
    Ok(())
}

/// The shapes in which an operation may be encoded, at whatever offset and on whatever processor.
pub fn shapes_of(alloc: Global, op: Op) -> Result<Shapes, AllocError>
    ensures { IfOk result (λ list. list.items ≡ shapes op) }
{
    let mut list = Shapes::new(alloc);
    let word = Some(Width::Word);
    match op {
        Op::Alu(operation, a, b) => push_alu(&mut list, operation, a, b)?,
        Op::Unary(operation, a) => push_unary(&mut list, operation, a)?,
        Op::Shift(operation, a, count) => push_shift(&mut list, operation, a, count)?,
        Op::Mov(to, from) => push_move(&mut list, to, from)?,
        Op::Xchg(a, b) => {
            push_rm_register(&mut list, 0x86, a, b)?;
            push_word_register(&mut list, 0x90, b)?;
        }
        Op::Enter(_) => push_whole(&mut list, Head::Opcode(0xc8), word, Some(Width::Byte))?,
        Op::Table(r, _) => push_whole(
            &mut list,
            Head::ThreeBytes(0x2e, 0xff, table_modrm(r)),
            word,
            None,
        )?,
        Op::Int21 => push_whole(&mut list, Head::TwoBytes(0xcd, 0x21), None, None)?,
        _ => push_one_operand(&mut list, op)?,
    }
    Ok(list)
}
