//! Instructions, in the terms of the 8086 Family User's Manual, table 2-21, and of the iAPX 86/88, 186/188 User's
//! Manual, Programmer's Reference.

ghost use Rattle.std.specs.Prelude.{◌≡◌};
ghost use Rattle.dcc_machine.specs.Machine.{operand_width, is_segment};
ghost use Rattle.dcc_machine.specs.Operations.{holds, is_control};
ghost use Rattle.dcc_machine.specs.Successors.{next_of};
ghost use Rattle.dcc_machine.specs.Wanted.{is_same_general, is_zeroing};

use dcc_num::{Flags, Half, Reg, Width};

/// An effective address in memory: the sum of its parts, modulo 65536.
#[derive(Clone, Copy, PartialEq, Eq, Debug)]
pub struct Ea {
    /// BX or BP.
    pub base: Option<Reg>,
    /// SI or DI.
    pub index: Option<Reg>,
    /// A displacement in bytes, sign-extended to a word.
    pub disp: u16,
}

/// What an instruction reads or writes.
#[derive(Clone, Copy, PartialEq, Eq, Debug)]
pub enum Operand {
    /// A word register.
    Word(Reg),
    /// A byte register: one half of AX, CX, DX or BX.
    Byte(Reg, Half),
    /// A segment register by its number: `ES`, `CS`, `SS` or `DS`.
    Seg(u8),
    /// A byte or a word in memory.
    Mem(Width, Ea),
    /// A constant; one of width Byte is below 256.
    Const(Width, u16),
}

impl Operand {
    /// The number of bits that the operand has; a segment register has those of a word.
    pub fn width(self) -> Width
        ensures { result ≡ operand_width self }
    {
        match self {
            Operand::Word(_) | Operand::Seg(_) => Width::Word,
            Operand::Byte(..) => Width::Byte,
            Operand::Mem(width, _) | Operand::Const(width, _) => width,
        }
    }

    /// Whether the operand is a segment register.
    pub fn is_segment(self) -> bool
        ensures { result ≡ is_segment self }
    {
        matches!(self, Operand::Seg(_))
    }

    // Whether both operands are one general register, or one half of such a register.
    fn is_same_general(self, other: Operand) -> bool
        ensures { result ≡ is_same_general self other }
    {
        match (self, other) {
            (Operand::Word(r), Operand::Word(q)) => !matches!(r, Reg::Sp | Reg::Bp) && r == q,
            (Operand::Byte(r, Half::Low), Operand::Byte(q, Half::Low))
            | (Operand::Byte(r, Half::High), Operand::Byte(q, Half::High)) => {
                !matches!(r, Reg::Sp | Reg::Bp) && r == q
            }
            _ => false,
        }
    }
}

/// An operation on two operands.
#[derive(Clone, Copy, PartialEq, Eq, Debug)]
pub enum Alu {
    Add,
    Or,
    Adc,
    Sbb,
    And,
    Sub,
    Xor,
    Cmp,
    Test,
}

impl Alu {
    /// Whether the operation makes 0 of these operands whatever they hold: XOR or SUB of a general register, or of a
    /// half of one, with itself.
    pub fn is_zeroing(self, a: Operand, b: Operand) -> bool
        ensures { result ≡ is_zeroing self a b }
    {
        matches!(self, Alu::Xor | Alu::Sub) && a.is_same_general(b)
    }
}

/// A shift or rotate.
#[derive(Clone, Copy, PartialEq, Eq, Debug)]
pub enum Shift {
    Rol,
    Ror,
    Rcl,
    Rcr,
    Shl,
    Shr,
    Sar,
}

/// How far a shift or rotate goes.
#[derive(Clone, Copy, PartialEq, Eq, Debug)]
pub enum Count {
    /// By 1.
    One,
    /// By what CL holds; the 80186 takes it modulo 32.
    Cl,
    /// By this constant, modulo 32; the 80186 alone has this form.
    Const(u8),
}

/// An operation on one operand.
#[derive(Clone, Copy, PartialEq, Eq, Debug)]
pub enum Unary {
    Inc,
    Dec,
    Neg,
    Not,
    Mul,
    Imul,
    Div,
    Idiv,
}

/// The condition of a conditional jump.
#[derive(Clone, Copy, PartialEq, Eq, Debug)]
pub enum Cond {
    /// Overflow.
    O,
    /// No overflow.
    No,
    /// Below: carry.
    B,
    /// Above or equal: no carry.
    Ae,
    /// Zero.
    Z,
    /// Not zero.
    Nz,
    /// Below or equal.
    Be,
    /// Above.
    A,
    /// Sign.
    S,
    /// No sign.
    Ns,
    /// Less, as signed numbers.
    L,
    /// Greater or equal, as signed numbers.
    Ge,
    /// Less or equal, as signed numbers.
    Le,
    /// Greater, as signed numbers.
    G,
}

impl Cond {
    /// Whether the condition holds of the flags.
    pub fn holds(self, flags: Flags) -> bool
        ensures { result ≡ holds self flags }
    {
        let less = flags.sf != flags.of;
        match self {
            Cond::O => flags.of,
            Cond::No => !flags.of,
            Cond::B => flags.cf,
            Cond::Ae => !flags.cf,
            Cond::Z => flags.zf,
            Cond::Nz => !flags.zf,
            Cond::Be => flags.cf || flags.zf,
            Cond::A => !(flags.cf || flags.zf),
            Cond::S => flags.sf,
            Cond::Ns => !flags.sf,
            Cond::L => less,
            Cond::Ge => !less,
            Cond::Le => flags.zf || less,
            Cond::G => !(flags.zf || less),
        }
    }
}

/// An operation without operands.
#[derive(Clone, Copy, PartialEq, Eq, Debug)]
pub enum Plain {
    Nop,
    Cbw,
    Cwd,
    Xlat,
    Clc,
    Stc,
    Cmc,
    Cli,
    Sti,
    Cld,
}

impl Plain {
    /// Whether the operation is CLI, STI or CLD, which change a flag that is not modelled.
    pub fn is_control(self) -> bool
        ensures { result ≡ is_control self }
    {
        matches!(self, Plain::Cli | Plain::Sti | Plain::Cld)
    }
}

/// An operation with its operands. Targets are absolute offsets in the code segment.
#[derive(Clone, Copy, PartialEq, Eq, Debug)]
pub enum Op {
    /// The first operand takes the result, except of CMP and TEST.
    Alu(Alu, Operand, Operand),
    /// The operand takes the result, except of a product or a quotient, which AX and DX take.
    Unary(Unary, Operand),
    /// The operand takes the result; RCL and RCR go by 1 alone.
    Shift(Shift, Operand, Count),
    /// MOV: the destination, then the source.
    Mov(Operand, Operand),
    /// Both operands take the value of the other one.
    Xchg(Operand, Operand),
    /// The register takes the offset of the address.
    Lea(Reg, Ea),
    /// The register takes the lower word of the signed product of the word operand and the constant; the 80186 alone
    /// has this form.
    Imul3(Reg, Operand, u16),
    /// PUSH of a word operand.
    Push(Operand),
    /// POP: a word operand takes the word at the top of the stack.
    Pop(Operand),
    /// BP is pushed and takes SP, and SP falls by this many bytes; the 80186 alone has it.
    Enter(u16),
    /// SP takes BP, and BP is popped; the 80186 alone has it.
    Leave,
    /// An operation without operands.
    Plain(Plain),
    /// A jump in any case.
    Jump(u16),
    /// A jump where the condition holds.
    Branch(Cond, u16),
    /// LOOP: CX falls by 1, and the jump is made where it is not 0 then.
    Loop(u16),
    /// LOOPE: CX falls by 1, and the jump is made where it is not 0 then and the zero flag is set.
    LoopE(u16),
    /// LOOPNE: CX falls by 1, and the jump is made where it is not 0 then and the zero flag is clear.
    LoopNe(u16),
    /// A jump where CX is 0.
    Jcxz(u16),
    /// A jump to the word in the code segment at the register plus the offset.
    Table(Reg, u16),
    /// A call of the procedure at the target.
    Call(u16),
    /// A return that removes this many further bytes from the stack.
    Ret(u16),
    /// INT 21h, a call of DOS.
    Int21,
}

/// A decoded instruction.
#[derive(Clone, Copy, PartialEq, Eq, Debug)]
pub struct Instr {
    /// What the instruction does.
    pub op: Op,
    /// The length in bytes: opcode, ModRM byte, displacement and constants.
    pub len: u8,
}

impl Instr {
    /// The offset just after the instruction that stands at an offset; it wraps at 65536.
    pub fn next_of(self, at: u16) -> u16
        ensures { result ≡ next_of at self }
    {
        at.wrapping_add(u16::from(self.len))
    }
}
