//! Mnemonics.

ghost use Rattle.std.specs.Prelude.{◌≡◌, find};
ghost use Rattle.std.specs.Str.{bytes_eq};
ghost use Rattle.dcc_reread.specs.Mnemonics.{mnemonic_name, mnemonic_of};

use dcc_machine::{Alu, Cond, Plain, Shift, Unary};
use dcc_spelled::{alu_name, branch_name, plain_name, shift_name, unary_name};

/// What a mnemonic names; IMUL with three operands and the jump through a table have the names of others.
#[derive(Clone, Copy)]
pub enum Mnemonic {
    Alu(Alu),
    Unary(Unary),
    Shift(Shift),
    Mov,
    Xchg,
    Lea,
    Push,
    Pop,
    Enter,
    Leave,
    Plain(Plain),
    Jmp,
    Branch(Cond),
    Loop,
    LoopE,
    LoopNe,
    Jcxz,
    Call,
    Ret,
    Int,
}

// All mnemonics, the frequent ones first.
const MNEMONICS: [Mnemonic; 63] = [
    Mnemonic::Mov,
    Mnemonic::Push,
    Mnemonic::Pop,
    Mnemonic::Call,
    Mnemonic::Jmp,
    Mnemonic::Alu(Alu::Add),
    Mnemonic::Alu(Alu::Sub),
    Mnemonic::Alu(Alu::Cmp),
    Mnemonic::Alu(Alu::Xor),
    Mnemonic::Branch(Cond::Z),
    Mnemonic::Branch(Cond::Nz),
    Mnemonic::Unary(Unary::Inc),
    Mnemonic::Unary(Unary::Dec),
    Mnemonic::Lea,
    Mnemonic::Ret,
    Mnemonic::Int,
    Mnemonic::Alu(Alu::Or),
    Mnemonic::Alu(Alu::Adc),
    Mnemonic::Alu(Alu::Sbb),
    Mnemonic::Alu(Alu::And),
    Mnemonic::Alu(Alu::Test),
    Mnemonic::Unary(Unary::Neg),
    Mnemonic::Unary(Unary::Not),
    Mnemonic::Unary(Unary::Mul),
    Mnemonic::Unary(Unary::Imul),
    Mnemonic::Unary(Unary::Div),
    Mnemonic::Unary(Unary::Idiv),
    Mnemonic::Shift(Shift::Rol),
    Mnemonic::Shift(Shift::Ror),
    Mnemonic::Shift(Shift::Rcl),
    Mnemonic::Shift(Shift::Rcr),
    Mnemonic::Shift(Shift::Shl),
    Mnemonic::Shift(Shift::Shr),
    Mnemonic::Shift(Shift::Sar),
    Mnemonic::Xchg,
    Mnemonic::Enter,
    Mnemonic::Leave,
    Mnemonic::Plain(Plain::Nop),
    Mnemonic::Plain(Plain::Cbw),
    Mnemonic::Plain(Plain::Cwd),
    Mnemonic::Plain(Plain::Xlat),
    Mnemonic::Plain(Plain::Clc),
    Mnemonic::Plain(Plain::Stc),
    Mnemonic::Plain(Plain::Cmc),
    Mnemonic::Plain(Plain::Cli),
    Mnemonic::Plain(Plain::Sti),
    Mnemonic::Plain(Plain::Cld),
    Mnemonic::Branch(Cond::O),
    Mnemonic::Branch(Cond::No),
    Mnemonic::Branch(Cond::B),
    Mnemonic::Branch(Cond::Ae),
    Mnemonic::Branch(Cond::Be),
    Mnemonic::Branch(Cond::A),
    Mnemonic::Branch(Cond::S),
    Mnemonic::Branch(Cond::Ns),
    Mnemonic::Branch(Cond::L),
    Mnemonic::Branch(Cond::Ge),
    Mnemonic::Branch(Cond::Le),
    Mnemonic::Branch(Cond::G),
    Mnemonic::Loop,
    Mnemonic::LoopE,
    Mnemonic::LoopNe,
    Mnemonic::Jcxz,
];

fn mnemonic_name(mnemonic: Mnemonic) -> &'static str
    ensures { result.now ≡ mnemonic_name mnemonic }
{
    match mnemonic {
        Mnemonic::Alu(operation) => alu_name(operation),
        Mnemonic::Unary(operation) => unary_name(operation),
        Mnemonic::Shift(operation) => shift_name(operation),
        Mnemonic::Mov => "mov",
        Mnemonic::Xchg => "xchg",
        Mnemonic::Lea => "lea",
        Mnemonic::Push => "push",
        Mnemonic::Pop => "pop",
        Mnemonic::Enter => "enter",
        Mnemonic::Leave => "leave",
        Mnemonic::Plain(operation) => plain_name(operation),
        Mnemonic::Jmp => "jmp",
        Mnemonic::Branch(condition) => branch_name(condition),
        Mnemonic::Loop => "loop",
        Mnemonic::LoopE => "loope",
        Mnemonic::LoopNe => "loopne",
        Mnemonic::Jcxz => "jcxz",
        Mnemonic::Call => "call",
        Mnemonic::Ret => "ret",
        Mnemonic::Int => "int",
    }
}

fn has_name(mnemonic: Mnemonic, name: &[u8]) -> bool
    ensures { result ≡ bytes_eq (mnemonic_name mnemonic) name.now }
{
    mnemonic_name(mnemonic).as_bytes() == name
}

/// The mnemonic of a name.
pub fn mnemonic_of(name: &[u8]) -> Option<Mnemonic>
    ensures { result ≡ mnemonic_of name.now }
{
    MNEMONICS
        .iter()
        .copied()
        .find(|mnemonic| has_name(*mnemonic, name))
}
