//! Where operands stand.

ghost use Rattle.std.specs.Prelude.{◌≡◌};
ghost use Rattle.dcc_ops.specs.Registers as registers;
ghost use Rattle.dcc_ops.specs.Placing.{place_of};

use dcc_ir::Loc;
use dcc_machine::Operand;
use dcc_num::{Half, Reg, Width};

/// A word that is computed without a statement of its own: the sum, modulo 65536, of the parts that are there.
#[derive(Clone, Copy)]
pub struct Computed {
    /// The address at a distance from the base of the frame, in bytes.
    pub frame: Option<u16>,
    /// Word registers.
    pub base: Option<Reg>,
    pub index: Option<Reg>,
    pub number: u16,
}

/// Where an operand stands.
#[derive(Clone, Copy)]
pub enum OperandPlace {
    /// A number of that width.
    Constant(Width, u16),
    /// A half of a register or of a cell, 8 bits.
    Byte(Loc),
    /// The low and the high half of a register or of a cell.
    Word(Loc, Loc),
    /// A width's bytes of the memory, from an address on.
    Memory(Width, Computed),
    /// The address at a distance from the base of the frame, in bytes. Nothing is stored there.
    Address(u16),
    /// A computed word. Nothing is stored there.
    Computed(Computed),
}

/// The place of a register or a constant. Other operands are refused before, and are 0 here.
pub fn register_place(operand: Operand) -> OperandPlace
    ensures { place_of result ≡ registers.register_place operand }
{
    match operand {
        Operand::Word(r) => OperandPlace::Word(Loc::Half(r, Half::Low), Loc::Half(r, Half::High)),
        Operand::Byte(r, half) => OperandPlace::Byte(Loc::Half(r, half)),
        Operand::Const(width, number) => OperandPlace::Constant(width, number),
        Operand::Seg(_) | Operand::Mem(..) => OperandPlace::Constant(Width::Word, 0),
    }
}
