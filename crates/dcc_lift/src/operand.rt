//! Where operands stand.

ghost use Rattle.std.specs.Prelude.{◌≡◌, pos, ◌-ℤ◌};
ghost use Rattle.dcc_ops.specs.Placing.{place_of};
ghost use Rattle.dcc_simulation.specs.Operands as spec;
ghost use Rattle.dcc_lift.specs.KnownProcedures.{procedure_of, KnowsProcedure};

use crate::procedure::{Procedure, distance_of};
use dcc_frames::{is_direct, offset_in_frame};
use dcc_machine::{Ea, Op, Operand};
use dcc_num::{Reg, Width};
use dcc_ops::{Computed, OperandPlace, register_place};

// The address at an offset in the frame, and a number.
fn from_frame(k: i32, number: i32) -> Computed
    ensures { result ≡ spec.from_frame k number }
{
    Computed {
        frame: Some(distance_of(k)),
        base: None,
        index: None,
        number: number.rem_euclid(65536) as u16,
    }
}

// 2, less two words.
fn below(height: u16, delta: u16) -> i32
    ensures { result ≡ (pos 2 -ℤ pos height) -ℤ pos delta }
{
    2 - i32::from(height) - i32::from(delta)
}

/// An effective address.
pub fn address_of(ea: Ea) -> Computed
    ensures { result ≡ spec.address_of ea }
{
    match ea.base {
        Some(Reg::Bp) => Computed {
            frame: Some(distance_of(offset_in_frame(ea))),
            base: None,
            index: ea.index,
            number: 0,
        },
        base => Computed {
            frame: None,
            base,
            index: ea.index,
            number: ea.disp,
        },
    }
}

impl Procedure<'_> {
    // SP, where it stands so many bytes below its value at the entry.
    fn stack_pointer(&self, height: u16) -> Computed
        ensures { result ≡ spec.stack_pointer (procedure_of self.now) height }
    {
        from_frame(0, below(height, self.delta))
    }

    // Where an operand in memory stands.
    fn memory_place(&self, width: Width, ea: Ea) -> OperandPlace
        requires { KnowsProcedure self.now }
        ensures { place_of result ≡ spec.memory_place (procedure_of self.now) width ea }
    {
        if is_direct(ea) {
            self.frame_place(width, offset_in_frame(ea))
        } else {
            OperandPlace::Memory(width, address_of(ea))
        }
    }

    /// Where an operand stands, at a height of the stack.
    pub fn operand_place(&self, height: u16, operand: Operand) -> OperandPlace
        requires { KnowsProcedure self.now }
        ensures { place_of result ≡ spec.operand_place (procedure_of self.now) height operand }
    {
        match operand {
            Operand::Mem(width, ea) => self.memory_place(width, ea),
            Operand::Word(Reg::Sp) => OperandPlace::Computed(self.stack_pointer(height)),
            Operand::Word(Reg::Bp) => {
                let height = i32::from(height);
                OperandPlace::Computed(from_frame(2 - height, height - 2))
            }
            _ => register_place(operand),
        }
    }

    /// The places of an operation's first and second operand. Where there is none, the place is never taken.
    pub fn operand_places(&self, height: u16, op: Op) -> (OperandPlace, OperandPlace)
        requires { KnowsProcedure self.now }
        ensures first { place_of result.0 ≡ spec.first_place (procedure_of self.now) height op }
        ensures second { place_of result.1 ≡ spec.second_place (procedure_of self.now) height op }
    {
        let none = OperandPlace::Constant(Width::Word, 0);
        match op {
            Op::Alu(_, a, b) | Op::Mov(a, b) | Op::Xchg(a, b) => {
                (self.operand_place(height, a), self.operand_place(height, b))
            }
            Op::Unary(_, a) | Op::Shift(_, a, _) | Op::Imul3(_, a, _) => {
                (self.operand_place(height, a), none)
            }
            _ => (none, none),
        }
    }
}
