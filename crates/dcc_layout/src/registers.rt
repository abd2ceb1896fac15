//! Registers and flags, on which alone a prelude works.

ghost use Rattle.std.specs.Prelude.{◌≡◌, ◌<◌, true, []};
ghost use Rattle.dcc_num.specs.Numbers.{limit_of};
ghost use Rattle.dcc_prog.specs.Layout.{is_prelude_form};
ghost use Rattle.dcc_machine.specs.Machine.{start_state, operand_value, operand_width, with_operand};
ghost use Rattle.dcc_machine.specs.Operations.{with_result, count_in};
ghost use Rattle.dcc_machine.specs.Step.{op_step};
ghost use Rattle.dcc_machine.specs.WellFormed.{IsOperand, IsOperation};
ghost use Rattle.dcc_layout.specs.Registers.{has_no_memory, state_of, registers_of};

use dcc_machine::{Alu, Count, Cpu, Image, Op, Operand, PREFIX_SEGMENT};
use dcc_num::{Flags, Half, NO_FLAGS, Reg, Width, add, shl, sub};

/// The registers and flags of a machine.
#[derive(Clone, Copy)]
pub struct Registers {
    /// The word registers by number: AX, CX, DX, BX, SP, BP, SI, DI.
    pub regs: [u16; 8],
    /// The segment registers by number: ES, CS, SS, DS.
    pub segs: [u16; 4],
    /// The four modelled flags.
    pub flags: Flags,
}

impl Registers {
    /// The registers at the start of a loaded program.
    pub fn new(image: &Image) -> Registers
        ensures { result ≡ registers_of (start_state image.now []) }
    {
        Registers {
            regs: [0, 0, 0, 0, image.sp, 0, 0, 0],
            segs: [PREFIX_SEGMENT, image.cs, image.ss, PREFIX_SEGMENT],
            flags: NO_FLAGS,
        }
    }

    // What a register or a constant holds.
    fn value(&self, operand: Operand) -> u16
        requires operand { IsOperand operand }
        requires register { has_no_memory operand ≡ true }
        ensures value { result ≡ operand_value (state_of self.now) operand }
        ensures width { result < limit_of (operand_width operand) }
    {
        match operand {
            Operand::Word(r) => self.regs[r as usize],
            Operand::Byte(r, half) => u16::from(half.of(self.regs[r as usize])),
            Operand::Seg(number) => self.segs[number as usize],
            Operand::Const(_, constant) => constant,
            Operand::Mem(..) => unreachable!(),
        }
    }

    // Gives a register a value.
    fn put(&mut self, operand: Operand, value: u16)
        requires operand { IsOperand operand }
        requires register { has_no_memory operand ≡ true }
        requires width { value < limit_of (operand_width operand) }
        ensures { self.new ≡ registers_of (with_operand (state_of self.old) operand value) }
    {
        match operand {
            Operand::Word(r) => self.regs[r as usize] = value,
            Operand::Byte(r, half) => {
                let word = self.regs[r as usize];
                self.regs[r as usize] = half.put(word, value as u8);
            }
            Operand::Seg(number) => self.segs[number as usize] = value,
            Operand::Const(..) => {}
            Operand::Mem(..) => unreachable!(),
        }
    }

    // Gives a word register a sum or a difference, and sets the flags with it.
    fn put_result(&mut self, operand: Operand, outcome: (u16, Flags))
        requires operand { IsOperand operand }
        requires register { has_no_memory operand ≡ true }
        requires width { outcome.0 < limit_of (operand_width operand) }
        ensures { self.new ≡ registers_of (with_result operand outcome (state_of self.old)) }
    {
        self.flags = outcome.1;
        self.put(operand, outcome.0);
    }

    // How far a shift goes on the processor.
    fn count(&self, cpu: Cpu, count: Count) -> u8
        ensures { result ≡ count_in cpu count (state_of self.now) }
    {
        match count {
            Count::One => 1,
            Count::Cl => cpu.taken_count(Half::Low.of(self.regs[Reg::Cx as usize])),
            Count::Const(number) => number % 32,
        }
    }

    /// Makes an operation that may stand in a prelude, on the processor.
    pub fn execute(&mut self, cpu: Cpu, op: Op)
        requires form { is_prelude_form op ≡ true }
        requires operation { IsOperation op }
        ensures { self.new ≡ registers_of (op_step cpu op 0 (state_of self.old)) }
    {
        match op {
            Op::Mov(to, from) => self.put(to, self.value(from)),
            Op::Alu(Alu::Add, a, b) => {
                let outcome = add(Width::Word, self.value(a), self.value(b), false);
                self.put_result(a, outcome);
            }
            Op::Alu(Alu::Sub, a, b) => {
                let outcome = sub(Width::Word, self.value(a), self.value(b), false);
                self.put_result(a, outcome);
            }
            Op::Shift(_, a, count) => {
                let count = self.count(cpu, count);
                let outcome = shl(Width::Word, self.value(a), count, self.flags);
                self.put_result(a, outcome);
            }
            _ => {}
        }
    }
}
