//! Registers, memory and operands: how they are read and written.

ghost use Rattle.std.specs.Prelude.{◌≡◌, ◌<◌, ◌^◌};
ghost use Rattle.dcc_num.specs.Numbers.{limit_of};
ghost use Rattle.dcc_machine.specs.declared.instr.Operand.TheVariants.{Seg as seg_operand, Mem as mem_operand};
ghost use Rattle.dcc_num.specs.declared.Width.TheVariants.{Word as word_width};
ghost use Rattle.dcc_machine.specs.Machine.{physical, byte_in, word_at_offset, with_byte_in, with_word_at_offset};
ghost use Rattle.dcc_machine.specs.Machine.{with_word_in, code_segment, stack_segment, data_segment, part_of};
ghost use Rattle.dcc_machine.specs.Machine.{offset_of, is_bp, segment_of, operand_value, with_operand, operand_width};
ghost use Rattle.dcc_machine.specs.WellFormed.{IsOperand};
ghost use Rattle.dcc_step.specs.Core.{state_of, changed_by};

use crate::machine::Machine;
use dcc_machine::{CS, DS, Ea, Operand, SS};
use dcc_num::{Half, Reg, Width};

/// The physical address of an offset in a segment.
pub(crate) fn physical_address(segment: u16, offset: u16) -> usize
    ensures address { result ≡ physical segment offset }
    ensures within { result < 2 ^ 20 }
{
    (usize::from(segment) * 16 + usize::from(offset)) % 0x10_0000
}

// Whether a part of an address is BP.
fn uses_bp(part: Option<Reg>) -> bool
    ensures { result ≡ is_bp part }
{
    matches!(part, Some(Reg::Bp))
}

impl Machine {
    /// The byte at an offset in a segment.
    pub fn load_byte(&self, segment: u16, offset: u16) -> u8
        ensures { result ≡ byte_in (state_of self.now) segment offset }
    {
        self.memory[physical_address(segment, offset)]
    }

    /// The word at an offset in a segment; the offset of its second byte wraps.
    pub(crate) fn load_word(&self, segment: u16, offset: u16) -> u16
        ensures { result ≡ word_at_offset (state_of self.now) segment offset }
    {
        let start = physical_address(segment, offset);
        if offset < 0xFFFF && start < 0xF_FFFF {
            let high = self.memory[start + 1];
            let low = self.memory[start];
            return u16::from(low) + 256 * u16::from(high);
        }
        let low = self.load_byte(segment, offset);
        let high = self.load_byte(segment, offset.wrapping_add(1));
        u16::from(low) + 256 * u16::from(high)
    }

    // Stores a byte at an offset in a segment.
    fn store_byte(&mut self, segment: u16, offset: u16, byte: u8)
        ensures { self.new ≡ changed_by (λ s. with_byte_in s segment offset byte) self.old }
    {
        let address = physical_address(segment, offset);
        if self.marks.is_marked(address) {
            self.trusted = false;
        }
        self.memory[address] = byte;
    }

    /// Stores a word, its low byte first; the offset of the second byte wraps.
    pub(crate) fn store_word(&mut self, segment: u16, offset: u16, word: u16)
        ensures { self.new ≡ changed_by (λ s. with_word_at_offset s segment offset word) self.old }
    {
        self.store_byte(segment, offset, (word % 256) as u8);
        self.store_byte(segment, offset.wrapping_add(1), (word / 256) as u8);
    }

    /// Gives a word register a value.
    pub(crate) fn set_reg(&mut self, r: Reg, word: u16)
        ensures { self.new ≡ changed_by (λ s. with_word_in s r word) self.old }
    {
        self.regs[r as usize] = word;
    }

    // Gives the segment register of a number below 4 a value.
    fn set_segment(&mut self, number: u8, word: u16)
        requires { number < 4 }
        ensures { self.new ≡ changed_by (λ s. with_operand s (seg_operand number) word) self.old }
    {
        self.trusted = self.trusted && number != CS;
        self.segs[number as usize] = word;
    }

    /// The code segment.
    pub fn cs(&self) -> u16
        ensures { result ≡ code_segment (state_of self.now) }
    {
        self.segs[CS as usize]
    }

    /// The stack segment.
    pub fn ss(&self) -> u16
        ensures { result ≡ stack_segment (state_of self.now) }
    {
        self.segs[SS as usize]
    }

    /// The data segment.
    pub fn ds(&self) -> u16
        ensures { result ≡ data_segment (state_of self.now) }
    {
        self.segs[DS as usize]
    }

    // What a part of an address adds to it.
    fn part(&self, part: Option<Reg>) -> u16
        ensures { result ≡ part_of (state_of self.now) part }
    {
        match part {
            None => 0,
            Some(r) => self.reg(r),
        }
    }

    /// The offset of a memory operand.
    pub fn offset(&self, ea: Ea) -> u16
        ensures { result ≡ offset_of (state_of self.now) ea }
    {
        let sum = u32::from(self.part(ea.base)) + u32::from(self.part(ea.index));
        ((sum + u32::from(ea.disp)) % 0x1_0000) as u16
    }

    // What a part of an address would add to it if a word register held this word.
    fn part_with(&self, part: Option<Reg>, r: Reg, word: u16) -> u16
        ensures { result ≡ part_of (with_word_in (state_of self.now) r word) part }
    {
        let mut regs = self.regs;
        regs[r as usize] = word;
        match part {
            None => 0,
            Some(q) => regs[q as usize],
        }
    }

    /// The offset that a memory operand would have if a word register held this word.
    pub fn offset_with(&self, ea: Ea, r: Reg, word: u16) -> u16
        ensures { result ≡ offset_of (with_word_in (state_of self.now) r word) ea }
    {
        let sum = u32::from(self.part_with(ea.base, r, word))
            + u32::from(self.part_with(ea.index, r, word));
        ((sum + u32::from(ea.disp)) % 0x1_0000) as u16
    }

    /// The segment that a memory operand would have if the segment register of a number below 4 held this word.
    pub fn segment_with(&self, ea: Ea, number: u8, word: u16) -> u16
        requires { number < 4 }
        ensures { result ≡ segment_of (with_operand (state_of self.now) (seg_operand number) word) ea }
    {
        let mut segs = self.segs;
        segs[number as usize] = word;
        if ea.uses_bp() {
            segs[SS as usize]
        } else {
            segs[DS as usize]
        }
    }

    /// The segment of a memory operand: that of the stack where the address uses BP.
    pub fn segment(&self, ea: Ea) -> u16
        ensures { result ≡ segment_of (state_of self.now) ea }
    {
        if uses_bp(ea.base) || uses_bp(ea.index) {
            self.ss()
        } else {
            self.ds()
        }
    }

    /// What an operand holds.
    pub fn value(&self, operand: Operand) -> u16
        requires { IsOperand operand }
        ensures value { result ≡ operand_value (state_of self.now) operand }
        ensures width { result < limit_of (operand_width operand) }
    {
        match operand {
            Operand::Word(r) => self.reg(r),
            Operand::Byte(r, half) => u16::from(half.of(self.reg(r))),
            Operand::Seg(number) => self.segs[number as usize],
            Operand::Mem(Width::Byte, ea) => {
                u16::from(self.load_byte(self.segment(ea), self.offset(ea)))
            }
            Operand::Mem(Width::Word, ea) => self.word_at(ea),
            Operand::Const(_, constant) => constant,
        }
    }

    /// The word in memory at an address.
    pub(crate) fn word_at(&self, ea: Ea) -> u16
        ensures { result ≡ operand_value (state_of self.now) (mem_operand word_width ea) }
    {
        self.load_word(self.segment(ea), self.offset(ea))
    }

    /// Gives an operand a value.
    pub(crate) fn put(&mut self, operand: Operand, value: u16)
        requires operand { IsOperand operand }
        requires width { value < limit_of (operand_width operand) }
        ensures { self.new ≡ changed_by (λ s. with_operand s operand value) self.old }
    {
        match operand {
            Operand::Word(r) => self.set_reg(r, value),
            Operand::Byte(r, half) => {
                let word = half.put(self.reg(r), value as u8);
                self.set_reg(r, word);
            }
            Operand::Seg(number) => self.set_segment(number, value),
            Operand::Mem(Width::Byte, ea) => {
                self.store_byte(self.segment(ea), self.offset(ea), value as u8);
            }
            Operand::Mem(Width::Word, ea) => {
                self.store_word(self.segment(ea), self.offset(ea), value);
            }
            Operand::Const(..) => {}
        }
    }
}
