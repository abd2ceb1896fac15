//! Jumps, and operations without operands.

ghost use Rattle.std.specs.Prelude.{◌≡◌};
ghost use Rattle.dcc_machine.specs.Operations.{after_jump, after_jump_if, loop_step, table_step, with_carry};
ghost use Rattle.dcc_machine.specs.Operations.{plain_step, lea_step, mov_step, xchg_step};
ghost use Rattle.dcc_machine.specs.WellFormed.{AreOperands};
ghost use Rattle.dcc_step.specs.Core.{changed_by};

use crate::machine::Machine;
use dcc_machine::{Ea, Operand, Plain};
use dcc_num::{Half, Reg, sign8};

impl Machine {
    /// Jumps to the target where `so` holds, else goes on to the next instruction.
    #[inline(always)]
    pub(crate) fn jump_if(&mut self, so: bool, target: u16)
        ensures { self.new ≡ changed_by (after_jump_if so target) self.old }
    {
        if so {
            self.ip = target;
        }
    }

    /// A LOOP form: CX falls by 1, and the jump is made where it is not 0 then and `also` holds.
    pub(crate) fn count_down(&mut self, also: bool, target: u16)
        ensures { self.new ≡ changed_by (loop_step also target) self.old }
    {
        let left = self.reg(Reg::Cx).wrapping_sub(1);
        self.set_reg(Reg::Cx, left);
        self.jump_if(also && left != 0, target);
    }

    /// A jump to the word in the code segment at a register plus an offset.
    pub(crate) fn jump_by_table(&mut self, r: Reg, offset: u16)
        ensures { self.new ≡ changed_by (table_step r offset) self.old }
    {
        let target = self.load_word(self.cs(), self.reg(r).wrapping_add(offset));
        self.ip = target;
    }

    /// MOV.
    pub(crate) fn assign(&mut self, to: Operand, from: Operand)
        requires { AreOperands to from }
        ensures { self.new ≡ changed_by (mov_step to from) self.old }
    {
        let value = self.value(from);
        self.put(to, value);
    }

    /// XCHG: the address of the first operand is taken before either changes.
    pub(crate) fn exchange(&mut self, a: Operand, b: Operand)
        requires { AreOperands a b }
        ensures { self.new ≡ changed_by (xchg_step a b) self.old }
    {
        let x = self.value(a);
        let y = self.value(b);
        self.put(a, y);
        self.put(b, x);
    }

    /// LEA: the offset of a memory operand.
    pub(crate) fn load_offset(&mut self, r: Reg, ea: Ea)
        ensures { self.new ≡ changed_by (lea_step r ea) self.old }
    {
        let offset = self.offset(ea);
        self.set_reg(r, offset);
    }

    /// An operation without operands.
    pub(crate) fn plain(&mut self, kind: Plain)
        ensures { self.new ≡ changed_by (plain_step kind) self.old }
    {
        let ax = self.reg(Reg::Ax);
        let al = Half::Low.of(ax);
        match kind {
            Plain::Nop | Plain::Cli | Plain::Sti | Plain::Cld => {}
            Plain::Cbw => self.set_reg(Reg::Ax, sign8(al)),
            Plain::Cwd => self.set_reg(Reg::Dx, if ax >= 0x8000 { 0xFFFF } else { 0 }),
            Plain::Xlat => {
                let offset = self.reg(Reg::Bx).wrapping_add(u16::from(al));
                let byte = self.load_byte(self.ds(), offset);
                self.set_al(byte);
            }
            Plain::Clc => self.flags.cf = false,
            Plain::Stc => self.flags.cf = true,
            Plain::Cmc => self.flags.cf = !self.flags.cf,
        }
    }
}
