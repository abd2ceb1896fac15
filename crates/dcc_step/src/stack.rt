//! The stack, frames, calls and returns.

ghost use Rattle.std.specs.Prelude.{◌≡◌, ◌-◌};
ghost use Rattle.dcc_machine.specs.Operations.{top_word, with_sp_raised, after_push, push_step, pop_step, enter_step};
ghost use Rattle.dcc_machine.specs.Operations.{leave_step, call_step, ret_step};
ghost use Rattle.dcc_machine.specs.WellFormed.{IsWordOperand};
ghost use Rattle.dcc_step.specs.Core.{state_of, changed_by};

use crate::machine::Machine;
use dcc_machine::Operand;
use dcc_num::Reg;

impl Machine {
    // The word at the top of the stack.
    fn top_word(&self) -> u16
        ensures { result ≡ top_word (state_of self.now) }
    {
        self.load_word(self.ss(), self.reg(Reg::Sp))
    }

    // Raises SP by a number of bytes.
    fn raise_sp(&mut self, count: u16)
        ensures { self.new ≡ changed_by (with_sp_raised count) self.old }
    {
        let raised = self.reg(Reg::Sp).wrapping_add(count);
        self.set_reg(Reg::Sp, raised);
    }

    // Lowers SP by a number of bytes.
    fn lower_sp(&mut self, count: u16)
        ensures { self.new ≡ changed_by (with_sp_raised (65536 - count)) self.old }
    {
        let lowered = self.reg(Reg::Sp).wrapping_sub(count);
        self.set_reg(Reg::Sp, lowered);
    }

    // Lowers SP by 2, and stores a word there.
    fn push_word(&mut self, word: u16)
        ensures { self.new ≡ changed_by (after_push word) self.old }
    {
        self.lower_sp(2);
        self.store_word(self.ss(), self.reg(Reg::Sp), word);
    }

    /// PUSH: the operand is read before SP falls.
    pub(crate) fn push(&mut self, x: Operand)
        requires { IsWordOperand x }
        ensures { self.new ≡ changed_by (push_step x) self.old }
    {
        let word = self.value(x);
        self.push_word(word);
    }

    /// POP: the operand is written after SP has risen.
    pub(crate) fn pop(&mut self, x: Operand)
        requires { IsWordOperand x }
        ensures { self.new ≡ changed_by (pop_step x) self.old }
    {
        let word = self.top_word();
        self.raise_sp(2);
        self.put(x, word);
    }

    /// ENTER at level 0: BP is pushed and takes SP, and SP falls by a number of bytes.
    pub(crate) fn enter(&mut self, count: u16)
        ensures { self.new ≡ changed_by (enter_step count) self.old }
    {
        self.push_word(self.reg(Reg::Bp));
        self.set_reg(Reg::Bp, self.reg(Reg::Sp));
        self.lower_sp(count);
    }

    /// LEAVE: SP takes BP, and BP is popped.
    pub(crate) fn leave(&mut self)
        ensures { self.new ≡ changed_by leave_step self.old }
    {
        self.set_reg(Reg::Sp, self.reg(Reg::Bp));
        self.pop(Operand::Word(Reg::Bp));
    }

    /// CALL: the offset of the next instruction is pushed.
    pub(crate) fn call(&mut self, target: u16)
        ensures { self.new ≡ changed_by (call_step target) self.old }
    {
        self.push_word(self.ip);
        self.ip = target;
    }

    /// RET: the return address and further bytes are removed from the stack.
    pub(crate) fn ret(&mut self, count: u16)
        ensures { self.new ≡ changed_by (ret_step count) self.old }
    {
        let target = self.top_word();
        self.raise_sp(2);
        self.raise_sp(count);
        self.ip = target;
    }
}
