//! Steps and runs.

ghost use Rattle.std.specs.Prelude.{◌≡◌, ◌≢◌, ℕ, true, false, IfSome, OnOk, IfErr, IsErrOf, Option, Some, None};
ghost use Rattle.dcc_run.specs.End.{Running as running};
ghost use Rattle.dcc_machine.specs.declared.instr.Op.{Op};
ghost use Rattle.dcc_machine.specs.Table.{instruction_at};
ghost use Rattle.dcc_machine.specs.Step.{code_byte, code_bytes, op_step};
ghost use Rattle.dcc_machine.specs.WellFormed.{IsOperation};
ghost use Rattle.dcc_step.specs.Core.{state_of, changed_by};
ghost use Rattle.dcc_step.specs.declared.form.Form.TheVariants.{Other};
ghost use Rattle.dcc_step.specs.Form.{op_of, IsQuietStep};
ghost use Rattle.dcc_console.specs.Counts.{CountsFaults};
ghost use Rattle.dcc_console.specs.WithConsole.{beside_console};
ghost use Rattle.dcc_console.specs.Steps.{Makes, Steps, HasEnded, Runs, refusal_of};
ghost use Rattle.dcc_step.specs.Stepped.{machine, machine_by, counted, StepAnswers, LeadsOnBytes, outcome_of, end_told};

use crate::cache::{CACHE_SIZE, Decoded};
use crate::ending::{Ending, Stepped};
use crate::form::Form;
use crate::machine::Machine;
use crate::operand::physical_address;
use dcc_console::Fault;
use dcc_io::{Sink, Source};
use dcc_machine::{CS, Instr, Op};
use dcc_num::{Reg, Width, dec, inc};

impl Machine {
    // The byte at so many bytes past the instruction pointer, whose offset wraps.
    fn code_byte(&self, k: u16) -> u8
        ensures { result ≡ code_byte (state_of self.now) k }
    {
        self.load_byte(self.cs(), self.ip.wrapping_add(k))
    }

    // The bytes at the instruction pointer, as many as the longest instruction has. They stand one
    // after another where neither the offset nor the address wraps among them.
    fn window(&self) -> [u8; 6]
        ensures { result ≡ code_bytes (state_of self.now) }
    {
        let start = physical_address(self.cs(), self.ip);
        if self.ip <= 0xFFFA && start <= 0xF_FFFA {
            [
                self.memory[start],
                self.memory[start + 1],
                self.memory[start + 2],
                self.memory[start + 3],
                self.memory[start + 4],
                self.memory[start + 5],
            ]
        } else {
            [
                self.code_byte(0),
                self.code_byte(1),
                self.code_byte(2),
                self.code_byte(3),
                self.code_byte(4),
                self.code_byte(5),
            ]
        }
    }

    /// The instruction that the machine executes next, or `None` where none of its processor's stands at the
    /// instruction pointer. It is decoded where the cache holds another offset or other bytes, so it is right whatever
    /// was written to memory.
    pub fn next_instruction(&mut self) -> Option<Instr>
        ensures kept { self.new ≡ self.old }
        ensures found { result ≡ instruction_at self.old.cpu self.old.ip (code_bytes (state_of self.old)) }
        ensures operation { IfSome result (λ instr. IsOperation instr.op) }
    {
        let place = usize::from(self.ip) % CACHE_SIZE;
        let last = &self.cache[place];
        if self.trusted && last.known && last.at == self.ip {
            return last.instr;
        }
        let window = self.window();
        if last.at == self.ip && last.window == window {
            return last.instr;
        }
        self.decode(window)
    }

    // The instruction of the bytes at the instruction pointer, which is known from then on.
    fn decode(&mut self, window: [u8; 6]) -> Option<Instr>
        requires { window ≡ code_bytes (state_of self.old) }
        ensures kept { self.new ≡ self.old }
        ensures found { result ≡ instruction_at self.old.cpu self.old.ip (code_bytes (state_of self.old)) }
        ensures operation { IfSome result (λ instr. IsOperation instr.op) }
    {
        let decoded = Decoded::of(self.ip, &window, self.cpu);
        self.marks.mark_from(self.segs[CS as usize], self.ip);
        self.cache[usize::from(self.ip) % CACHE_SIZE] = decoded;
        decoded.instr
    }

    // The form of the next instruction, and its length, where it is known and has one.
    #[inline(always)]
    fn next_form(&self) -> Option<(Form, u8)>
        ensures form { IfSome result (λ next. next.0 ≢ Other) }
        ensures found { IfSome result (λ next.
            instruction_at self.now.cpu self.now.ip (code_bytes (state_of self.now))
            ≡ Some (record { op = op_of next.0; len = next.1 })) }
    {
        let last = &self.cache[usize::from(self.ip) % CACHE_SIZE];
        if !self.trusted || !last.known || last.at != self.ip {
            return None;
        }
        match last.form {
            Form::Other => None,
            form => Some((form, last.len)),
        }
    }

    // An operation of a form.
    #[inline(always)]
    fn operate_form(&mut self, form: Form)
        requires { form ≢ Other }
        ensures { (at : ℕ) → self.new ≡ changed_by (op_step self.old.cpu (op_of form) at) self.old }
    {
        match form {
            Form::Registers(kind, a, b) => self.alu_word(kind, a, self.reg(b)),
            Form::Constant(kind, a, constant) => self.alu_word(kind, a, constant),
            Form::Memory(kind, a, ea) => self.alu_word(kind, a, self.word_at(ea)),
            Form::Inc(r) => self.put_word(r, inc(Width::Word, self.reg(r), self.flags)),
            Form::Dec(r) => self.put_word(r, dec(Width::Word, self.reg(r), self.flags)),
            Form::Move(a, b) => self.set_reg(a, self.reg(b)),
            Form::Set(r, constant) => self.set_reg(r, constant),
            Form::Load(r, ea) => self.set_reg(r, self.word_at(ea)),
            Form::Store(ea, r) => {
                self.store_word(self.segment(ea), self.offset(ea), self.reg(r));
            }
            Form::Jump(target) => self.ip = target,
            Form::Branch(condition, target) => self.jump_if(condition.holds(self.flags), target),
            Form::Other => {}
        }
    }

    // Makes the next step of a machine that runs, where the instruction is known and has a form; answers whether it
    // did.
    #[inline(always)]
    fn make_form(&mut self) -> bool
        ensures made { result ≡ true → IsQuietStep self.old self.new }
        ensures kept { result ≡ false → self.new ≡ self.old }
    {
        let Ending::Running = self.end else {
            return false;
        };
        let Some((form, len)) = self.next_form() else {
            return false;
        };
        self.ip = self.ip.wrapping_add(u16::from(len));
        self.operate_form(form);
        true
    }

    // An operation of the instruction at an offset, other than INT 21h.
    fn operate(&mut self, op: Op, at: u16)
        requires operation { IsOperation op }
        requires other { op ≢ Op.Int21 }
        ensures { self.new ≡ changed_by (op_step self.old.cpu op at) self.old }
    {
        match op {
            Op::Alu(kind, a, b) => self.alu(kind, a, b),
            Op::Unary(kind, x) => self.unary(kind, x, at),
            Op::Shift(kind, x, count) => self.shift(kind, x, count),
            Op::Mov(to, from) => self.assign(to, from),
            Op::Xchg(a, b) => self.exchange(a, b),
            Op::Lea(r, ea) => self.load_offset(r, ea),
            Op::Imul3(r, x, constant) => self.imul3(r, x, constant),
            Op::Push(x) => self.push(x),
            Op::Pop(x) => self.pop(x),
            Op::Enter(count) => self.enter(count),
            Op::Leave => self.leave(),
            Op::Plain(kind) => self.plain(kind),
            Op::Jump(target) => self.ip = target,
            Op::Branch(condition, target) => self.jump_if(condition.holds(self.flags), target),
            Op::Loop(target) => self.count_down(true, target),
            Op::LoopE(target) => self.count_down(self.flags.zf, target),
            Op::LoopNe(target) => self.count_down(!self.flags.zf, target),
            Op::Jcxz(target) => self.jump_if(self.reg(Reg::Cx) == 0, target),
            Op::Table(r, offset) => self.jump_by_table(r, offset),
            Op::Call(target) => self.call(target),
            Op::Ret(count) => self.ret(count),
            Op::Int21 => unreachable!(),
        }
    }

    // An operation of the instruction at an offset.
    fn perform<I: Source, O: Sink>(
        &mut self,
        op: Op,
        at: u16,
        input: &mut I,
        out: &mut O,
    ) -> Result<(), Fault>
        requires { IsOperation op }
        ensures made { OnOk result (Makes (machine_by (λ cpu. op_step cpu op at))
            (beside_console self.old (I.left input.old) (O.taken out.old))
            (beside_console self.new (I.left input.new) (O.taken out.new))) }
        ensures bytes { OnOk result (LeadsOnBytes (λ cpu. op_step cpu op at) self.old self.new) }
        ensures refused { IfErr result (λ fault. Steps (machine_by (λ cpu. op_step cpu op at)) (refusal_of fault)
            (beside_console self.old (I.left input.old) (O.taken out.old))
            (beside_console self.new (I.left input.new) (O.taken out.new))) }
        ensures faults { CountsFaults (IsErrOf result Fault.Input) (IsErrOf result Fault.Output)
            (I.faults input.old) (I.faults input.new) (O.faults out.old) (O.faults out.new) }
    {
        match op {
            Op::Int21 => self.call_dos(at, input, out),
            other => {
                self.operate(other, at);
                Ok(())
            }
        }
    }

    // Makes the step of the instruction that was found by its operation.
    fn make_operation<I: Source, O: Sink>(
        &mut self,
        found: Option<Instr>,
        input: &mut I,
        out: &mut O,
    ) -> Stepped
        requires runs { self.old.end ≡ running }
        requires found { found ≡ instruction_at self.old.cpu self.old.ip (code_bytes (state_of self.old)) }
        requires operation { IfSome found (λ instr. IsOperation instr.op) }
        ensures { StepAnswers result
            (counted self.old (I.left input.old) (O.taken out.old) (I.faults input.old) (O.faults out.old))
            (counted self.new (I.left input.new) (O.taken out.new) (I.faults input.new) (O.faults out.new)) }
    {
        let at = self.ip;
        let Some(instr) = found else {
            self.finish(Ending::Outside(at), at);
            return self.end.answer();
        };
        self.ip = instr.next_of(at);
        if let Err(fault) = self.perform(instr.op, at, input, out) {
            self.ip = at;
            return Stepped::from(fault);
        }
        self.end.answer()
    }

    /// Makes one instruction of the machine's processor (8086 Family User's Manual, table 2-21; iAPX 86/88,
    /// 186/188 User's Manual, Programmer's Reference). A machine whose run has ended answers its end again and
    /// changes nothing.
    ///
    /// Exit comes from INT 21h with 4Ch, Divide from a quotient that does not fit, and Outside where
    /// no instruction of the table stands or INT 21h has another number. InFault and OutFault come
    /// where a read or a write failed: the machine is as before, and what was read or written stays so.
    #[inline(always)]
    pub fn step<I: Source, O: Sink>(&mut self, input: &mut I, out: &mut O) -> Stepped
        ensures { StepAnswers result
            (counted self.old (I.left input.old) (O.taken out.old) (I.faults input.old) (O.faults out.old))
            (counted self.new (I.left input.new) (O.taken out.new) (I.faults input.new) (O.faults out.new)) }
    {
        if self.make_form() {
            return Stepped::Running;
        }
        let Ending::Running = self.end else {
            return self.end.answer();
        };
        let found = self.next_instruction();
        self.make_operation(found, input, out)
    }

    /// Makes steps until one answers something else than Running, at most so many. After a fault the
    /// steps before the one that failed stay made.
    pub fn run<I: Source, O: Sink>(&mut self, input: &mut I, out: &mut O, most: u64) -> Stepped
        ensures run { Runs machine most (outcome_of result)
            (beside_console self.old (I.left input.old) (O.taken out.old))
            (beside_console self.new (I.left input.new) (O.taken out.new)) }
        ensures answer { HasEnded machine self.new (end_told result) }
        ensures faults { CountsFaults (result ≡ Stepped.InFault) (result ≡ Stepped.OutFault)
            (I.faults input.old) (I.faults input.new) (O.faults out.old) (O.faults out.new) }
    {
        for _count in 0..most {
            match self.step(input, out) {
                Stepped::Running => {}
                answer => return answer,
            }
        }
        self.end.answer()
    }
}
