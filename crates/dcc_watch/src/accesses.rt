//! The accesses of an operation that may touch the stack, at most four, in the order of the machine.

ghost use Rattle.std.specs.Prelude.{◌≡◌, ℕ, ◌+◌, ◌<◌, ◌≤◌, [], ◌∷◌, ◌++◌, length, List, IfSome, if◌then◌else◌};
ghost use Rattle.dcc_machine.specs.declared.instr.Op.TheVariants.{Alu as AluOp, Push as PushOp, Pop, Int21};
ghost use Rattle.dcc_machine.specs.declared.instr.Operand.TheVariants.{Mem as in_memory};
ghost use Rattle.dcc_machine.specs.Writes.{writes_operand};
ghost use Rattle.dcc_machine.specs.Machine.{with_operand, operand_value};
ghost use Rattle.dcc_machine.specs.Operations.{with_sp_raised};
ghost use Rattle.dcc_machine.specs.Access as told;
ghost use Rattle.dcc_machine.specs.Access.{is_direct, writes_back, operand_accesses, exchange_accesses, stack_access};
ghost use Rattle.dcc_machine.specs.Access.{push_access, dos_accesses, plain_accesses, string_size, accesses};
ghost use Rattle.dcc_machine.specs.Access.{found_accesses};
ghost use Rattle.dcc_machine.specs.WellFormed.{IsOperand, AreOperands, IsOperation};
ghost use Rattle.dcc_step.specs.Core.{state_of};
ghost use Rattle.dcc_watch.specs.Accesses.{direction_of, kind_of, access_of, accesses_of, near, is_memory, may_access};

use crate::access::{Access, Direction, Kind};
use dcc_machine::{Alu, Ea, Instr, Op, Operand, Plain, Unary};
use dcc_num::{Half, Reg, Width, dos};
use dcc_prog::Layout;
use dcc_step::Machine;
use std::marker::Model;

// What stands where the list has no access: all zeros, which is quickest.
const NO_ACCESS: Access = Access {
    direction: Direction::Reading,
    kind: Kind::OfStack,
    segment: 0,
    offset: 0,
    size: 0,
};

/// At most four accesses of an operation, but for those that are told to lie beside the stack, since the watch judges
/// the bytes of the stack alone.
#[derive(Drop)]
pub(crate) struct Accesses {
    // Room for four accesses, of which the first `count` are the list's.
    items: [Access; 4],
    count: usize,
}

impl Model for Accesses {
    ghost use Rattle.std.specs.Prelude.{◌≤◌, List, take};
    ghost use Rattle.dcc_machine.specs.Access as told;

    ghost Value = { List told.Access };

    ghost use Rattle.dcc_watch.specs.Accesses.{accesses_of};

    ghost view = { λ list. accesses_of (take list.count list.items) };

    ghost invariant = { λ list. list.count ≤ 4 };
}

impl Accesses {
    /// An empty list.
    pub(crate) fn new() -> Accesses
        ensures { result ≡ [] }
    {
        Accesses {
            items: [NO_ACCESS; 4],
            count: 0,
        }
    }

    // Adds an access at the end of the list, if it may touch the stack.
    #[tactic(auto, unfolding(crate::specs::Accesses::near))]
    fn add(&mut self, layout: &Layout, access: Access)
        requires { length self.old < 4 }
        ensures items { self.new ≡ self.old ++ near layout.now (access_of access ∷ []) }
        ensures short { length self.new ≤ length self.old + 1 }
    {
        if !access.is_beside(layout) {
            self.items[self.count] = access;
            self.count += 1;
        }
    }

    /// The accesses.
    pub(crate) fn items(&self) -> &[Access]
        ensures { accesses_of result.now ≡ self.now }
    {
        &self.items[..self.count]
    }

    // Adds the access of an operand, where it lies in memory.
    fn add_operand(&mut self, machine: &Machine, layout: &Layout, direction: Direction, x: Operand)
        requires { length self.old < 4 }
        ensures items { self.new ≡ self.old
            ++ near layout.now (operand_accesses (direction_of direction) x (state_of machine.now)) }
        ensures short { length self.new ≤ length self.old + 1 }
    {
        if let Operand::Mem(width, ea) = x {
            self.add(
                layout,
                Access {
                    direction,
                    kind: kind_of(ea),
                    segment: machine.segment(ea),
                    offset: machine.offset(ea),
                    size: bytes_in(width),
                },
            );
        }
    }

    // Adds the accesses of an operand that takes the value of another one, which is read before: of XCHG's second
    // operand, which is written when the first one has taken its value.
    fn add_exchanged(&mut self, machine: &Machine, layout: &Layout, a: Operand, b: Operand)
        requires short { length self.old < 4 }
        requires operands { AreOperands a b }
        ensures { self.new ≡ self.old ++ near layout.now (operand_accesses told.Writing b
            (with_operand (state_of machine.now) a (operand_value (state_of machine.now) b))) }
    {
        let Operand::Mem(width, ea) = b else {
            return;
        };
        let value = machine.value(b);
        let (segment, offset) = match a {
            Operand::Word(r) => (machine.segment(ea), machine.offset_with(ea, r, value)),
            Operand::Byte(r, half) => {
                let word = half.put(machine.reg(r), value as u8);
                (machine.segment(ea), machine.offset_with(ea, r, word))
            }
            Operand::Seg(number) => (machine.segment_with(ea, number, value), machine.offset(ea)),
            Operand::Mem(..) | Operand::Const(..) => (machine.segment(ea), machine.offset(ea)),
        };
        self.add(
            layout,
            Access {
                direction: Direction::Writing,
                kind: kind_of(ea),
                segment,
                offset,
                size: bytes_in(width),
            },
        );
    }

    // Adds the accesses of XCHG: it reads both operands, and writes both after that.
    fn add_exchange(&mut self, machine: &Machine, layout: &Layout, a: Operand, b: Operand)
        requires empty { self.old ≡ [] }
        requires operands { AreOperands a b }
        ensures { self.new ≡ near layout.now (exchange_accesses a b (state_of machine.now)) }
    {
        self.add_operand(machine, layout, Direction::Reading, a);
        self.add_operand(machine, layout, Direction::Reading, b);
        self.add_operand(machine, layout, Direction::Writing, a);
        self.add_exchanged(machine, layout, a, b);
    }

    // Adds the accesses of POP: the word at the top of the stack is read, and the operand is written when SP has
    // risen.
    #[tactic(auto, using(crate::proofs::Beside::near_append, crate::proofs::Beside::near_none))]
    fn add_pop(&mut self, machine: &Machine, layout: &Layout, x: Operand)
        requires { self.old ≡ [] }
        ensures { self.new ≡ near layout.now (accesses (Pop x) (state_of machine.now)) }
    {
        let sp = machine.reg(Reg::Sp);
        self.add(layout, stack_access(machine, Direction::Reading, sp));
        if let Operand::Mem(width, ea) = x {
            self.add(layout, popped_access(machine, width, ea));
        }
    }

    // Adds the accesses of INT 21h: call 09h reads its string.
    #[tactic(auto, using(crate::proofs::Beside::near_append, crate::proofs::Beside::near_none))]
    fn add_dos(&mut self, machine: &Machine, layout: &Layout)
        requires { self.old ≡ [] }
        ensures { self.new ≡ near layout.now (accesses Int21 (state_of machine.now)) }
    {
        if Half::High.of(machine.reg(Reg::Ax)) == dos::PUTS {
            let size = string_size(machine);
            self.add(layout, other_read(machine.ds(), machine.reg(Reg::Dx), size));
        }
    }

    // Adds the accesses of an operation without operands: XLAT reads a byte.
    #[tactic(auto, using(crate::proofs::Beside::near_append, crate::proofs::Beside::near_none))]
    fn add_plain(&mut self, machine: &Machine, layout: &Layout, kind: Plain)
        requires { self.old ≡ [] }
        ensures { self.new ≡ near layout.now (plain_accesses kind (state_of machine.now)) }
    {
        if let Plain::Xlat = kind {
            let al = Half::Low.of(machine.reg(Reg::Ax));
            let offset = machine.reg(Reg::Bx).wrapping_add(u16::from(al));
            self.add(layout, other_read(machine.ds(), offset, 1));
        }
    }

    // Adds the accesses of an operation that reads one operand, and then writes one where `so` holds.
    #[tactic(auto, using(crate::proofs::Beside::near_append, crate::proofs::Beside::near_none))]
    fn add_result(
        &mut self,
        machine: &Machine,
        layout: &Layout,
        read: Operand,
        so: bool,
        written: Operand,
    )
        requires { self.old ≡ [] }
        ensures { self.new ≡ near layout.now (operand_accesses told.Reading read (state_of machine.now)
            ++ told.result_accesses so written (state_of machine.now)) }
    {
        self.add_operand(machine, layout, Direction::Reading, read);
        if so {
            self.add_operand(machine, layout, Direction::Writing, written);
        }
    }

    // Adds the accesses of an operation on two operands.
    #[tactic(auto, using(crate::proofs::Beside::near_append, crate::proofs::Beside::near_none))]
    fn add_alu(&mut self, machine: &Machine, layout: &Layout, kind: Alu, a: Operand, b: Operand)
        requires { self.old ≡ [] }
        ensures { self.new ≡ near layout.now (accesses (AluOp kind a b) (state_of machine.now)) }
    {
        self.add_operand(machine, layout, Direction::Reading, a);
        self.add_operand(machine, layout, Direction::Reading, b);
        if writes_operand(kind) {
            self.add_operand(machine, layout, Direction::Writing, a);
        }
    }

    // Adds the accesses of PUSH: the operand is read, and the word is stored below the top of the stack.
    #[tactic(auto, using(crate::proofs::Beside::near_append, crate::proofs::Beside::near_none))]
    fn add_push(&mut self, machine: &Machine, layout: &Layout, x: Operand)
        requires { self.old ≡ [] }
        ensures { self.new ≡ near layout.now (accesses (PushOp x) (state_of machine.now)) }
    {
        self.add_operand(machine, layout, Direction::Reading, x);
        self.add(layout, push_access(machine));
    }

    // Adds the accesses of an operation.
    #[tactic(auto, using(crate::proofs::Beside::near_append, crate::proofs::Beside::near_none))]
    fn add_operation(&mut self, machine: &Machine, layout: &Layout, op: Op)
        requires empty { self.old ≡ [] }
        requires operation { IsOperation op }
        ensures { self.new ≡ near layout.now (accesses op (state_of machine.now)) }
    {
        match op {
            Op::Alu(kind, a, b) => self.add_alu(machine, layout, kind, a, b),
            Op::Unary(kind, a) => self.add_result(machine, layout, a, writes_back(kind), a),
            Op::Shift(_, a, _) => self.add_result(machine, layout, a, true, a),
            Op::Mov(to, from) => self.add_result(machine, layout, from, true, to),
            Op::Xchg(a, b) => self.add_exchange(machine, layout, a, b),
            Op::Imul3(_, a, _) => self.add_result(machine, layout, a, false, a),
            Op::Push(a) => self.add_push(machine, layout, a),
            Op::Pop(a) => self.add_pop(machine, layout, a),
            Op::Enter(_) | Op::Call(_) => self.add(layout, push_access(machine)),
            Op::Leave => {
                self.add(
                    layout,
                    stack_access(machine, Direction::Reading, machine.reg(Reg::Bp)),
                );
            }
            Op::Plain(kind) => self.add_plain(machine, layout, kind),
            Op::Table(r, offset) => {
                let at = machine.reg(r).wrapping_add(offset);
                self.add(layout, other_read(machine.cs(), at, 2));
            }
            Op::Ret(_) => {
                self.add(
                    layout,
                    stack_access(machine, Direction::Reading, machine.reg(Reg::Sp)),
                );
            }
            Op::Int21 => self.add_dos(machine, layout),
            Op::Lea(..)
            | Op::Jump(_)
            | Op::Branch(..)
            | Op::Loop(_)
            | Op::LoopE(_)
            | Op::LoopNe(_)
            | Op::Jcxz(_) => {}
        }
    }

    /// Adds the accesses of the instruction that was found, but for those that are told to lie beside the stack.
    #[tactic(auto, using(crate::proofs::Beside::near_none))]
    pub(crate) fn add_found(&mut self, machine: &Machine, layout: &Layout, found: Option<Instr>)
        requires empty { self.old ≡ [] }
        requires operation { IfSome found (λ instr. IsOperation instr.op) }
        ensures { self.new ≡ near layout.now (found_accesses found (state_of machine.now)) }
    {
        let Some(instr) = found else {
            return;
        };
        if may_access(instr.op) {
            self.add_operation(machine, layout, instr.op);
        }
    }
}

// The number of bytes that a width has.
fn bytes_in(width: Width) -> u32
    ensures { result ≡ told.bytes_in width }
{
    match width {
        Width::Byte => 1,
        Width::Word => 2,
    }
}

// Whether the operation puts its result into its first operand.
fn writes_operand(kind: Alu) -> bool
    ensures { result ≡ writes_operand kind }
{
    !matches!(kind, Alu::Cmp | Alu::Test)
}

// Whether the operation puts its result into its operand.
fn writes_back(kind: Unary) -> bool
    ensures { result ≡ writes_back kind }
{
    matches!(kind, Unary::Inc | Unary::Dec | Unary::Neg | Unary::Not)
}

// Whether the address is BP plus a displacement, without an index.
fn is_direct(ea: Ea) -> bool
    ensures { result ≡ is_direct ea }
{
    matches!(ea.base, Some(Reg::Bp)) && !ea.index.is_some()
}

// In which way an operand at an address is come to.
fn kind_of(ea: Ea) -> Kind
    ensures { kind_of result ≡ told.kind_of ea }
{
    if is_direct(ea) {
        Kind::OfFrame
    } else {
        Kind::Other
    }
}

// The bytes at an address that a word is popped into, when SP has risen.
fn popped_access(machine: &Machine, width: Width, ea: Ea) -> Access
    ensures { access_of result ∷ []
        ≡ operand_accesses told.Writing (in_memory width ea) (with_sp_raised 2 (state_of machine.now)) }
{
    let sp = machine.reg(Reg::Sp);
    Access {
        direction: Direction::Writing,
        kind: kind_of(ea),
        segment: machine.segment(ea),
        offset: machine.offset_with(ea, Reg::Sp, sp.wrapping_add(2)),
        size: bytes_in(width),
    }
}

// The word at an offset of the stack.
fn stack_access(machine: &Machine, direction: Direction, offset: u16) -> Access
    ensures { access_of result ≡ stack_access (direction_of direction) offset (state_of machine.now) }
{
    Access {
        direction,
        kind: Kind::OfStack,
        segment: machine.ss(),
        offset,
        size: 2,
    }
}

// The access of a push: the word that is stored below the top of the stack.
fn push_access(machine: &Machine) -> Access
    ensures { access_of result ≡ push_access (state_of machine.now) }
{
    let sp = machine.reg(Reg::Sp);
    stack_access(machine, Direction::Writing, sp.wrapping_sub(2))
}

// The access of `size` bytes that are read otherwise than from the stack or a frame.
fn other_read(segment: u16, offset: u16, size: u32) -> Access
    ensures { access_of result ≡ told.other_read segment offset size }
{
    Access {
        direction: Direction::Reading,
        kind: Kind::Other,
        segment,
        offset,
        size,
    }
}

// How many bytes call 09h reads: the string at DS:DX and its `$`, and at most 65,536.
fn string_size(machine: &Machine) -> u32
    ensures { result ≡ string_size (state_of machine.now) }
{
    (machine.string_length() + 1).min(dos::STRING_MOST)
}

// Whether an operand lies in memory.
fn is_memory(x: Operand) -> bool
    ensures { result ≡ is_memory x }
{
    matches!(x, Operand::Mem(..))
}

// Whether an operation may come to memory, as far as its form tells: of most that work on registers, no more is looked
// at.
fn may_access(op: Op) -> bool
    ensures { result ≡ may_access op }
{
    match op {
        Op::Alu(_, a, b) | Op::Mov(a, b) | Op::Xchg(a, b) => is_memory(a) || is_memory(b),
        Op::Unary(_, a) | Op::Shift(_, a, _) | Op::Imul3(_, a, _) => is_memory(a),
        Op::Push(_) | Op::Pop(_) | Op::Enter(_) | Op::Leave | Op::Call(_) | Op::Ret(_) => true,
        Op::Plain(_) | Op::Table(..) | Op::Int21 => true,
        _ => false,
    }
}
