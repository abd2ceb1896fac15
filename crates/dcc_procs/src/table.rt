//! The instructions before a jump through a table, which tell the greatest number of its index.

ghost use Rattle.std.specs.Prelude.{◌≡◌, Some};
ghost use Rattle.dcc_num.specs.declared.Reg.TheVariants.{Ax};
ghost use Rattle.dcc_machine.specs.Writes.{is_same_register};
ghost use Rattle.dcc_machine.specs.Machine.{is_general};
ghost use Rattle.dcc_prog.specs.Trail.{is_bounds_test, clears_upper, is_doubling};
ghost use Rattle.dcc_procs.specs.Known.{is_same_form, is_same_index, number_of, form_begun, form_continued, form_after};
ghost use Rattle.dcc_procs.specs.Known.{moved_to, index_after};

use dcc_machine::{Alu, Cond, Count, Op, Operand, Shift};
use dcc_num::{Half, Reg};

/// How far the last instructions of a trail are those before a jump through a table.
#[derive(Clone, Copy)]
pub enum Form {
    /// The register was compared with the number.
    Compared(Reg, u16),
    /// AL was compared with the number.
    AlCompared(u16),
    /// The register is at most the number.
    InRange(Reg, u16),
    /// AL is at most the number.
    AlInRange(u16),
    /// The register is twice an index that is at most the number.
    Doubled(Reg, u16),
}

/// A register that is twice an index of a table.
#[derive(Clone, Copy)]
pub struct Index {
    pub register: Reg,
    /// The greatest number that the index may be.
    pub number: u16,
}

/// Whether the two are one register.
pub(crate) fn is_same_register(r: Reg, q: Reg) -> bool
    ensures { result ≡ is_same_register r q }
{
    r == q
}

impl Form {
    pub fn is_same(self, other: Form) -> bool
        ensures { result ≡ is_same_form self other }
    {
        match (self, other) {
            (Form::Compared(r, number), Form::Compared(q, same))
            | (Form::InRange(r, number), Form::InRange(q, same))
            | (Form::Doubled(r, number), Form::Doubled(q, same)) => {
                is_same_register(r, q) && number == same
            }
            (Form::AlCompared(number), Form::AlCompared(same))
            | (Form::AlInRange(number), Form::AlInRange(same)) => number == same,
            _ => false,
        }
    }
}

impl Index {
    pub fn is_same(self, other: Index) -> bool
        ensures { result ≡ is_same_index self other }
    {
        is_same_register(self.register, other.register) && self.number == other.number
    }

    /// The greatest number of the register, where it is the index.
    pub fn number_of(self, r: Reg) -> Option<u16>
        ensures { result ≡ number_of r (Some self) }
    {
        if is_same_register(self.register, r) {
            Some(self.number)
        } else {
            None
        }
    }
}

/// Whether the register is general: AX, CX, DX, BX, SI or DI.
pub(crate) fn is_general(r: Reg) -> bool
    ensures { result ≡ is_general r }
{
    !matches!(r, Reg::Sp | Reg::Bp)
}

/// Whether the operation is a JA whose next instruction stands at the offset and whose target does not, or a JBE the
/// other way round.
pub(crate) fn is_bounds_test(op: Op, next: u16, to: u16) -> bool
    ensures { result ≡ is_bounds_test op next to }
{
    match op {
        Op::Branch(Cond::A, target) => next == to && target != to,
        Op::Branch(Cond::Be, target) => target == to && next != to,
        _ => false,
    }
}

/// Whether the operation is `xor ah,ah`.
pub(crate) fn clears_ah(op: Op) -> bool
    ensures { result ≡ clears_upper Ax (Some op) }
{
    matches!(
        op,
        Op::Alu(
            Alu::Xor,
            Operand::Byte(Reg::Ax, Half::High),
            Operand::Byte(Reg::Ax, Half::High)
        )
    )
}

// Whether the operation is `shl r,1`.
fn is_doubling(r: Reg, op: Op) -> bool
    ensures { result ≡ is_doubling r (Some op) }
{
    match op {
        Op::Shift(Shift::Shl, Operand::Word(q), Count::One) => is_same_register(r, q),
        _ => false,
    }
}

// The form that an operation begins, if it is a comparison with a constant.
fn form_begun(op: Op) -> Option<Form>
    ensures { result ≡ form_begun op }
{
    match op {
        Op::Alu(Alu::Cmp, Operand::Word(r), Operand::Const(_, number)) if is_general(r) => {
            Some(Form::Compared(r, number))
        }
        Op::Alu(Alu::Cmp, Operand::Byte(Reg::Ax, Half::Low), Operand::Const(_, number)) => {
            Some(Form::AlCompared(number))
        }
        _ => None,
    }
}

// The form after an operation that goes on to an offset, where it continues the form before it.
fn form_continued(op: Op, next: u16, to: u16, form: Form) -> Option<Form>
    ensures { result ≡ form_continued op next to form }
{
    match form {
        Form::Compared(r, number) if is_bounds_test(op, next, to) => {
            Some(Form::InRange(r, number))
        }
        Form::AlCompared(number) if is_bounds_test(op, next, to) => Some(Form::AlInRange(number)),
        Form::AlInRange(number) if clears_ah(op) => Some(Form::InRange(Reg::Ax, number)),
        Form::InRange(r, number) if is_doubling(r, op) => Some(Form::Doubled(r, number)),
        _ => None,
    }
}

/// The form after an instruction that goes on to an offset, by the form before it.
pub(crate) fn form_after(op: Op, next: u16, to: u16, form: Option<Form>) -> Option<Form>
    ensures { result ≡ form_after op next to form }
{
    match (form_begun(op), form) {
        (Some(begun), _) => Some(begun),
        (None, Some(form)) => form_continued(op, next, to, form),
        (None, None) => None,
    }
}

// The register to which the operation moves the given one.
fn moved_to(r: Reg, op: Op) -> Option<Reg>
    ensures { result ≡ moved_to r op }
{
    match op {
        Op::Mov(Operand::Word(q), Operand::Word(p))
            if is_same_register(r, p) && !is_same_register(q, p) => { Some(q) }
        _ => None,
    }
}

/// The index after an instruction, by the form before it.
pub(crate) fn index_after(op: Op, form: Option<Form>) -> Option<Index>
    ensures { result ≡ index_after op form }
{
    match form? {
        Form::InRange(register, number) if is_doubling(register, op) => {
            Some(Index { register, number })
        }
        Form::Doubled(r, number) => {
            let register = moved_to(r, op)?;
            Some(Index { register, number })
        }
        _ => None,
    }
}
