//! Divisions whose upper half is prepared.

ghost use Rattle.std.specs.Prelude.{◌≡◌, ℕ, length, OnOk, IfErr};
ghost use Rattle.dcc_machine.specs.MzImage.{IsLoaded};
ghost use Rattle.dcc_prog.specs.Layout.{HasLayout};
ghost use Rattle.dcc_prog.specs.Trail.{IsNode, IsEntry};
ghost use Rattle.dcc_prog.specs.Prepared.{is_upper, zeroes_upper, extends_sign, writes_ax, writes_upper, IsUnprepared};
ghost use Rattle.dcc_prog.specs.Refused.{IsRefusedByTrails};
ghost use Rattle.dcc_procs.specs.Search.{AreAllSeen, IsOrder};
ghost use Rattle.dcc_procs.specs.Division.{unready, is_for, div_after, idiv_after, ready_after, ready_at, FindsReady};
ghost use Rattle.dcc_procs.specs.Division.{LacksReady};

use crate::code::instruction_in;
use crate::form::writes_half;
use crate::known::Known;
use dcc_machine::{Alu, Image, Op, Operand, Plain, Unary};
use dcc_num::{Half, Reg, Width};
use dcc_prog::{ConstructKind, Layout, Refusal};

// Whether the operand is the upper half of what a division of that width divides: AH, or DX.
fn is_upper(width: Width, operand: Operand) -> bool
    ensures { result ≡ is_upper width operand }
{
    match width {
        Width::Byte => matches!(operand, Operand::Byte(Reg::Ax, Half::High)),
        Width::Word => matches!(operand, Operand::Word(Reg::Dx)),
    }
}

// Whether the operation is MOV of 0 to the upper half, or SUB or XOR of it with itself.
fn zeroes_upper(width: Width, op: Op) -> bool
    ensures { result ≡ zeroes_upper width op }
{
    match op {
        Op::Mov(to, Operand::Const(_, constant)) => is_upper(width, to) && constant == 0,
        Op::Alu(Alu::Sub | Alu::Xor, a, b) => is_upper(width, a) && is_upper(width, b),
        _ => false,
    }
}

// Whether the operation extends the sign of the lower half: CBW, or CWD.
fn extends_sign(width: Width, op: Op) -> bool
    ensures { result ≡ extends_sign width op }
{
    match width {
        Width::Byte => matches!(op, Op::Plain(Plain::Cbw)),
        Width::Word => matches!(op, Op::Plain(Plain::Cwd)),
    }
}

fn writes_ax(op: Op) -> bool
    ensures { result ≡ writes_ax op }
{
    writes_half(op, Reg::Ax, Half::Low) || writes_half(op, Reg::Ax, Half::High)
}

fn writes_upper(width: Width, op: Op) -> bool
    ensures { result ≡ writes_upper width op }
{
    match width {
        Width::Byte => writes_half(op, Reg::Ax, Half::High),
        Width::Word => {
            writes_half(op, Reg::Dx, Half::Low) || writes_half(op, Reg::Dx, Half::High)
        }
    }
}

/// Which divisions find their upper half prepared at an offset.
#[derive(Clone, Copy)]
pub struct Ready {
    /// Whether DIV by a byte finds its upper half, AH, prepared.
    pub div_byte: bool,
    /// Whether DIV by a word finds its upper half, DX, prepared.
    pub div_word: bool,
    /// Whether IDIV by a byte finds its upper half, AH, prepared.
    pub idiv_byte: bool,
    /// Whether IDIV by a word finds its upper half, DX, prepared.
    pub idiv_word: bool,
}

/// No division finds its upper half prepared.
pub const UNREADY: Ready = Ready {
    div_byte: false,
    div_word: false,
    idiv_byte: false,
    idiv_word: false,
};

// Whether DIV finds its upper half prepared after an operation, by whether it would have before.
fn div_after(width: Width, op: Op, before: bool) -> bool
    ensures { result ≡ div_after width op before }
{
    zeroes_upper(width, op) || (!writes_upper(width, op) && before)
}

// Whether IDIV finds its upper half prepared after an operation, by whether it would have before.
fn idiv_after(width: Width, op: Op, before: bool) -> bool
    ensures { result ≡ idiv_after width op before }
{
    extends_sign(width, op) || (!writes_ax(op) && !writes_upper(width, op) && before)
}

impl Ready {
    // Which divisions find their upper half prepared after an operation, by which would have before.
    fn after(self, op: Op) -> Ready
        ensures { result ≡ ready_after op self }
    {
        Ready {
            div_byte: div_after(Width::Byte, op, self.div_byte),
            div_word: div_after(Width::Word, op, self.div_word),
            idiv_byte: idiv_after(Width::Byte, op, self.idiv_byte),
            idiv_word: idiv_after(Width::Word, op, self.idiv_word),
        }
    }

    // Whether a division of that width finds its upper half prepared; other operations need no preparation.
    fn is_for(self, division: Unary, width: Width) -> bool
        ensures { result ≡ is_for self division width }
    {
        match (division, width) {
            (Unary::Div, Width::Byte) => self.div_byte,
            (Unary::Div, Width::Word) => self.div_word,
            (Unary::Idiv, Width::Byte) => self.idiv_byte,
            (Unary::Idiv, Width::Word) => self.idiv_word,
            _ => true,
        }
    }
}

// Which divisions are prepared at an offset, by what is known before it and by which divisions are prepared at each
// offset that was reached earlier.
fn ready_at(image: &Image, layout: &Layout, known: Option<Known>, ready: &[Ready]) -> Ready
    requires loaded { IsLoaded image.now }
    requires layout { HasLayout image.now layout.now }
    requires length { length ready.now ≡ 65536 }
    ensures { result ≡ ready_at image.now layout.now known ready.now }
{
    let Some(
        Known {
            from: Some(from),
            ..
        },
    ) = known
    else {
        return UNREADY;
    };
    match instruction_in(image, layout, from) {
        Some(instr) => ready[usize::from(from)].after(instr.op),
        None => UNREADY,
    }
}

// Refuses a division at an offset where it is not prepared.
fn check_division(image: &Image, layout: &Layout, at: u16, ready: Ready) -> Result<(), Refusal>
    requires loaded { IsLoaded image.now }
    requires layout { HasLayout image.now layout.now }
    ensures ready { OnOk result (FindsReady image.now layout.now at ready) }
    ensures refused { IfErr result (LacksReady image.now layout.now at ready) }
{
    let Some(instr) = instruction_in(image, layout, at) else {
        return Ok(());
    };
    match instr.op {
        Op::Unary(operation, operand) if !ready.is_for(operation, operand.width()) => {
            Err(Refusal::Construct {
                kind: ConstructKind::Division,
                at,
            })
        }
        _ => Ok(()),
    }
}

/// Refuses a division of the procedure with that entry whose upper half is not prepared. The offsets
/// stand in the order in which they were first reached, so that a sole predecessor comes before.
pub(crate) fn check_divisions(
    image: &Image,
    layout: &Layout,
    entry: u16,
    seen: &[Option<Known>],
    order: &[u16],
    ready: &mut [Ready],
) -> Result<(), Refusal>
    requires loaded { IsLoaded image.now }
    requires layout { HasLayout image.now layout.now }
    requires entry { IsEntry image.now layout.now entry }
    requires seen { AreAllSeen image.now layout.now entry seen.now }
    requires order { IsOrder image.now layout.now entry seen.now order.now }
    requires length { length ready.old ≡ 65536 }
    ensures length { length ready.new ≡ 65536 }
    ensures prepared { OnOk result ((at : ℕ) → IsNode image.now layout.now entry at
        → ¬ IsUnprepared image.now layout.now entry at) }
    ensures refused { IfErr result (IsRefusedByTrails image.now layout.now) }
{
    for place in 0..order.len() {
        let at = order[place];
        let here = ready_at(image, layout, seen[usize::from(at)], ready);
        ready[usize::from(at)] = here;
        check_division(image, layout, at, here)?;
    }
    Ok(())
}
