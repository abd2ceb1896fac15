//! Which instructions are taken in, and why others are refused.

ghost use Rattle.std.specs.Prelude.{◌≡◌, ◌==◌, ◌||◌, if◌then◌else◌, ℕ, None, IfOk, IfErr, OnOk, OnErr};
ghost use Rattle.dcc_machine.specs.MzImage.{IsLoaded};
ghost use Rattle.dcc_prog.specs.Layout.{HasLayout};
ghost use Rattle.dcc_machine.specs.WellFormed.{IsOperation};
ghost use Rattle.dcc_prog.specs.Trail.{instruction_in, StandsAt, IsEntry};
ghost use Rattle.dcc_prog.specs.Construct.{IsAtNode};
ghost use Rattle.dcc_prog.specs.Refused.{IsRefusedByTrails};
ghost use Rattle.dcc_prog.specs.declared.refusal.Refusal.TheVariants.{Construct};
ghost use Rattle.dcc_procs.specs.Search.{IsWitnessed, HasDosNumber, HasTable, IsAllowed, IsAccepted, IsTableFault};

use crate::code::{code_of, indirect_at, instruction_in};
use crate::form::is_system;
use crate::frame::is_frame_form;
use crate::known::Known;
use crate::onward::number_of;
use dcc_machine::{Image, Instr, Op};
use dcc_num::Reg;
use dcc_num::dos::{EXIT, GETCH, GETCHE, PUTC, PUTS};
use dcc_prog::{ConstructKind, Layout, LimitName, Refusal};

// The greatest N of a table, whose entries are one more.
const MOST: u16 = 255;

// The kind of construct that FFh with this reg field is: an indirect jump or an indirect call.
fn indirect_kind(reg: u8) -> ConstructKind
    ensures { result ≡ (if (reg == 2) || (reg == 3) then ConstructKind.IndirectCall
        else if (reg == 4) || (reg == 5) then ConstructKind.IndirectJump else ConstructKind.OutsideProfile) }
{
    match reg {
        2 | 3 => ConstructKind::IndirectCall,
        4 | 5 => ConstructKind::IndirectJump,
        _ => ConstructKind::OutsideProfile,
    }
}

// The construct where no instruction stands.
fn unknown_kind(image: &Image, layout: &Layout, at: u16) -> ConstructKind
    requires loaded { IsLoaded image.now }
    requires layout { HasLayout image.now layout.now }
    requires none { instruction_in image.now layout.now at ≡ None }
    ensures { (entry : ℕ) → IsAtNode image.now layout.now entry at result }
{
    match indirect_at(image, layout, at) {
        Some(reg) => indirect_kind(reg),
        None => ConstructKind::OutsideProfile,
    }
}

// Refuses INT 21h without one number of the five known in AH.
fn check_number(at: u16, known: Known) -> Result<(), Refusal>
    ensures number { OnOk result (HasDosNumber known) }
    ensures refused { IfErr result (λ refusal. refusal ≡ Construct ConstructKind.DosNumber at) }
    ensures unknown { OnErr result (¬ HasDosNumber known) }
{
    match known.ah {
        Some(GETCHE | PUTC | GETCH | PUTS | EXIT) => Ok(()),
        _ => Err(Refusal::Construct {
            kind: ConstructKind::DosNumber,
            at,
        }),
    }
}

// Refuses a jump through a table without one greatest number, not above 255, and with its table in the code.
fn check_table(
    image: &Image,
    layout: &Layout,
    at: u16,
    known: Known,
    r: Reg,
    table: u16,
) -> Result<(), Refusal>
    requires loaded { IsLoaded image.now }
    requires layout { HasLayout image.now layout.now }
    ensures table { OnOk result (HasTable image.now layout.now known r table) }
    ensures refused { IfErr result (IsTableFault image.now layout.now at known r table) }
{
    let kind = ConstructKind::IndirectJump;
    let Some(number) = number_of(known, r) else {
        return Err(Refusal::Construct { kind, at });
    };
    if number > MOST {
        return Err(Refusal::Limit {
            what: LimitName::Entries,
            count: u32::from(number) + 1,
        });
    }
    if code_of(image, layout).len() < usize::from(table) + 2 * (usize::from(number) + 1) {
        return Err(Refusal::Construct { kind, at });
    }
    Ok(())
}

// Refuses an operation that lacks what it needs beyond its form.
fn check_operation(
    image: &Image,
    layout: &Layout,
    entry: u16,
    at: u16,
    known: Known,
    op: Op,
) -> Result<(), Refusal>
    requires loaded { IsLoaded image.now }
    requires layout { HasLayout image.now layout.now }
    requires entry { IsEntry image.now layout.now entry }
    requires witnessed { IsWitnessed image.now layout.now entry at known }
    requires stands { StandsAt image.now layout.now at op }
    ensures allowed { OnOk result (IsAllowed image.now layout.now entry known op) }
    ensures refused { IfErr result (IsRefusedByTrails image.now layout.now) }
{
    let kind = ConstructKind::EntryReturn;
    match op {
        Op::Int21 => check_number(at, known),
        Op::Table(r, table) => check_table(image, layout, at, known, r, table),
        Op::Ret(_) if entry == layout.start_ip => Err(Refusal::Construct { kind, at }),
        Op::Call(target) if target == layout.start_ip => Err(Refusal::Construct { kind, at }),
        _ => Ok(()),
    }
}

/// The instruction at an offset of the procedure with that entry, before which this is known. It is
/// refused where a construct stands there, or where it jumps through too great a table; but for a
/// division, whose preparation is looked at when all trails are known.
pub fn accepted(
    image: &Image,
    layout: &Layout,
    entry: u16,
    at: u16,
    known: Known,
) -> Result<Instr, Refusal>
    requires loaded { IsLoaded image.now }
    requires layout { HasLayout image.now layout.now }
    requires entry { IsEntry image.now layout.now entry }
    requires witnessed { IsWitnessed image.now layout.now entry at known }
    ensures accepted { IfOk result (IsAccepted image.now layout.now entry at known) }
    ensures operation { IfOk result (λ instr. IsOperation instr.op) }
    ensures refused { IfErr result (IsRefusedByTrails image.now layout.now) }
{
    let Some(instr) = instruction_in(image, layout, at) else {
        let kind = unknown_kind(image, layout, at);
        return Err(Refusal::Construct { kind, at });
    };
    if is_system(instr.op) || !is_frame_form(image, layout, entry, at, instr.op) {
        return Err(Refusal::Construct {
            kind: ConstructKind::OutsideProfile,
            at,
        });
    }
    check_operation(image, layout, entry, at, known, instr.op)?;
    Ok(instr)
}
