//! The segments of a program, and whether they keep to the small memory model.

ghost use Rattle.std.specs.Prelude.{◌≡◌, ◌≤◌, ◌*◌, ◌+◌, ◌-◌, ℕ, min, length, None, Ok, Err, IfSome, IfOk, IfErr};
ghost use Rattle.dcc_prog.specs.declared.procedure.Layout.{Layout};
ghost use Rattle.dcc_machine.specs.MzImage.{IsLoaded};
ghost use Rattle.dcc_prog.specs.Layout.{HasLayout, lowest_of_stack};
ghost use Rattle.dcc_prog.specs.Construct.{IsConstruct};
ghost use Rattle.dcc_layout.specs.Prelude.{IsLeft};
ghost use Rattle.dcc_layout.specs.Refusal.{IsRefusal};

use crate::prelude::{Prelude, prelude_of};
use dcc_machine::{Cpu, DS, Image, SS};
use dcc_num::Reg;
use dcc_prog::{ConstructKind, Layout, Refusal};
use std::alloc::Global;

// The highest data segment of a layout.
const HIGHEST_DATA_SEGMENT: u16 = 0xF000;

// The number of bytes in a paragraph, in which segments are counted.
const PARAGRAPH: u16 = 16;

// The physical address at which the load image begins.
const LOAD_ADDRESS: u32 = 0x1100;

// The distance from a segment to another, in bytes.
fn distance(from: u16, to: u16) -> u32
    requires { from ≤ to }
    ensures { result + from * 16 ≡ to * 16 }
{
    u32::from(to - from) * u32::from(PARAGRAPH)
}

// The lowest offset of the stack in the data segment.
fn lowest_of_stack(image: &Image, ds: u16) -> u32
    requires { length image.now.bytes.items ≤ 262144 }
    ensures { result ≡ lowest_of_stack image.now ds }
{
    if ds < image.ss {
        return distance(ds, image.ss);
    }
    let image_end = LOAD_ADDRESS + image.bytes.len() as u32;
    image_end.saturating_sub(distance(0, ds))
}

// The offset after the code, below the data segment and in the image.
fn code_end(image: &Image, ds: u16) -> u32
    requires { image.now.cs ≤ ds }
    ensures { result ≡ min ((ds - image.now.cs) * 16) image.now.code_len }
{
    distance(image.cs, ds).min(image.code_len)
}

// The layout for the processor after a prelude, if one holds. A data segment above the code segment was written by the
// prelude, since DS begins below the code.
fn layout_after(image: &Image, prelude: &Prelude, cpu: Cpu) -> Option<Layout>
    requires loaded { IsLoaded image.now }
    requires left { IsLeft cpu image.now prelude.now }
    ensures processor { IfSome result (λ layout. layout.cpu ≡ cpu) }
    ensures layout { IfSome result (HasLayout image.now) }
    ensures none { result ≡ None → (layout : Layout) → layout.cpu ≡ cpu → ¬ HasLayout image.now layout }
{
    let registers = &prelude.registers;
    let ds = registers.segs[DS as usize];
    if ds <= image.cs || ds > HIGHEST_DATA_SEGMENT {
        return None;
    }
    let delta = registers.segs[SS as usize]
        .checked_sub(ds)?
        .checked_mul(PARAGRAPH)?;
    let hi = registers.regs[Reg::Sp as usize].checked_add(delta)?;
    let lo = u16::try_from(lowest_of_stack(image, ds)).ok()?;
    let start_ip = u16::try_from(prelude.end).ok()?;
    let code_end = code_end(image, ds);
    if lo >= hi || u32::from(start_ip) >= code_end {
        return None;
    }
    Some(Layout {
        cpu,
        ds,
        delta,
        lo,
        hi,
        start_ip,
        code_end,
        regs: registers.regs,
        flags: registers.flags,
    })
}

/// The layout of a loaded program for the processor: what its prelude leaves in registers and flags, and where its
/// data, its stack and its code lie.
///
/// Offsets and `delta` count bytes. Where no layout for the processor holds of the program, it is refused as construct
/// 1 at the entry. Nothing else is refused, and no memory is taken.
pub fn layout(alloc: Global, image: &Image, cpu: Cpu) -> Result<Layout, Refusal>
    requires { IsLoaded image.now }
    ensures processor { IfOk result (λ layout. layout.cpu ≡ cpu) }
    ensures layout { IfOk result (HasLayout image.now) }
    ensures refused { IfErr result (IsRefusal cpu image.now) }

    // A program that has a layout for the processor gets it, and one that has none is refused.
    ensures lays_out { (layout : Layout) → layout.cpu ≡ cpu → HasLayout image.now layout → result ≡ Ok layout }
    ensures refuses { (at : ℕ) → IsConstruct cpu ConstructKind.NoLayout image.now at
        → result ≡ Err (Refusal.Construct ConstructKind.NoLayout at) }
{
    let _ = alloc;
    layout_after(image, &prelude_of(image, cpu), cpu).ok_or(Refusal::Construct {
        kind: ConstructKind::NoLayout,
        at: image.ip,
    })
}
