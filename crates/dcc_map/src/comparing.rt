//! The comparison of a run of an executable with a run of a text.

ghost use Rattle.std.specs.Prelude.{◌≤◌, IfOk};
ghost use Rattle.dcc_machine.specs.declared.cpu.Cpu.{Cpu};
ghost use Rattle.dcc_machine.specs.MzImage.{IsLoaded};
ghost use Rattle.dcc_c.specs.Rules.{IsAllowed};
ghost use Rattle.dcc_c.specs.Tree.{Tree};
ghost use Rattle.dcc_c.specs.Views.{tree_of};
ghost use Rattle.dcc_map.specs.Agreed.{Lists, AreWhole, Differs};
ghost use Rattle.dcc_map.specs.Compared.{Compares};

use crate::event::are_same;
use crate::machine_side::MachineSide;
use crate::report::{Report, Settings};
use crate::tally::Tally;
use crate::text_side::TextSide;
use dcc_c::Unit;
use dcc_machine::Image;
use std::alloc::{AllocError, Global};

// Goes through the events of both runs as long as they are the same, and counts them. Answers the line and the offset
// of the first ones that differ.
fn first_difference(
    alloc: Global,
    machine: &mut MachineSide,
    text: &mut TextSide,
    tally: &mut Tally,
) -> Result<Option<(u32, u16)>, AllocError>
    ensures { (cpu : Cpu) (tree : Tree) (lists : Lists) →
        AreWhole cpu tree machine.old text.old tally.old lists →
        IfOk result (Differs cpu tree machine.new text.new tally.new lists) }
{
    for _count in 0..u64::MAX {
        let Some(first) = machine.next(alloc)? else {
            return Ok(None);
        };
        let Some(second) = text.next(alloc)? else {
            return Ok(None);
        };
        if !are_same(first, second) {
            return Ok(Some((text.line, machine.at)));
        }
        tally.count(text.line, machine.at, first)?;
    }
    Ok(None)
}

/// Runs the image and the unit on the input, each for at most so many steps as are set, and compares what happens at
/// their consoles. At most the events of one step of each run are kept. The error is a want of memory.
pub fn compare(
    alloc: Global,
    image: &Image,
    unit: &Unit,
    input: &[u8],
    settings: &Settings,
) -> Result<Report, AllocError>
    requires loaded { IsLoaded image.now }
    requires few { settings.now.most ≤ 1000000000 }
    ensures { IfOk result (λ report. (allowed : IsAllowed (tree_of unit.now)) →
        Compares settings.now image.now (tree_of unit.now) allowed.start input.now report) }
{
    let mut machine = MachineSide::new(alloc, image, settings, input)?;
    let mut text = TextSide::new(alloc, unit, settings, input)?;
    let mut tally = Tally::new(alloc);
    let differs = first_difference(alloc, &mut machine, &mut text, &mut tally)?;
    Ok(Report {
        bytes: tally.bytes,
        pairs: tally.pairs(alloc)?,
        differs,
        machine: machine.finish(alloc)?,
        text: text.finish(alloc)?,
    })
}
