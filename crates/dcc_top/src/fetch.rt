//! Fetching what the words name: the image of an executable, the unit of a text, or the bytes of a listing.

ghost use Rattle.std.specs.Prelude.{IfOk, IfErr};
ghost use Rattle.dcc_c.specs.Views.{tree_of};
ghost use Rattle.dcc_machine.specs.MzImage.{IsImageOf, IsLoaded};
ghost use Rattle.dcc_top.specs.Jobs.{greatest_file, greatest_text};
ghost use Rattle.dcc_asm.specs.Fault.{IsAssembled};
ghost use Rattle.dcc_top.specs.Answer.{HasNoImage, HasNoUnit, IsReadAs, IsUnassembled, OfFile};
ghost use Rattle.dcc_top.specs.Call.{shelf_change};
ghost use Rattle.dcc_top.specs.Causes.{AsksOnce};

use crate::reply::Reply;
use dcc_asm::{ListKind, assemble};
use dcc_c::Unit;
use dcc_io::{Fetched, Shelf};
use dcc_machine::Image;
use dcc_mz::{MzFault, load};
use dcc_parse::{ParseKind, parse};
use std::alloc::Global;

// The greatest length of an executable that is fetched, in bytes.
const GREATEST_FILE: usize = 262_144;

// The greatest length of a text or a listing that is fetched, in bytes.
const GREATEST_TEXT: usize = 67_108_864;

/// The image of the executable of this name. The error is the answer that says why there is none: the file could not be
/// had, it fails a check of the format, or memory ran out.
pub(crate) fn fetch_image<H: Shelf>(
    alloc: Global,
    name: &str,
    shelf: &mut H,
) -> Result<Image, Reply>
    ensures image { IfOk result (λ image.
        OfFile (H.files shelf.old) name.now (λ file. IsImageOf file image)) }
    ensures loaded { IfOk result IsLoaded }
    ensures refused { IfErr result (HasNoImage (H.files shelf.old) name.now) }
    ensures asks { AsksOnce name.now greatest_file
        (shelf_change H.files H.asked H.absences H.faults shelf.old shelf.new) result }
{
    let mut bytes = Vec::new(alloc);
    match shelf.fetch(alloc, name, GREATEST_FILE, &mut bytes)? {
        Fetched::Whole => Ok(load(alloc, &bytes)?),
        Fetched::Longer => Err(Reply::Format(MzFault::TooLarge)),
    }
}

/// The unit of the text of this name. The error is the answer that says why there is none: the file could not be had,
/// it is no text, or memory ran out.
pub(crate) fn fetch_unit<H: Shelf>(alloc: Global, name: &str, shelf: &mut H) -> Result<Unit, Reply>
    ensures unit { IfOk result (λ unit.
        OfFile (H.files shelf.old) name.now (λ text. IsReadAs text (tree_of unit))) }
    ensures refused { IfErr result (HasNoUnit (H.files shelf.old) name.now) }
    ensures asks { AsksOnce name.now greatest_text
        (shelf_change H.files H.asked H.absences H.faults shelf.old shelf.new) result }
{
    let mut bytes = Vec::new(alloc);
    match shelf.fetch(alloc, name, GREATEST_TEXT, &mut bytes)? {
        Fetched::Whole => Ok(parse(alloc, &bytes)?),
        Fetched::Longer => Err(Reply::TextFault {
            line: 0,
            kind: ParseKind::Length,
        }),
    }
}

/// The bytes for which the listing of this name stands. The error is the answer that says why there are none: the file
/// could not be had, a line of it offends, or memory ran out.
pub(crate) fn fetch_assembled<H: Shelf>(
    alloc: Global,
    name: &str,
    shelf: &mut H,
) -> Result<Vec<u8>, Reply>
    ensures assembled { IfOk result (λ bytes.
        OfFile (H.files shelf.old) name.now (λ text. IsAssembled text bytes.items)) }
    ensures refused { IfErr result (IsUnassembled (H.files shelf.old) name.now) }
    ensures asks { AsksOnce name.now greatest_text
        (shelf_change H.files H.asked H.absences H.faults shelf.old shelf.new) result }
{
    let mut text = Vec::new(alloc);
    match shelf.fetch(alloc, name, GREATEST_TEXT, &mut text)? {
        Fetched::Whole => Ok(assemble(alloc, &text)?),
        Fetched::Longer => Err(Reply::ListingFault {
            line: 0,
            kind: ListKind::Length,
        }),
    }
}
