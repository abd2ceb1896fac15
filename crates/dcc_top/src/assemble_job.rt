//! The job of `asm`: the bytes of a listing.

ghost use Rattle.std.specs.Prelude.{ℕ, List, Option, Some};
ghost use Rattle.dcc_commands.specs.Words.{Assemble};
ghost use Rattle.dcc_top.specs.Call.{shelf_change, sink_change, unread};
ghost use Rattle.dcc_top.specs.Causes.{Replies};

use crate::fetch::fetch_assembled;
use crate::reply::Reply;
use dcc_io::{Failed, Shelf, Sink, put_all};
use std::alloc::Global;

/// Writes the bytes for which the listing of this name stands, or answers why there are none; whatever the input is,
/// none of it is read. The error is a failed write.
pub(crate) fn assemble_reply<H: Shelf, O: Sink>(
    alloc: Global,
    name: &str,
    shelf: &mut H,
    out: &mut O,
) -> Result<Reply, Failed>
    ensures { (left : Option (List ℕ)) (faults : ℕ) → Replies (Some (Assemble name.now))
        (shelf_change H.files H.asked H.absences H.faults shelf.old shelf.new)
        (unread left faults)
        (sink_change O.taken O.faults out.old out.new) result }
{
    let bytes = match fetch_assembled(alloc, name, shelf) {
        Ok(bytes) => bytes,
        Err(reply) => return Ok(reply),
    };
    match put_all(out, &bytes) {
        Ok(()) => Ok(Reply::Done),
        Err(failed) => Err(failed),
    }
}
