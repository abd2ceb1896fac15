//! Writing an answer's line to the error stream.

ghost use Rattle.std.specs.Prelude.{◌≡◌, ◌≢◌, ◌⊎◌, ◌≤◌};
ghost use Rattle.dcc_top.specs.declared.reply.Reply.TheVariants.{Done, Memory};
ghost use Rattle.dcc_top.specs.Answer.{line_of};
ghost use Rattle.dcc_top.specs.Call.{sink_change};
ghost use Rattle.dcc_top.specs.Delivery.{TellsReply};

use crate::reply::Reply;
use dcc_io::{Sink, put_all};
use std::alloc::Global;

/// The exit status where a write failed.
pub const WRITE_FAULT: u8 = 6;

// Writes the line. The status is that of the answer, or 6 where a write failed.
fn deliver<E: Sink>(reply: &Reply, line: &str, err: &mut E) -> u8
    requires { line.now ≡ line_of reply.now }
    ensures tells { TellsReply reply.now result (sink_change E.taken E.faults err.old err.new) }
    ensures error_faults { E.faults err.old ≤ E.faults err.new }
{
    if put_all(err, line.as_bytes()).is_err() {
        return WRITE_FAULT;
    }
    reply.status()
}

/// Writes the line of the answer, or that memory ran out where there is none for it. A text or a list that is
/// written has no line.
pub fn answer<E: Sink>(alloc: Global, reply: &Reply, err: &mut E) -> u8
    ensures tells { TellsReply reply.now result (sink_change E.taken E.faults err.old err.new)
        ⊎ ((reply.now ≢ Done) × TellsReply Memory result (sink_change E.taken E.faults err.old err.new)) }
    ensures error_faults { E.faults err.old ≤ E.faults err.new }
{
    match reply.line(alloc) {
        Ok(line) => deliver(reply, line.as_str(), err),
        Err(_) => deliver(&Reply::Memory, "dcc: memory\n", err),
    }
}
