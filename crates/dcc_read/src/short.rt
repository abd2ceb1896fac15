//! Reading statements that hold no others.

ghost use Rattle.std.specs.Prelude.{◌≡◌, IfOk, true, is_some, if◌then◌else◌};
ghost use Rattle.dcc_c.specs.Partial as partial;
ghost use Rattle.dcc_c.specs.Reading as reading;
ghost use Rattle.dcc_c.specs.ReadingStatements as statements;
ghost use Rattle.dcc_reader.specs.PartialViews.{stmt_of};
ghost use Rattle.dcc_reader.specs.ReaderViews.{reader_of};

use crate::GotStmt;
use crate::expression::read_value;
use dcc_lex::Mark;
use dcc_reader::{PartialStmt, Reader};
use std::alloc::Global;

// Goes past the next piece where it is allowed, or stops at it.
fn skip_if(r: &mut Reader<'_>, is_allowed: bool)
    requires seen { is_some (reading.next_token (reader_of r.old)) ≡ true }
    ensures { reader_of r.new
        ≡ (if is_allowed then reading.skip (reader_of r.old) else reading.fail (reader_of r.old)) }
{
    if is_allowed {
        r.skip();
    } else {
        r.fail();
    }
}

/// Reads a `break` or `continue`, the word of which stands here. A loop or `switch` must stand around it that it
/// leaves, or a loop that it goes on with.
pub(crate) fn read_leave(r: &mut Reader<'_>, is_inside: bool)
    requires seen { is_some (reading.next_token (reader_of r.old)) ≡ true }
    ensures { (stmt : partial.PartialStmt) →
        reading.got stmt (reader_of r.new) ≡ statements.read_leave is_inside stmt (reader_of r.old) }
{
    skip_if(r, is_inside);
    r.take_mark(Mark::Semicolon);
}

/// Reads a `goto`, the word of which stands here.
pub(crate) fn read_goto<'a>(r: &mut Reader<'a>) -> PartialStmt<'a>
    requires seen { is_some (reading.next_token (reader_of r.old)) ≡ true }
    ensures { reading.got (stmt_of result) (reader_of r.new) ≡ statements.read_goto (reader_of r.old) }
{
    r.skip();
    let name = r.take_name();
    r.take_mark(Mark::Semicolon);
    PartialStmt::Goto(name)
}

/// Reads a `return`, the word of which stands here.
pub(crate) fn read_return<'a>(r: &mut Reader<'a>, alloc: Global, calls: usize) -> GotStmt<'a>
    requires seen { is_some (reading.next_token (reader_of r.old)) ≡ true }
    ensures { IfOk result (λ stmt.
        reading.got (stmt_of stmt) (reader_of r.new) ≡ statements.read_return calls (reader_of r.old)) }
{
    r.skip();
    if r.sees_mark(Mark::Semicolon) {
        r.skip();
        return Ok(PartialStmt::Return(None, true));
    }
    let e = read_value(r, alloc, calls)?;
    r.take_mark(Mark::Semicolon);
    let done = !r.is_stopped();
    Ok(PartialStmt::Return(Some(e), done))
}
