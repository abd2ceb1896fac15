//! Reading the numbers of pragmas.

ghost use Rattle.std.specs.Prelude.{◌≡◌, true, is_some};
ghost use Rattle.std.specs.Option.{option_map};
ghost use Rattle.dcc_c.specs.Reading as reading;
ghost use Rattle.dcc_c.specs.ReadingStatements as statements;
ghost use Rattle.dcc_reader.specs.PartialViews.{number_of};
ghost use Rattle.dcc_reader.specs.ReaderViews.{reader_of};

use crate::partial::NumberAt;
use crate::reader::Reader;

/// Takes a number of a pragma, which must stand here in the pragma's line.
pub fn take_number_of_line(r: &mut Reader<'_>, line: u32) -> Option<NumberAt>
    ensures { reading.got (option_map number_of result) (reader_of r.new)
        ≡ statements.take_number_of_line line (reader_of r.old) }
{
    if r.line() == line {
        return r.take_plain();
    }
    r.fail();
    None
}

/// Reads a depth line, the words of which stand here. Calls have its depth from here on.
pub fn read_depth(r: &mut Reader<'_>)
    requires seen { is_some (reading.next_token (reader_of r.old)) ≡ true }
    ensures { reader_of r.new ≡ statements.read_depth (reader_of r.old) }
{
    let line = r.line();
    r.skip();
    match take_number_of_line(r, line) {
        Some(number) => r.depth = number.value,
        None => {}
    }
}
