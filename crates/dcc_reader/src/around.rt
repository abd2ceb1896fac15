//! What stands around a statement.

ghost use Rattle.std.specs.Prelude.{◌≡◌, ◌<◌};
ghost use Rattle.dcc_c.specs.Grammar as grammar;
ghost use Rattle.dcc_c.specs.Reading as reading;
ghost use Rattle.dcc_c.specs.ReadingStatements as statements;
ghost use Rattle.dcc_reader.specs.AroundViews.{around_of};
ghost use Rattle.dcc_reader.specs.ReaderViews.{reader_of};

use crate::offence::ParseKind;
use crate::reader::Reader;

/// What stands around a statement.
#[derive(Clone, Copy)]
pub struct Around {
    /// How many blocks stand around it, without the function's own braces.
    pub blocks: usize,
    /// Whether one of the blocks belongs to a loop or a `switch`, which a `break` leaves.
    pub breaks: bool,
    /// Whether one of the blocks belongs to a loop, which a `continue` goes on with.
    pub continues: bool,
}

impl Around {
    /// What stands around the statements of a function: nothing but the function's own braces.
    pub fn outermost() -> Around
        ensures { around_of result ≡ grammar.outermost }
    {
        Around {
            blocks: 0,
            breaks: false,
            continues: false,
        }
    }

    /// What stands around a statement in a block of an `if`.
    pub fn in_block(self) -> Around
        requires { self.blocks < usize.MAX }
        ensures { around_of result ≡ grammar.in_block (around_of self) }
    {
        Around {
            blocks: self.blocks + 1,
            ..self
        }
    }

    /// What stands around a statement in the body of a loop.
    pub fn in_loop(self) -> Around
        requires { self.blocks < usize.MAX }
        ensures { around_of result ≡ grammar.in_loop (around_of self) }
    {
        Around {
            blocks: self.blocks + 1,
            breaks: true,
            continues: true,
        }
    }

    /// What stands around a statement in an arm of a `switch`.
    pub fn in_switch(self) -> Around
        requires { self.blocks < usize.MAX }
        ensures { around_of result ≡ grammar.in_switch (around_of self) }
    {
        Around {
            blocks: self.blocks + 1,
            breaks: true,
            ..self
        }
    }

    /// Whether more than 200 blocks stand around a statement.
    pub fn is_nested(self) -> bool
        ensures { result ≡ statements.is_nested (around_of self) }
    {
        self.blocks > 200
    }

    /// Stops at a statement that more than 200 blocks stand around, and that begins at a place.
    pub fn stop_if_nested(self, r: &mut Reader<'_>, at: u32)
        ensures { reader_of r.new ≡ statements.stop_if_nested (around_of self) at (reader_of r.old) }
    {
        if self.is_nested() {
            r.stop_at(ParseKind::Depth, at);
        }
    }
}
