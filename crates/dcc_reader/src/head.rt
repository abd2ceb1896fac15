//! Reading what functions begin with.

ghost use Rattle.std.specs.Prelude.{◌≡◌, IfOk};
ghost use Rattle.dcc_c.specs.Reading as reading;
ghost use Rattle.dcc_c.specs.ReadingText as texts;
ghost use Rattle.dcc_lex.specs.PiecesViews.{pieces_of};
ghost use Rattle.dcc_reader.specs.BegunViews.{begun_of, opened_at};
ghost use Rattle.dcc_reader.specs.PartialViews.{function_of};
ghost use Rattle.dcc_reader.specs.ReaderViews.{reader_of};

use crate::declaration::read_params;
use crate::partial::{PartialFunction, WordAt};
use crate::reader::{ENOUGH_CALLS, Reader, reader_at};
use dcc_c::CType;
use dcc_lex::{Keyword, Mark, Pieces};
use std::alloc::{AllocError, Global};

/// What a declaration begins with.
#[derive(Drop)]
pub struct Begun<'a> {
    /// The place of the declaration.
    pub at: u32,
    /// Whether a type stands there, and not `void`.
    pub has_result: bool,
    /// The type of the result, if it could be read.
    pub result: Option<CType>,
    /// The name that is declared.
    pub name: Option<WordAt<'a>>,
}

/// Reads what a declaration begins with: a type or `void`, and a name.
pub fn read_begun<'a>(r: &mut Reader<'a>) -> Begun<'a>
    ensures { reading.got (begun_of result) (reader_of r.new) ≡ texts.read_begun (reader_of r.old) }
{
    let at = r.left.at;
    if r.sees_word(Keyword::Void) {
        r.skip();
        let name = r.take_name();
        return Begun {
            at,
            has_result: false,
            result: None,
            name,
        };
    }
    let has_result = r.sees_type();
    let result = r.take_type();
    let name = r.take_name();
    Begun {
        at,
        has_result,
        result,
        name,
    }
}

// The place after an opening parenthesis, where that was read.
fn opened(r: &Reader<'_>) -> Option<u32>
    ensures { result ≡ opened_at (reader_of r.now) }
{
    if r.is_stopped() {
        return None;
    }
    Some(r.left.at)
}

/// Reads the head of a function after its name.
///
/// # Errors
/// Where memory runs out.
pub fn read_head<'a>(
    r: &mut Reader<'a>,
    alloc: Global,
    calls: usize,
    begun: Begun<'a>,
) -> Result<PartialFunction<'a>, AllocError>
    ensures { IfOk result (λ f. reading.got (function_of f) (reader_of r.new)
        ≡ texts.read_head calls (reading.got (begun_of begun.entry) (reader_of r.old))) }
{
    r.take_mark(Mark::OpenParenthesis);
    let opened = opened(r);
    let without_params = r.sees_word(Keyword::Void);
    let params = read_params(r, alloc, calls)?;
    r.take_mark(Mark::CloseParenthesis);
    let headed = !r.is_stopped();
    Ok(PartialFunction {
        at: begun.at,
        has_result: begun.has_result,
        result: begun.result,
        name: begun.name,
        opened,
        without_params,
        params,
        headed,
        locals: Vec::new(alloc),
        body: Vec::new(alloc),
        last: 0,
    })
}

/// Reads the head of a function that begins with the first of the pieces.
///
/// # Errors
/// Where memory runs out.
pub fn head_at<'a>(alloc: Global, rest: &Pieces<'a>) -> Result<PartialFunction<'a>, AllocError>
    ensures { IfOk result (λ f. function_of f ≡ (texts.read_head (texts.enough_calls (pieces_of rest.now))
        (texts.read_begun (texts.reader_of (pieces_of rest.now)))).value) }
{
    let mut r = reader_at(rest);
    let begun = read_begun(&mut r);
    read_head(&mut r, alloc, ENOUGH_CALLS, begun)
}
