//! Reading functions.

ghost use Rattle.std.specs.Prelude.{◌≡◌, ◌≤◌, ◌==◌, ◌||◌, IfOk, map, length};
ghost use Rattle.dcc_c.specs.Reading as reading;
ghost use Rattle.dcc_c.specs.ReadingText as texts;
ghost use Rattle.dcc_reader.specs.BegunViews.{begun_of};
ghost use Rattle.dcc_reader.specs.PartialViews.{function_of};
ghost use Rattle.dcc_reader.specs.ReaderViews.{reader_of};

use crate::Got;
use crate::statement::read_lines;
use dcc_lex::Mark;
use dcc_reader::declaration::read_locals;
use dcc_reader::head::{Begun, read_begun, read_head};
use dcc_reader::spare::without_spare;
use dcc_reader::{Around, PartialFunction, Reader};
use std::alloc::Global;

// Reads a function after its head.
fn read_body<'a>(
    r: &mut Reader<'a>,
    alloc: Global,
    calls: usize,
    head: PartialFunction<'a>,
) -> Got<PartialFunction<'a>>
    ensures { IfOk result (λ f. reading.got (function_of f) (reader_of r.new)
        ≡ texts.read_body calls (reading.got (function_of head.entry) (reader_of r.old))) }
{
    r.depth = 2;
    r.take_mark(Mark::OpenBrace);
    let locals = read_locals(r, alloc, calls)?;
    let block = read_lines(r, alloc, calls, Around::outermost())?;
    let last = r.line();
    r.take_mark(Mark::CloseBrace);
    Ok(PartialFunction {
        params: without_spare(head.params),
        locals: without_spare(locals),
        body: without_spare(block.lines),
        last,
        ..head
    })
}

// Reads a function after its name.
fn read_function<'a>(
    r: &mut Reader<'a>,
    alloc: Global,
    calls: usize,
    begun: Begun<'a>,
) -> Got<PartialFunction<'a>>
    ensures { IfOk result (λ f. reading.got (function_of f) (reader_of r.new)
        ≡ texts.read_function calls (reading.got (begun_of begun.entry) (reader_of r.old))) }
{
    let head = read_head(r, alloc, calls, begun)?;
    read_body(r, alloc, calls, head)
}

// Whether no function can begin here.
fn is_end(r: &Reader<'_>) -> bool
    ensures { result ≡ reading.is_stopped (reader_of r.now) || (length (reader_of r.now).left == 0) }
{
    r.is_stopped() || r.left.first().is_none()
}

/// Reads functions up to the end of the text, the first of them after its name.
pub(crate) fn read_functions<'a>(
    r: &mut Reader<'a>,
    alloc: Global,
    calls: usize,
    begun: Begun<'a>,
) -> Got<Vec<PartialFunction<'a>>>
    ensures { IfOk result (λ functions. reading.got (map function_of functions.items) (reader_of r.new)
        ≡ texts.with_functions calls (reading.got (begun_of begun.entry) (reader_of r.old))) }
{
    let mut functions = Vec::new(alloc);
    let first = read_function(r, alloc, calls, begun)?;
    functions.push(first)?;
    let mut left = calls;
    while left > 0 {
        if is_end(r) {
            return Ok(functions);
        }
        left -= 1;
        let begun = read_begun(r);
        let function = read_function(r, alloc, left, begun)?;
        functions.push(function)?;
    }
    Ok(functions)
}
