//! Reading whole texts.

ghost use Rattle.std.specs.Prelude.{◌≡◌, ◌≤◌, ◌+◌, ◌*◌, ◌<◌, ℕ, IfOk, map, length, Option, Some, None, true, is_some};
ghost use Rattle.std.specs.Option.{option_map};
ghost use Rattle.dcc_c.specs.Placement as placement;
ghost use Rattle.dcc_c.specs.Reading as reading;
ghost use Rattle.dcc_c.specs.ReadingText as texts;
ghost use Rattle.dcc_lex.specs.PiecesViews.{pieces_of};
ghost use Rattle.dcc_reader.specs.BegunViews.{begun_of};
ghost use Rattle.dcc_reader.specs.PartialViews.{number_of, variable_of, function_of, text_of};
ghost use Rattle.dcc_reader.specs.ReaderViews.{reader_of};
ghost use Rattle.dcc_read.specs.TextViews.{declared_of, is_global, global_address, place_line};

use crate::Got;
use crate::function::read_functions;
use dcc_c::Class;
use dcc_lex::{Head, Mark, Pieces};
use dcc_reader::declaration::{read_init, read_size};
use dcc_reader::head::{Begun, read_begun};
use dcc_reader::pragma::take_number_of_line;
use dcc_reader::reader::reader_at;
use dcc_reader::spare::without_spare;
use dcc_reader::{NumberAt, PartialFunction, PartialText, PartialVariable, Reader};
use std::alloc::{AllocError, Global};

/// What was read of a text, and the reader after it.
#[derive(Drop)]
pub struct Reading<'a> {
    /// What was read.
    pub text: PartialText<'a>,
    /// The reader after what was read.
    pub following: Reader<'a>,
}

/// Global variables, and the functions after them.
#[derive(Drop)]
struct Declared<'a> {
    /// The global variables.
    globals: Vec<PartialVariable<'a>>,
    /// The functions after the global variables.
    functions: Vec<PartialFunction<'a>>,
}

// Reads a global variable after its name, at an address.
fn read_global<'a>(
    r: &mut Reader<'a>,
    alloc: Global,
    calls: usize,
    address: u64,
    begun: Begun<'a>,
) -> Got<PartialVariable<'a>>
    ensures { IfOk result (λ v. reading.got (variable_of v) (reader_of r.new)
        ≡ texts.read_global calls address (reading.got (begun_of begun.entry) (reader_of r.old))) }
{
    let size = read_size(r);
    let init = read_init(r, alloc, calls)?;
    r.take_mark(Mark::Semicolon);
    let done = !r.is_stopped();
    Ok(PartialVariable {
        name: begun.name,
        ty: begun.result,
        class: Class::Plain,
        size,
        init,
        address,
        done,
    })
}

// How many elements a variable with the size has.
fn elements(size: &Option<NumberAt>) -> u64
    ensures exact { result ≡ placement.elements (option_map (λ n. n.value) size.now) }
    ensures few { result < 4294967296 }
{
    match size {
        Some(number) => u64::from(number.value),
        None => 1,
    }
}

// How many bytes a variable takes.
fn size_in_bytes(v: &PartialVariable) -> u64
    ensures exact { result ≡ texts.size_in_bytes (variable_of v.now) }
    ensures few { result ≤ 17179869180 }
{
    match v.ty {
        Some(ty) => u64::from(ty.size()) * elements(&v.size),
        None => 0,
    }
}

// The address that the number of a place line gives.
fn address_of(number: Option<NumberAt>) -> u64
    ensures exact { result ≡ texts.address_of (option_map number_of number) }
    ensures few { result < 4294967296 }
{
    match number {
        Some(number) => u64::from(number.value),
        None => 0,
    }
}

// Reads a place line, the words of which stand here. The answer is its address.
fn read_place_line(r: &mut Reader<'_>) -> u64
    requires seen { is_some (reading.next_token (reader_of r.old)) ≡ true }
    ensures exact { reading.got result (reader_of r.new) ≡ place_line (reader_of r.old) }
    ensures few { result < 4294967296 }
{
    let line = r.line();
    r.skip();
    address_of(take_number_of_line(r, line))
}

// Whether what has begun is a global variable, where one may stand.
fn is_global(r: &Reader<'_>, begun: &Begun) -> bool
    ensures { result ≡ is_global (reading.got (begun_of begun.now) (reader_of r.now)) }
{
    begun.has_result && !r.sees_mark(Mark::OpenParenthesis)
}

// The address of a global variable that has begun; None for a function.
fn global_address(r: &Reader<'_>, address: Option<u64>, begun: &Begun) -> Option<u64>
    ensures { result ≡ global_address address (reading.got (begun_of begun.now) (reader_of r.now)) }
{
    if is_global(r, begun) {
        return address;
    }
    None
}

// Reads place lines and global variables up to the first function, and the functions after them.
fn read_declared<'a>(r: &mut Reader<'a>, alloc: Global, calls: usize) -> Got<Declared<'a>>
    requires few { calls ≤ 1073741824 }
    ensures { IfOk result (λ d. reading.got (declared_of d) (reader_of r.new)
        ≡ texts.read_declared calls None (reader_of r.old)) }
{
    let mut globals = Vec::new(alloc);
    let mut address = None;
    let mut left = calls;
    while left > 0 {
        left -= 1;
        if r.sees_head(Head::Place) {
            address = Some(read_place_line(r));
            continue;
        }
        let begun = read_begun(r);
        let Some(here) = global_address(r, address, &begun) else {
            let functions = read_functions(r, alloc, left, begun)?;
            return Ok(Declared { globals, functions });
        };
        let global = read_global(r, alloc, left, here, begun)?;
        address = Some(here + size_in_bytes(&global));
        globals.push(global)?;
    }
    let functions = Vec::new(alloc);
    Ok(Declared { globals, functions })
}

// Reads a text after its version line, where reading may nest so deep.
fn read_text<'a>(r: &mut Reader<'a>, alloc: Global, calls: usize) -> Got<PartialText<'a>>
    requires few { calls ≤ 1073741824 }
    ensures { IfOk result (λ t. reading.got (text_of t) (reader_of r.new) ≡ texts.read_text calls (reader_of r.old)) }
{
    let line = r.line();
    r.take_head(Head::Stack);
    let lo = take_number_of_line(r, line);
    let hi = take_number_of_line(r, line);
    let declared = read_declared(r, alloc, calls)?;
    Ok(PartialText {
        lo,
        hi,
        globals: without_spare(declared.globals),
        functions: without_spare(declared.functions),
    })
}

// How deep reading may nest, which is enough for fewer pieces than 67108864.
const MOST_CALLS: usize = 16 * 67108864;

/// Reads the pieces of a text after its version line, as far as they are allowed.
///
/// # Errors
/// Where memory runs out.
pub fn read<'a>(alloc: Global, rest: &Pieces<'a>) -> Result<Reading<'a>, AllocError>
    requires few { length (pieces_of rest.now) < 67108864 }
    ensures { IfOk result (λ r. reading.got (text_of r.text) (reader_of r.following)
        ≡ texts.reading_of (pieces_of rest.now)) }
{
    let mut following = reader_at(rest);
    let text = read_text(&mut following, alloc, MOST_CALLS)?;
    Ok(Reading { text, following })
}
