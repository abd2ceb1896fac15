//! Reading declarations of variables.

ghost use Rattle.std.specs.Prelude.{◌≡◌, ◌++◌, IfOk, true, is_some, map};
ghost use Rattle.std.specs.Option.{option_map};
ghost use Rattle.dcc_c.specs.Reading as reading;
ghost use Rattle.dcc_c.specs.ReadingStatements as statements;
ghost use Rattle.dcc_reader.specs.Parts.{before_list, begins_local, read_auto, values_in_braces};
ghost use Rattle.dcc_reader.specs.PartialViews.{number_of, variable_of};
ghost use Rattle.dcc_reader.specs.ReaderViews.{reader_of};

use crate::list::push_some;
use crate::partial::{NumberAt, PartialVariable};
use crate::reader::Reader;
use crate::spare::without_spare;
use dcc_c::Class;
use dcc_lex::{Keyword, Mark};
use std::alloc::{AllocError, Global};

/// Reads the size of an array, where one stands here.
pub fn read_size(r: &mut Reader<'_>) -> Option<NumberAt>
    ensures { reading.got (option_map number_of result) (reader_of r.new) ≡ statements.read_size (reader_of r.old) }
{
    if !r.sees_mark(Mark::OpenBracket) {
        return None;
    }
    r.skip();
    let size = r.take_plain();
    r.take_mark(Mark::CloseBracket);
    size
}

// Reads initial values, each after a comma, and appends them to the ones before.
fn more_values(
    r: &mut Reader<'_>,
    calls: usize,
    values: &mut Vec<NumberAt>,
) -> Result<(), AllocError>
    ensures { IfOk result (λ _. reading.got (map number_of values.new.items) (reader_of r.new)
        ≡ before_list (map number_of values.old.items) (statements.more_values calls (reader_of r.old))) }
{
    let mut left = calls;
    while left > 0 {
        if !r.sees_mark(Mark::Comma) {
            return Ok(());
        }
        left -= 1;
        r.skip();
        let value = r.take_plain();
        push_some(values, value)?;
    }
    Ok(())
}

// Reads initial values in braces, the opening one of which stands here.
fn read_list(r: &mut Reader<'_>, alloc: Global, calls: usize) -> Result<Vec<NumberAt>, AllocError>
    requires seen { is_some (reading.next_token (reader_of r.old)) ≡ true }
    ensures { IfOk result (λ values.
        reading.got (map number_of values.items) (reader_of r.new) ≡ values_in_braces calls (reader_of r.old)) }
{
    r.skip();
    let mut values = Vec::new(alloc);
    let first = r.take_plain();
    push_some(&mut values, first)?;
    more_values(r, calls, &mut values)?;
    r.take_mark(Mark::CloseBrace);
    Ok(without_spare(values))
}

// Reads initial values: some in braces, or one.
fn read_values(r: &mut Reader<'_>, alloc: Global, calls: usize) -> Result<Vec<NumberAt>, AllocError>
    ensures { IfOk result (λ values.
        reading.got (map number_of values.items) (reader_of r.new) ≡ statements.read_values calls (reader_of r.old)) }
{
    if r.sees_mark(Mark::OpenBrace) {
        return read_list(r, alloc, calls);
    }
    let mut values = Vec::with_capacity(alloc, 1)?;
    let value = r.take_plain();
    push_some(&mut values, value)?;
    Ok(values)
}

/// Reads the initial values of a variable, where it has some.
///
/// # Errors
/// Where memory runs out.
pub fn read_init(
    r: &mut Reader<'_>,
    alloc: Global,
    calls: usize,
) -> Result<Vec<NumberAt>, AllocError>
    ensures { IfOk result (λ values.
        reading.got (map number_of values.items) (reader_of r.new) ≡ statements.read_init calls (reader_of r.old)) }
{
    if r.sees_mark(Mark::Equals) {
        r.skip();
        return read_values(r, alloc, calls);
    }
    Ok(Vec::new(alloc))
}

// Reads the word `auto`, where it stands here, for the class of a local variable.
fn read_auto(r: &mut Reader<'_>) -> Class
    ensures { reading.got result (reader_of r.new) ≡ read_auto (reader_of r.old) }
{
    if r.sees_word(Keyword::Auto) {
        r.skip();
        return Class::Auto;
    }
    Class::Plain
}

// The class of a local variable: an array is `auto`.
fn class_with(size: &Option<NumberAt>, class: Class) -> Class
    ensures { result ≡ statements.class_with (option_map number_of size.now) class }
{
    match size {
        Some(_) => Class::Auto,
        None => class,
    }
}

// Reads a local variable.
fn read_local<'a>(r: &mut Reader<'a>, alloc: Global) -> PartialVariable<'a>
    ensures { reading.got (variable_of result) (reader_of r.new) ≡ statements.read_local (reader_of r.old) }
{
    let class = read_auto(r);
    let ty = r.take_type();
    let name = r.take_name();
    let size = read_size(r);
    r.take_mark(Mark::Semicolon);
    let done = !r.is_stopped();
    PartialVariable {
        name,
        ty,
        class: class_with(&size, class),
        size,
        init: Vec::new(alloc),
        address: 0,
        done,
    }
}

/// Reads local variables as long as they come.
///
/// # Errors
/// Where memory runs out.
pub fn read_locals<'a>(
    r: &mut Reader<'a>,
    alloc: Global,
    calls: usize,
) -> Result<Vec<PartialVariable<'a>>, AllocError>
    ensures { IfOk result (λ locals.
        reading.got (map variable_of locals.items) (reader_of r.new) ≡ statements.read_locals calls (reader_of r.old)) }
{
    let mut locals = Vec::new(alloc);
    let mut left = calls;
    while left > 0 {
        if !begins_local(r) {
            return Ok(locals);
        }
        left -= 1;
        locals.push(read_local(r, alloc))?;
    }
    Ok(locals)
}

// Whether a local variable begins here.
fn begins_local(r: &Reader<'_>) -> bool
    ensures { result ≡ begins_local (reader_of r.now) }
{
    r.sees_word(Keyword::Auto) || r.sees_type()
}

// Reads the word for the class of a parameter, where there is one.
fn read_class(r: &mut Reader<'_>) -> Class
    ensures { reading.got result (reader_of r.new) ≡ statements.read_class (reader_of r.old) }
{
    if r.sees_word(Keyword::Register) {
        r.skip();
        return Class::Register;
    }
    if r.sees_word(Keyword::Auto) {
        r.skip();
        return Class::Auto;
    }
    Class::Plain
}

// Reads a parameter.
fn read_param<'a>(r: &mut Reader<'a>, alloc: Global) -> PartialVariable<'a>
    ensures { reading.got (variable_of result) (reader_of r.new) ≡ statements.read_param (reader_of r.old) }
{
    let class = read_class(r);
    let ty = r.take_type();
    let name = r.take_name();
    let done = !r.is_stopped();
    PartialVariable {
        name,
        ty,
        class,
        size: None,
        init: Vec::new(alloc),
        address: 0,
        done,
    }
}

/// Reads the parameters of a function; `void` stands for none.
///
/// # Errors
/// Where memory runs out.
pub(crate) fn read_params<'a>(
    r: &mut Reader<'a>,
    alloc: Global,
    calls: usize,
) -> Result<Vec<PartialVariable<'a>>, AllocError>
    ensures { IfOk result (λ params.
        reading.got (map variable_of params.items) (reader_of r.new) ≡ statements.read_params calls (reader_of r.old)) }
{
    let mut params = Vec::new(alloc);
    if r.sees_word(Keyword::Void) {
        r.skip();
        return Ok(params);
    }
    params.push(read_param(r, alloc))?;
    let mut left = calls;
    while left > 0 {
        if !r.sees_mark(Mark::Comma) {
            return Ok(params);
        }
        left -= 1;
        r.skip();
        params.push(read_param(r, alloc))?;
    }
    Ok(params)
}
