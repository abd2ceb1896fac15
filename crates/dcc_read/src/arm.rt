//! Reading what the arms of a `switch` begin with.

ghost use Rattle.std.specs.Prelude.{◌≡◌, IfOk, true, is_some, map, option_to_list};
ghost use Rattle.std.specs.Option.{option_map};
ghost use Rattle.dcc_c.specs.Reading as reading;
ghost use Rattle.dcc_c.specs.ReadingStatements as statements;
ghost use Rattle.dcc_lex.specs.TokenViews.{token_of, suffix_of};
ghost use Rattle.dcc_read.specs.ArmViews.{arm_head_of};
ghost use Rattle.dcc_reader.specs.PartialViews.{case_of};
ghost use Rattle.dcc_reader.specs.ReaderViews.{reader_of};

use crate::Got;
use dcc_lex::{Keyword, Mark, Suffix, Token};
use dcc_reader::list::push_some;
use dcc_reader::spare::without_spare;
use dcc_reader::{CaseAt, Reader};
use std::alloc::Global;

/// What an arm begins with.
#[derive(Drop)]
pub(crate) struct ArmHead {
    /// The numbers of the arm's cases.
    pub(crate) numbers: Vec<CaseAt>,
    /// The place of `default`, if the arm has it.
    pub(crate) default: Option<u32>,
}

// The number with the suffix, where a case may have it.
fn case_if(number: u32, suffix: Suffix) -> Option<u16>
    ensures { result ≡ statements.case_if number (suffix_of suffix) }
{
    match suffix {
        Suffix::Plain | Suffix::Unsigned => u16::try_from(number).ok(),
        Suffix::Long | Suffix::UnsignedLong => None,
    }
}

// The number of a case that the token is.
fn case_number(token: &Token) -> Option<u16>
    ensures { result ≡ statements.case_number (Some (token_of token.now)) }
{
    match token {
        Token::Decimal(number, suffix) => case_if(*number, *suffix),
        Token::Hex(number, suffix) => case_if(*number, *suffix),
        _ => None,
    }
}

// The number of a case that stands here.
fn case_here(r: &Reader<'_>) -> Option<u16>
    ensures { result ≡ statements.case_number (reading.next_token (reader_of r.now)) }
{
    match r.next() {
        Some(token) => case_number(token),
        None => None,
    }
}

// Reads a `case`, the word of which stands here, with its number and the colon.
fn read_case(r: &mut Reader<'_>) -> Option<CaseAt>
    requires seen { is_some (reading.next_token (reader_of r.old)) ≡ true }
    ensures { reading.got (option_to_list (option_map case_of result)) (reader_of r.new)
        ≡ statements.read_case (reader_of r.old) }
{
    r.skip();
    let at = r.left.at;
    match case_here(r) {
        Some(value) => {
            r.skip();
            r.take_mark(Mark::Colon);
            Some(CaseAt { value, at })
        }
        None => {
            r.fail();
            None
        }
    }
}

// Reads one case after the other.
fn read_cases(r: &mut Reader<'_>, alloc: Global, calls: usize) -> Got<Vec<CaseAt>>
    ensures { IfOk result (λ numbers.
        reading.got (map case_of numbers.items) (reader_of r.new) ≡ statements.read_cases calls (reader_of r.old)) }
{
    let mut numbers = Vec::new(alloc);
    let mut left = calls;
    while left > 0 {
        if !r.sees_word(Keyword::Case) {
            return Ok(numbers);
        }
        left -= 1;
        let number = read_case(r);
        push_some(&mut numbers, number)?;
    }
    Ok(numbers)
}

/// Reads what an arm begins with: `default`, or cases.
pub(crate) fn read_arm_head(r: &mut Reader<'_>, alloc: Global, calls: usize) -> Got<ArmHead>
    ensures { IfOk result (λ head.
        reading.got (arm_head_of head) (reader_of r.new) ≡ statements.read_arm_head calls (reader_of r.old)) }
{
    if r.sees_word(Keyword::Default) {
        let default = Some(r.left.at);
        r.skip();
        r.take_mark(Mark::Colon);
        let numbers = Vec::new(alloc);
        return Ok(ArmHead { numbers, default });
    }
    let numbers = without_spare(read_cases(r, alloc, calls)?);
    let default = None;
    Ok(ArmHead { numbers, default })
}

/// Whether an arm begins here.
pub(crate) fn begins_arm(r: &Reader<'_>) -> bool
    ensures { result ≡ statements.begins_arm (reader_of r.now) }
{
    r.sees_word(Keyword::Case) || r.sees_word(Keyword::Default)
}
