//! What stands in the pieces after what has been read: functions, by their heads, and labels.

ghost use Rattle.std.specs.Prelude.{◌≡◌, ◌++◌, ◌||◌, drop, map, option_map, IfOk, OnOk};
ghost use Rattle.dcc_c.specs.Grammar as grammar;
ghost use Rattle.dcc_c.specs.Known.{known_functions, label_at, labels_before_head};
ghost use Rattle.dcc_c.specs.Known as known;
ghost use Rattle.dcc_c.specs.Reading as reading;
ghost use Rattle.dcc_c.specs.Tree.{Word};
ghost use Rattle.dcc_lex.specs.PiecesViews.{pieces_of};
ghost use Rattle.dcc_lex.specs.TokenViews.{token_of};
ghost use Rattle.dcc_reader.specs.PartialViews.{function_of};
ghost use Rattle.dcc_reader.specs.Heads.{IsHead};
ghost use Rattle.dcc_reader.specs.WordViews.{holds};

use crate::head::head_at;
use crate::partial::PartialFunction;
use crate::token::{begins_type, is_the_mark, is_the_word, name_of};
use crate::words::add_word;
use dcc_lex::{Keyword, Mark, Pieces, Token};
use std::alloc::{AllocError, Global};
use std::collections::BTreeSet;

// The first token of the pieces.
fn first_token<'a, 'b>(pieces: &'a Pieces<'b>) -> Option<&'a Token<'b>>
    ensures { option_map (λ t. token_of t.now) result ≡ reading.first_token (pieces_of pieces.now) }
{
    pieces.first()?.token.as_ref()
}

// The second token of the pieces.
fn second_token<'a>(pieces: &Pieces<'a>) -> Option<Token<'a>>
    ensures { option_map token_of result ≡ reading.first_token (drop 1 (pieces_of pieces.now)) }
{
    pieces.second()?.token
}

// Whether the head of a function may begin with the token.
fn begins_head(token: Option<&Token>) -> bool
    ensures { result ≡ known.begins_head (option_map (λ t. token_of t.now) token.entry) }
{
    is_the_word(token, Keyword::Void) || begins_type(token)
}

// The function whose head the pieces begin with, where it has a name and its opening parenthesis can be read.
fn head_here<'a>(
    alloc: Global,
    pieces: &Pieces<'a>,
) -> Result<Option<PartialFunction<'a>>, AllocError>
    ensures { IfOk result (λ head. IsHead head (known.head_at (pieces_of pieces.now))) }
{
    if !begins_head(first_token(pieces)) {
        return Ok(None);
    }
    let function = head_at(alloc, pieces)?;
    if function.opened.is_some() && function.name.is_some() {
        Ok(Some(function))
    } else {
        Ok(None)
    }
}

// Adds the function whose head the pieces begin with to the list.
fn push_head<'a>(
    alloc: Global,
    pieces: &Pieces<'a>,
    heads: &mut Vec<PartialFunction<'a>>,
) -> Result<(), AllocError>
    ensures { OnOk result (known_functions (map function_of heads.new.items)
        ≡ known_functions (map function_of heads.old.items) ++ known.head_at (pieces_of pieces.now)) }
{
    if let Some(head) = head_here(alloc, pieces)? {
        heads.push(head)?;
    }
    Ok(())
}

/// The functions whose heads stand in the pieces.
///
/// # Errors
///
/// Where memory runs out.
pub fn heads_in<'a>(
    alloc: Global,
    rest: &Pieces<'a>,
) -> Result<Vec<PartialFunction<'a>>, AllocError>
    ensures { IfOk result
        (λ heads. known_functions (map function_of heads.items) ≡ known.heads_in (pieces_of rest.now)) }
{
    let mut heads = Vec::new(alloc);
    let mut left = *rest;
    while left.first().is_some() {
        push_head(alloc, &left, &mut heads)?;
        left.skip();
    }
    Ok(heads)
}

// Adds the name that the pieces begin with to the set, if a colon follows.
fn add_label<'a>(pieces: &Pieces<'a>, words: &mut BTreeSet<&'a str>) -> Result<(), AllocError>
    ensures { OnOk result
        ((word : Word) → holds words.new word
        ≡ grammar.is_among (label_at (reading.first_token (pieces_of pieces.now))
        (reading.first_token (drop 1 (pieces_of pieces.now)))) word || holds words.old word) }
{
    let second = second_token(pieces);
    if is_the_mark(second.as_ref(), Mark::Colon) {
        if let Some(name) = name_of(first_token(pieces)) {
            add_word(words, name)?;
        }
    }
    Ok(())
}

/// Adds the names that a colon follows to the set, up to the next head of a function.
///
/// # Errors
///
/// Where memory runs out.
pub fn add_labels<'a>(
    alloc: Global,
    rest: &Pieces<'a>,
    words: &mut BTreeSet<&'a str>,
) -> Result<(), AllocError>
    ensures { OnOk result ((word : Word) → holds words.new word
        ≡ grammar.is_among (labels_before_head (pieces_of rest.now)) word || holds words.old word) }
{
    let mut left = *rest;
    while left.first().is_some() {
        if head_here(alloc, &left)?.is_some() {
            return Ok(());
        }
        add_label(&left, words)?;
        left.skip();
    }
    Ok(())
}
