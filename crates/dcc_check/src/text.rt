//! The first offence of a whole text.

ghost use Rattle.std.specs.Prelude.{◌≡◌, ◌++◌, Bool, true, List, [], map, option_map, Option, IfOk, OnOk};
ghost use Rattle.std.specs.Prelude.{if◌then◌else◌};
ghost use Rattle.dcc_c.specs.Grammar as grammar;
ghost use Rattle.dcc_c.specs.Dos.{dos_names};
ghost use Rattle.dcc_c.specs.Kinds.{first_of};
ghost use Rattle.dcc_c.specs.Known as known;
ghost use Rattle.dcc_c.specs.Offences.{label_list, repeated};
ghost use Rattle.dcc_c.specs.Partial as partial;
ghost use Rattle.dcc_c.specs.Pieces as pieces;
ghost use Rattle.dcc_c.specs.TextOffences as offences;
ghost use Rattle.dcc_c.specs.Tree.{Word};
ghost use Rattle.dcc_lex.specs.PiecesViews.{pieces_of};
ghost use Rattle.dcc_reader.specs.OffenceViews.{offence_of};
ghost use Rattle.dcc_reader.specs.PartialViews.{number_of, word_of, function_of, lines_of, text_of};
ghost use Rattle.dcc_c.specs.Offences.{lines_offences};
ghost use Rattle.dcc_c.specs.Typing.{declared_as};
ghost use Rattle.dcc_check.specs.Declarations.{held_head};
ghost use Rattle.dcc_check.specs.Names.{lent_names};
ghost use Rattle.dcc_ctypes.specs.NameViews.{unnamed};
ghost use Rattle.dcc_reader.specs.WordViews.{holds};
ghost use Rattle.dcc_check.specs.Contexts.{held, head_of};
ghost use Rattle.dcc_check.specs.Wholes.{IsWhole, labels_if, own_names};
ghost use Rattle.dcc_reader.specs.Told.{Tells};

use crate::check_block::check_body;
use crate::context::{BodyContext, Scope, Signature, add_dos, add_functions, declare};
use crate::names::{
    add_words, dos_words, function_names, known_names, tell_repeated, variable_names,
};
use crate::places::{Stack, tell_globals, tell_sizes};
use dcc_ctypes::Declared;
use dcc_lex::{Pieces, same_text};
use dcc_reader::labels::push_labels;
use dcc_reader::unread::{add_labels, heads_in};
use dcc_reader::{First, NumberAt, Offence, ParseKind, PartialFunction, PartialText, WordAt};
use std::alloc::{AllocError, Global};
use std::collections::{BTreeMap, BTreeSet};

// What the whole text knows.
#[derive(Drop)]
struct Whole<'a> {
    /// The names of global variables and of functions, DOS calls among them.
    words: BTreeSet<&'a str>,
    /// The global variables.
    globals: BTreeMap<&'a str, Declared>,
    /// The functions, with their signatures where their heads could be read.
    functions: BTreeMap<&'a str, Option<Signature>>,
}

// The names of global variables and of functions. `heads` are the functions after what has been read.
fn words_of<'r, 'a>(
    alloc: Global,
    text: &'r PartialText<'a>,
    heads: &'r [PartialFunction<'a>],
) -> Result<BTreeSet<&'a str>, AllocError>
    ensures { (rest : List pieces.Piece) → known.known_functions (map function_of heads.now) ≡ known.heads_in rest →
        IfOk result (λ words. (word : Word) →
        holds words word ≡ grammar.is_among (offences.known_in (text_of text.now) rest).words word) }
{
    let mut names = Vec::new(alloc);
    variable_names(&text.globals, &mut names)?;
    known_names(&text.functions, &mut names)?;
    known_names(heads, &mut names)?;
    let mut words = dos_words(alloc)?;
    add_words(&mut words, &names)?;
    Ok(words)
}

// The functions, first the DOS calls.
fn functions_of<'a>(
    alloc: Global,
    text: &PartialText<'a>,
    heads: &[PartialFunction<'a>],
) -> Result<BTreeMap<&'a str, Option<Signature>>, AllocError>
    ensures { (rest : List pieces.Piece) → known.known_functions (map function_of heads.now) ≡ known.heads_in rest →
        IfOk result (λ functions. (word : Word) → held_head functions word
        ≡ option_map head_of (known.known_as (offences.known_in (text_of text.now) rest).functions word)) }
{
    let mut functions = BTreeMap::new(alloc);
    add_dos(alloc, &mut functions)?;
    add_functions(alloc, &mut functions, &text.functions)?;
    add_functions(alloc, &mut functions, heads)?;
    Ok(functions)
}

// What the whole text knows. `heads` are the functions after what has been read.
fn known_of<'r, 'a>(
    alloc: Global,
    text: &'r PartialText<'a>,
    heads: &'r [PartialFunction<'a>],
) -> Result<Whole<'a>, AllocError>
    ensures { (rest : List pieces.Piece) → known.known_functions (map function_of heads.now) ≡ known.heads_in rest →
        IfOk result (λ w. IsWhole w (offences.known_in (text_of text.now) rest)) }
{
    let words = words_of(alloc, text, heads)?;
    let mut globals = BTreeMap::new(alloc);
    declare(&mut globals, Scope::Text, &text.globals)?;
    let functions = functions_of(alloc, text, heads)?;
    Ok(Whole {
        words,
        globals,
        functions,
    })
}

// Tells a number of the stack line that is beyond memory.
fn tell_stack(number: Option<NumberAt>, first: &mut First)
    ensures { Tells first.old first.new (offences.stack_offences (option_map number_of number)) }
{
    if let Some(number) = number {
        first.tell_if(65535 < number.value, ParseKind::Place, number.at);
    }
}

// The number, or 0.
fn number_or_zero(number: Option<NumberAt>) -> u64
    ensures { result ≡ offences.number_or_zero (option_map number_of number) }
{
    match number {
        Some(number) => u64::from(number.value),
        None => 0,
    }
}

// Tells a name other than `start`.
fn tell_unless_start(name: &Option<WordAt>, first: &mut First)
    ensures { Tells first.old first.new (offences.not_named_start (option_map word_of name.now)) }
{
    if let Some(name) = name {
        let is_start = same_text(name.word, "start");
        first.tell_if(!is_start, ParseKind::Name, name.at);
    }
}

// Tells what differs from `void start(void)` in the first function.
fn tell_start(functions: &[PartialFunction], first: &mut First)
    ensures { Tells first.old first.new (offences.start_offences (map function_of functions.now)) }
{
    if let Some(function) = functions.first() {
        if let Some(inside) = function.opened {
            first.tell_if(function.has_result, ParseKind::Name, function.at);
            tell_unless_start(&function.name, first);
            first.tell_if(!function.without_params, ParseKind::Name, inside);
        }
    }
}

// Tells names of global variables and of functions that are taken.
fn tell_names(alloc: Global, text: &PartialText, first: &mut First) -> Result<(), AllocError>
    ensures { OnOk result
        (Tells first.old first.new
        (repeated dos_names (offences.name_list (text_of text.now).globals
        ++ offences.function_names (text_of text.now).functions))) }
{
    let mut names = Vec::new(alloc);
    variable_names(&text.globals, &mut names)?;
    function_names(&text.functions, &mut names)?;
    let taken = dos_words(alloc)?;
    tell_repeated(alloc, &taken, &names, first)
}

// Tells names of parameters and local variables that are taken.
fn tell_variables(
    alloc: Global,
    words: &BTreeSet<&str>,
    function: &PartialFunction,
    first: &mut First,
) -> Result<(), AllocError>
    ensures { (known : List Word) → ((word : Word) → holds words.now word ≡ grammar.is_among known word) →
        OnOk result (Tells first.old first.new
        (repeated known (offences.name_list (function_of function.now).params
        ++ offences.name_list (function_of function.now).locals))) }
{
    let mut names = Vec::new(alloc);
    variable_names(&function.params, &mut names)?;
    variable_names(&function.locals, &mut names)?;
    tell_repeated(alloc, words, &names, first)
}

// Tells labels that stand twice.
fn tell_labels(alloc: Global, labels: &[&WordAt], first: &mut First) -> Result<(), AllocError>
    ensures { OnOk result (Tells first.old first.new (repeated [] (lent_names labels.now))) }
{
    let none = BTreeSet::new(alloc);
    tell_repeated(alloc, &none, labels, first)
}

// The words of labels; with `is_last`, also of the labels after what has been read.
fn label_words<'a>(
    alloc: Global,
    labels: &[&WordAt<'a>],
    is_last: bool,
    rest: &Pieces<'a>,
) -> Result<BTreeSet<&'a str>, AllocError>
    ensures { IfOk result (λ words. (word : Word) → holds words word
        ≡ grammar.is_among (offences.words_of (lent_names labels.now) ++ labels_if is_last (pieces_of rest.now)) word) }
{
    let mut words = BTreeSet::new(alloc);
    if is_last {
        add_labels(alloc, rest, &mut words)?;
    }
    add_words(&mut words, labels)?;
    Ok(words)
}

// The parameters and the local variables of a function.
fn locals_of<'a>(
    alloc: Global,
    function: &PartialFunction<'a>,
) -> Result<BTreeMap<&'a str, Declared>, AllocError>
    ensures { IfOk result (λ locals. (word : Word) → held locals word
        ≡ option_map unnamed (declared_as (own_names (function_of function.now)) word)) }
{
    let mut locals = BTreeMap::new(alloc);
    declare(&mut locals, Scope::Head, &function.params)?;
    declare(&mut locals, Scope::Body, &function.locals)?;
    Ok(locals)
}

// Tells what offends in the body of a function; `labels` are those of its statements.
fn check_statements<'a>(
    alloc: Global,
    whole: &Whole<'a>,
    function: &PartialFunction<'a>,
    labels: &BTreeSet<&'a str>,
    first: &mut First,
) -> Result<(), AllocError>
    ensures { (w : offences.Whole) (more : List Word) → IsWhole whole.now w →
        ((word : Word) → holds labels.now word
        ≡ grammar.is_among (offences.words_of (label_list (lines_of function.now.body.items)) ++ more) word) →
        OnOk result (Tells first.old first.new
        (lines_offences (offences.scene_of w more (function_of function.now)) 0 (lines_of function.now.body.items))) }
{
    let locals = locals_of(alloc, function)?;
    let scene = BodyContext {
        locals: &locals,
        globals: &whole.globals,
        functions: &whole.functions,
        labels,
        has_result: function.has_result,
        result: function.result,
    };
    check_body(alloc, &scene, &function.body, first)?;
    Ok(())
}

// Tells what offends in a function. With `is_last`, labels may stand after what has been read.
fn check_function<'a>(
    alloc: Global,
    whole: &Whole<'a>,
    function: &PartialFunction<'a>,
    is_last: bool,
    rest: &Pieces<'a>,
    first: &mut First,
) -> Result<(), AllocError>
    ensures { (w : offences.Whole) → IsWhole whole.now w →
        OnOk result (Tells first.old first.new
        (offences.function_offences w (labels_if is_last (pieces_of rest.now)) (function_of function.now))) }
{
    tell_variables(alloc, &whole.words, function, first)?;
    tell_sizes(&function.locals, first);
    let mut labels = Vec::new(alloc);
    push_labels(&function.body, &mut labels)?;
    tell_labels(alloc, &labels, first)?;
    let words = label_words(alloc, &labels, is_last, rest)?;
    check_statements(alloc, whole, function, &words, first)?;
    Ok(())
}

// Tells what offends in functions.
fn check_functions<'a>(
    alloc: Global,
    whole: &Whole<'a>,
    functions: &[PartialFunction<'a>],
    rest: &Pieces<'a>,
    first: &mut First,
) -> Result<(), AllocError>
    ensures { (w : offences.Whole) → IsWhole whole.now w → w.labels ≡ known.labels_before_head (pieces_of rest.now) →
        OnOk result (Tells first.old first.new (offences.functions_offences w (map function_of functions.now))) }
{
    for i in 0..functions.len() {
        let is_last = i + 1 == functions.len();
        check_function(alloc, whole, &functions[i], is_last, rest, first)?;
    }
    Ok(())
}

/// The first offence of what has been read of a text, where reading stopped at `stop` and `rest` has not been read.
///
/// # Errors
///
/// Want of memory.
pub fn first_offence<'a>(
    alloc: Global,
    text: &PartialText<'a>,
    stop: Option<Offence>,
    rest: &Pieces<'a>,
) -> Result<Option<Offence>, AllocError>
    ensures { IfOk result
        (λ o. option_map offence_of o
        ≡ first_of (offences.stop_offences (option_map offence_of stop)
        ++ offences.text_offences (text_of text.now) (pieces_of rest.now))) }
{
    let heads = heads_in(alloc, rest)?;
    let whole = known_of(alloc, &*text, &heads)?;
    let mut first = First { offence: stop };
    tell_stack(text.lo, &mut first);
    tell_stack(text.hi, &mut first);
    tell_names(alloc, text, &mut first)?;
    let stack = Stack {
        lo: number_or_zero(text.lo),
        hi: number_or_zero(text.hi),
    };
    tell_globals(alloc, stack, &text.globals, &mut first)?;
    tell_start(&text.functions, &mut first);
    let left = &*rest;
    check_functions(alloc, &whole, &text.functions, left, &mut first)?;
    Ok(first.offence)
}
