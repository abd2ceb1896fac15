//! Names, and those that are taken.

ghost use Rattle.std.specs.Prelude.{◌≡◌, ◌++◌, ◌||◌, not, List, map, IfOk, OnOk};
ghost use Rattle.dcc_c.specs.Dos.{dos_names};
ghost use Rattle.dcc_c.specs.Grammar as grammar;
ghost use Rattle.dcc_c.specs.Known.{known_functions};
ghost use Rattle.dcc_c.specs.Offences.{repeated};
ghost use Rattle.dcc_c.specs.TextOffences as offences;
ghost use Rattle.dcc_c.specs.Token.{same_bytes};
ghost use Rattle.dcc_c.specs.Tree.{Word};
ghost use Rattle.dcc_reader.specs.PartialViews.{variable_of, function_of};
ghost use Rattle.dcc_check.specs.Names.{lent_names};
ghost use Rattle.dcc_reader.specs.WordViews.{holds};
ghost use Rattle.dcc_reader.specs.Told.{Tells};

use dcc_reader::words::add_word;
use dcc_reader::{First, ParseKind, PartialFunction, PartialVariable, WordAt};
use std::alloc::{AllocError, Global};
use std::collections::BTreeSet;

/// Adds the names of variables to the list.
pub(crate) fn variable_names<'r, 'a>(
    variables: &'r [PartialVariable<'a>],
    names: &mut Vec<&'r WordAt<'a>>,
) -> Result<(), AllocError>
    ensures { OnOk result (lent_names names.new.items
        ≡ lent_names names.old.items ++ offences.name_list (map variable_of variables.now)) }
{
    for variable in variables {
        if let Some(name) = &variable.name {
            names.push(name)?;
        }
    }
    Ok(())
}

/// Adds the names of functions to the list.
pub fn function_names<'r, 'a>(
    functions: &'r [PartialFunction<'a>],
    names: &mut Vec<&'r WordAt<'a>>,
) -> Result<(), AllocError>
    ensures { OnOk result (lent_names names.new.items
        ≡ lent_names names.old.items ++ offences.function_names (map function_of functions.now)) }
{
    for function in functions {
        if let Some(name) = &function.name {
            names.push(name)?;
        }
    }
    Ok(())
}

/// Adds the names of those functions to the list whose opening parenthesis was read.
pub(crate) fn known_names<'r, 'a>(
    functions: &'r [PartialFunction<'a>],
    names: &mut Vec<&'r WordAt<'a>>,
) -> Result<(), AllocError>
    ensures { OnOk result
        (offences.words_of (lent_names names.new.items)
        ≡ offences.words_of (lent_names names.old.items)
        ++ map (λ k. k.name) (known_functions (map function_of functions.now))) }
{
    for function in functions {
        if function.opened.is_some() {
            if let Some(name) = &function.name {
                names.push(name)?;
            }
        }
    }
    Ok(())
}

/// Adds the words of names to the set.
pub fn add_words<'a>(words: &mut BTreeSet<&'a str>, names: &[&WordAt<'a>]) -> Result<(), AllocError>
    ensures { OnOk result ((word : Word) → holds words.new word
        ≡ grammar.is_among (offences.words_of (lent_names names.now)) word || holds words.old word) }
{
    for name in names {
        add_word(words, name.word)?;
    }
    Ok(())
}

/// Tells each name of the list that is taken, or that stands twice in it.
pub(crate) fn tell_repeated(
    alloc: Global,
    taken: &BTreeSet<&str>,
    names: &[&WordAt],
    first: &mut First,
) -> Result<(), AllocError>
    ensures { (known : List Word) → ((word : Word) → holds taken.now word ≡ grammar.is_among known word) →
        OnOk result (Tells first.old first.new (repeated known (lent_names names.now))) }
{
    let mut own = BTreeSet::new(alloc);
    for name in names {
        let word = name.word;
        let is_new = add_new(&mut own, word)?;
        first.tell_if(is_repeated(taken, is_new, word), ParseKind::Name, name.at);
    }
    Ok(())
}

// Adds a word to the set, and tells whether it is new.
fn add_new<'a>(words: &mut BTreeSet<&'a str>, word: &'a str) -> Result<bool, AllocError>
    ensures added { OnOk result
        ((other : Word) → holds words.new other ≡ same_bytes other word.now || holds words.old other) }
    ensures new { IfOk result (λ is_new. is_new ≡ not (holds words.old word.now)) }
{
    Ok(words.insert(word)?)
}

// Whether a word is not new, or taken.
fn is_repeated(taken: &BTreeSet<&str>, is_new: bool, word: &str) -> bool
    ensures { result ≡ not is_new || holds taken.now word.now }
{
    !is_new || taken.contains(word)
}

/// The names of the DOS calls.
pub(crate) fn dos_words<'a>(alloc: Global) -> Result<BTreeSet<&'a str>, AllocError>
    ensures { IfOk result (λ words. (word : Word) → holds words word ≡ grammar.is_among dos_names word) }
{
    let mut words = BTreeSet::new(alloc);
    add_word(&mut words, "dos_exit")?;
    add_word(&mut words, "dos_puts")?;
    add_word(&mut words, "dos_getch")?;
    add_word(&mut words, "dos_getche")?;
    add_word(&mut words, "dos_putc")?;
    Ok(words)
}
