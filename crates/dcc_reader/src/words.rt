//! Sets of words.

ghost use Rattle.std.specs.Prelude.{◌≡◌, ◌||◌, OnOk};
ghost use Rattle.dcc_c.specs.Token.{same_bytes};
ghost use Rattle.dcc_c.specs.Tree.{Word};
ghost use Rattle.dcc_reader.specs.WordViews.{holds};

use std::alloc::AllocError;
use std::collections::BTreeSet;

/// Adds a word to the set.
///
/// # Errors
///
/// Where memory runs out.
pub fn add_word<'a>(words: &mut BTreeSet<&'a str>, word: &'a str) -> Result<(), AllocError>
    ensures { OnOk result
        ((other : Word) → holds words.new other ≡ same_bytes other word.now || holds words.old other) }
{
    words.insert(word)?;
    Ok(())
}
