//! Laws of spellings. The functions do nothing: their contracts are proved for every operation of the table.

ghost use Rattle.dcc_reread.specs.Laws.{SpellingIsReadBack, SpellingIsUnique};

/// An operation of the table is read back from its spelling.
pub fn spelling_is_read_back()
    ensures { SpellingIsReadBack }
{}

/// Two operations of the table that have one spelling are one.
pub fn spelling_is_unique()
    ensures { SpellingIsUnique }
{}
