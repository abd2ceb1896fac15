//! Laws on texts and what they stand for, for every text. The functions do nothing: their contracts are proved for
//! every text.

ghost use Rattle.dcc_parse.specs.Laws.{TextsHaveOneTree, PrintedTextsStand, TextsStandOrAreRefused};

/// A text stands for one tree at most.
pub fn texts_have_one_tree()
    ensures { TextsHaveOneTree }
{}

/// What is printed of a tree that a text stands for is a text of the same tree, with its lines counted anew, and is not
/// refused.
pub fn printed_texts_stand()
    ensures { PrintedTextsStand }
{}

/// A text that is not too long stands for a tree or is refused, and not both. It is refused in one line for one kind.
pub fn texts_stand_or_are_refused()
    ensures { TextsStandOrAreRefused }
{}
