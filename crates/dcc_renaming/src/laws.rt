//! Laws of texts with new names. The functions do nothing: their contracts are proved for every text.

ghost use Rattle.dcc_renaming.specs.Alike.{RenamedTextsRunAlike, RenamedTreesHaveTexts};

/// A text has the same events and the same end after each number of steps as after changes of names of which none is
/// at fault.
pub fn renamed_texts_run_alike()
    ensures { RenamedTextsRunAlike }
{}

/// The tree of a text, after changes of names of which none is at fault, has a text: its written form.
pub fn renamed_trees_have_texts()
    ensures { RenamedTreesHaveTexts }
{}
