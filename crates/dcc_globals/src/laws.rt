//! Laws of the global variables of a text. Each function only states a law by its contract, and does nothing.

ghost use Rattle.dcc_globals.specs.Laws.{GlobalsAreAllowed, GlobalsHaveNames, GlobalsAreWritable};
ghost use Rattle.dcc_globals.specs.Laws.{FirstMemoriesAreEqual};

/// The global variables end within memory, have room for what they hold at first, lie apart and off the stack.
pub fn globals_are_allowed()
    ensures { GlobalsAreAllowed }
{}

/// The global variables have names of their own.
pub fn globals_have_names()
    ensures { GlobalsHaveNames }
{}

/// The written form of a text can hold the global variables.
pub fn globals_are_writable()
    ensures { GlobalsAreWritable }
{}

/// The first memory of a text with the global variables of a program's data segment is the program's.
pub fn first_memories_are_equal()
    ensures { FirstMemoriesAreEqual }
{}
