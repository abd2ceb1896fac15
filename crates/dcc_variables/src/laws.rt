//! Laws of the variables and functions of a text. Each function only states a law by its contract, and does nothing.

ghost use Rattle.dcc_text.specs.Holding.{Alike};
ghost use Rattle.dcc_variables.specs.Addresses.{BodiesTakeWhatStatementsTake, TextsTakeNoAddress};
ghost use Rattle.dcc_variables.specs.FunctionLaws.{FunctionNamesDiffer, FunctionNamesAreDeclared};
ghost use Rattle.dcc_variables.specs.FunctionLaws.{KnownNamesDiffer, OwnNamesDiffer, FunctionsAreServed};
ghost use Rattle.dcc_variables.specs.Laws.{NamesDiffer, NamesAreDeclared, FirstStatesHold, GraphsAreServed};

/// Variables of different locations have different names, and the array has another one.
pub fn names_differ()
    ensures { NamesDiffer }
{}

/// A function with the variables of a graph declares all that the graph's text names.
pub fn names_are_declared()
    ensures { NamesAreDeclared }
{}

/// What holds of calls that wait.
pub trait SomeAlike {
    ghost alike: { Alike };
}

/// The first state of a program's text with the program's first memory stands for the program's.
pub fn first_states_hold<A: SomeAlike>()
    ensures { FirstStatesHold A.alike }
{}

/// What a graph reads and writes has variables, and the addresses that it takes have places.
pub fn graphs_are_served()
    ensures { GraphsAreServed }
{}

/// Variables and parameters of different locations have different names, and the array has another one.
pub fn function_names_differ()
    ensures { FunctionNamesDiffer }
{}

/// A function with the parameters and variables of a graph declares all that the graph's text names.
pub fn function_names_are_declared()
    ensures { FunctionNamesAreDeclared }
{}

/// Global variables that have names of their own, and the functions of a program's graphs, have different names.
pub fn known_names_differ()
    ensures { KnownNamesDiffer }
{}

/// The parameters and variables of each function have names of their own, where the global variables do.
pub fn own_names_differ()
    ensures { OwnNamesDiffer }
{}

/// What a graph reads and writes, with its calls, has names.
pub fn functions_are_served()
    ensures { FunctionsAreServed }
{}

/// A body takes the address of a name where one of its statements does.
pub fn bodies_take_what_statements_take()
    ensures { BodiesTakeWhatStatementsTake }
{}

/// The texts of a graph as a function take the address of no name.
pub fn texts_take_no_address()
    ensures { TextsTakeNoAddress }
{}
