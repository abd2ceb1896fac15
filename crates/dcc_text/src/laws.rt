//! Laws of the text of expressions and statements. Each function only states a law by its contract, and does nothing.

ghost use Rattle.dcc_text.specs.Holding.{Locations, Alike};
ghost use Rattle.dcc_text.specs.Laws.{ExpressionsMean, ExpressionsAreShallow};
ghost use Rattle.dcc_text.specs.Laws.{ExpressionsReadTheirNames, StatementsStep};
ghost use Rattle.dcc_text.specs.Allowed.{ExpressionsAreAllowed, StatementsAreAllowed};

/// The text of an expression gives the expression's value, in each way.
pub fn expressions_mean()
    ensures { ExpressionsMean }
{}

/// The text of an expression has at most six levels for each of the expression's.
pub fn expressions_are_shallow()
    ensures { ExpressionsAreShallow }
{}

/// The text of an expression reads just what the expression reads.
pub fn expressions_read_their_names()
    ensures { ExpressionsReadTheirNames }
{}

/// The locations that are held before and after a statement, and what holds of calls that wait.
pub trait SomeHolding {
    ghost before: { Locations };

    ghost after: { Locations };

    ghost alike: { Alike };
}

/// One step of the text does what a statement does that is no call, and faults where it does.
pub fn statements_step<H: SomeHolding>()
    ensures { StatementsStep H.before H.after H.alike }
{}

/// The text of an expression is allowed where the names of the spelling are declared.
pub fn expressions_are_allowed()
    ensures { ExpressionsAreAllowed }
{}

/// The text of a statement that is no call is allowed where the names of the spelling are declared.
pub fn statements_are_allowed()
    ensures { StatementsAreAllowed }
{}
