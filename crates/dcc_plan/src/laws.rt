//! Laws of the texts of plans, of calls and returns. Each function only states a law by its contract, and does
//! nothing.

ghost use Rattle.dcc_plan.specs.Laws.{TextsCount};
ghost use Rattle.dcc_ir.specs.Families.{Family};
ghost use Rattle.dcc_text.specs.Holding.{Alike, Setting};
ghost use Rattle.dcc_plan.specs.Laws.{NumberedTextIsText, PlansCount};
ghost use Rattle.dcc_plan.specs.Allowed.{PlanTextsAreAllowed, GotoPlansMayStand};
ghost use Rattle.dcc_plan.specs.AllowedCalls.{CallsAreAllowed, ReturnsAreAllowed, OpeningsAreAllowed};
ghost use Rattle.dcc_plan.specs.CallLaws.{FirstStatesStand, CallsBegin, ReturnsEnd, BracesEnd};
ghost use Rattle.dcc_plan.specs.Calls.{Opens};
ghost use Rattle.dcc_plan.specs.Programs.{Texts, ProgramsCount};

/// The text of a plan is its text after its lines are numbered.
pub fn numbered_text_is_text()
    ensures { NumberedTextIsText }
{}

/// What matters, and what holds of calls that wait.
pub trait SomeMeeting {
    ghost matters: { Family };

    ghost alike: { Alike };
}

/// The text of a valid plan counts the visits of the blocks that it has a step for.
pub fn texts_count<H: SomeMeeting>()
    ensures { TextsCount H.matters H.alike }
{}

/// The text of a valid plan counts the visits of its program.
pub fn plans_count<H: SomeMeeting>()
    ensures { PlansCount H.matters H.alike }
{}

/// What stands for the graphs of a program, and the bytes of arguments that its functions open.
pub trait SomeTexts {
    ghost texts: { Texts };

    ghost opens: { Opens };
}

/// The text of a whole program, with a function for each graph, counts the visits of the blocks that it has a step for.
pub fn programs_count<T: SomeTexts>()
    ensures { ProgramsCount T.opens T.texts }
{}

/// The text of a valid plan is allowed where its items may stand.
pub fn plan_texts_are_allowed()
    ensures { PlanTextsAreAllowed }
{}

/// The items of the completed plan of a text with jumps may stand where they do.
pub fn goto_plans_may_stand()
    ensures { GotoPlansMayStand }
{}

/// What stands for the graphs of a program, and which bytes of argument words their functions open.
pub trait SomeSetting {
    ghost setting: { Setting };

    ghost opens: { Opens };
}

/// The first state of a program's text stands for the program's.
pub fn first_states_stand<S: SomeSetting>()
    ensures { FirstStatesStand S.opens S.setting }
{}

/// A step on the text of a Call, and one for each opening assignment, begin the callee.
pub fn calls_begin<S: SomeSetting>()
    ensures { CallsBegin S.opens S.setting }
{}

/// A step on the text of a Ret goes back to the caller.
pub fn returns_end<S: SomeSetting>()
    ensures { ReturnsEnd S.opens S.setting }
{}

/// A step on the closing brace of a function that gives nothing goes back to the caller.
pub fn braces_end<S: SomeSetting>()
    ensures { BracesEnd S.opens S.setting }
{}

/// The text of a Call is allowed where the text has the callee's function.
pub fn calls_are_allowed()
    ensures { CallsAreAllowed }
{}

/// The text of a Ret is allowed in the function of its graph.
pub fn returns_are_allowed()
    ensures { ReturnsAreAllowed }
{}

/// The opening assignments of a graph's function are allowed in it.
pub fn openings_are_allowed()
    ensures { OpeningsAreAllowed }
{}
