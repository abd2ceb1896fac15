//! Laws of plans. Each function only states a law by its contract, and does nothing.

ghost use Rattle.dcc_control.specs.Complete.{CompletePlansAreValid, CompletePlansKeepSteps};
ghost use Rattle.dcc_control.specs.Told.{ToldLoopsAreValid, ToldLoopsKeepSteps};
ghost use Rattle.dcc_control.specs.Laws.{CompletePlansNestAlike, GotoPlanIsValid, WeakerBegun};

/// The plan of a text with jumps is a valid plan of its graph.
pub fn goto_plan_is_valid()
    ensures { GotoPlanIsValid }
{}

/// A completed plan is a plan of the same graph.
pub fn complete_plans_are_valid()
    ensures { CompletePlansAreValid }
{}

/// The text of a completed plan has a step for the same blocks.
pub fn complete_plans_keep_steps()
    ensures { CompletePlansKeepSteps }
{}

/// A completed plan nests as deep as the plan.
pub fn complete_plans_nest_alike()
    ensures { CompletePlansNestAlike }
{}

/// A plan stays valid where fewer blocks have a step at their begin, and more have a label.
pub fn weaker_begun()
    ensures { WeakerBegun }
{}

/// A plan whose loops are told by their tests is a plan of the same graph.
pub fn told_loops_are_valid()
    ensures { ToldLoopsAreValid }
{}

/// The text of a plan whose loops are told by their tests has a step for the same blocks.
pub fn told_loops_keep_steps()
    ensures { ToldLoopsKeepSteps }
{}
