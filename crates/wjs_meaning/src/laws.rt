//! Laws of the meaning, each the contract of a function that does nothing.
ghost use Rattle.wjs_meaning.specs.Laws.{StepsNeverRise, DepthIsEnough, GoalsAreTheirEntries, BudgetLaw};

/// No goal gives steps back.
pub fn steps_never_rise()
    ensures { StepsNeverRise }
{}

/// The meaning is taken to a depth, and a depth of as many as the steps is enough.
pub fn depth_is_enough()
    ensures { DepthIsEnough }
{}

/// A goal takes one step, and then does what its form says.
pub fn goals_are_their_entries()
    ensures { GoalsAreTheirEntries }
{}

/// With a greater budget the output begins with that of the smaller budget, and an ending other than for want of steps
/// stays, with its output and its final state.
pub fn budget_law()
    ensures { BudgetLaw }
{}
