//! Laws of what is followed and of what is left to do, each the contract of a function that does nothing.
ghost use Rattle.wjs_frames.specs.Shortening.{NestedEndsShorten, ShorterFollow, LooksFollow};
ghost use Rattle.wjs_frames.specs.Paying.{StepPaid};
ghost use Rattle.wjs_frames.specs.Growing.{MoreTextsChangeNothing, MoreTextsOutsideChangeNothing};
ghost use Rattle.wjs_frames.specs.Reaching.{TurnsReach, ReachedIsReached};

use wjs_store::WorldStore;

/// Nested deeds that are at their end come to what comes after them, in fewer turns.
pub fn nested_ends_shorten()
    ensures { NestedEndsShorten }
{}

/// What follows deeds follows those that come to the same in more turns.
pub fn shorter_follow<S: WorldStore>()
    ensures { ShorterFollow S.meaning }
{}

/// What follows the deeds that come after a look at the objects that are there follows the look with them.
pub fn looks_follow<S: WorldStore>()
    ensures { LooksFollow S.meaning }
{}

/// Where a step is left, what follows a goal's entry with one less follows the goal.
pub fn step_paid<S: WorldStore>()
    ensures { StepPaid S.meaning }
{}

/// What is left to do of a sound configuration is the same under its texts as under a table that has grown from them, and so
/// are the turns before the next step that is due.
pub fn more_texts_change_nothing<S: WorldStore>()
    ensures { MoreTextsChangeNothing S.meaning }
{}

/// It is the same too where the table of what stands outside has grown.
pub fn more_texts_outside_change_nothing<S: WorldStore>()
    ensures { MoreTextsOutsideChangeNothing S.meaning }
{}

/// What was left with the steps that were left before a turn is what is left with those after it; and steps are taken, or there
/// are fewer turns before the next step, or the run has ended.
pub fn turns_reach<S: WorldStore>()
    ensures { TurnsReach S.meaning }
{}

/// Turns one after another keep together what each of them keeps.
pub fn reached_is_reached<S: WorldStore>()
    ensures { ReachedIsReached S.meaning }
{}
