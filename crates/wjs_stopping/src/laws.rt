//! Laws of evaluations that end or stop, each the contract of a function that does nothing.
ghost use Rattle.wjs_stopping.specs.Stopping.{FramesDoWhatStopped, FramesTakeNoMoreTurns, StoppedAreKept};
ghost use Rattle.wjs_model.specs.Contents.{completion_in};
ghost use Rattle.wjs_stopping.specs.Ends.{gives_in};
ghost use Rattle.wjs_stopping.specs.Composing.{DueStops, EntryIsPaid, FormIsLine, FormIsNested, GivenStops, LineEnds, PartGoesOn, PartWaits, StopsFollow};

use wjs_store::WorldStore;

/// What is left of a run whose last frames are these is what is left of their deeds above the others.
pub fn frames_do_what_stopped()
    ensures { FramesDoWhatStopped }
{}

/// They take no more turns.
pub fn frames_take_no_more_turns()
    ensures { FramesTakeNoMoreTurns }
{}

/// Put on the others, their deeds are what the configuration goes on with.
pub fn stopped_are_kept<S: WorldStore>()
    ensures { StoppedAreKept S.meaning }
{}

/// A part stops at its entry.
pub fn due_stops<S: WorldStore>()
    ensures value { DueStops S.meaning gives_in }
    ensures completion { DueStops S.meaning completion_in }
{}

/// A node stops at a point with a completion.
pub fn given_stops<S: WorldStore>()
    ensures value { GivenStops S.meaning gives_in }
    ensures completion { GivenStops S.meaning completion_in }
{}

/// Where a part broke off, its node waits, or hands on what was thrown.
pub fn part_waits<S: WorldStore>()
    ensures value { PartWaits S.meaning gives_in gives_in }
    ensures value_completion { PartWaits S.meaning gives_in completion_in }
    ensures completion { PartWaits S.meaning completion_in completion_in }
{}

/// Where a part ended, the next line goes on.
pub fn part_goes_on<S: WorldStore>()
    ensures value { PartGoesOn S.meaning gives_in gives_in }
    ensures value_completion { PartGoesOn S.meaning gives_in completion_in }
    ensures completion { PartGoesOn S.meaning completion_in completion_in }
{}

/// A line that comes to its end.
pub fn line_ends<S: WorldStore>()
    ensures value { LineEnds S.meaning gives_in }
    ensures completion { LineEnds S.meaning completion_in }
{}

/// The step of an entry is paid.
pub fn entry_is_paid<S: WorldStore>()
    ensures value { EntryIsPaid S.meaning gives_in }
    ensures completion { EntryIsPaid S.meaning completion_in }
{}

/// A form within nested deeds.
pub fn form_is_nested<S: WorldStore>()
    ensures value { FormIsNested S.meaning gives_in }
    ensures completion { FormIsNested S.meaning completion_in }
{}

/// A form in the place of a frame.
pub fn form_is_line<S: WorldStore>()
    ensures value { FormIsLine S.meaning gives_in }
    ensures completion { FormIsLine S.meaning completion_in }
{}

/// Frames that stopped are followed.
pub fn stops_follow<S: WorldStore>()
    ensures { StopsFollow S.meaning }
{}
