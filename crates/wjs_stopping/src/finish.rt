//! The end of a node whose frame was taken off and that was evaluated at once.
ghost use Rattle.std.specs.Prelude.{◌≡◌, OnOk, Err};
ghost use Rattle.wjs_base.specs.Text.{Table};
ghost use Rattle.wjs_meaning.specs.Deeds.{Ret};
ghost use Rattle.wjs_model.specs.Contents.{completion_in};
ghost use Rattle.wjs_model.specs.Soundness.{HasCompletion, HasValue};
ghost use Rattle.wjs_frames.specs.Following.{Follows};
ghost use Rattle.wjs_frames.specs.Handling.{IsRunning};
ghost use Rattle.wjs_stopping.specs.Ends.{gives_in};
ghost use Rattle.wjs_stopping.specs.Evaluating.{HasOutcome, HasMemory, InMemory, broken_in, outcome_in, HasBroken};

use crate::ends::Broken;
use crate::stops::{Stops, settle};
use wjs_base::{OutOfMemory, Value};
use wjs_frames::finish;
use wjs_model::{Completion, Config, Frame};
use wjs_store::WorldStore;

/// The frame ends with a value, or what stopped is put in its place.
pub fn finish_value<S: WorldStore>(
    config: &mut Config<S>,
    frame: Frame,
    done: Result<Value, Broken>,
    stops: Stops,
) -> Result<(), OutOfMemory>
    requires running { InMemory done (IsRunning S.meaning config.old) }
    requires outcome { HasOutcome S.meaning HasValue config.old done stops.waits stops.top }
    ensures memory { OnOk result (HasMemory done) }
    ensures follows { OnOk result (Follows S.meaning (outcome_in S.meaning config.old gives_in done stops.waits stops.top config.new.heap.texts Ret) config.old config.new) }
{
    match done {
        Ok(value) => finish(config, frame, Completion::Gives(value)),
        Err(end) => finish_broken(config, frame, end, stops),
    }
}

/// The frame ends as its statement did, or what stopped is put in its place.
pub fn finish_end<S: WorldStore>(
    config: &mut Config<S>,
    frame: Frame,
    done: Result<Completion, Broken>,
    stops: Stops,
) -> Result<(), OutOfMemory>
    requires running { InMemory done (IsRunning S.meaning config.old) }
    requires outcome { HasOutcome S.meaning HasCompletion config.old done stops.waits stops.top }
    ensures memory { OnOk result (HasMemory done) }
    ensures follows { OnOk result (Follows S.meaning (outcome_in S.meaning config.old completion_in done stops.waits stops.top config.new.heap.texts Ret) config.old config.new) }
{
    match done {
        Ok(end) => finish(config, frame, end),
        Err(end) => finish_broken(config, frame, end, stops),
    }
}

/// It ends with what was thrown, or what stopped is put in its place.
fn finish_broken<S: WorldStore>(
    config: &mut Config<S>,
    frame: Frame,
    end: Broken,
    stops: Stops,
) -> Result<(), OutOfMemory>
    requires running { InMemory {A = Unit {0}} (Err end) (IsRunning S.meaning config.old) }
    requires outcome { HasBroken S.meaning config.old end stops.waits stops.top }
    ensures memory { OnOk result (HasMemory {A = Unit {0}} (Err end)) }
    ensures follows { OnOk result (Follows S.meaning (broken_in S.meaning config.old end stops.waits stops.top config.new.heap.texts Ret) config.old config.new) }
{
    match end {
        Broken::Throws(value) => finish(config, frame, Completion::Throws(value)),
        Broken::Stopped => {
            config.frames.spare(frame);
            settle(config, stops)
        }
        Broken::OutOfMemory => Err(OutOfMemory),
    }
}
