//! How bodies of functions end (ECMA-262, 3rd edition, section 13.2.1).
ghost use Rattle.std.specs.Prelude.{◌≡◌, [], drop};
ghost use Rattle.wjs_meaning.specs.Functions as functions;
ghost use Rattle.wjs_meaning.specs.Reading.{node_in};
ghost use Rattle.wjs_meaning.specs.Trees.{elements_of};
ghost use Rattle.wjs_model.specs.Contents.{completion_in};
ghost use Rattle.wjs_model.specs.Soundness.{Base, HasCompletion, HasValue, IsThere};
ghost use Rattle.wjs_model.specs.Standing.{IsFunction};
ghost use Rattle.wjs_frames.specs.Following.{Later};
ghost use Rattle.wjs_frames.specs.Parts.{node_now};
ghost use Rattle.wjs_stopping.specs.Ends.{gives_in};
ghost use Rattle.wjs_stopping.specs.Evaluating.{Evaluates, HasOutcome, InMemory};
ghost use Rattle.wjs_direct_lines.specs.Deeds.{line_here};

use wjs_base::Value;
use wjs_model::{CallPoint, Completion, Config, Frame, Phase, Point};
use wjs_stopping::{Broken, Stops, stop};
use wjs_store::WorldStore;

/// How a body ends by an element before the one of a number that did not end normally: a return gives its value. What no body ends with
/// is left to its frame.
pub fn body_ended<S: WorldStore>(
    config: &mut Config<S>,
    frame: &Frame,
    next: u32,
    end: Completion,
    stops: &mut Stops,
) -> Result<Value, Broken>
    requires base { Base S.meaning config.old }
    requires there { IsThere S.meaning config.old frame.now }
    requires body { IsFunction config.old.units.items config.old.heap.arena frame.now.tree frame.now.node frame.now.scope 1 }
    requires empty { stops.old.waits ≡ [] }
    requires end { HasCompletion config.old end }
    ensures later { InMemory result (Later S.meaning config.old config.new) }
    ensures found { HasOutcome S.meaning HasValue config.new result stops.new.waits stops.new.top }
    ensures does { Evaluates S.meaning (line_here S.meaning config.old frame.now
        (λ t env. functions.body_next (functions.body_from (drop next (elements_of (node_in t (node_now S.meaning config.old frame.now)))) env) (completion_in t end)))
        gives_in result stops.new.waits stops.new.top config.old config.new }
{
    match end {
        Completion::Returns(value) => Ok(value),
        Completion::Throws(error) => Err(Broken::Throws(error)),
        _ => {
            let phase = Phase::Given(Point::Call(CallPoint::BodyElement(next)), end);
            Err(stop(config, frame, frame.node(), phase, stops))
        }
    }
}
