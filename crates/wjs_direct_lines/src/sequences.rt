//! Ends of elements that the frame of a sequence is given (ECMA-262, 3rd edition, sections 12.1 and 14).
ghost use Rattle.std.specs.Prelude.{◌≡◌, []};
ghost use Rattle.wjs_model.specs.Contents.{completion_in};
ghost use Rattle.wjs_model.specs.Soundness.{Base, HasCompletion, IsThere};
ghost use Rattle.wjs_frames.specs.Following.{Later};
ghost use Rattle.wjs_effects.specs.Sequences.{SequenceStands};
ghost use Rattle.wjs_stopping.specs.Evaluating.{Evaluates, HasOutcome, InMemory};
ghost use Rattle.wjs_direct_lines.specs.Deeds.{line_here};
ghost use Rattle.wjs_direct_lines.specs.Sequences.{behind};

use wjs_effects::{Sequence, waiting_point};
use wjs_model::{Completion, Config, Frame, Phase};
use wjs_stopping::{Broken, Stops, stop};
use wjs_store::WorldStore;

/// The frame is given the end of the element before a number.
pub fn given<S: WorldStore>(
    config: &mut Config<S>,
    frame: &Frame,
    kind: Sequence,
    next: u32,
    end: Completion,
    stops: &mut Stops,
) -> Result<Completion, Broken>
    requires base { Base S.meaning config.old }
    requires there { IsThere S.meaning config.old frame.now }
    requires stands { SequenceStands config.old frame.now kind }
    requires end { HasCompletion config.old end }
    requires empty { stops.old.waits ≡ [] }
    ensures later { InMemory result (Later S.meaning config.old config.new) }
    ensures found { HasOutcome S.meaning HasCompletion config.new result stops.new.waits stops.new.top }
    ensures does { Evaluates S.meaning (line_here S.meaning config.old frame.now
        (λ t env. behind S.meaning config.old frame.now kind next t env (completion_in t end)))
        completion_in result stops.new.waits stops.new.top config.old config.new }
{
    let phase = Phase::Given(waiting_point(kind, next), end);
    Err(stop(config, frame, frame.node(), phase, stops))
}
