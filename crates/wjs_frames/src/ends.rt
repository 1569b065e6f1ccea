//! The end of a node.
ghost use Rattle.std.specs.Prelude.{◌≡◌};
ghost use Rattle.wjs_meaning.specs.Deeds.{Ret};
ghost use Rattle.wjs_model.specs.Contents.{completion_in};
ghost use Rattle.wjs_model.specs.Soundness.{HasCompletion};
ghost use Rattle.wjs_frames.specs.Parts.{ended};
ghost use Rattle.wjs_frames.specs.Handling.{IsRunning, GoesOn};

use wjs_base::OutOfMemory;
use wjs_model::{Completion, Config, Frame, State};
use wjs_store::WorldStore;

/// Ends what the frame that was taken off ran: the frame below goes on with the completion, or the run ends with it.
#[inline(always)]
pub fn finish<S: WorldStore>(
    config: &mut Config<S>,
    frame: Frame,
    completion: Completion,
) -> Result<(), OutOfMemory>
    requires running { IsRunning S.meaning config.old }
    requires completion { HasCompletion config.old completion }
    ensures { GoesOn S.meaning frame config.old config.new result (λ t env. Ret (completion_in t completion)) }
{
    if config.frames.give(frame, completion) {
        return Ok(());
    }
    config.state = ended(completion);
    Ok(())
}

/// How a run ends where no frame is left.
fn ended(completion: Completion) -> State
    ensures { result ≡ ended completion }
{
    match completion {
        Completion::Throws(value) => State::Threw(value),
        _ => State::Done,
    }
}
