//! The frame that a turn runs.
ghost use Rattle.std.specs.Prelude.{◌≡◌, option_map, true, false};
ghost use Rattle.wjs_model.specs.Begun.{is_due};
ghost use Rattle.wjs_model.specs.Frames.{last};
ghost use Rattle.wjs_model.specs.Soundness.{Sound};
ghost use Rattle.wjs_frames.specs.Taking.{Takes};

use wjs_model::{Config, Frame, Phase, State};
use wjs_store::WorldStore;

/// Takes the frame that runs off, with its step where one is due, and with its phase, which says how it goes on. None where the
/// turn is over: a step is due and none is left, or there is no frame.
#[inline(always)]
pub fn take_top<S: WorldStore>(config: &mut Config<S>) -> Option<(Frame, Phase)>
    requires running { config.old.state ≡ State.Running }
    requires sound { Sound S.meaning config.old }
    ensures { Takes S.meaning config.old result config.new }
{
    if config.frames.is_due() {
        take_due(config)
    } else {
        take_now(config)
    }
}

/// Takes a frame whose step is due. Without a step left it only says so: nothing else changes.
#[inline(always)]
fn take_due<S: WorldStore>(config: &mut Config<S>) -> Option<(Frame, Phase)>
    requires running { config.old.state ≡ State.Running }
    requires sound { Sound S.meaning config.old }
    requires due { is_due (option_map (λ f. f.phase) (last config.old.frames)) ≡ true }
    ensures { Takes S.meaning config.old result config.new }
{
    if config.left == 0 {
        config.state = State::StepsSpent;
        return None;
    }
    config.left -= 1;
    config.frames.pop()
}

/// Takes a frame that needs no step; without a frame the run ends.
#[inline(always)]
fn take_now<S: WorldStore>(config: &mut Config<S>) -> Option<(Frame, Phase)>
    requires running { config.old.state ≡ State.Running }
    requires sound { Sound S.meaning config.old }
    requires due { is_due (option_map (λ f. f.phase) (last config.old.frames)) ≡ false }
    ensures { Takes S.meaning config.old result config.new }
{
    match config.frames.pop() {
        None => {
            config.state = State::Done;
            None
        }
        Some(top) => Some(top),
    }
}
