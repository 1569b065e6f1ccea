//! Turns up to a number of steps.
ghost use Rattle.std.specs.Prelude.{◌≡◌, ◌<◌, ◌≤◌, true, false, OnOk, IfOk};
ghost use Rattle.wjs_model.specs.Soundness.{Sound};
ghost use Rattle.wjs_turns.specs.Going.{Way, WentToStep, again};
ghost use Rattle.wjs_parts.specs.Walking.{Walks};

use wjs_base::OutOfMemory;
use wjs_machine::step;
use wjs_model::{Config, State};
use wjs_store::WorldStore;

/// Takes turns until the run has ended, or until so many steps are taken and one more is due, and gives how many were taken.
///
/// A run that could go on with the steps that are left goes on, with its frames and its output as they stand: nothing of it is
/// written out. After want of memory the configuration isn't used again.
pub fn walk<S: WorldStore>(config: &mut Config<S>, steps: u64) -> Result<u64, OutOfMemory>
    requires running { config.old.state ≡ State.Running }
    requires sound { Sound S.meaning config.old }
    ensures { IfOk result (λ taken. Walks S.meaning steps taken config.old config.new) }
{
    let left = config.left;
    config.left = left.min(steps);
    let taken = walk_out(config)?;
    config.left = left - taken;
    config.state = given_back(config.state, left, steps);
    Ok(taken)
}

/// Takes turns until the run has ended, for want of steps too, and gives how many were taken.
fn walk_out<S: WorldStore>(config: &mut Config<S>) -> Result<u64, OutOfMemory>
    requires running { config.old.state ≡ State.Running }
    requires sound { Sound S.meaning config.old }
    ensures way { IfOk result (λ taken. Way S.meaning taken config.old config.new) }
    ensures ended { OnOk result (¬ (config.new.state ≡ State.Running)) }
{
    let left = config.left;
    while goes_on(config.state) {
        match walk_to_step(config) {
            Ok(()) => {}
            Err(OutOfMemory) => return Err(OutOfMemory),
        }
    }
    Ok(left - config.left)
}

/// Takes turns until a step is taken, or the run has ended.
fn walk_to_step<S: WorldStore>(config: &mut Config<S>) -> Result<(), OutOfMemory>
    requires running { config.old.state ≡ State.Running }
    requires sound { Sound S.meaning config.old }
    ensures { OnOk result (WentToStep S.meaning config.old config.new) }
{
    let left = config.left;
    while goes_on(config.state) && config.left == left {
        match step(config) {
            Ok(()) => {}
            Err(OutOfMemory) => return Err(OutOfMemory),
        }
    }
    Ok(())
}

/// Whether a run goes on.
fn goes_on(state: State) -> bool
    ensures yes { result ≡ true → state ≡ State.Running }
    ensures no { result ≡ false → ¬ (state ≡ State.Running) }
{
    matches!(state, State::Running)
}

/// The state of a run that had more steps left than it could take: if it ended for want of them it goes on.
fn given_back(state: State, left: u64, steps: u64) -> State
    ensures some { steps < left → result ≡ again state }
    ensures none { left ≤ steps → result ≡ state }
{
    if steps < left {
        goes_again(state)
    } else {
        state
    }
}

fn goes_again(state: State) -> State
    ensures { result ≡ again state }
{
    match state {
        State::StepsSpent => State::Running,
        State::Running => State::Running,
        State::Done => State::Done,
        State::Threw(value) => State::Threw(value),
    }
}
