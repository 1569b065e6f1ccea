//! Turns of a run that rests between them, while others make texts.
ghost use Rattle.std.specs.Prelude.{◌≡◌, ◌<◌, OnOk, length};
ghost use Rattle.wjs_model.specs.Soundness.{Sound};
ghost use Rattle.wjs_machine_tests.specs.Later.{Leaves};

use wjs_base::OutOfMemory;
use wjs_frames::more_texts_change_nothing;
use wjs_io::Sink;
use wjs_machine::{Halt, advance, step};
use wjs_model::{Config, State};
use wjs_store::WorldStore;

/// Takes a turn. What is left to do is promised under each view that the store admits still, whose slots may have texts that the
/// configuration has not.
pub fn turn<S: WorldStore>(config: &mut Config<S>) -> Result<(), OutOfMemory>
    requires running { config.old.state ≡ State.Running }
    requires sound { Sound S.meaning config.old }
    ensures { OnOk result (Leaves S.meaning config.old config.new) }
{
    step(config)
}

/// Takes a turn, and another where the run goes on.
pub fn two_turns<S: WorldStore>(config: &mut Config<S>) -> Result<(), OutOfMemory>
    requires running { config.old.state ≡ State.Running }
    requires sound { Sound S.meaning config.old }
    ensures { OnOk result (Leaves S.meaning config.old config.new) }
{
    more_texts_change_nothing::<S>();
    turn(config)?;
    match config.state {
        State::Running => turn(config),
        _ => Ok(()),
    }
}

/// Takes a turn whose output is heard: fewer bytes than a piece are pending then. The owner stays.
pub fn turn_heard<S: WorldStore, O: Sink>(config: &mut Config<S>, out: &mut O) -> Result<(), Halt>
    requires running { config.old.state ≡ State.Running }
    requires sound { Sound S.meaning config.old }
    ensures few { OnOk result (length config.new.pending.items < 4096) }
    ensures owner { OnOk result (config.new.owner ≡ config.old.owner) }
{
    advance(config, out)
}
