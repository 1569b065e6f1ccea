//! One turn of a configuration, and its output.
ghost use Rattle.std.specs.Prelude.{◌≡◌, ◌≤◌, OnOk, IfErr};
ghost use Rattle.wjs_io.specs.Streams.{over};
ghost use Rattle.wjs_model.specs.Soundness.{Sound};
ghost use Rattle.wjs_machine.specs.Runs.{Advances, Halts};

use crate::flush::flush;
use crate::steps::step;
use wjs_base::OutOfMemory;
use wjs_io::Sink;
use wjs_model::{Config, Halt, State};
use wjs_store::WorldStore;

/// Takes one turn, and writes pieces of exactly 4,096 bytes until fewer are pending.
///
/// What the turn does it does under each view that the store admits still, and whatever the number of steps that are left; the
/// output changes nothing else. Units, owner, global object and surroundings stay, and texts and objects that were there.
/// SinkFailed comes only where the sink's count of faults rose in this call. After a halt the configuration isn't used again.
#[inline(always)]
pub fn advance<S: WorldStore, O: Sink>(config: &mut Config<S>, out: &mut O) -> Result<(), Halt>
    requires running { config.old.state ≡ State.Running }
    requires sound { Sound S.meaning config.old }
    ensures ok { OnOk result (Advances S.meaning (over O.seen out.old out.new) config.old config.new) }
    ensures err { IfErr result (Halts S.meaning (over O.seen out.old out.new) config.old) }
    ensures never_falls { (O.seen out.old).faults ≤ (O.seen out.new).faults }
{
    match step(config) {
        Ok(()) => {}
        Err(OutOfMemory) => return Err(Halt::OutOfMemory),
    }
    match flush(config, out) {
        Ok(()) => Ok(()),
        Err(_) => Err(Halt::SinkFailed),
    }
}
