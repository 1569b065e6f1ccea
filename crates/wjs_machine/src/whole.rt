//! The run of a configuration to its end.
ghost use Rattle.std.specs.Prelude.{◌≡◌, ◌≤◌, true, false, OnOk, IfErr};
ghost use Rattle.wjs_io.specs.Streams.{over};
ghost use Rattle.wjs_model.specs.Soundness.{Sound};
ghost use Rattle.wjs_machine.specs.Runs.{RunsTo, Reaches, ReachesStep, HaltsAfter, ending_of};

use crate::flush::flush_all;
use crate::turn::advance;
use wjs_io::Sink;
use wjs_model::{Config, Ending, Halt, State};
use wjs_store::WorldStore;

/// Runs a configuration to its end, and writes its output as it comes, in pieces of at most 4,096 bytes.
///
/// Done, Threw and StepsSpent come exactly where the meaning of the configuration ends so, and the actions that the store then
/// tells are those of the meaning; what every turn keeps of the configuration is kept then. SinkFailed comes only where the sink's
/// count of faults rose in this call, with a front of the output written; OutOfMemory where memory ran out.
pub fn run<S: WorldStore, O: Sink>(config: &mut Config<S>, out: &mut O) -> Ending
    requires sound { Sound S.meaning config.old }
    ensures ends { RunsTo S.meaning (over O.seen out.old out.new) config.old config.new result }
    ensures never_falls { (O.seen out.old).faults ≤ (O.seen out.new).faults }
{
    match run_turns(config, out) {
        Ok(()) => finish(config, out),
        Err(Halt::SinkFailed) => Ending::SinkFailed,
        Err(Halt::OutOfMemory) => Ending::OutOfMemory,
    }
}

/// Takes turns to the end.
fn run_turns<S: WorldStore, O: Sink>(config: &mut Config<S>, out: &mut O) -> Result<(), Halt>
    requires sound { Sound S.meaning config.old }
    ensures ok { OnOk result (Reaches S.meaning (over O.seen out.old out.new) config.old config.new) }
    ensures ended { OnOk result (¬ (config.new.state ≡ State.Running)) }
    ensures err { IfErr result (HaltsAfter S.meaning (over O.seen out.old out.new) config.old) }
    ensures never_falls { (O.seen out.old).faults ≤ (O.seen out.new).faults }
{
    while goes_on(config.state) {
        match run_to_step(config, out) {
            Ok(()) => {}
            Err(halt) => return Err(halt),
        }
    }
    Ok(())
}

/// Takes turns until a step is taken, or the run has ended.
#[inline(always)]
fn run_to_step<S: WorldStore, O: Sink>(config: &mut Config<S>, out: &mut O) -> Result<(), Halt>
    requires running { config.old.state ≡ State.Running }
    requires sound { Sound S.meaning config.old }
    ensures ok { OnOk result (ReachesStep S.meaning (over O.seen out.old out.new) config.old config.new) }
    ensures err { IfErr result (HaltsAfter S.meaning (over O.seen out.old out.new) config.old) }
    ensures never_falls { (O.seen out.old).faults ≤ (O.seen out.new).faults }
{
    let left = config.left;
    while goes_on(config.state) && config.left == left {
        match advance(config, out) {
            Ok(()) => {}
            Err(halt) => return Err(halt),
        }
    }
    Ok(())
}

/// Writes what is pending still, and tells how the run ended.
fn finish<S: WorldStore, O: Sink>(config: &mut Config<S>, out: &mut O) -> Ending
    requires sound { Sound S.meaning config.old }
    requires ended { ¬ (config.old.state ≡ State.Running) }
    ensures ends { RunsTo S.meaning (over O.seen out.old out.new) config.old config.new result }
    ensures never_falls { (O.seen out.old).faults ≤ (O.seen out.new).faults }
{
    match flush_all(config, out) {
        Ok(()) => ending(config.state),
        Err(_) => Ending::SinkFailed,
    }
}

/// Whether a run goes on.
fn goes_on(state: State) -> bool
    ensures yes { result ≡ true → state ≡ State.Running }
    ensures no { result ≡ false → ¬ (state ≡ State.Running) }
{
    matches!(state, State::Running)
}

/// How a run ended that goes on no more.
fn ending(state: State) -> Ending
    ensures { result ≡ ending_of state }
{
    match state {
        State::Threw(value) => Ending::Threw(value),
        State::StepsSpent => Ending::StepsSpent,
        _ => Ending::Done,
    }
}
