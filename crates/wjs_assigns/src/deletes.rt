//! `delete` (ECMA-262, 3rd edition, section 11.4.1).
ghost use Rattle.std.specs.Prelude.{true};
ghost use Rattle.wjs_meaning.specs.Expressions as line;
ghost use Rattle.wjs_meaning.specs.Operators.{give_truth};
ghost use Rattle.wjs_model.specs.Contents.{reference_in};
ghost use Rattle.wjs_model.specs.Soundness.{HasReference};
ghost use Rattle.wjs_frames.specs.Handling.{Runs, IsRunning, GoesOn};

use wjs_base::{OutOfMemory, Value};
use wjs_effects::delete_at;
use wjs_frames::finish;
use wjs_model::{Completion, Config, Frame, Reference};
use wjs_store::WorldStore;

/// After the reference of what is deleted.
pub fn delete_reference<S: WorldStore>(
    config: &mut Config<S>,
    frame: Frame,
    reference: Reference,
) -> Result<(), OutOfMemory>
    requires runs { Runs S.meaning config.old frame }
    requires reference { HasReference config.old reference }
    ensures { GoesOn S.meaning frame config.old config.new result (λ t env. line.delete_reference env (reference_in t reference)) }
{
    let gone = delete_at(config, &frame, reference)?;
    told(config, frame, gone)
}

/// Ends with a truth value.
fn told<S: WorldStore>(config: &mut Config<S>, frame: Frame, truth: bool) -> Result<(), OutOfMemory>
    requires running { IsRunning S.meaning config.old }
    ensures { GoesOn S.meaning frame config.old config.new result (λ t env. give_truth truth) }
{
    finish(config, frame, Completion::Gives(Value::Bool(truth)))
}

/// After a value, which is no reference.
pub fn delete_value<S: WorldStore>(config: &mut Config<S>, frame: Frame) -> Result<(), OutOfMemory>
    requires running { IsRunning S.meaning config.old }
    ensures { GoesOn S.meaning frame config.old config.new result (λ t env. give_truth true) }
{
    told(config, frame, true)
}
