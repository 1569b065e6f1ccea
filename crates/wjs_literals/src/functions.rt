//! Function expressions (ECMA-262, 3rd edition, section 13).
ghost use Rattle.wjs_by_content.specs.Values.{Object};
ghost use Rattle.wjs_meaning.specs.Deeds.{give};
ghost use Rattle.wjs_meaning.specs.Functions as line;
ghost use Rattle.wjs_meaning.specs.Reading.{label_in};
ghost use Rattle.wjs_model.specs.Texts.{HasText};
ghost use Rattle.wjs_calls.specs.Standing.{StandsNamed};
ghost use Rattle.wjs_frames.specs.Handling.{Runs, GoesOn};

use wjs_base::{OutOfMemory, TextId, Value};
use wjs_calls::make_function;
use wjs_frames::finish;
use wjs_model::{Completion, Config, Frame};
use wjs_store::WorldStore;

/// A function expression: the function is made, where it has a name of its own in a scope that holds this name.
pub fn function_start<S: WorldStore>(
    config: &mut Config<S>,
    frame: Frame,
    name: Option<TextId>,
) -> Result<(), OutOfMemory>
    requires runs { Runs S.meaning config.old frame }
    requires name { HasText config.old.heap.texts name }
    requires stands { StandsNamed config.old.units.items config.old.heap.arena frame.tree frame.node frame.scope name }
    ensures { GoesOn S.meaning frame config.old config.new result (λ t env. line.make_function frame.node.0 (label_in t name) env (λ f. give (Object f))) }
{
    let function = make_function(config, &frame, frame.node(), name)?;
    finish(config, frame, Completion::Gives(Value::Object(function)))
}
