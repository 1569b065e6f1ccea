//! Literals of texts (ECMA-262, 3rd edition, section 7.8.4), `this` (section 11.1.1) and `thisWorld` ("Worlds: Controlling the
//! Scope of Side Effects", ECOOP 2011).
ghost use Rattle.std.specs.Prelude.{IfSome};
ghost use Rattle.wjs_by_content.specs.Objects as objects;
ghost use Rattle.wjs_by_content.specs.Tables.{text_in};
ghost use Rattle.wjs_by_content.specs.Values.{String};
ghost use Rattle.wjs_meaning.specs.Deeds.{Do, Look, give};
ghost use Rattle.wjs_meaning.specs.Expressions as line;
ghost use Rattle.wjs_model.specs.Soundness.{HasObject};
ghost use Rattle.wjs_frames.specs.Handling.{Runs, IsRunning, IsAt, GoesOn};

use wjs_base::{ObjId, OutOfMemory, TextId, Value};
use wjs_frames::finish;
use wjs_heap_steps::world_object;
use wjs_model::{Completion, Config, Frame};
use wjs_store::WorldStore;
use wjs_tree::Node;

/// A literal of a text.
pub fn text<S: WorldStore>(
    config: &mut Config<S>,
    frame: Frame,
    id: TextId,
) -> Result<(), OutOfMemory>
    requires running { IsRunning S.meaning config.old }
    requires node { IsAt S.meaning config.old frame (Node.Text id) }
    ensures { GoesOn S.meaning frame config.old config.new result (λ t env. give (String (text_in t id))) }
{
    finish(config, frame, Completion::Gives(Value::Text(id)))
}

/// `this`.
pub fn this<S: WorldStore>(config: &mut Config<S>, frame: Frame) -> Result<(), OutOfMemory>
    requires runs { Runs S.meaning config.old frame }
    ensures { GoesOn S.meaning frame config.old config.new result (λ t env. give env.this) }
{
    let this = frame.this();
    finish(config, frame, Completion::Gives(this))
}

/// `thisWorld`: the object of the frame's world.
pub fn this_world<S: WorldStore>(config: &mut Config<S>, frame: Frame) -> Result<(), OutOfMemory>
    requires runs { Runs S.meaning config.old frame }
    ensures { GoesOn S.meaning frame config.old config.new result (λ t env. Do Look (λ arena. line.give_world (objects.world_object arena env.world))) }
{
    let found = world_object(config, frame.world());
    give_world(config, frame, found)
}

/// Ends with the object of a world, and with undefined where none stands for it.
fn give_world<S: WorldStore>(
    config: &mut Config<S>,
    frame: Frame,
    object: Option<ObjId>,
) -> Result<(), OutOfMemory>
    requires running { IsRunning S.meaning config.old }
    requires found { IfSome object (λ o. HasObject config.old o) }
    ensures { GoesOn S.meaning frame config.old config.new result (λ t env. line.give_world object) }
{
    match object {
        Some(object) => finish(config, frame, Completion::Gives(Value::Object(object))),
        None => finish(config, frame, Completion::Gives(Value::Undefined)),
    }
}
