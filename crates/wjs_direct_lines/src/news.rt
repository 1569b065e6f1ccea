//! What `new` makes its object on, and what it gives (ECMA-262, 3rd edition, section 13.2.2).
ghost use Rattle.std.specs.Prelude.{◌≡◌, IfOk, OnOk};
ghost use Rattle.wjs_by_content.specs.Names.{prototype_name};
ghost use Rattle.wjs_by_content.specs.Tables.{value_in};
ghost use Rattle.wjs_meaning.specs.Constructions.{new_result};
ghost use Rattle.wjs_base.specs.Text.{Table};
ghost use Rattle.wjs_meaning.specs.Deeds.{give};
ghost use Rattle.wjs_meaning.specs.Properties.{get_value};
ghost use Rattle.wjs_model.specs.Soundness.{Base, HasObject, HasValue, IsThere};
ghost use Rattle.wjs_frames.specs.Doing.{Does};
ghost use Rattle.wjs_frames.specs.Following.{Later};
ghost use Rattle.wjs_frames.specs.Parts.{env_in};
ghost use Rattle.wjs_direct_lines.specs.News.{prototype_in};

use wjs_base::{ObjId, OutOfMemory, Value};
use wjs_heap_steps::{Known, builtin, get_known};
use wjs_meaning::Builtin;
use wjs_model::{Config, Frame};
use wjs_store::WorldStore;

/// What a function makes objects on: its `prototype`, or that of plain objects.
pub fn prototype_of<S: WorldStore>(
    config: &mut Config<S>,
    frame: &Frame,
    function: ObjId,
) -> Result<ObjId, OutOfMemory>
    requires base { Base S.meaning config.old }
    requires there { IsThere S.meaning config.old frame.now }
    requires function { HasObject config.old function }
    ensures does { IfOk result (λ o. Does S.meaning
        (λ t go. get_value function prototype_name (env_in S.meaning config.old t frame.now) (λ v. go (prototype_in v))) (λ t. o) config.old config.new) }
    ensures later { OnOk result (Later S.meaning config.old config.new) }
    ensures found { IfOk result (λ o. HasObject config.new o) }
{
    let found = get_known(config, frame, function, Known::Prototype)?;
    match found {
        Value::Object(prototype) => Ok(prototype),
        _ => Ok(builtin(config, Builtin::ObjectPrototype)),
    }
}

/// The result of the call where it is an object, and else the new object.
pub fn result_of_new<S: WorldStore>(config: &Config<S>, object: ObjId, given: Value) -> Value
    requires object { HasObject config.now object }
    requires given { HasValue config.now given }
    ensures is { (t : Table) → new_result object (value_in t given) ≡ give (value_in t result) }
    ensures found { HasValue config.now result }
{
    let _config = config;
    match given {
        Value::Object(_) => given,
        _ => Value::Object(object),
    }
}
