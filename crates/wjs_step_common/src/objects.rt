//! Values as objects (ECMA-262, 3rd edition, sections 9.9 and 10.2.3).
ghost use Rattle.std.specs.Prelude.{◌≡◌, IfOk, OnOk, MatchResult};
ghost use Rattle.wjs_base.specs.Text.{Table};
ghost use Rattle.wjs_by_content.specs.Tables.{value_in};
ghost use Rattle.wjs_meaning.specs.Calls as line;
ghost use Rattle.wjs_meaning.specs.NewObjects as made;
ghost use Rattle.wjs_model.specs.Soundness.{Base, HasObject, HasValue};
ghost use Rattle.wjs_frames.specs.Doing.{Does, Fails};
ghost use Rattle.wjs_frames.specs.Parts.{env_in};
ghost use Rattle.wjs_frames.specs.Following.{Later};

use wjs_base::{ObjId, OutOfMemory, Value};
use wjs_heap_steps::{create_error, create_wrapper};
use wjs_model::{Config, Frame, Trouble};
use wjs_store::WorldStore;

/// The value as an object, where a primitive gets a wrapper; of undefined and null what is thrown.
pub fn to_object<S: WorldStore>(
    config: &mut Config<S>,
    frame: &Frame,
    value: Value,
) -> Result<Result<ObjId, Value>, OutOfMemory>
    requires base { Base S.meaning config.old }
    requires value { HasValue config.old value }
    ensures does { IfOk result (λ answer. MatchResult answer
        (λ o. Does S.meaning (λ t. made.to_object (value_in t value) (env_in S.meaning config.old t frame.now)) (λ t. o) config.old config.new)
        (λ error. Fails S.meaning (λ t. made.to_object (value_in t value) (env_in S.meaning config.old t frame.now))
        (λ t. value_in t error) config.old config.new)) }
    ensures later { OnOk result (Later S.meaning config.old config.new) }
    ensures found { IfOk result (λ answer. MatchResult answer (λ o. HasObject config.new o) (λ error. HasValue config.new error)) }
{
    match value {
        Value::Object(object) => Ok(Ok(object)),
        Value::Undefined | Value::Null => {
            let error = create_error(config, Trouble::NotAnObject)?;
            Ok(Err(Value::Object(error)))
        }
        Value::Bool(_) | Value::Number(_) | Value::Text(_) => {
            let object = create_wrapper(config, value)?;
            Ok(Ok(object))
        }
    }
}

/// As `this`, undefined and null become the global object.
pub fn this_or_global<S: WorldStore>(config: &Config<S>, frame: &Frame, value: Value) -> Value
    requires base { Base S.meaning config.now }
    requires value { HasValue config.now value }
    ensures is { (t : Table) → value_in t result ≡ line.this_or_global (value_in t value) (env_in S.meaning config.now t frame.now) }
    ensures found { HasValue config.now result }
{
    match value {
        Value::Undefined | Value::Null => Value::Object(config.global),
        _ => value,
    }
}
