//! Members of values (ECMA-262, 3rd edition, section 8.7).
ghost use Rattle.std.specs.Prelude.{◌≡◌, ◌≤◌, IfOk, OnOk};
ghost use Rattle.wjs_base.specs.Text.{Table, Grows, Has, longest};
ghost use Rattle.wjs_by_content.specs.Names.{length_name};
ghost use Rattle.wjs_by_content.specs.Tables.{text_in, name_in, value_in};
ghost use Rattle.wjs_by_content.specs.Values.{same_text, whole};
ghost use Rattle.wjs_meaning.specs.Builtins as first;
ghost use Rattle.wjs_meaning.specs.References as line;
ghost use Rattle.wjs_model.specs.Soundness.{Base, IsThere, HasObject, HasName, HasValue};
ghost use Rattle.wjs_frames.specs.Doing.{Does};
ghost use Rattle.wjs_frames.specs.Following.{Later};
ghost use Rattle.wjs_frames.specs.Parts.{env_in};

use crate::makes::builtin;
use crate::properties::get_value;
use crate::texts::units_of;
use wjs_base::{Name, ObjId, OutOfMemory, TextId, Value, Whole};
use wjs_meaning::Builtin;
use wjs_model::{Config, Frame};
use wjs_store::WorldStore;

/// The code units of `length`.
const LENGTH: [u16; 6] = [108, 101, 110, 103, 116, 104];

/// A length as a value.
pub(crate) fn length_value(length: usize) -> Value
    requires { length ≤ longest }
    ensures { (t : Table) → value_in t result ≡ whole length }
{
    Value::Number(Whole::new(length as i64).unwrap())
}

/// The value of a member, where absent counts as undefined.
pub fn member_value<S: WorldStore>(
    config: &mut Config<S>,
    frame: &Frame,
    base: Value,
    name: Name,
) -> Result<Value, OutOfMemory>
    requires base { Base S.meaning config.old }
    requires there { IsThere S.meaning config.old frame.now }
    requires value { HasValue config.old base }
    requires name { HasName config.old name }
    ensures does { IfOk result (λ value. Does S.meaning (λ t. line.member_value (value_in t base) (name_in t name) (env_in S.meaning config.old t frame.now))
        (λ t. value_in t value) config.old config.new) }
    ensures later { OnOk result (Later S.meaning config.old config.new) }
    ensures found { IfOk result (λ value. HasValue config.new value) }
{
    match base {
        Value::Object(object) => get_value(config, frame, object, name),
        Value::Text(id) => text_member(config, frame, id, name),
        _ => {
            let prototype = class_prototype(config, base);
            get_value(config, frame, prototype, name)
        }
    }
}

/// A text's own `length`; every other name is looked up on the prototype object of texts.
fn text_member<S: WorldStore>(
    config: &mut Config<S>,
    frame: &Frame,
    id: TextId,
    name: Name,
) -> Result<Value, OutOfMemory>
    requires base { Base S.meaning config.old }
    requires there { IsThere S.meaning config.old frame.now }
    requires text { Has config.old.heap.texts id }
    requires name { HasName config.old name }
    ensures does { IfOk result (λ value. Does S.meaning (λ t. line.text_member (text_in t id) (name_in t name) (env_in S.meaning config.old t frame.now))
        (λ t. value_in t value) config.old config.new) }
    ensures later { OnOk result (Later S.meaning config.old config.new) }
    ensures found { IfOk result (λ value. HasValue config.new value) }
{
    if is_length(config, name) {
        return Ok(length_value(units_of(config, id).len()));
    }
    let prototype = builtin(config, Builtin::StringPrototype);
    get_value(config, frame, prototype, name)
}

/// Whether the name is `length`.
pub(crate) fn is_length<S: WorldStore>(config: &Config<S>, name: Name) -> bool
    requires { HasName config.now name }
    ensures { (t : Table) → Grows config.now.heap.texts t → same_text (name_in t name) length_name ≡ result }
{
    match name {
        Name::Index(_) => false,
        Name::Text(id) => units_of(config, id) == LENGTH.as_slice(),
    }
}

/// The prototype object of a primitive's class.
pub(crate) fn class_prototype<S: WorldStore>(config: &Config<S>, value: Value) -> ObjId
    requires { Base S.meaning config.now }
    ensures is { (t : Table) → first.class_prototype (value_in t value) ≡ result }
    ensures found { HasObject config.now result }
{
    match value {
        Value::Text(_) => builtin(config, Builtin::StringPrototype),
        Value::Number(_) => builtin(config, Builtin::NumberPrototype),
        Value::Bool(_) => builtin(config, Builtin::BooleanPrototype),
        _ => builtin(config, Builtin::ObjectPrototype),
    }
}
