//! The native functions of Object (ECMA-262, 3rd edition, section 15.2).
ghost use Rattle.std.specs.Prelude.{◌≡◌, ◌&&◌, not, is_some, OnOk, IfOk, All, map};
ghost use Rattle.wjs_base.specs.Text.{Table, Grows};
ghost use Rattle.wjs_by_content.specs.Tables.{value_in, name_in, content_in};
ghost use Rattle.wjs_by_content.specs.Values.{Object};
ghost use Rattle.wjs_meaning.specs.NativesOfObjects as line;
ghost use Rattle.wjs_meaning.specs.NewObjects as made;
ghost use Rattle.wjs_model.specs.Soundness.{Base, HasObject, HasName, HasValue};
ghost use Rattle.wjs_frames.specs.Doing.{Does};
ghost use Rattle.wjs_frames.specs.Following.{Later};
ghost use Rattle.wjs_native_core.specs.Owning.{class_shown, own_property};
ghost use Rattle.wjs_frames.specs.Handling.{Runs, IsRunning, GoesOn};

use crate::classes::class_name;
use wjs_base::{Content, Name, ObjId, OutOfMemory, Value};
use wjs_frames::finish;
use wjs_heap_steps::{
    class_of, create_plain, fixed, intern, is_hidden, is_past, name_of, read_content,
};
use wjs_model::{Completion, Config, Frame};
use wjs_natives::value_at;
use wjs_step_common::{give, give_short, to_object};
use wjs_store::WorldStore;
use wjs_strings::object_text;

/// `Object(value)`: a new object of undefined or null, and else the value as an object (sections 15.2.1.1 and 15.2.2.1).
pub(crate) fn new_object<S: WorldStore>(
    config: &mut Config<S>,
    frame: Frame,
    value: Value,
) -> Result<(), OutOfMemory>
    requires runs { Runs S.meaning config.old frame }
    requires value { HasValue config.old value }
    ensures { GoesOn S.meaning frame config.old config.new result (λ t env. line.new_object (value_in t value) env) }
{
    match value {
        Value::Undefined | Value::Null => {
            let object = create_plain(config)?;
            give(config, frame, Value::Object(object))
        }
        _ => as_object(config, frame, value),
    }
}

/// `valueOf`: the receiver as an object (section 15.2.4.4).
pub(crate) fn as_object<S: WorldStore>(
    config: &mut Config<S>,
    frame: Frame,
    value: Value,
) -> Result<(), OutOfMemory>
    requires runs { Runs S.meaning config.old frame }
    requires value { HasValue config.old value }
    ensures { GoesOn S.meaning frame config.old config.new result (λ t env. made.to_object (value_in t value) env line.give_object) }
{
    match to_object(config, &frame, value)? {
        Ok(object) => give(config, frame, Value::Object(object)),
        Err(error) => finish(config, frame, Completion::Throws(error)),
    }
}

/// `toString`: the class of the receiver (section 15.2.4.2).
pub(crate) fn give_class<S: WorldStore>(
    config: &mut Config<S>,
    frame: Frame,
    this: Value,
) -> Result<(), OutOfMemory>
    requires runs { Runs S.meaning config.old frame }
    requires this { HasValue config.old this }
    ensures { GoesOn S.meaning frame config.old config.new result (λ t env. line.object_to_string (value_in t this) env) }
{
    match to_object(config, &frame, this)? {
        Ok(object) => give_class_of(config, frame, object),
        Err(error) => finish(config, frame, Completion::Throws(error)),
    }
}

/// The class of an object.
fn give_class_of<S: WorldStore>(
    config: &mut Config<S>,
    frame: Frame,
    object: ObjId,
) -> Result<(), OutOfMemory>
    requires runs { Runs S.meaning config.old frame }
    requires object { HasObject config.old object }
    ensures { GoesOn S.meaning frame config.old config.new result (λ t env. class_shown object) }
{
    let class = class_of(config, object);
    let alloc = config.heap.arena.allocator();
    let units = object_text(alloc, class_name(class))?;
    give_short(config, frame, units.as_slice())
}

/// `hasOwnProperty`, and of enumerable properties `propertyIsEnumerable` (sections 15.2.4.5 and 15.2.4.7).
pub(crate) fn has_own<S: WorldStore>(
    config: &mut Config<S>,
    frame: Frame,
    enumerable: bool,
    this: Value,
    args: &[Value],
) -> Result<(), OutOfMemory>
    requires runs { Runs S.meaning config.old frame }
    requires this { HasValue config.old this }
    requires args { All (HasValue config.old) args.now }
    ensures { GoesOn S.meaning frame config.old config.new result (λ t env.
        line.has_own_property enumerable (value_in t this) (line.text_at (map (value_in t) args.now) 0) env) }
{
    let name = name_given(config, value_at(args, 0))?;
    match to_object(config, &frame, this)? {
        Ok(object) => give_own(config, frame, enumerable, object, name),
        Err(error) => finish(config, frame, Completion::Throws(error)),
    }
}

/// Whether the object itself has the property.
fn give_own<S: WorldStore>(
    config: &mut Config<S>,
    frame: Frame,
    enumerable: bool,
    object: ObjId,
    name: Name,
) -> Result<(), OutOfMemory>
    requires runs { Runs S.meaning config.old frame }
    requires object { HasObject config.old object }
    requires name { HasName config.old name }
    ensures { GoesOn S.meaning frame config.old config.new result (λ t env. own_property enumerable object (name_in t name) env) }
{
    if fixed(config, object, name).is_some() {
        return give(config, frame, Value::Bool(!enumerable));
    }
    let hidden = is_hidden(config, object, name);
    let found = read_content(config, &frame, object, name)?;
    give(config, frame, Value::Bool(shows(found, enumerable, hidden)))
}

/// Whether a slot is there, and not hidden where only enumerable ones count.
fn shows(found: Content, enumerable: bool, hidden: bool) -> bool
    ensures { (t : Table) → (is_some (content_in t found) && not (enumerable && hidden)) ≡ result }
{
    match found {
        Content::Absent => false,
        Content::Present(_) => !(enumerable && hidden),
    }
}

/// The name that a converted argument is. No deed is done.
fn name_given<S: WorldStore>(config: &mut Config<S>, value: Value) -> Result<Name, OutOfMemory>
    requires base { Base S.meaning config.old }
    requires value { HasValue config.old value }
    ensures does { IfOk result (λ name. Does S.meaning (λ t go. go (line.text_of (value_in t value))) (λ t. name_in t name) config.old config.new) }
    ensures later { OnOk result (Later S.meaning config.old config.new) }
    ensures found { IfOk result (λ name. HasName config.new name) }
    ensures name { IfOk result (λ name. (t : Table) → Grows config.new.heap.texts t → name_in t name ≡ line.text_of (value_in t value)) }
{
    let id = match value {
        Value::Text(id) => id,
        _ => intern(config, &[])?,
    };
    Ok(name_of(config, id))
}

/// Whether the receiver is among the prototypes of a value (section 15.2.4.6).
pub(crate) fn is_prototype_of<S: WorldStore>(
    config: &mut Config<S>,
    frame: Frame,
    this: Value,
    value: Value,
) -> Result<(), OutOfMemory>
    requires runs { Runs S.meaning config.old frame }
    requires this { HasValue config.old this }
    requires value { HasValue config.old value }
    ensures { GoesOn S.meaning frame config.old config.new result (λ t env. line.is_prototype_of (value_in t this) (value_in t value)) }
{
    match this {
        Value::Object(prototype) => give_past(config, frame, prototype, value),
        _ => give(config, frame, Value::Bool(false)),
    }
}

/// Whether an object is among the prototypes of a value.
fn give_past<S: WorldStore>(
    config: &mut Config<S>,
    frame: Frame,
    prototype: ObjId,
    value: Value,
) -> Result<(), OutOfMemory>
    requires running { IsRunning S.meaning config.old }
    requires value { HasValue config.old value }
    ensures { GoesOn S.meaning frame config.old config.new result (λ t env. line.is_prototype_of (Object prototype) (value_in t value)) }
{
    match value {
        Value::Object(object) => {
            let answer = is_past(config, prototype, object);
            give(config, frame, Value::Bool(answer))
        }
        _ => give(config, frame, Value::Bool(false)),
    }
}
