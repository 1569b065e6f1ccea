//! Receivers and wrappers of primitives (ECMA-262, 3rd edition, sections 15.5 to 15.7).
ghost use Rattle.std.specs.Prelude.{OnOk, IfOk, [], false, true, Some};
ghost use Rattle.wjs_by_content.specs.Tables.{value_in};
ghost use Rattle.wjs_by_content.specs.Values.{Boolean, String};
ghost use Rattle.wjs_by_content.specs.Conversions.{primitive_text};
ghost use Rattle.wjs_meaning.specs.Deeds.{Do, Create, give};
ghost use Rattle.wjs_meaning.specs.Builtins as first;
ghost use Rattle.wjs_by_content.specs.Objects as content;
ghost use Rattle.wjs_meaning.specs.Natives.{native_line};
ghost use Rattle.wjs_meaning.specs.NativesOfTexts as line;
ghost use Rattle.wjs_frames.specs.Doing.{Does};
ghost use Rattle.wjs_native_text.specs.Receivers.{primitive_then};
ghost use Rattle.wjs_model.specs.Soundness.{Base, HasObject, HasValue};
ghost use Rattle.wjs_frames.specs.Following.{Later};
ghost use Rattle.wjs_frames.specs.Handling.{IsRunning, GoesOn};

use wjs_arena::{BooleanNative, Class, Native, NumberNative, StringNative};
use wjs_base::{ObjId, OutOfMemory, Value};
use wjs_heap_steps::{builtin, create, create_wrapper, object_of, primitive_of};
use wjs_meaning::Builtin;
use wjs_model::{Config, Frame, Trouble};
use wjs_step_common::{give, give_short, throw};
use wjs_store::WorldStore;

/// `true` and `false`.
const TRUE: [u16; 4] = [116, 114, 117, 101];

const FALSE: [u16; 5] = [102, 97, 108, 115, 101];

/// Ends with a primitive, or with a wrapper of it where `new` calls.
pub(crate) fn wrapped<S: WorldStore>(
    config: &mut Config<S>,
    frame: Frame,
    by_new: bool,
    value: Value,
) -> Result<(), OutOfMemory>
    requires running { IsRunning S.meaning config.old }
    requires value { HasValue config.old value }
    ensures { GoesOn S.meaning frame config.old config.new result (λ t env. line.wrapped by_new (value_in t value) env) }
{
    if by_new {
        let object = wrapper_of(config, value)?;
        give(config, frame, Value::Object(object))
    } else {
        give(config, frame, value)
    }
}

/// Makes the wrapper of a value. No conversion leaves an object, which would be held likewise.
fn wrapper_of<S: WorldStore>(config: &mut Config<S>, value: Value) -> Result<ObjId, OutOfMemory>
    requires base { Base S.meaning config.old }
    requires value { HasValue config.old value }
    ensures does { IfOk result (λ o. Does S.meaning (λ t go. Do (Create config.old.owner (first.wrapper_of (value_in t value))) go)
        (λ t. o) config.old config.new) }
    ensures later { OnOk result (Later S.meaning config.old config.new) }
    ensures found { IfOk result (λ o. HasObject config.new o) }
{
    match value {
        Value::Object(_) => hold_object(config, value),
        _ => create_wrapper(config, value),
    }
}

/// Makes an object that holds a value.
fn hold_object<S: WorldStore>(config: &mut Config<S>, value: Value) -> Result<ObjId, OutOfMemory>
    requires base { Base S.meaning config.old }
    requires value { HasValue config.old value }
    ensures does { IfOk result (λ o. Does S.meaning
        (λ t go. Do (Create config.old.owner (record (content.object_of Class.Plain (Some first.object_prototype)) { primitive = value_in t value })) go)
        (λ t. o) config.old config.new) }
    ensures later { OnOk result (Later S.meaning config.old config.new) }
    ensures found { IfOk result (λ o. HasObject config.new o) }
{
    let prototype = builtin(config, Builtin::ObjectPrototype);
    let alloc = config.heap.arena.allocator();
    let mut object = object_of(alloc, Class::Plain, Some(prototype));
    object.primitive = value;
    create(config, object)
}

/// What a wrapper holds; another value that is no object is itself.
pub(crate) fn primitive_value<S: WorldStore>(config: &Config<S>, value: Value) -> Value
    requires base { Base S.meaning config.now }
    requires value { HasValue config.now value }
    ensures does { Does S.meaning (λ t go. primitive_then (value_in t value) go) (λ t. value_in t result) config.now config.now }
    ensures found { HasValue config.now result }
{
    match value {
        Value::Object(object) => primitive_of(config, object),
        _ => value,
    }
}

/// The text of a receiver: `toString` and `valueOf` (sections 15.5.4.2 and 15.5.4.3).
pub(crate) fn own_text<S: WorldStore>(
    config: &mut Config<S>,
    frame: Frame,
    this: Value,
) -> Result<(), OutOfMemory>
    requires running { IsRunning S.meaning config.old }
    requires this { HasValue config.old this }
    ensures { GoesOn S.meaning frame config.old config.new result (λ t env. native_line (Native.String StringNative.ToString) false (value_in t this) [] env) }
{
    match primitive_value(config, this) {
        Value::Text(id) => give(config, frame, Value::Text(id)),
        _ => throw(config, frame, Trouble::WrongReceiver),
    }
}

/// The number of a receiver: `valueOf` (section 15.7.4.4).
pub(crate) fn own_number<S: WorldStore>(
    config: &mut Config<S>,
    frame: Frame,
    this: Value,
) -> Result<(), OutOfMemory>
    requires running { IsRunning S.meaning config.old }
    requires this { HasValue config.old this }
    ensures { GoesOn S.meaning frame config.old config.new result (λ t env. native_line (Native.Number NumberNative.ValueOf) false (value_in t this) [] env) }
{
    match primitive_value(config, this) {
        Value::Number(number) => give(config, frame, Value::Number(number)),
        _ => throw(config, frame, Trouble::WrongReceiver),
    }
}

/// The truth value of a receiver: `valueOf` (section 15.6.4.3).
pub(crate) fn own_truth<S: WorldStore>(
    config: &mut Config<S>,
    frame: Frame,
    this: Value,
) -> Result<(), OutOfMemory>
    requires running { IsRunning S.meaning config.old }
    requires this { HasValue config.old this }
    ensures { GoesOn S.meaning frame config.old config.new result (λ t env. native_line (Native.Boolean BooleanNative.ValueOf) false (value_in t this) [] env) }
{
    match primitive_value(config, this) {
        Value::Bool(truth) => give(config, frame, Value::Bool(truth)),
        _ => throw(config, frame, Trouble::WrongReceiver),
    }
}

/// The truth value of a receiver as a text (section 15.6.4.2).
pub(crate) fn truth_text<S: WorldStore>(
    config: &mut Config<S>,
    frame: Frame,
    this: Value,
) -> Result<(), OutOfMemory>
    requires running { IsRunning S.meaning config.old }
    requires this { HasValue config.old this }
    ensures { GoesOn S.meaning frame config.old config.new result (λ t env.
        native_line (Native.Boolean BooleanNative.ToString) false (value_in t this) [] env) }
{
    match primitive_value(config, this) {
        Value::Bool(truth) => give_spelled(config, frame, truth),
        _ => throw(config, frame, Trouble::WrongReceiver),
    }
}

/// Ends with the text of a truth value.
fn give_spelled<S: WorldStore>(
    config: &mut Config<S>,
    frame: Frame,
    truth: bool,
) -> Result<(), OutOfMemory>
    requires running { IsRunning S.meaning config.old }
    ensures { GoesOn S.meaning frame config.old config.new result (λ t env. give (String (primitive_text (Boolean truth)))) }
{
    if truth {
        give_short(config, frame, &TRUE)
    } else {
        give_short(config, frame, &FALSE)
    }
}
