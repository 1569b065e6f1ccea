//! `apply`: the elements of a list are read, one step each, and then the call is made (ECMA-262, 3rd edition, section 15.3.4.3).
ghost use Rattle.std.specs.Prelude.{◌≡◌, ◌-◌, All, map};
ghost use Rattle.wjs_base.specs.Text.{Table, Grows};
ghost use Rattle.wjs_by_content.specs.Tables.{value_in};
ghost use Rattle.wjs_meaning.specs.NativesOfObjects as line;
ghost use Rattle.wjs_model.specs.Contents.{holding_in, callee_held, elements_held};
ghost use Rattle.wjs_model.specs.Soundness.{Base, HasObject, HasValue};
ghost use Rattle.wjs_native_core.specs.Owning.{apply_elements};
ghost use Rattle.wjs_frames.specs.Handling.{Runs, GoesOn, Begins};

use crate::items::{elements_for, hold_element};
use wjs_arena::Class;
use wjs_base::{Name, ObjId, OutOfMemory, Value};
use wjs_calls::call;
use wjs_frames::{due_later, finish};
use wjs_heap_steps::{Known, class_of, function_of, get_known, get_value};
use wjs_model::{Completion, Config, Frame, Start, Trouble};
use wjs_natives::value_at;
use wjs_num::to_uint32;
use wjs_step_common::{held_callee, held_elements, number_after, throw, to_number};
use wjs_store::WorldStore;

/// Calls the receiver on a list of arguments.
pub(crate) fn apply<S: WorldStore>(
    config: &mut Config<S>,
    frame: Frame,
    this: Value,
    args: &[Value],
) -> Result<(), OutOfMemory>
    requires runs { Runs S.meaning config.old frame }
    requires this { HasValue config.old this }
    requires args { All (HasValue config.old) args.now }
    ensures { GoesOn S.meaning frame config.old config.new result (λ t env. line.function_apply (value_in t this) (map (value_in t) args.now) env) }
{
    match function_of(config, this) {
        Some(function) => {
            apply_to(
                config,
                frame,
                function,
                value_at(args, 0),
                value_at(args, 1),
            )
        }
        None => throw(config, frame, Trouble::NotAFunction),
    }
}

/// The list of the arguments: none for undefined and null, and else an Array or an `arguments` object.
fn apply_to<S: WorldStore>(
    config: &mut Config<S>,
    mut frame: Frame,
    function: ObjId,
    this: Value,
    list: Value,
) -> Result<(), OutOfMemory>
    requires runs { Runs S.meaning config.old frame }
    requires function { HasObject config.old function }
    requires this { HasValue config.old this }
    requires list { HasValue config.old list }
    ensures { GoesOn S.meaning frame config.old config.new result (λ t env. line.apply_list function (value_in t this) (value_in t list) env) }
{
    match list {
        Value::Undefined | Value::Null => {
            frame.set_held(config.frames.nothing_held());
            call(config, frame, function, this)
        }
        Value::Object(object) => apply_elements(config, frame, function, this, object),
        Value::Bool(_) | Value::Number(_) | Value::Text(_) => {
            throw(config, frame, Trouble::NotAnObject)
        }
    }
}

/// Begins with the elements of an object.
fn apply_elements<S: WorldStore>(
    config: &mut Config<S>,
    mut frame: Frame,
    function: ObjId,
    this: Value,
    object: ObjId,
) -> Result<(), OutOfMemory>
    requires runs { Runs S.meaning config.old frame }
    requires function { HasObject config.old function }
    requires this { HasValue config.old this }
    requires object { HasObject config.old object }
    ensures { GoesOn S.meaning frame config.old config.new result (λ t env. apply_elements function (value_in t this) object env) }
{
    if !is_list_class(class_of(config, object)) {
        return throw(config, frame, Trouble::NotAnObject);
    }
    let length = get_known(config, &frame, object, Known::Length)?;
    let count = apply_length(config, length);
    frame.set_held(elements_for(config, object, count, function, this)?);
    apply_rest(config, frame, function, this, 0)
}

/// Whether it is the class of what `apply` takes as a list.
fn is_list_class(class: Class) -> bool
    ensures { line.is_list_class class ≡ result }
{
    matches!(class, Class::Array | Class::Arguments)
}

/// How many elements a `length` tells of; none where it is an object.
fn apply_length<S: WorldStore>(config: &Config<S>, length: Value) -> u32
    requires base { Base S.meaning config.now }
    requires value { HasValue config.now length }
    ensures { (t : Table) → Grows config.now.heap.texts t → line.apply_length (value_in t length) ≡ result }
{
    match length {
        Value::Object(_) => 0,
        _ => to_uint32(to_number(config, length)),
    }
}

/// The call, where so many elements are read that there are no more; else a further step is due, in which the next one is read.
fn apply_rest<S: WorldStore>(
    config: &mut Config<S>,
    frame: Frame,
    function: ObjId,
    this: Value,
    read: u32,
) -> Result<(), OutOfMemory>
    requires runs { Runs S.meaning config.old frame }
    requires function { HasObject config.old function }
    requires this { HasValue config.old this }
    requires callee { callee_held frame.held ≡ (Value.Object function, this) }
    ensures { GoesOn S.meaning frame config.old config.new result (λ t env.
        let elements = elements_held frame.held in
        line.apply_from (elements.1 - read) read (holding_in t frame.held).values elements.0 function (value_in t this) env) }
{
    let (_, count) = frame.elements();
    if read < count {
        due_later(config, frame, Start::ApplyElement(read))
    } else {
        call(config, frame, function, this)
    }
}

/// Reads the element of a number.
pub fn apply_element<S: WorldStore>(
    config: &mut Config<S>,
    mut frame: Frame,
    at: u32,
) -> Result<(), OutOfMemory>
    requires runs { Runs S.meaning config.old frame }
    ensures { Begins S.meaning frame (Start.ApplyElement at) config.old config.new result }
{
    let read = number_after(at)?;
    let (callee, this) = held_callee(config, &frame);
    let Value::Object(function) = callee else {
        return finish(config, frame, Completion::Normal);
    };
    let (object, count) = held_elements(config, &frame);
    let value = get_value(config, &frame, object, Name::Index(at))?;
    hold_element(&mut frame, value, object, count, function, this)?;
    apply_rest(config, frame, function, this, read)
}
