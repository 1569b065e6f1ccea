//! The methods by which an object is made a primitive (ECMA-262, 3rd edition, section 8.6.2.6).
ghost use Rattle.std.specs.Prelude.{◌≡◌, []};
ghost use Rattle.wjs_by_content.specs.Tables.{value_in};
ghost use Rattle.wjs_by_content.specs.Values.{Object};
ghost use Rattle.wjs_meaning.specs.Deeds.{Sub};
ghost use Rattle.wjs_meaning.specs.Calls.{call};
ghost use Rattle.wjs_meaning.specs.Conversions as line;
ghost use Rattle.wjs_meaning.specs.Errors as errors;
ghost use Rattle.wjs_model.specs.Contents.{value_held};
ghost use Rattle.wjs_model.specs.Waiting.{hint_in, after_first};
ghost use Rattle.wjs_model.specs.Soundness.{HasObject, HasValue, HasCompletion, HasPoint};
ghost use Rattle.wjs_frames.specs.Parts.{then_at};
ghost use Rattle.wjs_heap_steps.specs.Known.{text_of};
ghost use Rattle.wjs_frames.specs.Handling.{Runs, GoesOn, Resumes};

use wjs_base::{ObjId, OutOfMemory, Value};
use wjs_calls::call_below;
use wjs_frames::finish;
use wjs_heap_steps::{Known, function_of, get_known};
use wjs_model::{CallPoint, Completion, Config, Frame, Hint, Point, Trouble};
use wjs_step_common::{held_value, throw};
use wjs_store::WorldStore;

/// Asks by the method that is tried first, and where it is no function by the other.
pub(crate) fn try_first<S: WorldStore>(
    config: &mut Config<S>,
    frame: Frame,
    hint: Hint,
    object: ObjId,
) -> Result<(), OutOfMemory>
    requires runs { Runs S.meaning config.old frame }
    requires value { value_held frame.held ≡ Value.Object object }
    requires object { HasObject config.old object }
    ensures { GoesOn S.meaning frame config.old config.new result (λ t env. line.to_primitive (hint_in hint) (Object object) env) }
{
    let method = get_known(config, &frame, object, first_method(hint))?;
    match function_of(config, method) {
        Some(function) => call_method(
            config,
            frame,
            CallPoint::FirstMethod(hint),
            function,
            object,
        ),
        None => try_second(config, frame, hint, object),
    }
}

/// Asks by the method that is tried second.
fn try_second<S: WorldStore>(
    config: &mut Config<S>,
    frame: Frame,
    hint: Hint,
    object: ObjId,
) -> Result<(), OutOfMemory>
    requires runs { Runs S.meaning config.old frame }
    requires object { HasObject config.old object }
    ensures { GoesOn S.meaning frame config.old config.new result (λ t env.
        line.try_method (line.second_method (hint_in hint)) object env (errors.throw Trouble.NoPrimitiveValue env)) }
{
    let method = get_known(config, &frame, object, second_method(hint))?;
    match function_of(config, method) {
        Some(function) => call_method(config, frame, CallPoint::SecondMethod, function, object),
        None => throw(config, frame, Trouble::NoPrimitiveValue),
    }
}

/// Calls a method of the object without arguments, while the frame waits.
fn call_method<S: WorldStore>(
    config: &mut Config<S>,
    frame: Frame,
    point: CallPoint,
    function: ObjId,
    object: ObjId,
) -> Result<(), OutOfMemory>
    requires runs { Runs S.meaning config.old frame }
    requires point { HasPoint config.old frame (Point.Call point) }
    requires function { HasObject config.old function }
    requires object { HasObject config.old object }
    ensures { GoesOn S.meaning frame config.old config.new result (λ t env.
        Sub (call function (Object object) [] env) (then_at S.meaning config.old frame (Point.Call point) t env)) }
{
    let nothing = config.frames.nothing_held();
    call_below(
        config,
        frame,
        Point::Call(point),
        function,
        Value::Object(object),
        nothing,
    )
}

/// After the method that is tried first.
pub(crate) fn after_first_method<S: WorldStore>(
    config: &mut Config<S>,
    frame: Frame,
    hint: Hint,
    completion: Completion,
) -> Result<(), OutOfMemory>
    requires runs { Runs S.meaning config.old frame }
    requires completion { HasCompletion config.old completion }
    ensures { Resumes S.meaning frame (Point.Call (CallPoint.FirstMethod hint)) completion config.old config.new result }
{
    match completion {
        Completion::Gives(value) => first_value(config, frame, hint, value),
        _ => finish(config, frame, completion),
    }
}

/// The value of the first method: a primitive ends the conversion, and of an object the other method is tried.
fn first_value<S: WorldStore>(
    config: &mut Config<S>,
    frame: Frame,
    hint: Hint,
    value: Value,
) -> Result<(), OutOfMemory>
    requires runs { Runs S.meaning config.old frame }
    requires value { HasValue config.old value }
    ensures { GoesOn S.meaning frame config.old config.new result (λ t env.
        after_first (hint_in hint) (value_in t (value_held frame.held)) env (value_in t value)) }
{
    let Value::Object(_) = value else {
        return finish(config, frame, Completion::Gives(value));
    };
    match held_value(config, &frame) {
        Value::Object(object) => try_second(config, frame, hint, object),
        _ => throw(config, frame, Trouble::NoPrimitiveValue),
    }
}

/// After the method that is tried second.
pub(crate) fn after_second_method<S: WorldStore>(
    config: &mut Config<S>,
    frame: Frame,
    completion: Completion,
) -> Result<(), OutOfMemory>
    requires runs { Runs S.meaning config.old frame }
    requires completion { HasCompletion config.old completion }
    ensures { Resumes S.meaning frame (Point.Call CallPoint.SecondMethod) completion config.old config.new result }
{
    match completion {
        Completion::Gives(value) => second_value(config, frame, value),
        _ => finish(config, frame, completion),
    }
}

/// The value of the second method: a primitive ends the conversion, and of an object there is none.
fn second_value<S: WorldStore>(
    config: &mut Config<S>,
    frame: Frame,
    value: Value,
) -> Result<(), OutOfMemory>
    requires runs { Runs S.meaning config.old frame }
    requires value { HasValue config.old value }
    ensures { GoesOn S.meaning frame config.old config.new result (λ t env.
        line.method_result (errors.throw Trouble.NoPrimitiveValue env) (value_in t value)) }
{
    match value {
        Value::Object(_) => throw(config, frame, Trouble::NoPrimitiveValue),
        _ => finish(config, frame, Completion::Gives(value)),
    }
}

/// The method that is tried first.
fn first_method(hint: Hint) -> Known
    ensures { text_of result ≡ line.first_method (hint_in hint) }
{
    match hint {
        Hint::Text => Known::ToString,
        Hint::Number => Known::ValueOf,
    }
}

/// The method that is tried second.
fn second_method(hint: Hint) -> Known
    ensures { text_of result ≡ line.second_method (hint_in hint) }
{
    match hint {
        Hint::Text => Known::ValueOf,
        Hint::Number => Known::ToString,
    }
}
