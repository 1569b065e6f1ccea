//! Conversions of values (ECMA-262, 3rd edition, section 9).
ghost use Rattle.wjs_by_content.specs.Tables.{value_in};
ghost use Rattle.wjs_meaning.specs.Conversions as line;
ghost use Rattle.wjs_model.specs.Contents.{value_held};
ghost use Rattle.wjs_model.specs.Soundness.{HasCompletion};
ghost use Rattle.wjs_model.specs.Waiting.{hint_in};
ghost use Rattle.wjs_frames.specs.Handling.{Runs, GoesOn, Begins, Resumes};

use crate::methods::try_first;
use crate::values::{integer_of, text_of};
use wjs_base::{OutOfMemory, Value};
use wjs_frames::{convert, finish};
use wjs_model::{CallPoint, Completion, Config, Conversion, Frame, Hint, Point, Start};
use wjs_step_common::{held_value, to_number};
use wjs_store::WorldStore;

/// A conversion of the value that is held begins. A number, a text or a whole number is made of a primitive.
pub fn conversion<S: WorldStore>(
    config: &mut Config<S>,
    frame: Frame,
    conversion: Conversion,
) -> Result<(), OutOfMemory>
    requires runs { Runs S.meaning config.old frame }
    ensures { Begins S.meaning frame (Start.Convert conversion) config.old config.new result }
{
    let value = held_value(config, &frame);
    match conversion {
        Conversion::TextFirst => to_primitive(config, frame, Hint::Text),
        Conversion::NumberFirst => to_primitive(config, frame, Hint::Number),
        Conversion::Number => convert(
            config,
            frame,
            Point::Call(CallPoint::NumberOfPrimitive),
            Conversion::NumberFirst,
            value,
        ),
        Conversion::Text => convert(
            config,
            frame,
            Point::Call(CallPoint::TextOfPrimitive),
            Conversion::TextFirst,
            value,
        ),
        Conversion::Integer => convert(
            config,
            frame,
            Point::Call(CallPoint::IntegerOfPrimitive),
            Conversion::NumberFirst,
            value,
        ),
    }
}

/// A primitive is itself, and an object is asked by its methods (section 9.1).
fn to_primitive<S: WorldStore>(
    config: &mut Config<S>,
    frame: Frame,
    hint: Hint,
) -> Result<(), OutOfMemory>
    requires runs { Runs S.meaning config.old frame }
    ensures { GoesOn S.meaning frame config.old config.new result (λ t env. line.to_primitive (hint_in hint) (value_in t (value_held frame.held)) env) }
{
    let value = held_value(config, &frame);
    match value {
        Value::Object(object) => try_first(config, frame, hint, object),
        _ => finish(config, frame, Completion::Gives(value)),
    }
}

/// After the primitive that a number is made of (section 9.3).
pub(crate) fn number_of_primitive<S: WorldStore>(
    config: &mut Config<S>,
    frame: Frame,
    completion: Completion,
) -> Result<(), OutOfMemory>
    requires runs { Runs S.meaning config.old frame }
    requires completion { HasCompletion config.old completion }
    ensures { Resumes S.meaning frame (Point.Call CallPoint.NumberOfPrimitive) completion config.old config.new result }
{
    let Completion::Gives(value) = completion else {
        return finish(config, frame, completion);
    };
    let number = to_number(config, value);
    finish(config, frame, Completion::Gives(Value::Number(number)))
}

/// After the primitive that a text is made of (section 9.8).
pub(crate) fn text_of_primitive<S: WorldStore>(
    config: &mut Config<S>,
    frame: Frame,
    completion: Completion,
) -> Result<(), OutOfMemory>
    requires runs { Runs S.meaning config.old frame }
    requires completion { HasCompletion config.old completion }
    ensures { Resumes S.meaning frame (Point.Call CallPoint.TextOfPrimitive) completion config.old config.new result }
{
    let Completion::Gives(value) = completion else {
        return finish(config, frame, completion);
    };
    let text = text_of(config, value)?;
    finish(config, frame, Completion::Gives(Value::Text(text)))
}

/// After the primitive that a whole number is made of (section 9.4).
pub(crate) fn integer_of_primitive<S: WorldStore>(
    config: &mut Config<S>,
    frame: Frame,
    completion: Completion,
) -> Result<(), OutOfMemory>
    requires runs { Runs S.meaning config.old frame }
    requires completion { HasCompletion config.old completion }
    ensures { Resumes S.meaning frame (Point.Call CallPoint.IntegerOfPrimitive) completion config.old config.new result }
{
    let Completion::Gives(value) = completion else {
        return finish(config, frame, completion);
    };
    let number = integer_of(config, value);
    finish(config, frame, Completion::Gives(Value::Number(number)))
}
