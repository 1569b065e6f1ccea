//! The native functions of Array (ECMA-262, 3rd edition, section 15.4).
ghost use Rattle.std.specs.Prelude.{◌≡◌, MatchOption, All, map};
ghost use Rattle.wjs_base.specs.Text.{Table};
ghost use Rattle.wjs_by_content.specs.Tables.{value_in};
ghost use Rattle.wjs_by_content.specs.Values.{Number};
ghost use Rattle.wjs_by_content.specs.Properties as plans;
ghost use Rattle.wjs_meaning.specs.Deeds.{Env};
ghost use Rattle.wjs_meaning.specs.NativesOfObjects as line;
ghost use Rattle.wjs_meaning.specs.NewObjects as made;
ghost use Rattle.wjs_model.specs.Soundness.{HasValue};
ghost use Rattle.wjs_frames.specs.Handling.{Runs, GoesOn};

use wjs_base::{OutOfMemory, Value, Whole};
use wjs_calls::{make_array, whole_value};
use wjs_heap_steps::{Known, create_array, is_array, write_known};
use wjs_model::{Config, Frame, Trouble};
use wjs_natives::value_at;
use wjs_step_common::{give, throw};
use wjs_store::WorldStore;

/// An Array: of a length, where one number is given, and else of the arguments (sections 15.4.1 and 15.4.2).
pub(crate) fn new_array<S: WorldStore>(
    config: &mut Config<S>,
    frame: Frame,
    args: &[Value],
) -> Result<(), OutOfMemory>
    requires runs { Runs S.meaning config.old frame }
    requires args { All (HasValue config.old) args.now }
    ensures { GoesOn S.meaning frame config.old config.new result (λ t env. line.new_array (map (value_in t) args.now) env) }
{
    match only_number(args) {
        Some(length) => array_of_length(config, frame, length),
        None => array_of(config, frame, args),
    }
}

/// The number that is the only value.
fn only_number(values: &[Value]) -> Option<Whole>
    ensures { MatchOption result ((t : Table) (env : Env) →
        made.make_array (map (value_in t) values.now) env line.give_object ≡ line.new_array (map (value_in t) values.now) env)
        (λ length. (t : Table) (env : Env) →
        line.array_of_length (plans.length_of_value (Number length.number)) env ≡ line.new_array (map (value_in t) values.now) env) }
{
    let Value::Number(length) = value_at(values, 0) else {
        return None;
    };
    if values.len() == 1 {
        Some(length)
    } else {
        None
    }
}

/// An Array of these elements.
fn array_of<S: WorldStore>(
    config: &mut Config<S>,
    frame: Frame,
    args: &[Value],
) -> Result<(), OutOfMemory>
    requires runs { Runs S.meaning config.old frame }
    requires args { All (HasValue config.old) args.now }
    ensures { GoesOn S.meaning frame config.old config.new result (λ t env. made.make_array (map (value_in t) args.now) env line.give_object) }
{
    let array = make_array(config, &frame, args)?;
    give(config, frame, Value::Object(array))
}

/// An Array of a length, without elements.
fn array_of_length<S: WorldStore>(
    config: &mut Config<S>,
    frame: Frame,
    length: Whole,
) -> Result<(), OutOfMemory>
    requires runs { Runs S.meaning config.old frame }
    ensures { GoesOn S.meaning frame config.old config.new result (λ t env. line.array_of_length (plans.length_of_value (Number length.number)) env) }
{
    let Some(length) = length_of(length) else {
        return throw(config, frame, Trouble::InvalidArrayLength);
    };
    let value = whole_value(length as usize)?;
    let array = create_array(config)?;
    write_known(config, &frame, array, Known::Length, value)?;
    give(config, frame, Value::Object(array))
}

/// `isArray`: whether a value is an Array.
pub(crate) fn give_is_array<S: WorldStore>(
    config: &mut Config<S>,
    frame: Frame,
    value: Value,
) -> Result<(), OutOfMemory>
    requires runs { Runs S.meaning config.old frame }
    requires value { HasValue config.old value }
    ensures { GoesOn S.meaning frame config.old config.new result (λ t env. line.array_is_array (value_in t value)) }
{
    match value {
        Value::Object(object) => {
            let answer = is_array(config, object);
            give(config, frame, Value::Bool(answer))
        }
        _ => give(config, frame, Value::Bool(false)),
    }
}

/// The array length that a number is (section 15.4.2.2); None where it is none.
fn length_of(number: Whole) -> Option<u32>
    ensures { plans.length_of_value (Number number.number) ≡ result }
{
    let n = number.get()?;
    if n < 0 || n > 4_294_967_295 {
        return None;
    }
    Some(n as u32)
}
