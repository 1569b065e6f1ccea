//! Number and Boolean (ECMA-262, 3rd edition, sections 15.6 and 15.7).
ghost use Rattle.std.specs.Prelude.{All, map, false};
ghost use Rattle.wjs_by_content.specs.Tables.{value_in};
ghost use Rattle.wjs_by_content.specs.Values.{Undefined};
ghost use Rattle.wjs_meaning.specs.Natives.{native_line};
ghost use Rattle.wjs_meaning.specs.NativesOfTexts as line;
ghost use Rattle.wjs_model.specs.Soundness.{HasValue};
ghost use Rattle.wjs_frames.specs.Handling.{IsRunning, GoesOn};

use crate::receivers::{primitive_value, wrapped};
use wjs_arena::{BooleanNative, Native, NumberNative};
use wjs_base::{OutOfMemory, Value, Whole};
use wjs_model::{Config, Frame, Trouble};
use wjs_natives::value_at;
use wjs_num::write_radix;
use wjs_step_common::{give_text, throw, to_boolean};
use wjs_store::WorldStore;

/// The number that is given, or 0; a wrapper of it where `new` calls (sections 15.7.1 and 15.7.2).
pub(crate) fn new_number<S: WorldStore>(
    config: &mut Config<S>,
    frame: Frame,
    by_new: bool,
    args: &[Value],
) -> Result<(), OutOfMemory>
    requires running { IsRunning S.meaning config.old }
    requires args { All (HasValue config.old) args.now }
    ensures { GoesOn S.meaning frame config.old config.new result (λ t env.
        native_line (Native.Number NumberNative.Constructor) by_new Undefined (map (value_in t) args.now) env) }
{
    match args.first() {
        None => wrapped(config, frame, by_new, Value::Number(Whole::new(0).unwrap())),
        Some(number) => wrapped(config, frame, by_new, *number),
    }
}

/// What is given as a truth value; a wrapper of it where `new` calls (sections 15.6.1 and 15.6.2).
pub(crate) fn new_boolean<S: WorldStore>(
    config: &mut Config<S>,
    frame: Frame,
    by_new: bool,
    args: &[Value],
) -> Result<(), OutOfMemory>
    requires running { IsRunning S.meaning config.old }
    requires args { All (HasValue config.old) args.now }
    ensures { GoesOn S.meaning frame config.old config.new result (λ t env.
        native_line (Native.Boolean BooleanNative.Constructor) by_new Undefined (map (value_in t) args.now) env) }
{
    let truth = to_boolean(config, value_at(args, 0));
    wrapped(config, frame, by_new, Value::Bool(truth))
}

/// The number of a receiver as a text (section 15.7.4.2).
pub(crate) fn number_text<S: WorldStore>(
    config: &mut Config<S>,
    frame: Frame,
    this: Value,
    args: &[Value],
) -> Result<(), OutOfMemory>
    requires running { IsRunning S.meaning config.old }
    requires this { HasValue config.old this }
    ensures { GoesOn S.meaning frame config.old config.new result (λ t env.
        native_line (Native.Number NumberNative.ToString) false (value_in t this) (map (value_in t) args.now) env) }
{
    match primitive_value(config, this) {
        Value::Number(number) => with_radix(config, frame, number, value_at(args, 0)),
        _ => throw(config, frame, Trouble::WrongReceiver),
    }
}

/// A number as a text in a radix, which is 10 where it is undefined.
fn with_radix<S: WorldStore>(
    config: &mut Config<S>,
    frame: Frame,
    number: Whole,
    radix: Value,
) -> Result<(), OutOfMemory>
    requires running { IsRunning S.meaning config.old }
    ensures { GoesOn S.meaning frame config.old config.new result (λ t env. line.with_radix number.number (value_in t radix) env) }
{
    match radix {
        Value::Undefined => text_in_radix(config, frame, number, 10),
        Value::Number(radix) => match radix.get() {
            Some(radix) => text_in_radix(config, frame, number, radix),
            None => throw(config, frame, Trouble::InvalidRadix),
        },
        _ => throw(config, frame, Trouble::InvalidRadix),
    }
}

/// A number as a text in a radix from 2 to 36.
fn text_in_radix<S: WorldStore>(
    config: &mut Config<S>,
    frame: Frame,
    number: Whole,
    radix: i64,
) -> Result<(), OutOfMemory>
    requires running { IsRunning S.meaning config.old }
    ensures { GoesOn S.meaning frame config.old config.new result (λ t env. line.text_in_radix number.number radix env) }
{
    if radix < 2 || radix > 36 {
        return throw(config, frame, Trouble::InvalidRadix);
    }
    let alloc = config.heap.arena.allocator();
    let units = write_radix(alloc, number, radix as u32)?;
    give_text(config, frame, units.as_slice())
}
