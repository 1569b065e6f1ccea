//! What stands at places of texts (ECMA-262, 3rd edition, section 15.5.4).
ghost use Rattle.std.specs.Prelude.{◌≡◌, ◌≤◌, IfOk, All, map, length, false};
ghost use Rattle.wjs_by_content.specs.Tables.{value_in};
ghost use Rattle.wjs_base.specs.Text.{Table, Grows, longest};
ghost use Rattle.wjs_by_content.specs.Values.{Number, String};
ghost use Rattle.wjs_meaning.specs.Natives.{native_line};
ghost use Rattle.wjs_meaning.specs.NativesOfObjects as read;
ghost use Rattle.wjs_meaning.specs.NativesOfTexts as line;
ghost use Rattle.wjs_meaning.specs.Deeds.{Env, give};
ghost use Rattle.wjs_model.specs.Soundness.{HasValue};
ghost use Rattle.wjs_frames.specs.Handling.{IsRunning, GoesOn};

use crate::units::copied;
use wjs_arena::{Native, StringNative};
use wjs_base::{OutOfMemory, Value, Whole};
use wjs_model::{Config, Frame};
use wjs_natives::{text_at, text_of, value_at, whole_at};
use wjs_step_common::{give, give_short};
use wjs_store::WorldStore;
use wjs_strings::{
    first_from, kept_within, last_place, limit_of, or_zero, slice, substring, unit_at,
};

/// The code unit at a place, as a text (section 15.5.4.4).
pub(crate) fn char_at<S: WorldStore>(
    config: &mut Config<S>,
    frame: Frame,
    this: Value,
    args: &[Value],
) -> Result<(), OutOfMemory>
    requires running { IsRunning S.meaning config.old }
    requires this { HasValue config.old this }
    ensures { GoesOn S.meaning frame config.old config.new result (λ t env.
        native_line (Native.String StringNative.CharAt) false (value_in t this) (map (value_in t) args.now) env) }
{
    let unit = unit_of(config, this, args);
    give_unit(config, frame, unit)
}

/// The code unit of the receiver at the place that is asked for; None where there is none.
pub(crate) fn unit_of<S: WorldStore>(config: &Config<S>, this: Value, args: &[Value]) -> Option<u16>
    requires { HasValue config.now this }
    ensures { (t : Table) → Grows config.now.heap.texts t →
        line.unit_at (read.text_of (value_in t this)) (read.whole_at (map (value_in t) args.now) 0) ≡ result }
{
    unit_at(text_of(config, this), whole_at(args, 0))
}

/// Ends with a code unit as a text, which is empty where there is none.
fn give_unit<S: WorldStore>(
    config: &mut Config<S>,
    frame: Frame,
    unit: Option<u16>,
) -> Result<(), OutOfMemory>
    requires running { IsRunning S.meaning config.old }
    ensures { GoesOn S.meaning frame config.old config.new result (λ t env. line.char_at unit) }
{
    match unit {
        None => give_short(config, frame, &[]),
        Some(unit) => give_short(config, frame, &[unit]),
    }
}

/// The code unit at a place, as a number (section 15.5.4.5).
pub(crate) fn char_code_at<S: WorldStore>(
    config: &mut Config<S>,
    frame: Frame,
    this: Value,
    args: &[Value],
) -> Result<(), OutOfMemory>
    requires running { IsRunning S.meaning config.old }
    requires this { HasValue config.old this }
    ensures { GoesOn S.meaning frame config.old config.new result (λ t env.
        native_line (Native.String StringNative.CharCodeAt) false (value_in t this) (map (value_in t) args.now) env) }
{
    let code = code_at(config, this, args);
    give(config, frame, Value::Number(code))
}

/// The number that `charCodeAt` gives.
pub(crate) fn code_at<S: WorldStore>(config: &Config<S>, this: Value, args: &[Value]) -> Whole
    requires { HasValue config.now this }
    ensures { (t : Table) → Grows config.now.heap.texts t → (env : Env) →
        native_line (Native.String StringNative.CharCodeAt) false (value_in t this) (map (value_in t) args.now) env ≡ give (Number result.number) }
{
    code_of(unit_of(config, this, args))
}

/// A code unit as a number; NaN where there is none.
fn code_of(unit: Option<u16>) -> Whole
    ensures { (t : Table) → line.char_code_at unit ≡ give (value_in t (Value.Number result)) }
{
    match unit {
        Some(unit) => Whole::new(i64::from(unit)).unwrap(),
        None => Whole::NAN,
    }
}

/// The first place at or after another where a text stands (section 15.5.4.7).
pub(crate) fn index_of<S: WorldStore>(
    config: &mut Config<S>,
    frame: Frame,
    this: Value,
    args: &[Value],
) -> Result<(), OutOfMemory>
    requires running { IsRunning S.meaning config.old }
    requires this { HasValue config.old this }
    requires args { All (HasValue config.old) args.now }
    ensures { GoesOn S.meaning frame config.old config.new result (λ t env.
        native_line (Native.String StringNative.IndexOf) false (value_in t this) (map (value_in t) args.now) env) }
{
    let place = first_place(config, this, args)?;
    give(config, frame, Value::Number(place))
}

/// The number that `indexOf` gives.
pub(crate) fn first_place<S: WorldStore>(
    config: &Config<S>,
    this: Value,
    args: &[Value],
) -> Result<Whole, OutOfMemory>
    requires this { HasValue config.now this }
    requires args { All (HasValue config.now) args.now }
    ensures { IfOk result (λ place. (t : Table) → Grows config.now.heap.texts t → (env : Env) →
        native_line (Native.String StringNative.IndexOf) false (value_in t this) (map (value_in t) args.now) env ≡ give (Number place.number)) }
{
    let alloc = config.heap.arena.allocator();
    let text = text_of(config, this);
    let from = place_of(whole_at(args, 1), text.len());
    let place = first_from(alloc, text, text_at(config, args, 0), from)?;
    place_value(place)
}

/// The last place at or before another where a text stands (section 15.5.4.8).
pub(crate) fn last_index_of<S: WorldStore>(
    config: &mut Config<S>,
    frame: Frame,
    this: Value,
    args: &[Value],
) -> Result<(), OutOfMemory>
    requires running { IsRunning S.meaning config.old }
    requires this { HasValue config.old this }
    requires args { All (HasValue config.old) args.now }
    ensures { GoesOn S.meaning frame config.old config.new result (λ t env.
        native_line (Native.String StringNative.LastIndexOf) false (value_in t this) (map (value_in t) args.now) env) }
{
    let place = final_place(config, this, args)?;
    give(config, frame, Value::Number(place))
}

/// The number that `lastIndexOf` gives.
pub(crate) fn final_place<S: WorldStore>(
    config: &Config<S>,
    this: Value,
    args: &[Value],
) -> Result<Whole, OutOfMemory>
    requires this { HasValue config.now this }
    requires args { All (HasValue config.now) args.now }
    ensures { IfOk result (λ place. (t : Table) → Grows config.now.heap.texts t → (env : Env) →
        native_line (Native.String StringNative.LastIndexOf) false (value_in t this) (map (value_in t) args.now) env ≡ give (Number place.number)) }
{
    let alloc = config.heap.arena.allocator();
    let text = text_of(config, this);
    let limit = limit_of(whole_at(args, 1), text.len());
    let place = last_place(alloc, text, text_at(config, args, 0), limit)?;
    place_value(place)
}

/// The place that a number counts as in a text of a length.
fn place_of(number: Whole, length: usize) -> usize
    ensures is { result ≡ line.kept_within (line.or_zero number.number) length }
    ensures within { result ≤ length }
{
    kept_within(or_zero(number), length)
}

/// A place as a number, and -1 where there is none. No text in memory is so long that a place is no number.
fn place_value(place: Option<usize>) -> Result<Whole, OutOfMemory>
    ensures { IfOk result (λ number. line.place_value place ≡ Number number.number) }
{
    let number = match place {
        None => Whole::new(-1),
        Some(place) if place <= 9_007_199_254_740_991 => Whole::new(place as i64),
        Some(_) => None,
    };
    match number {
        Some(number) => Ok(number),
        None => Err(OutOfMemory),
    }
}

/// The part between two places (section 15.5.4.15).
pub(crate) fn give_substring<S: WorldStore>(
    config: &mut Config<S>,
    frame: Frame,
    this: Value,
    args: &[Value],
) -> Result<(), OutOfMemory>
    requires running { IsRunning S.meaning config.old }
    requires this { HasValue config.old this }
    ensures { GoesOn S.meaning frame config.old config.new result (λ t env.
        native_line (Native.String StringNative.Substring) false (value_in t this) (map (value_in t) args.now) env) }
{
    let units = substring_units(config, this, args)?;
    give_short(config, frame, units.as_slice())
}

/// The code units of the text that `substring` gives.
pub(crate) fn substring_units<S: WorldStore>(
    config: &Config<S>,
    this: Value,
    args: &[Value],
) -> Result<Vec<u16>, OutOfMemory>
    requires { HasValue config.now this }
    ensures short { IfOk result (λ units. length units.items ≤ longest) }
    ensures units { IfOk result (λ units. (t : Table) → Grows config.now.heap.texts t → (env : Env) →
        native_line (Native.String StringNative.Substring) false (value_in t this) (map (value_in t) args.now) env ≡ give (String units.items)) }
{
    let alloc = config.heap.arena.allocator();
    let text = text_of(config, this);
    copied(alloc, substring(text, whole_at(args, 0), value_at(args, 1)))
}

/// The part from a place to before another, where places below 0 count from the end (section 15.5.4.13).
pub(crate) fn give_slice<S: WorldStore>(
    config: &mut Config<S>,
    frame: Frame,
    this: Value,
    args: &[Value],
) -> Result<(), OutOfMemory>
    requires running { IsRunning S.meaning config.old }
    requires this { HasValue config.old this }
    ensures { GoesOn S.meaning frame config.old config.new result (λ t env.
        native_line (Native.String StringNative.Slice) false (value_in t this) (map (value_in t) args.now) env) }
{
    let units = slice_units(config, this, args)?;
    give_short(config, frame, units.as_slice())
}

/// The code units of the text that `slice` gives.
pub(crate) fn slice_units<S: WorldStore>(
    config: &Config<S>,
    this: Value,
    args: &[Value],
) -> Result<Vec<u16>, OutOfMemory>
    requires { HasValue config.now this }
    ensures short { IfOk result (λ units. length units.items ≤ longest) }
    ensures units { IfOk result (λ units. (t : Table) → Grows config.now.heap.texts t → (env : Env) →
        native_line (Native.String StringNative.Slice) false (value_in t this) (map (value_in t) args.now) env ≡ give (String units.items)) }
{
    let alloc = config.heap.arena.allocator();
    let text = text_of(config, this);
    copied(alloc, slice(text, whole_at(args, 0), value_at(args, 1)))
}
