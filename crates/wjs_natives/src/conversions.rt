//! The conversions of a native function's receiver and arguments, one after another.
ghost use Rattle.std.specs.Prelude.{◌≡◌, ◌+◌, ◌-◌, ◌^◌, ◌<◌, IfOk, OnOk, MatchResult, All, map, length, slice_index_or, true};
ghost use Rattle.wjs_base.specs.Text.{Table, Grows};
ghost use Rattle.wjs_by_content.specs.Tables.{value_in};
ghost use Rattle.wjs_by_content.specs.Conversions.{is_object};
ghost use Rattle.wjs_meaning.specs.Deeds.{Env, Sub, give, then_value};
ghost use Rattle.wjs_meaning.specs.Kinds.{convert};
ghost use Rattle.wjs_model.specs.Rest.{begin_conversion};
ghost use Rattle.wjs_frames.specs.Doing.{Does};
ghost use Rattle.wjs_frames.specs.Shortening.{Shortens};
ghost use Rattle.wjs_heap.specs.Means.{nothing};
ghost use Rattle.wjs_model.specs.Soundness.{Base, HasValue};
ghost use Rattle.wjs_frames.specs.Parts.{env_in};
ghost use Rattle.wjs_frames.specs.Following.{Later};
ghost use Rattle.wjs_natives.specs.Converting.{converting, placed, Progresses};
ghost use Rattle.wjs_frames.specs.Handling.{Runs, GoesOn};

use crate::arguments::value_at;
use crate::items::items_of;
use crate::kinds::{conversion_of, kind_at};
use crate::primitives::convert_primitive;
use wjs_arena::Native;
use wjs_base::{OutOfMemory, Value};
use wjs_frames::convert;
use wjs_meaning::Kind;
use wjs_model::{Config, Conversion, Frame, Point};
use wjs_step_common::number_of;
use wjs_store::WorldStore;

/// Where a turn of a native function is.
#[derive(Drop)]
pub enum Progress {
    /// It is over: a value is being converted, or the function has ended.
    Over,
    /// All is converted, and the function runs in this frame, with these values, the receiver first.
    Runs(Frame, Vec<Value>),
}

/// Goes on with the conversions from a place on. The values before it are converted; so many arguments were given.
pub(crate) fn convert_rest<S: WorldStore>(
    config: &mut Config<S>,
    frame: Frame,
    native: Native,
    by_new: bool,
    mut values: Vec<Value>,
    given: usize,
    mut at: usize,
) -> Result<Progress, OutOfMemory>
    requires runs { Runs S.meaning config.old frame }
    requires values { All (HasValue config.old) values.items }
    requires given { at < length values.items → length values.items ≡ given + 1 }
    requires short { given < 2 ^ 63 }
    ensures { IfOk result (λ progress. Progresses S.meaning native by_new frame
        (λ t. converting native by_new given (map (value_in t) values.items) at
        (env_in S.meaning config.old t frame)) progress config.old config.new) }
{
    'values: while let Some(kind) = kind_at(native, given, at) {
        let value = value_at(&values, at);
        match convert_now(config, kind, value)? {
            Ok(converted) => put(&mut values, at, converted)?,
            Err(conversion) => {
                wait_for(config, frame, native, by_new, &values, at, conversion)?;
                return Ok(Progress::Over);
            }
        }
        at += 1;
    }
    values.truncate(at);
    Ok(Progress::Runs(frame, values))
}

/// What a value is converted to at once; else the conversion that an object needs.
fn convert_now<S: WorldStore>(
    config: &mut Config<S>,
    kind: Kind,
    value: Value,
) -> Result<Result<Value, Conversion>, OutOfMemory>
    requires base { Base S.meaning config.old }
    requires value { HasValue config.old value }
    ensures does { OnOk result (Does S.meaning (λ t go. go nothing) (λ t. nothing) config.old config.new) }
    ensures later { OnOk result (Later S.meaning config.old config.new) }
    ensures found { IfOk result (λ answer. IfOk answer (λ converted. HasValue config.new converted)) }
    ensures converts { IfOk result
        (λ answer. MatchResult answer (λ converted. (t : Table) → Grows config.new.heap.texts t → (env : Env) →
        Shortens (convert kind (value_in t value) env) (give (value_in t converted)))
        (λ conversion. ((t : Table) (env : Env) → convert kind (value_in t value) env ≡ begin_conversion conversion (value_in t value) env) ×
        ((t : Table) → is_object (value_in t value) ≡ true))) }
{
    let Some(conversion) = conversion_of(kind, value) else {
        return Ok(Ok(value));
    };
    if let Value::Object(_) = value {
        return Ok(Err(conversion));
    }
    let converted = convert_primitive(config, conversion, value)?;
    Ok(Ok(converted))
}

/// Puts a value at a place; past the end it is put last.
pub(crate) fn put(values: &mut Vec<Value>, at: usize, value: Value) -> Result<(), OutOfMemory>
    ensures { OnOk result (values.new.items ≡ placed values.old.items at value) }
{
    if at < values.len() {
        values[at] = value;
        return Ok(());
    }
    values.push(value)?;
    Ok(())
}

/// The frame waits while the value at a place is converted, and holds all values.
fn wait_for<S: WorldStore>(
    config: &mut Config<S>,
    mut frame: Frame,
    native: Native,
    by_new: bool,
    values: &[Value],
    at: usize,
    conversion: Conversion,
) -> Result<(), OutOfMemory>
    requires runs { Runs S.meaning config.old frame }
    requires values { All (HasValue config.old) values.now }
    requires at { at < length values.now }
    ensures { GoesOn S.meaning frame config.old config.new result (λ t env.
        Sub (begin_conversion conversion (value_in t (slice_index_or values.now at Value.Undefined)) env)
        (then_value (λ v. converting native by_new (length values.now - 1) (placed (map (value_in t) values.now) at v) (at + 1) env))) }
{
    let number = number_of(at)?;
    let value = values[at];
    frame.set_held(items_of(config, values)?);
    convert(
        config,
        frame,
        Point::Native(native, by_new, number),
        conversion,
        value,
    )
}
