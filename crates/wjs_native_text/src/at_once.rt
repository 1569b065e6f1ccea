//! Native functions whose results are told at once, with no frame (ECMA-262, 3rd edition, section 15).
ghost use Rattle.std.specs.Prelude.{◌≡◌, ◌≤◌, length, All, IfOk, OnOk, IfSome, IfNone, false, map};
ghost use Rattle.wjs_base.specs.Text.{Table, longest};
ghost use Rattle.wjs_by_content.specs.Tables.{value_in};
ghost use Rattle.wjs_by_content.specs.Values.{String};
ghost use Rattle.wjs_meaning.specs.Deeds.{Env, Sub, Gives};
ghost use Rattle.wjs_meaning.specs.Natives.{native_of};
ghost use Rattle.wjs_model.specs.Soundness.{Base, HasValue};
ghost use Rattle.wjs_frames.specs.Doing.{Does};
ghost use Rattle.wjs_frames.specs.Following.{Later};
ghost use Rattle.wjs_native_text.specs.AtOnce.{is_told, LineGives};

use crate::globals::truth_given;
use crate::math::number_given;
use crate::places::{code_at, final_place, first_place, slice_units, substring_units, unit_of};
use crate::strings::units_of_numbers;
use wjs_arena::{GlobalNative, Native, StringNative};
use wjs_base::{OutOfMemory, Value};
use wjs_heap_steps::intern;
use wjs_model::Config;
use wjs_natives::stay;
use wjs_store::WorldStore;
use wjs_texts::LONGEST_TEXT;

/// What a native function gives at once: one of `Math`, `isNaN`, `String.fromCharCode`, or `charAt`, `charCodeAt`, `indexOf`, `lastIndexOf`,
/// `substring` or `slice` of a text, where the receiver and the arguments stay as they are and nothing is thrown. None where a frame runs
/// it, and then nothing has changed.
pub fn native_at_once<S: WorldStore>(
    config: &mut Config<S>,
    native: Native,
    this: Value,
    args: &[Value],
) -> Result<Option<Value>, OutOfMemory>
    requires base { Base S.meaning config.old }
    requires this { HasValue config.old this }
    requires args { All (HasValue config.old) args.now }
    ensures same { IfOk result (λ done. IfNone done (config.new ≡ config.old)) }
    ensures does { IfOk result (λ done. IfSome done (λ v. (env : Table → Env) → ((t : Table) → (env t).this ≡ value_in t this) → Does S.meaning
        (λ t go. Sub (native_of native false (map (value_in t) args.now) (env t)) go) (λ t. Gives (value_in t v)) config.old config.new)) }
    ensures later { OnOk result (Later S.meaning config.old config.new) }
    ensures found { IfOk result (λ done. IfSome done (λ v. HasValue config.new v)) }
{
    if !is_told(native) {
        return Ok(None);
    }
    if !stay(native, this, args) {
        return Ok(None);
    }
    line_at_once(config, native, this, args)
}

/// Whether `native_at_once` tells what a native function gives.
fn is_told(native: Native) -> bool
    ensures { result ≡ is_told native }
{
    match native {
        Native::Global(GlobalNative::IsNaN) | Native::Math(_) => true,
        Native::String(native) => matches!(
            native,
            StringNative::FromCharCode
                | StringNative::CharAt
                | StringNative::CharCodeAt
                | StringNative::IndexOf
                | StringNative::LastIndexOf
                | StringNative::Substring
                | StringNative::Slice
        ),
        _ => false,
    }
}

/// What a native function gives of a converted receiver and converted arguments.
fn line_at_once<S: WorldStore>(
    config: &mut Config<S>,
    native: Native,
    this: Value,
    args: &[Value],
) -> Result<Option<Value>, OutOfMemory>
    requires base { Base S.meaning config.old }
    requires this { HasValue config.old this }
    requires args { All (HasValue config.old) args.now }
    ensures same { IfOk result (λ done. IfNone done (config.new ≡ config.old)) }
    ensures does { IfOk result (λ done. IfSome done (λ v. LineGives S.meaning native this args.now v config.old config.new)) }
    ensures later { OnOk result (Later S.meaning config.old config.new) }
    ensures found { IfOk result (λ done. IfSome done (λ v. HasValue config.new v)) }
{
    match native {
        Native::Global(native) => match truth_given(native, args) {
            Some(truth) => Ok(Some(Value::Bool(truth))),
            None => Ok(None),
        },
        Native::String(native) => string_at_once(config, native, this, args),
        Native::Math(native) => match number_given(native, args) {
            Some(number) => Ok(Some(Value::Number(number))),
            None => Ok(None),
        },
        _ => Ok(None),
    }
}

/// The same of a function of String.
fn string_at_once<S: WorldStore>(
    config: &mut Config<S>,
    native: StringNative,
    this: Value,
    args: &[Value],
) -> Result<Option<Value>, OutOfMemory>
    requires base { Base S.meaning config.old }
    requires this { HasValue config.old this }
    requires args { All (HasValue config.old) args.now }
    ensures same { IfOk result (λ done. IfNone done (config.new ≡ config.old)) }
    ensures does { IfOk result (λ done. IfSome done (λ v. LineGives S.meaning (Native.String native) this args.now v config.old config.new)) }
    ensures later { OnOk result (Later S.meaning config.old config.new) }
    ensures found { IfOk result (λ done. IfSome done (λ v. HasValue config.new v)) }
{
    match native {
        StringNative::FromCharCode => codes_text(config, this, args),
        StringNative::CharAt => Ok(Some(char_text(config, this, args)?)),
        StringNative::CharCodeAt => Ok(Some(Value::Number(code_at(config, this, args)))),
        StringNative::IndexOf => Ok(Some(Value::Number(first_place(config, this, args)?))),
        StringNative::LastIndexOf => Ok(Some(Value::Number(final_place(config, this, args)?))),
        StringNative::Substring => Ok(Some(substring_text(config, this, args)?)),
        StringNative::Slice => Ok(Some(slice_text(config, this, args)?)),
        _ => Ok(None),
    }
}

/// The text of numbers that `String.fromCharCode` gives; None where it is too long.
fn codes_text<S: WorldStore>(
    config: &mut Config<S>,
    this: Value,
    args: &[Value],
) -> Result<Option<Value>, OutOfMemory>
    requires base { Base S.meaning config.old }
    ensures same { IfOk result (λ done. IfNone done (config.new ≡ config.old)) }
    ensures does { IfOk result (λ done. IfSome done (λ v. LineGives S.meaning (Native.String StringNative.FromCharCode) this args.now v config.old config.new)) }
    ensures later { OnOk result (Later S.meaning config.old config.new) }
    ensures found { IfOk result (λ done. IfSome done (λ v. HasValue config.new v)) }
{
    let units = units_of_numbers(config.heap.arena.allocator(), args)?;
    if units.len() > LONGEST_TEXT {
        return Ok(None);
    }
    let text = text_value(config, units.as_slice())?;
    Ok(Some(text))
}

/// The text that `charAt` gives.
fn char_text<S: WorldStore>(
    config: &mut Config<S>,
    this: Value,
    args: &[Value],
) -> Result<Value, OutOfMemory>
    requires base { Base S.meaning config.old }
    requires this { HasValue config.old this }
    ensures does { IfOk result (λ v. LineGives S.meaning (Native.String StringNative.CharAt) this args.now v config.old config.new) }
    ensures later { OnOk result (Later S.meaning config.old config.new) }
    ensures found { IfOk result (λ v. HasValue config.new v) }
{
    match unit_of(config, this, args) {
        None => text_value(config, &[]),
        Some(unit) => text_value(config, &[unit]),
    }
}

/// The text that `substring` gives.
fn substring_text<S: WorldStore>(
    config: &mut Config<S>,
    this: Value,
    args: &[Value],
) -> Result<Value, OutOfMemory>
    requires base { Base S.meaning config.old }
    requires this { HasValue config.old this }
    ensures does { IfOk result (λ v. LineGives S.meaning (Native.String StringNative.Substring) this args.now v config.old config.new) }
    ensures later { OnOk result (Later S.meaning config.old config.new) }
    ensures found { IfOk result (λ v. HasValue config.new v) }
{
    let units = substring_units(config, this, args)?;
    text_value(config, units.as_slice())
}

/// The text that `slice` gives.
fn slice_text<S: WorldStore>(
    config: &mut Config<S>,
    this: Value,
    args: &[Value],
) -> Result<Value, OutOfMemory>
    requires base { Base S.meaning config.old }
    requires this { HasValue config.old this }
    ensures does { IfOk result (λ v. LineGives S.meaning (Native.String StringNative.Slice) this args.now v config.old config.new) }
    ensures later { OnOk result (Later S.meaning config.old config.new) }
    ensures found { IfOk result (λ v. HasValue config.new v) }
{
    let units = slice_units(config, this, args)?;
    text_value(config, units.as_slice())
}

/// The text of code units. No deed is done.
fn text_value<S: WorldStore>(config: &mut Config<S>, units: &[u16]) -> Result<Value, OutOfMemory>
    requires base { Base S.meaning config.old }
    requires short { length units.now ≤ longest }
    ensures does { IfOk result (λ v. Does S.meaning (λ t go. go (String units.now)) (λ t. value_in t v) config.old config.new) }
    ensures later { OnOk result (Later S.meaning config.old config.new) }
    ensures found { IfOk result (λ v. HasValue config.new v) }
{
    let id = intern(config, units)?;
    Ok(Value::Text(id))
}
