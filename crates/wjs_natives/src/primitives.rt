//! Primitives are converted at once, with no frame (ECMA-262, 3rd edition, section 9).
ghost use Rattle.std.specs.Prelude.{◌≡◌, IfOk, OnOk, false, Some, pos, unwrap_or};
ghost use Rattle.wjs_base.specs.Text.{Table, Grows};
ghost use Rattle.wjs_by_content.specs.Tables.{value_in};
ghost use Rattle.wjs_by_content.specs.Values.{Number, String};
ghost use Rattle.wjs_by_content.specs.Conversions.{is_object, primitive_number, primitive_text};
ghost use Rattle.wjs_meaning.specs.Deeds.{Env, give};
ghost use Rattle.wjs_model.specs.Rest.{begin_conversion};
ghost use Rattle.wjs_model.specs.Soundness.{Base, HasValue};
ghost use Rattle.wjs_frames.specs.Doing.{Does};
ghost use Rattle.wjs_frames.specs.Following.{Later};
ghost use Rattle.wjs_frames.specs.Shortening.{Shortens};
ghost use Rattle.wjs_heap.specs.Means.{nothing};

use wjs_base::{OutOfMemory, Value, Whole};
use wjs_model::{Config, Conversion};
use wjs_step_common::to_number;
use wjs_store::WorldStore;

/// What a conversion makes of a primitive. No deed is done; a text that is new is put last.
pub(crate) fn convert_primitive<S: WorldStore>(
    config: &mut Config<S>,
    conversion: Conversion,
    value: Value,
) -> Result<Value, OutOfMemory>
    requires base { Base S.meaning config.old }
    requires value { HasValue config.old value }
    requires primitive { (t : Table) → is_object (value_in t value) ≡ false }
    ensures does { OnOk result (Does S.meaning (λ t go. go nothing) (λ t. nothing) config.old config.new) }
    ensures later { OnOk result (Later S.meaning config.old config.new) }
    ensures found { IfOk result (λ converted. HasValue config.new converted) }
    ensures converts { IfOk result
        (λ converted. (t : Table) → Grows config.new.heap.texts t → (env : Env) →
        Shortens (begin_conversion conversion (value_in t value) env) (give (value_in t converted))) }
{
    match conversion {
        Conversion::TextFirst | Conversion::NumberFirst => Ok(value),
        Conversion::Number => Ok(Value::Number(to_number(config, value))),
        Conversion::Integer => Ok(Value::Number(integer_of(config, value))),
        Conversion::Text => text_of(config, value),
    }
}

/// The number that a primitive counts as, where NaN becomes 0 (section 9.4).
fn integer_of<S: WorldStore>(config: &Config<S>, value: Value) -> Whole
    requires base { Base S.meaning config.now }
    requires value { HasValue config.now value }
    ensures { (t : Table) → Grows config.now.heap.texts t → Some (unwrap_or (primitive_number (value_in t value)) (pos 0)) ≡ result.number }
{
    let number = to_number(config, value);
    match number.get() {
        Some(_) => number,
        None => Whole::new(0).unwrap(),
    }
}

/// The text that a primitive counts as (section 9.8).
fn text_of<S: WorldStore>(config: &mut Config<S>, value: Value) -> Result<Value, OutOfMemory>
    requires base { Base S.meaning config.old }
    requires value { HasValue config.old value }
    requires primitive { (t : Table) → is_object (value_in t value) ≡ false }
    ensures does { OnOk result (Does S.meaning (λ t go. go nothing) (λ t. nothing) config.old config.new) }
    ensures later { OnOk result (Later S.meaning config.old config.new) }
    ensures found { IfOk result (λ text. HasValue config.new text) }
    ensures text { IfOk result (λ text. (t : Table) → Grows config.new.heap.texts t → value_in t text ≡ String (primitive_text (value_in t value))) }
{
    if let Value::Text(_) = value {
        return Ok(value);
    }
    let alloc = config.heap.arena.allocator();
    let id = wjs_convert::to_text(alloc, &mut config.heap.texts, value)?;
    Ok(Value::Text(id))
}
