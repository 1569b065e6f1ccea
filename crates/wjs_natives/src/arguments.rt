//! What native functions read of converted values.
ghost use Rattle.std.specs.Prelude.{◌≡◌, ◌≤◌, All, map, length, slice_index_or};
ghost use Rattle.wjs_base.specs.Text.{Table, Grows, longest};
ghost use Rattle.wjs_by_content.specs.Tables.{value_in};
ghost use Rattle.wjs_meaning.specs.NativesOfObjects as line;
ghost use Rattle.wjs_model.specs.Soundness.{HasValue};

use wjs_base::{Value, Whole};
use wjs_heap_steps::units_of;
use wjs_model::Config;
use wjs_store::WorldStore;

/// The value at a place, and undefined past the last.
pub fn value_at(values: &[Value], at: usize) -> Value
    ensures is { result ≡ slice_index_or values.now at Value.Undefined }
    ensures means { (t : Table) → line.value_at (map (value_in t) values.now) at ≡ value_in t result }
{
    match values.get(at) {
        Some(value) => *value,
        None => Value::Undefined,
    }
}

/// The number of a value; NaN of what is none.
pub fn number_of(value: Value) -> Whole
    ensures { (t : Table) → line.whole_of (value_in t value) ≡ result.number }
{
    match value {
        Value::Number(number) => number,
        _ => Whole::NAN,
    }
}

/// The number at a place; NaN where there is none.
pub fn whole_at(values: &[Value], at: usize) -> Whole
    ensures { (t : Table) → line.whole_at (map (value_in t) values.now) at ≡ result.number }
{
    number_of(value_at(values, at))
}

/// The code units of a value; none of what is no text.
pub fn text_of<'a, S: WorldStore>(config: &'a Config<S>, value: Value) -> &'a [u16]
    requires { HasValue config.now value }
    ensures text { (t : Table) → Grows config.now.heap.texts t → line.text_of (value_in t value) ≡ result.now }
    ensures short { length result.now ≤ longest }
{
    match value {
        Value::Text(id) => units_of(config, id),
        _ => &[],
    }
}

/// The code units of the text at a place; none where there is none.
pub fn text_at<'a, S: WorldStore>(config: &'a Config<S>, values: &[Value], at: usize) -> &'a [u16]
    requires { All (HasValue config.now) values.now }
    ensures text { (t : Table) → Grows config.now.heap.texts t → line.text_at (map (value_in t) values.now) at ≡ result.now }
    ensures short { length result.now ≤ longest }
{
    text_of(config, value_at(values, at))
}
