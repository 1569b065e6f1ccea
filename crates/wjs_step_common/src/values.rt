//! What values count as, in every table of texts that has grown from the one at hand.
ghost use Rattle.std.specs.Prelude.{◌≡◌, true, false};
ghost use Rattle.wjs_base.specs.Text.{Table, Grows};
ghost use Rattle.wjs_by_content.specs.Tables.{value_in};
ghost use Rattle.wjs_by_content.specs.Conversions as conversions;
ghost use Rattle.wjs_model.specs.Soundness.{Base, HasValue};

use wjs_base::{Value, Whole};
use wjs_model::Config;
use wjs_store::WorldStore;

/// Whether it is an object.
#[inline(always)]
pub fn is_object(value: Value) -> bool
    ensures { (t : Table) → conversions.is_object (value_in t value) ≡ result }
{
    matches!(value, Value::Object(_))
}

/// Whether neither is an object.
#[inline(always)]
pub fn are_primitives(left: Value, right: Value) -> bool
    ensures first { result ≡ true → (t : Table) → conversions.is_object (value_in t left) ≡ false }
    ensures second { result ≡ true → (t : Table) → conversions.is_object (value_in t right) ≡ false }
{
    !is_object(left) && !is_object(right)
}

/// Whether it is undefined or null.
#[inline(always)]
pub fn is_nullish(value: Value) -> bool
    ensures { (t : Table) → conversions.is_nullish (value_in t value) ≡ result }
{
    matches!(value, Value::Undefined | Value::Null)
}

/// Whether it is a text.
#[inline(always)]
pub fn is_text(value: Value) -> bool
    ensures { (t : Table) → conversions.is_text (value_in t value) ≡ result }
{
    matches!(value, Value::Text(_))
}

/// Whether the value counts as true (ECMA-262, 3rd edition, section 9.2).
#[inline(always)]
pub fn to_boolean<S: WorldStore>(config: &Config<S>, value: Value) -> bool
    requires base { Base S.meaning config.now }
    requires value { HasValue config.now value }
    ensures { (t : Table) → Grows config.now.heap.texts t → conversions.to_boolean (value_in t value) ≡ result }
{
    wjs_convert::to_boolean(&config.heap.texts, value)
}

/// The number that a primitive counts as (section 9.3).
#[inline(always)]
pub fn to_number<S: WorldStore>(config: &Config<S>, value: Value) -> Whole
    requires base { Base S.meaning config.now }
    requires value { HasValue config.now value }
    ensures { (t : Table) → Grows config.now.heap.texts t → conversions.primitive_number (value_in t value) ≡ result.number }
{
    wjs_convert::to_number(&config.heap.texts, value)
}

/// `===` (section 11.9.6).
#[inline(always)]
pub fn strictly_equal<S: WorldStore>(config: &Config<S>, left: Value, right: Value) -> bool
    requires base { Base S.meaning config.now }
    requires left { HasValue config.now left }
    requires right { HasValue config.now right }
    ensures { (t : Table) → Grows config.now.heap.texts t → conversions.strictly_equal (value_in t left) (value_in t right) ≡ result }
{
    let _config = config;
    wjs_convert::strictly_equal(left, right)
}

/// `==` of primitives (section 11.9.3).
#[inline(always)]
pub fn loosely_equal<S: WorldStore>(config: &Config<S>, left: Value, right: Value) -> bool
    requires base { Base S.meaning config.now }
    requires left { HasValue config.now left }
    requires right { HasValue config.now right }
    ensures { (t : Table) → Grows config.now.heap.texts t → conversions.loosely_equal (value_in t left) (value_in t right) ≡ result }
{
    wjs_convert::loosely_equal(&config.heap.texts, left, right)
}

/// `<` of primitives; None exactly where a number is NaN (section 11.8.5).
#[inline(always)]
pub fn less_than<S: WorldStore>(config: &Config<S>, left: Value, right: Value) -> Option<bool>
    requires base { Base S.meaning config.now }
    requires left { HasValue config.now left }
    requires right { HasValue config.now right }
    ensures { (t : Table) → Grows config.now.heap.texts t → conversions.less_than (value_in t left) (value_in t right) ≡ result }
{
    wjs_convert::less_than(&config.heap.texts, left, right)
}
