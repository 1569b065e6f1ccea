//! Truth values, numbers and texts of values.
ghost use Rattle.std.specs.Prelude.{◌≡◌, true, Some, IfOk, OnOk, OnErr};
ghost use Rattle.wjs_base.specs.Range.{InRange};
ghost use Rattle.wjs_base.specs.Text.{Grows, Interns, IsTable};
ghost use Rattle.wjs_by_content.specs.Tables.{value_in, knows_value};
ghost use Rattle.wjs_by_content.specs.Conversions.{to_boolean, primitive_number, primitive_text};

use std::alloc::Global;
use wjs_base::{OutOfMemory, TextId, Value, Whole};
use wjs_num::{read_text, write_radix};
use wjs_texts::{LONGEST_TEXT, Texts};

/// `undefined`, `null`, `true` and `false`.
const UNDEFINED: [u16; 9] = [117, 110, 100, 101, 102, 105, 110, 101, 100];

const NULL: [u16; 4] = [110, 117, 108, 108];

const TRUE: [u16; 4] = [116, 114, 117, 101];

const FALSE: [u16; 5] = [102, 97, 108, 115, 101];

/// Whether the value counts as true (ECMA-262, 3rd edition, section 9.2): not undefined, null, false, 0, NaN and the empty
/// text.
#[inline(always)]
pub fn to_boolean(texts: &Texts, value: Value) -> bool
    requires { knows_value texts.now value ≡ true }
    ensures { result ≡ to_boolean (value_in texts.now value) }
{
    match value {
        Value::Undefined | Value::Null => false,
        Value::Bool(truth) => truth,
        Value::Number(number) => matches!(number.get(), Some(n) if n != 0),
        Value::Text(id) => !texts.units(id).is_empty(),
        Value::Object(_) => true,
    }
}

/// The number that a primitive counts as (ECMA-262, 3rd edition, section 9.3): NaN for undefined, 0 for null and false, 1
/// for true, and of a text what it spells. An object counts as NaN.
#[inline(always)]
pub fn to_number(texts: &Texts, value: Value) -> Whole
    requires { knows_value texts.now value ≡ true }
    ensures { result.number ≡ primitive_number (value_in texts.now value) }
{
    match value {
        Value::Undefined | Value::Object(_) => Whole::NAN,
        Value::Null | Value::Bool(false) => whole(0),
        Value::Bool(true) => whole(1),
        Value::Number(number) => number,
        Value::Text(id) => read_text(texts.units(id)),
    }
}

/// The text of a primitive (ECMA-262, 3rd edition, section 9.8): its keyword, the decimal digits of a number with `-` where
/// it is below 0, or `NaN`, and a text itself. The text of an object is empty.
pub fn to_text(alloc: Global, texts: &mut Texts, value: Value) -> Result<TextId, OutOfMemory>
    requires { knows_value texts.old value ≡ true }
    ensures ok { IfOk result (Interns texts.old texts.new (primitive_text (value_in texts.old value))) }
    ensures err { OnErr result (texts.new ≡ texts.old) }
    ensures table { OnOk result (IsTable texts.new) }
    ensures grows { Grows texts.old texts.new }
{
    match value {
        Value::Undefined => interned(texts, &UNDEFINED),
        Value::Null => interned(texts, &NULL),
        Value::Bool(true) => interned(texts, &TRUE),
        Value::Bool(false) => interned(texts, &FALSE),
        Value::Number(number) => {
            let digits = write_radix(alloc, number, 10)?;
            interned(texts, digits.as_slice())
        }
        Value::Text(id) => {
            prove!(texts.units(id).len() <= LONGEST_TEXT);
            Ok(id)
        }
        Value::Object(_) => interned(texts, &[]),
    }
}

/// A number that is in range.
fn whole(number: i64) -> Whole
    requires { InRange number }
    ensures { result.number ≡ Some number }
{
    Whole::new(number).unwrap()
}

/// The number of the text of the units, which are not too many for a text.
fn interned(texts: &mut Texts, units: &[u16]) -> Result<TextId, OutOfMemory>
    ensures ok { IfOk result (Interns texts.old texts.new units.now) }
    ensures err { OnErr result (texts.new ≡ texts.old) }
    ensures table { IsTable texts.new }
    ensures grows { Grows texts.old texts.new }
{
    Ok(texts.intern(units)?)
}
