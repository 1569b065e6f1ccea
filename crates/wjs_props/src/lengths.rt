//! The `length` of an Array.
ghost use Rattle.std.specs.Prelude.{◌≡◌, ◌≤◌, IfOk, IsTrue};
ghost use Rattle.wjs_base.specs.Spelling.{IsName};
ghost use Rattle.wjs_base.specs.Text.{Table, Denotes, Grows, IsTable, Units};
ghost use Rattle.wjs_by_content.specs.Names as names;
ghost use Rattle.wjs_by_content.specs.Tables.{name_in, value_in, content_in};
ghost use Rattle.wjs_by_content.specs.Values as values;
ghost use Rattle.wjs_by_content.specs.Properties as plan;

use wjs_base::{Content, Name, OutOfMemory, TextId, Value, Whole};
use wjs_texts::{Known, Texts};

/// The code units of `length`.
const LENGTH: [u16; 6] = [108, 101, 110, 103, 116, 104];

/// The greatest length of an Array (ECMA-262, 3rd edition, section 15.4).
const GREATEST_LENGTH: i64 = 4_294_967_295;

/// Whether the text is `length`.
pub fn is_length(texts: &Texts, id: TextId) -> bool
    requires { IsName texts.now (Name.Text id) }
    ensures { result ≡ values.same_text (name_in texts.now (Name.Text id)) names.length_name }
{
    texts.units(id) == LENGTH.as_slice()
}

/// The name `length`, which becomes a text where it is none; a text that is there is found without a copy.
pub fn length_name(texts: &mut Texts) -> Result<Name, OutOfMemory>
    requires { IsTable texts.old }
    ensures name { IfOk result (λ name. IsName texts.new name) }
    ensures spells { IfOk result (λ name. name_in texts.new name ≡ names.length_name) }
    ensures table { IsTable texts.new }
    ensures grows { Grows texts.old texts.new }
{
    if let Some(id) = texts.known(Known::Length) {
        return Ok(Name::Text(id));
    }
    let id = texts.intern(&LENGTH)?;
    Ok(Name::Text(id))
}

/// The length that a value is; None where it is no Number from 0 to 4,294,967,295.
pub fn length_of_value(value: Value) -> Option<u32>
    ensures { (texts : Table) → plan.length_of_value (value_in texts value) ≡ result }
{
    let Value::Number(whole) = value else {
        return None;
    };
    let number = whole.get()?;
    if number < 0 || number > GREATEST_LENGTH {
        return None;
    }
    Some(number as u32)
}

/// The length of an Array whose `length` holds this: 0 where that is no length.
pub fn length_of(found: Content) -> u32
    ensures { (texts : Table) → plan.length_of (content_in texts found) ≡ result }
{
    match found {
        Content::Absent => 0,
        Content::Present(value) => length_of_value(value).unwrap_or(0),
    }
}

/// A length as a value.
pub fn value_of_length(length: u32) -> Value
    ensures { (texts : Table) → value_in texts result ≡ values.whole length }
{
    Value::Number(Whole::new(length as i64).unwrap())
}
