//! What a part of a line spells. Each reader gives the one thing in range that is spelled so, and None exactly where there is
//! none.
ghost use Rattle.std.specs.Prelude.{◌≡◌, ◌∷◌, [], decimal, ⊤};
ghost use Rattle.wjs_base.specs.declared.ids.TextId.{TextId};
ghost use Rattle.wjs_audit.specs.Spelling.{world_text, object_text, value_text, content_text, name_text, kind_text};
ghost use Rattle.wjs_audit.specs.Logs.{FitsWorld, FitsObject};
ghost use Rattle.wjs_audit.specs.Reading.{IsReadAs, IdMay, NameMay, SlotMay, ValueMay, ContentMay, IsConstant, slot_parts};

use crate::cuts::is_word;
use crate::known::KnownTexts;
use crate::numbers::{index_of, pair_of, serial_of, whole_of};
use wjs_base::{Content, Name, ObjId, Slot, TextId, Value, WorldId};

/// In front of an index.
const INDEX: u8 = 35;

/// In front of a text's number.
const TEXT: u8 = 36;

/// In front of an object.
const OBJECT: u8 = 64;

/// In front of a number of the language.
const NUMBER: u8 = 100;

pub(crate) fn world_of(part: &[u8]) -> Option<WorldId>
    ensures { IsReadAs world_text FitsWorld part.now result }
{
    let (owner, serial) = pair_of(part)?;
    Some(WorldId { owner, serial })
}

pub(crate) fn object_of(part: &[u8]) -> Option<ObjId>
    ensures { IsReadAs object_text FitsObject part.now result }
{
    let (owner, serial) = pair_of(part)?;
    Some(ObjId { owner, serial })
}

/// A text's number that was named.
fn id_of(digits: &[u8], known: &KnownTexts) -> Option<TextId>
    ensures { IsReadAs (λ (id : TextId). decimal id.0) (IdMay known.now) digits.now result }
{
    let number = serial_of(digits)?;
    if !known.has(number) {
        return None;
    }
    Some(TextId(number))
}

pub(crate) fn name_of(part: &[u8], known: &KnownTexts) -> Option<Name>
    ensures { IsReadAs name_text (NameMay known.now) part.now result }
{
    if part.is_empty() {
        return None;
    }
    match part[0] {
        INDEX => Some(Name::Index(index_of(&part[1..])?)),
        TEXT => Some(Name::Text(id_of(&part[1..], known)?)),
        _ => None,
    }
}

/// The slot of an object's part and a name's.
pub(crate) fn slot_of(object: &[u8], name: &[u8], known: &KnownTexts) -> Option<Slot>
    ensures { IsReadAs slot_parts (SlotMay known.now) (object.now ∷ name.now ∷ []) result }
{
    let object = object_of(object)?;
    let name = name_of(name, known)?;
    Some(Slot { object, name })
}

/// A value that is spelled by one letter.
fn constant_of(part: &[u8]) -> Option<Value>
    ensures { IsReadAs value_text IsConstant part.now result }
{
    if is_word(part, b"u") {
        return Some(Value::Undefined);
    }
    if is_word(part, b"l") {
        return Some(Value::Null);
    }
    if is_word(part, b"t") {
        return Some(Value::Bool(true));
    }
    if is_word(part, b"f") {
        return Some(Value::Bool(false));
    }
    None
}

fn value_of(part: &[u8], known: &KnownTexts) -> Option<Value>
    ensures { IsReadAs value_text (ValueMay known.now) part.now result }
{
    if part.is_empty() {
        return None;
    }
    match part[0] {
        NUMBER => Some(Value::Number(whole_of(&part[1..])?)),
        TEXT => Some(Value::Text(id_of(&part[1..], known)?)),
        OBJECT => Some(Value::Object(object_of(&part[1..])?)),
        _ => constant_of(part),
    }
}

pub(crate) fn content_of(part: &[u8], known: &KnownTexts) -> Option<Content>
    ensures { IsReadAs content_text (ContentMay known.now) part.now result }
{
    if is_word(part, b"-") {
        return Some(Content::Absent);
    }
    let value = value_of(part, known)?;
    Some(Content::Present(value))
}

/// The kind of a world: whether it is strict.
pub(crate) fn kind_of(part: &[u8]) -> Option<bool>
    ensures { IsReadAs kind_text (λ _. ⊤) part.now result }
{
    if is_word(part, b"s") {
        return Some(true);
    }
    if is_word(part, b"p") {
        return Some(false);
    }
    None
}
