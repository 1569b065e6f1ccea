//! How a log is spelled.
ghost use Rattle.std.specs.Prelude.{◌≡◌, ◌<◌, ◌^◌, ◌++◌, ◌∷◌, [], length, OnOk, IfOk, All, map as each, decimal};
ghost use Rattle.std.specs.String.{string_bytes};
ghost use Rattle.wjs_base.specs.Text.{Has};
ghost use Rattle.wjs_audit.specs.Spelling.{pair_text, world_text, object_text, name_text, number_text, value_text, content_text, kind_text};
ghost use Rattle.wjs_audit.specs.Spelling.{verdict_parts, unit_text, hex, hex_parts, spaced, joined, deed_parts, line_text, log_text, text, done};
ghost use Rattle.wjs_audit.specs.Logs.{FitsPair, FitsWorld, FitsObject, FitsName, FitsValue, FitsContent, FitsVerdict, FitsDeed, KnowsDeed, KnowsLog, Spells};
ghost use Rattle.wjs_audit.specs.Tables.{needed_lines, PutsDeed};

use crate::deed::Deed;
use crate::log::Log;
use crate::needed::{push_texts_of, unmarked};
use std::alloc::Global;
use std::fmt::Write;
use wjs_base::{Content, Name, Names, ObjId, OutOfMemory, Slot, Value, WorldId};
use wjs_store::Verdict;
use wjs_texts::Texts;

/// Puts a word behind a text.
fn push_word(out: &mut String, word: &str) -> Result<(), OutOfMemory>
    ensures { OnOk result (string_bytes out.new ≡ string_bytes out.old ++ word.now) }
{
    out.push_str(word)?;
    Ok(())
}

/// Puts a word and a number in decimal digits behind a text.
fn push_number(out: &mut String, word: &str, number: u64) -> Result<(), OutOfMemory>
    ensures text { OnOk result (string_bytes out.new ≡ string_bytes out.old ++ (word.now ++ decimal number)) }
    ensures fits { number < 2 ^ 64 }
{
    if write!(out, "{word}{number}").is_err() {
        return Err(OutOfMemory);
    }
    Ok(())
}

/// Puts a word and a pair behind a text.
fn push_pair(out: &mut String, word: &str, owner: u32, serial: u64) -> Result<(), OutOfMemory>
    ensures text { OnOk result (string_bytes out.new ≡ string_bytes out.old ++ (word.now ++ pair_text owner serial)) }
    ensures fits { FitsPair owner serial }
{
    if write!(out, "{word}{owner}.{serial}").is_err() {
        return Err(OutOfMemory);
    }
    Ok(())
}

/// Puts a name behind a text.
fn push_name(out: &mut String, name: Name) -> Result<(), OutOfMemory>
    ensures text { OnOk result (string_bytes out.new ≡ string_bytes out.old ++ 32 ∷ name_text name) }
    ensures fits { FitsName name }
{
    match name {
        Name::Index(index) => push_number(out, " #", index as u64),
        Name::Text(id) => push_number(out, " $", id.0),
    }
}

/// Puts a number of the language behind a text.
fn push_whole(out: &mut String, number: Option<i64>) -> Result<(), OutOfMemory>
    ensures { OnOk result (string_bytes out.new ≡ string_bytes out.old ++ 32 ∷ 100 ∷ number_text number) }
{
    match number {
        None => push_word(out, " dn"),
        Some(number) => {
            if write!(out, " d{number}").is_err() {
                return Err(OutOfMemory);
            }
            Ok(())
        }
    }
}

/// Puts a value behind a text.
fn push_value(out: &mut String, value: Value) -> Result<(), OutOfMemory>
    ensures text { OnOk result (string_bytes out.new ≡ string_bytes out.old ++ 32 ∷ value_text value) }
    ensures fits { FitsValue value }
{
    match value {
        Value::Undefined => push_word(out, " u"),
        Value::Null => push_word(out, " l"),
        Value::Bool(true) => push_word(out, " t"),
        Value::Bool(false) => push_word(out, " f"),
        Value::Number(number) => push_whole(out, number.get()),
        Value::Text(id) => push_number(out, " $", id.0),
        Value::Object(object) => push_pair(out, " @", object.owner, object.serial),
    }
}

/// Puts a content behind a text.
fn push_content(out: &mut String, content: Content) -> Result<(), OutOfMemory>
    ensures text { OnOk result (string_bytes out.new ≡ string_bytes out.old ++ 32 ∷ content_text content) }
    ensures fits { FitsContent content }
{
    match content {
        Content::Absent => push_word(out, " -"),
        Content::Present(value) => push_value(out, value),
    }
}

/// Puts a slot behind a text.
fn push_slot(out: &mut String, slot: Slot) -> Result<(), OutOfMemory>
    ensures text { OnOk result (string_bytes out.new ≡ string_bytes out.old ++ spaced (object_text slot.object ∷ name_text slot.name ∷ [])) }
    ensures fits { OnOk result (FitsObject slot.object × FitsName slot.name) }
{
    push_pair(out, " ", slot.object.owner, slot.object.serial)?;
    push_name(out, slot.name)?;
    Ok(())
}

/// Puts a row behind a text: a world, a slot and a content.
fn push_row(
    out: &mut String,
    world: WorldId,
    slot: Slot,
    content: Content,
) -> Result<(), OutOfMemory>
    ensures text { OnOk result (string_bytes out.new ≡ string_bytes out.old ++ spaced
        (world_text world ∷ object_text slot.object ∷ name_text slot.name ∷ content_text content ∷ [])) }
    ensures fits { OnOk result (FitsWorld world × FitsObject slot.object × FitsName slot.name × FitsContent content) }
{
    push_pair(out, " ", world.owner, world.serial)?;
    push_slot(out, slot)?;
    push_content(out, content)?;
    Ok(())
}

/// Puts names behind a text.
fn push_names(out: &mut String, names: &Names) -> Result<(), OutOfMemory>
    ensures text { OnOk result (string_bytes out.new ≡ string_bytes out.old ++ spaced (each name_text names.now)) }
    ensures fits { OnOk result (All FitsName names.now) }
{
    for place in 0..names.len() {
        push_name(out, names.at(place))?;
    }
    Ok(())
}

/// Puts a listing behind a text: a world, an object and the names.
fn push_listing(
    out: &mut String,
    world: WorldId,
    object: ObjId,
    names: &Names,
) -> Result<(), OutOfMemory>
    ensures text { OnOk result (string_bytes out.new ≡ string_bytes out.old ++ spaced (world_text world ∷ object_text object ∷ each name_text names.now)) }
    ensures fits { OnOk result (FitsWorld world × FitsObject object × All FitsName names.now) }
{
    push_pair(out, " ", world.owner, world.serial)?;
    push_pair(out, " ", object.owner, object.serial)?;
    push_names(out, names)?;
    Ok(())
}

/// Puts an owner behind a text.
fn push_owner(out: &mut String, owner: u32) -> Result<(), OutOfMemory>
    ensures text { OnOk result (string_bytes out.new ≡ string_bytes out.old ++ 32 ∷ decimal owner) }
    ensures fits { owner < 2 ^ 32 }
{
    push_number(out, " ", owner as u64)
}

/// Puts the kind of a world behind a text.
fn push_kind(out: &mut String, strict: bool) -> Result<(), OutOfMemory>
    ensures { OnOk result (string_bytes out.new ≡ string_bytes out.old ++ 32 ∷ kind_text strict) }
{
    if strict {
        push_word(out, " s")
    } else {
        push_word(out, " p")
    }
}

/// Puts a sprout behind a text: a world, an owner, the kind and the child.
fn push_sprout(
    out: &mut String,
    world: WorldId,
    owner: u32,
    strict: bool,
    child: WorldId,
) -> Result<(), OutOfMemory>
    ensures text { OnOk result (string_bytes out.new ≡ string_bytes out.old ++ spaced
        (world_text world ∷ decimal owner ∷ kind_text strict ∷ world_text child ∷ [])) }
    ensures fits { OnOk result (FitsWorld world × (owner < 2 ^ 32) × FitsWorld child) }
{
    push_pair(out, " ", world.owner, world.serial)?;
    push_owner(out, owner)?;
    push_kind(out, strict)?;
    push_pair(out, " ", child.owner, child.serial)?;
    Ok(())
}

/// Puts a verdict behind a text.
fn push_verdict(out: &mut String, verdict: Verdict) -> Result<(), OutOfMemory>
    ensures text { OnOk result (string_bytes out.new ≡ string_bytes out.old ++ spaced (verdict_parts verdict)) }
    ensures fits { OnOk result (FitsVerdict verdict) }
{
    match verdict {
        Verdict::Moved => push_word(out, " moved"),
        Verdict::NoParent => push_word(out, " none"),
        Verdict::Disagrees(slot) => {
            push_word(out, " differs")?;
            push_slot(out, slot)?;
            Ok(())
        }
    }
}

/// Puts a commit behind a text: a world and the verdict.
fn push_commit(out: &mut String, world: WorldId, verdict: Verdict) -> Result<(), OutOfMemory>
    ensures text { OnOk result (string_bytes out.new ≡ string_bytes out.old ++ spaced (world_text world ∷ verdict_parts verdict)) }
    ensures fits { OnOk result (FitsWorld world × FitsVerdict verdict) }
{
    push_pair(out, " ", world.owner, world.serial)?;
    push_verdict(out, verdict)?;
    Ok(())
}

/// Puts a deed behind a text, without the end of its line.
fn push_parts(out: &mut String, deed: &Deed) -> Result<(), OutOfMemory>
    ensures text { OnOk result (string_bytes out.new ≡ string_bytes out.old ++ joined (deed_parts deed.now)) }
    ensures fits { OnOk result (FitsDeed deed.now) }
{
    match deed {
        Deed::Read {
            world,
            slot,
            content,
        } => {
            push_word(out, "read")?;
            push_row(out, *world, *slot, *content)?;
            Ok(())
        }
        Deed::Write {
            world,
            slot,
            content,
        } => {
            push_word(out, "write")?;
            push_row(out, *world, *slot, *content)?;
            Ok(())
        }
        Deed::List {
            world,
            object,
            names,
        } => {
            push_word(out, "list")?;
            push_listing(out, *world, *object, names)?;
            Ok(())
        }
        Deed::Sprout {
            world,
            owner,
            strict,
            child,
        } => {
            push_word(out, "sprout")?;
            push_sprout(out, *world, *owner, *strict, *child)?;
            Ok(())
        }
        Deed::Commit { world, verdict } => {
            push_word(out, "commit")?;
            push_commit(out, *world, *verdict)?;
            Ok(())
        }
    }
}

/// Puts the line of a deed behind a text.
fn push_deed(out: &mut String, deed: &Deed) -> Result<(), OutOfMemory>
    ensures text { OnOk result (string_bytes out.new ≡ string_bytes out.old ++ line_text (done deed.now)) }
    ensures fits { OnOk result (FitsDeed deed.now) }
{
    push_parts(out, deed)?;
    push_word(out, "\n")?;
    Ok(())
}

/// Puts a code unit behind a text.
fn push_unit(out: &mut String, unit: u16) -> Result<(), OutOfMemory>
    ensures { OnOk result (string_bytes out.new ≡ string_bytes out.old ++ unit_text unit) }
{
    let first = unit / 4096;
    let second = unit / 256 % 16;
    let third = unit / 16 % 16;
    let fourth = unit % 16;
    if write!(out, "{first:x}{second:x}{third:x}{fourth:x}").is_err() {
        return Err(OutOfMemory);
    }
    Ok(())
}

/// Puts code units behind a text.
fn push_units(out: &mut String, units: &[u16]) -> Result<(), OutOfMemory>
    ensures { OnOk result (string_bytes out.new ≡ string_bytes out.old ++ hex units.now) }
{
    for unit in units {
        push_unit(out, *unit)?;
    }
    Ok(())
}

/// Puts the part of code units behind a text, where there are some.
fn push_hex(out: &mut String, units: &[u16]) -> Result<(), OutOfMemory>
    ensures { OnOk result (string_bytes out.new ≡ string_bytes out.old ++ spaced (hex_parts units.now)) }
{
    if units.is_empty() {
        return Ok(());
    }
    push_word(out, " ")?;
    push_units(out, units)?;
    Ok(())
}

/// Puts the line of a text and its number behind a text.
pub(crate) fn push_text(out: &mut String, number: u64, units: &[u16]) -> Result<(), OutOfMemory>
    ensures text { OnOk result (string_bytes out.new ≡ string_bytes out.old ++ line_text (text number units.now)) }
{
    push_number(out, "text ", number)?;
    push_hex(out, units)?;
    push_word(out, "\n")?;
    Ok(())
}

/// Puts the line of a deed behind a text, and above it those of the texts that it names and that have none yet.
fn push_entry(
    out: &mut String,
    marks: &mut Vec<bool>,
    texts: &Texts,
    deed: &Deed,
) -> Result<(), OutOfMemory>
    requires has { KnowsDeed (Has texts.now) deed.now }
    requires long { length marks.old.items ≡ length texts.now }
    ensures puts { OnOk result (PutsDeed texts.now deed.now (string_bytes out.old) (string_bytes out.new) marks.old.items marks.new.items) }
    ensures fits { OnOk result (FitsDeed deed.now) }
{
    push_texts_of(out, marks, texts, deed)?;
    push_deed(out, deed)?;
    Ok(())
}

/// The bytes of a log: a line for each entry, in their order, and for each text that they name one, above the first that names it.
/// What is read from them are these entries, apart from their lines' numbers.
pub fn spell_log(alloc: Global, log: &Log, texts: &Texts) -> Result<Vec<u8>, OutOfMemory>
    requires { KnowsLog texts.now log.now }
    ensures text { IfOk result (λ bytes. bytes.items ≡ log_text (needed_lines texts.now log.now)) }
    ensures spells { IfOk result (λ bytes. Spells bytes.items log.now texts.now) }
{
    let mut out = String::new(alloc);
    let mut marks = unmarked(alloc, texts)?;
    let entries = log.entries();
    for entry in entries {
        push_entry(&mut out, &mut marks, texts, &entry.deed)?;
    }
    Ok(out.into_bytes())
}
