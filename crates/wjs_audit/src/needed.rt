//! The lines of the texts that a log needs: each stands above the first deed that names its text.
ghost use Rattle.std.specs.Prelude.{◌≡◌, ◌<◌, ◌^◌, ◌++◌, ◌∷◌, [], length, flat_map, All, IfOk, OnOk};
ghost use Rattle.std.specs.String.{string_bytes};
ghost use Rattle.wjs_base.specs.Text.{Has, IsTable};
ghost use Rattle.wjs_audit.specs.Spelling.{log_text};
ghost use Rattle.wjs_audit.specs.Logs.{KnowsName, KnowsValue, KnowsContent, KnowsVerdict, KnowsDeed};
ghost use Rattle.wjs_audit.specs.Tables.{name_ids, value_ids, content_ids, verdict_ids, deed_ids, text_line, no_marks, Puts};

use crate::deed::Deed;
use crate::spelling::push_text;
use std::alloc::Global;
use wjs_base::{Content, Name, Names, OutOfMemory, Slot, TextId, Value};
use wjs_store::Verdict;
use wjs_texts::Texts;

/// No text of a table has a line yet.
pub(crate) fn unmarked(alloc: Global, texts: &Texts) -> Result<Vec<bool>, OutOfMemory>
    ensures marks { IfOk result (λ marks. marks.items ≡ no_marks texts.now) }
    ensures table { IsTable texts.now }
    ensures few { length texts.now < 2 ^ 64 }
{
    let count = texts.len();
    Ok(vec![in alloc; false; count]?)
}

/// Puts the line of a text of the table behind a text, where it doesn't stand there yet.
fn push_line(out: &mut String, stands: bool, texts: &Texts, id: TextId) -> Result<(), OutOfMemory>
    requires { Has texts.now id }
    ensures { OnOk result (string_bytes out.new ≡ string_bytes out.old ++ log_text (text_line texts.now stands id)) }
{
    if stands {
        return Ok(());
    }
    push_text(out, id.0, texts.units(id))?;
    Ok(())
}

/// Puts the line of a text of the table behind a text, where it has none yet, and marks it.
fn push_marked(
    out: &mut String,
    marks: &mut Vec<bool>,
    texts: &Texts,
    id: TextId,
) -> Result<(), OutOfMemory>
    requires has { Has texts.now id }
    requires long { length marks.old.items ≡ length texts.now }
    ensures { OnOk result (Puts texts.now (id ∷ []) (string_bytes out.old) (string_bytes out.new) marks.old.items marks.new.items) }
{
    let place = id.0 as usize;
    push_line(out, marks[place], texts, id)?;
    marks[place] = true;
    Ok(())
}

/// The text of a name.
fn push_name_text(
    out: &mut String,
    marks: &mut Vec<bool>,
    texts: &Texts,
    name: Name,
) -> Result<(), OutOfMemory>
    requires has { KnowsName (Has texts.now) name }
    requires long { length marks.old.items ≡ length texts.now }
    ensures { OnOk result (Puts texts.now (name_ids name) (string_bytes out.old) (string_bytes out.new) marks.old.items marks.new.items) }
{
    match name {
        Name::Index(_) => Ok(()),
        Name::Text(id) => push_marked(out, marks, texts, id),
    }
}

/// The text of a value, where it is one.
fn push_value_text(
    out: &mut String,
    marks: &mut Vec<bool>,
    texts: &Texts,
    value: Value,
) -> Result<(), OutOfMemory>
    requires has { KnowsValue (Has texts.now) value }
    requires long { length marks.old.items ≡ length texts.now }
    ensures { OnOk result (Puts texts.now (value_ids value) (string_bytes out.old) (string_bytes out.new) marks.old.items marks.new.items) }
{
    match value {
        Value::Text(id) => push_marked(out, marks, texts, id),
        _ => Ok(()),
    }
}

/// The text of a content, where it is one.
fn push_content_text(
    out: &mut String,
    marks: &mut Vec<bool>,
    texts: &Texts,
    content: Content,
) -> Result<(), OutOfMemory>
    requires has { KnowsContent (Has texts.now) content }
    requires long { length marks.old.items ≡ length texts.now }
    ensures { OnOk result (Puts texts.now (content_ids content) (string_bytes out.old) (string_bytes out.new) marks.old.items marks.new.items) }
{
    match content {
        Content::Absent => Ok(()),
        Content::Present(value) => push_value_text(out, marks, texts, value),
    }
}

/// The texts of a slot and its content.
fn push_row_texts(
    out: &mut String,
    marks: &mut Vec<bool>,
    texts: &Texts,
    slot: Slot,
    content: Content,
) -> Result<(), OutOfMemory>
    requires name { KnowsName (Has texts.now) slot.name }
    requires content { KnowsContent (Has texts.now) content }
    requires long { length marks.old.items ≡ length texts.now }
    ensures { OnOk result (Puts texts.now (name_ids slot.name ++ content_ids content)
        (string_bytes out.old) (string_bytes out.new) marks.old.items marks.new.items) }
{
    push_name_text(out, marks, texts, slot.name)?;
    push_content_text(out, marks, texts, content)?;
    Ok(())
}

/// The texts of names.
fn push_names_texts(
    out: &mut String,
    marks: &mut Vec<bool>,
    texts: &Texts,
    names: &Names,
) -> Result<(), OutOfMemory>
    requires has { All (KnowsName (Has texts.now)) names.now }
    requires long { length marks.old.items ≡ length texts.now }
    ensures { OnOk result (Puts texts.now (flat_map name_ids names.now) (string_bytes out.old) (string_bytes out.new) marks.old.items marks.new.items) }
{
    for place in 0..names.len() {
        push_name_text(out, marks, texts, names.at(place))?;
    }
    Ok(())
}

/// The text of a verdict's slot.
fn push_verdict_text(
    out: &mut String,
    marks: &mut Vec<bool>,
    texts: &Texts,
    verdict: Verdict,
) -> Result<(), OutOfMemory>
    requires has { KnowsVerdict (Has texts.now) verdict }
    requires long { length marks.old.items ≡ length texts.now }
    ensures { OnOk result (Puts texts.now (verdict_ids verdict) (string_bytes out.old) (string_bytes out.new) marks.old.items marks.new.items) }
{
    match verdict {
        Verdict::Moved => Ok(()),
        Verdict::Disagrees(slot) => push_name_text(out, marks, texts, slot.name),
        Verdict::NoParent => Ok(()),
    }
}

/// Puts the lines of the texts that a deed names behind a text, where they have none yet, and marks them.
pub(crate) fn push_texts_of(
    out: &mut String,
    marks: &mut Vec<bool>,
    texts: &Texts,
    deed: &Deed,
) -> Result<(), OutOfMemory>
    requires has { KnowsDeed (Has texts.now) deed.now }
    requires long { length marks.old.items ≡ length texts.now }
    ensures { OnOk result (Puts texts.now (deed_ids deed.now) (string_bytes out.old) (string_bytes out.new) marks.old.items marks.new.items) }
{
    match deed {
        Deed::Read { slot, content, .. } => push_row_texts(out, marks, texts, *slot, *content),
        Deed::Write { slot, content, .. } => push_row_texts(out, marks, texts, *slot, *content),
        Deed::List { names, .. } => push_names_texts(out, marks, texts, names),
        Deed::Sprout { .. } => Ok(()),
        Deed::Commit { verdict, .. } => push_verdict_text(out, marks, texts, *verdict),
    }
}
