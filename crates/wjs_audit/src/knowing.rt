//! Whether a table has what a log speaks of.
ghost use Rattle.std.specs.Prelude.{◌↔◌, IsTrue, All};
ghost use Rattle.wjs_base.specs.Text.{Has};
ghost use Rattle.wjs_audit.specs.Logs.{KnowsName, KnowsValue, KnowsContent, KnowsVerdict, KnowsDeed, KnowsLog};

use crate::deed::Deed;
use crate::log::Log;
use wjs_base::{Content, Name, Names, Slot, TextId, Value};
use wjs_store::Verdict;
use wjs_texts::Texts;

/// The greatest array index (ECMA-262, 3rd edition, section 15.4).
const GREATEST_INDEX: u32 = 4_294_967_294;

fn knows_text(id: TextId, texts: &Texts) -> bool
    ensures { IsTrue result ↔ Has texts.now id }
{
    id.0 < texts.len() as u64
}

fn knows_name(name: Name, texts: &Texts) -> bool
    ensures { IsTrue result ↔ KnowsName (Has texts.now) name }
{
    match name {
        Name::Index(index) => index <= GREATEST_INDEX,
        Name::Text(id) => knows_text(id, texts),
    }
}

fn knows_content(content: Content, texts: &Texts) -> bool
    ensures { IsTrue result ↔ KnowsContent (Has texts.now) content }
{
    match content {
        Content::Absent => true,
        Content::Present(value) => knows_value(value, texts),
    }
}

fn knows_value(value: Value, texts: &Texts) -> bool
    ensures { IsTrue result ↔ KnowsValue (Has texts.now) value }
{
    match value {
        Value::Text(id) => knows_text(id, texts),
        _ => true,
    }
}

fn knows_row(slot: Slot, content: Content, texts: &Texts) -> bool
    ensures { IsTrue result ↔ (KnowsName (Has texts.now) slot.name × KnowsContent (Has texts.now) content) }
{
    knows_name(slot.name, texts) && knows_content(content, texts)
}

fn knows_names(names: &Names, texts: &Texts) -> bool
    ensures { IsTrue result ↔ All (KnowsName (Has texts.now)) names.now }
{
    for place in 0..names.len() {
        if !knows_name(names.at(place), texts) {
            return false;
        }
    }
    true
}

fn knows_verdict(verdict: Verdict, texts: &Texts) -> bool
    ensures { IsTrue result ↔ KnowsVerdict (Has texts.now) verdict }
{
    match verdict {
        Verdict::Disagrees(slot) => knows_name(slot.name, texts),
        _ => true,
    }
}

fn knows_deed(deed: &Deed, texts: &Texts) -> bool
    ensures { IsTrue result ↔ KnowsDeed (Has texts.now) deed.now }
{
    match deed {
        Deed::Read { slot, content, .. } => knows_row(*slot, *content, texts),
        Deed::Write { slot, content, .. } => knows_row(*slot, *content, texts),
        Deed::List { names, .. } => knows_names(names, texts),
        Deed::Sprout { .. } => true,
        Deed::Commit { verdict, .. } => knows_verdict(*verdict, texts),
    }
}

/// Whether each text that the log speaks of is in the table, and each index is one: what `spell_log` asks for.
pub fn knows_log(log: &Log, texts: &Texts) -> bool
    ensures { IsTrue result ↔ KnowsLog texts.now log.now }
{
    let entries = log.entries();
    for entry in entries {
        if !knows_deed(&entry.deed, texts) {
            return false;
        }
    }
    true
}
