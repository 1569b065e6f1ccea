//! Whether an answer is a deed's.
ghost use Rattle.std.specs.Prelude.{◌≡◌, ◌↔◌, IsTrue};
ghost use Rattle.wjs_audit.specs.Deeds.{answer_of_deed};

use crate::deed::Deed;
use wjs_base::{Content, Name, Names, Slot, WorldId, same_value};
use wjs_store::{Answer, Verdict};

fn same_content(a: Content, b: Content) -> bool
    ensures { IsTrue result ↔ (a ≡ b) }
{
    match a {
        Content::Absent => match b {
            Content::Absent => true,
            Content::Present(_) => false,
        },
        Content::Present(a) => match b {
            Content::Absent => false,
            Content::Present(b) => same_value(a, b),
        },
    }
}

fn same_name(a: Name, b: Name) -> bool
    ensures { IsTrue result ↔ (a ≡ b) }
{
    match a {
        Name::Index(a) => match b {
            Name::Index(b) => a == b,
            Name::Text(_) => false,
        },
        Name::Text(a) => match b {
            Name::Index(_) => false,
            Name::Text(b) => a.0 == b.0,
        },
    }
}

fn same_world(a: WorldId, b: WorldId) -> bool
    ensures { IsTrue result ↔ (a ≡ b) }
{
    a.owner == b.owner && a.serial == b.serial
}

fn same_slot(a: Slot, b: Slot) -> bool
    ensures { IsTrue result ↔ (a ≡ b) }
{
    let same_object = a.object.owner == b.object.owner && a.object.serial == b.object.serial;
    same_object && same_name(a.name, b.name)
}

fn same_verdict(a: Verdict, b: Verdict) -> bool
    ensures { IsTrue result ↔ (a ≡ b) }
{
    match a {
        Verdict::Moved => match b {
            Verdict::Moved => true,
            _ => false,
        },
        Verdict::Disagrees(a) => match b {
            Verdict::Disagrees(b) => same_slot(a, b),
            _ => false,
        },
        Verdict::NoParent => match b {
            Verdict::NoParent => true,
            _ => false,
        },
    }
}

fn same_names(a: &Names, b: &Names) -> bool
    ensures { IsTrue result ↔ (a.now ≡ b.now) }
{
    if a.len() != b.len() {
        return false;
    }
    for place in 0..a.len() {
        if !same_name(a.at(place), b.at(place)) {
            return false;
        }
    }
    true
}

fn is_found(answer: &Answer, content: Content) -> bool
    ensures { IsTrue result ↔ (answer.now ≡ Answer.Found content) }
{
    match answer {
        Answer::Found(found) => same_content(*found, content),
        _ => false,
    }
}

fn is_wrote(answer: &Answer) -> bool
    ensures { IsTrue result ↔ (answer.now ≡ Answer.Wrote) }
{
    match answer {
        Answer::Wrote => true,
        _ => false,
    }
}

fn is_listed(answer: &Answer, names: &Names) -> bool
    ensures { IsTrue result ↔ (answer.now ≡ Answer.Listed names.now) }
{
    match answer {
        Answer::Listed(listed) => same_names(listed, names),
        _ => false,
    }
}

fn is_sprouted(answer: &Answer, child: WorldId) -> bool
    ensures { IsTrue result ↔ (answer.now ≡ Answer.Sprouted child) }
{
    match answer {
        Answer::Sprouted(sprouted) => same_world(*sprouted, child),
        _ => false,
    }
}

fn is_committed(answer: &Answer, verdict: Verdict) -> bool
    ensures { IsTrue result ↔ (answer.now ≡ Answer.Committed verdict) }
{
    match answer {
        Answer::Committed(committed) => same_verdict(*committed, verdict),
        _ => false,
    }
}

/// Whether an answer is the one that a deed has.
pub fn is_same(answer: &Answer, deed: &Deed) -> bool
    ensures { IsTrue result ↔ (answer.now ≡ answer_of_deed deed.now) }
{
    match deed {
        Deed::Read { content, .. } => is_found(answer, *content),
        Deed::Write { .. } => is_wrote(answer),
        Deed::List { names, .. } => is_listed(answer, names),
        Deed::Sprout { child, .. } => is_sprouted(answer, *child),
        Deed::Commit { verdict, .. } => is_committed(answer, *verdict),
    }
}
