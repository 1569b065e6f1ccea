//! The deed that a line spells: the reader of each word goes through the parts behind it.
ghost use Rattle.std.specs.Prelude.{◌≡◌, ◌↔◌, ◌++◌, ◌∷◌, [], List, ℕ, IfOk, IsTrue, codes};
ghost use Rattle.wjs_base.specs.Order.{name_cmp};
ghost use Rattle.wjs_store.specs.Ascends.{Ascends};
ghost use Rattle.wjs_audit.specs.Parts.{AreParts};
ghost use Rattle.wjs_audit.specs.Spelling.{spaced, verdict_parts};
ghost use Rattle.wjs_audit.specs.Reading.{IsReadAs, FollowsAs, IsDeedOf, RowMay, NamesMay, VerdictMay, row_parts, names_parts};

use crate::cuts::{is_word, next_part, next_two};
use crate::deed::Deed;
use crate::known::KnownTexts;
use crate::numbers::owner_of;
use crate::parts::{content_of, kind_of, name_of, object_of, slot_of, world_of};
use std::alloc::Global;
use std::cmp::Ordering;
use wjs_base::{Content, Name, Names, OutOfMemory, Slot, WorldId};
use wjs_store::Verdict;

/// What stands behind `read` and `write`.
#[derive(Clone, Copy)]
struct Row {
    world: WorldId,
    slot: Slot,
    content: Content,
}

fn row_of(tail: &[u8], known: &KnownTexts) -> Option<Row>
    ensures { FollowsAs row_parts (RowMay known.now) tail.now result }
{
    let (world, object, rest) = next_two(tail)?;
    let (name, content, rest) = next_two(rest)?;
    if !rest.is_empty() {
        return None;
    }
    let world = world_of(world)?;
    let slot = slot_of(object, name, known)?;
    let content = content_of(content, known)?;
    Some(Row {
        world,
        slot,
        content,
    })
}

fn read_of(tail: &[u8], known: &KnownTexts) -> Option<Deed>
    ensures { IsDeedOf known.now (codes "read") tail.now result }
{
    let row = row_of(tail, known)?;
    Some(Deed::Read {
        world: row.world,
        slot: row.slot,
        content: row.content,
    })
}

fn write_of(tail: &[u8], known: &KnownTexts) -> Option<Deed>
    ensures { IsDeedOf known.now (codes "write") tail.now result }
{
    let row = row_of(tail, known)?;
    Some(Deed::Write {
        world: row.world,
        slot: row.slot,
        content: row.content,
    })
}

/// Whether a name may follow others in a listing.
fn may_follow(names: &Names, name: Name) -> bool
    requires { Ascends name_cmp names.now }
    ensures { IsTrue result ↔ Ascends name_cmp (names.now ++ name ∷ []) }
{
    let count = names.len();
    if count == 0 {
        return true;
    }
    match names.at(count - 1).cmp(&name) {
        Ordering::Less => true,
        _ => false,
    }
}

/// Names that ascend.
fn names_of(alloc: Global, tail: &[u8], known: &KnownTexts) -> Result<Option<Names>, OutOfMemory>
    ensures { IfOk result (FollowsAs names_parts (NamesMay known.now) tail.now) }
{
    let mut names = Names::new(alloc);
    let mut rest = tail;
    while let Some((part, behind)) = next_part(rest) {
        let Some(name) = name_of(part, known) else {
            return Ok(None);
        };
        if !may_follow(&names, name) {
            return Ok(None);
        }
        names.push(name)?;
        rest = behind;
    }
    Ok(Some(names))
}

fn listing_of(alloc: Global, tail: &[u8], known: &KnownTexts) -> Result<Option<Deed>, OutOfMemory>
    ensures { IfOk result (IsDeedOf known.now (codes "list") tail.now) }
{
    let Some((world, object, rest)) = next_two(tail) else {
        return Ok(None);
    };
    let Some(world) = world_of(world) else {
        return Ok(None);
    };
    let Some(object) = object_of(object) else {
        return Ok(None);
    };
    let Some(names) = names_of(alloc, rest, known)? else {
        return Ok(None);
    };
    Ok(Some(Deed::List {
        world,
        object,
        names,
    }))
}

fn sprout_of(tail: &[u8], known: &KnownTexts) -> Option<Deed>
    ensures { IsDeedOf known.now (codes "sprout") tail.now result }
{
    let (world, owner, rest) = next_two(tail)?;
    let (kind, child, rest) = next_two(rest)?;
    if !rest.is_empty() {
        return None;
    }
    let world = world_of(world)?;
    let owner = owner_of(owner)?;
    let strict = kind_of(kind)?;
    let child = world_of(child)?;
    Some(Deed::Sprout {
        world,
        owner,
        strict,
        child,
    })
}

/// The verdict of a commit that was refused: the slot that differs.
fn difference_of(tail: &[u8], known: &KnownTexts) -> Option<Verdict>
    ensures { (parts : List (List ℕ)) → AreParts parts → tail.now ≡ spaced parts
        → IsReadAs verdict_parts (VerdictMay known.now) (codes "differs" ∷ parts) result }
{
    let (object, name, rest) = next_two(tail)?;
    if !rest.is_empty() {
        return None;
    }
    let slot = slot_of(object, name, known)?;
    Some(Verdict::Disagrees(slot))
}

fn verdict_of(tail: &[u8], known: &KnownTexts) -> Option<Verdict>
    ensures { FollowsAs verdict_parts (VerdictMay known.now) tail.now result }
{
    let (word, rest) = next_part(tail)?;
    if is_word(word, b"differs") {
        return difference_of(rest, known);
    }
    if !rest.is_empty() {
        return None;
    }
    if is_word(word, b"moved") {
        return Some(Verdict::Moved);
    }
    if is_word(word, b"none") {
        return Some(Verdict::NoParent);
    }
    None
}

fn commit_of(tail: &[u8], known: &KnownTexts) -> Option<Deed>
    ensures { IsDeedOf known.now (codes "commit") tail.now result }
{
    let (world, rest) = next_part(tail)?;
    let world = world_of(world)?;
    let verdict = verdict_of(rest, known)?;
    Some(Deed::Commit { world, verdict })
}

/// The deed of a line with this first part, and what follows it.
pub(crate) fn deed_of(
    alloc: Global,
    word: &[u8],
    tail: &[u8],
    known: &KnownTexts,
) -> Result<Option<Deed>, OutOfMemory>
    ensures { IfOk result (IsDeedOf known.now word.now tail.now) }
{
    if is_word(word, b"read") {
        return Ok(read_of(tail, known));
    }
    if is_word(word, b"write") {
        return Ok(write_of(tail, known));
    }
    if is_word(word, b"list") {
        return listing_of(alloc, tail, known);
    }
    if is_word(word, b"sprout") {
        return Ok(sprout_of(tail, known));
    }
    if is_word(word, b"commit") {
        return Ok(commit_of(tail, known));
    }
    Ok(None)
}
