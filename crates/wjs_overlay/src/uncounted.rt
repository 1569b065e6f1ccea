//! The calls of the store of sparse worlds whose steps nobody counts.
ghost use Rattle.std.specs.Prelude.{◌≡◌, ◌<◌, IsTrue, IfSome, Ok};
ghost use Rattle.wjs_store.specs.Meaning.{Answers, AnswersAll, entries_of, writes_of, worlds};
ghost use Rattle.wjs_store.specs.State.{has_world, read, write, list, sprout, commit, found, wrote, listed, sprouted, committed};
ghost use Rattle.wjs_store.specs.Shown.{content_of, slots_of, verdict_of};

use crate::overlay::Overlay;
use std::sync::ledger::{Blank, Ledger};
use wjs_base::{Content, Name, Names, ObjId, OutOfMemory, Slot, Value, WorldId};
use wjs_rows::Steps;
use wjs_store::{Verdict, WorldStore};

/// `read`, whose steps nobody counts.
#[inline(always)]
pub fn read_uncounted<L: Ledger>(
    store: &mut Overlay,
    world: WorldId,
    slot: Slot,
    blank: Blank,
) -> Result<Content, OutOfMemory>
    requires name { blank.name ≡ L.name }
    requires parts { blank.parts ≡ L.parts }
    requires some { 0 < blank.parts }
    requires there { IsTrue (has_world (worlds (⟦<Overlay as WorldStore>⟧.meaning store.old)) world) }
    ensures { Answers (⟦<Overlay as WorldStore>⟧.meaning store.old) (read world slot) (λ content. found (content_of content)) result (⟦<Overlay as WorldStore>⟧.meaning store.new) }
{
    let mut steps = Steps::<L>::new(blank);
    store.read_counted(world, slot, &mut steps)
}

/// `peek`, whose steps nobody counts.
#[inline(always)]
pub fn peek_uncounted<L: Ledger>(
    store: &Overlay,
    world: WorldId,
    slot: Slot,
    blank: Blank,
) -> Option<Content>
    requires name { blank.name ≡ L.name }
    requires parts { blank.parts ≡ L.parts }
    requires some { 0 < blank.parts }
    requires there { IsTrue (has_world (worlds (⟦<Overlay as WorldStore>⟧.meaning store.now)) world) }
    ensures { IfSome result (λ content. Answers (⟦<Overlay as WorldStore>⟧.meaning store.now) (read world slot) (λ c. found (content_of c)) (Ok content) (⟦<Overlay as WorldStore>⟧.meaning store.now)) }
{
    let mut steps = Steps::<L>::new(blank);
    if store.is_spent() {
        return None;
    }
    store.peek_counted(world, slot, &mut steps)
}

/// `write`, whose steps nobody counts.
#[inline(never)]
pub fn write_uncounted<L: Ledger>(
    store: &mut Overlay,
    world: WorldId,
    slot: Slot,
    content: Content,
    blank: Blank,
) -> Result<(), OutOfMemory>
    requires name { blank.name ≡ L.name }
    requires parts { blank.parts ≡ L.parts }
    requires some { 0 < blank.parts }
    requires there { IsTrue (has_world (worlds (⟦<Overlay as WorldStore>⟧.meaning store.old)) world) }
    ensures { Answers (⟦<Overlay as WorldStore>⟧.meaning store.old) (write world slot (content_of content)) (λ _. wrote) result (⟦<Overlay as WorldStore>⟧.meaning store.new) }
{
    let mut steps = Steps::<L>::new(blank);
    store.write_counted(world, slot, content, &mut steps)
}

/// `write_rows`, whose steps nobody counts.
#[inline(never)]
pub fn write_rows_uncounted<L: Ledger>(
    store: &mut Overlay,
    world: WorldId,
    object: ObjId,
    rows: &[(Name, Value)],
    blank: Blank,
) -> Result<(), OutOfMemory>
    requires name { blank.name ≡ L.name }
    requires parts { blank.parts ≡ L.parts }
    requires some { 0 < blank.parts }
    requires there { IsTrue (has_world (worlds (⟦<Overlay as WorldStore>⟧.meaning store.old)) world) }
    ensures { AnswersAll (⟦<Overlay as WorldStore>⟧.meaning store.old) (writes_of world (entries_of object rows.now)) result (⟦<Overlay as WorldStore>⟧.meaning store.new) }
{
    let mut steps = Steps::<L>::new(blank);
    store.write_rows_counted(world, object, rows, &mut steps)
}

/// `list`, whose steps nobody counts.
pub fn list_uncounted<L: Ledger>(
    store: &mut Overlay,
    world: WorldId,
    object: ObjId,
    blank: Blank,
) -> Result<Names, OutOfMemory>
    requires name { blank.name ≡ L.name }
    requires parts { blank.parts ≡ L.parts }
    requires some { 0 < blank.parts }
    requires there { IsTrue (has_world (worlds (⟦<Overlay as WorldStore>⟧.meaning store.old)) world) }
    ensures { Answers (⟦<Overlay as WorldStore>⟧.meaning store.old) (list world object) (λ names. listed (slots_of object names)) result (⟦<Overlay as WorldStore>⟧.meaning store.new) }
{
    let mut steps = Steps::<L>::new(blank);
    store.list_counted(world, object, &mut steps)
}

/// `sprout`, whose steps nobody counts.
pub fn sprout_uncounted<L: Ledger>(
    store: &mut Overlay,
    world: WorldId,
    owner: u32,
    strict: bool,
    blank: Blank,
) -> Result<WorldId, OutOfMemory>
    requires name { blank.name ≡ L.name }
    requires parts { blank.parts ≡ L.parts }
    requires some { 0 < blank.parts }
    requires there { IsTrue (has_world (worlds (⟦<Overlay as WorldStore>⟧.meaning store.old)) world) }
    ensures { Answers (⟦<Overlay as WorldStore>⟧.meaning store.old) (sprout world owner strict) (λ child. sprouted child) result (⟦<Overlay as WorldStore>⟧.meaning store.new) }
{
    let mut steps = Steps::<L>::new(blank);
    store.sprout_counted(world, owner, strict, &mut steps)
}

/// `commit`, whose steps nobody counts.
pub fn commit_uncounted<L: Ledger>(
    store: &mut Overlay,
    world: WorldId,
    blank: Blank,
) -> Result<Verdict, OutOfMemory>
    requires name { blank.name ≡ L.name }
    requires parts { blank.parts ≡ L.parts }
    requires some { 0 < blank.parts }
    requires there { IsTrue (has_world (worlds (⟦<Overlay as WorldStore>⟧.meaning store.old)) world) }
    ensures { Answers (⟦<Overlay as WorldStore>⟧.meaning store.old) (commit world) (λ verdict. committed (verdict_of verdict)) result (⟦<Overlay as WorldStore>⟧.meaning store.new) }
{
    let mut steps = Steps::<L>::new(blank);
    store.commit_counted(world, &mut steps)
}
