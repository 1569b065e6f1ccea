//! The trait of every store of worlds.
ghost use Rattle.std.specs.Prelude.{◌≡◌, not, IsTrue, IfSome, Some, Ok};
ghost use Rattle.wjs_store.specs.State.{has_world, parent_of, found, wrote, listed, sprouted, committed, read, write, list, sprout, commit};
ghost use Rattle.wjs_store.specs.Meaning.{Meaning, IsSound, Answers, AnswersAll, entries_of, writes_of, worlds};
ghost use Rattle.wjs_store.specs.Shown.{content_of, slots_of, verdict_of, first_of, Counts as Counted};

use wjs_base::{Content, Name, Names, ObjId, OutOfMemory, Slot, Value, WorldId};

/// What a commit answers.
#[derive(Clone, Copy, PartialEq, Eq)]
pub enum Verdict {
    /// The check passed, and what was written is in the parent.
    Moved,
    /// The check failed, at this slot before any other; nothing changed.
    Disagrees(Slot),
    /// The world has no parent; nothing changed.
    NoParent,
}

/// The sizes of a world's marks.
#[derive(Clone, Copy)]
pub struct Counts {
    /// Slots with a recorded read.
    pub reads: u64,
    /// Written slots.
    pub writes: u64,
    /// Listed objects.
    pub closed: u64,
}

/// A list of worlds with full contents and marks, whatever is kept of them.
///
/// A store means its worlds under a view: a finite map from slots to values that stands outside the store. It admits
/// some views, its own among them. What a call promises holds under each view that is admitted after the call, and each
/// of these was admitted before it. Which worlds there are, their parents, which of them are strict and their marks are
/// the same under every admitted view. A store that shares nothing admits every view and means the same under each.
///
/// A store may tell the list of its answered actions with their answers, and may have surroundings beside its worlds
/// that no call of the trait changes.
///
/// A call that answers OutOfMemory spends the store: from then on each call that can answer OutOfMemory answers it, and
/// nothing else is known of its contents. Any other answer leaves `is_spent` as it was.
pub trait WorldStore {
    /// What the store means: its worlds under each view, the views that it admits, and what stands beside.
    ghost meaning: { Self → Meaning };

    /// The number of the first world, which has no parent.
    fn first(&self) -> WorldId
        ensures { first_of (worlds (meaning self.now)) ≡ Some result };

    /// Whether there is a world of this number.
    fn has_world(&self, world: WorldId) -> bool
        ensures { result ≡ has_world (worlds (meaning self.now)) world };

    /// Whether a call on this store answered OutOfMemory.
    fn is_spent(&self) -> bool
        ensures { result ≡ (meaning self.now).spent };

    /// What the slot holds in the world. In a world with a parent the content, an absent one too, is recorded where the
    /// slot was untouched: neither read nor written there, and its object not listed there.
    fn read(&mut self, world: WorldId, slot: Slot) -> Result<Content, OutOfMemory>
        requires { IsTrue (has_world (worlds (meaning self.old)) world) }
        ensures { Answers (meaning self.old) (read world slot) (λ content. found (content_of content)) result (meaning self.new) };

    /// What the slot holds, where a `read` of it would leave the store as it is and tell nothing; else None, which any
    /// store may answer.
    fn peek(&self, world: WorldId, slot: Slot) -> Option<Content>
        requires { IsTrue (has_world (worlds (meaning self.now)) world) }
        ensures { IfSome result (λ content. Answers (meaning self.now) (read world slot) (λ c. found (content_of c)) (Ok content) (meaning self.now)) }
    {
        None
    }

    /// Sets the slot in the world, and in each descendant that is reached through worlds in which it is untouched. In a
    /// world with a parent the slot is marked written; where it was neither read nor written there, and its object is
    /// listed there or the world is strict, what it held is first recorded as a read.
    fn write(&mut self, world: WorldId, slot: Slot, content: Content) -> Result<(), OutOfMemory>
        requires { IsTrue (has_world (worlds (meaning self.old)) world) }
        ensures { Answers (meaning self.old) (write world slot (content_of content)) (λ _. wrote) result (meaning self.new) };

    /// Sets slots of an object in the world, as a `write` of each in turn does.
    fn write_rows(
        &mut self,
        world: WorldId,
        object: ObjId,
        rows: &[(Name, Value)],
    ) -> Result<(), OutOfMemory>
        requires { IsTrue (has_world (worlds (meaning self.old)) world) }
        ensures { AnswersAll (meaning self.old) (writes_of world (entries_of object rows.now)) result (meaning self.new) }
    {
        if self.is_spent() {
            return Err(OutOfMemory);
        }
        for row in rows {
            let slot = Slot {
                object,
                name: row.0,
            };
            self.write(world, slot, Content::Present(row.1))?;
        }
        Ok(())
    }

    /// The names of the object's present slots in the world, in the order of slots. In a world with a parent each of
    /// them that was untouched is recorded as read, and the object is marked listed.
    fn list(&mut self, world: WorldId, object: ObjId) -> Result<Names, OutOfMemory>
        requires { IsTrue (has_world (worlds (meaning self.old)) world) }
        ensures { Answers (meaning self.old) (list world object) (λ names. listed (slots_of object names)) result (meaning self.new) };

    /// Makes a child with the world's contents and no marks, strict where that is asked. Its number is the owner's next
    /// serial.
    fn sprout(&mut self, world: WorldId, owner: u32, strict: bool) -> Result<WorldId, OutOfMemory>
        requires { IsTrue (has_world (worlds (meaning self.old)) world) }
        ensures { Answers (meaning self.old) (sprout world owner strict) (λ child. sprouted child) result (meaning self.new) };

    /// Checks that each recorded read is the parent's content still, and that no slot of a listed object is present in
    /// the parent which the world has neither read nor written. Where that holds, the reads are handed to the parent,
    /// the written slots are written there, the listed objects are marked there, and the world's marks are emptied.
    fn commit(&mut self, world: WorldId) -> Result<Verdict, OutOfMemory>
        requires { IsTrue (has_world (worlds (meaning self.old)) world) }
        ensures { Answers (meaning self.old) (commit world) (λ verdict. committed (verdict_of verdict)) result (meaning self.new) };

    /// The world's parent; None exactly for the first world.
    fn parent(&self, world: WorldId) -> Option<WorldId>
        requires { IsTrue (has_world (worlds (meaning self.now)) world) }
        ensures { result ≡ parent_of (worlds (meaning self.now)) world };

    /// The sizes of the world's marks.
    fn counts(&self, world: WorldId) -> Counts
        requires { IsTrue (has_world (worlds (meaning self.now)) world) }
        ensures { Counted (worlds (meaning self.now)) world result };

    /// Unless it is spent, its worlds are a reached state under each admitted view.
    ghost sound: { (store : Self) → IsTrue (not (meaning store).spent) → IsSound (meaning store) };
}
