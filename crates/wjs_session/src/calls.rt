//! The calls of a session on its two stores.
//!
//! What is done in the session's own world is done in the shared store, which marks that world. What is done in a world below
//! it is done in the inner store, once the slots that it asks for are brought inside: read in the shared world, and written in
//! the inner first world. So a session without worlds below its own makes one call of the shared store for each of its own.
ghost use Rattle.std.specs.Prelude.{◌≡◌, true, false, IsTrue, OnOk, IfOk};
ghost use Rattle.std.specs.List.{AllByRecursion};
ghost use Rattle.wjs_base.specs.declared.values.Slot.{Slot};
ghost use Rattle.wjs_store.specs.State.{has_world, parent_of, read, write, list, commit, found, wrote, listed, committed, after_read};
ghost use Rattle.wjs_store.specs.Shown.{content_of, slots_of, verdict_of};
ghost use Rattle.wjs_session.specs.Stores.{worlds_in};
ghost use Rattle.wjs_session.specs.Session.{world_at, settled};
ghost use Rattle.wjs_session.specs.Kept.{IsSession, IsAlone};
ghost use Rattle.wjs_session.specs.Calls.{Answered, Brought, Marks, AllTouched};

use crate::carry::{carry, moves_into};
use wjs_base::{Content, Names, ObjId, OutOfMemory, Slot, WorldId};
use wjs_overlay::Overlay;
use wjs_store::{Verdict, WorldStore, same_content};

/// Brings what the session's world holds in a slot into the inner store.
fn bring(
    shared: &mut Overlay,
    inner: &mut Overlay,
    world: WorldId,
    slot: Slot,
) -> Result<(), OutOfMemory>
    requires kept { IsSession (worlds_in shared.old) world (worlds_in inner.old) }
    ensures brought { OnOk result (Brought (worlds_in shared.old) world (worlds_in inner.old) (worlds_in shared.new) (worlds_in inner.new)) }
    ensures settled { OnOk result (settled (world_at (worlds_in shared.new) world) (worlds_in inner.new) slot ≡ true) }
    ensures reads { OnOk result (worlds_in shared.new ≡ after_read (worlds_in shared.old) world slot) }
    ensures works { OnOk result ((shared.new.spent ≡ shared.old.spent) × (inner.new.spent ≡ inner.old.spent)) }
{
    let held = shared.read(world, slot)?;
    let inside = inner.read(world, slot)?;
    if !same_content(inside, held) {
        inner.write(world, slot, held)?;
    }
    Ok(())
}

/// Brings the slots of an object with these names.
fn bring_all(
    shared: &mut Overlay,
    inner: &mut Overlay,
    world: WorldId,
    object: ObjId,
    names: &Names,
) -> Result<(), OutOfMemory>
    requires kept { IsSession (worlds_in shared.old) world (worlds_in inner.old) }
    ensures brought { OnOk result (Brought (worlds_in shared.old) world (worlds_in inner.old) (worlds_in shared.new) (worlds_in inner.new)) }
    ensures settled { OnOk result (AllByRecursion
        (λ (s : Slot). settled (world_at (worlds_in shared.new) world) (worlds_in inner.new) s ≡ true) (slots_of object names.now)) }
    ensures stays { OnOk result (AllTouched (worlds_in shared.old) world object → worlds_in shared.new ≡ worlds_in shared.old) }
    ensures works { OnOk result ((shared.new.spent ≡ shared.old.spent) × (inner.new.spent ≡ inner.old.spent)) }
{
    for place in 0..names.len() {
        let name = names.at(place);
        bring(shared, inner, world, Slot { object, name })?;
    }
    Ok(())
}

pub fn read(
    shared: &mut Overlay,
    inner: &mut Overlay,
    world: WorldId,
    at: WorldId,
    slot: Slot,
) -> Result<Content, OutOfMemory>
    requires kept { IsSession (worlds_in shared.old) world (worlds_in inner.old) }
    requires there { IsTrue (has_world (worlds_in inner.old) at) }
    ensures answered { IfOk result (λ content. Answered (worlds_in shared.old) world (worlds_in inner.old)
        (read at slot) (found (content_of content)) (worlds_in shared.new) (worlds_in inner.new)) }
    ensures marks { OnOk result (Marks (worlds_in shared.old) world (worlds_in inner.old) (read at slot) (worlds_in shared.new)) }
    ensures alone { OnOk result (IsAlone (worlds_in inner.old) → IsAlone (worlds_in inner.new)) }
    ensures works { OnOk result ((shared.new.spent ≡ shared.old.spent) × (inner.new.spent ≡ inner.old.spent)) }
{
    if at == world {
        return shared.read(world, slot);
    }
    bring(shared, inner, world, slot)?;
    inner.read(at, slot)
}

/// A write; `nested` says whether there are worlds below the session's own.
pub fn write(
    shared: &mut Overlay,
    inner: &mut Overlay,
    world: WorldId,
    nested: bool,
    at: WorldId,
    slot: Slot,
    content: Content,
) -> Result<(), OutOfMemory>
    requires kept { IsSession (worlds_in shared.old) world (worlds_in inner.old) }
    requires there { IsTrue (has_world (worlds_in inner.old) at) }
    requires alone { nested ≡ false → IsAlone (worlds_in inner.old) }
    ensures answered { OnOk result (Answered (worlds_in shared.old) world (worlds_in inner.old)
        (write at slot (content_of content)) wrote (worlds_in shared.new) (worlds_in inner.new)) }
    ensures marks { OnOk result (Marks (worlds_in shared.old) world (worlds_in inner.old) (write at slot (content_of content)) (worlds_in shared.new)) }
    ensures alone { OnOk result (nested ≡ false → IsAlone (worlds_in inner.new)) }
    ensures works { OnOk result ((shared.new.spent ≡ shared.old.spent) × (inner.new.spent ≡ inner.old.spent)) }
{
    if at != world {
        bring(shared, inner, world, slot)?;
        return inner.write(at, slot, content);
    }
    shared.write(world, slot, content)?;
    if nested {
        return inner.write(world, slot, content);
    }
    Ok(())
}

pub fn list(
    shared: &mut Overlay,
    inner: &mut Overlay,
    world: WorldId,
    at: WorldId,
    object: ObjId,
) -> Result<Names, OutOfMemory>
    requires kept { IsSession (worlds_in shared.old) world (worlds_in inner.old) }
    requires there { IsTrue (has_world (worlds_in inner.old) at) }
    ensures answered { IfOk result (λ names. Answered (worlds_in shared.old) world (worlds_in inner.old)
        (list at object) (listed (slots_of object names)) (worlds_in shared.new) (worlds_in inner.new)) }
    ensures marks { OnOk result (Marks (worlds_in shared.old) world (worlds_in inner.old) (list at object) (worlds_in shared.new)) }
    ensures alone { OnOk result (IsAlone (worlds_in inner.old) → IsAlone (worlds_in inner.new)) }
    ensures works { OnOk result ((shared.new.spent ≡ shared.old.spent) × (inner.new.spent ≡ inner.old.spent)) }
{
    let names = shared.list(world, object)?;
    if at == world {
        return Ok(names);
    }
    bring_all(shared, inner, world, object, &names)?;
    inner.list(at, object)
}

/// A commit. One that moves into the session's world writes there what it moves.
pub fn commit(
    shared: &mut Overlay,
    inner: &mut Overlay,
    world: WorldId,
    at: WorldId,
) -> Result<Verdict, OutOfMemory>
    requires live { inner.old.spent ≡ false }
    requires kept { IsSession (worlds_in shared.old) world (worlds_in inner.old) }
    requires there { IsTrue (has_world (worlds_in inner.old) at) }
    ensures answered { IfOk result (λ verdict. Answered (worlds_in shared.old) world (worlds_in inner.old)
        (commit at) (committed (verdict_of verdict)) (worlds_in shared.new) (worlds_in inner.new)) }
    ensures marks { OnOk result (Marks (worlds_in shared.old) world (worlds_in inner.old) (commit at) (worlds_in shared.new)) }
    ensures alone { OnOk result (IsAlone (worlds_in inner.old) → IsAlone (worlds_in inner.new)) }
    ensures works { OnOk result ((shared.new.spent ≡ shared.old.spent) × (inner.new.spent ≡ inner.old.spent)) }
{
    if moves_into(inner, world, at) {
        carry(shared, inner, world, at)?;
    }
    inner.commit(at)
}
