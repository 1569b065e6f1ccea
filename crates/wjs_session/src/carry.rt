//! What a commit into the session's world writes there.
ghost use Rattle.std.specs.Prelude.{◌≡◌, ◌↔◌, true, false, None, Some, IsTrue, OnOk};
ghost use Rattle.wjs_store.specs.State.{has_world, parent_of, moves, write_all};
ghost use Rattle.wjs_overlay.specs.Store.{check_of};
ghost use Rattle.wjs_session.specs.Stores.{worlds_in};
ghost use Rattle.wjs_session.specs.Session.{world_at};
ghost use Rattle.wjs_session.specs.Kept.{IsSession};
ghost use Rattle.wjs_session.specs.Carried.{Carried};

use wjs_base::{OutOfMemory, WorldId};
use wjs_overlay::Overlay;
use wjs_store::WorldStore;

/// Whether a commit of `at` would move, into `world`.
pub fn moves_into(inner: &Overlay, world: WorldId, at: WorldId) -> bool
    requires live { inner.now.spent ≡ false }
    requires there { IsTrue (has_world (worlds_in inner.now) at) }
    ensures { IsTrue result ↔ ((parent_of (worlds_in inner.now) at ≡ Some world) × (check_of (worlds_in inner.now) at ≡ None)) }
{
    match inner.parent(at) {
        None => false,
        Some(parent) => parent == world && inner.commit_check(at).is_none(),
    }
}

/// Writes in `world` of the shared store what `at` has written.
pub fn carry(
    shared: &mut Overlay,
    inner: &mut Overlay,
    world: WorldId,
    at: WorldId,
) -> Result<(), OutOfMemory>
    requires live { inner.old.spent ≡ false }
    requires kept { IsSession (worlds_in shared.old) world (worlds_in inner.old) }
    requires there { IsTrue (has_world (worlds_in inner.old) at) }
    ensures carried { OnOk result (Carried (worlds_in shared.old) world (worlds_in inner.old) at (worlds_in shared.new)) }
    ensures writes { OnOk result (worlds_in shared.new ≡ write_all world (moves (world_at (worlds_in inner.old) at)) (worlds_in shared.old)) }
    ensures inner { OnOk result (worlds_in inner.new ≡ worlds_in inner.old) }
    ensures works { OnOk result ((shared.new.spent ≡ shared.old.spent) × (inner.new.spent ≡ inner.old.spent)) }
{
    let mut passed = None;
    'slots: while let Some(slot) = inner.next_written(at, passed) {
        let content = inner.read(at, slot)?;
        shared.write(world, slot, content)?;
        passed = Some(slot);
    }
    Ok(())
}
