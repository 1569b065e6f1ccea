//! The log of a store.
ghost use Rattle.std.specs.Prelude.{◌≡◌, false, map as each, Some, IfOk};
ghost use Rattle.wjs_audit.specs.Deeds.{told_of};
ghost use Rattle.wjs_by_content.specs.Worlds.{told_in};
ghost use Rattle.wjs_heap.specs.Heap.{KnowsTold};
ghost use Rattle.wjs_logs.specs.Telling.{Tells};

use std::alloc::Global;
use wjs_audit::{Logged, spell_log};
use wjs_base::OutOfMemory;
use wjs_store::WorldStore;
use wjs_texts::Texts;

/// The bytes of a store's log, with the texts of a table that knows its actions. They tell these actions, by content.
pub fn spell_store<S: WorldStore + Drop>(
    alloc: Global,
    store: &Logged<S>,
    texts: &Texts,
) -> Result<Vec<u8>, OutOfMemory>
    requires works { store.now.spent ≡ false }
    requires known { KnowsTold texts.now (Some (told_of store.now.log)) }
    ensures { IfOk result (λ bytes. Tells bytes.items (each (told_in texts.now) (told_of store.now.log))) }
{
    spell_log(alloc, store.entries(), texts)
}
