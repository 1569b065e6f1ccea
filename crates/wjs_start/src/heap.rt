//! The first heap.
ghost use Rattle.std.specs.Prelude.{All, IfOk};
ghost use Rattle.wjs_base.specs.Text.{Has, IsTable};
ghost use Rattle.wjs_heap.specs.Means.{parts};
ghost use Rattle.wjs_start.specs.First.{IsNew, IsFirst};

use crate::blueprints::blueprints;
use crate::known::make_known;
use crate::making::create_all;
use crate::slots::write_all;
use std::alloc::Global;
use wjs_base::{OutOfMemory, TextId};
use wjs_heap::Heap;
use wjs_store::WorldStore;
use wjs_texts::Texts;

/// What there is before the first step, over a new store, where a script declares these names: the first objects, and the slots
/// of the first world (ECMA-262, 3rd edition, section 15). Texts that are new are put behind those that are in the table.
pub fn first_heap<S: WorldStore + Drop>(
    alloc: Global,
    texts: Texts,
    store: S,
    declared: &[TextId],
) -> Result<Heap<S>, OutOfMemory>
    requires table { IsTable texts }
    requires new { IsNew (S.meaning store) }
    requires declared { All (Has texts) declared.now }
    ensures { IfOk result (λ heap. IsFirst texts (S.meaning store) declared.now (parts S.meaning heap)) }
{
    let mut texts = texts;
    let known = make_known(alloc, &mut texts, declared)?;
    let list = blueprints(alloc)?;
    let mut heap = Heap::new(alloc, texts, store);
    create_all(alloc, &mut heap, &known, list.as_slice())?;
    write_all(&mut heap, known.places.as_slice())?;
    Ok(heap)
}
