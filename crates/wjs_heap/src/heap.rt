//! Texts, objects and worlds together.

use std::alloc::Global;
use wjs_arena::Arena;
use wjs_store::WorldStore;
use wjs_texts::Texts;

/// Texts, objects, and the worlds that hold the slots of the objects.
///
/// Each text and object is there that a present slot or its content, under the store's own view, or an object names.
#[derive(Drop)]
pub struct Heap<S: WorldStore> {
    pub texts: Texts,
    pub arena: Arena,
    pub store: S,
}

impl<S: WorldStore> Heap<S> {
    ghost use Rattle.std.specs.Prelude.{◌≡◌};
    ghost use Rattle.std.specs.FinMap as map;
    ghost use Rattle.wjs_base.specs.Text.{IsTable};
    ghost use Rattle.wjs_store.specs.Fixed.{fresh};
    ghost use Rattle.wjs_store.specs.Meaning.{worlds};
    ghost use Rattle.wjs_heap.specs.Heap.{IsHeap};
    ghost use Rattle.wjs_heap.specs.Means.{parts};

    /// A heap of no objects, over a store of the fresh first world.
    pub fn new(alloc: Global, texts: Texts, store: S) -> Heap<S>
        requires table { IsTable texts }
        requires first { worlds (S.meaning store) ≡ fresh }
        ensures heap { IsHeap (parts S.meaning result) }
        ensures texts { result.texts ≡ texts }
        ensures arena { result.arena ≡ map.empty }
        ensures store { result.store ≡ store }
    {
        Heap {
            texts,
            arena: Arena::new(alloc),
            store,
        }
    }
}
