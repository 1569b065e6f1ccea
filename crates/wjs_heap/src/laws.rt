//! The laws of heaps.
ghost use Rattle.wjs_heap.specs.HeapLaws.{HeapsBegin, MoreTextsKeep, MoreObjectsKeep};

/// A table of texts, an arena of no objects and a store of the fresh first world are a heap.
pub fn heaps_begin()
    ensures { HeapsBegin }
{}

/// A heap stays one as texts are interned.
pub fn more_texts_keep()
    ensures { MoreTextsKeep }
{}

/// A heap stays one as an object is created whose names, texts and objects are there.
pub fn more_objects_keep()
    ensures { MoreObjectsKeep }
{}
