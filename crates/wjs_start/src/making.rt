//! The first objects are made.
ghost use Rattle.std.specs.Prelude.{◌≡◌, ◌+◌, ◌<◌, ◌^◌, ◌∷◌, [], length, true, OnOk};
ghost use Rattle.wjs_base.specs.Text.{Table, Grows};
ghost use Rattle.wjs_meaning.specs.Builtins.{first_object};
ghost use Rattle.wjs_heap.specs.Means.{parts};
ghost use Rattle.wjs_start.specs.Blueprints.{built, built_from, is_buildable, are_buildable};
ghost use Rattle.wjs_start.specs.Building.{Building, Makes};
ghost use Rattle.wjs_start.specs.Known.{Knows};

use crate::blueprints::Blueprint;
use crate::known::Known;
use crate::objects::build;
use std::alloc::Global;
use wjs_base::{ObjId, OutOfMemory};
use wjs_heap::Heap;
use wjs_props::create;
use wjs_store::WorldStore;

/// Makes the first objects, from number 0 on.
pub(crate) fn create_all<S: WorldStore>(
    alloc: Global,
    heap: &mut Heap<S>,
    known: &Known,
    blueprints: &[Blueprint],
) -> Result<(), OutOfMemory>
    requires building { Building (parts S.meaning heap.old) 0 }
    requires buildable { are_buildable 0 blueprints.now ≡ true }
    requires knows { (t : Table) → Grows heap.old.texts t → Knows t known.now }
    ensures { OnOk result
        (Makes known.now (λ declared. built_from declared 0 blueprints.now) (length blueprints.now) (parts S.meaning heap.old) (parts S.meaning heap.new)) }
{
    for (i, blueprint) in blueprints.iter().enumerate() {
        create_one(alloc, heap, known, i as u64, *blueprint)?;
    }
    Ok(())
}

/// Makes the object of this number, which is the next.
fn create_one<S: WorldStore>(
    alloc: Global,
    heap: &mut Heap<S>,
    known: &Known,
    number: u64,
    blueprint: Blueprint,
) -> Result<(), OutOfMemory>
    requires building { Building (parts S.meaning heap.old) number }
    requires buildable { is_buildable number blueprint ≡ true }
    requires knows { (t : Table) → Grows heap.old.texts t → Knows t known.now }
    ensures { OnOk result
        (Makes known.now (λ declared. built declared (first_object number) blueprint ∷ []) (number + 1) (parts S.meaning heap.old) (parts S.meaning heap.new)) }
{
    let id = ObjId {
        owner: 0,
        serial: number,
    };
    let object = build(alloc, known, id, blueprint)?;
    let _id = create(heap, 0, object)?;
    Ok(())
}
