//! Two objects that are made at once.
ghost use Rattle.std.specs.Prelude.{◌≡◌, IfOk, OnOk, None, Some};
ghost use Rattle.wjs_base.specs.declared.ids.ObjId.{ObjId};
ghost use Rattle.wjs_base.specs.Text.{Table, Grows};
ghost use Rattle.wjs_arena.specs.Entries.{IsThere, next_number};
ghost use Rattle.wjs_by_content.specs.Objects.{Internals};
ghost use Rattle.wjs_by_content.specs.Tables.{object_in};
ghost use Rattle.wjs_meaning.specs.Deeds.{Do, Create};
ghost use Rattle.wjs_model.specs.Apart.{NamesNear};
ghost use Rattle.wjs_model.specs.Soundness.{Base, HasObject};
ghost use Rattle.wjs_frames.specs.Doing.{Does};
ghost use Rattle.wjs_frames.specs.Following.{Later};
ghost use Rattle.wjs_calls.specs.TwoObjects.{NamesSecond, StandsSecond};

use wjs_arena::{Code, Object};
use wjs_base::{ObjId, OutOfMemory};
use wjs_model::Config;
use wjs_store::WorldStore;

/// Makes an object, and then another that has the first as its scope. The first may name the second.
pub(crate) fn create_pair<S: WorldStore>(
    config: &mut Config<S>,
    first: Object,
    second: Object,
) -> Result<ObjId, OutOfMemory>
    requires base { Base S.meaning config.old }
    requires prototype { IsThere config.old.heap.arena first.prototype }
    requires scope { IsThere config.old.heap.arena first.scope }
    requires named { NamesSecond config.old.heap.texts config.old.heap.arena config.old.owner first }
    requires near { NamesNear config.old.apart.items first }
    requires world { first.world ≡ None }
    requires code { first.code ≡ Code.None }
    requires second_prototype { IsThere config.old.heap.arena second.prototype }
    requires second_scope { second.scope ≡ Some (next_number config.old.heap.arena config.old.owner) }
    requires second_named { NamesSecond config.old.heap.texts config.old.heap.arena config.old.owner second }
    requires second_near { NamesNear config.old.apart.items second }
    requires second_world { second.world ≡ None }
    requires second_code { StandsSecond config.old.units.items config.old.heap.arena config.old.owner first second }
    ensures does { IfOk result (λ o. (one : Table → Internals) (two : Table → ObjId → Internals) →
        ((t : Table) → Grows config.old.heap.texts t → object_in t first ≡ one t) →
        ((t : Table) → Grows config.old.heap.texts t → object_in t second ≡ two t (next_number config.old.heap.arena config.old.owner)) →
        Does S.meaning (λ t go. Do (Create config.old.owner (one t)) (λ s. Do (Create config.old.owner (two t s)) go)) (λ t. o) config.old config.new) }
    ensures later { OnOk result (Later S.meaning config.old config.new) }
    ensures found { IfOk result (λ o. HasObject config.new o) }
{
    let owner = config.owner;
    config.heap.arena.create(owner, first)?;
    let made = config.heap.arena.create(owner, second)?;
    Ok(made)
}
