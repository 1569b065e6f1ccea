//! Functions with a name of their own (ECMA-262, 3rd edition, section 13).
ghost use Rattle.std.specs.Prelude.{◌≡◌, IfOk, OnOk, Some};
ghost use Rattle.wjs_base.specs.Text.{Has};
ghost use Rattle.wjs_by_content.specs.Tables.{text_in};
ghost use Rattle.wjs_model.specs.Soundness.{Base, IsThere, HasObject};
ghost use Rattle.wjs_frames.specs.Doing.{Does};
ghost use Rattle.wjs_frames.specs.Parts.{env_in};
ghost use Rattle.wjs_frames.specs.Following.{Later};
ghost use Rattle.wjs_calls.specs.Making.{named_made, scope_of_name};
ghost use Rattle.wjs_calls.specs.Standing.{StandsNamed};

use crate::makes::{function_names, function_object};
use crate::pairs::create_pair;
use std::alloc::Global;
use wjs_arena::{Class, Object};
use wjs_base::{Name, ObjId, OutOfMemory, TextId, Value};
use wjs_heap_steps::{name_of, next_number, object_of, one_fixed};
use wjs_model::{Config, Frame};
use wjs_store::WorldStore;
use wjs_tree::NodeId;

/// Makes a Function object inside a scope in which the function's own name is fixed. The scope is made first and names the
/// function, whose number is the next.
pub(crate) fn create_named<S: WorldStore>(
    config: &mut Config<S>,
    frame: &Frame,
    body: NodeId,
    id: TextId,
) -> Result<ObjId, OutOfMemory>
    requires base { Base S.meaning config.old }
    requires there { IsThere S.meaning config.old frame.now }
    requires text { Has config.old.heap.texts id }
    requires stands { StandsNamed config.old.units.items config.old.heap.arena frame.now.tree body frame.now.scope (Some id) }
    ensures does { IfOk result (λ o. Does S.meaning (λ t. named_made body.0 (text_in t id) (env_in S.meaning config.old t frame.now))
        (λ t. o) config.old config.new) }
    ensures later { OnOk result (Later S.meaning config.old config.new) }
    ensures found { IfOk result (λ o. HasObject config.new o) }
{
    let names = function_names(config)?;
    let name = name_of(config, id);
    let scope = next_number(config);
    let Some(serial) = scope.serial.checked_add(1) else {
        return Err(OutOfMemory);
    };
    let function = ObjId {
        owner: scope.owner,
        serial,
    };
    let alloc = config.heap.arena.allocator();
    let named = scope_of_name(alloc, frame.scope(), name, function)?;
    let object = function_object(config, frame, body, scope, names)?;
    create_pair(config, named, object)
}

/// The scope of a function's own name.
fn scope_of_name(
    alloc: Global,
    outer: ObjId,
    name: Name,
    function: ObjId,
) -> Result<Object, OutOfMemory>
    ensures { IfOk result (λ x. x ≡ scope_of_name outer name function) }
{
    let fixed = one_fixed(alloc, name, Value::Object(function))?;
    let mut object = object_of(alloc, Class::Scope, None);
    object.scope = Some(outer);
    object.fixed = fixed;
    object.all_kept = true;
    Ok(object)
}
