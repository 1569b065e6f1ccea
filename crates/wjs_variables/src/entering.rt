//! The scopes of functions that are called (ECMA-262, 3rd edition, sections 10.1.6 and 10.2.3).
ghost use Rattle.std.specs.Prelude.{◌≡◌, All, OnOk, map};
ghost use Rattle.wjs_by_content.specs.Tables.{value_in};
ghost use Rattle.wjs_model.specs.Soundness.{Base, HasObject, HasValue, IsThere};
ghost use Rattle.wjs_model.specs.Standing.{IsFunction};
ghost use Rattle.wjs_frames.specs.Doing.{Does};
ghost use Rattle.wjs_frames.specs.Following.{Later};
ghost use Rattle.wjs_frames.specs.Parts.{env_in};
ghost use Rattle.wjs_variables.specs.Entering.{entered_then};

use crate::arguments::fill_scope;
use crate::declarations::declared_at;
use wjs_base::{ObjId, OutOfMemory, Value};
use wjs_heap_steps::create_scope;
use wjs_model::{Config, Frame};
use wjs_store::WorldStore;
use wjs_tree::NodeId;

/// A frame goes on at the body that stands at a node of a tree, in a scope of its own inside the function's scope: with `arguments`, the
/// formals and their values, the functions that the body declares, and its other variables.
pub fn enter_scope<S: WorldStore>(
    config: &mut Config<S>,
    frame: &mut Frame,
    function: ObjId,
    tree: u32,
    body: NodeId,
    scope: ObjId,
    values: &[Value],
) -> Result<(), OutOfMemory>
    requires base { Base S.meaning config.old }
    requires there { IsThere S.meaning config.old frame.old }
    requires function { HasObject config.old function }
    requires scope { HasObject config.old scope }
    requires values { All (HasValue config.old) values.now }
    requires stands { IsFunction config.old.units.items config.old.heap.arena tree body scope 0 }
    ensures does { OnOk result (Does S.meaning
        (λ t. entered_then body.0 scope function (map (value_in t) values.now) (record (env_in S.meaning config.old t frame.old) { tree = tree }))
        (λ t. env_in S.meaning config.new t frame.new) config.old config.new) }
    ensures later { OnOk result (Later S.meaning config.old config.new) }
    ensures there { OnOk result (IsThere S.meaning config.new frame.new) }
    ensures stands { OnOk result (IsFunction config.new.units.items config.new.heap.arena frame.new.tree frame.new.node frame.new.scope 1) }
    ensures frame { OnOk result (frame.new ≡ record frame.old { tree = tree; node = body; scope = frame.new.scope }) }
{
    frame.set_node(tree, body);
    let declared = declared_at(config, frame)?;
    let inner = create_scope(config, scope)?;
    frame.set_scope(inner);
    fill_scope(
        config,
        frame,
        function,
        &declared,
        declared.others(),
        values,
    )?;
    Ok(())
}
