//! What a frame holds while `apply` reads.
ghost use Rattle.std.specs.Prelude.{◌≡◌, ◌∷◌, [], IfOk, OnOk};

use wjs_base::{ObjId, OutOfMemory, Value};
use wjs_model::{Config, Frame, Held, Items};
use wjs_store::WorldStore;

/// So many elements of an object, for a call of a function.
pub(crate) fn elements_for<S: WorldStore>(
    config: &Config<S>,
    object: ObjId,
    count: u32,
    function: ObjId,
    this: Value,
) -> Result<Items, OutOfMemory>
    ensures { IfOk result (λ items. items ≡ Held.Callee (Value.Object function) this ∷ Held.Elements object count ∷ []) }
{
    let mut items = config.frames.nothing_held();
    items.push(Held::Elements(object, count))?;
    items.push(Held::Callee(Value::Object(function), this))?;
    Ok(items)
}

/// Holds an element, and again the object and what is called, so that no search for them passes the elements.
pub(crate) fn hold_element(
    frame: &mut Frame,
    value: Value,
    object: ObjId,
    count: u32,
    function: ObjId,
    this: Value,
) -> Result<(), OutOfMemory>
    ensures { OnOk result (frame.new ≡
        record frame.old { held = Held.Callee (Value.Object function) this ∷ Held.Elements object count ∷ Held.Value value ∷ frame.old.held }) }
{
    frame.hold(Held::Value(value))?;
    frame.hold(Held::Elements(object, count))?;
    frame.hold(Held::Callee(Value::Object(function), this))?;
    Ok(())
}
