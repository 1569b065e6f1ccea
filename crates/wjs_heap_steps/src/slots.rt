//! Slots of objects, in a frame's world.
ghost use Rattle.std.specs.Prelude.{IfOk, OnOk};
ghost use Rattle.wjs_by_content.specs.Names.{slot};
ghost use Rattle.wjs_by_content.specs.Tables.{name_in, value_in, content_in};
ghost use Rattle.wjs_by_content.specs.Values.{value_or_undefined};
ghost use Rattle.wjs_heap.specs.Means.{nothing};
ghost use Rattle.wjs_meaning.specs.Deeds.{Do, Read, Write, write_all};
ghost use Rattle.wjs_props.specs.Several.{rows_in};
ghost use Rattle.wjs_model.specs.Soundness.{Base, IsThere, HasObject, HasName, HasValue, HasContent};
ghost use Rattle.wjs_frames.specs.Doing.{Does, DoesFirst};
ghost use Rattle.wjs_frames.specs.Following.{Later};
ghost use Rattle.wjs_heap_steps.specs.HasRows.{HasRows};

use wjs_base::{Content, Name, ObjId, OutOfMemory, Slot, Value};
use wjs_model::{Config, Frame};
use wjs_store::WorldStore;

/// What a slot holds.
#[inline(always)]
pub fn read_content<S: WorldStore>(
    config: &mut Config<S>,
    frame: &Frame,
    object: ObjId,
    name: Name,
) -> Result<Content, OutOfMemory>
    requires base { Base S.meaning config.old }
    requires there { IsThere S.meaning config.old frame.now }
    requires object { HasObject config.old object }
    requires name { HasName config.old name }
    ensures does { IfOk result
        (λ found. Does S.meaning (λ t go. Do (Read frame.now.world (slot object (name_in t name))) go) (λ t. content_in t found) config.old config.new) }
    ensures later { OnOk result (Later S.meaning config.old config.new) }
    ensures found { IfOk result (λ found. HasContent config.new found) }
{
    let found = wjs_props::read(&mut config.heap, frame.world(), Slot { object, name })?;
    Ok(found)
}

/// What a slot holds, where absent counts as undefined.
#[inline(always)]
pub fn read<S: WorldStore>(
    config: &mut Config<S>,
    frame: &Frame,
    object: ObjId,
    name: Name,
) -> Result<Value, OutOfMemory>
    requires base { Base S.meaning config.old }
    requires there { IsThere S.meaning config.old frame.now }
    requires object { HasObject config.old object }
    requires name { HasName config.old name }
    ensures does { IfOk result
        (λ value. Does S.meaning (λ t go. Do (Read frame.now.world (slot object (name_in t name))) (λ found. go (value_or_undefined found)))
        (λ t. value_in t value) config.old config.new) }
    ensures later { OnOk result (Later S.meaning config.old config.new) }
    ensures found { IfOk result (λ value. HasValue config.new value) }
{
    let found = read_content(config, frame, object, name)?;
    match found {
        Content::Present(value) => Ok(value),
        Content::Absent => Ok(Value::Undefined),
    }
}

/// Sets a slot.
#[inline(always)]
pub fn write<S: WorldStore>(
    config: &mut Config<S>,
    frame: &Frame,
    object: ObjId,
    name: Name,
    value: Value,
) -> Result<(), OutOfMemory>
    requires base { Base S.meaning config.old }
    requires there { IsThere S.meaning config.old frame.now }
    requires object { HasObject config.old object }
    requires name { HasName config.old name }
    requires value { HasValue config.old value }
    ensures does { IfOk result (λ _. Does S.meaning (λ t go. Do (Write frame.now.world (slot object (name_in t name)) (Some (value_in t value))) go)
        (λ t. nothing) config.old config.new) }
    ensures later { OnOk result (Later S.meaning config.old config.new) }
{
    wjs_props::write(
        &mut config.heap,
        frame.world(),
        Slot { object, name },
        Content::Present(value),
    )?;
    Ok(())
}

/// Sets slots of an object, one after another; those of a new one are put in at once.
pub fn write_rows<S: WorldStore>(
    config: &mut Config<S>,
    frame: &Frame,
    object: ObjId,
    rows: &[(Name, Value)],
) -> Result<(), OutOfMemory>
    requires base { Base S.meaning config.old }
    requires there { IsThere S.meaning config.old frame.now }
    requires object { HasObject config.old object }
    requires rows { HasRows config.old rows.now }
    ensures does { OnOk result (DoesFirst S.meaning (λ t. write_all frame.now.world (rows_in t object rows.now)) config.old config.new) }
    ensures later { OnOk result (Later S.meaning config.old config.new) }
{
    wjs_props::write_rows(&mut config.heap, frame.world(), object, rows)?;
    Ok(())
}
