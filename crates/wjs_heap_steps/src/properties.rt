//! The operations on properties (ECMA-262, 3rd edition, section 8.6.2), in a frame's world.
ghost use Rattle.std.specs.Prelude.{IfOk, OnOk};
ghost use Rattle.wjs_by_content.specs.Tables.{name_in, value_in, content_in};
ghost use Rattle.wjs_by_content.specs.Renamed.{Holds};
ghost use Rattle.wjs_props.specs.Visits.{visits_in};
ghost use Rattle.wjs_meaning.specs.Properties as line;
ghost use Rattle.wjs_model.specs.Soundness.{Base, IsThere, HasObject, HasName, HasValue, HasContent};
ghost use Rattle.wjs_frames.specs.Doing.{Does};
ghost use Rattle.wjs_frames.specs.Following.{Later};
ghost use Rattle.wjs_frames.specs.Parts.{env_in};
ghost use Rattle.wjs_heap_steps.specs.Visits.{HasVisit};

use wjs_base::{Content, Name, ObjId, OutOfMemory, Value};
use wjs_by_content::PutAnswer;
use wjs_model::{Config, Frame};
use wjs_props::Visits;
use wjs_store::WorldStore;

/// What the object or its nearest prototype that has the name holds there: its [[Get]] (section 8.6.2.1).
#[inline(always)]
pub fn get<S: WorldStore>(
    config: &mut Config<S>,
    frame: &Frame,
    object: ObjId,
    name: Name,
) -> Result<Content, OutOfMemory>
    requires base { Base S.meaning config.old }
    requires there { IsThere S.meaning config.old frame.now }
    requires object { HasObject config.old object }
    requires name { HasName config.old name }
    ensures does { IfOk result (λ found. Does S.meaning (λ t. line.get object (name_in t name) (env_in S.meaning config.old t frame.now))
        (λ t. content_in t found) config.old config.new) }
    ensures later { OnOk result (Later S.meaning config.old config.new) }
    ensures found { IfOk result (λ found. HasContent config.new found) }
{
    let found = wjs_props::get(&mut config.heap, frame.world(), object, name)?;
    Ok(found)
}

/// What [[Get]] finds, where absent counts as undefined.
#[inline(always)]
pub fn get_value<S: WorldStore>(
    config: &mut Config<S>,
    frame: &Frame,
    object: ObjId,
    name: Name,
) -> Result<Value, OutOfMemory>
    requires base { Base S.meaning config.old }
    requires there { IsThere S.meaning config.old frame.now }
    requires object { HasObject config.old object }
    requires name { HasName config.old name }
    ensures does { IfOk result (λ value. Does S.meaning (λ t. line.get_value object (name_in t name) (env_in S.meaning config.old t frame.now))
        (λ t. value_in t value) config.old config.new) }
    ensures later { OnOk result (Later S.meaning config.old config.new) }
    ensures found { IfOk result (λ value. HasValue config.new value) }
{
    let found = get(config, frame, object, name)?;
    match found {
        Content::Present(value) => Ok(value),
        Content::Absent => Ok(Value::Undefined),
    }
}

/// Whether [[Get]] finds something: [[HasProperty]] (section 8.6.2.4).
pub fn has<S: WorldStore>(
    config: &mut Config<S>,
    frame: &Frame,
    object: ObjId,
    name: Name,
) -> Result<bool, OutOfMemory>
    requires base { Base S.meaning config.old }
    requires there { IsThere S.meaning config.old frame.now }
    requires object { HasObject config.old object }
    requires name { HasName config.old name }
    ensures does { IfOk result
        (λ answer. Does S.meaning (λ t. line.has object (name_in t name) (env_in S.meaning config.old t frame.now)) (λ t. answer) config.old config.new) }
    ensures later { OnOk result (Later S.meaning config.old config.new) }
{
    let answer = wjs_props::has(&mut config.heap, frame.world(), object, name)?;
    Ok(answer)
}

/// Sets a property: [[Put]] (section 8.6.2.2, and 15.4.5.1 for arrays).
#[inline(always)]
pub fn put<S: WorldStore>(
    config: &mut Config<S>,
    frame: &Frame,
    object: ObjId,
    name: Name,
    value: Value,
) -> Result<PutAnswer, OutOfMemory>
    requires base { Base S.meaning config.old }
    requires there { IsThere S.meaning config.old frame.now }
    requires object { HasObject config.old object }
    requires name { HasName config.old name }
    requires value { HasValue config.old value }
    ensures does { IfOk result (λ answer. Does S.meaning (λ t. line.put object (name_in t name) (value_in t value) (env_in S.meaning config.old t frame.now))
        (λ t. answer) config.old config.new) }
    ensures later { OnOk result (Later S.meaning config.old config.new) }
{
    let answer = wjs_props::put(&mut config.heap, frame.world(), object, name, value)?;
    Ok(answer)
}

/// Takes a property away: [[Delete]] (section 8.6.2.5).
pub fn delete<S: WorldStore>(
    config: &mut Config<S>,
    frame: &Frame,
    object: ObjId,
    name: Name,
) -> Result<bool, OutOfMemory>
    requires base { Base S.meaning config.old }
    requires there { IsThere S.meaning config.old frame.now }
    requires object { HasObject config.old object }
    requires name { HasName config.old name }
    ensures does { IfOk result
        (λ answer. Does S.meaning (λ t. line.delete object (name_in t name) (env_in S.meaning config.old t frame.now)) (λ t. answer) config.old config.new) }
    ensures later { OnOk result (Later S.meaning config.old config.new) }
{
    let answer = wjs_props::delete(&mut config.heap, frame.world(), object, name)?;
    Ok(answer)
}

/// What a `for`-`in` over the object visits, in this order (section 12.6.4).
pub fn visits<S: WorldStore>(
    config: &mut Config<S>,
    frame: &Frame,
    object: ObjId,
) -> Result<Visits, OutOfMemory>
    requires base { Base S.meaning config.old }
    requires there { IsThere S.meaning config.old frame.now }
    requires object { HasObject config.old object }
    ensures does { IfOk result
        (λ visits. Does S.meaning (λ t. line.visits object (env_in S.meaning config.old t frame.now)) (λ t. visits_in t visits) config.old config.new) }
    ensures later { OnOk result (Later S.meaning config.old config.new) }
    ensures found { IfOk result (λ visits. Holds (HasVisit config.new) visits) }
{
    let visits = wjs_props::list_names(&mut config.heap, frame.world(), object)?;
    Ok(visits)
}
