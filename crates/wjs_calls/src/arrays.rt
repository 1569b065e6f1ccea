//! Arrays, and values at indices.
ghost use Rattle.std.specs.Prelude.{◌≡◌, ◌≤◌, ◌<◌, ◌+◌, ◌∷◌, [], ◌++◌, IfOk, OnOk, All, map, drop, length, Some};
ghost use Rattle.wjs_base.specs.Text.{Table};
ghost use Rattle.wjs_by_content.specs.Names.{slot, index_name};
ghost use Rattle.wjs_by_content.specs.Tables.{value_in};
ghost use Rattle.wjs_by_content.specs.Values.{whole};
ghost use Rattle.wjs_meaning.specs.Deeds.{Do, Write, write_all};
ghost use Rattle.wjs_meaning.specs.NewObjects as line;
ghost use Rattle.wjs_props.specs.Several.{rows_in};
ghost use Rattle.wjs_model.specs.Soundness.{Base, IsThere, HasObject, HasValue};
ghost use Rattle.wjs_frames.specs.Doing.{Does, DoesFirst};
ghost use Rattle.wjs_frames.specs.Parts.{env_in};
ghost use Rattle.wjs_frames.specs.Following.{Later};
ghost use Rattle.wjs_heap_steps.specs.HasRows.{HasRows};
ghost use Rattle.wjs_calls.specs.Leaving.{Leaves};

use wjs_base::{Name, ObjId, OutOfMemory, Value, Whole};
use wjs_heap_steps::{Known, create_array, known_name, write, write_rows};
use wjs_model::{Config, Frame};
use wjs_store::WorldStore;

/// The greatest array index (ECMA-262, 3rd edition, section 15.4).
const GREATEST_INDEX: usize = 4_294_967_294;

/// Makes an Array of these values.
pub fn make_array<S: WorldStore>(
    config: &mut Config<S>,
    frame: &Frame,
    values: &[Value],
) -> Result<ObjId, OutOfMemory>
    requires base { Base S.meaning config.old }
    requires there { IsThere S.meaning config.old frame.now }
    requires values { All (HasValue config.old) values.now }
    ensures does { IfOk result (λ o. Does S.meaning (λ t. line.make_array (map (value_in t) values.now) (env_in S.meaning config.old t frame.now))
        (λ t. o) config.old config.new) }
    ensures later { OnOk result (Later S.meaning config.old config.new) }
    ensures found { IfOk result (λ o. HasObject config.new o) }
{
    let length = whole_value(values.len())?;
    let array = create_array(config)?;
    let name = known_name(config, Known::Length)?;
    write_before(config, frame, array, values, (name, length))?;
    Ok(array)
}

/// Writes values at the indices from 0 on and then a row; few of them by one call.
fn write_before<S: WorldStore>(
    config: &mut Config<S>,
    frame: &Frame,
    object: ObjId,
    values: &[Value],
    last: (Name, Value),
) -> Result<(), OutOfMemory>
    requires base { Base S.meaning config.old }
    requires there { IsThere S.meaning config.old frame.now }
    requires object { HasObject config.old object }
    requires values { All (HasValue config.old) values.now }
    requires last { HasRows config.old (last ∷ []) }
    ensures does { OnOk result (DoesFirst S.meaning
        (λ t. write_all frame.now.world (line.elements_from object 0 (map (value_in t) values.now) ++ rows_in t object (last ∷ [])))
        config.old config.new) }
    ensures later { OnOk result (Later S.meaning config.old config.new) }
{
    match values {
        [only] => {
            let rows = [(Name::Index(0), *only), last];
            write_rows(config, frame, object, &rows)
        }
        [a, b] => {
            let rows = [(Name::Index(0), *a), (Name::Index(1), *b), last];
            write_rows(config, frame, object, &rows)
        }
        [first, second, third] => {
            let rows = [
                (Name::Index(0), *first),
                (Name::Index(1), *second),
                (Name::Index(2), *third),
                last,
            ];
            write_rows(config, frame, object, &rows)
        }
        _ => write_long(config, frame, object, values, last),
    }
}

/// The same of many values, or of none.
fn write_long<S: WorldStore>(
    config: &mut Config<S>,
    frame: &Frame,
    object: ObjId,
    values: &[Value],
    last: (Name, Value),
) -> Result<(), OutOfMemory>
    requires base { Base S.meaning config.old }
    requires there { IsThere S.meaning config.old frame.now }
    requires object { HasObject config.old object }
    requires values { All (HasValue config.old) values.now }
    requires last { HasRows config.old (last ∷ []) }
    ensures does { OnOk result (DoesFirst S.meaning
        (λ t. write_all frame.now.world (line.elements_from object 0 (map (value_in t) values.now) ++ rows_in t object (last ∷ [])))
        config.old config.new) }
    ensures later { OnOk result (Later S.meaning config.old config.new) }
{
    write_elements(config, frame, object, values)?;
    write_rows(config, frame, object, &[last])
}

/// Writes values at the indices from 0 on.
pub fn write_elements<S: WorldStore>(
    config: &mut Config<S>,
    frame: &Frame,
    object: ObjId,
    values: &[Value],
) -> Result<(), OutOfMemory>
    requires base { Base S.meaning config.old }
    requires there { IsThere S.meaning config.old frame.now }
    requires object { HasObject config.old object }
    requires values { All (HasValue config.old) values.now }
    ensures does { OnOk result (DoesFirst S.meaning
        (λ t. write_all frame.now.world (line.elements_from object 0 (map (value_in t) values.now))) config.old config.new) }
    ensures later { OnOk result (Later S.meaning config.old config.new) }
{
    let mut at = 0;
    'values: while at < values.len() {
        at = write_some(config, frame, object, values, at)?;
    }
    Ok(())
}

/// Writes the values at four indices from one on, or at this one where fewer are left, and gives the index after them.
fn write_some<S: WorldStore>(
    config: &mut Config<S>,
    frame: &Frame,
    object: ObjId,
    values: &[Value],
    at: usize,
) -> Result<usize, OutOfMemory>
    requires base { Base S.meaning config.old }
    requires there { IsThere S.meaning config.old frame.now }
    requires object { HasObject config.old object }
    requires values { All (HasValue config.old) values.now }
    requires at { at < length values.now }
    ensures after { IfOk result (λ next. at < next) }
    ensures within { IfOk result (λ next. next ≤ length values.now) }
    ensures does { IfOk result (λ next. Leaves S.meaning
        (λ t. write_all frame.now.world (line.elements_from object at (map (value_in t) (drop at values.now))))
        (λ t. write_all frame.now.world (line.elements_from object next (map (value_in t) (drop next values.now)))) config.old config.new) }
    ensures later { OnOk result (Later S.meaning config.old config.new) }
{
    if values.len() - at < 4 {
        write_element(config, frame, object, at, values[at])?;
        return Ok(at + 1);
    }
    write_four(config, frame, object, values, at)?;
    Ok(at + 4)
}

/// Writes the values at four indices. No list in memory is so long that it has a greater one than there are.
fn write_four<S: WorldStore>(
    config: &mut Config<S>,
    frame: &Frame,
    object: ObjId,
    values: &[Value],
    at: usize,
) -> Result<(), OutOfMemory>
    requires base { Base S.meaning config.old }
    requires there { IsThere S.meaning config.old frame.now }
    requires object { HasObject config.old object }
    requires values { All (HasValue config.old) values.now }
    requires at { at + 4 ≤ length values.now }
    ensures does { OnOk result (Leaves S.meaning
        (λ t. write_all frame.now.world (line.elements_from object at (map (value_in t) (drop at values.now))))
        (λ t. write_all frame.now.world (line.elements_from object (at + 4) (map (value_in t) (drop (at + 4) values.now)))) config.old config.new) }
    ensures later { OnOk result (Later S.meaning config.old config.new) }
{
    if at > GREATEST_INDEX - 3 {
        return Err(OutOfMemory);
    }
    let first = at as u32;
    let a = values[at];
    let b = values[at + 1];
    let c = values[at + 2];
    let d = values[at + 3];
    let rows = [
        (Name::Index(first), a),
        (Name::Index(first + 1), b),
        (Name::Index(first + 2), c),
        (Name::Index(first + 3), d),
    ];
    write_rows(config, frame, object, &rows)
}

/// Writes a value at an index. No list in memory is so long that it has a greater one than there are.
fn write_element<S: WorldStore>(
    config: &mut Config<S>,
    frame: &Frame,
    object: ObjId,
    index: usize,
    value: Value,
) -> Result<(), OutOfMemory>
    requires base { Base S.meaning config.old }
    requires there { IsThere S.meaning config.old frame.now }
    requires object { HasObject config.old object }
    requires value { HasValue config.old value }
    ensures does { OnOk result (DoesFirst S.meaning
        (λ t act. Do (Write frame.now.world (slot object (index_name index)) (Some (value_in t value))) (λ done. act)) config.old config.new) }
    ensures later { OnOk result (Later S.meaning config.old config.new) }
{
    if index > GREATEST_INDEX {
        return Err(OutOfMemory);
    }
    write(config, frame, object, Name::Index(index as u32), value)
}

/// A length as a value. No list in memory is so long that there is none.
pub fn whole_value(length: usize) -> Result<Value, OutOfMemory>
    ensures { IfOk result (λ value. (t : Table) → value_in t value ≡ whole length) }
{
    if length > 9_007_199_254_740_991 {
        return Err(OutOfMemory);
    }
    match Whole::new(length as i64) {
        Some(number) => Ok(Value::Number(number)),
        None => Err(OutOfMemory),
    }
}
