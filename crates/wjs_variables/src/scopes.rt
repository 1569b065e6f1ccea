//! The variables of a call's scope (ECMA-262, 3rd edition, sections 10.1.3, 10.1.8 and 10.2.3), which one call writes.
ghost use Rattle.std.specs.Prelude.{◌≡◌, ◌++◌, ◌∷◌, All, OnOk, map, slice_get, unwrap_or};
ghost use Rattle.wjs_base.specs.Text.{Table, Grows, Has};
ghost use Rattle.wjs_base.specs.declared.ids.ObjId.{ObjId};
ghost use Rattle.wjs_by_content.specs.Names.{slot};
ghost use Rattle.wjs_by_content.specs.Tables.{text_in, name_in, value_in};
ghost use Rattle.wjs_meaning.specs.Deeds.{write_all};
ghost use Rattle.wjs_meaning.specs.Functions.{formal_slots};
ghost use Rattle.wjs_model.specs.Soundness.{Base, IsThere, HasName, HasObject, HasValue};
ghost use Rattle.wjs_frames.specs.Doing.{DoesFirst};
ghost use Rattle.wjs_frames.specs.Following.{Later};
ghost use Rattle.wjs_props.specs.Several.{rows_in};
ghost use Rattle.wjs_heap_steps.specs.HasRows.{HasRows};
ghost use Rattle.wjs_variables.specs.Filling.{undefined_slots, variables_of};

use wjs_base::{Name, ObjId, OutOfMemory, TextId, Value};
use wjs_heap_steps::{Known, known_name, name_of, write_rows};
use wjs_model::{Config, Frame};
use wjs_store::WorldStore;

/// Writes `arguments`, the formals, each with its argument, and other variables as undefined.
pub(crate) fn write_variables<S: WorldStore>(
    config: &mut Config<S>,
    frame: &Frame,
    arguments: ObjId,
    formals: &[TextId],
    others: &[TextId],
    values: &[Value],
) -> Result<(), OutOfMemory>
    requires base { Base S.meaning config.old }
    requires there { IsThere S.meaning config.old frame.now }
    requires arguments { HasObject config.old arguments }
    requires formals { All (Has config.old.heap.texts) formals.now }
    requires others { All (Has config.old.heap.texts) others.now }
    requires values { All (HasValue config.old) values.now }
    ensures does { OnOk result (DoesFirst S.meaning
        (λ t. write_all frame.now.world (variables_of frame.now.scope arguments (map (text_in t) formals.now) (map (value_in t) values.now)
        (map (text_in t) others.now))) config.old config.new) }
    ensures later { OnOk result (Later S.meaning config.old config.new) }
{
    let name = known_name(config, Known::Arguments)?;
    let first = (name, Value::Object(arguments));
    if others.is_empty() {
        write_formals(config, frame, first, formals, values)
    } else {
        write_gathered(config, frame, first, formals, others, values)
    }
}

/// Writes a row and the formals; few of them need no list in memory.
fn write_formals<S: WorldStore>(
    config: &mut Config<S>,
    frame: &Frame,
    first: (Name, Value),
    formals: &[TextId],
    values: &[Value],
) -> Result<(), OutOfMemory>
    requires base { Base S.meaning config.old }
    requires there { IsThere S.meaning config.old frame.now }
    requires name { HasName config.old first.0 }
    requires value { HasValue config.old first.1 }
    requires formals { All (Has config.old.heap.texts) formals.now }
    requires values { All (HasValue config.old) values.now }
    ensures does { OnOk result (DoesFirst S.meaning
        (λ t. write_all frame.now.world ((slot frame.now.scope (name_in t first.0), value_in t first.1) ∷
        formal_slots frame.now.scope (map (text_in t) formals.now) (map (value_in t) values.now))) config.old config.new) }
    ensures later { OnOk result (Later S.meaning config.old config.new) }
{
    let scope = frame.scope();
    match formals {
        [] => write_rows(config, frame, scope, &[first]),
        [a] => {
            let a = formal(config, *a, values, 0);
            write_rows(config, frame, scope, &[first, a])
        }
        [a, b] => {
            let a = formal(config, *a, values, 0);
            let b = formal(config, *b, values, 1);
            write_rows(config, frame, scope, &[first, a, b])
        }
        [a, b, c] => {
            let a = formal(config, *a, values, 0);
            let b = formal(config, *b, values, 1);
            let c = formal(config, *c, values, 2);
            write_rows(config, frame, scope, &[first, a, b, c])
        }
        _ => write_gathered(config, frame, first, formals, &[], values),
    }
}

/// Writes a row, the formals and other variables, by a list of them.
fn write_gathered<S: WorldStore>(
    config: &mut Config<S>,
    frame: &Frame,
    first: (Name, Value),
    formals: &[TextId],
    others: &[TextId],
    values: &[Value],
) -> Result<(), OutOfMemory>
    requires base { Base S.meaning config.old }
    requires there { IsThere S.meaning config.old frame.now }
    requires name { HasName config.old first.0 }
    requires value { HasValue config.old first.1 }
    requires formals { All (Has config.old.heap.texts) formals.now }
    requires others { All (Has config.old.heap.texts) others.now }
    requires values { All (HasValue config.old) values.now }
    ensures does { OnOk result (DoesFirst S.meaning
        (λ t. write_all frame.now.world ((slot frame.now.scope (name_in t first.0), value_in t first.1) ∷
        formal_slots frame.now.scope (map (text_in t) formals.now) (map (value_in t) values.now) ++
        undefined_slots frame.now.scope (map (text_in t) others.now))) config.old config.new) }
    ensures later { OnOk result (Later S.meaning config.old config.new) }
{
    let alloc = config.heap.arena.allocator();
    let count = formals.len().saturating_add(others.len());
    let mut rows = Vec::with_capacity(alloc, count.saturating_add(1))?;
    rows.push(first)?;
    put_formals(config, &mut rows, formals, values)?;
    put_formals(config, &mut rows, others, &[])?;
    write_rows(config, frame, frame.scope(), rows.as_slice())
}

/// Puts the rows of formals last, each with its argument.
fn put_formals<S: WorldStore>(
    config: &Config<S>,
    rows: &mut Vec<(Name, Value)>,
    formals: &[TextId],
    values: &[Value],
) -> Result<(), OutOfMemory>
    requires base { Base S.meaning config.now }
    requires known { HasRows config.now rows.old.items }
    requires formals { All (Has config.now.heap.texts) formals.now }
    requires values { All (HasValue config.now) values.now }
    ensures known { OnOk result (HasRows config.now rows.new.items) }
    ensures slots { OnOk result ((t : Table) → Grows config.now.heap.texts t → (o : ObjId) →
        rows_in t o rows.new.items ≡ rows_in t o rows.old.items ++ formal_slots o (map (text_in t) formals.now) (map (value_in t) values.now)) }
{
    for (i, id) in formals.iter().enumerate() {
        let row = formal(config, *id, values, i);
        rows.push(row)?;
    }
    Ok(())
}

/// The row of a formal by its number; a missing argument is undefined.
#[inline(always)]
fn formal<S: WorldStore>(
    config: &Config<S>,
    id: TextId,
    values: &[Value],
    i: usize,
) -> (Name, Value)
    requires base { Base S.meaning config.now }
    requires text { Has config.now.heap.texts id }
    requires values { All (HasValue config.now) values.now }
    ensures name { HasName config.now result.0 }
    ensures value { HasValue config.now result.1 }
    ensures text { (t : Table) → Grows config.now.heap.texts t → name_in t result.0 ≡ text_in t id }
    ensures argument { result.1 ≡ unwrap_or (slice_get values.now i) Value.Undefined }
{
    (name_of(config, id), argument_at(values, i))
}

/// The argument of a number; a missing one is undefined.
#[inline(always)]
fn argument_at(values: &[Value], i: usize) -> Value
    ensures { result ≡ unwrap_or (slice_get values.now i) Value.Undefined }
{
    match values.get(i) {
        Some(value) => *value,
        None => Value::Undefined,
    }
}
