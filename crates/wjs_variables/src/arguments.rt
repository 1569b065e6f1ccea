//! The scopes of calls (ECMA-262, 3rd edition, sections 10.1.6, 10.1.8 and 10.2.3).
ghost use Rattle.std.specs.Prelude.{◌≡◌, ◌≤◌, ◌++◌, ◌∷◌, [], All, IfOk, OnOk, map, Some};
ghost use Rattle.wjs_base.specs.Text.{Table, Grows, Has};
ghost use Rattle.wjs_by_content.specs.Names.{slot, callee_name, length_name};
ghost use Rattle.wjs_by_content.specs.Objects.{hidden_flags};
ghost use Rattle.wjs_by_content.specs.Tables.{value_in, text_in, name_in};
ghost use Rattle.wjs_by_content.specs.Values.{Object};
ghost use Rattle.wjs_heap.specs.Means.{nothing};
ghost use Rattle.wjs_meaning.specs.Deeds.{Do, Create, Write, write_all};
ghost use Rattle.wjs_meaning.specs.Functions as line;
ghost use Rattle.wjs_meaning.specs.NewObjects.{elements_from};
ghost use Rattle.wjs_meaning.specs.Reading.{numbers};
ghost use Rattle.wjs_model.specs.Contents.{holding_in};
ghost use Rattle.wjs_model.specs.Standing.{IsFunction};
ghost use Rattle.wjs_model.specs.Soundness.{Base, IsThere, HasName, HasObject, HasValue};
ghost use Rattle.wjs_frames.specs.Doing.{Does, DoesFirst};
ghost use Rattle.wjs_frames.specs.Parts.{env_in};
ghost use Rattle.wjs_frames.specs.Following.{Later};
ghost use Rattle.wjs_props.specs.Several.{rows_in};
ghost use Rattle.wjs_heap_steps.specs.HasRows.{HasRows};
ghost use Rattle.wjs_arena.specs.Hidden.{hidden_from};
ghost use Rattle.wjs_variables.specs.Filling.{arguments_written, undefined_slots, variables_filled};

use crate::scopes::write_variables;
use std::alloc::Global;
use wjs_arena::{Class, Flags, Listed};
use wjs_base::{Name, ObjId, OutOfMemory, TextId, Value};
use wjs_calls::{declare_functions, whole_value, write_elements};
use wjs_heap_steps::{Known, builtin, create, known_name, name_of, object_of, write, write_rows};
use wjs_meaning::Builtin;
use wjs_model::{Config, Frame};
use wjs_scope::Declared;
use wjs_store::WorldStore;

/// The greatest array index (section 15.4).
const GREATEST_INDEX: usize = 4_294_967_294;

/// How many array indices there are.
const MOST_INDICES: usize = 4_294_967_295;

/// An Arguments object, and the names of two of its slots.
#[derive(Clone, Copy)]
struct Arguments {
    object: ObjId,
    callee: Name,
    length: Name,
}

/// Makes an Arguments object of the values of a call.
fn create_arguments<S: WorldStore>(
    config: &mut Config<S>,
    values: &[Value],
) -> Result<Arguments, OutOfMemory>
    requires base { Base S.meaning config.old }
    ensures does { IfOk result (λ made. Does S.meaning (λ t go. Do (Create config.old.owner (line.arguments_object (map (value_in t) values.now))) go)
        (λ t. made.object) config.old config.new) }
    ensures later { OnOk result (Later S.meaning config.old config.new) }
    ensures found { IfOk result (λ made. HasObject config.new made.object) }
    ensures callee { IfOk result (λ made. HasName config.new made.callee) }
    ensures length { IfOk result (λ made. HasName config.new made.length) }
    ensures callee_text { IfOk result (λ made. (t : Table) → Grows config.new.heap.texts t → name_in t made.callee ≡ callee_name) }
    ensures length_text { IfOk result (λ made. (t : Table) → Grows config.new.heap.texts t → name_in t made.length ≡ length_name) }
{
    let names = arguments_names(config)?;
    let alloc = config.heap.arena.allocator();
    let flags = hidden_flags(alloc, names.0, names.1, values.len())?;
    let prototype = builtin(config, Builtin::ObjectPrototype);
    let mut object = object_of(alloc, Class::Arguments, Some(prototype));
    object.flags = flags;
    let id = create(config, object)?;
    Ok(Arguments {
        object: id,
        callee: names.0,
        length: names.1,
    })
}

/// The names `callee` and `length`, whose texts are put last where they are new. No deed is done.
fn arguments_names<S: WorldStore>(config: &mut Config<S>) -> Result<(Name, Name), OutOfMemory>
    requires { Base S.meaning config.old }
    ensures does { OnOk result (Does S.meaning (λ t go. go nothing) (λ t. nothing) config.old config.new) }
    ensures later { OnOk result (Later S.meaning config.old config.new) }
    ensures callee { IfOk result (λ names. HasName config.new names.0) }
    ensures length { IfOk result (λ names. HasName config.new names.1) }
    ensures callee_text { IfOk result (λ names. (t : Table) → Grows config.new.heap.texts t → name_in t names.0 ≡ callee_name) }
    ensures length_text { IfOk result (λ names. (t : Table) → Grows config.new.heap.texts t → name_in t names.1 ≡ length_name) }
{
    let callee = known_name(config, Known::Callee)?;
    let length = known_name(config, Known::Length)?;
    Ok((callee, length))
}

/// `callee`, `length` and so many indices are hidden. No list in memory is longer than there are indices.
fn hidden_flags(
    alloc: Global,
    callee: Name,
    length: Name,
    count: usize,
) -> Result<Listed, OutOfMemory>
    ensures small { IfOk result (λ listed. count ≤ 4294967295) }
    ensures is { IfOk result (λ listed. listed ≡ (callee, hidden_flags) ∷ (length, hidden_flags) ∷ hidden_from 0 count) }
{
    if count > MOST_INDICES {
        return Err(OutOfMemory);
    }
    match Listed::of_arguments(callee, length, count as u32) {
        Some(listed) => Ok(listed),
        None => long_flags(alloc, callee, length, count),
    }
}

/// `hidden_flags` written out.
fn long_flags(
    alloc: Global,
    callee: Name,
    length: Name,
    count: usize,
) -> Result<Listed, OutOfMemory>
    ensures small { IfOk result (λ listed. count ≤ 4294967295) }
    ensures is { IfOk result (λ listed. listed ≡ (callee, hidden_flags) ∷ (length, hidden_flags) ∷ hidden_from 0 count) }
{
    let mut flags = Vec::with_capacity(alloc, count.saturating_add(2))?;
    push_hidden(&mut flags, callee)?;
    push_hidden(&mut flags, length)?;
    for index in 0..count {
        push_hidden_index(&mut flags, index)?;
    }
    Ok(Listed::from_vec(flags))
}

fn push_hidden_index(flags: &mut Vec<(Name, Flags)>, index: usize) -> Result<(), OutOfMemory>
    ensures is { OnOk result (flags.new.items ≡ flags.old.items ++ hidden_from index 1) }
    ensures small { OnOk result (index ≤ 4294967294) }
{
    if index > GREATEST_INDEX {
        return Err(OutOfMemory);
    }
    push_hidden(flags, Name::Index(index as u32))
}

fn push_hidden(flags: &mut Vec<(Name, Flags)>, name: Name) -> Result<(), OutOfMemory>
    ensures { OnOk result (flags.new.items ≡ flags.old.items ++ (name, hidden_flags) ∷ []) }
{
    let hidden = Flags {
        hidden: true,
        kept: false,
    };
    flags.push((name, hidden))?;
    Ok(())
}

/// Writes variables as undefined.
#[inline(always)]
fn write_undefined<S: WorldStore>(
    config: &mut Config<S>,
    frame: &Frame,
    scope: ObjId,
    names: &[TextId],
) -> Result<(), OutOfMemory>
    requires base { Base S.meaning config.old }
    requires there { IsThere S.meaning config.old frame.now }
    requires scope { HasObject config.old scope }
    requires names { All (Has config.old.heap.texts) names.now }
    ensures does { OnOk result (DoesFirst S.meaning
        (λ t. write_all frame.now.world (undefined_slots scope (map (text_in t) names.now))) config.old config.new) }
    ensures later { OnOk result (Later S.meaning config.old config.new) }
{
    for name in names {
        write_variable(config, frame, scope, *name, Value::Undefined)?;
    }
    Ok(())
}

/// Writes a variable under the name of a text.
fn write_variable<S: WorldStore>(
    config: &mut Config<S>,
    frame: &Frame,
    object: ObjId,
    id: TextId,
    value: Value,
) -> Result<(), OutOfMemory>
    requires base { Base S.meaning config.old }
    requires there { IsThere S.meaning config.old frame.now }
    requires object { HasObject config.old object }
    requires text { Has config.old.heap.texts id }
    requires value { HasValue config.old value }
    ensures does { OnOk result (DoesFirst S.meaning
        (λ t act. Do (Write frame.now.world (slot object (text_in t id)) (Some (value_in t value))) (λ done. act)) config.old config.new) }
    ensures later { OnOk result (Later S.meaning config.old config.new) }
{
    let name = name_of(config, id);
    write(config, frame, object, name, value)
}

/// Writes `callee`, `length` and the values at their indices to an Arguments object.
fn write_arguments<S: WorldStore>(
    config: &mut Config<S>,
    frame: &Frame,
    arguments: Arguments,
    function: ObjId,
    values: &[Value],
) -> Result<(), OutOfMemory>
    requires base { Base S.meaning config.old }
    requires there { IsThere S.meaning config.old frame.now }
    requires object { HasObject config.old arguments.object }
    requires callee { HasName config.old arguments.callee }
    requires length { HasName config.old arguments.length }
    requires callee_text { (t : Table) → Grows config.old.heap.texts t → name_in t arguments.callee ≡ callee_name }
    requires length_text { (t : Table) → Grows config.old.heap.texts t → name_in t arguments.length ≡ length_name }
    requires function { HasObject config.old function }
    requires values { All (HasValue config.old) values.now }
    ensures does { OnOk result (DoesFirst S.meaning
        (λ t. write_all frame.now.world (line.arguments_slots arguments.object function (map (value_in t) values.now))) config.old config.new) }
    ensures later { OnOk result (Later S.meaning config.old config.new) }
{
    let count = whole_value(values.len())?;
    let callee = (arguments.callee, Value::Object(function));
    let length = (arguments.length, count);
    write_listed(config, frame, arguments.object, callee, length, values)
}

/// Writes two rows and the values at their indices; few of them by one call.
fn write_listed<S: WorldStore>(
    config: &mut Config<S>,
    frame: &Frame,
    object: ObjId,
    first: (Name, Value),
    second: (Name, Value),
    values: &[Value],
) -> Result<(), OutOfMemory>
    requires base { Base S.meaning config.old }
    requires there { IsThere S.meaning config.old frame.now }
    requires object { HasObject config.old object }
    requires rows { HasRows config.old (first ∷ second ∷ []) }
    requires values { All (HasValue config.old) values.now }
    ensures does { OnOk result (DoesFirst S.meaning
        (λ t. write_all frame.now.world (rows_in t object (first ∷ second ∷ []) ++ elements_from object 0 (map (value_in t) values.now)))
        config.old config.new) }
    ensures later { OnOk result (Later S.meaning config.old config.new) }
{
    match values {
        [] => write_rows(config, frame, object, &[first, second]),
        [only] => {
            let rows = [first, second, (Name::Index(0), *only)];
            write_rows(config, frame, object, &rows)
        }
        [a, b] => {
            let rows = [first, second, (Name::Index(0), *a), (Name::Index(1), *b)];
            write_rows(config, frame, object, &rows)
        }
        _ => write_long(config, frame, object, first, second, values),
    }
}

/// The same of many values.
fn write_long<S: WorldStore>(
    config: &mut Config<S>,
    frame: &Frame,
    object: ObjId,
    first: (Name, Value),
    second: (Name, Value),
    values: &[Value],
) -> Result<(), OutOfMemory>
    requires base { Base S.meaning config.old }
    requires there { IsThere S.meaning config.old frame.now }
    requires object { HasObject config.old object }
    requires rows { HasRows config.old (first ∷ second ∷ []) }
    requires values { All (HasValue config.old) values.now }
    ensures does { OnOk result (DoesFirst S.meaning
        (λ t. write_all frame.now.world (rows_in t object (first ∷ second ∷ []) ++ elements_from object 0 (map (value_in t) values.now)))
        config.old config.new) }
    ensures later { OnOk result (Later S.meaning config.old config.new) }
{
    write_rows(config, frame, object, &[first, second])?;
    write_elements(config, frame, object, values)
}

/// Fills the scope of a frame: `arguments`, the formals, the functions and the other variables.
pub(crate) fn fill_scope<S: WorldStore>(
    config: &mut Config<S>,
    frame: &Frame,
    function: ObjId,
    declared: &Declared,
    others: &[TextId],
    values: &[Value],
) -> Result<(), OutOfMemory>
    requires base { Base S.meaning config.old }
    requires there { IsThere S.meaning config.old frame.now }
    requires function { HasObject config.old function }
    requires formals { All (Has config.old.heap.texts) declared.now.formals }
    requires others { All (Has config.old.heap.texts) others.now }
    requires values { All (HasValue config.old) values.now }
    requires stand { All (λ i. IsFunction config.old.units.items config.old.heap.arena frame.now.tree i frame.now.scope 0) declared.now.functions }
    ensures does { OnOk result (DoesFirst S.meaning
        (λ t. arguments_written (map (text_in t) declared.now.formals) (numbers declared.now.functions) (map (text_in t) others.now) function
        (map (value_in t) values.now) (env_in S.meaning config.old t frame.now)) config.old config.new) }
    ensures later { OnOk result (Later S.meaning config.old config.new) }
{
    let arguments = create_arguments(config, values)?;
    write_arguments(config, frame, arguments, function, values)?;
    fill_variables(config, frame, arguments.object, declared, others, values)
}

/// Fills the scope but for the Arguments object, by one call where the body declares no functions.
fn fill_variables<S: WorldStore>(
    config: &mut Config<S>,
    frame: &Frame,
    arguments: ObjId,
    declared: &Declared,
    others: &[TextId],
    values: &[Value],
) -> Result<(), OutOfMemory>
    requires base { Base S.meaning config.old }
    requires there { IsThere S.meaning config.old frame.now }
    requires arguments { HasObject config.old arguments }
    requires formals { All (Has config.old.heap.texts) declared.now.formals }
    requires others { All (Has config.old.heap.texts) others.now }
    requires values { All (HasValue config.old) values.now }
    requires stand { All (λ i. IsFunction config.old.units.items config.old.heap.arena frame.now.tree i frame.now.scope 0) declared.now.functions }
    ensures does { OnOk result (DoesFirst S.meaning
        (λ t. variables_filled (map (text_in t) declared.now.formals) (numbers declared.now.functions) (map (text_in t) others.now) arguments
        (map (value_in t) values.now) (env_in S.meaning config.old t frame.now)) config.old config.new) }
    ensures later { OnOk result (Later S.meaning config.old config.new) }
{
    if declared.functions().is_empty() {
        write_variables(config, frame, arguments, declared.formals(), others, values)
    } else {
        fill_around(config, frame, arguments, declared, others, values)
    }
}

/// The same where functions stand between the formals and the other variables.
fn fill_around<S: WorldStore>(
    config: &mut Config<S>,
    frame: &Frame,
    arguments: ObjId,
    declared: &Declared,
    others: &[TextId],
    values: &[Value],
) -> Result<(), OutOfMemory>
    requires base { Base S.meaning config.old }
    requires there { IsThere S.meaning config.old frame.now }
    requires arguments { HasObject config.old arguments }
    requires formals { All (Has config.old.heap.texts) declared.now.formals }
    requires others { All (Has config.old.heap.texts) others.now }
    requires values { All (HasValue config.old) values.now }
    requires stand { All (λ i. IsFunction config.old.units.items config.old.heap.arena frame.now.tree i frame.now.scope 0) declared.now.functions }
    ensures does { OnOk result (DoesFirst S.meaning
        (λ t. variables_filled (map (text_in t) declared.now.formals) (numbers declared.now.functions) (map (text_in t) others.now) arguments
        (map (value_in t) values.now) (env_in S.meaning config.old t frame.now)) config.old config.new) }
    ensures later { OnOk result (Later S.meaning config.old config.new) }
{
    let scope = frame.scope();
    write_variables(config, frame, arguments, declared.formals(), &[], values)?;
    declare_functions(config, frame, declared.functions(), scope)?;
    write_undefined(config, frame, scope, others)
}
