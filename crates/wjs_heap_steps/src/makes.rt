//! New objects.
ghost use Rattle.std.specs.Prelude.{◌≡◌, ◌<◌, ◌∷◌, [], None, Some, IfOk, OnOk, true, false};
ghost use Rattle.wjs_base.specs.Text.{Table, Grows, Has};
ghost use Rattle.wjs_arena.specs.Entries.{IsThere, scope_of};
ghost use Rattle.wjs_by_content.specs.Conversions.{is_primitive};
ghost use Rattle.wjs_by_content.specs.Objects as content;
ghost use Rattle.wjs_by_content.specs.Objects.{Internals};
ghost use Rattle.wjs_by_content.specs.Values.{String};
ghost use Rattle.wjs_by_content.specs.Tables.{text_in, value_in, object_in};
ghost use Rattle.wjs_heap.specs.Heap.{HasNamed};
ghost use Rattle.wjs_meaning.specs.Builtins as first;
ghost use Rattle.wjs_meaning.specs.Deeds.{Do, Create};
ghost use Rattle.wjs_meaning.specs.NewObjects.{plain_object, array_object, scope_object};
ghost use Rattle.wjs_model.specs.Apart.{NamesNear};
ghost use Rattle.wjs_model.specs.Soundness.{Base, HasObject, HasValue};
ghost use Rattle.wjs_model.specs.Standing.{FunctionStands};
ghost use Rattle.wjs_frames.specs.Doing.{Does};
ghost use Rattle.wjs_frames.specs.Following.{Later};

use crate::known::known_name;
use crate::texts::units_of;
use crate::values::length_value;
use std::alloc::Global;
use wjs_arena::{Class, Code, Flags, Listed, Object, Under};
use wjs_base::{Name, ObjId, OutOfMemory, TextId, Value};
use wjs_meaning::Builtin;
use wjs_model::Config;
use wjs_store::WorldStore;
use wjs_texts::Known;

/// An object that was there before the first step.
pub fn builtin<S: WorldStore>(config: &Config<S>, builtin: Builtin) -> ObjId
    requires base { Base S.meaning config.now }
    ensures number { result ≡ first.builtin builtin }
    ensures found { HasObject config.now result }
{
    let _config = config;
    builtin.object()
}

/// An object of a class on a prototype, with nothing else.
pub fn object_of(alloc: Global, class: Class, prototype: Option<ObjId>) -> Object
    ensures { result ≡ record {
      class = class;
      prototype = prototype;
      scope = None;
      code = Code.None;
      primitive = Value.Undefined;
      world = None;
      fixed = [];
      flags = [];
      all_kept = false;
    } }
{
    Object {
        class,
        prototype,
        scope: None,
        code: Code::None,
        primitive: Value::Undefined,
        world: None,
        fixed: Under::new(alloc),
        flags: Listed::new(alloc),
        all_kept: false,
    }
}

/// Makes an object, which stands for no world.
///
/// In `makes` its internal properties are given as they are by content, whatever texts are put into the table later.
pub fn create<S: WorldStore>(config: &mut Config<S>, object: Object) -> Result<ObjId, OutOfMemory>
    requires base { Base S.meaning config.old }
    requires prototype { IsThere config.old.heap.arena object.prototype }
    requires scope { IsThere config.old.heap.arena object.scope }
    requires near { NamesNear config.old.apart.items object }
    requires named { HasNamed config.old.heap.texts config.old.heap.arena object }
    requires world { object.world ≡ None }
    requires code { FunctionStands config.old.units.items config.old.heap.arena object.code object.scope }
    ensures does { IfOk result (λ o. Does S.meaning (λ t go. Do (Create config.old.owner (object_in t object)) go) (λ t. o) config.old config.new) }
    ensures makes { IfOk result (λ o. (internals : Table → Internals) → ((t : Table) → Grows config.old.heap.texts t → object_in t object ≡ internals t) →
        Does S.meaning (λ t go. Do (Create config.old.owner (internals t)) go) (λ t. o) config.old config.new) }
    ensures later { OnOk result (Later S.meaning config.old config.new) }
    ensures found { IfOk result (λ o. HasObject config.new o) }
    ensures outer { IfOk result (λ o. scope_of config.new.heap.arena o ≡ object.scope) }
{
    let o = wjs_props::create(&mut config.heap, config.owner, object)?;
    Ok(o)
}

/// Makes a plain object.
pub fn create_plain<S: WorldStore>(config: &mut Config<S>) -> Result<ObjId, OutOfMemory>
    requires { Base S.meaning config.old }
    ensures does { IfOk result (λ o. Does S.meaning (λ t go. Do (Create config.old.owner plain_object) go) (λ t. o) config.old config.new) }
    ensures later { OnOk result (Later S.meaning config.old config.new) }
    ensures found { IfOk result (λ o. HasObject config.new o) }
{
    let prototype = builtin(config, Builtin::ObjectPrototype);
    let alloc = config.heap.arena.allocator();
    create(config, object_of(alloc, Class::Plain, Some(prototype)))
}

/// Makes an Array.
pub fn create_array<S: WorldStore>(config: &mut Config<S>) -> Result<ObjId, OutOfMemory>
    requires { Base S.meaning config.old }
    ensures does { IfOk result (λ o. Does S.meaning (λ t go. Do (Create config.old.owner array_object) go) (λ t. o) config.old config.new) }
    ensures later { OnOk result (Later S.meaning config.old config.new) }
    ensures found { IfOk result (λ o. HasObject config.new o) }
{
    let name = known_name(config, Known::Length)?;
    let prototype = builtin(config, Builtin::ArrayPrototype);
    let alloc = config.heap.arena.allocator();
    let mut object = object_of(alloc, Class::Array, Some(prototype));
    object.flags = hidden_kept(alloc, name)?;
    create(config, object)
}

/// A name that is hidden and kept.
fn hidden_kept(alloc: Global, name: Name) -> Result<Listed, OutOfMemory>
    ensures { IfOk result (λ under. under ≡ (name, record { hidden = true; kept = true }) ∷ []) }
{
    let mut flags = Vec::with_capacity(alloc, 1)?;
    let attributes = Flags {
        hidden: true,
        kept: true,
    };
    flags.push((name, attributes))?;
    Ok(Listed::from_vec(flags))
}

/// Makes a scope inside another.
pub fn create_scope<S: WorldStore>(
    config: &mut Config<S>,
    outer: ObjId,
) -> Result<ObjId, OutOfMemory>
    requires base { Base S.meaning config.old }
    requires outer { HasObject config.old outer }
    ensures does { IfOk result (λ o. Does S.meaning (λ t go. Do (Create config.old.owner (scope_object outer)) go) (λ t. o) config.old config.new) }
    ensures later { OnOk result (Later S.meaning config.old config.new) }
    ensures found { IfOk result (λ o. HasObject config.new o) }
    ensures outer { IfOk result (λ o. scope_of config.new.heap.arena o ≡ Some outer) }
{
    let alloc = config.heap.arena.allocator();
    let mut object = object_of(alloc, Class::Scope, None);
    object.scope = Some(outer);
    object.all_kept = true;
    create(config, object)
}

/// Makes the wrapper of a primitive (ECMA-262, 3rd edition, section 9.9).
pub fn create_wrapper<S: WorldStore>(
    config: &mut Config<S>,
    value: Value,
) -> Result<ObjId, OutOfMemory>
    requires base { Base S.meaning config.old }
    requires value { HasValue config.old value }
    requires primitive { (t : Table) → is_primitive (value_in t value) ≡ true }
    ensures does { IfOk result
        (λ o. Does S.meaning (λ t go. Do (Create config.old.owner (first.wrapper_of (value_in t value))) go) (λ t. o) config.old config.new) }
    ensures later { OnOk result (Later S.meaning config.old config.new) }
    ensures found { IfOk result (λ o. HasObject config.new o) }
{
    match value {
        Value::Text(id) => create_text_wrapper(config, id),
        Value::Number(_) => create_plain_wrapper(
            config,
            Class::Number,
            Builtin::NumberPrototype,
            value,
        ),
        Value::Bool(_) => create_plain_wrapper(
            config,
            Class::Bool,
            Builtin::BooleanPrototype,
            value,
        ),
        _ => create_plain_wrapper(config, Class::Plain, Builtin::ObjectPrototype, value),
    }
}

/// Makes an object on a prototype that holds a primitive.
fn create_plain_wrapper<S: WorldStore>(
    config: &mut Config<S>,
    class: Class,
    prototype: Builtin,
    value: Value,
) -> Result<ObjId, OutOfMemory>
    requires base { Base S.meaning config.old }
    requires value { HasValue config.old value }
    ensures does { IfOk result (λ o. Does S.meaning
        (λ t go. Do (Create config.old.owner (record (content.object_of class (Some (first.builtin prototype))) { primitive = value_in t value })) go)
        (λ t. o) config.old config.new) }
    ensures later { OnOk result (Later S.meaning config.old config.new) }
    ensures found { IfOk result (λ o. HasObject config.new o) }
{
    let prototype = builtin(config, prototype);
    let alloc = config.heap.arena.allocator();
    let mut object = object_of(alloc, class, Some(prototype));
    object.primitive = value;
    create(config, object)
}

/// Makes the wrapper of a text, whose `length` is fixed (section 15.5.5.1).
fn create_text_wrapper<S: WorldStore>(
    config: &mut Config<S>,
    id: TextId,
) -> Result<ObjId, OutOfMemory>
    requires base { Base S.meaning config.old }
    requires text { Has config.old.heap.texts id }
    ensures does { IfOk result
        (λ o. Does S.meaning (λ t go. Do (Create config.old.owner (first.wrapper_of (String (text_in t id)))) go) (λ t. o) config.old config.new) }
    ensures later { OnOk result (Later S.meaning config.old config.new) }
    ensures found { IfOk result (λ o. HasObject config.new o) }
{
    let name = known_name(config, Known::Length)?;
    let prototype = builtin(config, Builtin::StringPrototype);
    let length = length_value(units_of(config, id).len());
    let alloc = config.heap.arena.allocator();
    let mut object = object_of(alloc, Class::Text, Some(prototype));
    object.primitive = Value::Text(id);
    object.fixed = one_fixed(alloc, name, length)?;
    create(config, object)
}

/// One value under a name.
pub fn one_fixed(alloc: Global, name: Name, value: Value) -> Result<Under<Value>, OutOfMemory>
    ensures { IfOk result (λ under. under ≡ (name, value) ∷ []) }
{
    let mut fixed = Vec::with_capacity(alloc, 1)?;
    fixed.push((name, value))?;
    Ok(Under::from_vec(fixed))
}

/// Two values under names.
pub(crate) fn two_fixed(
    alloc: Global,
    first: (Name, Value),
    second: (Name, Value),
) -> Result<Under<Value>, OutOfMemory>
    ensures { IfOk result (λ under. under ≡ first ∷ second ∷ []) }
{
    let mut fixed = Vec::with_capacity(alloc, 2)?;
    fixed.push(first)?;
    fixed.push(second)?;
    Ok(Under::from_vec(fixed))
}
