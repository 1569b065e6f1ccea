//! Looks at objects, which change nothing.
//!
//! Each says what the look at the objects by content gives, whatever further ones stand beside them, and that it is a deed of a line.
ghost use Rattle.std.specs.Prelude.{◌≡◌, Some, IfSome, unwrap_or};
ghost use Rattle.std.specs.Option.{option_map};
ghost use Rattle.std.specs.FinMap as map;
ghost use Rattle.wjs_base.specs.Text.{Table, Grows};
ghost use Rattle.wjs_arena.specs.Entries.{Entry};
ghost use Rattle.wjs_by_content.specs.Objects as objects;
ghost use Rattle.wjs_by_content.specs.Objects.{Arena};
ghost use Rattle.wjs_by_content.specs.Tables.{name_in, value_in};
ghost use Rattle.wjs_store.specs.State.{same_object};
ghost use Rattle.wjs_meaning.specs.Deeds.{Do, Look};
ghost use Rattle.wjs_model.specs.Outside.{Sees};
ghost use Rattle.wjs_model.specs.Soundness.{Base, HasObject, HasName, HasValue, HasWorld};
ghost use Rattle.wjs_model.specs.Standing.{IsShown};
ghost use Rattle.wjs_frames.specs.Doing.{Does};

use wjs_arena::{Class, Code};
use wjs_base::{Name, ObjId, Value, WorldId};
use wjs_model::Config;
use wjs_store::WorldStore;

/// The code of an object.
pub fn code_of<S: WorldStore>(config: &Config<S>, object: ObjId) -> Code
    requires { HasObject config.now object }
    ensures does { Does S.meaning (λ t go. Do Look (λ arena. go (objects.object_at arena object).code)) (λ t. result) config.now config.now }
    ensures is { (t : Table) (arena : Arena) → Sees S.meaning config.now t arena → (objects.object_at arena object).code ≡ result }
    ensures entry { (e : Entry) → map.get config.now.heap.arena object ≡ Some e → e.object.code ≡ result }
{
    config.heap.arena.code(object)
}

/// The class of an object.
pub fn class_of<S: WorldStore>(config: &Config<S>, object: ObjId) -> Class
    requires { HasObject config.now object }
    ensures does { Does S.meaning (λ t go. Do Look (λ arena. go (objects.object_at arena object).class)) (λ t. result) config.now config.now }
    ensures is { (t : Table) (arena : Arena) → Sees S.meaning config.now t arena → (objects.object_at arena object).class ≡ result }
{
    config.heap.arena.class(object)
}

/// The prototype of an object.
pub(crate) fn prototype_of<S: WorldStore>(config: &Config<S>, object: ObjId) -> Option<ObjId>
    requires base { Base S.meaning config.now }
    requires object { HasObject config.now object }
    ensures does { Does S.meaning (λ t go. Do Look (λ arena. go (objects.object_at arena object).prototype)) (λ t. result) config.now config.now }
    ensures is { (t : Table) (arena : Arena) → Sees S.meaning config.now t arena → (objects.object_at arena object).prototype ≡ result }
    ensures found { IfSome result (λ prototype. HasObject config.now prototype) }
{
    config.heap.arena.prototype(object)
}

/// The scope of a function, or the next scope outwards.
#[inline(always)]
pub fn scope_of<S: WorldStore>(config: &Config<S>, object: ObjId) -> Option<ObjId>
    requires base { Base S.meaning config.now }
    requires object { HasObject config.now object }
    ensures does { Does S.meaning (λ t go. Do Look (λ arena. go (objects.object_at arena object).scope)) (λ t. result) config.now config.now }
    ensures is { (t : Table) (arena : Arena) → Sees S.meaning config.now t arena → (objects.object_at arena object).scope ≡ result }
    ensures found { IfSome result (λ scope. HasObject config.now scope) }
    ensures entry { (e : Entry) → map.get config.now.heap.arena object ≡ Some e → e.object.scope ≡ result }
{
    config.heap.arena.scope(object)
}

/// The world for which an object stands, if there is one.
pub(crate) fn world_for<S: WorldStore>(config: &Config<S>, object: ObjId) -> Option<WorldId>
    requires { HasObject config.now object }
    ensures does { Does S.meaning (λ t go. Do Look (λ arena. go (objects.object_at arena object).world)) (λ t. result) config.now config.now }
    ensures is { (t : Table) (arena : Arena) → Sees S.meaning config.now t arena → (objects.object_at arena object).world ≡ result }
    ensures shown { IfSome result (λ world. IsShown config.now.heap.arena world) }
{
    config.heap.arena.world(object)
}

/// What a wrapper holds, and undefined of another object.
pub fn primitive_of<S: WorldStore>(config: &Config<S>, object: ObjId) -> Value
    requires base { Base S.meaning config.now }
    requires object { HasObject config.now object }
    ensures does { Does S.meaning (λ t go. Do Look (λ arena. go (objects.object_at arena object).primitive)) (λ t. value_in t result) config.now config.now }
    ensures is { (t : Table) (arena : Arena) → Sees S.meaning config.now t arena → (objects.object_at arena object).primitive ≡ value_in t result }
    ensures found { HasValue config.now result }
{
    config.heap.arena.primitive(object)
}

/// Whether the object is a function.
pub fn is_callable<S: WorldStore>(config: &Config<S>, object: ObjId) -> bool
    requires { HasObject config.now object }
    ensures does { Does S.meaning (λ t go. Do Look (λ arena. go (objects.is_callable arena object))) (λ t. result) config.now config.now }
    ensures is { (t : Table) (arena : Arena) → Sees S.meaning config.now t arena → objects.is_callable arena object ≡ result }
{
    has_code(config.heap.arena.code(object))
}

/// Whether there is code.
fn has_code(code: Code) -> bool
    ensures { objects.has_code code ≡ result }
{
    match code {
        Code::None => false,
        Code::Script { .. } => true,
        Code::Native(_) => true,
    }
}

/// The function that a value is; None exactly where it is none.
pub fn function_of<S: WorldStore>(config: &Config<S>, value: Value) -> Option<ObjId>
    requires { HasValue config.now value }
    ensures does { Does S.meaning (λ t go. Do Look (λ arena. go (objects.function_of arena (value_in t value)))) (λ t. result) config.now config.now }
    ensures is { (t : Table) (arena : Arena) → Sees S.meaning config.now t arena → objects.function_of arena (value_in t value) ≡ result }
    ensures found { IfSome result (λ function. HasObject config.now function) }
{
    function_if(config, value)
}

/// The value's object, if it is a function.
fn function_if<S: WorldStore>(config: &Config<S>, value: Value) -> Option<ObjId>
    requires { HasValue config.now value }
    ensures is { (t : Table) (arena : Arena) → Sees S.meaning config.now t arena → objects.function_of arena (value_in t value) ≡ result }
    ensures found { IfSome result (λ function. HasObject config.now function) }
{
    match value {
        Value::Object(object) => {
            if is_callable(config, object) {
                Some(object)
            } else {
                None
            }
        }
        _ => None,
    }
}

/// Whether the object is an Array.
pub fn is_array<S: WorldStore>(config: &Config<S>, object: ObjId) -> bool
    requires { HasObject config.now object }
    ensures does { Does S.meaning (λ t go. Do Look (λ arena. go (objects.is_array arena object))) (λ t. result) config.now config.now }
    ensures is { (t : Table) (arena : Arena) → Sees S.meaning config.now t arena → objects.is_array arena object ≡ result }
{
    is_array_class(config.heap.arena.class(object))
}

/// Whether it is the class of Arrays.
fn is_array_class(class: Class) -> bool
    ensures { objects.is_array_class class ≡ result }
{
    match class {
        Class::Array => true,
        _ => false,
    }
}

/// The value of a fixed property; None exactly where the object has none of this name.
#[inline(always)]
pub fn fixed<S: WorldStore>(config: &Config<S>, object: ObjId, name: Name) -> Option<Value>
    requires base { Base S.meaning config.now }
    requires object { HasObject config.now object }
    requires name { HasName config.now name }
    ensures does { Does S.meaning (λ t go. Do Look (λ arena. go (objects.fixed arena object (name_in t name))))
        (λ t. option_map (value_in t) result) config.now config.now }
    ensures is { (t : Table) → Grows config.now.heap.texts t → (arena : Arena) → Sees S.meaning config.now t arena →
        objects.fixed arena object (name_in t name) ≡ option_map (value_in t) result }
    ensures found { IfSome result (λ value. HasValue config.now value) }
{
    config.heap.arena.fixed(object, name)
}

/// Whether listings leave a name of the object out.
pub fn is_hidden<S: WorldStore>(config: &Config<S>, object: ObjId, name: Name) -> bool
    requires base { Base S.meaning config.now }
    requires object { HasObject config.now object }
    requires name { HasName config.now name }
    ensures does { Does S.meaning (λ t go. Do Look (λ arena. go (objects.is_hidden arena object (name_in t name)))) (λ t. result) config.now config.now }
    ensures is { (t : Table) → Grows config.now.heap.texts t → (arena : Arena) → Sees S.meaning config.now t arena →
        objects.is_hidden arena object (name_in t name) ≡ result }
{
    config.heap.arena.flags(object, name).hidden
}

/// The scope that is so many scopes outwards. Where there is none further out, it is the last.
#[inline(always)]
pub(crate) fn scope_up<S: WorldStore>(config: &Config<S>, scope: ObjId, hops: u32) -> ObjId
    requires base { Base S.meaning config.now }
    requires scope { HasObject config.now scope }
    ensures does { Does S.meaning (λ t go. Do Look (λ arena. go (objects.scope_up arena hops scope))) (λ t. result) config.now config.now }
    ensures is { (t : Table) (arena : Arena) → Sees S.meaning config.now t arena → objects.scope_up arena hops scope ≡ result }
    ensures found { HasObject config.now result }
{
    let mut at = scope;
    let mut left = hops;
    'out: while left > 0 {
        at = scope_out(config, at);
        left -= 1;
    }
    at
}

/// The next scope outwards; where there is none, the scope itself.
#[inline(always)]
fn scope_out<S: WorldStore>(config: &Config<S>, scope: ObjId) -> ObjId
    requires base { Base S.meaning config.now }
    requires scope { HasObject config.now scope }
    ensures is { (t : Table) (arena : Arena) → Sees S.meaning config.now t arena → unwrap_or (objects.object_at arena scope).scope scope ≡ result }
    ensures found { HasObject config.now result }
{
    match scope_of(config, scope) {
        Some(outer) => outer,
        None => scope,
    }
}

/// Whether the object is among the prototypes of another.
pub fn is_past<S: WorldStore>(config: &Config<S>, prototype: ObjId, object: ObjId) -> bool
    requires base { Base S.meaning config.now }
    requires object { HasObject config.now object }
    ensures does { Does S.meaning (λ t go. Do Look (λ arena. go (objects.is_past arena prototype object))) (λ t. result) config.now config.now }
    ensures is { (t : Table) (arena : Arena) → Sees S.meaning config.now t arena → objects.is_past arena prototype object ≡ result }
{
    let mut at = prototype_of(config, object);
    'up: while let Some(next) = at {
        if same_object(next, prototype) {
            return true;
        }
        at = prototype_of(config, next);
    }
    false
}

fn same_object(a: ObjId, b: ObjId) -> bool
    ensures { result ≡ same_object a b }
{
    a.owner == b.owner && a.serial == b.serial
}

/// The object that stands for a world that is there; None exactly where none does.
pub fn world_object<S: WorldStore>(config: &Config<S>, world: WorldId) -> Option<ObjId>
    requires base { Base S.meaning config.now }
    requires world { HasWorld S.meaning config.now world }
    ensures does { Does S.meaning (λ t go. Do Look (λ arena. go (objects.world_object arena world))) (λ t. result) config.now config.now }
    ensures is { (t : Table) (arena : Arena) → Sees S.meaning config.now t arena → objects.world_object arena world ≡ result }
    ensures found { IfSome result (λ object. HasObject config.now object) }
{
    config.heap.arena.world_object(world)
}

/// The number of the next object that is made.
pub fn next_number<S: WorldStore>(config: &Config<S>) -> ObjId
    ensures does { Does S.meaning (λ t go. Do Look (λ arena. go (objects.next_number arena config.now.owner))) (λ t. result) config.now config.now }
    ensures is { (t : Table) (arena : Arena) → Sees S.meaning config.now t arena → objects.next_number arena config.now.owner ≡ result }
{
    config.heap.arena.next_number(config.owner)
}
