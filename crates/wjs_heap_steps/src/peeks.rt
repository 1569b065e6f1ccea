//! What names and properties hold, where a read of them would change nothing; else None, which a store may answer at any slot.
//!
//! Nothing is told, no mark is left and no step taken, so each call holds however many steps are left.
ghost use Rattle.std.specs.Prelude.{IfSome, Some};
ghost use Rattle.wjs_base.specs.Text.{Table, Has};
ghost use Rattle.wjs_by_content.specs.Names.{slot};
ghost use Rattle.wjs_by_content.specs.Tables.{text_in, name_in, value_in, content_in};
ghost use Rattle.wjs_by_content.specs.Values.{value_or_undefined};
ghost use Rattle.wjs_meaning.specs.Deeds.{Env, Do, Read, Local, Global, Gives, Refers};
ghost use Rattle.wjs_meaning.specs.Properties as line;
ghost use Rattle.wjs_meaning.specs.References as references;
ghost use Rattle.wjs_model.specs.Contents.{operand_in, reference_in};
ghost use Rattle.wjs_model.specs.Operands.{evaluated, named, with_operand};
ghost use Rattle.wjs_model.specs.Soundness.{Base, IsThere, HasObject, HasName, HasValue, HasContent, HasOperand, HasReference};
ghost use Rattle.wjs_model.specs.Units.{place_in};
ghost use Rattle.wjs_frames.specs.Parts.{env_in};
ghost use Rattle.wjs_heap_steps.specs.Peeking.{Peeks};

use crate::looks::{fixed, scope_up};
use crate::makes::builtin;
use crate::references::reference_at;
use crate::texts::{name_of, units_of};
use crate::values::{class_prototype, is_length, length_value};
use wjs_base::{Content, Name, ObjId, Slot, TextId, Value};
use wjs_meaning::Builtin;
use wjs_model::{Config, Frame, Operand, Reference};
use wjs_scope::Place;
use wjs_store::WorldStore;

/// What the object or its nearest prototype that has the name holds there: its [[Get]] (ECMA-262, 3rd edition, section 8.6.2.1).
#[inline(always)]
fn peek<S: WorldStore>(
    config: &Config<S>,
    frame: &Frame,
    object: ObjId,
    name: Name,
) -> Option<Content>
    requires base { Base S.meaning config.now }
    requires there { IsThere S.meaning config.now frame.now }
    requires object { HasObject config.now object }
    requires name { HasName config.now name }
    ensures peeks { IfSome result (λ found. Peeks S.meaning (λ t. line.get object (name_in t name) (env_in S.meaning config.now t frame.now))
        (λ t. content_in t found) config.now) }
    ensures found { IfSome result (λ found. HasContent config.now found) }
{
    let found = wjs_props::peek(&config.heap, frame.world(), object, name)?;
    Some(found)
}

/// What [[Get]] finds, where absent counts as undefined.
#[inline(always)]
fn peek_value<S: WorldStore>(
    config: &Config<S>,
    frame: &Frame,
    object: ObjId,
    name: Name,
) -> Option<Value>
    requires base { Base S.meaning config.now }
    requires there { IsThere S.meaning config.now frame.now }
    requires object { HasObject config.now object }
    requires name { HasName config.now name }
    ensures peeks { IfSome result (λ value. Peeks S.meaning (λ t. line.get_value object (name_in t name) (env_in S.meaning config.now t frame.now))
        (λ t. value_in t value) config.now) }
    ensures found { IfSome result (λ value. HasValue config.now value) }
{
    let found = peek(config, frame, object, name)?;
    match found {
        Content::Present(value) => Some(value),
        Content::Absent => Some(Value::Undefined),
    }
}

/// The value of a member: of an object what [[Get]] finds, of a primitive what its prototype object has, and of a text its own `length`.
#[inline(always)]
pub fn peek_member<S: WorldStore>(
    config: &Config<S>,
    frame: &Frame,
    base: Value,
    name: Name,
) -> Option<Value>
    requires base { Base S.meaning config.now }
    requires there { IsThere S.meaning config.now frame.now }
    requires value { HasValue config.now base }
    requires name { HasName config.now name }
    ensures peeks { IfSome result (λ value. Peeks S.meaning
        (λ t. references.member_value (value_in t base) (name_in t name) (env_in S.meaning config.now t frame.now)) (λ t. value_in t value) config.now) }
    ensures found { IfSome result (λ value. HasValue config.now value) }
{
    match base {
        Value::Object(object) => peek_value(config, frame, object, name),
        Value::Text(id) => peek_text_member(config, frame, id, name),
        _ => {
            let prototype = class_prototype(config, base);
            peek_value(config, frame, prototype, name)
        }
    }
}

/// `peek_member` by a word. Mostly the object itself holds it: then it needs no look at what the word spells.
#[inline(always)]
pub fn peek_word<S: WorldStore>(
    config: &Config<S>,
    frame: &Frame,
    base: Value,
    id: TextId,
) -> Option<Value>
    requires base { Base S.meaning config.now }
    requires there { IsThere S.meaning config.now frame.now }
    requires value { HasValue config.now base }
    requires text { Has config.now.heap.texts id }
    ensures peeks { IfSome result (λ value. Peeks S.meaning
        (λ t. references.member_value (value_in t base) (text_in t id) (env_in S.meaning config.now t frame.now)) (λ t. value_in t value) config.now) }
    ensures found { IfSome result (λ value. HasValue config.now value) }
{
    match member_held(config, frame, base, id) {
        Some(value) => Some(value),
        None => member_spelled(config, frame, base, id),
    }
}

/// The value of a member that an object's own slot holds; else None.
#[inline(always)]
fn member_held<S: WorldStore>(
    config: &Config<S>,
    frame: &Frame,
    base: Value,
    id: TextId,
) -> Option<Value>
    requires base { Base S.meaning config.now }
    requires there { IsThere S.meaning config.now frame.now }
    requires value { HasValue config.now base }
    ensures peeks { IfSome result (λ value. Peeks S.meaning
        (λ t. references.member_value (value_in t base) (text_in t id) (env_in S.meaning config.now t frame.now)) (λ t. value_in t value) config.now) }
    ensures found { IfSome result (λ value. HasValue config.now value) }
{
    match base {
        Value::Object(object) => peek_held(config, frame, object, id),
        _ => None,
    }
}

/// The value of a member, by what its name's text spells.
#[inline(never)]
fn member_spelled<S: WorldStore>(
    config: &Config<S>,
    frame: &Frame,
    base: Value,
    id: TextId,
) -> Option<Value>
    requires base { Base S.meaning config.now }
    requires there { IsThere S.meaning config.now frame.now }
    requires value { HasValue config.now base }
    requires text { Has config.now.heap.texts id }
    ensures peeks { IfSome result (λ value. Peeks S.meaning
        (λ t. references.member_value (value_in t base) (text_in t id) (env_in S.meaning config.now t frame.now)) (λ t. value_in t value) config.now) }
    ensures found { IfSome result (λ value. HasValue config.now value) }
{
    let name = name_of(config, id);
    peek_member(config, frame, base, name)
}

/// A text's own `length`; every other name is looked up on the prototype object of texts.
fn peek_text_member<S: WorldStore>(
    config: &Config<S>,
    frame: &Frame,
    id: TextId,
    name: Name,
) -> Option<Value>
    requires base { Base S.meaning config.now }
    requires there { IsThere S.meaning config.now frame.now }
    requires text { Has config.now.heap.texts id }
    requires name { HasName config.now name }
    ensures peeks { IfSome result (λ value. Peeks S.meaning
        (λ t. references.text_member (text_in t id) (name_in t name) (env_in S.meaning config.now t frame.now)) (λ t. value_in t value) config.now) }
    ensures found { IfSome result (λ value. HasValue config.now value) }
{
    if is_length(config, name) {
        return Some(length_value(units_of(config, id).len()));
    }
    let prototype = builtin(config, Builtin::StringPrototype);
    peek_value(config, frame, prototype, name)
}

/// The value of an operand that is a value or a name; None of a target, and of a name that is not there.
#[inline(always)]
pub fn peek_operand<S: WorldStore>(
    config: &Config<S>,
    frame: &Frame,
    operand: Operand,
) -> Option<Value>
    requires base { Base S.meaning config.now }
    requires there { IsThere S.meaning config.now frame.now }
    requires operand { HasOperand config.now operand }
    ensures peeks { IfSome result (λ value. Peeks S.meaning (λ t. with_operand (operand_in t operand) (env_in S.meaning config.now t frame.now))
        (λ t. Gives (value_in t value)) config.now) }
    ensures found { IfSome result (λ value. HasValue config.now value) }
{
    match operand {
        Operand::Value(value) => Some(value),
        Operand::Name(place, id) => peek_name(config, frame, place, id),
        Operand::Target(_, _) => None,
    }
}

/// The reference of an operand that is a target; None of any other.
#[inline(always)]
pub fn peek_target<S: WorldStore>(
    config: &Config<S>,
    frame: &Frame,
    operand: Operand,
) -> Option<Reference>
    requires base { Base S.meaning config.now }
    requires there { IsThere S.meaning config.now frame.now }
    requires operand { HasOperand config.now operand }
    ensures peeks { IfSome result (λ reference. Peeks S.meaning (λ t. with_operand (operand_in t operand) (env_in S.meaning config.now t frame.now))
        (λ t. Refers (reference_in t reference)) config.now) }
    ensures found { IfSome result (λ reference. HasReference config.now reference) }
{
    match operand {
        Operand::Target(place, id) => Some(reference_at(config, frame, place, id)),
        _ => None,
    }
}

/// The value of a reference (section 8.7.1); None of a global name that is not there.
#[inline(always)]
pub fn peek_value_of<S: WorldStore>(
    config: &Config<S>,
    frame: &Frame,
    reference: Reference,
) -> Option<Value>
    requires base { Base S.meaning config.now }
    requires there { IsThere S.meaning config.now frame.now }
    requires reference { HasReference config.now reference }
    ensures peeks { IfSome result (λ value. Peeks S.meaning (λ t. evaluated (reference_in t reference) (env_in S.meaning config.now t frame.now))
        (λ t. Gives (value_in t value)) config.now) }
    ensures found { IfSome result (λ value. HasValue config.now value) }
{
    match reference {
        Reference::Local(scope, name) => peek_local(config, frame, scope, name),
        Reference::Global(name) => peek_global(config, frame, name),
        Reference::Member(base, name) => peek_member(config, frame, base, name),
    }
}

/// The value of a name at its place (section 10.1.4). Mostly its scope or the global object itself holds it: then it needs no look at
/// what the text spells.
#[inline(always)]
fn peek_name<S: WorldStore>(
    config: &Config<S>,
    frame: &Frame,
    place: Place,
    id: TextId,
) -> Option<Value>
    requires base { Base S.meaning config.now }
    requires there { IsThere S.meaning config.now frame.now }
    requires text { Has config.now.heap.texts id }
    ensures peeks { IfSome result (λ value. Peeks S.meaning (λ t. named (place_in place) (text_in t id) (env_in S.meaning config.now t frame.now))
        (λ t. Gives (value_in t value)) config.now) }
    ensures found { IfSome result (λ value. HasValue config.now value) }
{
    match place {
        Place::Global => peek_in_global(config, frame, id),
        Place::Local { hops } => {
            let scope = scope_up(config, frame.scope(), hops);
            peek_in_scope(config, frame, scope, id)
        }
    }
}

/// The value of a name in a scope.
#[inline(always)]
fn peek_in_scope<S: WorldStore>(
    config: &Config<S>,
    frame: &Frame,
    scope: ObjId,
    id: TextId,
) -> Option<Value>
    requires base { Base S.meaning config.now }
    requires there { IsThere S.meaning config.now frame.now }
    requires scope { HasObject config.now scope }
    requires text { Has config.now.heap.texts id }
    ensures peeks { IfSome result (λ value. Peeks S.meaning (λ t. evaluated (Local scope (text_in t id)) (env_in S.meaning config.now t frame.now))
        (λ t. Gives (value_in t value)) config.now) }
    ensures found { IfSome result (λ value. HasValue config.now value) }
{
    match local_held(config, frame, scope, id) {
        Some(value) => Some(value),
        None => local_spelled(config, frame, scope, id),
    }
}

/// The value of a name of the global object; None where it is absent, since that throws.
#[inline(always)]
fn peek_in_global<S: WorldStore>(config: &Config<S>, frame: &Frame, id: TextId) -> Option<Value>
    requires base { Base S.meaning config.now }
    requires there { IsThere S.meaning config.now frame.now }
    requires text { Has config.now.heap.texts id }
    ensures peeks { IfSome result (λ value. Peeks S.meaning (λ t. evaluated (Global (text_in t id)) (env_in S.meaning config.now t frame.now))
        (λ t. Gives (value_in t value)) config.now) }
    ensures found { IfSome result (λ value. HasValue config.now value) }
{
    match global_held(config, frame, id) {
        Some(value) => Some(value),
        None => global_spelled(config, frame, id),
    }
}

/// The value of a name in a scope, where its slot holds one and nothing is fixed; else None.
#[inline(always)]
fn local_held<S: WorldStore>(
    config: &Config<S>,
    frame: &Frame,
    scope: ObjId,
    id: TextId,
) -> Option<Value>
    requires base { Base S.meaning config.now }
    requires there { IsThere S.meaning config.now frame.now }
    requires scope { HasObject config.now scope }
    ensures peeks { IfSome result (λ value. Peeks S.meaning (λ t. evaluated (Local scope (text_in t id)) (env_in S.meaning config.now t frame.now))
        (λ t. Gives (value_in t value)) config.now) }
    ensures found { IfSome result (λ value. HasValue config.now value) }
{
    let name = Name::Text(id);
    let value = slot_held(config, frame, scope, name)?;
    match fixed(config, scope, name) {
        Some(_) => None,
        None => Some(value),
    }
}

/// The value that a slot holds, where it holds one: then its name is there.
#[inline(always)]
fn slot_held<S: WorldStore>(
    config: &Config<S>,
    frame: &Frame,
    object: ObjId,
    name: Name,
) -> Option<Value>
    requires base { Base S.meaning config.now }
    requires there { IsThere S.meaning config.now frame.now }
    requires object { HasObject config.now object }
    ensures name { IfSome result (λ _. HasName config.now name) }
    ensures peeks { IfSome result (λ value. Peeks S.meaning (λ t go. Do (Read frame.now.world (slot object (name_in t name))) go)
        (λ t. Some (value_in t value)) config.now) }
    ensures found { IfSome result (λ value. HasValue config.now value) }
{
    let value = wjs_props::look_held(&config.heap, frame.world(), Slot { object, name })?;
    Some(value)
}

/// The value of a name in a scope, by what its text spells.
#[inline(never)]
fn local_spelled<S: WorldStore>(
    config: &Config<S>,
    frame: &Frame,
    scope: ObjId,
    id: TextId,
) -> Option<Value>
    requires base { Base S.meaning config.now }
    requires there { IsThere S.meaning config.now frame.now }
    requires scope { HasObject config.now scope }
    requires text { Has config.now.heap.texts id }
    ensures peeks { IfSome result (λ value. Peeks S.meaning (λ t. evaluated (Local scope (text_in t id)) (env_in S.meaning config.now t frame.now))
        (λ t. Gives (value_in t value)) config.now) }
    ensures found { IfSome result (λ value. HasValue config.now value) }
{
    let name = name_of(config, id);
    peek_local(config, frame, scope, name)
}

/// The value of a property that the global object's own slot holds; else None.
#[inline(always)]
fn global_held<S: WorldStore>(config: &Config<S>, frame: &Frame, id: TextId) -> Option<Value>
    requires base { Base S.meaning config.now }
    requires there { IsThere S.meaning config.now frame.now }
    ensures peeks { IfSome result (λ value. Peeks S.meaning (λ t. evaluated (Global (text_in t id)) (env_in S.meaning config.now t frame.now))
        (λ t. Gives (value_in t value)) config.now) }
    ensures found { IfSome result (λ value. HasValue config.now value) }
{
    peek_held(config, frame, config.global, id)
}

/// The value of a property of the global object, by what its text spells.
#[inline(never)]
fn global_spelled<S: WorldStore>(config: &Config<S>, frame: &Frame, id: TextId) -> Option<Value>
    requires base { Base S.meaning config.now }
    requires there { IsThere S.meaning config.now frame.now }
    requires text { Has config.now.heap.texts id }
    ensures peeks { IfSome result (λ value. Peeks S.meaning (λ t. evaluated (Global (text_in t id)) (env_in S.meaning config.now t frame.now))
        (λ t. Gives (value_in t value)) config.now) }
    ensures found { IfSome result (λ value. HasValue config.now value) }
{
    let name = name_of(config, id);
    peek_global(config, frame, name)
}

/// What [[Get]] finds where the object's own slot holds a value under the text; else None.
#[inline(always)]
fn peek_held<S: WorldStore>(
    config: &Config<S>,
    frame: &Frame,
    object: ObjId,
    id: TextId,
) -> Option<Value>
    requires base { Base S.meaning config.now }
    requires there { IsThere S.meaning config.now frame.now }
    requires object { HasObject config.now object }
    ensures peeks { IfSome result (λ value. Peeks S.meaning (λ t. line.get object (text_in t id) (env_in S.meaning config.now t frame.now))
        (λ t. Some (value_in t value)) config.now) }
    ensures found { IfSome result (λ value. HasValue config.now value) }
{
    let value = wjs_props::peek_held(&config.heap, frame.world(), object, Name::Text(id))?;
    Some(value)
}

/// The value of a property of the global object; None where it is absent, since that throws.
#[inline(always)]
fn peek_global<S: WorldStore>(config: &Config<S>, frame: &Frame, name: Name) -> Option<Value>
    requires base { Base S.meaning config.now }
    requires there { IsThere S.meaning config.now frame.now }
    requires name { HasName config.now name }
    ensures peeks { IfSome result (λ value. Peeks S.meaning (λ t. evaluated (Global (name_in t name)) (env_in S.meaning config.now t frame.now))
        (λ t. Gives (value_in t value)) config.now) }
    ensures found { IfSome result (λ value. HasValue config.now value) }
{
    let found = peek(config, frame, config.global, name)?;
    match found {
        Content::Present(value) => Some(value),
        Content::Absent => None,
    }
}

/// The value of a name in a scope: a function's own name is fixed.
#[inline(always)]
fn peek_local<S: WorldStore>(
    config: &Config<S>,
    frame: &Frame,
    scope: ObjId,
    name: Name,
) -> Option<Value>
    requires base { Base S.meaning config.now }
    requires there { IsThere S.meaning config.now frame.now }
    requires scope { HasObject config.now scope }
    requires name { HasName config.now name }
    ensures peeks { IfSome result (λ value. Peeks S.meaning (λ t. evaluated (Local scope (name_in t name)) (env_in S.meaning config.now t frame.now))
        (λ t. Gives (value_in t value)) config.now) }
    ensures found { IfSome result (λ value. HasValue config.now value) }
{
    match fixed(config, scope, name) {
        Some(value) => Some(value),
        None => peek_slot(config, frame, scope, name),
    }
}

/// What a slot holds, where absent counts as undefined.
#[inline(always)]
fn peek_slot<S: WorldStore>(
    config: &Config<S>,
    frame: &Frame,
    object: ObjId,
    name: Name,
) -> Option<Value>
    requires base { Base S.meaning config.now }
    requires there { IsThere S.meaning config.now frame.now }
    requires object { HasObject config.now object }
    requires name { HasName config.now name }
    ensures peeks { IfSome result (λ value. Peeks S.meaning
        (λ t go. Do (Read frame.now.world (slot object (name_in t name))) (λ found. go (value_or_undefined found))) (λ t. value_in t value) config.now) }
    ensures found { IfSome result (λ value. HasValue config.now value) }
{
    let found = peek_content(config, frame, object, name)?;
    match found {
        Content::Present(value) => Some(value),
        Content::Absent => Some(Value::Undefined),
    }
}

/// What a slot holds.
#[inline(always)]
fn peek_content<S: WorldStore>(
    config: &Config<S>,
    frame: &Frame,
    object: ObjId,
    name: Name,
) -> Option<Content>
    requires base { Base S.meaning config.now }
    requires there { IsThere S.meaning config.now frame.now }
    requires object { HasObject config.now object }
    requires name { HasName config.now name }
    ensures peeks { IfSome result (λ found. Peeks S.meaning (λ t go. Do (Read frame.now.world (slot object (name_in t name))) go)
        (λ t. content_in t found) config.now) }
    ensures found { IfSome result (λ found. HasContent config.now found) }
{
    let found = wjs_props::look(&config.heap, frame.world(), Slot { object, name })?;
    Some(found)
}
