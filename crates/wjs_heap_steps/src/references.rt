//! References (ECMA-262, 3rd edition, section 8.7).
ghost use Rattle.std.specs.Prelude.{◌≡◌, IfOk, OnOk, MatchResult};
ghost use Rattle.wjs_base.specs.Text.{Table, Has};
ghost use Rattle.wjs_by_content.specs.Tables.{text_in, name_in, value_in};
ghost use Rattle.wjs_by_content.specs.Values.{Object};
ghost use Rattle.wjs_meaning.specs.Deeds.{Local, Global, Member};
ghost use Rattle.wjs_meaning.specs.References as line;
ghost use Rattle.wjs_model.specs.Contents.{reference_in};
ghost use Rattle.wjs_model.specs.Soundness.{Base, IsThere, HasObject, HasName, HasValue, HasReference};
ghost use Rattle.wjs_model.specs.Units.{place_in};
ghost use Rattle.wjs_frames.specs.Doing.{Does, Fails, DoesFirst, FailsFirst};
ghost use Rattle.wjs_frames.specs.Following.{Later};
ghost use Rattle.wjs_frames.specs.Parts.{env_in};
ghost use Rattle.wjs_heap_steps.specs.Peeking.{Peeks};

use crate::errors::{create_error, create_undefined};
use crate::looks::{fixed, scope_up};
use crate::properties::{get, put};
use crate::slots::{read, write};
use crate::texts::name_of;
use crate::values::member_value;
use wjs_base::{Content, Name, ObjId, OutOfMemory, TextId, Value};
use wjs_by_content::PutAnswer;
use wjs_meaning::Trouble;
use wjs_model::{Config, Frame, Reference};
use wjs_scope::Place;
use wjs_store::WorldStore;

/// The reference of a name at its place (section 10.1.4).
#[inline(always)]
pub fn reference_at<S: WorldStore>(
    config: &Config<S>,
    frame: &Frame,
    place: Place,
    id: TextId,
) -> Reference
    requires base { Base S.meaning config.now }
    requires there { IsThere S.meaning config.now frame.now }
    requires text { Has config.now.heap.texts id }
    ensures does { Does S.meaning (λ t. line.reference_at (place_in place) (text_in t id) (env_in S.meaning config.now t frame.now))
        (λ t. reference_in t result) config.now config.now }
    ensures peeks { Peeks S.meaning (λ t. line.reference_at (place_in place) (text_in t id) (env_in S.meaning config.now t frame.now))
        (λ t. reference_in t result) config.now }
    ensures found { HasReference config.now result }
{
    let name = name_of(config, id);
    match place {
        Place::Global => Reference::Global(name),
        Place::Local { hops } => Reference::Local(scope_up(config, frame.scope(), hops), name),
    }
}

/// The value of a reference (section 8.7.1), or what is thrown.
#[inline(always)]
pub fn value_of<S: WorldStore>(
    config: &mut Config<S>,
    frame: &Frame,
    reference: Reference,
) -> Result<Result<Value, Value>, OutOfMemory>
    requires base { Base S.meaning config.old }
    requires there { IsThere S.meaning config.old frame.now }
    requires reference { HasReference config.old reference }
    ensures does { IfOk result (λ answer. MatchResult answer
        (λ value. Does S.meaning (λ t. line.value_of (reference_in t reference) (env_in S.meaning config.old t frame.now))
        (λ t. value_in t value) config.old config.new)
        (λ error. Fails S.meaning (λ t. line.value_of (reference_in t reference) (env_in S.meaning config.old t frame.now))
        (λ t. value_in t error) config.old config.new)) }
    ensures later { OnOk result (Later S.meaning config.old config.new) }
    ensures found { IfOk result (λ answer. MatchResult answer (λ value. HasValue config.new value) (λ error. HasValue config.new error)) }
{
    match reference {
        Reference::Local(scope, name) => {
            let value = local_value(config, frame, scope, name)?;
            Ok(Ok(value))
        }
        Reference::Global(name) => global_value(config, frame, name),
        Reference::Member(base, name) => {
            let value = member_value(config, frame, base, name)?;
            Ok(Ok(value))
        }
    }
}

/// The value of a name in a scope: a function's own name is fixed.
#[inline(always)]
pub(crate) fn local_value<S: WorldStore>(
    config: &mut Config<S>,
    frame: &Frame,
    scope: ObjId,
    name: Name,
) -> Result<Value, OutOfMemory>
    requires base { Base S.meaning config.old }
    requires there { IsThere S.meaning config.old frame.now }
    requires scope { HasObject config.old scope }
    requires name { HasName config.old name }
    ensures does { IfOk result (λ value. Does S.meaning (λ t. line.value_of (Local scope (name_in t name)) (env_in S.meaning config.old t frame.now))
        (λ t. value_in t value) config.old config.new) }
    ensures later { OnOk result (Later S.meaning config.old config.new) }
    ensures found { IfOk result (λ value. HasValue config.new value) }
{
    match fixed(config, scope, name) {
        Some(value) => Ok(value),
        None => read(config, frame, scope, name),
    }
}

/// The value of a property of the global object; where it is absent that is thrown.
#[inline(always)]
fn global_value<S: WorldStore>(
    config: &mut Config<S>,
    frame: &Frame,
    name: Name,
) -> Result<Result<Value, Value>, OutOfMemory>
    requires base { Base S.meaning config.old }
    requires there { IsThere S.meaning config.old frame.now }
    requires name { HasName config.old name }
    ensures does { IfOk result (λ answer. MatchResult answer
        (λ value. Does S.meaning (λ t. line.value_of (Global (name_in t name)) (env_in S.meaning config.old t frame.now))
        (λ t. value_in t value) config.old config.new)
        (λ error. Fails S.meaning (λ t. line.value_of (Global (name_in t name)) (env_in S.meaning config.old t frame.now))
        (λ t. value_in t error) config.old config.new)) }
    ensures later { OnOk result (Later S.meaning config.old config.new) }
    ensures found { IfOk result (λ answer. MatchResult answer (λ value. HasValue config.new value) (λ error. HasValue config.new error)) }
{
    let global = config.global;
    let found = get(config, frame, global, name)?;
    match found {
        Content::Present(value) => Ok(Ok(value)),
        Content::Absent => {
            let error = create_undefined(config, name)?;
            Ok(Err(Value::Object(error)))
        }
    }
}

/// A store to a reference (section 8.7.2), or what is thrown.
#[inline(always)]
pub fn store<S: WorldStore>(
    config: &mut Config<S>,
    frame: &Frame,
    reference: Reference,
    value: Value,
) -> Result<Result<(), Value>, OutOfMemory>
    requires base { Base S.meaning config.old }
    requires there { IsThere S.meaning config.old frame.now }
    requires reference { HasReference config.old reference }
    requires value { HasValue config.old value }
    ensures does { IfOk result (λ answer. MatchResult answer
        (λ _. DoesFirst S.meaning
        (λ t. line.store (reference_in t reference) (value_in t value) (env_in S.meaning config.old t frame.now)) config.old config.new)
        (λ error. FailsFirst S.meaning (λ t. line.store (reference_in t reference) (value_in t value) (env_in S.meaning config.old t frame.now))
        (λ t. value_in t error) config.old config.new)) }
    ensures later { OnOk result (Later S.meaning config.old config.new) }
    ensures found { IfOk result (λ answer. MatchResult answer (λ _. Unit {0}) (λ error. HasValue config.new error)) }
{
    match reference {
        Reference::Local(scope, name) => {
            store_local(config, frame, scope, name, value)?;
            Ok(Ok(()))
        }
        Reference::Global(name) => {
            let global = config.global;
            store_property(config, frame, global, name, value)
        }
        Reference::Member(base, name) => store_member(config, frame, base, name, value),
    }
}

/// A store to a member: that of a primitive stays as it is.
#[inline(always)]
fn store_member<S: WorldStore>(
    config: &mut Config<S>,
    frame: &Frame,
    base: Value,
    name: Name,
    value: Value,
) -> Result<Result<(), Value>, OutOfMemory>
    requires base { Base S.meaning config.old }
    requires there { IsThere S.meaning config.old frame.now }
    requires object { HasValue config.old base }
    requires name { HasName config.old name }
    requires value { HasValue config.old value }
    ensures does { IfOk result (λ answer. MatchResult answer
        (λ _. DoesFirst S.meaning
        (λ t. line.store (Member (value_in t base) (name_in t name)) (value_in t value) (env_in S.meaning config.old t frame.now)) config.old config.new)
        (λ error. FailsFirst S.meaning
        (λ t. line.store (Member (value_in t base) (name_in t name)) (value_in t value) (env_in S.meaning config.old t frame.now))
        (λ t. value_in t error) config.old config.new)) }
    ensures later { OnOk result (Later S.meaning config.old config.new) }
    ensures found { IfOk result (λ answer. MatchResult answer (λ _. Unit {0}) (λ error. HasValue config.new error)) }
{
    match base {
        Value::Object(object) => store_property(config, frame, object, name, value),
        _ => Ok(Ok(())),
    }
}

/// A store to a name in a scope: a function's own name stays as it is.
#[inline(always)]
pub fn store_local<S: WorldStore>(
    config: &mut Config<S>,
    frame: &Frame,
    scope: ObjId,
    name: Name,
    value: Value,
) -> Result<(), OutOfMemory>
    requires base { Base S.meaning config.old }
    requires there { IsThere S.meaning config.old frame.now }
    requires scope { HasObject config.old scope }
    requires name { HasName config.old name }
    requires value { HasValue config.old value }
    ensures does { OnOk result (DoesFirst S.meaning
        (λ t. line.store (Local scope (name_in t name)) (value_in t value) (env_in S.meaning config.old t frame.now)) config.old config.new) }
    ensures later { OnOk result (Later S.meaning config.old config.new) }
{
    match fixed(config, scope, name) {
        Some(_) => Ok(()),
        None => write(config, frame, scope, name, value),
    }
}

/// A put, after which a bad length of an Array is thrown.
#[inline(always)]
fn store_property<S: WorldStore>(
    config: &mut Config<S>,
    frame: &Frame,
    object: ObjId,
    name: Name,
    value: Value,
) -> Result<Result<(), Value>, OutOfMemory>
    requires base { Base S.meaning config.old }
    requires there { IsThere S.meaning config.old frame.now }
    requires object { HasObject config.old object }
    requires name { HasName config.old name }
    requires value { HasValue config.old value }
    ensures does { IfOk result (λ answer. MatchResult answer
        (λ _. DoesFirst S.meaning
        (λ t. line.store (Member (Object object) (name_in t name)) (value_in t value) (env_in S.meaning config.old t frame.now)) config.old config.new)
        (λ error. FailsFirst S.meaning
        (λ t. line.store (Member (Object object) (name_in t name)) (value_in t value) (env_in S.meaning config.old t frame.now))
        (λ t. value_in t error) config.old config.new)) }
    ensures later { OnOk result (Later S.meaning config.old config.new) }
    ensures found { IfOk result (λ answer. MatchResult answer (λ _. Unit {0}) (λ error. HasValue config.new error)) }
{
    let answer = put(config, frame, object, name, value)?;
    match answer {
        PutAnswer::Done => Ok(Ok(())),
        PutAnswer::Ignored => Ok(Ok(())),
        PutAnswer::BadLength => {
            let error = create_error(config, Trouble::InvalidArrayLength)?;
            Ok(Err(Value::Object(error)))
        }
    }
}
