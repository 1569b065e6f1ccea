//! Literals of objects (ECMA-262, 3rd edition, section 11.1.5): the values from left to right, each written under its key.
ghost use Rattle.std.specs.Prelude.{◌≡◌, ◌+◌, Some, drop, slice_get, unwrap_or, IfOk, OnOk};
ghost use Rattle.wjs_by_content.specs.Names.{slot};
ghost use Rattle.wjs_by_content.specs.Tables.{value_in};
ghost use Rattle.wjs_heap.specs.Means.{nothing};
ghost use Rattle.wjs_meaning.specs.Deeds.{Do, Create, Write};
ghost use Rattle.wjs_meaning.specs.Expressions as line;
ghost use Rattle.wjs_meaning.specs.NewObjects.{plain_object};
ghost use Rattle.wjs_meaning.specs.Reading.{node_in, key_in};
ghost use Rattle.wjs_model.specs.Contents.{holding_in, value_held};
ghost use Rattle.wjs_model.specs.Lists.{pairs_of};
ghost use Rattle.wjs_model.specs.Texts.{KnowsKey};
ghost use Rattle.wjs_model.specs.Soundness.{Base, IsThere, HasObject, HasValue};
ghost use Rattle.wjs_model.specs.Waiting as after;
ghost use Rattle.wjs_frames.specs.Doing.{Does};
ghost use Rattle.wjs_frames.specs.Following.{Later};
ghost use Rattle.wjs_frames.specs.Parts.{node_now};
ghost use Rattle.wjs_literals.specs.Parts.{properties_in, properties_left};
ghost use Rattle.wjs_frames.specs.Handling.{Runs, GoesOn};
ghost use Rattle.wjs_effects.specs.Proceeding.{Proceeds};

use wjs_base::{ObjId, OutOfMemory, Value};
use wjs_frames::{Part, enter, finish, hold, node_of};
use wjs_heap_steps::{create_plain, write};
use wjs_members::name_of_key;
use wjs_model::{Completion, Config, ExprPoint, Frame, Held, Point};
use wjs_quick::quick;
use wjs_step_common::{held_value, number_after};
use wjs_store::WorldStore;
use wjs_tree::{Node, Property, PropertyKey};

/// An object literal: the object is made and held, and the values come next.
pub fn object_start<S: WorldStore>(config: &mut Config<S>, frame: Frame) -> Result<(), OutOfMemory>
    requires runs { Runs S.meaning config.old frame }
    ensures { GoesOn S.meaning frame config.old config.new result (λ t env.
        Do (Create env.owner plain_object) (λ o. line.object_from (pairs_of (node_in t (node_now S.meaning config.old frame))) o env)) }
{
    let object = create_plain(config)?;
    let mut frame = frame;
    hold(&mut frame, Held::Value(Value::Object(object)))?;
    object_next(config, frame, object, 0)
}

/// After the value of the property of a number: it is written to the object that is held.
pub fn object_item<S: WorldStore>(
    config: &mut Config<S>,
    frame: Frame,
    at: u32,
    value: Value,
) -> Result<(), OutOfMemory>
    requires runs { Runs S.meaning config.old frame }
    requires value { HasValue config.old value }
    ensures { GoesOn S.meaning frame config.old config.new result (λ t env.
        after.object_item (pairs_of (node_in t (node_now S.meaning config.old frame))) at (holding_in t frame.held) env (value_in t value)) }
{
    let object = held_value(config, &frame);
    match object {
        Value::Object(object) => object_value(config, frame, object, at, value),
        _ => finish(config, frame, Completion::Normal),
    }
}

/// The property of a number gets the value.
fn object_value<S: WorldStore>(
    config: &mut Config<S>,
    frame: Frame,
    object: ObjId,
    at: u32,
    value: Value,
) -> Result<(), OutOfMemory>
    requires runs { Runs S.meaning config.old frame }
    requires object { HasObject config.old object }
    requires held { value_held frame.held ≡ Value.Object object }
    requires value { HasValue config.old value }
    ensures { GoesOn S.meaning frame config.old config.new result (λ t env.
        after.object_item (pairs_of (node_in t (node_now S.meaning config.old frame))) at (holding_in t frame.held) env (value_in t value)) }
{
    match property(config, &frame, at as usize) {
        Some(property) => object_write(config, frame, object, at, property.key, value),
        None => finish(config, frame, Completion::Normal),
    }
}

/// The value is written under its key, and the next ones come.
fn object_write<S: WorldStore>(
    config: &mut Config<S>,
    frame: Frame,
    object: ObjId,
    at: u32,
    key: PropertyKey,
    value: Value,
) -> Result<(), OutOfMemory>
    requires runs { Runs S.meaning config.old frame }
    requires object { HasObject config.old object }
    requires held { value_held frame.held ≡ Value.Object object }
    requires key { KnowsKey config.old.heap.texts key }
    requires value { HasValue config.old value }
    ensures { GoesOn S.meaning frame config.old config.new result (λ t env.
        Do (Write env.world (slot object (line.key_name (key_in t key))) (Some (value_in t value)))
        (λ done. line.object_from (drop (at + 1) (pairs_of (node_in t (node_now S.meaning config.old frame)))) object env)) }
{
    let next = number_after(at)?;
    write_property(config, &frame, object, key, value)?;
    object_next(config, frame, object, next)
}

/// A value is written under a key of a property.
pub fn write_property<S: WorldStore>(
    config: &mut Config<S>,
    frame: &Frame,
    object: ObjId,
    key: PropertyKey,
    value: Value,
) -> Result<(), OutOfMemory>
    requires base { Base S.meaning config.old }
    requires there { IsThere S.meaning config.old frame.now }
    requires object { HasObject config.old object }
    requires key { KnowsKey config.old.heap.texts key }
    requires value { HasValue config.old value }
    ensures does { IfOk result (λ _. Does S.meaning
        (λ t go. Do (Write frame.now.world (slot object (line.key_name (key_in t key))) (Some (value_in t value))) go)
        (λ t. nothing) config.old config.new) }
    ensures later { OnOk result (Later S.meaning config.old config.new) }
{
    let name = name_of_key(config, key)?;
    write(config, frame, object, name, value)?;
    Ok(())
}

/// The values from a number on: those that are had at once are written, and then the next is entered.
fn object_next<S: WorldStore>(
    config: &mut Config<S>,
    frame: Frame,
    object: ObjId,
    at: u32,
) -> Result<(), OutOfMemory>
    requires runs { Runs S.meaning config.old frame }
    requires object { HasObject config.old object }
    requires held { value_held frame.held ≡ Value.Object object }
    ensures { GoesOn S.meaning frame config.old config.new result (λ t env.
        line.object_from (drop at (pairs_of (node_in t (node_now S.meaning config.old frame)))) object env) }
{
    let reached = properties_at_once(config, &frame, object, at)?;
    enter_property(config, frame, object, reached)
}

/// The value of a number is entered; after the last the object is given.
fn enter_property<S: WorldStore>(
    config: &mut Config<S>,
    frame: Frame,
    object: ObjId,
    at: u32,
) -> Result<(), OutOfMemory>
    requires runs { Runs S.meaning config.old frame }
    requires object { HasObject config.old object }
    requires held { value_held frame.held ≡ Value.Object object }
    ensures { GoesOn S.meaning frame config.old config.new result (λ t env.
        line.object_from (drop at (pairs_of (node_in t (node_now S.meaning config.old frame)))) object env) }
{
    match property(config, &frame, at as usize) {
        Some(property) => {
            let point = Point::Expr(ExprPoint::PairValue(at));
            enter(config, frame, point, Part::Expr(property.value))
        }
        None => finish(config, frame, Completion::Gives(Value::Object(object))),
    }
}

/// The values from a number on that are had at once, one after another: they are written then. Gives the number of the first that is
/// not. The rest may go on from wherever this stops, so the bound is none that counts.
fn properties_at_once<S: WorldStore>(
    config: &mut Config<S>,
    frame: &Frame,
    object: ObjId,
    from: u32,
) -> Result<u32, OutOfMemory>
    requires base { Base S.meaning config.old }
    requires there { IsThere S.meaning config.old frame.now }
    requires object { HasObject config.old object }
    ensures proceeds { IfOk result (λ at. Proceeds S.meaning (properties_left S.meaning config.old frame.now object from)
        (properties_left S.meaning config.new frame.now object at) config.old config.new) }
    ensures later { OnOk result (Later S.meaning config.old config.new) }
{
    let mut at = from;
    for _turn in 0..u64::MAX {
        let next = property_at_once(config, frame, object, at)?;
        match next {
            Some(number) => at = number,
            None => return Ok(at),
        }
    }
    Ok(at)
}

/// The number after that of a property, where its value is had at once: it is written then. After None nothing has changed.
#[inline(always)]
fn property_at_once<S: WorldStore>(
    config: &mut Config<S>,
    frame: &Frame,
    object: ObjId,
    at: u32,
) -> Result<Option<u32>, OutOfMemory>
    requires base { Base S.meaning config.old }
    requires there { IsThere S.meaning config.old frame.now }
    requires object { HasObject config.old object }
    ensures proceeds { IfOk result (λ next. Proceeds S.meaning (properties_left S.meaning config.old frame.now object at)
        (properties_left S.meaning config.new frame.now object (unwrap_or next at)) config.old config.new) }
    ensures later { OnOk result (Later S.meaning config.old config.new) }
{
    match property(config, frame, at as usize) {
        Some(property) => give_at_once(config, frame, object, at, property),
        None => Ok(None),
    }
}

/// The same of a property that was found.
#[inline(always)]
fn give_at_once<S: WorldStore>(
    config: &mut Config<S>,
    frame: &Frame,
    object: ObjId,
    at: u32,
    property: Property,
) -> Result<Option<u32>, OutOfMemory>
    requires base { Base S.meaning config.old }
    requires there { IsThere S.meaning config.old frame.now }
    requires object { HasObject config.old object }
    requires property { slice_get (properties_in (node_now S.meaning config.old frame.now)) at ≡ Some property }
    ensures proceeds { IfOk result (λ next. Proceeds S.meaning (properties_left S.meaning config.old frame.now object at)
        (properties_left S.meaning config.new frame.now object (unwrap_or next at)) config.old config.new) }
    ensures later { OnOk result (Later S.meaning config.old config.new) }
{
    let next = number_after(at)?;
    match quick(config, frame, Part::Expr(property.value)) {
        Some(value) => {
            write_property(config, frame, object, property.key, value)?;
            Ok(Some(next))
        }
        None => Ok(None),
    }
}

/// The property of a number of the frame's node.
fn property<S: WorldStore>(config: &Config<S>, frame: &Frame, at: usize) -> Option<Property>
    ensures { result ≡ slice_get (properties_in (node_now S.meaning config.now frame.now)) at }
{
    match node_of(config, frame) {
        Some(Node::ObjectLit(properties, _)) => property_at(properties.as_slice(), at),
        _ => None,
    }
}

fn property_at(properties: &[Property], at: usize) -> Option<Property>
    ensures { result ≡ slice_get properties.now at }
{
    match properties.get(at) {
        Some(property) => Some(*property),
        None => None,
    }
}
