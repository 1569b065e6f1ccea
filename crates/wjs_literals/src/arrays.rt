//! Literals of arrays (ECMA-262, 3rd edition, section 11.1.4): the items from left to right, and then the length.
ghost use Rattle.std.specs.Prelude.{◌≡◌, ◌+◌, ◌==◌, [], ◌∷◌, drop, length, slice_get, unwrap_or, Some, IfOk, OnOk};
ghost use Rattle.wjs_by_content.specs.Names.{slot, index_name, length_name};
ghost use Rattle.wjs_by_content.specs.Tables.{value_in};
ghost use Rattle.wjs_by_content.specs.Values.{whole};
ghost use Rattle.wjs_meaning.specs.Deeds.{Do, Create, Write, write_all};
ghost use Rattle.wjs_meaning.specs.Expressions as line;
ghost use Rattle.wjs_meaning.specs.NewObjects.{array_object};
ghost use Rattle.wjs_meaning.specs.Reading.{node_in};
ghost use Rattle.wjs_model.specs.Contents.{holding_in, value_held};
ghost use Rattle.wjs_model.specs.Lists.{items_of};
ghost use Rattle.wjs_model.specs.Soundness.{Base, IsThere, HasObject, HasValue};
ghost use Rattle.wjs_model.specs.Waiting as after;
ghost use Rattle.wjs_frames.specs.Doing.{DoesFirst};
ghost use Rattle.wjs_frames.specs.Following.{Later};
ghost use Rattle.wjs_frames.specs.Parts.{node_now};
ghost use Rattle.wjs_literals.specs.Parts.{items_in, items_left, Skips};
ghost use Rattle.wjs_frames.specs.Handling.{Runs, GoesOn};
ghost use Rattle.wjs_effects.specs.Proceeding.{Proceeds};

use wjs_base::{Name, ObjId, OutOfMemory, Value};
use wjs_calls::whole_value;
use wjs_frames::{Part, enter, finish, hold, node_of};
use wjs_heap_steps::{Known, create_array, known_name, write, write_known, write_rows};
use wjs_model::{Completion, Config, ExprPoint, Frame, Held, Point};
use wjs_quick::quick;
use wjs_step_common::{held_value, number_after, number_of};
use wjs_store::WorldStore;
use wjs_tree::{Node, NodeId};

/// What comes next of the items from a number on.
#[derive(Clone, Copy)]
pub enum Next {
    /// The first that is there, with its number.
    Item(usize, NodeId),
    /// The same, and it is the last of all.
    Last(usize, NodeId),
    /// None is there; the length is this.
    End(usize),
}

/// An array literal: the array is made and held, and the items come next.
pub fn array_start<S: WorldStore>(config: &mut Config<S>, frame: Frame) -> Result<(), OutOfMemory>
    requires runs { Runs S.meaning config.old frame }
    ensures { GoesOn S.meaning frame config.old config.new result (λ t env.
        Do (Create env.owner array_object) (λ o. line.array_from (items_of (node_in t (node_now S.meaning config.old frame))) 0 o env)) }
{
    let array = create_array(config)?;
    let mut frame = frame;
    hold(&mut frame, Held::Value(Value::Object(array)))?;
    array_next(config, frame, array, 0)
}

/// After the item of a number: it is written to the array that is held.
pub fn array_item<S: WorldStore>(
    config: &mut Config<S>,
    frame: Frame,
    at: u32,
    value: Value,
) -> Result<(), OutOfMemory>
    requires runs { Runs S.meaning config.old frame }
    requires value { HasValue config.old value }
    ensures { GoesOn S.meaning frame config.old config.new result (λ t env.
        after.array_item (items_of (node_in t (node_now S.meaning config.old frame))) at (holding_in t frame.held) env (value_in t value)) }
{
    let array = held_value(config, &frame);
    match array {
        Value::Object(array) => array_write(config, frame, array, at, value),
        _ => finish(config, frame, Completion::Normal),
    }
}

/// The item of a number is written, and the next ones come.
fn array_write<S: WorldStore>(
    config: &mut Config<S>,
    frame: Frame,
    array: ObjId,
    at: u32,
    value: Value,
) -> Result<(), OutOfMemory>
    requires runs { Runs S.meaning config.old frame }
    requires array { HasObject config.old array }
    requires held { value_held frame.held ≡ Value.Object array }
    requires value { HasValue config.old value }
    ensures { GoesOn S.meaning frame config.old config.new result (λ t env.
        after.array_item (items_of (node_in t (node_now S.meaning config.old frame))) at (holding_in t frame.held) env (value_in t value)) }
{
    if is_last(config, &frame, at) {
        return array_last(config, frame, array, at, value);
    }
    let next = number_after(at)?;
    write(config, &frame, array, Name::Index(at), value)?;
    array_next(config, frame, array, next)
}

/// The items from a number on: those that have their values at once are written, and then the next is entered.
fn array_next<S: WorldStore>(
    config: &mut Config<S>,
    frame: Frame,
    array: ObjId,
    from: u32,
) -> Result<(), OutOfMemory>
    requires runs { Runs S.meaning config.old frame }
    requires array { HasObject config.old array }
    requires held { value_held frame.held ≡ Value.Object array }
    ensures { GoesOn S.meaning frame config.old config.new result (λ t env.
        line.array_from (drop from (items_of (node_in t (node_now S.meaning config.old frame)))) from array env) }
{
    let reached = items_at_once(config, &frame, array, from)?;
    enter_item(config, frame, array, reached)
}

/// The first item from a number on that is no hole is entered; where there is none, the length is written.
fn enter_item<S: WorldStore>(
    config: &mut Config<S>,
    frame: Frame,
    array: ObjId,
    from: u32,
) -> Result<(), OutOfMemory>
    requires runs { Runs S.meaning config.old frame }
    requires array { HasObject config.old array }
    requires held { value_held frame.held ≡ Value.Object array }
    ensures { GoesOn S.meaning frame config.old config.new result (λ t env.
        line.array_from (drop from (items_of (node_in t (node_now S.meaning config.old frame)))) from array env) }
{
    match next_item(config, &frame, from) {
        Next::Item(at, node) => {
            let number = number_of(at)?;
            let point = Point::Expr(ExprPoint::ArrayItem(number));
            enter(config, frame, point, Part::Expr(node))
        }
        Next::Last(at, node) => last_item(config, frame, array, at, node),
        Next::End(length) => array_end(config, frame, array, length),
    }
}

/// The last item is entered, or written with the length where its value is had at once.
fn last_item<S: WorldStore>(
    config: &mut Config<S>,
    frame: Frame,
    array: ObjId,
    at: usize,
    node: NodeId,
) -> Result<(), OutOfMemory>
    requires runs { Runs S.meaning config.old frame }
    requires array { HasObject config.old array }
    requires held { value_held frame.held ≡ Value.Object array }
    requires item { slice_get (items_in (node_now S.meaning config.old frame)) at ≡ Some (Some node) }
    requires last { length (items_in (node_now S.meaning config.old frame)) ≡ at + 1 }
    ensures { GoesOn S.meaning frame config.old config.new result (λ t env.
        line.array_from (drop at (items_of (node_in t (node_now S.meaning config.old frame)))) at array env) }
{
    let number = number_of(at)?;
    match quick(config, &frame, Part::Expr(node)) {
        Some(value) => array_last(config, frame, array, number, value),
        None => {
            let point = Point::Expr(ExprPoint::ArrayItem(number));
            enter(config, frame, point, Part::Expr(node))
        }
    }
}

/// The last item is written and the length, and the array given.
fn array_last<S: WorldStore>(
    config: &mut Config<S>,
    frame: Frame,
    array: ObjId,
    at: u32,
    value: Value,
) -> Result<(), OutOfMemory>
    requires runs { Runs S.meaning config.old frame }
    requires array { HasObject config.old array }
    requires value { HasValue config.old value }
    ensures { GoesOn S.meaning frame config.old config.new result (λ t env.
        Do (Write env.world (slot array (index_name at)) (Some (value_in t value))) (λ done. line.array_from [] (at + 1) array env)) }
{
    write_last(config, &frame, array, at, value)?;
    finish(config, frame, Completion::Gives(Value::Object(array)))
}

/// The last item of an array is written and the length, by one call.
pub fn write_last<S: WorldStore>(
    config: &mut Config<S>,
    frame: &Frame,
    array: ObjId,
    at: u32,
    value: Value,
) -> Result<(), OutOfMemory>
    requires base { Base S.meaning config.old }
    requires there { IsThere S.meaning config.old frame.now }
    requires array { HasObject config.old array }
    requires value { HasValue config.old value }
    ensures does { OnOk result (DoesFirst S.meaning
        (λ t. write_all frame.now.world ((slot array (index_name at), value_in t value) ∷ (slot array length_name, whole (at + 1)) ∷ []))
        config.old config.new) }
    ensures later { OnOk result (Later S.meaning config.old config.new) }
{
    let next = number_after(at)?;
    let length = whole_value(next as usize)?;
    let name = known_name(config, Known::Length)?;
    let rows = [(Name::Index(at), value), (name, length)];
    write_rows(config, frame, array, &rows)?;
    Ok(())
}

/// The items from a number on that have their values at once, one after another, but for the last: they are written then. Gives the
/// number from which on they are still to come. The rest may go on from wherever this stops, so the bound is none that counts.
fn items_at_once<S: WorldStore>(
    config: &mut Config<S>,
    frame: &Frame,
    array: ObjId,
    from: u32,
) -> Result<u32, OutOfMemory>
    requires base { Base S.meaning config.old }
    requires there { IsThere S.meaning config.old frame.now }
    requires array { HasObject config.old array }
    ensures proceeds { IfOk result (λ at. Proceeds S.meaning (items_left S.meaning config.old frame.now array from)
        (items_left S.meaning config.new frame.now array at) config.old config.new) }
    ensures later { OnOk result (Later S.meaning config.old config.new) }
{
    let mut at = from;
    for _turn in 0..u64::MAX {
        let next = item_at_once(config, frame, array, at)?;
        match next {
            Some(number) => at = number,
            None => return Ok(at),
        }
    }
    Ok(at)
}

/// The number after that of the first item from a number on that is no hole, where it is not the last and its value is had at once:
/// it is written then. After None nothing has changed.
#[inline(always)]
fn item_at_once<S: WorldStore>(
    config: &mut Config<S>,
    frame: &Frame,
    array: ObjId,
    from: u32,
) -> Result<Option<u32>, OutOfMemory>
    requires base { Base S.meaning config.old }
    requires there { IsThere S.meaning config.old frame.now }
    requires array { HasObject config.old array }
    ensures proceeds { IfOk result (λ next. Proceeds S.meaning (items_left S.meaning config.old frame.now array from)
        (items_left S.meaning config.new frame.now array (unwrap_or next from)) config.old config.new) }
    ensures later { OnOk result (Later S.meaning config.old config.new) }
{
    match next_item(config, frame, from) {
        Next::Item(at, node) => write_at_once(config, frame, array, from, at, node),
        Next::Last(_, _) | Next::End(_) => Ok(None),
    }
}

/// The same of an item that was found.
#[inline(always)]
fn write_at_once<S: WorldStore>(
    config: &mut Config<S>,
    frame: &Frame,
    array: ObjId,
    from: u32,
    at: usize,
    node: NodeId,
) -> Result<Option<u32>, OutOfMemory>
    requires base { Base S.meaning config.old }
    requires there { IsThere S.meaning config.old frame.now }
    requires array { HasObject config.old array }
    requires item { Skips (items_in (node_now S.meaning config.old frame.now)) from (Next.Item at node) }
    ensures proceeds { IfOk result (λ next. Proceeds S.meaning (items_left S.meaning config.old frame.now array from)
        (items_left S.meaning config.new frame.now array (unwrap_or next from)) config.old config.new) }
    ensures later { OnOk result (Later S.meaning config.old config.new) }
{
    let number = number_of(at)?;
    let next = number_after(number)?;
    match quick(config, frame, Part::Expr(node)) {
        Some(value) => {
            write(config, frame, array, Name::Index(number), value)?;
            Ok(Some(next))
        }
        None => Ok(None),
    }
}

/// The length is written, and the array given.
fn array_end<S: WorldStore>(
    config: &mut Config<S>,
    frame: Frame,
    array: ObjId,
    length: usize,
) -> Result<(), OutOfMemory>
    requires runs { Runs S.meaning config.old frame }
    requires array { HasObject config.old array }
    ensures { GoesOn S.meaning frame config.old config.new result (λ t env. line.array_from [] length array env) }
{
    write_length(config, &frame, array, length)?;
    finish(config, frame, Completion::Gives(Value::Object(array)))
}

/// The length of an array is written.
pub fn write_length<S: WorldStore>(
    config: &mut Config<S>,
    frame: &Frame,
    array: ObjId,
    length: usize,
) -> Result<(), OutOfMemory>
    requires base { Base S.meaning config.old }
    requires there { IsThere S.meaning config.old frame.now }
    requires array { HasObject config.old array }
    ensures does { OnOk result (DoesFirst S.meaning (λ t. write_all frame.now.world ((slot array length_name, whole length) ∷ []))
        config.old config.new) }
    ensures later { OnOk result (Later S.meaning config.old config.new) }
{
    let value = whole_value(length)?;
    write_known(config, frame, array, Known::Length, value)?;
    Ok(())
}

/// What comes next of the items of the frame's node, from a number on.
fn next_item<S: WorldStore>(config: &Config<S>, frame: &Frame, from: u32) -> Next
    ensures { Skips (items_in (node_now S.meaning config.now frame.now)) from result }
{
    match node_of(config, frame) {
        Some(Node::ArrayLit(items, _)) => next_among(items.as_slice(), from as usize),
        _ => Next::End(from as usize),
    }
}

/// What comes next of items, from a number on.
pub fn next_among(items: &[Option<NodeId>], from: usize) -> Next
    ensures { Skips items.now from result }
{
    let mut at = from;
    'holes: while let Some(item) = item_at(items, at) {
        if let Some(node) = item {
            return found_among(items, at, node);
        }
        at += 1;
    }
    Next::End(at)
}

/// An item that is there.
fn found_among(items: &[Option<NodeId>], at: usize, node: NodeId) -> Next
    requires { slice_get items.now at ≡ Some (Some node) }
    ensures { Skips items.now at result }
{
    if at == items.len() - 1 {
        return Next::Last(at, node);
    }
    Next::Item(at, node)
}

/// Whether an item is the last of all of the frame's node.
fn is_last<S: WorldStore>(config: &Config<S>, frame: &Frame, at: u32) -> bool
    ensures { result ≡ (length (items_in (node_now S.meaning config.now frame.now)) == at + 1) }
{
    match node_of(config, frame) {
        Some(Node::ArrayLit(items, _)) => items.as_slice().len() == at as usize + 1,
        _ => false,
    }
}

fn item_at(items: &[Option<NodeId>], at: usize) -> Option<Option<NodeId>>
    ensures { result ≡ slice_get items.now at }
{
    match items.get(at) {
        Some(item) => Some(*item),
        None => None,
    }
}
