//! Calls (ECMA-262, 3rd edition, sections 10.2.3, 11.2.3 and 13.2.1).
ghost use Rattle.wjs_by_content.specs.Tables.{value_in};
ghost use Rattle.wjs_meaning.specs.Calls as line;
ghost use Rattle.wjs_meaning.specs.Deeds.{Sub};
ghost use Rattle.wjs_meaning.specs.Expressions as expressions;
ghost use Rattle.wjs_model.specs.Contents.{holding_in};
ghost use Rattle.wjs_calls.specs.Callees.{script_call, native_call};
ghost use Rattle.wjs_model.specs.Soundness.{HasObject, HasValue, HasItems, HasPoint};
ghost use Rattle.wjs_frames.specs.Parts.{then_at};
ghost use Rattle.wjs_frames.specs.Handling.{Runs, GoesOn, Begins};

use crate::enters::{enter_body, enter_native};
use wjs_arena::{Code, Native};
use wjs_base::{ObjId, OutOfMemory, Value};
use wjs_frames::{finish, wait};
use wjs_heap_steps::{code_of, function_of};
use wjs_model::{Completion, Config, Frame, Items, Point, Start, Trouble};
use wjs_step_common::{held_callee, this_or_global, throw, to_object};
use wjs_store::WorldStore;

/// Calls a function, with the values that the frame holds as its arguments: it is entered in the frame's place.
#[inline(always)]
pub fn call<S: WorldStore>(
    config: &mut Config<S>,
    frame: Frame,
    function: ObjId,
    this: Value,
) -> Result<(), OutOfMemory>
    requires runs { Runs S.meaning config.old frame }
    requires function { HasObject config.old function }
    requires this { HasValue config.old this }
    ensures { GoesOn S.meaning frame config.old config.new result (λ t env. line.call function (value_in t this) (holding_in t frame.held).values env) }
{
    match code_of(config, function) {
        Code::None => throw(config, frame, Trouble::NotAFunction),
        Code::Script { .. } => call_script(config, frame, function, this),
        Code::Native(native) => call_native(config, frame, native, this),
    }
}

/// Calls a function that a script made, where `this` becomes an object.
#[inline(always)]
fn call_script<S: WorldStore>(
    config: &mut Config<S>,
    frame: Frame,
    function: ObjId,
    this: Value,
) -> Result<(), OutOfMemory>
    requires runs { Runs S.meaning config.old frame }
    requires function { HasObject config.old function }
    requires this { HasValue config.old this }
    ensures { GoesOn S.meaning frame config.old config.new result (λ t env. script_call function (value_in t this) (holding_in t frame.held).values env) }
{
    let this = this_or_global(config, &frame, this);
    let answer = to_object(config, &frame, this)?;
    match answer {
        Ok(object) => enter_body(config, frame, function, Value::Object(object)),
        Err(error) => finish(config, frame, Completion::Throws(error)),
    }
}

/// Calls a native function, where a primitive `this` stays itself.
fn call_native<S: WorldStore>(
    config: &mut Config<S>,
    frame: Frame,
    native: Native,
    this: Value,
) -> Result<(), OutOfMemory>
    requires runs { Runs S.meaning config.old frame }
    requires this { HasValue config.old this }
    ensures { GoesOn S.meaning frame config.old config.new result (λ t env. native_call native (value_in t this) (holding_in t frame.held).values env) }
{
    let this = this_or_global(config, &frame, this);
    enter_native(config, frame, native, this)
}

/// Calls what the frame holds as its callee, where that is an object; another value ends normally.
pub fn call_held<S: WorldStore>(config: &mut Config<S>, frame: Frame) -> Result<(), OutOfMemory>
    requires runs { Runs S.meaning config.old frame }
    ensures { Begins S.meaning frame Start.Call config.old config.new result }
{
    let (callee, this) = held_callee(config, &frame);
    match callee {
        Value::Object(function) => call(config, frame, function, this),
        _ => finish(config, frame, Completion::Normal),
    }
}

/// Calls a value that must be a function (section 11.2.3).
#[inline(always)]
pub fn call_value<S: WorldStore>(
    config: &mut Config<S>,
    frame: Frame,
    callee: Value,
    this: Value,
) -> Result<(), OutOfMemory>
    requires runs { Runs S.meaning config.old frame }
    requires callee { HasValue config.old callee }
    requires this { HasValue config.old this }
    ensures { GoesOn S.meaning frame config.old config.new result (λ t env.
        expressions.call_values (value_in t callee) (value_in t this) env (holding_in t frame.held).values) }
{
    match function_of(config, callee) {
        Some(function) => call(config, frame, function, this),
        None => throw(config, frame, Trouble::NotAFunction),
    }
}

/// Calls a function while the frame waits. The call's arguments are the values among the items.
pub fn call_below<S: WorldStore>(
    config: &mut Config<S>,
    frame: Frame,
    point: Point,
    function: ObjId,
    this: Value,
    items: Items,
) -> Result<(), OutOfMemory>
    requires runs { Runs S.meaning config.old frame }
    requires point { HasPoint config.old frame point }
    requires function { HasObject config.old function }
    requires this { HasValue config.old this }
    requires items { HasItems config.old items }
    ensures { GoesOn S.meaning frame config.old config.new result (λ t env.
        Sub (line.call function (value_in t this) (holding_in t items).values env) (then_at S.meaning config.old frame point t env)) }
{
    let above = frame.like(config.heap.arena.allocator(), items)?;
    wait(config, frame, point)?;
    call(config, above, function, this)
}
