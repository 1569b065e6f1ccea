//! Calls (ECMA-262, 3rd edition, section 11.2.3): the callee, and then the arguments from left to right.
ghost use Rattle.std.specs.Prelude.{◌≡◌, drop};
ghost use Rattle.wjs_by_content.specs.Tables.{value_in};
ghost use Rattle.wjs_by_content.specs.Values.{Undefined};
ghost use Rattle.wjs_base.specs.Text.{Table};
ghost use Rattle.wjs_meaning.specs.Deeds.{Eval, AtExpr, AtTarget, then_reference, then_value};
ghost use Rattle.wjs_meaning.specs.Expressions as line;
ghost use Rattle.wjs_meaning.specs.Reading.{node_in};
ghost use Rattle.wjs_model.specs.Contents.{holding_in, reference_in};
ghost use Rattle.wjs_model.specs.Lists.{arguments_of};
ghost use Rattle.wjs_model.specs.Waiting as after;
ghost use Rattle.wjs_model.specs.Soundness.{HasReference, HasValue, StandsHere};
ghost use Rattle.wjs_frames.specs.Parts.{node_now};
ghost use Rattle.wjs_frames.specs.Handling.{Runs, GoesOn};

use crate::arguments::{argument, arguments_at_once};
use wjs_base::{OutOfMemory, Value};
use wjs_calls::call_value;
use wjs_effects::reference_at_once;
use wjs_frames::{Part, enter, finish, hold};
use wjs_heap_steps::value_of;
use wjs_members::is_target;
use wjs_model::{Completion, Config, ExprPoint, Frame, Held, Point, Reference};
use wjs_quick::quick;
use wjs_step_common::{held_callee, number_after};
use wjs_store::WorldStore;
use wjs_tree::NodeId;

/// A call: its callee comes first, as a target where it is one.
pub fn call_start<S: WorldStore>(
    config: &mut Config<S>,
    frame: Frame,
    callee: NodeId,
) -> Result<(), OutOfMemory>
    requires runs { Runs S.meaning config.old frame }
    requires callee { StandsHere config.old frame callee }
    ensures { GoesOn S.meaning frame config.old config.new result (λ t env.
        let args = arguments_of (node_in t (node_now S.meaning config.old frame)) in
        line.operand callee.0 env (line.call_reference args env) (line.call_callee args Undefined env)) }
{
    if is_target(config, &frame, callee) {
        target_called(config, frame, callee)
    } else {
        value_called(config, frame, callee)
    }
}

/// A callee that is a target: the call goes on with its reference where that is had at once, and else it is entered.
fn target_called<S: WorldStore>(
    config: &mut Config<S>,
    frame: Frame,
    callee: NodeId,
) -> Result<(), OutOfMemory>
    requires runs { Runs S.meaning config.old frame }
    requires callee { StandsHere config.old frame callee }
    ensures { GoesOn S.meaning frame config.old config.new result (λ t env.
        Eval (AtTarget callee.0) env (then_reference (line.call_reference (arguments_of (node_in t (node_now S.meaning config.old frame))) env))) }
{
    match reference_at_once(config, &frame, callee) {
        Some(reference) => call_reference(config, frame, reference),
        None => {
            let point = Point::Expr(ExprPoint::CalleeTarget);
            enter(config, frame, point, Part::Target(callee))
        }
    }
}

/// Another callee: the call goes on with its value where that is had at once, and else it is entered.
fn value_called<S: WorldStore>(
    config: &mut Config<S>,
    frame: Frame,
    callee: NodeId,
) -> Result<(), OutOfMemory>
    requires runs { Runs S.meaning config.old frame }
    requires callee { StandsHere config.old frame callee }
    ensures { GoesOn S.meaning frame config.old config.new result (λ t env.
        Eval (AtExpr callee.0) env (then_value (line.call_callee (arguments_of (node_in t (node_now S.meaning config.old frame))) Undefined env))) }
{
    match quick(config, &frame, Part::Expr(callee)) {
        Some(value) => call_callee(config, frame, value, Value::Undefined),
        None => {
            let point = Point::Expr(ExprPoint::CalleeValue);
            enter(config, frame, point, Part::Expr(callee))
        }
    }
}

/// After the reference of the callee: its value is called on its base.
pub fn call_reference<S: WorldStore>(
    config: &mut Config<S>,
    frame: Frame,
    reference: Reference,
) -> Result<(), OutOfMemory>
    requires runs { Runs S.meaning config.old frame }
    requires reference { HasReference config.old reference }
    ensures { GoesOn S.meaning frame config.old config.new result (λ t env.
        line.call_reference (arguments_of (node_in t (node_now S.meaning config.old frame))) env (reference_in t reference)) }
{
    let answer = value_of(config, &frame, reference)?;
    match answer {
        Ok(callee) => {
            let this = base_of(config, reference);
            call_callee(config, frame, callee, this)
        }
        Err(error) => finish(config, frame, Completion::Throws(error)),
    }
}

/// `this` of a call is the base of a member.
fn base_of<S: WorldStore>(config: &Config<S>, reference: Reference) -> Value
    requires { HasReference config.now reference }
    ensures is { (t : Table) → value_in t result ≡ line.base_of (reference_in t reference) }
    ensures found { HasValue config.now result }
{
    let _config = config;
    match reference {
        Reference::Member(base, _) => base,
        _ => Value::Undefined,
    }
}

/// After the value of the callee: it is held alone, and the arguments come next.
pub fn call_callee<S: WorldStore>(
    config: &mut Config<S>,
    frame: Frame,
    callee: Value,
    this: Value,
) -> Result<(), OutOfMemory>
    requires runs { Runs S.meaning config.old frame }
    requires callee { HasValue config.old callee }
    requires this { HasValue config.old this }
    ensures { GoesOn S.meaning frame config.old config.new result (λ t env.
        line.call_callee (arguments_of (node_in t (node_now S.meaning config.old frame))) (value_in t this) env (value_in t callee)) }
{
    let mut frame = frame;
    frame.set_held(config.frames.nothing_held());
    hold(&mut frame, Held::Callee(callee, this))?;
    call_next(config, frame, 0)
}

/// After the argument of a number: it is held, and the next ones come.
pub fn call_argument<S: WorldStore>(
    config: &mut Config<S>,
    frame: Frame,
    at: u32,
    value: Value,
) -> Result<(), OutOfMemory>
    requires runs { Runs S.meaning config.old frame }
    requires value { HasValue config.old value }
    ensures { GoesOn S.meaning frame config.old config.new result (λ t env.
        after.call_argument (arguments_of (node_in t (node_now S.meaning config.old frame))) at (holding_in t frame.held) env (value_in t value)) }
{
    let next = number_after(at)?;
    let mut frame = frame;
    hold(&mut frame, Held::Value(value))?;
    call_next(config, frame, next)
}

/// The arguments from a number on: those that have their values at once are held, and then the next is entered.
fn call_next<S: WorldStore>(
    config: &mut Config<S>,
    frame: Frame,
    at: u32,
) -> Result<(), OutOfMemory>
    requires runs { Runs S.meaning config.old frame }
    ensures { GoesOn S.meaning frame config.old config.new result (λ t env.
        let held = holding_in t frame.held in line.values_from (drop at (arguments_of (node_in t (node_now S.meaning config.old frame)))) held.values env
        (line.call_values held.callee.0 held.callee.1 env)) }
{
    let mut frame = frame;
    let reached = arguments_at_once(config, &mut frame, at)?;
    call_from(config, frame, reached)
}

/// The argument of a number is entered; after the last one comes the call.
fn call_from<S: WorldStore>(
    config: &mut Config<S>,
    frame: Frame,
    at: u32,
) -> Result<(), OutOfMemory>
    requires runs { Runs S.meaning config.old frame }
    ensures { GoesOn S.meaning frame config.old config.new result (λ t env.
        let held = holding_in t frame.held in line.values_from (drop at (arguments_of (node_in t (node_now S.meaning config.old frame)))) held.values env
        (line.call_values held.callee.0 held.callee.1 env)) }
{
    match argument(config, &frame, at as usize) {
        Some(next) => {
            let point = Point::Expr(ExprPoint::Argument(at));
            enter(config, frame, point, Part::Expr(next))
        }
        None => call_held(config, frame),
    }
}

/// The call of what is held, with the values that are held.
fn call_held<S: WorldStore>(config: &mut Config<S>, frame: Frame) -> Result<(), OutOfMemory>
    requires runs { Runs S.meaning config.old frame }
    ensures { GoesOn S.meaning frame config.old config.new result (λ t env.
        let held = holding_in t frame.held in line.call_values held.callee.0 held.callee.1 env held.values) }
{
    let (callee, this) = held_callee(config, &frame);
    call_value(config, frame, callee, this)
}
