//! `new` (ECMA-262, 3rd edition, section 11.2.2): the callee, and then the arguments from left to right.
ghost use Rattle.std.specs.Prelude.{drop};
ghost use Rattle.wjs_by_content.specs.Tables.{value_in};
ghost use Rattle.wjs_meaning.specs.Constructions.{construct, new_result};
ghost use Rattle.wjs_meaning.specs.Deeds.{Eval, AtExpr, then_value};
ghost use Rattle.wjs_meaning.specs.Expressions as line;
ghost use Rattle.wjs_meaning.specs.Reading.{node_in};
ghost use Rattle.wjs_model.specs.Contents.{holding_in, value_held};
ghost use Rattle.wjs_model.specs.Lists.{arguments_of};
ghost use Rattle.wjs_model.specs.Waiting as after;
ghost use Rattle.wjs_model.specs.Soundness.{HasObject, HasValue, StandsHere};
ghost use Rattle.wjs_frames.specs.Parts.{node_now};
ghost use Rattle.wjs_frames.specs.Handling.{Runs, IsRunning, GoesOn};

use crate::arguments::{argument, arguments_at_once};
use wjs_base::{ObjId, OutOfMemory, Value};
use wjs_frames::{Part, enter, finish, hold};
use wjs_model::{Completion, Config, ExprPoint, Frame, Held, Point};
use wjs_quick::quick;
use wjs_step_common::{held_callee, held_value, number_after};
use wjs_store::WorldStore;
use wjs_tree::NodeId;

/// `new`: it goes on with the value of its callee where that is had at once, and else that is entered.
pub fn new_start<S: WorldStore>(
    config: &mut Config<S>,
    frame: Frame,
    callee: NodeId,
) -> Result<(), OutOfMemory>
    requires runs { Runs S.meaning config.old frame }
    requires callee { StandsHere config.old frame callee }
    ensures { GoesOn S.meaning frame config.old config.new result (λ t env.
        Eval (AtExpr callee.0) env (then_value (line.new_callee (arguments_of (node_in t (node_now S.meaning config.old frame))) env))) }
{
    match quick(config, &frame, Part::Expr(callee)) {
        Some(value) => new_callee(config, frame, value),
        None => {
            let point = Point::Expr(ExprPoint::NewCallee);
            enter(config, frame, point, Part::Expr(callee))
        }
    }
}

/// After the callee of `new`: it is held alone, and the arguments come next.
pub fn new_callee<S: WorldStore>(
    config: &mut Config<S>,
    frame: Frame,
    callee: Value,
) -> Result<(), OutOfMemory>
    requires runs { Runs S.meaning config.old frame }
    requires callee { HasValue config.old callee }
    ensures { GoesOn S.meaning frame config.old config.new result (λ t env.
        line.new_callee (arguments_of (node_in t (node_now S.meaning config.old frame))) env (value_in t callee)) }
{
    let mut frame = frame;
    frame.set_held(config.frames.nothing_held());
    hold(&mut frame, Held::Callee(callee, Value::Undefined))?;
    new_next(config, frame, 0)
}

/// After the argument of a number: it is held, and the next ones come.
pub fn new_argument<S: WorldStore>(
    config: &mut Config<S>,
    frame: Frame,
    at: u32,
    value: Value,
) -> Result<(), OutOfMemory>
    requires runs { Runs S.meaning config.old frame }
    requires value { HasValue config.old value }
    ensures { GoesOn S.meaning frame config.old config.new result (λ t env.
        after.new_argument (arguments_of (node_in t (node_now S.meaning config.old frame))) at (holding_in t frame.held) env (value_in t value)) }
{
    let next = number_after(at)?;
    let mut frame = frame;
    hold(&mut frame, Held::Value(value))?;
    new_next(config, frame, next)
}

/// The arguments from a number on: those that have their values at once are held, and then the next is entered.
fn new_next<S: WorldStore>(config: &mut Config<S>, frame: Frame, at: u32) -> Result<(), OutOfMemory>
    requires runs { Runs S.meaning config.old frame }
    ensures { GoesOn S.meaning frame config.old config.new result (λ t env.
        let held = holding_in t frame.held in
        line.values_from (drop at (arguments_of (node_in t (node_now S.meaning config.old frame)))) held.values env (construct held.callee.0 env)) }
{
    let mut frame = frame;
    let reached = arguments_at_once(config, &mut frame, at)?;
    new_from(config, frame, reached)
}

/// The argument of a number is entered; after the last one comes the construction.
fn new_from<S: WorldStore>(config: &mut Config<S>, frame: Frame, at: u32) -> Result<(), OutOfMemory>
    requires runs { Runs S.meaning config.old frame }
    ensures { GoesOn S.meaning frame config.old config.new result (λ t env.
        let held = holding_in t frame.held in
        line.values_from (drop at (arguments_of (node_in t (node_now S.meaning config.old frame)))) held.values env (construct held.callee.0 env)) }
{
    match argument(config, &frame, at as usize) {
        Some(next) => {
            let point = Point::Expr(ExprPoint::NewArgument(at));
            enter(config, frame, point, Part::Expr(next))
        }
        None => new_held(config, frame),
    }
}

/// The construction by what is held, with the values that are held.
fn new_held<S: WorldStore>(config: &mut Config<S>, frame: Frame) -> Result<(), OutOfMemory>
    requires runs { Runs S.meaning config.old frame }
    ensures { GoesOn S.meaning frame config.old config.new result (λ t env. let held = holding_in t frame.held in construct held.callee.0 env held.values) }
{
    let (callee, _this) = held_callee(config, &frame);
    wjs_calls::construct(config, frame, callee)
}

/// After the call of `new`, with the new object held: a result that is an object is given in its place.
pub fn new_made<S: WorldStore>(
    config: &mut Config<S>,
    frame: Frame,
    value: Value,
) -> Result<(), OutOfMemory>
    requires runs { Runs S.meaning config.old frame }
    requires value { HasValue config.old value }
    ensures { GoesOn S.meaning frame config.old config.new result (λ t env. after.new_made (value_in t (value_held frame.held)) (value_in t value)) }
{
    match held_value(config, &frame) {
        Value::Object(object) => new_result(config, frame, object, value),
        _ => finish(config, frame, Completion::Normal),
    }
}

/// The result where it is an object, and else the new object.
fn new_result<S: WorldStore>(
    config: &mut Config<S>,
    frame: Frame,
    object: ObjId,
    value: Value,
) -> Result<(), OutOfMemory>
    requires running { IsRunning S.meaning config.old }
    requires object { HasObject config.old object }
    requires value { HasValue config.old value }
    ensures { GoesOn S.meaning frame config.old config.new result (λ t env. new_result object (value_in t value)) }
{
    match value {
        Value::Object(_) => finish(config, frame, Completion::Gives(value)),
        _ => finish(config, frame, Completion::Gives(Value::Object(object))),
    }
}
