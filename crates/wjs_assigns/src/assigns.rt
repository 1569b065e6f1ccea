//! Assignments (ECMA-262, 3rd edition, section 11.13).
ghost use Rattle.std.specs.Prelude.{Some};
ghost use Rattle.wjs_tree.specs.Operators.{compound};
ghost use Rattle.wjs_by_content.specs.Tables.{value_in};
ghost use Rattle.wjs_meaning.specs.Deeds.{Eval, AtTarget, AtExpr, then_value, then_reference};
ghost use Rattle.wjs_meaning.specs.Expressions as line;
ghost use Rattle.wjs_model.specs.Contents.{reference_in, value_held, reference_held};
ghost use Rattle.wjs_model.specs.Soundness.{HasValue, HasReference, StandsHere};
ghost use Rattle.wjs_frames.specs.Handling.{Runs, IsAt, GoesOn};

use wjs_base::{OutOfMemory, Value};
use wjs_effects::reference_at_once;
use wjs_frames::{Part, enter, finish, hold, nest};
use wjs_heap_steps::value_of;
use wjs_model::{Completion, Config, ExprPoint, Frame, Held, Point, Reference, Start};
use wjs_quick::{calculated, quick};
use wjs_step_common::{held_reference, held_value, store_and_give};
use wjs_store::WorldStore;
use wjs_tree::{AssignOperator, BinaryOperator, Node, NodeId};

/// An assignment goes on with the reference of its target where that is had at once, and else that is entered.
pub fn assign_start<S: WorldStore>(
    config: &mut Config<S>,
    frame: Frame,
    target: NodeId,
    sign: AssignOperator,
    right: NodeId,
) -> Result<(), OutOfMemory>
    requires runs { Runs S.meaning config.old frame }
    requires node { IsAt S.meaning config.old frame (Node.Assign target sign right) }
    ensures { GoesOn S.meaning frame config.old config.new result (λ t env.
        Eval (AtTarget target.0) env (then_reference (line.assign_reference (compound sign) right.0 env))) }
{
    match reference_at_once(config, &frame, target) {
        Some(reference) => assign_reference(config, frame, sign, right, reference),
        None => {
            let point = Point::Expr(ExprPoint::AssignTarget(sign, right));
            enter(config, frame, point, Part::Target(target))
        }
    }
}

/// After the target: an operator with `=` first takes the target's value.
#[inline(always)]
pub fn assign_reference<S: WorldStore>(
    config: &mut Config<S>,
    frame: Frame,
    sign: AssignOperator,
    right: NodeId,
    reference: Reference,
) -> Result<(), OutOfMemory>
    requires runs { Runs S.meaning config.old frame }
    requires right { StandsHere config.old frame right }
    requires reference { HasReference config.old reference }
    ensures { GoesOn S.meaning frame config.old config.new result (λ t env. line.assign_reference (compound sign) right.0 env (reference_in t reference)) }
{
    match sign.compound() {
        None => assign_plain(config, frame, right, reference),
        Some(operator) => assign_compound(config, frame, operator, right, reference),
    }
}

/// `=`: the right side has its value at once, or is entered.
#[inline(always)]
fn assign_plain<S: WorldStore>(
    config: &mut Config<S>,
    frame: Frame,
    right: NodeId,
    reference: Reference,
) -> Result<(), OutOfMemory>
    requires runs { Runs S.meaning config.old frame }
    requires right { StandsHere config.old frame right }
    requires reference { HasReference config.old reference }
    ensures { GoesOn S.meaning frame config.old config.new result (λ t env.
        Eval (AtExpr right.0) env (then_value (line.assign_value (reference_in t reference) env))) }
{
    match quick(config, &frame, Part::Expr(right)) {
        Some(value) => store_and_give(config, frame, reference, value, value),
        None => enter_assigned(config, frame, right, reference),
    }
}

/// The reference is held, and the right side is entered.
fn enter_assigned<S: WorldStore>(
    config: &mut Config<S>,
    frame: Frame,
    right: NodeId,
    reference: Reference,
) -> Result<(), OutOfMemory>
    requires runs { Runs S.meaning config.old frame }
    requires right { StandsHere config.old frame right }
    requires reference { HasReference config.old reference }
    ensures { GoesOn S.meaning frame config.old config.new result (λ t env.
        Eval (AtExpr right.0) env (then_value (line.assign_value (reference_in t reference) env))) }
{
    let mut frame = frame;
    hold(&mut frame, Held::Reference(reference))?;
    let point = Point::Expr(ExprPoint::AssignValue);
    enter(config, frame, point, Part::Expr(right))
}

/// An operator with `=`: the target's value comes first.
#[inline(always)]
fn assign_compound<S: WorldStore>(
    config: &mut Config<S>,
    frame: Frame,
    operator: BinaryOperator,
    right: NodeId,
    reference: Reference,
) -> Result<(), OutOfMemory>
    requires runs { Runs S.meaning config.old frame }
    requires right { StandsHere config.old frame right }
    requires reference { HasReference config.old reference }
    ensures { GoesOn S.meaning frame config.old config.new result (λ t env. line.assign_reference (Some operator) right.0 env (reference_in t reference)) }
{
    let answer = value_of(config, &frame, reference)?;
    match answer {
        Ok(old) => compound_old(config, frame, operator, right, reference, old),
        Err(error) => finish(config, frame, Completion::Throws(error)),
    }
}

/// The right side of an operator with `=` has its value at once, or is entered with the reference and its value held.
#[inline(always)]
fn compound_old<S: WorldStore>(
    config: &mut Config<S>,
    frame: Frame,
    operator: BinaryOperator,
    right: NodeId,
    reference: Reference,
    old: Value,
) -> Result<(), OutOfMemory>
    requires runs { Runs S.meaning config.old frame }
    requires right { StandsHere config.old frame right }
    requires reference { HasReference config.old reference }
    requires old { HasValue config.old old }
    ensures { GoesOn S.meaning frame config.old config.new result (λ t env.
        line.compound_old operator right.0 (reference_in t reference) env (value_in t old)) }
{
    match quick(config, &frame, Part::Expr(right)) {
        Some(value) => compound_both(config, frame, operator, reference, old, value),
        None => enter_right(config, frame, operator, right, reference, old),
    }
}

/// The reference and its value are held, and the right side is entered.
fn enter_right<S: WorldStore>(
    config: &mut Config<S>,
    frame: Frame,
    operator: BinaryOperator,
    right: NodeId,
    reference: Reference,
    old: Value,
) -> Result<(), OutOfMemory>
    requires runs { Runs S.meaning config.old frame }
    requires right { StandsHere config.old frame right }
    requires reference { HasReference config.old reference }
    requires old { HasValue config.old old }
    ensures { GoesOn S.meaning frame config.old config.new result (λ t env.
        line.compound_old operator right.0 (reference_in t reference) env (value_in t old)) }
{
    let mut frame = frame;
    hold(&mut frame, Held::Reference(reference))?;
    hold(&mut frame, Held::Value(old))?;
    let point = Point::Expr(ExprPoint::CompoundValue(operator));
    enter(config, frame, point, Part::Expr(right))
}

/// After the value that is stored.
#[inline(always)]
pub fn assign_value<S: WorldStore>(
    config: &mut Config<S>,
    frame: Frame,
    value: Value,
) -> Result<(), OutOfMemory>
    requires runs { Runs S.meaning config.old frame }
    requires value { HasValue config.old value }
    ensures { GoesOn S.meaning frame config.old config.new result (λ t env.
        line.assign_value (reference_in t (reference_held frame.held)) env (value_in t value)) }
{
    let reference = held_reference(config, &frame);
    store_and_give(config, frame, reference, value, value)
}

/// After the right value of an operator with `=`: the reference and its value are held.
#[inline(always)]
pub fn compound_value<S: WorldStore>(
    config: &mut Config<S>,
    frame: Frame,
    operator: BinaryOperator,
    value: Value,
) -> Result<(), OutOfMemory>
    requires runs { Runs S.meaning config.old frame }
    requires value { HasValue config.old value }
    ensures { GoesOn S.meaning frame config.old config.new result (λ t env.
        line.compound_value operator (value_in t (value_held frame.held)) (reference_in t (reference_held frame.held)) env (value_in t value)) }
{
    let old = held_value(config, &frame);
    let reference = held_reference(config, &frame);
    compound_both(config, frame, operator, reference, old, value)
}

/// The operation of an operator with `=`, and the store of its result: two numbers need no frame.
#[inline(always)]
fn compound_both<S: WorldStore>(
    config: &mut Config<S>,
    frame: Frame,
    operator: BinaryOperator,
    reference: Reference,
    old: Value,
    value: Value,
) -> Result<(), OutOfMemory>
    requires runs { Runs S.meaning config.old frame }
    requires reference { HasReference config.old reference }
    requires old { HasValue config.old old }
    requires value { HasValue config.old value }
    ensures { GoesOn S.meaning frame config.old config.new result (λ t env.
        line.compound_value operator (value_in t old) (reference_in t reference) env (value_in t value)) }
{
    match calculated(operator, old, value) {
        Some(number) => {
            let stored = Value::Number(number);
            store_and_give(config, frame, reference, stored, stored)
        }
        None => compound_held(config, frame, operator, reference, old, value),
    }
}

/// The reference is held, for the store after the operation.
fn compound_held<S: WorldStore>(
    config: &mut Config<S>,
    frame: Frame,
    operator: BinaryOperator,
    reference: Reference,
    old: Value,
    value: Value,
) -> Result<(), OutOfMemory>
    requires runs { Runs S.meaning config.old frame }
    requires reference { HasReference config.old reference }
    requires old { HasValue config.old old }
    requires value { HasValue config.old value }
    ensures { GoesOn S.meaning frame config.old config.new result (λ t env.
        line.compound_value operator (value_in t old) (reference_in t reference) env (value_in t value)) }
{
    let mut frame = frame;
    hold(&mut frame, Held::Reference(reference))?;
    compound_nested(config, frame, operator, old, value)
}

/// The operation is done above the frame, which waits for what is stored.
fn compound_nested<S: WorldStore>(
    config: &mut Config<S>,
    frame: Frame,
    operator: BinaryOperator,
    old: Value,
    value: Value,
) -> Result<(), OutOfMemory>
    requires runs { Runs S.meaning config.old frame }
    requires old { HasValue config.old old }
    requires value { HasValue config.old value }
    ensures { GoesOn S.meaning frame config.old config.new result (λ t env.
        line.compound_value operator (value_in t old) (reference_in t (reference_held frame.held)) env (value_in t value)) }
{
    let mut held = config.frames.nothing_held();
    held.push(Held::Value(old))?;
    held.push(Held::Value(value))?;
    let node = frame.node();
    let point = Point::Expr(ExprPoint::AssignValue);
    nest(config, frame, point, Start::Operation(operator), node, held)
}
