//! Expressions that store (ECMA-262, 3rd edition, sections 11.3, 11.4.4, 11.4.5 and 11.13), and those whose value no further expression asks for.
ghost use Rattle.std.specs.Prelude.{◌≡◌, [], Some};
ghost use Rattle.wjs_by_content.specs.Tables.{value_in};
ghost use Rattle.wjs_meaning.specs.Deeds.{AtExpr, AtTarget, then_reference, then_value};
ghost use Rattle.wjs_meaning.specs.Expressions as line;
ghost use Rattle.wjs_model.specs.Contents.{completion_in, reference_in};
ghost use Rattle.wjs_model.specs.Soundness.{Base, HasCompletion, HasReference, HasValue, IsThere, StandsHere};
ghost use Rattle.wjs_model.specs.Waiting.{fix_in};
ghost use Rattle.wjs_frames.specs.Following.{Later};
ghost use Rattle.wjs_stopping.specs.Ends.{gives_in};
ghost use Rattle.wjs_stopping.specs.Evaluating.{Evaluates, HasOutcome, InMemory};
ghost use Rattle.wjs_direct_lines.specs.Deeds.{IsNode, form_here, goal_here, line_here};
ghost use Rattle.wjs_tree.specs.Operators.{compound};

use crate::expressions::value;
use crate::targets::target;
use wjs_base::Value;
use wjs_direct_lines::{compound_stored, reference_value, stored, target_updated, wait_compound};
use wjs_effects::expression_at_once;
use wjs_model::{Completion, Config, ExprPoint, Fix, Frame, Held, Point, Reference};
use wjs_stopping::{Broken, Stops, waits, waits_holding};
use wjs_store::WorldStore;
use wjs_tree::{AssignOperator, BinaryOperator, Node, NodeId, UpdateOperator};

/// How an expression ends whose value no further expression asks for, in so much room at most: at once, where it stores and all its
/// parts have their values at once; else by its form.
#[cycle(direct)]
#[inline(always)]
pub(crate) fn effect<S: WorldStore>(
    config: &mut Config<S>,
    frame: &Frame,
    node: NodeId,
    room: u16,
    stops: &mut Stops,
) -> Result<Completion, Broken>
    requires base { Base S.meaning config.old }
    requires there { IsThere S.meaning config.old frame.now }
    requires node { StandsHere config.old frame.now node }
    requires empty { stops.old.waits ≡ [] }
    ensures later { InMemory result (Later S.meaning config.old config.new) }
    ensures found { HasOutcome S.meaning HasCompletion config.new result stops.new.waits stops.new.top }
    ensures does { Evaluates S.meaning (goal_here S.meaning config.old frame.now (AtExpr node.0))
        completion_in result stops.new.waits stops.new.top config.old config.new }
{
    let done = expression_at_once(config, frame, node)?;
    if let Some(end) = done {
        return Ok(end);
    }
    match value(config, frame, node, room, stops) {
        Ok(value) => Ok(Completion::Gives(value)),
        Err(end) => Err(end),
    }
}

/// An assignment, whose step is taken: its target, and then the right side.
#[cycle(direct)]
pub(crate) fn assign<S: WorldStore>(
    config: &mut Config<S>,
    frame: &Frame,
    node: NodeId,
    t: NodeId,
    sign: AssignOperator,
    right: NodeId,
    room: u16,
    stops: &mut Stops,
) -> Result<Value, Broken>
    requires base { Base S.meaning config.old }
    requires there { IsThere S.meaning config.old frame.now }
    requires node { StandsHere config.old frame.now node }
    requires empty { stops.old.waits ≡ [] }
    requires is { IsNode S.meaning config.old frame.now node (Node.Assign t sign right) }
    ensures later { InMemory result (Later S.meaning config.old config.new) }
    ensures found { HasOutcome S.meaning HasValue config.new result stops.new.waits stops.new.top }
    ensures does { Evaluates S.meaning (form_here S.meaning config.old frame.now (AtTarget t.0)
        (λ t env. then_reference (line.assign_reference (compound sign) right.0 env)))
        gives_in result stops.new.waits stops.new.top config.old config.new }
{
    match target(config, frame, t, room, stops) {
        Ok(reference) => match sign.compound() {
            None => assigned(config, frame, node, right, reference, room, stops),
            Some(operator) => compounded(
                config, frame, node, operator, right, reference, room, stops,
            ),
        },
        Err(end) => {
            let point = Point::Expr(ExprPoint::AssignTarget(sign, right));
            Err(waits(config, frame, node, point, end, stops))
        }
    }
}

/// The right side of `=`, and the store.
#[cycle(direct)]
fn assigned<S: WorldStore>(
    config: &mut Config<S>,
    frame: &Frame,
    node: NodeId,
    right: NodeId,
    reference: Reference,
    room: u16,
    stops: &mut Stops,
) -> Result<Value, Broken>
    requires base { Base S.meaning config.old }
    requires there { IsThere S.meaning config.old frame.now }
    requires node { StandsHere config.old frame.now node }
    requires empty { stops.old.waits ≡ [] }
    requires right { StandsHere config.old frame.now right }
    requires reference { HasReference config.old reference }
    ensures later { InMemory result (Later S.meaning config.old config.new) }
    ensures found { HasOutcome S.meaning HasValue config.new result stops.new.waits stops.new.top }
    ensures does { Evaluates S.meaning (form_here S.meaning config.old frame.now (AtExpr right.0)
        (λ t env. then_value (line.assign_value (reference_in t reference) env)))
        gives_in result stops.new.waits stops.new.top config.old config.new }
{
    match value(config, frame, right, room, stops) {
        Ok(value) => stored(config, frame, reference, value, value, stops),
        Err(end) => {
            let point = Point::Expr(ExprPoint::AssignValue);
            let held = Held::Reference(reference);
            Err(waits_holding(config, frame, node, held, point, end, stops))
        }
    }
}

/// The target's value, the right side of an operator with `=`, and the store of the result.
#[cycle(direct)]
#[inline(never)]
fn compounded<S: WorldStore>(
    config: &mut Config<S>,
    frame: &Frame,
    node: NodeId,
    operator: BinaryOperator,
    right: NodeId,
    reference: Reference,
    room: u16,
    stops: &mut Stops,
) -> Result<Value, Broken>
    requires base { Base S.meaning config.old }
    requires there { IsThere S.meaning config.old frame.now }
    requires node { StandsHere config.old frame.now node }
    requires empty { stops.old.waits ≡ [] }
    requires right { StandsHere config.old frame.now right }
    requires reference { HasReference config.old reference }
    ensures later { InMemory result (Later S.meaning config.old config.new) }
    ensures found { HasOutcome S.meaning HasValue config.new result stops.new.waits stops.new.top }
    ensures does { Evaluates S.meaning (line_here S.meaning config.old frame.now
        (λ t env. line.assign_reference (Some operator) right.0 env (reference_in t reference)))
        gives_in result stops.new.waits stops.new.top config.old config.new }
{
    match reference_value(config, frame, reference) {
        Ok(old) => compound_right(
            config, frame, node, operator, right, reference, old, room, stops,
        ),
        Err(end) => Err(end),
    }
}

/// The right side, behind the target's value.
#[cycle(direct)]
fn compound_right<S: WorldStore>(
    config: &mut Config<S>,
    frame: &Frame,
    node: NodeId,
    operator: BinaryOperator,
    right: NodeId,
    reference: Reference,
    old: Value,
    room: u16,
    stops: &mut Stops,
) -> Result<Value, Broken>
    requires base { Base S.meaning config.old }
    requires there { IsThere S.meaning config.old frame.now }
    requires node { StandsHere config.old frame.now node }
    requires empty { stops.old.waits ≡ [] }
    requires right { StandsHere config.old frame.now right }
    requires reference { HasReference config.old reference }
    requires old { HasValue config.old old }
    ensures later { InMemory result (Later S.meaning config.old config.new) }
    ensures found { HasOutcome S.meaning HasValue config.new result stops.new.waits stops.new.top }
    ensures does { Evaluates S.meaning (form_here S.meaning config.old frame.now (AtExpr right.0)
        (λ t env. then_value (line.compound_value operator (value_in t old) (reference_in t reference) env)))
        gives_in result stops.new.waits stops.new.top config.old config.new }
{
    match value(config, frame, right, room, stops) {
        Ok(value) => compound_stored(config, frame, node, operator, reference, old, value, stops),
        Err(end) => {
            let point = Point::Expr(ExprPoint::CompoundValue(operator));
            Err(wait_compound(config, frame, node, reference, old, point, end, stops))
        }
    }
}

/// `++` or `--`, whose step is taken: its target, and then the next or the previous number (sections 11.3, 11.4.4 and 11.4.5).
#[cycle(direct)]
pub(crate) fn update<S: WorldStore>(
    config: &mut Config<S>,
    frame: &Frame,
    node: NodeId,
    t: NodeId,
    fix: Fix,
    operator: UpdateOperator,
    room: u16,
    stops: &mut Stops,
) -> Result<Value, Broken>
    requires base { Base S.meaning config.old }
    requires there { IsThere S.meaning config.old frame.now }
    requires node { StandsHere config.old frame.now node }
    requires empty { stops.old.waits ≡ [] }
    requires target { StandsHere config.old frame.now t }
    ensures later { InMemory result (Later S.meaning config.old config.new) }
    ensures found { HasOutcome S.meaning HasValue config.new result stops.new.waits stops.new.top }
    ensures does { Evaluates S.meaning (form_here S.meaning config.old frame.now (AtTarget t.0)
        (λ t env. then_reference (line.update_reference (fix_in fix) operator env)))
        gives_in result stops.new.waits stops.new.top config.old config.new }
{
    match target(config, frame, t, room, stops) {
        Ok(reference) => target_updated(config, frame, node, fix, operator, reference, stops),
        Err(end) => {
            let point = Point::Expr(ExprPoint::UpdateTarget(fix, operator));
            Err(waits(config, frame, node, point, end, stops))
        }
    }
}
