//! `++` and `--` behind their target (ECMA-262, 3rd edition, sections 11.3, 11.4.4 and 11.4.5).
ghost use Rattle.std.specs.Prelude.{◌≡◌, []};
ghost use Rattle.wjs_by_content.specs.Tables.{value_in};
ghost use Rattle.wjs_meaning.specs.Expressions as line;
ghost use Rattle.wjs_model.specs.Contents.{reference_in};
ghost use Rattle.wjs_model.specs.Soundness.{Base, HasReference, HasValue, IsThere, StandsHere};
ghost use Rattle.wjs_model.specs.Waiting.{fix_in};
ghost use Rattle.wjs_frames.specs.Following.{Later};
ghost use Rattle.wjs_stopping.specs.Ends.{gives_in};
ghost use Rattle.wjs_stopping.specs.Evaluating.{Evaluates, HasOutcome, InMemory};
ghost use Rattle.wjs_direct_lines.specs.Deeds.{line_here};

use crate::references::reference_value;
use crate::stores::stored;
use wjs_base::{NodeId, Value, Whole};
use wjs_effects::{given, updated};
use wjs_model::{
    Completion, Config, Conversion, ExprPoint, Fix, Frame, Held, Phase, Point, Reference, Start,
};
use wjs_step_common::{is_object, to_number};
use wjs_stopping::{Broken, Stops, stop_holding, waits_holding};
use wjs_store::WorldStore;
use wjs_tree::UpdateOperator;

/// What follows the reference of the target: its value, and then its number.
#[inline(never)]
pub fn target_updated<S: WorldStore>(
    config: &mut Config<S>,
    frame: &Frame,
    node: NodeId,
    fix: Fix,
    operator: UpdateOperator,
    reference: Reference,
    stops: &mut Stops,
) -> Result<Value, Broken>
    requires base { Base S.meaning config.old }
    requires there { IsThere S.meaning config.old frame.now }
    requires node { StandsHere config.old frame.now node }
    requires empty { stops.old.waits ≡ [] }
    requires reference { HasReference config.old reference }
    ensures later { InMemory result (Later S.meaning config.old config.new) }
    ensures found { HasOutcome S.meaning HasValue config.new result stops.new.waits stops.new.top }
    ensures does { Evaluates S.meaning (line_here S.meaning config.old frame.now
        (λ t env. line.update_reference (fix_in fix) operator env (reference_in t reference)))
        gives_in result stops.new.waits stops.new.top config.old config.new }
{
    match reference_value(config, frame, reference) {
        Ok(old) => value_updated(config, frame, node, fix, operator, reference, old, stops),
        Err(end) => Err(end),
    }
}

/// What follows its value: of a primitive its number, and an object is converted to one by a frame.
fn value_updated<S: WorldStore>(
    config: &mut Config<S>,
    frame: &Frame,
    node: NodeId,
    fix: Fix,
    operator: UpdateOperator,
    reference: Reference,
    old: Value,
    stops: &mut Stops,
) -> Result<Value, Broken>
    requires base { Base S.meaning config.old }
    requires there { IsThere S.meaning config.old frame.now }
    requires node { StandsHere config.old frame.now node }
    requires empty { stops.old.waits ≡ [] }
    requires reference { HasReference config.old reference }
    requires old { HasValue config.old old }
    ensures later { InMemory result (Later S.meaning config.old config.new) }
    ensures found { HasOutcome S.meaning HasValue config.new result stops.new.waits stops.new.top }
    ensures does { Evaluates S.meaning (line_here S.meaning config.old frame.now
        (λ t env. line.update_value (fix_in fix) operator env (reference_in t reference) (value_in t old)))
        gives_in result stops.new.waits stops.new.top config.old config.new }
{
    if is_object(old) {
        converted(config, frame, node, fix, operator, reference, old, stops)
    } else {
        let number = to_number(config, old);
        number_updated(config, frame, node, fix, operator, reference, number, stops)
    }
}

/// The number after or before it is stored; where there is none, a frame throws.
fn number_updated<S: WorldStore>(
    config: &mut Config<S>,
    frame: &Frame,
    node: NodeId,
    fix: Fix,
    operator: UpdateOperator,
    reference: Reference,
    number: Whole,
    stops: &mut Stops,
) -> Result<Value, Broken>
    requires base { Base S.meaning config.old }
    requires there { IsThere S.meaning config.old frame.now }
    requires node { StandsHere config.old frame.now node }
    requires empty { stops.old.waits ≡ [] }
    requires reference { HasReference config.old reference }
    ensures later { InMemory result (Later S.meaning config.old config.new) }
    ensures found { HasOutcome S.meaning HasValue config.new result stops.new.waits stops.new.top }
    ensures does { Evaluates S.meaning (line_here S.meaning config.old frame.now
        (λ t env. line.update_number (fix_in fix) operator env (reference_in t reference) number.number))
        gives_in result stops.new.waits stops.new.top config.old config.new }
{
    match updated(operator, number) {
        Ok(next) => {
            let told = given(fix, number, next);
            let (value, told) = (Value::Number(next), Value::Number(told));
            stored(config, frame, reference, value, told, stops)
        }
        Err(_) => {
            let point = Point::Expr(ExprPoint::UpdateNumber(fix, operator));
            let phase = Phase::Given(point, Completion::Gives(Value::Number(number)));
            let held = Held::Reference(reference);
            Err(stop_holding(config, frame, node, held, phase, stops))
        }
    }
}

/// Its value is converted by a frame above that of its node, which holds the reference.
fn converted<S: WorldStore>(
    config: &mut Config<S>,
    frame: &Frame,
    node: NodeId,
    fix: Fix,
    operator: UpdateOperator,
    reference: Reference,
    old: Value,
    stops: &mut Stops,
) -> Result<Value, Broken>
    requires base { Base S.meaning config.old }
    requires there { IsThere S.meaning config.old frame.now }
    requires node { StandsHere config.old frame.now node }
    requires empty { stops.old.waits ≡ [] }
    requires reference { HasReference config.old reference }
    requires old { HasValue config.old old }
    ensures later { InMemory result (Later S.meaning config.old config.new) }
    ensures found { HasOutcome S.meaning HasValue config.new result stops.new.waits stops.new.top }
    ensures does { Evaluates S.meaning (line_here S.meaning config.old frame.now
        (λ t env. line.update_value (fix_in fix) operator env (reference_in t reference) (value_in t old)))
        gives_in result stops.new.waits stops.new.top config.old config.new }
{
    let phase = Phase::Ready(Start::Convert(Conversion::Number));
    let end = stop_holding(config, frame, node, Held::Value(old), phase, stops);
    let point = Point::Expr(ExprPoint::UpdateNumber(fix, operator));
    let held = Held::Reference(reference);
    Err(waits_holding(config, frame, node, held, point, end, stops))
}
