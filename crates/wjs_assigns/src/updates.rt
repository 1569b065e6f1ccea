//! `++` and `--` (ECMA-262, 3rd edition, sections 11.3, 11.4.4 and 11.4.5).
ghost use Rattle.std.specs.Prelude.{◌≡◌};
ghost use Rattle.wjs_by_content.specs.Tables.{value_in};
ghost use Rattle.wjs_meaning.specs.Conversions as conversions;
ghost use Rattle.wjs_meaning.specs.Deeds.{Gives, Sub, then_number};
ghost use Rattle.wjs_meaning.specs.Errors as errors;
ghost use Rattle.wjs_meaning.specs.Expressions as line;
ghost use Rattle.wjs_model.specs.Contents.{reference_in, reference_held};
ghost use Rattle.wjs_model.specs.Soundness.{HasValue, HasReference, StandsHere};
ghost use Rattle.wjs_model.specs.Waiting.{fix_in};
ghost use Rattle.wjs_frames.specs.Handling.{Runs, GoesOn};

use wjs_base::{OutOfMemory, Value, Whole};
use wjs_effects::{given, reference_at_once, updated};
use wjs_frames::{Part, convert, enter, finish, hold};
use wjs_heap_steps::value_of;
use wjs_model::{
    Completion, Config, Conversion, ExprPoint, Fix, Frame, Held, Point, Reference, Trouble,
};
use wjs_num::NumFault;
use wjs_step_common::{held_reference, is_object, store_and_give, throw, to_number};
use wjs_store::WorldStore;
use wjs_tree::{NodeId, UpdateOperator};

/// It goes on with the reference of its target where that is had at once, and else that is entered.
pub fn update_start<S: WorldStore>(
    config: &mut Config<S>,
    frame: Frame,
    fix: Fix,
    operator: UpdateOperator,
    target: NodeId,
) -> Result<(), OutOfMemory>
    requires runs { Runs S.meaning config.old frame }
    requires target { StandsHere config.old frame target }
    ensures { GoesOn S.meaning frame config.old config.new result (λ t env. line.update_target (fix_in fix) operator target.0 env) }
{
    match reference_at_once(config, &frame, target) {
        Some(reference) => update_reference(config, frame, fix, operator, reference),
        None => {
            let point = Point::Expr(ExprPoint::UpdateTarget(fix, operator));
            enter(config, frame, point, Part::Target(target))
        }
    }
}

/// After the target: its value is made a number.
#[inline(always)]
pub fn update_reference<S: WorldStore>(
    config: &mut Config<S>,
    frame: Frame,
    fix: Fix,
    operator: UpdateOperator,
    reference: Reference,
) -> Result<(), OutOfMemory>
    requires runs { Runs S.meaning config.old frame }
    requires reference { HasReference config.old reference }
    ensures { GoesOn S.meaning frame config.old config.new result (λ t env. line.update_reference (fix_in fix) operator env (reference_in t reference)) }
{
    let answer = value_of(config, &frame, reference)?;
    match answer {
        Ok(value) => update_value(config, frame, fix, operator, reference, value),
        Err(error) => finish(config, frame, Completion::Throws(error)),
    }
}

/// After the value of the target: a primitive is a number at once.
#[inline(always)]
fn update_value<S: WorldStore>(
    config: &mut Config<S>,
    frame: Frame,
    fix: Fix,
    operator: UpdateOperator,
    reference: Reference,
    value: Value,
) -> Result<(), OutOfMemory>
    requires runs { Runs S.meaning config.old frame }
    requires reference { HasReference config.old reference }
    requires value { HasValue config.old value }
    ensures { GoesOn S.meaning frame config.old config.new result (λ t env.
        line.update_value (fix_in fix) operator env (reference_in t reference) (value_in t value)) }
{
    if is_object(value) {
        update_object(config, frame, fix, operator, reference, value)
    } else {
        let number = to_number(config, value);
        update_number(config, frame, fix, operator, reference, number)
    }
}

/// An object is converted while the frame waits, and the reference is held.
fn update_object<S: WorldStore>(
    config: &mut Config<S>,
    frame: Frame,
    fix: Fix,
    operator: UpdateOperator,
    reference: Reference,
    value: Value,
) -> Result<(), OutOfMemory>
    requires runs { Runs S.meaning config.old frame }
    requires reference { HasReference config.old reference }
    requires value { HasValue config.old value }
    ensures { GoesOn S.meaning frame config.old config.new result (λ t env.
        Sub (conversions.to_number (value_in t value) env) (then_number (line.update_number (fix_in fix) operator env (reference_in t reference)))) }
{
    let mut frame = frame;
    hold(&mut frame, Held::Reference(reference))?;
    let point = Point::Expr(ExprPoint::UpdateNumber(fix, operator));
    convert(config, frame, point, Conversion::Number, value)
}

/// After ToNumber of an object.
pub fn update_converted<S: WorldStore>(
    config: &mut Config<S>,
    frame: Frame,
    fix: Fix,
    operator: UpdateOperator,
    value: Value,
) -> Result<(), OutOfMemory>
    requires runs { Runs S.meaning config.old frame }
    requires value { HasValue config.old value }
    ensures { GoesOn S.meaning frame config.old config.new result (λ t env.
        then_number (line.update_number (fix_in fix) operator env (reference_in t (reference_held frame.held))) (Gives (value_in t value))) }
{
    match value {
        Value::Number(number) => update_held(config, frame, fix, operator, number),
        _ => finish(config, frame, Completion::Gives(value)),
    }
}

/// After the number of the target that is held.
fn update_held<S: WorldStore>(
    config: &mut Config<S>,
    frame: Frame,
    fix: Fix,
    operator: UpdateOperator,
    number: Whole,
) -> Result<(), OutOfMemory>
    requires runs { Runs S.meaning config.old frame }
    ensures { GoesOn S.meaning frame config.old config.new result (λ t env.
        line.update_number (fix_in fix) operator env (reference_in t (reference_held frame.held)) number.number) }
{
    let reference = held_reference(config, &frame);
    update_number(config, frame, fix, operator, reference, number)
}

/// After the number: the next or the previous one is stored.
#[inline(always)]
fn update_number<S: WorldStore>(
    config: &mut Config<S>,
    frame: Frame,
    fix: Fix,
    operator: UpdateOperator,
    reference: Reference,
    number: Whole,
) -> Result<(), OutOfMemory>
    requires runs { Runs S.meaning config.old frame }
    requires reference { HasReference config.old reference }
    ensures { GoesOn S.meaning frame config.old config.new result (λ t env.
        line.update_number (fix_in fix) operator env (reference_in t reference) number.number) }
{
    match updated(operator, number) {
        Ok(new) => {
            let given = given(fix, number, new);
            store_and_give(
                config,
                frame,
                reference,
                Value::Number(new),
                Value::Number(given),
            )
        }
        Err(fault) => throw(config, frame, trouble_of(fault)),
    }
}

/// The error of a fault of arithmetic.
fn trouble_of(fault: NumFault) -> Trouble
    ensures { result ≡ errors.trouble_of fault }
{
    match fault {
        NumFault::OutOfRange => Trouble::OutOfRange,
        NumFault::NotWhole => Trouble::NotWhole,
    }
}
