//! What an expression does after each part that it waits for (ECMA-262, 3rd edition, section 11).
ghost use Rattle.wjs_model.specs.Soundness.{HasCompletion, HasPoint, HasReference, HasValue};
ghost use Rattle.wjs_frames.specs.Handling.{Runs, Resumes};

use wjs_assigns::{
    assign_reference, assign_value, comma_left, complement_converted, complement_value,
    compound_value, cond_test, delete_reference, delete_value, minus_converted, minus_value,
    not_value, plus_primitive, plus_value, typeof_reference, typeof_value, update_converted,
    update_reference, void_value,
};
use wjs_base::{OutOfMemory, Value};
use wjs_frames::finish;
use wjs_literals::{
    array_item, call_argument, call_callee, call_reference, new_argument, new_callee, new_made,
    object_item,
};
use wjs_members::{at_base, at_converted, at_index, dot_base};
use wjs_model::{Completion, Config, ExprPoint, Frame, Point, Reference};
use wjs_operators::{binary_left, binary_right, operand_first, operand_second};
use wjs_store::WorldStore;

/// What an expression does with the completion of a part. A value or a reference goes to what waits for it. Any other, as a
/// throw, is the expression's own.
#[inline(always)]
pub fn expr_after<S: WorldStore>(
    config: &mut Config<S>,
    frame: Frame,
    point: ExprPoint,
    completion: Completion,
) -> Result<(), OutOfMemory>
    requires runs { Runs S.meaning config.old frame }
    requires point { HasPoint config.old frame (Point.Expr point) }
    requires completion { HasCompletion config.old completion }
    ensures { Resumes S.meaning frame (Point.Expr point) completion config.old config.new result }
{
    match completion {
        Completion::Gives(value) => expr_value(config, frame, point, value),
        Completion::Refers(reference) => expr_reference(config, frame, point, reference),
        _ => finish(config, frame, completion),
    }
}

/// With a value; where a reference is waited for the value is the expression's own.
#[inline(always)]
fn expr_value<S: WorldStore>(
    config: &mut Config<S>,
    frame: Frame,
    point: ExprPoint,
    value: Value,
) -> Result<(), OutOfMemory>
    requires runs { Runs S.meaning config.old frame }
    requires point { HasPoint config.old frame (Point.Expr point) }
    requires value { HasValue config.old value }
    ensures { Resumes S.meaning frame (Point.Expr point) (Completion.Gives value) config.old config.new result }
{
    match point {
        ExprPoint::ArrayItem(at) => array_item(config, frame, at, value),
        ExprPoint::PairValue(at) => object_item(config, frame, at, value),
        ExprPoint::DotBase(purpose) => dot_base(config, frame, purpose, value),
        ExprPoint::IndexBase(purpose, index) => at_base(config, frame, purpose, index, value),
        ExprPoint::Index(purpose) => at_index(config, frame, purpose, value),
        ExprPoint::IndexName(purpose) => at_converted(config, frame, purpose, value),
        ExprPoint::CalleeValue => call_callee(config, frame, value, Value::Undefined),
        ExprPoint::Argument(at) => call_argument(config, frame, at, value),
        ExprPoint::NewCallee => new_callee(config, frame, value),
        ExprPoint::NewArgument(at) => new_argument(config, frame, at, value),
        ExprPoint::NewCall => new_made(config, frame, value),
        ExprPoint::UpdateNumber(fix, operator) => {
            update_converted(config, frame, fix, operator, value)
        }
        ExprPoint::DeleteValue => delete_value(config, frame),
        ExprPoint::TypeofValue => typeof_value(config, frame, value),
        ExprPoint::VoidValue => void_value(config, frame),
        ExprPoint::NotValue => not_value(config, frame, value),
        ExprPoint::PlusValue => plus_value(config, frame, value),
        ExprPoint::PlusPrimitive => plus_primitive(config, frame, value),
        ExprPoint::MinusValue => minus_value(config, frame, value),
        ExprPoint::MinusNumber => minus_converted(config, frame, value),
        ExprPoint::ComplementValue => complement_value(config, frame, value),
        ExprPoint::ComplementNumber => complement_converted(config, frame, value),
        ExprPoint::BinaryLeft(operator, right) => {
            binary_left(config, frame, operator, right, value)
        }
        ExprPoint::BinaryRight(operator) => binary_right(config, frame, operator, value),
        ExprPoint::OperandFirst(operator) => operand_first(config, frame, operator, value),
        ExprPoint::OperandSecond(operator) => operand_second(config, frame, operator, value),
        ExprPoint::CondTest(yes, no) => cond_test(config, frame, yes, no, value),
        ExprPoint::AssignValue => assign_value(config, frame, value),
        ExprPoint::CompoundValue(operator) => compound_value(config, frame, operator, value),
        ExprPoint::CommaLeft(right) => comma_left(config, frame, right, value),
        ExprPoint::CalleeTarget
        | ExprPoint::UpdateTarget(_, _)
        | ExprPoint::DeleteTarget
        | ExprPoint::TypeofTarget
        | ExprPoint::AssignTarget(_, _) => finish(config, frame, Completion::Gives(value)),
    }
}

/// With a reference; where a value is waited for the reference is the expression's own.
fn expr_reference<S: WorldStore>(
    config: &mut Config<S>,
    frame: Frame,
    point: ExprPoint,
    reference: Reference,
) -> Result<(), OutOfMemory>
    requires runs { Runs S.meaning config.old frame }
    requires point { HasPoint config.old frame (Point.Expr point) }
    requires reference { HasReference config.old reference }
    ensures { Resumes S.meaning frame (Point.Expr point) (Completion.Refers reference) config.old config.new result }
{
    match point {
        ExprPoint::CalleeTarget => call_reference(config, frame, reference),
        ExprPoint::UpdateTarget(fix, operator) => {
            update_reference(config, frame, fix, operator, reference)
        }
        ExprPoint::DeleteTarget => delete_reference(config, frame, reference),
        ExprPoint::TypeofTarget => typeof_reference(config, frame, reference),
        ExprPoint::AssignTarget(sign, right) => {
            assign_reference(config, frame, sign, right, reference)
        }
        _ => finish(config, frame, Completion::Refers(reference)),
    }
}
