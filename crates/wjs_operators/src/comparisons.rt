//! Comparisons by order (ECMA-262, 3rd edition, sections 11.8.1 to 11.8.5).
ghost use Rattle.std.specs.Prelude.{◌≡◌, true};
ghost use Rattle.wjs_by_content.specs.Tables.{value_in};
ghost use Rattle.wjs_meaning.specs.Operators as line;
ghost use Rattle.wjs_model.specs.Contents.{value_held};
ghost use Rattle.wjs_model.specs.Soundness.{HasValue};
ghost use Rattle.wjs_operators.specs.Operating.{is_comparison};
ghost use Rattle.wjs_frames.specs.Handling.{Runs, GoesOn};

use wjs_base::{OutOfMemory, Value};
use wjs_frames::{convert, finish, hold};
use wjs_model::{Completion, Config, Conversion, ExprPoint, Frame, Held, Point};
use wjs_quick::is_so;
use wjs_step_common::{are_primitives, held_value};
use wjs_store::WorldStore;
use wjs_tree::BinaryOperator;

/// The comparison of two values.
#[inline(always)]
pub(crate) fn compare<S: WorldStore>(
    config: &mut Config<S>,
    frame: Frame,
    operator: BinaryOperator,
    left: Value,
    right: Value,
) -> Result<(), OutOfMemory>
    requires runs { Runs S.meaning config.old frame }
    requires comparison { is_comparison operator ≡ true }
    requires left { HasValue config.old left }
    requires right { HasValue config.old right }
    ensures { GoesOn S.meaning frame config.old config.new result (λ t env. line.compare_values operator (value_in t left) (value_in t right) env) }
{
    if are_primitives(left, right) {
        compared(config, frame, operator, left, right)
    } else {
        compare_objects(config, frame, operator, left, right)
    }
}

/// The left value is converted, and the right one is held.
fn compare_objects<S: WorldStore>(
    config: &mut Config<S>,
    frame: Frame,
    operator: BinaryOperator,
    left: Value,
    right: Value,
) -> Result<(), OutOfMemory>
    requires runs { Runs S.meaning config.old frame }
    requires comparison { is_comparison operator ≡ true }
    requires left { HasValue config.old left }
    requires right { HasValue config.old right }
    ensures { GoesOn S.meaning frame config.old config.new result (λ t env. line.compare_values operator (value_in t left) (value_in t right) env) }
{
    let mut frame = frame;
    hold(&mut frame, Held::Value(right))?;
    let point = Point::Expr(ExprPoint::OperandFirst(operator));
    convert(config, frame, point, Conversion::NumberFirst, left)
}

/// After the conversion of the left value: the right one is converted.
pub(crate) fn compare_right<S: WorldStore>(
    config: &mut Config<S>,
    frame: Frame,
    operator: BinaryOperator,
    primitive: Value,
) -> Result<(), OutOfMemory>
    requires runs { Runs S.meaning config.old frame }
    requires comparison { is_comparison operator ≡ true }
    requires value { HasValue config.old primitive }
    ensures { GoesOn S.meaning frame config.old config.new result (λ t env.
        line.compare_first operator (value_in t (value_held frame.held)) env (value_in t primitive)) }
{
    let right = held_value(config, &frame);
    let mut frame = frame;
    hold(&mut frame, Held::Value(primitive))?;
    let point = Point::Expr(ExprPoint::OperandSecond(operator));
    convert(config, frame, point, Conversion::NumberFirst, right)
}

/// After the conversion of the right value: the left one is held.
pub(crate) fn compare_both<S: WorldStore>(
    config: &mut Config<S>,
    frame: Frame,
    operator: BinaryOperator,
    primitive: Value,
) -> Result<(), OutOfMemory>
    requires runs { Runs S.meaning config.old frame }
    requires value { HasValue config.old primitive }
    ensures { GoesOn S.meaning frame config.old config.new result (λ t env.
        line.compare_second operator (value_in t (value_held frame.held)) (value_in t primitive)) }
{
    let left = held_value(config, &frame);
    compared(config, frame, operator, left, primitive)
}

/// Both are primitives.
#[inline(always)]
fn compared<S: WorldStore>(
    config: &mut Config<S>,
    frame: Frame,
    operator: BinaryOperator,
    left: Value,
    right: Value,
) -> Result<(), OutOfMemory>
    requires runs { Runs S.meaning config.old frame }
    requires left { HasValue config.old left }
    requires right { HasValue config.old right }
    ensures { GoesOn S.meaning frame config.old config.new result (λ t env. line.compare_second operator (value_in t left) (value_in t right)) }
{
    let truth = is_so(config, operator, left, right);
    finish(config, frame, Completion::Gives(Value::Bool(truth)))
}
