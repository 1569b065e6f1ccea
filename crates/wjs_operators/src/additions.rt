//! `+` (ECMA-262, 3rd edition, section 11.6.1): a text on either side joins the texts of both.
ghost use Rattle.wjs_by_content.specs.Tables.{value_in};
ghost use Rattle.wjs_meaning.specs.Errors.{give_result};
ghost use Rattle.wjs_meaning.specs.Operators as line;
ghost use Rattle.wjs_model.specs.Contents.{value_held};
ghost use Rattle.wjs_model.specs.Soundness.{HasValue};
ghost use Rattle.wjs_frames.specs.Handling.{Runs, GoesOn};

use wjs_base::{OutOfMemory, Value};
use wjs_frames::{convert, hold};
use wjs_model::{Config, Conversion, ExprPoint, Frame, Held, Point};
use wjs_step_common::{are_primitives, give_result, held_value, is_text, join, to_number};
use wjs_store::WorldStore;
use wjs_tree::BinaryOperator;

/// The sum of two values.
#[inline(always)]
pub(crate) fn add<S: WorldStore>(
    config: &mut Config<S>,
    frame: Frame,
    left: Value,
    right: Value,
) -> Result<(), OutOfMemory>
    requires runs { Runs S.meaning config.old frame }
    requires left { HasValue config.old left }
    requires right { HasValue config.old right }
    ensures { GoesOn S.meaning frame config.old config.new result (λ t env. line.add_values (value_in t left) (value_in t right) env) }
{
    if are_primitives(left, right) {
        added(config, frame, left, right)
    } else {
        add_objects(config, frame, left, right)
    }
}

/// The left value is converted, and the right one is held.
fn add_objects<S: WorldStore>(
    config: &mut Config<S>,
    frame: Frame,
    left: Value,
    right: Value,
) -> Result<(), OutOfMemory>
    requires runs { Runs S.meaning config.old frame }
    requires left { HasValue config.old left }
    requires right { HasValue config.old right }
    ensures { GoesOn S.meaning frame config.old config.new result (λ t env. line.add_values (value_in t left) (value_in t right) env) }
{
    let mut frame = frame;
    hold(&mut frame, Held::Value(right))?;
    let point = Point::Expr(ExprPoint::OperandFirst(BinaryOperator::Add));
    convert(config, frame, point, Conversion::NumberFirst, left)
}

/// After the conversion of the left value: the right one is converted.
pub(crate) fn add_right<S: WorldStore>(
    config: &mut Config<S>,
    frame: Frame,
    primitive: Value,
) -> Result<(), OutOfMemory>
    requires runs { Runs S.meaning config.old frame }
    requires value { HasValue config.old primitive }
    ensures { GoesOn S.meaning frame config.old config.new result (λ t env. line.add_first (value_in t (value_held frame.held)) env (value_in t primitive)) }
{
    let right = held_value(config, &frame);
    let mut frame = frame;
    hold(&mut frame, Held::Value(primitive))?;
    let point = Point::Expr(ExprPoint::OperandSecond(BinaryOperator::Add));
    convert(config, frame, point, Conversion::NumberFirst, right)
}

/// After the conversion of the right value: the left one is held.
pub(crate) fn add_both<S: WorldStore>(
    config: &mut Config<S>,
    frame: Frame,
    primitive: Value,
) -> Result<(), OutOfMemory>
    requires runs { Runs S.meaning config.old frame }
    requires value { HasValue config.old primitive }
    ensures { GoesOn S.meaning frame config.old config.new result (λ t env. line.add_second (value_in t (value_held frame.held)) env (value_in t primitive)) }
{
    let left = held_value(config, &frame);
    added(config, frame, left, primitive)
}

/// Both are primitives.
#[inline(always)]
fn added<S: WorldStore>(
    config: &mut Config<S>,
    frame: Frame,
    left: Value,
    right: Value,
) -> Result<(), OutOfMemory>
    requires runs { Runs S.meaning config.old frame }
    requires left { HasValue config.old left }
    requires right { HasValue config.old right }
    ensures { GoesOn S.meaning frame config.old config.new result (λ t env. line.add_second (value_in t left) env (value_in t right)) }
{
    if is_text(left) || is_text(right) {
        return join(config, frame, left, right);
    }
    let x = to_number(config, left);
    let y = to_number(config, right);
    give_result(config, frame, wjs_num::add(x, y))
}
