//! Conditions and commas (ECMA-262, 3rd edition, sections 11.12 and 11.14).
ghost use Rattle.wjs_by_content.specs.Tables.{value_in};
ghost use Rattle.wjs_meaning.specs.Deeds.{Eval, AtExpr, then_value};
ghost use Rattle.wjs_meaning.specs.Expressions as line;
ghost use Rattle.wjs_model.specs.Soundness.{HasValue, StandsHere};
ghost use Rattle.wjs_frames.specs.Handling.{Runs, IsAt, GoesOn};

use wjs_base::{OutOfMemory, Value};
use wjs_frames::{Part, enter};
use wjs_model::{Config, ExprPoint, Frame, Point};
use wjs_quick::{enter_last_quickly, quick};
use wjs_step_common::to_boolean;
use wjs_store::WorldStore;
use wjs_tree::{Node, NodeId};

/// The test of a condition has its value at once, or is entered.
pub fn cond_start<S: WorldStore>(
    config: &mut Config<S>,
    frame: Frame,
    test: NodeId,
    yes: NodeId,
    no: NodeId,
) -> Result<(), OutOfMemory>
    requires runs { Runs S.meaning config.old frame }
    requires node { IsAt S.meaning config.old frame (Node.Cond test yes no) }
    ensures { GoesOn S.meaning frame config.old config.new result (λ t env. Eval (AtExpr test.0) env (then_value (line.cond_test yes.0 no.0 env))) }
{
    match quick(config, &frame, Part::Expr(test)) {
        Some(value) => cond_test(config, frame, yes, no, value),
        None => {
            let point = Point::Expr(ExprPoint::CondTest(yes, no));
            enter(config, frame, point, Part::Expr(test))
        }
    }
}

/// After the test: one of the two is the expression's value.
pub fn cond_test<S: WorldStore>(
    config: &mut Config<S>,
    frame: Frame,
    yes: NodeId,
    no: NodeId,
    value: Value,
) -> Result<(), OutOfMemory>
    requires runs { Runs S.meaning config.old frame }
    requires yes { StandsHere config.old frame yes }
    requires no { StandsHere config.old frame no }
    requires value { HasValue config.old value }
    ensures { GoesOn S.meaning frame config.old config.new result (λ t env. line.cond_test yes.0 no.0 env (value_in t value)) }
{
    if to_boolean(config, value) {
        enter_last_quickly(config, frame, Part::Expr(yes))
    } else {
        enter_last_quickly(config, frame, Part::Expr(no))
    }
}

/// The left of a comma has its value at once, or is entered.
pub fn comma_start<S: WorldStore>(
    config: &mut Config<S>,
    frame: Frame,
    left: NodeId,
    right: NodeId,
) -> Result<(), OutOfMemory>
    requires runs { Runs S.meaning config.old frame }
    requires node { IsAt S.meaning config.old frame (Node.Comma left right) }
    ensures { GoesOn S.meaning frame config.old config.new result (λ t env. Eval (AtExpr left.0) env (then_value (line.comma_left right.0 env))) }
{
    match quick(config, &frame, Part::Expr(left)) {
        Some(value) => comma_left(config, frame, right, value),
        None => {
            let point = Point::Expr(ExprPoint::CommaLeft(right));
            enter(config, frame, point, Part::Expr(left))
        }
    }
}

/// After the left of a comma: the right is the expression's value.
pub fn comma_left<S: WorldStore>(
    config: &mut Config<S>,
    frame: Frame,
    right: NodeId,
    value: Value,
) -> Result<(), OutOfMemory>
    requires runs { Runs S.meaning config.old frame }
    requires right { StandsHere config.old frame right }
    requires value { HasValue config.old value }
    ensures { GoesOn S.meaning frame config.old config.new result (λ t env. line.comma_left right.0 env (value_in t value)) }
{
    enter_last_quickly(config, frame, Part::Expr(right))
}
