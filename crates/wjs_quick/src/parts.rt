//! The values of parts that have no effect.
ghost use Rattle.std.specs.Prelude.{◌≡◌, IfSome, IfNone};
ghost use Rattle.wjs_by_content.specs.Tables.{value_in};
ghost use Rattle.wjs_meaning.specs.Deeds.{Eval, Sub, AtExpr, Gives};
ghost use Rattle.wjs_meaning.specs.Expressions.{expr_at};
ghost use Rattle.wjs_meaning.specs.Programs.{entry};
ghost use Rattle.wjs_model.specs.Soundness.{Base, IsThere, HasValue};
ghost use Rattle.wjs_frames.specs.Doing.{Does};
ghost use Rattle.wjs_frames.specs.Following.{Later};
ghost use Rattle.wjs_frames.specs.Parts.{goal_of, env_in};
ghost use Rattle.wjs_quick.specs.Coming.{GoalComes, Comes};

use crate::evaluate::{form, value_of};
use wjs_base::Value;
use wjs_frames::Part;
use wjs_model::{Config, Frame};
use wjs_store::WorldStore;
use wjs_tree::NodeId;

/// How many expressions stand in one another at most: deeper ones are evaluated by frames, so that no node is asked more often.
const HEIGHT: u8 = 8;

/// The value of a part that is an expression without effect, whose steps are taken: its deeds came to it, and nothing but the
/// steps that are left has changed. None in every other case, also where steps would be wanting; then nothing has changed.
pub fn quick<S: WorldStore>(config: &mut Config<S>, frame: &Frame, part: Part) -> Option<Value>
    requires base { Base S.meaning config.old }
    requires there { IsThere S.meaning config.old frame.now }
    ensures only { config.new ≡ record config.old { left = config.new.left } }
    ensures same { IfNone result (config.new ≡ config.old) }
    ensures does { IfSome result (λ v. Does S.meaning (λ t go. Eval (goal_of part) (env_in S.meaning config.old t frame.now) go)
        (λ t. Gives (value_in t v)) config.old config.new) }
    ensures later { Later S.meaning config.old config.new }
    ensures found { IfSome result (λ v. HasValue config.new v) }
{
    match part {
        Part::Expr(node) => quick_value(config, frame, node),
        _ => None,
    }
}

/// The same of an expression.
fn quick_value<S: WorldStore>(config: &mut Config<S>, frame: &Frame, node: NodeId) -> Option<Value>
    requires base { Base S.meaning config.old }
    requires there { IsThere S.meaning config.old frame.now }
    ensures only { config.new ≡ record config.old { left = config.new.left } }
    ensures same { IfNone result (config.new ≡ config.old) }
    ensures does { IfSome result (λ v. Does S.meaning (λ t go. Eval (AtExpr node.0) (env_in S.meaning config.old t frame.now) go)
        (λ t. Gives (value_in t v)) config.old config.new) }
    ensures later { Later S.meaning config.old config.new }
    ensures found { IfSome result (λ v. HasValue config.new v) }
{
    let mut left = config.left;
    let found = value_at(config, frame, node, &mut left)?;
    config.left = left;
    Some(found)
}

/// The same of an expression that is entered already, as by the step of a loop's iteration, where it is no operand.
pub fn quick_entered<S: WorldStore>(
    config: &mut Config<S>,
    frame: &Frame,
    node: NodeId,
) -> Option<Value>
    requires base { Base S.meaning config.old }
    requires there { IsThere S.meaning config.old frame.now }
    ensures only { config.new ≡ record config.old { left = config.new.left } }
    ensures same { IfNone result (config.new ≡ config.old) }
    ensures does { IfSome result (λ v. Does S.meaning (λ t go. Sub (expr_at node.0 (env_in S.meaning config.old t frame.now)) go)
        (λ t. Gives (value_in t v)) config.old config.new) }
    ensures later { Later S.meaning config.old config.new }
    ensures found { IfSome result (λ v. HasValue config.new v) }
{
    let mut left = config.left;
    let found = form(config, frame, node, HEIGHT - 1, &mut left)?;
    config.left = left;
    Some(found)
}

/// The value of an expression without effect, with so many steps left: those that it takes are taken from them, and the configuration
/// is as it was. After None the number counts for nothing.
pub fn value_at<S: WorldStore>(
    config: &Config<S>,
    frame: &Frame,
    node: NodeId,
    steps: &mut u64,
) -> Option<Value>
    requires base { Base S.meaning config.now }
    requires there { IsThere S.meaning config.now frame.now }
    ensures does { IfSome result (λ v. GoalComes S.meaning (AtExpr node.0) v config.now frame.now steps.old steps.new) }
    ensures found { IfSome result (λ v. HasValue config.now v) }
{
    value_of(config, frame, node, HEIGHT, steps)
}

/// The same of an expression that is entered already, where it is no operand.
#[inline(always)]
pub fn entered_at<S: WorldStore>(
    config: &Config<S>,
    frame: &Frame,
    node: NodeId,
    steps: &mut u64,
) -> Option<Value>
    requires base { Base S.meaning config.now }
    requires there { IsThere S.meaning config.now frame.now }
    ensures does { IfSome result (λ v. Comes S.meaning (λ t env. entry (AtExpr node.0) env) v config.now frame.now steps.old steps.new) }
    ensures found { IfSome result (λ v. HasValue config.now v) }
{
    form(config, frame, node, HEIGHT - 1, steps)
}
