//! Prefix operators behind their operand (ECMA-262, 3rd edition, sections 11.4.2 and 11.4.6 to 11.4.9).
ghost use Rattle.std.specs.Prelude.{◌≡◌, true, []};
ghost use Rattle.wjs_by_content.specs.Tables.{value_in};
ghost use Rattle.wjs_model.specs.Soundness.{Base, HasValue, IsThere, StandsHere};
ghost use Rattle.wjs_frames.specs.Following.{Later};
ghost use Rattle.wjs_quick.specs.Operating.{after_prefix, is_of_value};
ghost use Rattle.wjs_stopping.specs.Ends.{gives_in};
ghost use Rattle.wjs_stopping.specs.Evaluating.{Evaluates, HasOutcome, InMemory};
ghost use Rattle.wjs_direct_lines.specs.Deeds.{line_here, prefix_point};

use wjs_base::Value;
use wjs_model::{Completion, Config, ExprPoint, Frame, Phase, Point};
use wjs_quick::prefixed;
use wjs_stopping::{Broken, Stops, stop};
use wjs_store::WorldStore;
use wjs_tree::{NodeId, PrefixOperator};

/// Where its frame waits for its operand.
pub fn point_of(operator: PrefixOperator) -> ExprPoint
    ensures { result ≡ prefix_point operator }
{
    match operator {
        PrefixOperator::Plus => ExprPoint::PlusValue,
        PrefixOperator::Minus => ExprPoint::MinusValue,
        PrefixOperator::BitNot => ExprPoint::ComplementValue,
        PrefixOperator::Not => ExprPoint::NotValue,
        _ => ExprPoint::VoidValue,
    }
}

/// The operation on its operand; one that asks for a conversion is done by a frame.
pub fn after_operand<S: WorldStore>(
    config: &mut Config<S>,
    frame: &Frame,
    node: NodeId,
    operator: PrefixOperator,
    value: Value,
    stops: &mut Stops,
) -> Result<Value, Broken>
    requires base { Base S.meaning config.old }
    requires there { IsThere S.meaning config.old frame.now }
    requires node { StandsHere config.old frame.now node }
    requires empty { stops.old.waits ≡ [] }
    requires operator { is_of_value operator ≡ true }
    requires value { HasValue config.old value }
    ensures later { InMemory result (Later S.meaning config.old config.new) }
    ensures found { HasOutcome S.meaning HasValue config.new result stops.new.waits stops.new.top }
    ensures does { Evaluates S.meaning (line_here S.meaning config.old frame.now (λ t env. after_prefix operator env (value_in t value)))
        gives_in result stops.new.waits stops.new.top config.old config.new }
{
    match prefixed(config, operator, value) {
        Some(given) => Ok(given),
        None => {
            let point = Point::Expr(point_of(operator));
            let phase = Phase::Given(point, Completion::Gives(value));
            Err(stop(config, frame, node, phase, stops))
        }
    }
}
