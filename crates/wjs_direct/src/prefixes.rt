//! Operators before an operand (ECMA-262, 3rd edition, section 11.4).
ghost use Rattle.std.specs.Prelude.{◌≡◌, true, []};
ghost use Rattle.wjs_meaning.specs.Deeds.{AtExpr, then_value};
ghost use Rattle.wjs_model.specs.Soundness.{Base, HasValue, IsThere, StandsHere};
ghost use Rattle.wjs_frames.specs.Following.{Later};
ghost use Rattle.wjs_quick.specs.Operating.{after_prefix, is_of_value};
ghost use Rattle.wjs_stopping.specs.Ends.{gives_in};
ghost use Rattle.wjs_stopping.specs.Evaluating.{Evaluates, HasOutcome, InMemory};
ghost use Rattle.wjs_direct_lines.specs.Deeds.{IsNode, entry_here, form_here};

use crate::expressions::value;
use crate::operands::asked;
use crate::stores::update;
use wjs_base::Value;
use wjs_direct_lines::{Query, after_operand, point_of};
use wjs_model::{Config, Fix, Frame, Phase, Point, Start};
use wjs_quick::is_of_value;
use wjs_stopping::{Broken, Stops, stop, waits};
use wjs_store::WorldStore;
use wjs_tree::{Node, NodeId, PrefixOperator, UpdateOperator};

/// An operator before an operand, whose step is taken.
#[cycle(direct)]
#[inline(never)]
pub(crate) fn prefix<S: WorldStore>(
    config: &mut Config<S>,
    frame: &Frame,
    node: NodeId,
    operator: PrefixOperator,
    part: NodeId,
    room: u16,
    stops: &mut Stops,
) -> Result<Value, Broken>
    requires base { Base S.meaning config.old }
    requires there { IsThere S.meaning config.old frame.now }
    requires node { StandsHere config.old frame.now node }
    requires empty { stops.old.waits ≡ [] }
    requires is { IsNode S.meaning config.old frame.now node (Node.Prefix operator part) }
    ensures later { InMemory result (Later S.meaning config.old config.new) }
    ensures found { HasOutcome S.meaning HasValue config.new result stops.new.waits stops.new.top }
    ensures does { Evaluates S.meaning (entry_here S.meaning config.old frame.now (AtExpr node.0))
        gives_in result stops.new.waits stops.new.top config.old config.new }
{
    if is_of_value(operator) {
        operand(config, frame, node, operator, part, room, stops)
    } else {
        on_target(config, frame, node, operator, part, room, stops)
    }
}

/// `++` and `--`, whose operand is a target, and `delete` and `typeof`, whose operand may be one; every other operator is left to a frame.
#[cycle(direct)]
fn on_target<S: WorldStore>(
    config: &mut Config<S>,
    frame: &Frame,
    node: NodeId,
    operator: PrefixOperator,
    part: NodeId,
    room: u16,
    stops: &mut Stops,
) -> Result<Value, Broken>
    requires base { Base S.meaning config.old }
    requires there { IsThere S.meaning config.old frame.now }
    requires node { StandsHere config.old frame.now node }
    requires empty { stops.old.waits ≡ [] }
    requires is { IsNode S.meaning config.old frame.now node (Node.Prefix operator part) }
    ensures later { InMemory result (Later S.meaning config.old config.new) }
    ensures found { HasOutcome S.meaning HasValue config.new result stops.new.waits stops.new.top }
    ensures does { Evaluates S.meaning (entry_here S.meaning config.old frame.now (AtExpr node.0))
        gives_in result stops.new.waits stops.new.top config.old config.new }
{
    match operator {
        PrefixOperator::Increment => {
            let next = UpdateOperator::Increment;
            update(config, frame, node, part, Fix::Pre, next, room, stops)
        }
        PrefixOperator::Decrement => {
            let next = UpdateOperator::Decrement;
            update(config, frame, node, part, Fix::Pre, next, room, stops)
        }
        PrefixOperator::Delete => asked(config, frame, node, Query::Delete, part, room, stops),
        PrefixOperator::Typeof => asked(config, frame, node, Query::Typeof, part, room, stops),
        _ => Err(stop(config, frame, node, Phase::Ready(Start::Expr), stops)),
    }
}

/// Its operand, and the operation on it.
#[cycle(direct)]
fn operand<S: WorldStore>(
    config: &mut Config<S>,
    frame: &Frame,
    node: NodeId,
    operator: PrefixOperator,
    part: NodeId,
    room: u16,
    stops: &mut Stops,
) -> Result<Value, Broken>
    requires base { Base S.meaning config.old }
    requires there { IsThere S.meaning config.old frame.now }
    requires node { StandsHere config.old frame.now node }
    requires empty { stops.old.waits ≡ [] }
    requires is { IsNode S.meaning config.old frame.now node (Node.Prefix operator part) }
    requires operator { is_of_value operator ≡ true }
    ensures later { InMemory result (Later S.meaning config.old config.new) }
    ensures found { HasOutcome S.meaning HasValue config.new result stops.new.waits stops.new.top }
    ensures does { Evaluates S.meaning (form_here S.meaning config.old frame.now (AtExpr part.0)
        (λ t env. then_value (after_prefix operator env)))
        gives_in result stops.new.waits stops.new.top config.old config.new }
{
    match value(config, frame, part, room, stops) {
        Ok(value) => after_operand(config, frame, node, operator, value, stops),
        Err(end) => {
            let point = Point::Expr(point_of(operator));
            Err(waits(config, frame, node, point, end, stops))
        }
    }
}
