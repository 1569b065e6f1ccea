//! `delete` and `typeof` (ECMA-262, 3rd edition, sections 11.4.1 and 11.4.3). An operand that is a target is evaluated for its reference,
//! every other one for its value.
ghost use Rattle.std.specs.Prelude.{◌≡◌, []};
ghost use Rattle.wjs_meaning.specs.Deeds.{AtExpr, AtTarget, then_reference};
ghost use Rattle.wjs_model.specs.Soundness.{Base, HasValue, IsThere, StandsHere};
ghost use Rattle.wjs_frames.specs.Following.{Later};
ghost use Rattle.wjs_stopping.specs.Ends.{gives_in};
ghost use Rattle.wjs_stopping.specs.Evaluating.{Evaluates, HasOutcome, InMemory};
ghost use Rattle.wjs_direct_lines.specs.Deeds.{IsNode, entry_here, form_here};
ghost use Rattle.wjs_direct_lines.specs.Operands.{after_reference, operator_of};

use crate::expressions::value;
use crate::targets::target;
use wjs_base::Value;
use wjs_direct_lines::{Query, reference_told, target_point, value_point, value_told};
use wjs_members::is_target;
use wjs_model::{Config, Frame, Point};
use wjs_stopping::{Broken, Stops, waits};
use wjs_store::WorldStore;
use wjs_tree::{Node, NodeId};

/// Such an operator before its operand, whose step is taken: a target, or what is none.
#[cycle(direct)]
#[inline(never)]
pub(crate) fn asked<S: WorldStore>(
    config: &mut Config<S>,
    frame: &Frame,
    node: NodeId,
    query: Query,
    part: NodeId,
    room: u16,
    stops: &mut Stops,
) -> Result<Value, Broken>
    requires base { Base S.meaning config.old }
    requires there { IsThere S.meaning config.old frame.now }
    requires node { StandsHere config.old frame.now node }
    requires empty { stops.old.waits ≡ [] }
    requires is { IsNode S.meaning config.old frame.now node (Node.Prefix (operator_of query) part) }
    ensures later { InMemory result (Later S.meaning config.old config.new) }
    ensures found { HasOutcome S.meaning HasValue config.new result stops.new.waits stops.new.top }
    ensures does { Evaluates S.meaning (entry_here S.meaning config.old frame.now (AtExpr node.0))
        gives_in result stops.new.waits stops.new.top config.old config.new }
{
    if is_target(config, frame, part) {
        target_asked(config, frame, node, query, part, room, stops)
    } else {
        match value(config, frame, part, room, stops) {
            Ok(value) => value_told(config, query, value, stops),
            Err(end) => {
                let point = Point::Expr(value_point(query));
                Err(waits(config, frame, node, point, end, stops))
            }
        }
    }
}

/// An operand that is a target.
#[cycle(direct)]
fn target_asked<S: WorldStore>(
    config: &mut Config<S>,
    frame: &Frame,
    node: NodeId,
    query: Query,
    part: NodeId,
    room: u16,
    stops: &mut Stops,
) -> Result<Value, Broken>
    requires base { Base S.meaning config.old }
    requires there { IsThere S.meaning config.old frame.now }
    requires node { StandsHere config.old frame.now node }
    requires empty { stops.old.waits ≡ [] }
    requires part { StandsHere config.old frame.now part }
    ensures later { InMemory result (Later S.meaning config.old config.new) }
    ensures found { HasOutcome S.meaning HasValue config.new result stops.new.waits stops.new.top }
    ensures does { Evaluates S.meaning (form_here S.meaning config.old frame.now (AtTarget part.0)
        (λ t env. then_reference (after_reference query env)))
        gives_in result stops.new.waits stops.new.top config.old config.new }
{
    match target(config, frame, part, room, stops) {
        Ok(reference) => reference_told(config, frame, query, reference, stops),
        Err(end) => {
            let point = Point::Expr(target_point(query));
            Err(waits(config, frame, node, point, end, stops))
        }
    }
}
