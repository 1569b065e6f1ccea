//! Conditions and commas (ECMA-262, 3rd edition, sections 11.12 and 11.14).
ghost use Rattle.std.specs.Prelude.{◌≡◌, []};
ghost use Rattle.wjs_meaning.specs.Deeds.{AtExpr, then_value};
ghost use Rattle.wjs_meaning.specs.Expressions as line;
ghost use Rattle.wjs_model.specs.Soundness.{Base, HasValue, IsThere, StandsHere};
ghost use Rattle.wjs_frames.specs.Following.{Later};
ghost use Rattle.wjs_stopping.specs.Ends.{gives_in};
ghost use Rattle.wjs_stopping.specs.Evaluating.{Evaluates, HasOutcome, InMemory};
ghost use Rattle.wjs_direct_lines.specs.Deeds.{IsNode, form_here};

use crate::expressions::value;
use wjs_base::Value;
use wjs_direct_lines::picked;
use wjs_model::{Config, ExprPoint, Frame, Point};
use wjs_stopping::{Broken, Stops, waits};
use wjs_store::WorldStore;
use wjs_tree::{Node, NodeId};

/// A condition (section 11.12): its test, and then the part that the test chooses.
#[cycle(direct)]
#[inline(never)]
pub(crate) fn choice<S: WorldStore>(
    config: &mut Config<S>,
    frame: &Frame,
    node: NodeId,
    test: NodeId,
    yes: NodeId,
    no: NodeId,
    room: u16,
    stops: &mut Stops,
) -> Result<Value, Broken>
    requires base { Base S.meaning config.old }
    requires there { IsThere S.meaning config.old frame.now }
    requires node { StandsHere config.old frame.now node }
    requires empty { stops.old.waits ≡ [] }
    requires is { IsNode S.meaning config.old frame.now node (Node.Cond test yes no) }
    ensures later { InMemory result (Later S.meaning config.old config.new) }
    ensures found { HasOutcome S.meaning HasValue config.new result stops.new.waits stops.new.top }
    ensures does { Evaluates S.meaning (form_here S.meaning config.old frame.now (AtExpr test.0)
        (λ t env. then_value (line.cond_test yes.0 no.0 env)))
        gives_in result stops.new.waits stops.new.top config.old config.new }
{
    match value(config, frame, test, room, stops) {
        Ok(truth) => {
            let next = picked(config, frame, truth, yes, no);
            value(config, frame, next, room, stops)
        }
        Err(end) => {
            let point = Point::Expr(ExprPoint::CondTest(yes, no));
            Err(waits(config, frame, node, point, end, stops))
        }
    }
}

/// One expression, whose value is dropped, and then another (section 11.14).
#[cycle(direct)]
#[inline(never)]
pub(crate) fn comma<S: WorldStore>(
    config: &mut Config<S>,
    frame: &Frame,
    node: NodeId,
    first: NodeId,
    second: NodeId,
    room: u16,
    stops: &mut Stops,
) -> Result<Value, Broken>
    requires base { Base S.meaning config.old }
    requires there { IsThere S.meaning config.old frame.now }
    requires node { StandsHere config.old frame.now node }
    requires empty { stops.old.waits ≡ [] }
    requires is { IsNode S.meaning config.old frame.now node (Node.Comma first second) }
    ensures later { InMemory result (Later S.meaning config.old config.new) }
    ensures found { HasOutcome S.meaning HasValue config.new result stops.new.waits stops.new.top }
    ensures does { Evaluates S.meaning (form_here S.meaning config.old frame.now (AtExpr first.0)
        (λ t env. then_value (line.comma_left second.0 env)))
        gives_in result stops.new.waits stops.new.top config.old config.new }
{
    match value(config, frame, first, room, stops) {
        Ok(before) => {
            let _before = before;
            value(config, frame, second, room, stops)
        }
        Err(end) => {
            let point = Point::Expr(ExprPoint::CommaLeft(second));
            Err(waits(config, frame, node, point, end, stops))
        }
    }
}
